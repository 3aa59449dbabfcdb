// Strings with one quote at each end, read without the states.

ghost use Rattle.std.specs.Prelude.{◌≡◌, ◌<◌, ◌≤◌, ℕ, List, None, true, length, drop, IfSome, IsUtf8};
ghost use Rattle.rdf_terms.specs.declared.kind.Kind.TheVariants.{ShortString};
ghost use Rattle.rdf_tokens.specs.Quick.{IsToken, opens_with};
ghost use Rattle.rdf_tokens.specs.Strings.{begins_high, IsFirst};
ghost use Rattle.rdf_tokens.specs.Walk.{IsFit, Walked, counted_bytes};

use crate::bytes::char_at;
use crate::escapes::{is_echar, string_end, uchar_end};
use crate::front::{Walk, walk_to};
use crate::quick::{begins_string, opens_with, quote_byte, stands_at};
use crate::states::machine::State;
use crate::states::text::{Quote, Text};
use rdf_terms::Dialect;

/// The length of the string that the text begins with, where it stands there whole, and no escape of it is bad. Of one
/// that goes on it is kept how far it came, and it is gone on with from there.
#[inline(always)]
pub(crate) fn string_len(dialect: Dialect, text: &str, walk: &mut Option<Walk>) -> Option<usize>
    requires { Walked dialect text.now walk.old }
    ensures token { IfSome result (λ len. IsToken dialect text.now len ShortString) }
    ensures walked { Walked dialect text.now walk.new }
{
    if walk.is_some() {
        return kept_len(dialect, text, walk);
    }
    match quote_of(dialect, text.as_bytes()) {
        Some(quote) => quoted_len(dialect, quote, text, walk),
        None => None,
    }
}

/// The quote that comes first.
#[inline(always)]
fn quote_of(dialect: Dialect, bytes: &[u8]) -> Option<Quote>
    ensures { IfSome result (λ quote. opens_with dialect quote bytes.now ≡ true) }
{
    if opens_with(dialect, Quote::Double, bytes) {
        Some(Quote::Double)
    } else if opens_with(dialect, Quote::Single, bytes) {
        Some(Quote::Single)
    } else {
        None
    }
}

/// The same of a string in this quote. After fewer than three bytes nothing is kept, as by the states.
#[inline(never)]
pub(crate) fn quoted_len(
    dialect: Dialect,
    quote: Quote,
    text: &str,
    walk: &mut Option<Walk>,
) -> Option<usize>
    requires opens { opens_with dialect quote text.now ≡ true }
    requires walked { Walked dialect text.now walk.old }
    requires none { walk.old ≡ None }
    ensures token { IfSome result (λ len. IsToken dialect text.now len ShortString) }
    ensures walked { Walked dialect text.now walk.new }
{
    let bytes = text.as_bytes();
    let Some(first) = first_end(quote, text) else {
        return None;
    };
    let end = string_end(quote, bytes, first);
    if stands_at(quote_byte(quote), bytes, end) {
        return Some(end + 1);
    }
    if end >= 3 {
        keep_inside(quote, end, walk);
    }
    None
}

/// The same of a token of which something is kept.
#[inline(never)]
fn kept_len(dialect: Dialect, text: &str, walk: &mut Option<Walk>) -> Option<usize>
    requires { Walked dialect text.now walk.old }
    ensures token { IfSome result (λ len. IsToken dialect text.now len ShortString) }
    ensures walked { Walked dialect text.now walk.new }
{
    if let Some(known) = *walk {
        if let Some(quote) = known.fit {
            return resumed_len(dialect, quote, text, known.at, walk);
        }
    }
    None
}

/// The same of a string that has no bad escape up to a place.
fn resumed_len(
    dialect: Dialect,
    quote: Quote,
    text: &str,
    from: usize,
    walk: &mut Option<Walk>,
) -> Option<usize>
    requires fit { IsFit dialect text.now from quote }
    requires enough { 3 ≤ from }
    requires counted { counted_bytes walk.old ≤ from }
    requires walked { Walked dialect text.now walk.old }
    ensures token { IfSome result (λ len. IsToken dialect text.now len ShortString) }
    ensures walked { Walked dialect text.now walk.new }
{
    let bytes = text.as_bytes();
    let end = string_end(quote, bytes, from);
    if stands_at(quote_byte(quote), bytes, end) {
        return Some(end + 1);
    }
    keep_inside(quote, end, walk);
    None
}

/// Keeps that a string in this quote has no bad escape up to a place, and goes on there.
#[inline(never)]
fn keep_inside(quote: Quote, at: usize, walk: &mut Option<Walk>)
    ensures { (d : Dialect) (bs : List ℕ) → IsUtf8 bs → Walked d bs walk.old → counted_bytes walk.old ≤ at → 3 ≤ at →
        IsFit d bs at quote → Walked d bs walk.new }
{
    *walk = Some(walk_to(walk, State::Text(Text::Short(quote)), at, Some(quote)));
}

/// Where the first character or escape of a string ends, if it can stand there.
#[inline(always)]
fn first_end(quote: Quote, text: &str) -> Option<usize>
    requires some { 0 < length text.now }
    requires utf8 { IsUtf8 (drop 1 text.now) }
    ensures { IfSome result (λ end. IsFirst quote text.now end) }
{
    let bytes = text.as_bytes();
    if begins_string(quote, bytes) {
        return Some(2);
    }
    if begins_high(bytes) {
        return Some(char_at(text, 1).1);
    }
    if is_echar(bytes, 1) {
        return Some(3);
    }
    uchar_end(bytes, 1)
}

/// Whether the second byte is not of ASCII.
#[inline(always)]
fn begins_high(bytes: &[u8]) -> bool
    ensures { result ≡ begins_high bytes.now }
{
    bytes.len() > 1 && bytes[1] >= 128
}
