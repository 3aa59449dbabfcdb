// The characters that a token's inside means.

ghost use Rattle.std.specs.Prelude.{◌≡◌, ◌↔◌, ◌≤◌, ◌<◌, ◌+◌, ◌++◌, true, false, cond, IfOk, OnOk, OnErr, IfSome};
ghost use Rattle.std.specs.Prelude.{Err, Some, None, is_some, option_map, drop, length, get_or, slice_range};
ghost use Rattle.std.specs.Prelude.{encode_utf8};
ghost use Rattle.std.specs.Str.{chars, IsUtf8};
ghost use Rattle.std.specs.String.{string_bytes};
ghost use Rattle.rdf_terms.specs.Classes.{has, scalar};
ghost use Rattle.rdf_terms.specs.Classes.Class.{iri_char};
ghost use Rattle.rdf_terms.specs.Runs.{IsRun, goes_over};
ghost use Rattle.rdf_terms.specs.Terms.{all_have};
ghost use Rattle.rdf_terms.specs.Values.{value, inside, is_fit, outside, string_value, iri_value, leads, echar_move};
ghost use Rattle.rdf_terms.specs.Escapes.{inside_of, run_of, allowed_in, completes, may_mean, IsRead, Reads, IsPut, IsPutUpTo};

use crate::Kind;
use crate::classes::is_iri_char;
use crate::escapes::{letter_meaning, short_uchar, uchar};
use crate::runs::{Run, near_run_end, run_end};
use std::alloc::{AllocError, Allocator};

/// Why a text has no value.
#[derive(Clone, Copy, PartialEq, Eq, Debug)]
pub enum ValueFault {
    /// An escape is unknown or cut or stands for no character allowed there, or an IRI has a character that it
    /// excludes.
    BadEscape,
    /// A growth of memory was refused.
    Memory,
}

/// The characters that the inside of a string token means: each ECHAR and UCHAR stands for one (Turtle 6.4).
pub fn string_value<A: Allocator>(alloc: A, inside: &str) -> Result<String<A>, ValueFault>
    ensures ok { IfOk result (λ s. string_value (chars inside.now) ≡ Some (chars (string_bytes s))) }
    ensures bad { (result ≡ Err ValueFault.BadEscape) ↔ (string_value (chars inside.now) ≡ None) }
{
    value(alloc, Inside::OfString, inside)
}

/// The characters that the inside of an IRIREF means: each UCHAR stands for one, and each is one of IRIREF (Turtle
/// 6.4).
#[tactic(auto, using(crate::proofs::ValuesLemmas::iri_value_characters))]
pub fn iri_value<A: Allocator>(alloc: A, inside: &str) -> Result<String<A>, ValueFault>
    ensures ok { IfOk result (λ s. iri_value (chars inside.now) ≡ Some (chars (string_bytes s))) }
    ensures characters { IfOk result (λ s. all_have (has iri_char) (chars (string_bytes s)) ≡ true) }
    ensures bad { (result ≡ Err ValueFault.BadEscape) ↔ (iri_value (chars inside.now) ≡ None) }
{
    value(alloc, Inside::OfIri, inside)
}

/// Puts what the inside of a string token means in place of a text, in the memory that the text has. After an error
/// nothing is known of the text.
pub fn set_string_value<A: Allocator>(out: &mut String<A>, inside: &str) -> Result<(), ValueFault>
    ensures ok { OnOk result (string_value (chars inside.now) ≡ Some (chars (string_bytes out.new))) }
    ensures bad { (result ≡ Err ValueFault.BadEscape) ↔ (string_value (chars inside.now) ≡ None) }
{
    set_value(out, Inside::OfString, inside)
}

/// Puts what the inside of an IRIREF means in place of a text, as `set_string_value` does.
#[tactic(auto, using(crate::proofs::ValuesLemmas::iri_value_characters))]
pub fn set_iri_value<A: Allocator>(out: &mut String<A>, inside: &str) -> Result<(), ValueFault>
    ensures ok { OnOk result (iri_value (chars inside.now) ≡ Some (chars (string_bytes out.new))) }
    ensures characters { OnOk result (all_have (has iri_char) (chars (string_bytes out.new)) ≡ true) }
    ensures bad { (result ≡ Err ValueFault.BadEscape) ↔ (iri_value (chars inside.now) ≡ None) }
{
    set_value(out, Inside::OfIri, inside)
}

/// Whether a token's text has no bad escape. A text of another kind than IRIs and strings has none.
pub fn is_fit(kind: Kind, text: &str) -> bool
    ensures { result ≡ is_fit kind (chars text.now) }
{
    match kind {
        Kind::IriRef => is_iri_inside(without_ends(text)),
        Kind::ShortString => is_string_inside(without_ends(text)),
        Kind::LongString => is_string_inside(without_ends(without_ends(without_ends(text)))),
        _ => true,
    }
}

fn is_string_inside(inside: &str) -> bool
    ensures { result ≡ is_some (string_value (chars inside.now)) }
{
    has_value(Inside::OfString, inside)
}

fn is_iri_inside(inside: &str) -> bool
    ensures { result ≡ is_some (iri_value (chars inside.now)) }
{
    has_value(Inside::OfIri, inside)
}

/// The text without its first and its last character, as a token without its delimiters.
pub fn without_ends(text: &str) -> &str
    ensures { chars result.now ≡ inside 1 (chars text.now) }
{
    let mut chars = text.chars();
    chars.next();
    chars.next_back();
    chars.as_str()
}

/// The text without its first character.
pub fn without_first(text: &str) -> &str
    ensures { chars result.now ≡ drop 1 (chars text.now) }
{
    let mut chars = text.chars();
    chars.next();
    chars.as_str()
}

pub(crate) fn copied<A: Allocator>(alloc: A, text: &str) -> Result<String<A>, ValueFault>
    ensures ok { IfOk result (λ s. string_bytes s ≡ text.now) }
    ensures memory { OnErr result (result ≡ Err ValueFault.Memory) }
{
    match String::from_str(alloc, text) {
        Ok(copy) => Ok(copy),
        Err(_) => Err(ValueFault::Memory),
    }
}

/// What the inside means.
#[inline(always)]
fn value<A: Allocator>(alloc: A, inside: Inside, text: &str) -> Result<String<A>, ValueFault>
    ensures ok { IfOk result (λ s. value (inside_of inside) outside (chars text.now) ≡ Some (chars (string_bytes s))) }
    ensures bad { (result ≡ Err ValueFault.BadEscape) ↔ (value (inside_of inside) outside (chars text.now) ≡ None) }
{
    match built(alloc, inside, text) {
        Ok(Some(value)) => Ok(value),
        Ok(None) => Err(ValueFault::BadEscape),
        Err(_) => Err(shortage(inside, text)),
    }
}

/// The same in place of a text.
#[inline(always)]
fn set_value<A: Allocator>(
    out: &mut String<A>,
    inside: Inside,
    text: &str,
) -> Result<(), ValueFault>
    ensures ok { OnOk result (value (inside_of inside) outside (chars text.now) ≡ Some (chars (string_bytes out.new))) }
    ensures bad { (result ≡ Err ValueFault.BadEscape) ↔ (value (inside_of inside) outside (chars text.now) ≡ None) }
{
    match put_value(out, inside, text) {
        Ok(true) => Ok(()),
        Ok(false) => Err(ValueFault::BadEscape),
        Err(_) => Err(shortage(inside, text)),
    }
}

/// A bad escape is reported also where memory is short: then alone the text is looked at twice.
#[cold]
#[inline(never)]
fn shortage(inside: Inside, text: &str) -> ValueFault
    ensures { (result ≡ ValueFault.BadEscape) ↔ (value (inside_of inside) outside (chars text.now) ≡ None) }
{
    if has_value(inside, text) {
        ValueFault::Memory
    } else {
        ValueFault::BadEscape
    }
}

/// The two kinds of text that have escapes.
#[derive(Clone, Copy)]
enum Inside {
    OfString,
    OfIri,
}

/// What stands between the escapes as it is.
#[inline(always)]
fn run_of(inside: Inside) -> Run
    ensures { result ≡ run_of (inside_of inside) }
{
    match inside {
        Inside::OfString => Run::Unescaped,
        Inside::OfIri => Run::Iri,
    }
}

/// Whether the inside means a text, and no escape of it is bad.
#[inline(always)]
fn has_value(inside: Inside, text: &str) -> bool
    ensures { result ≡ is_some (value (inside_of inside) outside (chars text.now)) }
{
    let bytes = text.as_bytes();
    let mut at = run_end(run_of(inside), bytes, 0);
    while at < bytes.len() {
        match escape(inside, bytes, at) {
            Some((_, next)) => at = run_end(run_of(inside), bytes, next),
            None => return false,
        }
    }
    true
}

/// The characters that the inside means, unless an escape of it is bad.
#[inline(always)]
fn built<A: Allocator>(
    alloc: A,
    inside: Inside,
    text: &str,
) -> Result<Option<String<A>>, AllocError>
    ensures { IfOk result (λ s.
        value (inside_of inside) outside (chars text.now) ≡ option_map (λ t. chars (string_bytes t)) s) }
{
    let mut out = String::new(alloc);
    if put_value(&mut out, inside, text)? {
        Ok(Some(out))
    } else {
        Ok(None)
    }
}

/// Puts the characters that the inside means in place of a text, unless an escape of it is bad, and answers whether
/// none is.
#[inline(always)]
fn put_value<A: Allocator>(
    out: &mut String<A>,
    inside: Inside,
    text: &str,
) -> Result<bool, AllocError>
    ensures { IfOk result (λ fit.
        value (inside_of inside) outside (chars text.now) ≡ cond fit (Some (chars (string_bytes out.new))) None) }
{
    out.clear();
    out.reserve(text.len())?;
    let mut at = put_run(out, inside, text, 0)?;
    while at < text.len() {
        let next = match put_escapes(out, inside, text, at)? {
            Some(next) => next,
            None => return Ok(false),
        };
        at = put_run(out, inside, text, next)?;
    }
    Ok(true)
}

/// Puts what the escape at a place means. Where it is a UCHAR of four digits, so are the next ones often, and they
/// are put with it.
#[inline(always)]
fn put_escapes<A: Allocator>(
    out: &mut String<A>,
    inside: Inside,
    text: &str,
    at: usize,
) -> Result<Option<usize>, AllocError>
    requires within { at < length text.now }
    requires utf8 { IsUtf8 (drop at text.now) }
    requires stopped { goes_over (run_of (inside_of inside)) (get_or text.now at 0) ≡ false }
    ensures put { IfOk result (λ r.
        IsPut (inside_of inside) text.now (string_bytes out.old) (string_bytes out.new) at r) }
    ensures on { IfOk result (λ r. IfSome r (λ end. at < end)) }
{
    match short_escape(inside, text.as_bytes(), at) {
        Some((meant, next)) => {
            push_char(out, meant)?;
            Ok(Some(put_row(out, inside, text, next)?))
        }
        None => put_escape(out, inside, text, at),
    }
}

/// Puts what the UCHARs of four digits mean that stand in a row from a place on: where they end.
#[inline(always)]
fn put_row<A: Allocator>(
    out: &mut String<A>,
    inside: Inside,
    text: &str,
    from: usize,
) -> Result<usize, AllocError>
    requires within { from ≤ length text.now }
    requires utf8 { IsUtf8 (drop from text.now) }
    ensures { IfOk result (λ end.
        IsPutUpTo (inside_of inside) text.now (string_bytes out.old) (string_bytes out.new) from end) }
{
    let mut at = from;
    while let Some((meant, next)) = short_escape(inside, text.as_bytes(), at) {
        push_char(out, meant)?;
        at = next;
    }
    Ok(at)
}

/// Appends a character. One of two bytes, as the letters of Greek, Cyrillic and Arabic are, costs no call.
#[inline(always)]
fn push_char<A: Allocator>(out: &mut String<A>, c: char) -> Result<(), AllocError>
    ensures { OnOk result (string_bytes out.new ≡ string_bytes out.old ++ encode_utf8 c) }
{
    if matches!(c, '\u{80}'..='\u{7FF}') {
        let mut bytes = [0; 4];
        return out.push_str(c.encode_utf8(&mut bytes));
    }
    out.push(c)
}

/// Puts what an escape of any form means: where it ends, unless it is bad.
#[inline(always)]
fn put_escape<A: Allocator>(
    out: &mut String<A>,
    inside: Inside,
    text: &str,
    at: usize,
) -> Result<Option<usize>, AllocError>
    requires within { at < length text.now }
    requires utf8 { IsUtf8 (drop at text.now) }
    requires stopped { goes_over (run_of (inside_of inside)) (get_or text.now at 0) ≡ false }
    ensures put { IfOk result (λ r.
        IsPut (inside_of inside) text.now (string_bytes out.old) (string_bytes out.new) at r) }
    ensures on { IfOk result (λ r. IfSome r (λ end. at < end)) }
{
    match escape(inside, text.as_bytes(), at) {
        Some((meant, next)) => {
            out.push(meant)?;
            Ok(Some(next))
        }
        None => Ok(None),
    }
}

/// What a UCHAR of four digits means that stands at a place, and where it ends, if it is not bad.
#[inline(always)]
fn short_escape(inside: Inside, text: &[u8], at: usize) -> Option<(char, usize)>
    requires within { at ≤ length text.now }
    requires utf8 { IsUtf8 (drop at text.now) }
    ensures read { IfSome result (λ x. IsRead (inside_of inside) (leads outside) text.now at x.0 x.1) }
    ensures on { IfSome result (λ x. at < x.1) }
{
    allowed(inside, short_uchar(text, at))
}

/// What stands at a place as it is, up to the next escape: the place of that.
#[inline(always)]
fn put_run<A: Allocator>(
    out: &mut String<A>,
    inside: Inside,
    text: &str,
    from: usize,
) -> Result<usize, AllocError>
    requires within { from ≤ length text.now }
    requires utf8 { IsUtf8 (drop from text.now) }
    ensures run { IfOk result (λ end. IsRun (goes_over (run_of (inside_of inside))) text.now from end) }
    ensures put { IfOk result (λ end. string_bytes out.new ≡ string_bytes out.old ++ slice_range text.now from end) }
{
    let end = plain_end(inside, text.as_bytes(), from);
    if from < end {
        out.push_str(&text[from..end])?;
    }
    Ok(end)
}

/// Where what stands from a place on as it is ends.
#[inline(always)]
fn plain_end(inside: Inside, bytes: &[u8], from: usize) -> usize
    requires { from ≤ length bytes.now }
    ensures { IsRun (goes_over (run_of (inside_of inside))) bytes.now from result }
{
    match inside {
        Inside::OfString => run_end(Run::Unescaped, bytes, from),
        Inside::OfIri => near_run_end(Run::Iri, bytes, from),
    }
}

/// What the escape at a place means, and where it ends. No other character that ends a run may stand there.
#[inline(always)]
fn escape(inside: Inside, text: &[u8], at: usize) -> Option<(char, usize)>
    requires within { at < length text.now }
    requires utf8 { IsUtf8 (drop at text.now) }
    requires stopped { goes_over (run_of (inside_of inside)) (get_or text.now at 0) ≡ false }
    ensures read { Reads (inside_of inside) (leads outside) text.now at result }
    ensures on { IfSome result (λ x. at < x.1) }
{
    if text[at] != b'\\' {
        return None;
    }
    after_backslash(inside, text, at)
}

/// The same of one that begins with a backslash.
#[inline(always)]
fn after_backslash(inside: Inside, text: &[u8], at: usize) -> Option<(char, usize)>
    requires within { at < length text.now }
    requires utf8 { IsUtf8 (drop at text.now) }
    requires backslash { get_or text.now at 0 ≡ 92 }
    ensures read { Reads (inside_of inside) (leads outside) text.now at result }
    ensures on { IfSome result (λ x. at < x.1) }
{
    if at + 1 == text.len() {
        return None;
    }
    match letter(inside, text[at + 1]) {
        Some(c) => Some((c, at + 2)),
        None => allowed(inside, uchar(text, at)),
    }
}

/// ECHAR stands in strings alone.
#[inline(always)]
fn letter(inside: Inside, byte: u8) -> Option<char>
    ensures is { completes result ≡ echar_move (inside_of inside) byte }
    ensures character { IfSome result (λ c. scalar c ≡ true) }
{
    match inside {
        Inside::OfString => letter_meaning(byte),
        Inside::OfIri => None,
    }
}

/// An escape, where its character may be meant.
#[inline(always)]
fn allowed(inside: Inside, escape: Option<(char, usize)>) -> Option<(char, usize)>
    ensures { result ≡ allowed_in (inside_of inside) escape }
{
    match escape {
        Some((c, end)) if may_mean(inside, c) => Some((c, end)),
        _ => None,
    }
}

/// Whether a character may be meant: an IRI has IRI characters alone.
#[inline(always)]
fn may_mean(inside: Inside, c: char) -> bool
    ensures { result ≡ may_mean (inside_of inside) c }
{
    match inside {
        Inside::OfString => true,
        Inside::OfIri => is_iri_char(c),
    }
}
