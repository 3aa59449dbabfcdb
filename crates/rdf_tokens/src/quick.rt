// Tokens that the first bytes of a text settle.

ghost use Rattle.std.specs.Prelude.{◌≡◌, ◌+◌, ◌<◌, ◌≤◌, true, length, get_or, IfSome};
ghost use Rattle.rdf_terms.specs.Classes.{is_digit, is_letter};
ghost use Rattle.rdf_terms.specs.declared.kind.Dialect.{Dialect};
ghost use Rattle.rdf_terms.specs.declared.kind.Dialect.TheVariants.{Turtle};
ghost use Rattle.rdf_terms.specs.declared.kind.Kind.TheVariants.{PnameLn};
ghost use Rattle.rdf_tokens.specs.Quick.{IsQuick, IsToken, single, stands_at};
ghost use Rattle.rdf_tokens.specs.Quick.{is_sought, is_named, IsPrefix, is_colon, ends_name, is_name_end, is_a};
ghost use Rattle.rdf_tokens.specs.Quick.{is_word, word_kind};
ghost use Rattle.rdf_tokens.specs.Quick.{BeginsNumber, IsMantissa, begins_signed, is_exponent, after_sign};
ghost use Rattle.rdf_tokens.specs.Quick.{is_double_end};
ghost use Rattle.rdf_tokens.specs.Quick.{is_dot, begins_number, is_point, is_integer_end, is_decimal_end, ends_integer};
ghost use Rattle.rdf_tokens.specs.Quick.{ends_number};
ghost use Rattle.rdf_tokens.specs.Quick.{begins_iri, quote_byte, opens_with, begins_string, is_empty_string};
ghost use Rattle.rdf_tokens.specs.Quick.{begins_label, begins_label_name};
ghost use Rattle.rdf_tokens.specs.Quick.{begins_tag, begins_directive, is_part_byte, is_tag_end, IsLaterPart, IsTagTo};
ghost use Rattle.rdf_tokens.specs.Quick.{are_carets};
ghost use Rattle.rdf_tokens.specs.Escapes.{FitsInString};
ghost use Rattle.rdf_tokens.specs.Quick.{is_over, is_last, ends_local, RestsInLong, is_short_ascii, long_run, stands_thrice};
ghost use Rattle.rdf_terms.specs.Runs.{IsRun, is_name_byte};

use crate::escapes::{escape_end, short_run};
use crate::front::{NoNames, begins_in_letter};
use crate::local::{front_end, local_end};
use crate::states::text::Quote;
use rdf_terms::runs::{Run, run_end, two_run_ends};
use rdf_terms::{Dialect, Kind};

/// The length and the kind of a token. Without a kind nothing is told.
#[derive(Drop)]
pub(crate) struct Quick {
    pub(crate) len: usize,
    pub(crate) kind: Option<Kind>,
}

/// Whoever looks at the next token while taking it: an instance of `quick_front` of its own, which is inlined where
/// nothing else calls it.
pub(crate) struct ByNext;

/// Whoever looks at a token before taking it, by the longer look: an instance of `quick_front` of its own.
pub(crate) struct ByPeekFar;

/// The token that a text begins with, where its first bytes settle it: a byte that is one by itself, a plain text
/// up to its delimiter, or a name, a label or a number of ASCII with the byte after it. `C` names the caller.
#[inline(always)]
pub(crate) fn quick_front<C>(dialect: Dialect, text: &str, no_names: &Option<NoNames>) -> Quick
    ensures { IsQuick dialect text.now result.len result.kind }
{
    let bytes = text.as_bytes();
    if bytes.is_empty() {
        return Quick { len: 0, kind: None };
    }
    if is_sought(dialect, bytes, no_names) {
        return quick_name(text);
    }
    let kind = single(dialect, bytes[0]);
    if kind.is_some() {
        return Quick { len: 1, kind };
    }
    if is_named(dialect, bytes) {
        return quick_named(text);
    }
    if is_dot(dialect, bytes) {
        return Quick {
            len: 1,
            kind: Some(Kind::Dot),
        };
    }
    if begins_number(dialect, bytes) {
        return quick_number(text, 0);
    }
    if begins_signed(dialect, bytes) {
        return quick_number(text, 1);
    }
    if opens_with(dialect, Quote::Single, bytes) {
        return quick_string(dialect, Quote::Single, text);
    }
    if opens_with(dialect, Quote::Double, bytes) {
        return quick_string(dialect, Quote::Double, text);
    }
    quick_plain(text)
}

/// A token without an escape that begins with `<`, `_:` or `@`, or two carets.
#[inline(always)]
fn quick_plain(text: &str) -> Quick
    requires some { 0 < length text.now }
    ensures { (dialect : Dialect) → IsQuick dialect text.now result.len result.kind }
{
    let bytes = text.as_bytes();
    if begins_iri(bytes) {
        return quick_iri(text);
    }
    if begins_label(bytes) {
        return quick_label(text);
    }
    if begins_tag(bytes) {
        return quick_tag(text);
    }
    if are_carets(bytes) {
        return Quick {
            len: 2,
            kind: Some(Kind::Carets),
        };
    }
    Quick { len: 0, kind: None }
}

/// Whether two carets come first.
#[inline(always)]
pub(crate) fn are_carets(bytes: &[u8]) -> bool
    ensures { result ≡ are_carets bytes.now }
{
    stands_at(b'^', bytes, 0) && stands_at(b'^', bytes, 1)
}

/// Whether a reference in angle brackets may come first.
#[inline(always)]
pub(crate) fn begins_iri(bytes: &[u8]) -> bool
    ensures { result ≡ begins_iri bytes.now }
{
    stands_at(b'<', bytes, 0)
}

/// Whether a byte stands at a place.
#[inline(always)]
pub(crate) fn stands_at(byte: u8, bytes: &[u8], at: usize) -> bool
    ensures { result ≡ stands_at byte bytes.now at }
{
    at < bytes.len() && bytes[at] == byte
}

/// A reference in angle brackets.
#[inline(always)]
fn quick_iri(text: &str) -> Quick
    requires { begins_iri text.now ≡ true }
    ensures { (dialect : Dialect) → IsQuick dialect text.now result.len result.kind }
{
    let bytes = text.as_bytes();
    let end = run_end(Run::Iri, bytes, 1);
    if stands_at(b'>', bytes, end) {
        return Quick {
            len: end + 1,
            kind: Some(Kind::IriRef),
        };
    }
    Quick { len: 0, kind: None }
}

/// The byte of a quote.
#[inline(always)]
pub(crate) fn quote_byte(quote: Quote) -> u8
    ensures { result ≡ quote_byte quote }
{
    match quote {
        Quote::Double => b'"',
        Quote::Single => b'\'',
    }
}

/// Whether this quote comes first. The line formats have the double one alone.
#[inline(always)]
pub(crate) fn opens_with(dialect: Dialect, quote: Quote, bytes: &[u8]) -> bool
    ensures { result ≡ opens_with dialect quote bytes.now }
{
    let is_quote = match quote {
        Quote::Double => true,
        Quote::Single => dialect == Dialect::Turtle,
    };
    is_quote && stands_at(quote_byte(quote), bytes, 0)
}

/// Whether a byte of ASCII comes second that stands in strings in this quote as it is.
#[inline(always)]
pub(crate) fn begins_string(quote: Quote, bytes: &[u8]) -> bool
    ensures { result ≡ begins_string quote bytes.now }
{
    bytes.len() > 1 && is_short_ascii(quote, bytes[1])
}

/// Whether the same quote comes second, and another byte of ASCII third.
#[inline(always)]
fn is_empty_string(quote: Quote, bytes: &[u8]) -> bool
    ensures { result ≡ is_empty_string quote bytes.now }
{
    let byte = quote_byte(quote);
    stands_at(byte, bytes, 1) && bytes.len() > 2 && bytes[2] < 128 && bytes[2] != byte
}

#[inline(always)]
fn is_short_ascii(quote: Quote, byte: u8) -> bool
    ensures { result ≡ is_short_ascii quote byte }
{
    byte < 128 && byte != quote_byte(quote) && !matches!(byte, b'\\' | b'\n' | b'\r')
}

/// A string in quotes, up to the next byte that is this quote, a backslash or the end of a line.
#[inline(always)]
fn quick_string(dialect: Dialect, quote: Quote, text: &str) -> Quick
    requires { opens_with dialect quote text.now ≡ true }
    ensures { IsQuick dialect text.now result.len result.kind }
{
    let bytes = text.as_bytes();
    if is_empty_string(quote, bytes) {
        return Quick {
            len: 2,
            kind: Some(Kind::ShortString),
        };
    }
    let end = run_end(short_run(quote), bytes, 1);
    if end > 1 && stands_at(quote_byte(quote), bytes, end) {
        return Quick {
            len: end + 1,
            kind: Some(Kind::ShortString),
        };
    }
    if end == 1 && dialect == Dialect::Turtle {
        return quick_long(quote, text);
    }
    Quick { len: 0, kind: None }
}

/// A string of Turtle between three quotes, up to the next three.
#[inline(never)]
pub(crate) fn quick_long(quote: Quote, text: &str) -> Quick
    requires { opens_with Turtle quote text.now ≡ true }
    ensures { IsQuick Turtle text.now result.len result.kind }
{
    let bytes = text.as_bytes();
    if stands_thrice(quote, bytes, 0) {
        let end = long_end(quote, bytes, 3);
        if stands_thrice(quote, bytes, end) {
            return Quick {
                len: end + 3,
                kind: Some(Kind::LongString),
            };
        }
    }
    Quick { len: 0, kind: None }
}

/// Whether three of this quote stand at a place.
#[inline(always)]
fn stands_thrice(quote: Quote, bytes: &[u8], at: usize) -> bool
    requires { at ≤ length bytes.now }
    ensures { result ≡ stands_thrice quote bytes.now at }
{
    let byte = quote_byte(quote);
    stands_at(byte, bytes, at) && stands_at(byte, bytes, at + 1) && stands_at(byte, bytes, at + 2)
}

/// The place after what stands inside such a string from a place on: plain bytes, whole escapes, and quotes each of
/// which has a plain byte after it.
pub(crate) fn long_end(quote: Quote, bytes: &[u8], from: usize) -> usize
    requires { from ≤ length bytes.now }
    ensures rests { RestsInLong quote bytes.now from result }
    ensures fits { FitsInString bytes.now from result }
{
    match quote {
        Quote::Double => inside_end(Quote::Double, bytes, from),
        Quote::Single => inside_end(Quote::Single, bytes, from),
    }
}

/// The same, with a loop of its own for each quote.
#[inline(always)]
fn inside_end(quote: Quote, bytes: &[u8], from: usize) -> usize
    requires { from ≤ length bytes.now }
    ensures rests { RestsInLong quote bytes.now from result }
    ensures fits { FitsInString bytes.now from result }
{
    let mut at = run_end(long_run(quote), bytes, from);
    while let Some(next) = inner_end(quote, bytes, at) {
        at = next;
    }
    at
}

/// What a string between three of this quote has as it is.
#[inline(always)]
fn long_run(quote: Quote) -> Run
    ensures { result ≡ long_run quote }
{
    match quote {
        Quote::Double => Run::LongQuoteText,
        Quote::Single => Run::LongSingleQuoteText,
    }
}

/// The end of what stands at a place inside such a string and is no run, and of the run after it.
#[inline(always)]
fn inner_end(quote: Quote, bytes: &[u8], at: usize) -> Option<usize>
    requires { at ≤ length bytes.now }
    ensures rests { IfSome result (λ end. RestsInLong quote bytes.now at end) }
    ensures fits { IfSome result (λ end. FitsInString bytes.now at end) }
    ensures on { IfSome result (λ end. at < end) }
{
    let run = long_run(quote);
    if stands_at(quote_byte(quote), bytes, at) {
        let end = run_end(run, bytes, at + 1);
        if end == at + 1 {
            return None;
        }
        return Some(end);
    }
    escape_end(run, bytes, at)
}

/// Whether `_:` comes first, and a letter, a digit or `_`.
#[inline(always)]
pub(crate) fn begins_label(bytes: &[u8]) -> bool
    ensures { result ≡ begins_label bytes.now }
{
    bytes.len() > 2 && bytes[0] == b'_' && bytes[1] == b':' && begins_label_name(bytes[2])
}

#[inline(always)]
fn begins_label_name(byte: u8) -> bool
    ensures { result ≡ begins_label_name byte }
{
    matches!(byte, b'A'..=b'Z' | b'a'..=b'z' | b'0'..=b'9' | b'_')
}

/// A label of ASCII, up to a byte with which no name goes on.
#[inline(always)]
fn quick_label(text: &str) -> Quick
    requires { begins_label text.now ≡ true }
    ensures { (dialect : Dialect) → IsQuick dialect text.now result.len result.kind }
{
    let bytes = text.as_bytes();
    let end = run_end(Run::Name, bytes, 3);
    if is_name_end(bytes, end) {
        return Quick {
            len: end,
            kind: Some(Kind::LabelNode),
        };
    }
    Quick { len: 0, kind: None }
}

/// Whether `@` comes first and a letter, and with the byte after it neither `@prefix` nor `@base` begins.
#[inline(always)]
pub(crate) fn begins_tag(bytes: &[u8]) -> bool
    ensures { result ≡ begins_tag bytes.now }
{
    bytes.len() > 2
        && bytes[0] == b'@'
        && is_letter(bytes[1])
        && !begins_directive(bytes[1], bytes[2])
}

#[inline(always)]
fn is_letter(byte: u8) -> bool
    ensures { result ≡ is_letter byte }
{
    matches!(byte, b'A'..=b'Z' | b'a'..=b'z')
}

#[inline(always)]
fn begins_directive(first: u8, second: u8) -> bool
    ensures { result ≡ begins_directive first second }
{
    first == b'p' && second == b'r' || first == b'b' && second == b'a'
}

/// A tag, up to a byte of ASCII with which no tag goes on.
#[inline(always)]
pub(crate) fn quick_tag(text: &str) -> Quick
    requires { begins_tag text.now ≡ true }
    ensures { (dialect : Dialect) → IsQuick dialect text.now result.len result.kind }
{
    let end = tag_parts_end(text);
    if is_tag_end(text.as_bytes(), end) {
        return Quick {
            len: end,
            kind: Some(Kind::LangTag),
        };
    }
    Quick { len: 0, kind: None }
}

/// Where the parts of a tag end.
#[inline(always)]
fn tag_parts_end(text: &str) -> usize
    requires { begins_tag text.now ≡ true }
    ensures { (dialect : Dialect) → IsTagTo dialect text.now result }
{
    let bytes = text.as_bytes();
    let mut end = letters_end(bytes, 2);
    while let Some(next) = later_part_end(bytes, end) {
        end = next;
    }
    end
}

/// Where the part ends whose hyphen stands at a place.
#[inline(always)]
fn later_part_end(bytes: &[u8], at: usize) -> Option<usize>
    ensures { IfSome result (λ end. IsLaterPart bytes.now at end) }
{
    if !stands_at(b'-', bytes, at) {
        return None;
    }
    let end = part_end(bytes, at + 1);
    if end == at + 1 {
        return None;
    }
    Some(end)
}

/// Where the run of letters from a place on ends.
#[inline(always)]
fn letters_end(bytes: &[u8], from: usize) -> usize
    requires { from ≤ length bytes.now }
    ensures { IsRun is_letter bytes.now from result }
{
    let mut at = from;
    while at < bytes.len() && is_letter(bytes[at]) {
        at += 1;
    }
    at
}

/// Where the run of letters and digits from a place on ends.
#[inline(always)]
fn part_end(bytes: &[u8], from: usize) -> usize
    requires { from ≤ length bytes.now }
    ensures { IsRun is_part_byte bytes.now from result }
{
    let mut at = from;
    while at < bytes.len() && is_part_byte(bytes[at]) {
        at += 1;
    }
    at
}

#[inline(always)]
fn is_part_byte(byte: u8) -> bool
    ensures { result ≡ is_part_byte byte }
{
    is_letter(byte) || is_digit(byte)
}

/// Whether there is a byte of ASCII that is no hyphen. After a run of letters, or of letters and digits after a
/// hyphen, no tag goes on with it.
#[inline(always)]
fn is_tag_end(bytes: &[u8], at: usize) -> bool
    ensures { result ≡ is_tag_end bytes.now at }
{
    at < bytes.len() && (bytes[at] < 128 && bytes[at] != b'-')
}

/// The kind of a byte that is a token whatever comes after it.
#[inline(always)]
fn single(dialect: Dialect, byte: u8) -> Option<Kind>
    ensures { result ≡ single dialect byte }
{
    match dialect {
        Dialect::Lines => match byte {
            b'.' => Some(Kind::Dot),
            b'\r' | b'\n' => Some(Kind::LineEnd),
            _ => None,
        },
        Dialect::Turtle => match byte {
            b';' => Some(Kind::Semicolon),
            b',' => Some(Kind::Comma),
            b'[' => Some(Kind::OpenBracket),
            b']' => Some(Kind::CloseBracket),
            b'(' => Some(Kind::OpenParen),
            b')' => Some(Kind::CloseParen),
            b'{' => Some(Kind::OpenBrace),
            b'}' => Some(Kind::CloseBrace),
            _ => None,
        },
    }
}

/// Whether the text begins with a letter, and not before the end within which no names are.
#[inline(always)]
pub(crate) fn is_sought(dialect: Dialect, bytes: &[u8], no_names: &Option<NoNames>) -> bool
    ensures { result ≡ is_sought dialect bytes.now no_names.now }
{
    if dialect != Dialect::Turtle || !begins_in_letter(bytes) {
        return false;
    }
    match no_names {
        Some(known) if known.left < bytes.len() => false,
        _ => true,
    }
}

/// A name of Turtle that begins with a letter, and whose other characters are letters, digits, `_` and `-`; or one
/// of the words `a`, `true` and `false`.
#[inline(always)]
pub(crate) fn quick_name(text: &str) -> Quick
    requires some { 0 < length text.now }
    requires letter { is_letter (get_or text.now 0 0) ≡ true }
    ensures { IsQuick Turtle text.now result.len result.kind }
{
    let bytes = text.as_bytes();
    let (colon, end) = two_run_ends(Run::Name, bytes, 1);
    if is_colon(bytes, colon) {
        return quick_local(text, colon, end);
    }
    if is_a(bytes, colon) {
        return Quick {
            len: 1,
            kind: Some(Kind::A),
        };
    }
    quick_word(text, colon)
}

/// The word `true` or `false`, where its run of letters, digits, `_` and `-` ends at a byte with which no name goes on.
#[inline(always)]
fn quick_word(text: &str, end: usize) -> Quick
    requires { IsRun is_name_byte text.now 1 end }
    ensures { IsQuick Turtle text.now result.len result.kind }
{
    match word_at(text, end) {
        Some(4) => Quick {
            len: 4,
            kind: Some(Kind::True),
        },
        Some(len) => Quick {
            len,
            kind: Some(Kind::False),
        },
        None => Quick { len: 0, kind: None },
    }
}

/// Its length, which tells which of the two it is.
#[inline(always)]
pub(crate) fn word_at(text: &str, end: usize) -> Option<usize>
    requires { IsRun is_name_byte text.now 1 end }
    ensures { IfSome result (λ n. IsToken Turtle text.now n (word_kind n)) }
{
    let bytes = text.as_bytes();
    if is_word(b"true", bytes, end) {
        return Some(4);
    }
    if is_word(b"false", bytes, end) {
        return Some(5);
    }
    None
}

/// A name of Turtle, whose prefix ends before the colon at this place, and after it the run of letters, digits, `_`
/// and `-`, which may be empty, at the other.
#[inline(always)]
pub(crate) fn quick_local(text: &str, colon: usize, end: usize) -> Quick
    requires prefix { IsPrefix text.now colon }
    requires colon { is_colon text.now colon ≡ true }
    requires local { IsRun is_name_byte text.now (colon + 1) end }
    ensures { IsQuick Turtle text.now result.len result.kind }
{
    let bytes = text.as_bytes();
    let local = colon + 1;
    if !is_name_end(bytes, end) {
        return match far_len(text, colon, end) {
            Some(len) => Quick {
                len,
                kind: Some(Kind::PnameLn),
            },
            None => Quick { len: 0, kind: None },
        };
    }
    if end == local {
        return Quick {
            len: end,
            kind: Some(Kind::PnameNs),
        };
    }
    if bytes[local] == b'-' {
        return Quick { len: 0, kind: None };
    }
    Quick {
        len: end,
        kind: Some(Kind::PnameLn),
    }
}

/// How many bytes the name has where its local part goes on after the run: with a dot, a colon, an escape or a
/// letter of another script.
#[inline(never)]
fn far_len(text: &str, colon: usize, end: usize) -> Option<usize>
    requires prefix { IsPrefix text.now colon }
    requires colon { is_colon text.now colon ≡ true }
    requires local { IsRun is_name_byte text.now (colon + 1) end }
    ensures { IfSome result (λ len. IsToken Turtle text.now len PnameLn) }
{
    let bytes = text.as_bytes();
    let front = front_end(bytes, colon + 1, end)?;
    let last = local_end(bytes, front);
    if ends_local(bytes, last) {
        Some(last)
    } else {
        None
    }
}

/// Whether a local part ends at a place, where no name goes on with the byte there, or with a dot and the byte
/// after it.
#[inline(always)]
fn ends_local(bytes: &[u8], at: usize) -> bool
    requires { at ≤ length bytes.now }
    ensures { result ≡ ends_local bytes.now at }
{
    is_last(bytes, at) || stands_at(b'.', bytes, at) && is_last(bytes, at + 1)
}

/// Whether there is a byte with which no name goes on.
#[inline(always)]
fn is_last(bytes: &[u8], at: usize) -> bool
    ensures { result ≡ is_last bytes.now at }
{
    at < bytes.len() && is_over(bytes[at])
}

#[inline(always)]
fn is_over(byte: u8) -> bool
    ensures { result ≡ is_over byte }
{
    ends_name(byte) && !begins_label_name(byte) && byte != b'-'
}

/// A name of Turtle with an empty prefix.
#[inline(always)]
pub(crate) fn quick_named(text: &str) -> Quick
    requires { is_colon text.now 0 ≡ true }
    ensures { IsQuick Turtle text.now result.len result.kind }
{
    let end = run_end(Run::Name, text.as_bytes(), 1);
    quick_local(text, 0, end)
}

/// Whether the text of Turtle begins with a colon.
#[inline(always)]
fn is_named(dialect: Dialect, bytes: &[u8]) -> bool
    ensures { result ≡ is_named dialect bytes.now }
{
    dialect == Dialect::Turtle && is_colon(bytes, 0)
}

/// Whether the text of Turtle begins with a digit.
#[inline(always)]
fn begins_number(dialect: Dialect, bytes: &[u8]) -> bool
    ensures { result ≡ begins_number dialect bytes.now }
{
    dialect == Dialect::Turtle && matches!(bytes, [b'0'..=b'9', ..])
}

/// A number of Turtle whose digits begin at a place, up to a byte of ASCII with which no number goes on.
#[inline(never)]
pub(crate) fn quick_number(text: &str, from: usize) -> Quick
    requires { BeginsNumber text.now from }
    ensures { IsQuick Turtle text.now result.len result.kind }
{
    let bytes = text.as_bytes();
    let end = digits_end(bytes, from + 1);
    if is_integer_end(bytes, end) {
        return Quick {
            len: end,
            kind: Some(Kind::Integer),
        };
    }
    if !is_point(bytes, end) {
        return quick_double(text, from, end);
    }
    let last = digits_end(bytes, end + 1);
    if is_decimal_end(bytes, end, last) {
        return Quick {
            len: last,
            kind: Some(Kind::Decimal),
        };
    }
    quick_double(text, from, last)
}

/// A double whose digits, with a dot among or after them or without one, end at a place, up to a byte of ASCII that
/// is no digit.
#[inline(always)]
fn quick_double(text: &str, from: usize, at: usize) -> Quick
    requires begins { BeginsNumber text.now from }
    requires mantissa { IsMantissa text.now from at }
    ensures { IsQuick Turtle text.now result.len result.kind }
{
    let bytes = text.as_bytes();
    if is_exponent(bytes, at) {
        let first = after_sign(bytes, at + 1);
        let end = digits_end(bytes, first);
        if is_double_end(bytes, first, end) {
            return Quick {
                len: end,
                kind: Some(Kind::Double),
            };
        }
    }
    Quick { len: 0, kind: None }
}

/// Whether the letter of an exponent stands at a place.
#[inline(always)]
fn is_exponent(bytes: &[u8], at: usize) -> bool
    ensures { result ≡ is_exponent bytes.now at }
{
    at < bytes.len() && matches!(bytes[at], b'E' | b'e')
}

/// The place after the sign at a place, or the place itself where there is none.
#[inline(always)]
fn after_sign(bytes: &[u8], at: usize) -> usize
    requires { at ≤ length bytes.now }
    ensures value { result ≡ after_sign bytes.now at }
    ensures within { result ≤ length bytes.now }
{
    if at < bytes.len() && matches!(bytes[at], b'+' | b'-') {
        at + 1
    } else {
        at
    }
}

/// Whether there are digits between two places, and a byte of ASCII after them.
#[inline(always)]
fn is_double_end(bytes: &[u8], from: usize, at: usize) -> bool
    ensures { result ≡ is_double_end bytes.now from at }
{
    from < at && at < bytes.len() && bytes[at] < 128
}

/// Whether the text of Turtle begins with a sign and a digit.
#[inline(always)]
pub(crate) fn begins_signed(dialect: Dialect, bytes: &[u8]) -> bool
    ensures { result ≡ begins_signed dialect bytes.now }
{
    dialect == Dialect::Turtle && matches!(bytes, [b'+' | b'-', b'0'..=b'9', ..])
}

/// Where the run of digits from a place on ends.
#[inline(always)]
pub(crate) fn digits_end(bytes: &[u8], from: usize) -> usize
    requires { from ≤ length bytes.now }
    ensures { IsRun is_digit bytes.now from result }
{
    let mut at = from;
    while at < bytes.len() && is_digit(bytes[at]) {
        at += 1;
    }
    at
}

#[inline(always)]
fn is_digit(byte: u8) -> bool
    ensures { result ≡ is_digit byte }
{
    matches!(byte, b'0'..=b'9')
}

#[inline(always)]
pub(crate) fn is_point(bytes: &[u8], at: usize) -> bool
    ensures { result ≡ is_point bytes.now at }
{
    at < bytes.len() && bytes[at] == b'.'
}

/// Whether there is a byte with which no integer goes on, nor a number that begins with it.
#[inline(always)]
pub(crate) fn is_integer_end(bytes: &[u8], at: usize) -> bool
    ensures { result ≡ is_integer_end bytes.now at }
{
    at < bytes.len() && ends_integer(bytes[at])
}

/// Whether there are digits after the dot, and a byte after them with which no decimal goes on.
#[inline(always)]
pub(crate) fn is_decimal_end(bytes: &[u8], dot: usize, at: usize) -> bool
    requires { dot < length bytes.now }
    ensures { result ≡ is_decimal_end bytes.now dot at }
{
    dot + 1 < at && (at < bytes.len() && ends_number(bytes[at]))
}

/// Whether a byte that is no digit goes on with no integer.
#[inline(always)]
fn ends_integer(byte: u8) -> bool
    ensures { result ≡ ends_integer byte }
{
    byte < 128 && !matches!(byte, b'.' | b'E' | b'e')
}

/// The same of a decimal.
#[inline(always)]
fn ends_number(byte: u8) -> bool
    ensures { result ≡ ends_number byte }
{
    byte < 128 && !matches!(byte, b'E' | b'e')
}

/// Whether the text is the word `a`, where its run of letters, digits, `_` and `-` ends at a byte with which no
/// name goes on.
#[inline(always)]
pub(crate) fn is_a(bytes: &[u8], end: usize) -> bool
    requires { 0 < length bytes.now }
    ensures { result ≡ is_a bytes.now end }
{
    end == 1 && bytes[0] == b'a' && is_name_end(bytes, end)
}

/// The same of another word.
#[inline(always)]
fn is_word(word: &[u8], bytes: &[u8], end: usize) -> bool
    ensures { result ≡ is_word word.now bytes.now end }
{
    end == word.len() && bytes.starts_with(word) && is_name_end(bytes, end)
}

/// Whether the text of Turtle begins with a dot and a byte of ASCII that is no digit: with no number.
#[inline(always)]
pub(crate) fn is_dot(dialect: Dialect, bytes: &[u8]) -> bool
    ensures { result ≡ is_dot dialect bytes.now }
{
    dialect == Dialect::Turtle
        && bytes.len() >= 2
        && bytes[0] == b'.'
        && bytes[1] < 128
        && !bytes[1].is_ascii_digit()
}

#[inline(always)]
pub(crate) fn is_colon(bytes: &[u8], at: usize) -> bool
    ensures { result ≡ is_colon bytes.now at }
{
    at < bytes.len() && bytes[at] == b':'
}

/// Whether there is a byte with which no name goes on.
#[inline(always)]
pub(crate) fn is_name_end(bytes: &[u8], at: usize) -> bool
    ensures { result ≡ is_name_end bytes.now at }
{
    at < bytes.len() && ends_name(bytes[at])
}

/// Whether a byte that is no letter, digit, `_` or `-` cannot go on with a name.
#[inline(always)]
fn ends_name(byte: u8) -> bool
    ensures { result ≡ ends_name byte }
{
    byte < 128 && !matches!(byte, b':' | b'.' | b'%' | b'\\')
}
