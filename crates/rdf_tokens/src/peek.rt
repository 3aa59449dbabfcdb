// The next token, seen before it is taken.

ghost use Rattle.std.specs.Prelude.{◌≡◌, ℕ, ◌<◌, ◌+◌, List, true, length, get_or, take, Some, IfSome};
ghost use Rattle.rdf_terms.specs.Classes.{is_digit, is_letter};
ghost use Rattle.rdf_terms.specs.declared.kind.Dialect.TheVariants.{Turtle};
ghost use Rattle.rdf_terms.specs.Runs.{IsRun, PassBetween, is_name_byte};
ghost use Rattle.rdf_tokens.specs.Peek.{IsBare, IsFarName, IsSeen, IsSigned, Sees, is_local, local_kind, one_space};
ghost use Rattle.rdf_tokens.specs.Scans.{KnowsColon};
ghost use Rattle.rdf_terms.specs.declared.kind.Kind.TheVariants.{Carets, Decimal, Integer, IriRef, LabelNode, LangTag};
ghost use Rattle.rdf_terms.specs.declared.kind.Kind.TheVariants.{LongString, PnameLn, PnameNs, ShortString};
ghost use Rattle.rdf_tokens.specs.Quick.{IsQuick, IsToken, begins_iri, is_colon, opens_with, single, word_kind};
ghost use Rattle.rdf_tokens.specs.declared.states.text.Quote.TheVariants.{Double};

use crate::blank::is_bare;
use crate::front::NoNames;
use crate::quick::{
    ByPeekFar, Quick, are_carets, begins_label, begins_signed, begins_tag, digits_end, is_a,
    is_colon, is_decimal_end, is_dot, is_integer_end, is_name_end, is_point, is_sought,
    quick_front, quick_local, quick_long, quick_name, quick_named, quick_number, quick_tag,
    stands_at, word_at,
};
use crate::states::text::Quote;
use crate::strings::quoted_len;
use rdf_terms::runs::{Run, is_run, run_end, two_run_ends};
use rdf_terms::{Dialect, Kind};

/// A bit for each of `,`, `.`, `;` and `{`, at the number that its last six bits are.
const MARKS: u64 = 1 << 44 | 1 << 46 | 1 << 59;

/// What is told of a name whose local part goes on after its run of letters, digits, `_` and `-`. It goes back in
/// registers.
#[derive(Clone, Copy)]
enum FarName {
    /// Nothing.
    Unknown,
    /// Its length, and that it has no escape.
    Plain(usize),
    /// Its length.
    Escaped(usize),
}

/// What is told of a number with a sign. It goes back in registers.
#[derive(Clone, Copy)]
enum Signed {
    /// Nothing.
    Unknown,
    /// Its length, of each kind.
    Integer(usize),
    Decimal(usize),
    Double(usize),
}

/// A token that stands next: seen, and not yet taken.
#[derive(Clone, Copy, Debug)]
pub struct Peeked {
    /// The kind of the token. It is not `End`.
    pub kind: Kind,
    // How many bytes of white space stand before it.
    pub(crate) blank: usize,
    // How many bytes it has.
    pub(crate) len: usize,
    // The place after its colon, as the token has it.
    pub(crate) colon: usize,
}

/// The token of Turtle that a text begins with, after one space or none, where its first bytes settle it. Only
/// frequent tokens are seen: `None` tells nothing.
#[inline(always)]
pub(crate) fn first_seen(text: &str, no_names: &Option<NoNames>) -> Option<Peeked>
    ensures { IfSome result (IsSeen text.now) }
{
    let blank = one_space(text.as_bytes());
    seen(blank, &text[blank..], no_names)
}

/// The same of all that `quick_front` tells: also of tokens that are less frequent, at more cost.
#[inline(always)]
pub(crate) fn far_seen(text: &str, no_names: &Option<NoNames>) -> Option<Peeked>
    ensures { IfSome result (IsSeen text.now) }
{
    let blank = one_space(text.as_bytes());
    seen_quick(blank, &text[blank..], no_names)
}

/// The token at the front of a text, as `quick_front` tells it. Where white space or a comment comes first, none is.
#[inline(always)]
fn seen_quick(blank: usize, text: &str, no_names: &Option<NoNames>) -> Option<Peeked>
    ensures token { Sees text.now blank result }
    ensures bare { IfSome result (λ p. IsBare text.now) }
{
    if !is_bare(text.as_bytes(), 0) {
        return None;
    }
    if is_sought(Dialect::Turtle, text.as_bytes(), no_names) {
        return seen_told(blank, quick_name(text));
    }
    seen_told(
        blank,
        quick_front::<ByPeekFar>(Dialect::Turtle, text, no_names),
    )
}

/// The token that is told.
#[inline(always)]
fn seen_told(blank: usize, quick: Quick) -> Option<Peeked>
    ensures { (bs : List ℕ) → IsQuick Turtle bs quick.len quick.kind → Sees bs blank result }
{
    match quick.kind {
        Some(kind) => Some(Peeked {
            kind,
            blank,
            len: quick.len,
            colon: 0,
        }),
        None => None,
    }
}

/// How many bytes the space has that comes first; none, where another byte does.
#[inline(always)]
fn one_space(bytes: &[u8]) -> usize
    ensures { result ≡ one_space bytes.now }
{
    if stands_at(b' ', bytes, 0) { 1 } else { 0 }
}

/// The token at the front of a text, by its first byte. Each answer names its kind, so that in a caller's copy for
/// one kind it is a constant.
#[inline(always)]
fn seen(blank: usize, text: &str, no_names: &Option<NoNames>) -> Option<Peeked>
    ensures token { Sees text.now blank result }
    ensures bare { IfSome result (λ p. IsBare text.now) }
{
    let bytes = text.as_bytes();
    if bytes.len() < 2 {
        return None;
    }
    if is_sought(Dialect::Turtle, bytes, no_names) {
        return seen_name(blank, text);
    }
    if is_mark(bytes[0]) {
        return seen_mark(blank, text);
    }
    match bytes[0] {
        b'[' => seen_byte(blank, text, Kind::OpenBracket),
        b']' => seen_byte(blank, text, Kind::CloseBracket),
        b'(' => seen_byte(blank, text, Kind::OpenParen),
        b')' => seen_byte(blank, text, Kind::CloseParen),
        b'}' => seen_byte(blank, text, Kind::CloseBrace),
        b'<' => seen_as(Kind::IriRef, blank, seen_iri_len(text)),
        b'_' => seen_as(Kind::LabelNode, blank, label_len(text)),
        b'"' => seen_string(blank, text),
        b'0'..=b'9' => seen_number(blank, text),
        b':' => seen_local(blank, text),
        b'+' | b'-' => seen_signed(blank, text),
        b'@' => seen_as(Kind::LangTag, blank, tag_len(text)),
        b'^' => seen_as(Kind::Carets, blank, carets_len(text)),
        _ => None,
    }
}

/// Whether a byte is a comma, a dot, a semicolon or an opening brace, or has the last six bits of one. This comes
/// before the match over all other bytes, which LLVM makes a jump through a table, since processors predict a
/// branch better than such a jump. Were the bytes compared with these, LLVM would make the two one table; so their
/// bits are asked.
#[inline(always)]
fn is_mark(byte: u8) -> bool {
    MARKS >> (byte & 63) & 1 == 1
}

/// A comma, a semicolon, an opening brace, or a dot before a byte of ASCII that is no digit.
#[inline(always)]
fn seen_mark(blank: usize, text: &str) -> Option<Peeked>
    requires { 0 < length text.now }
    ensures token { Sees text.now blank result }
    ensures bare { IfSome result (λ p. IsBare text.now) }
{
    match text.as_bytes()[0] {
        b',' => seen_byte(blank, text, Kind::Comma),
        b'.' => seen_dot(blank, text),
        b';' => seen_byte(blank, text, Kind::Semicolon),
        b'{' => seen_byte(blank, text, Kind::OpenBrace),
        _ => None,
    }
}

/// A token of this kind, if one of some length was found.
#[inline(always)]
fn seen_as(kind: Kind, blank: usize, len: Option<usize>) -> Option<Peeked>
    ensures { (bs : List ℕ) → IfSome len (λ n. IsToken Turtle bs n kind) → Sees bs blank result }
{
    match len {
        Some(len) => Some(Peeked {
            kind,
            blank,
            len,
            colon: 0,
        }),
        None => None,
    }
}

/// A token of one byte.
#[inline(always)]
fn seen_byte(blank: usize, text: &str, kind: Kind) -> Option<Peeked>
    requires some { 0 < length text.now }
    requires single { single Turtle (get_or text.now 0 0) ≡ Some kind }
    ensures { Sees text.now blank result }
{
    Some(Peeked {
        kind,
        blank,
        len: 1,
        colon: 0,
    })
}

/// A dot before a byte of ASCII that is no digit.
#[inline(always)]
fn seen_dot(blank: usize, text: &str) -> Option<Peeked>
    ensures { Sees text.now blank result }
{
    if is_dot(Dialect::Turtle, text.as_bytes()) {
        return Some(Peeked {
            kind: Kind::Dot,
            blank,
            len: 1,
            colon: 0,
        });
    }
    None
}

/// A name with a prefix and a local part, or the word `a`.
#[inline(always)]
fn seen_name(blank: usize, text: &str) -> Option<Peeked>
    requires some { 0 < length text.now }
    requires letter { is_letter (get_or text.now 0 0) ≡ true }
    ensures { Sees text.now blank result }
{
    let bytes = text.as_bytes();
    let (colon, end) = two_run_ends(Run::Name, bytes, 1);
    if is_colon(bytes, colon) {
        if is_local(bytes, colon + 1, end) {
            return Some(Peeked {
                kind: Kind::PnameLn,
                blank,
                len: end,
                colon: colon + 1,
            });
        }
        return seen_far(blank, colon + 1, far_name(text));
    }
    if is_a(bytes, colon) {
        return Some(Peeked {
            kind: Kind::A,
            blank,
            len: 1,
            colon: 0,
        });
    }
    seen_word(blank, text)
}

/// The word `true` or `false`.
#[inline(always)]
fn seen_word(blank: usize, text: &str) -> Option<Peeked>
    requires { 0 < length text.now }
    ensures { Sees text.now blank result }
{
    match word_len(text) {
        Some(4) => Some(Peeked {
            kind: Kind::True,
            blank,
            len: 4,
            colon: 0,
        }),
        Some(len) => Some(Peeked {
            kind: Kind::False,
            blank,
            len,
            colon: 0,
        }),
        None => None,
    }
}

/// A name of which this is told, by the place after its colon.
#[inline(always)]
fn seen_far(blank: usize, past: usize, name: FarName) -> Option<Peeked>
    ensures { (bs : List ℕ) → IsFarName bs past name → Sees bs blank result }
{
    match name {
        FarName::Plain(len) => Some(Peeked {
            kind: Kind::PnameLn,
            blank,
            len,
            colon: past,
        }),
        FarName::Escaped(len) => seen_as(Kind::PnameLn, blank, Some(len)),
        FarName::Unknown => None,
    }
}

/// Whether some bytes stand between two places, of which the first is no hyphen, and after them one with which no
/// name goes on.
#[inline(always)]
fn is_local(bytes: &[u8], from: usize, end: usize) -> bool
    ensures { result ≡ is_local bytes.now from end }
{
    is_name_end(bytes, end) && from < end && bytes[from] != b'-'
}

/// An integer or a decimal without a sign.
#[inline(always)]
fn seen_number(blank: usize, text: &str) -> Option<Peeked>
    requires some { 0 < length text.now }
    requires digit { is_digit (get_or text.now 0 0) ≡ true }
    ensures { Sees text.now blank result }
{
    match integer_len(text) {
        Some(len) => seen_as(Kind::Integer, blank, Some(len)),
        None => seen_as(Kind::Decimal, blank, decimal_len(text)),
    }
}

/// A number with a sign.
#[inline(always)]
fn seen_signed(blank: usize, text: &str) -> Option<Peeked>
    ensures { Sees text.now blank result }
{
    match signed_number(text) {
        Signed::Integer(len) => seen_as(Kind::Integer, blank, Some(len)),
        Signed::Decimal(len) => seen_as(Kind::Decimal, blank, Some(len)),
        Signed::Double(len) => seen_as(Kind::Double, blank, Some(len)),
        Signed::Unknown => None,
    }
}

/// A string in double quotes, one at each end or three.
#[inline(always)]
fn seen_string(blank: usize, text: &str) -> Option<Peeked>
    requires { opens_with Turtle Double text.now ≡ true }
    ensures { Sees text.now blank result }
{
    match seen_string_len(text) {
        Some(len) => seen_as(Kind::ShortString, blank, Some(len)),
        None => seen_as(Kind::LongString, blank, long_len(text)),
    }
}

/// A name with an empty prefix. Its local part may be empty too.
#[inline(always)]
fn seen_local(blank: usize, text: &str) -> Option<Peeked>
    requires { is_colon text.now 0 ≡ true }
    ensures { Sees text.now blank result }
{
    match local_len(text) {
        Some(1) => seen_plain(Kind::PnameNs, blank, 1),
        Some(len) => seen_plain(Kind::PnameLn, blank, len),
        None => seen_far(blank, 1, far_local(text)),
    }
}

/// A name with an empty prefix and without an escape.
#[inline(always)]
fn seen_plain(kind: Kind, blank: usize, len: usize) -> Option<Peeked>
    ensures { (bs : List ℕ) → IsToken Turtle bs len kind → KnowsColon (take len bs) 1 → Sees bs blank result }
{
    Some(Peeked {
        kind,
        blank,
        len,
        colon: 1,
    })
}

// The lengths of tokens are found by calls, so that the look at the first byte, which every token needs, is
// inlined. A number goes back in a register.

/// The length of a reference in angle brackets without an escape.
fn seen_iri_len(text: &str) -> Option<usize>
    requires { begins_iri text.now ≡ true }
    ensures { IfSome result (λ n. IsToken Turtle text.now n IriRef) }
{
    let bytes = text.as_bytes();
    let end = run_end(Run::Iri, bytes, 1);
    if stands_at(b'>', bytes, end) {
        return Some(end + 1);
    }
    None
}

/// The length of the label of a blank node.
fn label_len(text: &str) -> Option<usize>
    ensures { IfSome result (λ n. IsToken Turtle text.now n LabelNode) }
{
    let bytes = text.as_bytes();
    if begins_label(bytes) {
        let end = run_end(Run::Name, bytes, 3);
        if is_name_end(bytes, end) {
            return Some(end);
        }
    }
    None
}

/// The length of a string in double quotes that is not empty.
fn seen_string_len(text: &str) -> Option<usize>
    requires { opens_with Turtle Double text.now ≡ true }
    ensures { IfSome result (λ n. IsToken Turtle text.now n ShortString) }
{
    let bytes = text.as_bytes();
    let end = run_end(Run::QuoteText, bytes, 1);
    if end > 1 && stands_at(b'"', bytes, end) {
        return Some(end + 1);
    }
    if stands_at(b'\\', bytes, end) {
        return escaped_len(text);
    }
    None
}

/// The length of such a string with escapes.
fn escaped_len(text: &str) -> Option<usize>
    requires { opens_with Turtle Double text.now ≡ true }
    ensures { IfSome result (λ n. IsToken Turtle text.now n ShortString) }
{
    let mut walk = None;
    quoted_len(Dialect::Turtle, Quote::Double, text, &mut walk)
}

/// The length of a string between three double quotes each.
fn long_len(text: &str) -> Option<usize>
    requires { opens_with Turtle Double text.now ≡ true }
    ensures { IfSome result (λ n. IsToken Turtle text.now n LongString) }
{
    let quick = quick_long(Quote::Double, text);
    match quick.kind {
        Some(Kind::LongString) => Some(quick.len),
        _ => None,
    }
}

/// The length of an integer without a sign.
fn integer_len(text: &str) -> Option<usize>
    requires some { 0 < length text.now }
    requires digit { is_digit (get_or text.now 0 0) ≡ true }
    ensures { IfSome result (λ n. IsToken Turtle text.now n Integer) }
{
    let bytes = text.as_bytes();
    let end = digits_end(bytes, 1);
    if is_integer_end(bytes, end) {
        return Some(end);
    }
    None
}

/// The length of a decimal that begins with a digit.
fn decimal_len(text: &str) -> Option<usize>
    requires some { 0 < length text.now }
    requires digit { is_digit (get_or text.now 0 0) ≡ true }
    ensures { IfSome result (λ n. IsToken Turtle text.now n Decimal) }
{
    let bytes = text.as_bytes();
    let end = digits_end(bytes, 1);
    if is_point(bytes, end) {
        let last = digits_end(bytes, end + 1);
        if is_decimal_end(bytes, end, last) {
            return Some(last);
        }
    }
    None
}

/// The length of a name with an empty prefix, and with a local part of letters, digits, `_` and `-` or none. LLVM
/// would inline it.
#[inline(never)]
fn local_len(text: &str) -> Option<usize>
    requires { is_colon text.now 0 ≡ true }
    ensures { IfSome result (λ n. IsToken Turtle text.now n (local_kind n) × KnowsColon (take n text.now) 1) }
{
    let bytes = text.as_bytes();
    let end = run_end(Run::Name, bytes, 1);
    if !is_name_end(bytes, end) {
        return None;
    }
    if end == 1 {
        return Some(end);
    }
    if bytes[1] == b'-' {
        return None;
    }
    Some(end)
}

/// What is told of a name with an empty prefix and another local part.
fn far_local(text: &str) -> FarName
    requires { is_colon text.now 0 ≡ true }
    ensures { IsFarName text.now 1 result }
{
    let quick = quick_named(text);
    match quick.kind {
        Some(Kind::PnameLn) => far_name_of(text.as_bytes(), 0, quick.len),
        _ => FarName::Unknown,
    }
}

/// What is told of a name with a prefix and such a local part. Its runs are sought once more: were they handed on,
/// LLVM would keep less in registers, and all names would take 3 % more.
#[inline(never)]
fn far_name(text: &str) -> FarName
    requires some { 0 < length text.now }
    requires letter { is_letter (get_or text.now 0 0) ≡ true }
    ensures { (colon : ℕ) → IsRun is_name_byte text.now 1 colon → IsFarName text.now (colon + 1) result }
{
    let bytes = text.as_bytes();
    let (colon, end) = two_run_ends(Run::Name, bytes, 1);
    if !is_colon(bytes, colon) {
        return FarName::Unknown;
    }
    let quick = quick_local(text, colon, end);
    match quick.kind {
        Some(Kind::PnameLn) => far_name_of(bytes, colon, quick.len),
        _ => FarName::Unknown,
    }
}

/// What is told of a name of so many bytes by its colon.
#[inline(always)]
fn far_name_of(bytes: &[u8], colon: usize, len: usize) -> FarName
    requires colon { is_colon bytes.now colon ≡ true }
    requires before { PassBetween is_name_byte bytes.now 0 colon }
    ensures { IsToken Turtle bytes.now len PnameLn → IsFarName bytes.now (colon + 1) result }
{
    if lacks_escapes(bytes, colon, len) {
        FarName::Plain(len)
    } else {
        FarName::Escaped(len)
    }
}

/// Whether no backslash comes after the colon of a name of so many bytes.
#[inline(always)]
fn lacks_escapes(bytes: &[u8], colon: usize, len: usize) -> bool
    requires colon { is_colon bytes.now colon ≡ true }
    requires before { PassBetween is_name_byte bytes.now 0 colon }
    ensures { result ≡ true → KnowsColon (take len bytes.now) (colon + 1) }
{
    if colon < len && len <= bytes.len() {
        return is_run(Run::Unescaped, &bytes[colon + 1..len]);
    }
    false
}

/// What is told of a number whose first byte is its sign.
#[inline(never)]
fn signed_number(text: &str) -> Signed
    ensures { IsSigned text.now result }
{
    if !begins_signed(Dialect::Turtle, text.as_bytes()) {
        return Signed::Unknown;
    }
    let quick = quick_number(text, 1);
    match quick.kind {
        Some(Kind::Integer) => Signed::Integer(quick.len),
        Some(Kind::Decimal) => Signed::Decimal(quick.len),
        Some(Kind::Double) => Signed::Double(quick.len),
        _ => Signed::Unknown,
    }
}

/// The length of the word `true` or `false`, which tells them apart. Its run is sought once more, too. Were it a
/// `bool` that goes back, names would take 1.3 % more.
#[inline(never)]
fn word_len(text: &str) -> Option<usize>
    requires { 0 < length text.now }
    ensures { IfSome result (λ n. IsToken Turtle text.now n (word_kind n)) }
{
    word_at(text, run_end(Run::Name, text.as_bytes(), 1))
}

/// The length of a language tag.
fn tag_len(text: &str) -> Option<usize>
    ensures { IfSome result (λ n. IsToken Turtle text.now n LangTag) }
{
    if !begins_tag(text.as_bytes()) {
        return None;
    }
    let quick = quick_tag(text);
    match quick.kind {
        Some(Kind::LangTag) => Some(quick.len),
        _ => None,
    }
}

/// The length of two carets.
fn carets_len(text: &str) -> Option<usize>
    ensures { IfSome result (λ n. IsToken Turtle text.now n Carets) }
{
    if are_carets(text.as_bytes()) {
        Some(2)
    } else {
        None
    }
}
