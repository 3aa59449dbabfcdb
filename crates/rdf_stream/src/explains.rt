// The lines that explain a refusal, the first in the form that editors read.

ghost use Rattle.std.specs.Prelude.{◌≡◌, ◌||◌, ◌&&◌, ◌++◌, IfOk, OnOk, Some, drop, length, not, option_map};
ghost use Rattle.rdf_driver.specs.Kinds.{has};
ghost use Rattle.std.specs.List.{list_all};
ghost use Rattle.rdf_stream.specs.Explains.{between, bytes_text, column_text, escape_len, escape_text, expected_text};
ghost use Rattle.rdf_stream.specs.Explains.{explain_text, found_text, front_text, is_graphic, limit_of, limit_text};
ghost use Rattle.rdf_stream.specs.Explains.{listed, name_of, note_text};
ghost use Rattle.rdf_stream.specs.Explains.{only_said, open_text, opened_text, quoted_text, said, shown_text};
ghost use Rattle.rdf_stream.specs.Explains.{sight_text, stop_text, stopped_text, told_text, word_of, words_for};
ghost use Rattle.rdf_stream.specs.ExplainTexts.{texts_of};

use crate::brackets::Opened;
use crate::expected::Details;
use crate::messages::{put_number, words};
use crate::watch::{Near, Nearby};
use rdf_diagnostics::{Cause, Sight, advice, cause_of, put_excerpt};
use rdf_driver::Kinds;
use rdf_iri::Limits;
use rdf_terms::{Kind, Reason};
use rdf_tokens::Fault;
use std::alloc::{AllocError, Allocator};

/// What is known of a refusal.
#[derive(Drop)]
pub struct Evidence<N> {
    /// What is known of a token that was unexpected.
    pub details: Details,
    /// What is told of the place.
    pub near: Nearby<N>,
    /// The limits that the document was read by.
    pub limits: Limits,
}

/// The lines that explain the refusal of the document of this name, each with its LF. The first has the form that
/// editors read: the name, the line and the column of the place, where that is told; why the document is refused;
/// the kind of the token that stands there, where it was found, and the kinds of tokens that could have stood
/// there, where there are any; the innermost bracket that is open before an unexpected token, where it is told;
/// where a token stops, its bad escape, or what the name or the reference is; and the limit that is passed. Where
/// the place is told, its line follows with a caret, and what mostly causes such a refusal, where the bytes there
/// tell it.
pub fn explain<A: Allocator + Copy>(
    alloc: A,
    name: &str,
    fault: &Fault,
    evidence: &Evidence<Near<A>>,
) -> Result<Vec<u8, A>, AllocError>
    ensures { IfOk result (λ line. line.items ≡ explain_text name.now fault.now evidence.now) }
{
    let mut line = Vec::new(alloc);
    put_place(name, fault.line, &evidence.near, &mut line)?;
    put_words(fault.reason, evidence, &mut line)?;
    line.extend_from_slice(b"\n")?;
    put_shown(name, fault, &evidence.near, &mut line)?;
    Ok(line)
}

// What is said of the refusal behind the place.
fn put_words<A: Allocator + Copy>(
    reason: Reason,
    evidence: &Evidence<Near<A>>,
    line: &mut Vec<u8, A>,
) -> Result<(), AllocError>
    ensures { OnOk result (line.new.items ≡ line.old.items ++ told_text reason evidence.now) }
{
    line.extend_from_slice(words(reason).as_bytes())?;
    put_found(evidence.details.found, line)?;
    put_expected(evidence.details.expected, line)?;
    put_open(reason, &evidence.near, line)?;
    put_sight(reason, &evidence.near, line)?;
    put_limit(limit_of(reason, evidence.limits), line)?;
    Ok(())
}

// The name, the line, and the column where it is told.
fn put_place<A: Allocator + Copy>(
    name: &str,
    number: u64,
    near: &Nearby<Near<A>>,
    line: &mut Vec<u8, A>,
) -> Result<(), AllocError>
    ensures { OnOk result (line.new.items ≡ line.old.items ++ front_text name.now number near.now) }
{
    line.extend_from_slice(name.as_bytes())?;
    line.extend_from_slice(b":")?;
    put_number(number, line)?;
    line.extend_from_slice(b":")?;
    if let Nearby::Told(near) = near {
        put_number(near.column, line)?;
        line.extend_from_slice(b":")?;
    }
    line.extend_from_slice(b" ")
}

// Where a token stops, its bad escape, or the name or the reference that stands there.
fn put_sight<A: Allocator + Copy>(
    reason: Reason,
    near: &Nearby<Near<A>>,
    line: &mut Vec<u8, A>,
) -> Result<(), AllocError>
    ensures { OnOk result (line.new.items ≡ line.old.items ++ sight_text reason near.now) }
{
    let Nearby::Told(near) = near else {
        return Ok(())
    };
    match (reason, near.sight) {
        (Reason::NoToken, Sight::Stop(len)) => put_stop(len, line),
        (Reason::BadEscape, Sight::BadEscape(len)) => put_escape(near.after.as_slice(), len, line),
        (Reason::Unbound | Reason::NoBase | Reason::RelativeIri, Sight::Token(_, len)) => {
            put_quoted(name_of(near.after.as_slice(), len), line)
        }
        _ => Ok(()),
    }
}

// The innermost bracket that is open before an unexpected token, where it is told.
fn put_open<A: Allocator + Copy>(
    reason: Reason,
    near: &Nearby<Near<A>>,
    line: &mut Vec<u8, A>,
) -> Result<(), AllocError>
    ensures { OnOk result (line.new.items ≡ line.old.items ++ open_text reason near.now) }
{
    let Nearby::Told(near) = near else {
        return Ok(())
    };
    match (reason, near.bracket) {
        (Reason::Unexpected, Some(bracket)) => put_opened(bracket, line),
        _ => Ok(()),
    }
}

fn put_opened<A: Allocator + Copy>(bracket: Opened, line: &mut Vec<u8, A>) -> Result<(), AllocError>
    ensures { OnOk result (line.new.items ≡ line.old.items ++ opened_text bracket) }
{
    line.extend_from_slice(b"; ")?;
    line.extend_from_slice(word_of(bracket.kind).as_bytes())?;
    line.extend_from_slice(b" is open since line ")?;
    put_number(bracket.line, line)?;
    put_column(bracket.column, line)
}

fn put_column<A: Allocator + Copy>(
    column: Option<u64>,
    line: &mut Vec<u8, A>,
) -> Result<(), AllocError>
    ensures { OnOk result (line.new.items ≡ line.old.items ++ column_text column) }
{
    match column {
        Some(column) => {
            line.extend_from_slice(b", column ")?;
            put_number(column, line)
        }
        None => Ok(()),
    }
}

// After how many bytes a token stops that begins there; nothing where none does.
fn put_stop<A: Allocator + Copy>(len: u64, line: &mut Vec<u8, A>) -> Result<(), AllocError>
    ensures { OnOk result (line.new.items ≡ line.old.items ++ stop_text len) }
{
    if len == 0 {
        Ok(())
    } else {
        put_stopped(len, line)
    }
}

fn put_stopped<A: Allocator + Copy>(len: u64, line: &mut Vec<u8, A>) -> Result<(), AllocError>
    ensures { OnOk result (line.new.items ≡ line.old.items ++ stopped_text len) }
{
    line.extend_from_slice(b": it stops after ")?;
    put_bytes(len, line)
}

// A number of bytes.
fn put_bytes<A: Allocator + Copy>(count: u64, line: &mut Vec<u8, A>) -> Result<(), AllocError>
    ensures { OnOk result (line.new.items ≡ line.old.items ++ bytes_text count) }
{
    put_number(count, line)?;
    match count {
        1 => line.extend_from_slice(b" byte"),
        _ => line.extend_from_slice(b" bytes"),
    }
}

// The escape after so many bytes, where it is there, and how many bytes stand before it.
fn put_escape<A: Allocator + Copy>(
    after: &[u8],
    len: u64,
    line: &mut Vec<u8, A>,
) -> Result<(), AllocError>
    ensures { OnOk result (line.new.items ≡ line.old.items ++ escape_text after.now len) }
{
    put_quoted(escape_of(after, len), line)?;
    line.extend_from_slice(b" after ")?;
    put_bytes(len, line)
}

// The escape after so many bytes, where it is there.
fn escape_of(after: &[u8], len: u64) -> Option<&[u8]>
    ensures { option_map (λ s. s.now) result ≡ name_of (drop len after.now) (escape_len (drop len after.now)) }
{
    let escape = rest_after(after, len);
    name_of(escape, escape_len(escape))
}

// The bytes after so many.
fn rest_after(bytes: &[u8], len: u64) -> &[u8]
    ensures { result.now ≡ drop len bytes.now }
{
    if len < bytes.len() as u64 {
        &bytes[len as usize..]
    } else {
        &[]
    }
}

// How long an escape by number is.
fn escape_len(bytes: &[u8]) -> u64
    ensures { result ≡ escape_len bytes.now }
{
    match bytes {
        [b'\\', b'u', ..] => 6,
        _ => 10,
    }
}

// The first bytes, so many, where they are all there and are shown as they stand.
fn name_of(after: &[u8], len: u64) -> Option<&[u8]>
    ensures { option_map (λ s. s.now) result ≡ name_of after.now len }
{
    if (after.len() as u64) < len {
        return None;
    }
    let name = &after[..len as usize];
    if are_graphic(name) { Some(name) } else { None }
}

fn are_graphic(bytes: &[u8]) -> bool
    ensures { result ≡ list_all is_graphic bytes.now }
{
    for byte in bytes {
        if !is_graphic(*byte) {
            return false;
        }
    }
    true
}

fn is_graphic(byte: u8) -> bool
    ensures { result ≡ is_graphic byte }
{
    33 <= byte && byte <= 126
}

fn put_quoted<A: Allocator + Copy>(
    name: Option<&[u8]>,
    line: &mut Vec<u8, A>,
) -> Result<(), AllocError>
    ensures { OnOk result (line.new.items ≡ line.old.items ++ quoted_text (option_map (λ s. s.now) name.entry)) }
{
    match name {
        Some(name) => {
            line.extend_from_slice(b": \"")?;
            line.extend_from_slice(name)?;
            line.extend_from_slice(b"\"")
        }
        None => Ok(()),
    }
}

// The limit that is passed where this is the reason.
fn limit_of(reason: Reason, limits: Limits) -> Option<u64>
    ensures { result ≡ limit_of reason limits }
{
    match reason {
        Reason::TokenTooLong => Some(limits.token()),
        Reason::IriTooLong => Some(limits.iri()),
        Reason::TooDeep => Some(limits.depth()),
        Reason::TooManyBindings => Some(limits.bindings()),
        _ => None,
    }
}

fn put_limit<A: Allocator + Copy>(
    limit: Option<u64>,
    line: &mut Vec<u8, A>,
) -> Result<(), AllocError>
    ensures { OnOk result (line.new.items ≡ line.old.items ++ limit_text limit) }
{
    match limit {
        Some(limit) => put_one_limit(limit, line),
        None => Ok(()),
    }
}

fn put_one_limit<A: Allocator + Copy>(limit: u64, line: &mut Vec<u8, A>) -> Result<(), AllocError>
    ensures { OnOk result (line.new.items ≡ line.old.items ++ limit_text (Some limit)) }
{
    line.extend_from_slice(b"; the limit is ")?;
    put_number(limit, line)
}

// The line near the place, with a caret, and the likely cause.
fn put_shown<A: Allocator + Copy>(
    name: &str,
    fault: &Fault,
    near: &Nearby<Near<A>>,
    line: &mut Vec<u8, A>,
) -> Result<(), AllocError>
    ensures { OnOk result (line.new.items ≡ line.old.items ++ shown_text name.now fault.now near.now) }
{
    let Nearby::Told(told) = near else {
        return Ok(())
    };
    let before = told.before.as_slice();
    let after = told.after.as_slice();
    put_excerpt(before, after, line)?;
    match cause_of(fault.reason, fault.offset, before, after) {
        Some(cause) => put_note(name, fault.line, near, cause, line),
        None => Ok(()),
    }
}

fn put_note<A: Allocator + Copy>(
    name: &str,
    number: u64,
    near: &Nearby<Near<A>>,
    cause: Cause,
    line: &mut Vec<u8, A>,
) -> Result<(), AllocError>
    ensures { OnOk result (line.new.items ≡ line.old.items ++ front_text name.now number near.now ++ note_text cause) }
{
    put_place(name, number, near, line)?;
    line.extend_from_slice(b"note: ")?;
    line.extend_from_slice(advice(cause).as_bytes())?;
    line.extend_from_slice(b"\n")
}

// The kind that was found there, where there is one.
fn put_found<A: Allocator + Copy>(
    found: Option<Kind>,
    line: &mut Vec<u8, A>,
) -> Result<(), AllocError>
    ensures { OnOk result (line.new.items ≡ line.old.items ++ found_text found) }
{
    match found {
        None => Ok(()),
        Some(kind) => {
            line.extend_from_slice(b": ")?;
            line.extend_from_slice(word_of(kind).as_bytes())
        }
    }
}

// The kinds that could have stood there, where there are any.
fn put_expected<A: Allocator + Copy>(
    expected: Kinds,
    line: &mut Vec<u8, A>,
) -> Result<(), AllocError>
    ensures { OnOk result (line.new.items ≡ line.old.items ++ expected_text expected) }
{
    let words = words_for(expected);
    let count = count_said(words.as_slice());
    if count == 0 {
        return Ok(());
    }
    line.extend_from_slice(b"; expected ")?;
    put_listed(words.as_slice(), count, line)
}

// The words that are said, of which there are so many, with what stands between them.
fn put_listed<A: Allocator + Copy>(
    words: &[Option<&str>],
    count: usize,
    line: &mut Vec<u8, A>,
) -> Result<(), AllocError>
    requires { count ≡ length (only_said (texts_of words.now)) }
    ensures { OnOk result (line.new.items ≡ line.old.items ++ listed (only_said (texts_of words.now))) }
{
    let mut left = count;
    for &word in words {
        if let Some(word) = word {
            left -= 1;
            line.extend_from_slice(word.as_bytes())?;
            line.extend_from_slice(between(left).as_bytes())?;
        }
    }
    Ok(())
}

// How many of the words are said.
fn count_said(words: &[Option<&str>]) -> usize
    ensures { result ≡ length (only_said (texts_of words.now)) }
{
    let mut count = 0;
    for &word in words {
        if word.is_some() {
            count += 1;
        }
    }
    count
}

// What stands between a word and as many that follow.
fn between(left: usize) -> &'static str
    ensures { result.now ≡ between left }
{
    if left == 0 {
        ""
    } else if left == 1 {
        " or "
    } else {
        ", "
    }
}

// The words for the kinds in the set.
fn words_for(kinds: Kinds) -> [Option<&'static str>; 27]
    ensures { texts_of result ≡ words_for kinds }
{
    [
        said(kinds.contains(Kind::IriRef), word_of(Kind::IriRef)),
        said(kinds.contains(Kind::LabelNode), word_of(Kind::LabelNode)),
        said(has_string(kinds), word_of(Kind::ShortString)),
        said(kinds.contains(Kind::LangTag), word_of(Kind::LangTag)),
        said(kinds.contains(Kind::Carets), word_of(Kind::Carets)),
        said(kinds.contains(Kind::Dot), word_of(Kind::Dot)),
        said(kinds.contains(Kind::LineEnd), word_of(Kind::LineEnd)),
        said(has_number(kinds), word_of(Kind::Integer)),
        said(kinds.contains(Kind::True), word_of(Kind::True)),
        said(kinds.contains(Kind::False), word_of(Kind::False)),
        said(kinds.contains(Kind::A), word_of(Kind::A)),
        said(
            has_first_alone(kinds, Kind::AtPrefix, Kind::LangTag),
            word_of(Kind::AtPrefix),
        ),
        said(
            has_first_alone(kinds, Kind::AtBase, Kind::LangTag),
            word_of(Kind::AtBase),
        ),
        said(kinds.contains(Kind::Prefix), word_of(Kind::Prefix)),
        said(kinds.contains(Kind::Base), word_of(Kind::Base)),
        said(kinds.contains(Kind::Graph), word_of(Kind::Graph)),
        said(
            has_first_alone(kinds, Kind::PnameNs, Kind::PnameLn),
            word_of(Kind::PnameNs),
        ),
        said(kinds.contains(Kind::PnameLn), word_of(Kind::PnameLn)),
        said(kinds.contains(Kind::Semicolon), word_of(Kind::Semicolon)),
        said(kinds.contains(Kind::Comma), word_of(Kind::Comma)),
        said(
            kinds.contains(Kind::OpenBracket),
            word_of(Kind::OpenBracket),
        ),
        said(
            kinds.contains(Kind::CloseBracket),
            word_of(Kind::CloseBracket),
        ),
        said(kinds.contains(Kind::OpenParen), word_of(Kind::OpenParen)),
        said(kinds.contains(Kind::CloseParen), word_of(Kind::CloseParen)),
        said(kinds.contains(Kind::OpenBrace), word_of(Kind::OpenBrace)),
        said(kinds.contains(Kind::CloseBrace), word_of(Kind::CloseBrace)),
        said(kinds.contains(Kind::End), word_of(Kind::End)),
    ]
}

// The word for a kind.
fn word_of(kind: Kind) -> &'static str
    ensures { result.now ≡ word_of kind }
{
    match kind {
        Kind::IriRef => "IRI",
        Kind::LabelNode => "blank node label",
        Kind::ShortString => "string",
        Kind::LongString => "string",
        Kind::LangTag => "language tag",
        Kind::Carets => "\"^^\"",
        Kind::Dot => "\".\"",
        Kind::LineEnd => "line end",
        Kind::Integer => "number",
        Kind::Decimal => "number",
        Kind::Double => "number",
        Kind::True => "\"true\"",
        Kind::False => "\"false\"",
        Kind::A => "\"a\"",
        Kind::AtPrefix => "\"@prefix\"",
        Kind::AtBase => "\"@base\"",
        Kind::Prefix => "\"PREFIX\"",
        Kind::Base => "\"BASE\"",
        Kind::Graph => "\"GRAPH\"",
        Kind::PnameNs => "prefix",
        Kind::PnameLn => "prefixed name",
        Kind::Semicolon => "\";\"",
        Kind::Comma => "\",\"",
        Kind::OpenBracket => "\"[\"",
        Kind::CloseBracket => "\"]\"",
        Kind::OpenParen => "\"(\"",
        Kind::CloseParen => "\")\"",
        Kind::OpenBrace => "\"{\"",
        Kind::CloseBrace => "\"}\"",
        Kind::End => "end of document",
    }
}

// The word, where it is said.
fn said(told: bool, word: &'static str) -> Option<&'static str>
    ensures { option_map (λ s. s.now) result ≡ said told word.now }
{
    if told { Some(word) } else { None }
}

fn has_string(kinds: Kinds) -> bool
    ensures { result ≡ (has kinds Kind.ShortString || has kinds Kind.LongString) }
{
    kinds.contains(Kind::ShortString) || kinds.contains(Kind::LongString)
}

fn has_number(kinds: Kinds) -> bool
    ensures { result ≡ (has kinds Kind.Integer || (has kinds Kind.Decimal || has kinds Kind.Double)) }
{
    kinds.contains(Kind::Integer) || kinds.contains(Kind::Decimal) || kinds.contains(Kind::Double)
}

// Whether a kind is in the set, and another is not.
fn has_first_alone(kinds: Kinds, first: Kind, second: Kind) -> bool
    ensures { result ≡ (has kinds first && not (has kinds second)) }
{
    kinds.contains(first) && !kinds.contains(second)
}
