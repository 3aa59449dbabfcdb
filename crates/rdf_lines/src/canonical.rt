// Lines that stand as they are written.

ghost use Rattle.std.specs.Prelude.{◌≡◌, ◌<◌, ◌≤◌, ◌+◌, ◌∷◌, ◌++◌, length, take, get_or, IfSome};
ghost use Rattle.std.specs.Str.{chars, IsUtf8};
ghost use Rattle.rdf_terms.specs.Runs.{is_short_byte, IsRun};
ghost use Rattle.rdf_tokens.specs.Scans.{most_bytes};
ghost use Rattle.rdf_lines.specs.Canonical.{PassesLines, end_count, end_text};
ghost use Rattle.rdf_lines.specs.Fronts.{IriStands, NameStands, BlankStands, StringStands, SubjectStands};
ghost use Rattle.rdf_terms.specs.Terms.{IsLabel, IsTag};
ghost use Rattle.rdf_lines.specs.Fronts.{PredicateStands, TailStands, ObjectStands, GraphStands, LineStandsByAnyLimit};
ghost use Rattle.rdf_lines.specs.Fronts.{AreLines, CharactersStand, EscapeStands};

use crate::form::{LineEnding, LineForm};
use crate::grammar::LineGrammar;
use crate::rules::Rules;
use rdf_driver::Reader;
use rdf_terms::runs::{Run, run_end};
use rdf_terms::{has_scheme, is_label, is_tag};
use std::alloc::Allocator;

/// With smaller limits on tokens and IRIs no line is looked at.
pub const LEAST_LIMIT: u64 = 64;

/// Lines at the front of a text that stand as they are written.
#[derive(Clone, Copy)]
pub struct Front {
    pub bytes: usize,
    pub quads: u64,
    pub tokens: u64,
}

// A part of a line: how many tokens it has, and what comes after it.
#[derive(Clone, Copy)]
struct Part<'a> {
    tokens: u64,
    rest: &'a str,
}

// An IRI, and what comes after its closing bracket.
#[derive(Clone, Copy)]
pub(crate) struct IriPart<'a> {
    pub(crate) iri: &'a str,
    pub(crate) rest: &'a str,
}

// A label or a tag, and what comes after it.
#[derive(Clone, Copy)]
pub(crate) struct NamePart<'a> {
    pub(crate) name: &'a str,
    pub(crate) rest: &'a str,
}

/// Passes lines at the front of the text that end so and stand as they are written, where the reader stands between
/// two lines, and answers how many bytes they have. What is written for their quads with the labels kept are these
/// bytes without their CRs. With limits below 64 it passes none.
pub fn pass_lines<A: Allocator + Copy>(
    reader: &mut Reader<LineGrammar<A>, A>,
    text: &str,
    ending: LineEnding,
) -> usize
    ensures within { result ≤ length text.now }
    ensures passes { PassesLines ending reader.old (take result text.now) reader.new }
{
    if !reader.can_pass(text.len()) {
        return 0;
    }
    let front = reader.grammar().lines_in(text, ending);
    if front.bytes == 0 {
        return 0;
    }
    let lines = &text.as_bytes()[..front.bytes];
    reader.pass(lines, front.quads, front.tokens);
    front.bytes
}

/// As many lines at the front of the text as end so and are known to stand as they are written.
pub fn canonical_front(text: &str, ending: LineEnding, rules: Rules, token: u64) -> Front
    requires token { 64 ≤ token }
    requires iri { 64 ≤ rules.iri }
    requires few { length text.now ≤ most_bytes }
    ensures lines { AreLines ending rules.form token rules.iri result.quads result.tokens (take result.bytes text.now) }
    ensures within { result.bytes ≤ length text.now }
{
    ended_front(front_within(text, token), ending, rules, token)
}

// The text, or its front of so many bytes, or none of it where a character stands across that place.
fn front_within(text: &str, limit: u64) -> &str
    ensures front { result.now ≡ take (length result.now) text.now }
    ensures within { length result.now ≤ limit }
    ensures shorter { length result.now ≤ length text.now }
{
    if text.len() as u64 <= limit {
        return text;
    }
    match text.split_at_checked(limit as usize) {
        Some((front, _)) => front,
        None => "",
    }
}

// The same of a text that is no longer than a token may be.
fn ended_front(text: &str, ending: LineEnding, rules: Rules, token: u64) -> Front
    requires token { 64 ≤ token }
    requires short { length text.now ≤ token }
    requires iri { 64 ≤ rules.iri }
    requires few { length text.now ≤ most_bytes }
    ensures lines { AreLines ending rules.form token rules.iri result.quads result.tokens (take result.bytes text.now) }
    ensures within { result.bytes ≤ length text.now }
{
    let len = text.len();
    let ends = end_tokens(ending);
    let mut rest = text;
    let mut quads = 0;
    let mut tokens = 0;
    'lines: loop {
        match canonical_line(rest, ending, rules) {
            Some(line) => {
                rest = line.rest;
                quads += 1;
                tokens += line.tokens + ends;
            }
            None => {
                return Front {
                    bytes: len - rest.len(),
                    quads,
                    tokens,
                };
            }
        }
    }
}

// How many tokens the end of a line has.
pub(crate) fn end_tokens(ending: LineEnding) -> u64
    ensures { result ≡ end_count ending }
{
    match ending {
        LineEnding::Lf => 1,
        LineEnding::CrLf => 2,
    }
}

// The line that the text begins with, if it is one that would be written so, and ends so; with the tokens before
// its end.
fn canonical_line(text: &str, ending: LineEnding, rules: Rules) -> Option<Part<'_>>
    requires iri { 64 ≤ rules.iri }
    ensures { IfSome result (λ p.
        LineStandsByAnyLimit ending rules.form rules.iri (p.tokens + end_count ending) text.now p.rest.now) }
{
    let rest = predicate(subject(text, rules.iri)?, rules.iri)?;
    let object = object(rest, rules.iri)?;
    let graph = graph(object.rest, rules)?;
    Some(Part {
        tokens: object.tokens + graph.tokens + 3,
        rest: after_end(after_byte(graph.rest, b'.')?, ending)?,
    })
}

// The text after a line's end.
pub(crate) fn after_end(text: &str, ending: LineEnding) -> Option<&str>
    ensures { IfSome result (λ rest. text.now ≡ end_text ending ++ rest.now) }
{
    match ending {
        LineEnding::Lf => after_byte(text, b'\n'),
        LineEnding::CrLf => after_byte(after_byte(text, b'\r')?, b'\n'),
    }
}

fn subject(text: &str, limit: u64) -> Option<&str>
    ensures { IfSome result (λ rest. SubjectStands limit text.now rest.now) }
{
    match after_byte(text, b'<') {
        Some(text) => after_byte(iri(text, limit)?.rest, b' '),
        None => after_byte(
            label(after_byte(after_byte(text, b'_')?, b':')?)?.rest,
            b' ',
        ),
    }
}

fn predicate(text: &str, limit: u64) -> Option<&str>
    ensures { IfSome result (λ rest. PredicateStands limit text.now rest.now) }
{
    after_byte(iri(after_byte(text, b'<')?, limit)?.rest, b' ')
}

fn object(text: &str, limit: u64) -> Option<Part<'_>>
    requires { 64 ≤ limit }
    ensures stands { IfSome result (λ p. ObjectStands limit p.tokens text.now p.rest.now) }
    ensures few { IfSome result (λ p. p.tokens ≤ 3) }
{
    match after_byte(text, b'"') {
        Some(text) => {
            let tail = tail(string(text)?, limit)?;
            Some(Part {
                tokens: tail.tokens + 1,
                rest: tail.rest,
            })
        }
        None => Some(Part {
            tokens: 1,
            rest: subject(text, limit)?,
        }),
    }
}

// What follows a string: nothing, a tag, or a datatype that is written.
fn tail(text: &str, limit: u64) -> Option<Part<'_>>
    requires { 64 ≤ limit }
    ensures stands { IfSome result (λ p. TailStands limit p.tokens text.now p.rest.now) }
    ensures few { IfSome result (λ p. p.tokens ≤ 2) }
{
    if let Some(rest) = after_byte(text, b' ') {
        return Some(Part { tokens: 0, rest });
    }
    if let Some(text) = after_byte(text, b'@') {
        return Some(Part {
            tokens: 1,
            rest: after_byte(tag(text)?.rest, b' ')?,
        });
    }
    let text = after_byte(after_byte(after_byte(text, b'^')?, b'^')?, b'<')?;
    let part = iri(text, limit)?;
    if part.iri == "http://www.w3.org/2001/XMLSchema#string" {
        return None;
    }
    Some(Part {
        tokens: 2,
        rest: after_byte(part.rest, b' ')?,
    })
}

fn graph(text: &str, rules: Rules) -> Option<Part<'_>>
    ensures stands { IfSome result (λ p. GraphStands rules.form rules.iri p.tokens text.now p.rest.now) }
    ensures few { IfSome result (λ p. p.tokens ≤ 1) }
{
    match (rules.form, after_byte(text, b'.')) {
        (_, Some(_)) => Some(Part {
            tokens: 0,
            rest: text,
        }),
        (LineForm::NTriples, None) => None,
        (LineForm::NQuads, None) => Some(Part {
            tokens: 1,
            rest: subject(text, rules.iri)?,
        }),
    }
}

// An IRI, whose opening bracket came before.
pub(crate) fn iri(text: &str, limit: u64) -> Option<IriPart<'_>>
    ensures stands { IfSome result (λ p. IriStands limit (chars p.iri.now) text.now p.rest.now) }
    ensures utf8 { IfSome result (λ p. IsUtf8 p.iri.now) }
{
    let end = run_end(Run::Iri, text.as_bytes(), 0);
    let rest = after_byte_at(text, end, b'>')?;
    let iri = &text[..end];
    if iri.len() as u64 > limit || !has_scheme(iri) {
        return None;
    }
    Some(IriPart { iri, rest })
}

// A label, whose `_:` came before.
#[inline(always)]
pub(crate) fn label(text: &str) -> Option<NamePart<'_>>
    ensures { IfSome result (λ p. NameStands IsLabel (chars p.name.now) text.now p.rest.now) }
{
    match plain_label(text) {
        Some(part) => Some(part),
        None => any_label(text),
    }
}

// One of ASCII letters, digits, `_` and `-`.
fn plain_label(text: &str) -> Option<NamePart<'_>>
    ensures { IfSome result (λ p. NameStands IsLabel (chars p.name.now) text.now p.rest.now) }
{
    let bytes = text.as_bytes();
    let end = run_end(Run::Name, bytes, 0);
    after_blank_at(text, end)?;
    if end == 0 || bytes[0] == b'-' {
        return None;
    }
    Some(NamePart {
        name: &text[..end],
        rest: &text[end..],
    })
}

// Any label. Each of its characters may stand in an IRI, and a space may not.
fn any_label(text: &str) -> Option<NamePart<'_>>
    ensures { IfSome result (λ p. NameStands IsLabel (chars p.name.now) text.now p.rest.now) }
{
    let end = run_end(Run::Iri, text.as_bytes(), 0);
    after_blank_at(text, end)?;
    let name = &text[..end];
    if !is_label(name) {
        return None;
    }
    Some(NamePart {
        name,
        rest: &text[end..],
    })
}

// A language tag, whose `@` came before.
#[inline(always)]
pub(crate) fn tag(text: &str) -> Option<NamePart<'_>>
    ensures { IfSome result (λ p. NameStands IsTag (chars p.name.now) text.now p.rest.now) }
{
    let end = run_end(Run::Name, text.as_bytes(), 0);
    after_blank_at(text, end)?;
    let name = &text[..end];
    if !is_tag(name) {
        return None;
    }
    Some(NamePart {
        name,
        rest: &text[end..],
    })
}

// A string, whose opening quote came before.
fn string(text: &str) -> Option<&str>
    ensures { IfSome result (λ rest. StringStands text.now rest.now) }
{
    let mut rest = text;
    'runs: loop {
        let end = run_end(Run::QuoteText, rest.as_bytes(), 0);
        if let Some(left) = after_byte_at(rest, end, b'"') {
            return Some(left);
        }
        rest = after_run(rest, end)?;
    }
}

// The text after a run of a string's characters, and after the escape that ends it.
fn after_run(text: &str, end: usize) -> Option<&str>
    requires run { IsRun (is_short_byte 34) text.now 0 end }
    ensures stands { IfSome result (λ rest. CharactersStand text.now rest.now) }
    ensures shorter { IfSome result (λ rest. length rest.now < length text.now) }
{
    after_letter(after_byte_at(text, end, b'\\')?)
}

// The text after the letter of an escape that is written, whose backslash came before.
fn after_letter(text: &str) -> Option<&str>
    ensures stands { IfSome result (λ rest. EscapeStands text.now rest.now) }
    ensures shorter { IfSome result (λ rest. length rest.now < length text.now) }
{
    let letter = *text.as_bytes().first()?;
    if !matches!(letter, b'"' | b'\\' | b'n' | b'r') {
        return None;
    }
    after_byte(text, letter)
}

// The text after a space or a tab at a place.
#[inline(always)]
pub(crate) fn after_blank_at(text: &str, at: usize) -> Option<&str>
    requires within { at ≤ length text.now }
    ensures { IfSome result (λ rest. BlankStands at text.now rest.now) }
{
    match after_byte_at(text, at, b' ') {
        Some(rest) => Some(rest),
        None => Some(after_byte_at(text, at, b'\t')?),
    }
}

// The text after an ASCII character that it begins with.
pub(crate) fn after_byte(text: &str, byte: u8) -> Option<&str>
    requires { byte < 128 }
    ensures { IfSome result (λ rest. text.now ≡ byte ∷ rest.now) }
{
    after_byte_at(text, 0, byte)
}

// The text after an ASCII character at a place.
pub(crate) fn after_byte_at(text: &str, at: usize, byte: u8) -> Option<&str>
    requires ascii { byte < 128 }
    requires within { at ≤ length text.now }
    ensures is { IfSome result (λ rest. text.now ≡ take at text.now ++ byte ∷ rest.now) }
    ensures inside { IfSome result (λ rest. at < length text.now) }
    ensures byte { IfSome result (λ rest. get_or text.now at 0 ≡ byte) }
{
    let bytes = text.as_bytes();
    if at < bytes.len() && bytes[at] == byte {
        Some(&text[at + 1..])
    } else {
        None
    }
}
