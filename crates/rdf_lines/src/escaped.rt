// Lines whose strings and IRIs may have any escapes.

ghost use Rattle.std.specs.Prelude.{◌≡◌, ◌<◌, ◌≤◌, ◌+◌, ◌++◌, ◌∷◌, ℕ, false, drop, length, take, option_map, true};
ghost use Rattle.std.specs.Prelude.{IfOk, OnErr};
ghost use Rattle.std.specs.Str.{chars, IsUtf8};
ghost use Rattle.rdf_lines.specs.Canonical.{end_text};
ghost use Rattle.rdf_lines.specs.Fronts.{IriStands};
ghost use Rattle.rdf_terms.specs.Terms.{Resource};
ghost use Rattle.rdf_terms.specs.Views.{quad_of, subject_by, term_by, tail_by};
ghost use Rattle.rdf_lines.specs.Escaped.{is_clear, BlanksStand, GapStands, GraphSpelled};
ghost use Rattle.rdf_lines.specs.Escaped.{IriSpelled, LineSpelled, PassesInto, StringSpelled, SubjectSpelled, TailSpelled, TermSpelled};

use crate::buffer::LineBuffer;
use crate::canonical::{
    IriPart, after_blank_at, after_byte, after_byte_at, after_end, iri, label, tag,
};
use crate::form::{LineEnding, LineForm};
use crate::grammar::LineGrammar;
use crate::rules::Rules;
use rdf_driver::Reader;
use rdf_terms::runs::{Run, run_end};
use rdf_terms::{
    IriView, Known, LabelView, LiteralRef, NodeRef, QuadRef, SubjectRef, TagView, TailRef, TermRef,
    ValueFault, has_scheme, known, set_iri_value, string_value,
};
use std::alloc::{AllocError, Allocator, Global};

/// How many bytes are looked at for the end of a string with escapes.
const LONGEST: usize = 2048;

/// What the escapes of a line mean: the texts of its subject, its predicate, its object and its graph label. Their
/// memory is used again from line to line.
#[derive(Drop)]
pub(crate) struct Values<A: Allocator = Global> {
    alloc: A,
    subject: String<A>,
    predicate: String<A>,
    object: String<A>,
    graph: String<A>,
}

/// Why a line is not passed.
#[derive(Clone, Copy)]
pub(crate) enum Unpassed {
    /// It does not stand so.
    Other,
    /// A growth of memory was refused.
    Memory,
}

impl From<ValueFault> for Unpassed {
    ghost use Rattle.std.specs.Prelude.{◌≡◌, ◌↔◌};
    ghost use Rattle.rdf_terms.specs.declared.values.ValueFault.TheVariants.{Memory};
    ghost use Rattle.rdf_lines.specs.declared.escaped.Unpassed.TheVariants as unpassed;

    ghost from_gives = { λ fault why. (fault ≡ Memory) ↔ (why ≡ unpassed.Memory) };

    fn from(fault: ValueFault) -> Unpassed {
        match fault {
            ValueFault::BadEscape => Unpassed::Other,
            ValueFault::Memory => Unpassed::Memory,
        }
    }
}

/// A line: its quad, how many tokens it has before its end, and what comes after it.
#[derive(Clone, Copy)]
pub(crate) struct EscapedLine<'a> {
    pub(crate) quad: QuadRef<'a>,
    pub(crate) tokens: u64,
    pub(crate) rest: &'a str,
}

// An IRI or a label, and what comes after it.
#[derive(Clone, Copy)]
struct SubjectPart<'a> {
    subject: SubjectRef<'a>,
    rest: &'a str,
}

// A string, and what comes after it.
#[derive(Clone, Copy)]
struct StringPart<'a> {
    lexical: &'a str,
    rest: &'a str,
}

// An object, how many tokens it has, and what comes after it.
#[derive(Clone, Copy)]
struct ObjectPart<'a> {
    object: TermRef<'a>,
    tokens: u64,
    rest: &'a str,
}

// What follows a string, how many tokens it has, and what comes after it.
#[derive(Clone, Copy)]
struct TailPart<'a> {
    tail: TailRef<'a>,
    tokens: u64,
    rest: &'a str,
}

// A graph label or none, how many tokens it has, and what comes after it.
#[derive(Clone, Copy)]
struct GraphPart<'a> {
    graph: Option<SubjectRef<'a>>,
    tokens: u64,
    rest: &'a str,
}

impl<A: Allocator + Copy> Values<A> {
    /// Before the first line. It takes no memory.
    pub(crate) fn new(alloc: A) -> Values<A> {
        Values {
            alloc,
            subject: String::new(alloc),
            predicate: String::new(alloc),
            object: String::new(alloc),
            graph: String::new(alloc),
        }
    }
}

/// Passes lines at the front of the text that end so and whose parts stand with spaces or tabs after each, where the
/// reader stands between two lines, and appends what is written for their quads with the labels kept. Strings and
/// IRIs may have any escapes. Answers how many bytes they have. After a line that stands as it is written, it passes
/// no more. It passes none with limits below 64, and none of a text that is longer than a token may be. Where memory
/// for what a line means or for what is written is refused, some lines may have been passed, and that one was not.
pub fn pass_escaped<A: Allocator + Copy>(
    reader: &mut Reader<LineGrammar<A>, A>,
    text: &str,
    ending: LineEnding,
    out: &mut LineBuffer<A>,
) -> Result<usize, AllocError>
    ensures within { IfOk result (λ n. n ≤ length text.now) }
    ensures passes { IfOk result (λ n. PassesInto reader.old (take n text.now) reader.new out.old out.new) }
    ensures refused { OnErr result ((n : ℕ) × PassesInto reader.old (take n text.now) reader.new out.old out.new) }
{
    let mut at = 0;
    'lines: loop {
        let len = out.len();
        let line = text_from(text, at);
        let passed = out.pass_line(reader, line, ending)?;
        if passed == 0 {
            return Ok(at);
        }
        at += passed;
        let stands = stands_as_written(len, out, &line.as_bytes()[..passed]);
        if stands {
            return Ok(at);
        }
    }
}

// Whether just this line was appended after so many bytes, so that lines come that `pass_lines` may pass, which is
// faster.
fn stands_as_written<A: Allocator + Copy>(old: usize, out: &LineBuffer<A>, line: &[u8]) -> bool {
    let new = out.len();
    new >= old && new - old == line.len() && out.as_slice().ends_with(line)
}

// The text from a place on, if a character begins there, or else none of it.
fn text_from(text: &str, at: usize) -> &str
    ensures { result.now ≡ take (length result.now) (drop at text.now) }
{
    match text.split_at_checked(at) {
        Some((_, rest)) => rest,
        None => "",
    }
}

/// The line that the text begins with, if its parts stand with spaces or tabs after each and it ends so.
pub(crate) fn escaped_line<'a, A: Allocator + Copy>(
    text: &'a str,
    ending: LineEnding,
    rules: Rules,
    values: &'a mut Values<A>,
) -> Result<EscapedLine<'a>, Unpassed>
    requires iri { 64 ≤ rules.iri }
    ensures spelled { IfOk result (λ l.
        LineSpelled ending rules.form rules.iri l.tokens (quad_of l.quad) text.now l.rest.now) }
    ensures few { IfOk result (λ l. l.tokens ≤ 7) }
{
    let alloc = values.alloc;
    let subject = subject(text, rules.iri, &mut values.subject)?;
    let after = skip_blanks(subject.rest)?;
    let predicate = any_iri(skip_byte(after, b'<')?, rules.iri, &mut values.predicate)?;
    let object = object(
        skip_blanks(predicate.rest)?,
        rules.iri,
        alloc,
        &mut values.object,
    )?;
    let graph = graph(skip_blanks(object.rest)?, rules, &mut values.graph)?;
    Ok(EscapedLine {
        quad: QuadRef {
            subject: subject.subject,
            predicate: IriView::new(predicate.iri),
            object: object.object,
            graph: graph.graph,
        },
        tokens: object.tokens + graph.tokens + 3,
        rest: skip_end(skip_byte(graph.rest, b'.')?, ending)?,
    })
}

// An IRI or a label.
fn subject<'a, A: Allocator>(
    text: &'a str,
    limit: u64,
    value: &'a mut String<A>,
) -> Result<SubjectPart<'a>, Unpassed>
    ensures { IfOk result (λ p. SubjectSpelled limit (subject_by chars p.subject) text.now p.rest.now) }
{
    match after_byte(text, b'<') {
        Some(text) => {
            let part = any_iri(text, limit, value)?;
            Ok(SubjectPart {
                subject: SubjectRef::Iri(IriView::new(part.iri)),
                rest: part.rest,
            })
        }
        None => match label(skip_byte(skip_byte(text, b'_')?, b':')?) {
            Some(part) => Ok(SubjectPart {
                subject: SubjectRef::Node(NodeRef::Label(LabelView::new(part.name))),
                rest: part.rest,
            }),
            None => Err(Unpassed::Other),
        },
    }
}

// An IRI, whose opening bracket came before. One without escapes stands in the text.
#[inline(always)]
fn any_iri<'a, A: Allocator>(
    text: &'a str,
    limit: u64,
    value: &'a mut String<A>,
) -> Result<IriPart<'a>, Unpassed>
    ensures { IfOk result (λ p. IriSpelled limit (chars p.iri.now) text.now p.rest.now) }
{
    match iri(text, limit) {
        Some(part) => Ok(IriPart {
            iri: part.iri,
            rest: part.rest,
        }),
        None => escaped_iri(text, limit, value),
    }
}

// One with escapes stands where its value was put.
fn escaped_iri<'a, A: Allocator>(
    text: &'a str,
    limit: u64,
    value: &'a mut String<A>,
) -> Result<IriPart<'a>, Unpassed>
    ensures { IfOk result (λ p. IriSpelled limit (chars p.iri.now) text.now p.rest.now) }
{
    let end = iri_end(text.as_bytes());
    let rest = skip_byte_at(text, end, b'>')?;
    set_iri_value(value, &text[..end])?;
    let iri = value.as_str();
    if iri.len() as u64 > limit || !has_scheme(iri) {
        return Err(Unpassed::Other);
    }
    Ok(IriPart { iri, rest })
}

// Where the inside of an IRI ends, whatever its escapes are.
fn iri_end(bytes: &[u8]) -> usize
    ensures { result ≤ length bytes.now }
{
    let mut at = run_end(Run::Iri, bytes, 0);
    while at < bytes.len() && bytes[at] == b'\\' {
        at = run_end(Run::Iri, bytes, at + 1);
    }
    at
}

fn object<'a, A: Allocator + Copy>(
    text: &'a str,
    limit: u64,
    alloc: A,
    value: &'a mut String<A>,
) -> Result<ObjectPart<'a>, Unpassed>
    requires iri { 64 ≤ limit }
    ensures spelled { IfOk result (λ p. TermSpelled limit p.tokens (term_by chars p.object) text.now p.rest.now) }
    ensures few { IfOk result (λ p. p.tokens ≤ 3) }
{
    match after_byte(text, b'"') {
        Some(text) => {
            let string = string(text, alloc, value)?;
            let tail = tail(string.rest, limit)?;
            Ok(ObjectPart {
                object: TermRef::Literal(LiteralRef::new(string.lexical, tail.tail)),
                tokens: tail.tokens + 1,
                rest: tail.rest,
            })
        }
        None => {
            let part = subject(text, limit, value)?;
            Ok(ObjectPart {
                object: term_of(part.subject),
                tokens: 1,
                rest: part.rest,
            })
        }
    }
}

fn term_of(subject: SubjectRef<'_>) -> TermRef<'_>
    ensures { term_by chars result ≡ Resource (subject_by chars subject.entry) }
{
    match subject {
        SubjectRef::Iri(iri) => TermRef::Iri(iri),
        SubjectRef::Node(node) => TermRef::Node(node),
    }
}

// A string, whose opening quote came before.
fn string<'a, A: Allocator + Copy>(
    text: &'a str,
    alloc: A,
    value: &'a mut String<A>,
) -> Result<StringPart<'a>, Unpassed>
    ensures { IfOk result (λ p. StringSpelled (chars p.lexical.now) text.now p.rest.now) }
{
    let end = run_end(Run::QuoteText, text.as_bytes(), 0);
    match after_byte_at(text, end, b'"') {
        Some(rest) => Ok(StringPart {
            lexical: &text[..end],
            rest,
        }),
        None => escaped_string(text, end, alloc, value),
    }
}

// One with escapes, which is clear up to a place, stands where its value was put.
fn escaped_string<'a, A: Allocator + Copy>(
    text: &'a str,
    from: usize,
    alloc: A,
    value: &'a mut String<A>,
) -> Result<StringPart<'a>, Unpassed>
    requires within { from ≤ length text.now }
    requires clear { is_clear false (take from text.now) ≡ true }
    ensures { IfOk result (λ p. StringSpelled (chars p.lexical.now) text.now p.rest.now) }
{
    let end = string_end(text.as_bytes(), from);
    let rest = skip_byte_at(text, end, b'"')?;
    *value = string_value(alloc, &text[..end])?;
    Ok(StringPart {
        lexical: value.as_str(),
        rest,
    })
}

// Where the inside of a string ends, whatever its escapes are, which is clear up to a place.
fn string_end(bytes: &[u8], from: usize) -> usize
    requires within { from ≤ length bytes.now }
    requires clear { is_clear false (take from bytes.now) ≡ true }
    ensures within { result ≤ length bytes.now }
    ensures clear { is_clear false (take result bytes.now) ≡ true }
{
    if from >= LONGEST {
        return from;
    }
    clear_front(&bytes[..bytes.len().min(LONGEST)], from)
}

// How many bytes at the front of some are clear, where so many are.
fn clear_front(bytes: &[u8], from: usize) -> usize
    requires within { from ≤ length bytes.now }
    requires clear { is_clear false (take from bytes.now) ≡ true }
    ensures within { result ≤ length bytes.now }
    ensures clear { is_clear false (take result bytes.now) ≡ true }
{
    let mut at = from;
    while bytes.len() - at >= 2 && bytes[at] == b'\\' {
        at = clear_end(bytes, at + 2);
    }
    at
}

// Where a run ends after a place up to which a string is clear.
#[inline(always)]
fn clear_end(bytes: &[u8], from: usize) -> usize
    requires within { from ≤ length bytes.now }
    requires clear { is_clear false (take from bytes.now) ≡ true }
    ensures on { from ≤ result }
    ensures within { result ≤ length bytes.now }
    ensures clear { is_clear false (take result bytes.now) ≡ true }
{
    run_end(Run::QuoteText, bytes, from)
}

// What follows a string: nothing, a tag, or a datatype.
fn tail(text: &str, limit: u64) -> Result<TailPart<'_>, Unpassed>
    requires iri { 64 ≤ limit }
    ensures spelled { IfOk result (λ p. TailSpelled limit p.tokens (tail_by chars p.tail) text.now p.rest.now) }
    ensures few { IfOk result (λ p. p.tokens ≤ 2) }
{
    if let Some(text) = after_byte(text, b'@') {
        let Some(part) = tag(text) else {
            return Err(Unpassed::Other);
        };
        return Ok(TailPart {
            tail: TailRef::Lang(TagView::new(part.name)),
            tokens: 1,
            rest: part.rest,
        });
    }
    if let Some(text) = after_byte(text, b'^') {
        let part = datatype(skip_byte(skip_byte(text, b'^')?, b'<')?, limit)?;
        return Ok(TailPart {
            tail: TailRef::Typed(IriView::new(part.iri)),
            tokens: 2,
            rest: part.rest,
        });
    }
    Ok(TailPart {
        tail: TailRef::Typed(known(Known::XsdString)),
        tokens: 0,
        rest: text,
    })
}

fn graph<'a, A: Allocator>(
    text: &'a str,
    rules: Rules,
    value: &'a mut String<A>,
) -> Result<GraphPart<'a>, Unpassed>
    ensures spelled { IfOk result (λ p.
        GraphSpelled rules.form rules.iri p.tokens (option_map (subject_by chars) p.graph) text.now p.rest.now) }
    ensures few { IfOk result (λ p. p.tokens ≤ 1) }
{
    match (rules.form, after_byte(text, b'.')) {
        (_, Some(_)) => Ok(GraphPart {
            graph: None,
            tokens: 0,
            rest: text,
        }),
        (LineForm::NTriples, None) => Err(Unpassed::Other),
        (LineForm::NQuads, None) => {
            let part = subject(text, rules.iri, value)?;
            Ok(GraphPart {
                graph: Some(part.subject),
                tokens: 1,
                rest: skip_blanks(part.rest)?,
            })
        }
    }
}

// An IRI without escapes, whose opening bracket came before.
fn datatype(text: &str, limit: u64) -> Result<IriPart<'_>, Unpassed>
    ensures stands { IfOk result (λ p. IriStands limit (chars p.iri.now) text.now p.rest.now) }
    ensures utf8 { IfOk result (λ p. IsUtf8 p.iri.now) }
{
    match iri(text, limit) {
        Some(part) => Ok(part),
        None => Err(Unpassed::Other),
    }
}

// The text after the spaces and tabs that it begins with, of which there is one at least.
#[inline(always)]
fn skip_blanks(text: &str) -> Result<&str, Unpassed>
    ensures { IfOk result (λ rest. GapStands text.now rest.now) }
{
    let Some(rest) = after_blank_at(text, 0) else {
        return Err(Unpassed::Other);
    };
    match rest.as_bytes().first() {
        Some(next) if *next <= b' ' => Ok(after_blanks(rest)),
        _ => Ok(rest),
    }
}

// The text after the spaces and tabs that it begins with, if there are any.
#[inline(never)]
fn after_blanks(text: &str) -> &str
    ensures { BlanksStand text.now result.now }
{
    let mut rest = text;
    'blanks: loop {
        match after_blank_at(rest, 0) {
            Some(more) => rest = more,
            None => return rest,
        }
    }
}

// The text after an ASCII character that it begins with.
fn skip_byte(text: &str, byte: u8) -> Result<&str, Unpassed>
    requires { byte < 128 }
    ensures { IfOk result (λ rest. text.now ≡ byte ∷ rest.now) }
{
    skip_byte_at(text, 0, byte)
}

// The text after an ASCII character at a place.
fn skip_byte_at(text: &str, at: usize, byte: u8) -> Result<&str, Unpassed>
    requires ascii { byte < 128 }
    requires within { at ≤ length text.now }
    ensures { IfOk result (λ rest. text.now ≡ take at text.now ++ byte ∷ rest.now) }
{
    match after_byte_at(text, at, byte) {
        Some(rest) => Ok(rest),
        None => Err(Unpassed::Other),
    }
}

// The text after a line's end.
fn skip_end(text: &str, ending: LineEnding) -> Result<&str, Unpassed>
    ensures { IfOk result (λ rest. text.now ≡ end_text ending ++ rest.now) }
{
    match after_end(text, ending) {
        Some(rest) => Ok(rest),
        None => Err(Unpassed::Other),
    }
}
