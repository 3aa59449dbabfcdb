// Lines whose texts are short: the buffer grows once, and the parts are placed in what is new of it.

ghost use Rattle.std.specs.Prelude.{◌≡◌, ◌++◌, ◌+◌, ◌*◌, ◌<◌, ◌≤◌, ◌∷◌, length, encode_utf8_all, None, IfOk};
ghost use Rattle.std.specs.Prelude.{IfSome, OnErr, OnOk};
ghost use Rattle.rdf_terms.specs.Views.{iri_chars};
ghost use Rattle.rdf_lines.specs.declared.form.Escapes.TheVariants.{Plain};
ghost use Rattle.rdf_lines.specs.Forms.{form_of};
ghost use Rattle.rdf_terms.specs.Placing.{Placed};
ghost use Rattle.rdf_lines.specs.Placing.{WrittenAt, graph_room, iris_room, label_bytes, line_room, literal_room};
ghost use Rattle.rdf_lines.specs.Placing.{node_room, number_bytes, subject_room, tail_room, term_room};
ghost use Rattle.rdf_lines.specs.Writing.{space, type_text};
ghost use Rattle.rdf_lines.specs.WrittenBytes.{BeginsWith, graph_bytes, iri_bytes, iris_bytes, line_bytes};
ghost use Rattle.rdf_lines.specs.WrittenBytes.{literal_bytes, node_bytes, subject_bytes, tail_bytes, term_bytes};

use crate::form::{Style, WrittenForm};
use crate::writer::characters::place_characters;
use crate::writer::digits::place_digits;
use crate::writer::room::{FEW_ROOM, are_few};
use crate::writer::term::is_xsd_string;
use rdf_terms::place::{place_byte, place_text, place_two};
use rdf_terms::{
    IriView, LabelView, LiteralRef, NodeRef, QuadRef, SubjectRef, TagView, TailRef, TermRef,
};
use std::alloc::{AllocError, Allocator};

/// Lines that take no more are placed in so many zeros, which are written by a few stores.
const COMMON_ROOM: usize = 192;

/// Puts the line of a quad that takes so many bytes at most after the first `at` bytes, and answers where it ends.
#[inline(always)]
pub fn put_at_once<C, A: Allocator + Copy>(
    quad: &QuadRef<'_>,
    form: &WrittenForm<'_>,
    room: usize,
    at: usize,
    out: &mut Vec<u8, A>,
) -> Result<usize, AllocError>
    requires at { at ≤ length out.old.items }
    requires plain { form.now.escapes ≡ Plain }
    requires room { line_room (length form.now.prefix.word.now) quad.now ≤ room }
    requires short { room ≤ 32768 }
    ensures written { IfOk result (λ end.
        WrittenAt out.old.items out.new.items at (line_bytes (form_of form.now) quad.now) end) }
    ensures unchanged { OnErr result (out.new.items ≡ out.old.items) }
{
    make_room(out, at, room)?;
    Ok(place_line::<C>(out.as_mut_slice(), at, quad, form))
}

/// Puts the line of three IRIs in the default graph, which takes so many bytes at most, in the same way. Nothing is
/// asked of the terms.
#[inline(always)]
pub fn put_iris_at_once<A: Allocator + Copy>(
    subject: IriView<'_>,
    predicate: IriView<'_>,
    object: IriView<'_>,
    room: usize,
    at: usize,
    out: &mut Vec<u8, A>,
) -> Result<usize, AllocError>
    requires at { at ≤ length out.old.items }
    requires room { iris_room subject predicate object ≤ room }
    requires short { room ≤ 32768 }
    ensures written { IfOk result (λ end.
        WrittenAt out.old.items out.new.items at (iris_bytes subject.entry predicate.entry object.entry) end) }
    ensures unchanged { OnErr result (out.new.items ≡ out.old.items) }
{
    make_room(out, at, room)?;
    Ok(place_iris(out.as_mut_slice(), at, subject, predicate, object))
}

/// The same of three IRIs of few bytes, where there is room for any such line; else it places nothing. It calls
/// nothing, so that a function that does without other calls too saves no registers.
#[inline(always)]
pub fn put_few_at_once(
    subject: IriView<'_>,
    predicate: IriView<'_>,
    object: IriView<'_>,
    at: usize,
    slot: &mut [u8],
) -> Option<usize>
    requires { at ≤ length slot.old }
    ensures written { IfSome result (λ end.
        WrittenAt slot.old slot.new at (iris_bytes subject.entry predicate.entry object.entry) end) }
    ensures unchanged { result ≡ None → slot.new ≡ slot.old }
{
    if !are_few(subject, predicate, object) || slot.len() - at < FEW_ROOM {
        return None;
    }
    Some(place_iris(slot, at, subject, predicate, object))
}

/// Appends bytes of any value, where fewer than these come after the first `at`.
#[inline(always)]
fn make_room<A: Allocator + Copy>(
    out: &mut Vec<u8, A>,
    at: usize,
    room: usize,
) -> Result<(), AllocError>
    requires at { at ≤ length out.old.items }
    requires short { room ≤ 32768 }
    ensures front { OnOk result (BeginsWith out.old.items out.new.items) }
    ensures room { OnOk result (at + room ≤ length out.new.items) }
    ensures unchanged { OnErr result (out.new.items ≡ out.old.items) }
{
    let len = out.len();
    if room <= len - at {
        return Ok(());
    }
    if room <= COMMON_ROOM {
        out.extend_from_slice(&[0; COMMON_ROOM])
    } else {
        out.resize(len + room, 0)
    }
}

// Each part and a space, then the dot and LF: where the line ends.
#[inline(always)]
fn place_line<C>(slot: &mut [u8], at: usize, quad: &QuadRef<'_>, form: &WrittenForm<'_>) -> usize
    requires plain { form.now.escapes ≡ Plain }
    requires room { at + line_room (length form.now.prefix.word.now) quad.now ≤ length slot.old }
    ensures { Placed slot.old slot.new at (line_bytes (form_of form.now) quad.now) result }
{
    let second = place_subject(slot, at, &quad.subject, form);
    let third = place_spaced(slot, second, quad.predicate);
    let fourth = place_object::<C>(slot, third, &quad.object, form);
    let last = place_graph(slot, fourth, &quad.graph, form);
    place_two(slot, last, b'.', b'\n')
}

// The same of three IRIs in the default graph.
#[inline(always)]
fn place_iris(
    slot: &mut [u8],
    at: usize,
    subject: IriView<'_>,
    predicate: IriView<'_>,
    object: IriView<'_>,
) -> usize
    requires { at + iris_room subject predicate object ≤ length slot.old }
    ensures { Placed slot.old slot.new at (iris_bytes subject.entry predicate.entry object.entry) result }
{
    let second = place_spaced(slot, at, subject);
    let third = place_spaced(slot, second, predicate);
    let last = place_spaced(slot, third, object);
    place_two(slot, last, b'.', b'\n')
}

#[inline(always)]
fn place_subject(
    slot: &mut [u8],
    at: usize,
    subject: &SubjectRef<'_>,
    form: &WrittenForm<'_>,
) -> usize
    requires plain { form.now.escapes ≡ Plain }
    requires room { at + (subject_room subject.now + length form.now.prefix.word.now + 4) ≤ length slot.old }
    ensures placed { Placed slot.old slot.new at (subject_bytes (form_of form.now) subject.now ++ space) result }
    ensures within { result ≤ at + (subject_room subject.now + length form.now.prefix.word.now + 4) }
{
    let end = place_name(slot, at, subject, form);
    place_byte(slot, end, b' ')
}

#[inline(always)]
fn place_name(slot: &mut [u8], at: usize, name: &SubjectRef<'_>, form: &WrittenForm<'_>) -> usize
    requires plain { form.now.escapes ≡ Plain }
    requires room { at + (subject_room name.now + length form.now.prefix.word.now + 3) ≤ length slot.old }
    ensures placed { Placed slot.old slot.new at (subject_bytes (form_of form.now) name.now) result }
    ensures within { result ≤ at + (subject_room name.now + length form.now.prefix.word.now + 3) }
{
    match name {
        SubjectRef::Iri(iri) => place_iri(slot, at, *iri),
        SubjectRef::Node(node) => place_node(slot, at, node, form),
    }
}

/// Places an IRI in its brackets, and a space.
#[inline(always)]
pub fn place_spaced(slot: &mut [u8], at: usize, iri: IriView<'_>) -> usize
    requires { at + (length iri.text.now + 3) ≤ length slot.old }
    ensures placed { Placed slot.old slot.new at (iri_bytes Plain iri.entry ++ space) result }
    ensures within { result ≤ at + (length iri.entry.text.now + 3) }
{
    let end = place_iri(slot, at, iri);
    place_byte(slot, end, b' ')
}

/// Places an IRI in its brackets.
#[inline(always)]
pub fn place_iri(slot: &mut [u8], at: usize, iri: IriView<'_>) -> usize
    requires { at + (length iri.text.now + 2) ≤ length slot.old }
    ensures placed { Placed slot.old slot.new at (iri_bytes Plain iri.entry) result }
    ensures within { result ≡ at + (length iri.entry.text.now + 2) }
{
    let inside = place_byte(slot, at, b'<');
    let end = place_text(slot, inside, iri.as_bytes());
    place_byte(slot, end, b'>')
}

#[inline(always)]
fn place_node(slot: &mut [u8], at: usize, node: &NodeRef<'_>, form: &WrittenForm<'_>) -> usize
    requires { at + (node_room node.now + length form.now.prefix.word.now + 3) ≤ length slot.old }
    ensures placed { Placed slot.old slot.new at (node_bytes (form_of form.now) node.now) result }
    ensures within { result ≤ at + (node_room node.now + length form.now.prefix.word.now + 3) }
{
    match node {
        NodeRef::Label(label) => place_label(slot, at, *label, form),
        NodeRef::Anon(offset) => place_number(slot, at, b'a', *offset, form),
        NodeRef::Cell(offset) => place_number(slot, at, b'c', *offset, form),
    }
}

// Apart, as offsets are, so that lines of IRIs run through less code.
#[inline(never)]
fn place_label(slot: &mut [u8], at: usize, label: LabelView<'_>, form: &WrittenForm<'_>) -> usize
    requires { at + (length label.text.now + length form.now.prefix.word.now + 3) ≤ length slot.old }
    ensures placed { Placed slot.old slot.new at
        (label_bytes form.now.style form.now.prefix.word.now label.entry.text.now) result }
    ensures within { result ≤ at + (length label.entry.text.now + length form.now.prefix.word.now + 3) }
{
    let begin = place_start(slot, at, form.prefix.as_str());
    match form.style {
        Style::Kept => place_text(slot, begin, label.as_bytes()),
        Style::Tagged => {
            let name = place_byte(slot, begin, b'n');
            place_text(slot, name, label.as_bytes())
        }
    }
}

// A node that the style can't write has no text.
#[inline(never)]
fn place_number(
    slot: &mut [u8],
    at: usize,
    letter: u8,
    offset: u64,
    form: &WrittenForm<'_>,
) -> usize
    requires { at + (length form.now.prefix.word.now + 23) ≤ length slot.old }
    ensures placed { Placed slot.old slot.new at
        (number_bytes form.now.style form.now.prefix.word.now letter offset) result }
    ensures within { result ≤ at + (length form.now.prefix.word.now + 23) }
{
    match form.style {
        Style::Kept => at,
        Style::Tagged => {
            let begin = place_start(slot, at, form.prefix.as_str());
            let name = place_byte(slot, begin, letter);
            place_digits(slot, name, offset)
        }
    }
}

// `_:` and a word, which is mostly empty: that costs a test alone.
#[inline(always)]
fn place_start(slot: &mut [u8], at: usize, word: &str) -> usize
    requires { at + (length word.now + 2) ≤ length slot.old }
    ensures { Placed slot.old slot.new at (95 ∷ 58 ∷ word.now) result }
{
    let begin = place_two(slot, at, b'_', b':');
    if word.is_empty() {
        return begin;
    }
    place_text(slot, begin, word.as_bytes())
}

#[inline(always)]
fn place_object<C>(
    slot: &mut [u8],
    at: usize,
    object: &TermRef<'_>,
    form: &WrittenForm<'_>,
) -> usize
    requires plain { form.now.escapes ≡ Plain }
    requires room { at + (2 * term_room object.now + length form.now.prefix.word.now + 7) ≤ length slot.old }
    ensures placed { Placed slot.old slot.new at (term_bytes (form_of form.now) object.now ++ space) result }
    ensures within { result ≤ at + (2 * term_room object.now + length form.now.prefix.word.now + 7) }
{
    let end = place_term::<C>(slot, at, object, form);
    place_byte(slot, end, b' ')
}

#[inline(always)]
fn place_term<C>(slot: &mut [u8], at: usize, term: &TermRef<'_>, form: &WrittenForm<'_>) -> usize
    requires plain { form.now.escapes ≡ Plain }
    requires room { at + (2 * term_room term.now + length form.now.prefix.word.now + 6) ≤ length slot.old }
    ensures placed { Placed slot.old slot.new at (term_bytes (form_of form.now) term.now) result }
    ensures within { result ≤ at + (2 * term_room term.now + length form.now.prefix.word.now + 6) }
{
    match term {
        TermRef::Iri(iri) => place_iri(slot, at, *iri),
        TermRef::Node(node) => place_node(slot, at, node, form),
        TermRef::Literal(literal) => place_literal::<C>(slot, at, literal),
    }
}

// It is too large for LLVM to take a mark for it, and stands in its caller where it is called once: hence an instance
// for each, as `put_plain` has.
fn place_literal<C>(slot: &mut [u8], at: usize, literal: &LiteralRef<'_>) -> usize
    requires room { at + (2 * literal_room literal.now + 6) ≤ length slot.old }
    ensures placed { Placed slot.old slot.new at (literal_bytes literal.now) result }
    ensures within { result ≤ at + (2 * literal_room literal.now + 6) }
{
    let inside = place_byte(slot, at, b'"');
    let close = place_characters(slot, inside, literal.lexical);
    let end = place_byte(slot, close, b'"');
    place_tail(slot, end, literal.tail)
}

/// Places what comes after the string of a literal: its tag, its datatype, or nothing.
#[inline(always)]
pub fn place_tail(slot: &mut [u8], at: usize, tail: TailRef<'_>) -> usize
    requires { at + (tail_room tail + 4) ≤ length slot.old }
    ensures placed { Placed slot.old slot.new at (tail_bytes Plain tail.entry) result }
    ensures within { result ≤ at + (tail_room tail.entry + 4) }
{
    match tail {
        TailRef::Lang(tag) => place_tag(slot, at, tag),
        TailRef::Typed(datatype) => place_type(
            slot,
            at,
            is_xsd_string(datatype.as_bytes()),
            datatype,
        ),
    }
}

#[inline(always)]
fn place_tag(slot: &mut [u8], at: usize, tag: TagView<'_>) -> usize
    requires { at + (length tag.text.now + 1) ≤ length slot.old }
    ensures { Placed slot.old slot.new at (64 ∷ tag.entry.text.now) result }
{
    let inside = place_byte(slot, at, b'@');
    place_text(slot, inside, tag.as_str().as_bytes())
}

#[inline(always)]
fn place_type(slot: &mut [u8], at: usize, plain: bool, datatype: IriView<'_>) -> usize
    requires { at + (length datatype.text.now + 4) ≤ length slot.old }
    ensures placed { Placed slot.old slot.new at
        (encode_utf8_all (type_text Plain plain (iri_chars datatype.entry))) result }
    ensures within { result ≤ at + (length datatype.entry.text.now + 4) }
{
    if plain {
        return at;
    }
    let inside = place_two(slot, at, b'^', b'^');
    place_iri(slot, inside, datatype)
}

#[inline(always)]
fn place_graph(
    slot: &mut [u8],
    at: usize,
    graph: &Option<SubjectRef<'_>>,
    form: &WrittenForm<'_>,
) -> usize
    requires plain { form.now.escapes ≡ Plain }
    requires room { at + (graph_room graph.now + length form.now.prefix.word.now + 4) ≤ length slot.old }
    ensures placed { Placed slot.old slot.new at (graph_bytes (form_of form.now) graph.now) result }
    ensures within { result ≤ at + (graph_room graph.now + length form.now.prefix.word.now + 4) }
{
    match graph {
        None => at,
        Some(subject) => place_subject(slot, at, subject, form),
    }
}
