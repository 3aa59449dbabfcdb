// Lines of short texts, in the plain form: each is placed by one call.

ghost use Rattle.std.specs.Prelude.{◌≡◌, ◌++◌, ◌+◌, ◌<◌, ◌≤◌, decimal, length, [], ◌∷◌, None, true, IfSome};
ghost use Rattle.rdf_terms.specs.Placing.{Placed};
ghost use Rattle.rdf_lines.specs.declared.form.Style.TheVariants.{Tagged};
ghost use Rattle.rdf_lines.specs.Forms.{form_of};
ghost use Rattle.rdf_lines.specs.Placing.{IsShort, IsShortGraph, IsShortNode, IsShortSubject, IsShortTerm, WrittenAt};
ghost use Rattle.rdf_lines.specs.Placing.{literal_room};
ghost use Rattle.rdf_lines.specs.Writing.{space};
ghost use Rattle.rdf_lines.specs.WrittenBytes.{graph_bytes, line_bytes, node_bytes, subject_bytes, usual};

use crate::form::{Escapes, Style, WrittenForm};
use crate::writer::at_once::{place_iri, place_spaced, place_tail};
use crate::writer::characters::place_characters;
use crate::writer::digits::place_twelve;
use crate::writer::room::tail_room;
use rdf_terms::place::{place_byte, place_text, place_two};
use rdf_terms::{LabelView, LiteralRef, NodeRef, QuadRef, SubjectRef, TermRef};

/// The most bytes of a text that is placed without a loop.
const SHORT: usize = 64;

/// The most bytes of a line of five such texts: those of a literal with its datatype, in a graph. An escape may
/// stand for each byte of the literal's.
const SHORT_LINE: usize = 7 * SHORT + 22;

/// Offsets of a short line are below this one.
const MOST: u64 = 1_000_000_000_000;

/// Puts the line of a quad in the plain form, where its texts are short, nodes have no word in front of their
/// names, and there is room for any such line; else it puts nothing.
#[inline(always)]
pub fn put_short(
    quad: &QuadRef<'_>,
    form: &WrittenForm<'_>,
    at: usize,
    slot: &mut [u8],
) -> Option<usize>
    requires { at ≤ length slot.old }
    ensures written { IfSome result (λ end.
        WrittenAt slot.old slot.new at (line_bytes (form_of form.now) quad.now) end) }
    ensures unchanged { result ≡ None → slot.new ≡ slot.old }
{
    if !is_short(quad, form) || slot.len() - at < SHORT_LINE {
        return None;
    }
    Some(place_line(slot, at, quad, form))
}

// Whether a line can be placed so, if there is room for it.
#[inline(always)]
fn is_short(quad: &QuadRef<'_>, form: &WrittenForm<'_>) -> bool
    ensures { result ≡ true → IsShort form.now quad.now }
{
    matches!(form.escapes, Escapes::Plain)
        && is_short_subject(&quad.subject, form)
        && is_short_text(quad.predicate.as_bytes())
        && is_short_object(&quad.object, form)
        && is_short_graph(&quad.graph)
}

#[inline(always)]
fn is_short_text(text: &[u8]) -> bool
    ensures { result ≡ true → length text.now ≤ 64 }
{
    text.len() <= SHORT
}

#[inline(always)]
fn is_short_subject(subject: &SubjectRef<'_>, form: &WrittenForm<'_>) -> bool
    ensures { result ≡ true → IsShortSubject form.now subject.now }
{
    match subject {
        SubjectRef::Iri(iri) => is_short_text(iri.as_bytes()),
        SubjectRef::Node(node) => has_plain_names(form) && is_short_node(node),
    }
}

// Whether nodes are named by their letters alone.
#[inline(always)]
fn has_plain_names(form: &WrittenForm<'_>) -> bool
    ensures style { result ≡ true → form.now.style ≡ Tagged }
    ensures prefix { result ≡ true → form.now.prefix.word.now ≡ [] }
{
    matches!(form.style, Style::Tagged) && form.prefix.as_str().is_empty()
}

#[inline(always)]
fn is_short_node(node: &NodeRef<'_>) -> bool
    ensures { result ≡ true → IsShortNode node.now }
{
    match node {
        NodeRef::Label(label) => is_short_text(label.as_bytes()),
        NodeRef::Anon(offset) => *offset < MOST,
        NodeRef::Cell(offset) => *offset < MOST,
    }
}

#[inline(always)]
fn is_short_object(object: &TermRef<'_>, form: &WrittenForm<'_>) -> bool
    ensures { result ≡ true → IsShortTerm form.now object.now }
{
    match object {
        TermRef::Iri(iri) => is_short_text(iri.as_bytes()),
        TermRef::Node(node) => has_plain_names(form) && is_short_node(node),
        TermRef::Literal(literal) => is_short_literal(*literal),
    }
}

#[inline(always)]
fn is_short_literal(literal: LiteralRef<'_>) -> bool
    ensures { result ≡ true → literal_room literal.entry ≤ 128 }
{
    is_short_text(literal.lexical.as_bytes()) && tail_room(literal.tail) <= SHORT
}

// A graph that is a node is rare, and would be one more copy of the code for digits.
#[inline(always)]
fn is_short_graph(graph: &Option<SubjectRef<'_>>) -> bool
    ensures { result ≡ true → IsShortGraph graph.now }
{
    match graph {
        None => true,
        Some(SubjectRef::Iri(iri)) => is_short_text(iri.as_bytes()),
        Some(SubjectRef::Node(_)) => false,
    }
}

// Each part and a space, then the dot and LF: where the line ends. The parts are those of the form without a word
// and without escapes, which this one is wherever a part depends on it. A call, in which the object's kinds are
// told: a function as large as this one keeps no mark, and what it calls is small enough to keep its own, so that
// all of it stands here.
#[inline(never)]
fn place_line(slot: &mut [u8], at: usize, quad: &QuadRef<'_>, form: &WrittenForm<'_>) -> usize
    requires short { IsShort form.now quad.now }
    requires room { at + 470 ≤ length slot.old }
    ensures { Placed slot.old slot.new at (line_bytes (form_of form.now) quad.now) result }
{
    let second = place_subject(slot, at, &quad.subject, form);
    let third = place_spaced(slot, second, quad.predicate);
    let object = match &quad.object {
        TermRef::Iri(iri) => place_iri(slot, third, *iri),
        TermRef::Node(node) => place_node(slot, third, node),
        TermRef::Literal(literal) => {
            let inside = place_byte(slot, third, b'"');
            let close = place_characters(slot, inside, literal.lexical);
            let tail = place_byte(slot, close, b'"');
            place_tail(slot, tail, literal.tail)
        }
    };
    let fourth = place_byte(slot, object, b' ');
    let last = place_graph(slot, fourth, &quad.graph);
    place_two(slot, last, b'.', b'\n')
}

#[inline(always)]
fn place_subject(
    slot: &mut [u8],
    at: usize,
    subject: &SubjectRef<'_>,
    form: &WrittenForm<'_>,
) -> usize
    requires short { IsShortSubject form.now subject.now }
    requires room { at + 68 ≤ length slot.old }
    ensures placed { Placed slot.old slot.new at (subject_bytes usual subject.now ++ space) result }
    ensures within { result ≤ at + 68 }
{
    match subject {
        SubjectRef::Iri(iri) => place_spaced(slot, at, *iri),
        SubjectRef::Node(node) => {
            let end = place_node(slot, at, node);
            place_byte(slot, end, b' ')
        }
    }
}

#[inline(always)]
fn place_node(slot: &mut [u8], at: usize, node: &NodeRef<'_>) -> usize
    requires short { IsShortNode node.now }
    requires room { at + 67 ≤ length slot.old }
    ensures placed { Placed slot.old slot.new at (node_bytes usual node.now) result }
    ensures within { result ≤ at + 67 }
{
    let (letter, offset) = match node {
        NodeRef::Label(label) => return place_label(slot, at, *label),
        NodeRef::Anon(offset) => (b'a', *offset),
        NodeRef::Cell(offset) => (b'c', *offset),
    };
    place_number(slot, at, letter, offset)
}

#[inline(always)]
fn place_label(slot: &mut [u8], at: usize, label: LabelView<'_>) -> usize
    requires short { length label.text.now ≤ 64 }
    requires room { at + 67 ≤ length slot.old }
    ensures placed { Placed slot.old slot.new at (95 ∷ 58 ∷ 110 ∷ label.entry.text.now) result }
    ensures within { result ≤ at + 67 }
{
    let name = place_two(slot, at, b'_', b':');
    let begin = place_byte(slot, name, b'n');
    place_text(slot, begin, label.as_bytes())
}

#[inline(always)]
fn place_number(slot: &mut [u8], at: usize, letter: u8, offset: u64) -> usize
    requires short { offset < 1000000000000 }
    requires room { at + 15 ≤ length slot.old }
    ensures placed { Placed slot.old slot.new at (95 ∷ 58 ∷ letter ∷ decimal offset) result }
    ensures within { result ≤ at + 15 }
{
    let name = place_two(slot, at, b'_', b':');
    let begin = place_byte(slot, name, letter);
    place_twelve(slot, begin, offset)
}

#[inline(always)]
fn place_graph(slot: &mut [u8], at: usize, graph: &Option<SubjectRef<'_>>) -> usize
    requires short { IsShortGraph graph.now }
    requires room { at + 67 ≤ length slot.old }
    ensures placed { Placed slot.old slot.new at (graph_bytes usual graph.now) result }
    ensures within { result ≤ at + 67 }
{
    match graph {
        None => at,
        Some(subject) => match subject {
            SubjectRef::Iri(iri) => place_spaced(slot, at, *iri),
            SubjectRef::Node(_) => at,
        },
    }
}
