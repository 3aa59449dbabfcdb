// How much room a line takes at most, where its texts are short.

ghost use Rattle.std.specs.Prelude.{◌≡◌, ◌+◌, ◌^◌, ◌<◌, ◌≤◌, length, true, IfSome};
ghost use Rattle.rdf_lines.specs.Placing.{graph_room, iris_room, line_room, literal_room, node_room, subject_room};
ghost use Rattle.rdf_lines.specs.Placing.{tail_room, term_room};

use rdf_terms::{IriView, LiteralRef, NodeRef, QuadRef, SubjectRef, TailRef, TermRef};

/// The most bytes that the names of a short line have, and those of its graph and of the word in front of each name.
const SHORT: usize = 512;

/// The most bytes that its object has, which may be a text of some lines.
const SHORT_OBJECT: usize = 8192;

/// The most bytes of an IRI that is placed without a loop.
const FEW: usize = 64;

/// The most bytes of the line of three of them.
pub const FEW_ROOM: usize = 3 * FEW + 11;

/// The most bytes of the line of a quad, where an escape may stand for each byte of its object, with a word of so
/// many bytes in front of each name, or None where a text is long.
#[inline(always)]
pub fn short_room(quad: &QuadRef<'_>, word: &str) -> Option<usize>
    ensures room { IfSome result (λ room. line_room (length word.now) quad.now ≤ room) }
    ensures short { IfSome result (λ room. room ≤ 32768) }
{
    let names = subject_room(&quad.subject) + quad.predicate.as_bytes().len();
    let others = graph_room(&quad.graph) + word.len();
    let object = term_room(&quad.object);
    if names > SHORT || others > SHORT || object > SHORT_OBJECT {
        return None;
    }
    Some(names + 2 * object + others + 2 * word.len() + 20)
}

/// The bytes of the line of three IRIs in the default graph, in which none becomes two, or None where a text is long.
#[inline(always)]
pub fn short_iris(
    subject: IriView<'_>,
    predicate: IriView<'_>,
    object: IriView<'_>,
) -> Option<usize>
    ensures room { IfSome result (λ room. iris_room subject.entry predicate.entry object.entry ≤ room) }
    ensures short { IfSome result (λ room. room ≤ 32768) }
{
    let names = subject.as_bytes().len() + predicate.as_bytes().len();
    let object = object.as_bytes().len();
    if names > SHORT || object > SHORT_OBJECT {
        return None;
    }
    Some(names + object + 11)
}

/// Whether each of three IRIs is so short that their line has no more than `FEW_ROOM` bytes.
#[inline(always)]
pub fn are_few(subject: IriView<'_>, predicate: IriView<'_>, object: IriView<'_>) -> bool
    ensures { result ≡ true → iris_room subject.entry predicate.entry object.entry ≤ 203 }
{
    subject.as_bytes().len() <= FEW
        && predicate.as_bytes().len() <= FEW
        && object.as_bytes().len() <= FEW
}

#[inline(always)]
fn subject_room(subject: &SubjectRef<'_>) -> usize
    ensures room { result ≡ subject_room subject.now }
    ensures fits { result < 2 ^ 63 }
{
    match subject {
        SubjectRef::Iri(iri) => iri.as_bytes().len(),
        SubjectRef::Node(node) => node_room(node),
    }
}

#[inline(always)]
fn node_room(node: &NodeRef<'_>) -> usize
    ensures room { result ≡ node_room node.now }
    ensures fits { result < 2 ^ 63 }
{
    match node {
        NodeRef::Label(label) => label.as_bytes().len(),
        NodeRef::Anon(_) => 20,
        NodeRef::Cell(_) => 20,
    }
}

#[inline(always)]
fn term_room(term: &TermRef<'_>) -> usize
    ensures { result ≡ term_room term.now }
{
    match term {
        TermRef::Iri(iri) => iri.as_bytes().len(),
        TermRef::Node(node) => node_room(node),
        TermRef::Literal(literal) => literal_room(*literal),
    }
}

#[inline(always)]
fn literal_room(literal: LiteralRef<'_>) -> usize
    ensures { result ≡ literal_room literal.entry }
{
    literal.lexical.len() + tail_room(literal.tail)
}

/// The bytes of a tag or a datatype.
#[inline(always)]
pub fn tail_room(tail: TailRef<'_>) -> usize
    ensures { result ≡ tail_room tail.entry }
{
    match tail {
        TailRef::Lang(tag) => tag.as_str().len(),
        TailRef::Typed(datatype) => datatype.as_bytes().len(),
    }
}

#[inline(always)]
fn graph_room(graph: &Option<SubjectRef<'_>>) -> usize
    ensures room { result ≡ graph_room graph.now }
    ensures fits { result < 2 ^ 63 }
{
    match graph {
        None => 0,
        Some(subject) => subject_room(subject),
    }
}
