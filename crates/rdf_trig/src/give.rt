// The quads that a token determines are put: those that were ready before it, and the one that waited to know it.

ghost use Rattle.std.specs.Prelude.{◌≡◌, ◌∷◌, ◌+◌, ◌≤◌, length, true, false, [], Option, Some, None, OnOk, IfOk};
ghost use Rattle.std.specs.Prelude.{IfErr, option_map};
ghost use Rattle.std.specs.Str.{chars};
ghost use Rattle.std.specs.String.{string_bytes};
ghost use Rattle.rdf_terms.specs.Terms as term;
ghost use Rattle.rdf_terms.specs.Sinks.{Appends};
ghost use Rattle.rdf_terms.specs.Views.{iri_chars, iris_quad, subject_by, term_by, tail_by, quad_of};
ghost use Rattle.rdf_iri.specs.Scope.{InForce};
ghost use Rattle.rdf_trig.specs.Quads.{plain_literal};
ghost use Rattle.rdf_trig.specs.declared.form.DocForm.{DocForm};
ghost use Rattle.rdf_trig.specs.Machine as M;
ghost use Rattle.rdf_trig.specs.Machine.{kept};
ghost use Rattle.rdf_tokens.specs.declared.token.Token.{Token as Given};
ghost use Rattle.rdf_trig.specs.States.{object_of, IsSettled, mode_in, graph_of, graph_in, cells_quad, rest_of};
ghost use Rattle.rdf_trig.specs.Steps.{GaveUp, given, IsQuadAt, last_of, due_term, due_quad, IsListed, IsAfterObject};

use crate::fault::StepFault;
use crate::rest::Rest;
use crate::state::{Block, Container, Frame, Level, Mode, Outer, Ready, State};
use rdf_terms::{
    IriView, Kind, Known, LiteralRef, NodeRef, PutFault, QuadRef, QuadSink, SubjectRef, TailRef,
    TermRef, known,
};
use rdf_tokens::Token;
use std::alloc::Allocator;

/// Puts the quads that the token determines, and answers how many they are.
#[inline(always)]
pub fn give<A: Allocator, S: QuadSink>(
    state: &State<A>,
    token: &Token<'_>,
    sink: &mut S,
) -> Result<u64, StepFault>
    requires live { S.has_failed sink.old ≡ false }
    ensures ok { OnOk result ((form : DocForm) (s : InForce) →
        Appends S.takes sink.old (given form s state.now token.now) sink.new) }
    ensures count { IfOk result (λ n. (form : DocForm) (s : InForce) → n ≡ length (given form s state.now token.now)) }
    ensures live { OnOk result (S.has_failed sink.new ≡ false) }
    ensures err { IfErr result (λ r. (form : DocForm) (s : InForce) →
        GaveUp S.takes S.leaves S.has_failed r (given form s state.now token.now) sink.old sink.new) }
{
    if is_idle(state) {
        return Ok(0);
    }
    if is_after_object(state) {
        return give_listed(state, token, sink);
    }
    give_all(state, token, sink)
}

// Whether the reader stands after an object of a predicate list, so that the object's quad is all that the token can
// give out. Most quads are given out so.
#[inline(always)]
fn is_after_object<A: Allocator>(state: &State<A>) -> bool
    ensures { result ≡ true → IsAfterObject state.now }
{
    match (state.mode, state.ready, state.frame.container) {
        (Mode::AfterText, Ready::Nothing, Container::List(_)) => !state.rest.is_owed(),
        (Mode::After, Ready::Nil(_), _) => false,
        (Mode::After, _, Container::List(_)) => !state.rest.is_owed(),
        _ => false,
    }
}

// Puts the quad of an object of a predicate list. One whose object is an IRI is made up apart, where LLVM knows what
// it is.
#[inline(always)]
fn give_listed<A: Allocator, S: QuadSink>(
    state: &State<A>,
    token: &Token<'_>,
    sink: &mut S,
) -> Result<u64, StepFault>
    requires after { IsAfterObject state.now }
    requires live { S.has_failed sink.old ≡ false }
    ensures ok { OnOk result ((form : DocForm) (s : InForce) →
        Appends S.takes sink.old (given form s state.now token.now) sink.new) }
    ensures count { IfOk result (λ n. (form : DocForm) (s : InForce) → n ≡ length (given form s state.now token.now)) }
    ensures live { OnOk result (S.has_failed sink.new ≡ false) }
    ensures err { IfErr result (λ r. (form : DocForm) (s : InForce) →
        GaveUp S.takes S.leaves S.has_failed r (given form s state.now token.now) sink.old sink.new) }
{
    if let Ready::Resource = state.ready {
        if let Some(object) = state.object.iri() {
            return give_iri(state, object, sink);
        }
    }
    match due_object(state, token) {
        None => Ok(0),
        Some(object) => put(Some(quad_listed(state, object)), sink),
    }
}

// Puts the quad of an object that is an IRI, whatever the token is. If its subject is one too, in the default graph, as
// in most quads, the quad has a call of its own.
#[inline(always)]
fn give_iri<A: Allocator, S: QuadSink>(
    state: &State<A>,
    object: IriView<'_>,
    sink: &mut S,
) -> Result<u64, StepFault>
    requires after { IsAfterObject state.now }
    requires ready { state.now.ready ≡ Ready.Resource }
    requires object { Some (term.Iri (iri_chars object)) ≡ state.now.object.term }
    requires live { S.has_failed sink.old ≡ false }
    ensures ok { OnOk result ((form : DocForm) (s : InForce) (t : Given) →
        Appends S.takes sink.old (given form s state.now t) sink.new) }
    ensures count { IfOk result (λ n.
        (form : DocForm) (s : InForce) (t : Given) → n ≡ length (given form s state.now t)) }
    ensures live { OnOk result (S.has_failed sink.new ≡ false) }
    ensures err { IfErr result (λ r. (form : DocForm) (s : InForce) (t : Given) →
        GaveUp S.takes S.leaves S.has_failed r (given form s state.now t) sink.old sink.new) }
{
    // One test within the other: asked for together, names take half a per cent more.
    if !is_in_named_graph(state) {
        if let Some(subject) = state.frame.subject.iri() {
            let predicate = state.frame.verb.view_or(Known::RdfType);
            return put_iris(subject, predicate, object, sink);
        }
    }
    put(Some(quad_listed(state, TermRef::Iri(object))), sink)
}

// Whether the statement stands in the block of a named graph.
#[inline(always)]
fn is_in_named_graph<A: Allocator>(state: &State<A>) -> bool
    ensures { result ≡ false → graph_of state.now.level state.now.graph ≡ None }
{
    matches!(state.level, Level::Block(Block::Named))
}

/// Whether no quad is ready, and none waits to know the token.
#[inline(always)]
pub fn is_idle<A: Allocator>(state: &State<A>) -> bool
    ensures given { result ≡ true → (form : DocForm) (s : InForce) (t : Given) → given form s state.now t ≡ [] }
    ensures ready { result ≡ true → state.now.ready ≡ Ready.Nothing }
    ensures rest { result ≡ true → state.now.rest ≡ None }
{
    match state.ready {
        Ready::Nothing => !state.rest.is_owed() && !waits(state.mode),
        _ => false,
    }
}

// Whether a quad waits to know the token.
#[inline(always)]
fn waits(mode: Mode) -> bool
    ensures { result ≡ false → IsSettled mode }
{
    matches!(mode, Mode::AfterText | Mode::CollectionStart)
}

// Puts what is ready and what waits.
#[inline(always)]
fn give_all<A: Allocator, S: QuadSink>(
    state: &State<A>,
    token: &Token<'_>,
    sink: &mut S,
) -> Result<u64, StepFault>
    requires live { S.has_failed sink.old ≡ false }
    ensures ok { OnOk result ((form : DocForm) (s : InForce) →
        Appends S.takes sink.old (given form s state.now token.now) sink.new) }
    ensures count { IfOk result (λ n. (form : DocForm) (s : InForce) → n ≡ length (given form s state.now token.now)) }
    ensures live { OnOk result (S.has_failed sink.new ≡ false) }
    ensures err { IfErr result (λ r. (form : DocForm) (s : InForce) →
        GaveUp S.takes S.leaves S.has_failed r (given form s state.now token.now) sink.old sink.new) }
{
    let graph = graph(state);
    let rest = put(rest_quad(&state.rest, graph), sink)?;
    let last = put(last_quad(state.ready, graph), sink)?;
    let due = put(due_quad(state, graph, token), sink)?;
    Ok(rest + last + due)
}

// The graph of the quads.
#[inline(always)]
fn graph<A: Allocator>(state: &State<A>) -> Option<SubjectRef<'_>>
    ensures { option_map (subject_by chars) result ≡ graph_in state.now }
{
    let block = match state.mode {
        Mode::Outer(Outer::Inside(block)) => block,
        Mode::Outer(_) => Block::Default,
        _ => match state.level {
            Level::Top => Block::Default,
            Level::Block(block) => block,
        },
    };
    match block {
        Block::Default => None,
        Block::Named => Some(state.graph.view()),
    }
}

#[inline(always)]
fn rest_quad<'a>(rest: &Rest, graph: Option<SubjectRef<'a>>) -> Option<QuadRef<'a>>
    ensures { option_map quad_of result ≡ rest_of (option_map (subject_by chars) graph.entry) rest.now }
{
    match rest.cells() {
        None => None,
        Some((cell, next)) => Some(cells(cell, cell_node(next), graph)),
    }
}

// The last rdf:rest of a collection that ended with the last token.
#[inline(always)]
fn last_quad<'a>(ready: Ready, graph: Option<SubjectRef<'a>>) -> Option<QuadRef<'a>>
    ensures { option_map quad_of result ≡ last_of (option_map (subject_by chars) graph.entry) ready }
{
    match ready {
        Ready::Nil(cell) => Some(cells(cell, nil(), graph)),
        _ => None,
    }
}

// The quad of an object that has come, or that the token decides.
#[inline(always)]
fn due_quad<'a, A: Allocator>(
    state: &'a State<A>,
    graph: Option<SubjectRef<'a>>,
    token: &Token<'_>,
) -> Option<QuadRef<'a>>
    ensures { (form : DocForm) → option_map quad_of result ≡ due_quad (option_map (subject_by chars) graph.entry)
        (mode_in form state.now)
        (due_term state.now state.now.mode token.now) }
{
    let object = match due_object(state, token) {
        None => return None,
        Some(object) => object,
    };
    let frame = match state.mode {
        Mode::After | Mode::AfterText => &state.frame,
        _ => match state.frames.last() {
            None => return None,
            Some(frame) => frame,
        },
    };
    Some(quad_at(frame, object, graph))
}

// The object of that quad.
#[inline(always)]
fn due_object<'a, A: Allocator>(state: &'a State<A>, token: &Token<'_>) -> Option<TermRef<'a>>
    ensures { option_map (term_by chars) result ≡ due_term state.now state.now.mode token.now }
{
    match state.mode {
        Mode::After | Mode::PropertyListStart => object(state),
        Mode::AfterText => match token.kind {
            Kind::LangTag | Kind::AtBase | Kind::AtPrefix | Kind::Carets => None,
            _ => Some(plain(&state.text)),
        },
        Mode::CollectionStart => match token.kind {
            Kind::CloseParen => Some(resource(nil())),
            _ => Some(resource(cell_node(token.offset))),
        },
        _ => None,
    }
}

// The object whose quad is ready.
#[inline(always)]
fn object<A: Allocator>(state: &State<A>) -> Option<TermRef<'_>>
    ensures { option_map (term_by chars) result ≡ object_of state.now state.now.ready }
{
    let text = state.text.as_str();
    match state.ready {
        Ready::Resource => Some(resource(state.object.view())),
        Ready::WithType => {
            let datatype = state.datatype.view_or(Known::XsdString);
            Some(literal(text, TailRef::Typed(datatype)))
        }
        Ready::WithTag => match state.tag.view() {
            Some(tag) => Some(literal(text, TailRef::Lang(tag))),
            None => None,
        },
        Ready::OfKnown(datatype) => Some(literal(text, TailRef::Typed(known(datatype)))),
        Ready::Nothing | Ready::Nil(_) => None,
    }
}

// The quad between a cell and what comes after it.
#[inline(always)]
fn cells<'a>(cell: u64, next: SubjectRef<'a>, graph: Option<SubjectRef<'a>>) -> QuadRef<'a>
    ensures { Some (quad_of result) ≡ cells_quad (option_map (subject_by chars) graph.entry) cell
        (subject_by chars next.entry) }
{
    QuadRef {
        subject: SubjectRef::Node(NodeRef::Cell(cell)),
        predicate: known(Known::RdfRest),
        object: resource(next),
        graph,
    }
}

// Puts a quad, if there is one, and answers how many it put.
#[inline(always)]
fn put<S: QuadSink>(quad: Option<QuadRef<'_>>, sink: &mut S) -> Result<u64, StepFault>
    requires live { S.has_failed sink.old ≡ false }
    ensures ok { OnOk result (Appends S.takes sink.old (kept (option_map quad_of quad.entry) []) sink.new) }
    ensures count { IfOk result (λ n. n ≡ length (kept (option_map quad_of quad.entry) [])) }
    ensures most { IfOk result (λ n. n ≤ 1) }
    ensures live { OnOk result (S.has_failed sink.new ≡ false) }
    ensures err { IfErr result (λ r.
        GaveUp S.takes S.leaves S.has_failed r (kept (option_map quad_of quad.entry) []) sink.old sink.new) }
{
    let Some(quad) = quad else {
        return Ok(0);
    };
    match sink.put(&quad) {
        Ok(()) => Ok(1),
        Err(PutFault::Memory) => Err(StepFault::Memory),
        Err(PutFault::Device) => Err(StepFault::Sink),
    }
}

// Puts the quad of three IRIs in the default graph, and answers that it put one.
#[inline(always)]
fn put_iris<S: QuadSink>(
    subject: IriView<'_>,
    predicate: IriView<'_>,
    object: IriView<'_>,
    sink: &mut S,
) -> Result<u64, StepFault>
    requires live { S.has_failed sink.old ≡ false }
    ensures ok { OnOk result (Appends S.takes sink.old
        (quad_of (iris_quad subject.entry predicate.entry object.entry) ∷ []) sink.new) }
    ensures count { IfOk result (λ n. n ≡ 1) }
    ensures live { OnOk result (S.has_failed sink.new ≡ false) }
    ensures err { IfErr result (λ r.
        GaveUp S.takes S.leaves S.has_failed r
        (quad_of (iris_quad subject.entry predicate.entry object.entry) ∷ []) sink.old sink.new) }
{
    match sink.put_iris(subject, predicate, object) {
        Ok(()) => Ok(1),
        Err(PutFault::Memory) => Err(StepFault::Memory),
        Err(PutFault::Device) => Err(StepFault::Sink),
    }
}

fn plain<A: Allocator>(lexical: &String<A>) -> TermRef<'_>
    ensures { Some (term_by chars result) ≡ plain_literal (chars (string_bytes lexical.now)) }
{
    literal(lexical.as_str(), TailRef::Typed(known(Known::XsdString)))
}

fn literal<'a>(lexical: &'a str, tail: TailRef<'a>) -> TermRef<'a>
    ensures { term_by chars result ≡ term.Literal (chars lexical.entry.now) (tail_by chars tail.entry) }
{
    TermRef::Literal(LiteralRef::new(lexical, tail))
}

fn cell_node(offset: u64) -> SubjectRef<'static>
    ensures { subject_by chars result ≡ term.Blank (term.Cell offset) }
{
    SubjectRef::Node(NodeRef::Cell(offset))
}

// The quad of an object at a place.
#[inline(always)]
fn quad_at<'a, A: Allocator>(
    frame: &'a Frame<A>,
    object: TermRef<'a>,
    graph: Option<SubjectRef<'a>>,
) -> QuadRef<'a>
    ensures { IsQuadAt frame.now (option_map (subject_by chars) graph.entry) (term_by chars object.entry)
        (Some (quad_of result)) }
{
    match frame.container {
        Container::List(_) => QuadRef {
            subject: frame.subject.view(),
            predicate: frame.verb.view_or(Known::RdfType),
            object,
            graph,
        },
        Container::Cells { cell, .. } => QuadRef {
            subject: SubjectRef::Node(NodeRef::Cell(cell)),
            predicate: known(Known::RdfFirst),
            object,
            graph,
        },
    }
}

// The same of a predicate list, in the graph of its statement.
#[inline(always)]
fn quad_listed<'a, A: Allocator>(state: &'a State<A>, object: TermRef<'a>) -> QuadRef<'a>
    requires { IsListed state.now.frame.container }
    ensures { IsQuadAt state.now.frame (graph_of state.now.level state.now.graph) (term_by chars object.entry)
        (Some (quad_of result)) }
{
    let graph = match state.level {
        Level::Block(Block::Named) => Some(state.graph.view()),
        _ => None,
    };
    QuadRef {
        subject: state.frame.subject.view(),
        predicate: state.frame.verb.view_or(Known::RdfType),
        object,
        graph,
    }
}

fn nil() -> SubjectRef<'static>
    ensures { subject_by chars result ≡ M.nil }
{
    SubjectRef::Iri(known(Known::RdfNil))
}

fn resource(subject: SubjectRef<'_>) -> TermRef<'_>
    ensures { term_by chars result ≡ term.Resource (subject_by chars subject.entry) }
{
    match subject {
        SubjectRef::Iri(iri) => TermRef::Iri(iri),
        SubjectRef::Node(node) => TermRef::Node(node),
    }
}
