// How quads are written.

ghost use Rattle.std.specs.Prelude.{◌≡◌, ◌==◌, length, None, Some, IfSome, IsUtf8, option_map};
ghost use Rattle.rdf_terms.specs.Terms.{IsIri};
ghost use Rattle.rdf_terms.specs.Views.{iri_chars, quad_of};
ghost use Rattle.rdf_stream.specs.Graphs.{in_graph};
ghost use Rattle.rdf_stream.specs.GraphTexts.{graph_in};

use rdf_lines::WrittenForm;
use rdf_terms::{Iri, IriView, QuadRef, SubjectRef};
use std::alloc::Allocator;

/// The form of the lines of quads, and the graph of those of the default graph.
#[derive(Clone, Copy)]
pub(crate) struct OutputView<'a> {
    pub(crate) lines: WrittenForm<'a>,
    pub(crate) graph: GraphView<'a>,
}

/// The IRI of a graph, or none, which is the empty text.
#[derive(Clone, Copy)]
pub(crate) struct GraphView<'a> {
    iri: &'a str,
    ghost utf8: { ∥ IsUtf8 iri.now ∥₁ },
    ghost is_graph: { ∥ IfSome (graph_in iri.now) IsIri ∥₁ },
}

impl GraphView<'static> {
    /// No graph.
    pub(crate) fn none() -> GraphView<'static>
        ensures { graph_in result.iri.now ≡ None }
    {
        GraphView { iri: "" }
    }
}

impl<'a> GraphView<'a> {
    /// The graph of an IRI.
    pub(crate) fn new<A: Allocator>(iri: &'a Iri<A>) -> GraphView<'a>
        ensures { graph_in result.iri.now ≡ Some iri.now }
    {
        GraphView { iri: iri.as_str() }
    }

    /// Whether there is no graph.
    pub(crate) fn is_none(self) -> bool
        ensures { result ≡ (length self.entry.iri.now == 0) }
    {
        self.iri.is_empty()
    }

    /// The graph's IRI, if there is one.
    pub(crate) fn iri(self) -> Option<IriView<'a>>
        ensures { option_map iri_chars result ≡ graph_in self.entry.iri.now }
    {
        if self.iri.is_empty() {
            return None;
        }
        Some(IriView::new(self.iri))
    }
}

/// The quad in this graph, where there is one and the quad is of the default graph; another stays as it is.
pub(crate) fn in_graph<'a>(quad: &QuadRef<'a>, graph: GraphView<'a>) -> QuadRef<'a>
    ensures { quad_of result ≡ in_graph (graph_in graph.entry.iri.now) (quad_of quad.now) }
{
    match graph.iri() {
        Some(iri) => in_graph_of(quad, iri),
        None => *quad,
    }
}

fn in_graph_of<'a>(quad: &QuadRef<'a>, iri: IriView<'a>) -> QuadRef<'a>
    ensures { quad_of result ≡ in_graph (Some (iri_chars iri.entry)) (quad_of quad.now) }
{
    match quad.graph {
        Some(_) => *quad,
        None => QuadRef {
            subject: quad.subject,
            predicate: quad.predicate,
            object: quad.object,
            graph: Some(SubjectRef::Iri(iri)),
        },
    }
}
