// What the type of a borrowed quad says of the quad. Nothing of it is left in the program.

ghost use Rattle.std.specs.Prelude.{option_map};
ghost use Rattle.std.specs.Str.{chars};
ghost use Rattle.rdf_terms.specs.Terms.{Literal, IsNode, IsSubject, IsTerm, IsGraph, IsQuad};
ghost use Rattle.rdf_terms.specs.Views.{node_by, subject_by, tail_by, term_by, quad_of};

use rdf_terms::{LiteralRef, NodeRef, QuadRef, SubjectRef, TermRef};

/// The quad is well formed.
pub(crate) fn see_quad(quad: &QuadRef<'_>)
    ensures { ∥ IsQuad (quad_of quad.now) ∥₁ }
{
    see_subject(quad.subject);
    see_term(quad.object);
    see_graph(quad.graph);
}

fn see_graph(graph: Option<SubjectRef<'_>>)
    ensures { ∥ IsGraph (option_map (subject_by chars) graph.entry) ∥₁ }
{
    match graph {
        None => {}
        Some(subject) => see_subject(subject),
    }
}

fn see_term(term: TermRef<'_>)
    ensures { ∥ IsTerm (term_by chars term.entry) ∥₁ }
{
    match term {
        TermRef::Iri(_) => {}
        TermRef::Node(node) => see_node(node),
        TermRef::Literal(literal) => see_literal(literal),
    }
}

fn see_literal(literal: LiteralRef<'_>)
    ensures { ∥ IsTerm (Literal (chars literal.entry.lexical.now) (tail_by chars literal.entry.tail)) ∥₁ }
{}

fn see_subject(subject: SubjectRef<'_>)
    ensures { ∥ IsSubject (subject_by chars subject.entry) ∥₁ }
{
    match subject {
        SubjectRef::Iri(_) => {}
        SubjectRef::Node(node) => see_node(node),
    }
}

fn see_node(node: NodeRef<'_>)
    ensures { ∥ IsNode (node_by chars node.entry) ∥₁ }
{
    match node {
        NodeRef::Label(_) => {}
        NodeRef::Anon(offset) | NodeRef::Cell(offset) => {
            let _offset = offset;
        }
    }
}
