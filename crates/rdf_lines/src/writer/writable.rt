// Whether a style can write a quad.

ghost use Rattle.std.specs.Prelude.{chars, option_map, Decides};
ghost use Rattle.rdf_terms.specs.Views.{node_of, quad_of, subject_by, term_by};
ghost use Rattle.rdf_lines.specs.declared.form.Style.TheVariants.{Kept};
ghost use Rattle.rdf_lines.specs.Writing.{CanWrite, CanWriteNode};
ghost use Rattle.rdf_lines.specs.NodeNames.{CanWriteGraph, CanWriteSubject, CanWriteTerm};

use crate::form::Style;
use rdf_terms::{NodeRef, QuadRef, SubjectRef, TermRef};

pub fn can_write(quad: &QuadRef<'_>, style: Style) -> bool
    ensures { Decides result (CanWrite style (quad_of quad.now)) }
{
    match style {
        Style::Tagged => true,
        Style::Kept => can_keep(quad),
    }
}

fn can_keep(quad: &QuadRef<'_>) -> bool
    ensures { Decides result (CanWrite Kept (quad_of quad.now)) }
{
    can_write_subject(quad.subject, Style::Kept)
        && can_write_term(quad.object, Style::Kept)
        && can_write_graph(quad.graph, Style::Kept)
}

fn can_write_subject(subject: SubjectRef<'_>, style: Style) -> bool
    ensures { Decides result (CanWriteSubject style (subject_by chars subject.entry)) }
{
    match subject {
        SubjectRef::Iri(_) => true,
        SubjectRef::Node(node) => can_write_node(node, style),
    }
}

fn can_write_term(term: TermRef<'_>, style: Style) -> bool
    ensures { Decides result (CanWriteTerm style (term_by chars term.entry)) }
{
    match term {
        TermRef::Iri(_) => true,
        TermRef::Node(node) => can_write_node(node, style),
        TermRef::Literal(_) => true,
    }
}

fn can_write_graph(graph: Option<SubjectRef<'_>>, style: Style) -> bool
    ensures { Decides result (CanWriteGraph style (option_map (subject_by chars) graph.entry)) }
{
    match graph {
        None => true,
        Some(subject) => can_write_subject(subject, style),
    }
}

fn can_write_node(node: NodeRef<'_>, style: Style) -> bool
    ensures { Decides result (CanWriteNode style (node_of node.entry)) }
{
    match style {
        Style::Tagged => true,
        Style::Kept => match node {
            NodeRef::Label(_) => true,
            NodeRef::Anon(_) => false,
            NodeRef::Cell(_) => false,
        },
    }
}
