// Terms and quads that own their texts.

ghost use Rattle.std.specs.Prelude.{◌≡◌, IfOk, option_map};
ghost use Rattle.std.specs.Str.{chars};
ghost use Rattle.std.specs.String.{string_bytes};
ghost use Rattle.rdf_terms.specs.Views.{node_by, tail_by, subject_by, term_by, quad_of};
ghost use Rattle.rdf_terms.specs.Owned.{owned_node, owned_tail, owned_subject, owned_term, owned_quad};

use crate::iris::Iri;
use crate::labels::Label;
use crate::tags::Tag;
use crate::views::{LiteralRef, NodeRef, QuadRef, SubjectRef, TailRef, TermRef};
use std::alloc::{AllocError, Allocator, Global};

/// A blank node: one with a label, or one that the document does not name.
#[derive(Drop)]
pub enum Node<A: Allocator = Global> {
    /// A label of the document.
    Label(Label<A>),
    /// The node of a `[` at this byte offset.
    Anon(u64),
    /// The cell of a collection's item whose first token stands at this byte offset.
    Cell(u64),
}

/// What a literal has besides its lexical form.
#[derive(Drop)]
pub enum Tail<A: Allocator = Global> {
    /// A language tag.
    Lang(Tag<A>),
    /// A datatype; that of a plain string is xsd:string.
    Typed(Iri<A>),
}

/// A literal (RDF 1.1 Concepts 3.3).
#[derive(Drop)]
pub struct Literal<A: Allocator = Global> {
    /// The lexical form.
    pub lexical: String<A>,
    /// The language tag or the datatype.
    pub tail: Tail<A>,
}

/// A subject or a graph label.
#[derive(Drop)]
pub enum Subject<A: Allocator = Global> {
    /// An IRI.
    Iri(Iri<A>),
    /// A blank node.
    Node(Node<A>),
}

/// An object.
#[derive(Drop)]
pub enum Term<A: Allocator = Global> {
    /// An IRI.
    Iri(Iri<A>),
    /// A blank node.
    Node(Node<A>),
    /// A literal.
    Literal(Literal<A>),
}

/// A quad; without a graph label it belongs to the default graph.
#[derive(Drop)]
pub struct Quad<A: Allocator = Global> {
    /// The subject.
    pub subject: Subject<A>,
    /// The predicate.
    pub predicate: Iri<A>,
    /// The object.
    pub object: Term<A>,
    /// The graph label, if there is one.
    pub graph: Option<Subject<A>>,
}

impl<A: Allocator> Node<A> {
    /// The node, borrowed.
    pub fn view(&self) -> NodeRef<'_>
        ensures { node_by chars result ≡ owned_node self.now }
    {
        match self {
            Node::Label(label) => NodeRef::Label(label.view()),
            Node::Anon(offset) => NodeRef::Anon(*offset),
            Node::Cell(offset) => NodeRef::Cell(*offset),
        }
    }
}

impl<A: Allocator> Tail<A> {
    /// The tail, borrowed.
    pub fn view(&self) -> TailRef<'_>
        ensures { tail_by chars result ≡ owned_tail self.now }
    {
        match self {
            Tail::Lang(tag) => TailRef::Lang(tag.view()),
            Tail::Typed(datatype) => TailRef::Typed(datatype.view()),
        }
    }
}

impl<A: Allocator> Literal<A> {
    /// The literal, borrowed.
    pub fn view(&self) -> LiteralRef<'_>
        ensures lexical { result.lexical.now ≡ string_bytes self.now.lexical }
        ensures tail { tail_by chars result.tail ≡ owned_tail self.now.tail }
    {
        LiteralRef {
            lexical: self.lexical.as_str(),
            tail: self.tail.view(),
        }
    }
}

impl<A: Allocator> Subject<A> {
    /// The subject, borrowed.
    pub fn view(&self) -> SubjectRef<'_>
        ensures { subject_by chars result ≡ owned_subject self.now }
    {
        match self {
            Subject::Iri(iri) => SubjectRef::Iri(iri.view()),
            Subject::Node(node) => SubjectRef::Node(node.view()),
        }
    }
}

impl<A: Allocator> Term<A> {
    /// The term, borrowed.
    pub fn view(&self) -> TermRef<'_>
        ensures { term_by chars result ≡ owned_term self.now }
    {
        match self {
            Term::Iri(iri) => TermRef::Iri(iri.view()),
            Term::Node(node) => TermRef::Node(node.view()),
            Term::Literal(literal) => TermRef::Literal(literal.view()),
        }
    }
}

impl<A: Allocator> Quad<A> {
    /// The quad, borrowed.
    pub fn view(&self) -> QuadRef<'_>
        ensures { quad_of result ≡ owned_quad self.now }
    {
        QuadRef {
            subject: self.subject.view(),
            predicate: self.predicate.view(),
            object: self.object.view(),
            graph: graph_view(&self.graph),
        }
    }
}

fn graph_view<A: Allocator>(graph: &Option<Subject<A>>) -> Option<SubjectRef<'_>>
    ensures { option_map (subject_by chars) result ≡ option_map owned_subject graph.now }
{
    match graph {
        None => None,
        Some(subject) => Some(subject.view()),
    }
}

impl<'a> NodeRef<'a> {
    /// A copy that owns its text.
    pub fn try_copy<A: Allocator>(self, alloc: A) -> Result<Node<A>, AllocError>
        ensures { IfOk result (λ n. owned_node n ≡ node_by chars self.entry) }
    {
        match self {
            NodeRef::Label(label) => Ok(Node::Label(label.try_copy(alloc)?)),
            NodeRef::Anon(offset) => Ok(Node::Anon(offset)),
            NodeRef::Cell(offset) => Ok(Node::Cell(offset)),
        }
    }
}

impl<'a> TailRef<'a> {
    /// A copy that owns its text.
    pub fn try_copy<A: Allocator>(self, alloc: A) -> Result<Tail<A>, AllocError>
        ensures { IfOk result (λ t. owned_tail t ≡ tail_by chars self.entry) }
    {
        match self {
            TailRef::Lang(tag) => Ok(Tail::Lang(tag.try_copy(alloc)?)),
            TailRef::Typed(datatype) => Ok(Tail::Typed(datatype.try_copy(alloc)?)),
        }
    }
}

impl<'a> LiteralRef<'a> {
    /// A copy that owns its texts.
    pub fn try_copy<A: Allocator + Copy>(self, alloc: A) -> Result<Literal<A>, AllocError>
        ensures lexical { IfOk result (λ l. string_bytes l.lexical ≡ self.entry.lexical.now) }
        ensures tail { IfOk result (λ l. owned_tail l.tail ≡ tail_by chars self.entry.tail) }
    {
        Ok(Literal {
            lexical: String::from_str(alloc, self.lexical)?,
            tail: self.tail.try_copy(alloc)?,
        })
    }
}

impl<'a> SubjectRef<'a> {
    /// A copy that owns its text.
    pub fn try_copy<A: Allocator>(self, alloc: A) -> Result<Subject<A>, AllocError>
        ensures { IfOk result (λ s. owned_subject s ≡ subject_by chars self.entry) }
    {
        match self {
            SubjectRef::Iri(iri) => Ok(Subject::Iri(iri.try_copy(alloc)?)),
            SubjectRef::Node(node) => Ok(Subject::Node(node.try_copy(alloc)?)),
        }
    }
}

impl<'a> TermRef<'a> {
    /// A copy that owns its texts.
    pub fn try_copy<A: Allocator + Copy>(self, alloc: A) -> Result<Term<A>, AllocError>
        ensures { IfOk result (λ t. owned_term t ≡ term_by chars self.entry) }
    {
        match self {
            TermRef::Iri(iri) => Ok(Term::Iri(iri.try_copy(alloc)?)),
            TermRef::Node(node) => Ok(Term::Node(node.try_copy(alloc)?)),
            TermRef::Literal(literal) => Ok(Term::Literal(literal.try_copy(alloc)?)),
        }
    }
}

impl<'a> QuadRef<'a> {
    /// A copy that owns its texts.
    pub fn try_copy<A: Allocator + Copy>(self, alloc: A) -> Result<Quad<A>, AllocError>
        ensures { IfOk result (λ q. owned_quad q ≡ quad_of self.entry) }
    {
        Ok(Quad {
            subject: self.subject.try_copy(alloc)?,
            predicate: self.predicate.try_copy(alloc)?,
            object: self.object.try_copy(alloc)?,
            graph: copy_graph(self.graph, alloc)?,
        })
    }
}

fn copy_graph<A: Allocator>(
    graph: Option<SubjectRef<'_>>,
    alloc: A,
) -> Result<Option<Subject<A>>, AllocError>
    ensures { IfOk result (λ g. option_map owned_subject g ≡ option_map (subject_by chars) graph.entry) }
{
    match graph {
        None => Ok(None),
        Some(subject) => Ok(Some(subject.try_copy(alloc)?)),
    }
}
