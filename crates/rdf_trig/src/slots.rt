// Texts that are used again: those of the subject, graph, object and tag of a state.

ghost use Rattle.std.specs.Prelude.{◌≡◌, [], true, Some, None, OnOk, IfErr, IfSome, option_map, is_some};
ghost use Rattle.std.specs.Str.{chars};
ghost use Rattle.rdf_terms.specs.Terms.{Iri, IsLabel, IsTag};
ghost use Rattle.rdf_terms.specs.Views.{iri_chars, tag_chars, subject_by};
ghost use Rattle.rdf_tokens.specs.Scans.{KnowsItsColon};
ghost use Rattle.rdf_trig.specs.Quads.{named};
ghost use Rattle.rdf_trig.specs.Scopes.{StandsForIri, Unnamed};
ghost use Rattle.rdf_trig.specs.States.{leaf, IsTurtleToken};
ghost use Rattle.rdf_trig.specs.Straight.{IsTopic};
ghost use Rattle.rdf_trig.specs.declared.slots.SubjectKind.TheVariants as SubjectKind;
ghost use Rattle.rdf_trig.specs.Slots.{topic_at};
ghost use Rattle.rdf_trig.specs.Machine as M;
ghost use Rattle.rdf_trig.specs.Owed.{iri_size};

use crate::emptied::clear_text;
use crate::fault::StepFault;
use crate::names::{Name, put_name};
use rdf_iri::Scope;
use rdf_terms::{
    IriView, Known, LabelView, NodeRef, SubjectRef, TagView, TextBuffer, known, put_text, text_len,
};
use rdf_tokens::Token;
use std::alloc::{AllocError, Allocator, Global};
use std::marker::Model;

/// What a subject is.
#[derive(Clone, Copy)]
pub enum SubjectKind {
    Iri,
    Label,
    Anon(u64),
    Cell(u64),
    Nil,
}

/// A subject, a graph's label, or an object that is an IRI or a blank node.
#[derive(Drop)]
pub struct Topic<A: Allocator = Global> {
    kind: SubjectKind,
    text: TextBuffer<A>,
}

impl<A: Allocator> Model for Topic<A> {
    ghost use Rattle.std.specs.Str.{chars};
    ghost use Rattle.std.specs.Coded.{codes};
    ghost use Rattle.rdf_trig.specs.Slots.{topic_at, IsOfKind};
    ghost use Rattle.rdf_trig.specs.Machine as M;
    ghost use Rattle.rdf_trig.specs.Coded.{topic_code};

    ghost Value = { M.Topic };

    ghost coded = { Prim.hlevel (codes, topic_code) };

    ghost view = { λ t. topic_at t.kind (chars t.text) };

    ghost invariant = { λ t. IsOfKind t.kind (chars t.text) };
}

impl<A: Allocator> Topic<A> {
    /// The empty collection, which is rdf:nil. It takes no memory.
    pub fn new(alloc: A) -> Topic<A>
        ensures { result ≡ M.unsized (Some M.nil) }
    {
        Topic {
            kind: SubjectKind::Nil,
            text: TextBuffer::new(alloc),
        }
    }

    /// Takes the IRI of a name.
    #[inline(always)]
    pub fn take(&mut self, name: &mut Name<A>)
        requires { is_some name.old ≡ true }
        ensures { self.new ≡ M.sized (named name.old) }
    {
        name.give(&mut self.text);
        self.kind = SubjectKind::Iri;
    }

    /// The node of a `[` at this byte offset.
    #[inline(always)]
    pub fn set_anon(&mut self, offset: u64)
        ensures { self.new ≡ topic_at (SubjectKind.Anon offset) [] }
    {
        self.kind = SubjectKind::Anon(offset);
        clear_text(&mut self.text);
    }

    /// The cell of a collection's item whose first token stands at this byte offset.
    #[inline(always)]
    pub fn set_cell(&mut self, offset: u64)
        ensures { self.new ≡ topic_at (SubjectKind.Cell offset) [] }
    {
        self.kind = SubjectKind::Cell(offset);
        clear_text(&mut self.text);
    }

    /// The empty collection.
    #[inline(always)]
    pub fn set_nil(&mut self)
        ensures { self.new ≡ topic_at SubjectKind.Nil [] }
    {
        self.kind = SubjectKind::Nil;
        clear_text(&mut self.text);
    }

    /// The subject, borrowed.
    #[inline(always)]
    pub fn view(&self) -> SubjectRef<'_>
        ensures { Some (subject_by chars result) ≡ self.now.term }
    {
        match self.kind {
            SubjectKind::Iri => SubjectRef::Iri(IriView::of_bytes(self.text.as_bytes())),
            SubjectKind::Label => {
                SubjectRef::Node(NodeRef::Label(LabelView::of_bytes(self.text.as_bytes())))
            }
            SubjectKind::Anon(offset) => SubjectRef::Node(NodeRef::Anon(offset)),
            SubjectKind::Cell(offset) => SubjectRef::Node(NodeRef::Cell(offset)),
            SubjectKind::Nil => SubjectRef::Iri(known(Known::RdfNil)),
        }
    }

    /// The IRI that it is, borrowed, or None for a node and for the empty collection.
    #[inline(always)]
    pub fn iri(&self) -> Option<IriView<'_>>
        ensures { IfSome result (λ i. Some (Iri (iri_chars i)) ≡ self.now.term) }
    {
        match self.kind {
            SubjectKind::Iri => Some(IriView::of_bytes(self.text.as_bytes())),
            _ => None,
        }
    }

    /// How many bytes its text has memory for.
    #[inline(always)]
    pub fn capacity(&self) -> usize {
        self.text.capacity()
    }

    /// It stands for a term. Nothing is done.
    #[inline(always)]
    pub fn has_term(&self)
        ensures { is_some self.now.term ≡ true }
    {
        let _ = &self.kind;
    }

    /// How many bytes its text has: its IRI or label. A node without a label and the empty collection have none.
    pub fn len(&self) -> u64
        ensures { result ≡ self.now.size }
    {
        self.text.byte_len()
    }
}

impl<A: Allocator + Copy> Topic<A> {
    /// The IRI of a reference or a name.
    #[inline(always)]
    pub fn set_name(
        &mut self,
        alloc: A,
        scope: &Scope<A>,
        token: &Token<'_>,
    ) -> Result<(), StepFault>
        requires token { IsTurtleToken token.now }
        requires kind { StandsForIri token.now.kind }
        requires colon { KnowsItsColon token.now }
        ensures ok { OnOk result (IsTopic scope.now token.now self.new) }
        ensures err { IfErr result (λ r. Unnamed scope.now token.now.kind (leaf token.now) r) }
    {
        self.kind = SubjectKind::Nil;
        put_name(alloc, &mut self.text, scope, token)?;
        self.kind = SubjectKind::Iri;
        Ok(())
    }

    /// The node of a label, which stands here without its `_:`.
    #[inline(always)]
    pub fn set_label(&mut self, label: &str) -> Result<(), AllocError>
        requires { IsLabel (chars label.now) }
        ensures { OnOk result (self.new ≡ topic_at SubjectKind.Label (chars label.now)) }
    {
        self.kind = SubjectKind::Nil;
        self.text.put_short(label)?;
        self.kind = SubjectKind::Label;
        Ok(())
    }
}

/// A language tag, or none where the text is empty.
#[derive(Drop)]
pub struct TagText<A: Allocator = Global> {
    text: String<A>,
}

impl<A: Allocator> Model for TagText<A> {
    ghost use Rattle.std.specs.Prelude.{ℕ, List, Option, IfSome};
    ghost use Rattle.std.specs.Str.{chars};
    ghost use Rattle.std.specs.String.{string_bytes};
    ghost use Rattle.rdf_terms.specs.Terms.{IsTag};
    ghost use Rattle.rdf_trig.specs.Slots.{text_at};

    ghost Value = { Option (List ℕ) };

    ghost view = { λ t. text_at (chars (string_bytes t.text)) };

    ghost invariant = { λ t. IfSome (text_at (chars (string_bytes t.text))) (λ w. ∥ IsTag w ∥₁) };
}

impl<A: Allocator> TagText<A> {
    /// No tag. It takes no memory.
    pub fn new(alloc: A) -> TagText<A>
        ensures { result ≡ None }
    {
        TagText {
            text: String::new(alloc),
        }
    }

    /// The tag, which stands here without its `@`.
    pub fn set(&mut self, tag: &str) -> Result<(), AllocError>
        requires { IsTag (chars tag.now) }
        ensures { OnOk result (self.new ≡ Some (chars tag.now)) }
    {
        match put_text(&mut self.text, tag) {
            Ok(()) => Ok(()),
            Err(error) => {
                self.text.clear();
                Err(error)
            }
        }
    }

    /// Takes the tag away.
    #[inline(always)]
    pub fn clear(&mut self)
        ensures { self.new ≡ None }
    {
        self.text.clear();
    }

    /// The tag, borrowed.
    #[inline(always)]
    pub fn view(&self) -> Option<TagView<'_>>
        ensures { option_map tag_chars result ≡ self.now }
    {
        if self.len() > 0 {
            Some(TagView::new(self.text.as_str()))
        } else {
            None
        }
    }

    /// How many bytes its text has.
    #[inline(always)]
    pub fn len(&self) -> u64
        ensures { result ≡ iri_size self.now }
    {
        text_len(self.text.as_str())
    }
}
