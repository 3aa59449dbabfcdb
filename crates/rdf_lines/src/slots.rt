// Texts whose memory is used again from line to line: those of a subject, of a predicate, and of what follows a string.

ghost use Rattle.std.specs.Prelude.{◌≡◌, ◌≤◌, ◌*◌, [], length, true, drop, None, Some, OnOk, IfErr};
ghost use Rattle.std.specs.Str.{chars};
ghost use Rattle.rdf_terms.specs.Buffers.{iri_in};
ghost use Rattle.rdf_terms.specs.Shapes.{Shape};
ghost use Rattle.rdf_terms.specs.Values as V;
ghost use Rattle.rdf_terms.specs.Terms.{Subject, Iri, Label, Blank, Lang, Typed};
ghost use Rattle.rdf_terms.specs.Views.{iri_chars, subject_by, tail_by};
ghost use Rattle.rdf_iri.specs.Texts.{byte_len};
ghost use Rattle.rdf_lines.specs.Machine.{is_taken};
ghost use Rattle.rdf_lines.specs.Slots.{iri_or_string, subject_at, tail_or_string};
ghost use Rattle.rdf_lines.specs.Spelled.{IriRefused};
ghost use Rattle.rdf_lines.specs.States.{predicate_bytes, subject_bytes, tail_bytes};
ghost use Rattle.rdf_lines.specs.declared.slots.SubjectKind.TheVariants as SubjectKind;

use crate::spelled::{set_iri, tag_of};
use rdf_terms::{
    Dialect, IriView, Kind, Known, LabelView, NodeRef, Reason, SubjectRef, TagView, TailRef, known,
    label_of, put_text, text_len,
};
use std::alloc::{Allocator, Global};
use std::marker::Model;

/// What a subject is.
#[derive(Clone, Copy)]
pub enum SubjectKind {
    Iri,
    Label,
    /// None has come yet.
    Nothing,
}

/// A subject, a graph's label, or an object that is an IRI or a label.
#[derive(Drop)]
pub struct SubjectText<A: Allocator = Global> {
    kind: SubjectKind,
    text: String<A>,
}

impl<A: Allocator> Model for SubjectText<A> {
    ghost use Rattle.std.specs.Str.{chars};
    ghost use Rattle.std.specs.String.{string_bytes};
    ghost use Rattle.rdf_terms.specs.Terms.{Subject};
    ghost use Rattle.rdf_lines.specs.Slots.{subject_at, IsSubjectText};

    ghost Value = { Subject };

    ghost view = { λ s. subject_at s.kind (chars (string_bytes s.text)) };

    ghost invariant = { λ s. IsSubjectText s.kind (chars (string_bytes s.text)) };
}

impl<A: Allocator> SubjectText<A> {
    /// Before the first subject. It takes no memory.
    pub fn new(alloc: A) -> SubjectText<A>
        ensures { result ≡ subject_at SubjectKind.Nothing [] }
    {
        SubjectText {
            kind: SubjectKind::Nothing,
            text: String::new(alloc),
        }
    }

    /// The IRI of an IRIREF.
    #[inline(always)]
    pub fn set_iri(&mut self, text: &str, limit: u64) -> Result<(), Reason>
        requires fit { V.is_fit Kind.IriRef (chars text.now) ≡ true }
        ensures ok { OnOk result (self.new ≡ Iri (iri_in (chars text.now))) }
        ensures taken { OnOk result (is_taken limit (iri_in (chars text.now)) ≡ true) }
        ensures short { OnOk result (byte_len (iri_in (chars text.now)) ≤ limit) }
        ensures err { IfErr result (λ r. IriRefused limit r (iri_in (chars text.now))) }
    {
        match set_iri(&mut self.text, text, limit) {
            Ok(()) => {
                self.kind = SubjectKind::Iri;
                Ok(())
            }
            Err(reason) => {
                self.kind = SubjectKind::Nothing;
                self.text.clear();
                Err(reason)
            }
        }
    }

    /// The node of a BLANK_NODE_LABEL.
    #[inline(always)]
    pub fn set_label(&mut self, text: &str) -> Result<(), Reason>
        requires { Shape Dialect.Lines Kind.LabelNode (chars text.now) }
        ensures ok { OnOk result (self.new ≡ Blank (Label (drop 2 (chars text.now)))) }
        ensures short { OnOk result (byte_len (drop 2 (chars text.now)) ≤ 4 * length (chars text.now)) }
        ensures err { IfErr result (λ r. r ≡ Reason.Memory) }
    {
        match put_text(&mut self.text, label_of(text)) {
            Ok(()) => {
                self.kind = SubjectKind::Label;
                Ok(())
            }
            Err(_) => {
                self.kind = SubjectKind::Nothing;
                self.text.clear();
                Err(Reason::Memory)
            }
        }
    }

    /// The subject, borrowed.
    #[inline(always)]
    pub fn view(&self) -> SubjectRef<'_>
        ensures { subject_by chars result ≡ self.now }
    {
        match self.kind {
            SubjectKind::Iri => SubjectRef::Iri(IriView::new(self.text.as_str())),
            SubjectKind::Label => {
                SubjectRef::Node(NodeRef::Label(LabelView::new(self.text.as_str())))
            }
            SubjectKind::Nothing => SubjectRef::Node(NodeRef::Anon(0)),
        }
    }

    /// As before the first subject, but for the memory, which stays.
    pub fn clear(&mut self)
        ensures { self.new ≡ subject_at SubjectKind.Nothing [] }
    {
        self.kind = SubjectKind::Nothing;
        self.text.clear();
    }

    /// How many bytes its text has: its IRI or label.
    pub fn len(&self) -> u64
        ensures { result ≡ subject_bytes self.now }
    {
        text_len(self.text.as_str())
    }
}

/// A predicate.
#[derive(Drop)]
pub struct IriText<A: Allocator = Global> {
    has_come: bool,
    text: String<A>,
}

impl<A: Allocator> Model for IriText<A> {
    ghost use Rattle.std.specs.Prelude.{ℕ, List, Option};
    ghost use Rattle.std.specs.Str.{chars};
    ghost use Rattle.std.specs.String.{string_bytes};
    ghost use Rattle.rdf_lines.specs.Slots.{iri_at, IsIriText};

    ghost Value = { Option (List ℕ) };

    ghost view = { λ i. iri_at i.has_come (chars (string_bytes i.text)) };

    ghost invariant = { λ i. IsIriText i.has_come (chars (string_bytes i.text)) };
}

impl<A: Allocator> IriText<A> {
    /// Before the first predicate. It takes no memory.
    pub fn new(alloc: A) -> IriText<A>
        ensures { result ≡ None }
    {
        IriText {
            has_come: false,
            text: String::new(alloc),
        }
    }

    /// The IRI of an IRIREF.
    #[inline(always)]
    pub fn set(&mut self, text: &str, limit: u64) -> Result<(), Reason>
        requires fit { V.is_fit Kind.IriRef (chars text.now) ≡ true }
        ensures ok { OnOk result (self.new ≡ Some (iri_in (chars text.now))) }
        ensures taken { OnOk result (is_taken limit (iri_in (chars text.now)) ≡ true) }
        ensures short { OnOk result (byte_len (iri_in (chars text.now)) ≤ limit) }
        ensures err { IfErr result (λ r. IriRefused limit r (iri_in (chars text.now))) }
    {
        match set_iri(&mut self.text, text, limit) {
            Ok(()) => {
                self.has_come = true;
                Ok(())
            }
            Err(reason) => {
                self.has_come = false;
                self.text.clear();
                Err(reason)
            }
        }
    }

    /// The IRI, borrowed. Where none has come it is xsd:string.
    #[inline(always)]
    #[tactic(auto, unfolding(rdf_terms::specs::Known::known_chars))]
    pub fn view(&self) -> IriView<'_>
        ensures { iri_chars result ≡ iri_or_string self.now }
    {
        if self.has_come {
            IriView::new(self.text.as_str())
        } else {
            known(Known::XsdString)
        }
    }

    /// As before the first predicate, but for the memory, which stays.
    pub fn clear(&mut self)
        ensures { self.new ≡ None }
    {
        self.has_come = false;
        self.text.clear();
    }

    /// How many bytes its text has.
    pub fn len(&self) -> u64
        ensures { result ≡ predicate_bytes self.now }
    {
        text_len(self.text.as_str())
    }
}

/// What a literal has besides its lexical form, where it is spelled.
#[derive(Clone, Copy)]
pub enum TailKind {
    Datatype,
    Tag,
    /// None has come yet.
    Nothing,
}

/// The datatype or the tag of a literal.
#[derive(Drop)]
pub struct TailText<A: Allocator = Global> {
    kind: TailKind,
    text: String<A>,
}

impl<A: Allocator> Model for TailText<A> {
    ghost use Rattle.std.specs.Str.{chars};
    ghost use Rattle.std.specs.String.{string_bytes};
    ghost use Rattle.std.specs.Prelude.{Option};
    ghost use Rattle.rdf_terms.specs.Terms.{Tail};
    ghost use Rattle.rdf_lines.specs.Slots.{tail_at, IsTailText};

    ghost Value = { Option Tail };

    ghost view = { λ t. tail_at t.kind (chars (string_bytes t.text)) };

    ghost invariant = { λ t. IsTailText t.kind (chars (string_bytes t.text)) };
}

impl<A: Allocator> TailText<A> {
    /// Before the first datatype or tag. It takes no memory.
    pub fn new(alloc: A) -> TailText<A>
        ensures { result ≡ None }
    {
        TailText {
            kind: TailKind::Nothing,
            text: String::new(alloc),
        }
    }

    /// The datatype of an IRIREF.
    #[inline(always)]
    pub fn set_datatype(&mut self, text: &str, limit: u64) -> Result<(), Reason>
        requires fit { V.is_fit Kind.IriRef (chars text.now) ≡ true }
        ensures ok { OnOk result (self.new ≡ Some (Typed (iri_in (chars text.now)))) }
        ensures taken { OnOk result (is_taken limit (iri_in (chars text.now)) ≡ true) }
        ensures short { OnOk result (byte_len (iri_in (chars text.now)) ≤ limit) }
        ensures err { IfErr result (λ r. IriRefused limit r (iri_in (chars text.now))) }
    {
        match set_iri(&mut self.text, text, limit) {
            Ok(()) => {
                self.kind = TailKind::Datatype;
                Ok(())
            }
            Err(reason) => {
                self.kind = TailKind::Nothing;
                self.text.clear();
                Err(reason)
            }
        }
    }

    /// The tag of a LANGTAG.
    #[inline(always)]
    pub fn set_tag(&mut self, text: &str) -> Result<(), Reason>
        requires { Shape Dialect.Lines Kind.LangTag (chars text.now) }
        ensures ok { OnOk result (self.new ≡ Some (Lang (drop 1 (chars text.now)))) }
        ensures short { OnOk result (byte_len (drop 1 (chars text.now)) ≤ 4 * length (chars text.now)) }
        ensures err { IfErr result (λ r. r ≡ Reason.Memory) }
    {
        match put_text(&mut self.text, tag_of(text)) {
            Ok(()) => {
                self.kind = TailKind::Tag;
                Ok(())
            }
            Err(_) => {
                self.kind = TailKind::Nothing;
                self.text.clear();
                Err(Reason::Memory)
            }
        }
    }

    /// The datatype or the tag, borrowed. Where none has come it is xsd:string.
    #[inline(always)]
    #[tactic(auto, unfolding(rdf_terms::specs::Known::known_chars))]
    pub fn view(&self) -> TailRef<'_>
        ensures { tail_by chars result ≡ tail_or_string self.now }
    {
        match self.kind {
            TailKind::Datatype => TailRef::Typed(IriView::new(self.text.as_str())),
            TailKind::Tag => TailRef::Lang(TagView::new(self.text.as_str())),
            TailKind::Nothing => TailRef::Typed(known(Known::XsdString)),
        }
    }

    /// As before the first datatype or tag, but for the memory, which stays.
    pub fn clear(&mut self)
        ensures { self.new ≡ None }
    {
        self.kind = TailKind::Nothing;
        self.text.clear();
    }

    /// How many bytes its text has.
    pub fn len(&self) -> u64
        ensures { result ≡ tail_bytes self.now }
    {
        text_len(self.text.as_str())
    }
}
