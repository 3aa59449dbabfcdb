// IRIs that own their texts.

ghost use Rattle.std.specs.Prelude.{◌≡◌, ◌↔◌, ◌++◌, IfOk, OnOk, OnErr, Err, true};
ghost use Rattle.std.specs.Str.{chars};
ghost use Rattle.std.specs.String.{string_bytes};
ghost use Rattle.rdf_terms.specs.Terms.{IsIri};
ghost use Rattle.rdf_terms.specs.Views.{iri_chars};

use crate::classes::{has_scheme, iri_text};
use crate::fault::TermFault;
use crate::views::IriView;
use std::alloc::{AllocError, Allocator, Global};
use std::marker::Model;

/// An absolute IRI: characters of IRIREF, and a scheme.
#[derive(Drop)]
pub struct Iri<A: Allocator = Global> {
    text: String<A>,
}

impl<A: Allocator> Model for Iri<A> {
    ghost use Rattle.std.specs.Prelude.{ℕ, List};
    ghost use Rattle.std.specs.Str.{chars};
    ghost use Rattle.std.specs.String.{string_bytes};
    ghost use Rattle.rdf_terms.specs.Terms.{IsIri};

    ghost Value = { List ℕ };

    ghost view = { λ i. chars (string_bytes i.text) };

    ghost invariant = { λ i. ∥ IsIri (chars (string_bytes i.text)) ∥₁ };
}

impl<A: Allocator> Iri<A> {
    /// The IRI of a text without brackets and escapes.
    pub fn new(alloc: A, text: &str) -> Result<Iri<A>, TermFault>
        ensures ok { IfOk result (λ i. i ≡ chars text.now) }
        ensures is_iri { OnOk result (IsIri (chars text.now)) }
        ensures bad { (result ≡ Err TermFault.BadTerm) ↔ (¬ IsIri (chars text.now)) }
    {
        if !is_iri(text) {
            return Err(TermFault::BadTerm);
        }
        match String::from_str(alloc, text) {
            Ok(text) => Ok(Iri { text }),
            Err(_) => Err(TermFault::Memory),
        }
    }

    /// The IRI of a text that is known to be one.
    pub fn of_text(text: String<A>) -> Iri<A>
        requires { IsIri (chars (string_bytes text)) }
        ensures { result ≡ chars (string_bytes text) }
    {
        Iri { text }
    }

    /// The IRI, without brackets.
    pub fn as_str(&self) -> &str
        ensures value { chars result.now ≡ self.now }
        ensures is_iri { IsIri self.now }
    {
        self.text.as_str()
    }

    /// Appends characters to the IRI, in its own memory where that has room.
    pub fn push_str(&mut self, text: &str) -> Result<(), AllocError>
        requires { IsIri (self.old ++ chars text.now) }
        ensures appended { OnOk result (self.new ≡ self.old ++ chars text.now) }
        ensures unchanged { OnErr result (self.new ≡ self.old) }
    {
        self.text.push_str(text)
    }

    /// The IRI, borrowed.
    pub fn view(&self) -> IriView<'_>
        ensures { iri_chars result ≡ self.now }
    {
        IriView::new(self.as_str())
    }
}

impl<'a> IriView<'a> {
    /// A copy that owns its text.
    pub fn try_copy<A: Allocator>(self, alloc: A) -> Result<Iri<A>, AllocError>
        ensures { IfOk result (λ i. i ≡ iri_chars self.entry) }
    {
        let text = String::from_str(alloc, self.as_str())?;
        Ok(Iri { text })
    }
}

fn is_iri(text: &str) -> bool
    ensures { (result ≡ true) ↔ IsIri (chars text.now) }
{
    iri_text(text) && has_scheme(text)
}
