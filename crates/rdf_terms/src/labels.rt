// Labels that own their texts.

ghost use Rattle.std.specs.Prelude.{◌≡◌, ◌↔◌, ◌≤◌, ◌*◌, IfOk, OnOk, Err, true, drop, length};
ghost use Rattle.std.specs.Str.{chars, encode_utf8_all};
ghost use Rattle.rdf_terms.specs.Classes.{has};
ghost use Rattle.rdf_terms.specs.Names.{begins_label};
ghost use Rattle.rdf_terms.specs.Shapes.{Shape};
ghost use Rattle.rdf_terms.specs.Terms.{IsLabel};
ghost use Rattle.rdf_terms.specs.Views.{label_chars};
ghost use Rattle.rdf_terms.specs.declared.kind.Dialect.{Dialect as AnyDialect};

use crate::classes::is_pn_u;
use crate::fault::TermFault;
use crate::kind::{Dialect, Kind};
use crate::names::name_goes_on;
use crate::values::without_first;
use crate::views::LabelView;
use std::alloc::{AllocError, Allocator, Global};
use std::marker::Model;

/// The part of a blank node label after `_:`, of the line formats.
#[derive(Drop)]
pub struct Label<A: Allocator = Global> {
    text: String<A>,
}

impl<A: Allocator> Model for Label<A> {
    ghost use Rattle.std.specs.Prelude.{ℕ, List};
    ghost use Rattle.std.specs.Str.{chars};
    ghost use Rattle.std.specs.String.{string_bytes};
    ghost use Rattle.rdf_terms.specs.Terms.{IsLabel};

    ghost Value = { List ℕ };

    ghost view = { λ l. chars (string_bytes l.text) };

    ghost invariant = { λ l. ∥ IsLabel (chars (string_bytes l.text)) ∥₁ };
}

impl<A: Allocator> Label<A> {
    /// The label of a text without `_:`.
    pub fn new(alloc: A, text: &str) -> Result<Label<A>, TermFault>
        ensures ok { IfOk result (λ l. l ≡ chars text.now) }
        ensures is_label { OnOk result (IsLabel (chars text.now)) }
        ensures bad { (result ≡ Err TermFault.BadTerm) ↔ (¬ IsLabel (chars text.now)) }
    {
        if !is_label(text) {
            return Err(TermFault::BadTerm);
        }
        match String::from_str(alloc, text) {
            Ok(text) => Ok(Label { text }),
            Err(_) => Err(TermFault::Memory),
        }
    }

    /// The label, without its `_:`.
    pub fn as_str(&self) -> &str
        ensures value { chars result.now ≡ self.now }
        ensures is_label { IsLabel self.now }
    {
        self.text.as_str()
    }

    /// The label, borrowed.
    pub fn view(&self) -> LabelView<'_>
        ensures { label_chars result ≡ self.now }
    {
        LabelView::new(self.as_str())
    }
}

impl<'a> LabelView<'a> {
    /// A copy that owns its text.
    pub fn try_copy<A: Allocator>(self, alloc: A) -> Result<Label<A>, AllocError>
        ensures { IfOk result (λ l. l ≡ label_chars self.entry) }
    {
        let text = String::from_str(alloc, self.as_str())?;
        Ok(Label { text })
    }
}

/// Whether the text is a BLANK_NODE_LABEL without its `_:`, of the line formats (N-Triples 7).
pub fn is_label(text: &str) -> bool
    ensures { (result ≡ true) ↔ IsLabel (chars text.now) }
{
    let mut rest = text.chars();
    match rest.next() {
        Some(c) => begins_label(c) && name_goes_on(rest, Dialect::Lines),
        None => false,
    }
}

#[tactic(auto, unfolding(crate::specs::Classes::has))]
fn begins_label(c: char) -> bool
    ensures { result ≡ begins_label c }
{
    is_pn_u(c, Dialect::Lines) || matches!(c, '0'..='9')
}

/// The label of a BLANK_NODE_LABEL. One of Turtle is one of the line formats too.
#[inline(always)]
pub fn label_of(text: &str) -> &str
    requires { (d : AnyDialect) × Shape d Kind.LabelNode (chars text.now) }
    ensures label { chars result.now ≡ drop 2 (chars text.now) }
    ensures is_label { IsLabel (chars result.now) }
    ensures short { length (encode_utf8_all (chars result.now)) ≤ 4 * length (chars text.now) }
{
    without_first(without_first(text))
}
