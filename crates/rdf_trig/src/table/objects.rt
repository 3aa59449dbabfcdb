// What may stand where an object does, and after it.

ghost use Rattle.std.specs.Prelude.{ℕ, ◌≤◌, List, None, Option, IfSome};
ghost use Rattle.rdf_trig.specs.Machine as M;
ghost use Rattle.rdf_trig.specs.States.{IsNamed, text_in};
ghost use Rattle.rdf_trig.specs.States.{up_in, item_in};
ghost use Rattle.rdf_trig.specs.Holding.{frames_most};
ghost use Rattle.rdf_trig.specs.Turns.{BeginsObject, SuitsObject, frames_begun};
ghost use Rattle.rdf_trig.specs.Turns.{MeansHere, IsSuited, KeepsFrames};

use crate::state::{Container, State};
use crate::turn::{ObjectStart, Turn};
use rdf_terms::{Kind, Known};
use std::alloc::Allocator;

impl<A: Allocator> State<A> {
    #[inline(always)]
    pub fn want_object(&self, kind: Kind) -> Option<Turn>
        ensures means { MeansHere self.now kind result (λ c p. M.object_start c p None kind) }
        ensures suits { IfSome result (IsSuited kind) }
        ensures frames { IfSome result (KeepsFrames kind) }
    {
        Some(Turn::Object(object_start(kind)?))
    }

    #[inline(always)]
    pub fn after_object(&self, kind: Kind) -> Option<Turn>
        ensures means { MeansHere self.now kind result (λ c p. M.after c p kind) }
        ensures suits { IfSome result (IsSuited kind) }
        ensures frames { IfSome result (KeepsFrames kind) }
    {
        match self.frame.container {
            Container::List(around) => self.after_listed(around, kind),
            Container::Cells { .. } => self.after_item(kind),
        }
    }

    #[tactic(auto, using(crate::proofs::machine::Fallbacks::fallbacks))]
    #[inline(always)]
    fn after_item(&self, kind: Kind) -> Option<Turn>
        ensures means { MeansHere self.now kind result (λ c p. M.after c (item_in self.now) kind) }
        ensures suits { IfSome result (IsSuited kind) }
        ensures frames { IfSome result (KeepsFrames kind) }
    {
        match kind {
            Kind::CloseParen => Some(Turn::EndCollection),
            _ => Some(Turn::NextItem(object_start(kind)?)),
        }
    }

    #[tactic(auto, using(crate::proofs::machine::Fallbacks::fallbacks))]
    #[inline(always)]
    pub fn collection_start(&self, kind: Kind) -> Option<Turn>
        ensures means { MeansHere self.now kind result (λ c p. M.collection_start c (up_in self.now) kind) }
        ensures suits { IfSome result (IsSuited kind) }
        ensures frames { IfSome result (KeepsFrames kind) }
    {
        match kind {
            Kind::CloseParen => Some(Turn::EmptyCollection),
            _ => Some(Turn::FirstItem(object_start(kind)?)),
        }
    }

    #[inline(always)]
    pub fn after_text(&self, kind: Kind) -> Option<Turn>
        ensures means { MeansHere self.now kind result (λ c p. M.after_text c (text_in self.now) p kind) }
        ensures suits { IfSome result (IsSuited kind) }
        ensures frames { IfSome result (KeepsFrames kind) }
    {
        match kind {
            Kind::LangTag | Kind::AtBase | Kind::AtPrefix => Some(Turn::Tag),
            Kind::Carets => Some(Turn::DatatypeMark),
            _ => self.after_object(kind),
        }
    }

    #[inline(always)]
    pub fn want_type(&self, kind: Kind) -> Option<Turn>
        ensures means { MeansHere self.now kind result (λ c p. M.want_type c (text_in self.now) p kind) }
        ensures suits { IfSome result (IsSuited kind) }
        ensures frames { IfSome result (KeepsFrames kind) }
    {
        match kind {
            Kind::IriRef | Kind::PnameNs | Kind::PnameLn => Some(Turn::Datatype),
            _ => None,
        }
    }
}

#[inline(always)]
fn object_start(kind: Kind) -> Option<ObjectStart>
    ensures means { BeginsObject kind result }
    ensures suits { IfSome result (λ b. (i : Option (List ℕ)) → IsNamed kind i → SuitsObject b kind i) }
    ensures frames { IfSome result (λ b. (m : ℕ) → frames_begun b m ≤ frames_most kind m) }
{
    match kind {
        Kind::IriRef | Kind::PnameNs | Kind::PnameLn => Some(ObjectStart::Name),
        Kind::LabelNode => Some(ObjectStart::Label),
        Kind::ShortString => Some(ObjectStart::ShortString),
        Kind::LongString => Some(ObjectStart::LongString),
        Kind::Integer => Some(ObjectStart::Number(Known::XsdInteger)),
        Kind::Decimal => Some(ObjectStart::Number(Known::XsdDecimal)),
        Kind::Double => Some(ObjectStart::Number(Known::XsdDouble)),
        Kind::True => Some(ObjectStart::True),
        Kind::False => Some(ObjectStart::False),
        Kind::OpenBracket => Some(ObjectStart::Brackets),
        Kind::OpenParen => Some(ObjectStart::Collection),
        _ => None,
    }
}
