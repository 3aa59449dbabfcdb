// Turns where an object stands, and the parts of a literal.

ghost use Rattle.std.specs.Prelude.{◌≡◌, ◌+◌, ◌*◌, ◌≤◌, [], true, length, is_some, OnOk, IfErr, codes};
ghost use Rattle.std.specs.Str.{chars};
ghost use Rattle.std.specs.String.{string_bytes};
ghost use Rattle.rdf_tokens.specs.Leaves.{Leaf};
ghost use Rattle.rdf_trig.specs.declared.turn.Turn.TheVariants as Turn;
ghost use Rattle.rdf_trig.specs.Machine as M;
ghost use Rattle.rdf_trig.specs.Spelled.{SpellsTag};
ghost use Rattle.rdf_trig.specs.States.{leaf, IsTurtleToken, text_in, place_of, up_of};
ghost use Rattle.rdf_trig.specs.Holding.{text_bytes};
ghost use Rattle.rdf_trig.specs.Turns.{SuitsObject, frames_begun, Begins, Takes, TakesFit, TurnFits, StillFits};
ghost use Rattle.rdf_trig.specs.Turns.{FramesTaken};

use crate::fault::StepFault;
use crate::rest::Rest;
use crate::spelled::{set_long_string, tag_of};
use crate::state::{Container, Mode, Ready, State};
use crate::turn::ObjectStart;
use rdf_terms::{Known, label_of, put_string, put_text};
use rdf_tokens::Token;
use std::alloc::Allocator;
use std::mem;

impl<A: Allocator + Copy> State<A> {
    // An object begins.
    #[tactic(auto, using(crate::proofs::code::FrameStack::stack_steps))]
    #[inline(always)]
    pub fn object(
        &mut self,
        rest: Rest,
        start: ObjectStart,
        token: &Token<'_>,
    ) -> Result<(), StepFault>
        requires token { IsTurtleToken token.now }
        requires suits { SuitsObject start token.now.kind self.old.name }
        ensures takes { OnOk result (Begins self.old rest start (leaf token.now) self.new) }
        ensures depth { self.new.depth ≡ self.old.depth }
        ensures stack { OnOk result (length self.new.frames.items ≤ frames_begun start (length self.old.frames.items)) }
        ensures fits { OnOk result (TakesFit self.old token.now self.new) }
        ensures err { IfErr result (λ r. r ≡ StepFault.Memory) }
    {
        match start {
            ObjectStart::Name => {
                self.object.take(&mut self.name);
                self.hold_object(rest);
            }
            ObjectStart::Label => {
                self.object.set_label(label_of(token.text))?;
                self.hold_object(rest);
            }
            ObjectStart::ShortString => {
                self.object.set_nil();
                put_string(&mut self.text, token.text)?;
                self.wait(rest, Mode::AfterText);
            }
            ObjectStart::LongString => {
                self.object.set_nil();
                set_long_string(&mut self.text, token.text)?;
                self.wait(rest, Mode::AfterText);
            }
            ObjectStart::Number(datatype) => self.known_literal(rest, token.text, datatype)?,
            ObjectStart::True => self.known_literal(rest, true_word(), Known::XsdBoolean)?,
            ObjectStart::False => self.known_literal(rest, false_word(), Known::XsdBoolean)?,
            ObjectStart::Brackets => {
                self.open()?;
                self.object.set_anon(token.offset);
                self.hold_object(rest);
                self.mode = Mode::PropertyListStart;
                self.bracket = token.offset;
            }
            ObjectStart::Collection => {
                self.open()?;
                self.wait(rest, Mode::CollectionStart);
            }
        }
        Ok(())
    }

    // The first item of a collection.
    #[inline(always)]
    pub fn first_item(&mut self, start: ObjectStart, token: &Token<'_>) -> Result<(), StepFault>
        requires token { IsTurtleToken token.now }
        requires suits { SuitsObject start token.now.kind self.old.name }
        ensures takes { OnOk result (Takes self.old (Turn.FirstItem start) (leaf token.now) self.new) }
        ensures depth { self.new.depth ≡ self.old.depth }
        ensures stack { OnOk result (FramesTaken self.old (Turn.FirstItem start) self.new) }
        ensures fits { OnOk result (TakesFit self.old token.now self.new) }
        ensures err { IfErr result (λ r. r ≡ StepFault.Memory) }
    {
        let cell = token.offset;
        self.frame.container = Container::Cells { first: cell, cell };
        self.object(Rest::none(), start, token)
    }

    // The next item of a collection.
    #[inline(always)]
    pub fn next_item(&mut self, start: ObjectStart, token: &Token<'_>) -> Result<(), StepFault>
        requires token { IsTurtleToken token.now }
        requires suits { SuitsObject start token.now.kind self.old.name }
        ensures takes { OnOk result (Takes self.old (Turn.NextItem start) (leaf token.now) self.new) }
        ensures depth { self.new.depth ≡ self.old.depth }
        ensures stack { OnOk result (FramesTaken self.old (Turn.NextItem start) self.new) }
        ensures fits { OnOk result (TakesFit self.old token.now self.new) }
        ensures err { IfErr result (λ r. r ≡ StepFault.Memory) }
    {
        let (first, cell) = self.frame.container.cells();
        let next = token.offset;
        self.frame.container = Container::Cells { first, cell: next };
        self.object(Rest::of(cell, next), start, token)
    }

    // A bracket opens in the frame in hand.
    #[tactic(auto, using(crate::proofs::code::FrameStack::stack_steps, crate::proofs::code::HoldingLemmas::frames_pushed))]
    fn open(&mut self) -> Result<(), StepFault>
        ensures up { OnOk result ((v : M.Level) →
            up_of v self.new.frames.items ≡ M.At (place_of v self.old.frame (up_of v self.old.frames.items))) }
        ensures same { OnOk result (self.new ≡ record self.old {
          frame = self.new.frame;
          frames = self.new.frames;
          spares = self.new.spares;
        }) }
        ensures depth { self.new.depth ≡ self.old.depth }
        ensures stack { OnOk result (length self.new.frames.items ≡ length self.old.frames.items + 1) }
        ensures fits { OnOk result (StillFits self.old self.new) }
        ensures err { IfErr result (λ r. r ≡ StepFault.Memory) }
    {
        let fresh = self.spares.take(self.alloc)?;
        self.frames.push(mem::replace(&mut self.frame, fresh))?;
        Ok(())
    }

    // The tag of a string.
    #[inline(always)]
    pub fn take_tag(&mut self, token: &Token<'_>) -> Result<(), StepFault>
        requires token { IsTurtleToken token.now }
        requires tag { SpellsTag token.now.kind }
        ensures takes { OnOk result (Takes self.old Turn.Tag (leaf token.now) self.new) }
        ensures depth { self.new.depth ≡ self.old.depth }
        ensures stack { OnOk result (FramesTaken self.old Turn.Tag self.new) }
        ensures fits { OnOk result (TakesFit self.old token.now self.new) }
        ensures err { IfErr result (λ r. r ≡ StepFault.Memory) }
    {
        self.datatype.clear();
        self.tag.set(tag_of(token))?;
        self.end_object(Rest::none(), Ready::WithTag);
        Ok(())
    }

    // The datatype of a string.
    pub fn take_datatype(&mut self)
        requires named { is_some self.old.name ≡ true }
        ensures takes { (l : Leaf) → Takes self.old Turn.Datatype l self.new }
        ensures depth { self.new.depth ≡ self.old.depth }
        ensures stack { FramesTaken self.old Turn.Datatype self.new }
        ensures fits { TurnFits self.old self.new }
    {
        self.tag.clear();
        mem::swap(&mut self.datatype, &mut self.name);
        self.end_object(Rest::none(), Ready::WithType);
    }

    // A number or a boolean.
    #[inline(always)]
    fn known_literal(&mut self, rest: Rest, lexical: &str, datatype: Known) -> Result<(), StepFault>
        ensures ok { OnOk result (self.new ≡ record self.old {
          object = self.new.object;
          text = self.new.text;
          rest = rest;
          ready = Ready.OfKnown datatype;
          mode = Mode.After;
        }) }
        ensures object { OnOk result (self.new.object.size ≡ 0) }
        ensures text { OnOk result (text_in self.new ≡ chars lexical.now) }
        ensures fits { OnOk result (text_bytes self.new ≤ 4 * length (chars lexical.now)) }
        ensures depth { self.new.depth ≡ self.old.depth }
        ensures err { IfErr result (λ r. r ≡ StepFault.Memory) }
    {
        self.object.set_nil();
        put_text(&mut self.text, lexical)?;
        self.end_object(rest, Ready::OfKnown(datatype));
        Ok(())
    }

    // The reader stands after an IRI or a node, whose quad is ready. The text is in no use, and emptied.
    #[inline(always)]
    fn hold_object(&mut self, rest: Rest)
        ensures same { self.new ≡ record self.old {
          text = self.new.text;
          rest = rest;
          ready = Ready.Resource;
          mode = Mode.After;
        } }
        ensures text { string_bytes self.new.text ≡ [] }
    {
        self.text.clear();
        self.end_object(rest, Ready::Resource);
    }

    // The reader stands after an object, whose quad is ready.
    #[inline(always)]
    fn end_object(&mut self, rest: Rest, ready: Ready)
        ensures { self.new ≡ record self.old { rest = rest; ready = ready; mode = Mode.After } }
    {
        self.rest = rest;
        self.ready = ready;
        self.mode = Mode::After;
    }
}

fn true_word() -> &'static str
    ensures { chars result.now ≡ codes "true" }
{
    "true"
}

fn false_word() -> &'static str
    ensures { chars result.now ≡ codes "false" }
{
    "false"
}
