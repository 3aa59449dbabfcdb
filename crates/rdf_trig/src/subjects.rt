// Turns where a subject stands.

ghost use Rattle.std.specs.Prelude.{◌≡◌, ◌-◌, ◌≤◌, [], length, OnOk, IfErr};
ghost use Rattle.rdf_tokens.specs.Leaves.{Leaf};
ghost use Rattle.rdf_trig.specs.declared.form.DocForm.{DocForm};
ghost use Rattle.rdf_trig.specs.declared.turn.Turn.TheVariants as Turn;
ghost use Rattle.rdf_trig.specs.Machine as M;
ghost use Rattle.rdf_trig.specs.States.{leaf, IsTurtleToken, graph_of, graph_at, mode_at, up_in};
ghost use Rattle.rdf_trig.specs.Turns.{SuitsSubject, Takes, TakesFit, TurnFits, FramesTaken, StillFits};

use crate::fault::StepFault;
use crate::state::{Level, Mode, State};
use crate::turn::SubjectStart;
use rdf_terms::label_of;
use rdf_tokens::Token;
use std::alloc::Allocator;
use std::mem;

impl<A: Allocator + Copy> State<A> {
    // A subject begins.
    #[inline(always)]
    pub fn subject(
        &mut self,
        level: Level,
        start: SubjectStart,
        token: &Token<'_>,
    ) -> Result<(), StepFault>
        requires token { IsTurtleToken token.now }
        requires suits { SuitsSubject start token.now.kind self.old.name }
        ensures takes { OnOk result (Takes self.old (Turn.Subject level start) (leaf token.now) self.new) }
        ensures depth { self.new.depth ≡ self.old.depth }
        ensures stack { OnOk result (FramesTaken self.old (Turn.Subject level start) self.new) }
        ensures fits { OnOk result (TakesFit self.old token.now self.new) }
        ensures err { IfErr result (λ r. r ≡ StepFault.Memory) }
    {
        self.begin(level);
        match start {
            SubjectStart::Name => {
                self.frame.subject.take(&mut self.name);
                self.stand(Mode::AfterSubject);
            }
            SubjectStart::Label => {
                self.frame.subject.set_label(label_of(token.text))?;
                self.stand(Mode::AfterSubject);
            }
            SubjectStart::Brackets => {
                self.bracket = token.offset;
                self.stand(Mode::PropertyListStart);
            }
            SubjectStart::Collection => self.stand(Mode::CollectionStart),
        }
        Ok(())
    }

    // A statement begins.
    #[inline(always)]
    pub fn begin(&mut self, level: Level)
        ensures same { self.new ≡ record self.old { level = level; frames = self.new.frames } }
        ensures frames { self.new.frames.items ≡ [] }
        ensures fits { StillFits self.old self.new }
    {
        self.level = level;
        self.frames.clear();
    }

    // The `]` after `[`.
    pub fn end_node(&mut self)
        ensures takes { (l : Leaf) → Takes self.old Turn.EndNode l self.new }
        ensures depth { self.new.depth ≡ self.old.depth }
        ensures stack { FramesTaken self.old Turn.EndNode self.new }
        ensures fits { TurnFits self.old self.new }
    {
        self.frame.subject.set_anon(self.bracket);
        let mode = self.node_closed();
        self.stand(mode);
    }

    // The mode after a node, which is the subject of the frame in hand.
    #[tactic(auto, using(crate::proofs::code::FrameStack::stack_steps, crate::proofs::code::HoldingLemmas::frames_popped))]
    fn node_closed(&mut self) -> Mode
        ensures mode { (form : DocForm) →
            mode_at form self.new result ≡ M.node_closed form (up_in self.old) self.old.frame.subject }
        ensures graph { graph_at self.new result ≡ graph_of self.old.level self.old.graph }
        ensures same { self.new ≡ record self.old {
          frame = self.new.frame;
          frames = self.new.frames;
          spares = self.new.spares;
        } }
        ensures stack { length self.new.frames.items ≤ length self.old.frames.items - 1 }
        ensures fits { StillFits self.old self.new }
    {
        match self.frames.pop() {
            None => Mode::AfterSubject,
            Some(outer) => {
                self.spares.keep(mem::replace(&mut self.frame, outer));
                Mode::After
            }
        }
    }
}
