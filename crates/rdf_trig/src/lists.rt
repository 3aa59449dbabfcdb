// Turns in predicate lists and collections: verbs, and where they end.

ghost use Rattle.std.specs.Prelude.{◌≡◌, ◌-◌, ◌≤◌, length};
ghost use Rattle.rdf_tokens.specs.Leaves.{Leaf};
ghost use Rattle.rdf_trig.specs.declared.form.DocForm.{DocForm};
ghost use Rattle.rdf_trig.specs.declared.turn.Turn.TheVariants as Turn;
ghost use Rattle.rdf_trig.specs.Machine as M;
ghost use Rattle.rdf_trig.specs.States.{graph_of, graph_at, mode_at, up_in};
ghost use Rattle.rdf_trig.specs.Turns.{SuitsVerb, Takes, TurnFits, FramesTaken, StillFits};

use crate::rest::Rest;
use crate::state::{Around, Container, Mode, Ready, State};
use crate::turn::Verb;
use std::alloc::Allocator;
use std::mem;

impl<A: Allocator + Copy> State<A> {
    // A verb of a predicate list, whose subject is that of the frame in hand.
    pub fn verb(&mut self, around: Around, verb: Verb)
        requires suits { SuitsVerb verb self.old.name }
        ensures takes { (l : Leaf) → Takes self.old (Turn.Verb around verb) l self.new }
        ensures depth { self.new.depth ≡ self.old.depth }
        ensures stack { FramesTaken self.old (Turn.Verb around verb) self.new }
        ensures fits { TurnFits self.old self.new }
    {
        match verb {
            Verb::Name => mem::swap(&mut self.frame.verb, &mut self.name),
            Verb::Type => self.frame.verb.clear(),
        }
        self.frame.container = Container::List(around);
        self.stand(Mode::Want);
    }

    // The first verb in brackets, whose subject is the node of `[`.
    pub fn first_verb(&mut self, verb: Verb)
        requires suits { SuitsVerb verb self.old.name }
        ensures takes { (l : Leaf) → Takes self.old (Turn.FirstVerb verb) l self.new }
        ensures depth { self.new.depth ≡ self.old.depth }
        ensures stack { FramesTaken self.old (Turn.FirstVerb verb) self.new }
        ensures fits { TurnFits self.old self.new }
    {
        self.frame.subject.set_anon(self.bracket);
        self.verb(Around::PropertyList, verb);
    }

    // The `]` at the end of a predicate list.
    pub fn end_property_list(&mut self)
        ensures takes { (l : Leaf) → Takes self.old Turn.EndPropertyList l self.new }
        ensures depth { self.new.depth ≡ self.old.depth }
        ensures stack { FramesTaken self.old Turn.EndPropertyList self.new }
        ensures fits { TurnFits self.old self.new }
    {
        let mode = self.brackets_closed();
        self.stand(mode);
    }

    // The `)` after `(`.
    pub fn empty_collection(&mut self)
        ensures takes { (l : Leaf) → Takes self.old Turn.EmptyCollection l self.new }
        ensures depth { self.new.depth ≡ self.old.depth }
        ensures stack { FramesTaken self.old Turn.EmptyCollection self.new }
        ensures fits { TurnFits self.old self.new }
    {
        self.frame.subject.set_nil();
        let mode = self.collection_closed();
        self.stand(mode);
    }

    // The `)` after an item.
    pub fn end_collection(&mut self)
        ensures takes { (l : Leaf) → Takes self.old Turn.EndCollection l self.new }
        ensures depth { self.new.depth ≡ self.old.depth }
        ensures stack { FramesTaken self.old Turn.EndCollection self.new }
        ensures fits { TurnFits self.old self.new }
    {
        let (first, cell) = self.frame.container.cells();
        self.frame.subject.set_cell(first);
        self.mode = self.collection_closed();
        self.rest = Rest::none();
        self.ready = Ready::Nil(cell);
    }

    // The mode after a collection, whose first cell is the subject of the frame in hand.
    #[tactic(auto, using(crate::proofs::code::FrameStack::stack_steps, crate::proofs::code::HoldingLemmas::frames_popped))]
    fn collection_closed(&mut self) -> Mode
        ensures mode { (form : DocForm) →
            mode_at form self.new result ≡ M.collection_closed (up_in self.old) self.old.frame.subject }
        ensures graph { graph_at self.new result ≡ graph_of self.old.level self.old.graph }
        ensures same { self.new ≡ record self.old {
          frame = self.new.frame;
          frames = self.new.frames;
          spares = self.new.spares;
        } }
        ensures stack { length self.new.frames.items ≤ length self.old.frames.items - 1 }
        ensures fits { StillFits self.old self.new }
    {
        match self.frames.pop() {
            None => {
                self.frame.container = Container::none();
                Mode::WantVerb
            }
            Some(outer) => {
                self.spares.keep(mem::replace(&mut self.frame, outer));
                Mode::After
            }
        }
    }

    // The mode after a property list.
    #[tactic(auto, using(crate::proofs::code::FrameStack::stack_steps, crate::proofs::code::HoldingLemmas::frames_popped))]
    fn brackets_closed(&mut self) -> Mode
        ensures mode { (form : DocForm) →
            mode_at form self.new result ≡ M.property_list_closed (up_in self.old) self.old.frame.subject }
        ensures graph { graph_at self.new result ≡ graph_of self.old.level self.old.graph }
        ensures same { self.new ≡ record self.old {
          frame = self.new.frame;
          frames = self.new.frames;
          spares = self.new.spares;
        } }
        ensures stack { length self.new.frames.items ≤ length self.old.frames.items - 1 }
        ensures fits { StillFits self.old self.new }
    {
        match self.frames.pop() {
            None => {
                self.frame.container = Container::none();
                Mode::AfterPropertyList
            }
            Some(outer) => {
                self.spares.keep(mem::replace(&mut self.frame, outer));
                Mode::After
            }
        }
    }
}
