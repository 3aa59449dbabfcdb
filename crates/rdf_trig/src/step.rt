// Where the reader stands and what a token does there, to be printed by whoever looks for a mistake.

ghost use Rattle.std.specs.Prelude.{◌≡◌, is_some};
ghost use Rattle.rdf_trig.specs.Turns.{Decides};

use crate::form::DocForm;
use crate::state::{Level, Mode, Ready, State};
use crate::turn::Turn;
use rdf_terms::Kind;
use std::alloc::Allocator;
use std::marker::Model;

/// Where the reader stands, and what a token of one kind does there: None, where no document has one. It is made to
/// be printed with `{:?}`.
#[derive(Debug, Drop)]
pub struct Step {
    level: Level,
    mode: Mode,
    ready: Ready,
    turn: Option<Turn>,
}

impl Model for Step {
    ghost use Rattle.rdf_trig.specs.Turns.{StepAt};

    ghost Value = { StepAt };

    ghost view = { λ s. record { level = s.level; mode = s.mode; ready = s.ready; turn = s.turn } };
}

impl Step {
    /// Whether some document has a token of the kind there.
    pub fn may_come(&self) -> bool
        ensures { result ≡ is_some self.now.turn }
    {
        self.turn.is_some()
    }
}

impl<A: Allocator> State<A> {
    /// What a token of this kind does here by the grammar, whatever it spells.
    pub fn step(&self, form: DocForm, kind: Kind) -> Step
        ensures level { result.level ≡ self.now.level }
        ensures mode { result.mode ≡ self.now.mode }
        ensures ready { result.ready ≡ self.now.ready }
        ensures turn { Decides form self.now self.now.mode kind result.turn }
    {
        Step {
            level: self.level,
            mode: self.mode,
            ready: self.ready,
            turn: self.turn(form, kind),
        }
    }
}
