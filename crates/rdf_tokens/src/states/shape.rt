// What a loop over the characters of a token asks of its states.

ghost use Rattle.std.specs.Prelude.{◌≡◌, ◌≤◌, length};
ghost use Rattle.rdf_tokens.specs.Front.{Rests};
ghost use Rattle.rdf_tokens.specs.Machine.{step, kind_at, goes_on};
ghost use Rattle.rdf_tokens.specs.declared.states.machine.State.{State};

use crate::states::machine::State;
use rdf_terms::{Dialect, Kind};

/// The states of one family, or of all.
pub(crate) trait Shape: Copy {
    /// The same state among those of all families.
    ghost whole: { Self → State };

    /// That state, to keep it.
    fn to_state(self) -> State
        ensures { result ≡ whole self };

    /// The state after one more character.
    fn step(self, dialect: Dialect, c: char) -> Self
        ensures { whole result ≡ step dialect (whole self) c };

    /// The kind of what has come, where it is whole.
    fn kind(self) -> Option<Kind>
        ensures { result ≡ kind_at (whole self) };

    /// Whether something longer begins so.
    fn is_live(self, dialect: Dialect) -> bool
        ensures { result ≡ goes_on dialect (whole self) };

    /// The place after the bytes from a place on that lead back to the state, as far as they are looked for.
    fn rest_end(self, text: &str, from: usize) -> usize
        requires { from ≤ length text.now }
        ensures { Rests (whole self) text.now from result };
}
