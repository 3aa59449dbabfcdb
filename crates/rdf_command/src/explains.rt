// What tells why it failed.

ghost use Rattle.std.specs.Prelude.{Option, option_map, string_bytes};
ghost use Rattle.clap.specs.Words.{Text};

use std::alloc::Global;

/// Tells why a call of it failed.
pub trait Explains {
    /// Asked why a call failed, it tells this, or nothing.
    ghost tells: { Self → Option Text → Type 0 };

    /// Why a call failed, as the system said it then; None where no call has failed, where nothing is known, or
    /// where memory is refused.
    fn reason(&self, alloc: Global) -> Option<String>
        ensures { tells self.now (option_map string_bytes result) };
}
