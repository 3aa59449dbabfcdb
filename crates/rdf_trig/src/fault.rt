// Why a token is not accepted.

use rdf_iri::IriFault;
use std::alloc::{AllocError, AllocFailed};

/// Why a token was not accepted.
#[derive(Clone, Copy, PartialEq, Eq, Debug)]
pub enum StepFault {
    /// No document has this token here.
    Unexpected,
    /// One bracket more than may be open.
    TooDeep,
    /// The prefix is not bound.
    Unbound,
    /// The reference has no scheme, and there is no base.
    NoBase,
    /// The IRI has more bytes than the limit.
    IriTooLong,
    /// The prefix is new, and as many are bound as may be.
    TooManyBindings,
    /// A growth of memory was refused.
    Memory,
    /// The sink failed.
    Sink,
}

impl From<AllocError> for StepFault {
    ghost use Rattle.std.specs.Prelude.{◌≡◌};
    ghost use Rattle.rdf_trig.specs.declared.fault.StepFault.TheVariants.{Memory};

    ghost from_gives = { λ _ e. e ≡ Memory };

    fn from(_error: AllocError) -> StepFault {
        StepFault::Memory
    }
}

impl<T: Drop> From<AllocFailed<T>> for StepFault {
    ghost use Rattle.std.specs.Prelude.{◌≡◌};
    ghost use Rattle.rdf_trig.specs.declared.fault.StepFault.TheVariants.{Memory};

    ghost from_gives = { λ _ e. e ≡ Memory };

    fn from(_error: AllocFailed<T>) -> StepFault {
        StepFault::Memory
    }
}

impl From<IriFault> for StepFault {
    ghost use Rattle.std.specs.Prelude.{◌≡◌};
    ghost use Rattle.rdf_trig.specs.Scopes.{step_fault};

    ghost from_gives = { λ f e. e ≡ step_fault f };

    fn from(fault: IriFault) -> StepFault {
        match fault {
            IriFault::NoBase => StepFault::NoBase,
            IriFault::IriTooLong => StepFault::IriTooLong,
            IriFault::Memory => StepFault::Memory,
            IriFault::Unbound => StepFault::Unbound,
            IriFault::TooManyBindings => StepFault::TooManyBindings,
        }
    }
}
