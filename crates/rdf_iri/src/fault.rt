// Why a reference or a name has no IRI.

use std::alloc::{AllocError, AllocFailed};

/// Why a call on references was refused.
#[derive(Clone, Copy, Debug, PartialEq, Eq)]
pub enum IriFault {
    /// The reference has no scheme, and there is no base.
    NoBase,
    /// The IRI has more bytes than the limit.
    IriTooLong,
    /// A growth of memory was refused.
    Memory,
    /// The prefix is not bound.
    Unbound,
    /// The prefix is new, and as many are bound as may be.
    TooManyBindings,
}

impl From<AllocError> for IriFault {
    ghost use Rattle.std.specs.Prelude.{◌≡◌};
    ghost use Rattle.rdf_iri.specs.declared.fault.IriFault.TheVariants.{Memory};

    ghost from_gives = { λ _ e. e ≡ Memory };

    fn from(_error: AllocError) -> IriFault {
        IriFault::Memory
    }
}

impl<T: Drop> From<AllocFailed<T>> for IriFault {
    ghost use Rattle.std.specs.Prelude.{◌≡◌};
    ghost use Rattle.rdf_iri.specs.declared.fault.IriFault.TheVariants.{Memory};

    ghost from_gives = { λ _ e. e ≡ Memory };

    fn from(_error: AllocFailed<T>) -> IriFault {
        IriFault::Memory
    }
}

/// Why a line of a file of bindings was refused.
#[derive(Clone, Copy, Debug, PartialEq, Eq)]
pub enum BindingReason {
    /// The line is neither empty nor a binding, or it is not UTF-8.
    BadBinding,
    /// The prefix with its colon has more characters than a token may have.
    TokenTooLong,
    /// The IRI has more bytes than the limit.
    IriTooLong,
    /// The prefix is new, and as many are bound as may be.
    TooManyBindings,
    /// A growth of memory was refused.
    Memory,
}

/// Why a file of bindings was not read, and at which line, counted from 1. After want of memory the line is any.
#[derive(Clone, Copy, Debug, PartialEq, Eq)]
pub struct BindingFault {
    /// What is wrong with the line.
    pub reason: BindingReason,
    /// The line.
    pub line: u64,
}
