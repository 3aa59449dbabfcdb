// Why a run stopped.

ghost use Rattle.std.specs.Prelude.{◌≡◌};
ghost use Rattle.rdf_stream.specs.RunFaults.{fault_by};
ghost use Rattle.rdf_stream.specs.LoadFaults.{load_fault};
ghost use Rattle.rdf_stream.specs.declared.fault.StreamFault.TheVariants.{Memory};

use rdf_iri::{BindingFault, BindingReason};
use rdf_terms::Reason;
use rdf_tokens::Fault;
use std::alloc::AllocError;
use thiserror::Error;

/// Why a run stopped before it had written all.
#[derive(Debug, Drop, Error)]
pub enum StreamFault {
    /// The document is refused. A run never reports the reasons `Memory`, `Ended` and `Sink` in this way.
    #[error("refused at byte {}, line {}", .0.offset, .0.line)]
    Refused(Fault),
    /// The source failed.
    #[error("read failed")]
    Read,
    /// The drain failed.
    #[error("write failed")]
    Write,
    /// A growth of memory was refused.
    #[error("out of memory")]
    Memory,
}

impl From<AllocError> for StreamFault {
    ghost from_gives = { λ _ fault. fault ≡ Memory };

    fn from(_: AllocError) -> StreamFault {
        StreamFault::Memory
    }
}

/// A fault of a reader whose sink has the run's drain. Its `Memory` is the run's, and its `Sink` the drain's failure.
impl From<Fault> for StreamFault {
    ghost from_gives = { λ fault reported. reported ≡ fault_by fault.reason fault };

    fn from(fault: Fault) -> StreamFault {
        match fault.reason {
            Reason::Memory => StreamFault::Memory,
            Reason::Sink => StreamFault::Write,
            _ => StreamFault::Refused(fault),
        }
    }
}

/// Why a file of bindings was not loaded.
#[derive(Debug, Drop, Error)]
pub enum LoadFault {
    /// A line of the file is refused. A load never reports the reason `Memory` in this way.
    #[error("refused at line {}", .0.line)]
    Bad(BindingFault),
    /// The source failed.
    #[error("read failed")]
    Read,
    /// A growth of memory was refused.
    #[error("out of memory")]
    Memory,
}

impl From<AllocError> for LoadFault {
    ghost use Rattle.rdf_stream.specs.declared.fault.LoadFault.{LoadFault};

    ghost from_gives = { λ _ fault. fault ≡ LoadFault.Memory };

    fn from(_: AllocError) -> LoadFault {
        LoadFault::Memory
    }
}

impl From<BindingFault> for LoadFault {
    ghost from_gives = { λ fault reported. reported ≡ load_fault fault.reason fault };

    fn from(fault: BindingFault) -> LoadFault {
        match fault.reason {
            BindingReason::Memory => LoadFault::Memory,
            _ => LoadFault::Bad(fault),
        }
    }
}
