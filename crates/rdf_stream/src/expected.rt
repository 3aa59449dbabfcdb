// What is known of a token that was unexpected.

ghost use Rattle.rdf_stream.specs.Expected.{NoDetails};
ghost use Rattle.rdf_stream.specs.ExpectedRuns.{Asks};

use crate::fault::StreamFault;
use crate::passes::Passes;
use rdf_driver::{Kinds, Reader, Summary};
use rdf_terms::{Kind, Reason};
use std::alloc::Allocator;

/// What is known of a token that was unexpected.
#[derive(Clone, Copy)]
pub struct Details {
    /// The kinds of which a token could have stood in its place.
    pub expected: Kinds,
    /// Its kind.
    pub found: Option<Kind>,
}

impl Details {
    /// No kind could have stood there, and none was found.
    pub fn none() -> Details
        ensures { NoDetails result }
    {
        Details {
            expected: Kinds::none(),
            found: None,
        }
    }
}

/// The kinds that could have come next, and the kind that came, as the reader that a run has left says, where it ended
/// at an unexpected token. Else none.
pub(crate) fn details_beside<A: Allocator + Copy, G: Passes<A>>(
    reader: &Reader<G, A>,
    outcome: &Result<Summary, StreamFault>,
) -> Details
    ensures { Asks G.words G.trees reader.now outcome.now result }
{
    match outcome {
        Err(StreamFault::Refused(fault)) => match fault.reason {
            Reason::Unexpected => Details {
                expected: reader.expected(),
                found: reader.found(),
            },
            _ => Details::none(),
        },
        _ => Details::none(),
    }
}
