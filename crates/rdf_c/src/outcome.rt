// What a call answers.

ghost use Rattle.std.specs.Prelude.{◌≡◌};
ghost use Rattle.rdf_c.specs.Numbers.{number_of_binding_reason, number_of_reason, outcome_of_prefixes};
ghost use Rattle.rdf_c.specs.Numbers.{outcome_of_status};

use rdf_stream::{BindingFault, BindingReason};
use rdf_terms::Reason;

/// How a call ended: status 0 where the document is accepted, 1 where it is refused, 2 where the request is of no
/// job, 4 where memory was refused, 5 where the document is accepted and its lines are longer than the output, and
/// 6 where a line of the prefixes is refused. What does not belong to the status is 0.
#[repr(C)]
#[derive(Clone, Copy)]
pub struct Outcome {
    pub status: u64,
    /// Why the document, or the line of the prefixes, is refused.
    pub reason: u64,
    /// The byte where it is refused, from 0.
    pub offset: u64,
    /// The line of that byte, or that of the prefixes, from 1.
    pub line: u64,
    /// The quads of an accepted document.
    pub quads: u64,
    /// Its tokens.
    pub tokens: u64,
    /// Its bytes.
    pub bytes: u64,
    /// The bytes of the lines.
    pub needed: u64,
    /// How many of them stand at the front of the output.
    pub written: u64,
}

impl Outcome {
    /// A status alone.
    pub(crate) fn of_status(status: u64) -> Outcome
        ensures { result ≡ outcome_of_status status }
    {
        Outcome {
            status,
            reason: 0,
            offset: 0,
            line: 0,
            quads: 0,
            tokens: 0,
            bytes: 0,
            needed: 0,
            written: 0,
        }
    }

    /// A line of the prefixes is refused.
    pub(crate) fn of_prefixes(fault: BindingFault) -> Outcome
        ensures { result ≡ outcome_of_prefixes fault }
    {
        Outcome {
            reason: number_of_binding(fault.reason),
            line: fault.line,
            ..Outcome::of_status(6)
        }
    }
}

/// The number of a reason for which a line of the prefixes is refused.
fn number_of_binding(reason: BindingReason) -> u64
    ensures { result ≡ number_of_binding_reason reason }
{
    match reason {
        BindingReason::BadBinding => 16,
        BindingReason::TokenTooLong => 4,
        BindingReason::IriTooLong => 10,
        BindingReason::TooManyBindings => 15,
        BindingReason::Memory => 6,
    }
}

/// The number of a reason.
pub(crate) fn number_of(reason: Reason) -> u64
    ensures { result ≡ number_of_reason reason }
{
    match reason {
        Reason::BadUtf8 => 1,
        Reason::NoToken => 2,
        Reason::BadEscape => 3,
        Reason::TokenTooLong => 4,
        Reason::DocumentTooLong => 5,
        Reason::Memory => 6,
        Reason::Ended => 7,
        Reason::Unexpected => 8,
        Reason::RelativeIri => 9,
        Reason::IriTooLong => 10,
        Reason::Sink => 11,
        Reason::Unbound => 12,
        Reason::NoBase => 13,
        Reason::TooDeep => 14,
        Reason::TooManyBindings => 15,
    }
}
