// Why a document is refused, or why reading stopped.

use std::alloc::AllocError;

/// Why reading stopped.
#[derive(Clone, Copy, PartialEq, Eq, Debug)]
pub enum Reason {
    /// The bytes here are no UTF-8, and the token before them is not decided.
    BadUtf8,
    /// No token begins here.
    NoToken,
    /// The token has an escape that stands for no character allowed there.
    BadEscape,
    /// The token has more characters than the limit.
    TokenTooLong,
    /// More than 2^63 - 1 bytes came.
    DocumentTooLong,
    /// A growth of memory was refused.
    Memory,
    /// The value has reported a fault before, or has come to its end.
    Ended,
    /// No document has this token here.
    Unexpected,
    /// The IRI has no scheme.
    RelativeIri,
    /// The IRI has more bytes than the limit.
    IriTooLong,
    /// The sink failed.
    Sink,
    /// The prefix of the name is not bound.
    Unbound,
    /// The reference has no scheme, and no base is in force.
    NoBase,
    /// The bracket is one more than may be open.
    TooDeep,
    /// The directive would bind one prefix more than may be bound.
    TooManyBindings,
}

impl From<AllocError> for Reason {
    ghost use Rattle.std.specs.Prelude.{◌≡◌};
    ghost use Rattle.rdf_terms.specs.declared.reason.Reason.TheVariants.{Memory};

    ghost from_gives = { λ _ e. e ≡ Memory };

    fn from(_error: AllocError) -> Reason {
        Reason::Memory
    }
}
