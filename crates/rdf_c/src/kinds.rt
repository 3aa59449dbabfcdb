// Kinds of tokens as bits.

ghost use Rattle.std.specs.Prelude.{◌≡◌};
ghost use Rattle.rdf_c.specs.Kinds.{HasBits, IsAlone, length_of};

use rdf_stream::{Details, Kinds, Near, Nearby, Sight};
use rdf_terms::Kind;

/// What is known of a token that was unexpected: sets of kinds, a bit for each kind, both 0 where no token was
/// unexpected; and of each refusal how much stands at its place.
#[repr(C)]
#[derive(Clone, Copy)]
pub struct Unexpected {
    /// Its kind alone.
    pub found: u64,
    /// The kinds of which a token could have stood in its place.
    pub expected: u64,
    /// How many bytes the token has that stands at the place of a refusal; where there is none, how many could
    /// begin one. 0 where that is not known.
    pub length: u64,
}

impl Unexpected {
    pub(crate) fn of(details: Details, near: &Nearby<Near>) -> Unexpected
        ensures bits { HasBits result details }
        ensures length { result.length ≡ length_of near.now }
    {
        let length = length_of(near);
        match details.found {
            Some(kind) => Unexpected {
                found: u64::from(alone(kind).bits()),
                expected: u64::from(details.expected.bits()),
                length,
            },
            None => Unexpected {
                found: 0,
                expected: 0,
                length,
            },
        }
    }
}

// How many bytes stand there.
fn length_of(near: &Nearby<Near>) -> u64
    ensures { result ≡ length_of near.now }
{
    match near {
        Nearby::Told(near) => match near.sight {
            Sight::Token(_, length) | Sight::Stop(length) => length,
            Sight::BadEscape(_) | Sight::Unknown => 0,
        },
        _ => 0,
    }
}

// The set of this kind alone.
fn alone(kind: Kind) -> Kinds
    ensures { IsAlone result kind }
{
    Kinds::none().with(kind)
}
