// The states of references in angle brackets (IRIREF).

ghost use Rattle.std.specs.Prelude.{◌≡◌, ◌<◌};
ghost use Rattle.rdf_tokens.specs.Sorts.{sort_by};
ghost use Rattle.rdf_tokens.specs.Iri.{ascii, high, move};
ghost use Rattle.rdf_tokens.specs.declared.states.machine.State.TheVariants as state;

use crate::escapes::iri_end;
use crate::states::machine::State;
use crate::states::shape::Shape;
use Sort::{Backslash, BigU, CloseAngle, Excluded, HexDigit, OpenAngle, Plain, SmallU};
use rdf_terms::{Dialect, Kind};

/// What the shape of a reference can tell of a character.
#[derive(Clone, Copy)]
pub(crate) enum Sort {
    OpenAngle,
    CloseAngle,
    Backslash,
    SmallU,
    BigU,
    HexDigit,
    Plain,
    Excluded,
}

/// How far a reference has come.
#[derive(Clone, Copy)]
pub(crate) enum Iri {
    Start,
    Inside,
    /// After the backslash of an escape.
    Escape,
    /// So many hex digits come after the next.
    Hex(u8),
    Whole,
    /// No reference begins so.
    Dead,
}

/// The sorts of ASCII, from byte 0 on.
static SORTS: [Sort; 128] = [
    Excluded, Excluded, Excluded, Excluded, Excluded, Excluded, Excluded, Excluded, Excluded,
    Excluded, Excluded, Excluded, Excluded, Excluded, Excluded, Excluded, Excluded, Excluded,
    Excluded, Excluded, Excluded, Excluded, Excluded, Excluded, Excluded, Excluded, Excluded,
    Excluded, Excluded, Excluded, Excluded, Excluded, Excluded, Plain, Excluded, Plain, Plain,
    Plain, Plain, Plain, Plain, Plain, Plain, Plain, Plain, Plain, Plain, Plain, HexDigit,
    HexDigit, HexDigit, HexDigit, HexDigit, HexDigit, HexDigit, HexDigit, HexDigit, HexDigit,
    Plain, Plain, OpenAngle, Plain, CloseAngle, Plain, Plain, HexDigit, HexDigit, HexDigit,
    HexDigit, HexDigit, HexDigit, Plain, Plain, Plain, Plain, Plain, Plain, Plain, Plain, Plain,
    Plain, Plain, Plain, Plain, Plain, BigU, Plain, Plain, Plain, Plain, Plain, Plain, Backslash,
    Plain, Excluded, Plain, Excluded, HexDigit, HexDigit, HexDigit, HexDigit, HexDigit, HexDigit,
    Plain, Plain, Plain, Plain, Plain, Plain, Plain, Plain, Plain, Plain, Plain, Plain, Plain,
    Plain, SmallU, Plain, Plain, Plain, Plain, Plain, Excluded, Excluded, Excluded, Plain, Plain,
];

#[inline(always)]
fn sort_of_ascii(byte: u8) -> Sort
    requires { byte < 128 }
    ensures { result ≡ ascii byte }
{
    SORTS[byte as usize]
}

fn sort_of(c: char) -> Sort
    ensures { result ≡ sort_by ascii high c }
{
    let code = c as u32;
    if code < 128 {
        sort_of_ascii(code as u8)
    } else {
        Sort::Plain
    }
}

impl Iri {
    /// The state after one more character, by the character's sort.
    #[inline(always)]
    fn after(self, sort: Sort) -> Iri
        ensures { result ≡ move self sort }
    {
        match (self, sort) {
            (Iri::Start, Sort::OpenAngle) => Iri::Inside,
            (Iri::Inside, Sort::CloseAngle) => Iri::Whole,
            (Iri::Inside, Sort::Backslash) => Iri::Escape,
            (Iri::Inside, Sort::OpenAngle | Sort::Excluded) => Iri::Dead,
            (Iri::Inside, _) => Iri::Inside,
            (Iri::Escape, Sort::SmallU) => Iri::Hex(3),
            (Iri::Escape, Sort::BigU) => Iri::Hex(7),
            (Iri::Hex(0), Sort::HexDigit) => Iri::Inside,
            (Iri::Hex(n), Sort::HexDigit) => Iri::Hex(n - 1),
            _ => Iri::Dead,
        }
    }
}

impl Shape for Iri {
    ghost whole = { state.Iri };

    #[inline(always)]
    fn to_state(self) -> State {
        State::Iri(self)
    }

    #[inline(always)]
    fn step(self, _dialect: Dialect, c: char) -> Iri {
        self.after(sort_of(c))
    }

    #[inline(always)]
    fn kind(self) -> Option<Kind> {
        match self {
            Iri::Whole => Some(Kind::IriRef),
            _ => None,
        }
    }

    #[inline(always)]
    fn is_live(self, _dialect: Dialect) -> bool {
        !matches!(self, Iri::Whole | Iri::Dead)
    }

    #[inline(always)]
    fn rest_end(self, text: &str, from: usize) -> usize {
        match self {
            Iri::Inside => iri_end(text.as_bytes(), from),
            _ => from,
        }
    }
}
