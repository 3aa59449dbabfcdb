// The states of prefixed names (PNAME_NS, PNAME_LN).

ghost use Rattle.std.specs.Prelude.{◌≡◌, ◌<◌};
ghost use Rattle.rdf_tokens.specs.Sorts.{sort_by};
ghost use Rattle.rdf_tokens.specs.Name.{ascii, high, move};
ghost use Rattle.rdf_tokens.specs.declared.states.machine.State.TheVariants as state;

use crate::states::machine::State;
use crate::states::shape::Shape;
use crate::states::wide::{Wide, width};
use Sort::{
    Backslash, Colon, Digit, Dot, Escapable, HexLetter, Hyphen, Letter, Other, Percent, Underscore,
};
use rdf_terms::runs::{Run, run_end};
use rdf_terms::{Dialect, Kind};

/// What the shapes of prefixed names can tell of a character.
#[derive(Clone, Copy)]
pub(crate) enum Sort {
    Colon,
    Dot,
    Digit,
    HexLetter,
    Letter,
    Underscore,
    Hyphen,
    Mark,
    Percent,
    Backslash,
    Escapable,
    Other,
}

/// How far a prefixed name has come.
#[derive(Clone, Copy)]
pub(crate) enum Name {
    Start,
    /// A prefix that may end here.
    Prefix,
    /// A prefix and dots.
    PrefixDots,
    /// A whole namespace.
    Colon,
    /// A whole name.
    Local,
    /// A name and dots.
    LocalDots,
    /// After a backslash.
    Escape,
    /// So many hex digits come after the next.
    Hex(u8),
    /// No prefixed name begins so.
    Dead,
}

/// The sorts of ASCII, from byte 0 on.
static SORTS: [Sort; 128] = [
    Other, Other, Other, Other, Other, Other, Other, Other, Other, Other, Other, Other, Other,
    Other, Other, Other, Other, Other, Other, Other, Other, Other, Other, Other, Other, Other,
    Other, Other, Other, Other, Other, Other, Other, Escapable, Other, Escapable, Escapable,
    Percent, Escapable, Escapable, Escapable, Escapable, Escapable, Escapable, Escapable, Hyphen,
    Dot, Escapable, Digit, Digit, Digit, Digit, Digit, Digit, Digit, Digit, Digit, Digit, Colon,
    Escapable, Other, Escapable, Other, Escapable, Escapable, HexLetter, HexLetter, HexLetter,
    HexLetter, HexLetter, HexLetter, Letter, Letter, Letter, Letter, Letter, Letter, Letter,
    Letter, Letter, Letter, Letter, Letter, Letter, Letter, Letter, Letter, Letter, Letter, Letter,
    Letter, Other, Backslash, Other, Other, Underscore, Other, HexLetter, HexLetter, HexLetter,
    HexLetter, HexLetter, HexLetter, Letter, Letter, Letter, Letter, Letter, Letter, Letter,
    Letter, Letter, Letter, Letter, Letter, Letter, Letter, Letter, Letter, Letter, Letter, Letter,
    Letter, Other, Other, Other, Escapable, Other,
];

#[inline(always)]
fn sort_of_ascii(byte: u8) -> Sort
    requires { byte < 128 }
    ensures { result ≡ ascii byte }
{
    SORTS[byte as usize]
}

#[inline(always)]
fn sort_of_wide(wide: Wide) -> Sort
    ensures { result ≡ high wide }
{
    match wide {
        Wide::Letter => Sort::Letter,
        Wide::Mark => Sort::Mark,
        Wide::Other => Sort::Other,
    }
}

fn sort_of(c: char) -> Sort
    ensures { result ≡ sort_by ascii high c }
{
    let code = c as u32;
    if code < 128 {
        sort_of_ascii(code as u8)
    } else {
        sort_of_wide(width(c))
    }
}

impl Name {
    /// The state after one more character, by the character's sort.
    #[inline(always)]
    fn after(self, dialect: Dialect, sort: Sort) -> Name
        ensures { result ≡ move dialect self sort }
    {
        match (self, sort) {
            (Name::Start, _) => match (dialect, sort) {
                (Dialect::Turtle, Sort::Letter | Sort::HexLetter) => Name::Prefix,
                (Dialect::Turtle, Sort::Colon) => Name::Colon,
                _ => Name::Dead,
            },
            (Name::Prefix, Sort::Colon) => Name::Colon,
            (Name::Prefix | Name::PrefixDots, Sort::Dot) => Name::PrefixDots,
            (
                Name::Prefix | Name::PrefixDots,
                Sort::Digit
                | Sort::HexLetter
                | Sort::Letter
                | Sort::Underscore
                | Sort::Hyphen
                | Sort::Mark,
            ) => Name::Prefix,
            (
                Name::Colon | Name::Local | Name::LocalDots,
                Sort::Colon | Sort::Digit | Sort::HexLetter | Sort::Letter | Sort::Underscore,
            ) => Name::Local,
            (Name::Local | Name::LocalDots, Sort::Hyphen | Sort::Mark) => Name::Local,
            (Name::Local | Name::LocalDots, Sort::Dot) => Name::LocalDots,
            (Name::Colon | Name::Local | Name::LocalDots, Sort::Percent) => Name::Hex(1),
            (Name::Colon | Name::Local | Name::LocalDots, Sort::Backslash) => Name::Escape,
            (
                Name::Escape,
                Sort::Underscore | Sort::Hyphen | Sort::Dot | Sort::Percent | Sort::Escapable,
            ) => Name::Local,
            (Name::Hex(0), Sort::Digit | Sort::HexLetter) => Name::Local,
            (Name::Hex(n), Sort::Digit | Sort::HexLetter) => Name::Hex(n - 1),
            _ => Name::Dead,
        }
    }
}

impl Shape for Name {
    ghost whole = { state.Name };

    #[inline(always)]
    fn to_state(self) -> State {
        State::Name(self)
    }

    #[inline(always)]
    fn step(self, dialect: Dialect, c: char) -> Name {
        self.after(dialect, sort_of(c))
    }

    #[inline(always)]
    fn kind(self) -> Option<Kind> {
        match self {
            Name::Colon => Some(Kind::PnameNs),
            Name::Local => Some(Kind::PnameLn),
            _ => None,
        }
    }

    #[inline(always)]
    fn is_live(self, dialect: Dialect) -> bool {
        match self {
            Name::Start => dialect == Dialect::Turtle,
            Name::Dead => false,
            _ => true,
        }
    }

    #[inline(always)]
    fn rest_end(self, text: &str, from: usize) -> usize {
        match self {
            Name::Prefix | Name::Local => run_end(Run::Name, text.as_bytes(), from),
            _ => from,
        }
    }
}
