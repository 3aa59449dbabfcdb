// The states of language tags (LANGTAG).

ghost use Rattle.std.specs.Prelude.{◌≡◌};
ghost use Rattle.rdf_tokens.specs.Sorts.{sort_by};
ghost use Rattle.rdf_tokens.specs.Tag.{ascii, high, move};
ghost use Rattle.rdf_tokens.specs.declared.states.machine.State.TheVariants as state;

use crate::states::machine::State;
use crate::states::shape::Shape;
use rdf_terms::{Dialect, Kind};

/// What the shape of a tag can tell of a character.
#[derive(Clone, Copy)]
pub(crate) enum Sort {
    At,
    Hyphen,
    Digit,
    Letter,
    Other,
}

/// How far a tag has come.
#[derive(Clone, Copy)]
pub(crate) enum Tag {
    Start,
    At,
    /// In the first part, of letters alone.
    Letters,
    Hyphen,
    /// In a part after a hyphen.
    Part,
    /// No tag begins so.
    Dead,
}

#[inline(always)]
fn sort_of_ascii(byte: u8) -> Sort
    ensures { result ≡ ascii byte }
{
    match byte {
        b'@' => Sort::At,
        b'-' => Sort::Hyphen,
        b'0'..=b'9' => Sort::Digit,
        b'A'..=b'Z' | b'a'..=b'z' => Sort::Letter,
        _ => Sort::Other,
    }
}

fn sort_of(c: char) -> Sort
    ensures { result ≡ sort_by ascii high c }
{
    let code = c as u32;
    if code < 128 {
        sort_of_ascii(code as u8)
    } else {
        Sort::Other
    }
}

impl Tag {
    /// The state after one more character, by the character's sort.
    #[inline(always)]
    fn after(self, sort: Sort) -> Tag
        ensures { result ≡ move self sort }
    {
        match (self, sort) {
            (Tag::Start, Sort::At) => Tag::At,
            (Tag::At | Tag::Letters, Sort::Letter) => Tag::Letters,
            (Tag::Letters | Tag::Part, Sort::Hyphen) => Tag::Hyphen,
            (Tag::Hyphen | Tag::Part, Sort::Letter | Sort::Digit) => Tag::Part,
            _ => Tag::Dead,
        }
    }
}

impl Shape for Tag {
    ghost whole = { state.Tag };

    #[inline(always)]
    fn to_state(self) -> State {
        State::Tag(self)
    }

    #[inline(always)]
    fn step(self, _dialect: Dialect, c: char) -> Tag {
        self.after(sort_of(c))
    }

    #[inline(always)]
    fn kind(self) -> Option<Kind> {
        match self {
            Tag::Letters | Tag::Part => Some(Kind::LangTag),
            _ => None,
        }
    }

    #[inline(always)]
    fn is_live(self, _dialect: Dialect) -> bool {
        !matches!(self, Tag::Dead)
    }

    #[inline(always)]
    fn rest_end(self, _text: &str, from: usize) -> usize {
        from
    }
}
