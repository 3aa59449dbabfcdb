// The states of labels of blank nodes (BLANK_NODE_LABEL).

ghost use Rattle.std.specs.Prelude.{◌≡◌};
ghost use Rattle.rdf_tokens.specs.Sorts.{sort_by};
ghost use Rattle.rdf_tokens.specs.Label.{ascii, high, move};
ghost use Rattle.rdf_tokens.specs.declared.states.machine.State.TheVariants as state;

use crate::states::machine::State;
use crate::states::shape::Shape;
use crate::states::wide::{Wide, width};
use rdf_terms::runs::{Run, run_end};
use rdf_terms::{Dialect, Kind};

/// What the shape of a label can tell of a character.
#[derive(Clone, Copy)]
pub(crate) enum Sort {
    Underscore,
    Colon,
    Dot,
    Digit,
    Letter,
    Mark,
    Other,
}

/// How far a label has come.
#[derive(Clone, Copy)]
pub(crate) enum Label {
    Start,
    /// `_`
    Underscore,
    /// `_:`
    Colon,
    /// A whole label.
    Name,
    /// A label and dots.
    Dots,
    /// No label begins so.
    Dead,
}

#[inline(always)]
fn sort_of_ascii(byte: u8) -> Sort
    ensures { result ≡ ascii byte }
{
    match byte {
        b'_' => Sort::Underscore,
        b':' => Sort::Colon,
        b'.' => Sort::Dot,
        b'0'..=b'9' => Sort::Digit,
        b'A'..=b'Z' | b'a'..=b'z' => Sort::Letter,
        b'-' => Sort::Mark,
        _ => Sort::Other,
    }
}

#[inline(always)]
fn sort_of_wide(wide: Wide) -> Sort
    ensures { result ≡ high wide }
{
    match wide {
        Wide::Letter => Sort::Letter,
        Wide::Mark => Sort::Mark,
        Wide::Other => Sort::Other,
    }
}

fn sort_of(c: char) -> Sort
    ensures { result ≡ sort_by ascii high c }
{
    let code = c as u32;
    if code < 128 {
        sort_of_ascii(code as u8)
    } else {
        sort_of_wide(width(c))
    }
}

impl Label {
    /// The state after one more character, by the character's sort.
    #[inline(always)]
    fn after(self, dialect: Dialect, sort: Sort) -> Label
        ensures { result ≡ move dialect self sort }
    {
        match (self, sort) {
            (Label::Start, Sort::Underscore) => Label::Underscore,
            (Label::Underscore, Sort::Colon) => Label::Colon,
            (
                Label::Colon | Label::Name | Label::Dots,
                Sort::Underscore | Sort::Digit | Sort::Letter,
            ) => Label::Name,
            (Label::Colon | Label::Name | Label::Dots, Sort::Colon) => match dialect {
                Dialect::Lines => Label::Name,
                Dialect::Turtle => Label::Dead,
            },
            (Label::Name | Label::Dots, Sort::Mark) => Label::Name,
            (Label::Name | Label::Dots, Sort::Dot) => Label::Dots,
            _ => Label::Dead,
        }
    }
}

impl Shape for Label {
    ghost whole = { state.Label };

    #[inline(always)]
    fn to_state(self) -> State {
        State::Label(self)
    }

    #[inline(always)]
    fn step(self, dialect: Dialect, c: char) -> Label {
        self.after(dialect, sort_of(c))
    }

    #[inline(always)]
    fn kind(self) -> Option<Kind> {
        match self {
            Label::Name => Some(Kind::LabelNode),
            _ => None,
        }
    }

    #[inline(always)]
    fn is_live(self, _dialect: Dialect) -> bool {
        !matches!(self, Label::Dead)
    }

    #[inline(always)]
    fn rest_end(self, text: &str, from: usize) -> usize {
        match self {
            Label::Name => run_end(Run::Name, text.as_bytes(), from),
            _ => from,
        }
    }
}
