// The states of numbers (INTEGER, DECIMAL, DOUBLE).

ghost use Rattle.std.specs.Prelude.{◌≡◌};
ghost use Rattle.rdf_tokens.specs.Sorts.{sort_by};
ghost use Rattle.rdf_tokens.specs.Number.{ascii, high, move};
ghost use Rattle.rdf_tokens.specs.declared.states.machine.State.TheVariants as state;

use crate::states::machine::State;
use crate::states::shape::Shape;
use rdf_terms::{Dialect, Kind};

/// What the shapes of numbers can tell of a character.
#[derive(Clone, Copy)]
pub(crate) enum Sort {
    Plus,
    Minus,
    Dot,
    Digit,
    SmallE,
    BigE,
    Other,
}

/// How far a number has come.
#[derive(Clone, Copy)]
pub(crate) enum Number {
    Start,
    Sign,
    /// A dot with no digit before it.
    Dot,
    /// A whole integer.
    Digits,
    /// Digits and a dot.
    DigitsDot,
    /// A whole decimal.
    Fraction,
    /// The letter of an exponent.
    Exponent,
    ExponentSign,
    /// A whole double.
    ExponentDigits,
    /// No number begins so.
    Dead,
}

#[inline(always)]
fn sort_of_ascii(byte: u8) -> Sort
    ensures { result ≡ ascii byte }
{
    match byte {
        b'+' => Sort::Plus,
        b'-' => Sort::Minus,
        b'.' => Sort::Dot,
        b'0'..=b'9' => Sort::Digit,
        b'e' => Sort::SmallE,
        b'E' => Sort::BigE,
        _ => Sort::Other,
    }
}

fn sort_of(c: char) -> Sort
    ensures { result ≡ sort_by ascii high c }
{
    let code = c as u32;
    if code < 128 {
        sort_of_ascii(code as u8)
    } else {
        Sort::Other
    }
}

impl Number {
    /// The state after one more character, by the character's sort.
    #[inline(always)]
    fn after(self, dialect: Dialect, sort: Sort) -> Number
        ensures { result ≡ move dialect self sort }
    {
        match (self, sort) {
            (Number::Start, _) => match (dialect, sort) {
                (Dialect::Turtle, Sort::Plus | Sort::Minus) => Number::Sign,
                (Dialect::Turtle, Sort::Dot) => Number::Dot,
                (Dialect::Turtle, Sort::Digit) => Number::Digits,
                _ => Number::Dead,
            },
            (Number::Sign | Number::Digits, Sort::Digit) => Number::Digits,
            (Number::Sign, Sort::Dot) => Number::Dot,
            (Number::Digits, Sort::Dot) => Number::DigitsDot,
            (Number::Dot | Number::DigitsDot | Number::Fraction, Sort::Digit) => Number::Fraction,
            (Number::Digits | Number::DigitsDot | Number::Fraction, Sort::SmallE | Sort::BigE) =>
                Number::Exponent,
            (Number::Exponent, Sort::Plus | Sort::Minus) => Number::ExponentSign,
            (Number::Exponent | Number::ExponentSign | Number::ExponentDigits, Sort::Digit) =>
                Number::ExponentDigits,
            _ => Number::Dead,
        }
    }
}

impl Shape for Number {
    ghost whole = { state.Number };

    #[inline(always)]
    fn to_state(self) -> State {
        State::Number(self)
    }

    #[inline(always)]
    fn step(self, dialect: Dialect, c: char) -> Number {
        self.after(dialect, sort_of(c))
    }

    #[inline(always)]
    fn kind(self) -> Option<Kind> {
        match self {
            Number::Digits => Some(Kind::Integer),
            Number::Fraction => Some(Kind::Decimal),
            Number::ExponentDigits => Some(Kind::Double),
            _ => None,
        }
    }

    #[inline(always)]
    fn is_live(self, dialect: Dialect) -> bool {
        match self {
            Number::Start => dialect == Dialect::Turtle,
            Number::Dead => false,
            _ => true,
        }
    }

    #[inline(always)]
    fn rest_end(self, _text: &str, from: usize) -> usize {
        from
    }
}
