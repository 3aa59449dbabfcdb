// The states of strings, short and long (the four STRING_LITERALs).

ghost use Rattle.std.specs.Prelude.{◌≡◌, ◌<◌, ℕ};
ghost use Rattle.rdf_tokens.specs.Sorts.{sort_by};
ghost use Rattle.rdf_tokens.specs.Text.{begin, ascii, high, closes, escaped, if_hex, in_short, in_long, move};
ghost use Rattle.rdf_tokens.specs.declared.states.machine.State.TheVariants as state;
ghost use Rattle.rdf_tokens.specs.declared.states.text.Text.{Text};

use crate::escapes::string_end;
use crate::quick::long_end;
use crate::states::machine::State;
use crate::states::shape::Shape;
use Sort::{
    Apostrophe, Backslash, BigU, HexDigit, HexLetter, Letter, LineBreak, Plain, Quotation, SmallU,
};
use rdf_terms::{Dialect, Kind};

/// What the shapes of strings can tell of a character.
#[derive(Clone, Copy)]
pub(crate) enum Sort {
    Quotation,
    Apostrophe,
    Backslash,
    LineBreak,
    SmallU,
    BigU,
    /// A letter of an escape that is no hex digit.
    Letter,
    /// A letter of an escape that is a hex digit.
    HexLetter,
    HexDigit,
    Plain,
}

/// The quote that a string stands in.
#[derive(Clone, Copy)]
pub(crate) enum Quote {
    Double,
    Single,
}

/// How far a string has come.
#[derive(Clone, Copy)]
pub(crate) enum Text {
    Start,
    /// The first quote.
    Opened(Quote),
    /// Two quotes.
    Empty(Quote),
    Short(Quote),
    ShortEscape(Quote),
    /// So many hex digits come after the next.
    ShortHex(Quote, u8),
    ShortWhole,
    Long(Quote),
    LongOneQuote(Quote),
    LongTwoQuotes(Quote),
    LongEscape(Quote),
    LongHex(Quote, u8),
    LongWhole,
    /// No string begins so.
    Dead,
}

/// The sorts of ASCII, from byte 0 on.
static SORTS: [Sort; 128] = [
    Plain, Plain, Plain, Plain, Plain, Plain, Plain, Plain, Plain, Plain, LineBreak, Plain, Plain,
    LineBreak, Plain, Plain, Plain, Plain, Plain, Plain, Plain, Plain, Plain, Plain, Plain, Plain,
    Plain, Plain, Plain, Plain, Plain, Plain, Plain, Plain, Quotation, Plain, Plain, Plain, Plain,
    Apostrophe, Plain, Plain, Plain, Plain, Plain, Plain, Plain, Plain, HexDigit, HexDigit,
    HexDigit, HexDigit, HexDigit, HexDigit, HexDigit, HexDigit, HexDigit, HexDigit, Plain, Plain,
    Plain, Plain, Plain, Plain, Plain, HexDigit, HexDigit, HexDigit, HexDigit, HexDigit, HexDigit,
    Plain, Plain, Plain, Plain, Plain, Plain, Plain, Plain, Plain, Plain, Plain, Plain, Plain,
    Plain, BigU, Plain, Plain, Plain, Plain, Plain, Plain, Backslash, Plain, Plain, Plain, Plain,
    HexDigit, HexLetter, HexDigit, HexDigit, HexDigit, HexLetter, Plain, Plain, Plain, Plain,
    Plain, Plain, Plain, Letter, Plain, Plain, Plain, Letter, Plain, Letter, SmallU, Plain, Plain,
    Plain, Plain, Plain, Plain, Plain, Plain, Plain, Plain,
];

#[inline(always)]
fn sort_of_ascii(byte: u8) -> Sort
    requires { byte < 128 }
    ensures { result ≡ ascii byte }
{
    SORTS[byte as usize]
}

#[inline(always)]
fn is_closed_by(quote: Quote, sort: Sort) -> bool
    ensures { result ≡ closes quote sort }
{
    matches!(
        (quote, sort),
        (Quote::Double, Sort::Quotation) | (Quote::Single, Sort::Apostrophe)
    )
}

#[inline(always)]
fn in_short_string(quote: Quote, sort: Sort) -> Text
    ensures { result ≡ in_short quote sort }
{
    match sort {
        Sort::Backslash => Text::ShortEscape(quote),
        Sort::LineBreak => Text::Dead,
        _ => Text::Short(quote),
    }
}

#[inline(always)]
fn in_long_string(quote: Quote, sort: Sort) -> Text
    ensures { result ≡ in_long quote sort }
{
    match sort {
        Sort::Backslash => Text::LongEscape(quote),
        _ => Text::Long(quote),
    }
}

#[inline(always)]
fn opened(dialect: Dialect, sort: Sort) -> Text
    ensures { result ≡ begin dialect sort }
{
    match (dialect, sort) {
        (_, Sort::Quotation) => Text::Opened(Quote::Double),
        (Dialect::Turtle, Sort::Apostrophe) => Text::Opened(Quote::Single),
        _ => Text::Dead,
    }
}

// The state after a backslash and this character: inside the string again, or before the hex digits of a small or a
// big U.
#[inline(always)]
fn escaped(sort: Sort, inside: Text, small: Text, big: Text) -> Text
    ensures { (hex : ℕ → Text) → small ≡ hex 3 → big ≡ hex 7 → result ≡ escaped hex inside sort }
{
    match sort {
        Sort::SmallU => small,
        Sort::BigU => big,
        Sort::Quotation | Sort::Apostrophe | Sort::Backslash | Sort::Letter | Sort::HexLetter =>
            inside,
        _ => Text::Dead,
    }
}

#[inline(always)]
fn if_hex(sort: Sort, after_digit: Text) -> Text
    ensures { result ≡ if_hex after_digit sort }
{
    match sort {
        Sort::HexLetter | Sort::HexDigit => after_digit,
        _ => Text::Dead,
    }
}

fn sort_of(c: char) -> Sort
    ensures { result ≡ sort_by ascii high c }
{
    let code = c as u32;
    if code < 128 {
        sort_of_ascii(code as u8)
    } else {
        Sort::Plain
    }
}

impl Text {
    /// The state after one more character, by the character's sort.
    #[inline(always)]
    fn after(self, dialect: Dialect, sort: Sort) -> Text
        ensures { result ≡ move dialect self sort }
    {
        match self {
            Text::Start => opened(dialect, sort),
            Text::Opened(quote) if is_closed_by(quote, sort) => Text::Empty(quote),
            Text::Short(quote) if is_closed_by(quote, sort) => Text::ShortWhole,
            Text::Opened(quote) | Text::Short(quote) => in_short_string(quote, sort),
            Text::ShortEscape(quote) => {
                escaped(
                    sort,
                    Text::Short(quote),
                    Text::ShortHex(quote, 3),
                    Text::ShortHex(quote, 7),
                )
            }
            Text::ShortHex(quote, 0) => if_hex(sort, Text::Short(quote)),
            Text::ShortHex(quote, n) => if_hex(sort, Text::ShortHex(quote, n - 1)),
            Text::Empty(quote) if is_closed_by(quote, sort) && dialect == Dialect::Turtle =>
                Text::Long(quote),
            Text::Long(quote) if is_closed_by(quote, sort) => Text::LongOneQuote(quote),
            Text::LongOneQuote(quote) if is_closed_by(quote, sort) => Text::LongTwoQuotes(quote),
            Text::LongTwoQuotes(quote) if is_closed_by(quote, sort) => Text::LongWhole,
            Text::Long(quote) | Text::LongOneQuote(quote) | Text::LongTwoQuotes(quote) =>
                in_long_string(quote, sort),
            Text::LongEscape(quote) => {
                escaped(
                    sort,
                    Text::Long(quote),
                    Text::LongHex(quote, 3),
                    Text::LongHex(quote, 7),
                )
            }
            Text::LongHex(quote, 0) => if_hex(sort, Text::Long(quote)),
            Text::LongHex(quote, n) => if_hex(sort, Text::LongHex(quote, n - 1)),
            Text::Empty(_) | Text::ShortWhole | Text::LongWhole | Text::Dead => Text::Dead,
        }
    }
}

impl Shape for Text {
    ghost whole = { state.Text };

    #[inline(always)]
    fn to_state(self) -> State {
        State::Text(self)
    }

    #[inline(always)]
    fn step(self, dialect: Dialect, c: char) -> Text {
        self.after(dialect, sort_of(c))
    }

    #[inline(always)]
    fn kind(self) -> Option<Kind> {
        match self {
            Text::Empty(_) | Text::ShortWhole => Some(Kind::ShortString),
            Text::LongWhole => Some(Kind::LongString),
            _ => None,
        }
    }

    #[inline(always)]
    fn is_live(self, dialect: Dialect) -> bool {
        match self {
            Text::Empty(_) => dialect == Dialect::Turtle,
            Text::ShortWhole | Text::LongWhole | Text::Dead => false,
            _ => true,
        }
    }

    #[inline(always)]
    fn rest_end(self, text: &str, from: usize) -> usize {
        match self {
            Text::Short(quote) => string_end(quote, text.as_bytes(), from),
            Text::Long(quote) => long_end(quote, text.as_bytes(), from),
            _ => from,
        }
    }
}
