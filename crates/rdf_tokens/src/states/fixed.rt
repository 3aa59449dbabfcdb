// The kinds of one spelling.

ghost use Rattle.std.specs.Prelude.{◌≡◌, map};
ghost use Rattle.rdf_terms.specs.Shapes.{fixed};
ghost use Rattle.rdf_tokens.specs.Fixed.{fits, left, is_begun, live_by, rows_of};
ghost use Rattle.rdf_tokens.specs.Front.{at_first, begins, row_front, front_by};
ghost use Rattle.rdf_tokens.specs.Over.{row_over, fixed_over};
ghost use Rattle.rdf_tokens.specs.Spellings.{row_of};

use crate::front::longer;
use rdf_terms::{Dialect, Kind};

/// A spelling of a kind.
#[derive(Clone, Copy)]
pub(crate) struct Spelling {
    pub(crate) kind: Kind,
    pub(crate) text: &'static [u8],
    /// It stands here in capitals, and is read in any case.
    pub(crate) any_case: bool,
}

static LINES: [Spelling; 4] = [
    Spelling {
        kind: Kind::Carets,
        text: b"^^",
        any_case: false,
    },
    Spelling {
        kind: Kind::Dot,
        text: b".",
        any_case: false,
    },
    Spelling {
        kind: Kind::LineEnd,
        text: b"\r",
        any_case: false,
    },
    Spelling {
        kind: Kind::LineEnd,
        text: b"\n",
        any_case: false,
    },
];

static TURTLE: [Spelling; 18] = [
    Spelling {
        kind: Kind::AtPrefix,
        text: b"@prefix",
        any_case: false,
    },
    Spelling {
        kind: Kind::AtBase,
        text: b"@base",
        any_case: false,
    },
    Spelling {
        kind: Kind::Carets,
        text: b"^^",
        any_case: false,
    },
    Spelling {
        kind: Kind::Dot,
        text: b".",
        any_case: false,
    },
    Spelling {
        kind: Kind::True,
        text: b"true",
        any_case: false,
    },
    Spelling {
        kind: Kind::False,
        text: b"false",
        any_case: false,
    },
    Spelling {
        kind: Kind::A,
        text: b"a",
        any_case: false,
    },
    Spelling {
        kind: Kind::Prefix,
        text: b"PREFIX",
        any_case: true,
    },
    Spelling {
        kind: Kind::Base,
        text: b"BASE",
        any_case: true,
    },
    Spelling {
        kind: Kind::Graph,
        text: b"GRAPH",
        any_case: true,
    },
    Spelling {
        kind: Kind::Semicolon,
        text: b";",
        any_case: false,
    },
    Spelling {
        kind: Kind::Comma,
        text: b",",
        any_case: false,
    },
    Spelling {
        kind: Kind::OpenBracket,
        text: b"[",
        any_case: false,
    },
    Spelling {
        kind: Kind::CloseBracket,
        text: b"]",
        any_case: false,
    },
    Spelling {
        kind: Kind::OpenParen,
        text: b"(",
        any_case: false,
    },
    Spelling {
        kind: Kind::CloseParen,
        text: b")",
        any_case: false,
    },
    Spelling {
        kind: Kind::OpenBrace,
        text: b"{",
        any_case: false,
    },
    Spelling {
        kind: Kind::CloseBrace,
        text: b"}",
        any_case: false,
    },
];

/// The spellings of a dialect, in the order of the kinds.
fn spellings(dialect: Dialect) -> &'static [Spelling]
    ensures { map row_of result.now ≡ rows_of dialect fixed }
{
    match dialect {
        Dialect::Lines => &LINES,
        Dialect::Turtle => &TURTLE,
    }
}

/// Those that begin with a byte: most tokens begin with none.
fn spellings_at(dialect: Dialect, first: u8) -> &'static [Spelling]
    ensures { map row_of result.now ≡ at_first first (rows_of dialect fixed) }
{
    match dialect {
        Dialect::Lines => match first {
            b'^' => &LINES[..1],
            b'.' => &LINES[1..2],
            b'\r' => &LINES[2..3],
            b'\n' => &LINES[3..],
            _ => &[],
        },
        Dialect::Turtle => match first {
            b'@' => &TURTLE[..2],
            b'^' => &TURTLE[2..3],
            b'.' => &TURTLE[3..4],
            b't' => &TURTLE[4..5],
            b'f' => &TURTLE[5..6],
            b'a' => &TURTLE[6..7],
            b'P' | b'p' => &TURTLE[7..8],
            b'B' | b'b' => &TURTLE[8..9],
            b'G' | b'g' => &TURTLE[9..10],
            b';' => &TURTLE[10..11],
            b',' => &TURTLE[11..12],
            b'[' => &TURTLE[12..13],
            b']' => &TURTLE[13..14],
            b'(' => &TURTLE[14..15],
            b')' => &TURTLE[15..16],
            b'{' => &TURTLE[16..17],
            b'}' => &TURTLE[17..],
            _ => &[],
        },
    }
}

/// The longest spelling of the dialect at the front of a text.
pub(crate) fn fixed_front(dialect: Dialect, text: &[u8]) -> Option<(usize, Kind)>
    ensures { result ≡ front_by (rows_of dialect fixed) text.now }
{
    match text.first() {
        Some(first) => front_among(spellings_at(dialect, *first), text),
        None => None,
    }
}

fn front_among(rows: &[Spelling], text: &[u8]) -> Option<(usize, Kind)>
    ensures { result ≡ front_by (map row_of rows.now) text.now }
{
    let mut best = None;
    for row in rows {
        best = longer(best, spelling_front(row, text));
    }
    best
}

fn spelling_front(row: &Spelling, text: &[u8]) -> Option<(usize, Kind)>
    ensures { result ≡ row_front (row_of row.now) text.now }
{
    if is_front(row.any_case, row.text, text) {
        Some((row.text.len(), row.kind))
    } else {
        None
    }
}

fn is_front(any_case: bool, spelling: &[u8], text: &[u8]) -> bool
    ensures { result ≡ begins any_case spelling.now text.now }
{
    if text.len() < spelling.len() {
        return false;
    }
    for (i, expected) in spelling.iter().enumerate() {
        if !is_fit(any_case, *expected, text[i]) {
            return false;
        }
    }
    true
}

/// Whether a text is the beginning of a longer spelling of the dialect.
pub(crate) fn is_fixed_live(dialect: Dialect, text: &[u8]) -> bool
    ensures { result ≡ live_by (rows_of dialect fixed) text.now }
{
    match text.first() {
        Some(first) => is_live_among(spellings_at(dialect, *first), text),
        None => true,
    }
}

fn is_live_among(rows: &[Spelling], text: &[u8]) -> bool
    ensures { result ≡ live_by (map row_of rows.now) text.now }
{
    for row in rows {
        if is_beginning(row.any_case, row.text, text) {
            return true;
        }
    }
    false
}

fn is_beginning(any_case: bool, spelling: &[u8], text: &[u8]) -> bool
    ensures { result ≡ is_begun (left any_case spelling.now text.now) }
{
    if spelling.len() <= text.len() {
        return false;
    }
    for (i, found) in text.iter().enumerate() {
        if !is_fit(any_case, spelling[i], *found) {
            return false;
        }
    }
    true
}

/// Whether a spelling of more than `limit` characters has the first `limit + 1` characters of the text at its front.
pub(crate) fn is_fixed_over(dialect: Dialect, text: &[u8], limit: usize) -> bool
    ensures { result ≡ fixed_over (rows_of dialect fixed) limit text.now }
{
    is_over_among(spellings(dialect), text, limit)
}

fn is_over_among(rows: &[Spelling], text: &[u8], limit: usize) -> bool
    ensures { result ≡ fixed_over (map row_of rows.now) limit text.now }
{
    for row in rows {
        if is_row_over(row, text, limit) {
            return true;
        }
    }
    false
}

fn is_row_over(row: &Spelling, text: &[u8], limit: usize) -> bool
    ensures { result ≡ row_over (row_of row.now) limit text.now }
{
    limit < row.text.len() && is_front(row.any_case, &row.text[..limit + 1], text)
}

fn is_fit(any_case: bool, expected: u8, found: u8) -> bool
    ensures { result ≡ fits any_case expected found }
{
    found == expected || any_case && u32::from(found) == u32::from(expected) + 32
}
