// Sets of kinds of tokens.

ghost use Rattle.std.specs.Prelude.{◌≡◌, ◌≢◌, ◌+◌, ◌<◌, true, false, MatchOption};
ghost use Rattle.rdf_terms.specs.declared.kind.Kind.{Kind};
ghost use Rattle.rdf_driver.specs.Kinds.{has, number};

use rdf_terms::Kind;
use std::marker::Model;

/// A set of kinds of tokens.
#[derive(Clone, Copy)]
pub struct Kinds {
    bits: u32,
}

impl Model for Kinds {
    ghost use Rattle.std.specs.Prelude.{ℕ};

    ghost Value = { ℕ };

    ghost view = { λ s. s.bits };

    ghost inverse = { λ n. record { bits = n } };
}

impl Kinds {
    /// No kind.
    pub fn none() -> Kinds
        ensures { (k : Kind) → has result k ≡ false }
    {
        Kinds { bits: 0 }
    }

    /// The set with a kind more.
    pub fn with(self, kind: Kind) -> Kinds
        ensures added { has result kind ≡ true }
        ensures others { (k : Kind) → k ≢ kind → has result k ≡ has self k }
    {
        Kinds {
            bits: self.bits | (1 << number(kind)),
        }
    }

    /// Whether the kind is in the set.
    pub fn contains(self, kind: Kind) -> bool
        ensures { result ≡ has self kind }
    {
        (self.bits >> number(kind)) & 1 == 1
    }

    /// The set as a number: the bit of each kind in it is one, from the lowest bit on in the order of the kinds.
    pub fn bits(self) -> u32
        ensures { result ≡ self }
    {
        self.bits
    }
}

// The number of a kind.
fn number(kind: Kind) -> u32
    ensures is { result ≡ number kind }
    ensures bit { result < 32 }
{
    match kind {
        Kind::IriRef => 0,
        Kind::LabelNode => 1,
        Kind::ShortString => 2,
        Kind::LongString => 3,
        Kind::LangTag => 4,
        Kind::Carets => 5,
        Kind::Dot => 6,
        Kind::LineEnd => 7,
        Kind::Integer => 8,
        Kind::Decimal => 9,
        Kind::Double => 10,
        Kind::True => 11,
        Kind::False => 12,
        Kind::A => 13,
        Kind::AtPrefix => 14,
        Kind::AtBase => 15,
        Kind::Prefix => 16,
        Kind::Base => 17,
        Kind::Graph => 18,
        Kind::PnameNs => 19,
        Kind::PnameLn => 20,
        Kind::Semicolon => 21,
        Kind::Comma => 22,
        Kind::OpenBracket => 23,
        Kind::CloseBracket => 24,
        Kind::OpenParen => 25,
        Kind::CloseParen => 26,
        Kind::OpenBrace => 27,
        Kind::CloseBrace => 28,
        Kind::End => 29,
    }
}

/// The kind after this one, in their order.
pub fn kind_after(kind: Kind) -> Option<Kind>
    ensures { MatchOption result (number kind ≡ 29) (λ k. number k ≡ number kind + 1) }
{
    match kind {
        Kind::IriRef => Some(Kind::LabelNode),
        Kind::LabelNode => Some(Kind::ShortString),
        Kind::ShortString => Some(Kind::LongString),
        Kind::LongString => Some(Kind::LangTag),
        Kind::LangTag => Some(Kind::Carets),
        Kind::Carets => Some(Kind::Dot),
        Kind::Dot => Some(Kind::LineEnd),
        Kind::LineEnd => Some(Kind::Integer),
        Kind::Integer => Some(Kind::Decimal),
        Kind::Decimal => Some(Kind::Double),
        Kind::Double => Some(Kind::True),
        Kind::True => Some(Kind::False),
        Kind::False => Some(Kind::A),
        Kind::A => Some(Kind::AtPrefix),
        Kind::AtPrefix => Some(Kind::AtBase),
        Kind::AtBase => Some(Kind::Prefix),
        Kind::Prefix => Some(Kind::Base),
        Kind::Base => Some(Kind::Graph),
        Kind::Graph => Some(Kind::PnameNs),
        Kind::PnameNs => Some(Kind::PnameLn),
        Kind::PnameLn => Some(Kind::Semicolon),
        Kind::Semicolon => Some(Kind::Comma),
        Kind::Comma => Some(Kind::OpenBracket),
        Kind::OpenBracket => Some(Kind::CloseBracket),
        Kind::CloseBracket => Some(Kind::OpenParen),
        Kind::OpenParen => Some(Kind::CloseParen),
        Kind::CloseParen => Some(Kind::OpenBrace),
        Kind::OpenBrace => Some(Kind::CloseBrace),
        Kind::CloseBrace => Some(Kind::End),
        Kind::End => None,
    }
}
