// The tokens of a dialect as a grammar that a reader drives.

ghost use Rattle.std.specs.Prelude.{◌≡◌};
ghost use Rattle.rdf_terms.specs.declared.kind.Dialect.{Dialect};
ghost use Rattle.rdf_terms.specs.declared.kind.Dialect.TheVariants.{Lines, Turtle};
ghost use Rattle.rdf_tokens.specs.Scans.{is_end};
ghost use Rattle.rdf_stream.specs.LineOut.{Leaves, Takes};
ghost use Rattle.rdf_stream.specs.TokenWords.{of_tokens, token_words};

use crate::devices::Drain;
use crate::line_out::LineOut;
use rdf_driver::{Accepts, Grammar, Hint, Holds};
use rdf_terms::{Dialect, Kind, PutFault, Reason};
use rdf_tokens::Token;
use std::alloc::Allocator;
use std::marker::Model;

/// A dialect, by its type.
pub(crate) trait Spoken {
    /// The dialect.
    ghost spoken: { Dialect };

    /// The dialect.
    fn dialect(&self) -> Dialect
        ensures { result ≡ spoken };
}

/// The tokens of N-Triples and N-Quads.
#[derive(Clone, Copy)]
pub(crate) struct InLines;

impl Spoken for InLines {
    ghost spoken = { Lines };

    fn dialect(&self) -> Dialect {
        Dialect::Lines
    }
}

/// The tokens of Turtle and TriG.
#[derive(Clone, Copy)]
pub(crate) struct InTurtle;

impl Spoken for InTurtle {
    ghost spoken = { Turtle };

    fn dialect(&self) -> Dialect {
        Dialect::Turtle
    }
}

/// A token, as the item of a document that contracts speak of. The program makes none.
#[derive(Drop)]
pub(crate) struct TokenItem {
    kind: Kind,
    text: String,
    offset: u64,
    line: u64,
}

impl Model for TokenItem {
    ghost use Rattle.std.specs.Str.{chars};
    ghost use Rattle.std.specs.String.{string_bytes};
    ghost use Rattle.rdf_tokens.specs.Tokens.{Token};

    ghost Value = { Token };

    ghost view = { λ t. record {
      kind = t.kind;
      text = chars (string_bytes t.text);
      at = record { offset = t.offset; line = t.line };
    } };
}

/// Accepts every token of a dialect, within a limit on its characters.
#[derive(Drop)]
pub(crate) struct TokenGrammar<T> {
    spoken: T,
    limit: u64,
}

impl<T> Model for TokenGrammar<T> {
    ghost use Rattle.std.specs.Prelude.{ℕ};

    ghost Value = { ℕ };

    ghost view = { λ g. g.limit };
}

impl<T> TokenGrammar<T> {
    /// Before the first token.
    pub(crate) fn new(spoken: T, limit: u64) -> TokenGrammar<T>
        ensures { result ≡ limit }
    {
        TokenGrammar { spoken, limit }
    }
}

impl<T: Spoken> Grammar for TokenGrammar<T> {
    type Setting = ();

    type Item = TokenItem;

    ghost words = { token_words T.spoken };

    fn dialect(&self) -> Dialect {
        self.spoken.dialect()
    }
}

impl<T: Spoken> Holds for TokenGrammar<T> {
    ghost bytes = { λ g. 0 };

    fn held(&self) -> u64 {
        0
    }
}

impl<'a, T: Spoken, D: Drain, A: Allocator + Copy> Accepts<LineOut<'a, D, A>> for TokenGrammar<T> {
    ghost takes = { λ before token after. Takes of_tokens D.contents D.has_failed before token after };

    ghost leaves = { λ before token after. Leaves of_tokens D.contents D.has_failed before token after };

    ghost has_failed = { λ lines. D.has_failed lines.drain.now };

    // The end has no line.
    fn accept<K: Hint>(
        &mut self,
        token: &Token<'_>,
        lines: &mut LineOut<'a, D, A>,
    ) -> Result<u64, Reason> {
        if is_end(token.kind) {
            return Ok(0);
        }
        match lines.put_token(*token) {
            Ok(()) => Ok(1),
            Err(PutFault::Memory) => Err(Reason::Memory),
            Err(PutFault::Device) => Err(Reason::Sink),
        }
    }
}

fn is_end(kind: Kind) -> bool
    ensures { result ≡ is_end kind }
{
    matches!(kind, Kind::End)
}
