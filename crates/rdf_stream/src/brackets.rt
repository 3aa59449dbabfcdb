// Which bracket is open before an unexpected token.

ghost use Rattle.std.specs.Prelude.{◌≡◌, ◌≤◌, ◌++◌, ℕ, List, [], Bool, true, false, IfOk, IfSome, OnOk, drop, length};
ghost use Rattle.rdf_terms.specs.declared.kind.Dialect.{Dialect};
ghost use Rattle.rdf_tokens.specs.Good.{tokens_of};
ghost use Rattle.rdf_tokens.specs.Scans.{IsWaiting};
ghost use Rattle.rdf_stream.specs.Brackets.{IsOpenBefore, closes, opens, open_with};
ghost use Rattle.rdf_stream.specs.Opening.{ComesTo, HasNoted, Offers};

use rdf_terms::{Dialect, Kind};
use rdf_tokens::Scanner;
use std::alloc::{AllocError, Allocator};

/// No token stands there: a document has fewer bytes.
const NOWHERE: u64 = u64::MAX;

/// A token's kind, and where it begins.
#[derive(Clone, Copy, Debug, PartialEq, Eq)]
pub(crate) struct TokenPlace {
    pub(crate) kind: Kind,
    pub(crate) offset: u64,
    pub(crate) line: u64,
}

/// A bracket that is open, and where it was opened.
#[derive(Clone, Copy, Debug, PartialEq, Eq)]
pub struct Opened {
    /// Its kind: `OpenBracket`, `OpenParen` or `OpenBrace`.
    pub kind: Kind,
    /// Its line, counted from 1.
    pub line: u64,
    /// Its column, in characters, counted from 1. None where the bytes in front of it in its line are no longer kept.
    pub column: Option<u64>,
}

/// Reads the tokens of a document, and keeps the brackets that are open after those that have come, the innermost last.
#[derive(Drop)]
pub(crate) struct Brackets<A: Allocator> {
    scanner: Scanner<A>,
    kept: Vec<TokenPlace, A>,
}

// The tokens were not passed: there was no memory, or one is none.
#[derive(Clone, Copy)]
struct Lost;

impl<A: Allocator + Copy> Brackets<A> {
    /// Before the first byte.
    pub(crate) fn new(alloc: A, dialect: Dialect, limit: u64) -> Brackets<A>
        ensures waits { IsWaiting result.scanner }
        ensures noted { HasNoted result dialect limit [] }
    {
        Brackets {
            scanner: Scanner::new(alloc, dialect, limit),
            kept: Vec::new(alloc),
        }
    }

    /// Takes a piece, and answers whether all tokens were passed that it decides.
    pub(crate) fn go_on(&mut self, piece: &[u8]) -> bool
        requires { IsWaiting self.old.scanner }
        ensures waits { result ≡ true → IsWaiting self.new.scanner }
        ensures noted { result ≡ true → (d : Dialect) (limit : ℕ) (bytes : List ℕ) →
            HasNoted self.old d limit bytes → HasNoted self.new d limit (bytes ++ piece.now) }
    {
        match self.pass(piece, NOWHERE) {
            Ok(is_there) => !is_there,
            Err(Lost) => false,
        }
    }

    /// The innermost bracket that is open before the token at this place, which the piece decides, or the end
    /// behind it. None too where there was no memory, or no token stands there.
    pub(crate) fn open_before(
        &mut self,
        piece: &[u8],
        is_end: bool,
        offset: u64,
    ) -> Option<TokenPlace>
        requires { IsWaiting self.old.scanner }
        ensures { (d : Dialect) (limit : ℕ) (bytes : List ℕ) → HasNoted self.old d limit bytes →
            IfSome result (IsOpenBefore (tokens_of d limit (bytes ++ piece.now) is_end) offset) }
    {
        match self.come_to(piece, is_end, offset) {
            Ok(true) => self.kept.last().copied(),
            _ => None,
        }
    }

    // Passes the tokens up to the one at this place, and answers whether it stands there.
    fn come_to(&mut self, piece: &[u8], is_end: bool, offset: u64) -> Result<bool, Lost>
        requires { IsWaiting self.old.scanner }
        ensures { IfOk result (λ is_there.
            is_there ≡ true → (d : Dialect) (limit : ℕ) (bytes : List ℕ) → HasNoted self.old d limit bytes →
            ComesTo (tokens_of d limit (bytes ++ piece.now) is_end) offset self.new.kept.items) }
    {
        if self.pass(piece, offset)? {
            return Ok(true);
        }
        if !is_end {
            return Ok(false);
        }
        self.scanner.end();
        self.pass_tokens(offset)
    }

    // Passes the tokens that a piece decides, up to one at this place, and answers whether it stands there.
    fn pass(&mut self, piece: &[u8], until: u64) -> Result<bool, Lost>
        requires { IsWaiting self.old.scanner }
        ensures waits { IfOk result (λ is_there. is_there ≡ false → IsWaiting self.new.scanner) }
        ensures passed { IfOk result (λ is_there. is_there ≡ false → (d : Dialect) (limit : ℕ) (bytes : List ℕ) →
            HasNoted self.old d limit bytes → HasNoted self.new d limit (bytes ++ piece.now)) }
        ensures there { IfOk result (λ is_there.
            is_there ≡ true → (d : Dialect) (limit : ℕ) (bytes : List ℕ) → HasNoted self.old d limit bytes →
            (e : Bool) → ComesTo (tokens_of d limit (bytes ++ piece.now) e) until self.new.kept.items) }
    {
        let mut rest = piece;
        'parts: while !rest.is_empty() {
            let taken = match self.scanner.push(rest) {
                Ok(taken) => taken,
                Err(_) => return Err(Lost),
            };
            if self.pass_tokens(until)? {
                return Ok(true);
            }
            rest = after(rest, taken);
        }
        Ok(false)
    }

    // Passes the tokens that have come, up to one at this place, and answers whether it stands there.
    fn pass_tokens(&mut self, until: u64) -> Result<bool, Lost>
        ensures waits { IfOk result (λ is_there. is_there ≡ false → IsWaiting self.new.scanner) }
        ensures passed { IfOk result (λ is_there. is_there ≡ false → (d : Dialect) (limit : ℕ) (bytes : List ℕ) →
            HasNoted self.old d limit bytes → HasNoted self.new d limit bytes) }
        ensures there { IfOk result (λ is_there.
            is_there ≡ true → (d : Dialect) (limit : ℕ) (bytes : List ℕ) → HasNoted self.old d limit bytes →
            ComesTo (tokens_of d limit bytes self.old.scanner.ended) until self.new.kept.items) }
    {
        'tokens: loop {
            match next_place(&mut self.scanner)? {
                None => return Ok(false),
                Some(place) if place.offset == until => return Ok(true),
                Some(place) => match note(&mut self.kept, place) {
                    Ok(()) => {}
                    Err(AllocError) => return Err(Lost),
                },
            }
        }
    }
}

// The bytes after the first of them.
fn after(bytes: &[u8], taken: usize) -> &[u8]
    requires { taken ≤ length bytes.now }
    ensures { result.now ≡ drop taken bytes.now }
{
    &bytes[taken..]
}

// The kind and the place of the next token.
fn next_place<A: Allocator + Copy>(scanner: &mut Scanner<A>) -> Result<Option<TokenPlace>, Lost>
    ensures { IfOk result (λ place. Offers scanner.old place scanner.new) }
{
    match scanner.next() {
        Ok(None) => Ok(None),
        Ok(Some(ref token)) => Ok(Some(TokenPlace {
            kind: token.kind,
            offset: token.offset,
            line: token.line,
        })),
        Err(_) => Err(Lost),
    }
}

// Which brackets are open after a token.
fn note<A: Allocator>(kept: &mut Vec<TokenPlace, A>, place: TokenPlace) -> Result<(), AllocError>
    ensures { OnOk result (kept.new.items ≡ open_with kept.old.items place) }
{
    if opens(place.kind) {
        kept.push(place)?;
    } else if closes(place.kind) {
        kept.pop();
    }
    Ok(())
}

fn opens(kind: Kind) -> bool
    ensures { result ≡ opens kind }
{
    matches!(kind, Kind::OpenBracket | Kind::OpenParen | Kind::OpenBrace)
}

fn closes(kind: Kind) -> bool
    ensures { result ≡ closes kind }
{
    matches!(
        kind,
        Kind::CloseBracket | Kind::CloseParen | Kind::CloseBrace
    )
}
