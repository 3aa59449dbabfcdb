// What is kept of the bytes of a document, to tell of the place of a refusal.

ghost use Rattle.std.specs.Prelude.{◌≡◌, ◌≤◌, ◌<◌, ◌+◌, ◌^◌, ◌++◌, [], List, ℕ, None, Some, false, true, length, take};
ghost use Rattle.std.specs.Prelude.{IfOk, IfSome};
ghost use Rattle.rdf_terms.specs.declared.kind.Dialect.{Dialect};
ghost use Rattle.rdf_tokens.specs.Good.{tokens_of};
ghost use Rattle.rdf_tokens.specs.Scans.{IsWaiting};
ghost use Rattle.rdf_stream.specs.Brackets.{IsOpenBefore};
ghost use Rattle.rdf_stream.specs.Opening.{HasOpen};
ghost use Rattle.rdf_stream.specs.Places.{HandsOut, IsNear, column_after, last_of, line_after, line_rest, next_column};
ghost use Rattle.rdf_stream.specs.Places.{reach};
ghost use Rattle.rdf_stream.specs.Watches.{is_asked};
ghost use Rattle.rdf_stream.specs.Kept.{Watches};
ghost use Rattle.rdf_stream.specs.Watches.{IsNearFault, IsToldOf, WatchesAll};

use crate::brackets::{Brackets, Opened, TokenPlace};
use crate::fault::StreamFault;
use crate::pieces::Run;
use memchr::memrchr;
use rdf_diagnostics::{Sight, sight_of};
use rdf_terms::{Dialect, Reason};
use rdf_tokens::Fault;
use std::alloc::{AllocError, Allocator, Global};
use std::marker::Model;

/// How many bytes of a line are told of at most, in front of a place and from it on: with more nothing else would be
/// shown by `put_excerpt`.
const REACH: usize = 244;

/// The number of bytes that a document has at most.
const MOST_BYTES: u64 = (1 << 63) - 1;

/// The place of a refusal in its line, and the bytes near it.
#[derive(Drop)]
pub struct Near<A: Allocator = Global> {
    /// The column, in characters, counted from 1. A byte that is no UTF-8 counts as one, but one that could go on
    /// with a character.
    pub column: u64,
    /// The bytes of the line in front of the place, the last 244 where it has more.
    pub before: Vec<u8, A>,
    /// The bytes of the line from the place on, as far as they had come, the first 244 where it has more.
    pub after: Vec<u8, A>,
    /// What stands there.
    pub sight: Sight,
    /// The innermost bracket that is open before an unexpected token, where it is known.
    pub bracket: Option<Opened>,
}

impl<A: Allocator> Model for Near<A> {
    ghost use Rattle.rdf_stream.specs.Places.{NearRead};

    ghost Value = { NearRead };

    ghost view = { λ n. record {
      column = n.column;
      before = n.before.items;
      after = n.after.items;
      sight = n.sight;
      bracket = n.bracket;
    } };
}

/// Whether the place of a refusal is asked for, and what is told of it.
#[derive(Drop)]
pub enum Nearby<N> {
    /// It is not asked for.
    Unasked,
    /// It is asked for, and nothing is told of it.
    Asked,
    /// It is told.
    Told(N),
}

impl<N: Drop> Nearby<N> {
    // Nothing is told, where something was; and whether it is asked for.
    pub(crate) fn ask_again(&mut self) -> bool
        ensures asked { result ≡ is_asked self.old }
        ensures untold { HandsOut self.old (λ n. ⊥) self.new }
        ensures again { HandsOut self.new (λ n. ⊥) self.new }
        ensures same { is_asked self.new ≡ is_asked self.old }
    {
        match self {
            Nearby::Unasked => false,
            Nearby::Asked | Nearby::Told(_) => {
                *self = Nearby::Asked;
                true
            }
        }
    }
}

/// The last bytes of a document that have come, and where they stand.
#[derive(Drop)]
pub(crate) struct Watch<A: Allocator = Global> {
    // How many bytes came before those that are kept, and the column of the first of these.
    offset: u64,
    column: u64,
    kept: Vec<u8, A>,
}

impl<A: Allocator> Model for Watch<A> {
    ghost use Rattle.std.specs.Prelude.{◌≤◌, ◌<◌, ◌+◌, ◌^◌, length};
    ghost use Rattle.rdf_stream.specs.Kept.{Kept};

    ghost Value = { Kept };

    ghost view = { λ w. record { offset = w.offset; column = w.column; bytes = w.kept.items } };

    ghost invariant = { λ w. (w.column ≤ w.offset + 1) × (w.offset + length w.kept.items < 2 ^ 63) };
}

/// The dialect of a document's tokens, and how many characters one may have.
#[derive(Clone, Copy)]
pub(crate) struct Words {
    pub(crate) dialect: Dialect,
    pub(crate) limit: u64,
}

impl Words {
    pub(crate) fn new(dialect: Dialect, limit: u64) -> Words
        ensures dialect { result.dialect ≡ dialect }
        ensures limit { result.limit ≡ limit }
    {
        Words { dialect, limit }
    }
}

/// What is kept while a document is read, and what is told of the place of its refusal.
#[derive(Drop)]
pub(crate) struct Watching<A: Allocator = Global> {
    alloc: A,
    words: Words,
    // None where the place is not asked for, or there was no memory for what is kept.
    watch: Option<Watch<A>>,
    // None too where no token is unexpected, and in the line formats, which have no brackets.
    brackets: Option<Brackets<A>>,
    pub(crate) near: Option<Near<A>>,
}

impl<A: Allocator + Copy> Watching<A> {
    /// Before the first byte. Where the place is not asked for, nothing is kept. `has_grammar` says that a token
    /// may be unexpected.
    pub(crate) fn new(alloc: A, words: Words, asked: bool, has_grammar: bool) -> Watching<A>
        ensures words { result.words ≡ words }
        ensures kept { WatchesAll result [] }
        ensures untold { result.near ≡ None }
        ensures unasked { asked ≡ false → result.watch ≡ None }
    {
        Watching {
            alloc,
            words,
            watch: if asked { Some(Watch::new(alloc)) } else { None },
            brackets: if asked && has_grammar {
                new_brackets(alloc, words)
            } else {
                None
            },
            near: None,
        }
    }

    /// Hands out what is told of the place, where it is.
    pub(crate) fn hand_out(self, near: &mut Nearby<Near<A>>)
        requires untold { HandsOut near.old (λ n. ⊥) near.old }
        requires unasked { is_asked near.old ≡ false → self.near ≡ None }
        ensures { HandsOut near.old (λ n. self.near ≡ Some n) near.new }
    {
        let Watching { near: told, .. } = self;
        if let Some(told) = told {
            *near = Nearby::Told(told);
        }
    }

    /// A piece was read. The run says in how many of the last bytes a refusal may still stand, and is asked only
    /// where something is kept.
    pub(crate) fn go_on<L, R: Run<L>>(&mut self, piece: &[u8], run: &R)
        requires kept { (bytes : List ℕ) × WatchesAll self.old bytes }
        ensures kept { (bytes : List ℕ) → WatchesAll self.old bytes → WatchesAll self.new (bytes ++ piece.now) }
        ensures words { self.new.words ≡ self.old.words }
        ensures untold { self.new.near ≡ self.old.near }
        ensures unasked { self.old.watch ≡ None → self.new.watch ≡ None }
    {
        if let Some(watch) = &mut self.watch {
            if watch.take(piece, run.open()) {
                pass(&mut self.brackets, piece);
            } else {
                self.watch = None;
            }
        }
    }

    /// Reading has stopped in a piece, or at the end behind it.
    pub(crate) fn stop(&mut self, piece: &[u8], is_end: bool, fault: &StreamFault)
        requires kept { (bytes : List ℕ) × WatchesAll self.old bytes }
        requires untold { self.old.near ≡ None }
        ensures told { (bytes : List ℕ) → WatchesAll self.old bytes →
            IfSome self.new.near (λ n. IsNearFault self.old.words fault.now (bytes ++ piece.now) is_end n) }
        ensures unasked { self.old.watch ≡ None → self.new.near ≡ None }
    {
        if let StreamFault::Refused(fault) = fault {
            if let Some(watch) = &mut self.watch {
                if watch.add(piece) {
                    let bracket = open_before(&mut self.brackets, piece, is_end, fault);
                    if let Ok(near) = watch.near(
                        self.alloc,
                        self.words,
                        fault.offset,
                        is_end,
                        bracket,
                    ) {
                        self.near = near;
                    }
                }
            }
        }
    }
}

// What keeps the brackets that are open, in the dialect that has some.
fn new_brackets<A: Allocator + Copy>(alloc: A, words: Words) -> Option<Brackets<A>>
    ensures { IfSome result (λ b. HasOpen b words.dialect words.limit []) }
{
    match words.dialect {
        Dialect::Lines => None,
        Dialect::Turtle => Some(Brackets::new(alloc, words.dialect, words.limit)),
    }
}

// Takes a piece. Where its tokens were not passed, no brackets are kept any more.
fn pass<A: Allocator + Copy>(brackets: &mut Option<Brackets<A>>, piece: &[u8])
    requires { IfSome brackets.old (λ b. IsWaiting b.scanner) }
    ensures { (d : Dialect) (limit : ℕ) (bytes : List ℕ) → IfSome brackets.old (λ b. HasOpen b d limit bytes) →
        IfSome brackets.new (λ b. HasOpen b d limit (bytes ++ piece.now)) }
{
    if let Some(kept) = brackets {
        if !kept.go_on(piece) {
            *brackets = None;
        }
    }
}

// The innermost bracket that is open before an unexpected token, where it is known.
fn open_before<A: Allocator + Copy>(
    brackets: &mut Option<Brackets<A>>,
    piece: &[u8],
    is_end: bool,
    fault: &Fault,
) -> Option<TokenPlace>
    requires { IfSome brackets.old (λ b. IsWaiting b.scanner) }
    ensures { (d : Dialect) (limit : ℕ) (bytes : List ℕ) → IfSome brackets.old (λ b. HasOpen b d limit bytes) →
        IfSome result (IsOpenBefore (tokens_of d limit (bytes ++ piece.now) is_end) fault.now.offset) }
{
    match (fault.reason, brackets) {
        (Reason::Unexpected, Some(brackets)) => brackets.open_before(piece, is_end, fault.offset),
        _ => None,
    }
}

impl<A: Allocator + Copy> Watch<A> {
    // No byte has come.
    fn new(alloc: A) -> Watch<A>
        ensures { Watches result [] }
    {
        Watch {
            offset: 0,
            column: 1,
            kept: Vec::new(alloc),
        }
    }

    // Takes a piece, and answers whether there was room for it. With what came before it, so many bytes at the end
    // are kept, and some in front of them.
    fn take(&mut self, piece: &[u8], open: u64) -> bool
        ensures { result ≡ true → (bytes : List ℕ) → Watches self.old bytes → Watches self.new (bytes ++ piece.now) }
    {
        if !self.add(piece) {
            return false;
        }
        let wanted = open.saturating_add(REACH as u64);
        let len = self.kept.len() as u64;
        if wanted < len {
            self.forget((len - wanted) as usize);
        }
        true
    }

    // Keeps the bytes of a piece too, and answers whether there was room for them.
    fn add(&mut self, piece: &[u8]) -> bool
        ensures { result ≡ true → (bytes : List ℕ) → Watches self.old bytes → Watches self.new (bytes ++ piece.now) }
    {
        let room = MOST_BYTES - self.offset - self.kept.len() as u64;
        if room < piece.len() as u64 {
            return false;
        }
        self.kept.extend_from_slice(piece).is_ok()
    }

    // Keeps no more of the first bytes.
    fn forget(&mut self, count: usize)
        requires within { count ≤ length self.old.bytes }
        ensures same { (bytes : List ℕ) → Watches self.old bytes → Watches self.new bytes }
        ensures count { self.new.offset + length self.new.bytes ≡ self.old.offset + length self.old.bytes }
    {
        self.column = column_after(self.column, &self.kept[..count]);
        self.offset += count as u64;
        let rest = self.kept.len() - count;
        self.kept.copy_within(count.., 0);
        self.kept.truncate(rest);
    }

    // What is known of the place of this byte. None where it is not among those that are kept, or too little of its
    // line is.
    fn near(
        &self,
        alloc: A,
        words: Words,
        offset: u64,
        is_end: bool,
        bracket: Option<TokenPlace>,
    ) -> Result<Option<Near<A>>, AllocError>
        ensures { IfOk result (λ near. IfSome near (λ n. (bytes : List ℕ) → Watches self.now bytes →
            IfSome bracket (IsOpenBefore (tokens_of words.dialect words.limit bytes is_end) offset) →
            IsNear words.dialect words.limit bytes is_end offset n)) }
    {
        let at = match self.place_of(offset) {
            Some(at) => at,
            None => return Ok(None),
        };
        match self.line_before(at) {
            Some(line) => Ok(Some(Near {
                column: column_after(self.column, &self.kept[..at]),
                before: Vec::from_slice(alloc, line)?,
                after: Vec::from_slice(alloc, line_after(&self.kept[at..]))?,
                sight: sight_of(alloc, words.dialect, words.limit, &self.kept[at..], is_end)?,
                bracket: self.told_of(bracket),
            })),
            None => Ok(None),
        }
    }

    // What is told of a bracket.
    fn told_of(&self, bracket: Option<TokenPlace>) -> Option<Opened>
        ensures { (bytes : List ℕ) → Watches self.now bytes → IsToldOf bytes bracket result }
    {
        match bracket {
            Some(place) => Some(Opened {
                kind: place.kind,
                line: place.line,
                column: self.column_at(place.offset),
            }),
            None => None,
        }
    }

    // The column of this byte, where it is among those that are kept.
    fn column_at(&self, offset: u64) -> Option<u64>
        ensures { IfSome result (λ n.
            (bytes : List ℕ) → Watches self.now bytes → n ≡ column_after 1 (take offset bytes)) }
    {
        let at = self.place_of(offset)?;
        Some(column_after(self.column, &self.kept[..at]))
    }

    // Where this byte stands in what is kept, if it is among that.
    fn place_of(&self, offset: u64) -> Option<usize>
        ensures within { IfSome result (λ at. at ≤ length self.now.bytes) }
        ensures is { IfSome result (λ at. offset ≡ self.now.offset + at) }
    {
        if offset < self.offset || (self.kept.len() as u64) < offset - self.offset {
            return None;
        }
        Some((offset - self.offset) as usize)
    }

    // The last bytes of the line in front of a byte that is kept. None where more of them would be told than are kept.
    fn line_before(&self, at: usize) -> Option<&[u8]>
        requires within { at ≤ length self.now.bytes }
        ensures { IfSome result (λ line. (bytes : List ℕ) → (w : Watches self.now bytes) →
            line.now ≡ last_of reach (line_after [] (w.gone ++ take at self.now.bytes))) }
    {
        let front = &self.kept[..at];
        match memrchr(b'\n', front) {
            Some(feed) => Some(last_of(&front[feed + 1..])),
            None if self.offset == 0 || REACH <= at => Some(last_of(front)),
            None => None,
        }
    }
}

// The last bytes, at most as many as are told of.
fn last_of(bytes: &[u8]) -> &[u8]
    ensures { result.now ≡ last_of reach bytes.now }
{
    &bytes[bytes.len().saturating_sub(REACH)..]
}

// The bytes up to the next line feed, at most as many as are told of.
fn line_after(bytes: &[u8]) -> &[u8]
    ensures { result.now ≡ take reach (line_rest bytes.now) }
{
    let mut len = 0;
    while len < REACH && len < bytes.len() && bytes[len] != b'\n' {
        len += 1;
    }
    &bytes[..len]
}

// The column after some bytes, by the one before them.
fn column_after(column: u64, bytes: &[u8]) -> u64
    requires { column + length bytes.now < 2 ^ 64 }
    ensures { result ≡ column_after column bytes.now }
{
    match memrchr(b'\n', bytes) {
        Some(feed) => counted(1, &bytes[feed + 1..]),
        None => counted(column, bytes),
    }
}

// The same, byte by byte.
fn counted(column: u64, bytes: &[u8]) -> u64
    requires { column + length bytes.now < 2 ^ 64 }
    ensures { result ≡ column_after column bytes.now }
{
    let mut now = column;
    for byte in bytes {
        now = next_column(now, *byte);
    }
    now
}

fn next_column(column: u64, byte: u8) -> u64
    requires { column + 1 < 2 ^ 64 }
    ensures { result ≡ next_column column byte }
{
    if byte == b'\n' {
        1
    } else if byte / 64 == 2 {
        column
    } else {
        column + 1
    }
}
