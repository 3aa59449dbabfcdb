// What stands at the place of a refusal.

ghost use Rattle.std.specs.Prelude.{◌≡◌, ◌≤◌, ◌-◌, List, ℕ, IfOk, OnOk, encode_utf8_all, drop, length, take, false};
ghost use Rattle.std.specs.Str.{chars};
ghost use Rattle.std.specs.Str.Lossy.{utf8_valid_len};
ghost use Rattle.rdf_tokens.specs.Scans.{IsWaiting, SameScan, token_of};
ghost use Rattle.rdf_diagnostics.specs.Sights.{IsLongestOpen, IsSight, LeavesOpen, reading_from};
ghost use Rattle.rdf_diagnostics.specs.SightRuns.{HasTaken, StandsFrom, IsSeen, IsSeenOf, Sees, SeesEnd, SeesPart};
ghost use Rattle.rdf_diagnostics.specs.SightRuns.{seen_for};

use crate::bad_escape::bad_escape_in;
use rdf_terms::{Dialect, Kind, Reason};
use rdf_tokens::{Scanner, Token, good_front};
use std::alloc::{AllocError, Allocator};

/// How many bytes are taken at once at most.
const PART: usize = 4096;

/// What stands at the place of a refusal, where the bytes from there on are read by themselves.
#[derive(Clone, Copy, Debug, PartialEq, Eq)]
pub enum Sight {
    /// A token of this kind, of so many bytes.
    Token(Kind, u64),
    /// No token: one could begin with so many of the bytes, and with no more.
    Stop(u64),
    /// A token, but for an escape that stands for no character allowed there. So many bytes of the token stand
    /// before it.
    BadEscape(u64),
    /// None of these.
    Unknown,
}

/// What the bytes so far begin with: more bytes decide, a token, no token, one with a bad escape, which begins at
/// this byte of the scanner's, or none of these.
#[derive(Clone, Copy)]
enum Seen {
    Open,
    First(Kind, u64),
    Nothing,
    Unfit(u64),
    Other,
}

/// What stands at a place of a document, where the bytes from there on are read by themselves. `rest` are those that
/// have come, and `is_end` says that no more come. White space and comments are passed first. The end of the document
/// is no token. The answer is `Unknown` where more bytes decide, where the bytes before the first token's end are no
/// UTF-8, and where that token has more characters than the limit.
pub fn sight_of<A: Allocator + Copy>(
    alloc: A,
    dialect: Dialect,
    limit: u64,
    rest: &[u8],
    is_end: bool,
) -> Result<Sight, AllocError>
    ensures { IfOk result (IsSight dialect limit rest.now is_end) }
{
    let mut front = Front::begin(alloc, dialect, limit)?;
    match front.see(rest, is_end)? {
        Seen::Open | Seen::Other => Ok(Sight::Unknown),
        Seen::First(kind, len) => Ok(Sight::Token(kind, len)),
        Seen::Nothing => {
            let len = longest_open(alloc, dialect, limit, rest, front.len)?;
            Ok(Sight::Stop(len as u64))
        }
        Seen::Unfit(offset) => match bad_escape_in(text_from(rest, offset)) {
            Some(len) => Ok(Sight::BadEscape(len)),
            None => unreachable!(),
        },
    }
}

// The text from a token on that a scanner found at this byte, after its space.
fn text_from(rest: &[u8], offset: u64) -> &str
    requires { StandsFrom rest.now offset }
    ensures { result.now ≡ drop (offset - 1) (take (utf8_valid_len rest.now) rest.now) }
{
    let start = offset as usize - 1;
    &good_front(rest).text[start..]
}

// The greatest number of the bytes with which a token could begin. So many are known to leave one open, and may end
// within a character. Those after them are taken character by character.
fn longest_open<A: Allocator + Copy>(
    alloc: A,
    dialect: Dialect,
    limit: u64,
    rest: &[u8],
    known: usize,
) -> Result<usize, AllocError>
    requires { LeavesOpen dialect limit rest.now known }
    ensures { IfOk result (IsLongestOpen dialect limit rest.now) }
{
    let mut front = Front::begin(alloc, dialect, limit)?;
    front.see_to(rest, known)?;
    let text = good_front(rest).text;
    let mut longest = 0;
    'ends: for i in 0..text.len() {
        let end = i + 1;
        if text.is_char_boundary(end) {
            match front.see_to(rest, end)? {
                Seen::Open => longest = end,
                _ => return Ok(longest),
            }
        }
    }
    Ok(longest)
}

// How many bytes a scanner has taken that leave the first token open. It has taken a space before them, so that a
// U+FEFF is no byte order mark.
#[derive(Drop)]
struct Front<A: Allocator> {
    scanner: Scanner<A>,
    len: usize,
}

impl<A: Allocator + Copy> Front<A> {
    // None was taken.
    fn begin(alloc: A, dialect: Dialect, limit: u64) -> Result<Front<A>, AllocError>
        ensures dialect { IfOk result (λ front. front.scanner.dialect ≡ dialect) }
        ensures limit { IfOk result (λ front. front.scanner.limit ≡ limit) }
        ensures taken { IfOk result (λ front. (bytes : List ℕ) → HasTaken front.scanner bytes front.len) }
    {
        let mut scanner = Scanner::new(alloc, dialect, limit);
        see_part(&mut scanner, b" ")?;
        Ok(Front { scanner, len: 0 })
    }

    // Takes all bytes, and then the end where no more come, up to what decides.
    fn see(&mut self, rest: &[u8], is_end: bool) -> Result<Seen, AllocError>
        requires { HasTaken self.old.scanner rest.now self.old.len }
        ensures seen { IfOk result
            (IsSeen (reading_from self.old.scanner.dialect self.old.scanner.limit rest.now is_end)) }
        ensures leaves { OnOk result
            (LeavesOpen self.old.scanner.dialect self.old.scanner.limit rest.now self.new.len) }
    {
        match self.see_to(rest, rest.len())? {
            Seen::Open => Ok(see_end(&mut self.scanner, is_end)),
            seen => Ok(seen),
        }
    }

    // Takes so many of the bytes, up to those that decide.
    fn see_to(&mut self, rest: &[u8], end: usize) -> Result<Seen, AllocError>
        requires taken { HasTaken self.old.scanner rest.now self.old.len }
        requires end { end ≤ length rest.now }
        ensures same { OnOk result (SameScan self.old.scanner self.new.scanner) }
        ensures seen { IfOk result
            (IsSeen (reading_from self.old.scanner.dialect self.old.scanner.limit (take end rest.now) false)) }
        ensures leaves { OnOk result
            (LeavesOpen self.old.scanner.dialect self.old.scanner.limit rest.now self.new.len) }
        ensures taken { IfOk result (λ seen. seen ≡ Seen.Open → HasTaken self.new.scanner rest.now self.new.len) }
        ensures far { IfOk result (λ seen. seen ≡ Seen.Open → end ≤ self.new.len) }
    {
        'parts: while self.len < end {
            let part_end = self.len + (end - self.len).min(PART);
            let (taken, seen) = see_part(&mut self.scanner, &rest[self.len..part_end])?;
            match seen {
                Seen::Open => self.len += taken,
                _ => return Ok(seen),
            }
        }
        Ok(Seen::Open)
    }
}

// Takes some bytes of a piece, and asks for the first token.
fn see_part<A: Allocator + Copy>(
    scanner: &mut Scanner<A>,
    piece: &[u8],
) -> Result<(usize, Seen), AllocError>
    requires { IsWaiting scanner.old }
    ensures { IfOk result (λ r. SeesPart scanner.old piece.now r.0 r.1 scanner.new) }
{
    match scanner.push(piece) {
        Ok(taken) => Ok((taken, see_next(scanner))),
        Err(_) => Err(AllocError),
    }
}

// Asks for the first token again where no more bytes come.
fn see_end<A: Allocator + Copy>(scanner: &mut Scanner<A>, is_end: bool) -> Seen
    requires { IsWaiting scanner.old }
    ensures { SeesEnd scanner.old is_end result }
{
    if is_end {
        scanner.end();
        see_next(scanner)
    } else {
        Seen::Open
    }
}

// Asks for the first token.
fn see_next<A: Allocator + Copy>(scanner: &mut Scanner<A>) -> Seen
    requires { scanner.old.stopped ≡ false }
    ensures { Sees scanner.old result scanner.new }
{
    match scanner.next() {
        Ok(None) => Seen::Open,
        Ok(Some(ref token)) => seen_of(token),
        Err(fault) => seen_for(fault.reason, fault.offset),
    }
}

fn seen_of(token: &Token<'_>) -> Seen
    ensures { IsSeenOf (token_of token.now) result }
{
    match token.kind {
        Kind::End => Seen::Other,
        kind => Seen::First(kind, byte_len(token.text)),
    }
}

fn byte_len(text: &str) -> u64
    ensures { result ≡ length (encode_utf8_all (chars text.now)) }
{
    text.len() as u64
}

fn seen_for(reason: Reason, offset: u64) -> Seen
    ensures { result ≡ seen_for reason offset }
{
    match reason {
        Reason::NoToken => Seen::Nothing,
        Reason::BadEscape => Seen::Unfit(offset),
        _ => Seen::Other,
    }
}
