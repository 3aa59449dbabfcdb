// The scanner.

ghost use Rattle.std.specs.Prelude.{false, ◌≡◌, ◌≢◌, ◌==◌, ℕ, List, [], ◌++◌, count_by, true, OnOk, OnErr, IfOk};
ghost use Rattle.std.specs.Prelude.{IfSome, cond, min, ◌-◌, ◌+◌, ◌≤◌, ◌<◌, ◌&&◌, ◌||◌, nat_le, length, drop, take};
ghost use Rattle.std.specs.Prelude.{encode_utf8_all, ⊤, ◌/◌, ◌^◌};
ghost use Rattle.std.specs.Str.{chars, IsCharBoundary};
ghost use Rattle.std.specs.String.{string_bytes};
ghost use mathlib.Core.Option.{none};
ghost use Rattle.std.specs.Borrow.{sem, follows_so};
ghost use Rattle.rdf_tokens.specs.Tokens.{Token as Read, step, is_empty};
ghost use Rattle.rdf_tokens.specs.Scans.{PassesBlank, SameButHeld, HasScanned, Pushes, Gives, KnowsColon, left};
ghost use Rattle.rdf_tokens.specs.Scans.{most_bytes, place_of, unread_bytes, IsWaiting, most_unread, fitting};
ghost use Rattle.rdf_tokens.specs.Scans.{at_once};
ghost use Rattle.rdf_tokens.specs.Look.{tail_after, IsLook};
ghost use Rattle.rdf_tokens.specs.contracts.scanner.Scanner.{the_row};
ghost use Rattle.rdf_tokens.specs.declared.scanner.Blanks.TheVariants.{Passed, InComment};
ghost use Rattle.rdf_tokens.specs.Moves.{closed, grown, good_bytes, is_broken, rest_of_bytes, is_settled, tail_now};
ghost use Rattle.rdf_tokens.specs.Moves.{fault_place, is_flat, GivesEnd, GivesWithColon, Moves, MovesBytes, Stands};
ghost use Rattle.rdf_tokens.specs.Passing.{is_idle, passed};
ghost use Rattle.rdf_tokens.specs.Front.{bytes_of};
ghost use Rattle.rdf_tokens.specs.Peek.{IsPeeked, MayPeek, TakesSeen, is_running};

use crate::blank::{blank_run, indented, is_in_comment, is_one};
use crate::front::{NoNames, Walk};
use crate::good::{few_line_feeds, good_front, line_feeds, mark_len};
use crate::look::{Look, Tail, first_look, look_at};
use crate::peek::{Peeked, far_seen, first_seen};
use crate::quick::stands_at;
use crate::token::{Fault, Token};
use rdf_terms::{Dialect, Kind, Reason};
use std::alloc::{AllocError, Allocator, Global};
use std::marker::Model;

/// The greatest number of bytes in a document.
const MOST_BYTES: u64 = 0x7fff_ffff_ffff_ffff;

/// The number of bytes that are taken at once at most.
const MOST_AT_ONCE: u64 = 65536;

/// The same where the limit is low.
const LEAST_AT_ONCE: u64 = 512;

/// The number of bytes for which memory stays where it is given back.
const LEAST_CAPACITY: usize = 65536;

/// What white space and comments were passed before the next token.
#[derive(Clone, Copy, PartialEq, Eq, Debug)]
pub enum Blanks {
    /// Some, after which the next token may stand.
    Passed,
    /// None: nothing stands there but one space at most, behind which `peek` has looked.
    Nothing,
    /// A comment that goes on to the end of the text.
    InComment,
}

/// Takes the bytes of a document in pieces, and gives its tokens.
#[derive(Drop)]
pub struct Scanner<A: Allocator = Global> {
    dialect: Dialect,
    limit: u64,
    // Good text, of which the first `start` bytes are read.
    text: String<A>,
    start: usize,
    // How far the states have come in the token that the rest of the text begins with, where it is open.
    walk: Option<Walk>,
    // Up to where the text is known to have no name.
    no_names: Option<NoNames>,
    // The bytes after the text that begin a character.
    pending: Vec<u8, A>,
    broken: bool,
    begun: bool,
    comment: bool,
    offset: u64,
    line: u64,
    taken: u64,
    last_line: u64,
    ended: bool,
    stopped: bool,
}

impl<A: Allocator> Model for Scanner<A> {
    ghost use Rattle.std.specs.Prelude.{drop};
    ghost use Rattle.std.specs.Str.{chars};
    ghost use Rattle.std.specs.String.{string_bytes};
    ghost use Rattle.rdf_tokens.specs.Unread.{Unread};
    ghost use Rattle.rdf_tokens.specs.Held.{all_bytes, Holds};

    ghost Value = { Unread };

    ghost view = { λ s. record {
      dialect = s.dialect;
      limit = s.limit;
      place = record { offset = s.offset; line = s.line };
      begun = s.begun;
      comment = s.comment;
      text = chars (drop s.start (string_bytes s.text));
      pending = s.pending.items;
      broken = s.broken;
      taken = record { offset = s.taken; line = s.last_line };
      ended = s.ended;
      stopped = s.stopped;
      held = all_bytes (string_bytes s.text) s.pending.items;
    } };

    ghost invariant = { λ s. Holds s.dialect s.limit (string_bytes s.text) s.start s.walk s.no_names s.pending.items
        (record { offset = s.offset; line = s.line }) (record { offset = s.taken; line = s.last_line }) };
}

impl<A: Allocator + Copy> Scanner<A> {
    /// A scanner that has read nothing. It takes no memory.
    pub fn new(alloc: A, dialect: Dialect, limit: u64) -> Scanner<A>
        ensures read { HasScanned result [] [] }
        ensures dialect { result.dialect ≡ dialect }
        ensures limit { result.limit ≡ limit }
        ensures running { IsWaiting result }
    {
        Scanner {
            dialect,
            limit,
            text: String::new(alloc),
            start: 0,
            walk: None,
            no_names: None,
            pending: Vec::new(alloc),
            broken: false,
            begun: false,
            comment: false,
            offset: 0,
            line: 1,
            taken: 0,
            last_line: 1,
            ended: false,
            stopped: false,
        }
    }

    /// How many bytes are held of which no token was given: of the text, and of a character that has not come
    /// whole. After a `next` that answered `None` they are the bytes that leave the next token open. Text that was
    /// read stays until the next `push`. It is not counted here, but with it too the bytes that are held are at
    /// most four for each character of the limit and for one more, and three: at all times, also after an error. It
    /// takes no memory.
    pub fn pending(&self) -> u64
        ensures count { result ≡ unread_bytes self.now }
        ensures within { result ≤ self.now.held }
        ensures all { self.now.held ≤ most_unread self.now.limit }
        ensures bound { result ≤ most_unread self.now.limit }
        ensures few { result ≤ most_bytes }
    {
        (self.text.len() - self.start + self.pending.len()) as u64
    }

    /// Says that no more bytes come. After a stop it does nothing.
    pub fn end(&mut self)
        ensures after { self.new ≡ closed self.old }
        ensures read { (bytes : List ℕ) (ts : List Read) → HasScanned self.old bytes ts → HasScanned self.new bytes ts }
    {
        if !self.stopped {
            self.ended = true;
        }
    }

    /// Takes the bytes of the piece that there is room for, and answers how many: at most 65,536 at once, and fewer
    /// where the limit is low. After a `next` that answered `None` they are at least one of a piece that is not
    /// empty. After a stop and after `end` it answers `Ended`. A document has at most 2^63 - 1 bytes: for a piece
    /// after them it answers `DocumentTooLong`. After that, and after `Memory`, the scanner is stopped.
    pub fn push(&mut self, piece: &[u8]) -> Result<usize, Fault>
        ensures { Pushes self.old piece.now result self.new }
    {
        if self.stopped || self.ended {
            return Err(self.fault(Reason::Ended));
        }
        if self.taken == MOST_BYTES && !piece.is_empty() {
            return Err(self.stop(Reason::DocumentTooLong));
        }
        let len = self.room(piece.len().min(at_once(self.limit)));
        match self.take_in(&piece[..len]) {
            Ok(()) => Ok(len),
            Err(_) => Err(self.stop(Reason::Memory)),
        }
    }

    /// Gives the next token, or `None` where the bytes so far leave it undecided. After the last one it
    /// gives `End`, once. A fault stands at the place of the token that is not there; `BadUtf8` after
    /// all of the text. After it, and after `End`, the scanner is stopped and answers `Ended`.
    pub fn next(&mut self) -> Result<Option<Token<'_>>, Fault>
        ensures* { sem 𝓛 (follows_so (the_row A.row A.Allocator)
            (the_row A.row A.Allocator) self.entry.ghost_name none (λ _ _. ⊤) (Gives self.old result)) }
    {
        if self.stopped {
            return Err(self.fault(Reason::Ended));
        }
        if !self.is_settled() {
            return Ok(None);
        }
        self.drop_mark();
        self.drop_blanks();
        match self.look() {
            Look::Undecided => Ok(None),
            Look::Complete => Ok(Some(self.give_end())),
            Look::Stop(reason) => Err(self.stop_here(reason)),
            Look::Token(len, kind) => Ok(Some(self.give(kind, len, 0))),
        }
    }

    /// Whether `peek` can be asked: tokens of Turtle are given, no comment is open, the text has no more bytes than
    /// a token may have characters, and the token that it begins with was not looked at before. `false` tells
    /// nothing: then `next` is to be asked. While tokens are seen and taken it stays `true`. It takes no memory.
    #[inline(always)]
    pub fn may_peek(&self) -> bool
        ensures { result ≡ true → MayPeek self.now }
    {
        if !self.is_running() {
            return false;
        }
        self.walk.is_none() && self.rest().len() as u64 <= self.limit
    }

    /// The next token of Turtle, where its first bytes settle it and it stands at once or after one space. It is
    /// asked after `may_peek` has answered `true`. Nothing is taken. `None` tells nothing: then `next` is to be
    /// asked. It takes no memory.
    #[inline(always)]
    pub fn peek(&self) -> Option<Peeked>
        requires { MayPeek self.now }
        ensures { IfSome result (IsPeeked self.now) }
    {
        first_seen(self.rest(), &self.no_names)
    }

    /// The same of less frequent tokens too, at more cost: strings in `'` and empty ones, doubles without a sign,
    /// prefixes alone, and tokens at the end of the text. It is asked where `peek` tells nothing and `pass_blanks`
    /// passes nothing.
    #[inline(always)]
    pub fn peek_far(&self) -> Option<Peeked>
        requires { MayPeek self.now }
        ensures { IfSome result (IsPeeked self.now) }
    {
        far_seen(self.rest(), &self.no_names)
    }

    /// Gives the token that was seen, as `next` would. After it `peek` can be asked again.
    #[inline(always)]
    pub fn take(&mut self, peeked: Peeked) -> Token<'_>
        requires { IsPeeked self.old peeked }
        ensures* { sem 𝓛 (follows_so (the_row A.row A.Allocator)
            (the_row A.row A.Allocator) self.entry.ghost_name none (λ _ _. ⊤)
            (TakesSeen self.old peeked result)) }
    {
        self.move_on(peeked.blank, 0);
        self.give(peeked.kind, peeked.len, peeked.colon)
    }

    /// Passes a line feed of Turtle that stands next, or two, and the spaces and tabs after them, where `peek` can
    /// be asked and neither more white space nor a comment comes then. What the next token is, and where it stands,
    /// stays as it is: it is only sooner looked for, and `peek` can be asked again. It takes no memory.
    #[inline(always)]
    pub fn pass_line_feed(&mut self)
        requires { MayPeek self.old }
        ensures passes { PassesBlank self.old self.new }
        ensures again { MayPeek self.new }
    {
        if !stands_at(b'\n', self.rest().as_bytes(), 0) {
            return;
        }
        if is_one(b'\n', Dialect::Turtle, self.rest()) {
            self.move_on(1, 1);
        } else {
            self.pass_indentation();
        }
    }

    // The same where a line feed stands next, with another after it or with spaces or tabs.
    fn pass_indentation(&mut self)
        requires { MayPeek self.old }
        ensures passes { PassesBlank self.old self.new }
        ensures again { MayPeek self.new }
    {
        let blank = indented(self.rest());
        if blank.len > 0 {
            self.move_on(blank.len, blank.feeds);
        }
    }

    /// Passes the white space and the comments of Turtle that stand next, where `peek` can be asked. It can be
    /// asked again but where the text ends in a comment. What the next token is, and where it stands, stays as it
    /// is: it is only sooner looked for. It takes no memory.
    pub fn pass_blanks(&mut self) -> Blanks
        requires { MayPeek self.old }
        ensures passes { PassesBlank self.old self.new }
        ensures forward { result ≡ Passed → left self.new < left self.old }
        ensures again { (result ≢ InComment) → MayPeek self.new }
    {
        if is_one(b' ', Dialect::Turtle, self.rest()) {
            return Blanks::Nothing;
        }
        let blank = blank_run(self.dialect, self.comment, self.rest());
        if blank.len == 0 {
            return Blanks::Nothing;
        }
        self.comment = blank.in_comment;
        self.advance(blank.len);
        if blank.in_comment {
            Blanks::InComment
        } else {
            Blanks::Passed
        }
    }

    // Whether tokens of Turtle are given, and no comment is open.
    #[inline(always)]
    fn is_running(&self) -> bool
        ensures { result ≡ is_running self.now }
    {
        self.dialect == Dialect::Turtle && self.begun && !self.stopped && !self.comment
    }

    /// Whether so many bytes can be passed: the scanner stands between two tokens, and the document does not become
    /// too long.
    pub fn can_pass(&self, len: usize) -> bool
        ensures { result ≡ (is_idle self.now && nat_le (self.now.taken.offset + len) most_bytes) }
    {
        self.is_idle() && len as u64 <= MOST_BYTES - self.taken
    }

    /// Moves on over bytes between two tokens, as if they had come and been read. What they are is the caller's to
    /// know. It takes no memory.
    pub fn pass(&mut self, bytes: &[u8])
        requires idle { is_idle self.old ≡ true }
        requires room { self.old.taken.offset + length bytes.now ≤ most_bytes }
        ensures { self.new ≡ passed self.old bytes.now }
    {
        let len = bytes.len() as u64;
        let feeds = line_feeds(bytes) as u64;
        self.offset += len;
        self.line += feeds;
        self.taken += len;
        self.last_line += feeds;
    }

    /// Gives memory back that the text of given tokens took, as after a long one. What is to be read stays as it
    /// is: where a smaller block is refused, the greater one stays.
    pub fn shrink(&mut self)
        ensures same { SameButHeld self.old self.new }
        ensures less { self.new.held ≤ self.old.held }
    {
        match drop_front(&mut self.text, self.start) {
            Ok(()) => {
                self.start = 0;
                self.text.shrink_to(LEAST_CAPACITY);
            }
            Err(_) => {}
        }
    }

    // Whether all that came was given as tokens, and more may come.
    fn is_idle(&self) -> bool
        ensures { result ≡ is_idle self.now }
    {
        !self.is_closed() && self.begun && self.has_no_text() && self.pending.is_empty()
    }

    fn is_closed(&self) -> bool
        ensures { result ≡ (self.now.stopped || self.now.ended || self.now.broken || self.now.comment) }
    {
        self.stopped || self.ended || self.broken || self.comment
    }

    fn has_no_text(&self) -> bool
        ensures { result ≡ is_empty self.now.text }
    {
        self.rest().is_empty()
    }

    fn look(&mut self) -> Look
        ensures look { IsLook result (step self.new.dialect self.new.limit
            (tail_now self.new) self.new.text) self.new.text }
        ensures same { self.new ≡ self.old }
    {
        let rest = &self.text.as_str()[self.start..];
        if let Some(look) = first_look(
            self.dialect,
            rest,
            self.limit,
            &mut self.walk,
            &self.no_names,
        ) {
            return look;
        }
        let tail = self.tail();
        let rest = &self.text.as_str()[self.start..];
        look_at(self.dialect, rest, tail, &mut self.walk, &mut self.no_names)
    }

    fn tail(&self) -> Tail
        ensures { tail_after result ≡ tail_now self.now }
    {
        if self.broken || self.ended && !self.pending.is_empty() {
            Tail::Broken
        } else if self.ended {
            Tail::Ended
        } else {
            Tail::GoesOn
        }
    }

    fn give_end(&mut self) -> Token<'_>
        ensures* { sem 𝓛 (follows_so (the_row A.row A.Allocator)
            (the_row A.row A.Allocator) self.entry.ghost_name none (λ _ _. ⊤)
            (GivesEnd self.old result)) }
    {
        self.stopped = true;
        Token {
            kind: Kind::End,
            text: "",
            offset: self.offset,
            line: self.line,
            colon: 0,
        }
    }

    #[inline(always)]
    fn give(&mut self, kind: Kind, len: usize, colon: usize) -> Token<'_>
        requires bytes { (n : ℕ) × (len ≡ bytes_of n self.old.text)
            × (is_flat kind ≡ true → count_by (λ c. c == 10) (take n self.old.text) ≡ 0) }
        requires colon { KnowsColon (take len (encode_utf8_all self.old.text)) colon }
        ensures* { sem 𝓛 (follows_so (the_row A.row A.Allocator)
            (the_row A.row A.Allocator) self.entry.ghost_name none (λ _ _. ⊤)
            (GivesWithColon self.old kind len result)) }
    {
        let start = self.start;
        let end = start + len;
        let offset = self.offset;
        let line = self.line;
        let feeds = feeds_of(kind, &self.text.as_bytes()[start..end]);
        add_feeds(&mut self.line, feeds);
        self.offset += len as u64;
        self.start = end;
        forget(&mut self.walk);
        self.comment = false;
        Token {
            kind,
            text: &self.text.as_str()[start..end],
            offset,
            line,
            colon,
        }
    }

    fn stop_here(&mut self, reason: Reason) -> Fault
        ensures stopped { self.new ≡ record self.old { stopped = true } }
        ensures reason { result.reason ≡ reason }
        ensures place { place_of result ≡ fault_place reason self.old.place self.old.text }
    {
        self.stopped = true;
        match reason {
            Reason::BadUtf8 => {
                let rest = &self.text.as_str()[self.start..];
                Fault {
                    reason,
                    offset: self.offset + rest.len() as u64,
                    line: self.line + line_feeds(rest.as_bytes()) as u64,
                }
            }
            _ => Fault {
                reason,
                offset: self.offset,
                line: self.line,
            },
        }
    }

    // How many of so many bytes can be taken.
    fn room(&self, len: usize) -> usize
        ensures { result ≡ fitting self.now len }
    {
        let left = MOST_BYTES - self.taken;
        let free = most_unread(self.limit) - self.pending();
        len.min(left.min(free) as usize)
    }

    // Where a growth is refused, nothing of what is to be read changes. It is called once for each piece, and what
    // it counts is a loop over all bytes: inlined, that loop took two instructions more for sixteen bytes.
    #[inline(never)]
    fn take_in(&mut self, piece: &[u8]) -> Result<(), AllocError>
        requires most { self.old.taken.offset + length piece.now ≤ most_bytes }
        requires room { unread_bytes self.old + length piece.now ≤ most_unread self.old.limit }
        ensures ok { OnOk result (SameButHeld (grown self.old piece.now) self.new) }
        ensures err { OnErr result (SameButHeld self.old self.new) }
    {
        if !self.broken {
            drop_front(&mut self.text, self.start)?;
            self.start = 0;
            self.no_names = None;
            self.broken = add_piece(&mut self.text, &mut self.pending, piece)?;
        }
        self.taken += piece.len() as u64;
        self.last_line += line_feeds(piece) as u64;
        Ok(())
    }

    // Whether there is some text, or nothing more comes.
    fn is_settled(&self) -> bool
        ensures { result ≡ is_settled self.now }
    {
        if self.rest().is_empty() {
            return self.broken || self.ended;
        }
        true
    }

    fn rest(&self) -> &str
        ensures { chars result.now ≡ self.now.text }
    {
        &self.text.as_str()[self.start..]
    }

    // A leading U+FEFF is no part of the document.
    fn drop_mark(&mut self)
        requires { is_settled self.old ≡ true }
        ensures moves { Moves self.old [] self.new }
        ensures begun { self.new.begun ≡ true }
    {
        if !self.begun {
            let len = mark_len(self.rest());
            self.begun = true;
            self.advance(len);
        }
    }

    fn drop_blanks(&mut self)
        requires { self.old.begun ≡ true }
        ensures moves { Moves self.old [] self.new }
        ensures stands { Stands self.new }
    {
        if !self.comment && is_one(b' ', self.dialect, self.rest()) {
            self.move_on(1, 0);
            return;
        }
        if self.comment {
            let rest = self.rest();
            if is_in_comment(rest) {
                let len = rest.len();
                self.move_on(len, 0);
                return;
            }
        }
        let blank = blank_run(self.dialect, self.comment, self.rest());
        self.comment = blank.in_comment;
        self.advance(blank.len);
    }

    // Moves on over the bytes of some characters.
    fn advance(&mut self, len: usize)
        requires { (n : ℕ) × (len ≡ bytes_of n self.old.text) }
        ensures { MovesBytes self.old len self.new }
    {
        if len == 0 {
            return;
        }
        let end = self.start + len;
        let feeds = few_line_feeds(&self.text.as_bytes()[self.start..end]);
        self.move_on(len, feeds);
    }

    // The same where it is known how many line feeds they are.
    #[inline(always)]
    fn move_on(&mut self, len: usize, feeds: usize)
        requires { (n : ℕ) × (len ≡ bytes_of n self.old.text)
            × (feeds ≡ count_by (λ c. c == 10) (take n self.old.text)) }
        ensures { MovesBytes self.old len self.new }
    {
        self.line += feeds as u64;
        self.offset += len as u64;
        self.start += len;
        forget(&mut self.walk);
    }

    fn stop(&mut self, reason: Reason) -> Fault
        ensures fault { result ≡ record {
          reason = reason;
          offset = self.old.taken.offset;
          line = self.old.taken.line;
        } }
        ensures stopped { self.new ≡ record self.old { stopped = true } }
    {
        self.stopped = true;
        self.fault(reason)
    }

    fn fault(&self, reason: Reason) -> Fault
        ensures { result ≡ record { reason = reason; offset = self.now.taken.offset; line = self.now.taken.line } }
    {
        Fault {
            reason,
            offset: self.taken,
            line: self.last_line,
        }
    }
}

/// The most bytes of a piece that are taken at once. Most tokens are recognized at once only in a text that has no
/// more bytes than the limit on their characters, so half of them are taken, or 512.
fn at_once(limit: u64) -> usize
    ensures { result ≡ at_once limit }
{
    (limit / 2).min(MOST_AT_ONCE).max(LEAST_AT_ONCE) as usize
}

/// The most bytes of which no token was given. Above a quarter of what a document has at most, the limit makes no
/// difference.
fn most_unread(limit: u64) -> u64
    ensures { result ≡ most_unread (min limit (most_bytes / 4)) }
{
    4 * (limit.min(MOST_BYTES / 4) + 1) + 3
}

// How many LF bytes the text of a token has: only two kinds have some.
#[inline(always)]
fn feeds_of(kind: Kind, text: &[u8]) -> usize
    requires { is_flat kind ≡ true → count_by (λ b. b == 10) text.now ≡ 0 }
    ensures { result ≡ count_by (λ b. b == 10) text.now }
{
    match kind {
        Kind::LineEnd => few_line_feeds(text),
        Kind::LongString => line_feeds(text),
        _ => 0,
    }
}

// Where the kind of a token tells that it has no line feed, nothing is written.
#[inline(always)]
fn add_feeds(line: &mut u64, feeds: usize)
    requires { line.old + feeds < 2 ^ 64 }
    ensures { line.new ≡ line.old + feeds }
{
    if feeds > 0 {
        *line += feeds as u64;
    }
}

// Most tokens leave nothing to forget, and a test is less than a write.
#[inline(always)]
fn forget(walk: &mut Option<Walk>)
    ensures { walk.new ≡ None }
{
    if walk.is_some() {
        *walk = None;
    }
}

fn drop_front<A: Allocator + Copy>(text: &mut String<A>, start: usize) -> Result<(), AllocError>
    requires { IsCharBoundary (string_bytes text.old) start }
    ensures ok { OnOk result (string_bytes text.new ≡ drop start (string_bytes text.old)) }
    ensures err { OnErr result (string_bytes text.new ≡ string_bytes text.old) }
{
    if start > 0 {
        text.replace_range(..start, "")?;
    }
    Ok(())
}

// Puts the characters of the bytes after the text, and says whether the bytes after them can begin no
// character. If they can, they are kept. Where a growth is refused, nothing changes.
fn add_piece<A: Allocator + Copy>(
    text: &mut String<A>,
    pending: &mut Vec<u8, A>,
    piece: &[u8],
) -> Result<bool, AllocError>
    ensures text { OnOk result (string_bytes text.new ≡ string_bytes text.old
        ++ good_bytes (pending.old.items ++ piece.now)) }
    ensures broken { IfOk result (λ broken. broken ≡ is_broken (pending.old.items ++ piece.now)) }
    ensures pending { IfOk result (λ broken.
        pending.new.items ≡ cond broken [] (rest_of_bytes (pending.old.items ++ piece.now))) }
    ensures err { OnErr result ((string_bytes text.new ≡ string_bytes text.old)
        × (pending.new.items ≡ pending.old.items)) }
{
    if pending.is_empty() {
        return add_good(text, pending, piece);
    }
    let held = pending.len();
    pending.extend_from_slice(piece)?;
    let front = good_front(pending.as_slice());
    if let Err(e) = text.push_str(front.text) {
        pending.truncate(held);
        return Err(e);
    }
    if front.broken {
        pending.clear();
        return Ok(true);
    }
    let len = front.text.len();
    let rest = pending.len() - len;
    pending.copy_within(len.., 0);
    pending.truncate(rest);
    Ok(false)
}

// The same where no bytes are kept, so that the piece is not copied to them first.
fn add_good<A: Allocator + Copy>(
    text: &mut String<A>,
    pending: &mut Vec<u8, A>,
    piece: &[u8],
) -> Result<bool, AllocError>
    requires { pending.old.items ≡ [] }
    ensures text { OnOk result (string_bytes text.new ≡ string_bytes text.old ++ good_bytes piece.now) }
    ensures broken { IfOk result (λ broken. broken ≡ is_broken piece.now) }
    ensures pending { IfOk result (λ broken. pending.new.items ≡ cond broken [] (rest_of_bytes piece.now)) }
    ensures err { OnErr result ((string_bytes text.new ≡ string_bytes text.old) × (pending.new.items ≡ [])) }
{
    let front = good_front(piece);
    if !front.broken {
        pending.extend_from_slice(&piece[front.text.len()..])?;
    }
    if let Err(e) = text.push_str(front.text) {
        pending.clear();
        return Err(e);
    }
    Ok(front.broken)
}
