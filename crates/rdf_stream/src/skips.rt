// Going on after bad lines.

ghost use Rattle.std.specs.Prelude.{◌≡◌, ◌+◌, ◌-◌, ◌<◌, ◌≤◌, ◌++◌, ◌==◌, [], true, false, length, take};
ghost use Rattle.std.specs.Prelude.{drop, count_by, OnOk, IfOk, IfErr};
ghost use Rattle.rdf_lines.specs.declared.form.Style.{Style};
ghost use Rattle.rdf_tokens.specs.Scans.{most_bytes};
ghost use Rattle.rdf_stream.specs.Languages.{conversion_of};
ghost use Rattle.rdf_stream.specs.Pieces.{HaltsOn, HasBegun, ReadStops, ReadsAll, ReadsEnd, TakesMore};
ghost use Rattle.rdf_lines.specs.SplitLines.{split_lines};
ghost use Rattle.rdf_stream.specs.Sieves.{HasSifted, IsSkipping, SiftFails, SkipEnds, SkipHalts};
ghost use Rattle.rdf_stream.specs.declared.fault.StreamFault.TheVariants.{Memory};
ghost use Rattle.rdf_stream.specs.Sieves as sieves;
ghost use Rattle.rdf_stream.specs.Skips.{HasLines, SkipStops, SkipsAll, place_after};
ghost use Rattle.rdf_stream.specs.Told.{told};

use crate::devices::{Drain, Failed, Source};
use crate::fault::StreamFault;
use crate::form::Kind;
use crate::job::Job;
use crate::pieces::piece_buffer;
use crate::sieve::{LineStart, Sieve, line_len};
use memchr::memrchr2;
use rdf_lines::Style;
use rdf_terms::Reason;
use rdf_tokens::{Fault, line_feeds};
use std::alloc::{Allocator, Global};

/// The number of bytes that a document has at most.
const MOST_BYTES: u64 = (1 << 63) - 1;

/// What was read, where bad lines were put aside. A count stops at the highest number.
#[derive(Clone, Copy, PartialEq, Eq, Debug)]
pub struct SkipSummary {
    /// How many quads were written.
    pub quads: u64,
    /// How many lines were put aside.
    pub bad_lines: u64,
    /// How many bytes there are, those of the bad lines too.
    pub bytes: u64,
}

/// Reads a document of the job's format, N-Triples or N-Quads, and goes on after bad lines: it writes to the drain
/// what `convert` writes for the document without them, and puts them into `bad`, in order: in front of each a
/// comment, `# REASON at byte N, line L`, by the place in the whole document, and the line as it stands. A line is
/// bad where by itself it is no document within the limits. Both drains are flushed at the end, but not after a
/// fault.
///
/// Of the bytes it keeps one piece of the source and the longest line, and the lines of their quads.
pub fn convert_skipping<A: Allocator + Copy, S: Source, D: Drain, B: Drain>(
    alloc: A,
    job: Job<A>,
    source: &mut S,
    drain: &mut D,
    bad: &mut B,
) -> Result<SkipSummary, StreamFault>
    requires lines { HasLines job.form }
    requires more { S.has_ended source.old ≡ false }
    requires source { S.has_failed source.old ≡ false }
    requires drain { D.has_failed drain.old ≡ false }
    requires bad { B.has_failed bad.old ≡ false }
    ensures skipped { IfOk result (SkipsAll (conversion_of job) (S.remaining source.old) (D.contents drain.old)
        (D.contents drain.new)
        (B.contents bad.old) (B.contents bad.new)) }
    ensures ended { OnOk result (S.has_ended source.new ≡ true) }
    ensures flushed { OnOk result (D.is_flushed drain.new ≡ true) }
    ensures bad_flushed { OnOk result (B.is_flushed bad.new ≡ true) }
    ensures stops { IfErr result (λ fault.
        SkipStops fault (conversion_of job) (S.remaining source.old) (told S.Source source.new)
        (D.contents drain.old) (D.contents drain.new) (B.contents bad.old) (B.contents bad.new)
        (D.has_failed drain.new) (B.has_failed bad.new)) }
{
    match job.form().kind() {
        Kind::Line(form) => {
            let mut piece = piece_buffer(alloc)?;
            let sieve = Sieve::new(alloc, form, job.limits(), job.output(Style::Kept));
            let mut sifter = Sifter::new(alloc, sieve);
            skip_pieces(source, piece.as_mut_slice(), &mut sifter, drain, bad)
        }
        Kind::Tree(_) => unreachable!(),
    }
}

// Reads the source to its end.
fn skip_pieces<'a, A: Allocator + Copy, S: Source, D: Drain, B: Drain>(
    source: &mut S,
    piece: &mut [u8],
    sifter: &mut Sifter<'a, A>,
    drain: &mut D,
    bad: &mut B,
) -> Result<SkipSummary, StreamFault>
    requires more { S.has_ended source.old ≡ false }
    requires source { S.has_failed source.old ≡ false }
    requires room { 0 < length piece.old }
    requires styled { sifter.old.sieve.output.lines.style ≡ Style.Kept }
    requires begun { IsSkipping D.Drain B.Drain (sifter.old, drain.old, bad.old) [] (sifter.old, drain.old, bad.old) }
    ensures read { IfOk result (λ summary.
        ReadsAll (SkipEnds D.Drain B.Drain) (S.remaining source.old) (told S.Source source.new) summary
        (sifter.old, drain.old, bad.old) (sifter.new, drain.new, bad.new)) }
    ensures stops { IfErr result (λ f. ReadStops (IsSkipping D.Drain B.Drain) (SkipHalts D.Drain B.Drain) f
        (S.remaining source.old) (told S.Source source.new)
        (sifter.old, drain.old, bad.old) (sifter.new, drain.new, bad.new)) }
{
    loop {
        let count = match source.fill(piece) {
            Ok(count) => count,
            Err(Failed) => return Err(StreamFault::Read),
        };
        if count == 0 {
            return sifter.end(drain, bad);
        }
        match sifter.take(&piece[..count], drain, bad) {
            Ok(()) => {}
            Err(fault) => return Err(fault),
        }
    }
}

/// The part of a line after the last line end, and what sifts the lines before it.
#[derive(Drop)]
struct Sifter<'a, A: Allocator + Copy = Global> {
    sieve: Sieve<'a, A>,
    part: Vec<u8, A>,
    // the bytes so far, and one more than the line feeds in them
    bytes: u64,
    line: u64,
}

impl<'a, A: Allocator + Copy> Sifter<'a, A> {
    // Nothing was read.
    fn new(alloc: A, sieve: Sieve<'a, A>) -> Sifter<'a, A>
        ensures sieve { result.sieve ≡ sieve.entry }
        ensures part { result.part.items ≡ [] }
        ensures bytes { result.bytes ≡ 0 }
        ensures line { result.line ≡ 1 }
    {
        Sifter {
            sieve,
            part: Vec::new(alloc),
            bytes: 0,
            line: 1,
        }
    }

    // Sifts the lines that end in the piece, and holds what comes after them.
    fn take<D: Drain, B: Drain>(
        &mut self,
        piece: &[u8],
        drain: &mut D,
        bad: &mut B,
    ) -> Result<(), StreamFault>
        requires styled { self.old.sieve.output.lines.style ≡ Style.Kept }
        requires begun { HasBegun (IsSkipping D.Drain B.Drain) (self.old, drain.old, bad.old) }
        ensures takes { OnOk result (TakesMore (IsSkipping D.Drain B.Drain) (self.old, drain.old, bad.old) piece.now
            (self.new, drain.new, bad.new)) }
        ensures count { OnOk result (self.new.bytes ≡ self.old.bytes + length piece.now) }
        ensures few { OnOk result (self.new.bytes ≤ most_bytes) }
        ensures styled { OnOk result (self.new.sieve.output ≡ self.old.sieve.output) }
        ensures halts { IfErr result (λ f.
            HaltsOn (IsSkipping D.Drain B.Drain) (SkipHalts D.Drain B.Drain) f (self.old, drain.old, bad.old)
            (λ bytes. bytes ++ piece.now) false (self.new, drain.new, bad.new)) }
    {
        let start = self.start();
        match self.count(piece) {
            Ok(()) => {}
            Err(fault) => return Err(fault),
        }
        let len = lines_len(piece);
        match self.sift_front(start, &piece[..len], drain, bad) {
            Ok(()) => {}
            Err(fault) => return Err(fault),
        }
        self.hold(&piece[len..])
    }

    // Where the part of a line that is held begins.
    fn start(&self) -> LineStart
        requires within { length self.now.part.items ≤ self.now.bytes }
        ensures offset { result.offset ≡ self.now.bytes - length self.now.part.items }
        ensures line { result.line ≡ self.now.line }
    {
        LineStart {
            offset: self.bytes - self.part.len() as u64,
            line: self.line,
        }
    }

    // Sifts the lines that the front of a piece ends, of which the first begins there: that of which a part is held by
    // itself, and the others where they stand.
    fn sift_front<D: Drain, B: Drain>(
        &mut self,
        start: LineStart,
        front: &[u8],
        drain: &mut D,
        bad: &mut B,
    ) -> Result<(), StreamFault>
        requires styled { self.old.sieve.output.lines.style ≡ Style.Kept }
        requires ended { sieves.IsEndedFront front.now }
        requires room { sieves.HasRoom start (self.old.part.items ++ front.now) }
        requires live { D.has_failed drain.old ≡ false }
        requires bad_live { B.has_failed bad.old ≡ false }
        ensures sifts { IfOk result (λ _. sieves.SiftsFront D.Drain B.Drain
            (sieves.start_of start) self.old drain.old bad.old front.now self.new drain.new bad.new) }
        ensures fails { IfErr result (λ f. sieves.SiftFrontFails D.Drain B.Drain f
            (sieves.start_of start) self.old drain.old bad.old front.now self.new drain.new bad.new) }
    {
        if self.part.as_slice().is_empty() {
            return self.sieve.sift(start, front, drain, bad);
        }
        if front.is_empty() {
            return Ok(());
        }
        let len = line_len(front);
        let next = match self.end_line(start, &front[..len], drain, bad) {
            Ok(next) => next,
            Err(fault) => return Err(fault),
        };
        match self.sieve.sift(next, &front[len..], drain, bad) {
            Ok(()) => Ok(()),
            Err(fault) => Err(fault),
        }
    }

    // Sifts the line of which a part is held and this is the rest, and answers where the next one begins.
    fn end_line<D: Drain, B: Drain>(
        &mut self,
        start: LineStart,
        rest: &[u8],
        drain: &mut D,
        bad: &mut B,
    ) -> Result<LineStart, StreamFault>
        requires styled { self.old.sieve.output.lines.style ≡ Style.Kept }
        requires room { sieves.HasRoom start (self.old.part.items ++ rest.now) }
        requires live { D.has_failed drain.old ≡ false }
        requires bad_live { B.has_failed bad.old ≡ false }
        ensures sifted { IfOk result (λ _. HasSifted D.Drain B.Drain
            (sieves.start_of start) self.old.sieve drain.old bad.old (split_lines (self.old.part.items
            ++ rest.now)) self.new.sieve drain.new bad.new) }
        ensures none { IfOk result (λ _. sieves.HoldsNone self.old self.new) }
        ensures next { IfOk result (λ next.
            sieves.start_of next ≡ place_after (sieves.start_of start) (self.old.part.items ++ rest.now)) }
        ensures fails { IfErr result (λ f. SiftFails D.Drain B.Drain f
            (sieves.start_of start) self.old.sieve drain.old bad.old (split_lines (self.old.part.items
            ++ rest.now)) self.new.sieve drain.new bad.new) }
    {
        match self.part.extend_from_slice(rest) {
            Ok(()) => {}
            Err(_) => return Err(StreamFault::Memory),
        }
        let line = self.part.as_slice();
        match self.sieve.sift(start, line, drain, bad) {
            Ok(()) => {}
            Err(fault) => return Err(fault),
        }
        let next = start.past(line);
        self.part.clear();
        Ok(next)
    }

    // Holds the part of a line.
    fn hold(&mut self, part: &[u8]) -> Result<(), StreamFault>
        ensures holds { IfOk result (λ _. sieves.Holds self.old part.now self.new) }
        ensures fails { IfErr result (λ f. (f ≡ Memory) × (self.new.sieve ≡ self.old.sieve)) }
    {
        match self.part.extend_from_slice(part) {
            Ok(()) => Ok(()),
            Err(_) => Err(StreamFault::Memory),
        }
    }

    // Counts the bytes of a piece, where they are not too many.
    fn count(&mut self, piece: &[u8]) -> Result<(), StreamFault>
        requires few { self.old.bytes ≤ most_bytes }
        requires lines { self.old.line ≤ self.old.bytes + 1 }
        ensures counts { IfOk result (λ _. self.new ≡ record self.old {
          bytes = self.old.bytes + length piece.now;
          line = self.old.line + count_by (λ b. b == 10) piece.now;
        }) }
        ensures few { IfOk result (λ _. self.old.bytes + length piece.now ≤ most_bytes) }
        ensures refuses { IfErr result (λ f.
            sieves.RefusesPiece f self.old.bytes self.old.line piece.now × (self.new ≡ self.old)) }
    {
        let room = MOST_BYTES - self.bytes;
        if piece.len() as u64 > room {
            let line = self.line + line_feeds(&piece[..room as usize]) as u64;
            return Err(StreamFault::Refused(Fault {
                reason: Reason::DocumentTooLong,
                offset: MOST_BYTES,
                line,
            }));
        }
        self.bytes += piece.len() as u64;
        self.line += line_feeds(piece) as u64;
        Ok(())
    }

    // Sifts the last line, where it has no end, and sends on what was written.
    fn end<D: Drain, B: Drain>(
        &mut self,
        drain: &mut D,
        bad: &mut B,
    ) -> Result<SkipSummary, StreamFault>
        requires styled { self.old.sieve.output.lines.style ≡ Style.Kept }
        requires begun { HasBegun (IsSkipping D.Drain B.Drain) (self.old, drain.old, bad.old) }
        ensures ends { IfOk result (λ summary. ReadsEnd (IsSkipping D.Drain B.Drain)
            (SkipEnds D.Drain B.Drain) summary (self.old, drain.old, bad.old) (self.new, drain.new, bad.new)) }
        ensures halts { IfErr result (λ f.
            HaltsOn (IsSkipping D.Drain B.Drain) (SkipHalts D.Drain B.Drain) f (self.old, drain.old, bad.old)
            (λ bytes. bytes) true (self.new, drain.new, bad.new)) }
    {
        let start = self.start();
        match self.sift_rest(start, drain, bad) {
            Ok(()) => {}
            Err(fault) => return Err(fault),
        }
        match drain.flush() {
            Ok(()) => {}
            Err(Failed) => return Err(StreamFault::Write),
        }
        match bad.flush() {
            Ok(()) => {}
            Err(Failed) => return Err(StreamFault::Write),
        }
        Ok(SkipSummary {
            quads: self.sieve.quads,
            bad_lines: self.sieve.bad_lines,
            bytes: self.bytes,
        })
    }

    // Sifts the part of a line as the last line, which begins there.
    fn sift_rest<D: Drain, B: Drain>(
        &mut self,
        start: LineStart,
        drain: &mut D,
        bad: &mut B,
    ) -> Result<(), StreamFault>
        requires styled { self.old.sieve.output.lines.style ≡ Style.Kept }
        requires room { sieves.HasRoom start self.old.part.items }
        requires live { D.has_failed drain.old ≡ false }
        requires bad_live { B.has_failed bad.old ≡ false }
        ensures sifted { IfOk result (λ _. HasSifted D.Drain B.Drain
            (sieves.start_of start) self.old.sieve drain.old bad.old
            (split_lines self.old.part.items) self.new.sieve drain.new bad.new) }
        ensures same { IfOk result (λ _. self.new.bytes ≡ self.old.bytes) }
        ensures fails { IfErr result (λ f. SiftFails D.Drain B.Drain f
            (sieves.start_of start) self.old.sieve drain.old bad.old
            (split_lines self.old.part.items) self.new.sieve drain.new bad.new) }
    {
        self.sieve.sift(start, self.part.as_slice(), drain, bad)
    }
}

// How many bytes of a piece come up to its last line end.
fn lines_len(piece: &[u8]) -> usize
    ensures within { result ≤ length piece.now }
    ensures lines { sieves.EndsLines (take result piece.now) (drop result piece.now) }
{
    match memrchr2(b'\n', b'\r', piece) {
        Some(at) => at + 1,
        None => 0,
    }
}
