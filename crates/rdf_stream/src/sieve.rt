// Lines of a line format: good ones are converted, and bad ones are put aside.

ghost use Rattle.std.specs.Prelude.{◌≡◌, ◌+◌, ◌<◌, ◌≤◌, ◌++◌, [], ◌∷◌, true, false, length, take, drop};
ghost use Rattle.std.specs.Prelude.{IfOk, IfErr, IfSome, None};
ghost use Rattle.rdf_tokens.specs.Scans.{most_bytes};
ghost use Rattle.rdf_lines.specs.SplitLines.{split_lines};
ghost use Rattle.rdf_lines.specs.declared.form.Style.{Style};
ghost use Rattle.rdf_stream.specs.Sieves.{HasMarkBytes, HasNoMark, HasRoom, HasSifted, IsEndedFront, IsTried};
ghost use Rattle.rdf_stream.specs.Sieves.{PutBadFails, PutGoodFails, PutsBad, PutsGood, PutsNone, SiftFails, start_of};
ghost use Rattle.rdf_stream.specs.Skips.{comment_text, fault_from, place_after};
ghost use Rattle.rdf_stream.specs.declared.fault.StreamFault.TheVariants.{Memory};

use crate::conversions::convert_whole;
use crate::devices::{Drain, Failed};
use crate::fault::StreamFault;
use crate::memory::Kept;
use crate::messages::put_refusal;
use crate::output::OutputView;
use crate::put::put_all;
use memchr::memchr2;
use rdf_iri::Limits;
use rdf_lines::{LineForm, line_reader};
use rdf_terms::Reason;
use rdf_tokens::{Fault, line_feeds};
use std::alloc::{AllocError, Allocator, Global};

/// A group of lines goes up to the first line end after so many bytes.
const GROUP_LEN: usize = 2048;

/// What lines are read as, how the quads of the good ones are written, and how many there were.
#[derive(Drop)]
pub(crate) struct Sieve<'a, A: Allocator + Copy = Global> {
    alloc: A,
    form: LineForm,
    limits: Limits,
    output: OutputView<'a>,
    // whether no line was sifted yet
    is_first: bool,
    pub(crate) quads: u64,
    pub(crate) bad_lines: u64,
}

/// The lines of the quads of a good line, or of good lines, and how many quads they are.
#[derive(Drop)]
struct Converted<A: Allocator = Global> {
    lines: Vec<u8, A>,
    quads: u64,
}

/// What some bytes are, as a line or as lines.
#[derive(Drop)]
enum Tried<A: Allocator = Global> {
    /// They are all good.
    Good(Converted<A>),
    /// They are not, for this reason, at a place that is counted from their first byte.
    Bad(Fault),
}

/// Where a line begins in the document.
#[derive(Clone, Copy)]
pub(crate) struct LineStart {
    /// How many bytes come before it.
    pub(crate) offset: u64,
    /// Its number: one more than the line feeds before it.
    pub(crate) line: u64,
}

impl LineStart {
    /// Where the line behind the bytes begins.
    pub(crate) fn past(self, bytes: &[u8]) -> LineStart
        requires room { HasRoom self bytes.now }
        ensures { start_of result ≡ place_after (start_of self) bytes.now }
    {
        LineStart {
            offset: self.offset + bytes.len() as u64,
            line: self.line + line_feeds(bytes) as u64,
        }
    }

    // The fault of a line that begins here, by its place in the document.
    fn fault(self, fault: Fault) -> Fault
        requires offset { self.offset + fault.offset ≤ most_bytes }
        requires line { self.line ≤ self.offset + 1 }
        requires within { fault.line ≤ fault.offset + 1 }
        requires first { 0 < fault.line }
        ensures { result ≡ fault_from (start_of self) fault }
    {
        Fault {
            reason: fault.reason,
            offset: self.offset + fault.offset,
            line: self.line + (fault.line - 1),
        }
    }
}

impl<'a, A: Allocator + Copy> Sieve<'a, A> {
    /// No line was sifted.
    pub(crate) fn new(
        alloc: A,
        form: LineForm,
        limits: Limits,
        output: OutputView<'a>,
    ) -> Sieve<'a, A>
        ensures form { result.form ≡ form }
        ensures limits { result.limits ≡ limits }
        ensures output { result.output ≡ output.entry }
        ensures fresh { result.is_first ≡ true }
        ensures no_quads { result.quads ≡ 0 }
        ensures no_bad_lines { result.bad_lines ≡ 0 }
    {
        Sieve {
            alloc,
            form,
            limits,
            output,
            is_first: true,
            quads: 0,
            bad_lines: 0,
        }
    }

    /// Sifts the lines of a block that begins there, if there are some. They are tried at once first, then in
    /// groups, and the lines of a group in which one is bad one by one: so no line is tried more than three times.
    pub(crate) fn sift<D: Drain, B: Drain>(
        &mut self,
        start: LineStart,
        block: &[u8],
        drain: &mut D,
        bad: &mut B,
    ) -> Result<(), StreamFault>
        requires styled { self.old.output.lines.style ≡ Style.Kept }
        requires room { HasRoom start block.now }
        requires live { D.has_failed drain.old ≡ false }
        requires bad_live { B.has_failed bad.old ≡ false }
        ensures sifted { IfOk result (λ _. HasSifted D.Drain B.Drain (start_of start) self.old drain.old bad.old
            (split_lines block.now) self.new drain.new bad.new) }
        ensures fails { IfErr result (λ f. SiftFails D.Drain B.Drain f (start_of start) self.old drain.old bad.old
            (split_lines block.now) self.new drain.new bad.new) }
    {
        if block.is_empty() {
            return Ok(());
        }
        match self.put_good(block, drain) {
            Ok(None) => Ok(()),
            Ok(Some(_)) => self.sift_groups(start, block, drain, bad),
            Err(fault) => Err(fault),
        }
    }

    // Sifts the lines group by group.
    fn sift_groups<D: Drain, B: Drain>(
        &mut self,
        start: LineStart,
        block: &[u8],
        drain: &mut D,
        bad: &mut B,
    ) -> Result<(), StreamFault>
        requires styled { self.old.output.lines.style ≡ Style.Kept }
        requires room { HasRoom start block.now }
        requires live { D.has_failed drain.old ≡ false }
        requires bad_live { B.has_failed bad.old ≡ false }
        ensures sifted { IfOk result (λ _. HasSifted D.Drain B.Drain (start_of start) self.old drain.old bad.old
            (split_lines block.now) self.new drain.new bad.new) }
        ensures fails { IfErr result (λ f. SiftFails D.Drain B.Drain f (start_of start) self.old drain.old bad.old
            (split_lines block.now) self.new drain.new bad.new) }
    {
        let mut place = start;
        let mut rest = block;
        while !rest.is_empty() {
            let len = group_len(rest);
            match self.sift_group(place, &rest[..len], drain, bad) {
                Ok(()) => {}
                Err(fault) => return Err(fault),
            }
            place = place.past(&rest[..len]);
            rest = &rest[len..];
        }
        Ok(())
    }

    // Sifts the lines of a group, which are tried at once first.
    fn sift_group<D: Drain, B: Drain>(
        &mut self,
        start: LineStart,
        group: &[u8],
        drain: &mut D,
        bad: &mut B,
    ) -> Result<(), StreamFault>
        requires styled { self.old.output.lines.style ≡ Style.Kept }
        requires some { 0 < length group.now }
        requires room { HasRoom start group.now }
        requires live { D.has_failed drain.old ≡ false }
        requires bad_live { B.has_failed bad.old ≡ false }
        ensures sifted { IfOk result (λ _. HasSifted D.Drain B.Drain (start_of start) self.old drain.old bad.old
            (split_lines group.now) self.new drain.new bad.new) }
        ensures fails { IfErr result (λ f. SiftFails D.Drain B.Drain f (start_of start) self.old drain.old bad.old
            (split_lines group.now) self.new drain.new bad.new) }
    {
        match self.put_good(group, drain) {
            Ok(None) => Ok(()),
            Ok(Some(_)) => self.sift_each(start, group, drain, bad),
            Err(fault) => Err(fault),
        }
    }

    // Sifts the lines one by one.
    fn sift_each<D: Drain, B: Drain>(
        &mut self,
        start: LineStart,
        block: &[u8],
        drain: &mut D,
        bad: &mut B,
    ) -> Result<(), StreamFault>
        requires styled { self.old.output.lines.style ≡ Style.Kept }
        requires room { HasRoom start block.now }
        requires live { D.has_failed drain.old ≡ false }
        requires bad_live { B.has_failed bad.old ≡ false }
        ensures sifted { IfOk result (λ _. HasSifted D.Drain B.Drain (start_of start) self.old drain.old bad.old
            (split_lines block.now) self.new drain.new bad.new) }
        ensures fails { IfErr result (λ f. SiftFails D.Drain B.Drain f (start_of start) self.old drain.old bad.old
            (split_lines block.now) self.new drain.new bad.new) }
    {
        let mut at = start;
        let mut rest = block;
        while !rest.is_empty() {
            let len = line_len(rest);
            match self.sift_line(at, &rest[..len], drain, bad) {
                Ok(()) => {}
                Err(fault) => return Err(fault),
            }
            at = at.past(&rest[..len]);
            rest = &rest[len..];
        }
        Ok(())
    }

    // Sifts one line.
    fn sift_line<D: Drain, B: Drain>(
        &mut self,
        start: LineStart,
        line: &[u8],
        drain: &mut D,
        bad: &mut B,
    ) -> Result<(), StreamFault>
        requires styled { self.old.output.lines.style ≡ Style.Kept }
        requires room { HasRoom start line.now }
        requires live { D.has_failed drain.old ≡ false }
        requires bad_live { B.has_failed bad.old ≡ false }
        ensures sifted { IfOk result (λ _. HasSifted D.Drain B.Drain (start_of start) self.old drain.old bad.old
            (line.now ∷ []) self.new drain.new bad.new) }
        ensures fails { IfErr result (λ f. SiftFails D.Drain B.Drain f (start_of start) self.old drain.old bad.old
            (line.now ∷ []) self.new drain.new bad.new) }
    {
        match self.put_good(line, drain) {
            Ok(None) => Ok(()),
            Ok(Some(fault)) => self.put_bad(start.fault(fault), line, bad),
            Err(fault) => Err(fault),
        }
    }

    // Puts the lines of the quads of a good line, or of lines that are all good. Where they are none, it answers
    // why, and puts nothing.
    fn put_good<D: Drain>(
        &mut self,
        bytes: &[u8],
        drain: &mut D,
    ) -> Result<Option<Fault>, StreamFault>
        requires styled { self.old.output.lines.style ≡ Style.Kept }
        requires live { D.has_failed drain.old ≡ false }
        ensures good { IfOk result (λ fault.
            fault ≡ None → PutsGood D.Drain self.old drain.old bytes.now self.new drain.new) }
        ensures bad { IfOk result (λ fault.
            IfSome fault (λ f. PutsNone self.old drain.old bytes.now f self.new drain.new)) }
        ensures fails { IfErr result (λ f. PutGoodFails D.Drain f self.old drain.old bytes.now self.new drain.new) }
    {
        let converted = match self.convert(bytes) {
            Ok(Tried::Good(converted)) => converted,
            Ok(Tried::Bad(fault)) => return Ok(Some(fault)),
            Err(fault) => return Err(fault),
        };
        match put_all(drain, converted.lines.as_slice()) {
            Ok(()) => {}
            Err(Failed) => return Err(StreamFault::Write),
        }
        self.is_first = false;
        self.quads = self.quads.saturating_add(converted.quads);
        Ok(None)
    }

    // Puts a bad line aside, with its fault by the place in the document.
    fn put_bad<B: Drain>(
        &mut self,
        fault: Fault,
        line: &[u8],
        bad: &mut B,
    ) -> Result<(), StreamFault>
        requires live { B.has_failed bad.old ≡ false }
        ensures put { IfOk result (λ _. PutsBad B.Drain self.old bad.old fault line.now self.new bad.new) }
        ensures fails { IfErr result (λ f. PutBadFails B.Drain f self.old bad.old fault line.now self.new bad.new) }
    {
        let text = match commented(self.alloc, fault, line) {
            Ok(text) => text,
            Err(AllocError) => return Err(StreamFault::Memory),
        };
        match put_all(bad, text.as_slice()) {
            Ok(()) => {}
            Err(Failed) => return Err(StreamFault::Write),
        }
        self.is_first = false;
        self.bad_lines = self.bad_lines.saturating_add(1);
        Ok(())
    }

    // Whether a byte order mark stands in front of what is not the first line.
    fn is_marked(&self, bytes: &[u8]) -> bool
        ensures marked { result ≡ true → (self.now.is_first ≡ false) × HasMarkBytes bytes.now }
        ensures unmarked { result ≡ false → self.now.is_first ≡ false → HasNoMark bytes.now }
    {
        if self.is_first {
            return false;
        }
        has_mark(bytes)
    }

    // Converts a good line, or lines that are all good, in memory.
    fn convert(&self, bytes: &[u8]) -> Result<Tried<A>, StreamFault>
        requires styled { self.now.output.lines.style ≡ Style.Kept }
        ensures tried { IfOk result (λ t. IsTried self.now bytes.now t) }
        ensures memory { IfErr result (λ f. f ≡ Memory) }
    {
        if self.is_marked(bytes) {
            return Ok(Tried::Bad(Fault {
                reason: Reason::NoToken,
                offset: 0,
                line: 1,
            }));
        }
        let mut kept = match Kept::with_capacity(self.alloc, bytes.len()) {
            Ok(kept) => kept,
            Err(AllocError) => return Err(StreamFault::Memory),
        };
        let reader = line_reader(self.alloc, self.form, self.limits);
        match convert_whole(self.alloc, reader, self.output, bytes, &mut kept) {
            Ok(summary) => Ok(Tried::Good(Converted {
                lines: kept.bytes,
                quads: summary.quads,
            })),
            Err(StreamFault::Refused(fault)) => Ok(Tried::Bad(fault)),
            Err(_) => Err(StreamFault::Memory),
        }
    }
}

// The comment that says why a line is bad, and the line behind it.
fn commented<A: Allocator + Copy>(
    alloc: A,
    fault: Fault,
    line: &[u8],
) -> Result<Vec<u8, A>, AllocError>
    ensures { IfOk result (λ text. text.items ≡ comment_text fault ++ line.now) }
{
    let mut text = Vec::from_slice(alloc, b"# ")?;
    put_refusal(&fault, &mut text)?;
    text.extend_from_slice(b"\n")?;
    text.extend_from_slice(line)?;
    Ok(text)
}

// Whether a byte order mark stands in front.
fn has_mark(bytes: &[u8]) -> bool
    ensures marked { result ≡ true → HasMarkBytes bytes.now }
    ensures unmarked { result ≡ false → HasNoMark bytes.now }
{
    if bytes.len() < 3 {
        return false;
    }
    bytes[0] == 0xEF && bytes[1] == 0xBB && bytes[2] == 0xBF
}

// How many bytes the first lines have, with their ends, that are tried together.
fn group_len(bytes: &[u8]) -> usize
    requires some { 0 < length bytes.now }
    ensures within { result ≤ length bytes.now }
    ensures progress { 0 < result }
    ensures lines { split_lines bytes.now ≡ split_lines (take result bytes.now) ++ split_lines (drop result bytes.now) }
{
    if bytes.len() <= GROUP_LEN {
        return bytes.len();
    }
    match memchr2(b'\n', b'\r', &bytes[GROUP_LEN..]) {
        Some(at) => GROUP_LEN + at + 1,
        None => bytes.len(),
    }
}

/// How many bytes the first line has, with its end.
pub(crate) fn line_len(bytes: &[u8]) -> usize
    requires some { 0 < length bytes.now }
    ensures within { result ≤ length bytes.now }
    ensures progress { 0 < result }
    ensures ended { IsEndedFront bytes.now → IsEndedFront (take result bytes.now) }
    ensures line { split_lines bytes.now ≡ take result bytes.now ∷ split_lines (drop result bytes.now) }
{
    match memchr2(b'\n', b'\r', bytes) {
        Some(at) => at + 1,
        None => bytes.len(),
    }
}
