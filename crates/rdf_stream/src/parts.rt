// Reading a piece part by part.

ghost use Rattle.std.specs.Prelude.{◌≡◌, ◌≤◌, ◌<◌, ◌++◌, ℕ, List, Bool, true, false, length, take, drop, OnOk, IfOk};
ghost use Rattle.std.specs.Prelude.{IfErr};
ghost use Rattle.rdf_tokens.specs.Scans.{most_bytes};
ghost use Rattle.rdf_stream.specs.declared.fault.StreamFault.{StreamFault};
ghost use Rattle.rdf_stream.specs.Parts.{HaltsWithin, IsAsciiText, MayPass};
ghost use Rattle.rdf_stream.specs.Pieces.{HaltsOn, HasBegun, StaysOn, TakesMore};

use crate::fault::StreamFault;
use rdf_lines::LineEnding;
use rdf_terms::runs::{Run, run_end};
use rdf_tokens::good_front;

/// At least so many bytes are read after a try that passed none, and more after each further one in a row.
const FIRST_LEAST: usize = 8;

/// From so many bytes on they are no more.
const LAST_LEAST: usize = 4096;

/// After so many tries in a row that passed no line with escapes, no more are made behind lines that were passed,
/// up to the end of the piece.
const MOST_TRIES: usize = 3;

/// Takes the parts of pieces: passes what it can, and reads the others.
pub(crate) trait Parts<L> {
    /// From the first state on, these bytes were taken.
    ghost taken: { Self × L → List ℕ → Self × L → Type 0 };
    /// From the first state on, these bytes are not read on, with their end or before more come.
    ghost halts: { StreamFault → Self × L → List ℕ → Bool → Self × L → Type 0 };
    /// What stays from the first state on.
    ghost stays: { Self × L → Self × L → Type 0 };
    /// The number of bytes that were taken.
    ghost count: { Self → ℕ };

    /// How many bytes are read before it is tried again to pass some. They are to be at least so many, where there are.
    fn part_len(&self, bytes: &[u8], least: usize) -> usize
        ensures within { result ≤ length bytes.now }
        ensures some { 0 < length bytes.now → 0 < result };

    /// Whether it passes text only where that is known to be ASCII.
    fn passes_ascii(&self, out: &L) -> bool;

    /// Passes a front of the text, whose lines end so and which may be known to be ASCII, and answers how many
    /// bytes it has: none, or more.
    fn pass_front(
        &mut self,
        text: &str,
        ending: LineEnding,
        is_ascii: bool,
        out: &mut L,
    ) -> Result<usize, StreamFault>
        requires begun { HasBegun taken (self.old, out.old) }
        requires ascii { is_ascii ≡ true → IsAsciiText text.now }
        ensures within { IfOk result (λ n. n ≤ length text.now) }
        ensures takes { IfOk result (λ n. TakesMore taken (self.old, out.old) (take n text.now) (self.new, out.new)) }
        ensures stays { StaysOn stays (self.old, out.old) (self.new, out.new) }
        ensures halts { IfErr result (λ f.
            HaltsWithin taken halts f (self.old, out.old) text.now (self.new, out.new)) };

    /// The same of text for which other text is put.
    fn pass_escaped(
        &mut self,
        text: &str,
        ending: LineEnding,
        out: &mut L,
    ) -> Result<usize, StreamFault>
        requires begun { HasBegun taken (self.old, out.old) }
        ensures within { IfOk result (λ n. n ≤ length text.now) }
        ensures takes { IfOk result (λ n. TakesMore taken (self.old, out.old) (take n text.now) (self.new, out.new)) }
        ensures stays { StaysOn stays (self.old, out.old) (self.new, out.new) }
        ensures halts { IfErr result (λ f.
            HaltsWithin taken halts f (self.old, out.old) text.now (self.new, out.new)) };

    /// Reads a part.
    fn read_part(&mut self, part: &[u8], out: &mut L) -> Result<(), StreamFault>
        requires begun { HasBegun taken (self.old, out.old) }
        ensures takes { OnOk result (TakesMore taken (self.old, out.old) part.now (self.new, out.new)) }
        ensures few { OnOk result (count self.new ≤ most_bytes) }
        ensures stays { StaysOn stays (self.old, out.old) (self.new, out.new) }
        ensures halts { IfErr result (λ f.
            HaltsWithin taken halts f (self.old, out.old) part.now (self.new, out.new)) };
}

/// Takes a piece. What it begins with may be the rest of a part or of a character, and is read.
pub(crate) fn take_parts<L, R: Parts<L>>(
    run: &mut R,
    piece: &[u8],
    out: &mut L,
) -> Result<(), StreamFault>
    requires begun { HasBegun R.taken (run.old, out.old) }
    ensures takes { OnOk result (TakesMore R.taken (run.old, out.old) piece.now (run.new, out.new)) }
    ensures few { OnOk result (R.count run.new ≤ most_bytes) }
    ensures stays { StaysOn R.stays (run.old, out.old) (run.new, out.new) }
    ensures halts { IfErr result (λ f.
        HaltsOn R.taken R.halts f (run.old, out.old) (λ bytes. bytes ++ piece.now) false (run.new, out.new)) }
{
    let len = run.part_len(piece, 0);
    match run.read_part(&piece[..len], out) {
        Ok(()) => take_rest(run, &piece[len..], ending_of(&piece[..len]), out),
        Err(fault) => Err(fault),
    }
}

// Takes what comes after the first part of a piece, which ended so. Lines that end as the one before are passed.
fn take_rest<L, R: Parts<L>>(
    run: &mut R,
    rest: &[u8],
    first: LineEnding,
    out: &mut L,
) -> Result<(), StreamFault>
    requires begun { HasBegun R.taken (run.old, out.old) }
    requires few { R.count run.old ≤ most_bytes }
    ensures takes { OnOk result (TakesMore R.taken (run.old, out.old) rest.now (run.new, out.new)) }
    ensures few { OnOk result (R.count run.new ≤ most_bytes) }
    ensures stays { StaysOn R.stays (run.old, out.old) (run.new, out.new) }
    ensures halts { IfErr result (λ f.
        HaltsOn R.taken R.halts f (run.old, out.old) (λ bytes. bytes ++ rest.now) false (run.new, out.new)) }
{
    let text = good_front(rest).text;
    let is_ascii = run.passes_ascii(out);
    let mut ending = first;
    let mut left = "";
    let mut at = 0;
    let mut least = 0;
    let mut tries = MOST_TRIES;
    while at < rest.len() {
        let front = front_from(left, text, at, is_ascii);
        let passed = match pass_some(run, front, ending, is_ascii, &mut tries, out) {
            Ok(passed) => passed,
            Err(fault) => return Err(fault),
        };
        least = next_least(least, passed);
        let from = at + passed;
        let to = from + run.part_len(&rest[from..], least);
        match run.read_part(&rest[from..to], out) {
            Ok(()) => {}
            Err(fault) => return Err(fault),
        }
        ending = ending_of(&rest[from..to]);
        left = text_from(front, to - at);
        at = to;
    }
    Ok(())
}

// Passes a front of the text: in turn lines that stand as they are written and lines with any escapes, up to one
// that is neither. Where the text begins with none of the former, the latter are tried in any case. Behind lines
// that were passed, they are tried while tries are left.
fn pass_some<L, R: Parts<L>>(
    run: &mut R,
    text: &str,
    ending: LineEnding,
    is_ascii: bool,
    tries: &mut usize,
    out: &mut L,
) -> Result<usize, StreamFault>
    requires begun { HasBegun R.taken (run.old, out.old) }
    requires ascii { is_ascii ≡ true → IsAsciiText text.now }
    ensures within { IfOk result (λ n. n ≤ length text.now) }
    ensures takes { IfOk result (λ n. TakesMore R.taken (run.old, out.old) (take n text.now) (run.new, out.new)) }
    ensures stays { StaysOn R.stays (run.old, out.old) (run.new, out.new) }
    ensures halts { IfErr result (λ f. HaltsWithin R.taken R.halts f (run.old, out.old) text.now (run.new, out.new)) }
{
    let mut at = 0;
    'turns: loop {
        match run.pass_front(text_from(text, at), ending, is_ascii, out) {
            Ok(passed) => at += passed,
            Err(fault) => return Err(fault),
        }
        if at > 0 && *tries == 0 {
            return Ok(at);
        }
        let more = match run.pass_escaped(text_from(text, at), ending, out) {
            Ok(more) => more,
            Err(fault) => return Err(fault),
        };
        if at > 0 {
            *tries = next_tries(*tries, more);
        }
        if more == 0 || *tries == 0 {
            return Ok(at + more);
        }
        at += more;
    }
}

// How many tries are left after one that passed so many bytes: one that passed none takes one, and one that passed
// some gives all back.
fn next_tries(tries: usize, passed: usize) -> usize {
    if passed > 0 {
        MOST_TRIES
    } else {
        tries.saturating_sub(1)
    }
}

// How the last line of a part ends.
fn ending_of(part: &[u8]) -> LineEnding {
    if part.ends_with(b"\r\n") {
        LineEnding::CrLf
    } else {
        LineEnding::Lf
    }
}

// How many bytes are read at least before the next try to pass some, by how many it was before the last one and
// what that passed.
fn next_least(least: usize, passed: usize) -> usize {
    if passed > 0 {
        0
    } else if least < LAST_LEAST {
        2 * least + FIRST_LEAST
    } else {
        least
    }
}

// What may be passed from a place on: what is left of the last one, or else all of the text, or its front that is
// ASCII.
fn front_from<'a>(left: &'a str, text: &'a str, at: usize, is_ascii: bool) -> &'a str
    requires { MayPass text.now at is_ascii left.now }
    ensures { MayPass text.now at is_ascii result.now }
{
    if !left.is_empty() {
        return left;
    }
    let rest = text_from(text, at);
    if is_ascii { ascii_front(rest) } else { rest }
}

// The longest front of the text that is ASCII.
fn ascii_front(text: &str) -> &str
    ensures front { result.now ≡ take (length result.now) text.now }
    ensures ascii { IsAsciiText result.now }
{
    &text[..run_end(Run::Ascii, text.as_bytes(), 0)]
}

// The text from a place on, if a character begins there, or else none of it.
fn text_from(text: &str, at: usize) -> &str
    ensures { result.now ≡ take (length result.now) (drop at text.now) }
{
    match text.split_at_checked(at) {
        Some((_, rest)) => rest,
        None => "",
    }
}
