// Grammars whose text can stand as what is written for it.

ghost use Rattle.std.specs.Prelude.{◌≤◌, ◌<◌, ℕ, length, take, IfOk, OnErr};
ghost use Rattle.rdf_lines.specs.declared.form.Style.{Style};
ghost use Rattle.rdf_lines.specs.declared.form.Style.TheVariants.{Kept, Tagged};
ghost use Rattle.rdf_lines.specs.Canonical.{written_as};
ghost use Rattle.rdf_stream.specs.Passes.{PassesText, RewritesText};

use memchr::memchr;
use rdf_driver::{Foresees, Holds, QuadGrammar, Reader};
use rdf_lines::{LineBuffer, LineEnding, LineGrammar, pass_escaped, pass_lines};
use rdf_trig::TreeGrammar;
use std::alloc::{AllocError, Allocator};

/// A grammar of which text may be passed that stands as what is written for it.
pub(crate) trait Passes<A: Allocator + Copy>: QuadGrammar + Foresees + Holds + Drop {
    /// How the lines are written that such text has.
    ghost style: { Style };

    /// How many bytes are read before it is tried again to pass some. They are to be at least so many, where there are.
    fn part_len(bytes: &[u8], least: usize) -> usize
        ensures within { result ≤ length bytes.now }
        ensures some { 0 < length bytes.now → 0 < result };

    /// Passes a front of the text, whose lines end so and which may be empty, and answers how many bytes it has.
    fn pass(reader: &mut Reader<Self, A>, text: &str, ending: LineEnding) -> usize
        ensures within { result ≤ length text.now }
        ensures passes { PassesText Self.words style (written_as ending (take result text.now)) reader.old
            (take result text.now) reader.new };

    /// The same of text with any escapes, for which what is written is appended. Where memory is refused, some of
    /// it may have been passed.
    fn pass_escaped(
        reader: &mut Reader<Self, A>,
        text: &str,
        ending: LineEnding,
        out: &mut LineBuffer<A>,
    ) -> Result<usize, AllocError>
        ensures within { IfOk result (λ n. n ≤ length text.now) }
        ensures passes { IfOk result (λ n.
            RewritesText Self.words style reader.old (take n text.now) reader.new out.old out.new) }
        ensures refused { OnErr result ((n : ℕ)
            × RewritesText Self.words style reader.old (take n text.now) reader.new out.old out.new) };
}

impl<A: Allocator + Copy> Passes<A> for LineGrammar<A> {
    ghost style = { Kept };

    // Whole lines.
    fn part_len(bytes: &[u8], least: usize) -> usize {
        if bytes.len() <= least {
            return bytes.len();
        }
        match memchr(b'\n', &bytes[least..]) {
            Some(at) => least + at + 1,
            None => bytes.len(),
        }
    }

    fn pass(reader: &mut Reader<LineGrammar<A>, A>, text: &str, ending: LineEnding) -> usize {
        pass_lines(reader, text, ending)
    }

    fn pass_escaped(
        reader: &mut Reader<LineGrammar<A>, A>,
        text: &str,
        ending: LineEnding,
        out: &mut LineBuffer<A>,
    ) -> Result<usize, AllocError> {
        pass_escaped(reader, text, ending, out)
    }
}

impl<A: Allocator + Copy> Passes<A> for TreeGrammar<A> {
    ghost style = { Tagged };

    // All of them, since none are passed.
    fn part_len(bytes: &[u8], _: usize) -> usize {
        bytes.len()
    }

    fn pass(_: &mut Reader<TreeGrammar<A>, A>, _: &str, _: LineEnding) -> usize {
        0
    }

    fn pass_escaped(
        _: &mut Reader<TreeGrammar<A>, A>,
        _: &str,
        _: LineEnding,
        _: &mut LineBuffer<A>,
    ) -> Result<usize, AllocError> {
        Ok(0)
    }
}
