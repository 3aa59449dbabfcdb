// From a document to the lines of its quads.

ghost use Rattle.std.specs.Prelude.{◌≡◌, true, false, OnOk, IfOk, IfErr};
ghost use Rattle.rdf_stream.specs.Converting.{Begins, ConversionStops, Converts, ConvertsWhole, IsConverting};
ghost use Rattle.rdf_stream.specs.Converting.{IsPutting, KeepsPrompt, RunEnds, RunHalts, Starts, WholeStops};
ghost use Rattle.rdf_stream.specs.Converts.{AcceptsAll, IsPrompt, StopsFor};
ghost use Rattle.rdf_stream.specs.Expected.{ExpectsFor, NoDetails, trees_of};
ghost use Rattle.rdf_stream.specs.ExpectedRuns.{RunExpects, Stands};
ghost use Rattle.rdf_stream.specs.Faults.{IsRefusal, IsSentOn};
ghost use Rattle.rdf_stream.specs.Languages.{conversion_of, language_of};
ghost use Rattle.rdf_stream.specs.LineOut.{OnlyGrows};
ghost use Rattle.rdf_stream.specs.Outputs.{of_quads, output_of};
ghost use Rattle.rdf_stream.specs.Places.{HandsOut, TellsNear};
ghost use Rattle.rdf_stream.specs.Told.{AsTold, told};

use crate::devices::{Drain, Failed, Source};
use crate::expected::{Details, details_beside};
use crate::fault::StreamFault;
use crate::form::Kind;
use crate::job::Job;
use crate::line_out::{LineOut, handed_over, stop};
use crate::output::OutputView;
use crate::parts::{Parts, take_parts};
use crate::passes::Passes;
use crate::pieces::{Run, piece_buffer, read_bytes, read_pieces};
use crate::watch::{Near, Nearby, Watching, Words};
use rdf_driver::{Grammar, QuadGrammar, Reader, Summary};
use rdf_lines::{LineBuffer, LineEnding, Style, line_reader};
use rdf_trig::tree_reader;
use std::alloc::Allocator;

/// Reads a document of the job's format from the source, writes the lines of its quads to the drain with the job's
/// escapes, its word in front of the names of nodes and its graph, and flushes it, also after a refusal.
///
/// Before it asks the source for more, all lines that are due of the bytes so far have been handed to the drain
/// (`prompt`), and so they have before a refusal or a failed read is reported.
pub fn convert<A: Allocator + Copy, S: Source, D: Drain>(
    alloc: A,
    job: Job<A>,
    source: &mut S,
    drain: &mut D,
) -> Result<Summary, StreamFault>
    requires more { S.has_ended source.old ≡ false }
    requires source { S.has_failed source.old ≡ false }
    requires drain { D.has_failed drain.old ≡ false }
    ensures accepted { IfOk result (AcceptsAll (conversion_of job) (S.remaining source.old) (D.contents drain.old)
        (D.contents drain.new)) }
    ensures ended { OnOk result (S.has_ended source.new ≡ true) }
    ensures flushed { OnOk result (D.is_flushed drain.new ≡ true) }
    ensures stops { IfErr result (λ fault.
        AsTold (StopsFor fault (conversion_of job)) S.Source D.Drain source.old source.new drain.old drain.new) }
    ensures refused { IfErr result IsRefusal }
    ensures sent { IfErr result (λ fault. IsSentOn fault (D.is_flushed drain.new)) }
    ensures prompt { IsPrompt (conversion_of job) (S.remaining source.old) (told S.Source source.new)
        (D.contents drain.old) (D.contents drain.new) }
{
    let mut details = Details::none();
    let mut near = Nearby::Unasked;
    convert_expecting(alloc, job, source, drain, &mut details, &mut near)
}

/// What `convert` does, and what is known of a token that was unexpected, and of the place of a refusal, as
/// `check_expecting` says.
pub fn convert_expecting<A: Allocator + Copy, S: Source, D: Drain>(
    alloc: A,
    job: Job<A>,
    source: &mut S,
    drain: &mut D,
    details: &mut Details,
    near: &mut Nearby<Near<A>>,
) -> Result<Summary, StreamFault>
    requires more { S.has_ended source.old ≡ false }
    requires source { S.has_failed source.old ≡ false }
    requires drain { D.has_failed drain.old ≡ false }
    ensures accepted { IfOk result (AcceptsAll (conversion_of job) (S.remaining source.old) (D.contents drain.old)
        (D.contents drain.new)) }
    ensures ended { OnOk result (S.has_ended source.new ≡ true) }
    ensures flushed { OnOk result (D.is_flushed drain.new ≡ true) }
    ensures stops { IfErr result (λ fault.
        AsTold (StopsFor fault (conversion_of job)) S.Source D.Drain source.old source.new drain.old drain.new) }
    ensures refused { IfErr result IsRefusal }
    ensures sent { IfErr result (λ fault. IsSentOn fault (D.is_flushed drain.new)) }
    ensures prompt { IsPrompt (conversion_of job) (S.remaining source.old) (told S.Source source.new)
        (D.contents drain.old) (D.contents drain.new) }
    ensures none { OnOk result (NoDetails details.new) }
    ensures expected { IfErr result (λ fault. ExpectsFor fault (language_of job) (trees_of job)
        (S.remaining source.old) (told S.Source source.new) details.new) }
    ensures near { HandsOut near.old (TellsNear (language_of job).dialect (language_of job).limit result
        (S.remaining source.old) (told S.Source source.new)) near.new }
{
    let mut job = job;
    let limits = job.limits();
    let limit = limits.token();
    match job.form().kind() {
        Kind::Line(form) => {
            let reader = line_reader(alloc, form, limits);
            let result = convert_with(
                alloc,
                reader,
                limit,
                job.output(Style::Kept),
                source,
                drain,
                details,
                near,
            );
            drop(job);
            result
        }
        Kind::Tree(form) => {
            let reader = tree_reader(alloc, job.options(form));
            let result = convert_with(
                alloc,
                reader,
                limit,
                job.output(Style::Tagged),
                source,
                drain,
                details,
                near,
            );
            drop(job);
            result
        }
    }
}

/// Converts what the reader reads to the lines of its quads.
fn convert_with<A: Allocator + Copy, G: Passes<A>, S: Source, D: Drain>(
    alloc: A,
    reader: Reader<G, A>,
    limit: u64,
    output: OutputView<'_>,
    source: &mut S,
    drain: &mut D,
    details: &mut Details,
    near: &mut Nearby<Near<A>>,
) -> Result<Summary, StreamFault>
    requires starts { (x : G.Setting) × Starts of_quads G.words x reader output.lines.style }
    requires limit { limit ≡ reader.scanner.limit }
    requires styled { output.lines.style ≡ G.style }
    requires more { S.has_ended source.old ≡ false }
    requires source { S.has_failed source.old ≡ false }
    requires drain { D.has_failed drain.old ≡ false }
    ensures accepted { IfOk result (Converts of_quads G.words S.Source D.Drain reader
        (output_of output.entry) source.old drain.old drain.new) }
    ensures ended { OnOk result (S.has_ended source.new ≡ true) }
    ensures flushed { OnOk result (D.is_flushed drain.new ≡ true) }
    ensures stops { IfErr result (ConversionStops of_quads G.words S.Source D.Drain reader
        (output_of output.entry) source.old source.new drain.old drain.new) }
    ensures refused { IfErr result IsRefusal }
    ensures sent { IfErr result (λ fault. IsSentOn fault (D.is_flushed drain.new)) }
    ensures prompt { KeepsPrompt of_quads G.words S.Source D.Drain reader
        (output_of output.entry) source.old source.new drain.old drain.new }
    ensures expected { RunExpects G.words G.trees
        (λ x. Starts of_quads G.words x reader output.entry.lines.style) reader.scanner.limit result
        (S.remaining source.old) (told S.Source source.new) details.new }
    ensures near { HandsOut near.old (TellsNear G.words.dialect reader.scanner.limit result (S.remaining source.old)
        (told S.Source source.new)) near.new }
{
    *details = Details::none();
    let asked = near.ask_again();
    let mut piece = piece_buffer(alloc)?;
    let mut reader = reader;
    let mut buffer = LineBuffer::new(alloc);
    let mut lines = LineOut::new(output, &mut buffer, drain);
    let mut watching = Watching::new(
        alloc,
        Words::new(reader.grammar().dialect(), limit),
        asked,
        true,
    );
    let result = read_pieces(
        source,
        piece.as_mut_slice(),
        &mut reader,
        &mut lines,
        &mut watching,
    );
    *details = details_beside(&reader, &result);
    watching.hand_out(near);
    result
}

/// Converts bytes that are all of a document to the lines of its quads.
pub(crate) fn convert_whole<A: Allocator + Copy, G: Passes<A>, D: Drain>(
    alloc: A,
    reader: Reader<G, A>,
    output: OutputView<'_>,
    bytes: &[u8],
    drain: &mut D,
) -> Result<Summary, StreamFault>
    requires starts { (x : G.Setting) × Starts of_quads G.words x reader output.lines.style }
    requires styled { output.lines.style ≡ G.style }
    requires drain { D.has_failed drain.old ≡ false }
    ensures accepted { IfOk result (ConvertsWhole of_quads G.words D.Drain reader
        (output_of output.entry) bytes.now drain.old drain.new) }
    ensures stops { IfErr result (WholeStops of_quads G.words D.Drain reader
        (output_of output.entry) bytes.now drain.old drain.new) }
{
    let mut reader = reader;
    let mut buffer = LineBuffer::new(alloc);
    let mut lines = LineOut::new(output, &mut buffer, drain);
    read_bytes(bytes, &mut reader, &mut lines)
}

impl<'a, A: Allocator + Copy, G: QuadGrammar + Passes<A>, D: Drain> Run<LineOut<'a, D, A>>
    for Reader<G, A> {
    ghost taken = { λ first bytes now.
        IsConverting of_quads D.contents D.has_failed G.words G.style first.0 first.1 bytes now.0 now.1 };

    ghost halts = { λ reported first bytes is_end now.
        RunHalts of_quads D.contents D.has_failed G.words reported first.0 first.1 bytes is_end now.1
        × IsSentOn reported (D.is_flushed now.1.drain.now)
        × Stands G.words (λ x. Begins of_quads D.has_failed G.words x first.0 first.1) first.0.scanner.limit
        reported bytes is_end now.0 };

    ghost ends = { λ summary first bytes now.
        RunEnds of_quads D.contents D.has_failed D.is_flushed G.words summary first.0 first.1 bytes now.1 };

    ghost stays = { λ first now. OnlyGrows D.contents first.1 now.1 };

    ghost count = { λ now. now.so_far.bytes };

    // Reads a piece, and hands all lines over that are due then.
    fn take(&mut self, piece: &[u8], lines: &mut LineOut<'a, D, A>) -> Result<(), StreamFault> {
        match take_parts(self, piece, lines) {
            Ok(()) => match lines.hand_over() {
                Ok(()) => Ok(()),
                Err(Failed) => Err(StreamFault::Write),
            },
            Err(fault) => Err(fault),
        }
    }

    fn open(&self) -> u64 {
        self.pending()
    }

    // Reads the end, hands all lines over, and sends them on.
    fn end(&mut self, lines: &mut LineOut<'a, D, A>) -> Result<Summary, StreamFault> {
        match self.finish(lines) {
            Ok(summary) => match lines.send() {
                Ok(()) => Ok(summary),
                Err(Failed) => Err(StreamFault::Write),
            },
            Err(fault) => Err(stop(fault, lines)),
        }
    }
}

impl<'a, A: Allocator + Copy, G: Passes<A>, D: Drain> Parts<LineOut<'a, D, A>> for Reader<G, A> {
    ghost taken = { λ first bytes now.
        IsPutting of_quads D.contents D.has_failed G.words G.style first.0 first.1 bytes now.0 now.1 };

    ghost halts = { λ reported first bytes is_end now.
        RunHalts of_quads D.contents D.has_failed G.words reported first.0 first.1 bytes is_end now.1
        × IsSentOn reported (D.is_flushed now.1.drain.now)
        × Stands G.words (λ x. Begins of_quads D.has_failed G.words x first.0 first.1) first.0.scanner.limit
        reported bytes is_end now.0 };

    ghost stays = { λ first now. OnlyGrows D.contents first.1 now.1 };

    ghost count = { λ now. now.so_far.bytes };

    fn part_len(&self, bytes: &[u8], least: usize) -> usize {
        G::part_len(bytes, least)
    }

    fn passes_ascii(&self, lines: &LineOut<'a, D, A>) -> bool {
        lines.is_ascii()
    }

    // Passes lines, and puts them as they stand but for their CRs, where they are written so.
    fn pass_front(
        &mut self,
        text: &str,
        ending: LineEnding,
        is_ascii: bool,
        lines: &mut LineOut<'a, D, A>,
    ) -> Result<usize, StreamFault> {
        if !lines.keeps_lines(is_ascii) {
            return Ok(0);
        }
        let passed = G::pass(self, text, ending);
        match lines.append(&text.as_bytes()[..passed], ending) {
            Ok(()) => Ok(passed),
            Err(fault) => Err(fault),
        }
    }

    // Passes lines with any escapes, and puts what is written for them, where plain lines are written so.
    fn pass_escaped(
        &mut self,
        text: &str,
        ending: LineEnding,
        lines: &mut LineOut<'a, D, A>,
    ) -> Result<usize, StreamFault> {
        if !lines.keeps_lines(false) {
            return Ok(0);
        }
        let passed = match lines.pass_escaped(self, text, ending) {
            Ok(passed) => passed,
            Err(_) => return Err(handed_over(lines)),
        };
        match lines.settle() {
            Ok(()) => Ok(passed),
            Err(fault) => Err(fault),
        }
    }

    fn read_part(&mut self, part: &[u8], lines: &mut LineOut<'a, D, A>) -> Result<(), StreamFault> {
        match self.feed(part, lines) {
            Ok(()) => Ok(()),
            Err(fault) => Err(stop(fault, lines)),
        }
    }
}
