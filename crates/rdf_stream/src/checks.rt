// Reading a document to its end.

ghost use Rattle.std.specs.Prelude.{◌≡◌, true, false, OnOk, IfOk, IfErr};
ghost use Rattle.rdf_stream.specs.Checks.{CheckStops, IsAllAccepted};
ghost use Rattle.rdf_stream.specs.CheckRuns.{BeginsToRead, CheckAccepts, CheckEnds, CheckHalts, HasChecked, IsChecking};
ghost use Rattle.rdf_stream.specs.CheckRuns.{ReadingStops};
ghost use Rattle.rdf_stream.specs.Expected.{ExpectsFor, NoDetails, trees_of};
ghost use Rattle.rdf_stream.specs.ExpectedRuns.{RunExpects, Stands};
ghost use Rattle.rdf_stream.specs.Faults.{IsRefusal};
ghost use Rattle.rdf_stream.specs.Languages.{language_of};
ghost use Rattle.rdf_stream.specs.Places.{HandsOut, TellsNear};
ghost use Rattle.rdf_stream.specs.Told.{told};

use crate::devices::Source;
use crate::expected::{Details, details_beside};
use crate::fault::StreamFault;
use crate::form::Kind;
use crate::job::Job;
use crate::parts::{Parts, take_parts};
use crate::passes::Passes;
use crate::pieces::{Run, piece_buffer, read_pieces};
use crate::watch::{Near, Nearby, Watching, Words};
use rdf_driver::{Grammar, Reader, Summary};
use rdf_lines::{LineEnding, line_reader};
use rdf_terms::{PutFault, QuadRef, QuadSink};
use rdf_trig::tree_reader;
use std::alloc::Allocator;

/// Reads a document of the job's format from the source to its end, and counts what is in it. It keeps nothing of it.
pub fn check<A: Allocator + Copy, S: Source>(
    alloc: A,
    job: Job<A>,
    source: &mut S,
) -> Result<Summary, StreamFault>
    requires more { S.has_ended source.old ≡ false }
    requires source { S.has_failed source.old ≡ false }
    ensures accepted { IfOk result (IsAllAccepted (language_of job) (S.remaining source.old)) }
    ensures ended { OnOk result (S.has_ended source.new ≡ true) }
    ensures stops { IfErr result (λ fault.
        CheckStops fault (language_of job) (S.remaining source.old) (told S.Source source.new)) }
    ensures refused { IfErr result IsRefusal }
{
    let mut details = Details::none();
    let mut near = Nearby::Unasked;
    check_expecting(alloc, job, source, &mut details, &mut near)
}

/// What `check` does, and what is known of a token that was unexpected: its kind, and the kinds of tokens that
/// could have stood in its place. A kind is in that set exactly if some document begins with the tokens before that
/// place and then a token of the kind, whatever it spells; limits, and what names and references stand for, are
/// left aside. Where the document is accepted and where the fault is another one the set is empty, and no kind was
/// found. What the details were before is dropped.
///
/// Of each refusal its place in its line is told too, where `near` asks for it (`Nearby`). Then as many bytes as
/// the reader holds are kept beside it, one piece and 244; where there is no memory for them nothing is told. Of
/// Turtle and TriG the token that is open is kept once more, and the place of each open bracket; where there is no
/// memory for these, none is told.
pub fn check_expecting<A: Allocator + Copy, S: Source>(
    alloc: A,
    job: Job<A>,
    source: &mut S,
    details: &mut Details,
    near: &mut Nearby<Near<A>>,
) -> Result<Summary, StreamFault>
    requires more { S.has_ended source.old ≡ false }
    requires source { S.has_failed source.old ≡ false }
    ensures accepted { IfOk result (IsAllAccepted (language_of job) (S.remaining source.old)) }
    ensures ended { OnOk result (S.has_ended source.new ≡ true) }
    ensures stops { IfErr result (λ fault.
        CheckStops fault (language_of job) (S.remaining source.old) (told S.Source source.new)) }
    ensures refused { IfErr result IsRefusal }
    ensures none { OnOk result (NoDetails details.new) }
    ensures expected { IfErr result (λ fault. ExpectsFor fault (language_of job) (trees_of job)
        (S.remaining source.old) (told S.Source source.new) details.new) }
    ensures near { HandsOut near.old (TellsNear (language_of job).dialect (language_of job).limit result
        (S.remaining source.old) (told S.Source source.new)) near.new }
{
    let mut job = job;
    let limits = job.limits();
    let limit = limits.token();
    match job.form().kind() {
        Kind::Line(form) => {
            drop(job);
            check_with(
                alloc,
                line_reader(alloc, form, limits),
                limit,
                source,
                details,
                near,
            )
        }
        Kind::Tree(form) => {
            let options = job.options(form);
            drop(job);
            check_with(
                alloc,
                tree_reader(alloc, options),
                limit,
                source,
                details,
                near,
            )
        }
    }
}

fn check_with<A: Allocator + Copy, G: Passes<A>, S: Source>(
    alloc: A,
    reader: Reader<G, A>,
    limit: u64,
    source: &mut S,
    details: &mut Details,
    near: &mut Nearby<Near<A>>,
) -> Result<Summary, StreamFault>
    requires begun { (x : G.Setting) × BeginsToRead G.words x reader }
    requires limit { limit ≡ reader.scanner.limit }
    requires more { S.has_ended source.old ≡ false }
    requires source { S.has_failed source.old ≡ false }
    ensures accepted { IfOk result (CheckAccepts G.words S.Source reader source.old) }
    ensures ended { OnOk result (S.has_ended source.new ≡ true) }
    ensures stops { IfErr result (ReadingStops G.words S.Source reader source.old source.new) }
    ensures refused { IfErr result IsRefusal }
    ensures expected { RunExpects G.words G.trees (λ x. BeginsToRead G.words x reader) reader.scanner.limit result
        (S.remaining source.old) (told S.Source source.new) details.new }
    ensures near { HandsOut near.old (TellsNear G.words.dialect reader.scanner.limit result (S.remaining source.old)
        (told S.Source source.new)) near.new }
{
    *details = Details::none();
    let asked = near.ask_again();
    let mut piece = piece_buffer(alloc)?;
    let mut reader = reader;
    let mut watching = Watching::new(
        alloc,
        Words::new(reader.grammar().dialect(), limit),
        asked,
        true,
    );
    let result = read_pieces(
        source,
        piece.as_mut_slice(),
        &mut reader,
        &mut NoQuads,
        &mut watching,
    );
    *details = details_beside(&reader, &result);
    watching.hand_out(near);
    result
}

impl<A: Allocator + Copy, G: Passes<A>> Run<NoQuads> for Reader<G, A> {
    ghost taken = { λ first bytes now. HasChecked G.words first.0 bytes now.0 };

    ghost halts = { λ reported first bytes is_end now. CheckHalts G.words reported first.0 bytes is_end
        × Stands G.words (λ x. BeginsToRead G.words x first.0) first.0.scanner.limit reported bytes is_end now.0 };

    ghost ends = { λ summary first bytes now. CheckEnds G.words summary first.0 bytes };

    ghost stays = { λ first now. Unit };

    ghost count = { λ now. now.so_far.bytes };

    fn take(&mut self, piece: &[u8], sink: &mut NoQuads) -> Result<(), StreamFault> {
        take_parts(self, piece, sink)
    }

    fn open(&self) -> u64 {
        self.pending()
    }

    fn end(&mut self, sink: &mut NoQuads) -> Result<Summary, StreamFault> {
        match self.finish(sink) {
            Ok(summary) => Ok(summary),
            Err(fault) => Err(StreamFault::from(fault)),
        }
    }
}

impl<A: Allocator + Copy, G: Passes<A>> Parts<NoQuads> for Reader<G, A> {
    ghost taken = { λ first bytes now. IsChecking G.words first.0 bytes now.0 };

    ghost halts = { λ reported first bytes is_end now. CheckHalts G.words reported first.0 bytes is_end
        × Stands G.words (λ x. BeginsToRead G.words x first.0) first.0.scanner.limit reported bytes is_end now.0 };

    ghost stays = { λ first now. Unit };

    ghost count = { λ now. now.so_far.bytes };

    fn part_len(&self, bytes: &[u8], least: usize) -> usize {
        G::part_len(bytes, least)
    }

    fn passes_ascii(&self, _: &NoQuads) -> bool {
        false
    }

    fn pass_front(
        &mut self,
        text: &str,
        ending: LineEnding,
        _: bool,
        _: &mut NoQuads,
    ) -> Result<usize, StreamFault> {
        Ok(G::pass(self, text, ending))
    }

    // None, since nothing is put.
    fn pass_escaped(
        &mut self,
        _: &str,
        _: LineEnding,
        _: &mut NoQuads,
    ) -> Result<usize, StreamFault> {
        Ok(0)
    }

    fn read_part(&mut self, part: &[u8], sink: &mut NoQuads) -> Result<(), StreamFault> {
        match self.feed(part, sink) {
            Ok(()) => Ok(()),
            Err(fault) => Err(StreamFault::from(fault)),
        }
    }
}

/// Takes quads, and keeps nothing.
#[derive(Clone, Copy)]
pub(crate) struct NoQuads;

impl QuadSink for NoQuads {
    ghost takes = { λ before quad after. after ≡ before };

    ghost leaves = { λ before quad after. after ≡ before };

    ghost has_failed = { λ sink. false };

    fn put(&mut self, _: &QuadRef<'_>) -> Result<(), PutFault> {
        Ok(())
    }

    fn failed(&self) -> bool {
        false
    }
}
