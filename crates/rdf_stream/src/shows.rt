// From a document to the lines of its tokens.

ghost use Rattle.std.specs.Prelude.{◌≡◌, true, false, OnOk, IfOk, IfErr, ⊤};
ghost use Rattle.rdf_stream.specs.Faults.{IsRefusal, IsSentOn};
ghost use Rattle.rdf_stream.specs.Converting.{IsConverting, RunHalts};
ghost use Rattle.rdf_stream.specs.Converts.{IsPrompt, StopsFor};
ghost use Rattle.rdf_stream.specs.LineOut.{OnlyGrows};
ghost use Rattle.rdf_stream.specs.Places.{HandsOut, TellsNear};
ghost use Rattle.rdf_stream.specs.Shows.{ShowsAll, dialect_of, showing_of};
ghost use Rattle.rdf_stream.specs.TokenWords.{ShowEnds, of_tokens, token_words};
ghost use Rattle.rdf_stream.specs.Told.{AsTold, told};
ghost use Rattle.rdf_lines.specs.declared.form.Style.TheVariants.{Kept};

use crate::devices::{Drain, Failed, Source};
use crate::fault::StreamFault;
use crate::form::Form;
use crate::job::Job;
use crate::line_out::{LineOut, stop};
use crate::pieces::{Run, piece_buffer, read_pieces};
use crate::token_grammar::{InLines, InTurtle, Spoken, TokenGrammar};
use crate::watch::{Near, Nearby, Watching, Words};
use rdf_driver::{Reader, Summary};
use rdf_lines::{LineBuffer, Style};
use rdf_terms::Dialect;
use std::alloc::Allocator;

/// Reads the tokens of the source in the dialect of the job's format, and writes a line of each but the end to the
/// drain: where it begins, its number of characters, and the name of its kind. It flushes the drain, also after a
/// refusal. No rule of a grammar is looked at.
///
/// The lines are handed over as `convert` does it: before it asks the source for more, and before a refusal or a
/// failed read is reported.
pub fn show<A: Allocator + Copy, S: Source, D: Drain>(
    alloc: A,
    job: Job<A>,
    source: &mut S,
    drain: &mut D,
) -> Result<Summary, StreamFault>
    requires more { S.has_ended source.old ≡ false }
    requires source { S.has_failed source.old ≡ false }
    requires drain { D.has_failed drain.old ≡ false }
    ensures accepted { IfOk result (ShowsAll job (S.remaining source.old) (D.contents drain.old)
        (D.contents drain.new)) }
    ensures ended { OnOk result (S.has_ended source.new ≡ true) }
    ensures flushed { OnOk result (D.is_flushed drain.new ≡ true) }
    ensures stops { IfErr result (λ fault.
        AsTold (StopsFor fault (showing_of job)) S.Source D.Drain source.old source.new drain.old drain.new) }
    ensures refused { IfErr result IsRefusal }
    ensures sent { IfErr result (λ fault. IsSentOn fault (D.is_flushed drain.new)) }
    ensures prompt { IsPrompt (showing_of job) (S.remaining source.old) (told S.Source source.new)
        (D.contents drain.old) (D.contents drain.new) }
{
    let mut near = Nearby::Unasked;
    show_near(alloc, job, source, drain, &mut near)
}

/// What `show` does, and what is known of the place of a refusal, as `check_expecting` says.
pub fn show_near<A: Allocator + Copy, S: Source, D: Drain>(
    alloc: A,
    job: Job<A>,
    source: &mut S,
    drain: &mut D,
    near: &mut Nearby<Near<A>>,
) -> Result<Summary, StreamFault>
    requires more { S.has_ended source.old ≡ false }
    requires source { S.has_failed source.old ≡ false }
    requires drain { D.has_failed drain.old ≡ false }
    ensures accepted { IfOk result (ShowsAll job (S.remaining source.old) (D.contents drain.old)
        (D.contents drain.new)) }
    ensures ended { OnOk result (S.has_ended source.new ≡ true) }
    ensures flushed { OnOk result (D.is_flushed drain.new ≡ true) }
    ensures stops { IfErr result (λ fault.
        AsTold (StopsFor fault (showing_of job)) S.Source D.Drain source.old source.new drain.old drain.new) }
    ensures refused { IfErr result IsRefusal }
    ensures sent { IfErr result (λ fault. IsSentOn fault (D.is_flushed drain.new)) }
    ensures prompt { IsPrompt (showing_of job) (S.remaining source.old) (told S.Source source.new)
        (D.contents drain.old) (D.contents drain.new) }
    ensures near { HandsOut near.old (TellsNear (dialect_of job.form) job.limits.token result (S.remaining source.old)
        (told S.Source source.new)) near.new }
{
    match dialect(job.form()) {
        Dialect::Lines => {
            let result = show_in(alloc, InLines, &job, source, drain, near);
            drop(job);
            result
        }
        Dialect::Turtle => {
            let result = show_in(alloc, InTurtle, &job, source, drain, near);
            drop(job);
            result
        }
    }
}

fn show_in<T: Spoken + Drop, A: Allocator + Copy, S: Source, D: Drain>(
    alloc: A,
    spoken: T,
    job: &Job<A>,
    source: &mut S,
    drain: &mut D,
    near: &mut Nearby<Near<A>>,
) -> Result<Summary, StreamFault>
    requires dialect { T.spoken ≡ dialect_of job.now.form }
    requires more { S.has_ended source.old ≡ false }
    requires source { S.has_failed source.old ≡ false }
    requires drain { D.has_failed drain.old ≡ false }
    ensures accepted { IfOk result (ShowsAll job.now (S.remaining source.old) (D.contents drain.old)
        (D.contents drain.new)) }
    ensures ended { OnOk result (S.has_ended source.new ≡ true) }
    ensures flushed { OnOk result (D.is_flushed drain.new ≡ true) }
    ensures stops { IfErr result (λ fault.
        AsTold (StopsFor fault (showing_of job.now)) S.Source D.Drain source.old source.new drain.old drain.new) }
    ensures refused { IfErr result IsRefusal }
    ensures sent { IfErr result (λ fault. IsSentOn fault (D.is_flushed drain.new)) }
    ensures prompt { IsPrompt (showing_of job.now) (S.remaining source.old) (told S.Source source.new)
        (D.contents drain.old) (D.contents drain.new) }
    ensures near { HandsOut near.old (TellsNear (dialect_of job.now.form) job.now.limits.token result
        (S.remaining source.old) (told S.Source source.new)) near.new }
{
    let asked = near.ask_again();
    let mut piece = piece_buffer(alloc)?;
    let mut buffer = LineBuffer::new(alloc);
    let mut lines = LineOut::new(job.output(Style::Kept), &mut buffer, drain);
    let limit = job.limits().token();
    let words = Words::new(spoken.dialect(), limit);
    let mut reader = Reader::new(alloc, TokenGrammar::new(spoken, limit), limit);
    let mut watching = Watching::new(alloc, words, asked, false);
    let result = read_pieces(
        source,
        piece.as_mut_slice(),
        &mut reader,
        &mut lines,
        &mut watching,
    );
    watching.hand_out(near);
    result
}

impl<'a, T: Spoken + Drop, D: Drain, A: Allocator + Copy> Run<LineOut<'a, D, A>>
    for Reader<TokenGrammar<T>, A> {
    ghost taken = { λ first bytes now.
        IsConverting of_tokens D.contents D.has_failed (token_words T.spoken) Kept first.0 first.1 bytes now.0 now.1 };

    ghost halts = { λ reported first bytes is_end now.
        RunHalts of_tokens D.contents D.has_failed (token_words T.spoken) reported first.0 first.1 bytes is_end now.1
        × IsSentOn reported (D.is_flushed now.1.drain.now) × ⊤ };

    ghost ends = { λ summary first bytes now.
        ShowEnds D.contents D.has_failed D.is_flushed T.spoken summary first.0 first.1 bytes now.1 };

    ghost stays = { λ first now. OnlyGrows D.contents first.1 now.1 };

    ghost count = { λ now. now.so_far.bytes };

    // Reads a piece, and hands the lines of all tokens over that are decided then.
    fn take(&mut self, piece: &[u8], lines: &mut LineOut<'a, D, A>) -> Result<(), StreamFault> {
        match self.feed(piece, lines) {
            Ok(()) => match lines.hand_over() {
                Ok(()) => Ok(()),
                Err(Failed) => Err(StreamFault::Write),
            },
            Err(fault) => Err(stop(fault, lines)),
        }
    }

    fn open(&self) -> u64 {
        self.pending()
    }

    // Reads the end, hands all lines over, and sends them on.
    fn end(&mut self, lines: &mut LineOut<'a, D, A>) -> Result<Summary, StreamFault> {
        match self.finish(lines) {
            Ok(summary) => match lines.send() {
                Ok(()) => Ok(of_tokens(summary)),
                Err(Failed) => Err(StreamFault::Write),
            },
            Err(fault) => Err(stop(fault, lines)),
        }
    }
}

// The counts of a document of tokens, which has no quads.
fn of_tokens(summary: Summary) -> Summary
    ensures { result ≡ record summary { quads = 0 } }
{
    Summary {
        quads: 0,
        tokens: summary.tokens,
        bytes: summary.bytes,
    }
}

/// The dialect of a format's tokens.
fn dialect(form: Form) -> Dialect
    ensures { result ≡ dialect_of form }
{
    match form {
        Form::NTriples => Dialect::Lines,
        Form::NQuads => Dialect::Lines,
        Form::Turtle => Dialect::Turtle,
        Form::TriG => Dialect::Turtle,
    }
}
