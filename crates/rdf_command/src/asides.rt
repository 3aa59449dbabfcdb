// A run that goes on after bad lines, which go into a file of their own.

ghost use Rattle.std.specs.Prelude.{◌≡◌, false, IfErr, IfOk, None, OnOk, Some, is_err, option_map};
ghost use Rattle.rdf_iri.specs.Scope.{BaseFits};
ghost use Rattle.rdf_stream.specs.Skips.{HasLines};
ghost use Rattle.rdf_stream.specs.Told.{told, written};
ghost use Rattle.rdf_command.specs.Asides.{AsideBy, AsideEnds, AsideInto, AsideOnly, AsideOnto, AsideOut, EndsBySkip};
ghost use Rattle.rdf_command.specs.Asides.{IsPutAside, NotPutAside, output_called};
ghost use Rattle.rdf_command.specs.RunSteps.{told_by};
ghost use Rattle.rdf_command.specs.Programs.{outputs_of};
ghost use Rattle.rdf_command.specs.Reasons.{ReportsStop, broken, device, devices_of, drain_tells, source_tells};
ghost use Rattle.rdf_command.specs.Runs.{AreFresh, AsWritten, files_told};

use crate::commands::name_by;
use crate::entry::Ended;
use crate::explains::Explains;
use crate::host::Host;
use crate::reasons::{refuse_bindings, refuse_name, refuse_output, tell_stopped};
use crate::reports::{Stop, status, tell_counts};
use crate::runs::{Files, job_of};
use crate::task::{Action, Task};
use rdf_stream::{
    Details, Drain, Evidence, Failed, Job, Limits, Nearby, SkipSummary, Source, convert_skipping,
};
use std::alloc::Global;

/// What a run that goes on after bad lines is told beside its job.
#[derive(Clone, Copy)]
pub struct Skipping<'a> {
    /// Where memory is taken.
    pub alloc: Global,
    /// What is done.
    pub action: Action,
    /// Whether a refusal is explained, by a line more.
    pub explain: bool,
    /// The word for the document: the name of its file, or `-` for standard input.
    pub document: &'a str,
    /// The file that the lines of quads go to, or `standard output`.
    pub output: &'a str,
    /// The file that bad lines are put into.
    pub bad: &'a str,
}

/// A drain that takes all bytes and keeps none.
#[derive(Drop)]
struct Nothing {
    is_flushed: bool,
}

impl Drain for Nothing {
    ghost contents = { λ _. None };

    ghost has_failed = { λ _. false };

    ghost is_flushed = { λ s. s.is_flushed };

    fn put_some(&mut self, bytes: &[u8]) -> Result<usize, Failed> {
        self.is_flushed = false;
        Ok(bytes.len())
    }

    fn flush(&mut self) -> Result<(), Failed> {
        self.is_flushed = true;
        Ok(())
    }

    fn failed(&self) -> bool {
        false
    }
}

impl Explains for Nothing {
    ghost tells = { λ _ why. why ≡ None };

    fn reason(&self, _alloc: Global) -> Option<String> {
        None
    }
}

/// Runs a task over its files, and puts bad lines into the file of this name.
pub fn run_skipping<H: Host, O: Drain + Explains, E: Drain>(
    alloc: Global,
    task: Task,
    bad: &str,
    host: &H,
    files: Files<H::Input>,
    out: &mut O,
    err: &mut E,
) -> Ended<H::Input>
    requires base { BaseFits task.base task.limits }
    requires lines { HasLines task.form }
    requires fresh { AreFresh H.Input.has_ended H.Input.has_failed files }
    requires out { O.has_failed out.old ≡ false }
    requires err { E.has_failed err.old ≡ false }
    ensures { AsWritten (EndsBySkip (Some bad.now)
        (outputs_of H.Host host.now (drain_tells H.Output.Drain H.Output.Explains))
        (devices_of H.Input.Source H.Input.Explains O.Drain O.Explains) task
        (option_map H.Input.remaining files.prefixes)
        (H.Input.remaining files.document) (option_map (files_told H.Input.Source) result.files)) result.status
        O.Drain E.Drain out.old out.new err.old err.new }
{
    let mut files = files;
    let status = skip_over(alloc, task, bad, host, &mut files, out, err);
    Ended {
        status,
        files: Some(files),
    }
}

fn skip_over<H: Host, I: Source + Explains, O: Drain + Explains, E: Drain>(
    alloc: Global,
    task: Task,
    bad: &str,
    host: &H,
    files: &mut Files<I>,
    out: &mut O,
    err: &mut E,
) -> u8
    requires base { BaseFits task.base task.limits }
    requires lines { HasLines task.form }
    requires fresh { AreFresh I.has_ended I.has_failed files.old }
    requires out { O.has_failed out.old ≡ false }
    requires err { E.has_failed err.old ≡ false }
    ensures { AsWritten (AsideEnds (outputs_of H.Host host.now (drain_tells H.Output.Drain H.Output.Explains))
        (devices_of I.Source I.Explains O.Drain O.Explains) bad.now task (option_map I.remaining files.old.prefixes)
        (I.remaining files.old.document)
        (files_told I.Source files.new)) result O.Drain E.Drain out.old out.new err.old err.new }
{
    let mut task = task;
    let action = task.action;
    let explain = task.explain;
    let file = task.file.take();
    let output = task.output.take();
    let prefixes = task.prefixes.take();
    let job = match job_of(alloc, task, &mut files.prefixes) {
        Ok(job) => job,
        Err(fault) => {
            let file = (name_by(prefixes.as_deref()), &files.prefixes);
            return refuse_bindings(alloc, explain, &fault, file, err);
        }
    };
    let document = name_by(file.as_deref());
    let how = Skipping {
        alloc,
        action,
        explain,
        document,
        output: output_called(output.as_deref()),
        bad,
    };
    skip_to(
        &how,
        output.as_deref(),
        job,
        host,
        &mut files.document,
        out,
        err,
    )
}

// Goes on after bad lines in a check, which writes none, or in a conversion.
fn skip_to<H: Host, S: Source + Explains, O: Drain + Explains, E: Drain>(
    how: &Skipping<'_>,
    output: Option<&str>,
    job: Job,
    host: &H,
    source: &mut S,
    out: &mut O,
    err: &mut E,
) -> u8
    requires lines { HasLines job.form }
    requires more { S.has_ended source.old ≡ false }
    requires source { S.has_failed source.old ≡ false }
    requires out { O.has_failed out.old ≡ false }
    requires err { E.has_failed err.old ≡ false }
    ensures { AsWritten (AsideBy (option_map (λ s. s.now) output.entry)
        (outputs_of H.Host host.now (drain_tells H.Output.Drain H.Output.Explains))
        (devices_of S.Source S.Explains O.Drain O.Explains) (told_by how.now) job (S.remaining source.old)
        (told S.Source source.new)) result
        O.Drain E.Drain out.old out.new err.old err.new }
{
    match how.action {
        Action::Check => skip_in_check(how, job, host, source, err),
        Action::Show | Action::Convert => skip_and_write(how, output, job, host, source, out, err),
    }
}

// Goes on after bad lines, where the lines of quads go to a file or to the output.
fn skip_and_write<H: Host, S: Source + Explains, O: Drain + Explains, E: Drain>(
    how: &Skipping<'_>,
    output: Option<&str>,
    job: Job,
    host: &H,
    source: &mut S,
    out: &mut O,
    err: &mut E,
) -> u8
    requires lines { HasLines job.form }
    requires more { S.has_ended source.old ≡ false }
    requires source { S.has_failed source.old ≡ false }
    requires out { O.has_failed out.old ≡ false }
    requires err { E.has_failed err.old ≡ false }
    ensures { AsWritten (AsideOut (option_map (λ s. s.now) output.entry)
        (outputs_of H.Host host.now (drain_tells H.Output.Drain H.Output.Explains))
        (devices_of S.Source S.Explains O.Drain O.Explains) (told_by how.now) job (S.remaining source.old)
        (told S.Source source.new)) result
        O.Drain E.Drain out.old out.new err.old err.new }
{
    match output {
        Some(name) => skip_into(how, name, job, host, source, err),
        None => skip_onto(how, job, host, source, out, err),
    }
}

// Goes on after bad lines, and keeps no line of quads.
fn skip_in_check<H: Host, S: Source + Explains, E: Drain>(
    how: &Skipping<'_>,
    job: Job,
    host: &H,
    source: &mut S,
    err: &mut E,
) -> u8
    requires lines { HasLines job.form }
    requires more { S.has_ended source.old ≡ false }
    requires source { S.has_failed source.old ≡ false }
    requires err { E.has_failed err.old ≡ false }
    ensures { AsideOnly (outputs_of H.Host host.now (drain_tells H.Output.Drain H.Output.Explains))
        (source_tells S.Source S.Explains) (told_by how.now) job (S.remaining source.old)
        (told S.Source source.new) result
        (E.contents err.old) (written E.Drain err.new) }
{
    let mut nothing = Nothing { is_flushed: true };
    skip_onto(how, job, host, source, &mut nothing, err)
}

// Goes on after bad lines, where the lines of quads go to the output.
fn skip_onto<H: Host, S: Source + Explains, O: Drain + Explains, E: Drain>(
    how: &Skipping<'_>,
    job: Job,
    host: &H,
    source: &mut S,
    out: &mut O,
    err: &mut E,
) -> u8
    requires lines { HasLines job.form }
    requires more { S.has_ended source.old ≡ false }
    requires source { S.has_failed source.old ≡ false }
    requires out { O.has_failed out.old ≡ false }
    requires err { E.has_failed err.old ≡ false }
    ensures { AsWritten (AsideOnto (outputs_of H.Host host.now (drain_tells H.Output.Drain H.Output.Explains))
        (devices_of S.Source S.Explains O.Drain O.Explains) (told_by how.now) job (S.remaining source.old)
        (told S.Source source.new)) result
        O.Drain E.Drain out.old out.new err.old err.new }
{
    match put_aside(how, job, host, source, out, err) {
        Ok(summary) => tell_counts(how.alloc, summary, err),
        Err(status) => status,
    }
}

// Goes on after bad lines, where the lines of quads go to the file of this name. It is kept once the bad lines are.
fn skip_into<H: Host, S: Source + Explains, E: Drain>(
    how: &Skipping<'_>,
    name: &str,
    job: Job,
    host: &H,
    source: &mut S,
    err: &mut E,
) -> u8
    requires lines { HasLines job.form }
    requires more { S.has_ended source.old ≡ false }
    requires source { S.has_failed source.old ≡ false }
    requires err { E.has_failed err.old ≡ false }
    ensures { AsideInto name.now (outputs_of H.Host host.now (drain_tells H.Output.Drain H.Output.Explains))
        (source_tells S.Source S.Explains) (told_by how.now) job (S.remaining source.old)
        (told S.Source source.new) result
        (E.contents err.old) (written E.Drain err.new) }
{
    let mut output = match host.create(how.alloc, name) {
        Ok(output) => output,
        Err(why) => return refuse_output(how.alloc, host, name, how.explain, why, err),
    };
    match put_aside(how, job, host, source, &mut output, err) {
        Ok(summary) => match host.keep(output, name) {
            Ok(()) => tell_counts(how.alloc, summary, err),
            Err(Failed) => refuse_name(how.alloc, host, name, how.explain, err),
        },
        Err(status) => {
            host.discard(output, name);
            status
        }
    }
}

// Writes the lines of the good lines' quads, and puts the bad lines into their file; or tells why not, and answers
// the status.
fn put_aside<H: Host, S: Source + Explains, D: Drain + Explains, E: Drain>(
    how: &Skipping<'_>,
    job: Job,
    host: &H,
    source: &mut S,
    drain: &mut D,
    err: &mut E,
) -> Result<SkipSummary, u8>
    requires lines { HasLines job.form }
    requires more { S.has_ended source.old ≡ false }
    requires source { S.has_failed source.old ≡ false }
    requires drain { D.has_failed drain.old ≡ false }
    requires err { E.has_failed err.old ≡ false }
    ensures put { IfOk result (IsPutAside (outputs_of H.Host host.now (drain_tells H.Output.Drain H.Output.Explains))
        (told_by how.now) job (S.remaining source.old) (D.contents drain.old) (written D.Drain drain.new)) }
    ensures untold { OnOk result (err.new ≡ err.old) }
    ensures none { IfErr result (λ status. AsWritten
        (NotPutAside (outputs_of H.Host host.now (drain_tells H.Output.Drain H.Output.Explains))
        (devices_of S.Source S.Explains D.Drain D.Explains) (told_by how.now) job (S.remaining source.old)
        (told S.Source source.new)) status D.Drain E.Drain drain.old drain.new err.old err.new) }
{
    let mut bad = match host.create(how.alloc, how.bad) {
        Ok(bad) => bad,
        Err(why) => return Err(refuse_output(how.alloc, host, how.bad, how.explain, why, err)),
    };
    match convert_skipping(how.alloc, job, source, drain, &mut bad) {
        Ok(summary) => match host.keep(bad, how.bad) {
            Ok(()) => Ok(summary),
            Err(Failed) => Err(refuse_name(how.alloc, host, how.bad, how.explain, err)),
        },
        Err(fault) => {
            let stop = Stop {
                fault,
                evidence: Evidence {
                    details: Details::none(),
                    near: Nearby::Unasked,
                    limits: Limits::default(),
                },
            };
            tell_stop_aside(how, &stop, source, drain, &bad, err);
            host.discard(bad, how.bad);
            Err(status(&stop.fault))
        }
    }
}

// Reports why such a run stopped. Where a write failed, the device is the output if that has failed, and else the file
// for bad lines.
fn tell_stop_aside<S: Explains, D: Drain + Explains, B: Explains, E: Drain>(
    how: &Skipping<'_>,
    stop: &Stop,
    source: &S,
    drain: &D,
    bad: &B,
    err: &mut E,
)
    requires { E.has_failed err.old ≡ false }
    ensures { ReportsStop how.now.explain (device how.now.document.now (S.tells source.now))
        (broken (D.has_failed drain.now) (device how.now.output.now (D.tells drain.now))
        (device how.now.bad.now (B.tells bad.now)))
        stop.now.fault stop.now.evidence (E.contents err.old) (E.contents err.new) (E.has_failed err.new) }
{
    let document = (how.document, source);
    if drain.failed() {
        tell_stopped(
            how.alloc,
            how.explain,
            stop,
            document,
            (how.output, drain),
            err,
        );
    } else {
        tell_stopped(how.alloc, how.explain, stop, document, (how.bad, bad), err);
    }
}

// What the output is called.
fn output_called(file: Option<&str>) -> &str
    ensures { result.now ≡ output_called (option_map (λ s. s.now) file.entry) }
{
    match file {
        Some(name) => name,
        None => "standard output",
    }
}
