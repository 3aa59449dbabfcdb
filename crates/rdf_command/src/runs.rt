// A run over the documents of a task.

ghost use Rattle.std.specs.Prelude.{◌≡◌, ◌++◌, [], None, false, true, IfErr, IfOk, IfSome, OnErr, OnOk, is_err};
ghost use Rattle.std.specs.Prelude.{option_map};
ghost use Rattle.std.specs.Io.KnownBytes.{Appends};
ghost use Rattle.rdf_iri.specs.Scope.{BaseFits};
ghost use Rattle.rdf_stream.specs.Converts.{IsConverted, IsPrompt, StopsFor};
ghost use Rattle.rdf_stream.specs.Devices.{AppendsFront};
ghost use Rattle.rdf_stream.specs.Faults.{IsSentOn};
ghost use Rattle.rdf_stream.specs.Jobs.{word_of};
ghost use Rattle.rdf_stream.specs.Languages.{conversion_of};
ghost use Rattle.rdf_stream.specs.Shows.{showing_of};
ghost use Rattle.rdf_stream.specs.Told.{AsTold, told};
ghost use Rattle.rdf_command.specs.Reasons.{devices_of, standard_output};
ghost use Rattle.rdf_command.specs.Runs.{AreFresh, AsWritten, Does, HandsOver, IsCheckedAs, RunEnds, SendsOn};
ghost use Rattle.rdf_command.specs.Runs.{StartsNot, StopsAction, StopsCheckAs, asked_near};
ghost use Rattle.rdf_command.specs.RunSteps.{IsJobOf};
ghost use Rattle.rdf_command.specs.Runs.{TellsEvidence, TellsOf, accepted_text, files_told, front_of};

use crate::commands::name_by;
use crate::explains::Explains;
use crate::reasons::{refuse_bindings, tell_stopped};
use crate::reports::{Stop, named_front, status};
use crate::task::{Action, Task};
use rdf_stream::{
    Details, Drain, Evidence, Failed, Iri, Job, Limits, LoadFault, Near, Nearby, NodePrefix,
    Source, StreamFault, Summary, check_expecting, convert_expecting, load_bindings, put_all,
    put_number, show_near,
};
use std::alloc::{AllocError, Global};

/// What a task reads: the file of the prefixes that are bound before the document, if it names one, and the document.
#[derive(Drop)]
pub struct Files<I> {
    /// The file of bindings.
    pub prefixes: Option<I>,
    /// The document.
    pub document: I,
}

/// Runs a task over its files, which it is lent, and answers the status. The file of bindings is read first. Its lines
/// go to the output, and a bad line is refused, whatever files the task names for these: `start` has them written.
pub fn run<I: Source + Explains, O: Drain + Explains, E: Drain>(
    alloc: Global,
    task: Task,
    files: &mut Files<I>,
    out: &mut O,
    err: &mut E,
) -> u8
    requires base { BaseFits task.base task.limits }
    requires fresh { AreFresh I.has_ended I.has_failed files.old }
    requires out { O.has_failed out.old ≡ false }
    requires err { E.has_failed err.old ≡ false }
    ensures ends { AsWritten (RunEnds (devices_of I.Source I.Explains O.Drain O.Explains) standard_output task
        (option_map I.remaining files.old.prefixes)
        (I.remaining files.old.document) (files_told I.Source files.new)) result
        O.Drain E.Drain out.old out.new err.old err.new }
    ensures untold { result ≡ 0 → err.new ≡ err.old }
{
    run_to_output(alloc, task, "standard output", files, out, err)
}

/// The same with an output of this name, which is told where a write fails and an explanation is asked for.
pub fn run_to_output<I: Source + Explains, O: Drain + Explains, E: Drain>(
    alloc: Global,
    task: Task,
    name: &str,
    files: &mut Files<I>,
    out: &mut O,
    err: &mut E,
) -> u8
    requires base { BaseFits task.base task.limits }
    requires fresh { AreFresh I.has_ended I.has_failed files.old }
    requires out { O.has_failed out.old ≡ false }
    requires err { E.has_failed err.old ≡ false }
    ensures ends { AsWritten (RunEnds (devices_of I.Source I.Explains O.Drain O.Explains) name.now task
        (option_map I.remaining files.old.prefixes) (I.remaining files.old.document)
        (files_told I.Source files.new)) result
        O.Drain E.Drain out.old out.new err.old err.new }
    ensures untold { result ≡ 0 → err.new ≡ err.old }
{
    let mut task = task;
    let action = task.action;
    let explain = task.explain;
    let file = task.file.take();
    let prefixes = task.prefixes.take();
    let job = match job_of(alloc, task, &mut files.prefixes) {
        Ok(job) => job,
        Err(fault) => {
            let file = (name_by(prefixes.as_deref()), &files.prefixes);
            return refuse_bindings(alloc, explain, &fault, file, err);
        }
    };
    match act(alloc, action, job, explain, &mut files.document, out) {
        Ok(()) => 0,
        Err(stop) => {
            let document = (name_by(file.as_deref()), &files.document);
            tell_stopped(alloc, explain, &stop, document, (name, &*out), err);
            status(&stop.fault)
        }
    }
}

// What a task asks for, with the bindings of its file.
pub(crate) fn job_of<I: Source>(
    alloc: Global,
    task: Task,
    prefixes: &mut Option<I>,
) -> Result<Job, LoadFault>
    requires base { BaseFits task.base task.limits }
    requires fresh { IfSome prefixes.old (λ s. (I.has_ended s ≡ false) × (I.has_failed s ≡ false)) }
    ensures job { IfOk result (IsJobOf task (option_map I.remaining prefixes.old)
        (option_map (told I.Source) prefixes.new)) }
    ensures stops { IfErr result (λ fault. StartsNot fault task.limits (option_map I.remaining prefixes.old)
        (option_map (told I.Source) prefixes.new)) }
{
    let limits = task.limits;
    let job = bare_job(task);
    match prefixes {
        Some(source) => {
            let bindings = load_bindings(alloc, limits, source)?;
            Ok(job.with_bindings(bindings))
        }
        None => Ok(job),
    }
}

// What a task asks for, without bindings.
fn bare_job(task: Task) -> Job
    requires { BaseFits task.base task.limits }
    ensures { result ≡ record {
      form = task.form;
      base = task.base;
      bindings = [];
      escapes = task.escapes;
      node_prefix = word_of task.node_prefix;
      graph = task.graph;
      limits = task.limits;
    } }
{
    let job = Job::new(task.form, task.base, task.limits).unwrap();
    let job = job.with_escapes(task.escapes);
    let job = named(job, task.node_prefix);
    placed(job, task.graph)
}

// The job with the task's word in front of the names of nodes, where it has one.
fn named(job: Job, prefix: Option<NodePrefix>) -> Job
    requires { job.node_prefix ≡ [] }
    ensures { result ≡ record job { node_prefix = word_of prefix } }
{
    match prefix {
        Some(prefix) => job.with_node_prefix(prefix),
        None => job,
    }
}

// The job with the task's graph for quads of the default graph, where it has one.
fn placed(job: Job, graph: Option<Iri>) -> Job
    requires { job.graph ≡ None }
    ensures { result ≡ record job { graph = graph } }
{
    match graph {
        Some(graph) => job.with_graph(graph),
        None => job,
    }
}

fn act<S: Source, O: Drain>(
    alloc: Global,
    action: Action,
    job: Job,
    explain: bool,
    source: &mut S,
    out: &mut O,
) -> Result<(), Stop>
    requires more { S.has_ended source.old ≡ false }
    requires source { S.has_failed source.old ≡ false }
    requires out { O.has_failed out.old ≡ false }
    ensures accepted { OnOk result (IfSome (S.remaining source.old) (λ bytes.
        Does action job bytes (O.contents out.old) (O.contents out.new))) }
    ensures flushed { OnOk result (O.is_flushed out.new ≡ true) }
    ensures stops { IfErr result (λ stop.
        AsTold (StopsAction action stop.fault job) S.Source O.Drain source.old source.new out.old out.new) }
    ensures sent { IfErr result (λ stop. SendsOn action stop.fault (O.is_flushed out.new)) }
    ensures expected { IfErr result (λ stop. TellsEvidence explain action stop.fault job (S.remaining source.old)
        (told S.Source source.new) stop.evidence) }
    ensures prompt { HandsOver action job (S.remaining source.old) (told S.Source source.new) (O.contents out.old)
        (O.contents out.new) }
{
    match action {
        Action::Check => check_to(alloc, job, None, explain, source, out),
        Action::Show => show_to(alloc, job, explain, source, out),
        Action::Convert => convert_to(alloc, job, explain, source, out),
    }
}

// Writes the lines of a document's tokens.
fn show_to<S: Source, O: Drain>(
    alloc: Global,
    job: Job,
    explain: bool,
    source: &mut S,
    out: &mut O,
) -> Result<(), Stop>
    requires more { S.has_ended source.old ≡ false }
    requires source { S.has_failed source.old ≡ false }
    requires out { O.has_failed out.old ≡ false }
    ensures accepted { OnOk result (IfSome (S.remaining source.old) (λ bytes.
        Does Action.Show job bytes (O.contents out.old) (O.contents out.new))) }
    ensures flushed { OnOk result (O.is_flushed out.new ≡ true) }
    ensures stops { IfErr result (λ stop.
        AsTold (StopsAction Action.Show stop.fault job) S.Source O.Drain source.old source.new out.old out.new) }
    ensures sent { IfErr result (λ stop. IsSentOn stop.fault (O.is_flushed out.new)) }
    ensures prompt { IsPrompt (showing_of job) (S.remaining source.old) (told S.Source source.new)
        (O.contents out.old) (O.contents out.new) }
    ensures expected { IfErr result (λ stop. TellsEvidence explain Action.Show stop.fault job (S.remaining source.old)
        (told S.Source source.new) stop.evidence) }
{
    let limits = job.limits();
    let mut near = asked_near(explain);
    match show_near(alloc, job, source, out, &mut near) {
        Ok(_) => Ok(()),
        Err(fault) => Err(stop_of(fault, Details::none(), near, limits)),
    }
}

// The place of a refusal, which is asked for with an explanation.
fn asked_near(explain: bool) -> Nearby<Near>
    ensures { result ≡ asked_near explain }
{
    if explain {
        Nearby::Asked
    } else {
        Nearby::Unasked
    }
}

// Why a run stopped, with what is known of it.
fn stop_of(fault: StreamFault, details: Details, near: Nearby<Near>, limits: Limits) -> Stop
    ensures fault { result.fault ≡ fault }
    ensures evidence { result.evidence ≡ record { details = details; near = near; limits = limits } }
{
    Stop {
        fault,
        evidence: Evidence {
            details,
            near,
            limits,
        },
    }
}

// Writes the lines of a document's quads.
fn convert_to<S: Source, O: Drain>(
    alloc: Global,
    job: Job,
    explain: bool,
    source: &mut S,
    out: &mut O,
) -> Result<(), Stop>
    requires more { S.has_ended source.old ≡ false }
    requires source { S.has_failed source.old ≡ false }
    requires out { O.has_failed out.old ≡ false }
    ensures accepted { OnOk result (IfSome (S.remaining source.old) (λ bytes.
        IsConverted (conversion_of job) bytes (O.contents out.old) (O.contents out.new))) }
    ensures flushed { OnOk result (O.is_flushed out.new ≡ true) }
    ensures stops { IfErr result (λ stop.
        AsTold (StopsFor stop.fault (conversion_of job)) S.Source O.Drain source.old source.new out.old out.new) }
    ensures sent { IfErr result (λ stop. IsSentOn stop.fault (O.is_flushed out.new)) }
    ensures expected { IfErr result (λ stop.
        TellsOf explain stop.fault job (S.remaining source.old) (told S.Source source.new) stop.evidence) }
    ensures prompt { IsPrompt (conversion_of job) (S.remaining source.old) (told S.Source source.new)
        (O.contents out.old) (O.contents out.new) }
{
    let limits = job.limits();
    let mut details = Details::none();
    let mut near = asked_near(explain);
    match convert_expecting(alloc, job, source, out, &mut details, &mut near) {
        Ok(_) => Ok(()),
        Err(fault) => Err(stop_of(fault, details, near, limits)),
    }
}

/// Checks a document, and says what is in it, with a name in front if there is one.
pub fn check_to<S: Source, O: Drain>(
    alloc: Global,
    job: Job,
    name: Option<&str>,
    explain: bool,
    source: &mut S,
    out: &mut O,
) -> Result<(), Stop>
    requires more { S.has_ended source.old ≡ false }
    requires source { S.has_failed source.old ≡ false }
    requires out { O.has_failed out.old ≡ false }
    ensures accepted { OnOk result (IfSome (S.remaining source.old) (λ bytes.
        IsCheckedAs (option_map (λ s. s.now) name.entry) job bytes (O.contents out.old) (O.contents out.new))) }
    ensures flushed { OnOk result (O.is_flushed out.new ≡ true) }
    ensures stops { IfErr result (λ stop. AsTold
        (StopsCheckAs (option_map (λ s. s.now) name.entry) stop.fault job) S.Source O.Drain source.old source.new
        out.old out.new) }
    ensures expected { IfErr result (λ stop.
        TellsOf explain stop.fault job (S.remaining source.old) (told S.Source source.new) stop.evidence) }
{
    let limits = job.limits();
    let mut details = Details::none();
    let mut near = asked_near(explain);
    let summary = match check_expecting(alloc, job, source, &mut details, &mut near) {
        Ok(summary) => summary,
        Err(fault) => return Err(stop_of(fault, details, near, limits)),
    };
    let text = match accepted_line(alloc, name, summary) {
        Ok(text) => text,
        Err(AllocError) => {
            return Err(stop_of(StreamFault::Memory, details, near, limits));
        }
    };
    match write_out(text.as_slice(), out) {
        Ok(()) => Ok(()),
        Err(Failed) => Err(stop_of(StreamFault::Write, details, near, limits)),
    }
}

fn accepted_line(alloc: Global, name: Option<&str>, summary: Summary) -> Result<Vec<u8>, AllocError>
    ensures { IfOk result (λ text.
        text.items ≡ front_of (option_map (λ s. s.now) name.entry) ++ accepted_text summary) }
{
    let mut text = front_of(alloc, name)?;
    put_accepted(summary, &mut text)?;
    Ok(text)
}

// What stands in front of the line about a document.
fn front_of(alloc: Global, name: Option<&str>) -> Result<Vec<u8>, AllocError>
    ensures { IfOk result (λ text. text.items ≡ front_of (option_map (λ s. s.now) name.entry)) }
{
    match name {
        Some(name) => named_front(alloc, name),
        None => Ok(Vec::new(alloc)),
    }
}

fn put_accepted(summary: Summary, text: &mut Vec<u8>) -> Result<(), AllocError>
    ensures { OnOk result (text.new.items ≡ text.old.items ++ accepted_text summary) }
{
    text.extend_from_slice(b"accepted, ")?;
    put_number(summary.quads, text)?;
    text.extend_from_slice(b" quads, ")?;
    put_number(summary.bytes, text)?;
    text.extend_from_slice(b" bytes\n")
}

// Writes the bytes, and sends them on.
fn write_out<O: Drain>(bytes: &[u8], out: &mut O) -> Result<(), Failed>
    requires { O.has_failed out.old ≡ false }
    ensures ok { OnOk result (Appends (O.contents out.old) (O.contents out.new) bytes.now) }
    ensures flushed { OnOk result (O.is_flushed out.new ≡ true) }
    ensures err { OnErr result (AppendsFront (O.contents out.old) (O.contents out.new) bytes.now) }
    ensures failed { O.has_failed out.new ≡ is_err result }
{
    put_all(out, bytes)?;
    out.flush()
}
