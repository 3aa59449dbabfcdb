// Runs over memory: what they write and report, whatever their devices and their memory do.

ghost use Rattle.std.specs.Prelude.{◌≡◌, false};

use rdf_iri::Limits;
use rdf_lines::Summary;
use rdf_stream::{Form, Job, StreamFault, check, convert, report, show};
use rdf_terms::Iri;
use slow_devices::{Parts, SlowDrain, parts_of, slow_drain};
use std::alloc::{Allocator, Global};

/// What is done with a document. A check writes nothing.
#[derive(Clone, Copy, PartialEq, Eq, Debug)]
pub(crate) enum Task {
    Convert,
    Check,
    Show,
}

/// What a run is asked for, and how its devices behave.
#[derive(Clone, Copy)]
pub(crate) struct Asked<'a> {
    pub(crate) task: Task,
    pub(crate) form: Form,
    /// The base, or nothing.
    pub(crate) base: &'a str,
    pub(crate) limits: Limits,
    pub(crate) document: &'a [u8],
    /// Where the document is cut; at 0 each byte comes alone.
    pub(crate) cut: usize,
    /// The calls after which the source fails.
    pub(crate) fills: u64,
    /// How many bytes the drain takes a call.
    pub(crate) room: usize,
    /// The calls after which the drain fails.
    pub(crate) puts: u64,
}

impl<'a> Asked<'a> {
    /// The same for another task.
    pub(crate) fn to(&self, task: Task) -> Asked<'a> {
        Asked { task, ..*self }
    }

    /// No base, the default limits, the document whole, and devices that fail nowhere.
    pub(crate) fn of(task: Task, form: Form, document: &'a [u8]) -> Asked<'a> {
        Asked {
            task,
            form,
            base: "",
            limits: Limits::default(),
            document,
            cut: usize::MAX,
            fills: u64::MAX,
            room: usize::MAX,
            puts: u64::MAX,
        }
    }
}

/// How a run ended.
#[derive(Clone, Copy, PartialEq, Eq, Debug)]
pub(crate) enum End {
    Done(Summary),
    Refused,
    Read,
    Write,
    Memory,
}

/// What came of a run.
#[derive(Drop)]
pub(crate) struct Outcome {
    /// What was written, and the line of the fault after it, if there was one.
    pub(crate) text: Vec<u8>,
    /// How many bytes were written.
    pub(crate) len: usize,
    pub(crate) end: End,
    pub(crate) flushed: bool,
    /// Whether a call of the source or the drain failed.
    pub(crate) has_failed: bool,
}

impl End {
    fn of(fault: &StreamFault) -> End {
        match fault {
            StreamFault::Refused(_) => End::Refused,
            StreamFault::Read => End::Read,
            StreamFault::Write => End::Write,
            StreamFault::Memory => End::Memory,
        }
    }
}

impl Outcome {
    /// Whether what was written is to be flushed: at the end, and after a refusal.
    pub(crate) fn is_sent(&self) -> bool {
        matches!(self.end, End::Done(_) | End::Refused)
    }
}

fn job<A: Allocator + Copy>(alloc: A, asked: &Asked<'_>) -> Option<Job<A>> {
    if asked.base.is_empty() {
        return Job::new(asked.form, None, asked.limits);
    }
    match Iri::new(alloc, asked.base) {
        Ok(base) => Job::new(asked.form, Some(base), asked.limits),
        Err(_) => None,
    }
}

fn stream<A: Allocator + Copy>(
    memory: A,
    asked: &Asked<'_>,
    source: &mut Parts<'_>,
    drain: &mut SlowDrain,
) -> Result<Summary, StreamFault>
    requires more { source.old.ended ≡ false }
    requires source { source.old.failed ≡ false }
    requires drain { drain.old.failed ≡ false }
{
    let Some(job) = job(memory, asked) else {
        return Err(StreamFault::Memory);
    };
    match asked.task {
        Task::Convert => convert(memory, job, source, drain),
        Task::Check => check(memory, job, source),
        Task::Show => show(memory, job, source, drain),
    }
}

fn ended(
    alloc: Global,
    outcome: Result<Summary, StreamFault>,
    source_failed: bool,
    drain: SlowDrain,
) -> Outcome {
    let SlowDrain {
        bytes,
        failed,
        flushed,
        ..
    } = drain;
    let mut text = bytes;
    let len = text.len();
    let end = match outcome {
        Ok(summary) => End::Done(summary),
        Err(fault) => {
            let _ = report(alloc, &fault, &mut text);
            End::of(&fault)
        }
    };
    Outcome {
        text,
        len,
        end,
        flushed,
        has_failed: source_failed || failed,
    }
}

/// What comes of a run that takes its memory there.
pub(crate) fn run<A: Allocator + Copy>(memory: A, alloc: Global, asked: &Asked<'_>) -> Outcome {
    let mut source = parts_of(asked.document, asked.cut, asked.fills);
    let mut drain = slow_drain(alloc, asked.room, asked.puts);
    let outcome = stream(memory, asked, &mut source, &mut drain);
    let Parts { failed, .. } = source;
    ended(alloc, outcome, failed, drain)
}

/// Whether a check ended as the run, counted what it counts, and reports what it reports.
pub(crate) fn is_checked(checked: &Outcome, converted: &Outcome) -> bool {
    checked.end == converted.end
        && checked.len == 0
        && converted.text.as_slice().ends_with(checked.text.as_slice())
}

/// Whether the same came of two runs.
pub(crate) fn is_alike(one: &Outcome, other: &Outcome) -> bool {
    one.end == other.end
        && one.flushed == other.flushed
        && one.text.as_slice() == other.text.as_slice()
}

/// Whether a run writes and reports this text, and flushes where it is done or refused.
pub(crate) fn has_text(alloc: Global, asked: &Asked<'_>, text: &[u8]) -> bool {
    let run = run(alloc, alloc, asked);
    run.text.as_slice() == text && run.flushed == run.is_sent()
}
