// A check of several documents, one after the other.

ghost use Rattle.std.specs.Prelude.{◌≡◌, ◌⊎◌, false, true, IfErr, IfOk, IfSome, List, None, OnErr, Option, Some, map};
ghost use Rattle.std.specs.Prelude.{option_map, string_bytes, ℕ};
ghost use Rattle.rdf_iri.specs.Scope.{BaseFits};
ghost use Rattle.rdf_stream.specs.Devices.{Reading};
ghost use Rattle.rdf_stream.specs.Loads.{LoadStops};
ghost use Rattle.rdf_stream.specs.Told.{told, written};
ghost use Rattle.std.specs.Result.{IsErrOf};
ghost use Rattle.rdf_command.specs.Addresses.{IsFolderFor};
ghost use Rattle.rdf_command.specs.Programs.{SeveralEnd, documents_of, folders_of, shut_of};
ghost use Rattle.rdf_command.specs.Reasons.{devices_of};
ghost use Rattle.rdf_command.specs.Runs.{AsWritten, StartsNot};
ghost use Rattle.rdf_command.specs.Several.{AcceptsOne, BindsNotFrom, EndsAt, EndsEach, EndsOne, GivesBindings};
ghost use Rattle.rdf_command.specs.Several.{IsCheckJob, StopsOne, has_failed_output, status_after, worse};
ghost use Rattle.rdf_command.specs.RunSteps.{shared_of};

use crate::addresses::address_within;
use crate::commands::{name_by, named};
use crate::entry::{folder_of, open_prefixes};
use crate::explains::Explains;
use crate::host::{Host, NotOpen};
use crate::reasons::{refuse_bindings, refuse_file, refuse_file_of, tell_stopped_of};
use crate::reports::{refuse_address, refuse_address_of, refuse_prefixes, status};
use crate::runs::check_to;
use crate::task::Task;
use rdf_stream::{
    Drain, Form, Iri, Job, Limits, LoadFault, Source, TermFault, bindings_in, read_whole,
};
use std::alloc::{AllocError, Global};

/// What all documents are read with.
#[derive(Clone, Copy)]
pub struct Plan<'a> {
    /// Where memory is taken.
    pub alloc: Global,
    /// What relative references are resolved against.
    pub base: Option<&'a Iri>,
    /// The folder in which each document's address stands in place of the base, or None where that is for all.
    pub folder: Option<&'a str>,
    /// How large the parts of a document may be.
    pub limits: Limits,
    /// Whether a refusal is explained, by a line more.
    pub explain: bool,
    /// The bytes of the file of the prefixes that are bound before each document, or None where none are.
    pub prefixes: Option<&'a [u8]>,
}

impl<'a> Plan<'a> {
    /// The plan with this base.
    fn with_base<'b>(&'b self, base: &'b Iri) -> Plan<'b>
        ensures shared { shared_of result ≡ record (shared_of self.now) { base = Some base.now } }
        ensures limits { result.limits ≡ self.now.limits }
    {
        Plan {
            alloc: self.alloc,
            base: Some(base),
            folder: self.folder,
            limits: self.limits,
            explain: self.explain,
            prefixes: self.prefixes,
        }
    }
}

/// The status after a document, and whether an output had failed by then, so that no more are read.
#[derive(Clone, Copy)]
struct Turn {
    status: u8,
    has_failed: bool,
}

/// Checks all documents of a task, and answers the status.
pub fn check_each<H: Host, O: Drain + Explains, E: Drain>(
    alloc: Global,
    task: &Task,
    host: &H,
    out: &mut O,
    err: &mut E,
) -> u8
    requires base { BaseFits task.now.base task.now.limits }
    requires out { O.has_failed out.old ≡ false }
    requires err { E.has_failed err.old ≡ false }
    ensures { AsWritten (SeveralEnd (folders_of H.Host host.now) (H.has_document host.now)
        (shut_of H.Host host.now (devices_of H.Input.Source H.Input.Explains O.Drain O.Explains)) task.now) result
        O.Drain E.Drain out.old out.new err.old err.new }
{
    let folder = match folder_for(alloc, host, task.addressed) {
        Ok(folder) => folder,
        Err(fault) => return refuse_address(fault, err),
    };
    let mut source = match open_prefixes(host, task) {
        Ok(source) => source,
        Err(name) => return refuse_file(alloc, host, name, task.explain, err),
    };
    let prefixes = match given(alloc, task.limits, &mut source) {
        Ok(prefixes) => prefixes,
        Err(fault) => {
            let file = (name_by(task.prefixes.as_deref()), &source);
            return refuse_bindings(alloc, task.explain, &fault, file, err);
        }
    };
    drop(source);
    let plan = Plan {
        alloc,
        base: task.base.as_ref(),
        folder: folder.as_deref(),
        limits: task.limits,
        explain: task.explain,
        prefixes: prefixes.as_deref(),
    };
    check_with(&plan, task, host, out, err)
}

// The path of the folder that names start from, where addresses are asked for.
fn folder_for<H: Host>(
    alloc: Global,
    host: &H,
    addressed: bool,
) -> Result<Option<String>, TermFault>
    ensures found { IfOk result (λ folder.
        IsFolderFor (folders_of H.Host host.now) addressed (option_map string_bytes folder)) }
    ensures asked { OnErr result (addressed ≡ true) }
    ensures untold { IsErrOf result TermFault.BadTerm → H.has_no_folder host.now }
{
    if addressed {
        Ok(Some(folder_of(alloc, host)?))
    } else {
        Ok(None)
    }
}

// The bytes of the file of bindings, once they are seen to be bindings.
fn given<I: Source>(
    alloc: Global,
    limits: Limits,
    source: &mut Option<I>,
) -> Result<Option<Vec<u8>>, LoadFault>
    requires { IfSome source.old (λ s. (I.has_ended s ≡ false) × (I.has_failed s ≡ false)) }
    ensures given { IfOk result (λ bytes.
        GivesBindings limits (option_map I.remaining source.old) (option_map (λ b. b.items) bytes)) }
    ensures none { IfErr result (λ fault.
        StartsNot fault limits (option_map I.remaining source.old) (option_map (told I.Source) source.new)) }
{
    match source {
        Some(source) => Ok(Some(given_by(alloc, limits, source)?)),
        None => Ok(None),
    }
}

fn given_by<I: Source>(alloc: Global, limits: Limits, source: &mut I) -> Result<Vec<u8>, LoadFault>
    requires more { I.has_ended source.old ≡ false }
    requires live { I.has_failed source.old ≡ false }
    ensures given { IfOk result (λ bytes. GivesBindings limits (Some (I.remaining source.old)) (Some bytes.items)) }
    ensures none { IfErr result (λ fault. LoadStops fault limits (I.remaining source.old) (told I.Source source.new)) }
{
    let bytes = read_whole(alloc, source)?;
    bindings_in(alloc, limits, bytes.as_slice())?;
    Ok(bytes)
}

// Checks the documents in turn. After one that an output failed at no more are read.
fn check_with<H: Host, O: Drain + Explains, E: Drain>(
    plan: &Plan<'_>,
    task: &Task,
    host: &H,
    out: &mut O,
    err: &mut E,
) -> u8
    requires base { BaseFits (shared_of plan.now).base plan.now.limits }
    requires out { O.has_failed out.old ≡ false }
    requires err { E.has_failed err.old ≡ false }
    ensures { AsWritten (EndsEach (H.has_document host.now)
        (shut_of H.Host host.now (devices_of H.Input.Source H.Input.Explains O.Drain O.Explains)) (shared_of plan.now)
        (documents_of task.now)) result
        O.Drain E.Drain out.old out.new err.old err.new }
{
    let first = (task.form, name_by(task.file.as_deref()));
    let more = task.more.as_slice();
    let mut turn = check_next(plan, host, first, out, err);
    let mut worst = status_after(0, turn);
    for document in more {
        if turn.has_failed {
            return worst;
        }
        turn = check_next(
            plan,
            host,
            (document.form, document.name.as_str()),
            out,
            err,
        );
        worst = status_after(worst, turn);
    }
    worst
}

// Checks the next document, and says whether an output has failed since.
fn check_next<H: Host, O: Drain + Explains, E: Drain>(
    plan: &Plan<'_>,
    host: &H,
    document: (Form, &str),
    out: &mut O,
    err: &mut E,
) -> Turn
    requires base { BaseFits (shared_of plan.now).base plan.now.limits }
    requires out { O.has_failed out.old ≡ false }
    requires err { E.has_failed err.old ≡ false }
    ensures ends { AsWritten (EndsAt (shared_of plan.now).folder (H.has_document host.now)
        (shut_of H.Host host.now (devices_of H.Input.Source H.Input.Explains O.Drain O.Explains)) (shared_of plan.now)
        (document.entry.0, document.entry.1.now)) result.status
        O.Drain E.Drain out.old out.new err.old err.new }
    ensures failed { result.has_failed ≡ has_failed_output (written O.Drain out.new) (written E.Drain err.new) }
{
    let status = check_one(plan, host, document, out, err);
    Turn {
        status,
        has_failed: out.failed() || err.failed(),
    }
}

// Checks a document, with its address as its base where that is asked for, and answers its status.
fn check_one<H: Host, O: Drain + Explains, E: Drain>(
    plan: &Plan<'_>,
    host: &H,
    document: (Form, &str),
    out: &mut O,
    err: &mut E,
) -> u8
    requires base { BaseFits (shared_of plan.now).base plan.now.limits }
    requires out { O.has_failed out.old ≡ false }
    requires err { E.has_failed err.old ≡ false }
    ensures { AsWritten (EndsAt (shared_of plan.now).folder (H.has_document host.now)
        (shut_of H.Host host.now (devices_of H.Input.Source H.Input.Explains O.Drain O.Explains)) (shared_of plan.now)
        (document.entry.0, document.entry.1.now)) result
        O.Drain E.Drain out.old out.new err.old err.new }
{
    match plan.folder {
        Some(folder) => check_at(plan, folder, host, document, out, err),
        None => check_based(plan, host, document, out, err),
    }
}

// Checks a document with its address in this folder as its base, and answers its status.
fn check_at<H: Host, O: Drain + Explains, E: Drain>(
    plan: &Plan<'_>,
    folder: &str,
    host: &H,
    document: (Form, &str),
    out: &mut O,
    err: &mut E,
) -> u8
    requires out { O.has_failed out.old ≡ false }
    requires err { E.has_failed err.old ≡ false }
    ensures { AsWritten (EndsAt (Some folder.now) (H.has_document host.now)
        (shut_of H.Host host.now (devices_of H.Input.Source H.Input.Explains O.Drain O.Explains)) (shared_of plan.now)
        (document.entry.0, document.entry.1.now)) result
        O.Drain E.Drain out.old out.new err.old err.new }
{
    let (_, name) = document;
    match address_within(plan.alloc, folder, named(name), plan.limits.iri()) {
        Ok(base) => check_based(&plan.with_base(&base), host, document, out, err),
        Err(fault) => refuse_address_of(plan.alloc, name, fault, err),
    }
}

// Checks a document with the base of the plan, and answers its status.
fn check_based<H: Host, O: Drain + Explains, E: Drain>(
    plan: &Plan<'_>,
    host: &H,
    document: (Form, &str),
    out: &mut O,
    err: &mut E,
) -> u8
    requires base { BaseFits (shared_of plan.now).base plan.now.limits }
    requires out { O.has_failed out.old ≡ false }
    requires err { E.has_failed err.old ≡ false }
    ensures { AsWritten (EndsOne (H.has_document host.now)
        (shut_of H.Host host.now (devices_of H.Input.Source H.Input.Explains O.Drain O.Explains)) (shared_of plan.now)
        (document.entry.0, document.entry.1.now)) result
        O.Drain E.Drain out.old out.new err.old err.new }
{
    let (form, name) = document;
    let job = match job_for(plan, form) {
        Ok(job) => job,
        Err(fault) => return refuse_prefixes(plan.alloc, &fault, err),
    };
    match host.open(named(name)) {
        Ok(source) => check_source(plan, (job, name), source, out, err),
        Err(NotOpen) => refuse_file_of(plan.alloc, host, name, plan.explain, err),
    }
}

// Checks the document that a source has, and answers its status.
fn check_source<I: Source + Explains + Drop, O: Drain + Explains, E: Drain>(
    plan: &Plan<'_>,
    document: (Job, &str),
    source: I,
    out: &mut O,
    err: &mut E,
) -> u8
    requires more { I.has_ended source ≡ false }
    requires source { I.has_failed source ≡ false }
    requires out { O.has_failed out.old ≡ false }
    requires err { E.has_failed err.old ≡ false }
    ensures { (left : Reading) × (AsWritten
        (AcceptsOne document.entry.0 document.entry.1.now
        (I.remaining source)) result O.Drain E.Drain out.old out.new err.old err.new
        ⊎ AsWritten (StopsOne (devices_of I.Source I.Explains O.Drain O.Explains) plan.now.explain document.entry.0
        document.entry.1.now (I.remaining source) left) result O.Drain E.Drain out.old out.new err.old err.new) }
{
    let (job, name) = document;
    let mut source = source;
    match check_to(plan.alloc, job, Some(name), plan.explain, &mut source, out) {
        Ok(()) => 0,
        Err(stop) => {
            let output = ("standard output", &*out);
            tell_stopped_of(
                plan.alloc,
                plan.explain,
                &stop,
                (name, &source),
                output,
                err,
            );
            status(&stop.fault)
        }
    }
}

// What a document of this format is read with.
fn job_for(plan: &Plan<'_>, form: Form) -> Result<Job, LoadFault>
    requires { BaseFits (shared_of plan.now).base plan.now.limits }
    ensures job { IfOk result (IsCheckJob (shared_of plan.now) form) }
    ensures none { IfErr result (λ fault. BindsNotFrom fault plan.now.limits (shared_of plan.now).prefixes) }
{
    let base = copied(plan.alloc, plan.base)?;
    let job = Job::new(form, base, plan.limits).unwrap();
    match plan.prefixes {
        Some(bytes) => Ok(job.with_bindings(bindings_in(plan.alloc, plan.limits, bytes)?)),
        None => Ok(job),
    }
}

fn copied(alloc: Global, base: Option<&Iri>) -> Result<Option<Iri>, AllocError>
    ensures { IfOk result (λ copy. copy ≡ option_map (λ b. b.now) base.entry) }
{
    match base {
        Some(base) => Ok(Some(copy_of(alloc, base)?)),
        None => Ok(None),
    }
}

fn copy_of(alloc: Global, iri: &Iri) -> Result<Iri, AllocError>
    ensures { IfOk result (λ copy. copy ≡ iri.now) }
{
    match Iri::new(alloc, iri.as_str()) {
        Ok(copy) => Ok(copy),
        Err(TermFault::BadTerm) => unreachable!(),
        Err(TermFault::Memory) => Err(AllocError),
    }
}

// The status so far, after a document.
fn status_after(so_far: u8, turn: Turn) -> u8
    ensures { result ≡ status_after so_far turn.status turn.has_failed }
{
    let status = worse(so_far, turn.status);
    if turn.has_failed {
        worse(status, 3)
    } else {
        status
    }
}

fn worse(a: u8, b: u8) -> u8
    ensures { result ≡ worse a b }
{
    if a < b { b } else { a }
}
