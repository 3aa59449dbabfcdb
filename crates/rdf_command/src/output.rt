// The run of a task over its document, whose lines go to the output or to a file of their own.

ghost use Rattle.std.specs.Prelude.{◌≡◌, ◌≢◌, false, true, option_map};
ghost use Rattle.rdf_iri.specs.Scope.{BaseFits};
ghost use Rattle.rdf_stream.specs.Messages.{report_text};
ghost use Rattle.rdf_stream.specs.Told.{written};
ghost use Rattle.rdf_stream.specs.declared.fault.StreamFault.{StreamFault};
ghost use Rattle.rdf_command.specs.Asides.{EndsBySkip, skip_of};
ghost use Rattle.rdf_command.specs.Outputs.{EndsInto, EndsOnto, EndsTo, output_of};
ghost use Rattle.rdf_command.specs.Programs.{outputs_of};
ghost use Rattle.rdf_command.specs.Reasons.{ReportsFailed, device, devices_of, drain_tells, source_tells};
ghost use Rattle.rdf_command.specs.Runs.{AreFresh, AsWritten, files_told};
ghost use Rattle.rdf_command.specs.Words.{SkipFits};

use crate::asides::run_skipping;
use crate::entry::Ended;
use crate::explains::Explains;
use crate::host::Host;
use crate::reasons::{refuse_name, refuse_output};
use crate::runs::{Files, run, run_to_output};
use crate::task::Task;
use rdf_stream::{Drain, Failed, Source};
use std::alloc::Global;

/// Runs a task over its files. Its bad lines go into a file where it has one for them, and are refused else.
pub fn run_over<H: Host, O: Drain + Explains, E: Drain>(
    alloc: Global,
    task: Task,
    host: &H,
    files: Files<H::Input>,
    out: &mut O,
    err: &mut E,
) -> Ended<H::Input>
    requires base { BaseFits task.base task.limits }
    requires skip { SkipFits task }
    requires fresh { AreFresh H.Input.has_ended H.Input.has_failed files }
    requires out { O.has_failed out.old ≡ false }
    requires err { E.has_failed err.old ≡ false }
    ensures { AsWritten (EndsBySkip (skip_of task)
        (outputs_of H.Host host.now (drain_tells H.Output.Drain H.Output.Explains))
        (devices_of H.Input.Source H.Input.Explains O.Drain O.Explains) task
        (option_map H.Input.remaining files.prefixes)
        (H.Input.remaining files.document) (option_map (files_told H.Input.Source) result.files)) result.status
        O.Drain E.Drain out.old out.new err.old err.new }
{
    let mut task = task;
    match task.skip.take() {
        Some(bad) => run_skipping(alloc, task, bad.as_str(), host, files, out, err),
        None => run_to(alloc, task, host, files, out, err),
    }
}

// Runs a task over its files. Its lines go to the file that it writes, or to the output where it writes none.
fn run_to<H: Host, O: Drain + Explains, E: Drain>(
    alloc: Global,
    task: Task,
    host: &H,
    files: Files<H::Input>,
    out: &mut O,
    err: &mut E,
) -> Ended<H::Input>
    requires base { BaseFits task.base task.limits }
    requires fresh { AreFresh H.Input.has_ended H.Input.has_failed files }
    requires out { O.has_failed out.old ≡ false }
    requires err { E.has_failed err.old ≡ false }
    ensures { AsWritten (EndsTo (output_of task)
        (outputs_of H.Host host.now (drain_tells H.Output.Drain H.Output.Explains))
        (devices_of H.Input.Source H.Input.Explains O.Drain O.Explains) task
        (option_map H.Input.remaining files.prefixes)
        (H.Input.remaining files.document) (option_map (files_told H.Input.Source) result.files)) result.status
        O.Drain E.Drain out.old out.new err.old err.new }
{
    let mut task = task;
    match task.output.take() {
        Some(name) => run_into(alloc, task, name.as_str(), host, files, err),
        None => run_onto(alloc, task, files, out, err),
    }
}

// Runs a task whose lines go to the output.
fn run_onto<I: Source + Explains + Drop, O: Drain + Explains, E: Drain>(
    alloc: Global,
    task: Task,
    files: Files<I>,
    out: &mut O,
    err: &mut E,
) -> Ended<I>
    requires base { BaseFits task.base task.limits }
    requires fresh { AreFresh I.has_ended I.has_failed files }
    requires out { O.has_failed out.old ≡ false }
    requires err { E.has_failed err.old ≡ false }
    ensures { AsWritten (EndsOnto (devices_of I.Source I.Explains O.Drain O.Explains) task
        (option_map I.remaining files.prefixes) (I.remaining files.document)
        (option_map (files_told I.Source) result.files)) result.status
        O.Drain E.Drain out.old out.new err.old err.new }
{
    let mut files = files;
    let status = run(alloc, task, &mut files, out, err);
    Ended {
        status,
        files: Some(files),
    }
}

// Runs a task whose lines go to the file of this name.
fn run_into<H: Host, E: Drain>(
    alloc: Global,
    task: Task,
    name: &str,
    host: &H,
    files: Files<H::Input>,
    err: &mut E,
) -> Ended<H::Input>
    requires base { BaseFits task.base task.limits }
    requires fresh { AreFresh H.Input.has_ended H.Input.has_failed files }
    requires err { E.has_failed err.old ≡ false }
    ensures { EndsInto (outputs_of H.Host host.now (drain_tells H.Output.Drain H.Output.Explains))
        (source_tells H.Input.Source H.Input.Explains) name.now task (option_map H.Input.remaining files.prefixes)
        (H.Input.remaining files.document)
        (option_map (files_told H.Input.Source) result.files) result.status (E.contents err.old)
        (written E.Drain err.new) }
{
    let explain = task.explain;
    let mut output = match host.create(alloc, name) {
        Ok(output) => output,
        Err(why) => {
            return Ended {
                status: refuse_output(alloc, host, name, explain, why, err),
                files: None,
            };
        }
    };
    let mut files = files;
    let status = run_to_output(alloc, task, name, &mut files, &mut output, err);
    Ended {
        status: finish(alloc, host, output, (name, explain), status, err),
        files: Some(files),
    }
}

// Keeps the output of a run that is done as the file of this name, discards that of one which stopped, and answers the
// status then. Beside the name stands whether an explanation is asked for.
fn finish<H: Host, E: Drain>(
    alloc: Global,
    host: &H,
    output: H::Output,
    file: (&str, bool),
    status: u8,
    err: &mut E,
) -> u8
    requires flushed { status ≡ 0 → H.Output.is_flushed output ≡ true }
    requires err { status ≡ 0 → E.has_failed err.old ≡ false }
    ensures stopped { status ≢ 0 → (result ≡ status) × (err.new ≡ err.old) }
    ensures kept { result ≡ 0 → (status ≡ 0) × (err.new ≡ err.old)
        × H.has_output host.now file.entry.0.now (H.Output.contents output) }
    ensures left { result ≢ 0 → H.is_left host.now file.entry.0.now }
    ensures unnamed { status ≡ 0 → result ≢ 0 → (result ≡ 3)
        × ReportsFailed file.entry.1 (report_text StreamFault.Write)
        (device file.entry.0.now (H.has_reason host.now file.entry.0.now)) (E.contents err.old) (E.contents err.new)
        (E.has_failed err.new) }
{
    let (name, explain) = file;
    if status != 0 {
        host.discard(output, name);
        return status;
    }
    match host.keep(output, name) {
        Ok(()) => 0,
        Err(Failed) => refuse_name(alloc, host, name, explain, err),
    }
}
