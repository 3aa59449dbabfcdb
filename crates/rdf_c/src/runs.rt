// Runs over memory.

ghost use Rattle.std.specs.Prelude.{◌≡◌, ◌++◌, [], Some, false, length, take, drop, min, OnOk, IfOk, IfErr};
ghost use Rattle.rdf_stream.specs.Converts.{Accepts};
ghost use Rattle.rdf_stream.specs.Checks.{IsAccepted};
ghost use Rattle.rdf_stream.specs.Languages.{conversion_of, language_of};
ghost use Rattle.rdf_c.specs.Numbers.{accepted_with, refused_with};
ghost use Rattle.rdf_c.specs.Kinds.{HasTold, IsPlaced, PlacesFor, TellsFor};
ghost use Rattle.rdf_stream.specs.Places.{HandsOut};
ghost use Rattle.rdf_stream.specs.Expected.{NoDetails};
ghost use Rattle.rdf_c.specs.Calls.{Checks, Converts, CheckStopped, Stopped};

use crate::memory::{Bytes, Lines};
use crate::outcome::{Outcome, number_of};
use rdf_stream::{
    Details, Fault, Job, Near, Nearby, StreamFault, Summary, check_expecting, convert,
};
use std::alloc::Global;

/// Converts the bytes.
pub(crate) fn convert_bytes(alloc: Global, job: Job, input: &[u8], output: &mut [u8]) -> Outcome
    ensures len { length output.new ≡ length output.old }
    ensures outcome { Converts job input.now output.old output.new result }
{
    let mut lines = Lines {
        bytes: Vec::new(alloc),
        failed: false,
        flushed: false,
    };
    let ended = convert_to(alloc, job, input, &mut lines);
    let needed = lines.bytes.len() as u64;
    match ended {
        Ok(summary) => {
            let written = copy_front(lines.bytes.as_slice(), output) as u64;
            accepted(summary, needed, written)
        }
        Err(StreamFault::Refused(fault)) => {
            let written = copy_front(lines.bytes.as_slice(), output) as u64;
            refused(fault, needed, written)
        }
        Err(_) => Outcome::of_status(4),
    }
}

fn accepted(summary: Summary, needed: u64, written: u64) -> Outcome
    ensures { result ≡ accepted_with summary needed written }
{
    Outcome {
        status: if written < needed { 5 } else { 0 },
        reason: 0,
        offset: 0,
        line: 0,
        quads: summary.quads,
        tokens: summary.tokens,
        bytes: summary.bytes,
        needed,
        written,
    }
}

fn refused(fault: Fault, needed: u64, written: u64) -> Outcome
    ensures { result ≡ refused_with fault needed written }
{
    Outcome {
        status: 1,
        reason: number_of(fault.reason),
        offset: fault.offset,
        line: fault.line,
        quads: 0,
        tokens: 0,
        bytes: 0,
        needed,
        written,
    }
}

fn convert_to(
    alloc: Global,
    job: Job,
    input: &[u8],
    lines: &mut Lines,
) -> Result<Summary, StreamFault>
    requires none { lines.old.bytes.items ≡ [] }
    requires live { lines.old.failed ≡ false }
    ensures accepted { IfOk result (λ summary.
        Accepts (conversion_of job) input.now (Some []) (Some lines.new.bytes.items) summary) }
    ensures stops { IfErr result (λ fault. Stopped fault job input.now lines.new.bytes.items) }
{
    let mut source = Bytes::new(input);
    convert(alloc, job, &mut source, lines)
}

// Copies as much as there is room for.
fn copy_front(lines: &[u8], output: &mut [u8]) -> usize
    ensures count { result ≡ min (length lines.now) (length output.old) }
    ensures copied { output.new ≡ take result lines.now ++ drop result output.old }
{
    let count = lines.len().min(output.len());
    output[..count].copy_from_slice(&lines[..count]);
    count
}

/// Checks the bytes, and tells what is known of an unexpected token and of the place of a refusal.
pub(crate) fn check_bytes(
    alloc: Global,
    job: Job,
    input: &[u8],
    details: &mut Details,
    near: &mut Nearby<Near>,
) -> Outcome
    ensures outcome { Checks job input.now result }
    ensures told { HasTold job input.now result details.new }
    ensures near { HandsOut near.old (IsPlaced job input.now result) near.new }
{
    match check_all(alloc, job, input, details, near) {
        Ok(summary) => accepted(summary, 0, 0),
        Err(StreamFault::Refused(fault)) => refused(fault, 0, 0),
        Err(_) => {
            *details = Details::none();
            Outcome::of_status(4)
        }
    }
}

fn check_all(
    alloc: Global,
    job: Job,
    input: &[u8],
    details: &mut Details,
    near: &mut Nearby<Near>,
) -> Result<Summary, StreamFault>
    ensures accepted { IfOk result (λ summary. IsAccepted (language_of job) input.now summary) }
    ensures stops { IfErr result (λ fault. CheckStopped fault job input.now) }
    ensures none { OnOk result (NoDetails details.new) }
    ensures told { IfErr result (λ fault. TellsFor fault job input.now details.new) }
    ensures near { HandsOut near.old (PlacesFor job input.now result) near.new }
{
    let mut source = Bytes::new(input);
    check_expecting(alloc, job, &mut source, details, near)
}
