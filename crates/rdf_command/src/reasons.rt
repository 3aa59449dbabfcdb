// What is reported of a file or a device that failed, with the system's reason where an explanation is asked for.

ghost use Rattle.std.specs.Prelude.{◌≡◌, ◌⊎◌, ◌++◌, codes, decimal, false, true, IfOk, OnOk, Option, option_map};
ghost use Rattle.clap.specs.Words.{Text};
ghost use Rattle.rdf_command.specs.Reasons.{ReportsBindings, ReportsFailed, ReportsFailedOf, ReportsNoOutput};
ghost use Rattle.rdf_command.specs.Reasons.{ReportsShut, ReportsShutOf, ReportsStop, ReportsStopOf};
ghost use Rattle.rdf_command.specs.Reasons.{bad_prefixes_text, device, reason_line};
ghost use Rattle.rdf_command.specs.Statuses.{Reports, ReportsLoad, ReportsOf, load_status, output_status};
ghost use Rattle.rdf_command.specs.Statuses.{prefixes_text};
ghost use Rattle.rdf_stream.specs.Messages.{report_text};
ghost use Rattle.rdf_stream.specs.declared.fault.LoadFault.{LoadFault};
ghost use Rattle.rdf_stream.specs.declared.fault.StreamFault.{StreamFault};

use crate::explains::Explains;
use crate::host::{Host, NoOutput};
use crate::reports::{
    Stop, prefixes_line, refuse_prefixes, tell_bytes, tell_memory, tell_of, tell_prefixes,
    tell_stop, tell_stop_of,
};
use rdf_stream::{Drain, LoadFault, StreamFault, put_number, read_failed, write_failed};
use std::alloc::{AllocError, Global};

/// The text and the status of a file that did not open. Where an explanation is asked for, a line with the name of the
/// file and the system's reason follows.
pub fn refuse_file<H: Host, E: Drain>(
    alloc: Global,
    host: &H,
    name: &str,
    explain: bool,
    err: &mut E,
) -> u8
    requires { E.has_failed err.old ≡ false }
    ensures status { result ≡ 3 }
    ensures reported { ReportsShut (H.has_reason host.now) explain name.now (E.contents err.old) (E.contents err.new)
        (E.has_failed err.new) }
{
    if explain {
        tell_why(alloc, b"rdfconv: cannot open file\n", host, name, err);
    } else {
        tell_bytes(b"rdfconv: cannot open file\n", err);
    }
    3
}

/// The text and the status of an output of this name that was not created. Where an explanation is asked for, a
/// line with the name and the system's reason follows, but for want of memory.
pub fn refuse_output<H: Host, E: Drain>(
    alloc: Global,
    host: &H,
    name: &str,
    explain: bool,
    why: NoOutput,
    err: &mut E,
) -> u8
    requires { E.has_failed err.old ≡ false }
    ensures status { result ≡ output_status why }
    ensures reported { ReportsNoOutput (H.has_reason host.now) explain name.now why (E.contents err.old)
        (E.contents err.new) (E.has_failed err.new) }
{
    match why {
        NoOutput::NotOpen => refuse_file(alloc, host, name, explain, err),
        NoOutput::Memory => tell_memory(err),
    }
}

/// The text and the status of an output that could not get this name. Where an explanation is asked for, a line
/// with the name and the system's reason follows.
pub fn refuse_name<H: Host, E: Drain>(
    alloc: Global,
    host: &H,
    name: &str,
    explain: bool,
    err: &mut E,
) -> u8
    requires { E.has_failed err.old ≡ false }
    ensures status { result ≡ 3 }
    ensures reported { ReportsFailed explain (report_text StreamFault.Write)
        (device name.now (H.has_reason host.now name.now)) (E.contents err.old) (E.contents err.new)
        (E.has_failed err.new) }
{
    let line = write_failed().as_bytes();
    if explain {
        tell_why(alloc, line, host, name, err);
    } else {
        tell_bytes(line, err);
    }
    3
}

// The line of a file that failed, and the line of the reason that the host tells.
fn tell_why<H: Host, E: Drain>(alloc: Global, line: &[u8], host: &H, name: &str, err: &mut E)
    requires { E.has_failed err.old ≡ false }
    ensures { ReportsFailed true line.now (device name.now (H.has_reason host.now name.now)) (E.contents err.old)
        (E.contents err.new) (E.has_failed err.new) }
{
    let why = host.reason(alloc, name);
    tell_reason(alloc, line, name, why.as_deref(), err);
}

// The line of a device that failed, and the line of the reason that it tells.
fn tell_failed<D: Explains, E: Drain>(alloc: Global, line: &[u8], teller: (&str, &D), err: &mut E)
    requires { E.has_failed err.old ≡ false }
    ensures { ReportsFailed true line.now (device teller.entry.0.now (D.tells teller.entry.1.now))
        (E.contents err.old) (E.contents err.new) (E.has_failed err.new) }
{
    let (name, device) = teller;
    let why = device.reason(alloc);
    tell_reason(alloc, line, name, why.as_deref(), err);
}

// A line, and the line of a reason. That is left out where memory for it is refused.
fn tell_reason<E: Drain>(alloc: Global, line: &[u8], name: &str, why: Option<&str>, err: &mut E)
    requires { E.has_failed err.old ≡ false }
    ensures { Reports (line.now ++ reason_line name.now (option_map (λ s. s.now) why.entry)) (E.contents err.old)
        (E.contents err.new) (E.has_failed err.new)
        ⊎ Reports line.now (E.contents err.old) (E.contents err.new) (E.has_failed err.new) }
{
    match with_reason(alloc, line, name, why) {
        Ok(text) => tell_bytes(text.as_slice(), err),
        Err(AllocError) => tell_bytes(line, err),
    }
}

/// The line and the status of one of several documents, that of this name, whose file did not open. Where an
/// explanation is asked for, a line with the name and the system's reason follows.
pub fn refuse_file_of<H: Host, E: Drain>(
    alloc: Global,
    host: &H,
    name: &str,
    explain: bool,
    err: &mut E,
) -> u8
    requires { E.has_failed err.old ≡ false }
    ensures status { result ≡ 3 }
    ensures reported { ReportsShutOf (H.has_reason host.now) explain name.now (E.contents err.old)
        (E.contents err.new) (E.has_failed err.new) }
{
    if explain {
        tell_why_of(alloc, host, name, err);
    } else {
        tell_of(alloc, name, b"cannot open file\n", err);
    }
    3
}

// The line of one of several documents whose file did not open, and the line of the reason that the host tells.
fn tell_why_of<H: Host, E: Drain>(alloc: Global, host: &H, name: &str, err: &mut E)
    requires { E.has_failed err.old ≡ false }
    ensures { ReportsShutOf (H.has_reason host.now) true name.now (E.contents err.old) (E.contents err.new)
        (E.has_failed err.new) }
{
    let why = host.reason(alloc, name);
    tell_reason_of(
        alloc,
        name,
        b"cannot open file\n",
        (name, why.as_deref()),
        err,
    );
}

// The line of one of several documents, that of this name, at which a device failed, and the line of the reason that it
// tells.
fn tell_failed_of<D: Explains, E: Drain>(
    alloc: Global,
    name: &str,
    line: &[u8],
    teller: (&str, &D),
    err: &mut E,
)
    requires { E.has_failed err.old ≡ false }
    ensures { ReportsFailedOf name.now true line.now (device teller.entry.0.now (D.tells teller.entry.1.now))
        (E.contents err.old) (E.contents err.new) (E.has_failed err.new) }
{
    let (called, device) = teller;
    let why = device.reason(alloc);
    tell_reason_of(alloc, name, line, (called, why.as_deref()), err);
}

// A line of one of several documents, and the line of a reason behind its name.
fn tell_reason_of<E: Drain>(
    alloc: Global,
    name: &str,
    line: &[u8],
    reason: (&str, Option<&str>),
    err: &mut E,
)
    requires { E.has_failed err.old ≡ false }
    ensures { ReportsOf name.now (line.now
        ++ reason_line reason.entry.0.now (option_map (λ s. s.now) reason.entry.1)) (E.contents err.old)
        (E.contents err.new) (E.has_failed err.new) }
{
    let (called, why) = reason;
    match with_reason(alloc, line, called, why) {
        Ok(text) => tell_of(alloc, name, text.as_slice(), err),
        Err(AllocError) => {
            tell_memory(err);
        }
    }
}

// A text, and the line of the reason, where there is one.
fn with_reason(
    alloc: Global,
    text: &[u8],
    name: &str,
    why: Option<&str>,
) -> Result<Vec<u8>, AllocError>
    ensures { IfOk result (λ all. all.items ≡ text.now ++ reason_line name.now (option_map (λ s. s.now) why.entry)) }
{
    let mut all = Vec::from_slice(alloc, text)?;
    put_reason(name, why, &mut all)?;
    Ok(all)
}

fn put_reason(name: &str, why: Option<&str>, text: &mut Vec<u8>) -> Result<(), AllocError>
    ensures { OnOk result (text.new.items ≡ text.old.items
        ++ reason_line name.now (option_map (λ s. s.now) why.entry)) }
{
    match why {
        Some(why) => put_line(name, why, text),
        None => Ok(()),
    }
}

fn put_line(name: &str, why: &str, text: &mut Vec<u8>) -> Result<(), AllocError>
    ensures { OnOk result (text.new.items ≡ text.old.items ++ name.now ++ codes ": " ++ why.now ++ codes "\n") }
{
    text.extend_from_slice(name.as_bytes())?;
    text.extend_from_slice(b": ")?;
    text.extend_from_slice(why.as_bytes())?;
    text.extend_from_slice(b"\n")
}

/// Reports why the document of this name was not accepted, and explains it where that is asked for: a refusal by
/// what is known of its place, and a read or a write that failed by the name of the device and the system's reason.
pub fn tell_stopped<S: Explains, O: Explains, E: Drain>(
    alloc: Global,
    explain: bool,
    stop: &Stop,
    document: (&str, &S),
    output: (&str, &O),
    err: &mut E,
)
    requires { E.has_failed err.old ≡ false }
    ensures { ReportsStop explain (device document.entry.0.now (S.tells document.entry.1.now))
        (device output.entry.0.now (O.tells output.entry.1.now))
        stop.now.fault stop.now.evidence (E.contents err.old) (E.contents err.new) (E.has_failed err.new) }
{
    if explain {
        explain_stop(alloc, stop, document, output, err);
    } else {
        let (name, _) = document;
        tell_stop(alloc, name, false, stop, err);
    }
}

fn explain_stop<S: Explains, O: Explains, E: Drain>(
    alloc: Global,
    stop: &Stop,
    document: (&str, &S),
    output: (&str, &O),
    err: &mut E,
)
    requires { E.has_failed err.old ≡ false }
    ensures { ReportsStop true (device document.entry.0.now (S.tells document.entry.1.now))
        (device output.entry.0.now (O.tells output.entry.1.now))
        stop.now.fault stop.now.evidence (E.contents err.old) (E.contents err.new) (E.has_failed err.new) }
{
    let (name, _) = document;
    match &stop.fault {
        StreamFault::Read => tell_failed(alloc, read_failed().as_bytes(), document, err),
        StreamFault::Write => tell_failed(alloc, write_failed().as_bytes(), output, err),
        StreamFault::Refused(_) => tell_stop(alloc, name, true, stop, err),
        StreamFault::Memory => tell_stop(alloc, name, true, stop, err),
    }
}

/// Reports why one of several documents, that of this name, was not accepted, and explains it where that is asked for.
pub fn tell_stopped_of<S: Explains, O: Explains, E: Drain>(
    alloc: Global,
    explain: bool,
    stop: &Stop,
    document: (&str, &S),
    output: (&str, &O),
    err: &mut E,
)
    requires { E.has_failed err.old ≡ false }
    ensures { ReportsStopOf explain (device document.entry.0.now (S.tells document.entry.1.now))
        (device output.entry.0.now (O.tells output.entry.1.now))
        stop.now.fault stop.now.evidence (E.contents err.old) (E.contents err.new) (E.has_failed err.new) }
{
    if explain {
        explain_stop_of(alloc, stop, document, output, err);
    } else {
        let (name, _) = document;
        tell_stop_of(alloc, name, false, stop, err);
    }
}

fn explain_stop_of<S: Explains, O: Explains, E: Drain>(
    alloc: Global,
    stop: &Stop,
    document: (&str, &S),
    output: (&str, &O),
    err: &mut E,
)
    requires { E.has_failed err.old ≡ false }
    ensures { ReportsStopOf true (device document.entry.0.now (S.tells document.entry.1.now))
        (device output.entry.0.now (O.tells output.entry.1.now))
        stop.now.fault stop.now.evidence (E.contents err.old) (E.contents err.new) (E.has_failed err.new) }
{
    let (name, _) = document;
    match &stop.fault {
        StreamFault::Read => tell_failed_of(alloc, name, b"read failed\n", document, err),
        StreamFault::Write => tell_failed_of(alloc, name, b"write failed\n", output, err),
        StreamFault::Refused(_) => tell_stop_of(alloc, name, true, stop, err),
        StreamFault::Memory => tell_stop_of(alloc, name, true, stop, err),
    }
}

/// The text and the status of a file of bindings that was not loaded. Where an explanation is asked for, a line
/// with its name follows, and with the line that is bad or the system's reason.
pub fn refuse_bindings<S: Explains, E: Drain>(
    alloc: Global,
    explain: bool,
    fault: &LoadFault,
    file: (&str, &S),
    err: &mut E,
) -> u8
    requires { E.has_failed err.old ≡ false }
    ensures status { result ≡ load_status fault.now }
    ensures reported { ReportsBindings explain (device file.entry.0.now (S.tells file.entry.1.now)) fault.now
        (E.contents err.old) (E.contents err.new) (E.has_failed err.new) }
{
    if explain {
        explain_bindings(alloc, fault, file, err)
    } else {
        refuse_prefixes(alloc, fault, err)
    }
}

fn explain_bindings<S: Explains, E: Drain>(
    alloc: Global,
    fault: &LoadFault,
    file: (&str, &S),
    err: &mut E,
) -> u8
    requires { E.has_failed err.old ≡ false }
    ensures status { result ≡ load_status fault.now }
    ensures reported { ReportsBindings true (device file.entry.0.now (S.tells file.entry.1.now)) fault.now
        (E.contents err.old) (E.contents err.new) (E.has_failed err.new) }
{
    match fault {
        LoadFault::Bad(fault) => {
            let (name, _) = file;
            tell_bad_line(alloc, name, fault.line, err);
            2
        }
        LoadFault::Read => {
            tell_failed(alloc, read_failed().as_bytes(), file, err);
            3
        }
        LoadFault::Memory => tell_memory(err),
    }
}

// The line that reports a bad line of a file of bindings, and the line that names its place. That is left out where
// memory for it is refused.
fn tell_bad_line<E: Drain>(alloc: Global, name: &str, line: u64, err: &mut E)
    requires { E.has_failed err.old ≡ false }
    ensures { Reports (prefixes_text line
        ++ bad_prefixes_text name.now line) (E.contents err.old) (E.contents err.new) (E.has_failed err.new)
        ⊎ (Reports (prefixes_text line) (E.contents err.old) (E.contents err.new) (E.has_failed err.new)
        ⊎ (E.contents err.new ≡ E.contents err.old)) }
{
    match bad_line(alloc, name, line) {
        Ok(text) => tell_bytes(text.as_slice(), err),
        Err(AllocError) => tell_prefixes(alloc, line, err),
    }
}

fn bad_line(alloc: Global, name: &str, line: u64) -> Result<Vec<u8>, AllocError>
    ensures { IfOk result (λ text. text.items ≡ prefixes_text line ++ bad_prefixes_text name.now line) }
{
    let mut lines = prefixes_line(alloc, line)?;
    let place = bad_prefixes_line(alloc, name, line)?;
    lines.extend_from_slice(place.as_slice())?;
    Ok(lines)
}

fn bad_prefixes_line(alloc: Global, name: &str, line: u64) -> Result<Vec<u8>, AllocError>
    ensures { IfOk result (λ text. text.items ≡ bad_prefixes_text name.now line) }
{
    let mut place = Vec::from_slice(alloc, name.as_bytes())?;
    place.extend_from_slice(b":")?;
    put_number(line, &mut place)?;
    place.extend_from_slice(b": bad prefixes\n")?;
    Ok(place)
}
