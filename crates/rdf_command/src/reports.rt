// Why a document was not accepted, and what is reported.

ghost use Rattle.std.specs.Prelude.{◌≡◌, ◌⊎◌, ◌++◌, false, codes, IfOk, IfSome, None, OnErr, OnOk, option_map};
ghost use Rattle.rdf_stream.specs.Messages.{report_text};
ghost use Rattle.rdf_stream.specs.declared.fault.StreamFault.{StreamFault};
ghost use Rattle.rdf_command.specs.BadIris.{RefusesWith};
ghost use Rattle.rdf_command.specs.RunSteps.{IsOfIri};
ghost use Rattle.rdf_command.specs.Statuses.{GoesTo, RefusesWords, Reports, ReportsExplained, ReportsExplainedOf};
ghost use Rattle.rdf_command.specs.Statuses.{ReportsLoad, ReportsNoAddressOf, ReportsOf, address_status, address_text};
ghost use Rattle.rdf_command.specs.Statuses.{explanation, load_status};
ghost use Rattle.rdf_command.specs.Statuses.{ReportsCounts, counts_text, no_format_text, prefixes_text, skip_status};
ghost use Rattle.rdf_command.specs.Statuses.{status_of};

use crate::task::WordsFault;
use clap::Error;
use rdf_stream::{
    Drain, Evidence, Failed, LoadFault, Near, SkipSummary, StreamFault, TermFault,
    explain as explain_line, out_of_memory, put_all, put_number, read_failed, report, write_failed,
};
use std::alloc::{AllocError, Global};

/// Why a document was not accepted.
#[derive(Drop)]
pub struct Stop {
    /// The fault.
    pub fault: StreamFault,
    /// What is known of it, to explain it.
    pub evidence: Evidence<Near>,
}

/// Why the words are no task.
#[derive(Drop)]
pub struct Refusal {
    /// The fault.
    pub fault: WordsFault,
    /// The lines that report and explain it, where that is asked for and there is memory for them.
    pub lines: Option<Vec<u8>>,
}

impl Refusal {
    /// A fault that is not explained.
    pub fn unexplained(fault: WordsFault) -> Refusal
        ensures fault { result.fault ≡ fault }
        ensures lines { result.lines ≡ None }
    {
        Refusal { fault, lines: None }
    }
}

/// The status of a fault.
pub fn status(fault: &StreamFault) -> u8
    ensures { result ≡ status_of fault.now }
{
    match fault {
        StreamFault::Refused(_) => 1,
        StreamFault::Read | StreamFault::Write => 3,
        StreamFault::Memory => 4,
    }
}

/// Reports why the document of this name was not accepted, and explains it where that is asked for. The text of a
/// refusal alone takes memory. Where that is refused, nothing is reported.
pub fn tell_stop<E: Drain>(alloc: Global, name: &str, explain: bool, stop: &Stop, err: &mut E)
    requires { E.has_failed err.old ≡ false }
    ensures { ReportsExplained explain name.now stop.now.fault stop.now.evidence (E.contents err.old)
        (E.contents err.new) (E.has_failed err.new) }
{
    match &stop.fault {
        StreamFault::Refused(_) => {
            if let Ok(text) = report_of(alloc, name, explain, stop) {
                tell_bytes(text.as_slice(), err);
            }
        }
        StreamFault::Read => tell(read_failed(), err),
        StreamFault::Write => tell(write_failed(), err),
        StreamFault::Memory => {
            tell_memory(err);
        }
    }
}

// The line that reports a stop, and the lines that explain it. They are left out where memory for them is refused.
fn report_of(alloc: Global, name: &str, explain: bool, stop: &Stop) -> Result<Vec<u8>, AllocError>
    ensures { IfOk result (λ text.
        (text.items ≡ report_text stop.now.fault ++ explanation explain name.now stop.now.fault stop.now.evidence)
        ⊎ (text.items ≡ report_text stop.now.fault)) }
{
    let mut text = Vec::new(alloc);
    match report(alloc, &stop.fault, &mut text) {
        Ok(()) => {}
        Err(_) => return Err(AllocError),
    }
    match put_explanation(alloc, name, explain, stop, &mut text) {
        Ok(()) | Err(AllocError) => Ok(text),
    }
}

// The lines that explain a refusal, where that is asked for.
fn put_explanation(
    alloc: Global,
    name: &str,
    explain: bool,
    stop: &Stop,
    text: &mut Vec<u8>,
) -> Result<(), AllocError>
    ensures put { OnOk result (text.new.items ≡ text.old.items
        ++ explanation explain name.now stop.now.fault stop.now.evidence) }
    ensures left_out { OnErr result (text.new.items ≡ text.old.items) }
{
    match &stop.fault {
        StreamFault::Refused(fault) if explain => {
            let line = explain_line(alloc, name, fault, &stop.evidence)?;
            text.extend_from_slice(line.as_slice())
        }
        _ => Ok(()),
    }
}

/// Reports why one of several documents, that of this name, was not accepted, and explains it where that is asked for.
pub fn tell_stop_of<E: Drain>(alloc: Global, name: &str, explain: bool, stop: &Stop, err: &mut E)
    requires { E.has_failed err.old ≡ false }
    ensures { ReportsExplainedOf explain name.now stop.now.fault stop.now.evidence (E.contents err.old)
        (E.contents err.new) (E.has_failed err.new) }
{
    match report_of(alloc, name, explain, stop) {
        Ok(text) => tell_of(alloc, name, &text[b"rdfconv: ".len()..], err),
        Err(AllocError) => {
            tell_memory(err);
        }
    }
}

/// Reports a text about the document of this name, or want of memory where that is refused for the line.
pub fn tell_of<E: Drain>(alloc: Global, name: &str, text: &[u8], err: &mut E)
    requires { E.has_failed err.old ≡ false }
    ensures { ReportsOf name.now text.now (E.contents err.old) (E.contents err.new) (E.has_failed err.new) }
{
    match line_of(alloc, name, text) {
        Ok(line) => tell_bytes(line.as_slice(), err),
        Err(AllocError) => {
            tell_memory(err);
        }
    }
}

fn line_of(alloc: Global, name: &str, text: &[u8]) -> Result<Vec<u8>, AllocError>
    ensures { IfOk result (λ line. line.items ≡ name.now ++ codes ": " ++ text.now) }
{
    let mut line = named_front(alloc, name)?;
    line.extend_from_slice(text)?;
    Ok(line)
}

/// What stands in front of a line about the document of this name.
pub fn named_front(alloc: Global, name: &str) -> Result<Vec<u8>, AllocError>
    ensures { IfOk result (λ text. text.items ≡ name.now ++ codes ": ") }
{
    let mut text = Vec::from_slice(alloc, name.as_bytes())?;
    text.extend_from_slice(b": ")?;
    Ok(text)
}

/// The text and the status of a file of bindings that was not loaded.
pub fn refuse_prefixes<E: Drain>(alloc: Global, fault: &LoadFault, err: &mut E) -> u8
    requires { E.has_failed err.old ≡ false }
    ensures status { result ≡ load_status fault.now }
    ensures reported { ReportsLoad fault.now (E.contents err.old) (E.contents err.new) (E.has_failed err.new) }
{
    match fault {
        LoadFault::Bad(fault) => {
            tell_prefixes(alloc, fault.line, err);
            2
        }
        LoadFault::Read => {
            tell(read_failed(), err);
            3
        }
        LoadFault::Memory => tell_memory(err),
    }
}

/// Reports a bad line of a file of bindings. Where memory for the text is refused, nothing is reported.
pub fn tell_prefixes<E: Drain>(alloc: Global, line: u64, err: &mut E)
    requires { E.has_failed err.old ≡ false }
    ensures { Reports (prefixes_text line) (E.contents err.old) (E.contents err.new) (E.has_failed err.new)
        ⊎ (E.contents err.new ≡ E.contents err.old) }
{
    if let Ok(text) = prefixes_line(alloc, line) {
        tell_bytes(text.as_slice(), err);
    }
}

/// The line that reports a bad line of a file of bindings.
pub fn prefixes_line(alloc: Global, line: u64) -> Result<Vec<u8>, AllocError>
    ensures { IfOk result (λ text. text.items ≡ prefixes_text line) }
{
    let mut text = Vec::from_slice(alloc, b"rdfconv: bad prefixes at line ")?;
    put_number(line, &mut text)?;
    text.extend_from_slice(b"\n")?;
    Ok(text)
}

/// The line and the status of a document that was read to its end, where bad lines were put aside.
pub fn tell_counts<E: Drain>(alloc: Global, summary: SkipSummary, err: &mut E) -> u8
    requires { E.has_failed err.old ≡ false }
    ensures status { result ≡ skip_status summary }
    ensures reported { ReportsCounts summary (E.contents err.old) (E.contents err.new) (E.has_failed err.new) }
{
    if let Ok(line) = counts_line(alloc, summary) {
        tell_bytes(line.as_slice(), err);
    }
    if summary.bad_lines == 0 { 0 } else { 1 }
}

fn counts_line(alloc: Global, summary: SkipSummary) -> Result<Vec<u8>, AllocError>
    ensures { IfOk result (λ text. text.items ≡ counts_text summary) }
{
    let mut text = Vec::from_slice(alloc, b"rdfconv: ")?;
    put_number(summary.quads, &mut text)?;
    text.extend_from_slice(b" quads, ")?;
    put_number(summary.bad_lines, &mut text)?;
    text.extend_from_slice(b" lines put aside\n")?;
    Ok(text)
}

/// The text and the status of a document that has no address to be its base.
pub fn refuse_address<E: Drain>(fault: TermFault, err: &mut E) -> u8
    requires { E.has_failed err.old ≡ false }
    ensures status { result ≡ address_status fault }
    ensures reported { Reports (address_text fault) (E.contents err.old) (E.contents err.new) (E.has_failed err.new) }
{
    match fault {
        TermFault::BadTerm => {
            tell("rdfconv: bad base\n", err);
            2
        }
        TermFault::Memory => tell_memory(err),
    }
}

/// The line and the status of one of several documents, that of this name, which has no address to be its base.
pub fn refuse_address_of<E: Drain>(alloc: Global, name: &str, fault: TermFault, err: &mut E) -> u8
    requires { E.has_failed err.old ≡ false }
    ensures status { result ≡ address_status fault }
    ensures reported { ReportsNoAddressOf name.now fault (E.contents err.old) (E.contents err.new)
        (E.has_failed err.new) }
{
    match fault {
        TermFault::BadTerm => {
            tell_of(alloc, name, b"bad base\n", err);
            2
        }
        TermFault::Memory => tell_memory(err),
    }
}

/// The text and the status of words that are no task, or the lines that report and explain it. Help goes to the output.
pub fn refuse_task<O: Drain, E: Drain>(
    alloc: Global,
    refusal: &Refusal,
    out: &mut O,
    err: &mut E,
) -> u8
    requires lines { IfSome refusal.now.lines (λ _. IsOfIri refusal.now.fault) }
    requires out { O.has_failed out.old ≡ false }
    requires err { E.has_failed err.old ≡ false }
    ensures status { RefusesWith (option_map (λ l. l.items) refusal.now.lines) refusal.now.fault result
        (E.contents err.old) (E.contents err.new) (E.has_failed err.new) }
    ensures goes { GoesTo refusal.now.fault (O.contents out.old) (O.contents out.new) (E.contents err.old)
        (E.contents err.new) }
{
    match &refusal.lines {
        Some(lines) => {
            tell_bytes(lines.as_slice(), err);
            2
        }
        None => refuse_words(alloc, &refusal.fault, out, err),
    }
}

/// The text and the status of words that are no task. Help goes to the output.
pub fn refuse_words<O: Drain, E: Drain>(
    alloc: Global,
    fault: &WordsFault,
    out: &mut O,
    err: &mut E,
) -> u8
    requires out { O.has_failed out.old ≡ false }
    requires err { E.has_failed err.old ≡ false }
    ensures status { RefusesWords fault.now result (E.contents err.old) (E.contents err.new) (E.has_failed err.new) }
    ensures goes { GoesTo fault.now (O.contents out.old) (O.contents out.new) (E.contents err.old)
        (E.contents err.new) }
{
    match fault {
        WordsFault::Usage(error) => {
            if error.use_stderr() {
                tell_usage(alloc, error, err);
                2
            } else {
                tell_usage(alloc, error, out);
                0
            }
        }
        WordsFault::BadBase => {
            tell("rdfconv: bad base\n", err);
            2
        }
        WordsFault::BadNodePrefix => {
            tell("rdfconv: bad node prefix\n", err);
            2
        }
        WordsFault::BadGraph => {
            tell("rdfconv: bad graph\n", err);
            2
        }
        WordsFault::BadSkip => {
            tell("rdfconv: --skip takes one document of nt or nq\n", err);
            2
        }
        WordsFault::NoFormat(name) => {
            if let Ok(line) = no_format_line(alloc, name.as_str()) {
                tell_bytes(line.as_slice(), err);
            }
            2
        }
        WordsFault::Memory => tell_memory(err),
    }
}

fn no_format_line(alloc: Global, name: &str) -> Result<Vec<u8>, AllocError>
    ensures { IfOk result (λ line. line.items ≡ no_format_text name.now) }
{
    let mut line = Vec::from_slice(alloc, b"rdfconv: no format in the name ")?;
    line.extend_from_slice(name.as_bytes())?;
    line.extend_from_slice(b"\n")?;
    Ok(line)
}

// Where memory for the text is refused, nothing is reported.
fn tell_usage<E: Drain>(alloc: Global, error: &Error, err: &mut E)
    requires { E.has_failed err.old ≡ false }
{
    if let Ok(text) = error.to_string(alloc) {
        tell(text.as_str(), err);
    }
}

/// Reports that memory was refused, which takes none, and answers the status.
pub fn tell_memory<E: Drain>(err: &mut E) -> u8
    requires { E.has_failed err.old ≡ false }
    ensures status { result ≡ 4 }
    ensures reported { Reports (report_text StreamFault.Memory) (E.contents err.old) (E.contents err.new)
        (E.has_failed err.new) }
{
    tell(out_of_memory(), err);
    4
}

fn tell<E: Drain>(text: &str, err: &mut E)
    requires { E.has_failed err.old ≡ false }
    ensures { Reports text.now (E.contents err.old) (E.contents err.new) (E.has_failed err.new) }
{
    tell_bytes(text.as_bytes(), err);
}

/// Reports a text. Where the device fails, that is not reported: there is no other to report it to.
pub fn tell_bytes<E: Drain>(text: &[u8], err: &mut E)
    requires { E.has_failed err.old ≡ false }
    ensures { Reports text.now (E.contents err.old) (E.contents err.new) (E.has_failed err.new) }
{
    match put_all(err, text) {
        Ok(()) | Err(Failed) => {}
    }
}
