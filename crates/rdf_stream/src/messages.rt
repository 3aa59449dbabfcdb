// The line that reports a fault.

ghost use Rattle.std.specs.Prelude.{◌≡◌, ◌++◌, codes, decimal, IfOk, IfErr, OnOk, OnErr};
ghost use Rattle.rdf_stream.specs.Messages.{reason_text, place_text, report_text};

use crate::fault::StreamFault;
use itoa::Buffer;
use rdf_terms::Reason;
use rdf_tokens::Fault;
use std::alloc::{AllocError, Allocator};

/// Appends the line that reports the fault, with its LF. Where a growth of memory is refused, it appends nothing.
pub fn report<A: Allocator + Copy>(
    alloc: A,
    fault: &StreamFault,
    out: &mut Vec<u8, A>,
) -> Result<(), StreamFault>
    ensures ok { OnOk result (out.new.items ≡ out.old.items ++ report_text fault.now) }
    ensures err { OnErr result (out.new.items ≡ out.old.items) }
    ensures memory { IfErr result (λ e. e ≡ StreamFault.Memory) }
{
    let line = report_line(alloc, fault)?;
    out.extend_from_slice(line.as_slice())?;
    Ok(())
}

/// The line that reports a failed source, with its LF. It takes no memory.
pub fn read_failed() -> &'static str
    ensures { result.now ≡ report_text StreamFault.Read }
{
    "rdfconv: read failed\n"
}

/// The line that reports a failed drain, with its LF. It takes no memory.
pub fn write_failed() -> &'static str
    ensures { result.now ≡ report_text StreamFault.Write }
{
    "rdfconv: write failed\n"
}

/// The line that reports want of memory, with its LF. It takes none.
pub fn out_of_memory() -> &'static str
    ensures { result.now ≡ report_text StreamFault.Memory }
{
    "rdfconv: out of memory\n"
}

fn report_line<A: Allocator + Copy>(alloc: A, fault: &StreamFault) -> Result<Vec<u8, A>, AllocError>
    ensures { IfOk result (λ line. line.items ≡ report_text fault.now) }
{
    match fault {
        StreamFault::Refused(fault) => refusal_line(alloc, fault),
        StreamFault::Read => Vec::from_slice(alloc, read_failed().as_bytes()),
        StreamFault::Write => Vec::from_slice(alloc, write_failed().as_bytes()),
        StreamFault::Memory => Vec::from_slice(alloc, out_of_memory().as_bytes()),
    }
}

fn refusal_line<A: Allocator + Copy>(alloc: A, fault: &Fault) -> Result<Vec<u8, A>, AllocError>
    ensures { IfOk result (λ line. line.items ≡ report_text (StreamFault.Refused fault.now)) }
{
    let mut line = Vec::from_slice(alloc, b"rdfconv: ")?;
    put_refusal(fault, &mut line)?;
    line.extend_from_slice(b"\n")?;
    Ok(line)
}

pub(crate) fn put_refusal<A: Allocator + Copy>(
    fault: &Fault,
    line: &mut Vec<u8, A>,
) -> Result<(), AllocError>
    ensures { OnOk result (line.new.items ≡ line.old.items ++ place_text fault.now) }
{
    line.extend_from_slice(words(fault.reason).as_bytes())?;
    line.extend_from_slice(b" at byte ")?;
    put_number(fault.offset, line)?;
    line.extend_from_slice(b", line ")?;
    put_number(fault.line, line)
}

/// Appends a number in decimal digits, where memory for them is not refused.
pub fn put_number<A: Allocator + Copy>(number: u64, line: &mut Vec<u8, A>) -> Result<(), AllocError>
    ensures { OnOk result (line.new.items ≡ line.old.items ++ decimal number) }
{
    line.extend_from_slice(Buffer::new().format(number).as_bytes())
}

pub(crate) fn words(reason: Reason) -> &'static str
    ensures { result.now ≡ reason_text reason }
{
    match reason {
        Reason::BadUtf8 => "bad UTF-8",
        Reason::NoToken => "no token",
        Reason::BadEscape => "bad escape",
        Reason::TokenTooLong => "token too long",
        Reason::DocumentTooLong => "document too long",
        Reason::Memory => "out of memory",
        Reason::Ended => "ended",
        Reason::Unexpected => "unexpected token",
        Reason::RelativeIri => "relative IRI",
        Reason::IriTooLong => "IRI too long",
        Reason::Sink => "write failed",
        Reason::Unbound => "unbound prefix",
        Reason::NoBase => "no base",
        Reason::TooDeep => "too deep",
        Reason::TooManyBindings => "too many bindings",
    }
}
