//! The converter for C: a document in memory is read, and the lines of its quads are written to memory.
#![tactic(auto)]

mod kinds;
mod memory;
mod outcome;
mod request;
mod runs;

ghost use Rattle.std.specs.Prelude.{◌≡◌, length};
ghost use Rattle.rdf_c.specs.Calls.{HasChecked, HasConverted};
ghost use Rattle.rdf_c.specs.Kinds.{HasExpected, HasToldFor, IsPlacedFor};
ghost use Rattle.rdf_stream.specs.Places.{HandsOut};
ghost use Rattle.rdf_stream.specs.Expected.{NoDetails};

pub use crate::kinds::Unexpected;
pub use crate::outcome::Outcome;
pub use crate::request::Request;
use crate::request::{JobFault, job_of};
use crate::runs::{check_bytes, convert_bytes};
use rdf_stream::{Details, Near, Nearby};
use std::alloc::Global;

/// Reads the document, and writes the lines of its quads to the front of the output, as many bytes as there is room
/// for; the outcome says how many bytes the lines have. A base of no bytes is none. The prefixes are lines of a
/// prefix and its IRI each, as the program's `--prefixes` reads them. The word, of ASCII letters and digits, stands
/// in front of the name of each node that is written; of no bytes it changes no name. Of a refused document the
/// lines before the refusal are written. Bytes of the output after the lines stay as they are, and so does all of
/// it where there is no job, where a line of the prefixes is refused, and where memory was refused.
#[unsafe(no_mangle)]
pub extern "C" fn rdfconv_convert(
    alloc: Global,
    request: &Request,
    base: &[u8],
    prefixes: &[u8],
    word: &[u8],
    input: &[u8],
    output: &mut [u8],
    outcome: &mut Outcome,
)
    ensures len { length output.new ≡ length output.old }
    ensures outcome { HasConverted request.now base.now prefixes.now word.now input.now output.old output.new
        outcome.new }
{
    *outcome = match job_of(alloc, request, base, prefixes, word) {
        Ok(job) => convert_bytes(alloc, job, input, output),
        Err(JobFault::NoJob) => Outcome::of_status(2),
        Err(JobFault::Prefixes(fault)) => Outcome::of_prefixes(fault),
        Err(JobFault::Memory) => Outcome::of_status(4),
    };
}

/// Reads the document to its end, and counts what is in it.
#[unsafe(no_mangle)]
pub extern "C" fn rdfconv_check(
    alloc: Global,
    request: &Request,
    base: &[u8],
    prefixes: &[u8],
    input: &[u8],
    outcome: &mut Outcome,
)
    ensures outcome { HasChecked request.now base.now prefixes.now input.now outcome.new }
{
    let mut details = Details::none();
    let mut near = Nearby::Unasked;
    *outcome = check_for(
        alloc,
        request,
        base,
        prefixes,
        input,
        &mut details,
        &mut near,
    );
}

/// What `rdfconv_check` does; and of a document that is refused for an unexpected token the token's kind, and the
/// kinds of tokens that could have stood in its place. Else both sets are empty. Of each refusal the number of
/// bytes that stand at its place: of the token there, or, where there is none, of what could begin one.
#[unsafe(no_mangle)]
pub extern "C" fn rdfconv_check_expecting(
    alloc: Global,
    request: &Request,
    base: &[u8],
    prefixes: &[u8],
    input: &[u8],
    outcome: &mut Outcome,
    unexpected: &mut Unexpected,
)
    ensures outcome { HasChecked request.now base.now prefixes.now input.now outcome.new }
    ensures unexpected { HasExpected request.now base.now prefixes.now input.now outcome.new unexpected.new }
{
    let mut details = Details::none();
    let mut near = Nearby::Asked;
    *outcome = check_for(
        alloc,
        request,
        base,
        prefixes,
        input,
        &mut details,
        &mut near,
    );
    *unexpected = Unexpected::of(details, &near);
}

// Checks a document, and tells what is known of an unexpected token and of the place of a refusal.
fn check_for(
    alloc: Global,
    request: &Request,
    base: &[u8],
    prefixes: &[u8],
    input: &[u8],
    details: &mut Details,
    near: &mut Nearby<Near>,
) -> Outcome
    requires none { NoDetails details.old }
    requires untold { HandsOut near.old (λ n. ⊥) near.old }
    ensures outcome { HasChecked request.now base.now prefixes.now input.now result }
    ensures told { HasToldFor request.now base.now prefixes.now input.now result details.new }
    ensures near { HandsOut near.old (IsPlacedFor request.now base.now prefixes.now input.now result) near.new }
{
    match job_of(alloc, request, base, prefixes, &[]) {
        Ok(job) => check_bytes(alloc, job, input, details, near),
        Err(JobFault::NoJob) => Outcome::of_status(2),
        Err(JobFault::Prefixes(fault)) => Outcome::of_prefixes(fault),
        Err(JobFault::Memory) => Outcome::of_status(4),
    }
}
