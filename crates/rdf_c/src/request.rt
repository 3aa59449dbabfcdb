// What a call asks for.

ghost use Rattle.std.specs.Prelude.{◌≡◌, IfOk, IfErr, IfSome, IfNone, OnOk};
ghost use Rattle.rdf_iri.specs.Bindings.{IsReadFrom};
ghost use Rattle.std.specs.Str.{chars};
ghost use Rattle.rdf_c.specs.Calls.{AsksFor, IsBaseText, IsWordText, NamesNoBase, NamesNoWord, AsksForNone};
ghost use Rattle.rdf_c.specs.Calls.{FailsToBind};
ghost use Rattle.rdf_c.specs.Numbers.{base_of, number_of_escapes, number_of_form, IsEscapesNumber, IsFormNumber};

use rdf_iri::read_bindings;
use rdf_stream::{
    BindingFault, BindingReason, Bindings, Escapes, Form, Iri, Job, Limits, NodePrefix, TermFault,
};
use std::alloc::Global;

/// The format of the document, the limits of the run, and the form of the lines.
#[repr(C)]
#[derive(Clone, Copy)]
pub struct Request {
    /// 0 N-Triples, 1 N-Quads, 2 Turtle, 3 TriG.
    pub format: u64,
    /// Characters of one token.
    pub token: u64,
    /// Brackets that are open at one place.
    pub depth: u64,
    /// Prefixes that are bound at one place.
    pub bindings: u64,
    /// Bytes of one IRI.
    pub iri: u64,
    /// How the lines are written: 0 with characters as they are, 1 in ASCII.
    pub ascii: u64,
}

/// Why there is no job.
#[derive(Clone, Copy, Debug, PartialEq, Eq)]
pub(crate) enum JobFault {
    /// There is no such format, limit or form, the base is no IRI or has more bytes than the limit, or the word is
    /// no word.
    NoJob,
    /// A line of the prefixes is refused.
    Prefixes(BindingFault),
    /// A growth of memory was refused.
    Memory,
}

/// The job that a call asks for. The prefixes are a file of bindings, and of no bytes where none are handed in; so
/// is the word in front of the names of nodes.
pub(crate) fn job_of(
    alloc: Global,
    request: &Request,
    base: &[u8],
    prefixes: &[u8],
    word: &[u8],
) -> Result<Job, JobFault>
    ensures job { IfOk result (AsksFor request.now base.now prefixes.now word.now) }
    ensures none { IfErr result (AsksForNone request.now base.now prefixes.now word.now) }
{
    let Some(form) = form_of(request.format) else {
        return Err(JobFault::NoJob);
    };
    let Some(limits) = Limits::new(request.token, request.depth, request.bindings, request.iri)
    else {
        return Err(JobFault::NoJob);
    };
    let Some(escapes) = escapes_of(request.ascii) else {
        return Err(JobFault::NoJob);
    };
    let iri = iri_of(alloc, base)?;
    let Some(job) = Job::new(form, iri, limits) else {
        return Err(JobFault::NoJob);
    };
    let word = word_of(alloc, word)?;
    let job = job.with_escapes(escapes).with_node_prefix(word);
    let bindings = bindings_of(alloc, limits, prefixes)?;
    Ok(job.with_bindings(bindings))
}

fn bindings_of(alloc: Global, limits: Limits, prefixes: &[u8]) -> Result<Bindings, JobFault>
    ensures read { IfOk result (IsReadFrom limits prefixes.now) }
    ensures refused { IfErr result (FailsToBind limits prefixes.now) }
{
    match read_bindings(alloc, limits, prefixes) {
        Ok(bindings) => Ok(bindings),
        Err(fault) => match fault.reason {
            BindingReason::Memory => Err(JobFault::Memory),
            _ => Err(JobFault::Prefixes(fault)),
        },
    }
}

fn form_of(number: u64) -> Option<Form>
    ensures some { IfSome result (λ form. number ≡ number_of_form form) }
    ensures none { IfNone result (¬ IsFormNumber number) }
{
    match number {
        0 => Some(Form::NTriples),
        1 => Some(Form::NQuads),
        2 => Some(Form::Turtle),
        3 => Some(Form::TriG),
        _ => None,
    }
}

fn escapes_of(number: u64) -> Option<Escapes>
    ensures some { IfSome result (λ escapes. number ≡ number_of_escapes escapes) }
    ensures none { IfNone result (¬ IsEscapesNumber number) }
{
    match number {
        0 => Some(Escapes::Plain),
        1 => Some(Escapes::Ascii),
        _ => None,
    }
}

fn word_of(alloc: Global, word: &[u8]) -> Result<NodePrefix, JobFault>
    ensures word { IfOk result (λ p. p ≡ chars word.now) }
    ensures good { OnOk result (IsWordText word.now) }
    ensures none { IfErr result (NamesNoWord word.now) }
{
    let Ok(text) = str::from_utf8(word) else {
        return Err(JobFault::NoJob);
    };
    let Ok(text) = String::from_str(alloc, text) else {
        return Err(JobFault::Memory);
    };
    match NodePrefix::new(text) {
        Some(prefix) => Ok(prefix),
        None => Err(JobFault::NoJob),
    }
}

fn iri_of(alloc: Global, base: &[u8]) -> Result<Option<Iri>, JobFault>
    ensures base { IfOk result (λ iri. iri ≡ base_of base.now) }
    ensures good { OnOk result (IsBaseText base.now) }
    ensures none { IfErr result (NamesNoBase base.now) }
{
    if base.is_empty() {
        return Ok(None);
    }
    let Ok(text) = str::from_utf8(base) else {
        return Err(JobFault::NoJob);
    };
    match Iri::new(alloc, text) {
        Ok(iri) => Ok(Some(iri)),
        Err(TermFault::BadTerm) => Err(JobFault::NoJob),
        Err(TermFault::Memory) => Err(JobFault::Memory),
    }
}
