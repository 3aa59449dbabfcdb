// Runs of bytes that stand in a string or in an IRI as they are.

ghost use Rattle.rdf_terms.specs.Runs.{IsRun};
ghost use Rattle.rdf_tokens.specs.Plain.{is_plain};

use rdf_terms::runs::{Run, run_end};

/// What a run of plain bytes stands in.
#[derive(Clone, Copy, PartialEq, Eq, Debug)]
pub enum RunClass {
    /// A string, in whichever quotes.
    InString,
    /// An IRI.
    InIri,
}

/// How many bytes come before the first that is not plain. Bytes from 128 on are plain, whether they are UTF-8 or
/// not. It takes no memory.
pub fn plain_run(bytes: &[u8], class: RunClass) -> usize
    ensures { IsRun (is_plain class) bytes.now 0 result }
{
    match class {
        RunClass::InString => run_end(Run::Text, bytes, 0),
        RunClass::InIri => run_end(Run::Iri, bytes, 0),
    }
}
