// What the words of the command line ask for.

ghost use Rattle.std.specs.Prelude.{◌≡◌};
ghost use Rattle.clap.specs.Words.{kind_of};
ghost use Rattle.rdf_command.specs.WordSteps.{fault_by};
ghost use Rattle.rdf_command.specs.declared.task.WordsFault.TheVariants.{Memory};

use clap::Error;
use clap::error::ErrorKind;
use rdf_stream::{Escapes, Form, Iri, Limits, NodePrefix};
use std::alloc::AllocError;

/// What is done with a document.
#[derive(Clone, Copy, Debug, PartialEq, Eq)]
pub enum Action {
    /// It is read to its end, and counted.
    Check,
    /// Its tokens are shown, a line each.
    Show,
    /// Its quads are written as lines of N-Quads.
    Convert,
}

/// A document that is checked after the first.
#[derive(Drop)]
pub struct Document {
    /// The format.
    pub form: Form,
    /// The word for it: the name of its file, or `-` for standard input.
    pub name: String,
}

/// A run of the program.
#[derive(Drop)]
pub struct Task {
    /// What is done.
    pub action: Action,
    /// The format of the document.
    pub form: Form,
    /// What relative references are resolved against.
    pub base: Option<Iri>,
    /// Whether each document's own address stands in place of the base, which is None then.
    pub addressed: bool,
    /// How large the parts of the document may be.
    pub limits: Limits,
    /// Whether a refusal is explained, by a line more.
    pub explain: bool,
    /// How characters above U+007F stand in the lines of quads.
    pub escapes: Escapes,
    /// The word in front of the names of nodes in the lines of quads, or None where there is none.
    pub node_prefix: Option<NodePrefix>,
    /// The graph in which quads of the default graph are written, or None where they stay there.
    pub graph: Option<Iri>,
    /// The file of the prefixes that are bound before the document, or None where none are.
    pub prefixes: Option<String>,
    /// The file that is read, or None for standard input.
    pub file: Option<String>,
    /// The file that the lines are written to, or None for standard output.
    pub output: Option<String>,
    /// The file that bad lines of a line format are put into, or None where a bad line is refused. `show` has none.
    pub skip: Option<String>,
    /// The documents that are checked after this one, in the order of their words. No other action has any.
    pub more: Vec<Document>,
}

/// Why the words are no task.
#[derive(Drop)]
pub enum WordsFault {
    /// The words are no command, or ask for help.
    Usage(Error),
    /// The base is no IRI, or has more bytes than an IRI may have.
    BadBase,
    /// The word for the names of nodes is empty, or has another character than ASCII letters and digits.
    BadNodePrefix,
    /// The graph is no IRI, or has more bytes than an IRI may have.
    BadGraph,
    /// Bad lines are to be put into a file, but the format is not read line by line, or there are several documents.
    BadSkip,
    /// The format is to be the one that a document's name ends in, and this name ends in none.
    NoFormat(String),
    /// A growth of memory was refused.
    Memory,
}

impl From<AllocError> for WordsFault {
    ghost from_gives = { λ _ fault. fault ≡ Memory };

    fn from(_: AllocError) -> WordsFault {
        WordsFault::Memory
    }
}

impl From<Error> for WordsFault {
    ghost from_gives = { λ error fault. fault ≡ fault_by (kind_of error) error };

    fn from(error: Error) -> WordsFault {
        match error.kind() {
            ErrorKind::OutOfMemory => WordsFault::Memory,
            _ => WordsFault::Usage(error),
        }
    }
}
