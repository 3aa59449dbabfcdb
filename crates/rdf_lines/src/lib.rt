//! The line formats N-Triples and N-Quads: a reader, and the writer of N-Quads lines.
#![tactic(auto)]

mod accept;
mod buffer;
mod canonical;
mod escaped;
mod form;
mod grammar;
pub mod laws;
mod prefix;
mod reader;
mod rules;
mod slots;
mod spelled;
mod state;
mod writer;

pub use buffer::LineBuffer;
pub use canonical::pass_lines;
pub use escaped::pass_escaped;
pub use form::{Escapes, LineEnding, LineForm, Style, WrittenForm};
pub use grammar::LineGrammar;
pub use prefix::{NodePrefix, NodePrefixView};
pub use rdf_driver::{Fault, Kinds, Summary};
pub use reader::{LineReader, line_reader};
pub use writer::{LabelFault, Usual, label_text, write_line, write_line_in};
