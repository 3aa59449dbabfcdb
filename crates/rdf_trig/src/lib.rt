//! Turtle and TriG: what a document is, the laws of that, and the reader.
#![tactic(auto)]

mod accept;
mod document;
mod emptied;
mod fault;
mod form;
mod give;
mod grammar;
mod holding;
pub mod laws;
mod lists;
mod names;
mod objects;
mod outer;
mod plain;
mod reader;
mod rest;
mod rules;
mod slots;
mod spares;
mod spelled;
mod state;
mod step;
mod straight;
mod subjects;
mod table;
mod turn;
mod turns;

pub use document::read_document;
pub use form::DocForm;
pub use grammar::TreeGrammar;
pub use rdf_driver::{Fault, Kinds, Summary};
pub use reader::{Options, TrigReader, tree_reader};
pub use step::Step;
