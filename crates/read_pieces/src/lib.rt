//! For tests: documents in pieces, read by the reader of their format, and sinks that keep or count the quads.
#![tactic(auto)]

mod reading;
mod sinks;

pub use reading::{Document, Form, Piece, Report, read, read_pieces, read_statements};
pub use sinks::{CountingSink, RecordingSink, has_lines, put_copy, recording_sink};
