//! Tokens of the line formats and of Turtle and TriG: their shapes as states, and a scanner that takes bytes in pieces.
#![tactic(auto)]

mod blank;
mod bytes;
mod count;
mod escapes;
mod front;
mod good;
mod iris;
pub mod laws;
mod local;
mod look;
mod over;
mod peek;
mod plain;
mod quick;
mod scanner;
mod states;
mod strings;
mod token;

pub use count::char_count;
pub use good::{GoodText, good_front, line_feeds};
pub use peek::Peeked;
pub use plain::{RunClass, plain_run};
pub use rdf_terms::{Dialect, Kind};
pub use scanner::{Blanks, Scanner};
pub use token::{Fault, ScanFault, Token};
