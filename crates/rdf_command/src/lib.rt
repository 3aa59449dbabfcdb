//! What the words of the command line of `rdfconv` ask for, and its run, over whatever gives these words, the
//! documents and the outputs.
#![tactic(auto)]

mod addresses;
mod asides;
mod bad_iris;
mod commands;
mod entry;
mod explains;
mod host;
mod names;
mod output;
mod reasons;
mod reports;
mod runs;
mod several;
mod task;

pub use commands::command_of;
pub use entry::{Ended, start};
pub use explains::Explains;
pub use host::{Destination, Device, Host, NoFolder, NoOutput, NoWords, NotOpen, Opened, Process};
pub use reports::refuse_words;
pub use runs::{Files, run};
pub use task::{Action, Document, Task, WordsFault};
