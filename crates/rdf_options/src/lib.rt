//! The command line of `rdfconv` as `clap` defines one: its subcommands, their options, ranges and defaults, and
//! the texts of help.
#![tactic(auto)]

mod options;

pub use options::program;
