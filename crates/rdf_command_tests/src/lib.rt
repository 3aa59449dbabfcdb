//! The tests of the command line, over a host in memory.
#![tactic(auto)]

#[cfg(test)]
mod command;
