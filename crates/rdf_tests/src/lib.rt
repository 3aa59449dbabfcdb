//! The tests of the terms, the references, the scanner, the readers and the writer of lines, over their public calls.
//!
//! `terms`, `iri`, `tokens`, `lines` and `writer` (both of rdf_lines), and `trig` test a crate each. Three test all
//! readers where memory is refused or a sink fails: `memory`, `growths` and `puts`.
#![tactic(auto)]

#[cfg(test)]
mod growths;
#[cfg(test)]
mod iri;
#[cfg(test)]
mod lines;
#[cfg(test)]
mod memory;
#[cfg(test)]
mod puts;
#[cfg(test)]
mod terms;
#[cfg(test)]
mod tokens;
#[cfg(test)]
mod trig;
#[cfg(test)]
mod writer;
