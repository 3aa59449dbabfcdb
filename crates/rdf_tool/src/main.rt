//! The program `rdfconv`: it reads a document of N-Triples, N-Quads, Turtle or TriG, and writes N-Quads.
#![tactic(auto)]

use rdf_command::{Process, start};
use rdf_stream::Out;
use std::process::ExitCode;

fn main(rt: HostRuntime) -> ExitCode {
    let process = Process::new(&rt);
    let mut out = process.output();
    let mut err = Out::new(rt.stderr());
    ExitCode::from(start(rt.alloc(), &process, &mut out, &mut err).status)
}
