//! Counts the predicates of a Turtle document on standard input: how the reader is called from another crate.
#![tactic(auto)]

ghost use Rattle.std.specs.Prelude.{false, ⊤, ◌≡◌, ◌<◌, List, ℕ, OnOk};
ghost use Rattle.std.specs.Str.{chars};
ghost use Rattle.std.specs.BTreeMap.{get_by_text};
ghost use Rattle.std.specs.Option.{unwrap_or};

use rdf_iri::Limits;
use rdf_terms::{PutFault, QuadRef, QuadSink};
use rdf_trig::{DocForm, Fault, Options, Summary, TrigReader};
use std::alloc::{AllocError, Global};
use std::collections::BTreeMap;
use std::io;
use std::io::Read;
use std::process::ExitCode;

/// How many bytes are asked for at a time.
const PIECE_LEN: usize = 65536;

/// How many quads have each predicate.
#[derive(Drop)]
struct Counts {
    alloc: Global,
    of: BTreeMap<String, u64>,
}

impl Counts {
    // Counts a predicate. Where memory is refused nothing is said of the counts.
    fn add(&mut self, predicate: &str) -> Result<(), AllocError>
        ensures { OnOk result (0 < unwrap_or (get_by_text self.new.of predicate.now) 0) }
    {
        let key = String::from_str(self.alloc, predicate)?;
        let count = self.of.entry(key)?.or_insert(0);
        *count = count.saturating_add(1);
        Ok(())
    }
}

impl QuadSink for Counts {
    ghost takes = { λ _ quad after.
        (text : List ℕ) × (chars text ≡ quad.predicate) × (0 < unwrap_or (get_by_text after.of text) 0) };

    ghost leaves = { λ _ _ _. ⊤ };

    ghost has_failed = { λ _. false };

    fn put(&mut self, quad: &QuadRef<'_>) -> Result<(), PutFault> {
        match self.add(quad.predicate.as_str()) {
            Ok(()) => Ok(()),
            Err(_) => Err(PutFault::Memory),
        }
    }

    fn failed(&self) -> bool {
        false
    }
}

/// Why a document was not read to its end.
enum Stop {
    Source(io::Error),
    Refused(Fault),
}

/// Reads a document to its end, piece by piece.
fn read_all<R: Read>(
    input: &mut R,
    reader: &mut TrigReader,
    counts: &mut Counts,
) -> Result<Summary, Stop> {
    let mut piece = [0u8; PIECE_LEN];
    for _ in 0..u64::MAX {
        let len = input.read(&mut piece).map_err(Stop::Source)?;
        if len == 0 {
            break;
        }
        reader.feed(&piece[..len], counts).map_err(Stop::Refused)?;
    }
    reader.finish(counts).map_err(Stop::Refused)
}

fn main(rt: HostRuntime) -> ExitCode {
    let Some(options) = Options::new(DocForm::Turtle, None, Limits::default()) else {
        return ExitCode::from(2);
    };
    let mut reader = TrigReader::new(rt.alloc(), options);
    let mut counts = Counts {
        alloc: rt.alloc(),
        of: BTreeMap::new(rt.alloc()),
    };
    match read_all(&mut rt.stdin(), &mut reader, &mut counts) {
        Ok(_) => match print_counts(&rt, &counts) {
            Ok(()) => ExitCode::from(0),
            Err(_) => ExitCode::from(3),
        },
        Err(Stop::Refused(fault)) => {
            let _ = eprintln!(rt; "refused at byte {}, line {}", fault.offset, fault.line);
            ExitCode::from(1)
        }
        Err(Stop::Source(_)) => ExitCode::from(3),
    }
}

/// Prints a line for each predicate, with how many quads have it.
fn print_counts(rt: &HostRuntime, counts: &Counts) -> io::Result<()> {
    for (predicate, count) in counts.of.iter() {
        println!(rt; "{count} {predicate}")?;
    }
    Ok(())
}
