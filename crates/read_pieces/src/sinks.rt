// What keeps the quads of a test.

ghost use Rattle.std.specs.Prelude.{◌≡◌, ◌++◌, ◌≤◌, false, encode_utf8_all};
ghost use Rattle.rdf_lines.specs.declared.form.Escapes.TheVariants.{Plain};
ghost use Rattle.rdf_lines.specs.declared.form.Style.TheVariants.{Tagged};
ghost use Rattle.rdf_lines.specs.Writing.{line};

use rdf_lines::{Escapes, LabelFault, Style, write_line};
use rdf_terms::{PutFault, QuadList, QuadRef, QuadSink};
use std::alloc::{Allocator, Global};

/// Counts the puts and the quads that are taken, keeps their lines, and fails where there is no room for one more.
#[derive(Drop)]
pub struct RecordingSink {
    pub lines: Vec<u8>,
    pub puts: u64,
    pub quads: u64,
    pub room: u64,
    pub failed: bool,
}

impl QuadSink for RecordingSink {
    ghost takes = { λ before quad after.
        after.lines.items ≡ before.lines.items ++ encode_utf8_all (line Tagged Plain quad) };

    ghost leaves = { λ before quad after. after.lines.items ≡ before.lines.items };

    ghost has_failed = { λ sink. sink.failed };

    fn put(&mut self, quad: &QuadRef<'_>) -> Result<(), PutFault> {
        self.puts = self.puts.saturating_add(1);
        if self.quads >= self.room {
            self.failed = true;
            return Err(PutFault::Device);
        }
        self.quads += 1;
        match write_line(quad, Style::Tagged, Escapes::Plain, &mut self.lines) {
            Ok(()) => Ok(()),
            Err(_) => Err(PutFault::Memory),
        }
    }

    fn failed(&self) -> bool {
        self.failed
    }
}

/// Counts the quads that are put.
#[derive(Clone, Copy)]
pub struct CountingSink {
    pub quads: u64,
}

impl QuadSink for CountingSink {
    ghost takes = { λ before _ after. before.quads ≤ after.quads };

    ghost leaves = { λ before _ after. before.quads ≤ after.quads };

    ghost has_failed = { λ _. false };

    fn put(&mut self, _: &QuadRef<'_>) -> Result<(), PutFault> {
        self.quads = self.quads.saturating_add(1);
        Ok(())
    }

    fn failed(&self) -> bool {
        false
    }
}

/// A sink that has taken nothing, with room for some quads.
pub fn recording_sink(alloc: Global, room: u64) -> RecordingSink
    ensures { result.failed ≡ false }
{
    RecordingSink {
        lines: Vec::new(alloc),
        puts: 0,
        quads: 0,
        room,
        failed: false,
    }
}

/// The lines of the quads of a list.
fn lines_of(alloc: Global, list: &QuadList) -> Result<Vec<u8>, LabelFault> {
    let mut out = Vec::new(alloc);
    for i in 0..list.len() {
        if let Some(quad) = list.get(i) {
            write_line(&quad, Style::Tagged, Escapes::Plain, &mut out)?;
        }
    }
    Ok(out)
}

/// Whether these are the lines of the quads of a list.
pub fn has_lines(alloc: Global, list: &QuadList, lines: &str) -> bool {
    match lines_of(alloc, list) {
        Ok(written) => written.as_slice() == lines.as_bytes(),
        Err(_) => false,
    }
}

/// Puts a copy of a quad into a list.
pub fn put_copy<A: Allocator + Copy>(
    alloc: A,
    quad: QuadRef<'_>,
    list: &mut QuadList<A>,
) -> Result<(), PutFault> {
    match quad.try_copy(alloc) {
        Ok(copy) => {
            let put = list.put(&copy.view());
            drop(copy);
            put
        }
        Err(_) => Err(PutFault::Memory),
    }
}
