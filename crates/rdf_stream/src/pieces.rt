// Reading a source to its end, piece by piece.

ghost use Rattle.std.specs.Prelude.{◌≡◌, ◌+◌, ◌<◌, ◌≤◌, ◌++◌, ℕ, List, [], Bool, true, false, length, Some, None, OnOk};
ghost use Rattle.std.specs.Prelude.{IfOk, IfErr, IfSome};
ghost use Rattle.rdf_tokens.specs.Scans.{most_bytes};
ghost use Rattle.rdf_driver.specs.declared.summary.Summary.{Summary};
ghost use Rattle.rdf_stream.specs.declared.fault.StreamFault.{StreamFault};
ghost use Rattle.rdf_stream.specs.Pieces.{HaltsOn, HasBegun, ReadsAll, ReadStops, ReadsEnd, StaysOn, TakenBefore};
ghost use Rattle.rdf_stream.specs.Pieces.{TakesMore, at_end};
ghost use Rattle.rdf_stream.specs.Places.{TellsNear};
ghost use Rattle.rdf_stream.specs.Told.{told};
ghost use Rattle.rdf_stream.specs.Watches.{WatchesAll};

use crate::devices::{Failed, Source};
use crate::fault::StreamFault;
use crate::watch::Watching;
use rdf_driver::Summary;
use std::alloc::{AllocError, Allocator};

/// The number of bytes that are asked of a source at a time.
const PIECE_LEN: usize = 65536;

/// Takes the bytes of a source, piece by piece, and hands on what comes of them.
pub(crate) trait Run<L> {
    /// From the first state on, these bytes were taken.
    ghost taken: { Self × L → List ℕ → Self × L → Type 0 };
    /// From the first state on, these bytes are not read on, with their end or before more come.
    ghost halts: { StreamFault → Self × L → List ℕ → Bool → Self × L → Type 0 };
    /// From the first state on, these bytes were read to their end.
    ghost ends: { Summary → Self × L → List ℕ → Self × L → Type 0 };
    /// What stays from the first state on.
    ghost stays: { Self × L → Self × L → Type 0 };
    /// The number of bytes that were taken.
    ghost count: { Self → ℕ };

    /// Takes a piece.
    fn take(&mut self, piece: &[u8], out: &mut L) -> Result<(), StreamFault>
        requires begun { HasBegun taken (self.old, out.old) }
        ensures takes { OnOk result (TakesMore taken (self.old, out.old) piece.now (self.new, out.new)) }
        ensures count { OnOk result (count self.new ≡ count self.old + length piece.now) }
        ensures few { OnOk result (count self.new ≤ most_bytes) }
        ensures stays { StaysOn stays (self.old, out.old) (self.new, out.new) }
        ensures halts { IfErr result (λ f.
            HaltsOn taken halts f (self.old, out.old) (λ bytes. bytes ++ piece.now) false (self.new, out.new)) };

    /// Of the bytes that were taken a refusal may still stand in so many of the last, or in fewer.
    fn open(&self) -> u64;

    /// Takes the end.
    fn end(&mut self, out: &mut L) -> Result<Summary, StreamFault>
        requires begun { HasBegun taken (self.old, out.old) }
        ensures ends { IfOk result (λ summary. ReadsEnd taken ends summary (self.old, out.old) (self.new, out.new)) }
        ensures stays { StaysOn stays (self.old, out.old) (self.new, out.new) }
        ensures halts { IfErr result (λ f.
            HaltsOn taken halts f (self.old, out.old) (λ bytes. bytes) true (self.new, out.new)) };
}

/// Reads the source to its end, and tells of the place of a refusal where that is asked for.
pub(crate) fn read_pieces<A: Allocator + Copy, S: Source, L, R: Run<L>>(
    source: &mut S,
    piece: &mut [u8],
    run: &mut R,
    out: &mut L,
    watching: &mut Watching<A>,
) -> Result<Summary, StreamFault>
    requires more { S.has_ended source.old ≡ false }
    requires source { S.has_failed source.old ≡ false }
    requires room { 0 < length piece.old }
    requires begun { R.taken (run.old, out.old) [] (run.old, out.old) }
    requires stays { R.stays (run.old, out.old) (run.old, out.old) }
    requires kept { WatchesAll watching.old [] }
    requires untold { watching.old.near ≡ None }
    ensures stays { R.stays (run.old, out.old) (run.new, out.new) }
    ensures near { IfSome watching.new.near
        (TellsNear watching.old.words.dialect watching.old.words.limit result (S.remaining source.old)
        (told S.Source source.new)) }
    ensures unasked { watching.old.watch ≡ None → watching.new.near ≡ None }
    ensures read { IfOk result (λ summary.
        ReadsAll R.ends (S.remaining source.old) (told S.Source source.new) summary (run.old, out.old)
        (run.new, out.new)) }
    ensures stops { IfErr result (λ f.
        ReadStops R.taken R.halts f (S.remaining source.old) (told S.Source source.new) (run.old, out.old)
        (run.new, out.new)) }
    ensures before { TakenBefore R.taken R.stays (S.remaining source.old) (told S.Source source.new)
        (run.old, out.old) (run.new, out.new) }
{
    loop {
        let count = match source.fill(piece) {
            Ok(count) => count,
            Err(Failed) => return Err(StreamFault::Read),
        };
        if count == 0 {
            return match run.end(out) {
                Ok(summary) => Ok(summary),
                Err(fault) => {
                    watching.stop(&[], true, &fault);
                    Err(fault)
                }
            };
        }
        match run.take(&piece[..count], out) {
            Ok(()) => watching.go_on(&piece[..count], &*run),
            Err(fault) => {
                watching.stop(&piece[..count], false, &fault);
                return Err(fault);
            }
        }
    }
}

/// Reads bytes that are all that there are.
pub(crate) fn read_bytes<L, R: Run<L>>(
    bytes: &[u8],
    run: &mut R,
    out: &mut L,
) -> Result<Summary, StreamFault>
    requires begun { R.taken (run.old, out.old) [] (run.old, out.old) }
    ensures read { IfOk result (λ summary.
        ReadsAll R.ends (Some bytes.now) (at_end true) summary (run.old, out.old) (run.new, out.new)) }
    ensures stops { IfErr result (λ f. (ended : Bool)
        × ReadStops R.taken R.halts f (Some bytes.now) (at_end ended) (run.old, out.old) (run.new, out.new)) }
{
    match run.take(bytes, out) {
        Ok(()) => run.end(out),
        Err(fault) => Err(fault),
    }
}

/// A buffer for pieces.
pub(crate) fn piece_buffer<A: Allocator + Copy>(alloc: A) -> Result<Vec<u8, A>, AllocError>
    ensures { IfOk result (λ piece. 0 < length piece.items) }
{
    Vec::from_elem(alloc, 0u8, PIECE_LEN)
}
