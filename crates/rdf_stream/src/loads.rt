// A file of bindings, read from a source.

ghost use Rattle.std.specs.Prelude.{◌≡◌, ◌<◌, false, length, IfErr, IfOk};
ghost use Rattle.rdf_iri.specs.Bindings.{IsReadFrom};
ghost use Rattle.rdf_stream.specs.Loads.{BindsNot, HasGivenAll, LoadStops, Loads, ReadsNot};
ghost use Rattle.rdf_stream.specs.Told.{told};

use crate::devices::{Failed, Source};
use crate::fault::LoadFault;
use crate::pieces::piece_buffer;
use rdf_iri::{Bindings, Limits, read_bindings};
use std::alloc::Allocator;

/// The bindings of a file that the source has. All its bytes are kept until its end, so a source without end comes
/// to want of memory.
pub fn load_bindings<A: Allocator + Copy, S: Source>(
    alloc: A,
    limits: Limits,
    source: &mut S,
) -> Result<Bindings<A>, LoadFault>
    requires more { S.has_ended source.old ≡ false }
    requires source { S.has_failed source.old ≡ false }
    ensures loaded { IfOk result (Loads limits (S.remaining source.old) (told S.Source source.new)) }
    ensures stops { IfErr result (λ fault. LoadStops fault limits (S.remaining source.old) (told S.Source source.new)) }
{
    let bytes = match read_whole(alloc, source) {
        Ok(bytes) => bytes,
        Err(fault) => return Err(fault),
    };
    bindings_in(alloc, limits, bytes.as_slice())
}

/// The bindings of a file of these bytes, where they were read before. It never reports the fault `Read`.
pub fn bindings_in<A: Allocator + Copy>(
    alloc: A,
    limits: Limits,
    bytes: &[u8],
) -> Result<Bindings<A>, LoadFault>
    ensures loaded { IfOk result (IsReadFrom limits bytes.now) }
    ensures stops { IfErr result (λ fault. BindsNot fault limits bytes.now) }
{
    match read_bindings(alloc, limits, bytes) {
        Ok(bindings) => Ok(bindings),
        Err(fault) => Err(LoadFault::from(fault)),
    }
}

/// All bytes of a source, up to its end. It never reports the fault `Bad`.
pub fn read_whole<A: Allocator + Copy, S: Source>(
    alloc: A,
    source: &mut S,
) -> Result<Vec<u8, A>, LoadFault>
    requires more { S.has_ended source.old ≡ false }
    requires source { S.has_failed source.old ≡ false }
    ensures given { IfOk result (λ bytes. HasGivenAll (S.remaining source.old) (told S.Source source.new) bytes.items) }
    ensures stops { IfErr result (λ fault. ReadsNot fault (S.remaining source.old) (told S.Source source.new)) }
{
    let mut piece = piece_buffer(alloc)?;
    read_all(alloc, source, piece.as_mut_slice())
}

// All bytes of a source, by pieces.
fn read_all<A: Allocator + Copy, S: Source>(
    alloc: A,
    source: &mut S,
    piece: &mut [u8],
) -> Result<Vec<u8, A>, LoadFault>
    requires more { S.has_ended source.old ≡ false }
    requires source { S.has_failed source.old ≡ false }
    requires room { 0 < length piece.old }
    ensures given { IfOk result (λ bytes. HasGivenAll (S.remaining source.old) (told S.Source source.new) bytes.items) }
    ensures stops { IfErr result (λ fault. ReadsNot fault (S.remaining source.old) (told S.Source source.new)) }
{
    let mut bytes = Vec::new(alloc);
    loop {
        let count = match source.fill(piece) {
            Ok(count) => count,
            Err(Failed) => return Err(LoadFault::Read),
        };
        if count == 0 {
            return Ok(bytes);
        }
        bytes.extend_from_slice(&piece[..count])?;
    }
}
