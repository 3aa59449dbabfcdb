// A document as a whole.

ghost use Rattle.std.specs.Prelude.{◌≡◌, [], false};
ghost use Rattle.rdf_driver.specs.Words.{in_words};
ghost use Rattle.rdf_driver.specs.Readers.{HasRead};
ghost use Rattle.rdf_trig.specs.Language.{Chosen, language};
ghost use Rattle.rdf_trig.specs.Accepting.{tree_words};
ghost use Rattle.rdf_trig.specs.ReadWhole.{ReadsWhole};

use crate::reader::{Options, TrigReader};
use rdf_driver::Fault;
use rdf_terms::QuadList;
use std::alloc::Allocator;

fn read_all<A: Allocator + Copy>(
    reader: &mut TrigReader<A>,
    bytes: &[u8],
    list: &mut QuadList<A>,
) -> Result<(), Fault>
    requires running { reader.old.done ≡ false }
    requires empty { list.old ≡ [] }
    ensures { (x : Chosen) → HasRead tree_words reader.old x [] [] →
        ReadsWhole (in_words tree_words x reader.old.scanner.limit) bytes.now (λ _. list.new) result }
{
    match reader.feed(bytes, list) {
        Err(fault) => Err(fault),
        Ok(()) => match reader.finish(list) {
            Ok(_) => Ok(()),
            Err(fault) => Err(fault),
        },
    }
}

/// The quads of a document, in its order.
pub fn read_document<A: Allocator + Copy>(
    alloc: A,
    options: Options<A>,
    bytes: &[u8],
) -> Result<QuadList<A>, Fault>
    ensures { ReadsWhole (language options.form options.start) bytes.now (λ quads. quads) result }
{
    let mut list = QuadList::new(alloc);
    let mut reader = TrigReader::new(alloc, options);
    let read = read_all(&mut reader, bytes, &mut list);
    drop(reader);
    match read {
        Ok(()) => Ok(list),
        Err(fault) => Err(fault),
    }
}
