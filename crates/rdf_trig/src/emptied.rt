// Texts that are emptied.

ghost use Rattle.std.specs.Prelude.{◌≡◌, []};

use rdf_terms::TextBuffer;
use std::alloc::Allocator;

/// Empties a text. Its memory stays.
#[inline(always)]
pub fn clear_text<A: Allocator>(text: &mut TextBuffer<A>)
    ensures { text.new ≡ [] }
{
    // What stands there is UTF-8, so that it may be cut before its first byte. Nothing is done.
    let _ = text.as_bytes();
    text.truncate(0);
}
