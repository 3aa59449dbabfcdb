// The characters of a string with their escapes, placed in a buffer that has room for them.

ghost use Rattle.std.specs.Prelude.{◌+◌, ◌*◌, ◌≤◌, flat_map, length};
ghost use Rattle.rdf_lines.specs.declared.form.Escapes.TheVariants.{Plain};
ghost use Rattle.rdf_terms.specs.Placing.{Placed};
ghost use Rattle.rdf_lines.specs.Writing.{escaped};
ghost use Rattle.rdf_lines.specs.WrittenBytes.{escaped_bytes};

use rdf_terms::place::{place_byte, place_text, place_two};
use rdf_terms::runs::{Run, is_run, run_end};

/// Places the characters of a string in the plain form. Most strings are one run.
#[inline(always)]
pub fn place_characters(slot: &mut [u8], at: usize, text: &str) -> usize
    requires { at + 2 * length text.now ≤ length slot.old }
    ensures placed { Placed slot.old slot.new at (escaped_bytes Plain text.now) result }
    ensures within { result ≤ at + 2 * length text.now }
{
    let bytes = text.as_bytes();
    if is_run(Run::QuoteText, bytes) {
        place_text(slot, at, bytes)
    } else {
        place_escaped(slot, at, bytes)
    }
}

// Run by run, each with the byte after it. Only characters of ASCII are escaped, so bytes may be looked at in place of
// characters.
#[inline(never)]
fn place_escaped(slot: &mut [u8], at: usize, bytes: &[u8]) -> usize
    requires { at + 2 * length bytes.now ≤ length slot.old }
    ensures placed { Placed slot.old slot.new at (flat_map (escaped Plain) bytes.now) result }
    ensures within { result ≤ at + 2 * length bytes.now }
{
    let mut end = at;
    let mut from = 0;
    while from < bytes.len() {
        let stop = run_end(Run::QuoteText, bytes, from);
        end = place_text(slot, end, &bytes[from..stop]);
        if stop == bytes.len() {
            return end;
        }
        end = place_escape(slot, end, bytes[stop]);
        from = stop + 1;
    }
    end
}

// A byte, by its escape where it has one.
#[inline(always)]
fn place_escape(slot: &mut [u8], at: usize, byte: u8) -> usize
    requires { at + 2 ≤ length slot.old }
    ensures placed { Placed slot.old slot.new at (escaped Plain byte) result }
    ensures within { result ≤ at + 2 }
{
    match byte {
        b'"' => place_two(slot, at, b'\\', b'"'),
        b'\\' => place_two(slot, at, b'\\', b'\\'),
        b'\n' => place_two(slot, at, b'\\', b'n'),
        b'\r' => place_two(slot, at, b'\\', b'r'),
        _ => place_byte(slot, at, byte),
    }
}
