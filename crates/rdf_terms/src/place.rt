// Bytes that are placed in a buffer that has room for them. A short text is two copies of a fixed size that overlap.

ghost use Rattle.std.specs.Prelude.{[], ◌∷◌, ◌+◌, ◌<◌, ◌≤◌, length, take};
ghost use Rattle.rdf_terms.specs.Placing.{Placed};

use std::simd::Simd;

/// A text of so many bytes or more is two copies of this size or a larger one; a text of fewer takes smaller ones.
pub(crate) const FEW: usize = 16;

/// Places one byte.
#[inline(always)]
pub fn place_byte(slot: &mut [u8], at: usize, byte: u8) -> usize
    requires { at < length slot.old }
    ensures { Placed slot.old slot.new at (byte ∷ []) result }
{
    slot[at] = byte;
    at + 1
}

/// Places two bytes.
#[inline(always)]
pub fn place_two(slot: &mut [u8], at: usize, first: u8, second: u8) -> usize
    requires { at + 2 ≤ length slot.old }
    ensures { Placed slot.old slot.new at (first ∷ second ∷ []) result }
{
    let next = place_byte(slot, at, first);
    place_byte(slot, next, second)
}

/// Places a text of any length by one call.
pub fn place_all(slot: &mut [u8], at: usize, text: &[u8]) -> usize
    requires { at + length text.now ≤ length slot.old }
    ensures { Placed slot.old slot.new at text.now result }
{
    let end = at + text.len();
    slot[at..end].copy_from_slice(text);
    end
}

/// Places a text of any length, without a call for one of common length.
#[inline(always)]
pub fn place_text(slot: &mut [u8], at: usize, text: &[u8]) -> usize
    requires { at + length text.now ≤ length slot.old }
    ensures { Placed slot.old slot.new at text.now result }
{
    let len = text.len();
    if len > 32 {
        place_long(slot, at, text)
    } else if len >= FEW {
        place_ends::<FEW>(slot, at, text)
    } else {
        place_few(slot, at, text)
    }
}

/// The same of fewer than `FEW` bytes.
#[inline(always)]
pub(crate) fn place_few(slot: &mut [u8], at: usize, text: &[u8]) -> usize
    requires { (length text.now < 16) × (at + length text.now ≤ length slot.old) }
    ensures { Placed slot.old slot.new at text.now result }
{
    let len = text.len();
    if len >= 8 {
        place_ends::<8>(slot, at, text)
    } else if len >= 4 {
        place_ends::<4>(slot, at, text)
    } else if len >= 2 {
        place_ends::<2>(slot, at, text)
    } else if len == 1 {
        place_chunk::<1>(slot, at, text)
    } else {
        at
    }
}

// By 32 bytes, and at last the two ends of what is left.
#[inline(always)]
fn place_long(slot: &mut [u8], at: usize, text: &[u8]) -> usize
    requires { (32 ≤ length text.now) × (at + length text.now ≤ length slot.old) }
    ensures { Placed slot.old slot.new at text.now result }
{
    let mut done = 0;
    while text.len() - done > 64 {
        place_chunk::<32>(slot, at + done, &text[done..]);
        done += 32;
    }
    place_ends::<32>(slot, at + done, &text[done..])
}

// The first N bytes and the last N.
#[inline(always)]
fn place_ends<const N: usize>(slot: &mut [u8], at: usize, text: &[u8]) -> usize
    requires fits { at + length text.now ≤ length slot.old }
    requires covers { (N ≤ length text.now) × (length text.now ≤ N + N) }
    ensures { Placed slot.old slot.new at text.now result }
{
    let last = text.len() - N;
    place_chunk::<N>(slot, at, text);
    place_chunk::<N>(slot, at + last, &text[last..])
}

// The first N bytes are one load and one store.
#[inline(always)]
fn place_chunk<const N: usize>(slot: &mut [u8], at: usize, text: &[u8]) -> usize
    requires { (N ≤ length text.now) × (at + N ≤ length slot.old) }
    ensures { Placed slot.old slot.new at (take N text.now) result }
{
    Simd::<u8, N>::from_slice(text).copy_to_slice(&mut slot[at..]);
    at + N
}
