// How many characters a text has, by the bytes that begin one, seen sixteen at a time.

ghost use Rattle.std.specs.Prelude.{◌≡◌, length, count_by, nat_lt};
ghost use Rattle.std.specs.Str.{chars};
ghost use Rattle.rdf_tokens.specs.Count.{is_start};

use std::simd::prelude::*;

/// The number of bytes that are seen at a time.
const LANES: usize = 16;

/// How many characters a text has: Unicode's scalar values, not bytes.
pub fn char_count(text: &str) -> usize
    ensures { result ≡ length (chars text.now) }
{
    start_count(text.as_bytes())
}

/// How many bytes begin a character, where the bytes are UTF-8.
fn start_count(bytes: &[u8]) -> usize
    ensures { result ≡ count_by is_start bytes.now }
{
    let mut count = 0;
    let mut at = 0;
    while bytes.len() - at >= LANES {
        count += starts(u8x16::from_slice(&bytes[at..])) as usize;
        at += LANES;
    }
    while at < bytes.len() {
        count += is_start(bytes[at]) as usize;
        at += 1;
    }
    count
}

/// How many of sixteen bytes begin a character: those of ASCII, and those that are no less than 192.
#[inline(always)]
fn starts(v: u8x16) -> u32
    requires { length v ≡ 16 }
    ensures { result ≡ count_by is_start v }
{
    below(v, 128) + (16 - below(v, 192))
}

#[inline(always)]
fn below(v: u8x16, limit: u8) -> u32
    requires { length v ≡ 16 }
    ensures { result ≡ count_by (λ b. nat_lt b limit) v }
{
    v.simd_lt(u8x16::splat(limit)).to_bitmask().count_ones()
}

/// Whether a byte is not one of those after a character's first.
#[inline(always)]
fn is_start(byte: u8) -> bool
    ensures { result ≡ is_start byte }
{
    byte < 128 || byte >= 192
}
