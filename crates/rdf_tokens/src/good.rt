// The good text at the front of bytes.

ghost use Rattle.std.specs.Prelude.{◌≡◌, ◌+◌, ◌≤◌, length, take, count_by, ◌==◌, IsUtf8};
ghost use Rattle.std.specs.Simd.Lanes.{chunk};
ghost use Rattle.std.specs.Str.Lossy.{utf8_valid_len};
ghost use Rattle.std.specs.Str.{chars};
ghost use Rattle.rdf_tokens.specs.Front.{bytes_of};
ghost use Rattle.rdf_tokens.specs.Good.{mark};
ghost use Rattle.rdf_tokens.specs.Moves.{is_broken};

use crate::bytes::char_at;
use simdutf8::compat::from_utf8;
use std::simd::prelude::*;

/// The number of bytes that are seen at a time.
const LANES: usize = 16;

/// The longest front of some bytes that is UTF-8.
#[derive(Drop)]
pub struct GoodText<'a> {
    /// The front.
    pub text: &'a str,
    /// The bytes after it can begin no character.
    pub broken: bool,
}

/// The longest front of the bytes that is UTF-8 (RFC 3629, section 4), and whether what comes after it can begin no
/// character. Where it can, the bytes end within a character. Bytes that end in ASCII are tested once.
#[inline(always)]
pub fn good_front(bytes: &[u8]) -> GoodText<'_>
    ensures text { result.text.now ≡ take (utf8_valid_len bytes.now) bytes.now }
    ensures broken { result.broken ≡ is_broken bytes.now }
{
    match bytes {
        [.., 0x80..=0xFF] => wide_front(bytes),
        _ => tested_front(bytes),
    }
}

/// The same of bytes that end in a character above U+007F, or within one, as a part of a text may. Then what stands
/// before it is tested alone: a test of all would fail, and be made anew.
#[cold]
#[inline(never)]
fn wide_front(bytes: &[u8]) -> GoodText<'_>
    ensures text { result.text.now ≡ take (utf8_valid_len bytes.now) bytes.now }
    ensures broken { result.broken ≡ is_broken bytes.now }
{
    let (front, rest) = bytes.split_at(last_start(bytes));
    match from_utf8(rest) {
        Err(e) if e.valid_up_to() == 0 => match from_utf8(front) {
            Ok(text) => GoodText {
                text,
                broken: e.error_len().is_some(),
            },
            Err(_) => tested_front(bytes),
        },
        _ => tested_front(bytes),
    }
}

/// Where the last character begins, by its first byte, where it is not whole, or how many bytes there are.
fn last_start(bytes: &[u8]) -> usize
    ensures { result ≤ length bytes.now }
{
    match bytes {
        [.., 0xC2..=0xFF] => bytes.len() - 1,
        [.., 0xE0..=0xFF, _] => bytes.len() - 2,
        [.., 0xF0..=0xFF, _, _] => bytes.len() - 3,
        _ => bytes.len(),
    }
}

/// The same by one test of all.
#[inline(always)]
fn tested_front(bytes: &[u8]) -> GoodText<'_>
    ensures text { result.text.now ≡ take (utf8_valid_len bytes.now) bytes.now }
    ensures broken { result.broken ≡ is_broken bytes.now }
{
    match from_utf8(bytes) {
        Ok(text) => GoodText {
            text,
            broken: false,
        },
        Err(e) => GoodText {
            text: text_of(&bytes[..e.valid_up_to()]),
            broken: e.error_len().is_some(),
        },
    }
}

fn text_of(bytes: &[u8]) -> &str
    requires { IsUtf8 bytes.now }
    ensures { result.now ≡ bytes.now }
{
    match from_utf8(bytes) {
        Ok(text) => text,
        Err(_) => unreachable!(),
    }
}

/// How many of the bytes are LF.
pub fn line_feeds(bytes: &[u8]) -> usize
    ensures { result ≡ count_by (λ b. b == 10) bytes.now }
{
    let mut count = 0;
    let mut at = 0;
    while bytes.len() - at >= LANES {
        count += feeds_in(bytes, at);
        at += LANES;
    }
    while at < bytes.len() {
        count += usize::from(bytes[at] == b'\n');
        at += 1;
    }
    count
}

/// The same of bytes that are mostly one.
#[inline(always)]
pub fn few_line_feeds(bytes: &[u8]) -> usize
    ensures { result ≡ count_by (λ b. b == 10) bytes.now }
{
    match bytes {
        [byte] => usize::from(*byte == b'\n'),
        _ => line_feeds(bytes),
    }
}

/// The same of sixteen bytes from a place on.
#[inline(always)]
fn feeds_in(bytes: &[u8], at: usize) -> usize
    requires { at + 16 ≤ length bytes.now }
    ensures { result ≡ count_by (λ b. b == 10) (chunk at 16 bytes.now) }
{
    let v = u8x16::from_slice(&bytes[at..]);
    v.simd_eq(u8x16::splat(b'\n')).to_bitmask().count_ones() as usize
}

/// How many bytes the leading U+FEFF has, if there is one.
pub fn mark_len(text: &str) -> usize
    ensures { result ≡ bytes_of (mark (chars text.now)) (chars text.now) }
{
    if text.is_empty() {
        return 0;
    }
    let (c, next) = char_at(text, 0);
    if c == '\u{FEFF}' { next } else { 0 }
}
