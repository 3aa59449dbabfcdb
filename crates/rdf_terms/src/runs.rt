// Runs of bytes that a text has as they are, seen sixteen at a time.

ghost use Rattle.std.specs.Prelude.{◌≡◌, ◌==◌, ◌+◌, ◌≤◌, ◌<◌, ℕ, length, map, not};
ghost use Rattle.std.specs.Simd.Lanes.{mask_l};
ghost use Rattle.rdf_terms.specs.Runs.{iri_byte, goes_over, is_ascii_byte, is_ascii_quote_byte, is_long_byte};
ghost use Rattle.rdf_terms.specs.Runs.{is_name_byte, is_short_byte, is_text_byte, is_unescaped, is_line_break};
ghost use Rattle.rdf_terms.specs.Runs.{is_comment_byte, is_space, is_white, IsRun, IsRunIn};
ghost use Rattle.rdf_terms.specs.Terms.{all_have};

use crate::classes::is_iri_byte;
use crate::halves::{by_high_half, by_low_half};
use std::simd::prelude::*;

/// The number of bytes that are seen at a time.
const LANES: usize = 16;

/// What a run goes over.
#[derive(Clone, Copy)]
pub enum Run {
    /// What an IRI has as it is.
    Iri,
    /// What a string has as it is, in whichever quotes it stands.
    Text,
    /// What a STRING_LITERAL_QUOTE has as it is: all but `"`, backslash, CR and LF.
    QuoteText,
    /// What a STRING_LITERAL_SINGLE_QUOTE has as it is: all but `'`, backslash, CR and LF.
    SingleQuoteText,
    /// What a STRING_LITERAL_LONG_QUOTE has as it is: all but `"` and backslash.
    LongQuoteText,
    /// What a STRING_LITERAL_LONG_SINGLE_QUOTE has as it is: all but `'` and backslash.
    LongSingleQuoteText,
    /// What a STRING_LITERAL_QUOTE has as it is, in ASCII.
    AsciiQuoteText,
    /// ASCII.
    Ascii,
    /// Letters, digits, `_` and `-`, in ASCII.
    Name,
    /// What stands between the escapes of a string: all but the backslash.
    Unescaped,
    /// What a comment has: all but CR and LF.
    Comment,
    /// White space of the line formats: spaces and tabs.
    Spaces,
    /// White space of Turtle: spaces, tabs, CRs and LFs.
    White,
}

/// The place of the first byte from a place on that the run does not go over, or the length.
#[inline(always)]
pub fn run_end(run: Run, bytes: &[u8], from: usize) -> usize
    requires { from ≤ length bytes.now }
    ensures { IsRun (goes_over run) bytes.now from result }
{
    let mut at = from;
    while bytes.len() - at >= LANES {
        let hits = stops(run, u8x16::from_slice(&bytes[at..]));
        if hits != 0 {
            return at + hits.trailing_zeros() as usize;
        }
        at += LANES;
    }
    short_run_end(run, bytes, at)
}

/// The same of a text that often ends soon, as the inside of a token does. Where fewer than sixteen bytes are left,
/// they are seen in one load with those before them.
#[inline(always)]
pub(crate) fn near_run_end(run: Run, bytes: &[u8], from: usize) -> usize
    requires { from ≤ length bytes.now }
    ensures { IsRun (goes_over run) bytes.now from result }
{
    let len = bytes.len();
    if len < LANES || len - from >= LANES {
        return run_end(run, bytes, from);
    }
    let last = len - LANES;
    let all = stops(run, u8x16::from_slice(&bytes[last..]));
    let hits = all >> (from - last);
    if hits == 0 {
        return len;
    }
    from + hits.trailing_zeros() as usize
}

/// The end of the run from a place on, and the end of the run after the byte there, where there is one. Both are
/// seen in one load where they are near.
#[inline(always)]
pub fn two_run_ends(run: Run, bytes: &[u8], from: usize) -> (usize, usize)
    requires { from ≤ length bytes.now }
    ensures first { IsRun (goes_over run) bytes.now from result.0 }
    ensures second { result.0 < length bytes.now → IsRun (goes_over run) bytes.now (result.0 + 1) result.1 }
{
    if bytes.len() - from < LANES {
        let first = short_run_end(run, bytes, from);
        return (first, end_after(run, bytes, first));
    }
    let hits = stops(run, u8x16::from_slice(&bytes[from..]));
    if hits == 0 {
        let first = far_run_end(run, bytes, from + LANES);
        return (first, end_after(run, bytes, first));
    }
    let first = hits.trailing_zeros() as usize;
    let others = hits >> (first + 1);
    if others == 0 {
        return (from + first, far_run_end(run, bytes, from + LANES));
    }
    (
        from + first,
        from + first + 1 + others.trailing_zeros() as usize,
    )
}

/// The end of the run after the byte at a place, where there is one.
#[inline(always)]
fn end_after(run: Run, bytes: &[u8], at: usize) -> usize
    requires { at ≤ length bytes.now }
    ensures { at < length bytes.now → IsRun (goes_over run) bytes.now (at + 1) result }
{
    if at < bytes.len() {
        far_run_end(run, bytes, at + 1)
    } else {
        at
    }
}

/// What `run_end` answers, by a call: most ends are near, and what seeks two of them stays small.
fn far_run_end(run: Run, bytes: &[u8], from: usize) -> usize
    requires { from ≤ length bytes.now }
    ensures { IsRun (goes_over run) bytes.now from result }
{
    run_end(run, bytes, from)
}

/// The same byte by byte.
#[inline(always)]
fn short_run_end(run: Run, bytes: &[u8], from: usize) -> usize
    requires { from ≤ length bytes.now }
    ensures { IsRun (goes_over run) bytes.now from result }
{
    let mut at = from;
    while at < bytes.len() && is_passed(run, bytes[at]) {
        at += 1;
    }
    at
}

#[inline(always)]
fn is_passed(run: Run, byte: u8) -> bool
    ensures { result ≡ goes_over run byte }
{
    match run {
        Run::Iri => is_iri_byte(byte),
        Run::Text => is_text_byte(byte),
        Run::QuoteText => is_short_byte(b'"', byte),
        Run::SingleQuoteText => is_short_byte(b'\'', byte),
        Run::LongQuoteText => is_long_byte(b'"', byte),
        Run::LongSingleQuoteText => is_long_byte(b'\'', byte),
        Run::AsciiQuoteText => is_short_byte(b'"', byte) && byte < 128,
        Run::Ascii => byte < 128,
        Run::Name => matches!(byte, b'A'..=b'Z' | b'a'..=b'z' | b'0'..=b'9' | b'_' | b'-'),
        Run::Unescaped => byte != b'\\',
        Run::Comment => !is_line_break(byte),
        Run::Spaces => is_space(byte),
        Run::White => byte == b' ' || byte == b'\t' || is_line_break(byte),
    }
}

#[inline(always)]
fn is_text_byte(byte: u8) -> bool
    ensures { result ≡ is_text_byte byte }
{
    !matches!(byte, b'"' | b'\'' | b'\\' | b'\n' | b'\r')
}

#[inline(always)]
fn is_short_byte(quote: u8, byte: u8) -> bool
    ensures { result ≡ is_short_byte quote byte }
{
    is_long_byte(quote, byte) && !is_line_break(byte)
}

#[inline(always)]
fn is_long_byte(quote: u8, byte: u8) -> bool
    ensures { result ≡ is_long_byte quote byte }
{
    byte != quote && byte != b'\\'
}

#[inline(always)]
fn is_line_break(byte: u8) -> bool
    ensures { result ≡ is_line_break byte }
{
    byte == b'\n' || byte == b'\r'
}

#[inline(always)]
fn is_space(byte: u8) -> bool
    ensures { result ≡ is_space byte }
{
    byte == b' ' || byte == b'\t'
}

/// How many of the sixteen bytes come before the first that the run does not go over.
#[inline(always)]
fn passed_lanes(run: Run, bytes: &[u8], at: usize) -> usize
    requires { at + 16 ≤ length bytes.now }
    ensures { IsRunIn (goes_over run) bytes.now at 16 result }
{
    let hits = stops(run, u8x16::from_slice(&bytes[at..]));
    if hits == 0 {
        LANES
    } else {
        hits.trailing_zeros() as usize
    }
}

/// Bit k says that the run does not go over lane k.
#[inline(always)]
fn stops(run: Run, v: u8x16) -> u64
    ensures { result ≡ mask_l (map (λ b. not (goes_over run b)) v) }
{
    match run {
        Run::Iri => iri_stops(v),
        Run::Text => text_stops(v),
        Run::QuoteText => quote_stops(v),
        Run::SingleQuoteText => single_quote_stops(v),
        Run::LongQuoteText => long_quote_stops(v),
        Run::LongSingleQuoteText => long_single_quote_stops(v),
        Run::AsciiQuoteText => ascii_quote_stops(v),
        Run::Ascii => ascii_stops(v),
        Run::Name => name_stops(v),
        Run::Unescaped => backslashes(v),
        Run::Comment => line_breaks(v),
        Run::Spaces => space_stops(v),
        Run::White => white_stops(v),
    }
}

// A class by the halves of a byte, which belongs to the class where they have a bit in common. A lower half has bit
// k where the byte with it and the upper half k belongs to the class, and an upper half k below 8 has bit k.

const IRI_LOW: [u8; 16] = [
    0xB8, 0xFC, 0xF8, 0xFC, 0xFC, 0xFC, 0xFC, 0xFC, 0xFC, 0xFC, 0xFC, 0x7C, 0x54, 0x7C, 0xD4, 0xFC,
];

// All bytes from 128 on belong to it. Their upper halves have bit 4, as each lower half has: no byte from 0x40 to
// 0x4F is excluded.
const IRI_HIGH: [u8; 16] = [1, 2, 4, 8, 16, 32, 64, 128, 16, 16, 16, 16, 16, 16, 16, 16];

#[inline(always)]
fn iri_stops(v: u8x16) -> u64
    ensures { result ≡ mask_l (map (λ b. not (iri_byte b)) v) }
{
    let common = by_low_half(IRI_LOW, v) & by_high_half(IRI_HIGH, v);
    common.simd_eq(u8x16::splat(0)).to_bitmask()
}

// Bytes that differ in their lower halves are found by one look-up. Where none has a lower half, its place has a
// byte with another one.

const TEXT_STOPS: [u8; 16] = [
    1, 0, b'"', 0, 0, 0, 0, b'\'', 0, 0, b'\n', 0, b'\\', b'\r', 0, 0,
];

#[inline(always)]
fn text_stops(v: u8x16) -> u64
    ensures { result ≡ mask_l (map (λ b. not (is_text_byte b)) v) }
{
    by_low_half(TEXT_STOPS, v).simd_eq(v).to_bitmask()
}

const QUOTE_STOPS: [u8; 16] = [
    1, 0, b'"', 0, 0, 0, 0, 0, 0, 0, b'\n', 0, b'\\', b'\r', 0, 0,
];

#[inline(always)]
fn quote_stops(v: u8x16) -> u64
    ensures { result ≡ mask_l (map (λ b. not (is_short_byte 34 b)) v) }
{
    by_low_half(QUOTE_STOPS, v).simd_eq(v).to_bitmask()
}

#[inline(always)]
fn ascii_quote_stops(v: u8x16) -> u64
    ensures { result ≡ mask_l (map (λ b. not (is_ascii_quote_byte b)) v) }
{
    let others = v.simd_ge(u8x16::splat(128));
    (by_low_half(QUOTE_STOPS, v).simd_eq(v) | others).to_bitmask()
}

const SINGLE_QUOTE_STOPS: [u8; 16] = [
    1, 0, 0, 0, 0, 0, 0, b'\'', 0, 0, b'\n', 0, b'\\', b'\r', 0, 0,
];

#[inline(always)]
fn single_quote_stops(v: u8x16) -> u64
    ensures { result ≡ mask_l (map (λ b. not (is_short_byte 39 b)) v) }
{
    by_low_half(SINGLE_QUOTE_STOPS, v).simd_eq(v).to_bitmask()
}

#[inline(always)]
fn long_quote_stops(v: u8x16) -> u64
    ensures { result ≡ mask_l (map (λ b. not (is_long_byte 34 b)) v) }
{
    (v.simd_eq(u8x16::splat(b'"')) | v.simd_eq(u8x16::splat(b'\\'))).to_bitmask()
}

#[inline(always)]
fn long_single_quote_stops(v: u8x16) -> u64
    ensures { result ≡ mask_l (map (λ b. not (is_long_byte 39 b)) v) }
{
    (v.simd_eq(u8x16::splat(b'\'')) | v.simd_eq(u8x16::splat(b'\\'))).to_bitmask()
}

#[inline(always)]
fn ascii_stops(v: u8x16) -> u64
    ensures { result ≡ mask_l (map (λ b. not (is_ascii_byte b)) v) }
{
    v.simd_ge(u8x16::splat(128)).to_bitmask()
}

const NAME_LOW: [u8; 16] = [
    0xA8, 0xF8, 0xF8, 0xF8, 0xF8, 0xF8, 0xF8, 0xF8, 0xF8, 0xF8, 0xF0, 0x50, 0x50, 0x54, 0x50, 0x70,
];

// No byte from 128 on belongs to it.
const NAME_HIGH: [u8; 16] = [1, 2, 4, 8, 16, 32, 64, 128, 0, 0, 0, 0, 0, 0, 0, 0];

#[inline(always)]
fn name_stops(v: u8x16) -> u64
    ensures { result ≡ mask_l (map (λ b. not (is_name_byte b)) v) }
{
    let common = by_low_half(NAME_LOW, v) & by_high_half(NAME_HIGH, v);
    common.simd_eq(u8x16::splat(0)).to_bitmask()
}

#[inline(always)]
fn backslashes(v: u8x16) -> u64
    ensures { result ≡ mask_l (map (λ b. not (is_unescaped b)) v) }
{
    v.simd_eq(u8x16::splat(b'\\')).to_bitmask()
}

#[inline(always)]
fn line_breaks(v: u8x16) -> u64
    ensures { result ≡ mask_l (map (λ b. not (is_comment_byte b)) v) }
{
    (v.simd_eq(u8x16::splat(b'\n')) | v.simd_eq(u8x16::splat(b'\r'))).to_bitmask()
}

#[inline(always)]
fn space_stops(v: u8x16) -> u64
    ensures { result ≡ mask_l (map (λ b. not (is_space b)) v) }
{
    (v.simd_ne(u8x16::splat(b' ')) & v.simd_ne(u8x16::splat(b'\t'))).to_bitmask()
}

// The white bytes, which differ in their lower halves too.
const WHITE: [u8; 16] = [
    b' ', 0, 0, 0, 0, 0, 0, 0, 0, b'\t', b'\n', 0, 0, b'\r', 0, 0,
];

#[inline(always)]
fn white_stops(v: u8x16) -> u64
    ensures { result ≡ mask_l (map (λ b. not (is_white b)) v) }
{
    by_low_half(WHITE, v).simd_ne(v).to_bitmask()
}

/// Whether the run goes over all of the bytes. The last load overlaps the one before it.
#[inline(always)]
pub fn is_run(run: Run, bytes: &[u8]) -> bool
    ensures { result ≡ all_have (goes_over run) bytes.now }
{
    if bytes.len() < LANES {
        return is_short_run(run, bytes);
    }
    let last = bytes.len() - LANES;
    let mut at = 0;
    while at < last {
        if passed_lanes(run, bytes, at) < LANES {
            return false;
        }
        at += LANES;
    }
    passed_lanes(run, bytes, last) == LANES
}

/// The same of fewer than sixteen bytes, as most literals and names have. What is asked most is seen by lanes.
#[inline(always)]
fn is_short_run(run: Run, bytes: &[u8]) -> bool
    requires { length bytes.now < 16 }
    ensures { result ≡ all_have (goes_over run) bytes.now }
{
    match run {
        Run::QuoteText if bytes.len() >= 8 => has_quote_ends::<8>(bytes),
        Run::QuoteText if bytes.len() >= 4 => has_quote_ends::<4>(bytes),
        Run::Unescaped if bytes.len() >= 8 => has_unescaped_ends::<8>(bytes),
        Run::Unescaped if bytes.len() >= 4 => has_unescaped_ends::<4>(bytes),
        _ => short_run_end(run, bytes, 0) == bytes.len(),
    }
}

/// Whether a string between double quotes has the first N bytes and the last N as they are, which are all of them.
#[inline(always)]
fn has_quote_ends<const N: usize>(bytes: &[u8]) -> bool
    requires covers { (N ≤ length bytes.now) × (length bytes.now ≤ N + N) }
    requires few { N ≤ 16 }
    ensures { result ≡ all_have (is_short_byte 34) bytes.now }
{
    let last = bytes.len() - N;
    has_quote_lanes::<N>(bytes, 0) && has_quote_lanes::<N>(bytes, last)
}

/// Whether a string between double quotes has the N bytes from a place on as they are.
#[inline(always)]
fn has_quote_lanes<const N: usize>(bytes: &[u8], at: usize) -> bool
    requires within { at + N ≤ length bytes.now }
    requires few { N ≤ 16 }
    ensures { (count : ℕ) × IsRunIn (is_short_byte 34) bytes.now at N count × (result ≡ (count == N)) }
{
    let v = Simd::<u8, N>::from_slice(&bytes[at..]);
    let ends = v.simd_eq(Simd::splat(b'"')) | v.simd_eq(Simd::splat(b'\\'));
    let breaks = v.simd_eq(Simd::splat(b'\n')) | v.simd_eq(Simd::splat(b'\r'));
    (ends | breaks).to_bitmask() == 0
}

/// Whether neither the first N bytes nor the last N have a backslash, which are all of them.
#[inline(always)]
fn has_unescaped_ends<const N: usize>(bytes: &[u8]) -> bool
    requires covers { (N ≤ length bytes.now) × (length bytes.now ≤ N + N) }
    requires few { N ≤ 16 }
    ensures { result ≡ all_have is_unescaped bytes.now }
{
    let last = bytes.len() - N;
    has_unescaped_lanes::<N>(bytes, 0) && has_unescaped_lanes::<N>(bytes, last)
}

/// Whether the N bytes from a place on have no backslash.
#[inline(always)]
fn has_unescaped_lanes<const N: usize>(bytes: &[u8], at: usize) -> bool
    requires within { at + N ≤ length bytes.now }
    requires few { N ≤ 16 }
    ensures { (count : ℕ) × IsRunIn is_unescaped bytes.now at N count × (result ≡ (count == N)) }
{
    let v = Simd::<u8, N>::from_slice(&bytes[at..]);
    v.simd_eq(Simd::splat(b'\\')).to_bitmask() == 0
}
