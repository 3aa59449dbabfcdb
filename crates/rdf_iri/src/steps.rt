// A reference that is a path, written after a directory without its dot segments (RFC 3986, section 5.2.4).

ghost use Rattle.std.specs.Prelude.{◌≡◌, ◌≤◌, ◌<◌, ◌+◌, ◌++◌, ◌∷◌, [], false, OnOk, MatchBool, length, take, drop};
ghost use Rattle.std.specs.Prelude.{get_or, slice_range};
ghost use Rattle.std.specs.Str.{IsCharBoundary};
ghost use Rattle.rdf_iri.specs.Texts.{before};
ghost use Rattle.rdf_iri.specs.Dots.{fits_D, parent};
ghost use Rattle.rdf_iri.specs.Steps.{path_in, IsMove, IsInPath, IsDirectory, front_at, path_at, written_onward};

use crate::places::directory_len;
use rdf_terms::TextBuffer;
use std::alloc::{AllocError, Allocator};

/// What a segment of a path does to the directory that the path is written after, and where the next one begins.
enum Move {
    /// It is `.`, which stays there.
    Here(usize),
    /// It is `..`, which leads to the directory above.
    Up(usize),
    /// It has a slash after it, and leads into a directory.
    Into(usize),
    /// No segment from here on is `.` or `..`.
    Last,
}

/// Appends a reference that is a path to a text that ends in a directory. The first slash of the text's path is the
/// last of `root` bytes.
pub(crate) fn put_onward<A: Allocator + Copy>(
    text: &mut TextBuffer<A>,
    root: usize,
    reference: &str,
    from: usize,
) -> Result<(), AllocError>
    requires text { IsDirectory root text.old }
    requires cut { IsCharBoundary reference.now from }
    ensures { OnOk result (text.new ≡ written_onward root text.old (drop from reference.now)) }
{
    let mut kept = from;
    let mut at = from;
    loop {
        match move_at(reference.as_bytes(), at) {
            Move::Into(next) => at = next,
            Move::Here(next) => {
                put_between(text, reference, kept, at)?;
                at = next;
                kept = next;
            }
            Move::Up(next) => {
                put_between(text, reference, kept, at)?;
                let len = above(text.as_bytes(), root);
                text.truncate(len);
                at = next;
                kept = next;
            }
            Move::Last => {
                text.push(&reference[kept..])?;
                return Ok(());
            }
        }
    }
}

/// Appends what stands between two places of a reference.
#[inline(always)]
fn put_between<A: Allocator + Copy>(
    text: &mut TextBuffer<A>,
    reference: &str,
    from: usize,
    to: usize,
) -> Result<(), AllocError>
    requires order { from ≤ to }
    requires from { IsCharBoundary reference.now from }
    requires to { IsCharBoundary reference.now to }
    ensures { OnOk result (text.new ≡ text.old ++ slice_range reference.now from to) }
{
    if from < to {
        text.push(&reference[from..to])
    } else {
        Ok(())
    }
}

/// How many bytes there are up to the directory above that in which the text ends. The root has none above it.
#[inline(always)]
fn above(text: &[u8], root: usize) -> usize
    requires { IsDirectory root text.now }
    ensures within { result ≤ length text.now }
    ensures text { take result text.now ≡ front_at root text.now ++ (parent (path_at root text.now) ++ 47 ∷ []) }
{
    if text.len() > root {
        root + directory_len(&text[root..text.len() - 1])
    } else {
        root
    }
}

/// The move of the segment at a place.
#[inline(always)]
fn move_at(bytes: &[u8], at: usize) -> Move
    requires { at ≤ length bytes.now }
    ensures { IsMove bytes.now at result }
{
    if at < bytes.len() && bytes[at] == b'.' {
        move_at_dot(bytes, at)
    } else {
        move_at_name(bytes, at)
    }
}

#[inline(always)]
fn move_at_dot(bytes: &[u8], at: usize) -> Move
    requires within { at < length bytes.now }
    requires dot { get_or bytes.now at 0 ≡ 46 }
    ensures { IsMove bytes.now at result }
{
    if ends_at(bytes, at + 1) {
        return Move::Here(at + 1);
    }
    match bytes[at + 1] {
        b'/' => Move::Here(at + 2),
        b'.' => move_at_dots(bytes, at),
        _ => move_at_name(bytes, at),
    }
}

#[inline(always)]
fn move_at_dots(bytes: &[u8], at: usize) -> Move
    requires within { at + 1 < length bytes.now }
    requires dot { get_or bytes.now at 0 ≡ 46 }
    requires next { get_or bytes.now (at + 1) 0 ≡ 46 }
    ensures { IsMove bytes.now at result }
{
    if ends_at(bytes, at + 2) {
        return Move::Up(at + 2);
    }
    if bytes[at + 2] == b'/' {
        Move::Up(at + 3)
    } else {
        move_at_name(bytes, at)
    }
}

/// The move of a segment that is neither `.` nor `..`.
fn move_at_name(bytes: &[u8], from: usize) -> Move
    requires within { from ≤ length bytes.now }
    requires name { fits_D (before 47 (path_in (drop from bytes.now))) ≡ false }
    ensures { IsMove bytes.now from result }
{
    let mut at = from;
    while !ends_at(bytes, at) {
        if bytes[at] == b'/' {
            return Move::Into(at + 1);
        }
        at += 1;
    }
    Move::Last
}

/// Whether a path ends at a place.
#[inline(always)]
pub(crate) fn ends_at(bytes: &[u8], at: usize) -> bool
    requires { at ≤ length bytes.now }
    ensures { MatchBool result (path_in (drop at bytes.now) ≡ []) (IsInPath bytes.now at) }
{
    at == bytes.len() || bytes[at] == b'?' || bytes[at] == b'#'
}
