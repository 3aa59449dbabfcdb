// White space and comments.

ghost use Rattle.std.specs.Prelude.{◌≡◌, ◌==◌, ◌<◌, ◌≤◌, true, false, cond, length, take, count_by};
ghost use Rattle.std.specs.Str.{chars};
ghost use Rattle.rdf_tokens.specs.Tokens.{blank, is_line_end as ends_line, is_space as spaces};
ghost use Rattle.rdf_tokens.specs.Blank.{comment_step, comment_after, goes_on, is_bare, is_cut, is_hash, IsIndentation};
ghost use Rattle.rdf_terms.specs.Runs.{IsRun, is_comment_byte};
ghost use Rattle.rdf_tokens.specs.Front.{bytes_of};
ghost use Rattle.rdf_terms.specs.declared.kind.Dialect.{Dialect};
ghost use Rattle.rdf_terms.specs.declared.kind.Dialect.TheVariants.{Turtle};

use crate::quick::stands_at;
use memchr::memchr2;
use rdf_terms::Dialect;
use rdf_terms::runs::{Run, run_end};

/// The white space and the comments at the front of a text.
#[derive(Clone, Copy)]
pub(crate) struct Blank {
    /// How many bytes they have.
    pub(crate) len: usize,
    /// They are the whole text, and a comment goes on after it.
    pub(crate) in_comment: bool,
}

/// White space that begins with a line feed.
#[derive(Clone, Copy)]
pub(crate) struct Indentation {
    /// How many bytes it has.
    pub(crate) len: usize,
    /// How many line feeds are among them.
    pub(crate) feeds: usize,
}

/// The white space and the comments at the front of a text that may begin in a comment.
#[inline(always)]
pub(crate) fn blank_run(dialect: Dialect, in_comment: bool, text: &str) -> Blank
    ensures len { result.len ≡ bytes_of (blank dialect in_comment (chars text.now)) (chars text.now) }
    ensures comment { result.in_comment ≡ comment_after dialect in_comment (chars text.now) }
{
    blank_bytes(dialect, in_comment, text.as_bytes())
}

/// A comment and the white space after it at a time. A byte from 128 on stands in a comment as it is, and is no
/// white space.
#[inline(always)]
fn blank_bytes(dialect: Dialect, in_comment: bool, bytes: &[u8]) -> Blank
    ensures len { result.len ≡ blank dialect in_comment bytes.now }
    ensures comment { result.in_comment ≡ comment_after dialect in_comment bytes.now }
{
    let mut at = 0;
    let mut comment = in_comment;
    'parts: loop {
        let end = comment_end(comment, bytes, at);
        if is_cut(comment, bytes, end) {
            return Blank {
                len: end,
                in_comment: true,
            };
        }
        at = white_end(dialect, bytes, end);
        if !is_hash(bytes, at) {
            return Blank {
                len: at,
                in_comment: false,
            };
        }
        comment = true;
    }
}

/// Where the comment ends that is open at a place; the place, where none is.
#[inline(always)]
fn comment_end(in_comment: bool, bytes: &[u8], from: usize) -> usize
    requires { from ≤ length bytes.now }
    ensures { IsRun (goes_on in_comment) bytes.now from result }
{
    if in_comment {
        run_end(Run::Comment, bytes, from)
    } else {
        from
    }
}

/// Whether a comment goes on after the text.
#[inline(always)]
fn is_cut(in_comment: bool, bytes: &[u8], end: usize) -> bool
    ensures { result ≡ is_cut in_comment bytes.now end }
{
    in_comment && end == bytes.len()
}

/// Where the white space from a place on ends.
#[inline(always)]
fn white_end(dialect: Dialect, bytes: &[u8], from: usize) -> usize
    requires { from ≤ length bytes.now }
    ensures { IsRun (spaces dialect) bytes.now from result }
{
    match dialect {
        Dialect::Lines => run_end(Run::Spaces, bytes, from),
        Dialect::Turtle => run_end(Run::White, bytes, from),
    }
}

/// Whether a comment begins at a place.
#[inline(always)]
fn is_hash(bytes: &[u8], at: usize) -> bool
    ensures { result ≡ is_hash bytes.now at }
{
    at < bytes.len() && bytes[at] == b'#'
}

/// Whether an open comment goes over a whole text. Then it has no line feed.
pub(crate) fn is_in_comment(text: &str) -> bool
    ensures len { (dialect : Dialect) → result ≡ true →
        bytes_of (blank dialect true (chars text.now)) (chars text.now) ≡ length text.now }
    ensures comment { (dialect : Dialect) → result ≡ true → comment_after dialect true (chars text.now) ≡ true }
    ensures feeds { (dialect : Dialect) → result ≡ true →
        count_by (λ c. c == 10) (take (blank dialect true (chars text.now)) (chars text.now)) ≡ 0 }
{
    has_no_line_end(text.as_bytes())
}

fn has_no_line_end(bytes: &[u8]) -> bool
    ensures { result ≡ true → IsRun is_comment_byte bytes.now 0 (length bytes.now) }
{
    memchr2(b'\n', b'\r', bytes).is_none()
}

/// Whether this byte of white space stands before a character that is neither white space nor the beginning of a
/// comment.
#[inline(always)]
pub(crate) fn is_one(white: u8, dialect: Dialect, text: &str) -> bool
    requires { spaces dialect white ≡ true }
    ensures len { result ≡ true → bytes_of (blank dialect false (chars text.now)) (chars text.now) ≡ 1 }
    ensures comment { result ≡ true → comment_after dialect false (chars text.now) ≡ false }
    ensures feeds { result ≡ true → count_by (λ c. c == 10)
        (take (blank dialect false (chars text.now)) (chars text.now)) ≡ cond (white == 10) 1 0 }
{
    is_one_byte(white, dialect, text.as_bytes())
}

#[inline(always)]
fn is_one_byte(white: u8, dialect: Dialect, bytes: &[u8]) -> bool
    requires { spaces dialect white ≡ true }
    ensures len { result ≡ true → blank dialect false bytes.now ≡ 1 }
    ensures comment { result ≡ true → comment_after dialect false bytes.now ≡ false }
    ensures feeds { result ≡ true → count_by (λ b. b == 10) (take 1 bytes.now) ≡ cond (white == 10) 1 0 }
{
    match bytes {
        [first, next, ..] => *first == white && comment_step(dialect, false, *next).is_none(),
        _ => false,
    }
}

/// The white space at the front of a text of Turtle that is one line feed or two, and spaces and tabs after them,
/// where neither more white space nor a comment comes then. Else it has no bytes.
pub(crate) fn indented(text: &str) -> Indentation
    ensures len { 0 < result.len → bytes_of (blank Turtle false (chars text.now)) (chars text.now) ≡ result.len }
    ensures comment { 0 < result.len → comment_after Turtle false (chars text.now) ≡ false }
    ensures feeds { 0 < result.len → count_by (λ c. c == 10)
        (take (blank Turtle false (chars text.now)) (chars text.now)) ≡ result.feeds }
{
    indented_bytes(text.as_bytes())
}

#[inline(always)]
fn indented_bytes(bytes: &[u8]) -> Indentation
    ensures { IsIndentation bytes.now result.len result.feeds }
{
    let len = indented_len(bytes);
    if len > 0 {
        return Indentation { len, feeds: 1 };
    }
    Indentation {
        len: empty_line_len(bytes),
        feeds: 2,
    }
}

/// How many bytes a line feed has with the spaces and tabs after it.
#[inline(always)]
fn indented_len(bytes: &[u8]) -> usize
    ensures white { IsIndentation bytes.now result 1 }
    ensures within { result ≤ length bytes.now }
{
    if !stands_at(b'\n', bytes, 0) {
        return 0;
    }
    let end = run_end(Run::Spaces, bytes, 1);
    if is_bare(bytes, end) { end } else { 0 }
}

/// How many bytes it has after another line feed, which comes first, with that.
#[inline(always)]
fn empty_line_len(bytes: &[u8]) -> usize
    ensures { IsIndentation bytes.now result 2 }
{
    if !stands_at(b'\n', bytes, 0) {
        return 0;
    }
    match indented_len(&bytes[1..]) {
        0 => 0,
        len => len + 1,
    }
}

/// Whether at a place there is neither white space of Turtle nor the beginning of a comment, but some other byte.
#[inline(always)]
pub(crate) fn is_bare(bytes: &[u8], at: usize) -> bool
    ensures { result ≡ is_bare bytes.now at }
{
    at < bytes.len() && comment_step(Dialect::Turtle, false, bytes[at]).is_none()
}

/// Whether a comment is open after a byte; None where the byte is neither white space nor in a comment.
fn comment_step(dialect: Dialect, in_comment: bool, byte: u8) -> Option<bool>
    ensures { result ≡ comment_step dialect in_comment byte }
{
    if in_comment && !is_line_end(byte) {
        Some(true)
    } else if is_space(dialect, byte) {
        Some(false)
    } else if !in_comment && byte == b'#' {
        Some(true)
    } else {
        None
    }
}

fn is_line_end(byte: u8) -> bool
    ensures { result ≡ ends_line byte }
{
    byte == b'\n' || byte == b'\r'
}

fn is_space(dialect: Dialect, byte: u8) -> bool
    ensures { result ≡ spaces dialect byte }
{
    match dialect {
        Dialect::Lines => byte == b' ' || byte == b'\t',
        Dialect::Turtle => byte == b' ' || byte == b'\t' || is_line_end(byte),
    }
}
