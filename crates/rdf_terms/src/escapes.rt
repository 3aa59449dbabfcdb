// What follows the backslash of an escape: the letters of ECHAR, and UCHAR, its digits four at a time.

ghost use Rattle.std.specs.Prelude.{◌≡◌, ◌≤◌, ◌<◌, ◌+◌, true, IfSome, SomeIff, length, take, drop, option_map};
ghost use Rattle.rdf_terms.specs.Classes.{has, scalar};
ghost use Rattle.rdf_terms.specs.Classes.Class.{hex_digit};
ghost use Rattle.rdf_terms.specs.Pieces.{hex_number};
ghost use Rattle.rdf_terms.specs.Runs.{PassBetween};
ghost use Rattle.rdf_terms.specs.Escapes.{begins, completes, digit_or_none, IsUchar, IsUcharOf, UcharAt};
ghost use Rattle.rdf_terms.specs.Values.{letter_move};

/// Stands for a byte that is no hex digit: more than four digits write.
const NONE: u32 = 0x1_0000;

/// What each byte counts as a hex digit.
static DIGITS: [u32; 256] = [
    NONE, NONE, NONE, NONE, NONE, NONE, NONE, NONE, NONE, NONE, NONE, NONE, NONE, NONE, NONE, NONE,
    NONE, NONE, NONE, NONE, NONE, NONE, NONE, NONE, NONE, NONE, NONE, NONE, NONE, NONE, NONE, NONE,
    NONE, NONE, NONE, NONE, NONE, NONE, NONE, NONE, NONE, NONE, NONE, NONE, NONE, NONE, NONE, NONE,
    0, 1, 2, 3, 4, 5, 6, 7, 8, 9, NONE, NONE, NONE, NONE, NONE, NONE, NONE, 10, 11, 12, 13, 14, 15,
    NONE, NONE, NONE, NONE, NONE, NONE, NONE, NONE, NONE, NONE, NONE, NONE, NONE, NONE, NONE, NONE,
    NONE, NONE, NONE, NONE, NONE, NONE, NONE, NONE, NONE, NONE, 10, 11, 12, 13, 14, 15, NONE, NONE,
    NONE, NONE, NONE, NONE, NONE, NONE, NONE, NONE, NONE, NONE, NONE, NONE, NONE, NONE, NONE, NONE,
    NONE, NONE, NONE, NONE, NONE, NONE, NONE, NONE, NONE, NONE, NONE, NONE, NONE, NONE, NONE, NONE,
    NONE, NONE, NONE, NONE, NONE, NONE, NONE, NONE, NONE, NONE, NONE, NONE, NONE, NONE, NONE, NONE,
    NONE, NONE, NONE, NONE, NONE, NONE, NONE, NONE, NONE, NONE, NONE, NONE, NONE, NONE, NONE, NONE,
    NONE, NONE, NONE, NONE, NONE, NONE, NONE, NONE, NONE, NONE, NONE, NONE, NONE, NONE, NONE, NONE,
    NONE, NONE, NONE, NONE, NONE, NONE, NONE, NONE, NONE, NONE, NONE, NONE, NONE, NONE, NONE, NONE,
    NONE, NONE, NONE, NONE, NONE, NONE, NONE, NONE, NONE, NONE, NONE, NONE, NONE, NONE, NONE, NONE,
    NONE, NONE, NONE, NONE, NONE, NONE, NONE, NONE, NONE, NONE, NONE, NONE, NONE, NONE, NONE, NONE,
    NONE, NONE, NONE, NONE, NONE, NONE, NONE, NONE, NONE, NONE, NONE, NONE, NONE, NONE, NONE, NONE,
    NONE, NONE, NONE, NONE, NONE, NONE, NONE,
];

/// The character that each byte means after a backslash, or 0 where it is no letter of ECHAR.
static LETTERS: [u8; 256] = [
    0, 0, 0, 0, 0, 0, 0, 0, 0, 0, 0, 0, 0, 0, 0, 0, 0, 0, 0, 0, 0, 0, 0, 0, 0, 0, 0, 0, 0, 0, 0, 0,
    0, 0, 34, 0, 0, 0, 0, 39, 0, 0, 0, 0, 0, 0, 0, 0, 0, 0, 0, 0, 0, 0, 0, 0, 0, 0, 0, 0, 0, 0, 0,
    0, 0, 0, 0, 0, 0, 0, 0, 0, 0, 0, 0, 0, 0, 0, 0, 0, 0, 0, 0, 0, 0, 0, 0, 0, 0, 0, 0, 0, 92, 0,
    0, 0, 0, 0, 8, 0, 0, 0, 12, 0, 0, 0, 0, 0, 0, 0, 10, 0, 0, 0, 13, 0, 9, 0, 0, 0, 0, 0, 0, 0, 0,
    0, 0, 0, 0, 0, 0, 0, 0, 0, 0, 0, 0, 0, 0, 0, 0, 0, 0, 0, 0, 0, 0, 0, 0, 0, 0, 0, 0, 0, 0, 0, 0,
    0, 0, 0, 0, 0, 0, 0, 0, 0, 0, 0, 0, 0, 0, 0, 0, 0, 0, 0, 0, 0, 0, 0, 0, 0, 0, 0, 0, 0, 0, 0, 0,
    0, 0, 0, 0, 0, 0, 0, 0, 0, 0, 0, 0, 0, 0, 0, 0, 0, 0, 0, 0, 0, 0, 0, 0, 0, 0, 0, 0, 0, 0, 0, 0,
    0, 0, 0, 0, 0, 0, 0, 0, 0, 0, 0, 0, 0, 0, 0, 0, 0, 0, 0, 0, 0, 0, 0, 0, 0, 0, 0, 0, 0, 0, 0, 0,
    0, 0, 0,
];

/// The character of ECHAR that this letter means.
#[inline(always)]
pub fn letter_meaning(letter: u8) -> Option<char>
    ensures is { completes result ≡ letter_move letter }
    ensures character { IfSome result (λ c. scalar c ≡ true) }
{
    let meaning = LETTERS[letter as usize];
    if meaning == 0 {
        None
    } else {
        Some(meaning as char)
    }
}

/// The character that the UCHAR at a byte offset means, and the offset after it (Turtle 6.4). None where no whole one
/// stands there, or its number is that of no character.
#[inline(always)]
pub fn uchar(bytes: &[u8], at: usize) -> Option<(char, usize)>
    requires { at ≤ length bytes.now }
    ensures { UcharAt IsUchar bytes.now at result }
{
    match short_uchar(bytes, at) {
        Some(read) => Some(read),
        None => long_uchar(bytes, at),
    }
}

/// The character of a UCHAR with four digits at a byte offset, and the offset after it, as `uchar` finds them.
#[inline(always)]
pub fn short_uchar(bytes: &[u8], at: usize) -> Option<(char, usize)>
    requires { at ≤ length bytes.now }
    ensures { UcharAt (IsUcharOf 117 4) bytes.now at result }
{
    if !begins(bytes, at, b'u', 6) {
        return None;
    }
    let number = four_digits(bytes, at + 2)?;
    with_end(char::from_u32(number), at + 6)
}

/// The character of a UCHAR with eight digits at a byte offset, and the offset after it, as `uchar` finds them.
#[inline(always)]
pub fn long_uchar(bytes: &[u8], at: usize) -> Option<(char, usize)>
    requires { at ≤ length bytes.now }
    ensures { UcharAt (IsUcharOf 85 8) bytes.now at result }
{
    if !begins(bytes, at, b'U', 10) {
        return None;
    }
    let front = four_digits(bytes, at + 2)?;
    let back = four_digits(bytes, at + 6)?;
    with_end(char::from_u32(NONE * front + back), at + 10)
}

/// Whether a backslash and this letter stand at a place, in so many bytes from there on.
#[inline(always)]
fn begins(bytes: &[u8], at: usize, letter: u8, room: usize) -> bool
    requires within { at ≤ length bytes.now }
    requires two { 2 ≤ room }
    ensures { result ≡ begins bytes.now at letter room }
{
    bytes.len() - at >= room && bytes[at] == b'\\' && bytes[at + 1] == letter
}

/// A character with the place where its escape ends.
#[inline(always)]
fn with_end(meant: Option<char>, end: usize) -> Option<(char, usize)>
    ensures { result ≡ option_map (λ c. (c, end)) meant }
{
    match meant {
        Some(c) => Some((c, end)),
        None => None,
    }
}

/// The number that four bytes write, where they are hex digits.
#[inline(always)]
fn four_digits(bytes: &[u8], at: usize) -> Option<u32>
    requires { at + 4 ≤ length bytes.now }
    ensures is { SomeIff result (PassBetween (has hex_digit) bytes.now at (at + 4)) (hex_number (take 4 (drop at bytes.now))) }
    ensures small { IfSome result (λ n. n < 0x10000) }
{
    let front = 16 * digit(bytes[at]) + digit(bytes[at + 1]);
    let back = 16 * digit(bytes[at + 2]) + digit(bytes[at + 3]);
    let number = 256 * front + back;
    if number < NONE { Some(number) } else { None }
}

/// What a byte counts as a hex digit.
#[inline(always)]
fn digit(byte: u8) -> u32
    ensures value { result ≡ digit_or_none byte }
    ensures small { result ≤ 0x10000 }
{
    DIGITS[byte as usize]
}
