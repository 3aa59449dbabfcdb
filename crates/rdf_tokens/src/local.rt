// Local parts of names that go on after a run of letters, digits, `_` and `-`.

ghost use Rattle.std.specs.Prelude.{◌≡◌, ◌+◌, ◌<◌, ◌≤◌, length, IfSome};
ghost use Rattle.rdf_terms.specs.Runs.{IsRun, is_name_byte};
ghost use Rattle.rdf_tokens.specs.declared.states.machine.State.TheVariants.{Name};
ghost use Rattle.rdf_tokens.specs.declared.states.name.Name.TheVariants as name;
ghost use Rattle.rdf_tokens.specs.Local.{BeginsLocal, LeadsIn, RestsInLocal, begins_three, begins_two, is_escape};
ghost use Rattle.rdf_tokens.specs.Local.{is_hex_at, is_percent, letter_len};

use crate::quick::stands_at;
use rdf_terms::is_local_escape;
use rdf_terms::runs::{Run, run_end};

/// The place after what a local part begins with: the run that stands there up to a place and does not begin with
/// `-`, or where there is none, a letter of another script, a colon or an escape, and the run after it.
#[inline(always)]
pub(crate) fn front_end(bytes: &[u8], local: usize, end: usize) -> Option<usize>
    requires { IsRun is_name_byte bytes.now local end }
    ensures { IfSome result (λ front. LeadsIn (Name name.Colon) bytes.now local front) }
{
    if local == end {
        return part_end(bytes, local);
    }
    if bytes[local] == b'-' {
        return None;
    }
    Some(end)
}

/// The place after the parts of a local part that stand from a place within it on.
#[inline(always)]
pub(crate) fn local_end(bytes: &[u8], from: usize) -> usize
    requires { from ≤ length bytes.now }
    ensures { RestsInLocal bytes.now from result }
{
    let mut at = from;
    while let Some(next) = onward_end(bytes, at) {
        at = next;
    }
    at
}

/// The place after what stands at a place within a local part and the run after it: a dot, which has one, or a
/// letter of another script, a colon or an escape.
#[inline(always)]
fn onward_end(bytes: &[u8], at: usize) -> Option<usize>
    requires { at ≤ length bytes.now }
    ensures rests { IfSome result (λ end. RestsInLocal bytes.now at end) }
    ensures on { IfSome result (λ end. at < end) }
{
    if stands_at(b'.', bytes, at) {
        let end = run_end(Run::Name, bytes, at + 1);
        return if end > at + 1 { Some(end) } else { None };
    }
    part_end(bytes, at)
}

/// The place after the letter of another script, the colon or the escape at a place, and the run after it.
#[inline(always)]
fn part_end(bytes: &[u8], at: usize) -> Option<usize>
    requires { at ≤ length bytes.now }
    ensures { IfSome result (λ end. BeginsLocal bytes.now at end) }
{
    let end = symbol_end(bytes, at)?;
    Some(near_end(bytes, end))
}

/// The place after the run at a place. None is looked for where a character comes that is not of ASCII.
#[inline(always)]
fn near_end(bytes: &[u8], from: usize) -> usize
    requires { from ≤ length bytes.now }
    ensures { IsRun is_name_byte bytes.now from result }
{
    if from < bytes.len() && bytes[from] >= 128 {
        return from;
    }
    run_end(Run::Name, bytes, from)
}

/// The place after the letters of other scripts, the colon or the escape at a place.
#[inline(always)]
fn symbol_end(bytes: &[u8], at: usize) -> Option<usize>
    requires { at ≤ length bytes.now }
    ensures { IfSome result (λ end. BeginsLocal bytes.now at end) }
{
    if at < bytes.len() && bytes[at] >= 128 {
        return letters_end(bytes, at);
    }
    if stands_at(b':', bytes, at) {
        return Some(at + 1);
    }
    if is_percent(bytes, at) {
        return Some(at + 3);
    }
    if is_escape(bytes, at) {
        return Some(at + 2);
    }
    None
}

/// The place after the letter that stands at a place, where its first two bytes tell, and after such letters that
/// follow it.
#[inline(always)]
fn letters_end(bytes: &[u8], at: usize) -> Option<usize>
    requires { at ≤ length bytes.now }
    ensures { IfSome result (λ end. BeginsLocal bytes.now at end) }
{
    let len = letter_len(bytes, at);
    if len == 0 {
        return None;
    }
    Some(more_letters_end(bytes, at + len))
}

/// The place after the letters that stand in a row from a place on.
#[inline(always)]
fn more_letters_end(bytes: &[u8], from: usize) -> usize
    requires { from ≤ length bytes.now }
    ensures { RestsInLocal bytes.now from result }
{
    let mut at = from;
    let mut len = letter_len(bytes, at);
    while len > 0 {
        at += len;
        len = letter_len(bytes, at);
    }
    at
}

/// How many bytes the letter has that stands at a place, where its first two bytes tell; 0 where they don't.
#[inline(always)]
fn letter_len(bytes: &[u8], at: usize) -> usize
    requires { at ≤ length bytes.now }
    ensures { result ≡ letter_len bytes.now at }
{
    if at + 1 >= bytes.len() {
        return 0;
    }
    let first = bytes[at];
    let second = bytes[at + 1];
    if begins_two(first, second) {
        return 2;
    }
    if at + 2 < bytes.len() && begins_three(first, second) {
        return 3;
    }
    0
}

/// Whether these are the bytes of a letter of Latin, Greek, Cyrillic or another script of the first 2,048 characters.
#[inline(always)]
fn begins_two(first: u8, second: u8) -> bool
    ensures { result ≡ begins_two first second }
{
    first == 0xC3 && second != 0x97 && second != 0xB7 || matches!(first, 0xC4..=0xCB | 0xCE..=0xDF)
}

/// Whether a letter of three bytes begins with these.
#[inline(always)]
fn begins_three(first: u8, second: u8) -> bool
    ensures { result ≡ begins_three first second }
{
    first == 0xE3 && second != 0x80
        || first == 0xED && second < 0xA0
        || matches!(first, 0xE0..=0xE1 | 0xE4..=0xEC)
}

/// Whether a `%` and two hex digits stand at a place.
#[inline(always)]
fn is_percent(bytes: &[u8], at: usize) -> bool
    requires { at ≤ length bytes.now }
    ensures { result ≡ is_percent bytes.now at }
{
    stands_at(b'%', bytes, at) && is_hex_at(bytes, at + 1) && is_hex_at(bytes, at + 2)
}

#[inline(always)]
fn is_hex_at(bytes: &[u8], at: usize) -> bool
    ensures { result ≡ is_hex_at bytes.now at }
{
    at < bytes.len() && bytes[at].is_ascii_hexdigit()
}

/// Whether a backslash and a character that it escapes in names stand at a place.
#[inline(always)]
fn is_escape(bytes: &[u8], at: usize) -> bool
    requires { at ≤ length bytes.now }
    ensures { result ≡ is_escape bytes.now at }
{
    stands_at(b'\\', bytes, at) && at + 1 < bytes.len() && is_local_escape(bytes[at + 1] as char)
}
