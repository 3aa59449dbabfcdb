// Removal of dot segments (RFC 3986, section 5.2.4), in place.

ghost use Rattle.std.specs.Prelude.{◌≡◌, ◌≤◌, ◌<◌, ℕ, List, length, take};
ghost use Rattle.rdf_iri.specs.Dots.{walk, step, fits_D, remove_dots as dots_removed};
ghost use Rattle.rdf_iri.specs.Rules.{effect, TakesSome};
ghost use Rattle.rdf_iri.specs.Directory.{has_dots};

use crate::places::{begins_with, bytes_before, is_equal, parent_len};

/// What is done at the beginning of a path, by a number of its bytes.
enum Rule {
    /// They are dropped.
    Skip(usize),
    /// They are dropped, and the byte after them becomes a slash.
    Slash(usize),
    /// The same, and the last segment given out is taken back.
    Up(usize),
    /// They are given out.
    Keep(usize),
}

fn rule_at(path: &[u8]) -> Rule
    requires { 0 < length path.now }
    ensures step { (output : List ℕ) → step (walk path.now output) ≡ effect result (walk path.now output) }
    ensures some { TakesSome result (length path.now) }
{
    if begins_with(path, b"../") {
        Rule::Skip(3)
    } else if begins_with(path, b"./") {
        Rule::Skip(2)
    } else if begins_with(path, b"/./") {
        Rule::Slash(2)
    } else if is_equal(path, b"/.") {
        Rule::Slash(1)
    } else if begins_with(path, b"/../") {
        Rule::Up(3)
    } else if is_equal(path, b"/..") {
        Rule::Up(2)
    } else if is_dots(path) {
        Rule::Skip(path.len())
    } else {
        Rule::Keep(1 + bytes_before(&path[1..], b'/'))
    }
}

fn is_dots(path: &[u8]) -> bool
    ensures { result ≡ fits_D path.now }
{
    is_equal(path, b".") || is_equal(path, b"..")
}

/// Takes the dot segments out of a path, and answers how many bytes are left, at its front.
pub(crate) fn remove_dots(path: &mut [u8]) -> usize
    ensures within { result ≤ length path.old }
    ensures path { take result path.new ≡ dots_removed path.old }
{
    let mut read = 0;
    let mut write = 0;
    while read < path.len() {
        match rule_at(&path[read..]) {
            Rule::Skip(n) => read += n,
            Rule::Slash(n) => {
                read += n;
                path[read] = b'/';
            }
            Rule::Up(n) => {
                read += n;
                path[read] = b'/';
                write = parent_len(&path[..write]);
            }
            Rule::Keep(n) => {
                path.copy_within(read..read + n, write);
                read += n;
                write += n;
            }
        }
    }
    write
}

/// Whether a segment of the path is `.` or `..`.
pub(crate) fn has_dots(path: &[u8]) -> bool
    ensures { result ≡ has_dots path.now }
{
    let mut rest = path;
    loop {
        let (segment, after) = rest.split_at(bytes_before(rest, b'/'));
        if is_dots(segment) {
            return true;
        }
        match after.split_first() {
            Some((_, next)) => rest = next,
            None => return false,
        }
    }
}
