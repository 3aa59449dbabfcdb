// The five parts of a reference.

ghost use Rattle.std.specs.Prelude.{◌≡◌, ◌<◌, cond, ◌∷◌, [], drop};
ghost use Rattle.std.specs.Str.{chars};
ghost use Rattle.rdf_iri.specs.Parts.{Parts as Pieces, Splits, parts_of, fragment_parts};
ghost use Rattle.rdf_iri.specs.Seen.{seen, slices, text_of};
ghost use Rattle.rdf_iri.specs.Texts.{before, after, from, begins};

use crate::places::{begins_with, bytes_before};
use rdf_terms::has_scheme;

/// The parts of a reference (RFC 3986, section 3), without the characters that delimit them.
/// A part that is there may be empty.
#[derive(Clone, Copy)]
pub struct Parts<'a> {
    /// What stands before the first `:`, where that is a scheme.
    pub scheme: Option<&'a str>,
    /// What stands after `//`.
    pub authority: Option<&'a str>,
    /// The path, with its slashes.
    pub path: &'a str,
    /// What stands after `?`.
    pub query: Option<&'a str>,
    /// What stands after `#`.
    pub fragment: Option<&'a str>,
}

/// The only parts that split the text.
pub fn split(text: &str) -> Parts<'_>
    ensures splits { Splits (chars text.now) (seen result) }
    ensures only { (p : Pieces) → Splits (chars text.now) p → p ≡ seen result }
{
    cut_parts(text)
}

/// The same over bytes.
pub(crate) fn cut_parts(text: &str) -> Parts<'_>
    ensures { slices result ≡ parts_of text.now }
{
    let (scheme, rest) = cut_scheme(text);
    let (rest, fragment) = cut(rest, '#');
    let (rest, query) = cut(rest, '?');
    let (authority, path) = cut_authority(rest);
    Parts {
        scheme,
        authority,
        path,
        query,
        fragment,
    }
}

fn cut_scheme(text: &str) -> (Option<&str>, &str)
    ensures { fragment_parts (text_of result.0) result.1.now ≡ parts_of text.now }
{
    if !has_scheme(text) {
        return (None, text);
    }
    let (front, after_colon) = cut(text, ':');
    match after_colon {
        Some(rest) => (Some(front), rest),
        None => (None, text),
    }
}

fn cut_authority(text: &str) -> (Option<&str>, &str)
    ensures authority { text_of result.0 ≡ cond (begins (47 ∷ 47 ∷ []) text.now)
        (Some (before 47 (drop 2 text.now))) None }
    ensures path { result.1.now ≡ cond (begins (47 ∷ 47 ∷ []) text.now) (from 47 (drop 2 text.now)) text.now }
{
    if !begins_with(text.as_bytes(), b"//") {
        return (None, text);
    }
    let rest = &text[2..];
    let (authority, path) = rest.split_at(bytes_before(rest.as_bytes(), b'/'));
    (Some(authority), path)
}

/// What stands before the first mark, and what stands after it.
pub(crate) fn cut(text: &str, mark: char) -> (&str, Option<&str>)
    requires { mark < 128 }
    ensures front { result.0.now ≡ before mark text.now }
    ensures rest { text_of result.1 ≡ after mark text.now }
{
    match text.split_once(mark) {
        Some((front, rest)) => (front, Some(rest)),
        None => (text, None),
    }
}
