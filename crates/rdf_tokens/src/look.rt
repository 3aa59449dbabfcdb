// The decision what stands at a place, from the text that has come.

ghost use Rattle.std.specs.Str.{chars};
ghost use Rattle.std.specs.Prelude.{◌≡◌, ◌||◌};
ghost use Rattle.rdf_tokens.specs.Tokens.{is_empty};
ghost use Rattle.rdf_tokens.specs.Walk.{Walked};
ghost use Rattle.rdf_tokens.specs.NoNames.{HasNoNames};
ghost use Rattle.rdf_tokens.specs.Look.{tail_after, IsLookWithin, IsFirstLook, CutsAt, decided_by};

use crate::front::{NoNames, Walk, front_of};
use crate::iris::iri_len;
use crate::over::is_over;
use crate::quick::{ByNext, quick_front};
use crate::strings::string_len;
use rdf_terms::{Dialect, Kind, Reason, is_fit};

/// What comes after a text.
#[derive(Clone, Copy)]
pub(crate) enum Tail {
    /// More may come.
    GoesOn,
    /// Nothing.
    Ended,
    /// Bytes that begin no character.
    Broken,
}

/// What stands at a place.
#[derive(Clone, Copy, PartialEq, Eq, Debug)]
pub(crate) enum Look {
    /// More text decides.
    Undecided,
    /// The text ends here.
    Complete,
    /// No token, for this reason.
    Stop(Reason),
    /// A token of so many bytes.
    Token(usize, Kind),
}

/// What stands at the front of a text, from which white space and comments have been taken off, where that is
/// settled whatever comes after it: by the first bytes, or since a token is too long.
#[inline(always)]
pub(crate) fn first_look(
    dialect: Dialect,
    text: &str,
    limit: u64,
    walk: &mut Option<Walk>,
    no_names: &Option<NoNames>,
) -> Option<Look>
    requires walked { Walked dialect text.now walk.old }
    requires no_names { HasNoNames dialect text.now no_names.now }
    ensures look { IsFirstLook dialect limit result text.now }
    ensures walked { Walked dialect text.now walk.new }
{
    if is_over(dialect, text, limit, walk, no_names) {
        return Some(Look::Stop(Reason::TokenTooLong));
    }
    if walk.is_none() {
        let quick = quick_front::<ByNext>(dialect, text, no_names);
        if let Some(kind) = quick.kind {
            return Some(Look::Token(quick.len, kind));
        }
    }
    None
}

/// The same of a text within the limit: a string as far as it can be read, and what else there is by the states.
/// What is kept of its token is not looked at again, and what was seen of it is kept.
pub(crate) fn look_at(
    dialect: Dialect,
    text: &str,
    tail: Tail,
    walk: &mut Option<Walk>,
    no_names: &mut Option<NoNames>,
) -> Look
    requires walked { Walked dialect text.now walk.old }
    requires no_names { HasNoNames dialect text.now no_names.old }
    ensures look { IsLookWithin dialect (tail_after tail) result (chars text.now) }
    ensures walked { Walked dialect text.now walk.new }
    ensures no_names { HasNoNames dialect text.now no_names.new }
{
    if let Some(len) = string_len(dialect, text, walk) {
        return Look::Token(len, Kind::ShortString);
    }
    if let Some(len) = iri_len(dialect, text, walk) {
        return Look::Token(len, Kind::IriRef);
    }
    state_look(dialect, text, tail, walk, no_names)
}

/// The same by the states.
fn state_look(
    dialect: Dialect,
    text: &str,
    tail: Tail,
    walk: &mut Option<Walk>,
    no_names: &mut Option<NoNames>,
) -> Look
    requires walked { Walked dialect text.now walk.old }
    requires no_names { HasNoNames dialect text.now no_names.old }
    ensures look { IsLookWithin dialect (tail_after tail) result (chars text.now) }
    ensures walked { Walked dialect text.now walk.new }
    ensures no_names { HasNoNames dialect text.now no_names.new }
{
    let front = front_of(dialect, text, may_grow(tail), walk, no_names);
    let waits = is_open(text, front.live);
    match tail {
        Tail::GoesOn if waits => Look::Undecided,
        Tail::Broken if waits => Look::Stop(Reason::BadUtf8),
        _ => decided(text, front.best),
    }
}

#[inline(always)]
fn may_grow(tail: Tail) -> bool {
    matches!(tail, Tail::GoesOn)
}

fn is_open(text: &str, live: bool) -> bool
    ensures { result ≡ (is_empty text.now || live) }
{
    text.is_empty() || live
}

/// What stands there where nothing that may come changes it.
fn decided(text: &str, best: Option<(usize, Kind)>) -> Look
    requires { CutsAt text.now best }
    ensures { result ≡ decided_by text.now best }
{
    if text.is_empty() {
        return Look::Complete;
    }
    match best {
        Some((len, kind)) if is_fit(kind, &text[..len]) => Look::Token(len, kind),
        Some(_) => Look::Stop(Reason::BadEscape),
        None => Look::Stop(Reason::NoToken),
    }
}
