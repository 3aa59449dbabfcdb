// The longest token at the front of a text.

ghost use Rattle.std.specs.Prelude.{◌≡◌, ◌≤◌, ℕ, List, cond, length, get_or};
ghost use Rattle.std.specs.Str.{chars, IsUtf8};
ghost use Rattle.rdf_terms.specs.Shapes.{is_live};
ghost use Rattle.rdf_tokens.specs.Tokens.{three_quotes, only_long, with_length, longest};
ghost use Rattle.rdf_tokens.specs.Front.{HasBegun, Reached, IsLongestByStates, in_bytes, longer_front, state_of};
ghost use Rattle.rdf_tokens.specs.Front.{kind_here, open_state};
ghost use Rattle.rdf_tokens.specs.Walk.{Walked, IsWalk, IsFitFor, IsWithin, counted_bytes, counted_chars, walk_kept};
ghost use Rattle.rdf_tokens.specs.NoNames.{is_prefix_byte, BeginsNoName, HasNoNames};
ghost use Rattle.rdf_terms.specs.Classes.{is_letter};
ghost use Rattle.rdf_terms.specs.Runs.{IsRun};
ghost use Rattle.rdf_tokens.specs.declared.states.machine.State.TheVariants.{Name as name};

use crate::bytes::char_at;
use crate::count::char_count;
use crate::over::states_end;
use crate::states::family::{Family, family_of};
use crate::states::fixed::{fixed_front, is_fixed_live};
use crate::states::iri::Iri;
use crate::states::label::Label;
use crate::states::machine::State;
use crate::states::name::Name;
use crate::states::number::Number;
use crate::states::shape::Shape;
use crate::states::tag::Tag;
use crate::states::text::{Quote, Text};
use rdf_terms::{Dialect, Kind};

/// The number of bytes of the longest escape.
const LONGEST_ESCAPE: usize = 10;

/// What stands at the front of a text.
#[derive(Drop)]
pub(crate) struct Front {
    /// The longest token that the text begins with, its length in bytes.
    pub(crate) best: Option<(usize, Kind)>,
    /// The whole text is the beginning of a longer token.
    pub(crate) live: bool,
}

/// How far the states have come in a token that is open: the state after its bytes so far, and the longest token in
/// them.
#[derive(Clone, Copy)]
pub(crate) struct Walk {
    pub(crate) state: State,
    pub(crate) at: usize,
    /// The first bytes of which the characters are counted, and how many these are. They are counted only where the
    /// limit may be passed.
    pub(crate) counted: usize,
    pub(crate) count: usize,
    len: usize,
    kind: Option<Kind>,
    /// The quote of a string with one at each end, where its bytes so far are plain ones and whole escapes, none of
    /// which is bad.
    pub(crate) fit: Option<Quote>,
}

/// The end of a text within which names were sought and none was found: the bytes after the end, the state after
/// the whole text, of each name that would begin there with a letter of ASCII, and how many bytes the text has more
/// than the states go over characters.
#[derive(Clone, Copy)]
pub(crate) struct NoNames {
    pub(crate) left: usize,
    state: Option<State>,
    pub(crate) out: usize,
}

/// The longest token at the front of a text. The states go on from where they came in the text's first bytes, and
/// where a longer token may come, and more text, it is kept how far they came.
pub(crate) fn front_of(
    dialect: Dialect,
    text: &str,
    more: bool,
    walk: &mut Option<Walk>,
    no_names: &mut Option<NoNames>,
) -> Front
    requires walked { Walked dialect text.now walk.old }
    requires no_names { HasNoNames dialect text.now no_names.old }
    ensures best { result.best ≡ in_bytes (chars text.now)
        (longest dialect (chars text.now) (length (chars text.now))) }
    ensures live { result.live ≡ is_live dialect (chars text.now) }
    ensures walked { Walked dialect text.now walk.new }
    ensures no_names { HasNoNames dialect text.now no_names.new }
{
    let shaped = shaped_front(dialect, text, walk, no_names);
    keep(walk, text, moves_on(text, more, walk), &shaped);
    Front {
        best: longer(
            fixed_front(dialect, text.as_bytes()),
            with_length(shaped.len, shaped.kind),
        ),
        live: shaped.state.is_some() || is_fixed_live(dialect, text.as_bytes()),
    }
}

/// The same for the kinds that have states: the length and the kind of the longest, which a loop keeps in
/// registers, and the state after the whole text where it goes on.
#[derive(Drop)]
struct Shaped {
    len: usize,
    kind: Option<Kind>,
    state: Option<State>,
}

/// The longest front with a kind so far, by its length and its kind; without a kind there is none.
#[derive(Clone, Copy)]
struct Best {
    len: usize,
    kind: Option<Kind>,
}

/// Whether it is kept how far the states come: where more may come. A string that has no bad escape so far, and no more
/// than the beginning of an escape after that, is gone on with before the escape.
fn moves_on(text: &str, more: bool, walk: &Option<Walk>) -> bool
    requires { IsWithin text.now walk.now }
{
    match walk {
        Some(walk) if walk.fit.is_some() => more && text.len() - walk.at >= LONGEST_ESCAPE,
        _ => more,
    }
}

/// Keeps how far the states came where they go on and more text may come. After fewer than three bytes quotes may still
/// turn into those of a long string.
fn keep(walk: &mut Option<Walk>, text: &str, more: bool, shaped: &Shaped)
    ensures { walk.new ≡ cond more (walk_kept walk.old
        (length text.now) shaped.now.len shaped.now.kind shaped.now.state) walk.old }
{
    if !more {
        return;
    }
    if let Some(state) = shaped.state {
        if text.len() >= 3 {
            let (counted, count) = counted_in(walk);
            *walk = Some(Walk {
                state,
                at: text.len(),
                counted,
                count,
                len: shaped.len,
                kind: shaped.kind,
                fit: None,
            });
        }
    }
}

/// Of how many bytes the characters are counted, and how many these are.
fn counted_in(walk: &Option<Walk>) -> (usize, usize)
    ensures bytes { result.0 ≡ counted_bytes walk.now }
    ensures characters { result.1 ≡ counted_chars walk.now }
{
    match walk {
        Some(walk) => (walk.counted, walk.count),
        None => (0, 0),
    }
}

/// How far the states come in a token that goes on at this place, by the state there, after what was kept before. No
/// shorter token stands before it. Of a string with one quote at each end that has no bad escape so far it is kept in
/// which quote it stands.
pub(crate) fn walk_to(before: &Option<Walk>, state: State, at: usize, fit: Option<Quote>) -> Walk
    ensures { (d : Dialect) (bs : List ℕ) → IsUtf8 bs → Walked d bs before.now → counted_bytes before.now ≤ at →
        3 ≤ at →
        Reached d bs at state None → IsFitFor d bs at fit → IsWalk d bs result }
{
    let (counted, count) = counted_in(before);
    Walk {
        state,
        at,
        counted,
        count,
        len: 0,
        kind: None,
        fit,
    }
}

/// The longest token of a kind that has states.
fn shaped_front(
    dialect: Dialect,
    text: &str,
    walk: &Option<Walk>,
    no_names: &mut Option<NoNames>,
) -> Shaped
    requires walked { Walked dialect text.now walk.now }
    requires no_names { HasNoNames dialect text.now no_names.old }
    ensures best { IsLongestByStates dialect text.now result.len result.kind }
    ensures state { result.state ≡ open_state dialect (state_of dialect (chars text.now)) }
    ensures no_names { HasNoNames dialect text.now no_names.new }
{
    match walk {
        Some(walk) => resumed_front(dialect, text, walk),
        None => first_front(dialect, text, no_names),
    }
}

fn resumed_front(dialect: Dialect, text: &str, walk: &Walk) -> Shaped
    requires { IsWalk dialect text.now walk.now }
    ensures best { IsLongestByStates dialect text.now result.len result.kind }
    ensures state { result.state ≡ open_state dialect (state_of dialect (chars text.now)) }
{
    let at = walk.at;
    let best = Best {
        len: walk.len,
        kind: walk.kind,
    };
    match walk.state {
        State::Iri(state) => front_from(dialect, text, at, state, best),
        State::Label(state) => front_from(dialect, text, at, state, best),
        State::Text(state) => front_from(dialect, text, at, state, best),
        State::Tag(state) => front_from(dialect, text, at, state, best),
        State::Number(state) => front_from(dialect, text, at, state, best),
        State::Name(state) => front_from(dialect, text, at, state, best),
        state => front_from(dialect, text, at, state, best),
    }
}

fn first_front(dialect: Dialect, text: &str, no_names: &mut Option<NoNames>) -> Shaped
    requires { HasNoNames dialect text.now no_names.old }
    ensures best { IsLongestByStates dialect text.now result.len result.kind }
    ensures state { result.state ≡ open_state dialect (state_of dialect (chars text.now)) }
    ensures no_names { HasNoNames dialect text.now no_names.new }
{
    if text.is_empty() {
        return Shaped {
            len: 0,
            kind: None,
            state: Some(State::Start),
        };
    }
    let (c, next) = char_at(text, 0);
    let none = Best { len: 0, kind: None };
    match family_of(c) {
        Family::Iri => front_from(dialect, text, next, Iri::Start.step(dialect, c), none),
        Family::Label => front_from(dialect, text, next, Label::Start.step(dialect, c), none),
        Family::Text => front_from(dialect, text, next, Text::Start.step(dialect, c), none),
        Family::Tag => front_from(dialect, text, next, Tag::Start.step(dialect, c), none),
        Family::Number => front_from(dialect, text, next, Number::Start.step(dialect, c), none),
        Family::Name => name_front(dialect, text, Name::Start.step(dialect, c), next, no_names),
        Family::Other => Shaped {
            len: 0,
            kind: None,
            state: None,
        },
    }
}

/// The same where a name begins, by the state after its first character. Where no name was found before, none is
/// sought again.
#[inline(always)]
fn name_front(
    dialect: Dialect,
    text: &str,
    begun: Name,
    first: usize,
    no_names: &mut Option<NoNames>,
) -> Shaped
    requires name { Reached dialect text.now first (name begun)
        (with_length first (kind_here dialect text.now (name begun)) None) }
    requires no_names { HasNoNames dialect text.now no_names.old }
    ensures best { IsLongestByStates dialect text.now result.len result.kind }
    ensures state { result.state ≡ open_state dialect (state_of dialect (chars text.now)) }
    ensures no_names { HasNoNames dialect text.now no_names.new }
{
    if let Some(known) = *no_names {
        if known.left < text.len() && begins_in_letter(text.as_bytes()) {
            return Shaped {
                len: 0,
                kind: None,
                state: known.state,
            };
        }
    }
    let shaped = front_from(dialect, text, first, begun, Best { len: 0, kind: None });
    if shaped.kind.is_none() {
        *no_names = no_names_of(dialect, text, shaped.state);
    }
    shaped
}

/// What is known of names where the text is the beginning of none, and its states lead to this one.
#[cold]
#[inline(never)]
fn no_names_of(dialect: Dialect, text: &str, state: Option<State>) -> Option<NoNames>
    requires { BeginsNoName dialect (chars text.now) state }
    ensures { HasNoNames dialect text.now result }
{
    let bytes = text.as_bytes();
    match dialect {
        Dialect::Turtle if begins_in_letter(bytes) => Some(NoNames {
            left: bytes.len() - prefix_end(bytes),
            state,
            out: bytes.len() - states_end(dialect, text),
        }),
        _ => None,
    }
}

pub(crate) fn begins_in_letter(text: &[u8]) -> bool
    ensures { result ≡ is_letter (get_or text.now 0 0) }
{
    matches!(text, [b'A'..=b'Z' | b'a'..=b'z', ..])
}

/// How many of the first bytes a prefix has, dots too, in ASCII.
fn prefix_end(bytes: &[u8]) -> usize
    ensures { IsRun is_prefix_byte bytes.now 0 result }
{
    let mut at = 0;
    while at < bytes.len() && is_prefix_byte(bytes[at]) {
        at += 1;
    }
    at
}

fn is_prefix_byte(byte: u8) -> bool
    ensures { result ≡ is_prefix_byte byte }
{
    matches!(byte, b'A'..=b'Z' | b'a'..=b'z' | b'0'..=b'9' | b'_' | b'-' | b'.')
}

/// The same where a text's first bytes led to this state, and the longest token before their end is known.
#[inline(never)]
fn front_from<S: Shape>(dialect: Dialect, text: &str, first: usize, begun: S, best: Best) -> Shaped
    requires { HasBegun dialect text.now first (S.whole begun) best.len best.kind }
    ensures best { IsLongestByStates dialect text.now result.len result.kind }
    ensures state { result.state ≡ open_state dialect (state_of dialect (chars text.now)) }
{
    let three = has_three_quotes(dialect, text.as_bytes());
    let mut state = begun;
    let mut at = state.rest_end(text, first);
    let mut len = best.len;
    let mut kind = best.kind;
    if let Some(longer) = only_long_string(three, state.kind()) {
        len = at;
        kind = Some(longer);
    }
    while at < text.len() && state.is_live(dialect) {
        let (c, next) = char_at(text, at);
        state = state.step(dialect, c);
        at = state.rest_end(text, next);
        if let Some(longer) = only_long_string(three, state.kind()) {
            len = at;
            kind = Some(longer);
        }
    }
    Shaped {
        len,
        kind,
        state: open_state(dialect, state),
    }
}

#[inline(always)]
fn open_state<S: Shape>(dialect: Dialect, state: S) -> Option<State>
    ensures { result ≡ open_state dialect (S.whole state) }
{
    if state.is_live(dialect) {
        Some(state.to_state())
    } else {
        None
    }
}

fn has_three_quotes(dialect: Dialect, text: &[u8]) -> bool
    ensures { result ≡ three_quotes dialect text.now }
{
    match dialect {
        Dialect::Lines => false,
        Dialect::Turtle => matches!(text, [b'"', b'"', b'"', ..] | [b'\'', b'\'', b'\'', ..]),
    }
}

fn only_long_string(three: bool, kind: Option<Kind>) -> Option<Kind>
    ensures { result ≡ only_long three kind }
{
    match kind {
        Some(Kind::LongString) => kind,
        _ if three => None,
        _ => kind,
    }
}

fn with_length(len: usize, kind: Option<Kind>) -> Option<(usize, Kind)>
    ensures { result ≡ with_length len kind None }
{
    match kind {
        Some(kind) => Some((len, kind)),
        None => None,
    }
}

/// The longer of two fronts, and the first of two of one length.
pub(crate) fn longer(
    first: Option<(usize, Kind)>,
    second: Option<(usize, Kind)>,
) -> Option<(usize, Kind)>
    ensures { result ≡ longer_front first second }
{
    match (first, second) {
        (Some(one), Some(other)) if one.0 < other.0 => second,
        (Some(_), _) => first,
        (None, _) => second,
    }
}
