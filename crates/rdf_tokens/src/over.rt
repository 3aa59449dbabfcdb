// Tokens of more characters than the limit.

ghost use Rattle.std.specs.Prelude.{◌≡◌, ◌≤◌, ◌<◌, ◌+◌, ◌⊎◌, ℕ, false, List, IsUtf8, length};
ghost use Rattle.std.specs.Str.{chars};
ghost use Rattle.rdf_tokens.specs.Tokens.{over};
ghost use Rattle.rdf_tokens.specs.Over.{shaped_over, HasCome};
ghost use Rattle.rdf_tokens.specs.Walk.{Walked, AreCounted};
ghost use Rattle.rdf_tokens.specs.NoNames.{HasNoNames, Ends, ends_within};
ghost use Rattle.rdf_tokens.specs.Machine.{goes_on};

use crate::bytes::char_at;
use crate::count::char_count;
use crate::front::{NoNames, Walk, begins_in_letter};
use crate::states::fixed::is_fixed_over;
use crate::states::machine::State;
use crate::states::shape::Shape;
use rdf_terms::Dialect;

/// Whether a text has more characters than the limit, and its first `limit + 1` are a token or the beginning of
/// one. The characters over which the states have come are not looked at again.
pub(crate) fn is_over(
    dialect: Dialect,
    text: &str,
    limit: u64,
    walk: &mut Option<Walk>,
    no_names: &Option<NoNames>,
) -> bool
    requires walked { Walked dialect text.now walk.old }
    requires no_names { HasNoNames dialect text.now no_names.now }
    ensures over { result ≡ over dialect limit (chars text.now) }
    ensures walked { Walked dialect text.now walk.new }
{
    if text.len() as u64 <= limit {
        return false;
    }
    let most = limit as usize;
    is_shaped_over(dialect, text, most, walk, no_names)
        || is_fixed_over(dialect, text.as_bytes(), most)
}

/// The same by the states, which go on from where they came. Where it is known that they end within the limit, they
/// are not asked.
fn is_shaped_over(
    dialect: Dialect,
    text: &str,
    limit: usize,
    walk: &mut Option<Walk>,
    no_names: &Option<NoNames>,
) -> bool
    requires long { limit < length text.now }
    requires walked { Walked dialect text.now walk.old }
    requires no_names { HasNoNames dialect text.now no_names.now }
    ensures over { result ≡ shaped_over dialect limit (chars text.now) }
    ensures walked { Walked dialect text.now walk.new }
{
    if ends_within(text.as_bytes(), limit, no_names) {
        return false;
    }
    count_up(dialect, text, walk);
    is_over_from(dialect, text, limit, resumed(walk, limit))
}

/// Counts the characters over which the states have come, but for those that were counted before.
fn count_up(dialect: Dialect, text: &str, walk: &mut Option<Walk>)
    requires { Walked dialect text.now walk.old }
    ensures walked { Walked dialect text.now walk.new }
    ensures all { AreCounted walk.new }
{
    if let Some(known) = *walk {
        let mut known = known;
        known.count += char_count(&text[known.counted..known.at]);
        known.counted = known.at;
        *walk = Some(known);
    }
}

/// Whether no name begins with the letter at the front, and the states are known to end within so many characters.
fn ends_within(bytes: &[u8], limit: usize, no_names: &Option<NoNames>) -> bool
    requires { limit < length bytes.now }
    ensures { result ≡ ends_within limit bytes.now no_names.now }
{
    match no_names {
        Some(known) => {
            known.left < bytes.len() && bytes.len() - limit <= known.out && begins_in_letter(bytes)
        }
        None => false,
    }
}

/// Whether the states go further than the limit, from where they came.
fn is_over_from(dialect: Dialect, text: &str, limit: usize, begun: Begun) -> bool
    requires came { HasCome dialect text.now begun }
    requires few { begun.count ≤ limit }
    ensures { result ≡ shaped_over dialect limit (chars text.now) }
{
    let end = walk_on(dialect, text, limit, begun);
    end.count > limit && (end.state.kind().is_some() || end.state.is_live(dialect))
}

/// How many characters the states go over before they end, or the text does.
pub(crate) fn states_end(dialect: Dialect, text: &str) -> usize
    ensures end { Ends dialect (chars text.now) result }
    ensures few { result ≤ length text.now }
{
    let begun = Begun {
        state: State::Start,
        at: 0,
        count: 0,
    };
    walk_on(dialect, text, text.len(), begun).count
}

/// The states go on up to the limit and one character more, as long as they are live and the text lasts.
fn walk_on(dialect: Dialect, text: &str, limit: usize, begun: Begun) -> Begun
    requires came { HasCome dialect text.now begun }
    requires few { begun.count ≤ limit }
    ensures came { HasCome dialect text.now result }
    ensures few { result.count ≤ limit + 1 }
    ensures stop { (limit < result.count) ⊎ ((length text.now ≤ result.at) ⊎ (goes_on dialect result.state ≡ false)) }
{
    let mut state = begun.state;
    let mut at = begun.at;
    let mut count = begun.count;
    while count <= limit && at < text.len() && state.is_live(dialect) {
        let (c, next) = char_at(text, at);
        state = state.step(dialect, c);
        at = next;
        count += 1;
    }
    Begun { state, at, count }
}

/// A state, and how many bytes and characters led to it.
#[derive(Clone, Copy)]
struct Begun {
    state: State,
    at: usize,
    count: usize,
}

/// How far the states have come, if it is no further than the limit.
fn resumed(walk: &Option<Walk>, limit: usize) -> Begun
    ensures came { (d : Dialect) (bs : List ℕ) → IsUtf8 bs → Walked d bs walk.now → AreCounted walk.now →
        HasCome d bs result }
    ensures few { result.count ≤ limit }
{
    match walk {
        Some(walk) if walk.count <= limit => Begun {
            state: walk.state,
            at: walk.at,
            count: walk.count,
        },
        _ => Begun {
            state: State::Start,
            at: 0,
            count: 0,
        },
    }
}
