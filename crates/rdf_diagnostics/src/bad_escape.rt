// Where the first escape of a token begins that stands for no character.

ghost use Rattle.std.specs.Prelude.{◌≡◌, ◌<◌, ◌+◌, ◌^◌, ◌==◌, length};
ghost use Rattle.std.specs.Str.{chars};
ghost use Rattle.std.specs.Option.{MatchOption, unwrap_or};
ghost use Rattle.rdf_terms.specs.declared.kind.Dialect.{Dialect};
ghost use Rattle.rdf_terms.specs.Values.{EscapeState, digit_move, echar_move, allowed, move, outside};
ghost use Rattle.rdf_tokens.specs.Laws.{IsUnfit};
ghost use Rattle.rdf_diagnostics.specs.BadEscapes.{HasBadEscape};
ghost use Rattle.rdf_diagnostics.specs.EscapeWalks.{IsInRoom, IsStepInRoom, begun_at, inside_of, room, stand_of};
ghost use Rattle.rdf_diagnostics.specs.EscapeWalks.{step_for, stop_from};

use rdf_terms::{hex_value, is_iri_char};

/// How many bytes of a token stand before its first escape that stands for no character, or for one that an IRI
/// excludes. The token begins the text, and more may follow it. Nothing is known of other texts.
pub(crate) fn bad_escape_in(text: &str) -> Option<u64>
    ensures { (d : Dialect) → IsUnfit d (chars text.now) →
        MatchOption result ⊥ (λ n. HasBadEscape d (chars text.now) n) }
{
    let mut rest = text.chars();
    let is_iri = opens_iri(rest.next());
    bytes_before(is_iri, rest.as_str(), 1)
}

fn opens_iri(first: Option<char>) -> bool
    ensures { result ≡ (unwrap_or first 0 == 60) }
{
    match first {
        Some(c) => c == '<',
        None => false,
    }
}

// How far an escape has come: it has not begun, its backslash has come, or so many digits are still to come, with
// the number so far.
#[derive(Clone, Copy)]
enum Stand {
    Outside,
    Slash,
    Digits(u32, u32),
}

// What the next character does: it leads on within an escape, it completes a character, or it can't stand there.
#[derive(Clone, Copy)]
enum Step {
    Leads(Stand),
    Means,
    Fails,
}

// How many bytes stand before the first escape that stands for no character, or before a character that may not
// stand there, with so many in front of the text.
fn bytes_before(is_iri: bool, text: &str, first: u64) -> Option<u64>
    requires { first + length text.now < 2 ^ 64 }
    ensures { result ≡ stop_from (inside_of is_iri) outside 0 first (chars text.now) }
{
    let mut stand = Stand::Outside;
    let mut begun = 0;
    let mut now = first;
    for c in text.chars() {
        begun = begun_at(stand, begun, now);
        match moved(is_iri, stand, c) {
            Step::Leads(next) => stand = next,
            Step::Means => stand = Stand::Outside,
            Step::Fails => return Some(begun),
        }
        now += c.len_utf8() as u64;
    }
    None
}

fn begun_at(stand: Stand, begun: u64, now: u64) -> u64
    ensures { result ≡ begun_at (stand_of stand) begun now }
{
    match stand {
        Stand::Outside => now,
        _ => begun,
    }
}

fn moved(is_iri: bool, stand: Stand, c: char) -> Step
    requires { IsInRoom stand }
    ensures is { result ≡ step_for (move (inside_of is_iri) (stand_of stand) c) }
    ensures room { IsStepInRoom result }
{
    match stand {
        Stand::Outside => from_outside(is_iri, c),
        Stand::Slash => after_slash(is_iri, c),
        Stand::Digits(left, number) => digit(is_iri, left, number, c),
    }
}

fn from_outside(is_iri: bool, c: char) -> Step
    ensures is { result ≡ step_for (move (inside_of is_iri) outside c) }
    ensures room { IsStepInRoom result }
{
    if c == '\\' {
        Step::Leads(Stand::Slash)
    } else {
        allowed(is_iri, c)
    }
}

fn allowed(is_iri: bool, c: char) -> Step
    ensures is { result ≡ step_for (allowed (inside_of is_iri) c) }
    ensures room { IsStepInRoom result }
{
    if is_iri && !is_iri_char(c) {
        Step::Fails
    } else {
        Step::Means
    }
}

fn after_slash(is_iri: bool, c: char) -> Step
    ensures is { result ≡ step_for (move (inside_of is_iri) EscapeState.slash c) }
    ensures room { IsStepInRoom result }
{
    match c {
        'u' => Step::Leads(Stand::Digits(4, 0)),
        'U' => Step::Leads(Stand::Digits(8, 0)),
        _ => letter(is_iri, c),
    }
}

fn letter(is_iri: bool, c: char) -> Step
    ensures is { result ≡ step_for (echar_move (inside_of is_iri) c) }
    ensures room { IsStepInRoom result }
{
    if !is_iri && matches!(c, 't' | 'b' | 'n' | 'r' | 'f' | '"' | '\'' | '\\') {
        Step::Means
    } else {
        Step::Fails
    }
}

fn digit(is_iri: bool, left: u32, number: u32, c: char) -> Step
    requires { number < room left }
    ensures is { result ≡ step_for (move (inside_of is_iri) (EscapeState.digits left number) c) }
    ensures room { IsStepInRoom result }
{
    match hex_value(c) {
        Some(value) if left > 0 => after_digit(is_iri, left - 1, 16 * number + u32::from(value)),
        _ => Step::Fails,
    }
}

fn after_digit(is_iri: bool, left: u32, number: u32) -> Step
    requires { number < room left }
    ensures is { result ≡ step_for (digit_move (inside_of is_iri) left number) }
    ensures room { IsStepInRoom result }
{
    if left > 0 {
        return Step::Leads(Stand::Digits(left, number));
    }
    match char::from_u32(number) {
        Some(c) => allowed(is_iri, c),
        None => Step::Fails,
    }
}
