// The insides of strings and IRIs: plain bytes by runs, and whole escapes between them.

ghost use Rattle.std.specs.Prelude.{◌≡◌, ◌≤◌, ◌+◌, ◌&&◌, ◌==◌, ◌⊎◌, nat_le, false, length, get_or, option_map};
ghost use Rattle.std.specs.Prelude.{IfSome};
ghost use Rattle.rdf_terms.specs.Runs.{IsRun, goes_over};
ghost use Rattle.rdf_terms.specs.Escapes.{IsUchar};
ghost use Rattle.rdf_terms.specs.Classes.{has};
ghost use Rattle.rdf_terms.specs.Classes.Class.{escape_letter};
ghost use Rattle.rdf_tokens.specs.Escapes.{IsEchar, IsEscapeThen, IsIriUchar, FitsInIri, FitsInString, RestsInIri};
ghost use Rattle.rdf_tokens.specs.Quick.{short_run};
ghost use Rattle.rdf_tokens.specs.Strings.{RestsInQuotes};

use crate::states::text::Quote;
use rdf_terms::escapes::{letter_meaning, long_uchar, short_uchar, uchar};
use rdf_terms::is_iri_char;
use rdf_terms::runs::{Run, run_end};

/// The place after the plain bytes and the whole escapes of a string in this quote from a place on. A bad escape is
/// not passed.
pub(crate) fn string_end(quote: Quote, bytes: &[u8], from: usize) -> usize
    requires { from ≤ length bytes.now }
    ensures rests { RestsInQuotes quote bytes.now from result }
    ensures fits { FitsInString bytes.now from result }
{
    match quote {
        Quote::Double => parts_end(Quote::Double, bytes, from),
        Quote::Single => parts_end(Quote::Single, bytes, from),
    }
}

/// The same, with a loop of its own for each quote.
#[inline(always)]
fn parts_end(quote: Quote, bytes: &[u8], from: usize) -> usize
    requires { from ≤ length bytes.now }
    ensures rests { RestsInQuotes quote bytes.now from result }
    ensures fits { FitsInString bytes.now from result }
{
    let run = short_run(quote);
    let mut at = run_end(run, bytes, from);
    while let Some(next) = escape_end(run, bytes, at) {
        at = next;
    }
    at
}

/// What a string in this quote has as it is.
#[inline(always)]
pub(crate) fn short_run(quote: Quote) -> Run
    ensures { result ≡ short_run quote }
{
    match quote {
        Quote::Double => Run::QuoteText,
        Quote::Single => Run::SingleQuoteText,
    }
}

/// Where the escape at a place and the run after it end, if all of the escape is there and it is not bad. The run
/// is sought in one place, so that this stays small enough for its mark.
#[inline(always)]
pub(crate) fn escape_end(run: Run, bytes: &[u8], at: usize) -> Option<usize>
    requires within { at ≤ length bytes.now }
    requires backslash { goes_over run 92 ≡ false }
    ensures { IfSome result (λ end. IsEscapeThen run bytes.now at end) }
{
    match whole_escape_end(bytes, at) {
        Some(next) => Some(plain_end(run, bytes, next)),
        None => None,
    }
}

/// Where the escape at a place ends, if all of it is there and it is not bad.
#[inline(always)]
fn whole_escape_end(bytes: &[u8], at: usize) -> Option<usize>
    requires { at ≤ length bytes.now }
    ensures escape { IfSome result (λ end. IsEchar bytes.now at end ⊎ IsUchar bytes.now at end) }
    ensures within { IfSome result (λ end. end ≤ length bytes.now) }
{
    if let Some((_, next)) = short_uchar(bytes, at) {
        return Some(next);
    }
    if is_echar(bytes, at) {
        return Some(at + 2);
    }
    end_of(long_uchar(bytes, at))
}

/// The end of a run in which no backslash stands. Escapes by number often come in a row, and between two of them
/// nothing is looked for.
#[inline(always)]
fn plain_end(run: Run, bytes: &[u8], from: usize) -> usize
    requires within { from ≤ length bytes.now }
    requires backslash { goes_over run 92 ≡ false }
    ensures { IsRun (goes_over run) bytes.now from result }
{
    if from < bytes.len() && bytes[from] == b'\\' {
        return from;
    }
    run_end(run, bytes, from)
}

/// The place after the plain bytes and the whole escapes of an IRI from a place on. An escape of a character that
/// IRIs exclude is not passed.
pub(crate) fn iri_end(bytes: &[u8], from: usize) -> usize
    requires { from ≤ length bytes.now }
    ensures rests { RestsInIri bytes.now from result }
    ensures fits { FitsInIri bytes.now from result }
{
    let mut at = run_end(Run::Iri, bytes, from);
    while let Some(next) = iri_uchar_end(bytes, at) {
        at = plain_end(Run::Iri, bytes, next);
    }
    at
}

/// Where the UCHAR at a place ends, if all of it is there and its character may stand in an IRI.
#[inline(always)]
fn iri_uchar_end(bytes: &[u8], at: usize) -> Option<usize>
    requires { at ≤ length bytes.now }
    ensures { IfSome result (λ end. IsIriUchar bytes.now at end) }
{
    match uchar(bytes, at) {
        Some((c, end)) if is_iri_char(c) => Some(end),
        _ => None,
    }
}

#[inline(always)]
pub(crate) fn is_echar(bytes: &[u8], at: usize) -> bool
    requires { at ≤ length bytes.now }
    ensures { result ≡ (nat_le (at + 2) (length bytes.now) && get_or bytes.now at 0 == 92 && has escape_letter
        (get_or bytes.now (at + 1) 0)) }
{
    bytes.len() - at >= 2 && bytes[at] == b'\\' && is_escape_letter(bytes[at + 1])
}

/// Whether a byte is a letter of ECHAR.
#[inline(always)]
fn is_escape_letter(byte: u8) -> bool
    ensures { result ≡ has escape_letter byte }
{
    letter_meaning(byte).is_some()
}

/// Where the UCHAR at a place ends, if all of it is there and its number is that of a character.
#[inline(always)]
pub(crate) fn uchar_end(bytes: &[u8], at: usize) -> Option<usize>
    requires { at ≤ length bytes.now }
    ensures { IfSome result (λ end. IsUchar bytes.now at end) }
{
    end_of(uchar(bytes, at))
}

/// Where an escape ends, without the character that it means.
#[inline(always)]
fn end_of(escape: Option<(char, usize)>) -> Option<usize>
    ensures { result ≡ option_map (λ x. x.1) escape }
{
    match escape {
        Some((_, end)) => Some(end),
        None => None,
    }
}
