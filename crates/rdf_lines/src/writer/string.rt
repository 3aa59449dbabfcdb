// Texts as they are written: runs as they stand, and escapes between them (N-Quads 4).

ghost use Rattle.std.specs.Prelude.{◌≡◌, ◌++◌, ◌<◌, ◌≤◌, length, chars, encode_utf8, encode_utf8_all, flat_map, IfOk};
ghost use Rattle.std.specs.Prelude.{OnErr, OnOk};
ghost use Rattle.rdf_terms.specs.Views.{iri_chars};
ghost use Rattle.rdf_lines.specs.declared.form.Escapes.TheVariants.{Ascii};
ghost use Rattle.rdf_lines.specs.Writing.{escaped, written};
ghost use Rattle.rdf_lines.specs.WrittenBytes.{BeginsWith, escaped_bytes, run_of, string_bytes_of};

use crate::form::Escapes;
use crate::writer::escape::put_uchar;
use rdf_terms::IriView;
use rdf_terms::runs::{Run, is_run, run_end};
use std::alloc::{AllocError, Allocator};

/// How many bytes a text has at least of which it is tested whether it is one run.
const LONG: usize = 128;

pub fn put_string<A: Allocator + Copy>(
    text: &str,
    escapes: Escapes,
    out: &mut Vec<u8, A>,
) -> Result<(), AllocError>
    ensures written { OnOk result (out.new.items ≡ out.old.items ++ string_bytes_of escapes text.now) }
    ensures grown { OnErr result (BeginsWith out.old.items out.new.items) }
{
    out.extend_from_slice(b"\"")?;
    put_escaped(text, escapes, out)?;
    out.extend_from_slice(b"\"")
}

/// What stands between the brackets of an IRI. No character of an IRI is escaped by a letter.
#[tactic(auto, using(crate::proofs::EscapedRuns::plain_iri))]
pub fn put_characters<A: Allocator + Copy>(
    iri: IriView<'_>,
    escapes: Escapes,
    out: &mut Vec<u8, A>,
) -> Result<(), AllocError>
    ensures written { OnOk result (out.new.items ≡ out.old.items
        ++ encode_utf8_all (flat_map (written escapes) (iri_chars iri.entry))) }
    ensures grown { OnErr result (BeginsWith out.old.items out.new.items) }
{
    match escapes {
        Escapes::Plain => out.extend_from_slice(iri.as_bytes()),
        Escapes::Ascii => put_in_ascii(iri, out),
    }
}

// The same in ASCII. An IRI of ASCII stands as it is. Apart, so that `put_characters` is small enough to stand
// where it is called.
#[inline(never)]
#[tactic(auto, using(crate::proofs::EscapedRuns::ascii_iri, crate::proofs::EscapedRuns::escaped_iri))]
fn put_in_ascii<A: Allocator + Copy>(
    iri: IriView<'_>,
    out: &mut Vec<u8, A>,
) -> Result<(), AllocError>
    ensures written { OnOk result (out.new.items ≡ out.old.items
        ++ encode_utf8_all (flat_map (written Ascii) (iri_chars iri.entry))) }
    ensures grown { OnErr result (BeginsWith out.old.items out.new.items) }
{
    if is_run(Run::Ascii, iri.as_bytes()) {
        return out.extend_from_slice(iri.as_bytes());
    }
    put_escaped(iri.as_str(), Escapes::Ascii, out)
}

// Run by run. Whether a long text is one run is tested first, since that goes by more bytes at a time.
#[tactic(auto, using(crate::proofs::WrittenBytesLemmas::begins_with_front))]
fn put_escaped<A: Allocator + Copy>(
    text: &str,
    escapes: Escapes,
    out: &mut Vec<u8, A>,
) -> Result<(), AllocError>
    ensures written { OnOk result (out.new.items ≡ out.old.items ++ escaped_bytes escapes text.now) }
    ensures grown { OnErr result (BeginsWith out.old.items out.new.items) }
{
    if text.len() >= LONG && is_run(run_of(escapes), text.as_bytes()) {
        return out.extend_from_slice(text.as_bytes());
    }
    let mut rest = text;
    while !rest.is_empty() {
        rest = put_run(rest, escapes, out)?;
    }
    Ok(())
}

// A run in front, whose characters stand as they are, and the character after it: the text after these.
fn put_run<'a, A: Allocator + Copy>(
    text: &'a str,
    escapes: Escapes,
    out: &mut Vec<u8, A>,
) -> Result<&'a str, AllocError>
    ensures written { IfOk result (λ rest.
        out.new.items ++ escaped_bytes escapes rest.now ≡ out.old.items ++ escaped_bytes escapes text.now) }
    ensures progress { IfOk result (λ rest. 0 < length text.now → length rest.now < length text.now) }
    ensures grown { BeginsWith out.old.items out.new.items }
{
    let at = run_end(run_of(escapes), text.as_bytes(), 0);
    let (run, rest) = text.split_at(at);
    out.extend_from_slice(run.as_bytes())?;
    if rest.is_empty() {
        return Ok(rest);
    }
    put_first(rest, escapes, out)
}

// The first character, if there is one: the text after it.
fn put_first<'a, A: Allocator + Copy>(
    text: &'a str,
    escapes: Escapes,
    out: &mut Vec<u8, A>,
) -> Result<&'a str, AllocError>
    ensures written { IfOk result (λ rest.
        out.new.items ++ escaped_bytes escapes rest.now ≡ out.old.items ++ escaped_bytes escapes text.now) }
    ensures progress { IfOk result (λ rest. 0 < length text.now → length rest.now < length text.now) }
    ensures within { IfOk result (λ rest. length rest.now ≤ length text.now) }
    ensures grown { BeginsWith out.old.items out.new.items }
{
    let mut chars = text.chars();
    match chars.next() {
        None => Ok(text),
        Some(c) => {
            put_char(c, escapes, out)?;
            Ok(chars.as_str())
        }
    }
}

fn run_of(escapes: Escapes) -> Run
    ensures { result ≡ run_of escapes }
{
    match escapes {
        Escapes::Plain => Run::QuoteText,
        Escapes::Ascii => Run::AsciiQuoteText,
    }
}

fn put_char<A: Allocator + Copy>(
    c: char,
    escapes: Escapes,
    out: &mut Vec<u8, A>,
) -> Result<(), AllocError>
    ensures written { OnOk result (out.new.items ≡ out.old.items ++ encode_utf8_all (escaped escapes c)) }
    ensures unchanged { OnErr result (out.new.items ≡ out.old.items) }
{
    match c {
        '"' => out.extend_from_slice(b"\\\""),
        '\\' => out.extend_from_slice(b"\\\\"),
        '\n' => out.extend_from_slice(b"\\n"),
        '\r' => out.extend_from_slice(b"\\r"),
        _ => put_written(c, escapes, out),
    }
}

fn put_written<A: Allocator + Copy>(
    c: char,
    escapes: Escapes,
    out: &mut Vec<u8, A>,
) -> Result<(), AllocError>
    ensures written { OnOk result (out.new.items ≡ out.old.items ++ encode_utf8_all (written escapes c)) }
    ensures unchanged { OnErr result (out.new.items ≡ out.old.items) }
{
    match escapes {
        Escapes::Ascii if c > '\u{7F}' => put_uchar(c, out),
        _ => put_raw(c, out),
    }
}

fn put_raw<A: Allocator + Copy>(c: char, out: &mut Vec<u8, A>) -> Result<(), AllocError>
    ensures written { OnOk result (out.new.items ≡ out.old.items ++ encode_utf8 c) }
    ensures unchanged { OnErr result (out.new.items ≡ out.old.items) }
{
    let mut bytes = [0; 4];
    out.extend_from_slice(c.encode_utf8(&mut bytes).as_bytes())
}
