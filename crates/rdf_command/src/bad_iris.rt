// Why a text of the command line is no IRI.

ghost use Rattle.std.specs.Prelude.{◌≡◌, ◌++◌, IfOk, IfSome, OnOk, encode_utf8, encode_utf8_all, map, option_map};
ghost use Rattle.std.specs.Str.{chars};
ghost use Rattle.rdf_iri.specs.Texts.{byte_len};
ghost use Rattle.rdf_command.specs.BadIris.{bad_char, bad_char_text, bad_iri_text, char_text, iri_front, number_text};
ghost use Rattle.rdf_command.specs.BadIris.{quoted_text, shown, too_long_text, why_bad};

use crate::addresses::hex_digit;
use rdf_stream::put_number;
use rdf_terms::is_iri_char;
use std::alloc::{AllocError, Global};

/// A line that reports a text that is no IRI of at most so many bytes, and the line that says why it is none.
pub fn bad_iri_lines(
    alloc: Global,
    line: &[u8],
    text: &str,
    most: u64,
) -> Result<Vec<u8>, AllocError>
    ensures { IfOk result (λ lines. lines.items ≡ line.now ++ bad_iri_text most text.now) }
{
    let mut lines = Vec::from_slice(alloc, line)?;
    put_shown(text, &mut lines)?;
    lines.extend_from_slice(b": ")?;
    put_why(text, most, &mut lines)?;
    lines.extend_from_slice(b"\n")?;
    Ok(lines)
}

fn put_shown(text: &str, line: &mut Vec<u8>) -> Result<(), AllocError>
    ensures { OnOk result (line.new.items ≡ line.old.items ++ encode_utf8_all (map shown (chars text.now))) }
{
    for c in text.chars() {
        put_char(shown(c), line)?;
    }
    Ok(())
}

// What is shown of a character.
fn shown(c: char) -> char
    ensures { result ≡ shown c }
{
    if c.is_control() { '\u{FFFD}' } else { c }
}

fn put_char(c: char, line: &mut Vec<u8>) -> Result<(), AllocError>
    ensures { OnOk result (line.new.items ≡ line.old.items ++ encode_utf8 c) }
{
    line.extend_from_slice(c.encode_utf8(&mut [0; 4]).as_bytes())
}

fn put_why(text: &str, most: u64, line: &mut Vec<u8>) -> Result<(), AllocError>
    ensures { OnOk result (line.new.items ≡ line.old.items ++ why_bad most text.now) }
{
    if text.len() as u64 > most {
        return put_limit(most, line);
    }
    match first_bad(text) {
        Some(bad) => put_bad(bad, line),
        None => line.extend_from_slice(b"it has no scheme"),
    }
}

fn put_limit(most: u64, line: &mut Vec<u8>) -> Result<(), AllocError>
    ensures { OnOk result (line.new.items ≡ line.old.items ++ too_long_text most) }
{
    line.extend_from_slice(b"IRI too long; the limit is ")?;
    put_number(most, line)
}

// The first character of a text that can't stand in an IRI.
#[derive(Clone, Copy)]
struct Bad {
    c: char,
    // How many bytes stand before it.
    before: u64,
}

fn first_bad(text: &str) -> Option<Bad>
    ensures c { option_map (λ b. b.c) result ≡ bad_char (chars text.now) }
    ensures before { IfSome result (λ b. b.before ≡ byte_len (iri_front (chars text.now))) }
{
    let mut before = 0;
    for c in text.chars() {
        if !is_iri_char(c) {
            return Some(Bad { c, before });
        }
        before += c.len_utf8() as u64;
    }
    None
}

fn put_bad(bad: Bad, line: &mut Vec<u8>) -> Result<(), AllocError>
    ensures { OnOk result (line.new.items ≡ line.old.items ++ bad_char_text bad.c bad.before) }
{
    put_named(bad.c, line)?;
    line.extend_from_slice(b" after ")?;
    put_number(bad.before, line)?;
    line.extend_from_slice(b" bytes can't stand in an IRI")?;
    Ok(())
}

// A character in quotes, or a control character by its number.
fn put_named(c: char, line: &mut Vec<u8>) -> Result<(), AllocError>
    ensures { OnOk result (line.new.items ≡ line.old.items ++ char_text c) }
{
    if c < ' ' {
        put_hex(c as u8, line)
    } else {
        put_quoted(c, line)
    }
}

fn put_hex(c: u8, line: &mut Vec<u8>) -> Result<(), AllocError>
    ensures { OnOk result (line.new.items ≡ line.old.items ++ number_text c) }
{
    line.extend_from_slice(b"U+00")?;
    line.extend_from_slice(&[hex_digit(c / 16) as u8, hex_digit(c % 16) as u8])
}

fn put_quoted(c: char, line: &mut Vec<u8>) -> Result<(), AllocError>
    ensures { OnOk result (line.new.items ≡ line.old.items ++ quoted_text c) }
{
    line.extend_from_slice(b"\"")?;
    put_char(c, line)?;
    line.extend_from_slice(b"\"")
}
