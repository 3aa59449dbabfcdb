// What the bytes at a place show: `before` stands in front of it on its line, `after` from there on.

ghost use Rattle.std.specs.Prelude.{◌≡◌, ◌≤◌, false, length, slice_index};
ghost use Rattle.std.specs.List.{prefix_len, suffix_len};
ghost use Rattle.rdf_diagnostics.specs.Signs.{begins_packed, ends_in_name, ends_in_tag, has_bad_escape};
ghost use Rattle.rdf_diagnostics.specs.Signs.{has_prefix_before, has_space_before, has_surrogate, is_badly_escaped};
ghost use Rattle.rdf_diagnostics.specs.Signs.{is_direction, is_directive, is_escape, is_in_directive};
ghost use Rattle.rdf_diagnostics.specs.Signs.{is_iri_or_space, is_json_ld, is_json_ld_key, is_keyword, is_latin1};
ghost use Rattle.rdf_diagnostics.specs.Signs.{is_lone, is_mark, is_month, is_name_byte, is_open_string, is_packed};
ghost use Rattle.rdf_diagnostics.specs.Signs.{is_prefix_without_colon, is_slash_in_name};
ghost use Rattle.rdf_diagnostics.specs.Signs.{is_surrogate, is_tag_byte, is_triple_term, is_turtle};
ghost use Rattle.rdf_diagnostics.specs.Signs.{is_underscore_in_tag, is_utf16, is_web_page, is_xml, name_len};
ghost use Rattle.rdf_diagnostics.specs.Signs.{starts_word};

/// The document begins as a file of gzip, bzip2, xz or zip.
pub(crate) fn is_packed(offset: u64, after: &[u8]) -> bool
    ensures { result ≡ is_packed offset after.now }
{
    offset == 0 && begins_packed(after)
}

// How a file of gzip, bzip2, xz or zip begins.
fn begins_packed(bytes: &[u8]) -> bool
    ensures { result ≡ begins_packed bytes.now }
{
    bytes.starts_with(&[0x1F, 0x8B])
        || bytes.starts_with(b"BZh")
        || bytes.starts_with(&[0xFD, 0x37, 0x7A, 0x58, 0x5A, 0])
        || bytes.starts_with(&[0x50, 0x4B, 3, 4])
}

/// The document begins with the byte order mark of UTF-16, of either order.
pub(crate) fn is_utf16(offset: u64, after: &[u8]) -> bool
    ensures { result ≡ is_utf16 offset after.now }
{
    offset == 0 && (after.starts_with(&[0xFF, 0xFE]) || after.starts_with(&[0xFE, 0xFF]))
}

/// A letter of Windows-1252 or ISO 8859-1, after the first four bytes of the document.
pub(crate) fn is_latin1(offset: u64, after: &[u8]) -> bool
    ensures { result ≡ is_latin1 offset after.now }
{
    offset > 3 && is_lone(after)
}

// A byte above ASCII before one of ASCII.
fn is_lone(after: &[u8]) -> bool
    ensures { result ≡ is_lone after.now }
{
    match after {
        [first, second, ..] => *first >= 0x80 && *second < 0x80,
        _ => false,
    }
}

/// The first tag of a page.
pub(crate) fn is_web_page(after: &[u8]) -> bool
    ensures { result ≡ is_web_page after.now }
{
    after.starts_with(b"<!DOCTYPE html")
        || after.starts_with(b"<!doctype html")
        || after.starts_with(b"<html")
}

/// The first tag of another document in XML.
pub(crate) fn is_xml(after: &[u8]) -> bool
    ensures { result ≡ is_xml after.now }
{
    after.starts_with(b"<?xml ")
        || after.starts_with(b"<rdf:RDF")
        || after.starts_with(b"<!DOCTYPE rdf")
}

/// A key with which an object of JSON-LD mostly begins, or an object that begins with a key of JSON-LD.
pub(crate) fn is_json_ld(after: &[u8]) -> bool
    ensures { result ≡ is_json_ld after.now }
{
    is_json_ld_key(after) || after.starts_with(b"{\"@") || after.starts_with(b"{ \"@")
}

fn is_json_ld_key(after: &[u8]) -> bool
    ensures { result ≡ is_json_ld_key after.now }
{
    after.starts_with(b"\"@context\"")
        || after.starts_with(b"\"@id\"")
        || after.starts_with(b"\"@type\"")
        || after.starts_with(b"\"@graph\"")
}

/// A triple term or an annotation of RDF 1.2.
pub(crate) fn is_triple_term(after: &[u8]) -> bool
    ensures { result ≡ is_triple_term after.now }
{
    after.starts_with(b"<<") || after.starts_with(b"{|")
}

/// A direction of RDF 1.2 after a language.
pub(crate) fn is_direction(after: &[u8]) -> bool
    ensures { result ≡ is_direction after.now }
{
    after.starts_with(b"--ltr") || after.starts_with(b"--rtl")
}

/// U+FEFF.
pub(crate) fn is_mark(after: &[u8]) -> bool
    ensures { result ≡ is_mark after.now }
{
    after.starts_with(&[0xEF, 0xBB, 0xBF])
}

/// After a `<` bytes that may stand in an IRI, but for a space among them, and then this byte.
pub(crate) fn has_space_before(end: u8, after: &[u8]) -> bool
    ensures { result ≡ has_space_before end after.now }
{
    match after {
        [b'<', inside @ ..] => {
            let len = inside_len(inside);
            inside[..len].contains(&b' ') && inside[len..].starts_with(&[end])
        }
        _ => false,
    }
}

// How many bytes at the front may stand in an IRI, or are spaces.
fn inside_len(bytes: &[u8]) -> usize
    ensures { result ≡ prefix_len is_iri_or_space bytes.now }
{
    bytes.iter().take_while(|b| is_iri_or_space(**b)).count()
}

fn is_iri_or_space(byte: u8) -> bool
    ensures { result ≡ is_iri_or_space byte }
{
    byte >= 0x20 && !b"<>\"{}|^`\\".contains(&byte)
}

/// A `_` after a language tag.
pub(crate) fn is_underscore_in_tag(before: &[u8], after: &[u8]) -> bool
    ensures { result ≡ is_underscore_in_tag before.now after.now }
{
    after.starts_with(b"_") && ends_in_tag(before)
}

// A language tag ends before the place.
fn ends_in_tag(before: &[u8]) -> bool
    ensures { result ≡ ends_in_tag before.now }
{
    let len = tag_len(before);
    len > 0 && before[..before.len() - len].ends_with(b"@")
}

// How many bytes at the end may stand in a language tag after its `@`.
fn tag_len(bytes: &[u8]) -> usize
    ensures value { result ≡ suffix_len is_tag_byte bytes.now }
    ensures bound { result ≤ length bytes.now }
{
    bytes.iter().rev().take_while(|b| is_tag_byte(**b)).count()
}

fn is_tag_byte(byte: u8) -> bool
    ensures { result ≡ is_tag_byte byte }
{
    byte.is_ascii_alphanumeric() || byte == b'-'
}

/// A `/` after a name.
pub(crate) fn is_slash_in_name(before: &[u8], after: &[u8]) -> bool
    ensures { result ≡ is_slash_in_name before.now after.now }
{
    after.starts_with(b"/") && ends_in_name(before)
}

// The last byte is one of a name.
fn ends_in_name(before: &[u8]) -> bool
    ensures { result ≡ ends_in_name before.now }
{
    match before {
        [.., last] => is_name_byte(*last),
        [] => false,
    }
}

fn is_name_byte(byte: u8) -> bool
    ensures { result ≡ is_name_byte byte }
{
    is_tag_byte(byte) || byte == b'_'
}

// How many bytes of a name stand at the place.
fn name_len(bytes: &[u8]) -> usize
    ensures value { result ≡ name_len bytes.now }
    ensures bound { result ≤ length bytes.now }
{
    bytes.iter().take_while(|b| is_name_byte(**b)).count()
}

/// A word begins here, with a letter.
pub(crate) fn starts_word(after: &[u8]) -> bool
    ensures { result ≡ starts_word after.now }
{
    match after {
        [first, ..] => first.is_ascii_alphabetic(),
        [] => false,
    }
}

// A prefix and a text after it, as its colon.
fn has_prefix_before(text: &[u8], after: &[u8]) -> bool
    ensures { result ≡ has_prefix_before text.now after.now }
{
    let len = name_len(after);
    after[len..].starts_with(text) && (len == 0 || starts_word(after))
}

// A word that stands alone in Turtle and TriG.
fn is_keyword(after: &[u8]) -> bool
    ensures { result ≡ is_keyword after.now }
{
    after.starts_with(b"PREFIX ")
        || after.starts_with(b"prefix ")
        || after.starts_with(b"BASE ")
        || after.starts_with(b"base ")
        || after.starts_with(b"a ")
        || after.starts_with(b"true ")
        || after.starts_with(b"false ")
}

/// What begins a token of Turtle and TriG alone.
pub(crate) fn is_turtle(after: &[u8]) -> bool
    ensures { result ≡ is_turtle after.now }
{
    b"[](),;0123456789".contains(&byte_at(after, 0))
        || has_prefix_before(b":", after)
        || is_keyword(after)
}

/// The document begins with a directive with `@`.
pub(crate) fn is_directive(offset: u64, after: &[u8]) -> bool
    ensures { result ≡ is_directive offset after.now }
{
    offset == 0 && (after.starts_with(b"@prefix ") || after.starts_with(b"@base "))
}

/// A word stands where a prefix is to be bound.
pub(crate) fn is_prefix_without_colon(before: &[u8], after: &[u8]) -> bool
    ensures { result ≡ is_prefix_without_colon before.now after.now }
{
    (before.ends_with(b"@prefix ") || before.ends_with(b"PREFIX ") || before.ends_with(b"prefix "))
        && starts_word(after)
}

/// What follows the `@prefix` or `@base` of a directive.
pub(crate) fn is_in_directive(before: &[u8], after: &[u8]) -> bool
    ensures { result ≡ is_in_directive before.now after.now }
{
    (before.ends_with(b"@prefix ") && has_prefix_before(b": ", after))
        || (before.ends_with(b"@base ") && after.starts_with(b"<"))
}

/// A string of one line begins here, and the line, of which all is known, has no other quote.
pub(crate) fn is_open_string(after: &[u8]) -> bool
    ensures { result ≡ is_open_string after.now }
{
    match after {
        [b'"', inside @ ..] => after.len() < 240 && !inside.contains(&b'"'),
        _ => false,
    }
}

/// A string begins here that has a backslash that begins no escape.
pub(crate) fn is_badly_escaped(after: &[u8]) -> bool
    ensures { result ≡ is_badly_escaped after.now }
{
    match after {
        [b'"', inside @ ..] => has_bad_escape(inside),
        _ => false,
    }
}

// A backslash begins no escape in what stands before a closing quote.
fn has_bad_escape(inside: &[u8]) -> bool
    ensures { result ≡ has_bad_escape false inside.now }
{
    let mut is_after = false;
    for i in 0..inside.len() {
        if is_after {
            if !is_escape(&inside[i..]) {
                return true;
            }
            is_after = false;
        } else if inside[i] == b'"' {
            return false;
        } else {
            is_after = inside[i] == b'\\';
        }
    }
    false
}

// What follows a backslash goes on as an escape.
fn is_escape(bytes: &[u8]) -> bool
    ensures { result ≡ is_escape bytes.now }
{
    let first = byte_at(bytes, 0);
    b"tbnrf\"'\\".contains(&first)
        || (b"uU".contains(&first) && byte_at(bytes, 1).is_ascii_hexdigit())
}

/// Somewhere an escape of a surrogate begins.
pub(crate) fn has_surrogate(after: &[u8]) -> bool
    ensures { result ≡ has_surrogate after.now }
{
    for i in 0..after.len() {
        if is_surrogate(&after[i..]) {
            return true;
        }
    }
    false
}

// An escape of a surrogate begins here.
fn is_surrogate(bytes: &[u8]) -> bool
    ensures { result ≡ is_surrogate bytes.now }
{
    (bytes.starts_with(b"\\uD") || bytes.starts_with(b"\\ud"))
        && b"89ABCDEFabcdef".contains(&byte_at(bytes, 3))
}

/// The month of a date.
pub(crate) fn is_month(after: &[u8]) -> bool
    ensures { result ≡ is_month after.now }
{
    after.starts_with(b"-")
        && byte_at(after, 1).is_ascii_digit()
        && byte_at(after, 2).is_ascii_digit()
        && byte_at(after, 3) == b'-'
}

// The byte at an index, and 0 past the end.
fn byte_at(bytes: &[u8], index: usize) -> u8
    ensures { result ≡ slice_index bytes.now index }
{
    match bytes.get(index) {
        Some(byte) => *byte,
        None => 0,
    }
}
