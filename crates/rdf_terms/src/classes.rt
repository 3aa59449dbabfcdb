// The classes of characters, as tests.

ghost use Rattle.std.specs.Prelude.{◌≡◌, ◌||◌, ◌==◌, ◌<◌, SomeIff, IfSome, true};
ghost use Rattle.std.specs.Str.{chars};
ghost use Rattle.rdf_terms.specs.Classes.{has, is_letter, is_digit};
ghost use Rattle.rdf_terms.specs.Runs.{iri_byte, is_http};
ghost use Rattle.rdf_terms.specs.Classes.Class.{hex_digit, iri_char, local_escape, pn_base, pn_u, pn_char};
ghost use Rattle.rdf_terms.specs.Terms.{has_scheme, all_have};
ghost use Rattle.rdf_terms.specs.Values.{hex_value};

use crate::Dialect;
use crate::runs::{Run, is_run};

/// PN_CHARS_BASE (Turtle 6.5)
#[tactic(auto, unfolding(crate::specs::Classes::has))]
pub fn is_pn_base(c: char) -> bool
    ensures { result ≡ has pn_base c }
{
    matches!(c, 'A'..='Z' | 'a'..='z' | '\u{C0}'..='\u{D6}' | '\u{D8}'..='\u{F6}' | '\u{F8}'..='\u{2FF}'
        | '\u{370}'..='\u{37D}' | '\u{37F}'..='\u{1FFF}' | '\u{200C}'..='\u{200D}' | '\u{2070}'..='\u{218F}'
        | '\u{2C00}'..='\u{2FEF}' | '\u{3001}'..='\u{D7FF}' | '\u{F900}'..='\u{FDCF}' | '\u{FDF0}'..='\u{FFFD}'
        | '\u{10000}'..='\u{EFFFF}')
}

/// PN_CHARS_U; in the line formats with `:` (N-Triples 7, Turtle 6.5)
#[tactic(auto, unfolding(crate::specs::Classes::has))]
pub fn is_pn_u(c: char, dialect: Dialect) -> bool
    ensures { result ≡ has (pn_u dialect) c }
{
    is_pn_base(c) || c == '_' || matches!(dialect, Dialect::Lines) && c == ':'
}

/// PN_CHARS (N-Triples 7, Turtle 6.5)
#[tactic(auto, unfolding(crate::specs::Classes::has))]
pub fn is_pn_char(c: char, dialect: Dialect) -> bool
    ensures { result ≡ has (pn_char dialect) c }
{
    is_pn_u(c, dialect)
        || matches!(c, '-' | '0'..='9' | '\u{B7}' | '\u{300}'..='\u{36F}' | '\u{203F}'..='\u{2040}')
}

/// The characters that an IRIREF has as they are.
#[tactic(auto, unfolding(crate::specs::Classes::has))]
pub fn is_iri_char(c: char) -> bool
    ensures { result ≡ has iri_char c }
{
    !matches!(
        c,
        '\0'..=' ' | '<' | '>' | '"' | '{' | '}' | '|' | '^' | '`' | '\\'
    )
}

/// The characters after the backslash of a PN_LOCAL_ESC (Turtle 6.5)
#[tactic(auto, unfolding(crate::specs::Classes::has))]
pub fn is_local_escape(c: char) -> bool
    ensures { result ≡ has local_escape c }
{
    matches!(
        c,
        '_' | '~'
            | '.'
            | '-'
            | '!'
            | '$'
            | '&'
            | '\''
            | '('
            | ')'
            | '*'
            | '+'
            | ','
            | ';'
            | '='
            | '/'
            | '?'
            | '#'
            | '@'
            | '%'
    )
}

/// The value of a HEX, in either case.
#[tactic(auto, unfolding(crate::specs::Classes::has))]
pub fn hex_value(c: char) -> Option<u8>
    ensures value { SomeIff result (has hex_digit c ≡ true) (hex_value c) }
    ensures small { IfSome result (λ v. v < 16) }
{
    match c {
        '0'..='9' => Some(c as u8 - b'0'),
        'A'..='F' => Some(c as u8 - b'A' + 10),
        'a'..='f' => Some(c as u8 - b'a' + 10),
        _ => None,
    }
}

/// Whether each character of the text is one that an IRIREF has as it is.
#[tactic(auto, using(crate::proofs::IriBytes::iri_bytes))]
pub fn iri_text(text: &str) -> bool
    ensures { result ≡ all_have (has iri_char) (chars text.now) }
{
    is_run(Run::Iri, text.as_bytes())
}

/// The bytes that the characters of an IRIREF have: what it excludes is ASCII.
static IRI_BYTES: [bool; 256] = [
    false, false, false, false, false, false, false, false, false, false, false, false, false,
    false, false, false, false, false, false, false, false, false, false, false, false, false,
    false, false, false, false, false, false, false, true, false, true, true, true, true, true,
    true, true, true, true, true, true, true, true, true, true, true, true, true, true, true, true,
    true, true, true, true, false, true, false, true, true, true, true, true, true, true, true,
    true, true, true, true, true, true, true, true, true, true, true, true, true, true, true, true,
    true, true, true, true, true, false, true, false, true, false, true, true, true, true, true,
    true, true, true, true, true, true, true, true, true, true, true, true, true, true, true, true,
    true, true, true, true, true, false, false, false, true, true, true, true, true, true, true,
    true, true, true, true, true, true, true, true, true, true, true, true, true, true, true, true,
    true, true, true, true, true, true, true, true, true, true, true, true, true, true, true, true,
    true, true, true, true, true, true, true, true, true, true, true, true, true, true, true, true,
    true, true, true, true, true, true, true, true, true, true, true, true, true, true, true, true,
    true, true, true, true, true, true, true, true, true, true, true, true, true, true, true, true,
    true, true, true, true, true, true, true, true, true, true, true, true, true, true, true, true,
    true, true, true, true, true, true, true, true, true, true, true, true, true, true, true, true,
    true, true, true, true, true, true, true, true, true, true, true,
];

pub(crate) fn is_iri_byte(byte: u8) -> bool
    ensures { result ≡ iri_byte byte }
{
    IRI_BYTES[byte as usize]
}

/// Whether the text begins with a scheme and its colon (RFC 3986, 3.1).
pub fn has_scheme(text: &str) -> bool
    ensures { result ≡ has_scheme (chars text.now) }
{
    let bytes = text.as_bytes();
    is_http(bytes) || begins_scheme(bytes)
}

/// Whether `http:` or `https:` comes first, and at least six bytes. Most IRIs begin so.
#[inline(always)]
fn is_http(bytes: &[u8]) -> bool
    ensures { result ≡ is_http bytes.now }
{
    bytes.len() > 5
        && bytes[0] == b'h'
        && bytes[1] == b't'
        && bytes[2] == b't'
        && bytes[3] == b'p'
        && (bytes[4] == b':' || bytes[4] == b's' && bytes[5] == b':')
}

/// Whether a letter comes first, and bytes of a scheme up to a colon.
fn begins_scheme(bytes: &[u8]) -> bool
    ensures { result ≡ has_scheme bytes.now }
{
    if bytes.is_empty() || !is_letter(bytes[0]) {
        return false;
    }
    let mut at = 1;
    while at < bytes.len() {
        let byte = bytes[at];
        if byte == b':' {
            return true;
        }
        if !is_scheme_byte(byte) {
            return false;
        }
        at += 1;
    }
    false
}

fn is_letter(byte: u8) -> bool
    ensures { result ≡ is_letter byte }
{
    matches!(byte, b'A'..=b'Z' | b'a'..=b'z')
}

/// ALPHA, DIGIT, `+`, `-` or `.`
fn is_scheme_byte(byte: u8) -> bool
    ensures { result ≡ (is_letter byte || is_digit byte || byte == 43 || byte == 45 || byte == 46) }
{
    matches!(byte, b'A'..=b'Z' | b'a'..=b'z' | b'0'..=b'9' | b'+' | b'-' | b'.')
}
