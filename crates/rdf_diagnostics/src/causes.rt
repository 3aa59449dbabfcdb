// The likely cause of a refusal, and what to do about it.

ghost use Rattle.std.specs.Prelude.{◌≡◌, false, nat_eq};
ghost use Rattle.std.specs.List.{list_any};
ghost use Rattle.rdf_diagnostics.specs.Causes.{advice_text, bad_escape_rows, bad_utf8_rows, cause_of, first};
ghost use Rattle.rdf_diagnostics.specs.Causes.{no_token_rows, row, unbound_rows, unexpected_rows};

use crate::signs::{
    has_space_before, has_surrogate, is_badly_escaped, is_direction, is_directive, is_in_directive,
    is_json_ld, is_latin1, is_mark, is_month, is_open_string, is_packed, is_prefix_without_colon,
    is_slash_in_name, is_triple_term, is_turtle, is_underscore_in_tag, is_utf16, is_web_page,
    is_xml, starts_word,
};
use rdf_terms::Reason;

/// What mostly causes a refusal, where the bytes at its place tell it.
#[derive(Clone, Copy, Debug, PartialEq, Eq)]
pub enum Cause {
    /// The document is packed.
    Packed,
    /// The document is UTF-16.
    Utf16,
    /// The document is Windows-1252 or ISO 8859-1.
    Latin1,
    /// The document is a web page.
    WebPage,
    /// The document is XML.
    Xml,
    /// The document is JSON-LD.
    JsonLd,
    /// A triple term or an annotation of RDF 1.2.
    TripleTerm,
    /// A language with a direction, of RDF 1.2.
    Direction,
    /// A byte order mark that is not at the front of the document.
    ByteOrderMark,
    /// A space in an IRI.
    SpaceInIri,
    /// An IRI without its `>`.
    OpenIri,
    /// A `_` in a language tag.
    UnderscoreInTag,
    /// A `/` in a local name.
    SlashInName,
    /// A backslash in a string that begins no escape.
    BadBackslash,
    /// A string of one line that is not closed on it.
    OpenString,
    /// An escape of a surrogate.
    Surrogates,
    /// What only Turtle and TriG have, in a document that is read as lines.
    OnlyTurtle,
    /// A prefix that is to be bound, without its colon.
    PrefixWithoutColon,
    /// No dot after a string that stands before `@prefix` or `@base`.
    NoDotBefore,
    /// A name without its prefix, or a string without quotes.
    BareWord,
    /// A date without quotes.
    DateWithoutQuotes,
}

/// The likely cause of a refusal for this reason at this byte, or none where the bytes do not tell it. `before` has the
/// bytes of the line in front of the place, `after` those from there on, without its LF: the last and the first 240 of
/// them or more, or all. A cause is no more than likely; a refusal stands by its reason.
pub fn cause_of(reason: Reason, offset: u64, before: &[u8], after: &[u8]) -> Option<Cause>
    ensures { result ≡ cause_of reason offset before.now after.now }
{
    match reason {
        Reason::BadUtf8 => first(&bad_utf8_rows(offset, after)),
        Reason::NoToken => first(&no_token_rows(offset, before, after)),
        Reason::BadEscape => first(&bad_escape_rows(after)),
        Reason::Unexpected => first(&unexpected_rows(offset, before, after)),
        Reason::Unbound => first(&unbound_rows(after)),
        _ => None,
    }
}

/// What to do about the cause: some words of one line, without its end.
pub fn advice(cause: Cause) -> &'static str
    ensures value { result.now ≡ advice_text cause }
    ensures one_line { list_any (nat_eq 10) result.now ≡ false }
{
    match cause {
        Cause::Packed => {
            "the document is packed: unpack it first, as by gzip -dc, bzip2 -dc, xz -dc or unzip -p"
        }
        Cause::Utf16 => "the document is UTF-16: convert it first, as by iconv -f UTF-16 -t UTF-8",
        Cause::Latin1 => {
            "the document is probably Windows-1252 or ISO 8859-1: convert it, as by iconv -f WINDOWS-1252 -t UTF-8"
        }
        Cause::WebPage => {
            "the document is a web page: ask for its data, as by curl -L -H 'Accept: text/turtle'"
        }
        Cause::Xml => {
            "the document is XML: convert RDF/XML first, as by rapper -i rdfxml -o ntriples"
        }
        Cause::JsonLd => "the document is JSON-LD: convert it with another tool first",
        Cause::TripleTerm => {
            "RDF 1.2 has triple terms and annotations: only the formats of 2014 are read"
        }
        Cause::Direction => "RDF 1.2 has directions of texts: only the formats of 2014 are read",
        Cause::ByteOrderMark => {
            "files with byte order marks were joined: take each mark out, as by sed '1s/^\\xEF\\xBB\\xBF//'"
        }
        Cause::SpaceInIri => "an IRI has no spaces: write %20 for each",
        Cause::OpenIri => "the IRI is not closed: write > at its end",
        Cause::UnderscoreInTag => "a language tag has no _: write -, as in en-US",
        Cause::SlashInName => "a local name has no /: write \\/, or the whole IRI in < and >",
        Cause::BadBackslash => { "the string has a \\ that begins no escape: write \\\\ for it" }
        Cause::OpenString => {
            "the string is not closed: write \\n for a line end, or in Turtle and TriG \"\"\" at both ends"
        }
        Cause::Surrogates => {
            "a surrogate is no character: write one escape for both of a pair, as \\U0001F600"
        }
        Cause::OnlyTurtle => "only Turtle and TriG have this: name the format, as by --format ttl",
        Cause::PrefixWithoutColon => {
            "the prefix has no colon: write @prefix ex: <http://example.org/> ."
        }
        Cause::NoDotBefore => {
            "the . of the statement before the directive is missing: write it after the string"
        }
        Cause::BareWord => "a name has a prefix, and a string quotes: write ex:word or \"word\"",
        Cause::DateWithoutQuotes => {
            "a date is a string with its datatype: write \"2020-01-01\"^^xsd:date"
        }
    }
}

// The first cause.
fn first(rows: &[Option<Cause>]) -> Option<Cause>
    ensures { result ≡ first rows.now }
{
    for &row in rows {
        if row.is_some() {
            return row;
        }
    }
    None
}

// The cause, where its sign is there.
fn row(is_there: bool, cause: Cause) -> Option<Cause>
    ensures { result ≡ row is_there cause }
{
    if is_there { Some(cause) } else { None }
}

fn bad_utf8_rows(offset: u64, after: &[u8]) -> [Option<Cause>; 3]
    ensures { result ≡ bad_utf8_rows offset after.now }
{
    [
        row(is_packed(offset, after), Cause::Packed),
        row(is_utf16(offset, after), Cause::Utf16),
        row(is_latin1(offset, after), Cause::Latin1),
    ]
}

fn no_token_rows(offset: u64, before: &[u8], after: &[u8]) -> [Option<Cause>; 16]
    ensures { result ≡ no_token_rows offset before.now after.now }
{
    [
        row(is_packed(offset, after), Cause::Packed),
        row(is_web_page(after), Cause::WebPage),
        row(is_xml(after), Cause::Xml),
        row(is_json_ld(after), Cause::JsonLd),
        row(is_triple_term(after), Cause::TripleTerm),
        row(is_direction(after), Cause::Direction),
        row(is_mark(after), Cause::ByteOrderMark),
        row(has_space_before(b'>', after), Cause::SpaceInIri),
        row(has_space_before(b'<', after), Cause::OpenIri),
        row(is_underscore_in_tag(before, after), Cause::UnderscoreInTag),
        row(is_slash_in_name(before, after), Cause::SlashInName),
        row(is_badly_escaped(after), Cause::BadBackslash),
        row(is_open_string(after), Cause::OpenString),
        row(is_turtle(after), Cause::OnlyTurtle),
        row(
            is_prefix_without_colon(before, after),
            Cause::PrefixWithoutColon,
        ),
        row(starts_word(after), Cause::BareWord),
    ]
}

fn bad_escape_rows(after: &[u8]) -> [Option<Cause>; 1]
    ensures { result ≡ bad_escape_rows after.now }
{
    [row(has_surrogate(after), Cause::Surrogates)]
}

fn unexpected_rows(offset: u64, before: &[u8], after: &[u8]) -> [Option<Cause>; 5]
    ensures { result ≡ unexpected_rows offset before.now after.now }
{
    [
        row(is_json_ld(after), Cause::JsonLd),
        row(is_triple_term(after), Cause::TripleTerm),
        row(is_directive(offset, after), Cause::OnlyTurtle),
        row(is_in_directive(before, after), Cause::NoDotBefore),
        row(is_month(after), Cause::DateWithoutQuotes),
    ]
}

fn unbound_rows(after: &[u8]) -> [Option<Cause>; 1]
    ensures { result ≡ unbound_rows after.now }
{
    [row(is_mark(after), Cause::ByteOrderMark)]
}
