// The likely causes of refusals, by the bytes at their places.

use rdf_iri::Limits;
use rdf_stream::{Cause, Form, In, Job, StreamFault, advice, cause_of, check};
use std::alloc::Global;

/// Documents of one line that are refused: the format, the bytes, and the likely cause, if there is one.
#[rattlefmt::skip]
static ROWS: [(Form, &[u8], Option<Cause>); 52] = [
    (Form::Turtle, b"\x1F\x8B\x08", Some(Cause::Packed)),
    (Form::NTriples, b"BZh91AY&SY", Some(Cause::Packed)),
    (Form::Turtle, b"\xFD7zXZ\0\0\x04", Some(Cause::Packed)),
    (Form::TriG, b"PK\x03\x04\x14", Some(Cause::Packed)),
    (Form::Turtle, b" \x1F\x8B\x08", None),
    (Form::NQuads, b"\xFF\xFE<\0a\0", Some(Cause::Utf16)),
    (Form::Turtle, b"\xFE\xFF\0<\0a", Some(Cause::Utf16)),
    (Form::NTriples, b"<a:s> <a:p> \"caf\xE9\" .", Some(Cause::Latin1)),
    (Form::Turtle, b"<a:s> <a:p> \"caf\xC3", None),
    (Form::Turtle, b"\x89PNG", None),
    (Form::TriG, b"<!DOCTYPE html>", Some(Cause::WebPage)),
    (Form::NTriples, b"<html lang=\"en\">", Some(Cause::WebPage)),
    (Form::NTriples, b"<?xml version=\"1.0\"?>", Some(Cause::Xml)),
    (Form::Turtle, b"<rdf:RDF xmlns:rdf=\"http://www.w3.org/1999/02/22-rdf-syntax-ns#\"/>", Some(Cause::Xml)),
    (Form::Turtle, b"{\"@context\": \"http://a/\"}", Some(Cause::JsonLd)),
    (Form::TriG, b"{ \"@context\": \"http://a/\" }", Some(Cause::JsonLd)),
    (Form::TriG, b"{   \"@id\": \"http://a/\"", Some(Cause::JsonLd)),
    (Form::TriG, b"{   \"@type\": \"Person\"", Some(Cause::JsonLd)),
    (Form::TriG, b"{   \"@idea\": 1", None),
    (Form::NTriples, b"{\"@id\": \"a:s\"}", Some(Cause::JsonLd)),
    (Form::Turtle, b"<< <a:s> <a:p> <a:o> >> <a:q> 1 .", Some(Cause::TripleTerm)),
    (Form::NTriples, b"<a:s> <a:p> <<( <a:s> <a:p> <a:o> )>> .", Some(Cause::TripleTerm)),
    (Form::Turtle, b"<a:s> <a:p> <a:o> {| <a:q> 1 |} .", Some(Cause::TripleTerm)),
    (Form::NTriples, b"<a:s> <a:p> \"x\"@en--ltr .", Some(Cause::Direction)),
    (Form::NTriples, b"<a:s> <a:p> <a:o> . \xEF\xBB\xBF<a:s>", Some(Cause::ByteOrderMark)),
    (Form::Turtle, b"<a:s> <a:p> \xEF\xBB\xBFex:o .", Some(Cause::ByteOrderMark)),
    (Form::NTriples, b"<a:s> <a:p> <a:o b> .", Some(Cause::SpaceInIri)),
    (Form::Turtle, b"<a:s <a:p> <a:o> .", Some(Cause::OpenIri)),
    (Form::Turtle, b"<a:s> <a:p> <a:o .", None),
    (Form::NTriples, b"<a:s> <a:p> \"x\"@en_US .", Some(Cause::UnderscoreInTag)),
    (Form::Turtle, b"<a:s> <a:p> _x .", None),
    (Form::Turtle, b"PREFIX ex: <a:> ex:s ex:p ex:a/b .", Some(Cause::SlashInName)),
    (Form::NTriples, b"<a:s> <a:p> \"C:\\temp\\x\" .", Some(Cause::BadBackslash)),
    (Form::Turtle, b"<a:s> <a:p> \"C:\\Users\" .", Some(Cause::BadBackslash)),
    (Form::NTriples, b"<a:s> <a:p> \"one .", Some(Cause::OpenString)),
    (Form::NTriples, b"<a:s> <a:p> \"\\uD83D\\uDE00\" .", Some(Cause::Surrogates)),
    (Form::NTriples, b"<a:s> <a:p> <a:\\u0020> .", None),
    (Form::NTriples, b"ex:s ex:p ex:o .", Some(Cause::OnlyTurtle)),
    (Form::NTriples, b"PREFIX ex: <a:>", Some(Cause::OnlyTurtle)),
    (Form::NQuads, b"@prefix ex: <a:> .", Some(Cause::OnlyTurtle)),
    (Form::NQuads, b"<a:s> <a:p> 12 .", Some(Cause::OnlyTurtle)),
    (Form::NTriples, b"<a:s> a <a:o> .", Some(Cause::OnlyTurtle)),
    (Form::NTriples, b"<a:s> <a:p> [] .", Some(Cause::OnlyTurtle)),
    (Form::Turtle, b"@prefix ex <a:> .", Some(Cause::PrefixWithoutColon)),
    (Form::Turtle, b"PREFIX ex <a:>", Some(Cause::PrefixWithoutColon)),
    (Form::Turtle, b"<a:s> <a:p> \"x\" @prefix ex: <a:> .", Some(Cause::NoDotBefore)),
    (Form::Turtle, b"<a:s> <a:p> \"x\" @base <a:> .", Some(Cause::NoDotBefore)),
    (Form::Turtle, b"@prefix ex:s <a:> .", None),
    (Form::Turtle, b"<a:s> author \"x\" .", Some(Cause::BareWord)),
    (Form::NTriples, b"<a:s> <a:p> word .", Some(Cause::BareWord)),
    (Form::Turtle, b"<a:s> <a:p> 2020-01-01 .", Some(Cause::DateWithoutQuotes)),
    (Form::Turtle, b"<s> <a:p> <a:o> .", None),
];

/// The likely cause of the refusal of a document of one line, where it is refused.
fn cause_in(alloc: Global, form: Form, bytes: &[u8]) -> Option<Option<Cause>> {
    let job = Job::new(form, None, Limits::default())?;
    match check(alloc, job, &mut In::new(bytes)) {
        Err(StreamFault::Refused(fault)) => {
            let place = usize::try_from(fault.offset).ok()?;
            let (before, after) = (bytes.get(..place)?, bytes.get(place..)?);
            Some(cause_of(fault.reason, fault.offset, before, after))
        }
        _ => None,
    }
}

#[test]
fn a_cause_is_told_where_the_bytes_tell_it(rt: HostRuntime) {
    for (form, bytes, cause) in ROWS.as_slice() {
        assert_eq!(rt;
            cause_in(rt.alloc(), *form, bytes),
            Some(*cause),
            "{}",
            bytes.escape_ascii()
        );
    }
}

#[test]
fn a_cause_has_its_advice(rt: HostRuntime) {
    assert!(rt; advice(Cause::SpaceInIri) == "an IRI has no spaces: write %20 for each");
}
