// Which kind of token the readers find to be unexpected, and which they name in its place, and runs beside their
// faults.

ghost use Rattle.std.specs.Prelude.{◌≤◌, false, length};

use rdf_driver::Kinds;
use rdf_iri::Limits;
use rdf_lines::LineForm;
use rdf_stream::{
    Details, Evidence, Form as Format, In, Job, Nearby, Out, StreamFault, check_expecting,
    convert_expecting, explain,
};
use rdf_terms::{Kind, Reason};
use rdf_trig::DocForm;
use read_pieces::{Document, Form, Piece, Report, read, recording_sink};
use std::alloc::Global;

/// A document with an unexpected token: its format and its bytes; the place and the kind of the token; and the kinds
/// that could stand there.
type Row = (Format, &'static [u8], u64, Kind, &'static [Kind]);

/// The set of some kinds.
fn set_of(kinds: &[Kind]) -> Kinds {
    let mut set = Kinds::none();
    for kind in kinds {
        set = set.with(*kind);
    }
    set
}

/// The form of documents of this format.
fn form_of(format: Format) -> Form {
    match format {
        Format::NTriples => Form::Lines(LineForm::NTriples),
        Format::NQuads => Form::Lines(LineForm::NQuads),
        Format::Turtle => Form::Statements(DocForm::Turtle),
        Format::TriG => Form::Statements(DocForm::TriG),
    }
}

fn is_named(row: &Row, report: &Report) -> bool {
    let (_, _, offset, found, kinds) = *row;
    report.expected.bits() == set_of(kinds).bits()
        && report.found == Some(found)
        && match report.answer {
            Ok(_) => false,
            Err(fault) => fault.reason == Reason::Unexpected && fault.offset == offset,
        }
}

/// What comes of a document whose first bytes come in one piece, and the others one by one.
fn read_cut(alloc: Global, form: Form, bytes: &[u8], cut: usize) -> Option<Report>
    requires { cut ≤ length bytes.now }
{
    let mut sink = recording_sink(alloc, 64);
    let (first, rest) = bytes.split_at(cut);
    let pieces = [Piece(first, 1)];
    let document = Document {
        pieces: pieces.as_slice(),
        rest,
    };
    read(alloc, form, Limits::default(), &document, &mut sink)
}

#[rattlefmt::skip]
static ROWS: [Row; 19] = [
    (Format::NTriples, b"<a:s> <a:p> <a:o> <a:g> .", 18, Kind::IriRef, &[Kind::Dot]),
    (Format::NQuads, b"<a:s> <a:p> <a:o> \"g\" .", 18, Kind::ShortString, &[Kind::IriRef, Kind::LabelNode, Kind::Dot]),
    (Format::NQuads, b"<a:s> <a:p> \"x\" \"g\" .", 16, Kind::ShortString,
        &[Kind::IriRef, Kind::LabelNode, Kind::LangTag, Kind::Carets, Kind::Dot]),
    (Format::NQuads, b"<a:s> <a:p> <a:o> <a:g> <a:g>", 24, Kind::IriRef, &[Kind::Dot]),
    (Format::NTriples, b"<a:s> <a:p> \"x\"^^_:t .", 17, Kind::LabelNode, &[Kind::IriRef]),
    (Format::NTriples, b"<a:s> _:p <a:o> .", 6, Kind::LabelNode, &[Kind::IriRef]),
    (Format::NTriples, b"<a:s> <a:p> . ", 12, Kind::Dot, &[Kind::IriRef, Kind::LabelNode, Kind::ShortString]),
    (Format::NTriples, b"<a:s> <a:p> <a:o> . <a:s>", 20, Kind::IriRef, &[Kind::LineEnd, Kind::End]),
    (Format::NTriples, b"\"s\"", 0, Kind::ShortString, &[Kind::IriRef, Kind::LabelNode, Kind::LineEnd, Kind::End]),
    (Format::Turtle, b"<a:s> <a:p> [ <a:q> 1 .", 22, Kind::Dot, &[Kind::Semicolon, Kind::Comma, Kind::CloseBracket]),
    (Format::Turtle, b"<a:s> <a:p> <a:o> }", 18, Kind::CloseBrace, &[Kind::Dot, Kind::Semicolon, Kind::Comma]),
    (Format::Turtle, b"<a:s> \"p\" 1 .", 6, Kind::ShortString, &[Kind::IriRef, Kind::A, Kind::PnameNs, Kind::PnameLn]),
    (Format::TriG, b"<a:s> \"p\" 1 .", 6, Kind::ShortString,
        &[Kind::IriRef, Kind::A, Kind::PnameNs, Kind::PnameLn, Kind::OpenBrace]),
    (Format::TriG, b"GRAPH [ <a:s>", 8, Kind::IriRef, &[Kind::CloseBracket]),
    (Format::TriG, b"<a:g> { <a:s> <a:p> \"x\" ]", 24, Kind::CloseBracket,
        &[Kind::LangTag, Kind::Carets, Kind::Dot, Kind::AtPrefix, Kind::AtBase, Kind::Semicolon, Kind::Comma,
          Kind::CloseBrace]),
    (Format::TriG, b"<a:s> <a:p> ( 1 . ", 16, Kind::Dot,
        &[Kind::IriRef, Kind::LabelNode, Kind::ShortString, Kind::LongString, Kind::Integer, Kind::Decimal,
          Kind::Double, Kind::True, Kind::False, Kind::PnameNs, Kind::PnameLn, Kind::OpenBracket, Kind::OpenParen,
          Kind::CloseParen]),
    (Format::Turtle, b"@prefix <a:b> .", 8, Kind::IriRef, &[Kind::PnameNs]),
    (Format::Turtle, b"[ <a:p> 1 ] , ", 12, Kind::Comma,
        &[Kind::IriRef, Kind::Dot, Kind::A, Kind::PnameNs, Kind::PnameLn]),
    (Format::Turtle, b"<a:s> <a:p> 1", 13, Kind::End, &[Kind::Dot, Kind::Semicolon, Kind::Comma]),
];

/// Whether the kinds are named wherever the bytes begin to come one by one.
fn is_named_always(alloc: Global, row: &Row) -> bool {
    let (format, bytes, ..) = *row;
    for cut in 0..=bytes.len() {
        match read_cut(alloc, form_of(format), bytes, cut) {
            Some(report) if is_named(row, &report) => {}
            _ => return false,
        }
    }
    true
}

#[test]
fn kinds_that_could_stand_there_are_named(rt: HostRuntime) {
    for row in ROWS.as_slice() {
        let (_, bytes, ..) = row;
        assert!(rt;
            is_named_always(rt.alloc(), row),
            "{}",
            bytes.escape_ascii()
        );
    }
}

/// A kind that is expected, and one that was found.
fn some_details() -> Details {
    Details {
        expected: Kinds::none().with(Kind::Graph),
        found: Some(Kind::Graph),
    }
}

/// What a check of the document hands out, and what a conversion does. Both come with details that are dropped.
fn handed_out(alloc: Global, format: Format, bytes: &[u8]) -> Option<(Details, Details)> {
    let mut checked = some_details();
    let mut converted = some_details();
    let job = Job::new(format, None, Limits::default())?;
    let mut unasked = Nearby::Unasked;
    let _ = check_expecting(alloc, job, &mut In::new(bytes), &mut checked, &mut unasked);
    let job = Job::new(format, None, Limits::default())?;
    let mut lines = Vec::new(alloc);
    let mut drain = Out::new(&mut lines);
    let _ = convert_expecting(
        alloc,
        job,
        &mut In::new(bytes),
        &mut drain,
        &mut converted,
        &mut unasked,
    );
    drop(drain);
    Some((checked, converted))
}

/// Whether these kinds and no others are expected, and this one was found.
fn has_details(details: &Details, kinds: &[Kind], found: Option<Kind>) -> bool {
    details.expected.bits() == set_of(kinds).bits() && details.found == found
}

/// Whether both hand out these kinds and no others, and this one.
fn hands_out(
    alloc: Global,
    format: Format,
    bytes: &[u8],
    kinds: &[Kind],
    found: Option<Kind>,
) -> bool {
    match handed_out(alloc, format, bytes) {
        Some((checked, converted)) => {
            has_details(&checked, kinds, found) && has_details(&converted, kinds, found)
        }
        None => false,
    }
}

#[test]
fn a_run_hands_out_the_kinds_that_could_stand_there(rt: HostRuntime) {
    for (format, bytes, _, found, kinds) in ROWS.as_slice() {
        assert!(rt;
            hands_out(rt.alloc(), *format, bytes, kinds, Some(*found)),
            "{}",
            bytes.escape_ascii()
        );
    }
}

/// Documents that are accepted, or refused for another reason.
static OTHERS: [&[u8]; 4] = [b"", b"<a:s> <a:p> <a:o> .", b"<a:s> <p> <a:o> .", b"\xff"];

#[test]
fn a_run_hands_out_no_kind_where_no_token_is_unexpected(rt: HostRuntime) {
    for bytes in OTHERS.as_slice() {
        assert!(rt;
            hands_out(rt.alloc(), Format::Turtle, bytes, &[], None),
            "{}",
            bytes.escape_ascii()
        );
    }
}

/// Documents, and the lines that explain their refusals where their name is `a`.
#[rattlefmt::skip]
static EXPLAINED: [(Format, &[u8], &str); 5] = [
    (Format::NTriples, b"<a:s> <a:p> \"x\" <a:g> .",
        "a:1: unexpected token: IRI; expected language tag, \"^^\" or \".\"\n"),
    (Format::NQuads, b"\n\n<a:s> <a:p> <a:o> <a:g> <a:g>", "a:3: unexpected token: IRI; expected \".\"\n"),
    (Format::NTriples, b"\"s\"",
        "a:1: unexpected token: string; expected IRI, blank node label, line end or end of document\n"),
    (Format::Turtle, b"@prefix <a:b> .", "a:1: unexpected token: IRI; expected prefix\n"),
    (Format::TriG, b"<a:s> <a:p> ( 1 . ", "\
        a:1: unexpected token: \".\"; expected IRI, blank node label, string, number, \"true\", \"false\", prefixed \
        name, \"[\", \"(\" or \")\"\n"),
];

/// Whether a refusal of the document named `a` is explained by this line.
fn is_explained(alloc: Global, format: Format, bytes: &[u8], line: &str) -> bool {
    let mut details = Details::none();
    let mut near = Nearby::Unasked;
    let limits = Limits::default();
    let Some(job) = Job::new(format, None, limits) else {
        return false;
    };
    match check_expecting(alloc, job, &mut In::new(bytes), &mut details, &mut near) {
        Err(StreamFault::Refused(fault)) => match explain(
            alloc,
            "a",
            &fault,
            &Evidence {
                details,
                near,
                limits,
            },
        ) {
            Ok(text) => text.as_slice() == line.as_bytes(),
            Err(_) => false,
        },
        _ => false,
    }
}

#[test]
fn a_refusal_is_explained_in_a_line(rt: HostRuntime) {
    for (format, bytes, line) in EXPLAINED.as_slice() {
        assert!(rt; is_explained(rt.alloc(), *format, bytes, line), "{line}");
    }
}
