// Documents in pieces of all lengths, and what is held of an open statement.

ghost use Rattle.std.specs.Prelude.{◌≡◌, ◌≤◌, false, length};

use rdf_iri::Limits;
use rdf_lines::LineForm;
use rdf_terms::Reason;
use read_pieces::{Document, Form, Piece, RecordingSink, Report, read, recording_sink};
use std::alloc::Global;

/// How many quads, tokens and bytes a document has, or why it is refused, at which byte and line.
type Answer = Result<(u64, u64, u64), (Reason, u64, u64)>;

/// A document: its format and its bytes, the lines of its quads, and the answer.
type Row = (LineForm, &'static [u8], &'static str, Answer);

/// Reads a document whose first bytes come in one piece, and the others one by one, with tokens of 18 characters
/// and IRIs of 14 bytes.
fn read_cut(
    alloc: Global,
    form: LineForm,
    first: &[u8],
    rest: &[u8],
    sink: &mut RecordingSink,
) -> Option<Report>
    requires { sink.old.failed ≡ false }
{
    let pieces = [Piece(first, 1)];
    let document = Document {
        pieces: pieces.as_slice(),
        rest,
    };
    let limits = Limits::new(18, 0, 0, 14)?;
    read(alloc, Form::Lines(form), limits, &document, sink)
}

/// Whether this was to be answered for a document.
fn is_answered(answer: Answer, report: &Report) -> bool {
    report.has_ended
        && match report.answer {
            Ok(summary) => answer == Ok((summary.quads, summary.tokens, summary.bytes)),
            Err(fault) => answer == Err((fault.reason, fault.offset, fault.line)),
        }
}

fn is_read_cut(
    alloc: Global,
    form: LineForm,
    bytes: &[u8],
    cut: usize,
    lines: &str,
    answer: Answer,
) -> bool
    requires { cut ≤ length bytes.now }
{
    let mut sink = recording_sink(alloc, 64);
    let (first, rest) = bytes.split_at(cut);
    match read_cut(alloc, form, first, rest, &mut sink) {
        Some(report) => is_answered(answer, &report) && sink.lines.as_slice() == lines.as_bytes(),
        None => false,
    }
}

/// Whether a document puts its lines and reports what it is to, wherever the bytes begin to come one by one.
fn is_read(alloc: Global, row: &Row) -> bool {
    let (form, bytes, lines, answer) = *row;
    for cut in 0..=bytes.len() {
        if !is_read_cut(alloc, form, bytes, cut, lines, answer) {
            return false;
        }
    }
    true
}

const LINE: &str = "<a:s> <a:p> <a:o> .\n";

#[rattlefmt::skip]
static ROWS: [Row; 15] = [
    (LineForm::NQuads, b"", "", Ok((0, 0, 0))),
    (LineForm::NQuads, b"\xEF\xBB\xBF_:x.y <a:p> \"\\u0041\"@en <a:g>. # c\r\n\n<a:s> <a:p> \"\"^^<a:t> .",
        "_:nx.y <a:p> \"A\"@en <a:g> .\n<a:s> <a:p> \"\"^^<a:t> .\n", Ok((2, 15, 63))),
    (LineForm::NQuads, b"<a:s> <a:p> <a:o>.\n<a:s> <a:p> <a:o>.", "<a:s> <a:p> <a:o> .\n<a:s> <a:p> <a:o> .\n",
        Ok((2, 9, 37))),
    (LineForm::NQuads, b"<a:s> <a:p> <a:o> . <a:s> <a:p> <a:o> .", LINE, Err((Reason::Unexpected, 20, 1))),
    (LineForm::NQuads, b"<a:s> <a:p> <a:o> .\n<s> <a:p> <a:o> .", LINE, Err((Reason::RelativeIri, 20, 2))),
    (LineForm::NQuads, b"\n<a:s> <a:p>\n", "", Err((Reason::Unexpected, 12, 2))),
    (LineForm::NQuads, b"\xEF\xBB\xBF<a:s> <a:p> <a:o>", "", Err((Reason::Unexpected, 20, 1))),
    (LineForm::NQuads, b"<a:s> <a:p> \"\"\"\" .", "", Err((Reason::Unexpected, 14, 1))),
    (LineForm::NQuads, b"<a:s> <a:p> \"\\uD800\" .", "", Err((Reason::BadEscape, 12, 1))),
    (LineForm::NQuads, b"<a:s> <a:p> 1 .", "", Err((Reason::NoToken, 12, 1))),
    (LineForm::NQuads, b"<a:s> <a:0123456789abcdef> .", "", Err((Reason::TokenTooLong, 6, 1))),
    (LineForm::NQuads, b"<a:s> <a:\\u004123456789> <a:0123456789ab> .\n<a:0123456789a\xC3\xA9> <a:p> <a:o> .",
        "<a:s> <a:A23456789> <a:0123456789ab> .\n", Err((Reason::IriTooLong, 44, 2))),
    (LineForm::NQuads, b"<0123456789abcde> <a:p> <a:o> .", "", Err((Reason::RelativeIri, 0, 1))),
    (LineForm::NTriples, b"<a:s> <a:p> <a:o> <a:g> .", "", Err((Reason::Unexpected, 18, 1))),
    (LineForm::NTriples, b"<a:s> <a:p> <a:o> .\n\xFF", LINE, Err((Reason::BadUtf8, 20, 2))),
];

#[test]
fn a_document_is_read_the_same_however_it_is_cut(rt: HostRuntime) {
    for row in ROWS.as_slice() {
        let (_, bytes, ..) = row;
        assert!(rt; is_read(rt.alloc(), row), "{}", bytes.escape_ascii());
    }
}

/// How many bytes a reader holds that was fed a text, whether it was refused or not.
fn held_after(alloc: Global, text: &str) -> Option<u64> {
    let mut sink = recording_sink(alloc, 64);
    let report = read_cut(alloc, LineForm::NQuads, text.as_bytes(), b"", &mut sink)?;
    Some(report.held)
}

/// Texts, and how many bytes are held after them.
static HELD: [(&str, u64); 8] = [
    ("", 0),
    ("<a:s", 4),
    ("<a:s> <a:", 6),
    ("<a:s> <a:p> \"a\u{E9}\"@en ", 11),
    ("_:x1 <a:p> \"\\u0041b\"^^<a:t> _:g ", 11),
    ("<a:s> <a:p> \"ab\" .", 0),
    ("<a:s> <a:p> <a:o> _:g <a:x> ", 11),
    ("<a:s> <a:p> x", 7),
];

#[test]
fn the_texts_of_an_open_statement_are_held(rt: HostRuntime) {
    for (text, held) in HELD.as_slice() {
        assert_eq!(rt; held_after(rt.alloc(), text), Some(*held), "{text}");
    }
}
