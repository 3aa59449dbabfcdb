// Documents whole and in pieces, and what becomes of them.

ghost use Rattle.std.specs.Prelude.{◌≡◌, ◌≤◌, false, length};

use crate::documents::{Row, Set, base, documents, is_of, limits};
use rdf_stream::{Form, StreamFault, report};
use rdf_terms::Iri;
use rdf_trig::{DocForm, Fault, Options, read_document};
use read_pieces::{
    Document, Piece, RecordingSink, Report, has_lines, read_statements, recording_sink,
};
use std::alloc::Global;

fn options(alloc: Global, set: Set, form: DocForm) -> Option<Options> {
    let iri = base(set);
    let base = if iri.is_empty() {
        None
    } else {
        Iri::new(alloc, iri).ok()
    };
    Options::new(form, base, limits(set))
}

/// Reads a document whose first bytes come in one piece, and the others one by one.
fn read_cut(
    alloc: Global,
    options: Options,
    first: &[u8],
    rest: &[u8],
    sink: &mut RecordingSink,
) -> Report
    requires { sink.old.failed ≡ false }
{
    let pieces = [Piece(first, 1)];
    let document = Document {
        pieces: pieces.as_slice(),
        rest,
    };
    read_statements(alloc, options, &document, sink)
}

/// Whether the text is these lines, and after them the line that reports the fault.
fn is_reported(alloc: Global, lines: &[u8], fault: Fault, text: &str) -> bool {
    let mut line = Vec::new(alloc);
    report(alloc, &StreamFault::Refused(fault), &mut line).is_ok()
        && text.as_bytes().strip_prefix(lines) == Some(line.as_slice())
}

/// Whether this was to be reported of a document of so many bytes whose quads the sink took.
fn is_answered(
    alloc: Global,
    report: &Report,
    len: usize,
    sink: &RecordingSink,
    text: &str,
) -> bool {
    let lines = sink.lines.as_slice();
    report.has_ended
        && match report.answer {
            Ok(summary) => {
                summary.quads == sink.quads
                    && summary.bytes == len as u64
                    && lines == text.as_bytes()
            }
            Err(fault) => is_reported(alloc, lines, fault, text),
        }
}

fn is_read_cut(alloc: Global, options: Options, bytes: &[u8], cut: usize, text: &str) -> bool
    requires { cut ≤ length bytes.now }
{
    let mut sink = recording_sink(alloc, 64);
    let (first, rest) = bytes.split_at(cut);
    let report = read_cut(alloc, options, first, rest, &mut sink);
    is_answered(alloc, &report, bytes.len(), &sink, text)
}

/// Whether the line that reports the fault ends the text.
fn is_reported_last(alloc: Global, fault: Fault, text: &str) -> bool {
    let mut line = Vec::new(alloc);
    report(alloc, &StreamFault::Refused(fault), &mut line).is_ok()
        && text.as_bytes().ends_with(line.as_slice())
}

fn is_read_at_once(alloc: Global, options: Options, bytes: &[u8], text: &str) -> bool {
    match read_document(alloc, options, bytes) {
        Ok(list) => has_lines(alloc, &list, text),
        Err(fault) => is_reported_last(alloc, fault, text),
    }
}

/// Whether a document puts its lines and reports what it is to, at once and wherever the bytes begin to come one by
/// one.
fn is_read(alloc: Global, form: DocForm, row: &Row) -> Option<bool> {
    let (set, bytes, text) = *row;
    for cut in 0..=bytes.len() {
        if !is_read_cut(alloc, options(alloc, set, form)?, bytes, cut, text) {
            return Some(false);
        }
    }
    Some(is_read_at_once(alloc, options(alloc, set, form)?, bytes, text))
}

#[test]
fn a_document_of_turtle_is_read_the_same_however_it_is_cut(rt: HostRuntime) {
    for row in documents() {
        let (set, bytes, _) = *row;
        if is_of(set, Form::Turtle) {
            assert!(rt;
                is_read(rt.alloc(), DocForm::Turtle, row) == Some(true),
                "{}",
                bytes.escape_ascii()
            );
        }
    }
}

#[test]
fn a_document_of_trig_is_read_the_same_however_it_is_cut(rt: HostRuntime) {
    for row in documents() {
        let (set, bytes, _) = *row;
        if is_of(set, Form::TriG) {
            assert!(rt;
                is_read(rt.alloc(), DocForm::TriG, row) == Some(true),
                "{}",
                bytes.escape_ascii()
            );
        }
    }
}
