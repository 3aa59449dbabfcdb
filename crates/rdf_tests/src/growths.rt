// How often the readers grow their buffers over lines that are alike.

use rdf_iri::Limits;
use rdf_lines::LineForm;
use rdf_trig::DocForm;
use read_pieces::{CountingSink, Document, Form, Piece, read};
use refusing_alloc::Refusing;
use std::alloc::{Allocator, Global};

/// Reads so many lines of a form, a line a call, and says whether all were read.
fn is_read<A: Allocator + Copy>(alloc: A, form: Form, line: &[u8], lines: u32) -> bool {
    let pieces = [Piece(line, lines)];
    let document = Document {
        pieces: pieces.as_slice(),
        rest: b"",
    };
    let mut sink = CountingSink { quads: 0 };
    match read(alloc, form, Limits::default(), &document, &mut sink) {
        Some(report) => report.answer.is_ok(),
        None => false,
    }
}

/// How many growths so many lines take, found by refusing each of them in turn.
fn growths(alloc: Global, form: Form, line: &[u8], lines: u32) -> Option<u64> {
    for calls in 0..5000 {
        let memory = Refusing::after(alloc, calls);
        let is_read = is_read(&memory, form, line, lines);
        if !memory.has_refused() {
            return if is_read { Some(calls) } else { None };
        }
    }
    None
}

/// Whether some lines are read, and more lines take no more growths.
fn takes_no_more(alloc: Global, form: Form, line: &[u8]) -> bool {
    let few = growths(alloc, form, line, 2);
    few.is_some()
        && growths(alloc, form, line, 128) == few
        && growths(alloc, form, line, 256) == few
}

#[rattlefmt::skip]
static ALIKE: [(Form, &[u8]); 2] = [
    (Form::Lines(LineForm::NQuads), b"_:s <http://a/p> \"a\\u0062 c\"@en <http://a/g> .\n"),
    (Form::Statements(DocForm::TriG), b"\
        _:s <http://a/p> [ a 1 ; <http://a/p> \"a\"@en , \"1\"^^<http://a/t> , 1.5 , true ] , ( 1 _:o ) , \
        \"\"\"x\"\"\" .\n"),
];

#[test]
fn a_line_like_those_before_it_takes_no_memory(rt: HostRuntime) {
    for (form, line) in ALIKE.as_slice() {
        assert!(rt; takes_no_more(rt.alloc(), *form, line), "{form:?}");
    }
}
