// Documents whose sink fails at one of its puts.

use rdf_lines::LineForm;
use rdf_terms::Reason;
use rdf_trig::DocForm;
use read_pieces::{Form, RecordingSink, Report, read_pieces, recording_sink};
use std::alloc::Global;

/// What reading a document comes to, if the next call reports that reading has ended.
#[derive(Clone, Copy, PartialEq, Eq)]
enum Answer {
    /// It is read, and has so many quads.
    Whole(u64),
    /// The sink failed.
    Sink,
    Wrong,
}

impl Answer {
    fn of(report: Option<Report>) -> Answer {
        let Some(report) = report else {
            return Answer::Wrong;
        };
        match report.answer {
            _ if !report.has_ended => Answer::Wrong,
            Ok(summary) => Answer::Whole(summary.quads),
            Err(fault) if fault.reason == Reason::Sink => Answer::Sink,
            Err(_) => Answer::Wrong,
        }
    }
}

/// What a document comes to whose sink has room for so many quads and fails at the put after them.
fn put(alloc: Global, form: Form, room: u64) -> (Answer, RecordingSink) {
    let mut sink = recording_sink(alloc, room);
    let answer = Answer::of(read_pieces(alloc, form, &mut sink));
    (answer, sink)
}

/// Whether the sink failed at the put after so many, and has a beginning of the lines.
fn is_beginning(sink: &RecordingSink, room: u64, whole: &RecordingSink) -> bool {
    sink.failed
        && sink.puts == room.saturating_add(1)
        && whole.lines.as_slice().starts_with(sink.lines.as_slice())
}

/// More quads than any of these documents has.
const MOST: u64 = 100;

/// The quads of a document, if reading stops at each put that fails, wherever one does.
fn quads_of(alloc: Global, form: Form) -> Option<u64> {
    let (answer, whole) = put(alloc, form, MOST);
    for room in 0..whole.quads {
        let (stopped, sink) = put(alloc, form, room);
        if stopped != Answer::Sink || !is_beginning(&sink, room, &whole) {
            return None;
        }
    }
    if answer == Answer::Whole(whole.quads) {
        Some(whole.quads)
    } else {
        None
    }
}

#[test]
fn a_document_stops_at_the_put_that_fails(rt: HostRuntime) {
    for (form, quads) in [
        (Form::Lines(LineForm::NTriples), 4),
        (Form::Lines(LineForm::NQuads), 4),
        (Form::Statements(DocForm::Turtle), 22),
        (Form::Statements(DocForm::TriG), 22),
    ] {
        assert!(rt; quads_of(rt.alloc(), form) == Some(quads), "{form:?}");
    }
}
