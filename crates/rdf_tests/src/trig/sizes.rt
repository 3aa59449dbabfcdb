// Brackets in their tens of thousands, piece by piece, and how much is held.

use rdf_driver::{Fault, Summary};
use rdf_iri::Limits;
use rdf_terms::Reason;
use rdf_trig::DocForm;
use read_pieces::{CountingSink, Document, Form, Piece, Report, read};
use std::alloc::Global;

/// Documents with nested brackets: how many may be open; what opens some and what closes them, and how often each
/// comes; how many quads are put; and why the document is refused, at which byte, if it is.
#[rattlefmt::skip]
static NESTED: [(u64, &[u8], &[u8], u32, u64, Option<(Reason, u64)>); 3] = [
    (100_000, b"((((((((((", b"))))))))))", 10_000, 199_999, None),
    (100_000, b"[ <http://a/q> (", b")]", 50_000, 149_999, None),
    (99_999, b"((((((((((", b"))))))))))", 10_000, 99_998, Some((Reason::TooDeep, 100_025))),
];

/// What came of a document of pieces under these limits.
fn report(
    alloc: Global,
    limits: [u64; 4],
    pieces: &[Piece<'_>],
    sink: &mut CountingSink,
) -> Option<Report> {
    let [token, depth, bindings, iri] = limits;
    let limits = Limits::new(token, depth, bindings, iri)?;
    let document = Document { pieces, rest: b"" };
    read(
        alloc,
        Form::Statements(DocForm::TriG),
        limits,
        &document,
        sink,
    )
}

/// Whether this is why a document is refused, and at which byte, if it is.
fn is_answered(answer: Result<Summary, Fault>, refused: Option<(Reason, u64)>) -> bool {
    match answer {
        Ok(_) => refused.is_none(),
        Err(fault) => refused == Some((fault.reason, fault.offset)),
    }
}

/// Whether a document with these pieces in its object, where so many brackets may be open, puts so many quads and is
/// refused for that, if it is.
fn is_nested_so(
    alloc: Global,
    depth: u64,
    [open, close]: [Piece<'_>; 2],
    quads: u64,
    refused: Option<(Reason, u64)>,
) -> bool {
    let pieces = [
        Piece(b"<http://a/s> <http://a/p> ", 1),
        open,
        close,
        Piece(b" .", 1),
    ];
    let mut sink = CountingSink { quads: 0 };
    match report(alloc, [100, depth, 9, 100], pieces.as_slice(), &mut sink) {
        Some(report) => {
            is_answered(report.answer, refused) && report.has_ended && sink.quads == quads
        }
        None => false,
    }
}

#[test]
fn brackets_nest_as_deep_as_the_limit_says(rt: HostRuntime) {
    for (depth, open, close, times, quads, refused) in NESTED.as_slice() {
        let pieces = [Piece(open, *times), Piece(close, *times)];
        assert!(rt;
            is_nested_so(rt.alloc(), *depth, pieces, *quads, *refused),
            "{} where {depth} may be open",
            open.escape_ascii()
        );
    }
}

/// How many bytes are held after a piece.
fn held_after(alloc: Global, limits: [u64; 4], piece: &str) -> Option<u64> {
    let pieces = [Piece(piece.as_bytes(), 1)];
    let mut sink = CountingSink { quads: 0 };
    let report = report(alloc, limits, pieces.as_slice(), &mut sink)?;
    Some(report.held)
}

/// Limits, a piece, and how many bytes are held after it. The prefix of a directive is held until another text
/// takes its place.
#[rattlefmt::skip]
static HELD: [([u64; 4], &str, u64); 3] = [
    ([16, 2, 1, 64], "@base <http://a.org/b> . PREFIX x: <http://x/> ", 25),
    ([1, 0, 0, 1], "", 0),
    ([100, 9, 9, 100], "<http://a/s> <http://a/p> [ <http://a/p> ( ", 30),
];

#[test]
fn what_is_open_is_held(rt: HostRuntime) {
    for (limits, piece, held) in HELD.as_slice() {
        assert_eq!(rt;
            held_after(rt.alloc(), *limits, piece),
            Some(*held),
            "{piece}"
        );
    }
}
