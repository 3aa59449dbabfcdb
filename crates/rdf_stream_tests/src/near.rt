// The place of a refusal in its line, as a run tells it, and the lines that explain it.

use rdf_iri::Limits;
use rdf_stream::{
    Details, Evidence, Form, Job, Near, Nearby, Sight, StreamFault, check_expecting, explain,
};
use rdf_terms::Kind;
use slow_devices::parts_of;
use std::alloc::Global;

/// A refused document, and what is told of the place: the format and the bytes; the offset of the place, and its
/// column; what its line has before it, and from there on; and what stands there.
type Row = (
    Form,
    &'static [u8],
    u64,
    u64,
    &'static [u8],
    &'static [u8],
    Sight,
);

#[rattlefmt::skip]
static ROWS: [Row; 9] = [
    (Form::NTriples, b"<a:s> <a:p> <a:o> .\n<a:s> <a:p> <a:o b> .\n", 32, 13, b"<a:s> <a:p> ", b"<a:o b> .",
        Sight::Stop(4)),
    (Form::Turtle, b"<a:s>\n\t<a:p> [ <a:q> \"\xc3\xa9t\xc3\xa9\" .", 29, 22, b"\t<a:p> [ <a:q> \"\xc3\xa9t\xc3\xa9\" ",
        b".", Sight::Token(Kind::Dot, 1)),
    (Form::Turtle, b"\n\n<a:s> <a:p> \"\"\"never\nclosed", 14, 13, b"<a:s> <a:p> ", b"\"\"\"never", Sight::Stop(15)),
    (Form::TriG, b"<a:s> <a:p> ex:o .", 12, 13, b"<a:s> <a:p> ", b"ex:o .", Sight::Token(Kind::PnameLn, 4)),
    (Form::NQuads, b"<a:s> <a:p> \"x\"@en_US .", 18, 19, b"<a:s> <a:p> \"x\"@en", b"_US .", Sight::Stop(1)),
    (Form::NTriples, b"<a:s> <a:p> <o> .", 12, 13, b"<a:s> <a:p> ", b"<o> .", Sight::Token(Kind::IriRef, 3)),
    (Form::NTriples, b"\x1f\x8b\x08", 0, 1, b"", b"\x1f\x8b\x08", Sight::Stop(0)),
    (Form::Turtle, b"<a:s> <a:p>\n", 12, 1, b"", b"", Sight::Unknown),
    (Form::NTriples, b"<a:s> <a:p> \"\xff\" .", 13, 14, b"<a:s> <a:p> \"", b"\xff\" .", Sight::Unknown),
];

/// What a check of the document tells of the place where it is asked, and the offset of the fault. It comes in
/// parts of this length.
fn told(alloc: Global, form: Form, bytes: &[u8], cut: usize) -> Option<(u64, Near)> {
    let mut details = Details::none();
    let mut near = Nearby::Asked;
    let job = Job::new(form, None, Limits::default())?;
    let mut source = parts_of(bytes, cut, u64::MAX);
    let outcome = check_expecting(alloc, job, &mut source, &mut details, &mut near);
    match (outcome, near) {
        (Err(StreamFault::Refused(fault)), Nearby::Told(near)) => Some((fault.offset, near)),
        _ => None,
    }
}

fn is_told(alloc: Global, row: &Row, cut: usize) -> bool {
    let (form, bytes, offset, column, before, after, sight) = *row;
    match told(alloc, form, bytes, cut) {
        Some((place, near)) => {
            place == offset
                && near.column == column
                && near.before.as_slice() == before
                && after.starts_with(near.after.as_slice())
                && near.sight == sight
        }
        None => false,
    }
}

#[test]
fn the_place_is_told_however_the_document_is_cut(rt: HostRuntime) {
    for row in ROWS.as_slice() {
        let (_, bytes, ..) = row;
        for cut in 0..=bytes.len() {
            assert!(rt;
                is_told(rt.alloc(), row, cut),
                "{} cut at {cut}",
                bytes.escape_ascii()
            );
        }
    }
}

/// A line with so many bytes in its string, which is not closed.
fn long_line(alloc: Global, len: usize) -> Option<Vec<u8>> {
    let mut bytes = Vec::from_slice(alloc, b"<a:s> <a:p> \"").ok()?;
    for _ in 0..len {
        bytes.push(b'x').ok()?;
    }
    bytes.extend_from_slice(b"\" ]\n").ok()?;
    Some(bytes)
}

/// The lengths of what is told of such a line in front of the bracket, and its column.
fn long_told(alloc: Global, len: usize, cut: usize) -> Option<(usize, u64)> {
    let bytes = long_line(alloc, len)?;
    let (_, near) = told(alloc, Form::Turtle, bytes.as_slice(), cut)?;
    Some((near.before.len(), near.column))
}

#[test]
fn of_a_long_line_the_last_bytes_are_told(rt: HostRuntime) {
    for cut in [0, 1, 250, 300, 310] {
        assert_eq!(rt; long_told(rt.alloc(), 10, cut), Some((25, 26)), "{cut}");
        assert_eq!(rt; long_told(rt.alloc(), 300, cut), Some((244, 316)), "{cut}");
    }
    assert_eq!(rt;
        long_told(rt.alloc(), 200_000, 70_000),
        Some((244, 200_016))
    );
}

/// Whether nothing is told of the place of a refusal where it is not asked for.
fn stays_unasked(alloc: Global, form: Form, bytes: &[u8]) -> bool {
    let mut details = Details::none();
    let mut near = Nearby::Unasked;
    let Some(job) = Job::new(form, None, Limits::default()) else {
        return false;
    };
    let mut source = parts_of(bytes, 0, u64::MAX);
    let answer = check_expecting(alloc, job, &mut source, &mut details, &mut near);
    answer.is_err() && matches!(near, Nearby::Unasked)
}

#[test]
fn nothing_is_told_of_a_place_that_is_not_asked_for(rt: HostRuntime) {
    for (form, bytes, ..) in ROWS.as_slice() {
        assert!(rt;
            stays_unasked(rt.alloc(), *form, bytes),
            "{}",
            bytes.escape_ascii()
        );
    }
}

/// Refused documents, and the lines that explain them where their name is `a`.
#[rattlefmt::skip]
static EXPLAINED: [(Form, &[u8], &str); 9] = [
    (Form::NTriples, b"<a:s> <a:p> <a:o b> .", "\
        a:1:13: no token: it stops after 4 bytes\n\
        <a:s> <a:p> <a:o b> .\n            ^\n\
        a:1:13: note: an IRI has no spaces: write %20 for each\n"),
    (Form::Turtle, b"<a:s>\n\t<a:p> [ <a:q> \"\xc3\xa9t\xc3\xa9\" .", "\
        a:2:22: unexpected token: \".\"; expected language tag, \"^^\", \";\", \",\" or \"]\"; \
        \"[\" is open since line 2, column 8\n\
        \t<a:p> [ <a:q> \"\u{e9}t\u{e9}\" .\n\
        \t                    ^\n"),
    (Form::TriG, b"<a:s> <a:p> ex:o .", "a:1:13: unbound prefix: \"ex:o\"\n<a:s> <a:p> ex:o .\n            ^\n"),
    (Form::Turtle, b"<a:s> <a:p> \"\xc3\xa9\\t\\uD83D\\uDE00\" .", "\
        a:1:13: bad escape: \"\\uD83D\" after 5 bytes\n\
        <a:s> <a:p> \"\u{e9}\\t\\uD83D\\uDE00\" .\n            ^\n\
        a:1:13: note: a surrogate is no character: write one escape for both of a pair, as \\U0001F600\n"),
    (Form::NTriples, b"<a:s> <a:p> \"\\uD800\" .", "\
        a:1:13: bad escape: \"\\uD800\" after 1 byte\n\
        <a:s> <a:p> \"\\uD800\" .\n            ^\n\
        a:1:13: note: a surrogate is no character: write one escape for both of a pair, as \\U0001F600\n"),
    (Form::Turtle, b"<a:s> <a:p> '''a\n\\U00110000''' .",
        "a:1:13: bad escape after 5 bytes\n<a:s> <a:p> '''a\n            ^\n"),
    (Form::NQuads, b"<a:s> <a:p> \"x\"@en_US .", "\
        a:1:19: no token: it stops after 1 byte\n\
        <a:s> <a:p> \"x\"@en_US .\n                  ^\n\
        a:1:19: note: a language tag has no _: write -, as in en-US\n"),
    (Form::NTriples, b"\x1f\x8b\x08", "\
        a:1:1: no token\n\
        \u{fffd}\u{fffd}\u{fffd}\n^\n\
        a:1:1: note: the document is packed: unpack it first, as by gzip -dc, bzip2 -dc, xz -dc or unzip -p\n"),
    (Form::Turtle, b"<a:s> <a:p> (((", "a:1:15: too deep; the limit is 2\n<a:s> <a:p> (((\n              ^\n"),
];

fn limits() -> Limits {
    Limits::new(1000, 2, 9, 1000).unwrap_or_default()
}

fn is_explained(alloc: Global, form: Form, bytes: &[u8], lines: &str) -> bool {
    let mut details = Details::none();
    let mut near = Nearby::Asked;
    let Some(job) = Job::new(form, None, limits()) else {
        return false;
    };
    let mut source = parts_of(bytes, bytes.len(), u64::MAX);
    match check_expecting(alloc, job, &mut source, &mut details, &mut near) {
        Err(StreamFault::Refused(fault)) => {
            let evidence = Evidence {
                details,
                near,
                limits: limits(),
            };
            match explain(alloc, "a", &fault, &evidence) {
                Ok(text) => text.as_slice() == lines.as_bytes(),
                Err(_) => false,
            }
        }
        _ => false,
    }
}

#[test]
fn a_refusal_is_explained_with_its_line(rt: HostRuntime) {
    for (form, bytes, lines) in EXPLAINED.as_slice() {
        assert!(rt; is_explained(rt.alloc(), *form, bytes, lines), "{lines}");
    }
}

/// The kind, the line and the column of a bracket.
type Open = (Kind, u64, u64);

/// Documents with a token that is unexpected, and the bracket that is open before it, if there is one.
#[rattlefmt::skip]
static UNCLOSED: [(Form, &[u8], Option<Open>); 8] = [
    (Form::Turtle, b"<a:s> <a:p> [ <a:q> (\n1 [] [ <a:r> (2) .", Some((Kind::OpenBracket, 2, 6))),
    (Form::Turtle, b"<a:s> <a:p> [ <a:q> (\n1 [] [ <a:r> () ] .", Some((Kind::OpenParen, 1, 21))),
    (Form::Turtle, b"<a:s> <a:p> \"\xc3\xa9 (\", [ # (\n] <a:o>", None),
    (Form::Turtle, b"<a:s> <a:p> \"\xc3\xa9\", [", Some((Kind::OpenBracket, 1, 18))),
    (Form::TriG, b"<a:g> {\n<a:s> <a:p> [] . <a:t> }", Some((Kind::OpenBrace, 1, 7))),
    (Form::TriG, b"{ <a:s> <a:p> ( ) } <a:s> <a:p> <a:o> }", None),
    (Form::Turtle, b"<a:s> <a:p> ] .", None),
    (Form::NTriples, b"<a:s> <a:p> <a:o> <a:o> .", None),
];

/// Whether this bracket is told of the document in parts of this length.
fn is_open(alloc: Global, form: Form, bytes: &[u8], cut: usize, open: Option<Open>) -> bool {
    match told(alloc, form, bytes, cut) {
        Some((_, near)) => match (near.bracket, open) {
            (Some(told), Some((kind, line, column))) => {
                told.kind == kind && told.line == line && told.column == Some(column)
            }
            (None, None) => true,
            _ => false,
        },
        None => false,
    }
}

#[test]
fn the_innermost_open_bracket_is_told_however_the_document_is_cut(rt: HostRuntime) {
    for (form, bytes, open) in UNCLOSED.as_slice() {
        for cut in 0..=bytes.len() {
            assert!(rt;
                is_open(rt.alloc(), *form, bytes, cut, *open),
                "{} cut at {cut}",
                bytes.escape_ascii()
            );
        }
    }
}

/// The line and the column that are told of a bracket with so many objects behind it, where the document is cut there.
fn far_bracket(alloc: Global, objects: usize, cut: usize) -> Option<(u64, Option<u64>)> {
    let mut bytes = Vec::from_slice(alloc, b"\n<a:s> <a:p> [ <a:q> 1").ok()?;
    for _ in 0..objects {
        bytes.extend_from_slice(b", 1").ok()?;
    }
    bytes.extend_from_slice(b" ) .\n").ok()?;
    let (_, near) = told(alloc, Form::Turtle, bytes.as_slice(), cut)?;
    let bracket = near.bracket?;
    Some((bracket.line, bracket.column))
}

#[test]
fn the_column_of_a_bracket_is_told_where_its_line_is_kept(rt: HostRuntime) {
    assert_eq!(rt; far_bracket(rt.alloc(), 100, 300), Some((2, None)));
    assert_eq!(rt; far_bracket(rt.alloc(), 100, 0), Some((2, None)));
    assert_eq!(rt; far_bracket(rt.alloc(), 100, 200), Some((2, Some(13))));
    assert_eq!(rt; far_bracket(rt.alloc(), 100, 1000), Some((2, Some(13))));
}
