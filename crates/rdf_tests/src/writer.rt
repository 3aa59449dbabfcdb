// Lines and the names of nodes as they are written.

use rdf_lines::{Escapes, LabelFault, Style, label_text, write_line};
use rdf_terms::{
    Iri, IriView, Label, LabelView, LiteralRef, NodeRef, QuadRef, SubjectRef, Tag, TailRef, TermRef,
};
use std::alloc::Global;

/// Whether the node has this name, or none where none is wanted, since it has no label.
fn is_named(alloc: Global, node: NodeRef<'_>, style: Style, wanted: Option<&str>) -> bool {
    match label_text(alloc, node, style) {
        Ok(name) => wanted == Some(name.as_str()),
        Err(fault) => wanted.is_none() && fault == LabelFault::NotLabelled,
    }
}

fn has_names(alloc: Global, label: LabelView<'_>) -> bool {
    let node = NodeRef::Label(label);
    is_named(alloc, node, Style::Kept, Some("_:x"))
        && is_named(alloc, node, Style::Tagged, Some("_:nx"))
}

fn labels_have_names(alloc: Global) -> bool {
    match Label::new(alloc, "x") {
        Ok(label) => has_names(alloc, label.view()),
        Err(_) => false,
    }
}

#[test]
fn a_node_is_named_by_its_style(rt: HostRuntime) {
    let (anon, cell) = (NodeRef::Anon(27), NodeRef::Cell(7));
    assert!(rt; labels_have_names(rt.alloc()));
    assert!(rt; is_named(rt.alloc(), anon, Style::Tagged, Some("_:a27")));
    assert!(rt; is_named(rt.alloc(), cell, Style::Tagged, Some("_:c7")));
    assert!(rt; is_named(rt.alloc(), anon, Style::Kept, None));
    assert!(rt; is_named(rt.alloc(), cell, Style::Kept, None));
}

/// A quad and its line: which characters are written as escapes; the label of its subject; the IRI that is its
/// predicate and its graph; the lexical form of its literal; whether that has the tag `en`, and else the IRI as its
/// type; and the line.
type Row = (
    Escapes,
    &'static str,
    &'static str,
    &'static str,
    bool,
    &'static str,
);

#[rattlefmt::skip]
static ROWS: [Row; 4] = [
    (Escapes::Plain, "x", "a:b", "A", true, "_:x <a:b> \"A\"@en <a:b> .\n"),
    (Escapes::Plain, "x", "a:b", "1", false, "_:x <a:b> \"1\"^^<a:b> <a:b> .\n"),
    (Escapes::Plain, "\u{E9}", "http://www.w3.org/2001/XMLSchema#string",
        "\u{E9}\"\\\n\r\t' and more bytes than are seen at once\n", false, "\
        _:\u{E9} <http://www.w3.org/2001/XMLSchema#string> \"\u{E9}\\\"\\\\\\n\\r\t' and more bytes than are seen at \
        once\\n\" <http://www.w3.org/2001/XMLSchema#string> .\n"),
    (Escapes::Ascii, "\u{E9}", "http://a/\u{E9}", "\u{1F600}\u{FFFF}\u{10000}\n\u{7F}", false, "\
        _:\u{E9} <http://a/\\u00E9> \"\\U0001F600\\uFFFF\\U00010000\\n\u{7F}\"^^<http://a/\\u00E9> \
        <http://a/\\u00E9> .\n"),
];

fn quad<'a>(label: LabelView<'a>, iri: IriView<'a>, object: TermRef<'a>) -> QuadRef<'a> {
    QuadRef {
        subject: SubjectRef::Node(NodeRef::Label(label)),
        predicate: iri,
        object,
        graph: Some(SubjectRef::Iri(iri)),
    }
}

/// Whether this is the line of a quad with its labels kept.
fn has_line(alloc: Global, quad: QuadRef<'_>, escapes: Escapes, line: &str) -> bool {
    let mut out = Vec::new(alloc);
    match write_line(&quad, Style::Kept, escapes, &mut out) {
        Ok(()) => out.as_slice() == line.as_bytes(),
        Err(_) => false,
    }
}

fn is_written(alloc: Global, row: &Row) -> bool {
    let (escapes, label, iri, lexical, is_tagged, line) = *row;
    let Ok(label) = Label::new(alloc, label) else {
        return false;
    };
    let Ok(iri) = Iri::new(alloc, iri) else {
        return false;
    };
    let Ok(tag) = Tag::new(alloc, "en") else {
        return false;
    };
    let tail = if is_tagged {
        TailRef::Lang(tag.view())
    } else {
        TailRef::Typed(iri.view())
    };
    let object = TermRef::Literal(LiteralRef::new(lexical, tail));
    has_line(alloc, quad(label.view(), iri.view(), object), escapes, line)
}

#[test]
fn a_line_has_its_escapes_its_tag_or_its_type(rt: HostRuntime) {
    for row in ROWS.as_slice() {
        let (.., line) = row;
        assert!(rt; is_written(rt.alloc(), row), "{line}");
    }
}

/// Whether the line of a quad with a node is appended in one style, and in the other, which has no name for the
/// node, nothing is.
fn is_whole_or_not_at_all(alloc: Global, iri: IriView<'_>) -> bool {
    let quad = QuadRef {
        subject: SubjectRef::Iri(iri),
        predicate: iri,
        object: TermRef::Node(NodeRef::Anon(19)),
        graph: Some(SubjectRef::Node(NodeRef::Cell(7))),
    };
    let mut out = Vec::new(alloc);
    let written = write_line(&quad, Style::Tagged, Escapes::Plain, &mut out);
    let refused = write_line(&quad, Style::Kept, Escapes::Plain, &mut out);
    written == Ok(())
        && refused == Err(LabelFault::NotLabelled)
        && out.as_slice() == b"<a:b> <a:b> _:a19 _:c7 .\n".as_slice()
}

fn lines_are_whole(alloc: Global) -> bool {
    match Iri::new(alloc, "a:b") {
        Ok(iri) => is_whole_or_not_at_all(alloc, iri.view()),
        Err(_) => false,
    }
}

#[test]
fn a_line_is_appended_whole_or_not_at_all(rt: HostRuntime) {
    assert!(rt; lines_are_whole(rt.alloc()));
}
