// Documents of several pieces, and long texts: they are read in few calls, and where there is memory none is
// reported as refused.

use super::runs::{Asked, End, Task, has_text, run};
use rdf_lines::Fault;
use rdf_stream::{Form, StreamFault, report};
use rdf_terms::{Iri, Label, LiteralRef, NodeRef, Reason, Tag, TailRef, TermRef};
use std::alloc::{AllocError, Global};

/// Parts, each so many times, one after another.
pub(crate) fn text_of(alloc: Global, parts: &[(&str, u64)]) -> Result<String, AllocError> {
    let mut text = String::new(alloc);
    for (part, times) in parts {
        for _ in 0..*times {
            text.push_str(part)?;
        }
    }
    Ok(text)
}

/// The calls that may be made for so many bytes: few of them for each piece of 64 KiB.
fn calls_for(len: usize) -> u64 {
    (len as u64 / 32768).saturating_add(8)
}

/// Whether a run reads the document and writes the text in few calls, and a check counts the same, with so many quads.
fn is_done_in_few_calls(alloc: Global, asked: &Asked<'_>, text: &str, quads: u64) -> bool {
    let asked = Asked {
        fills: calls_for(asked.document.len()),
        puts: calls_for(text.len()),
        ..*asked
    };
    let done = run(alloc, alloc, &asked);
    let check = Asked {
        task: Task::Check,
        ..asked
    };
    let checked = run(alloc, alloc, &check);
    if let (End::Done(written), End::Done(counted)) = (done.end, checked.end) {
        done.text.as_slice() == text.as_bytes()
            && counted.quads == quads
            && counted.bytes == asked.document.len() as u64
            && counted.tokens == written.tokens
            && counted.bytes == written.bytes
    } else {
        false
    }
}

static LINES: [(&str, u64); 1] = [("<a:> <b:> \"x\" .\n", 20_000)];

static LONG_LINE: [(&str, u64); 3] = [("<a:> <b:> \"", 1), ("x", 300_000), ("\" .\n", 1)];

/// Whether 20,000 lines are converted so, or one line with a literal of 300,000 characters.
fn is_converted_in_few_calls(alloc: Global, form: Form, is_one_line: bool) -> bool {
    let (parts, quads) = if is_one_line {
        (LONG_LINE.as_slice(), 1)
    } else {
        (LINES.as_slice(), 20_000)
    };
    match text_of(alloc, parts) {
        Ok(document) => {
            let asked = Asked::of(Task::Convert, form, document.as_bytes());
            is_done_in_few_calls(alloc, &asked, &document, quads)
        }
        Err(_) => false,
    }
}

/// The lines of the tokens of 20,000 lines of Turtle.
fn large_tokens(alloc: Global) -> Result<String, AllocError> {
    let mut tokens = String::new(alloc);
    for line in 0..20_000u64 {
        let at = line.saturating_mul(16);
        let text = format!(in alloc;
            "{at} 4 iri\n{} 4 iri\n{} 3 string\n{} 1 dot\n",
            at.saturating_add(5),
            at.saturating_add(10),
            at.saturating_add(14)
        )?;
        tokens.push_str(&text)?;
    }
    Ok(tokens)
}

fn is_shown_in_few_calls(alloc: Global) -> bool {
    match (text_of(alloc, LINES.as_slice()), large_tokens(alloc)) {
        (Ok(document), Ok(tokens)) => {
            let asked = Asked::of(Task::Show, Form::Turtle, document.as_bytes());
            is_done_in_few_calls(alloc, &asked, &tokens, 20_000)
        }
        _ => false,
    }
}

#[test]
fn a_large_document_is_read_in_few_calls(rt: HostRuntime) {
    for form in [Form::NTriples, Form::NQuads, Form::Turtle, Form::TriG] {
        assert!(rt;
            is_converted_in_few_calls(rt.alloc(), form, false),
            "{form:?}"
        );
        assert!(rt;
            is_converted_in_few_calls(rt.alloc(), form, true),
            "{form:?}"
        );
    }
    assert!(rt; is_shown_in_few_calls(rt.alloc()));
}

/// How many prefixes there are.
const PREFIXES: u64 = 5000;

/// A document that binds them, and has a statement of names in the first, a middle one and the last.
fn many_prefixes(alloc: Global) -> Result<String, AllocError> {
    let mut text = String::new(alloc);
    for number in 0..PREFIXES {
        let line = format!(in alloc; "PREFIX p{number}: <http://example.org/{number}/>\n")?;
        text.push_str(&line)?;
    }
    text.push_str("p0:s p2500:p p4999:o .\n")?;
    Ok(text)
}

fn are_bound(alloc: Global, form: Form) -> bool {
    match many_prefixes(alloc) {
        Ok(document) => has_text(
            alloc,
            &Asked::of(Task::Convert, form, document.as_bytes()),
            b"<http://example.org/0/s> <http://example.org/2500/p> <http://example.org/4999/o> .\n",
        ),
        Err(_) => false,
    }
}

#[test]
fn thousands_of_prefixes_are_bound(rt: HostRuntime) {
    assert!(rt; are_bound(rt.alloc(), Form::Turtle));
    assert!(rt; are_bound(rt.alloc(), Form::TriG));
}

/// Whether so many short lines go to a drain that takes so many calls.
fn is_written_in_calls(alloc: Global, form: Form, puts: u64) -> bool {
    match text_of(alloc, &[("<a:> <b:> <c:> .\n", 1000)]) {
        Ok(text) => {
            let asked = Asked {
                puts,
                ..Asked::of(Task::Convert, form, text.as_bytes())
            };
            let run = run(alloc, alloc, &asked);
            run.flushed && run.text.as_slice() == text.as_bytes()
        }
        Err(_) => false,
    }
}

/// Lines that are passed go to the drain as they stand, after what waits. The flush is a call too.
#[test]
fn the_lines_of_a_piece_are_few_calls(rt: HostRuntime) {
    assert!(rt; is_written_in_calls(rt.alloc(), Form::NQuads, 3));
    assert!(rt; is_written_in_calls(rt.alloc(), Form::TriG, 2));
}

static ESCAPED: &str = "<a:b> <a:c> \"x\" .\n\
    <a:\\u00E9> <a:\\U0001F600> \"\\t\\b\\f\\'\\\"\\\\\\n\\r\\u0416\\u000A\"@ru <a:g\\u0067> .\n\
    _:x <a:p> <a:\\u0070> .\n\
    _:x <a:p> \"\\u0041\"^^<a:\\u0074> .\n\
    _:x <a:p> \"\\t\"^^<a:t> .\n\
    _:x\t<a:p>\t\"a\tb\"@en\t<a:g>\t.\n\
    <a:s> \t <a:p>  _:y\t\t<a:g> .\n\
    <a:s>\t<a:p>\t\"\\u0041\"\t.\n";

static WRITTEN: &str = "<a:b> <a:c> \"x\" .\n\
    <a:é> <a:😀> \"\t\u{8}\u{C}'\\\"\\\\\\n\\rЖ\\n\"@ru <a:gg> .\n\
    _:x <a:p> <a:p> .\n\
    _:x <a:p> \"A\"^^<a:t> .\n\
    _:x <a:p> \"\t\"^^<a:t> .\n\
    _:x <a:p> \"a\tb\"@en <a:g> .\n\
    <a:s> <a:p> _:y <a:g> .\n\
    <a:s> <a:p> \"A\" .\n";

/// Lines with escapes or with tabs are written by what they mean, whether they are read or passed, as all but the first can be.
#[test]
fn lines_with_escapes_or_tabs_are_written_anew(rt: HostRuntime) {
    let asked = Asked::of(Task::Convert, Form::NQuads, ESCAPED.as_bytes());
    assert!(rt; has_text(rt.alloc(), &asked, WRITTEN.as_bytes()));
}

/// What kind of term it is, its text, and that of its tag or type. Of a node without a label there is no text.
fn texts(term: TermRef<'_>) -> (&str, &str, &str) {
    match term {
        TermRef::Iri(iri) => ("iri", iri.as_str(), ""),
        TermRef::Node(NodeRef::Label(label)) => ("label", label.as_str(), ""),
        TermRef::Node(_) => ("node", "", ""),
        TermRef::Literal(literal) => match literal.tail {
            TailRef::Lang(tag) => ("tagged", literal.lexical, tag.as_str()),
            TailRef::Typed(iri) => ("typed", literal.lexical, iri.as_str()),
        },
    }
}

fn is_same(one: TermRef<'_>, other: TermRef<'_>) -> bool {
    texts(one) == texts(other)
}

fn is_copied(alloc: Global, term: TermRef<'_>) -> bool {
    match term.try_copy(alloc) {
        Ok(copy) => is_same(copy.view(), term),
        Err(_) => false,
    }
}

/// Whether an IRI of this text is copied, and a literal with this lexical form and type.
fn copies_iri(alloc: Global, text: &str) -> bool {
    match Iri::new(alloc, text) {
        Ok(iri) => {
            let typed = LiteralRef::new(text, TailRef::Typed(iri.view()));
            iri.as_str() == text
                && is_copied(alloc, TermRef::Iri(iri.view()))
                && is_copied(alloc, TermRef::Literal(typed))
        }
        Err(_) => false,
    }
}

fn copies_label(alloc: Global, text: &str) -> bool {
    match Label::new(alloc, text) {
        Ok(label) => {
            label.as_str() == text && is_copied(alloc, TermRef::Node(NodeRef::Label(label.view())))
        }
        Err(_) => false,
    }
}

/// Whether a literal with this lexical form and a tag is copied.
fn copies_tagged(alloc: Global, text: &str) -> bool {
    match Tag::new(alloc, "en-GB") {
        Ok(tag) => {
            let tagged = LiteralRef::new(text, TailRef::Lang(tag.view()));
            is_copied(alloc, TermRef::Literal(tagged))
        }
        Err(_) => false,
    }
}

fn copies_long_terms(alloc: Global) -> bool {
    match (
        text_of(alloc, &[("a:", 1), ("b", 200_000)]),
        text_of(alloc, &[("b", 200_000)]),
    ) {
        (Ok(text), Ok(name)) => {
            copies_iri(alloc, &text) && copies_label(alloc, &name) && copies_tagged(alloc, &text)
        }
        _ => false,
    }
}

fn reports_large_numbers(alloc: Global) -> bool {
    let fault = StreamFault::Refused(Fault {
        reason: Reason::TooManyBindings,
        offset: u64::MAX,
        line: u64::MAX,
    });
    let mut line = Vec::new(alloc);
    report(alloc, &fault, &mut line).is_ok()
        && line.as_slice()
            == b"rdfconv: too many bindings at byte 18446744073709551615, line 18446744073709551615\n".as_slice()
}

#[test]
fn long_terms_and_reports_are_whole(rt: HostRuntime) {
    assert!(rt; copies_long_terms(rt.alloc()));
    assert!(rt; reports_large_numbers(rt.alloc()));
}
