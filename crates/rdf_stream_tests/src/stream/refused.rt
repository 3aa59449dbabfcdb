// Documents that are refused: one byte of each is no UTF-8, their brackets stay open, or they begin with a long run
// of one letter.

use super::large::text_of;
use super::runs::{Asked, Task, has_text, run};
use rdf_iri::Limits;
use rdf_stream::Form;
use rdf_terms::Reason;
use rdf_tokens::{Dialect, ScanFault, Scanner};
use std::alloc::{AllocError, Global};

/// Documents of TriG that are accepted.
static ACCEPTED: [&str; 8] = [
    "<http://a/s> <http://a/p> \"x\" .",
    "PREFIX : <http://e/>\n:s :p [ :q ( 1 2 ) ] .",
    "<http://a/s> <http://a/p> () .",
    "<http://a/s> <http://a/p> 1.",
    "<http://a/s> <http://a/p> 1.e5 .",
    "<http://a/s> <http://a/p> (truefalse) .",
    "<http://a/s> <http://a/p> \"A\"@base .",
    "@prefix x: <http://x/> . x:a x:b%20\\~c x:d.e.",
];

/// The document with FF in place of this byte.
fn with_ff(alloc: Global, document: &str, at: usize) -> Result<Vec<u8>, AllocError> {
    let bytes = document.as_bytes();
    let mut spoiled = Vec::new(alloc);
    for i in 0..bytes.len() {
        spoiled.push(if i == at { 0xff } else { bytes[i] })?;
    }
    Ok(spoiled)
}

/// The line that names the byte as the first that is no UTF-8.
fn bad_utf8_at(alloc: Global, document: &str, at: usize) -> Result<String, AllocError> {
    let bytes = document.as_bytes();
    let mut line = 1u64;
    for i in 0..bytes.len() {
        if i < at && bytes[i] == b'\n' {
            line = line.saturating_add(1);
        }
    }
    format!(in alloc; "rdfconv: bad UTF-8 at byte {at}, line {line}\n")
}

/// Whether with FF in place of this byte it is named, whole and byte by byte, where the document is converted and
/// where it is checked.
fn is_named(alloc: Global, document: &str, at: usize) -> Result<bool, AllocError> {
    let spoiled = with_ff(alloc, document, at)?;
    let line = bad_utf8_at(alloc, document, at)?;
    let asked = Asked::of(Task::Convert, Form::TriG, spoiled.as_slice());
    let whole = run(alloc, alloc, &asked);
    let alone = run(alloc, alloc, &Asked { cut: 0, ..asked });
    Ok(
        whole.text.as_slice().ends_with(line.as_bytes())
            && alone.text.as_slice() == whole.text.as_slice()
            && run(alloc, alloc, &asked.to(Task::Check)).text.as_slice() == line.as_bytes(),
    )
}

/// The first byte of the document that is not named so, if there is one.
fn first_unnamed(alloc: Global, document: &str) -> Option<usize> {
    for at in 0..document.len() {
        if is_named(alloc, document, at) != Ok(true) {
            return Some(at);
        }
    }
    None
}

#[test]
fn each_byte_that_is_no_utf8_is_named(rt: HostRuntime) {
    for document in ACCEPTED.as_slice() {
        assert!(rt; has_no_fault(rt.alloc(), document), "{document}");
        assert_eq!(rt; first_unnamed(rt.alloc(), document), None, "{document}");
    }
}

/// Whether a check accepts the document.
fn has_no_fault(alloc: Global, document: &str) -> bool {
    let asked = Asked::of(Task::Check, Form::TriG, document.as_bytes());
    run(alloc, alloc, &asked).text.is_empty()
}

/// The lines of so many collections, each the first item of the one before it, and the line of their fault.
fn lines_of_open(alloc: Global, lines: u64, fault: &str) -> Result<String, AllocError> {
    let mut text = String::new(alloc);
    text.push_str("<http://a/s> <http://a/p> _:c27 .\n")?;
    for number in 1..lines {
        let at = number.saturating_add(26);
        let next = number.saturating_add(27);
        let line = format!(in alloc;
            "_:c{at} <http://www.w3.org/1999/02/22-rdf-syntax-ns#first> _:c{next} .\n"
        )?;
        text.push_str(&line)?;
    }
    text.push_str(fault)?;
    Ok(text)
}

/// Whether of a hundred thousand parentheses that stay open, with so many allowed, these lines are written, and this
/// is reported.
fn is_left_open(alloc: Global, depth: u64, lines: u64, fault: &str) -> bool {
    let parts = [("<http://a/s> <http://a/p> ", 1), ("(", 100_000)];
    let (Ok(document), Ok(text), Some(limits)) = (
        text_of(alloc, parts.as_slice()),
        lines_of_open(alloc, lines, fault),
        Limits::new(1000, depth, 9, 1000),
    ) else {
        return false;
    };
    let asked = Asked {
        limits,
        ..Asked::of(Task::Convert, Form::TriG, document.as_bytes())
    };
    has_text(alloc, &asked, text.as_bytes())
}

#[test]
fn a_hundred_thousand_brackets_stay_open(rt: HostRuntime) {
    assert!(rt;
        is_left_open(
            rt.alloc(),
            100_000,
            99_999,
            "rdfconv: unexpected token at byte 100026, line 1\n"
        )
    );
}

/// Whether of so many of a letter, where a token has at most 1,000 characters, this is reported, whole and byte by
/// byte.
fn is_told(alloc: Global, letter: &str, times: u64, line: &str) -> bool {
    let parts = [(letter, times)];
    let (Ok(document), Some(limits)) = (
        text_of(alloc, parts.as_slice()),
        Limits::new(1000, 9, 9, 1000),
    ) else {
        return false;
    };
    let asked = Asked {
        limits,
        ..Asked::of(Task::Convert, Form::TriG, document.as_bytes())
    };
    has_text(alloc, &asked, line.as_bytes())
        && has_text(alloc, &Asked { cut: 0, ..asked }, line.as_bytes())
}

#[test]
fn a_token_of_a_thousand_characters_is_within_the_limit(rt: HostRuntime) {
    assert!(rt;
        is_told(
            rt.alloc(),
            "b",
            1000,
            "rdfconv: no token at byte 0, line 1\n"
        )
    );
    assert!(rt;
        is_told(
            rt.alloc(),
            "b",
            1001,
            "rdfconv: token too long at byte 0, line 1\n"
        )
    );
    assert!(rt;
        is_told(
            rt.alloc(),
            "a",
            1000,
            "rdfconv: unexpected token at byte 0, line 1\n"
        )
    );
}

/// What a scanner says after its end.
fn said_after_the_end(alloc: Global) -> Result<usize, ScanFault> {
    let mut scanner = Scanner::new(alloc, Dialect::Lines, 1);
    scanner.end();
    scanner.push(b"a")
}

#[test]
fn a_fault_of_a_scanner_has_both_names(rt: HostRuntime) {
    let fault = said_after_the_end(rt.alloc());
    assert!(rt;
        matches!(
            fault,
            Err(rdf_tokens::Fault {
                reason: Reason::Ended,
                ..
            })
        )
    );
}
