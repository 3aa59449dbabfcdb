// Complete runs over memory: worked documents, and devices that fail.

mod large;
mod memory;
mod refused;
mod rows;
mod runs;
mod sights;
mod skips;
mod streams;

use crate::documents::{Row, base, documents, is_of, limits};
use rdf_iri::Limits;
use rdf_lines::Fault;
use rdf_stream::{BindingFault, BindingReason, Form, LoadFault, StreamFault, report};
use rdf_terms::Reason;
use rows::{FAILING, FORMS, LIMITED, REASONS, SHOWN};
use runs::{Asked, Outcome, Task, has_text, is_alike, is_checked, run};
use std::alloc::Global;
use std::fmt::Display;

/// Whether `convert` writes and reports this text, a check reports and counts the same, and the same as here is shown.
fn is_read(alloc: Global, asked: &Asked<'_>, text: &str, shown: &Outcome) -> bool {
    let converted = run(alloc, alloc, asked);
    let checked = run(alloc, alloc, &asked.to(Task::Check));
    let also_shown = run(alloc, alloc, &asked.to(Task::Show));
    converted.text.as_slice() == text.as_bytes()
        && converted.flushed == converted.is_sent()
        && is_checked(&checked, &converted)
        && is_alike(&also_shown, shown)
}

/// Whether the document is read so, however it is cut; what is shown is to be that of the whole.
fn is_read_cut(alloc: Global, whole: &Asked<'_>, text: &str) -> bool {
    let shown = run(alloc, alloc, &whole.to(Task::Show));
    for cut in 0..=whole.document.len() {
        if !is_read(alloc, &Asked { cut, ..*whole }, text, &shown) {
            return false;
        }
    }
    true
}

/// Whether the document is read so as this format, however it is cut.
fn is_read_as(alloc: Global, form: Form, row: &Row) -> bool {
    let (set, document, text) = *row;
    let whole = Asked {
        base: base(set),
        limits: limits(set),
        ..Asked::of(Task::Convert, form, document)
    };
    is_read_cut(alloc, &whole, text)
}

/// The first document of this format that is not read so, if there is one.
fn misread(alloc: Global, form: Form) -> Option<&'static [u8]> {
    for row in documents() {
        let (set, document, _) = *row;
        if is_of(set, form) && !is_read_as(alloc, form, row) {
            return Some(document);
        }
    }
    None
}

#[test]
fn a_document_of_ntriples_is_read_however_it_is_cut(rt: HostRuntime) {
    let misread = misread(rt.alloc(), Form::NTriples);
    assert!(rt;
        misread.is_none(),
        "{}",
        misread.unwrap_or(b"").escape_ascii()
    );
}

#[test]
fn a_document_of_nquads_is_read_however_it_is_cut(rt: HostRuntime) {
    let misread = misread(rt.alloc(), Form::NQuads);
    assert!(rt;
        misread.is_none(),
        "{}",
        misread.unwrap_or(b"").escape_ascii()
    );
}

#[test]
fn a_document_of_turtle_is_read_however_it_is_cut(rt: HostRuntime) {
    let misread = misread(rt.alloc(), Form::Turtle);
    assert!(rt;
        misread.is_none(),
        "{}",
        misread.unwrap_or(b"").escape_ascii()
    );
}

#[test]
fn a_document_of_trig_is_read_however_it_is_cut(rt: HostRuntime) {
    let misread = misread(rt.alloc(), Form::TriG);
    assert!(rt;
        misread.is_none(),
        "{}",
        misread.unwrap_or(b"").escape_ascii()
    );
}

/// Whether `show` writes and reports this text, however the document is cut.
fn is_shown(alloc: Global, form: Form, document: &[u8], text: &str) -> bool {
    for cut in 0..=document.len() {
        let asked = Asked {
            cut,
            ..Asked::of(Task::Show, form, document)
        };
        if !has_text(alloc, &asked, text.as_bytes()) {
            return false;
        }
    }
    true
}

#[test]
fn tokens_are_shown_however_they_are_cut(rt: HostRuntime) {
    for (form, document, text) in SHOWN.as_slice() {
        assert!(rt; is_shown(rt.alloc(), *form, document, text), "{text}");
    }
}

/// Whether this line reports a refusal for the reason.
fn is_reported(alloc: Global, reason: Reason, line: &str) -> bool {
    let fault = StreamFault::Refused(Fault {
        reason,
        offset: 41,
        line: 1,
    });
    let mut text = Vec::new(alloc);
    report(alloc, &fault, &mut text).is_ok() && text.as_slice() == line.as_bytes()
}

#[test]
fn a_report_names_the_reason_and_the_place(rt: HostRuntime) {
    for (reason, line) in REASONS.as_slice() {
        assert!(rt; is_reported(rt.alloc(), *reason, line), "{line}");
    }
}

/// Whether a fault is displayed as this text.
fn is_displayed<F: Display>(alloc: Global, fault: &F, text: &str) -> bool {
    match format!(in alloc; "{fault}") {
        Ok(shown) => shown.as_str() == text,
        Err(_) => false,
    }
}

#[test]
fn a_fault_is_displayed_with_its_place(rt: HostRuntime) {
    let refused = StreamFault::Refused(Fault {
        reason: Reason::NoToken,
        offset: 41,
        line: 3,
    });
    let bad = LoadFault::Bad(BindingFault {
        reason: BindingReason::BadBinding,
        line: 7,
    });
    assert!(rt; is_displayed(rt.alloc(), &refused, "refused at byte 41, line 3"));
    assert!(rt; is_displayed(rt.alloc(), &StreamFault::Read, "read failed"));
    assert!(rt; is_displayed(rt.alloc(), &StreamFault::Write, "write failed"));
    assert!(rt; is_displayed(rt.alloc(), &StreamFault::Memory, "out of memory"));
    assert!(rt; is_displayed(rt.alloc(), &bad, "refused at line 7"));
    assert!(rt; is_displayed(rt.alloc(), &LoadFault::Read, "read failed"));
    assert!(rt; is_displayed(rt.alloc(), &LoadFault::Memory, "out of memory"));
}

#[test]
fn devices_of_one_byte_a_call_change_nothing(rt: HostRuntime) {
    for (task, form, document, text) in FORMS.as_slice() {
        let asked = Asked {
            cut: 0,
            room: 1,
            ..Asked::of(*task, *form, document.as_bytes())
        };
        assert!(rt; has_text(rt.alloc(), &asked, text.as_bytes()), "{document}");
    }
}

/// A run over a document that comes a byte a call, with these limits of open brackets and of an IRI.
fn slow_run(task: Task, form: Form, [depth, iri]: [u64; 2], document: &str) -> Asked<'_> {
    Asked {
        limits: Limits::new(100, depth, 10, iri).unwrap_or_default(),
        cut: 0,
        ..Asked::of(task, form, document.as_bytes())
    }
}

/// Whether a run whose devices may fail writes and reports this text, and a check reports the same.
fn is_stopped(alloc: Global, asked: &Asked<'_>, text: &str) -> bool {
    let stopped = run(alloc, alloc, asked);
    let checked = run(alloc, alloc, &asked.to(Task::Check));
    stopped.text.as_slice() == text.as_bytes()
        && stopped.flushed == stopped.is_sent()
        && (asked.task == Task::Show || is_checked(&checked, &stopped))
}

#[test]
fn what_was_read_before_a_source_failed_decides(rt: HostRuntime) {
    for (task, form, document, fills, text) in FAILING.as_slice() {
        let asked = Asked {
            fills: *fills,
            ..slow_run(*task, *form, [9, 1000], document)
        };
        assert!(rt;
            is_stopped(rt.alloc(), &asked, text),
            "{task:?} of {form:?} in {fills} calls: {document}"
        );
    }
}

#[test]
fn a_limit_that_is_passed_before_a_device_failed_decides(rt: HostRuntime) {
    for (form, limits, document, fills, puts, text) in LIMITED.as_slice() {
        let asked = Asked {
            fills: *fills,
            puts: *puts,
            ..slow_run(Task::Convert, *form, *limits, document)
        };
        assert!(rt;
            is_stopped(rt.alloc(), &asked, text),
            "{form:?}: {document}"
        );
    }
}

#[test]
fn bad_lines_are_put_aside_however_they_are_cut(rt: HostRuntime) {
    assert_eq!(rt; skips::missifted(rt.alloc()), None);
}
