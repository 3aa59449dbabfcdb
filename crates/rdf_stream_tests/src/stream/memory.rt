// Runs of which each growth is refused in turn, and each call of a device fails; and the other calls that can
// report want of memory.

use super::large::text_of;
use super::runs::{Asked, End, Outcome, Task, is_alike, run};
use rdf_iri::Limits;
use rdf_lines::Fault;
use rdf_stream::{Form, LoadFault, StreamFault, load_bindings, report};
use rdf_terms::Reason;
use refusing_alloc::Refusing;
use slow_devices::parts_of;
use std::alloc::{Allocator, Global};

/// Formats, limits of open brackets, and documents.
#[rattlefmt::skip]
static DOCUMENTS: [(Form, u64, &str); 11] = [
    (Form::TriG, 9, "<http://g/> { <http://a/s> <http://a/p> <http://a/s> }"),
    (Form::TriG, 9, "PREFIX : <http://e/>\n:s :p [ :q ( 1 2 ) ] ."),
    (Form::TriG, 9, "@prefix x: <http://x/> . x:a x:b%20\\~c x:d.e."),
    (Form::TriG, 1, "<http://a/s> <http://a/p> [ <http://a/q> [] ] ."),
    (Form::NQuads, 9, "<http://a/s> <http://a/p> <http://a/s> . <http://a/s> <http://a/p> <http://a/s> ."),
    (Form::TriG, 9, "<http://a/s> <http://a/p> ( \"a\" ( ) ) ."),
    (Form::TriG, 9, "PREFIX x: <http://x/>\nx:s x:p x:o .\nPREFIX x: <http://y/>\nx:s x:p x:o ."),
    (Form::NTriples, 9, LINES),
    (Form::NQuads, 9, LINES_OF_GRAPHS),
    (Form::Turtle, 9, STATEMENTS),
    (Form::TriG, 9, BLOCKS),
];

/// Each kind of term of N-Triples, and each escape.
const LINES: &str = "\u{FEFF}# c\n\
    <http://a/\\u0073\\U00000074> <http://a/p> \"\\t\\b\\n\\r\\f\\\"\\'\\\\\\u00e9\\U0001F600'\"@en-GB . # c\r\n\n\
    _:x.y <a:p> _:\u{E9} .\n<a:s> <a:p> \"x\"^^<a:\\u0074> .\n\
    <a:s> <a:p> \"\"^^<http://www.w3.org/2001/XMLSchema#string> .\n<a:s> <a:p> \"\u{1F600}\" .";

/// The same with graphs.
const LINES_OF_GRAPHS: &str =
    "<a:s> <a:p> \"\\t\\b\\n\\r\\f\\\"\\'\\\\\\u00e9\\U0001F600\"@en-GB <a:\\u0067> .\n_:x <a:p> _:y _:g .
<a:s> <a:p> \"x\"^^<a:t> <a:g> .\n<a:s> <a:p> <a:o> .";

/// Directives of both spellings, a base and a prefix given anew, and each kind of term, string, escape, number and
/// bracket of Turtle.
const STATEMENTS: &str =
    "@base <http://h/b/c> .\nBASE <../d/>\n@prefix : <#> .\nPREFIX x: <e?q#f>\n\
    :s a x:b%20\\~c, <s\\u0061>, _:l.x ; x:p 'a\\'\\t\\b\\n\\r\\f\\\"\\\\\\u00e9\\U0001F600'@en-GB, \
    \"b\"^^x:t, \"c\", '''a'\n\
    \"\\\"b''\\n''', \"\"\" \"\" \\u0041\"\"\"^^<t>, 1, -1.5, +.5e-3, true, false ; ; .\n\
    @prefix x: <http://y/> .\n[ x:p [ x:q ( 1 [ ] ( ( \"a\" ) ) () ) ] ] x:r () .\n\
    ( 1 [ x:p x:o ; a x:c ] ) x:p [] .\n[ x:p x:o ] .";

/// Blocks of each kind of graph, with what a block has of TriG and what stands between them.
const BLOCKS: &str =
    "@prefix : <http://e/> .\n{ :s :p :o . :s :p 'x'@en }\n:g { :s :p ( 1 [ :q :r ] ) . }\n\
    GRAPH _:g { [ :p :o ] a :c . }\n[] { :s :p \"\"\"a\"b\"\"\" }\nBASE <http://h/b>\nGRAPH <g> { }\n\
    <g> { <s> <p> <o>, <?q> ; <r> 1.5 }\n_:x :p _:g .";

/// More growths or calls than any of these runs makes.
const MOST: u64 = 5000;

/// What a run meets after some calls: a growth that is refused, a fill that fails, or a put.
#[derive(Clone, Copy, PartialEq, Eq, Debug)]
enum Met {
    Growth,
    Fill,
    Put,
}

/// What comes of a run of which a call meets that, and whether one did.
fn run_that_meets(alloc: Global, asked: &Asked<'_>, met: Met, calls: u64) -> (Outcome, bool) {
    if met == Met::Growth {
        let memory = Refusing::after(alloc, calls);
        let outcome = run(&memory, alloc, asked);
        return (outcome, memory.has_refused());
    }
    let failing = if met == Met::Fill {
        Asked {
            cut: 0,
            fills: calls,
            ..*asked
        }
    } else {
        Asked {
            room: 1,
            puts: calls,
            ..*asked
        }
    };
    let outcome = run(alloc, alloc, &failing);
    let has_failed = outcome.has_failed;
    (outcome, has_failed)
}

/// Whether the run ended for what it met, after a beginning of what it writes where it meets nothing: whole lines
/// of it where the drain did not fail, and else so many bytes. Lines that were written before a growth was refused
/// were flushed.
fn is_stopped(stopped: &Outcome, met: Met, calls: u64, whole: &Outcome) -> bool {
    let Some(written) = stopped.text.as_slice().get(..stopped.len) else {
        return false;
    };
    if !whole.text.as_slice().starts_with(written) {
        return false;
    }
    match met {
        Met::Growth => {
            stopped.end == End::Memory
                && are_lines(written)
                && (stopped.flushed || written.is_empty())
        }
        Met::Fill => stopped.end == End::Read && are_lines(written) && !stopped.flushed,
        Met::Put => { stopped.end == End::Write && stopped.len as u64 == calls && !stopped.flushed }
    }
}

fn are_lines(written: &[u8]) -> bool {
    written.is_empty() || written.ends_with(b"\n")
}

/// Whether a run ends so wherever it meets that, and as it does without where it does not.
fn ends_where_met(alloc: Global, asked: &Asked<'_>, met: Met) -> bool {
    let whole = run(alloc, alloc, asked);
    for calls in 0..MOST {
        let (stopped, has_met) = run_that_meets(alloc, asked, met, calls);
        if !has_met {
            return is_alike(&stopped, &whole);
        }
        if !is_stopped(&stopped, met, calls, &whole) {
            return false;
        }
    }
    false
}

/// The tasks, and where their documents are cut; at 0 each byte comes alone.
static TASKS: [(Task, usize); 6] = [
    (Task::Convert, 0),
    (Task::Check, 0),
    (Task::Show, 0),
    (Task::Convert, usize::MAX),
    (Task::Check, usize::MAX),
    (Task::Show, usize::MAX),
];

/// The first of the tasks that does not end so over a document with these limits of open brackets, if there is one.
fn goes_on(alloc: Global, form: Form, depth: u64, document: &str, met: Met) -> Option<Task> {
    for (task, cut) in TASKS.as_slice() {
        let asked = Asked {
            limits: Limits::new(1000, depth, 9, 1000).unwrap_or_default(),
            cut: *cut,
            ..Asked::of(*task, form, document.as_bytes())
        };
        if !ends_where_met(alloc, &asked, met) {
            return Some(*task);
        }
    }
    None
}

/// The first of the documents over which a task does not end so, and the task, if there is one.
fn unstopped(alloc: Global, met: Met) -> Option<(&'static str, Task)> {
    for (form, depth, document) in DOCUMENTS.as_slice() {
        if let Some(task) = goes_on(alloc, *form, *depth, document, met) {
            return Some((document, task));
        }
    }
    None
}

#[test]
fn whichever_call_of_a_device_fails_the_run_ends_there(rt: HostRuntime) {
    for met in [Met::Fill, Met::Put] {
        assert_eq!(rt; unstopped(rt.alloc(), met), None, "{met:?}");
    }
}

#[test]
fn whichever_growth_is_refused_memory_is_reported(rt: HostRuntime) {
    assert_eq!(rt; unstopped(rt.alloc(), Met::Growth), None);
}

#[test]
fn the_base_is_kept_or_memory_is_reported(rt: HostRuntime) {
    let asked = Asked {
        base: "http://a/b",
        ..Asked::of(Task::Convert, Form::Turtle, b"<c> <d> <#e> .")
    };
    assert!(rt; ends_where_met(rt.alloc(), &asked, Met::Growth));
}

/// Appends two reports, and says whether both are there. Where a report is not appended, the one before it stays.
fn reports<A: Allocator + Copy>(alloc: A) -> Option<bool> {
    let refused = StreamFault::Refused(Fault {
        reason: Reason::TooManyBindings,
        offset: u64::MAX,
        line: u64::MAX,
    });
    let mut out = Vec::new(alloc);
    report(alloc, &StreamFault::Read, &mut out).ok()?;
    let len = out.len();
    match report(alloc, &refused, &mut out) {
        Ok(()) => Some(true),
        Err(_) if out.len() == len => None,
        Err(_) => Some(false),
    }
}

/// Loads a file of bindings, and says whether it is none.
fn loads<A: Allocator + Copy>(alloc: A) -> Option<bool> {
    let file = b"x: http://x/\r\n: http://e/\nx: http://y/";
    let mut source = parts_of(file, 9, u64::MAX);
    match load_bindings(alloc, Limits::default(), &mut source) {
        Ok(_) => Some(true),
        Err(LoadFault::Memory) => None,
        Err(_) => Some(false),
    }
}

/// Whether both end well, or not for want of memory, where a growth is refused.
fn ends_well_or_for_memory(alloc: Global, calls: u64) -> (bool, bool) {
    let memory = Refusing::after(alloc, calls);
    let reported = reports(&memory);
    let loaded = loads(&memory);
    let ends_well = reported == Some(true) && loaded == Some(true);
    let is_right = reported != Some(false) && loaded != Some(false);
    (is_right && ends_well != memory.has_refused(), ends_well)
}

#[test]
fn a_report_is_appended_whole_or_for_want_of_memory_not_at_all(rt: HostRuntime) {
    for calls in 0..MOST {
        let (is_right, ends_well) = ends_well_or_for_memory(rt.alloc(), calls);
        assert!(rt; is_right, "after {calls} calls");
        if ends_well {
            return;
        }
    }
    assert!(rt; false, "each call met a refusal");
}

static LONG_TOKEN: [(&str, u64); 3] = [("<a:> <b:> \"", 1), ("x", 150_000), ("\" .\n", 1)];

static DEEP: [(&str, u64); 4] = [
    ("<a:> <b:> ", 1),
    ("[ <c:> ( ", 200),
    (") ] ", 200),
    (".\n", 1),
];

/// The parts of a long token, or of brackets in brackets.
fn long_document(form: Form) -> &'static [(&'static str, u64)] {
    match form {
        Form::TriG => DEEP.as_slice(),
        _ => LONG_TOKEN.as_slice(),
    }
}

fn long_ends_where_met(alloc: Global, form: Form, task: Task) -> bool {
    match text_of(alloc, long_document(form)) {
        Ok(document) => {
            let asked = Asked::of(task, form, document.as_bytes());
            ends_where_met(alloc, &asked, Met::Growth)
        }
        Err(_) => false,
    }
}

#[test]
fn long_tokens_and_deep_brackets_end_where_memory_does(rt: HostRuntime) {
    for form in [Form::NTriples, Form::NQuads, Form::Turtle, Form::TriG] {
        for task in [Task::Convert, Task::Check, Task::Show] {
            assert!(rt;
                long_ends_where_met(rt.alloc(), form, task),
                "{task:?} of {form:?}"
            );
        }
    }
}
