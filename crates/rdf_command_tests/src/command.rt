// The command line: the words of a task, and runs over memory.

ghost use Rattle.rdf_iri.specs.Scope.{BaseFits};
ghost use Rattle.rdf_command.specs.Runs.{AreFresh};

mod hosts;
mod rows;
mod texts;

use hosts::{InMemory, Making, Outputs, slow_out};
use rdf_command::{
    Action, Document, Files, Host, NoWords, Process, Task, WordsFault, command_of, refuse_words,
    run, start,
};
use rdf_stream::{Escapes, Form, In, Limits, Out, Source};
use rows::{
    CUTS, FILES, Fields, INPUT, LIMITED, Limited, MADE, Made, PLAIN, RUNS, Run, STARTED, Started,
    TASKS, UNMADE, UNWRITTEN, Unmade,
};
use std::alloc::{AllocError, Global};
use std::test::Fail;
use texts::{COMMANDS, HELP, Help, MISUSED, NOT_UTF8, REFUSED, SHOW, UNEXPECTED, VERSION};

/// What came of a run.
#[derive(Drop)]
struct Ended {
    status: u8,
    written: Vec<u8>,
    reported: Vec<u8>,
}

impl Ended {
    /// What of it is not so, if anything.
    fn differs_in(&self, status: u8, written: &str, reported: &str) -> Option<&'static str> {
        if self.status != status {
            Some("status")
        } else if self.written.as_slice() != written.as_bytes() {
            Some("written")
        } else if self.reported.as_slice() != reported.as_bytes() {
            Some("reported")
        } else {
            None
        }
    }
}

fn task(alloc: Global, action: Action, form: Form, limits: Limits) -> Task
    ensures { BaseFits result.base result.limits }
{
    Task {
        action,
        form,
        base: None,
        addressed: false,
        limits,
        explain: false,
        escapes: Escapes::Plain,
        node_prefix: None,
        graph: None,
        prefixes: None,
        file: None,
        output: None,
        skip: None,
        more: Vec::new(alloc),
    }
}

fn files(text: &str) -> Files<In<&[u8]>>
    ensures { AreFresh (λ s. s.has_ended) (λ s. s.has_failed) result }
{
    Files {
        prefixes: None,
        document: In::new(text.as_bytes()),
    }
}

fn ran(alloc: Global, task: Task, document: &str) -> Ended
    requires { BaseFits task.base task.limits }
{
    let mut written = Vec::new(alloc);
    let mut reported = Vec::new(alloc);
    let mut out = Out::new(&mut written);
    let mut err = Out::new(&mut reported);
    let mut files = files(document);
    let status = run(alloc, task, &mut files, &mut out, &mut err);
    drop(files);
    drop(out);
    drop(err);
    Ended {
        status,
        written,
        reported,
    }
}

fn run_differs_in(alloc: Global, row: &Run) -> Option<&'static str> {
    let (action, form, document, status, written, reported) = *row;
    let task = task(alloc, action, form, Limits::default());
    ran(alloc, task, document).differs_in(status, written, reported)
}

#[test]
fn a_run_writes_the_lines_or_tells_why_not(rt: HostRuntime) {
    for row in RUNS.as_slice() {
        let (_, _, document, ..) = row;
        assert_eq!(rt; run_differs_in(rt.alloc(), row), None, "{document}");
    }
}

fn limited_run_differs_in(alloc: Global, row: &Limited) -> Option<&'static str> {
    let (token, iri, status, written, reported) = *row;
    let Some(limits) = Limits::new(token, 0, 0, iri) else {
        return Some("limits");
    };
    let task = task(alloc, Action::Convert, Form::NTriples, limits);
    ran(alloc, task, "<a:> <b:> <c:> .").differs_in(status, written, reported)
}

#[test]
fn a_run_keeps_to_the_limits_of_its_task(rt: HostRuntime) {
    for row in LIMITED.as_slice() {
        let (token, iri, ..) = row;
        assert_eq!(rt;
            limited_run_differs_in(rt.alloc(), row),
            None,
            "tokens of {token} and IRIs of {iri}"
        );
    }
}

/// The field of the task that is not so, if there is one.
fn other_field(task: &Task, fields: &Fields<'_>) -> Option<&'static str> {
    let [token, depth, bindings, iri] = fields.limits;
    if task.action != fields.action {
        Some("action")
    } else if task.form != fields.form {
        Some("form")
    } else if task.base.as_ref().map(|base| base.as_str()) != fields.base {
        Some("base")
    } else if Limits::new(token, depth, bindings, iri) != Some(task.limits) {
        Some("limits")
    } else if task.explain != fields.explain {
        Some("explain")
    } else if task.escapes != fields.escapes {
        Some("escapes")
    } else {
        other_text(task, fields)
    }
}

fn other_text(task: &Task, fields: &Fields<'_>) -> Option<&'static str> {
    if task.node_prefix.as_ref().map(|word| word.view().as_str()) != fields.node_prefix {
        Some("node prefix")
    } else if task.graph.as_ref().map(|graph| graph.as_str()) != fields.graph {
        Some("graph")
    } else if task.prefixes.as_deref() != fields.prefixes {
        Some("prefixes")
    } else if task.file.as_deref() != fields.file {
        Some("file")
    } else if task.output.as_deref() != fields.output {
        Some("output")
    } else if task.skip.as_deref() != fields.skip {
        Some("skip")
    } else {
        other_document(task.more.as_slice(), fields.more)
    }
}

fn other_document(more: &[Document], expected: &[(Form, &str)]) -> Option<&'static str> {
    if more.len() != expected.len() {
        return Some("number of documents");
    }
    for (document, row) in more.iter().zip(expected.iter()) {
        if document.form != row.0 || document.name.as_str() != row.1 {
            return Some("document");
        }
    }
    None
}

fn task_differs_in(alloc: Global, words: &[&str], fields: &Fields<'_>) -> Option<&'static str> {
    match command_of(alloc, words) {
        Ok(task) => other_field(&task, fields),
        Err(_) => Some("no task"),
    }
}

/// The words of a line, which has a space between each two; an empty one has none.
fn words_in<'a>(alloc: Global, line: &'a str) -> Result<Vec<&'a str>, AllocError> {
    if line.is_empty() {
        return Ok(Vec::new(alloc));
    }
    line.split(' ').collect(alloc)
}

fn asked_task_differs_in(alloc: Global, line: &str, fields: &Fields<'_>) -> Option<&'static str> {
    match words_in(alloc, line) {
        Ok(words) => task_differs_in(alloc, words.as_slice(), fields),
        Err(_) => Some("memory"),
    }
}

#[test]
fn words_give_each_field_of_a_task(rt: HostRuntime) {
    for (line, fields) in TASKS.as_slice() {
        assert_eq!(rt;
            asked_task_differs_in(rt.alloc(), line, fields),
            None,
            "{line}"
        );
    }
}

fn refused(alloc: Global, fault: WordsFault) -> Ended {
    let mut written = Vec::new(alloc);
    let mut reported = Vec::new(alloc);
    let mut out = Out::new(&mut written);
    let mut err = Out::new(&mut reported);
    let status = refuse_words(alloc, &fault, &mut out, &mut err);
    drop(out);
    drop(err);
    Ended {
        status,
        written,
        reported,
    }
}

/// What differs where these words are no task, and end with this status and these texts.
fn refusal_differs_in(
    alloc: Global,
    words: &[&str],
    status: u8,
    written: &str,
    reported: &str,
) -> Option<&'static str> {
    match command_of(alloc, words) {
        Ok(_) => Some("a task"),
        Err(fault) => refused(alloc, fault).differs_in(status, written, reported),
    }
}

fn refused_line_differs_in(alloc: Global, line: &str, reported: &str) -> Option<&'static str> {
    match words_in(alloc, line) {
        Ok(words) => refusal_differs_in(alloc, words.as_slice(), 2, "", reported),
        Err(_) => Some("memory"),
    }
}

/// What differs where this line has an option that its command does not take.
fn unexpected_differs_in(
    alloc: Global,
    line: &str,
    option: &str,
    usage: &str,
) -> Option<&'static str> {
    match format!(in alloc;
        "error: unexpected argument '{option}' found\n\n  \
        tip: to pass '{option}' as a value, use '-- {option}'\n\n\
        {usage}For more information, try '--help'.\n"
    ) {
        Ok(text) => refused_line_differs_in(alloc, line, text.as_str()),
        Err(_) => Some("memory"),
    }
}

/// What differs where this line is no task for that error.
fn misused_differs_in(alloc: Global, line: &str, error: &str, usage: &str) -> Option<&'static str> {
    match format!(in alloc; "error: {error}\n\n{usage}For more information, try '--help'.\n") {
        Ok(text) => refused_line_differs_in(alloc, line, text.as_str()),
        Err(_) => Some("memory"),
    }
}

/// What differs where a text of this line is refused for that reason.
fn refused_text_differs_in(alloc: Global, line: &str, reason: &str) -> Option<&'static str> {
    match format!(in alloc; "rdfconv: {reason}\n") {
        Ok(text) => refused_line_differs_in(alloc, line, text.as_str()),
        Err(_) => Some("memory"),
    }
}

/// The first line that is not refused so, and what is not so.
fn unlike_refusal(alloc: Global) -> Option<(&'static str, &'static str)> {
    for (line, option, usage) in UNEXPECTED.as_slice() {
        if let Some(other) = unexpected_differs_in(alloc, line, option, usage) {
            return Some((line, other));
        }
    }
    for (line, error, usage) in MISUSED.as_slice() {
        if let Some(other) = misused_differs_in(alloc, line, error, usage) {
            return Some((line, other));
        }
    }
    for (line, reason) in REFUSED.as_slice() {
        if let Some(other) = refused_text_differs_in(alloc, line, reason) {
            return Some((line, other));
        }
    }
    None
}

#[test]
fn words_that_are_no_task_are_reported(rt: HostRuntime) {
    assert_eq!(rt; unlike_refusal(rt.alloc()), None);
}

fn program_help_differs_in(alloc: Global) -> Option<&'static str> {
    refusal_differs_in(alloc, &["rdfconv", "--help"], 0, HELP, "")
        .or(refusal_differs_in(alloc, &["rdfconv", "-h"], 0, HELP, ""))
        .or(refusal_differs_in(alloc, &["rdfconv", "help"], 0, HELP, ""))
        .or(refusal_differs_in(alloc, &["rdfconv", "--version"], 0, VERSION, ""))
        .or(refusal_differs_in(alloc, &["rdfconv", "-V"], 0, VERSION, ""))
}

fn command_help_differs_in(alloc: Global, name: &str, help: &str) -> Option<&'static str> {
    refusal_differs_in(alloc, &["rdfconv", name, "--help"], 0, help, "")
        .or(refusal_differs_in(alloc, &["rdfconv", name, "-h"], 0, help, ""))
        .or(refusal_differs_in(alloc, &["rdfconv", "help", name], 0, help, ""))
}

/// What differs in the help of a command, which begins with these lines and options.
fn help_differs_in(alloc: Global, help: &Help) -> Option<&'static str> {
    let (name, first, options, notes) = *help;
    match format!(in alloc; "{first}{options}{notes}") {
        Ok(text) => command_help_differs_in(alloc, name, text.as_str()),
        Err(_) => Some("memory"),
    }
}

/// The first command whose help is not so, and what is not so.
fn unlike_help(alloc: Global) -> Option<(&'static str, &'static str)> {
    for help in COMMANDS.as_slice() {
        let (name, ..) = help;
        if let Some(other) = help_differs_in(alloc, help) {
            return Some((name, other));
        }
    }
    let other = program_help_differs_in(alloc)?;
    Some(("rdfconv", other))
}

#[test]
fn help_is_written_to_the_output(rt: HostRuntime) {
    assert_eq!(rt; unlike_help(rt.alloc()), None);
}

/// The front, and the letter a hundred thousand times.
fn long(alloc: Global, front: &str, letter: char) -> Result<String, AllocError> {
    let mut text = String::from_str(alloc, front)?;
    for _ in 0..100_000 {
        text.push(letter)?;
    }
    Ok(text)
}

fn long_task_differs_in(alloc: Global, base: &str, file: &str) -> Option<&'static str> {
    let words = [
        "rdfconv",
        "show",
        "--format",
        "ttl",
        "--base",
        base,
        "--token",
        "1",
        "--depth",
        "2",
        "--bindings",
        "3",
        "--iri",
        "200000",
        "--",
        file,
    ];
    let fields = Fields {
        action: Action::Show,
        form: Form::Turtle,
        base: Some(base),
        limits: [1, 2, 3, 200000],
        file: Some(file),
        ..PLAIN
    };
    task_differs_in(alloc, &words, &fields)
}

fn many_words_differ_in(alloc: Global, word: &str) -> Option<&'static str> {
    let mut words = [word; 1000];
    words[0] = "rdfconv";
    words[1] = "show";
    match format!(in alloc;
        "error: unexpected argument '{word}' found\n\n{SHOW}For more information, try '--help'.\n"
    ) {
        Ok(message) => refusal_differs_in(alloc, &words, 2, "", message.as_str()),
        Err(_) => Some("memory"),
    }
}

fn long_line_differs_in(alloc: Global) -> Result<Option<&'static str>, AllocError> {
    let base = long(alloc, "http://a/", 'b')?;
    let file = long(alloc, "", 'f')?;
    let task = long_task_differs_in(alloc, base.as_str(), file.as_str());
    Ok(task.or(many_words_differ_in(alloc, base.as_str())))
}

#[test]
fn a_long_command_line_is_taken(rt: HostRuntime) -> Result<(), Fail> {
    assert_eq!(&rt; long_line_differs_in(rt.alloc())?, None);
    Ok(())
}

/// A host with these words, whose outputs become that.
fn in_memory(words: Result<&str, NoWords>, making: Making) -> InMemory<'_> {
    InMemory {
        words,
        input: INPUT,
        files: FILES.as_slice(),
        outputs: Outputs::new(making),
    }
}

fn start_differs_in(
    alloc: Global,
    words: Result<&str, NoWords>,
    status: u8,
    written: &str,
    reported: &str,
) -> Option<&'static str> {
    let host = in_memory(words, Making::NotCreated);
    started(alloc, &host).differs_in(status, written, reported)
}

fn started(alloc: Global, host: &InMemory<'_>) -> Ended {
    let mut written = Vec::new(alloc);
    let mut reported = Vec::new(alloc);
    let mut out = Out::new(&mut written);
    let mut err = Out::new(&mut reported);
    let ended = start(alloc, host, &mut out, &mut err);
    let status = ended.status;
    drop(ended);
    drop(out);
    drop(err);
    Ended {
        status,
        written,
        reported,
    }
}

fn started_line_differs_in(alloc: Global, row: &Started) -> Option<&'static str> {
    let (line, status, written, reported) = *row;
    start_differs_in(alloc, Ok(line), status, written, reported)
}

fn start_without_words_differs_in(alloc: Global) -> Option<&'static str> {
    let no_text = start_differs_in(alloc, Err(NoWords::NotUtf8), 2, "", NOT_UTF8);
    let no_memory = Err(NoWords::Memory);
    no_text.or(start_differs_in(alloc, no_memory, 4, "", "rdfconv: out of memory\n"))
}

/// The first line of which something else comes, and what is not so.
fn unlike_start(alloc: Global) -> Option<(&'static str, &'static str)> {
    for row in STARTED.as_slice() {
        let (line, ..) = row;
        if let Some(other) = started_line_differs_in(alloc, row) {
            return Some((line, other));
        }
    }
    let other = start_without_words_differs_in(alloc)?;
    Some(("no words", other))
}

#[test]
fn the_program_does_what_its_words_say(rt: HostRuntime) {
    assert_eq!(rt; unlike_start(rt.alloc()), None);
}

/// What comes of a check of several documents whose error output takes so many bytes, one a call, and then fails.
fn checked(alloc: Global, line: &str, calls: u64) -> Ended {
    let host = in_memory(Ok(line), Making::NotCreated);
    let mut written = Vec::new(alloc);
    let mut out = Out::new(&mut written);
    let mut err = slow_out(alloc, 1, calls);
    let ended = start(alloc, &host, &mut out, &mut err);
    let status = ended.status;
    drop(ended);
    drop(out);
    Ended {
        status,
        written,
        reported: err.drain.bytes,
    }
}

/// What differs where the error output takes so many bytes of what is reported. Standard input has its line once
/// all that is reported of the first document is taken.
fn cut_differs_in(
    alloc: Global,
    line: &str,
    first: usize,
    reported: &str,
    count: usize,
) -> Option<&'static str> {
    let ended = checked(alloc, line, count as u64);
    let written = if count < first {
        ""
    } else {
        "-: accepted, 1 quads, 19 bytes\n"
    };
    if ended.status != 3 {
        Some("status")
    } else if ended.written.as_slice() != written.as_bytes() {
        Some("written")
    } else if Some(ended.reported.as_slice()) != reported.as_bytes().get(..count) {
        Some("reported")
    } else {
        None
    }
}

/// The first number of bytes after which the error output does not end the check at its document, and what is not so.
fn unlike_cut(
    alloc: Global,
    line: &str,
    first: usize,
    reported: &str,
) -> Option<(usize, &'static str)> {
    for count in 0..reported.len() {
        if let Some(other) = cut_differs_in(alloc, line, first, reported, count) {
            return Some((count, other));
        }
    }
    None
}

#[test]
fn no_document_is_read_after_an_output_has_failed(rt: HostRuntime) {
    for (line, first, reported) in CUTS.as_slice() {
        assert_eq!(rt;
            unlike_cut(rt.alloc(), line, *first, reported),
            None,
            "{line}"
        );
    }
}

/// What differs in the files that are there after a run, if this is what `out.nq` has and what `bad.nt` ends in.
fn files_differ_in(
    outputs: &Outputs,
    kept: Option<&str>,
    aside: Option<&str>,
) -> Option<&'static str> {
    let bytes = outputs.kept.get().map(|bytes| bytes.as_slice());
    if bytes != kept.map(|text| text.as_bytes()) {
        return Some("kept");
    }
    match (outputs.aside.get(), aside) {
        (Some(bytes), Some(end)) if bytes.as_slice().ends_with(end.as_bytes()) => None,
        (None, None) => None,
        _ => Some("put aside"),
    }
}

fn discarded_differs_in(outputs: &Outputs, is_discarded: bool) -> Option<&'static str> {
    if outputs.is_discarded.get() == is_discarded {
        None
    } else {
        Some("discarded")
    }
}

fn made_differs_in(alloc: Global, row: &Made) -> Option<&'static str> {
    let (line, status, written, kept, aside, reported) = *row;
    let host = in_memory(Ok(line), Making::Works);
    let ended = started(alloc, &host);
    ended
        .differs_in(status, written, reported)
        .or(files_differ_in(&host.outputs, kept, aside))
        .or(discarded_differs_in(&host.outputs, false))
}

#[test]
fn files_are_made_where_they_are_asked_for(rt: HostRuntime) {
    for row in MADE.as_slice() {
        let (line, ..) = row;
        assert_eq!(rt; made_differs_in(rt.alloc(), row), None, "{line}");
    }
}

fn unmade_differs_in(alloc: Global, row: &Unmade) -> Option<&'static str> {
    let (line, making, status, is_discarded, reported) = *row;
    let host = in_memory(Ok(line), making);
    let ended = started(alloc, &host);
    ended
        .differs_in(status, "", reported)
        .or(files_differ_in(&host.outputs, None, None))
        .or(discarded_differs_in(&host.outputs, is_discarded))
}

#[test]
fn a_file_is_there_whole_or_not_at_all(rt: HostRuntime) {
    for row in UNMADE.as_slice() {
        let (line, making, ..) = row;
        assert_eq!(rt;
            unmade_differs_in(rt.alloc(), row),
            None,
            "{line}, where the outputs are {making:?}"
        );
    }
}

/// What differs in a run whose output takes no byte.
fn unwritten_differs_in(alloc: Global, line: &str, message: &str) -> Option<&'static str> {
    let host = in_memory(Ok(line), Making::Works);
    let mut out = slow_out(alloc, 1, 0);
    let mut reported = Vec::new(alloc);
    let mut err = Out::new(&mut reported);
    let ended = start(alloc, &host, &mut out, &mut err);
    let status = ended.status;
    drop(ended);
    drop(err);
    Ended {
        status,
        written: out.drain.bytes,
        reported,
    }
    .differs_in(3, "", message)
}

#[test]
fn a_failed_write_to_the_output_is_reported(rt: HostRuntime) {
    for (line, message) in UNWRITTEN.as_slice() {
        assert_eq!(rt;
            unwritten_differs_in(rt.alloc(), line, message),
            None,
            "{line}"
        );
    }
}

/// The words, with a zero byte after each.
fn with_zeros(alloc: Global, words: &[String]) -> Result<String, AllocError> {
    let mut text = String::new(alloc);
    for word in words {
        text.push_str(word.as_str())?;
        text.push('\0')?;
    }
    Ok(text)
}

fn words_of(alloc: Global, process: &Process<'_>) -> Result<String, &'static str> {
    match process.words(alloc) {
        Ok(words) => with_zeros(alloc, words.as_slice()).or(Err("no memory")),
        Err(_) => Err("no words"),
    }
}

/// How many bytes the file gives first.
fn read(process: &Process<'_>, file: &str, buf: &mut [u8]) -> Result<usize, &'static str> {
    match process.open(Some(file)) {
        Ok(source) => {
            let mut source = source;
            source.fill(buf).or(Err("no bytes"))
        }
        Err(_) => Err("no file"),
    }
}

/// The system's file of the words of a process has a zero byte after each, and may have a loader's words first.
fn has_all_words(alloc: Global, process: &Process<'_>) -> Result<bool, &'static str> {
    let mut buf = [0u8; 4096];
    let count = read(process, "/proc/self/cmdline", &mut buf)?;
    let front = buf.get(..count).ok_or("no front")?;
    let words = words_of(alloc, process)?;
    Ok(!words.is_empty() && front.ends_with(words.as_bytes()))
}

#[test]
fn the_process_has_all_its_words(rt: HostRuntime) -> Result<(), Fail> {
    let process = Process::new(&rt);
    assert!(&rt; process.open(Some("no such file")).is_err());
    assert!(&rt; has_all_words(rt.alloc(), &process)?);
    Ok(())
}
