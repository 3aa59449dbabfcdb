// The calls that can report want of memory: they do where a growth was refused, and nowhere else.

ghost use Rattle.std.specs.Prelude.{◌≡◌, ◌≤◌};

use rdf_driver::Fault;
use rdf_iri::{BindingFault, BindingReason, IriFault, Limits, Scope, read_bindings, resolve};
use rdf_lines::{
    Escapes, LabelFault, LineBuffer, LineForm, Style, WrittenForm, label_text, write_line,
};
use rdf_terms::{
    Iri, Known, Label, LiteralRef, NodeRef, PutFault, QuadList, QuadRef, QuadSink, Reason,
    SubjectRef, Tag, TailRef, TermFault, TermRef, TextBuffer, ValueFault, iri_text, iri_value,
    known, local_value, set_iri_value, set_string_value, string_value,
};
use rdf_tokens::{Dialect, Scanner};
use rdf_trig::{DocForm, Options, read_document};
use read_pieces::{Form, Report, put_copy, read_pieces};
use refusing_alloc::Refusing;
use std::alloc::{AllocError, Allocator, Global};

/// Why calls stopped.
#[derive(Clone, Copy, PartialEq, Eq)]
enum Stop {
    Memory,
    /// Another error, or something that was to stay is not as it was.
    Wrong,
}

impl From<AllocError> for Stop {
    fn from(_: AllocError) -> Stop {
        Stop::Memory
    }
}

impl From<TermFault> for Stop {
    fn from(fault: TermFault) -> Stop {
        Stop::of(fault == TermFault::Memory)
    }
}

impl From<ValueFault> for Stop {
    fn from(fault: ValueFault) -> Stop {
        Stop::of(fault == ValueFault::Memory)
    }
}

impl From<IriFault> for Stop {
    fn from(fault: IriFault) -> Stop {
        Stop::of(fault == IriFault::Memory)
    }
}

impl From<BindingFault> for Stop {
    fn from(fault: BindingFault) -> Stop {
        Stop::of(fault.reason == BindingReason::Memory)
    }
}

impl From<LabelFault> for Stop {
    fn from(fault: LabelFault) -> Stop {
        Stop::of(fault == LabelFault::Memory)
    }
}

impl From<PutFault> for Stop {
    fn from(fault: PutFault) -> Stop {
        Stop::of(fault == PutFault::Memory)
    }
}

impl From<Fault> for Stop {
    fn from(fault: Fault) -> Stop {
        Stop::of(fault.reason == Reason::Memory)
    }
}

impl Stop {
    fn of(is_memory: bool) -> Stop {
        if is_memory { Stop::Memory } else { Stop::Wrong }
    }
}

/// Values that are put in place of a text.
fn put_values<A: Allocator + Copy>(alloc: A) -> Result<(), Stop> {
    let mut text = String::new(alloc);
    set_string_value(&mut text, "a value")?;
    set_iri_value(&mut text, "http://a/\\u0073\\U00000074")?;
    Ok(())
}

/// What a text is the inside of.
#[derive(Clone, Copy)]
enum Inside {
    String,
    Iri,
    Local,
}

#[rattlefmt::skip]
static INSIDES: [(Inside, &str); 6] = [
    (Inside::String, "a value"),
    (Inside::String, "\\t\\b\\n\\r\\f\\\"\\'\\\\\\u00e9\\U0001F600 and so on"),
    (Inside::Iri, "http://a/s"),
    (Inside::Iri, "http://a/\\u0073\\U00000074"),
    (Inside::Local, "b%20c"),
    (Inside::Local, "b%20\\~c"),
];

/// Values of escapes.
fn make_values<A: Allocator + Copy>(alloc: A) -> Result<(), Stop> {
    for (inside, text) in INSIDES.as_slice() {
        let value = match inside {
            Inside::String => string_value(alloc, text),
            Inside::Iri => iri_value(alloc, text),
            Inside::Local => local_value(alloc, text),
        };
        value?;
    }
    Ok(())
}

fn make_terms<A: Allocator + Copy>(alloc: A) -> Result<(), Stop> {
    Label::new(alloc, "x.y")?;
    Tag::new(alloc, "en-GB")?;
    Ok(())
}

/// The IRI of a reference against a base.
fn resolve_one<A: Allocator + Copy>(alloc: A, reference: &str) -> Result<(), Stop> {
    if !iri_text(reference) {
        return Err(Stop::Wrong);
    }
    let base = Iri::new(alloc, "http://h/b/c")?;
    match resolve(alloc, Some(&base), reference, 100) {
        Ok(_) => Ok(()),
        Err(fault) => Err(Stop::from(fault)),
    }
}

fn resolve_references<A: Allocator + Copy>(alloc: A) -> Result<(), Stop> {
    for reference in ["g:h", "../g/./h?y#s", "", "?y"] {
        resolve_one(alloc, reference)?;
    }
    Ok(())
}

fn quad<'a>(node: NodeRef<'a>, object: TermRef<'a>) -> QuadRef<'a> {
    QuadRef {
        subject: SubjectRef::Node(node),
        predicate: known(Known::RdfFirst),
        object,
        graph: Some(SubjectRef::Iri(known(Known::RdfRest))),
    }
}

/// A quad written. Where its line is not appended, those before it stay.
fn append<A: Allocator + Copy>(
    quad: QuadRef<'_>,
    escapes: Escapes,
    out: &mut Vec<u8, A>,
) -> Result<(), Stop> {
    let len = out.len();
    match write_line(&quad, Style::Tagged, escapes, out) {
        Ok(()) => Ok(()),
        Err(fault) if out.len() == len => Err(Stop::from(fault)),
        Err(_) => Err(Stop::Wrong),
    }
}

/// A quad copied and kept, three times.
fn keep_quads<A: Allocator + Copy>(
    alloc: A,
    quad: QuadRef<'_>,
    list: &mut QuadList<A>,
) -> Result<(), Stop> {
    for _ in 0..3 {
        put_copy(alloc, quad, list)?;
    }
    Ok(())
}

fn append_lines<A: Allocator + Copy>(quad: QuadRef<'_>, out: &mut Vec<u8, A>) -> Result<(), Stop> {
    for _ in 0..3 {
        append(quad, Escapes::Plain, out)?;
        append(quad, Escapes::Ascii, out)?;
    }
    Ok(())
}

/// A quad's line put into a buffer. Where it is not appended, those before it stay.
fn put_line<A: Allocator + Copy>(
    quad: QuadRef<'_>,
    escapes: Escapes,
    lines: &mut LineBuffer<A>,
) -> Result<(), Stop> {
    let len = lines.len();
    match lines.put_line(&quad, WrittenForm::new(Style::Tagged, escapes)) {
        Ok(()) => Ok(()),
        Err(fault) if lines.len() == len => Err(Stop::from(fault)),
        Err(_) => Err(Stop::Wrong),
    }
}

/// The bytes of a line put into a buffer, likewise.
fn put_bytes<A: Allocator + Copy>(bytes: &[u8], lines: &mut LineBuffer<A>) -> Result<(), Stop> {
    let len = lines.len();
    match lines.append(bytes) {
        Ok(()) => Ok(()),
        Err(_) if lines.len() == len => Err(Stop::Memory),
        Err(_) => Err(Stop::Wrong),
    }
}

/// The line of three IRIs put into a buffer, likewise.
fn put_iris<A: Allocator + Copy>(escapes: Escapes, lines: &mut LineBuffer<A>) -> Result<(), Stop> {
    let len = lines.len();
    let iri = known(Known::RdfFirst);
    match lines.put_iris(iri, iri, iri, WrittenForm::new(Style::Tagged, escapes)) {
        Ok(()) => Ok(()),
        Err(_) if lines.len() == len => Err(Stop::Memory),
        Err(_) => Err(Stop::Wrong),
    }
}

fn fill_buffer<A: Allocator + Copy>(
    quad: QuadRef<'_>,
    lines: &mut LineBuffer<A>,
) -> Result<(), Stop> {
    for _ in 0..3 {
        put_line(quad, Escapes::Plain, lines)?;
        put_line(quad, Escapes::Ascii, lines)?;
        put_iris(Escapes::Plain, lines)?;
        put_iris(Escapes::Ascii, lines)?;
        put_bytes(b"<a:> <b:> <c:> .\n", lines)?;
    }
    Ok(())
}

/// A quad kept, and written in both forms, three times, also into a buffer, and the name of its subject's node.
fn write_quad<A: Allocator + Copy>(
    alloc: A,
    node: NodeRef<'_>,
    object: TermRef<'_>,
) -> Result<(), Stop> {
    let quad = quad(node, object);
    keep_quads(alloc, quad, &mut QuadList::new(alloc))?;
    append_lines(quad, &mut Vec::new(alloc))?;
    fill_buffer(quad, &mut LineBuffer::new(alloc))?;
    label_text(alloc, node, Style::Tagged)?;
    Ok(())
}

fn write_a_node<A: Allocator + Copy>(alloc: A) -> Result<(), Stop> {
    let label = Label::new(alloc, "x")?;
    write_quad(
        alloc,
        NodeRef::Label(label.view()),
        TermRef::Iri(known(Known::RdfNil)),
    )
}

fn write_a_text<A: Allocator + Copy>(alloc: A) -> Result<(), Stop> {
    let tag = Tag::new(alloc, "en-GB")?;
    let text = LiteralRef::new("\u{E9}\"\\\n\r\u{1F600}", TailRef::Lang(tag.view()));
    write_quad(alloc, NodeRef::Anon(27), TermRef::Literal(text))
}

fn write_a_number<A: Allocator + Copy>(alloc: A) -> Result<(), Stop> {
    let number = LiteralRef::new("1", TailRef::Typed(known(Known::XsdInteger)));
    write_quad(alloc, NodeRef::Cell(7), TermRef::Literal(number))
}

/// Quads of each kind of term.
fn write_quads<A: Allocator + Copy>(alloc: A) -> Result<(), Stop> {
    write_a_node(alloc)?;
    write_a_text(alloc)?;
    write_a_number(alloc)
}

/// Takes the IRI of a reference as the base. Where memory is refused, the scope holds what it held.
fn set_base<A: Allocator + Copy>(scope: &mut Scope<A>, reference: &str) -> Result<(), Stop>
    ensures { scope.new.limits ≡ scope.old.limits }
{
    if !iri_text(reference) {
        return Err(Stop::Wrong);
    }
    let held = scope.held();
    match scope.set_base(reference) {
        Ok(()) => Ok(()),
        Err(fault) => Err(if scope.held() == held {
            Stop::from(fault)
        } else {
            Stop::Wrong
        }),
    }
}

/// Binds a prefix of one byte or none. Where memory is refused, the scope holds what it held.
fn bind<A: Allocator + Copy>(
    scope: &mut Scope<A>,
    prefix: &str,
    reference: &str,
) -> Result<(), Stop>
    requires { 1 ≤ scope.old.limits.token }
    ensures { scope.new.limits ≡ scope.old.limits }
{
    if !iri_text(reference) || prefix.len() > 1 {
        return Err(Stop::Wrong);
    }
    let held = scope.held();
    match scope.bind(prefix, reference) {
        Ok(()) => Ok(()),
        Err(fault) => Err(if scope.held() == held {
            Stop::from(fault)
        } else {
            Stop::Wrong
        }),
    }
}

/// The IRIs of a reference and of a name.
fn use_names<A: Allocator + Copy>(scope: &Scope<A>, reference: &str) -> Result<(), Stop> {
    if !iri_text(reference) {
        return Err(Stop::Wrong);
    }
    scope.resolve_here(reference)?;
    scope.expand("x", reference)?;
    Ok(())
}

/// The same, put in place of a text.
fn put_names<A: Allocator + Copy>(alloc: A, scope: &Scope<A>, reference: &str) -> Result<(), Stop> {
    if !iri_text(reference) {
        return Err(Stop::Wrong);
    }
    let mut text = String::from_str(alloc, reference)?;
    scope.resolve_in_place(&mut text)?;
    let mut place = TextBuffer::new(alloc);
    scope.resolve_into(reference, &mut place)?;
    scope.expand_into("x", reference, &mut place)?;
    Ok(())
}

/// References that are taken as the base, or bound to a prefix.
static NAMES: [(Option<&str>, &str); 6] = [
    (None, "http://h/b/c"),
    (Some("x"), "../d/"),
    (Some(""), "e?q#f"),
    (None, "../g/"),
    (None, "i/j/k/l/m/n/o/p/"),
    (Some("x"), "#h"),
];

/// Bases and bindings, one after another.
fn set_names<A: Allocator + Copy>(scope: &mut Scope<A>) -> Result<(), Stop>
    requires { 1 ≤ scope.old.limits.token }
{
    for (prefix, reference) in NAMES.as_slice() {
        match prefix {
            Some(prefix) => bind(scope, prefix, reference)?,
            None => set_base(scope, reference)?,
        }
    }
    Ok(())
}

/// Bases, bindings, and the IRIs of references and names.
fn name_all<A: Allocator + Copy>(alloc: A, scope: &mut Scope<A>) -> Result<(), Stop>
    requires { 1 ≤ scope.old.limits.token }
{
    set_names(scope)?;
    for reference in ["s", "http://a/s"] {
        use_names(scope, reference)?;
        put_names(alloc, scope, reference)?;
    }
    Ok(())
}

fn use_a_scope<A: Allocator + Copy>(alloc: A) -> Result<(), Stop> {
    match Limits::new(9, 9, 9, 99) {
        Some(limits) => name_all(alloc, &mut Scope::new(alloc, None, limits)),
        None => Err(Stop::Wrong),
    }
}

/// A file of bindings, read.
fn read_a_file<A: Allocator + Copy>(alloc: A) -> Result<(), Stop> {
    let file = b"x: http://x/\r\n: http://e/\nx: http://y/";
    match read_bindings(alloc, Limits::default(), file) {
        Ok(_) => Ok(()),
        Err(fault) => Err(Stop::from(fault)),
    }
}

/// A token that is pushed in two pieces.
fn push_a_token<A: Allocator + Copy>(alloc: A) -> Result<(), Stop> {
    let mut scanner = Scanner::new(alloc, Dialect::Turtle, 99);
    scanner.push(b"\"a text that is longer than a few bytes")?;
    scanner.push(b" and goes on in the next piece, and no quote ends it")?;
    Ok(())
}

/// What a document came to, if the calls after it report that reading has ended.
fn ended(report: Option<Report>) -> Result<(), Stop> {
    match report {
        Some(report) if report.has_ended => match report.answer {
            Ok(_) => Ok(()),
            Err(fault) => Err(Stop::from(fault)),
        },
        _ => Err(Stop::Wrong),
    }
}

/// A document, read in pieces.
fn read_a_document<A: Allocator + Copy>(alloc: A, form: Form) -> Result<(), Stop> {
    let mut list = QuadList::new(alloc);
    ended(read_pieces(alloc, form, &mut list))
}

/// A document, read at once.
fn read_a_whole<A: Allocator + Copy>(alloc: A, form: DocForm) -> Result<(), Stop> {
    let document = b"@prefix : <http://e/> . [ :p ( :o 'x'@en [] ) ] .";
    match read_document(alloc, options(form)?, document) {
        Ok(_) => Ok(()),
        Err(fault) => Err(Stop::from(fault)),
    }
}

fn options<A: Allocator>(form: DocForm) -> Result<Options<A>, Stop> {
    match Options::new(form, None, Limits::default()) {
        Some(options) => Ok(options),
        None => Err(Stop::Wrong),
    }
}

/// More growths than any of these calls asks for.
const MOST: u64 = 2000;

/// Calls that follow one another.
#[derive(Clone, Copy, Debug)]
enum Task {
    Put,
    Values,
    Terms,
    References,
    Quads,
    Scope,
    File,
    Token,
    Pieces(Form),
    Whole(DocForm),
}

static TASKS: [Task; 14] = [
    Task::Put,
    Task::Values,
    Task::Terms,
    Task::References,
    Task::Quads,
    Task::Scope,
    Task::File,
    Task::Token,
    Task::Pieces(Form::Lines(LineForm::NTriples)),
    Task::Pieces(Form::Lines(LineForm::NQuads)),
    Task::Pieces(Form::Statements(DocForm::Turtle)),
    Task::Pieces(Form::Statements(DocForm::TriG)),
    Task::Whole(DocForm::Turtle),
    Task::Whole(DocForm::TriG),
];

fn run<A: Allocator + Copy>(alloc: A, task: Task) -> Result<(), Stop> {
    match task {
        Task::Put => put_values(alloc),
        Task::Values => make_values(alloc),
        Task::Terms => make_terms(alloc),
        Task::References => resolve_references(alloc),
        Task::Quads => write_quads(alloc),
        Task::Scope => use_a_scope(alloc),
        Task::File => read_a_file(alloc),
        Task::Token => push_a_token(alloc),
        Task::Pieces(form) => read_a_document(alloc, form),
        Task::Whole(form) => read_a_whole(alloc, form),
    }
}

/// How the task ends where the growth after so many is refused, and whether one was.
fn run_after(alloc: Global, task: Task, calls: u64) -> (Result<(), Stop>, bool) {
    let memory = Refusing::after(alloc, calls);
    let result = run(&memory, task);
    (result, memory.has_refused())
}

/// After how many calls the task does not end as it is to, if it ever does not: well where no growth is refused,
/// and for want of memory wherever one is.
fn misreported(alloc: Global, task: Task) -> Option<u64> {
    for calls in 0..MOST {
        let (result, has_refused) = run_after(alloc, task, calls);
        let wanted = if has_refused {
            Err(Stop::Memory)
        } else {
            Ok(())
        };
        if result != wanted {
            return Some(calls);
        }
        if !has_refused {
            return None;
        }
    }
    Some(MOST)
}

#[test]
fn memory_is_reported_exactly_where_it_is_refused(rt: HostRuntime) {
    for task in TASKS.as_slice() {
        assert_eq!(rt; misreported(rt.alloc(), *task), None, "{task:?}");
    }
}
