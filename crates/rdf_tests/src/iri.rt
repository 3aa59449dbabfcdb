// Worked references, and a scope that lives through refusals.

ghost use Rattle.std.specs.Prelude.{IfSome, ◌≡◌, ◌≤◌};

use rdf_iri::{BindingReason, IriFault, Limits, Scope, has_scheme, read_bindings, resolve, split};
use rdf_terms::{Iri, iri_text};
use std::alloc::Global;

/// An IRI, or why there is none.
type Answer = Result<&'static str, IriFault>;

/// RFC 3986, section 5.4, but for a reference with the base's scheme, which is kept as it is.
static REFERENCES: [(&str, &str); 42] = [
    ("g:h", "g:h"),
    ("g", "http://a/b/c/g"),
    ("./g", "http://a/b/c/g"),
    ("g/", "http://a/b/c/g/"),
    ("/g", "http://a/g"),
    ("//g", "http://g"),
    ("?y", "http://a/b/c/d;p?y"),
    ("g?y", "http://a/b/c/g?y"),
    ("#s", "http://a/b/c/d;p?q#s"),
    ("g#s", "http://a/b/c/g#s"),
    ("g?y#s", "http://a/b/c/g?y#s"),
    (";x", "http://a/b/c/;x"),
    ("g;x", "http://a/b/c/g;x"),
    ("g;x?y#s", "http://a/b/c/g;x?y#s"),
    ("", "http://a/b/c/d;p?q"),
    (".", "http://a/b/c/"),
    ("./", "http://a/b/c/"),
    ("..", "http://a/b/"),
    ("../", "http://a/b/"),
    ("../g", "http://a/b/g"),
    ("../..", "http://a/"),
    ("../../", "http://a/"),
    ("../../g", "http://a/g"),
    ("../../../g", "http://a/g"),
    ("../../../../g", "http://a/g"),
    ("/./g", "http://a/g"),
    ("/../g", "http://a/g"),
    ("g.", "http://a/b/c/g."),
    (".g", "http://a/b/c/.g"),
    ("g..", "http://a/b/c/g.."),
    ("..g", "http://a/b/c/..g"),
    ("./../g", "http://a/b/g"),
    ("./g/.", "http://a/b/c/g/"),
    ("g/./h", "http://a/b/c/g/h"),
    ("g/../h", "http://a/b/c/h"),
    ("g;x=1/./y", "http://a/b/c/g;x=1/y"),
    ("g;x=1/../y", "http://a/b/c/y"),
    ("g?y/./x", "http://a/b/c/g?y/./x"),
    ("g?y/../x", "http://a/b/c/g?y/../x"),
    ("g#s/./x", "http://a/b/c/g#s/./x"),
    ("g#s/../x", "http://a/b/c/g#s/../x"),
    ("http:g", "http:g"),
];

/// What the RFC's examples leave out: bases without a path, an authority or a slash, texts that are not ASCII, dots
/// in a reference that is kept, no base at all, and limits, which count the result alone.
static OTHERS: [(&str, &str, u64, Answer); 14] = [
    ("http://a", "g", 100, Ok("http://a/g")),
    ("a:b/c", "d", 100, Ok("a:b/d")),
    ("a:b", "../c", 100, Ok("a:c")),
    ("a:b/c", "../d", 100, Ok("a:/d")),
    ("a:/b", "/.//c", 100, Ok("a://c")),
    ("http://a/b#c", "", 100, Ok("http://a/b")),
    ("http://é/ß/x", "ü", 100, Ok("http://é/ß/ü")),
    ("http://é/ß/", "../ü?ö#ä", 100, Ok("http://é/ü?ö#ä")),
    ("http://a/b", "http://c/d/../e", 100, Ok("http://c/d/../e")),
    ("", "s", 100, Err(IriFault::NoBase)),
    (BASE, "g", 14, Ok("http://a/b/c/g")),
    (BASE, "g", 13, Err(IriFault::IriTooLong)),
    (BASE, "../../../../g", 10, Ok("http://a/g")),
    (BASE, "g:h", 2, Err(IriFault::IriTooLong)),
];

const BASE: &str = "http://a/b/c/d;p?q";

/// Whether this is the IRI, or the refusal.
fn is_answered(iri: Result<Iri, IriFault>, wanted: Answer) -> bool {
    match (iri, wanted) {
        (Ok(iri), Ok(text)) => iri.as_str() == text,
        (Err(fault), Err(reason)) => fault == reason,
        _ => false,
    }
}

/// Whether this is the IRI of a reference against the base, or against none where that is empty, or why there is none.
fn resolves(alloc: Global, base: &str, reference: &str, limit: u64, wanted: Answer) -> bool {
    let base = Iri::new(alloc, base).ok();
    iri_text(reference) && is_answered(resolve(alloc, base.as_ref(), reference, limit), wanted)
}

/// The first of the references that does not resolve so, if there is one.
fn unresolved(alloc: Global) -> Option<&'static str> {
    for (reference, wanted) in REFERENCES.as_slice() {
        if !resolves(alloc, BASE, reference, 100, Ok(wanted)) {
            return Some(reference);
        }
    }
    for (base, reference, limit, wanted) in OTHERS.as_slice() {
        if !resolves(alloc, base, reference, *limit, *wanted) {
            return Some(reference);
        }
    }
    None
}

#[test]
fn references_against_bases(rt: HostRuntime) {
    assert_eq!(rt; unresolved(rt.alloc()), None);
}

/// A reference and its parts: the scheme, the authority, the path, the query and the fragment.
type Split = (&'static str, Part, Part, &'static str, Part, Part);

/// A part, if there is one.
type Part = Option<&'static str>;

#[rattlefmt::skip]
static SPLIT: [Split; 3] = [
    ("a+1://b:c@d/e:f?g?h#i?j", Some("a+1"), Some("b:c@d"), "/e:f", Some("g?h"), Some("i?j")),
    ("1a:b", None, None, "1a:b", None, None),
    ("//?#", None, Some(""), "", Some(""), Some("")),
];

fn has_parts(row: &Split) -> bool {
    let (reference, scheme, authority, path, query, fragment) = *row;
    let parts = split(reference);
    parts.scheme == scheme
        && parts.authority == authority
        && parts.path == path
        && parts.query == query
        && parts.fragment == fragment
        && has_scheme(reference) == scheme.is_some()
}

#[test]
fn the_parts_of_a_reference(rt: HostRuntime) {
    for row in SPLIT.as_slice() {
        let (reference, ..) = row;
        assert!(rt; has_parts(row), "{reference}");
    }
}

/// A call on a scope.
#[derive(Clone, Copy, Debug)]
enum Call {
    /// Takes a new scope in its place, with no base, the bindings of a file, and limits on bindings and IRIs.
    Start(&'static [u8], u64, u64),
    SetBase(&'static str),
    Bind(&'static str, &'static str),
    Resolve(&'static str),
    Expand(&'static str, &'static str),
}

fn set_base(scope: &mut Scope, reference: &str) -> Result<(), IriFault>
    ensures { scope.new.limits ≡ scope.old.limits }
{
    if iri_text(reference) {
        scope.set_base(reference)
    } else {
        Err(IriFault::Memory)
    }
}

/// Binds a prefix of one byte or none.
fn bind(scope: &mut Scope, prefix: &str, reference: &str) -> Result<(), IriFault>
    requires { 1 ≤ scope.old.limits.token }
    ensures { scope.new.limits ≡ scope.old.limits }
{
    if iri_text(reference) && prefix.len() <= 1 {
        scope.bind(prefix, reference)
    } else {
        Err(IriFault::Memory)
    }
}

fn resolve_here(scope: &Scope, reference: &str) -> Result<Iri, IriFault> {
    if iri_text(reference) {
        scope.resolve_here(reference)
    } else {
        Err(IriFault::Memory)
    }
}

fn expand(scope: &Scope, prefix: &str, local: &str) -> Result<Iri, IriFault> {
    if iri_text(local) {
        scope.expand(prefix, local)
    } else {
        Err(IriFault::Memory)
    }
}

fn is_done(done: Result<(), IriFault>, wanted: Answer) -> bool {
    match (done, wanted) {
        (Ok(()), Ok(_)) => true,
        (Err(fault), Err(reason)) => fault == reason,
        _ => false,
    }
}

/// A scope with no base, the bindings of a file, and these limits.
fn start(alloc: Global, file: &[u8], bindings: u64, iri: u64) -> Option<Scope>
    ensures { IfSome result (λ scope. 1 ≤ scope.limits.token) }
{
    let limits = Limits::new(9, 0, bindings, iri)?;
    match read_bindings(alloc, limits, file) {
        Ok(bindings) => Some(Scope::starting(alloc, None, limits, bindings)),
        Err(_) => None,
    }
}

/// Whether the scope answers a call so. A call that answers no IRI is done where one is wanted.
fn answers(alloc: Global, scope: &mut Scope, call: Call, wanted: Answer) -> bool
    requires { 1 ≤ scope.old.limits.token }
    ensures { 1 ≤ scope.new.limits.token }
{
    match call {
        Call::Start(file, bindings, iri) => match start(alloc, file, bindings, iri) {
            Some(new) => {
                *scope = new;
                wanted.is_ok()
            }
            None => false,
        },
        Call::SetBase(reference) => is_done(set_base(scope, reference), wanted),
        Call::Bind(prefix, reference) => is_done(bind(scope, prefix, reference), wanted),
        Call::Resolve(reference) => is_answered(resolve_here(scope, reference), wanted),
        Call::Expand(prefix, local) => is_answered(expand(scope, prefix, local), wanted),
    }
}

/// One binding alone; refusals, which change nothing; a base that grows by paths, and references that cannot be
/// written after it; and bindings at the start, of which the last of a prefix counts.
#[rattlefmt::skip]
static CALLS: [(Call, Answer); 52] = [
    (Call::Start(b"", 1, 100), Ok("")),
    (Call::SetBase(BASE), Ok("")),
    (Call::Bind("x", "../x/"), Ok("")),
    (Call::Expand("x", "b~c"), Ok("http://a/b/x/b~c")),
    (Call::Expand("z", "b"), Err(IriFault::Unbound)),
    (Call::SetBase("../../z"), Ok("")),
    (Call::Expand("x", "b"), Ok("http://a/b/x/b")),
    (Call::Resolve("y"), Ok("http://a/y")),
    (Call::Bind("y", "k"), Err(IriFault::TooManyBindings)),
    (Call::Expand("x", "b"), Ok("http://a/b/x/b")),
    (Call::Bind("x", "k"), Ok("")),
    (Call::Expand("x", "b"), Ok("http://a/kb")),
    (Call::Start(b"", 2, 10), Ok("")),
    (Call::SetBase("g"), Err(IriFault::NoBase)),
    (Call::Bind("", "g"), Err(IriFault::NoBase)),
    (Call::SetBase("a:/b/c"), Ok("")),
    (Call::Bind("", "g/"), Ok("")),
    (Call::SetBase("dddddddd"), Err(IriFault::IriTooLong)),
    (Call::Bind("", "dddddddd"), Err(IriFault::IriTooLong)),
    (Call::Resolve("h"), Ok("a:/b/h")),
    (Call::Expand("", "h"), Ok("a:/b/g/h")),
    (Call::Expand("", "hhhhh"), Err(IriFault::IriTooLong)),
    (Call::Start(b"", 2, 20), Ok("")),
    (Call::SetBase("http://a"), Ok("")),
    (Call::SetBase("b/"), Ok("")),
    (Call::Resolve(""), Ok("http://a/b/")),
    (Call::SetBase("c/é/"), Ok("")),
    (Call::Resolve(""), Ok("http://a/b/c/é/")),
    (Call::SetBase("d/../"), Ok("")),
    (Call::Resolve(""), Ok("http://a/b/c/é/")),
    (Call::SetBase("d"), Ok("")),
    (Call::SetBase("e/"), Ok("")),
    (Call::Resolve(""), Ok("http://a/b/c/é/e/")),
    (Call::SetBase("/f/"), Ok("")),
    (Call::SetBase("g?h/"), Ok("")),
    (Call::SetBase("i/"), Ok("")),
    (Call::Resolve(""), Ok("http://a/f/i/")),
    (Call::SetBase("jjjjjjj/"), Err(IriFault::IriTooLong)),
    (Call::Resolve(""), Ok("http://a/f/i/")),
    (Call::SetBase("jjjjjj/"), Ok("")),
    (Call::Resolve(""), Ok("http://a/f/i/jjjjjj/")),
    (Call::SetBase("//k/"), Ok("")),
    (Call::SetBase("l/"), Ok("")),
    (Call::Resolve(""), Ok("http://k/l/")),
    (Call::SetBase("m:./"), Ok("")),
    (Call::SetBase("n/"), Ok("")),
    (Call::Resolve(""), Ok("m:n/")),
    (Call::Start(b"x: http://x/\r\n: http://e/\r\nx: http://y/", 2, 100), Ok("")),
    (Call::Expand("x", "s"), Ok("http://y/s")),
    (Call::Expand("", "p"), Ok("http://e/p")),
    (Call::Bind("x", "http://z/"), Ok("")),
    (Call::Expand("x", "s"), Ok("http://z/s")),
];

/// The first of the calls that is answered otherwise, if there is one, and how many stand before it.
fn misanswered(alloc: Global, calls: &[(Call, Answer)]) -> Option<(usize, Call)> {
    let Some(mut scope) = start(alloc, b"", 0, 1) else {
        return Some((0, Call::Start(b"", 0, 1)));
    };
    for i in 0..calls.len() {
        let (call, wanted) = calls[i];
        if !answers(alloc, &mut scope, call, wanted) {
            return Some((i, call));
        }
    }
    None
}

#[test]
fn a_scope_answers_each_call(rt: HostRuntime) {
    let misanswered = misanswered(rt.alloc(), CALLS.as_slice());
    assert!(rt; misanswered.is_none(), "{misanswered:?}");
}

/// Limits on tokens, bindings and IRIs, a file, and why it has no bindings, and at which line, if it has none.
type File = (u64, u64, u64, &'static [u8], Option<(BindingReason, u64)>);

#[rattlefmt::skip]
static FILES: [File; 42] = [
    (9, 9, 99, b"", None),
    (9, 9, 99, b"\n\r\n", None),
    (9, 9, 99, b"x: http://x/\r\n: http://e/", None),
    (9, 9, 99, b"x: http://x/\nx: http://y/\n", None),
    (9, 9, 99, b"\xEF\xBB\xBFx: http://x/", None),
    (9, 9, 99, b"\xC3\xA9: http://\xC3\xA9/", None),
    (9, 1, 99, b"x: http://x/\n\nx: http://y/", None),
    (2, 1, 9, b"x: http://x/", None),
    (9, 0, 99, b"\n", None),
    (9, 9, 99, b"x http://x/", Some((BindingReason::BadBinding, 1))),
    (9, 9, 99, b"x: <http://x/>", Some((BindingReason::BadBinding, 1))),
    (9, 9, 99, b"x.: http://x/", Some((BindingReason::BadBinding, 1))),
    (9, 9, 99, b"\nx: s", Some((BindingReason::BadBinding, 2))),
    (9, 9, 99, b"x: http://x/\r\r\n", Some((BindingReason::BadBinding, 1))),
    (9, 9, 99, b"x:  http://x/", Some((BindingReason::BadBinding, 1))),
    (9, 3, 99, b" \t\n#\n\t # \xC3\xA9: x\r\n@prefix a:<s:>.\n PREFIX\tb: <s:>#\nprefix : \t<s:> # .\nc: s:#",
        Some((BindingReason::TooManyBindings, 7))),
    (9, 1, 99, b"\t@prefix\t x: <s:a> . # a\npReFiX x: <s:b>\nx: s:c", None),
    (9, 2, 99, b"PREFIX: s:\nprefix: s:", None),
    (9, 9, 99, b" #\xFF", Some((BindingReason::BadBinding, 1))),
    (9, 9, 99, b"#\r#", Some((BindingReason::BadBinding, 1))),
    (9, 9, 99, b"x: s: #", Some((BindingReason::BadBinding, 1))),
    (9, 9, 99, b" x: s:", Some((BindingReason::BadBinding, 1))),
    (9, 9, 99, b"@prefix x: <s:>", Some((BindingReason::BadBinding, 1))),
    (9, 9, 99, b"PREFIX x: <s:> .", Some((BindingReason::BadBinding, 1))),
    (9, 9, 99, b"@PREFIX x: <s:> .", Some((BindingReason::BadBinding, 1))),
    (9, 9, 99, b"@prefix: <s:> .", Some((BindingReason::BadBinding, 1))),
    (9, 9, 99, b"PREFIXx: <s:>", Some((BindingReason::BadBinding, 1))),
    (9, 9, 99, b"@prefix x: <s> .", Some((BindingReason::BadBinding, 1))),
    (9, 9, 99, b"@prefix x: <s:\\u0061> .", Some((BindingReason::BadBinding, 1))),
    (9, 9, 99, b"@prefix x: s: .", Some((BindingReason::BadBinding, 1))),
    (9, 9, 99, b"@prefix x: <s:> . PREFIX y: <s:>", Some((BindingReason::BadBinding, 1))),
    (9, 9, 99, b"@prefix x\xC3\x97: <s:> .", Some((BindingReason::BadBinding, 1))),
    (9, 9, 99, b"PREFIX\n", Some((BindingReason::BadBinding, 1))),
    (2, 9, 99, b"@prefix ab: <s:> .", Some((BindingReason::TokenTooLong, 1))),
    (2, 9, 1, b"PREFIX a: <s:>", Some((BindingReason::IriTooLong, 1))),
    (9, 9, 99, b"\n\nx: http://\xFF/", Some((BindingReason::BadBinding, 3))),
    (9, 9, 99, b"\xEF\xBB\xBF\xEF\xBB\xBF\n", Some((BindingReason::BadBinding, 1))),
    (9, 9, 8, b"x: http://x/", Some((BindingReason::IriTooLong, 1))),
    (2, 9, 99, b"ab: http://a/", Some((BindingReason::TokenTooLong, 1))),
    (9, 1, 99, b"a: http://a/\nb: http://b/", Some((BindingReason::TooManyBindings, 2))),
    (9, 1, 8, b"a: s:\nb: http://b/", Some((BindingReason::IriTooLong, 2))),
    (1, 1, 8, b"\nab: http://a/\nx", Some((BindingReason::TokenTooLong, 2))),
];

/// Whether the file has bindings under these limits, or none for the reason that is wanted.
fn is_read(alloc: Global, file: &File) -> bool {
    let (token, bindings, iri, bytes, wanted) = *file;
    let Some(limits) = Limits::new(token, 0, bindings, iri) else {
        return false;
    };
    match read_bindings(alloc, limits, bytes) {
        Ok(bindings) => wanted.is_none() && bindings.limits() == limits,
        Err(fault) => wanted == Some((fault.reason, fault.line)),
    }
}

#[test]
fn files_of_bindings(rt: HostRuntime) {
    for file in FILES.as_slice() {
        let (_, _, _, bytes, _) = file;
        assert!(rt; is_read(rt.alloc(), file), "{}", bytes.escape_ascii());
    }
}
