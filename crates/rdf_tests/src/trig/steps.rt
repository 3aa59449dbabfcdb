// What each token of a document does, as the reader of Turtle and TriG prints it. To look at another document, put
// it in the place of this one: where the test fails, it prints the steps.

use rdf_driver::Reader;
use rdf_iri::Limits;
use rdf_tokens::{Dialect, Scanner};
use rdf_trig::{DocForm, Options, TreeGrammar, tree_reader};
use read_pieces::CountingSink;
use std::alloc::Global;
use std::fmt::Write;

const DOCUMENT: &[u8] = b"<g:> { [] a <s:>, \"x\"@en }";

/// Of each token its kind, where the reader stands before it, and what it does there.
const STEPS: &str = "\
IriRef Step { level: Top, mode: Outer(Start), ready: Nothing, turn: Some(Subject(Top, Name)) }
OpenBrace Step { level: Top, mode: AfterSubject, ready: Nothing, turn: Some(SubjectBlock) }
OpenBracket Step { level: Top, mode: Outer(Inside(Named)), ready: Nothing, turn: Some(Subject(Block(Named), Brackets)) }
CloseBracket Step { level: Block(Named), mode: PropertyListStart, ready: Nothing, turn: Some(EndNode) }
A Step { level: Block(Named), mode: AfterSubject, ready: Nothing, turn: Some(Verb(Statement, Type)) }
IriRef Step { level: Block(Named), mode: Want, ready: Nothing, turn: Some(Object(Name)) }
Comma Step { level: Block(Named), mode: After, ready: Resource, turn: Some(NextObject) }
ShortString Step { level: Block(Named), mode: Want, ready: Nothing, turn: Some(Object(ShortString)) }
LangTag Step { level: Block(Named), mode: AfterText, ready: Nothing, turn: Some(Tag) }
CloseBrace Step { level: Block(Named), mode: After, ready: WithTag, turn: Some(Lead(Start)) }
";

/// The most tokens that are looked at.
const MOST: u64 = 99;

/// Prints the step of each token that the scanner has, and reads it.
fn put_steps(
    scanner: &mut Scanner,
    reader: &mut Reader<TreeGrammar>,
    sink: &mut CountingSink,
    out: &mut String,
) -> Option<()> {
    for _ in 0..MOST {
        let Ok(Some(token)) = scanner.next() else {
            return Some(());
        };
        let kind = token.kind;
        let step = reader.grammar().step(kind);
        writeln!(out, "{kind:?} {step:?}").ok()?;
        reader.feed(token.text.as_bytes(), sink).ok()?;
        reader.feed(b" ", sink).ok()?;
    }
    None
}

/// The steps of a document.
fn steps(alloc: Global, form: DocForm, document: &[u8]) -> Option<String> {
    let mut out = String::new(alloc);
    let mut scanner = Scanner::new(alloc, Dialect::Turtle, 99);
    scanner.push(document).ok()?;
    let options = Options::new(form, None, Limits::default())?;
    let mut reader = tree_reader(alloc, options);
    let mut sink = CountingSink { quads: 0 };
    let read = put_steps(&mut scanner, &mut reader, &mut sink, &mut out);
    drop(reader);
    drop(scanner);
    read?;
    Some(out)
}

#[test]
fn the_steps_of_a_document_are_printed(rt: HostRuntime) {
    let steps = steps(rt.alloc(), DocForm::TriG, DOCUMENT);
    assert!(rt;
        steps.as_deref() == Some(STEPS),
        "{}",
        steps.as_deref().unwrap_or("")
    );
}
