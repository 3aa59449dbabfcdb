// Outside values: the examples of the Recommendations, and characters at the ends of their classes.

use rdf_terms::escapes::uchar;
use rdf_terms::*;
use read_pieces::{has_lines, put_copy};
use std::alloc::Global;

/// The classes of characters.
#[derive(Clone, Copy, Debug)]
enum Class {
    Base,
    OfTurtle,
    OfLines,
    WithinTurtle,
    WithinLines,
    OfIri,
    Escaped,
}

fn is_in(class: Class, c: char) -> bool {
    match class {
        Class::Base => is_pn_base(c),
        Class::OfTurtle => is_pn_u(c, Dialect::Turtle),
        Class::OfLines => is_pn_u(c, Dialect::Lines),
        Class::WithinTurtle => is_pn_char(c, Dialect::Turtle),
        Class::WithinLines => is_pn_char(c, Dialect::Lines),
        Class::OfIri => is_iri_char(c),
        Class::Escaped => is_local_escape(c),
    }
}

static CLASSED: [(Class, char, bool); 16] = [
    (Class::Base, 'é', true),
    (Class::Base, '\u{FEFF}', true),
    (Class::Base, '×', false),
    (Class::Base, '_', false),
    (Class::OfTurtle, '_', true),
    (Class::OfTurtle, ':', false),
    (Class::OfLines, ':', true),
    (Class::WithinTurtle, '-', true),
    (Class::WithinLines, '\u{2040}', true),
    (Class::WithinLines, '.', false),
    (Class::OfIri, 'é', true),
    (Class::OfIri, '%', true),
    (Class::OfIri, ' ', false),
    (Class::OfIri, '\\', false),
    (Class::Escaped, '~', true),
    (Class::Escaped, ':', false),
];

#[test]
fn a_character_is_in_its_classes(rt: HostRuntime) {
    for (class, c, wanted) in CLASSED.as_slice() {
        assert!(rt; is_in(*class, *c) == *wanted, "{class:?} of {c}");
    }
}

#[test]
fn a_digit_has_its_value(rt: HostRuntime) {
    assert!(rt; hex_value('F') == Some(15) && hex_value('f') == Some(15));
    assert!(rt; hex_value('7') == Some(7) && hex_value('g').is_none());
}

/// What stands at the beginning of some bytes: the character that a UCHAR there means, and where it ends.
static ESCAPED: [(&str, Option<(char, usize)>); 6] = [
    ("\\u00e9x", Some(('é', 6))),
    ("\\U0001F600", Some(('\u{1F600}', 10))),
    ("\\u00E", None),
    ("\\U00110000", None),
    ("\\uD800", None),
    ("u00E9", None),
];

#[test]
fn an_escape_means_its_character(rt: HostRuntime) {
    for (text, wanted) in ESCAPED.as_slice() {
        let found = match (uchar(text.as_bytes(), 0), *wanted) {
            (Some((c, end)), Some((meant, after))) => c == meant && end == after,
            (None, None) => true,
            _ => false,
        };
        assert!(rt; found, "{text}");
    }
}

/// What is asked of a text.
#[derive(Clone, Copy, Debug)]
enum Claim {
    HasScheme,
    IsIriText,
    IsPrefix,
    IsPlainLocal,
    IsFitIri,
    IsFitShort,
    IsFitLong,
    IsFitName,
}

fn holds(claim: Claim, text: &str) -> bool {
    match claim {
        Claim::HasScheme => has_scheme(text),
        Claim::IsIriText => iri_text(text),
        Claim::IsPrefix => is_pname_ns(text),
        Claim::IsPlainLocal => is_plain_local(text),
        Claim::IsFitIri => is_fit(Kind::IriRef, text),
        Claim::IsFitShort => is_fit(Kind::ShortString, text),
        Claim::IsFitLong => is_fit(Kind::LongString, text),
        Claim::IsFitName => is_fit(Kind::PnameLn, text),
    }
}

static CLAIMS: [(Claim, &str, bool); 42] = [
    (Claim::HasScheme, "http://a/b", true),
    (Claim::HasScheme, "a:", true),
    (Claim::HasScheme, "urn:x", true),
    (Claim::HasScheme, "a+.-1:/", true),
    (Claim::HasScheme, "", false),
    (Claim::HasScheme, "a", false),
    (Claim::HasScheme, ":a", false),
    (Claim::HasScheme, "1a:b", false),
    (Claim::HasScheme, "//a/b:c", false),
    (Claim::HasScheme, "a/b:c", false),
    (Claim::HasScheme, "é:a", false),
    (Claim::IsPrefix, ":", true),
    (Claim::IsPrefix, "x:", true),
    (Claim::IsPrefix, "é:", true),
    (Claim::IsPrefix, "a.b:", true),
    (Claim::IsPrefix, "a-:", true),
    (Claim::IsPrefix, "a\u{B7}1:", true),
    (Claim::IsPrefix, "", false),
    (Claim::IsPrefix, "x", false),
    (Claim::IsPrefix, "x.:", false),
    (Claim::IsPrefix, ".x:", false),
    (Claim::IsPrefix, "x:y", false),
    (Claim::IsPrefix, "x::", false),
    (Claim::IsPrefix, "1x:", false),
    (Claim::IsPrefix, "_x:", false),
    (Claim::IsPrefix, "-x:", false),
    (Claim::IsPrefix, "x :", false),
    (Claim::IsIriText, "http://a/é?q#f", true),
    (Claim::IsIriText, "http://a/ b", false),
    (Claim::IsIriText, "a\\u0020", false),
    (Claim::IsPlainLocal, "", true),
    (Claim::IsPlainLocal, "é%20", true),
    (Claim::IsPlainLocal, "a:b", true),
    (Claim::IsPlainLocal, "a\\.b", false),
    (Claim::IsPlainLocal, "a b", false),
    (Claim::IsFitIri, "<http://a/\\u00E9>", true),
    (Claim::IsFitIri, "<http://a/\\u003E>", false),
    (Claim::IsFitShort, "'\\t'", true),
    (Claim::IsFitShort, "\"\\uD800\"", false),
    (Claim::IsFitLong, "\"\"\"a\"b\n\\u00E9\\t\"\"\"", true),
    (Claim::IsFitLong, "'''\\U00110000'''", false),
    (Claim::IsFitName, "x:b\\~c", true),
];

#[test]
fn a_text_is_what_it_is_to_be(rt: HostRuntime) {
    for (claim, text, wanted) in CLAIMS.as_slice() {
        assert!(rt; holds(*claim, text) == *wanted, "{claim:?} of {text}");
    }
}

/// What a term is made of.
#[derive(Clone, Copy, Debug)]
enum Made {
    Iri,
    Label,
    Tag,
}

fn is_iri(alloc: Global, text: &str) -> Result<bool, TermFault> {
    let iri = Iri::new(alloc, text)?;
    match iri.view().try_copy(alloc) {
        Ok(copy) => Ok(iri.as_str() == text && copy.as_str() == text),
        Err(_) => Err(TermFault::Memory),
    }
}

fn is_label(alloc: Global, text: &str) -> Result<bool, TermFault> {
    let label = Label::new(alloc, text)?;
    match label.view().try_copy(alloc) {
        Ok(copy) => Ok(label.as_str() == text && copy.as_str() == text),
        Err(_) => Err(TermFault::Memory),
    }
}

fn is_tag(alloc: Global, text: &str) -> Result<bool, TermFault> {
    let tag = Tag::new(alloc, text)?;
    match tag.view().try_copy(alloc) {
        Ok(copy) => Ok(tag.as_str() == text && copy.as_str() == text),
        Err(_) => Err(TermFault::Memory),
    }
}

/// Whether such a term is made of the text, which has it and of which a copy has it; or why it is none.
fn is_made(alloc: Global, made: Made, text: &str) -> Result<bool, TermFault> {
    match made {
        Made::Iri => is_iri(alloc, text),
        Made::Label => is_label(alloc, text),
        Made::Tag => is_tag(alloc, text),
    }
}

static MADE: [(Made, &str, bool); 31] = [
    (Made::Iri, "http://a/é", true),
    (Made::Iri, "", false),
    (Made::Iri, "s", false),
    (Made::Iri, "http://a/ b", false),
    (Made::Iri, "http://a/>", false),
    (Made::Label, "a", true),
    (Made::Label, "a:b", true),
    (Made::Label, "19", true),
    (Made::Label, "a.b", true),
    (Made::Label, "a..b", true),
    (Made::Label, "_-", true),
    (Made::Label, ":", true),
    (Made::Label, "é\u{B7}", true),
    (Made::Label, "", false),
    (Made::Label, ".", false),
    (Made::Label, "a.", false),
    (Made::Label, "a.b..", false),
    (Made::Label, "-a", false),
    (Made::Label, "a b", false),
    (Made::Label, "a/", false),
    (Made::Tag, "en", true),
    (Made::Tag, "en-GB", true),
    (Made::Tag, "de-CH-1996", true),
    (Made::Tag, "x-1-a", true),
    (Made::Tag, "", false),
    (Made::Tag, "-", false),
    (Made::Tag, "en-", false),
    (Made::Tag, "en--GB", false),
    (Made::Tag, "1", false),
    (Made::Tag, "e1", false),
    (Made::Tag, "en-é", false),
];

#[test]
fn a_term_is_made_of_its_texts_alone(rt: HostRuntime) {
    for (made, text, wanted) in MADE.as_slice() {
        let answer = if *wanted {
            Ok(true)
        } else {
            Err(TermFault::BadTerm)
        };
        assert!(rt;
            is_made(rt.alloc(), *made, text) == answer,
            "{made:?} of {text}"
        );
    }
}

/// What a text is the inside of.
#[derive(Clone, Copy, Debug)]
enum Inside {
    String,
    Iri,
    Local,
}

/// Whether the text means this, or has a bad escape where nothing is wanted.
fn means(alloc: Global, inside: Inside, text: &str, wanted: Option<&str>) -> bool {
    let answer = match inside {
        Inside::String => string_value(alloc, text),
        Inside::Iri => iri_value(alloc, text),
        Inside::Local => local_value(alloc, text),
    };
    match answer {
        Ok(value) => wanted == Some(value.as_str()),
        Err(fault) => wanted.is_none() && fault == ValueFault::BadEscape,
    }
}

#[rattlefmt::skip]
static MEANT: [(Inside, &str, Option<&str>); 30] = [
    (Inside::String, "", Some("")),
    (Inside::String, "é", Some("é")),
    (Inside::String, "a\\tb\\u00E9", Some("a\tbé")),
    (Inside::String, "\\b\\n\\r\\f\\\"\\'\\\\", Some("\u{8}\n\r\u{C}\"'\\")),
    (Inside::String, "\\U0010ffff", Some("\u{10FFFF}")),
    (Inside::String, "\\", None),
    (Inside::String, "\\a", None),
    (Inside::String, "\\u00E", None),
    (Inside::String, "\\u00Eg", None),
    (Inside::String, "\\uD800", None),
    (Inside::String, "\\U00110000", None),
    (Inside::Iri, "http://a/é", Some("http://a/é")),
    (Inside::Iri, "\\u0068ttp://a/\\U000000e9", Some("http://a/é")),
    (Inside::Iri, "http://a/\\u003E", None),
    (Inside::Iri, "http://a/>", None),
    (Inside::Iri, "http://a/\\u0020", None),
    (Inside::Iri, "a\\tb", None),
    (Inside::Iri, "\\uDFFF", None),
    (Inside::Local, "", Some("")),
    (Inside::Local, "b~c", Some("b~c")),
    (Inside::Local, "b%20\\~c", Some("b%20~c")),
    (Inside::Local, "%", Some("%")),
    (Inside::Local, "é\\.\\%\\_", Some("é.%_")),
    (Inside::Local, "a:b\\/c", Some("a:b/c")),
    (Inside::Local, "a\\", None),
    (Inside::Local, "a\\b", None),
    (Inside::Local, "\\\\", None),
    (Inside::Local, "\\u0041", None),
    (Inside::Local, "a b", None),
    (Inside::Local, "\\~<", None),
];

#[test]
fn an_inside_means_its_value(rt: HostRuntime) {
    for (inside, text, wanted) in MEANT.as_slice() {
        assert!(rt;
            means(rt.alloc(), *inside, text, *wanted),
            "{inside:?} of {text}"
        );
    }
}

#[rattlefmt::skip]
static KNOWN: [(Known, &str); 9] = [
    (Known::RdfType, "http://www.w3.org/1999/02/22-rdf-syntax-ns#type"),
    (Known::RdfFirst, "http://www.w3.org/1999/02/22-rdf-syntax-ns#first"),
    (Known::RdfRest, "http://www.w3.org/1999/02/22-rdf-syntax-ns#rest"),
    (Known::RdfNil, "http://www.w3.org/1999/02/22-rdf-syntax-ns#nil"),
    (Known::XsdString, "http://www.w3.org/2001/XMLSchema#string"),
    (Known::XsdInteger, "http://www.w3.org/2001/XMLSchema#integer"),
    (Known::XsdDecimal, "http://www.w3.org/2001/XMLSchema#decimal"),
    (Known::XsdDouble, "http://www.w3.org/2001/XMLSchema#double"),
    (Known::XsdBoolean, "http://www.w3.org/2001/XMLSchema#boolean"),
];

#[test]
fn the_known_iris_are_those_of_the_standards(rt: HostRuntime) {
    for (iri, text) in KNOWN.as_slice() {
        assert!(rt; known(*iri).as_str() == *text, "{text}");
    }
}

fn tagged<'a>(label: LabelView<'a>, tag: TagView<'a>) -> QuadRef<'a> {
    QuadRef {
        subject: SubjectRef::Node(NodeRef::Label(label)),
        predicate: known(Known::RdfType),
        object: TermRef::Literal(LiteralRef::new("é", TailRef::Lang(tag))),
        graph: None,
    }
}

fn of_nodes() -> QuadRef<'static> {
    QuadRef {
        subject: SubjectRef::Iri(known(Known::RdfNil)),
        predicate: known(Known::RdfRest),
        object: TermRef::Node(NodeRef::Cell(27)),
        graph: Some(SubjectRef::Node(NodeRef::Anon(19))),
    }
}

/// The lines of the three quads.
const KEPT: &str = "_:nx <http://www.w3.org/1999/02/22-rdf-syntax-ns#type> \"é\"@en-GB .
<http://www.w3.org/1999/02/22-rdf-syntax-ns#nil> <http://www.w3.org/1999/02/22-rdf-syntax-ns#rest> _:c27 _:a19 .
_:nx <http://www.w3.org/1999/02/22-rdf-syntax-ns#type> \"é\"@en-GB .
";

/// Whether a list of three quads has their lines, and no fourth.
fn keeps_quads(alloc: Global, label: LabelView<'_>, tag: TagView<'_>) -> bool {
    let first = tagged(label, tag);
    let mut list = QuadList::new(alloc);
    let is_kept = list.put(&first).is_ok()
        && list.put(&of_nodes()).is_ok()
        && list.put(&first).is_ok();
    is_kept
        && list.len() == 3
        && !list.failed()
        && list.get(3).is_none()
        && has_lines(alloc, &list, KEPT)
}

fn keeps_quads_in_order(alloc: Global) -> bool {
    let Ok(tag) = Tag::new(alloc, "en-GB") else {
        return false;
    };
    match Label::new(alloc, "x") {
        Ok(label) => keeps_quads(alloc, label.view(), tag.view()),
        Err(_) => false,
    }
}

#[test]
fn a_list_keeps_its_quads_in_order(rt: HostRuntime) {
    assert!(rt; keeps_quads_in_order(rt.alloc()));
}

fn of_iris(iri: IriView<'_>) -> QuadRef<'_> {
    QuadRef {
        subject: SubjectRef::Iri(iri),
        predicate: known(Known::RdfFirst),
        object: TermRef::Literal(LiteralRef::new("1", TailRef::Typed(known(Known::XsdInteger)))),
        graph: Some(SubjectRef::Iri(iri)),
    }
}

const COPIED: &str = "<http://g/> <http://www.w3.org/1999/02/22-rdf-syntax-ns#first> \
    \"1\"^^<http://www.w3.org/2001/XMLSchema#integer> <http://g/> .\n";

/// Whether a list of a copy of the quad has its line.
fn copies_quad(alloc: Global, iri: IriView<'_>) -> bool {
    let mut list = QuadList::new(alloc);
    let is_put = put_copy(alloc, of_iris(iri), &mut list).is_ok();
    is_put && has_lines(alloc, &list, COPIED)
}

fn copies_a_quad(alloc: Global) -> bool {
    match Iri::new(alloc, "http://g/") {
        Ok(iri) => copies_quad(alloc, iri.view()),
        Err(_) => false,
    }
}

#[test]
fn a_copy_of_a_quad_views_as_the_quad(rt: HostRuntime) {
    assert!(rt; copies_a_quad(rt.alloc()));
}
