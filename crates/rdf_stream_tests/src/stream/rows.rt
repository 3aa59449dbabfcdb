// Documents, and what a run writes and reports of them: its lines, and after them the line of the fault, if there
// is one. Those whose lines alone are looked at stand in the module `documents`.

use super::runs::Task;
use rdf_stream::Form;
use rdf_terms::Reason;

/// Texts whose tokens are shown.
#[rattlefmt::skip]
pub(crate) static SHOWN: [(Form, &[u8], &str); 9] = [
    (Form::Turtle, b"<http://a/s> <http://a/p> (\"\"\"a\") .",
        "0 12 iri\n13 12 iri\n26 1 lparen\nrdfconv: no token at byte 27, line 1\n"),
    (Form::Turtle, b"truefalse", "0 4 true\n4 5 false\n"),
    (Form::Turtle, b"\"\xc3\xa9\"", "0 3 string\n"),
    (Form::TriG, b"<http://a/s> a 1.5.", "0 12 iri\n13 1 a\n15 3 decimal\n18 1 dot\n"),
    (Form::TriG, b"@prefixed", "0 9 tag\n"),
    (Form::TriG, b"x:d.e.", "0 5 name\n5 1 dot\n"),
    (Form::NTriples, b"<http://a/s> <http://a/p> <http://a/s> .\n",
        "0 12 iri\n13 12 iri\n26 12 iri\n39 1 dot\n40 1 lineend\n"),
    (Form::NQuads, b"<http://a/s> <http://a/p> ( ", "0 12 iri\n13 12 iri\nrdfconv: no token at byte 26, line 1\n"),
    (Form::NQuads, b". \n_:x # c\n\xff",
        "0 1 dot\n2 1 lineend\n3 3 label\n10 1 lineend\nrdfconv: bad UTF-8 at byte 11, line 3\n"),
];

/// The reasons of refusals at byte 41 of line 1, and the lines that report them.
#[rattlefmt::skip]
pub(crate) static REASONS: [(Reason, &str); 12] = [
    (Reason::BadUtf8, "rdfconv: bad UTF-8 at byte 41, line 1\n"),
    (Reason::NoToken, "rdfconv: no token at byte 41, line 1\n"),
    (Reason::BadEscape, "rdfconv: bad escape at byte 41, line 1\n"),
    (Reason::TokenTooLong, "rdfconv: token too long at byte 41, line 1\n"),
    (Reason::DocumentTooLong, "rdfconv: document too long at byte 41, line 1\n"),
    (Reason::Unexpected, "rdfconv: unexpected token at byte 41, line 1\n"),
    (Reason::RelativeIri, "rdfconv: relative IRI at byte 41, line 1\n"),
    (Reason::IriTooLong, "rdfconv: IRI too long at byte 41, line 1\n"),
    (Reason::Unbound, "rdfconv: unbound prefix at byte 41, line 1\n"),
    (Reason::NoBase, "rdfconv: no base at byte 41, line 1\n"),
    (Reason::TooDeep, "rdfconv: too deep at byte 41, line 1\n"),
    (Reason::TooManyBindings, "rdfconv: too many bindings at byte 41, line 1\n"),
];

/// Two statements, a comment and an empty line.
const TWO: &str = "<http://a/s> <http://a/p> \"x\" . # c\r\n\n_:x <a:> <b:>.";

/// A collection. Its last dot may begin a number as long as the text goes on.
const LIST: &str = "<a:s> <a:p> ( 1 ) .";

/// Documents, and what each task writes of them.
#[rattlefmt::skip]
pub(crate) static FORMS: [(Task, Form, &str, &str); 4] = [
    (Task::Convert, Form::NTriples, TWO, "<http://a/s> <http://a/p> \"x\" .\n_:x <a:> <b:> .\n"),
    (Task::Convert, Form::Turtle, LIST, "\
        <a:s> <a:p> _:c14 .\n\
        _:c14 <http://www.w3.org/1999/02/22-rdf-syntax-ns#first> \"1\"^^<http://www.w3.org/2001/XMLSchema#integer> .\n\
        _:c14 <http://www.w3.org/1999/02/22-rdf-syntax-ns#rest> <http://www.w3.org/1999/02/22-rdf-syntax-ns#nil> .\n"),
    (Task::Show, Form::NTriples, TWO, "\
        0 12 iri\n13 12 iri\n26 3 string\n30 1 dot\n35 1 lineend\n36 1 lineend\n37 1 lineend\n38 3 label\n\
        42 4 iri\n47 4 iri\n51 1 dot\n"),
    (Task::Show, Form::Turtle, LIST, "0 5 iri\n6 5 iri\n12 1 lparen\n14 1 integer\n16 1 rparen\n18 1 dot\n"),
];

/// Documents that come a byte a call: what is done with them, their format, the calls after which the source fails, and
/// what is written and reported then. The source fails in the middle, or where nothing but the end is left to be read,
/// which alone would refuse the document; or what was read is refused before it fails.
#[rattlefmt::skip]
pub(crate) static FAILING: [(Task, Form, &str, u64, &str); 23] = [
    (Task::Convert, Form::NQuads, "<http://a/s> <http://a/p> <http://a/s> .\n", 39, "rdfconv: read failed\n"),
    (Task::Convert, Form::NQuads, "<http://a/s> <http://a/p> <http://a/s> .\n", 40,
        "<http://a/s> <http://a/p> <http://a/s> .\nrdfconv: read failed\n"),
    (Task::Convert, Form::TriG, "<http://a/s> <http://a/p> <http://a/s> .\n", 40, "rdfconv: read failed\n"),
    (Task::Convert, Form::TriG, "<http://a/s> <http://a/p> <http://a/s> .\n", 41,
        "<http://a/s> <http://a/p> <http://a/s> .\nrdfconv: read failed\n"),
    (Task::Convert, Form::NTriples, TWO, 31, "<http://a/s> <http://a/p> \"x\" .\nrdfconv: read failed\n"),
    (Task::Convert, Form::NTriples, TWO, 51, "<http://a/s> <http://a/p> \"x\" .\nrdfconv: read failed\n"),
    (Task::Convert, Form::NTriples, TWO, 52,
        "<http://a/s> <http://a/p> \"x\" .\n_:x <a:> <b:> .\nrdfconv: read failed\n"),
    (Task::Convert, Form::Turtle, LIST, 15, "rdfconv: read failed\n"),
    (Task::Convert, Form::Turtle, LIST, 16, "<a:s> <a:p> _:c14 .\nrdfconv: read failed\n"),
    (Task::Convert, Form::Turtle, LIST, 17, "\
        <a:s> <a:p> _:c14 .\n\
        _:c14 <http://www.w3.org/1999/02/22-rdf-syntax-ns#first> \"1\"^^<http://www.w3.org/2001/XMLSchema#integer> .\n\
        rdfconv: read failed\n"),
    (Task::Convert, Form::Turtle, LIST, 19, "\
        <a:s> <a:p> _:c14 .\n\
        _:c14 <http://www.w3.org/1999/02/22-rdf-syntax-ns#first> \"1\"^^<http://www.w3.org/2001/XMLSchema#integer> .\n\
        rdfconv: read failed\n"),
    (Task::Show, Form::NTriples, TWO, 35, "0 12 iri\n13 12 iri\n26 3 string\n30 1 dot\nrdfconv: read failed\n"),
    (Task::Show, Form::NTriples, TWO, 36,
        "0 12 iri\n13 12 iri\n26 3 string\n30 1 dot\n35 1 lineend\nrdfconv: read failed\n"),
    (Task::Show, Form::NTriples, TWO, 42, "\
        0 12 iri\n13 12 iri\n26 3 string\n30 1 dot\n35 1 lineend\n36 1 lineend\n37 1 lineend\n38 3 label\n\
        rdfconv: read failed\n"),
    (Task::Show, Form::Turtle, LIST, 4, "rdfconv: read failed\n"),
    (Task::Show, Form::Turtle, LIST, 5, "0 5 iri\nrdfconv: read failed\n"),
    (Task::Show, Form::Turtle, LIST, 17,
        "0 5 iri\n6 5 iri\n12 1 lparen\n14 1 integer\n16 1 rparen\nrdfconv: read failed\n"),
    (Task::Convert, Form::NTriples, "<a:> <b:> <c:>", 14, "rdfconv: read failed\n"),
    (Task::Convert, Form::NTriples, "<a:> <b:> <c:>", 15, "rdfconv: unexpected token at byte 14, line 1\n"),
    (Task::Convert, Form::TriG, "{ <a:> <b:> 1.", 14, "rdfconv: read failed\n"),
    (Task::Convert, Form::TriG, "{ <a:> <b:> 1.", 15, "\
        <a:> <b:> \"1\"^^<http://www.w3.org/2001/XMLSchema#integer> .\n\
        rdfconv: unexpected token at byte 14, line 1\n"),
    (Task::Convert, Form::NTriples, "<a:> .", 6, "rdfconv: unexpected token at byte 5, line 1\n"),
    (Task::Convert, Form::TriG, "<a:> ;", 6, "rdfconv: unexpected token at byte 5, line 1\n"),
];

/// Documents that come a byte a call and are refused for a limit before a device fails: their format, the limits of
/// open brackets and of an IRI, the calls after which the source and the drain fail, and what is reported. A drain that
/// takes one call takes that of the flush, and no line.
#[rattlefmt::skip]
pub(crate) static LIMITED: [(Form, [u64; 2], &str, u64, u64, &str); 4] = [
    (Form::TriG, [9, 10], "<http://a/ss> <p:p> <o:o> . ", 28, u64::MAX, "rdfconv: IRI too long at byte 0, line 1\n"),
    (Form::NQuads, [1, 9], "<a:s> <a:p> <http://a/o> .", u64::MAX, 1, "rdfconv: IRI too long at byte 12, line 1\n"),
    (Form::TriG, [1, 9], "<a:s> <a:p> <http://a/o> .", u64::MAX, 1, "rdfconv: IRI too long at byte 12, line 1\n"),
    (Form::TriG, [1, 10], "<a:s> <a:p> ( ( 1 ) ) .", u64::MAX, 1, "rdfconv: too deep at byte 14, line 1\n"),
];
