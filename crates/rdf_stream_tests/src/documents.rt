// The documents that the reader of statements and the runs are tested with.

use rdf_iri::Limits;
use rdf_stream::Form;

/// The formats that a document is read as, in each of which the same is to come of it, and under what.
#[derive(Clone, Copy)]
pub(crate) enum Set {
    /// Turtle and TriG, with no base and limits that the document does not meet.
    Statements,
    Turtle,
    TriG,
    /// N-Triples and N-Quads.
    Lines,
    NTriples,
    NQuads,
    /// Turtle and TriG, as are those below, with a base.
    WithBase,
    /// Tokens of 12 characters.
    ShortTokens,
    NoBracket,
    OneBracket,
    TwoBrackets,
    /// One prefix bound.
    OnePrefix,
    /// IRIs of 10 bytes.
    ShortIris,
    /// IRIs of 5 bytes and no prefix: an IRI is too long before its binding is one too many.
    NoPrefix,
}

/// Whether a document is read as this format.
pub(crate) fn is_of(set: Set, form: Form) -> bool {
    match set {
        Set::Turtle => form == Form::Turtle,
        Set::TriG => form == Form::TriG,
        Set::NTriples => form == Form::NTriples,
        Set::NQuads => form == Form::NQuads,
        Set::Lines => matches!(form, Form::NTriples | Form::NQuads),
        _ => matches!(form, Form::Turtle | Form::TriG),
    }
}

/// The limits that a document is read under.
pub(crate) fn limits(set: Set) -> Limits {
    let limits = match set {
        Set::ShortTokens => Limits::new(12, 9, 9, 1000),
        Set::NoBracket => Limits::new(1000, 0, 9, 1000),
        Set::OneBracket => Limits::new(1000, 1, 9, 1000),
        Set::TwoBrackets => Limits::new(1000, 2, 9, 1000),
        Set::OnePrefix => Limits::new(1000, 9, 1, 1000),
        Set::ShortIris => Limits::new(1000, 9, 9, 10),
        Set::NoPrefix => Limits::new(1000, 9, 0, 5),
        _ => Limits::new(1000, 9, 9, 1000),
    };
    limits.unwrap_or_default()
}

/// The base that a document is read with, or nothing.
pub(crate) fn base(set: Set) -> &'static str {
    match set {
        Set::WithBase => "http://a/b/c/d;p?q",
        _ => "",
    }
}

/// A document: its formats and what it is read under, its bytes, and what a run writes and reports of it, which is its
/// lines, and after them the line of the fault, if there is one.
pub(crate) type Row = (Set, &'static [u8], &'static str);

#[rattlefmt::skip]
static DOCUMENTS: [Row; 88] = [
    // Statements that are read.
    (Set::Statements,
        b"@prefix e: <http://e/> . e:s a e:t ; e:p \"x\"@en , 'y'^^e:t , _:b ; . [ e:q \"z\"@prefix ] .", "\
        <http://e/s> <http://www.w3.org/1999/02/22-rdf-syntax-ns#type> <http://e/t> .\n\
        <http://e/s> <http://e/p> \"x\"@en .\n\
        <http://e/s> <http://e/p> \"y\"^^<http://e/t> .\n\
        <http://e/s> <http://e/p> _:nb .\n\
        _:a69 <http://e/q> \"z\"@prefix .\n"),
    (Set::Statements, b"", ""),
    (Set::Statements, b"<http://a/s> <http://a/p> \"x\" .", "<http://a/s> <http://a/p> \"x\" .\n"),
    (Set::Statements, b"<http://a/s> <http://a/p> 1.",
        "<http://a/s> <http://a/p> \"1\"^^<http://www.w3.org/2001/XMLSchema#integer> .\n"),
    (Set::Statements, b"<http://a/s> <http://a/p> 1.e5 .",
        "<http://a/s> <http://a/p> \"1.e5\"^^<http://www.w3.org/2001/XMLSchema#double> .\n"),
    (Set::Statements, b"<http://a/s> <http://a/p> \"A\"@base .", "<http://a/s> <http://a/p> \"A\"@base .\n"),
    (Set::Statements, b"@prefix x: <http://x/> . x:a x:b%20\\~c x:d.e.",
        "<http://x/a> <http://x/b%20~c> <http://x/d.e> .\n"),
    (Set::Statements, b"_:a19 <http://a/p> [] .", "_:na19 <http://a/p> _:a19 .\n"),
    (Set::Statements, b"PREFIX x: <http://x/>\nx:s x:p x:o .\nPREFIX x: <http://y/>\nx:s x:p x:o .",
        "<http://x/s> <http://x/p> <http://x/o> .\n<http://y/s> <http://y/p> <http://y/o> .\n"),
    (Set::Statements, b"<http://a/s> <http://a/p> \"\"\"a\"b\n\\u00E9\\t\"\"\" .",
        "<http://a/s> <http://a/p> \"a\\\"b\\né\t\" .\n"),
    (Set::Statements, b"<http://a/s> <http://a/p> <http://a/s> ; ; a <http://a/s> , \"x\"@en ; .", "\
        <http://a/s> <http://a/p> <http://a/s> .\n\
        <http://a/s> <http://www.w3.org/1999/02/22-rdf-syntax-ns#type> <http://a/s> .\n\
        <http://a/s> <http://www.w3.org/1999/02/22-rdf-syntax-ns#type> \"x\"@en .\n"),
    (Set::Statements, b"BASE <http://h/b/> <s> a <t> . @base <c/> . <s> a <t> .", "\
        <http://h/b/s> <http://www.w3.org/1999/02/22-rdf-syntax-ns#type> <http://h/b/t> .\n\
        <http://h/b/c/s> <http://www.w3.org/1999/02/22-rdf-syntax-ns#type> <http://h/b/c/t> .\n"),
    (Set::Statements, b"<http://a/s> <http://a/p> -1, +.5, 1E0 .", "\
        <http://a/s> <http://a/p> \"-1\"^^<http://www.w3.org/2001/XMLSchema#integer> .\n\
        <http://a/s> <http://a/p> \"+.5\"^^<http://www.w3.org/2001/XMLSchema#decimal> .\n\
        <http://a/s> <http://a/p> \"1E0\"^^<http://www.w3.org/2001/XMLSchema#double> .\n"),
    (Set::Statements, b"prefix x: <http://x/> x: x: x: .", "<http://x/> <http://x/> <http://x/> .\n"),
    (Set::Statements, b"PREFIX : <http://e/>\n:s :p [ :q ( 1 2 ) ] .", "\
        <http://e/s> <http://e/p> _:a27 .\n\
        _:a27 <http://e/q> _:c34 .\n\
        _:c34 <http://www.w3.org/1999/02/22-rdf-syntax-ns#first> \"1\"^^<http://www.w3.org/2001/XMLSchema#integer> .\n\
        _:c34 <http://www.w3.org/1999/02/22-rdf-syntax-ns#rest> _:c36 .\n\
        _:c36 <http://www.w3.org/1999/02/22-rdf-syntax-ns#first> \"2\"^^<http://www.w3.org/2001/XMLSchema#integer> .\n\
        _:c36 <http://www.w3.org/1999/02/22-rdf-syntax-ns#rest> <http://www.w3.org/1999/02/22-rdf-syntax-ns#nil> .\n"),
    (Set::Statements, b"<http://a/s> <http://a/p> () .",
        "<http://a/s> <http://a/p> <http://www.w3.org/1999/02/22-rdf-syntax-ns#nil> .\n"),
    (Set::Statements, b"<http://a/s> <http://a/p> (truefalse) .", "\
        <http://a/s> <http://a/p> _:c27 .\n\
        _:c27 <http://www.w3.org/1999/02/22-rdf-syntax-ns#first> \
        \"true\"^^<http://www.w3.org/2001/XMLSchema#boolean> .\n\
        _:c27 <http://www.w3.org/1999/02/22-rdf-syntax-ns#rest> _:c31 .\n\
        _:c31 <http://www.w3.org/1999/02/22-rdf-syntax-ns#first> \
        \"false\"^^<http://www.w3.org/2001/XMLSchema#boolean> .\n\
        _:c31 <http://www.w3.org/1999/02/22-rdf-syntax-ns#rest> <http://www.w3.org/1999/02/22-rdf-syntax-ns#nil> .\n"),
    (Set::Statements, b"<http://a/s> <http://a/p> ( \"a\" ( ) ) .", "\
        <http://a/s> <http://a/p> _:c28 .\n\
        _:c28 <http://www.w3.org/1999/02/22-rdf-syntax-ns#first> \"a\" .\n\
        _:c28 <http://www.w3.org/1999/02/22-rdf-syntax-ns#rest> _:c32 .\n\
        _:c32 <http://www.w3.org/1999/02/22-rdf-syntax-ns#first> <http://www.w3.org/1999/02/22-rdf-syntax-ns#nil> .\n\
        _:c32 <http://www.w3.org/1999/02/22-rdf-syntax-ns#rest> <http://www.w3.org/1999/02/22-rdf-syntax-ns#nil> .\n"),
    (Set::Statements, b"( <http://a/s> ) <http://a/p> [] , () .", "\
        _:c2 <http://www.w3.org/1999/02/22-rdf-syntax-ns#first> <http://a/s> .\n\
        _:c2 <http://www.w3.org/1999/02/22-rdf-syntax-ns#rest> <http://www.w3.org/1999/02/22-rdf-syntax-ns#nil> .\n\
        _:c2 <http://a/p> _:a30 .\n\
        _:c2 <http://a/p> <http://www.w3.org/1999/02/22-rdf-syntax-ns#nil> .\n"),
    (Set::Statements, b"[ <http://a/p> <http://a/s> ] .", "_:a0 <http://a/p> <http://a/s> .\n"),
    (Set::Statements, b"<http://a/s> <http://a/p> ( [ <http://a/p> <http://a/s> ] 1 ) .", "\
        <http://a/s> <http://a/p> _:c28 .\n\
        _:c28 <http://www.w3.org/1999/02/22-rdf-syntax-ns#first> _:a28 .\n\
        _:a28 <http://a/p> <http://a/s> .\n\
        _:c28 <http://www.w3.org/1999/02/22-rdf-syntax-ns#rest> _:c58 .\n\
        _:c58 <http://www.w3.org/1999/02/22-rdf-syntax-ns#first> \"1\"^^<http://www.w3.org/2001/XMLSchema#integer> .\n\
        _:c58 <http://www.w3.org/1999/02/22-rdf-syntax-ns#rest> <http://www.w3.org/1999/02/22-rdf-syntax-ns#nil> .\n"),
    (Set::TriG, b"<http://g/> { <http://a/s> <http://a/p> <http://a/s> }",
        "<http://a/s> <http://a/p> <http://a/s> <http://g/> .\n"),
    (Set::TriG, b"{ } GRAPH [] { <http://a/s> <http://a/p> <http://a/s> }",
        "<http://a/s> <http://a/p> <http://a/s> _:a10 .\n"),
    (Set::TriG, b"<http://g/> { _:x <http://a/p> <http://a/s> . } _:x <http://a/p> <http://a/s> .",
        "_:nx <http://a/p> <http://a/s> <http://g/> .\n_:nx <http://a/p> <http://a/s> .\n"),
    (Set::TriG, b"GRAPH <http://g/> { [ <http://a/p> <http://a/s> ] . <http://a/s> <http://a/p> ( ) }", "\
        _:a20 <http://a/p> <http://a/s> <http://g/> .\n\
        <http://a/s> <http://a/p> <http://www.w3.org/1999/02/22-rdf-syntax-ns#nil> <http://g/> .\n"),
    (Set::WithBase, b"<s> <http://a/p> <http://a/s> .", "<http://a/b/c/s> <http://a/p> <http://a/s> .\n"),
    (Set::WithBase, b"<../g> <#s> <?y> .", "<http://a/b/g> <http://a/b/c/d;p?q#s> <http://a/b/c/d;p?y> .\n"),
    (Set::ShortTokens, b"<http://a/s> <http://a/p> <http://a/s> .", "<http://a/s> <http://a/p> <http://a/s> .\n"),
    (Set::ShortIris, b"<http://a/s> <http://a/p> <http://a/s> .", "<http://a/s> <http://a/p> <http://a/s> .\n"),
    // Statements that are refused.
    (Set::Statements, b"@base <x> .", "rdfconv: no base at byte 6, line 1\n"),
    (Set::Statements, b"<http://a/s> <http://a/p> (\"\"\"a\") .", "rdfconv: no token at byte 27, line 1\n"),
    (Set::Statements, b"<s> <http://a/p> <http://a/s> .", "rdfconv: no base at byte 0, line 1\n"),
    (Set::Statements, b"e:s <http://a/p> <http://a/s> .", "rdfconv: unbound prefix at byte 0, line 1\n"),
    (Set::Statements, b"PREFIX x: <http://x/> .", "rdfconv: unexpected token at byte 22, line 1\n"),
    (Set::Statements, b"<http://a/s> <http://a/p> <http://a/s>", "rdfconv: unexpected token at byte 38, line 1\n"),
    (Set::Statements, b"<http://a/\\u0020> <http://a/p> <http://a/s> .", "rdfconv: bad escape at byte 0, line 1\n"),
    (Set::Statements, b"<http://a/s>\xC3", "rdfconv: bad UTF-8 at byte 12, line 1\n"),
    (Set::Statements, b"<http://a/s> <http://a/p> <http://a/s> ; <http://a/q> e:x .",
        "<http://a/s> <http://a/p> <http://a/s> .\nrdfconv: unbound prefix at byte 54, line 1\n"),
    (Set::Statements, b"_:x.y. <http://a/p> <http://a/s> .", "rdfconv: unexpected token at byte 5, line 1\n"),
    (Set::Statements, b"[] .", "rdfconv: unexpected token at byte 3, line 1\n"),
    (Set::Statements, b"\xEF\xBB\xBF<http://a/s> <http://a/p> <http://a/s>",
        "rdfconv: unexpected token at byte 41, line 1\n"),
    (Set::Statements, b"<http://a/s> a a .", "rdfconv: unexpected token at byte 15, line 1\n"),
    (Set::Statements, b"<http://a/s> <http://a/p> \"x\"^^e:t .", "rdfconv: unbound prefix at byte 31, line 1\n"),
    (Set::Statements, b"<http://a/s> <http://a/p> <http://a/s> .\xff", "rdfconv: bad UTF-8 at byte 40, line 1\n"),
    (Set::Turtle, b"<http://g/> { <http://a/s> <http://a/p> <http://a/s> }",
        "rdfconv: unexpected token at byte 12, line 1\n"),
    (Set::Turtle, b"GRAPH <http://g/> { }", "rdfconv: unexpected token at byte 0, line 1\n"),
    (Set::TriG, b"{ <http://a/s> <http://a/p> <http://a/s> . . }",
        "<http://a/s> <http://a/p> <http://a/s> .\nrdfconv: unexpected token at byte 43, line 1\n"),
    (Set::TriG, b"{ PREFIX x: <http://x/> }", "rdfconv: unexpected token at byte 2, line 1\n"),
    (Set::TriG, b"[ <http://a/p> <http://a/s> ] { }",
        "_:a0 <http://a/p> <http://a/s> .\nrdfconv: unexpected token at byte 30, line 1\n"),
    (Set::TriG, b"() { }", "rdfconv: unexpected token at byte 3, line 1\n"),
    (Set::TriG, b"GRAPH [ <http://a/p> <http://a/s> ] { }", "rdfconv: unexpected token at byte 8, line 1\n"),
    (Set::ShortTokens, b"<http://a/ss> <http://a/p> <http://a/s> .", "rdfconv: token too long at byte 0, line 1\n"),
    (Set::ShortTokens, b"<http://a/s> <http://a/p> truefalsetrue .", "rdfconv: token too long at byte 26, line 1\n"),
    (Set::ShortTokens, b"bbbbbbbbbbbb", "rdfconv: no token at byte 0, line 1\n"),
    (Set::ShortTokens, b"bbbbbbbbbbbbb", "rdfconv: token too long at byte 0, line 1\n"),
    (Set::ShortTokens, b"aaaaaaaaaaaa", "rdfconv: unexpected token at byte 0, line 1\n"),
    (Set::NoBracket, b"<http://a/s> <http://a/p> () .", "rdfconv: too deep at byte 26, line 1\n"),
    (Set::OneBracket, b"<http://a/s> <http://a/p> [ <http://a/q> [] ] .",
        "<http://a/s> <http://a/p> _:a26 .\nrdfconv: too deep at byte 41, line 1\n"),
    (Set::TwoBrackets, b"<http://a/s> <http://a/p> ((())) .",
        "<http://a/s> <http://a/p> _:c27 .\nrdfconv: too deep at byte 28, line 1\n"),
    (Set::OnePrefix, b"PREFIX a: <http://a/> PREFIX a: <http://b/> PREFIX b: <http://b/>",
        "rdfconv: too many bindings at byte 54, line 1\n"),
    (Set::ShortIris, b"<http://a/ss> <http://a/p> <http://a/s> .", "rdfconv: IRI too long at byte 0, line 1\n"),
    (Set::NoPrefix, b"PREFIX x: <http://abc/>", "rdfconv: IRI too long at byte 10, line 1\n"),
    // Lines that stand as they are written, and others: a cut within one makes it one of the others.
    (Set::Lines, b"\
        <a:s> <a:p> <a:o> .\n\
        <a:s>\t<a:p>  \"\\u00e9\" . # c\r\n\
        _:b <a:p> \"x\"@en .\n\n\
        <a:s> <a:p> \"y\"^^<a:t> .\n\
        _:b <a:p> \"\xC3\xA9\" .\n\
        <a:s> <a:p> \"q\\\"r\\n\" .\n", "\
        <a:s> <a:p> <a:o> .\n<a:s> <a:p> \"é\" .\n_:b <a:p> \"x\"@en .\n\
        <a:s> <a:p> \"y\"^^<a:t> .\n\
        _:b <a:p> \"é\" .\n\
        <a:s> <a:p> \"q\\\"r\\n\" .\n"),
    // Lines that stand so but for a CR before each LF, and other ends among them.
    (Set::Lines, b"\
        <a:s> <a:p> <a:o> .\r\n\
        <a:s> <a:p> \"x\"@en .\r\n\
        <a:s> <a:p> \"\xC3\xA9\" .\n\
        _:b <a:p> \"q\\\"r\\n\" .\r\n\r\n\
        <a:s> <a:p> \"y\"^^<a:t> .\r\n\
        <a:s> <a:p> \"z\" .\r<a:s> <a:p> \"w\" .\n\
        \r<a:s> <a:p> <a:o> . # c\r\n\
        _:b <a:p> <a:o> .\r\n", "\
        <a:s> <a:p> <a:o> .\n<a:s> <a:p> \"x\"@en .\n<a:s> <a:p> \"é\" .\n\
        _:b <a:p> \"q\\\"r\\n\" .\n\
        <a:s> <a:p> \"y\"^^<a:t> .\n\
        <a:s> <a:p> \"z\" .\n<a:s> <a:p> \"w\" .\n<a:s> <a:p> <a:o> .\n_:b <a:p> <a:o> .\n"),
    // Lines with escapes among such, and one that is neither.
    (Set::Lines, b"_:b <a:> <a:> .\n_:b <a:> <a:> .\n_:b <a:> \"\\u0041\" .\n_:b <a:> \"x\" .\n_:b <a:> <b:>.\n",
        "_:b <a:> <a:> .\n_:b <a:> <a:> .\n_:b <a:> \"A\" .\n_:b <a:> \"x\" .\n_:b <a:> <b:> .\n"),
    (Set::Lines,
        b"_:b <a:> <a:> .\r\n_:b <a:> <a:> .\r\n_:b <a:> \"\\u0041\" .\r\n_:b <a:> \"x\" .\r\n_:b <a:> <o> .\r\n", "\
        _:b <a:> <a:> .\n_:b <a:> <a:> .\n_:b <a:> \"A\" .\n_:b <a:> \"x\" .\n\
        rdfconv: relative IRI at byte 80, line 5\n"),
    (Set::Lines, b"<a:s> <a:p> <a:o> .\r\n<a:s> <a:p> <a:o> .\r\n<a:s> <a:p> <o> .\r\n",
        "<a:s> <a:p> <a:o> .\n<a:s> <a:p> <a:o> .\nrdfconv: relative IRI at byte 54, line 3\n"),
    (Set::Lines, b"<a:s> <a:p> <a:o> .\n<a:s> <a:p> <o> .\n",
        "<a:s> <a:p> <a:o> .\nrdfconv: relative IRI at byte 32, line 2\n"),
    // Strings with the escapes that are written, with others, and with what is no escape.
    (Set::Lines, b"\
        <a:s> <a:p> \"q\\\"r\\n\" .\n\
        <a:s> <a:p> \"\\\\\\r\\n'\"@en .\n\
        <a:s> <a:p> \"a\\tb\" .\n\
        <a:s> <a:p> \"\\n\\'\\u0022\" .\n\
        <a:s> <a:p> \"\\\"\"^^<a:t> .\n", "\
        <a:s> <a:p> \"q\\\"r\\n\" .\n\
        <a:s> <a:p> \"\\\\\\r\\n'\"@en .\n<a:s> <a:p> \"a\tb\" .\n\
        <a:s> <a:p> \"\\n'\\\"\" .\n\
        <a:s> <a:p> \"\\\"\"^^<a:t> .\n"),
    (Set::Lines, b"<a:s> <a:p> \"\\n\" .\n<a:s> <a:p> \"\\n\\x\" .\n",
        "<a:s> <a:p> \"\\n\" .\nrdfconv: no token at byte 31, line 2\n"),
    (Set::Lines, b"<a:s> <a:p> \"\\n\" .\n<a:s> <a:p> \"\\\" .\n",
        "<a:s> <a:p> \"\\n\" .\nrdfconv: no token at byte 31, line 2\n"),
    (Set::Lines,
        b"<a:s> <a:p> <a:o> .\n<a:s> <a:p> \"x\"^^<http://www.w3.org/2001/XMLSchema#string> .\n<a:s> <a:p> \"z\" .\n",
        "<a:s> <a:p> <a:o> .\n<a:s> <a:p> \"x\" .\n<a:s> <a:p> \"z\" .\n"),
    (Set::Lines, b"<a:s> <a:p> <a:o> .\n<a:s> <a:p> <a:o>",
        "<a:s> <a:p> <a:o> .\nrdfconv: unexpected token at byte 37, line 2\n"),
    (Set::Lines, b"<http://a/s> <http://a/p>\n", "rdfconv: unexpected token at byte 25, line 1\n"),
    (Set::Lines, b"<http://a/s> <http://a/p> <http://a/s> .\r\n<http://a/s> <http://a/p> <http://a/s> .",
        "<http://a/s> <http://a/p> <http://a/s> .\n<http://a/s> <http://a/p> <http://a/s> .\n"),
    (Set::Lines, b"<http://a/s> <http://a/p> <http://a/s> .\xff",
        "<http://a/s> <http://a/p> <http://a/s> .\nrdfconv: bad UTF-8 at byte 40, line 1\n"),
    (Set::Lines, b"<http://a/s> <http://a/p> <http://a/s> . <http://a/s> <http://a/p> <http://a/s> .",
        "<http://a/s> <http://a/p> <http://a/s> .\nrdfconv: unexpected token at byte 41, line 1\n"),
    (Set::Lines, b"\n<http://a/s> <http://a/p> <http://a/s> .\n\n", "<http://a/s> <http://a/p> <http://a/s> .\n"),
    (Set::Lines, b"<http://a/s> <http://a/p> _:x .", "<http://a/s> <http://a/p> _:x .\n"),
    (Set::Lines, b"<http://a/s> <http://a/p> <http://a/s> .\n<s> <http://a/p> <http://a/s> .",
        "<http://a/s> <http://a/p> <http://a/s> .\nrdfconv: relative IRI at byte 41, line 2\n"),
    (Set::Lines, b"<http://a/s> <http://a/p> \"x\"^^<http://www.w3.org/2001/XMLSchema#string> . # c",
        "<http://a/s> <http://a/p> \"x\" .\n"),
    (Set::Lines, b"<http://a/s> <http://a/p> \"\\uD800\" .", "rdfconv: bad escape at byte 26, line 1\n"),
    (Set::Lines, b"<http://a/\\u003E> <http://a/p> <http://a/s> .", "rdfconv: bad escape at byte 0, line 1\n"),
    (Set::Lines, b"_:a:b <http://a/p> <http://a/s> .#", "_:a:b <http://a/p> <http://a/s> .\n"),
    (Set::Lines, b"<http://a/s> <http://a/p> \"\\q\" .", "rdfconv: no token at byte 26, line 1\n"),
    (Set::NQuads, b"_:x <http://a/p> _:x _:g .", "_:x <http://a/p> _:x _:g .\n"),
    (Set::NQuads, b"<http://a/s> <http://a/p> \"a\\tb\\u00E9\\n\" @en-GB <http://g/> .",
        "<http://a/s> <http://a/p> \"a\tbé\\n\"@en-GB <http://g/> .\n"),
    (Set::NTriples, b"<http://a/s> <http://a/p> <http://a/s> <http://g/> .",
        "rdfconv: unexpected token at byte 39, line 1\n"),
];

/// The documents. The table is named here alone, since its texts are dear to prove wherever it is named.
pub(crate) fn documents() -> &'static [Row] {
    DOCUMENTS.as_slice()
}
