// Runs, words, and what comes of them.

use super::hosts::Making;
use super::texts::HELP;
use rdf_command::Action;
use rdf_stream::{Escapes, Form};

/// A task over a document, and what comes of its run: the action, the format and the document; the status, what is
/// written and what is reported.
pub(crate) type Run = (Action, Form, &'static str, u8, &'static str, &'static str);

#[rattlefmt::skip]
pub(crate) static RUNS: [Run; 9] = [
    (Action::Check, Form::NQuads, "<a:> <b:> <c:> <g:>.\n_:x <b:> <c:>.", 0, "accepted, 2 quads, 35 bytes\n", ""),
    (Action::Check, Form::NTriples, "<a:> <b:> <c:>.\n<a> <b:> <c:>.", 1, "",
        "rdfconv: relative IRI at byte 16, line 2\n"),
    (Action::Show, Form::NQuads, "<a:> \"é\" .\n?", 1, "0 4 iri\n5 3 string\n10 1 dot\n11 1 lineend\n",
        "rdfconv: no token at byte 12, line 2\n"),
    (Action::Convert, Form::NTriples, "<a:> <b:> \"x\" .", 0, "<a:> <b:> \"x\" .\n", ""),
    (Action::Convert, Form::NQuads, "<a:> <b:> _:x <g:>.", 0, "<a:> <b:> _:x <g:> .\n", ""),
    (Action::Convert, Form::NTriples, "<a:> <b:> <c:> <g:> .", 1, "", "rdfconv: unexpected token at byte 15, line 1\n"),
    (Action::Convert, Form::NTriples, "", 0, "", ""),
    (Action::Convert, Form::TriG, "PREFIX : <a:> :g { :s :p [ :q ( 1 ) ] }", 0, "\
        <a:s> <a:p> _:a25 <a:g> .\n\
        _:a25 <a:q> _:c32 <a:g> .\n\
        _:c32 <http://www.w3.org/1999/02/22-rdf-syntax-ns#first> \
        \"1\"^^<http://www.w3.org/2001/XMLSchema#integer> <a:g> .\n\
        _:c32 <http://www.w3.org/1999/02/22-rdf-syntax-ns#rest> \
        <http://www.w3.org/1999/02/22-rdf-syntax-ns#nil> <a:g> .\n", ""),
    (Action::Check, Form::Turtle, "e:s", 1, "", "rdfconv: unbound prefix at byte 0, line 1\n"),
];

/// Limits of a token and of an IRI, and what comes of a run over `<a:> <b:> <c:> .` with them: the status, what is
/// written and what is reported.
pub(crate) type Limited = (u64, u64, u8, &'static str, &'static str);

pub(crate) static LIMITED: [Limited; 3] = [
    (4, 2, 0, "<a:> <b:> <c:> .\n", ""),
    (3, 2, 1, "", "rdfconv: token too long at byte 0, line 1\n"),
    (4, 1, 1, "", "rdfconv: IRI too long at byte 0, line 1\n"),
];

/// The fields of a task, with texts borrowed.
#[derive(Clone, Copy)]
pub(crate) struct Fields<'a> {
    pub(crate) action: Action,
    pub(crate) form: Form,
    pub(crate) base: Option<&'a str>,
    /// Those of a token, of open brackets, of bindings and of an IRI.
    pub(crate) limits: [u64; 4],
    pub(crate) explain: bool,
    pub(crate) escapes: Escapes,
    pub(crate) node_prefix: Option<&'a str>,
    pub(crate) graph: Option<&'a str>,
    pub(crate) prefixes: Option<&'a str>,
    pub(crate) file: Option<&'a str>,
    pub(crate) output: Option<&'a str>,
    pub(crate) skip: Option<&'a str>,
    /// The formats and names of the documents after the first.
    pub(crate) more: &'a [(Form, &'a str)],
}

/// The fields where no option is given.
pub(crate) const PLAIN: Fields<'static> = Fields {
    action: Action::Convert,
    form: Form::TriG,
    base: None,
    limits: [16777216, 1024, 65536, 1048576],
    explain: false,
    escapes: Escapes::Plain,
    node_prefix: None,
    graph: None,
    prefixes: None,
    file: None,
    output: None,
    skip: None,
    more: &[],
};

/// Words, with a space between each two, and the fields of the task that they give.
pub(crate) static TASKS: [(&str, Fields<'static>); 6] = [
    ("rdfconv convert", PLAIN),
    (
        "rdfconv convert --iri 12 --format=nt --base http://a/b/c --token=1 --depth 0 data.nt --ascii \
            --bindings 2 --prefixes ex.txt --node-prefix Ab1 --graph http://a/b/g --explain \
            -o out.nq --skip bad.nt",
        Fields {
            action: Action::Convert,
            form: Form::NTriples,
            base: Some("http://a/b/c"),
            limits: [1, 0, 2, 12],
            explain: true,
            escapes: Escapes::Ascii,
            node_prefix: Some("Ab1"),
            graph: Some("http://a/b/g"),
            prefixes: Some("ex.txt"),
            file: Some("data.nt"),
            output: Some("out.nq"),
            skip: Some("bad.nt"),
            more: &[],
        },
    ),
    (
        "rdfconv convert --iri=10 --base=http://a/b",
        Fields {
            base: Some("http://a/b"),
            limits: [16777216, 1024, 65536, 10],
            ..PLAIN
        },
    ),
    (
        "rdfconv check - --iri 9 a.nt - b",
        Fields {
            action: Action::Check,
            limits: [16777216, 1024, 65536, 9],
            more: &[(Form::TriG, "a.nt"), (Form::TriG, "-"), (Form::TriG, "b")],
            ..PLAIN
        },
    ),
    (
        "rdfconv check --format name a.ttl b.nt .nq a.ttl.trig",
        Fields {
            action: Action::Check,
            form: Form::Turtle,
            file: Some("a.ttl"),
            more: &[
                (Form::NTriples, "b.nt"),
                (Form::NQuads, ".nq"),
                (Form::TriG, "a.ttl.trig"),
            ],
            ..PLAIN
        },
    ),
    (
        "rdfconv convert --format=name a/b.nq",
        Fields {
            form: Form::NQuads,
            file: Some("a/b.nq"),
            ..PLAIN
        },
    ),
];

/// What standard input gives.
pub(crate) const INPUT: &str = "<a:> <b:> _:input .";

/// The files, with their names.
#[rattlefmt::skip]
pub(crate) static FILES: [(&str, &str); 12] = [
    ("data.nt", "<a:> <b:> \"file\" ."),
    ("data.ttl", "ex:s ex:p ex:o ."),
    ("open.ttl", "<a:> <b:> [ <c:> 1\n."),
    ("graphs.trig", "<a:> <b:> [] . <a:g> { <a:> <b:> _:x } [ <b:> 1 ] ."),
    ("accents.ttl", "<a:é> <b:> \"😀\" , _:é ."),
    ("é~+.ttl", "<> <p> <#o> ."),
    ("/a/../é.ttl", "<> <p> <#o> ."),
    ("mixed.nt", "<a:> <b:> <c:> .\nbad\n<a:> <b:> \"2\" ."),
    ("ex.txt", "ex: http://e/\n"),
    ("bad.txt", "ex: http://e/\nex: e\n"),
    ("broken.nt", "<a:> <b:> <c:> .\n"),
    ("broken.txt", "ex: http://e/\n"),
];

/// The words that the program is started with, with a space between each two, and what comes of it: the status, what is
/// written and what is reported. Its standard input and its files are `INPUT` and `FILES`.
pub(crate) type Started = (&'static str, u8, &'static str, &'static str);

#[rattlefmt::skip]
pub(crate) static STARTED: [Started; 52] = [
    ("rdfconv show x x x x x x x x x x x x x x x x x x x x x x x x x x x x x x x x x x x x x x x x x x x x x x x x", 2,
        "", "\
        error: unexpected argument 'x' found\n\n\
        Usage: rdfconv show [OPTIONS] [FILE]\n\n\
        For more information, try '--help'.\n"),
    ("rdfconv convert --format nt data.nt", 0, "<a:> <b:> \"file\" .\n", ""),
    ("rdfconv convert", 0, "<a:> <b:> _:ninput .\n", ""),
    ("rdfconv convert -", 0, "<a:> <b:> _:ninput .\n", ""),
    ("rdfconv convert --output=- -", 0, "<a:> <b:> _:ninput .\n", ""),
    ("rdfconv show data.nt", 0, "0 4 iri\n5 4 iri\n10 6 string\n17 1 dot\n", ""),
    ("rdfconv check --iri 1 data.nt", 1, "", "rdfconv: IRI too long at byte 0, line 1\n"),
    ("rdfconv check no.nt", 3, "", "rdfconv: cannot open file\n"),
    ("rdfconv convert --prefixes ex.txt data.ttl", 0, "<http://e/s> <http://e/p> <http://e/o> .\n", ""),
    ("rdfconv check --prefixes=data.nt data.ttl", 2, "", "rdfconv: bad prefixes at line 1\n"),
    ("rdfconv convert --format=nt --prefixes=bad.txt", 2, "", "rdfconv: bad prefixes at line 2\n"),
    ("rdfconv convert --format=nt --prefixes=ex.txt", 0, "<a:> <b:> _:input .\n", ""),
    ("rdfconv check --prefixes=no.txt", 3, "", "rdfconv: cannot open file\n"),
    ("rdfconv check --prefixes=bad.txt no.nt", 3, "", "rdfconv: cannot open file\n"),
    ("rdfconv convert --ascii accents.ttl", 0, "<a:\\u00E9> <b:> \"\\U0001F600\" .\n<a:\\u00E9> <b:> _:né .\n", ""),
    ("rdfconv convert --node-prefix=x1 accents.ttl", 0, "<a:é> <b:> \"😀\" .\n<a:é> <b:> _:x1né .\n", ""),
    ("rdfconv convert --graph a:h data.nt", 0, "<a:> <b:> \"file\" <a:h> .\n", ""),
    ("rdfconv convert --graph a:h --format nt data.nt", 0, "<a:> <b:> \"file\" <a:h> .\n", ""),
    ("rdfconv convert --graph=a:é --ascii --node-prefix x accents.ttl", 0,
        "<a:\\u00E9> <b:> \"\\U0001F600\" <a:\\u00E9> .\n<a:\\u00E9> <b:> _:xné <a:\\u00E9> .\n", ""),
    ("rdfconv convert graphs.trig --graph a:h", 0, "\
        <a:> <b:> _:a10 <a:h> .\n<a:> <b:> _:nx <a:g> .\n\
        _:a39 <b:> \"1\"^^<http://www.w3.org/2001/XMLSchema#integer> <a:h> .\n", ""),
    ("rdfconv --help", 0, HELP, ""),
    ("rdfconv check - data.nt data.ttl no.nt accents.ttl", 3, "\
        -: accepted, 1 quads, 19 bytes\n\
        data.nt: accepted, 1 quads, 18 bytes\n\
        accents.ttl: accepted, 2 quads, 27 bytes\n",
        "data.ttl: unbound prefix at byte 0, line 1\nno.nt: cannot open file\n"),
    ("rdfconv check --format name data.nt data.ttl", 1, "data.nt: accepted, 1 quads, 18 bytes\n",
        "data.ttl: unbound prefix at byte 0, line 1\n"),
    ("rdfconv check --base http://a/ --prefixes ex.txt data.ttl data.ttl", 0,
        "data.ttl: accepted, 1 quads, 16 bytes\ndata.ttl: accepted, 1 quads, 16 bytes\n", ""),
    ("rdfconv check --prefixes bad.txt data.ttl data.nt", 2, "", "rdfconv: bad prefixes at line 2\n"),
    ("rdfconv check --prefixes no.txt data.ttl data.nt", 3, "", "rdfconv: cannot open file\n"),
    ("rdfconv convert --base file é~+.ttl", 0,
        "<file:///my%20home/%C3%A9~%2B.ttl> <file:///my%20home/p> <file:///my%20home/%C3%A9~%2B.ttl#o> .\n", ""),
    ("rdfconv convert --base=file /a/../é.ttl", 0,
        "<file:///a/../%C3%A9.ttl> <file:///p> <file:///a/../%C3%A9.ttl#o> .\n", ""),
    ("rdfconv convert --base file", 2, "", "rdfconv: bad base\n"),
    ("rdfconv check --base file --iri 31 /a/../é.ttl - é~+.ttl data.nt", 2,
        "/a/../é.ttl: accepted, 1 quads, 13 bytes\ndata.nt: accepted, 1 quads, 18 bytes\n",
        "-: bad base\né~+.ttl: bad base\n"),
    ("rdfconv convert --explain --base=http://é/\tb<", 2, "",
        "rdfconv: bad base\nhttp://é/\u{FFFD}b<: U+0009 after 10 bytes can't stand in an IRI\n"),
    ("rdfconv convert --graph a:<b> --explain", 2, "",
        "rdfconv: bad graph\na:<b>: \"<\" after 2 bytes can't stand in an IRI\n"),
    ("rdfconv show --explain --base é", 2, "", "rdfconv: bad base\né: it has no scheme\n"),
    ("rdfconv check --iri=9 --base=http://a/b --explain", 2, "",
        "rdfconv: bad base\nhttp://a/b: IRI too long; the limit is 9\n"),
    ("rdfconv convert --format name data.nt", 0, "<a:> <b:> \"file\" .\n", ""),
    ("rdfconv check --explain open.ttl", 1, "", "\
        rdfconv: unexpected token at byte 19, line 2\n\
        open.ttl:2:1: unexpected token: \".\"; expected \";\", \",\" or \"]\"; \"[\" is open since line 1, column 11\n\
        .\n^\n"),
    ("rdfconv convert --format=ttl open.ttl --explain", 1, "<a:> <b:> _:a10 .\n", "\
        rdfconv: unexpected token at byte 19, line 2\n\
        open.ttl:2:1: unexpected token: \".\"; expected \";\", \",\" or \"]\"; \"[\" is open since line 1, column 11\n\
        .\n^\n"),
    ("rdfconv show --token=1 --explain", 1, "",
        "rdfconv: token too long at byte 0, line 1\n-:1:1: token too long; the limit is 1\n<a:> <b:> _:input .\n^\n"),
    ("rdfconv check --explain open.ttl no.nt - data.ttl", 3, "-: accepted, 1 quads, 19 bytes\n", "\
        open.ttl: unexpected token at byte 19, line 2\n\
        open.ttl:2:1: unexpected token: \".\"; expected \";\", \",\" or \"]\"; \"[\" is open since line 1, column 11\n\
        .\n^\n\
        no.nt: cannot open file\n\
        no.nt: no such file in memory\n\
        data.ttl: unbound prefix at byte 0, line 1\n\
        data.ttl:1:1: unbound prefix: \"ex:s\"\n\
        ex:s ex:p ex:o .\n^\n"),
    ("rdfconv convert --explain --prefixes=no.txt data.ttl", 3, "",
        "rdfconv: cannot open file\nno.txt: no such file in memory\n"),
    ("rdfconv check --explain /no.nt", 3, "", "rdfconv: cannot open file\n"),
    ("rdfconv check broken.nt", 3, "", "rdfconv: read failed\n"),
    ("rdfconv check --explain broken.nt", 3, "", "rdfconv: read failed\nbroken.nt: broken off\n"),
    ("rdfconv convert --explain broken.nt", 3, "<a:> <b:> <c:> .\n", "rdfconv: read failed\nbroken.nt: broken off\n"),
    ("rdfconv show --explain broken.nt", 3, "0 4 iri\n5 4 iri\n10 4 iri\n15 1 dot\n",
        "rdfconv: read failed\nbroken.nt: broken off\n"),
    ("rdfconv check data.nt broken.nt", 3, "data.nt: accepted, 1 quads, 18 bytes\n", "broken.nt: read failed\n"),
    ("rdfconv check --explain data.nt broken.nt", 3, "data.nt: accepted, 1 quads, 18 bytes\n",
        "broken.nt: read failed\nbroken.nt: broken off\n"),
    ("rdfconv check --prefixes broken.txt data.ttl", 3, "", "rdfconv: read failed\n"),
    ("rdfconv check --explain --prefixes broken.txt data.ttl", 3, "", "rdfconv: read failed\nbroken.txt: broken off\n"),
    ("rdfconv check --explain --prefixes broken.txt data.ttl data.nt", 3, "",
        "rdfconv: read failed\nbroken.txt: broken off\n"),
    ("rdfconv convert --explain --prefixes bad.txt data.ttl", 2, "",
        "rdfconv: bad prefixes at line 2\nbad.txt:2: bad prefixes\n"),
    ("rdfconv check --explain --prefixes bad.txt data.ttl data.nt", 2, "",
        "rdfconv: bad prefixes at line 2\nbad.txt:2: bad prefixes\n"),
];

/// Checks of a document that is refused, of standard input, which is accepted, and of one that is refused, where the
/// error output takes all bytes: the words, how many bytes are reported of the first document, and all that is
/// reported.
#[rattlefmt::skip]
pub(crate) static CUTS: [(&str, usize, &str); 2] = [
    ("rdfconv check data.ttl - open.ttl", 43,
        "data.ttl: unbound prefix at byte 0, line 1\nopen.ttl: unexpected token at byte 19, line 2\n"),
    ("rdfconv check --explain data.ttl - open.ttl", 99, "\
        data.ttl: unbound prefix at byte 0, line 1\n\
        data.ttl:1:1: unbound prefix: \"ex:s\"\n\
        ex:s ex:p ex:o .\n^\n\
        open.ttl: unexpected token at byte 19, line 2\n\
        open.ttl:2:1: unexpected token: \".\"; expected \";\", \",\" or \"]\"; \"[\" is open since line 1, column 11\n\
        .\n^\n"),
];

/// The words of runs that make files, and what comes of them: the status; what is written to standard output; what
/// `out.nq` has then, and what `bad.nt` ends in, if they are there; and what is reported.
pub(crate) type Made = (
    &'static str,
    u8,
    &'static str,
    Option<&'static str>,
    Option<&'static str>,
    &'static str,
);

#[rattlefmt::skip]
pub(crate) static MADE: [Made; 5] = [
    ("rdfconv convert -o out.nq --format nt data.nt", 0, "", Some("<a:> <b:> \"file\" .\n"), None, ""),
    ("rdfconv convert -oout.nq", 0, "", Some("<a:> <b:> _:ninput .\n"), None, ""),
    ("rdfconv convert --format nt --skip bad.nt mixed.nt", 1, "<a:> <b:> <c:> .\n<a:> <b:> \"2\" .\n", None,
        Some("bad\n"), "rdfconv: 2 quads, 1 lines put aside\n"),
    ("rdfconv convert --format=name --graph a:g -o out.nq --skip=bad.nt mixed.nt", 1, "",
        Some("<a:> <b:> <c:> <a:g> .\n<a:> <b:> \"2\" <a:g> .\n"), Some("bad\n"),
        "rdfconv: 2 quads, 1 lines put aside\n"),
    ("rdfconv check --format nq --skip bad.nt data.nt", 0, "", None, Some(""), "rdfconv: 1 quads, 0 lines put aside\n"),
];

/// The words of runs of which no file is there at the end, and to whose standard output nothing is written: what
/// becomes of its outputs, the status, whether an output is discarded, and what is reported.
pub(crate) type Unmade = (&'static str, Making, u8, bool, &'static str);

#[rattlefmt::skip]
pub(crate) static UNMADE: [Unmade; 22] = [
    ("rdfconv convert --output=out.nq data.ttl", Making::Works, 1, true, "rdfconv: unbound prefix at byte 0, line 1\n"),
    ("rdfconv convert --output out.nq --prefixes bad.txt data.ttl", Making::Works, 2, true,
        "rdfconv: bad prefixes at line 2\n"),
    ("rdfconv convert -o out.nq data.nt", Making::NotWritten, 3, true, "rdfconv: write failed\n"),
    ("rdfconv convert -o out.nq data.nt", Making::NotNamed, 3, false, "rdfconv: write failed\n"),
    ("rdfconv convert -o out.nq data.nt", Making::NotCreated, 3, false, "rdfconv: cannot open file\n"),
    ("rdfconv convert -o out.nq data.nt", Making::NoMemory, 4, false, "rdfconv: out of memory\n"),
    ("rdfconv convert -o out.nq no.nt", Making::Works, 3, false, "rdfconv: cannot open file\n"),
    ("rdfconv convert --explain -o out.nq data.nt", Making::NotWritten, 3, true,
        "rdfconv: write failed\nout.nq: no room in memory\n"),
    ("rdfconv convert --explain -o out.nq data.nt", Making::NotNamed, 3, false,
        "rdfconv: write failed\nout.nq: no name in memory\n"),
    ("rdfconv convert --explain -o out.nq data.nt", Making::NotCreated, 3, false,
        "rdfconv: cannot open file\nout.nq: not in memory\n"),
    ("rdfconv convert --explain -o out.nq data.nt", Making::NoMemory, 4, false, "rdfconv: out of memory\n"),
    ("rdfconv convert --explain -o out.nq broken.nt", Making::Works, 3, true,
        "rdfconv: read failed\nbroken.nt: broken off\n"),
    ("rdfconv check --format nt --skip bad.nt mixed.nt", Making::NotWritten, 3, true, "rdfconv: write failed\n"),
    ("rdfconv check --format nt --skip bad.nt mixed.nt", Making::NotNamed, 3, false, "rdfconv: write failed\n"),
    ("rdfconv convert --format nt --skip bad.nt mixed.nt", Making::NotCreated, 3, false, "rdfconv: cannot open file\n"),
    ("rdfconv check --explain --format nt --skip bad.nt mixed.nt", Making::NotWritten, 3, true,
        "rdfconv: write failed\nbad.nt: no room in memory\n"),
    ("rdfconv convert --explain --format nt -o out.nq --skip bad.nt mixed.nt", Making::NotWritten, 3, true,
        "rdfconv: write failed\nout.nq: no room in memory\n"),
    ("rdfconv check --explain --format nt --skip bad.nt mixed.nt", Making::NotNamed, 3, false,
        "rdfconv: write failed\nbad.nt: no name in memory\n"),
    ("rdfconv check --explain --format nt --skip bad.nt mixed.nt", Making::NotCreated, 3, false,
        "rdfconv: cannot open file\nbad.nt: not in memory\n"),
    ("rdfconv convert --explain --format nt -o out.nq --skip bad.nt mixed.nt", Making::NotCreated, 3, false,
        "rdfconv: cannot open file\nout.nq: not in memory\n"),
    ("rdfconv check --explain --format nt --skip bad.nt broken.nt", Making::Works, 3, true,
        "rdfconv: read failed\nbroken.nt: broken off\n"),
    ("rdfconv check --explain --format nt --skip bad.nt --prefixes bad.txt mixed.nt", Making::Works, 2, false,
        "rdfconv: bad prefixes at line 2\nbad.txt:2: bad prefixes\n"),
];

/// The words of runs whose output takes no byte, and what is reported.
#[rattlefmt::skip]
pub(crate) static UNWRITTEN: [(&str, &str); 5] = [
    ("rdfconv convert data.nt", "rdfconv: write failed\n"),
    ("rdfconv convert --explain data.nt", "rdfconv: write failed\nstandard output: no room in memory\n"),
    ("rdfconv check data.nt data.nt", "data.nt: write failed\n"),
    ("rdfconv check --explain data.nt data.nt", "data.nt: write failed\nstandard output: no room in memory\n"),
    ("rdfconv convert --explain --format nt --skip bad.nt mixed.nt",
        "rdfconv: write failed\nstandard output: no room in memory\n"),
];
