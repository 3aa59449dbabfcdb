// The whole texts of help, and of words that are no task.

/// What `rdfconv --help` writes.
pub(crate) const HELP: &str = "\
Read N-Triples, N-Quads, Turtle or TriG, and write N-Quads

Usage: rdfconv <COMMAND>

Commands:
  check    Read documents to their ends, and count the quads and bytes of each
  show     Write a line for each token: its offset, its characters and its kind
  convert  Write the quads of a document as lines of N-Quads
  help     Print this message or the help of the given subcommand(s)

Options:
  -h, --help     Print help
  -V, --version  Print version

`check` takes several FILEs, and has a line for each, with its name in front.
Options of a command, which reads FILE, or standard input where there is none or it is `-`:
  --format FORMAT  nt (N-Triples), nq (N-Quads), ttl (Turtle), trig (TriG) [default: trig], or
                   name: the one that the file's name ends in, as `.nt`; it is not guessed unasked
  --base IRI       absolute IRI that relative references start from, at most --iri bytes;
                   without one they are refused; line formats have none; `file` is the
                   address of FILE, as `file:///home/a/x%20y.ttl`; standard input has none
  --token N        characters of one token, 1 to 268435456 [default: 16777216]
  --depth N        brackets and parentheses open at one time, 0 to 1048576 [default: 1024]
  --bindings N     prefixes bound at one time, 0 to 16777216 [default: 65536]
  --iri N          bytes of one IRI, 1 to 268435456 [default: 1048576]
  --explain        after a refusal more lines on standard error: the first as editors read it,
                   `FILE:LINE:COLUMN: REASON`, with what could have stood there; then that line
                   of the document with a caret under the place, and a likely cause; where a
                   file fails, the system's reason
  --prefixes PREFIXES
                   (check, convert) file of prefixes that are bound before the document: a line
                   for each, as `ex: http://example.org/`; line formats have none
  --ascii          (convert) characters above U+007F of strings and IRIs as \\uXXXX or
                   \\UXXXXXXXX; labels of blank nodes have no escapes, and stay as they are
  --node-prefix WORD
                   (convert) WORD, of ASCII letters and digits, in front of the label of each
                   blank node, so that outputs with different words of one length can be joined
  --graph IRI      (convert) absolute IRI of a graph, at most --iri bytes, in which quads of the
                   default graph are written; those of other graphs stay in theirs
  -o, --output OUTPUT
                   (convert) file to write: it is there whole, or is what it was; it is written as
                   OUTPUT.part, which must not be there, and renamed when all is on its device
  --skip BADLINES  (check, convert) with --format nt or nq: file for the bad lines of one document,
                   written as OUTPUT is; the quads are those of the document without these lines,
                   and a line on standard error counts both
Past one of the limits N a document is refused. `show` looks at tokens alone: --base, --depth,
--bindings and --iri have no use there, but a base that is no IRI, or is too long, is reported.

Exit status:
  0  accepted, or help was asked for
  1  refused, with `rdfconv: REASON at byte N, line M` on standard error, or lines in BADLINES
  2  the words are no command, the base or the graph is no IRI or too long, WORD is empty or has
     another character, a file's name ends in no format where it is asked for one, --skip is with
     another format or several FILEs, or a line of PREFIXES is refused, with
     `rdfconv: bad prefixes at line N`
  3  a file does not open or can't be created, or a read or write failed
  4  out of memory
The status of several documents is the greatest of theirs.
";

/// What `rdfconv --version` writes.
pub(crate) const VERSION: &str =
    "rdfconv 1.0.0, proved with rattle-kit-13f logic dac8208d650f15bf\n";

/// The help of a subcommand: its name, and the text in three parts, which are what it begins with, its options and its
/// notes.
pub(crate) type Help = (&'static str, &'static str, &'static str, &'static str);

#[rattlefmt::skip]
pub(crate) static COMMANDS: [Help; 3] = [
    ("check", "\
        Read documents to their ends, and count the quads and bytes of each\n\n\
        Usage: rdfconv check [OPTIONS] [FILE]...\n", CHECK_HELP, CHECK_NOTES),
    ("show", "\
        Write a line for each token: its offset, its characters and its kind\n\n\
        Usage: rdfconv show [OPTIONS] [FILE]\n", SHOW_HELP, SHOW_NOTES),
    ("convert", "Write the quads of a document as lines of N-Quads\n\nUsage: rdfconv convert [OPTIONS] [FILE]\n",
        CONVERT_HELP, CONVERT_NOTES),
];

/// What follows these lines in the help of `check`.
pub(crate) const CHECK_HELP: &str = "
Arguments:
  [FILE]...  Documents to read; without one, or with `-`, standard input

Options:
      --format <FORMAT>      Format: nt N-Triples, nq N-Quads, ttl Turtle, trig TriG, name the one that the file's name ends in [default: trig] [possible values: nt, nq, ttl, trig, name]
      --base <IRI>           Absolute IRI that relative references start from, at most --iri bytes; `file`: the address of FILE; line formats have none
      --token <N>            Characters of one token, 1 to 268435456 [default: 16777216]
      --depth <N>            Brackets and parentheses open at one time, 0 to 1048576 [default: 1024]
      --bindings <N>         Prefixes bound at one time, 0 to 16777216 [default: 65536]
      --iri <N>              Bytes of one IRI, 1 to 268435456 [default: 1048576]
      --explain              After a refusal more lines, for editors and people: its line and column, that line, a likely cause
      --prefixes <PREFIXES>  File of prefixes bound before the document, a line each: `ex: http://example.org/`
      --skip <BADLINES>      File for bad lines of nt or nq, after which the others are read; there whole or not at all
  -h, --help                 Print help
";

/// What follows these lines in the help of `convert`.
pub(crate) const CONVERT_HELP: &str = "
Arguments:
  [FILE]  Document to read; without one, or with `-`, standard input

Options:
      --format <FORMAT>      Format: nt N-Triples, nq N-Quads, ttl Turtle, trig TriG, name the one that the file's name ends in [default: trig] [possible values: nt, nq, ttl, trig, name]
      --base <IRI>           Absolute IRI that relative references start from, at most --iri bytes; `file`: the address of FILE; line formats have none
      --token <N>            Characters of one token, 1 to 268435456 [default: 16777216]
      --depth <N>            Brackets and parentheses open at one time, 0 to 1048576 [default: 1024]
      --bindings <N>         Prefixes bound at one time, 0 to 16777216 [default: 65536]
      --iri <N>              Bytes of one IRI, 1 to 268435456 [default: 1048576]
      --explain              After a refusal more lines, for editors and people: its line and column, that line, a likely cause
      --prefixes <PREFIXES>  File of prefixes bound before the document, a line each: `ex: http://example.org/`
      --ascii                Characters above U+007F of strings and IRIs as \\uXXXX or \\UXXXXXXXX; labels of blank nodes stay
      --node-prefix <WORD>   Word of ASCII letters and digits in front of the label of each blank node
      --graph <IRI>          Absolute IRI of the graph that quads of the default graph are written in, at most --iri bytes
  -o, --output <OUTPUT>      File to write, which is there whole or not at all; without one, or with `-`, standard output
      --skip <BADLINES>      File for bad lines of nt or nq, after which the others are read; there whole or not at all
  -h, --help                 Print help
";

/// What follows these lines in the help of `show`.
pub(crate) const SHOW_HELP: &str = "
Arguments:
  [FILE]  Document to read; without one, or with `-`, standard input

Options:
      --format <FORMAT>  Format: nt N-Triples, nq N-Quads, ttl Turtle, trig TriG, name the one that the file's name ends in [default: trig] [possible values: nt, nq, ttl, trig, name]
      --base <IRI>       Absolute IRI that relative references start from, at most --iri bytes; `file`: the address of FILE; line formats have none
      --token <N>        Characters of one token, 1 to 268435456 [default: 16777216]
      --depth <N>        Brackets and parentheses open at one time, 0 to 1048576 [default: 1024]
      --bindings <N>     Prefixes bound at one time, 0 to 16777216 [default: 65536]
      --iri <N>          Bytes of one IRI, 1 to 268435456 [default: 1048576]
      --explain          After a refusal more lines, for editors and people: its line and column, that line, a likely cause
  -h, --help             Print help
";

/// What ends the help of `show`.
pub(crate) const SHOW_NOTES: &str = "
The format is not guessed from the file's name, unless it is asked for by `--format name`. A token of more than --token
characters is refused. Tokens alone are looked at: --base, --depth, --bindings and --iri have no use here, but a base
that is no IRI, or is too long, is reported.

Exit status:
  0  each token has its line, or help was asked for
  1  refused, with `rdfconv: REASON at byte N, line M` on standard error
  2  the words are no command, the base is no IRI or too long, or the file's name ends in no
     format where it is asked for one
  3  a file does not open, or a read or write failed
  4  out of memory
";

/// What ends the help of `check`.
pub(crate) const CHECK_NOTES: &str = "
The format is not guessed from the file's name, unless it is asked for by `--format name`.
Past one of the limits N a document is refused. Of several FILEs each has a line with its name
in front, on standard output where it is accepted, and else on standard error; after a refusal
the next is read. The status is the greatest of theirs.
With --skip, which takes one FILE of nt or nq, the bad lines go into BADLINES, and a line on
standard error counts them and the quads of the others. BADLINES is there whole, or is what it
was: it is written as BADLINES.part, which must not be there, and renamed at the end.

Exit status:
  0  accepted, or help was asked for
  1  refused, with `rdfconv: REASON at byte N, line M` on standard error, or lines in BADLINES
  2  the words are no command, the base is no IRI or too long, a file's name ends in no format
     where it is asked for one, --skip is with another format or several FILEs, or a line of
     PREFIXES is refused, with `rdfconv: bad prefixes at line N`
  3  a file does not open or can't be created, or a read or write failed
  4  out of memory
";

/// What ends the help of `convert`.
pub(crate) const CONVERT_NOTES: &str = "
The format is not guessed from the file's name, unless it is asked for by `--format name`.
Past one of the limits N a document is refused.
OUTPUT is there whole, or is what it was: it is written as OUTPUT.part, which must not be there, and
renamed when all is on its device. Only a regular file is replaced.
With --skip, which takes nt or nq, what is written are the quads of the document without its bad
lines, which go into BADLINES, written as OUTPUT is. A line on standard error counts both.

Exit status:
  0  accepted, or help was asked for
  1  refused, with `rdfconv: REASON at byte N, line M` on standard error, or lines in BADLINES
  2  the words are no command, the base or the graph is no IRI or too long, WORD is empty or has
     another character, a file's name ends in no format where it is asked for one, --skip is with
     another format, or a line of PREFIXES is refused, with `rdfconv: bad prefixes at line N`
  3  a file does not open or can't be created, or a read or write failed
  4  out of memory
";

/// What is reported of a word that is no UTF-8.
pub(crate) const NOT_UTF8: &str = "\
error: a word is no UTF-8

Usage: rdfconv <COMMAND>

For more information, try '--help'.
";

// What is said of the usage after an error, and where nothing is.
const COMMAND: &str = "Usage: rdfconv <COMMAND>\n\n";

const CHECK: &str = "Usage: rdfconv check [OPTIONS] [FILE]...\n\n";

pub(crate) const SHOW: &str = "Usage: rdfconv show [OPTIONS] [FILE]\n\n";

const CONVERT: &str = "Usage: rdfconv convert [OPTIONS] [FILE]\n\n";

const CONVERT_ASCII: &str = "Usage: rdfconv convert --ascii [FILE]\n\n";

const NO_USAGE: &str = "";

/// The error where no command is named.
const NO_COMMAND: &str =
    "'rdfconv' requires a subcommand but one was not provided\n  [subcommands: check, show, convert, help]";

/// Lines with an option that their command does not take: the line, the option, and what is said of the usage. In a
/// line here and below there is a space between each two words.
pub(crate) static UNEXPECTED: [(&str, &str, &str); 9] = [
    ("rdfconv check --colour x", "--colour", CHECK),
    ("rdfconv show --prefixes ex.txt", "--prefixes", SHOW),
    ("rdfconv check --ascii", "--ascii", CHECK),
    ("rdfconv show --ascii", "--ascii", SHOW),
    ("rdfconv check --node-prefix a", "--node-prefix", CHECK),
    ("rdfconv show --node-prefix=a", "--node-prefix", SHOW),
    ("rdfconv check -o out.nq", "-o", CHECK),
    ("rdfconv check --graph a:g", "--graph", CHECK),
    ("rdfconv show --skip bad.nt", "--skip", SHOW),
];

/// Other lines that are no task: the line, which is empty where there are no words; the error; and what is said of the
/// usage.
#[rattlefmt::skip]
pub(crate) static MISUSED: [(&str, &str, &str); 18] = [
    ("", NO_COMMAND, COMMAND),
    ("rdfconv", NO_COMMAND, COMMAND),
    ("rdfconv delete --format nt", "unrecognized subcommand 'delete'", COMMAND),
    ("rdfconv convert --format xml",
        "invalid value 'xml' for '--format <FORMAT>'\n  [possible values: nt, nq, ttl, trig, name]", NO_USAGE),
    ("rdfconv check --format --help", "\
        a value is required for '--format <FORMAT>' but none was supplied\n  [possible values: nt, nq, \
        ttl, trig, name]", NO_USAGE),
    ("rdfconv convert --format=nt --format=nt", "the argument '--format <FORMAT>' cannot be used multiple times",
        CONVERT),
    ("rdfconv show a.nt b.nt", "unexpected argument 'b.nt' found", SHOW),
    ("rdfconv convert --ascii --ascii", "the argument '--ascii' cannot be used multiple times", CONVERT),
    ("rdfconv convert --ascii=true", "unexpected value 'true' for '--ascii' found; no more were expected",
        CONVERT_ASCII),
    ("rdfconv convert --node-prefix", "a value is required for '--node-prefix <WORD>' but none was supplied", NO_USAGE),
    ("rdfconv convert --node-prefix=a --node-prefix=b",
        "the argument '--node-prefix <WORD>' cannot be used multiple times", CONVERT),
    ("rdfconv convert -o a.nq --output=b.nq", "the argument '--output <OUTPUT>' cannot be used multiple times",
        CONVERT),
    ("rdfconv convert --token=0", "invalid value '0' for '--token <N>': 0 is not in 1..=268435456", NO_USAGE),
    ("rdfconv convert --depth=1048577", "invalid value '1048577' for '--depth <N>': 1048577 is not in 0..=1048576",
        NO_USAGE),
    ("rdfconv convert --bindings=16777217",
        "invalid value '16777217' for '--bindings <N>': 16777217 is not in 0..=16777216", NO_USAGE),
    ("rdfconv convert --iri=18446744073709551615",
        "invalid value '18446744073709551615' for '--iri <N>': 18446744073709551615 is not in 1..=268435456", NO_USAGE),
    ("rdfconv convert --token 18446744073709551616",
        "invalid value '18446744073709551616' for '--token <N>': number too large to fit in target type", NO_USAGE),
    ("rdfconv convert --iri=ten", "invalid value 'ten' for '--iri <N>': invalid digit found in string", NO_USAGE),
];

/// Lines whose words are a command with a text that is refused, and why.
#[rattlefmt::skip]
pub(crate) static REFUSED: [(&str, &str); 15] = [
    ("rdfconv convert --format=nt --base s", "bad base"),
    ("rdfconv convert --format=nt --base ", "bad base"),
    ("rdfconv convert --iri=9 --base=http://a/b", "bad base"),
    ("rdfconv convert --node-prefix a-b", "bad node prefix"),
    ("rdfconv convert --node-prefix é", "bad node prefix"),
    ("rdfconv convert --node-prefix=", "bad node prefix"),
    ("rdfconv convert --graph g", "bad graph"),
    ("rdfconv convert --graph=", "bad graph"),
    ("rdfconv convert --graph a:12345678 --iri 9", "bad graph"),
    ("rdfconv convert --skip bad.nt data.nt", "--skip takes one document of nt or nq"),
    ("rdfconv check --format name --skip=bad.nt a.nt b.nt", "--skip takes one document of nt or nq"),
    ("rdfconv convert --format name data.nt.gz", "no format in the name data.nt.gz"),
    ("rdfconv show --format=name", "no format in the name -"),
    ("rdfconv check --format=name -", "no format in the name -"),
    ("rdfconv check --format=name a.nt b.ttl nt c.trig", "no format in the name nt"),
];
