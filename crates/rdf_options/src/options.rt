// The command line: its subcommands, their options, and what help says of them.

ghost use Rattle.std.specs.Prelude.{◌≡◌, IfOk, codes};
ghost use Rattle.clap.specs.Words.{App, Rule, app_of, with_subcommand};
ghost use Rattle.clap.specs.declared.builder.value_parser.ValueParser.TheVariants.{Names};
ghost use Rattle.rdf_options.specs.Building.{HasRule, ReadsAs};
ghost use Rattle.rdf_options.specs.Options.{action_app, check_app, convert_app, limit_rule, rdfconv, show_app};
ghost use Rattle.rdf_options.specs.Options.{ascii_rule, base_rule, bindings_rule, depth_rule, explain_rule, file_rule};
ghost use Rattle.rdf_options.specs.Options.{files_rule, format_rule};
ghost use Rattle.rdf_options.specs.Options.{graph_rule, iri_rule, node_prefix_rule, output_rule, prefixes_rule};
ghost use Rattle.rdf_options.specs.Options.{skip_rule, token_rule};

use clap::builder::ValueParser;
use clap::{Arg, ArgAction, Command};
use std::alloc::{AllocError, Global};

/// The version, and the kit that it is proved and built with.
const VERSION: &str = "1.0.0, proved with rattle-kit-13f logic dac8208d650f15bf";

/// What the subcommands do.
const CHECK: &str = "Read documents to their ends, and count the quads and bytes of each";

const SHOW: &str = "Write a line for each token: its offset, its characters and its kind";

const CONVERT: &str = "Write the quads of a document as lines of N-Quads";

/// What stands below the help of the program.
const PROGRAM_NOTES: &str = "\
`check` takes several FILEs, and has a line for each, with its name in front.
Options of a command, which reads FILE, or standard input where there is none or it is `-`:
  --format FORMAT  nt (N-Triples), nq (N-Quads), ttl (Turtle), trig (TriG) [default: trig], or
                   name: the one that the file's name ends in, as `.nt`; it is not guessed unasked
  --base IRI       absolute IRI that relative references start from, at most --iri bytes;
                   without one they are refused; line formats have none; `file` is the
                   address of FILE, as `file:///home/a/x%20y.ttl`; standard input has none
  --token N        characters of one token, 1 to 268435456 [default: 16777216]
  --depth N        brackets and parentheses open at one time, 0 to 1048576 [default: 1024]
  --bindings N     prefixes bound at one time, 0 to 16777216 [default: 65536]
  --iri N          bytes of one IRI, 1 to 268435456 [default: 1048576]
  --explain        after a refusal more lines on standard error: the first as editors read it,
                   `FILE:LINE:COLUMN: REASON`, with what could have stood there; then that line
                   of the document with a caret under the place, and a likely cause; where a
                   file fails, the system's reason
  --prefixes PREFIXES
                   (check, convert) file of prefixes that are bound before the document: a line
                   for each, as `ex: http://example.org/`; line formats have none
  --ascii          (convert) characters above U+007F of strings and IRIs as \\uXXXX or
                   \\UXXXXXXXX; labels of blank nodes have no escapes, and stay as they are
  --node-prefix WORD
                   (convert) WORD, of ASCII letters and digits, in front of the label of each
                   blank node, so that outputs with different words of one length can be joined
  --graph IRI      (convert) absolute IRI of a graph, at most --iri bytes, in which quads of the
                   default graph are written; those of other graphs stay in theirs
  -o, --output OUTPUT
                   (convert) file to write: it is there whole, or is what it was; it is written as
                   OUTPUT.part, which must not be there, and renamed when all is on its device
  --skip BADLINES  (check, convert) with --format nt or nq: file for the bad lines of one document,
                   written as OUTPUT is; the quads are those of the document without these lines,
                   and a line on standard error counts both
Past one of the limits N a document is refused. `show` looks at tokens alone: --base, --depth,
--bindings and --iri have no use there, but a base that is no IRI, or is too long, is reported.

Exit status:
  0  accepted, or help was asked for
  1  refused, with `rdfconv: REASON at byte N, line M` on standard error, or lines in BADLINES
  2  the words are no command, the base or the graph is no IRI or too long, WORD is empty or has
     another character, a file's name ends in no format where it is asked for one, --skip is with
     another format or several FILEs, or a line of PREFIXES is refused, with
     `rdfconv: bad prefixes at line N`
  3  a file does not open or can't be created, or a read or write failed
  4  out of memory
The status of several documents is the greatest of theirs.";

/// What stands below the help of `check`.
const CHECK_NOTES: &str = "\
The format is not guessed from the file's name, unless it is asked for by `--format name`.
Past one of the limits N a document is refused. Of several FILEs each has a line with its name
in front, on standard output where it is accepted, and else on standard error; after a refusal
the next is read. The status is the greatest of theirs.
With --skip, which takes one FILE of nt or nq, the bad lines go into BADLINES, and a line on
standard error counts them and the quads of the others. BADLINES is there whole, or is what it
was: it is written as BADLINES.part, which must not be there, and renamed at the end.

Exit status:
  0  accepted, or help was asked for
  1  refused, with `rdfconv: REASON at byte N, line M` on standard error, or lines in BADLINES
  2  the words are no command, the base is no IRI or too long, a file's name ends in no format
     where it is asked for one, --skip is with another format or several FILEs, or a line of
     PREFIXES is refused, with `rdfconv: bad prefixes at line N`
  3  a file does not open or can't be created, or a read or write failed
  4  out of memory";

/// What stands below the help of `convert`.
const CONVERT_NOTES: &str = "\
The format is not guessed from the file's name, unless it is asked for by `--format name`.
Past one of the limits N a document is refused.
OUTPUT is there whole, or is what it was: it is written as OUTPUT.part, which must not be there, and
renamed when all is on its device. Only a regular file is replaced.
With --skip, which takes nt or nq, what is written are the quads of the document without its bad
lines, which go into BADLINES, written as OUTPUT is. A line on standard error counts both.

Exit status:
  0  accepted, or help was asked for
  1  refused, with `rdfconv: REASON at byte N, line M` on standard error, or lines in BADLINES
  2  the words are no command, the base or the graph is no IRI or too long, WORD is empty or has
     another character, a file's name ends in no format where it is asked for one, --skip is with
     another format, or a line of PREFIXES is refused, with `rdfconv: bad prefixes at line N`
  3  a file does not open or can't be created, or a read or write failed
  4  out of memory";

/// What stands below the help of `show`.
const SHOW_NOTES: &str = "\
The format is not guessed from the file's name, unless it is asked for by `--format name`. A token of more than --token
characters is refused. Tokens alone are looked at: --base, --depth, --bindings and --iri have no use here, but a base
that is no IRI, or is too long, is reported.

Exit status:
  0  each token has its line, or help was asked for
  1  refused, with `rdfconv: REASON at byte N, line M` on standard error
  2  the words are no command, the base is no IRI or too long, or the file's name ends in no
     format where it is asked for one
  3  a file does not open, or a read or write failed
  4  out of memory";

/// An option whose value is a number.
#[derive(Clone, Copy)]
struct Limit<'a> {
    name: &'a str,
    least: u64,
    most: u64,
    /// The number where the option is not given.
    default: &'a str,
    help: &'a str,
}

/// The name of a subcommand, and what its help says: of what it does, and below its options.
#[derive(Clone, Copy)]
struct About<'a> {
    name: &'a str,
    about: &'a str,
    notes: &'a str,
}

/// The whole command line, where these are the words for formats.
pub fn program<'a>(alloc: Global, formats: &'a [&'a str]) -> Result<Command<'a>, AllocError>
    ensures { IfOk result (λ c. app_of c ≡ rdfconv (Names formats.entry)) }
{
    let command = Command::new(alloc, "rdfconv")
        .about("Read N-Triples, N-Quads, Turtle or TriG, and write N-Quads")
        .version(VERSION)
        .after_help(PROGRAM_NOTES)
        .subcommand_required(true);
    let command = add_action(command, check_command(alloc, formats))?;
    let command = add_action(command, show_command(alloc, formats))?;
    add_action(command, convert_command(alloc, formats))
}

// The command with one more subcommand, if there was memory to make that.
fn add_action<'a>(
    command: Command<'a>,
    action: Result<Command<'a>, AllocError>,
) -> Result<Command<'a>, AllocError>
    ensures { (a b : App) → app_of command.entry ≡ a → IfOk action.entry (λ c. ReadsAs c b) →
        IfOk result (λ c. app_of c ≡ with_subcommand a b.top) }
{
    match action {
        Ok(action) => command.subcommand(action),
        Err(AllocError) => Err(AllocError),
    }
}

// The subcommand that counts what documents bring.
fn check_command<'a>(alloc: Global, formats: &'a [&'a str]) -> Result<Command<'a>, AllocError>
    ensures { IfOk result (λ c. ReadsAs c (check_app (Names formats.entry))) }
{
    let about = About {
        name: "check",
        about: CHECK,
        notes: CHECK_NOTES,
    };
    let command = action_command(alloc, about, formats, files_argument(alloc))?;
    let command = command.arg(prefixes_option(alloc))?;
    command.arg(skip_option(alloc))
}

// The subcommand that shows tokens.
fn show_command<'a>(alloc: Global, formats: &'a [&'a str]) -> Result<Command<'a>, AllocError>
    ensures { IfOk result (λ c. ReadsAs c (show_app (Names formats.entry))) }
{
    let about = About {
        name: "show",
        about: SHOW,
        notes: SHOW_NOTES,
    };
    action_command(alloc, about, formats, file_argument(alloc))
}

// The subcommand that writes quads.
fn convert_command<'a>(alloc: Global, formats: &'a [&'a str]) -> Result<Command<'a>, AllocError>
    ensures { IfOk result (λ c. ReadsAs c (convert_app (Names formats.entry))) }
{
    let about = About {
        name: "convert",
        about: CONVERT,
        notes: CONVERT_NOTES,
    };
    let command = action_command(alloc, about, formats, file_argument(alloc))?;
    let command = command.arg(prefixes_option(alloc))?;
    let command = command.arg(ascii_option(alloc))?;
    let command = command.arg(node_prefix_option(alloc))?;
    let command = command.arg(graph_option(alloc))?;
    let command = command.arg(output_option(alloc))?;
    command.arg(skip_option(alloc))
}

// A subcommand with the options that all have, and the argument of what it reads.
fn action_command<'a>(
    alloc: Global,
    about: About<'a>,
    formats: &'a [&'a str],
    reads: Arg<'a>,
) -> Result<Command<'a>, AllocError>
    ensures { (r : Rule) → HasRule reads.entry r →
        IfOk result (λ c. ReadsAs c (action_app (Names formats.entry) r about.entry.name.now)) }
{
    let arguments = vec![in alloc;
        format_option(alloc, formats),
        base_option(alloc),
        token_option(alloc),
        depth_option(alloc),
        bindings_option(alloc),
        iri_option(alloc),
        explain_option(alloc),
        reads,
    ]?;
    Command::new(alloc, about.name)
        .about(about.about)
        .after_help(about.notes)
        .args(arguments)
}

fn format_option<'a>(alloc: Global, formats: &'a [&'a str]) -> Arg<'a>
    ensures { HasRule result (format_rule (Names formats.entry)) }
{
    Arg::new(alloc, "format")
        .long("format")
        .action(ArgAction::Set)
        .value_name("FORMAT")
        .help(
            "Format: nt N-Triples, nq N-Quads, ttl Turtle, trig TriG, name the one that the file's name ends in",
        )
        .value_parser(formats)
        .default_value("trig")
}

fn base_option<'a>(alloc: Global) -> Arg<'a>
    ensures { HasRule result base_rule }
{
    Arg::new(alloc, "base")
        .long("base")
        .action(ArgAction::Set)
        .value_name("IRI")
        .help(
            "Absolute IRI that relative references start from, at most --iri bytes; `file`: the address of FILE; line formats have none",
        )
}

fn token_option<'a>(alloc: Global) -> Arg<'a>
    ensures { HasRule result token_rule }
{
    limit_option(
        alloc,
        Limit {
            name: "token",
            least: 1,
            most: 268435456,
            default: "16777216",
            help: "Characters of one token, 1 to 268435456",
        },
    )
}

fn depth_option<'a>(alloc: Global) -> Arg<'a>
    ensures { HasRule result depth_rule }
{
    limit_option(
        alloc,
        Limit {
            name: "depth",
            least: 0,
            most: 1048576,
            default: "1024",
            help: "Brackets and parentheses open at one time, 0 to 1048576",
        },
    )
}

fn bindings_option<'a>(alloc: Global) -> Arg<'a>
    ensures { HasRule result bindings_rule }
{
    limit_option(
        alloc,
        Limit {
            name: "bindings",
            least: 0,
            most: 16777216,
            default: "65536",
            help: "Prefixes bound at one time, 0 to 16777216",
        },
    )
}

fn iri_option<'a>(alloc: Global) -> Arg<'a>
    ensures { HasRule result iri_rule }
{
    limit_option(
        alloc,
        Limit {
            name: "iri",
            least: 1,
            most: 268435456,
            default: "1048576",
            help: "Bytes of one IRI, 1 to 268435456",
        },
    )
}

fn explain_option<'a>(alloc: Global) -> Arg<'a>
    ensures { HasRule result explain_rule }
{
    Arg::new(alloc, "explain")
        .long("explain")
        .action(ArgAction::SetTrue)
        .help(
            "After a refusal more lines, for editors and people: its line and column, that line, a likely cause",
        )
}

fn limit_option<'a>(alloc: Global, limit: Limit<'a>) -> Arg<'a>
    ensures { HasRule result (limit_rule limit.entry.name.now limit.entry.least limit.entry.most
        limit.entry.default.now) }
{
    Arg::new(alloc, limit.name)
        .long(limit.name)
        .action(ArgAction::Set)
        .value_name("N")
        .help(limit.help)
        .value_parser(ValueParser::unsigned(limit.least, limit.most))
        .default_value(limit.default)
}

fn prefixes_option<'a>(alloc: Global) -> Arg<'a>
    ensures { HasRule result prefixes_rule }
{
    Arg::new(alloc, "prefixes")
        .long("prefixes")
        .action(ArgAction::Set)
        .value_name("PREFIXES")
        .help("File of prefixes bound before the document, a line each: `ex: http://example.org/`")
}

fn ascii_option<'a>(alloc: Global) -> Arg<'a>
    ensures { HasRule result ascii_rule }
{
    Arg::new(alloc, "ascii")
        .long("ascii")
        .action(ArgAction::SetTrue)
        .help(
            "Characters above U+007F of strings and IRIs as \\uXXXX or \\UXXXXXXXX; labels of blank nodes stay",
        )
}

fn node_prefix_option<'a>(alloc: Global) -> Arg<'a>
    ensures { HasRule result node_prefix_rule }
{
    Arg::new(alloc, "node-prefix")
        .long("node-prefix")
        .action(ArgAction::Set)
        .value_name("WORD")
        .help("Word of ASCII letters and digits in front of the label of each blank node")
}

fn graph_option<'a>(alloc: Global) -> Arg<'a>
    ensures { HasRule result graph_rule }
{
    Arg::new(alloc, "graph")
        .long("graph")
        .action(ArgAction::Set)
        .value_name("IRI")
        .help(
            "Absolute IRI of the graph that quads of the default graph are written in, at most --iri bytes",
        )
}

fn output_option<'a>(alloc: Global) -> Arg<'a>
    ensures { HasRule result output_rule }
{
    Arg::new(alloc, "output")
        .short('o')
        .long("output")
        .action(ArgAction::Set)
        .value_name("OUTPUT")
        .help(
            "File to write, which is there whole or not at all; without one, or with `-`, standard output",
        )
}

fn skip_option<'a>(alloc: Global) -> Arg<'a>
    ensures { HasRule result skip_rule }
{
    Arg::new(alloc, "skip")
        .long("skip")
        .action(ArgAction::Set)
        .value_name("BADLINES")
        .help(
            "File for bad lines of nt or nq, after which the others are read; there whole or not at all",
        )
}

fn file_argument<'a>(alloc: Global) -> Arg<'a>
    ensures { HasRule result file_rule }
{
    Arg::new(alloc, "file")
        .action(ArgAction::Set)
        .value_name("FILE")
        .help("Document to read; without one, or with `-`, standard input")
}

fn files_argument<'a>(alloc: Global) -> Arg<'a>
    ensures { HasRule result files_rule }
{
    Arg::new(alloc, "file")
        .action(ArgAction::Append)
        .value_name("FILE")
        .help("Documents to read; without one, or with `-`, standard input")
}
