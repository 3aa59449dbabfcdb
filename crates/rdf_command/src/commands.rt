// The task that the words of the command line ask for.

ghost use Rattle.std.specs.Prelude.{◌≡◌, ◌⊎◌, ◌<◌, ◌≤◌, ◌^◌, IfErr, IfOk, IfSome, OnOk, Some, Option, chars, codes};
ghost use Rattle.std.specs.Prelude.{false, true, cond, map, option_map, string_bytes, ℕ, List};
ghost use Rattle.std.specs.Result.{IsErrOf};
ghost use Rattle.clap.specs.Words.{App, Text, all_of, first_of, found_of, kind_of, rows_of, subcommand_rows_of};
ghost use Rattle.clap.specs.declared.builder.value_parser.ValueParser.{ValueParser};
ghost use Rattle.clap.specs.declared.builder.value_parser.ValueParser.TheVariants.{Names};
ghost use Rattle.rdf_iri.specs.Scope.{BaseFits};
ghost use Rattle.rdf_lines.specs.declared.form.Escapes.TheVariants.{Ascii, Plain};
ghost use Rattle.rdf_iri.specs.Texts.{byte_len};
ghost use Rattle.rdf_options.specs.Options.{rdfconv};
ghost use Rattle.rdf_stream.specs.Skips.{HasLines};
ghost use Rattle.rdf_command.specs.BadIris.{lines_by, lines_for, lines_of};
ghost use Rattle.rdf_command.specs.RunSteps.{IsOfIri};
ghost use Rattle.rdf_command.specs.Programs.{IsTaskOf, IsNoTaskOf, IsToldBy};
ghost use Rattle.rdf_command.specs.Words.{GivesNone, GivesTask, HasSizes, IsBase, IsTaskBy, IsUsageOf, IsWord};
ghost use Rattle.rdf_command.specs.Words.{number_of};
ghost use Rattle.rdf_command.specs.WordSteps.{HasLimits, HasNumber, IsEntered};
ghost use Rattle.rdf_command.specs.Words.{SkipFits, base_by, escapes_by, file_by, is_addressed, is_given};
ghost use Rattle.rdf_command.specs.WordSteps.{NoBaseOf, NoFormOf, NoFormsOf, NoGraphOf, NoSkipOf, NoTaskBy, NoWordOf};
ghost use Rattle.rdf_command.specs.Words.{AreDocuments, CanSkip, IsFormBy, format_names, further_by, further_of};
ghost use Rattle.rdf_command.specs.Words.{name_by};
ghost use Rattle.rdf_command.specs.WordSteps.{IsFormatWord};

use crate::bad_iris::bad_iri_lines;
use crate::names::{FORMATS, action_of, form_by};
use crate::task::{Document, Task, WordsFault};
use clap::error::ErrorKind;
use clap::{ArgMatches, Error};
use rdf_options::program;
use rdf_stream::{Escapes, Form, Iri, Limits, NodePrefix, TermFault};
use std::alloc::{AllocError, Global};

/// The task that the words ask for. The first word is the program's name.
pub fn command_of<'a>(alloc: Global, words: &'a [&'a str]) -> Result<Task, WordsFault>
    ensures base { IfOk result (λ task. BaseFits task.base task.limits) }
    ensures skip { IfOk result SkipFits }
    ensures task { IfOk result (IsTaskOf (map (λ s. s.now) words.entry.now)) }
    ensures refused { IfErr result (IsNoTaskOf (map (λ s. s.now) words.entry.now)) }
{
    command_by(alloc, words, FORMATS.as_slice())
}

/// The fault of a command line with a word that is no UTF-8.
pub fn not_utf8(alloc: Global) -> WordsFault
    ensures { IsUsageOf ErrorKind.InvalidValue result }
{
    match invalid(alloc, "a word is no UTF-8") {
        Ok(error) => WordsFault::from(error),
        Err(error) => WordsFault::from(error),
    }
}

// The error that clap gives, with its usage, where a word is refused for this reason.
fn invalid(alloc: Global, reason: &str) -> Result<Error, AllocError>
    ensures { IfOk result (λ error. kind_of error ≡ ErrorKind.InvalidValue) }
{
    let mut command = program(alloc, FORMATS.as_slice())?;
    let error = command.error(ErrorKind::InvalidValue, reason);
    drop(command);
    error
}

fn command_by<'a>(
    alloc: Global,
    words: &'a [&'a str],
    formats: &'a [&'a str],
) -> Result<Task, WordsFault>
    requires { map (λ s. s.now) formats.now ≡ format_names }
    ensures task { IfOk result (GivesTask (rdfconv (Names formats.entry)) (map (λ s. s.now) words.entry.now)) }
    ensures base { IfOk result (λ task. BaseFits task.base task.limits) }
    ensures skip { IfOk result SkipFits }
    ensures refused { IfErr result (GivesNone (rdfconv (Names formats.entry)) (map (λ s. s.now) words.entry.now)) }
{
    let matches = program(alloc, formats)?.try_get_matches_from(words)?;
    let (name, found) = matches.subcommand().unwrap();
    let task = task_of(alloc, name, found);
    drop(matches);
    task
}

/// The lines that report and explain a fault of the words, where they ask for that and the fault is a text that is
/// no IRI. There are none where memory for them is refused.
pub fn lines_for<'a>(alloc: Global, words: &'a [&'a str], fault: &WordsFault) -> Option<Vec<u8>>
    ensures told { IfSome result (λ lines. IsToldBy (map (λ s. s.now) words.entry.now) fault.now (Some lines.items)) }
    ensures iri { IfSome result (λ _. IsOfIri fault.now) }
{
    match fault {
        WordsFault::BadBase | WordsFault::BadGraph => {
            lines_by(alloc, words, FORMATS.as_slice(), fault).ok()?
        }
        _ => None,
    }
}

// The same by a parse, or the fault of that.
fn lines_by<'a>(
    alloc: Global,
    words: &'a [&'a str],
    formats: &'a [&'a str],
    fault: &WordsFault,
) -> Result<Option<Vec<u8>>, WordsFault>
    requires { map (λ s. s.now) formats.now ≡ format_names }
    ensures { IfOk result (λ lines. option_map (λ l. l.items) lines ≡ lines_for (rdfconv (Names formats.entry))
        (map (λ s. s.now) words.entry.now) fault.now) }
{
    let matches = program(alloc, formats)?.try_get_matches_from(words)?;
    let (_, found) = matches.subcommand().unwrap();
    let lines = lines_in(alloc, found, fault);
    drop(matches);
    Ok(lines?)
}

// The same by the matches of a subcommand.
fn lines_in(
    alloc: Global,
    found: &ArgMatches<'_>,
    fault: &WordsFault,
) -> Result<Option<Vec<u8>>, AllocError>
    requires { HasLimits (rows_of (found_of found.now)) }
    ensures { IfOk result (λ lines.
        option_map (λ l. l.items) lines ≡ lines_by (rows_of (found_of found.now)) fault.now) }
{
    if !is_given(found.get_str("explain")) {
        return Ok(None);
    }
    let most = limit_of(found, "iri");
    match fault {
        WordsFault::BadBase => lines_of(
            alloc,
            b"rdfconv: bad base\n",
            base_by(found.get_str("base")),
            most,
        ),
        WordsFault::BadGraph => {
            lines_of(alloc, b"rdfconv: bad graph\n", found.get_str("graph"), most)
        }
        _ => Ok(None),
    }
}

// The same of this text, where there is one.
fn lines_of(
    alloc: Global,
    line: &[u8],
    text: Option<&str>,
    most: u64,
) -> Result<Option<Vec<u8>>, AllocError>
    ensures { IfOk result (λ lines.
        option_map (λ l. l.items) lines ≡ lines_of line.now (option_map (λ s. s.now) text.entry) (Some most)) }
{
    match text {
        Some(text) => Ok(Some(bad_iri_lines(alloc, line, text, most)?)),
        None => Ok(None),
    }
}

fn task_of(alloc: Global, name: &str, found: &ArgMatches<'_>) -> Result<Task, WordsFault>
    requires { IsEntered (name.now, rows_of (found_of found.now)) }
    ensures task { IfOk result (IsTaskBy (name.now, rows_of (found_of found.now))) }
    ensures base { IfOk result (λ task. BaseFits task.base task.limits) }
    ensures skip { IfOk result SkipFits }
    ensures refused { IfErr result (NoTaskBy (name.now, rows_of (found_of found.now))) }
{
    let action = action_of(name);
    let word = found.get_str("format").unwrap();
    let form = form_in(alloc, word, name_by(found.get_str("file")))?;
    let limits = limits_of(found);
    let base = base_of(alloc, base_by(found.get_str("base")), limits.iri())?;
    let explain = is_given(found.get_str("explain"));
    let escapes = escapes_by(is_given(found.get_str("ascii")));
    let node_prefix = node_prefix_of(alloc, found.get_str("node-prefix"))?;
    let graph = graph_of(alloc, found.get_str("graph"), limits.iri())?;
    let prefixes = owned(alloc, found.get_str("prefixes"))?;
    let file = owned(alloc, file_by(found.get_str("file")))?;
    let output = owned(alloc, file_by(found.get_str("output")))?;
    let addressed = is_addressed(found.get_str("base"));
    let further = further_by(name, found.get_strs("file"));
    let more = documents_of(alloc, word, further)?;
    let skip = skip_of(alloc, form, further, found.get_str("skip"))?;
    Ok(Task {
        action,
        form,
        base,
        addressed,
        limits,
        explain,
        escapes,
        node_prefix,
        graph,
        prefixes,
        file,
        output,
        skip,
        more,
    })
}

// The word for a document, a hyphen where there is none.
pub(crate) fn name_by(word: Option<&str>) -> &str
    ensures { result.now ≡ name_by (option_map (λ s. s.now) word.entry) }
{
    match word {
        Some(word) => word,
        None => "-",
    }
}

// The words for documents of this subcommand after the first.
fn further_by<'a>(name: &str, words: Option<&'a [&'a str]>) -> &'a [&'a str]
    ensures { map (λ s. s.now) result.now ≡ further_by name.now (option_map (λ s. map (λ v. v.now) s.now) words.entry) }
{
    match words {
        Some(words) if name == "check" && !words.is_empty() => &words[1..],
        _ => &[],
    }
}

// The documents of these names, by a word for formats.
fn documents_of(alloc: Global, word: &str, names: &[&str]) -> Result<Vec<Document>, WordsFault>
    requires { IsFormatWord word.now }
    ensures documents { IfOk result (λ ds. AreDocuments word.now (map (λ s. s.now) names.now) (further_of ds.items)) }
    ensures refused { IfErr result (NoFormsOf word.now (map (λ s. s.now) names.now)) }
{
    let mut documents = Vec::new(alloc);
    for name in names {
        let document = document_of(alloc, word, name)?;
        match documents.push(document) {
            Ok(()) => {}
            Err(_) => return Err(WordsFault::Memory),
        }
    }
    Ok(documents)
}

fn document_of(alloc: Global, word: &str, name: &str) -> Result<Document, WordsFault>
    requires { IsFormatWord word.now }
    ensures form { IfOk result (λ d. IsFormBy word.now name.now d.form) }
    ensures name { IfOk result (λ d. string_bytes d.name ≡ name.now) }
    ensures refused { IfErr result (NoFormOf word.now name.now) }
{
    let form = form_in(alloc, word, name)?;
    let name = String::from_str(alloc, name)?;
    Ok(Document { form, name })
}

// The format of a document of this name, by a word for formats.
fn form_in(alloc: Global, word: &str, name: &str) -> Result<Form, WordsFault>
    requires { IsFormatWord word.now }
    ensures form { IfOk result (IsFormBy word.now name.now) }
    ensures refused { IfErr result (NoFormOf word.now name.now) }
{
    match form_by(word, name) {
        Some(form) => Ok(form),
        None => Err(WordsFault::NoFormat(String::from_str(alloc, name)?)),
    }
}

// The file that a word names: none where there is no word, or where it is `-`, which stands for the standard stream.
fn file_by(text: Option<&str>) -> Option<&str>
    ensures { option_map (λ s. s.now) result ≡ file_by (option_map (λ s. s.now) text.entry) }
{
    match text {
        Some(text) => named(text),
        None => None,
    }
}

pub(crate) fn named(text: &str) -> Option<&str>
    ensures { option_map (λ s. s.now) result ≡ file_by (Some text.now) }
{
    if text == "-" { None } else { Some(text) }
}

// Whether a flag is given. It has the text `true` then, and `false` where it is not; a command without it has no text.
fn is_given(text: Option<&str>) -> bool
    ensures { result ≡ is_given (option_map (λ s. s.now) text.entry) }
{
    match text {
        Some(text) => text == "true",
        None => false,
    }
}

fn escapes_by(ascii: bool) -> Escapes
    ensures { result ≡ escapes_by ascii }
{
    if ascii {
        Escapes::Ascii
    } else {
        Escapes::Plain
    }
}

fn limits_of(found: &ArgMatches<'_>) -> Limits
    requires { HasLimits (rows_of (found_of found.now)) }
    ensures { HasSizes (rows_of (found_of found.now)) result }
{
    let token = limit_of(found, "token");
    let depth = limit_of(found, "depth");
    let bindings = limit_of(found, "bindings");
    let iri = limit_of(found, "iri");
    Limits::new(token, depth, bindings, iri).unwrap()
}

fn limit_of(found: &ArgMatches<'_>, id: &str) -> u64
    requires { (least : ℕ) × (most : ℕ) × HasNumber id.now least most (rows_of (found_of found.now)) }
    ensures { number_of id.now (rows_of (found_of found.now)) ≡ Some result }
{
    found.get_str(id).unwrap().parse::<u64>().unwrap()
}

// Whether the word for the base asks for each document's address.
fn is_addressed(text: Option<&str>) -> bool
    ensures { result ≡ is_addressed (option_map (λ s. s.now) text.entry) }
{
    match text {
        Some(text) => text == "file",
        None => false,
    }
}

// The text of the base that a word names: none where there is no word, or where it asks for addresses.
fn base_by(text: Option<&str>) -> Option<&str>
    ensures { option_map (λ s. s.now) result ≡ base_by (option_map (λ s. s.now) text.entry) }
{
    match text {
        Some(text) => base_named(text),
        None => None,
    }
}

fn base_named(text: &str) -> Option<&str>
    ensures { option_map (λ s. s.now) result ≡ base_by (Some text.now) }
{
    if text == "file" { None } else { Some(text) }
}

fn base_of(alloc: Global, text: Option<&str>, most: u64) -> Result<Option<Iri>, WordsFault>
    ensures base { IfOk result (λ base. base ≡ option_map chars (option_map (λ s. s.now) text.entry)) }
    ensures good { OnOk result (IfSome (option_map (λ s. s.now) text.entry) (IsBase most)) }
    ensures fits { IfOk result (λ base. IfSome base (λ b. byte_len b ≤ most)) }
    ensures bad { IfErr result (NoBaseOf most (option_map (λ s. s.now) text.entry)) }
{
    match text {
        Some(text) => Ok(Some(base_within(alloc, text, most)?)),
        None => Ok(None),
    }
}

fn base_within(alloc: Global, text: &str, most: u64) -> Result<Iri, WordsFault>
    ensures base { IfOk result (λ base. base ≡ chars text.now) }
    ensures good { OnOk result (IsBase most text.now) }
    ensures fits { IfOk result (λ base. byte_len base ≤ most) }
    ensures bad { IfErr result (NoBaseOf most (Some text.now)) }
{
    match iri_within(alloc, text, most) {
        Ok(base) => Ok(base),
        Err(TermFault::BadTerm) => Err(WordsFault::BadBase),
        Err(TermFault::Memory) => Err(WordsFault::Memory),
    }
}

/// The IRI of a text of at most so many bytes.
pub(crate) fn iri_within(alloc: Global, text: &str, most: u64) -> Result<Iri, TermFault>
    ensures iri { IfOk result (λ iri. iri ≡ chars text.now) }
    ensures good { OnOk result (IsBase most text.now) }
    ensures fits { IfOk result (λ iri. byte_len iri ≤ most) }
    ensures bad { IsErrOf result TermFault.BadTerm → ¬ IsBase most text.now }
{
    if text.len() as u64 > most {
        return Err(TermFault::BadTerm);
    }
    Iri::new(alloc, text)
}

fn graph_of(alloc: Global, text: Option<&str>, most: u64) -> Result<Option<Iri>, WordsFault>
    ensures graph { IfOk result (λ graph. graph ≡ option_map chars (option_map (λ s. s.now) text.entry)) }
    ensures good { OnOk result (IfSome (option_map (λ s. s.now) text.entry) (IsBase most)) }
    ensures bad { IfErr result (NoGraphOf most (option_map (λ s. s.now) text.entry)) }
{
    match text {
        Some(text) => Ok(Some(graph_within(alloc, text, most)?)),
        None => Ok(None),
    }
}

fn graph_within(alloc: Global, text: &str, most: u64) -> Result<Iri, WordsFault>
    ensures graph { IfOk result (λ graph. graph ≡ chars text.now) }
    ensures good { OnOk result (IsBase most text.now) }
    ensures bad { IfErr result (NoGraphOf most (Some text.now)) }
{
    match iri_within(alloc, text, most) {
        Ok(graph) => Ok(graph),
        Err(TermFault::BadTerm) => Err(WordsFault::BadGraph),
        Err(TermFault::Memory) => Err(WordsFault::Memory),
    }
}

fn node_prefix_of(alloc: Global, text: Option<&str>) -> Result<Option<NodePrefix>, WordsFault>
    ensures word { IfOk result (λ word. word ≡ option_map chars (option_map (λ s. s.now) text.entry)) }
    ensures good { OnOk result (IfSome (option_map (λ s. s.now) text.entry) IsWord) }
    ensures bad { IfErr result (NoWordOf (option_map (λ s. s.now) text.entry)) }
{
    match text {
        Some(text) => Ok(Some(node_prefix_in(alloc, text)?)),
        None => Ok(None),
    }
}

fn node_prefix_in(alloc: Global, text: &str) -> Result<NodePrefix, WordsFault>
    ensures word { IfOk result (λ word. word ≡ chars text.now) }
    ensures good { OnOk result (IsWord text.now) }
    ensures bad { IfErr result (NoWordOf (Some text.now)) }
{
    if text.is_empty() {
        return Err(WordsFault::BadNodePrefix);
    }
    let word = String::from_str(alloc, text)?;
    match NodePrefix::new(word) {
        Some(prefix) => Ok(prefix),
        None => Err(WordsFault::BadNodePrefix),
    }
}

// The file for bad lines of a document in this format, where these are the names of the documents after it.
fn skip_of(
    alloc: Global,
    form: Form,
    further: &[&str],
    text: Option<&str>,
) -> Result<Option<String>, WordsFault>
    ensures skip { IfOk result (λ skip. option_map string_bytes skip ≡ option_map (λ s. s.now) text.entry) }
    ensures good { OnOk result (IfSome (option_map (λ s. s.now) text.entry) (λ _.
        CanSkip form (map (λ s. s.now) further.now))) }
    ensures lines { IfOk result (λ skip. IfSome skip (λ _. HasLines form)) }
    ensures bad { IfErr result (NoSkipOf form (map (λ s. s.now) further.now) (option_map (λ s. s.now) text.entry)) }
{
    match text {
        Some(text) => Ok(Some(skip_in(alloc, form, further, text)?)),
        None => Ok(None),
    }
}

fn skip_in(alloc: Global, form: Form, further: &[&str], text: &str) -> Result<String, WordsFault>
    ensures skip { IfOk result (λ skip. string_bytes skip ≡ text.now) }
    ensures good { OnOk result (CanSkip form (map (λ s. s.now) further.now)) }
    ensures bad { IfErr result (NoSkipOf form (map (λ s. s.now) further.now) (Some text.now)) }
{
    if !can_skip(form, further) {
        return Err(WordsFault::BadSkip);
    }
    Ok(String::from_str(alloc, text)?)
}

// Whether bad lines can be put aside: of one document, which is read line by line.
fn can_skip(form: Form, further: &[&str]) -> bool
    ensures can { result ≡ true → CanSkip form (map (λ s. s.now) further.now) }
    ensures none { result ≡ false → CanSkip form (map (λ s. s.now) further.now) → ⊥ }
{
    match form {
        Form::NTriples | Form::NQuads => further.is_empty(),
        Form::Turtle | Form::TriG => false,
    }
}

fn owned(alloc: Global, text: Option<&str>) -> Result<Option<String>, AllocError>
    ensures { IfOk result (λ copy. option_map string_bytes copy ≡ option_map (λ s. s.now) text.entry) }
{
    match text {
        Some(text) => Ok(Some(String::from_str(alloc, text)?)),
        None => Ok(None),
    }
}
