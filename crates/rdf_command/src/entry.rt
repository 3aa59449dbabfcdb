// The whole program, over what it is started with.

ghost use Rattle.std.specs.Prelude.{◌≡◌, ◌⊎◌, ◌≤◌, false, IfErr, IfOk, IfSome, List, map, Option, option_map, Some};
ghost use Rattle.std.specs.Prelude.{string_bytes, ℕ};
ghost use Rattle.clap.specs.Words.{Text};
ghost use Rattle.rdf_iri.specs.Scope.{BaseFits};
ghost use Rattle.std.specs.Result.{IsErrOf};
ghost use Rattle.rdf_iri.specs.Texts.{byte_len};
ghost use Rattle.rdf_command.specs.Addresses.{IsAddress, LacksAddress};
ghost use Rattle.rdf_command.specs.RunSteps.{IsOfIri};
ghost use Rattle.rdf_command.specs.Programs.{HasPrefixes, HostEnds, IsGiven, IsNotGiven, IsNoTaskOf, IsTaskOf};
ghost use Rattle.rdf_command.specs.Programs.{IsToldBy, OneEnds, OneEndsAt, TaskEnds, file_of, folders_of, outputs_of};
ghost use Rattle.rdf_command.specs.Programs.{prefixes_of, shut_of};
ghost use Rattle.rdf_command.specs.Reasons.{devices_of, drain_tells};
ghost use Rattle.rdf_command.specs.Runs.{AreFresh, AsWritten, files_told};
ghost use Rattle.rdf_command.specs.Words.{SkipFits};

use crate::addresses::address_within;
use crate::commands::{command_of, lines_for, name_by, not_utf8};
use crate::explains::Explains;
use crate::host::{Host, NoFolder, NoWords, NotOpen};
use crate::output::run_over;
use crate::reasons::refuse_file;
use crate::reports::{Refusal, refuse_address, refuse_task};
use crate::runs::Files;
use crate::several::check_each;
use crate::task::{Task, WordsFault};
use rdf_stream::{Drain, Iri, TermFault};
use std::alloc::{AllocError, Global};

/// How the program ended.
#[derive(Drop)]
pub struct Ended<I> {
    /// The status.
    pub status: u8,
    /// What it read, where its task names one document and all that it names was opened.
    pub files: Option<Files<I>>,
}

/// Does what the words ask for, and answers the status, with the files that it read for one document.
pub fn start<H: Host, O: Drain + Explains, E: Drain>(
    alloc: Global,
    host: &H,
    out: &mut O,
    err: &mut E,
) -> Ended<H::Input>
    requires out { O.has_failed out.old ≡ false }
    requires err { E.has_failed err.old ≡ false }
    ensures { AsWritten (HostEnds H.Host host.now (devices_of H.Input.Source H.Input.Explains O.Drain O.Explains)
        (drain_tells H.Output.Drain H.Output.Explains)
        (option_map (files_told H.Input.Source) result.files)) result.status
        O.Drain E.Drain out.old out.new err.old err.new }
{
    match task_of(alloc, host) {
        Ok(task) => run_task(alloc, task, host, out, err),
        Err(refusal) => Ended {
            status: refuse_task(alloc, &refusal, out, err),
            files: None,
        },
    }
}

// The task of the command line. A word that is no UTF-8 makes it no command.
fn task_of<H: Host>(alloc: Global, host: &H) -> Result<Task, Refusal>
    ensures base { IfOk result (λ task. BaseFits task.base task.limits) }
    ensures skip { IfOk result SkipFits }
    ensures task { IfOk result (IsGiven (H.has_words host.now)) }
    ensures refused { IfErr result (λ refusal.
        (lines : Option (List ℕ)) × IsNotGiven (H.has_words host.now) (H.has_bad_word host.now) refusal.fault lines
        × IfSome refusal.lines (λ told. lines ≡ Some told.items)) }
    ensures lines { IfErr result (λ refusal. IfSome refusal.lines (λ _. IsOfIri refusal.fault)) }
{
    let words = match host.words(alloc) {
        Ok(words) => words,
        Err(NoWords::NotUtf8) => return Err(Refusal::unexplained(not_utf8(alloc))),
        Err(NoWords::Memory) => return Err(Refusal::unexplained(WordsFault::Memory)),
    };
    match texts_of(alloc, words.as_slice()) {
        Ok(texts) => task_in(alloc, texts.as_slice()),
        Err(AllocError) => Err(Refusal::unexplained(WordsFault::Memory)),
    }
}

// The task of a command line of these words.
fn task_in<'a>(alloc: Global, words: &'a [&'a str]) -> Result<Task, Refusal>
    ensures base { IfOk result (λ task. BaseFits task.base task.limits) }
    ensures skip { IfOk result SkipFits }
    ensures task { IfOk result (IsTaskOf (map (λ s. s.now) words.entry.now)) }
    ensures refused { IfErr result (λ refusal.
        (lines : Option (List ℕ)) × IsNoTaskOf (map (λ s. s.now) words.entry.now) refusal.fault
        × IsToldBy (map (λ s. s.now) words.entry.now) refusal.fault lines
        × IfSome refusal.lines (λ told. lines ≡ Some told.items)) }
    ensures lines { IfErr result (λ refusal. IfSome refusal.lines (λ _. IsOfIri refusal.fault)) }
{
    match command_of(alloc, words) {
        Ok(task) => Ok(task),
        Err(fault) => {
            let lines = lines_for(alloc, words, &fault);
            Err(Refusal { fault, lines })
        }
    }
}

fn texts_of(alloc: Global, words: &[String]) -> Result<Vec<&str>, AllocError>
    ensures { IfOk result (λ texts. map (λ text. text.now) texts.items ≡ map string_bytes words.now) }
{
    words.iter().map(|word| word.as_str()).collect(alloc)
}

fn run_task<H: Host, O: Drain + Explains, E: Drain>(
    alloc: Global,
    task: Task,
    host: &H,
    out: &mut O,
    err: &mut E,
) -> Ended<H::Input>
    requires base { BaseFits task.base task.limits }
    requires skip { SkipFits task }
    requires out { O.has_failed out.old ≡ false }
    requires err { E.has_failed err.old ≡ false }
    ensures { AsWritten (TaskEnds (folders_of H.Host host.now) (H.has_document host.now)
        (shut_of H.Host host.now (devices_of H.Input.Source H.Input.Explains O.Drain O.Explains))
        (outputs_of H.Host host.now (drain_tells H.Output.Drain H.Output.Explains)) task
        (option_map (files_told H.Input.Source) result.files)) result.status
        O.Drain E.Drain out.old out.new err.old err.new }
{
    if task.more.as_slice().is_empty() {
        return run_alone(alloc, task, host, out, err);
    }
    Ended {
        status: check_each(alloc, &task, host, out, err),
        files: None,
    }
}

// Runs a task over its document, the only one, whose address is its base where that is asked for.
fn run_alone<H: Host, O: Drain + Explains, E: Drain>(
    alloc: Global,
    task: Task,
    host: &H,
    out: &mut O,
    err: &mut E,
) -> Ended<H::Input>
    requires base { BaseFits task.base task.limits }
    requires skip { SkipFits task }
    requires out { O.has_failed out.old ≡ false }
    requires err { E.has_failed err.old ≡ false }
    ensures { AsWritten (OneEndsAt task.addressed (folders_of H.Host host.now) (H.has_document host.now)
        (shut_of H.Host host.now (devices_of H.Input.Source H.Input.Explains O.Drain O.Explains))
        (outputs_of H.Host host.now (drain_tells H.Output.Drain H.Output.Explains))
        task (option_map (files_told H.Input.Source) result.files)) result.status
        O.Drain E.Drain out.old out.new err.old err.new }
{
    if !task.addressed {
        return run_one(alloc, task, host, out, err);
    }
    let mut task = task;
    match address_at(alloc, host, task.file.as_deref(), task.limits.iri()) {
        Ok(base) => {
            task.base = Some(base);
            run_one(alloc, task, host, out, err)
        }
        Err(fault) => Ended {
            status: refuse_address(fault, err),
            files: None,
        },
    }
}

// The address of the file of this name as a base of at most so many bytes.
fn address_at<H: Host>(
    alloc: Global,
    host: &H,
    file: Option<&str>,
    most: u64,
) -> Result<Iri, TermFault>
    ensures address { IfOk result (λ base. (folder : Text) × H.has_folder host.now folder
        × IsAddress most folder (option_map (λ s. s.now) file.entry) base) }
    ensures fits { IfOk result (λ base. byte_len base ≤ most) }
    ensures none { IsErrOf result TermFault.BadTerm →
        LacksAddress (folders_of H.Host host.now) most (option_map (λ s. s.now) file.entry) }
{
    let folder = folder_of(alloc, host)?;
    address_within(alloc, folder.as_str(), file, most)
}

/// The path of the folder that names start from.
pub fn folder_of<H: Host>(alloc: Global, host: &H) -> Result<String, TermFault>
    ensures folder { IfOk result (λ folder. H.has_folder host.now (string_bytes folder)) }
    ensures untold { IsErrOf result TermFault.BadTerm → H.has_no_folder host.now }
{
    match host.folder(alloc) {
        Ok(folder) => Ok(folder),
        Err(NoFolder::NotTold) => Err(TermFault::BadTerm),
        Err(NoFolder::Memory) => Err(TermFault::Memory),
    }
}

// Runs a task over its document, the only one.
fn run_one<H: Host, O: Drain + Explains, E: Drain>(
    alloc: Global,
    task: Task,
    host: &H,
    out: &mut O,
    err: &mut E,
) -> Ended<H::Input>
    requires base { BaseFits task.base task.limits }
    requires skip { SkipFits task }
    requires out { O.has_failed out.old ≡ false }
    requires err { E.has_failed err.old ≡ false }
    ensures { AsWritten (OneEnds (H.has_document host.now)
        (shut_of H.Host host.now (devices_of H.Input.Source H.Input.Explains O.Drain O.Explains))
        (outputs_of H.Host host.now (drain_tells H.Output.Drain H.Output.Explains)) task
        (option_map (files_told H.Input.Source) result.files)) result.status
        O.Drain E.Drain out.old out.new err.old err.new }
{
    match open_files(host, &task) {
        Ok(files) => run_over(alloc, task, host, files, out, err),
        Err(name) => Ended {
            status: refuse_file(alloc, host, name, task.explain, err),
            files: None,
        },
    }
}

// Opens the files of a task, that of the bindings first. The name of one that does not open is given back.
fn open_files<'a, H: Host>(host: &H, task: &'a Task) -> Result<Files<H::Input>, &'a str>
    ensures prefixes { IfOk result (λ files.
        HasPrefixes (H.has_document host.now) (prefixes_of task.now) (option_map H.Input.remaining files.prefixes)) }
    ensures document { IfOk result (λ files.
        H.has_document host.now (file_of task.now) (H.Input.remaining files.document)) }
    ensures fresh { IfOk result (AreFresh H.Input.has_ended H.Input.has_failed) }
    ensures shut { IfErr result (λ name. ((prefixes_of task.now ≡ Some name.now) ⊎ (file_of task.now ≡ Some name.now))
        × H.is_shut host.now name.now) }
{
    let prefixes = match open_prefixes(host, task) {
        Ok(prefixes) => prefixes,
        Err(name) => return Err(name),
    };
    match open_named(host, task.file.as_deref()) {
        Ok(document) => Ok(Files { prefixes, document }),
        Err(name) => Err(name),
    }
}

// Opens the file of this name, or standard input, and gives back the name of a file that does not open.
fn open_named<'a, H: Host>(host: &H, file: Option<&'a str>) -> Result<H::Input, &'a str>
    ensures opened { IfOk result (λ input.
        H.has_document host.now (option_map (λ s. s.now) file.entry) (H.Input.remaining input)) }
    ensures more { IfOk result (λ input. H.Input.has_ended input ≡ false) }
    ensures live { IfOk result (λ input. H.Input.has_failed input ≡ false) }
    ensures shut { IfErr result (λ name.
        (option_map (λ s. s.now) file.entry ≡ Some name.now) × H.is_shut host.now name.now) }
{
    match host.open(file) {
        Ok(input) => Ok(input),
        Err(NotOpen) => Err(name_by(file)),
    }
}

/// Opens the file of bindings, where the task names one. Its name is given back where it does not open.
pub fn open_prefixes<'a, H: Host>(host: &H, task: &'a Task) -> Result<Option<H::Input>, &'a str>
    ensures opened { IfOk result (λ prefixes.
        HasPrefixes (H.has_document host.now) (prefixes_of task.now) (option_map H.Input.remaining prefixes)) }
    ensures fresh { IfOk result (λ prefixes.
        IfSome prefixes (λ s. (H.Input.has_ended s ≡ false) × (H.Input.has_failed s ≡ false))) }
    ensures shut { IfErr result (λ name. (prefixes_of task.now ≡ Some name.now) × H.is_shut host.now name.now) }
{
    match task.prefixes.as_deref() {
        Some(path) => match open_named(host, Some(path)) {
            Ok(input) => Ok(Some(input)),
            Err(name) => Err(name),
        },
        None => Ok(None),
    }
}
