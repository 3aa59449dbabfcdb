// What the program is started with, and the process that starts it.

ghost use Rattle.std.specs.Prelude.{◌≡◌, false, true, IfErr, IfOk, List, is_some, map, None, OnErr, OnOk, Option};
ghost use Rattle.std.specs.Prelude.{option_map, Some, string_bytes, ℕ, ⊤};
ghost use Rattle.clap.specs.Words.{Text};
ghost use Rattle.rdf_command.specs.Outputs.{IsEmpty};
ghost use Rattle.rdf_command.specs.Reasons.{OneTells};
ghost use Rattle.rdf_command.specs.declared.host.NoFolder.{NoFolder};
ghost use Rattle.rdf_command.specs.declared.host.NoOutput.{NoOutput};
ghost use Rattle.rdf_command.specs.declared.host.NoWords.{NoWords};

use crate::explains::Explains;
use rdf_stream::{Drain, Failed, In, Out, Source};
use std::alloc::{AllocError, Global};
use std::cell::Cell;
use std::fs::File;
use std::io::{Error, ErrorKind, Read, Stdin, Stdout, Write};
use std::{env, fs, io};

/// Why there are no words.
#[derive(Clone, Copy, Debug, PartialEq, Eq)]
pub enum NoWords {
    /// One of them is no UTF-8.
    NotUtf8,
    /// A growth of memory was refused.
    Memory,
}

impl From<AllocError> for NoWords {
    ghost from_gives = { λ _ why. why ≡ NoWords.Memory };

    fn from(_: AllocError) -> NoWords {
        NoWords::Memory
    }
}

/// A file did not open.
#[derive(Clone, Copy, Debug, PartialEq, Eq)]
pub struct NotOpen;

/// Why there is no folder that names start from.
#[derive(Clone, Copy, Debug, PartialEq, Eq)]
pub enum NoFolder {
    /// It can't be told, or its path is no UTF-8.
    NotTold,
    /// A growth of memory was refused.
    Memory,
}

impl From<AllocError> for NoFolder {
    ghost from_gives = { λ _ why. why ≡ NoFolder.Memory };

    fn from(_: AllocError) -> NoFolder {
        NoFolder::Memory
    }
}

/// Why there is no output.
#[derive(Clone, Copy, Debug, PartialEq, Eq)]
pub enum NoOutput {
    /// It could not be created.
    NotOpen,
    /// A growth of memory was refused.
    Memory,
}

impl From<AllocError> for NoOutput {
    ghost from_gives = { λ _ why. why ≡ NoOutput.Memory };

    fn from(_: AllocError) -> NoOutput {
        NoOutput::Memory
    }
}

/// None tells nothing.
impl<D: Explains> Explains for Option<D> {
    ghost tells = { λ s why. OneTells D.tells s why };

    fn reason(&self, alloc: Global) -> Option<String> {
        match self {
            Some(device) => device.reason(alloc),
            None => None,
        }
    }
}

impl<R: Read> Explains for In<R> {
    ghost tells = { λ s why. s.has_failed ≡ false → why ≡ None };

    fn reason(&self, alloc: Global) -> Option<String> {
        words_of(alloc, self.error())
    }
}

impl<W: Write> Explains for Out<W> {
    ghost tells = { λ s why. s.has_failed ≡ false → why ≡ None };

    fn reason(&self, alloc: Global) -> Option<String> {
        words_of(alloc, self.error())
    }
}

// The words for an error.
fn words_of(alloc: Global, error: Option<Error>) -> Option<String>
    ensures { is_some error ≡ false → option_map string_bytes result ≡ None }
{
    let error = error?;
    error.to_string(alloc).ok()
}

/// The words of a command line, the documents that they may name, and the files that they may ask for.
pub trait Host {
    /// What a document is read from.
    type Input: Source + Explains + Drop;
    /// A file that is being written, and has not got its name yet. It may be no `Drop` type, so that code over any
    /// host keeps or discards it.
    type Output: Drain + Explains;

    /// These are the words, the program's name first.
    ghost has_words: { Self → List Text → Type 0 };
    /// A word is no UTF-8.
    ghost has_bad_word: { Self → Type 0 };
    /// The file of this name, or standard input, has these bytes, where they are known.
    ghost has_document: { Self → Option Text → Option (List ℕ) → Type 0 };
    /// The file of this name does not open.
    ghost is_shut: { Self → Text → Type 0 };
    /// Asked why the file of this name did not open, or did not become an output, the host tells this, or nothing.
    ghost has_reason: { Self → Text → Option Text → Type 0 };
    /// This is the path of the folder that names of files start from.
    ghost has_folder: { Self → Text → Type 0 };
    /// That path can't be told.
    ghost has_no_folder: { Self → Type 0 };
    /// The file of this name has these bytes now, where they are known.
    ghost has_output: { Self → Text → Option (List ℕ) → Type 0 };
    /// The file of this name is what it was before an output was created for it, if it was there.
    ghost is_left: { Self → Text → Type 0 };
    /// No output can be created for this name.
    ghost is_unwritable: { Self → Text → Type 0 };

    /// The words of the command line.
    fn words(&self, alloc: Global) -> Result<Vec<String>, NoWords>
        ensures words { IfOk result (λ words. has_words self.now (map string_bytes words.items)) }
        ensures bad { IfErr result (λ why. why ≡ NoWords.NotUtf8 → has_bad_word self.now) };

    /// Opens the file of this name, or standard input where there is none.
    fn open(&self, file: Option<&str>) -> Result<Self::Input, NotOpen>
        ensures opened { IfOk result (λ input.
            has_document self.now (option_map (λ s. s.now) file.entry) (Self.Input.remaining input)) }
        ensures more { IfOk result (λ input. Self.Input.has_ended input ≡ false) }
        ensures live { IfOk result (λ input. Self.Input.has_failed input ≡ false) }
        ensures shut { OnErr result ((path : Text) × (option_map (λ s. s.now) file.entry ≡ Some path)
            × is_shut self.now path) };

    /// Why the file of this name did not open, why no output was created for it, or why an output did not become
    /// this file: what the system said of the last call that failed so. None where it said nothing, or where memory
    /// is refused.
    fn reason(&self, alloc: Global, name: &str) -> Option<String>
        ensures { has_reason self.now name.now (option_map string_bytes result) };

    /// The path of the folder that names of files start from.
    fn folder(&self, alloc: Global) -> Result<String, NoFolder>
        ensures folder { IfOk result (λ folder. has_folder self.now (string_bytes folder)) }
        ensures untold { IfErr result (λ why. why ≡ NoFolder.NotTold → has_no_folder self.now) };

    /// Creates an empty output that can become the file of this name.
    fn create(&self, alloc: Global, name: &str) -> Result<Self::Output, NoOutput>
        ensures empty { IfOk result (λ output. IsEmpty (Self.Output.contents output)) }
        ensures live { IfOk result (λ output. Self.Output.has_failed output ≡ false) }
        ensures unwritable { IfErr result (λ why. why ≡ NoOutput.NotOpen → is_unwritable self.now name.now) };

    /// Makes the output the file of this name, in place of one that is there. Where that fails nothing is left of it.
    fn keep(&self, output: Self::Output, name: &str) -> Result<(), Failed>
        requires { Self.Output.is_flushed output ≡ true }
        ensures kept { OnOk result (has_output self.now name.now (Self.Output.contents output)) }
        ensures unnamed { OnErr result (is_left self.now name.now) };

    /// Removes the output that was created for this name.
    fn discard(&self, output: Self::Output, name: &str)
        ensures { is_left self.now name.now };
}

/// The process: its command line, its standard input, and the files that it may open. What these are no contract
/// of the standard library says.
#[derive(Drop)]
pub struct Process<'a> {
    rt: &'a HostRuntime,
    // The error of the last call that failed, of those that open, create or keep a file.
    error: Cell<Option<Error>>,
}

/// Standard input, or a file.
#[derive(Drop)]
pub enum Opened {
    /// Standard input.
    Input(Stdin),
    /// A file that was opened.
    File(File),
}

impl Read for Opened {
    fn read(&mut self, buf: &mut [u8]) -> io::Result<usize> {
        match self {
            Opened::Input(input) => input.read(buf),
            Opened::File(file) => file.read(buf),
        }
    }
}

/// Standard output, or a file that was created.
#[derive(Drop)]
pub enum Device {
    /// Standard output.
    Output(Stdout),
    /// A file that was created.
    File(File),
}

impl Write for Device {
    fn write(&mut self, buf: &[u8]) -> io::Result<usize> {
        match self {
            Device::Output(output) => output.write(buf),
            Device::File(file) => file.write(buf),
        }
    }

    fn flush(&mut self) -> io::Result<()> {
        match self {
            Device::Output(output) => output.flush(),
            Device::File(file) => file.flush(),
        }
    }
}

/// Where lines go: standard output, or a file that is written beside the one that it is to be. One type stands for
/// both, so that the program has one copy of the code that writes lines.
#[derive(Drop)]
pub struct Destination {
    // The name of the file while it is written; none for standard output.
    part: Option<String>,
    out: Out<Device>,
}

impl Drain for Destination {
    ghost contents = { λ s. s.out.contents };

    ghost has_failed = { λ s. s.out.has_failed };

    ghost is_flushed = { λ s. s.out.is_flushed };

    fn put_some(&mut self, bytes: &[u8]) -> Result<usize, Failed> {
        self.out.put_some(bytes)
    }

    fn flush(&mut self) -> Result<(), Failed> {
        self.out.flush()
    }

    fn failed(&self) -> bool {
        self.out.failed()
    }
}

impl Explains for Destination {
    ghost tells = { λ s why. s.out.has_failed ≡ false → why ≡ None };

    fn reason(&self, alloc: Global) -> Option<String> {
        self.out.reason(alloc)
    }
}

impl<'a> Process<'a> {
    /// The process.
    pub fn new(rt: &'a HostRuntime) -> Process<'a> {
        Process {
            rt,
            error: Cell::new(None),
        }
    }

    /// The process's standard output.
    pub fn output(&self) -> Destination
        ensures { result.out.has_failed ≡ false }
    {
        Destination {
            part: None,
            out: Out::new(Device::Output(self.rt.stdout())),
        }
    }
}

impl<'a> Host for Process<'a> {
    type Input = In<Opened>;

    type Output = Destination;

    ghost has_words = { λ _ _. ⊤ };

    ghost has_bad_word = { λ _. ⊤ };

    ghost has_document = { λ _ _ known. known ≡ None };

    ghost is_shut = { λ _ _. ⊤ };

    ghost has_reason = { λ _ _ _. ⊤ };

    ghost has_folder = { λ _ _. ⊤ };

    ghost has_no_folder = { λ _. ⊤ };

    ghost has_output = { λ _ _ _. ⊤ };

    ghost is_left = { λ _ _. ⊤ };

    ghost is_unwritable = { λ _ _. ⊤ };

    fn words(&self, alloc: Global) -> Result<Vec<String>, NoWords> {
        match env::args(self.rt) {
            Ok(words) => Ok(words.collect(alloc)?),
            Err(error) if matches!(error.kind(), ErrorKind::OutOfMemory) => Err(NoWords::Memory),
            Err(_) => Err(NoWords::NotUtf8),
        }
    }

    fn open(&self, file: Option<&str>) -> Result<In<Opened>, NotOpen> {
        let opened = match file {
            None => Opened::Input(self.rt.stdin()),
            Some(path) => match File::open(self.rt, path) {
                Ok(file) => Opened::File(file),
                Err(error) => {
                    self.error.set(Some(error));
                    return Err(NotOpen);
                }
            },
        };
        Ok(In::new(opened))
    }

    fn reason(&self, alloc: Global, _name: &str) -> Option<String> {
        words_of(alloc, self.error.get())
    }

    fn folder(&self, _alloc: Global) -> Result<String, NoFolder> {
        match env::current_dir(self.rt) {
            Ok(path) if path.is_absolute() => Ok(path.into_string()),
            Ok(_) => Err(NoFolder::NotTold),
            Err(error) if matches!(error.kind(), ErrorKind::OutOfMemory) => Err(NoFolder::Memory),
            Err(_) => Err(NoFolder::NotTold),
        }
    }

    // A file that is there already beside it is not overwritten: it may be that of another run.
    fn create(&self, alloc: Global, name: &str) -> Result<Destination, NoOutput> {
        if !may_be_replaced(self.rt, name) {
            self.error.set(Some(Error::other("not a regular file")));
            return Err(NoOutput::NotOpen);
        }
        let path = path_beside(alloc, name)?;
        match File::create_new(self.rt, path.as_str()) {
            Ok(file) => Ok(Destination {
                part: Some(path),
                out: Out::new(Device::File(file)),
            }),
            Err(error) => {
                self.error.set(Some(not_created(error)));
                Err(NoOutput::NotOpen)
            }
        }
    }

    fn keep(&self, output: Destination, name: &str) -> Result<(), Failed> {
        let Destination { part, out } = output;
        drop(out);
        let Some(path) = part else {
            self.error.set(None);
            return Err(Failed);
        };
        match rename_whole(self.rt, path.as_str(), name) {
            Ok(()) => Ok(()),
            Err(error) => {
                remove(self.rt, path.as_str());
                self.error.set(Some(error));
                Err(Failed)
            }
        }
    }

    fn discard(&self, output: Destination, _name: &str) {
        let Destination { part, out } = output;
        drop(out);
        if let Some(path) = part {
            remove(self.rt, path.as_str());
        }
    }
}

// Whether there is a regular file of this name, or nothing. A directory, a device or a link is not replaced.
fn may_be_replaced(rt: &HostRuntime, name: &str) -> bool {
    match fs::symlink_metadata(rt, name) {
        Ok(found) => found.is_file(),
        Err(_) => true,
    }
}

// Why a file was not created beside the one that it is to be, in the words of that one.
fn not_created(error: Error) -> Error {
    if matches!(error.kind(), ErrorKind::AlreadyExists) {
        Error::other("its .part file is there already")
    } else {
        error
    }
}

// Where the file of this name is while it is written.
fn path_beside(alloc: Global, name: &str) -> Result<String, AllocError> {
    let mut path = String::from_str(alloc, name)?;
    path.push_str(".part")?;
    Ok(path)
}

// Gives a file a name once all its bytes are on its device, so that the name never stands for a part of them.
fn rename_whole(rt: &HostRuntime, path: &str, name: &str) -> io::Result<()> {
    File::open(rt, path)?.sync_all()?;
    fs::rename(rt, path, name)
}

// A file that can't be removed stays: there is no other way to be rid of it.
fn remove(rt: &HostRuntime, path: &str) {
    match fs::remove_file(rt, path) {
        Ok(()) | Err(_) => {}
    }
}
