// A host in memory.

ghost use Rattle.std.specs.Prelude.{◌≡◌, Some, [], false, ⊤};

use rdf_command::{Explains, Host, NoFolder, NoOutput, NoWords, NotOpen};
use rdf_stream::{Drain, Failed, In};
use slow_devices::{SlowDrain, slow_drain};
use std::alloc::Global;
use std::cell::{Cell, OnceCell};
use std::io;
use std::io::{Error, Read};

/// What becomes of an output.
#[derive(Clone, Copy, Debug, PartialEq, Eq)]
pub(crate) enum Making {
    /// It takes all bytes, and gets its name.
    Works,
    /// It is not created.
    NotCreated,
    /// There is no memory to create it.
    NoMemory,
    /// It takes no byte.
    NotWritten,
    /// It can't get its name.
    NotNamed,
}

/// The outputs of a host: what becomes of them, and what came of them.
#[derive(Drop)]
pub(crate) struct Outputs {
    making: Making,
    pub(crate) kept: OnceCell<Vec<u8>>,
    pub(crate) aside: OnceCell<Vec<u8>>,
    pub(crate) is_discarded: Cell<bool>,
}

impl Outputs {
    pub(crate) fn new(making: Making) -> Outputs {
        Outputs {
            making,
            kept: OnceCell::new(),
            aside: OnceCell::new(),
            is_discarded: Cell::new(false),
        }
    }
}

/// Words with a space between each two, or why there are none, standard input, files with their names, and outputs.
#[derive(Drop)]
pub(crate) struct InMemory<'a> {
    pub(crate) words: Result<&'a str, NoWords>,
    pub(crate) input: &'a str,
    pub(crate) files: &'a [(&'a str, &'a str)],
    pub(crate) outputs: Outputs,
}

/// Gives its bytes, and then reports the end, or an error.
#[derive(Drop)]
pub(crate) struct Stored<'a> {
    bytes: &'a [u8],
    breaks: bool,
}

impl<'a> Read for Stored<'a> {
    fn read(&mut self, buf: &mut [u8]) -> io::Result<usize> {
        let count = self.bytes.len().min(buf.len());
        if count == 0 && self.breaks {
            return Err(Error::other("broken off"));
        }
        let (front, rest) = self.bytes.split_at(count);
        buf[..count].copy_from_slice(front);
        self.bytes = rest;
        Ok(count)
    }
}

/// A slow drain that says why it failed.
#[derive(Drop)]
pub(crate) struct SlowOut {
    pub(crate) drain: SlowDrain,
}

impl Drain for SlowOut {
    ghost contents = { λ d. Some d.drain.bytes.items };

    ghost has_failed = { λ d. d.drain.failed };

    ghost is_flushed = { λ d. d.drain.flushed };

    fn put_some(&mut self, bytes: &[u8]) -> Result<usize, Failed> {
        self.drain.put_some(bytes)
    }

    fn flush(&mut self) -> Result<(), Failed> {
        self.drain.flush()
    }

    fn failed(&self) -> bool {
        self.drain.failed
    }
}

impl Explains for SlowOut {
    ghost tells = { λ _ _. ⊤ };

    fn reason(&self, alloc: Global) -> Option<String> {
        if self.drain.failed {
            String::from_str(alloc, "no room in memory").ok()
        } else {
            None
        }
    }
}

impl<'a> Host for InMemory<'a> {
    type Input = In<Stored<'a>>;

    type Output = SlowOut;

    ghost has_words = { λ _ _. ⊤ };

    ghost has_bad_word = { λ _. ⊤ };

    ghost has_document = { λ _ _ _. ⊤ };

    ghost is_shut = { λ _ _. ⊤ };

    ghost has_reason = { λ _ _ _. ⊤ };

    ghost has_folder = { λ _ _. ⊤ };

    ghost has_no_folder = { λ _. ⊤ };

    ghost has_output = { λ _ _ _. ⊤ };

    ghost is_left = { λ _ _. ⊤ };

    ghost is_unwritable = { λ _ _. ⊤ };

    fn words(&self, alloc: Global) -> Result<Vec<String>, NoWords> {
        let mut words = Vec::new(alloc);
        for word in self.words?.split(' ') {
            if words.push(String::from_str(alloc, word)?).is_err() {
                return Err(NoWords::Memory);
            }
        }
        Ok(words)
    }

    fn open(&self, file: Option<&str>) -> Result<In<Stored<'a>>, NotOpen> {
        let Some(path) = file else {
            return Ok(make_stored(self.input, false));
        };
        for (name, text) in self.files {
            if *name == path {
                return Ok(make_stored(text, path.starts_with("broken")));
            }
        }
        Err(NotOpen)
    }

    fn reason(&self, alloc: Global, name: &str) -> Option<String> {
        let why = match (name, self.outputs.making) {
            ("/no.nt", _) => return None,
            ("out.nq" | "bad.nt", Making::NotNamed) => "no name in memory",
            ("out.nq" | "bad.nt", _) => "not in memory",
            _ => "no such file in memory",
        };
        String::from_str(alloc, why).ok()
    }

    fn folder(&self, alloc: Global) -> Result<String, NoFolder> {
        Ok(String::from_str(alloc, "/my home")?)
    }

    fn create(&self, alloc: Global, _name: &str) -> Result<SlowOut, NoOutput> {
        match self.outputs.making {
            Making::NotCreated => Err(NoOutput::NotOpen),
            Making::NoMemory => Err(NoOutput::Memory),
            Making::NotWritten => Ok(slow_out(alloc, 1, 0)),
            Making::Works | Making::NotNamed => Ok(slow_out(alloc, usize::MAX, u64::MAX)),
        }
    }

    fn keep(&self, output: SlowOut, name: &str) -> Result<(), Failed> {
        if self.outputs.making == Making::NotNamed {
            return Err(Failed);
        }
        match name {
            "out.nq" => self.outputs.kept.set(output.drain.bytes).or(Err(Failed)),
            "bad.nt" => self.outputs.aside.set(output.drain.bytes).or(Err(Failed)),
            _ => Err(Failed),
        }
    }

    fn discard(&self, _output: SlowOut, _name: &str) {
        self.outputs.is_discarded.set(true);
    }
}

/// The text of a file, which breaks off at its end, or not.
fn make_stored(text: &str, breaks: bool) -> In<Stored<'_>>
    ensures more { result.has_ended ≡ false }
    ensures live { result.has_failed ≡ false }
{
    In::new(Stored {
        bytes: text.as_bytes(),
        breaks,
    })
}

/// Takes so many bytes a call, and fails after these calls.
pub(crate) fn slow_out(alloc: Global, room: usize, calls: u64) -> SlowOut
    ensures live { result.drain.failed ≡ false }
    ensures empty { result.drain.bytes.items ≡ [] }
{
    SlowOut {
        drain: slow_drain(alloc, room, calls),
    }
}
