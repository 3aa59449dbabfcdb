// Where bytes come from and where they go, and std's readers and writers in these places.

ghost use Rattle.std.specs.Prelude.{◌≡◌, ℕ, ◌<◌, ◌≤◌, List, length, true, false, is_err, is_ok, is_some, Option, Bool};
ghost use Rattle.std.specs.Prelude.{IfOk, OnErr};
ghost use Rattle.std.specs.Io.KnownBytes.{Keeps, ReadConsumes, WriteAppends};
ghost use Rattle.rdf_stream.specs.Devices.{Reading, ReportsEnd, Written};

use std::io::{Error, ErrorKind, Read, Write};
use std::marker::Model;

/// The device failed.
#[derive(Clone, Copy, Debug, PartialEq, Eq)]
pub struct Failed;

/// Gives bytes, a piece at a time.
pub trait Source {
    /// The bytes that are left, where they are known.
    ghost remaining: { Self → Option (List ℕ) };
    /// How many bytes the last call gave.
    ghost last: { Self → ℕ };
    /// Whether a call has reported the end.
    ghost has_ended: { Self → Bool };
    /// Whether a call has failed.
    ghost has_failed: { Self → Bool };

    /// Fills a front of the buffer, and answers its length in bytes. A 0 into a buffer that is not empty is
    /// the end. After the end or a failure it is not called again.
    fn fill(&mut self, buf: &mut [u8]) -> Result<usize, Failed>
        requires more { has_ended self.old ≡ false }
        requires live { has_failed self.old ≡ false }
        ensures bound { IfOk result (λ n. n ≤ length buf.new) }
        ensures len { length buf.new ≡ length buf.old }
        ensures bytes { ReadConsumes (remaining self.old) (remaining self.new) result buf.new }
        ensures last { IfOk result (λ n. last self.new ≡ n) }
        ensures none { OnErr result (last self.new ≡ 0) }
        ensures ended { ReportsEnd result buf.new (has_ended self.new) }
        ensures failed { has_failed self.new ≡ is_err result };

    /// Whether a call has reported the end.
    fn ended(&self) -> bool
        ensures { result ≡ has_ended self.now };

    /// Whether a call has failed.
    fn failed(&self) -> bool
        ensures { result ≡ has_failed self.now };
}

/// Takes bytes, a piece at a time.
pub trait Drain {
    /// The bytes that were taken, where they are known.
    ghost contents: { Self → Option (List ℕ) };
    /// Whether a call has failed.
    ghost has_failed: { Self → Bool };
    /// Whether a flush answered Ok since the last byte.
    ghost is_flushed: { Self → Bool };

    /// Takes a front of the bytes, and answers its length. It takes at least one byte, where there is one.
    /// After a failure neither this nor `flush` is called again.
    fn put_some(&mut self, bytes: &[u8]) -> Result<usize, Failed>
        requires live { has_failed self.old ≡ false }
        ensures bound { IfOk result (λ n. n ≤ length bytes.now) }
        ensures progress { IfOk result (λ n. 0 < length bytes.now → 0 < n) }
        ensures bytes { WriteAppends (contents self.old) (contents self.new) result bytes.now }
        ensures unflushed { IfOk result (λ n. 0 < n → is_flushed self.new ≡ false) }
        ensures failed { has_failed self.new ≡ is_err result };

    /// Sends on what was taken.
    fn flush(&mut self) -> Result<(), Failed>
        requires live { has_failed self.old ≡ false }
        ensures bytes { Keeps (contents self.old) (contents self.new) }
        ensures flushed { is_flushed self.new ≡ is_ok result }
        ensures failed { has_failed self.new ≡ is_err result };

    /// Whether a call has failed.
    fn failed(&self) -> bool
        ensures { result ≡ has_failed self.now };
}

/// A reader as a source. Each error of the reader, `Interrupted` too, is a failure, and is kept.
#[derive(Drop)]
pub struct In<R: Read> {
    reader: R,
    last: usize,
    ended: bool,
    read_error: Option<Error>,
}

impl<R: Read> Model for In<R> {
    ghost Value = { Reading };

    ghost view = { λ s. record {
      remaining = R.remaining s.reader;
      last = s.last;
      has_ended = s.ended;
      has_failed = is_some s.read_error;
    } };
}

impl<R: Read> In<R> {
    /// A source that reads on from where the reader stands.
    pub fn new(reader: R) -> In<R>
        ensures { result ≡ record { remaining = R.remaining reader; last = 0; has_ended = false; has_failed = false } }
    {
        In {
            reader,
            last: 0,
            ended: false,
            read_error: None,
        }
    }

    /// The reader's error, once a call has failed.
    pub fn error(&self) -> Option<Error>
        ensures { is_some result ≡ self.now.has_failed }
    {
        self.read_error
    }
}

impl<R: Read> Source for In<R> {
    ghost remaining = { λ s. s.remaining };

    ghost last = { λ s. s.last };

    ghost has_ended = { λ s. s.has_ended };

    ghost has_failed = { λ s. s.has_failed };

    fn fill(&mut self, buf: &mut [u8]) -> Result<usize, Failed> {
        match self.reader.read(buf) {
            Ok(count) if count == 0 && !buf.is_empty() => {
                self.last = 0;
                self.ended = true;
                Ok(count)
            }
            Ok(count) => {
                self.last = count;
                Ok(count)
            }
            Err(error) => {
                self.last = 0;
                self.read_error = Some(error);
                Err(Failed)
            }
        }
    }

    fn ended(&self) -> bool {
        self.ended
    }

    fn failed(&self) -> bool {
        self.read_error.is_some()
    }
}

/// A writer as a drain. Each error of the writer, `Interrupted` too, is a failure, and so is a write of 0 bytes
/// where there are some. The error is kept.
#[derive(Drop)]
pub struct Out<W: Write> {
    writer: W,
    write_error: Option<Error>,
    flushed: bool,
}

impl<W: Write> Model for Out<W> {
    ghost Value = { Written };

    ghost view = { λ s. record {
      contents = W.contents s.writer;
      has_failed = is_some s.write_error;
      is_flushed = s.flushed;
    } };
}

impl<W: Write> Out<W> {
    /// A drain that writes on from where the writer stands.
    pub fn new(writer: W) -> Out<W>
        ensures { result ≡ record { contents = W.contents writer; has_failed = false; is_flushed = false } }
    {
        Out {
            writer,
            write_error: None,
            flushed: false,
        }
    }

    /// The writer's error, once a call has failed. Of a write of 0 bytes it says that none was taken.
    pub fn error(&self) -> Option<Error>
        ensures { is_some result ≡ self.now.has_failed }
    {
        self.write_error
    }

    // The writer failed.
    fn fail(&mut self, error: Error) -> Failed
        ensures { self.new ≡ record self.old { has_failed = true } }
    {
        self.write_error = Some(error);
        Failed
    }
}

impl<W: Write> Drain for Out<W> {
    ghost contents = { λ s. s.contents };

    ghost has_failed = { λ s. s.has_failed };

    ghost is_flushed = { λ s. s.is_flushed };

    fn put_some(&mut self, bytes: &[u8]) -> Result<usize, Failed> {
        self.flushed = false;
        match self.writer.write(bytes) {
            Ok(count) if count == 0 && !bytes.is_empty() => Err(self.fail(no_byte_taken())),
            Ok(count) => Ok(count),
            Err(error) => Err(self.fail(error)),
        }
    }

    fn flush(&mut self) -> Result<(), Failed> {
        match self.writer.flush() {
            Ok(()) => {
                self.flushed = true;
                Ok(())
            }
            Err(error) => {
                self.flushed = false;
                Err(self.fail(error))
            }
        }
    }

    fn failed(&self) -> bool {
        self.write_error.is_some()
    }
}

fn no_byte_taken() -> Error {
    Error::new(ErrorKind::WriteZero, "no byte was taken")
}
