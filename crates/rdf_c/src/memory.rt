// Bytes in memory as a source, and memory as a drain.

ghost use Rattle.std.specs.Prelude.{◌≡◌, Some, false};

use rdf_stream::{Drain, Failed, Source};
use std::alloc::AllocError;

/// Gives the bytes of a slice. It never fails.
#[derive(Drop)]
pub(crate) struct Bytes<'a> {
    rest: &'a [u8],
    last: usize,
    ended: bool,
}

impl<'a> Bytes<'a> {
    pub(crate) fn new(rest: &'a [u8]) -> Bytes<'a>
        ensures rest { result.rest.now ≡ rest.now }
        ensures more { result.ended ≡ false }
    {
        Bytes {
            rest,
            last: 0,
            ended: false,
        }
    }
}

impl<'a> Source for Bytes<'a> {
    ghost remaining = { λ s. Some s.rest.now };

    ghost last = { λ s. s.last };

    ghost has_ended = { λ s. s.ended };

    ghost has_failed = { λ s. false };

    fn fill(&mut self, buf: &mut [u8]) -> Result<usize, Failed> {
        let count = self.rest.len().min(buf.len());
        let (front, rest) = self.rest.split_at(count);
        buf[..count].copy_from_slice(front);
        self.rest = rest;
        self.last = count;
        self.ended = count == 0 && !buf.is_empty();
        Ok(count)
    }

    fn ended(&self) -> bool {
        self.ended
    }

    fn failed(&self) -> bool {
        false
    }
}

/// Keeps all lines that it takes. It fails where a growth of memory is refused.
#[derive(Drop)]
pub(crate) struct Lines {
    pub(crate) bytes: Vec<u8>,
    pub(crate) failed: bool,
    pub(crate) flushed: bool,
}

impl Drain for Lines {
    ghost contents = { λ d. Some d.bytes.items };

    ghost has_failed = { λ d. d.failed };

    ghost is_flushed = { λ d. d.flushed };

    fn put_some(&mut self, bytes: &[u8]) -> Result<usize, Failed> {
        self.flushed = false;
        match self.bytes.extend_from_slice(bytes) {
            Ok(()) => Ok(bytes.len()),
            Err(AllocError) => {
                self.failed = true;
                Err(Failed)
            }
        }
    }

    fn flush(&mut self) -> Result<(), Failed> {
        self.flushed = true;
        Ok(())
    }

    fn failed(&self) -> bool {
        self.failed
    }
}
