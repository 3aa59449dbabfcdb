//! Devices for tests: they give or take some bytes a call, and fail at a given call.
#![tactic(auto)]

ghost use Rattle.std.specs.Prelude.{Some, ◌≡◌, [], false};

use rdf_stream::{Drain, Failed, Source};
use std::alloc::Global;

/// Gives its bytes in parts: the first of one length, the others of another. It fails once a number of calls has
/// been made.
#[derive(Drop)]
pub struct Parts<'a> {
    bytes: &'a [u8],
    part: usize,
    others: usize,
    calls: u64,
    last: usize,
    pub ended: bool,
    pub failed: bool,
}

impl<'a> Source for Parts<'a> {
    ghost remaining = { λ s. Some s.bytes.now };

    ghost last = { λ s. s.last };

    ghost has_ended = { λ s. s.ended };

    ghost has_failed = { λ s. s.failed };

    fn fill(&mut self, buf: &mut [u8]) -> Result<usize, Failed> {
        if self.calls == 0 {
            self.last = 0;
            self.failed = true;
            return Err(Failed);
        }
        self.calls -= 1;
        let count = self.part.max(1).min(self.bytes.len()).min(buf.len());
        let (front, rest) = self.bytes.split_at(count);
        buf[..count].copy_from_slice(front);
        self.bytes = rest;
        self.last = count;
        self.part = self.others;
        if count == 0 && !buf.is_empty() {
            self.ended = true;
        }
        Ok(count)
    }

    fn ended(&self) -> bool {
        self.ended
    }

    fn failed(&self) -> bool {
        self.failed
    }
}

/// Takes at most some bytes a call, and fails once a number of calls has been made.
#[derive(Drop)]
pub struct SlowDrain {
    pub bytes: Vec<u8>,
    room: usize,
    calls: u64,
    pub failed: bool,
    pub flushed: bool,
}

impl Drain for SlowDrain {
    ghost contents = { λ d. Some d.bytes.items };

    ghost has_failed = { λ d. d.failed };

    ghost is_flushed = { λ d. d.flushed };

    fn put_some(&mut self, bytes: &[u8]) -> Result<usize, Failed> {
        self.flushed = false;
        let count = self.room.max(1).min(bytes.len());
        if self.calls == 0 || self.bytes.extend_from_slice(&bytes[..count]).is_err() {
            self.failed = true;
            return Err(Failed);
        }
        self.calls -= 1;
        Ok(count)
    }

    fn flush(&mut self) -> Result<(), Failed> {
        self.flushed = self.calls > 0;
        self.failed = self.calls == 0;
        if self.failed {
            return Err(Failed);
        }
        self.calls -= 1;
        Ok(())
    }

    fn failed(&self) -> bool {
        self.failed
    }
}

/// All of the bytes, cut after so many of them; at 0 each byte comes alone. It fails after these calls.
pub fn parts_of(bytes: &[u8], cut: usize, calls: u64) -> Parts<'_>
    ensures more { result.ended ≡ false }
    ensures live { result.failed ≡ false }
{
    Parts {
        bytes,
        part: cut,
        others: if cut == 0 { 1 } else { usize::MAX },
        calls,
        last: 0,
        ended: false,
        failed: false,
    }
}

/// Takes so many bytes a call, and fails after these calls.
pub fn slow_drain(alloc: Global, room: usize, calls: u64) -> SlowDrain
    ensures live { result.failed ≡ false }
    ensures empty { result.bytes.items ≡ [] }
{
    SlowDrain {
        bytes: Vec::new(alloc),
        room,
        calls,
        failed: false,
        flushed: false,
    }
}
