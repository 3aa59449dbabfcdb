// Memory as a drain.

ghost use Rattle.std.specs.Prelude.{◌≡◌, Some, [], false, IfOk};

use crate::devices::{Drain, Failed};
use std::alloc::{AllocError, Allocator, Global};

/// Keeps all bytes that it takes. It fails where a growth of memory is refused.
#[derive(Drop)]
pub(crate) struct Kept<A: Allocator = Global> {
    pub(crate) bytes: Vec<u8, A>,
    failed: bool,
    flushed: bool,
}

impl<A: Allocator> Kept<A> {
    /// Nothing is kept, and there is room for so many bytes.
    pub(crate) fn with_capacity(alloc: A, capacity: usize) -> Result<Kept<A>, AllocError>
        ensures none { IfOk result (λ kept. kept.bytes.items ≡ []) }
        ensures live { IfOk result (λ kept. kept.failed ≡ false) }
    {
        Ok(Kept {
            bytes: Vec::with_capacity(alloc, capacity)?,
            failed: false,
            flushed: false,
        })
    }
}

impl<A: Allocator> Drain for Kept<A> {
    ghost contents = { λ d. Some d.bytes.items };

    ghost has_failed = { λ d. d.failed };

    ghost is_flushed = { λ d. d.flushed };

    fn put_some(&mut self, bytes: &[u8]) -> Result<usize, Failed> {
        self.flushed = false;
        match self.bytes.extend_from_slice(bytes) {
            Ok(()) => Ok(bytes.len()),
            Err(AllocError) => {
                self.failed = true;
                Err(Failed)
            }
        }
    }

    fn flush(&mut self) -> Result<(), Failed> {
        self.flushed = true;
        Ok(())
    }

    fn failed(&self) -> bool {
        self.failed
    }
}
