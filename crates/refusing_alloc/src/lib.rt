//! An allocator for tests. It refuses one of the calls for memory and passes all others on, so a test can have each
//! growth of a run refused in turn, and can tell whether one was refused.
#![tactic(auto)]

use std::alloc::{AllocError, Allocator};
use std::cell::Cell;

/// Refuses the call for memory that finds none left, and no other. It is lent to what allocates.
pub struct Refusing<B: Allocator> {
    inner: B,
    left: Cell<u64>,
}

impl<B: Allocator> Refusing<B> {
    /// Passes so many calls on, below 2^63, and refuses the one after them.
    pub fn after(inner: B, calls: u64) -> Refusing<B> {
        Refusing {
            inner,
            left: Cell::new(calls),
        }
    }

    /// Whether a call was refused. Fewer than 2^63 calls may have been made.
    pub fn has_refused(&self) -> bool {
        self.left.get() > u64::MAX / 2
    }
}

impl<B: Allocator> Drop for Refusing<B> {
    fn drop(self) {
        let Self { inner: _, left: _ } = self;
    }
}

fn admits(left: &Cell<u64>) -> bool {
    let calls = left.get();
    left.set(calls.wrapping_sub(1));
    calls != 0
}

unsafe impl<B: Allocator> Allocator for Refusing<B> {
    ghost dealloc_token = { λ heap ty ptr. B.dealloc_token heap.inner ty ptr };

    fn allocate(&self, size: usize, align: usize) -> Result<*mut u8, AllocError> {
        if admits(&self.left) {
            return self.inner.allocate(size, align);
        }
        Err(AllocError)
    }

    unsafe fn deallocate(&self, ptr: *mut u8, size: usize, align: usize) {
        self.inner.deallocate(ptr, size, align);
    }
}
