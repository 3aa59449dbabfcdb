// Frames that are used again: a bracket that opens takes over the buffers of one that has ended.

ghost use Rattle.std.specs.Prelude.{◌≡◌, ◌+◌, ◌<◌, ◌^◌, IfOk};
ghost use Rattle.rdf_trig.specs.Holding.{frame_bytes, spare_bytes};

use crate::holding::frames_len;
use crate::state::{Container, Frame};
use std::alloc::{AllocError, Allocator, Global};

/// How many frames are kept.
const MOST: usize = 1_024;

/// The most bytes that a text of a frame that is kept has memory for, so that all of them take some 2 MiB at most.
const SMALL: usize = 1_024;

/// Frames that are in no use. Their texts are empty, and keep their memory for the next ones.
#[derive(Drop)]
pub struct Spares<A: Allocator = Global> {
    frames: Vec<Frame<A>, A>,
}

impl<A: Allocator> Spares<A> {
    /// No frames. It takes no memory.
    pub fn new(alloc: A) -> Spares<A>
        ensures { spare_bytes result ≡ 0 }
    {
        Spares {
            frames: Vec::new(alloc),
        }
    }

    /// Keeps a frame with its texts emptied, unless there are enough, or it has much memory. It takes no memory.
    pub fn keep(&mut self, mut frame: Frame<A>)
        ensures { spare_bytes self.new ≡ spare_bytes self.old }
    {
        if self.frames.len() < self.frames.capacity() && is_small(&frame) {
            frame.clear();
            self.frames.push_reserved(frame);
        }
    }

    /// How many bytes the texts of its frames have.
    pub fn len(&self) -> u64
        requires { spare_bytes self.now < 2 ^ 64 }
        ensures { result ≡ spare_bytes self.now }
    {
        frames_len(&self.frames)
    }
}

impl<A: Allocator + Copy> Spares<A> {
    /// A frame with no list and no collection in it. Where none was kept, room is made for those that will be.
    pub fn take(&mut self, alloc: A) -> Result<Frame<A>, AllocError>
        ensures empty { IfOk result (λ f. f.container ≡ Container.Cells 0 0) }
        ensures texts { IfOk result (λ f. spare_bytes self.new + frame_bytes f ≡ spare_bytes self.old) }
    {
        if let Some(mut frame) = self.frames.pop() {
            frame.container = Container::none();
            return Ok(frame);
        }
        self.frames.reserve(MOST)?;
        Ok(Frame::none(alloc))
    }
}

#[inline(always)]
fn is_small<A: Allocator>(frame: &Frame<A>) -> bool {
    frame.subject.capacity() <= SMALL && frame.verb.capacity() <= SMALL
}
