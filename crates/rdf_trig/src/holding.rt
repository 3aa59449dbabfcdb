// How many bytes the texts of a state have.

ghost use Rattle.std.specs.Prelude.{◌≡◌, ◌<◌, ◌^◌};
ghost use Rattle.std.specs.List.{sum_by};
ghost use Rattle.rdf_trig.specs.Holding.{frame_bytes, state_bytes};

use crate::state::{Frame, State};
use std::alloc::Allocator;

impl<A: Allocator> State<A> {
    /// How many bytes all its texts have. It takes no memory.
    pub fn held(&self) -> u64
        requires { state_bytes self.now < 2 ^ 64 }
        ensures { result ≡ state_bytes self.now }
    {
        self.graph.len()
            + self.object.len()
            + self.text.len() as u64
            + self.datatype.len()
            + self.tag.len()
            + self.name.len()
            + frame_len(&self.frame)
            + frames_len(&self.frames)
            + self.spares.len()
    }
}

/// How many bytes the texts of some frames have.
pub fn frames_len<A: Allocator>(frames: &[Frame<A>]) -> u64
    requires { sum_by frame_bytes frames.now < 2 ^ 64 }
    ensures { result ≡ sum_by frame_bytes frames.now }
{
    let mut held = 0;
    for frame in frames {
        held += frame_len(frame);
    }
    held
}

fn frame_len<A: Allocator>(frame: &Frame<A>) -> u64
    requires { frame_bytes frame.now < 2 ^ 64 }
    ensures { result ≡ frame_bytes frame.now }
{
    frame.subject.len() + frame.verb.len()
}
