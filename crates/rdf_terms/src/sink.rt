// Where quads go.

ghost use Rattle.std.specs.Prelude.{◌≡◌, ◌↔◌, Bool, true, false, OnOk, OnErr};
ghost use Rattle.rdf_terms.specs.Terms.{Quad};
ghost use Rattle.rdf_terms.specs.Views.{iris_quad, quad_of};

use crate::views::{IriView, QuadRef, SubjectRef, TermRef};

/// Why a sink did not take a quad.
#[derive(Clone, Copy, PartialEq, Eq, Debug)]
pub enum PutFault {
    /// A growth of memory was refused.
    Memory,
    /// The device that the sink writes to failed.
    Device,
}

impl<'a> QuadRef<'a> {
    /// The quad of three IRIs in the default graph.
    #[inline(always)]
    pub fn of_iris(subject: IriView<'a>, predicate: IriView<'a>, object: IriView<'a>) -> QuadRef<'a>
        ensures { result ≡ iris_quad subject.entry predicate.entry object.entry }
    {
        QuadRef {
            subject: SubjectRef::Iri(subject),
            predicate,
            object: TermRef::Iri(object),
            graph: None,
        }
    }
}

/// Takes quads, one by one.
pub trait QuadSink {
    /// What a put that answers Ok does.
    ghost takes: { Self → Quad → Self → Type 0 };
    /// What a put that is refused leaves.
    ghost leaves: { Self → Quad → Self → Type 0 };
    /// Whether a put has answered `Device`.
    ghost has_failed: { Self → Bool };

    /// Takes a quad, in the order of the calls. After `Device` it is not called again.
    fn put(&mut self, quad: &QuadRef<'_>) -> Result<(), PutFault>
        requires live { has_failed self.old ≡ false }
        ensures taken { OnOk result (takes self.old (quad_of quad.now) self.new) }
        ensures left { OnErr result (leaves self.old (quad_of quad.now) self.new) }
        ensures device { (has_failed self.new ≡ true) ↔ (result ≡ Err PutFault.Device) };

    /// Takes the quad of three IRIs in the default graph, as `put` takes it. Most quads of many documents are such
    /// ones, so a sink may have a faster way for them; one that has none need not say anything.
    #[inline(always)]
    fn put_iris(
        &mut self,
        subject: IriView<'_>,
        predicate: IriView<'_>,
        object: IriView<'_>,
    ) -> Result<(), PutFault>
        requires live { has_failed self.old ≡ false }
        ensures taken { OnOk result (takes self.old
            (quad_of (iris_quad subject.entry predicate.entry object.entry)) self.new) }
        ensures left { OnErr result (leaves self.old
            (quad_of (iris_quad subject.entry predicate.entry object.entry)) self.new) }
        ensures device { (has_failed self.new ≡ true) ↔ (result ≡ Err PutFault.Device) }
    {
        self.put(&QuadRef::of_iris(subject, predicate, object))
    }

    /// Whether a put has answered `Device`.
    fn failed(&self) -> bool
        ensures { result ≡ has_failed self.now };
}
