// A sink that keeps its quads.

ghost use Rattle.std.specs.Prelude.{◌≡◌, ◌++◌, ◌∷◌, [], false, length, slice_get, option_map, OnErr, OnOk};
ghost use Rattle.rdf_terms.specs.Views.{quad_of};

use crate::sink::{PutFault, QuadSink};
use crate::terms::Quad;
use crate::views::QuadRef;
use std::alloc::{AllocError, Allocator, Global};
use std::marker::Model;

/// The quads that were put, in order, repeats and all.
#[derive(Drop)]
pub struct QuadList<A: Allocator = Global> {
    alloc: A,
    quads: Vec<Quad<A>, A>,
}

impl<A: Allocator> Model for QuadList<A> {
    ghost use Rattle.std.specs.Prelude.{List, map};
    ghost use Rattle.rdf_terms.specs.Terms.{Quad as Meaning};
    ghost use Rattle.rdf_terms.specs.Owned.{owned_quad};

    ghost Value = { List Meaning };

    ghost view = { λ l. map owned_quad l.quads.items };
}

impl<A: Allocator + Copy> QuadList<A> {
    /// A list without quads.
    pub fn new(alloc: A) -> QuadList<A>
        ensures { result ≡ [] }
    {
        QuadList {
            alloc,
            quads: Vec::new(alloc),
        }
    }

    /// How many quads there are.
    pub fn len(&self) -> usize
        ensures { result ≡ length self.now }
    {
        self.quads.len()
    }

    /// The quad of this number, from 0 on.
    pub fn get(&self, index: usize) -> Option<QuadRef<'_>>
        ensures { option_map quad_of result ≡ slice_get self.now index }
    {
        match self.quads.get(index) {
            Some(quad) => Some(quad.view()),
            None => None,
        }
    }

    // Appends a copy of a quad.
    fn push(&mut self, quad: &QuadRef<'_>) -> Result<(), AllocError>
        ensures pushed { OnOk result (self.new ≡ self.old ++ quad_of quad.now ∷ []) }
        ensures unchanged { OnErr result (self.new ≡ self.old) }
    {
        self.quads.push(quad.try_copy(self.alloc)?)?;
        Ok(())
    }
}

impl<A: Allocator + Copy> QuadSink for QuadList<A> {
    ghost takes = { λ before quad after. after ≡ before ++ quad ∷ [] };

    ghost leaves = { λ before quad after. after ≡ before };

    ghost has_failed = { λ _. false };

    fn put(&mut self, quad: &QuadRef<'_>) -> Result<(), PutFault> {
        match self.push(quad) {
            Ok(()) => Ok(()),
            Err(_) => Err(PutFault::Memory),
        }
    }

    fn failed(&self) -> bool {
        false
    }
}
