// What documents of quads bring.

use rdf_terms::Quad;
use std::marker::Model;

/// A quad, as the item of a document that contracts speak of. The program makes none.
#[derive(Drop)]
pub struct QuadItem {
    quad: Quad,
}

impl Model for QuadItem {
    ghost use Rattle.rdf_terms.specs.Terms.{Quad};
    ghost use Rattle.rdf_terms.specs.Owned.{owned_quad};

    ghost Value = { Quad };

    ghost view = { λ item. owned_quad item.quad };
}
