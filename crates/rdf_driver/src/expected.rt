// Which kinds of tokens can come next.

ghost use Rattle.std.specs.Prelude.{◌≡◌, ◌≢◌, false};
ghost use Rattle.rdf_terms.specs.declared.kind.Kind.{Kind};
ghost use Rattle.rdf_driver.specs.Kinds.{has};
ghost use Rattle.rdf_driver.specs.Words.{KnowsNext};

use crate::grammar::Foresees;
use crate::kinds::{Kinds, kind_after};
use rdf_terms::Kind;

/// The kinds of which a token can come next: the grammar is asked for each.
pub fn expected<G: Foresees>(grammar: &G) -> Kinds
    ensures exact { (k : Kind) → KnowsNext G.words G.trees grammar.now k (has result k) }
{
    let mut kinds = Kinds::none();
    let mut kind = Kind::IriRef;
    'kinds: loop {
        kinds = asked(grammar, kinds, kind);
        match kind_after(kind) {
            Some(next) => kind = next,
            None => return kinds,
        }
    }
}

// The set with this kind too, if a token of it can come next.
fn asked<G: Foresees>(grammar: &G, kinds: Kinds, kind: Kind) -> Kinds
    requires { has kinds kind ≡ false }
    ensures exact { KnowsNext G.words G.trees grammar.now kind (has result kind) }
    ensures others { (k : Kind) → k ≢ kind → has result k ≡ has kinds k }
{
    if grammar.may_come(kind) {
        kinds.with(kind)
    } else {
        kinds
    }
}
