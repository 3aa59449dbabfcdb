// References in angle brackets, read without the states.

ghost use Rattle.std.specs.Prelude.{◌≡◌, None, true, IfSome};
ghost use Rattle.rdf_terms.specs.declared.kind.Kind.TheVariants.{IriRef};
ghost use Rattle.rdf_tokens.specs.Quick.{IsToken, begins_iri};
ghost use Rattle.rdf_tokens.specs.Walk.{Walked};

use crate::escapes::iri_end;
use crate::front::{Walk, walk_to};
use crate::quick::{begins_iri, stands_at};
use crate::states::iri::Iri;
use crate::states::machine::State;
use rdf_terms::Dialect;

/// The length of the reference that the text begins with, where it stands there whole, and no escape of it is bad.
/// Of one that goes on it is kept how far it came, and where that was done no reference is looked for.
#[inline(always)]
pub(crate) fn iri_len(dialect: Dialect, text: &str, walk: &mut Option<Walk>) -> Option<usize>
    requires { Walked dialect text.now walk.old }
    ensures token { IfSome result (λ len. IsToken dialect text.now len IriRef) }
    ensures walked { Walked dialect text.now walk.new }
{
    if walk.is_some() || !begins_iri(text.as_bytes()) {
        return None;
    }
    enclosed_len(dialect, text, walk)
}

/// The same after its bracket. After fewer than three bytes nothing is kept, as by the states.
#[inline(never)]
fn enclosed_len(dialect: Dialect, text: &str, walk: &mut Option<Walk>) -> Option<usize>
    requires opens { begins_iri text.now ≡ true }
    requires walked { Walked dialect text.now walk.old }
    requires none { walk.old ≡ None }
    ensures token { IfSome result (λ len. IsToken dialect text.now len IriRef) }
    ensures walked { Walked dialect text.now walk.new }
{
    let bytes = text.as_bytes();
    let end = iri_end(bytes, 1);
    if stands_at(b'>', bytes, end) {
        return Some(end + 1);
    }
    if end >= 3 {
        *walk = Some(walk_to(walk, State::Iri(Iri::Inside), end, None));
    }
    None
}
