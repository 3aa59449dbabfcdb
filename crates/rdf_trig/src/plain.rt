// Whether a local part or an IRIREF has an escape.

ghost use Rattle.std.specs.Prelude.{◌≡◌, true, Some, is_some};
ghost use Rattle.std.specs.Str.{chars};
ghost use Rattle.rdf_terms.specs.Values.{iri_value, local_value};
ghost use Rattle.rdf_iri.specs.Texts.{IsIriText};
ghost use Rattle.rdf_trig.specs.Scopes.{MeansLocal};

use rdf_terms::runs::{Run, is_run};

/// Whether a local part has no escape, and so is its own value.
#[inline(always)]
pub fn lacks_escapes(local: &str) -> bool
    requires { MeansLocal (chars local.now) }
    ensures text { result ≡ true → IsIriText (chars local.now) }
    ensures value { result ≡ true → local_value (chars local.now) ≡ Some (chars local.now) }
{
    is_run(Run::Unescaped, local.as_bytes())
}

/// Whether the inside of an IRIREF has no escape, and so is its own value.
#[inline(always)]
pub fn lacks_iri_escapes(inside: &str) -> bool
    requires { is_some (iri_value (chars inside.now)) ≡ true }
    ensures text { result ≡ true → IsIriText (chars inside.now) }
    ensures value { result ≡ true → iri_value (chars inside.now) ≡ Some (chars inside.now) }
{
    is_run(Run::Unescaped, inside.as_bytes())
}
