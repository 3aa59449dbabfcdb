// The texts that tokens spell.

ghost use Rattle.std.specs.Prelude.{◌≡◌, ◌≤◌, ◌*◌, true, OnOk, IfErr, drop, length};
ghost use Rattle.std.specs.Str.{chars};
ghost use Rattle.std.specs.String.{string_bytes};
ghost use Rattle.rdf_terms.specs.Buffers.{iri_in};
ghost use Rattle.rdf_terms.specs.Shapes.{Shape};
ghost use Rattle.rdf_terms.specs.Values as V;
ghost use Rattle.rdf_terms.specs.Terms.{IsIri, IsTag, has_scheme};
ghost use Rattle.rdf_iri.specs.Texts.{byte_len};
ghost use Rattle.rdf_lines.specs.Machine.{is_taken};
ghost use Rattle.rdf_lines.specs.Spelled.{IriRefused};

use rdf_terms::{Dialect, Kind, Reason, has_scheme, put_iri, without_first};
use std::alloc::Allocator;

/// Puts the IRI of an IRIREF in place of a text. Where it has no scheme, that is `RelativeIri`, and where it has
/// more bytes than the limit, `IriTooLong`.
pub fn set_iri<A: Allocator>(out: &mut String<A>, text: &str, limit: u64) -> Result<(), Reason>
    requires fit { V.is_fit Kind.IriRef (chars text.now) ≡ true }
    ensures ok { OnOk result (chars (string_bytes out.new) ≡ iri_in (chars text.now)) }
    ensures is_iri { OnOk result (IsIri (chars (string_bytes out.new))) }
    ensures taken { OnOk result (is_taken limit (iri_in (chars text.now)) ≡ true) }
    ensures short { OnOk result (byte_len (iri_in (chars text.now)) ≤ limit) }
    ensures err { IfErr result (λ r. IriRefused limit r (iri_in (chars text.now))) }
{
    put_iri(out, text)?;
    check(out.as_str(), limit)
}

// Whether an IRI is taken.
fn check(iri: &str, limit: u64) -> Result<(), Reason>
    ensures scheme { OnOk result (has_scheme (chars iri.now) ≡ true) }
    ensures taken { OnOk result (is_taken limit (chars iri.now) ≡ true) }
    ensures short { OnOk result (byte_len (chars iri.now) ≤ limit) }
    ensures err { IfErr result (λ r. IriRefused limit r (chars iri.now)) }
{
    if !has_scheme(iri) {
        Err(Reason::RelativeIri)
    } else if iri.len() as u64 > limit {
        Err(Reason::IriTooLong)
    } else {
        Ok(())
    }
}

/// The tag of a LANGTAG.
#[inline(always)]
pub fn tag_of(text: &str) -> &str
    requires { Shape Dialect.Lines Kind.LangTag (chars text.now) }
    ensures tag { chars result.now ≡ drop 1 (chars text.now) }
    ensures is_tag { IsTag (chars result.now) }
    ensures short { byte_len (chars result.now) ≤ 4 * length (chars text.now) }
{
    without_first(text)
}
