// Resolution of a reference against a base (RFC 3986, section 5.2).

ghost use Rattle.std.specs.Prelude.{◌≡◌, ℕ, ◌++◌, ◌≤◌, [], OnOk, IfOk, IfErr};
ghost use Rattle.std.specs.Str.{chars};
ghost use Rattle.std.specs.String.{string_bytes};
ghost use Rattle.rdf_terms.specs.Terms.{IsIri};
ghost use Rattle.rdf_iri.specs.Texts.{IsIriText, byte_len};
ghost use Rattle.rdf_iri.specs.Seen.{text_of};
ghost use Rattle.rdf_iri.specs.Parts.{suffix, scheme_text, authority_text, parts_of, recompose};
ghost use Rattle.rdf_iri.specs.Dots.{remove_dots as dots_removed};
ghost use Rattle.rdf_iri.specs.Resolve.{Resolves, target, merged_front, or_else};
ghost use Rattle.rdf_iri.specs.Faults.{Unresolved};

use crate::base::Base;
use crate::dots::remove_dots;
use crate::fault::IriFault;
use crate::parts::cut_parts;
use crate::places::{begins_with, directory_len};
use rdf_terms::{Iri, TextBuffer, has_scheme};
use std::alloc::{AllocError, Allocator};

/// The IRI of a reference within `limit` bytes: the reference itself where it has a scheme, else the reference
/// resolved against the base (RFC 3986, section 5.2). Only the result counts for the limit, not what is longer on
/// the way to it.
pub fn resolve<A: Allocator + Copy>(
    alloc: A,
    base: Option<&Iri<A>>,
    reference: &str,
    limit: u64,
) -> Result<Iri<A>, IriFault>
    requires { IsIriText (chars reference.now) }
    ensures resolved { IfOk result (λ iri. Resolves (text_of base.entry) (chars reference.now) iri) }
    ensures within { IfOk result (λ iri. byte_len iri ≤ limit) }
    ensures refused { IfErr result (Unresolved (text_of base.entry) (chars reference.now) limit) }
{
    if has_scheme(reference) {
        if reference.len() as u64 > limit {
            return Err(IriFault::IriTooLong);
        }
        return Ok(Iri::of_text(String::from_str(alloc, reference)?));
    }
    let Some(base) = base else {
        return Err(IriFault::NoBase);
    };
    let text = resolved(alloc, base.as_str(), reference)?;
    if text.len() as u64 > limit {
        return Err(IriFault::IriTooLong);
    }
    Ok(Iri::of_text(text))
}

/// Puts the IRI of a reference in its place: a reference with a scheme stays as it is.
pub fn resolve_in_place<A: Allocator + Copy>(
    alloc: A,
    base: Option<&Iri<A>>,
    text: &mut String<A>,
    limit: u64,
) -> Result<(), IriFault>
    requires { IsIriText (chars (string_bytes text.old)) }
    ensures resolved { OnOk result (Resolves (text_of base.entry) (chars (string_bytes text.old))
        (chars (string_bytes text.new))) }
    ensures is_iri { OnOk result (IsIri (chars (string_bytes text.new))) }
    ensures within { OnOk result (byte_len (chars (string_bytes text.new)) ≤ limit) }
    ensures refused { IfErr result (Unresolved (text_of base.entry) (chars (string_bytes text.old)) limit) }
{
    if let Err(fault) = make_absolute(alloc, base, text) {
        return Err(fault);
    }
    if text.len() as u64 > limit {
        return Err(IriFault::IriTooLong);
    }
    Ok(())
}

/// The same without a limit.
fn make_absolute<A: Allocator + Copy>(
    alloc: A,
    base: Option<&Iri<A>>,
    text: &mut String<A>,
) -> Result<(), IriFault>
    requires { IsIriText (chars (string_bytes text.old)) }
    ensures resolved { OnOk result (Resolves (text_of base.entry) (chars (string_bytes text.old))
        (chars (string_bytes text.new))) }
    ensures is_iri { OnOk result (IsIri (chars (string_bytes text.new))) }
    ensures refused { IfErr result (λ r.
        (limit : ℕ) → Unresolved (text_of base.entry) (chars (string_bytes text.old)) limit r) }
{
    if has_scheme(text.as_str()) {
        return Ok(());
    }
    let Some(base) = base else {
        return Err(IriFault::NoBase);
    };
    *text = resolved(alloc, base.as_str(), text.as_str())?;
    Ok(())
}

/// Puts the IRI of a reference in place of a text.
pub fn resolve_into<A: Allocator + Copy>(
    alloc: A,
    base: Option<&Base<A>>,
    reference: &str,
    text: &mut TextBuffer<A>,
    limit: u64,
) -> Result<(), IriFault>
    requires { IsIriText (chars reference.now) }
    ensures resolved { OnOk result (Resolves (text_of base.entry) (chars reference.now) (chars text.new)) }
    ensures is_iri { OnOk result (IsIri (chars text.new)) }
    ensures within { OnOk result (byte_len (chars text.new) ≤ limit) }
    ensures refused { IfErr result (Unresolved (text_of base.entry) (chars reference.now) limit) }
{
    if let Err(fault) = put_absolute(alloc, base, reference, text) {
        return Err(fault);
    }
    if text.byte_len() > limit {
        return Err(IriFault::IriTooLong);
    }
    Ok(())
}

/// The same without a limit.
fn put_absolute<A: Allocator + Copy>(
    alloc: A,
    base: Option<&Base<A>>,
    reference: &str,
    text: &mut TextBuffer<A>,
) -> Result<(), IriFault>
    requires { IsIriText (chars reference.now) }
    ensures resolved { OnOk result (Resolves (text_of base.entry) (chars reference.now) (chars text.new)) }
    ensures is_iri { OnOk result (IsIri (chars text.new)) }
    ensures refused { IfErr result (λ r. (limit : ℕ) → Unresolved (text_of base.entry) (chars reference.now) limit r) }
{
    if has_scheme(reference) {
        text.put(reference)?;
        return Ok(());
    }
    let Some(base) = base else {
        return Err(IriFault::NoBase);
    };
    base.put_target(alloc, reference, text)?;
    Ok(())
}

/// The text of a reference without a scheme.
pub(crate) fn resolved<A: Allocator + Copy>(
    alloc: A,
    base: &str,
    reference: &str,
) -> Result<String<A>, AllocError>
    ensures { IfOk result (λ text. chars (string_bytes text) ≡ recompose
        (target (parts_of (chars base.now)) (parts_of (chars reference.now)))) }
{
    let bytes = resolved_bytes(alloc, base, reference)?;
    Ok(String::from_utf8(bytes).unwrap())
}

fn resolved_bytes<A: Allocator + Copy>(
    alloc: A,
    base: &str,
    reference: &str,
) -> Result<Vec<u8, A>, AllocError>
    ensures { IfOk result (λ bytes. bytes.items ≡ recompose (target (parts_of base.now) (parts_of reference.now))) }
{
    let mut out = Vec::with_capacity(alloc, base.len() + reference.len() + 1)?;
    put_resolved(&mut out, base, reference)?;
    Ok(out)
}

/// Puts the text of a reference without a scheme into an empty buffer.
fn put_resolved<A: Allocator>(
    out: &mut Vec<u8, A>,
    base: &str,
    reference: &str,
) -> Result<(), AllocError>
    requires { out.old.items ≡ [] }
    ensures { OnOk result (out.new.items ≡ recompose (target (parts_of base.now) (parts_of reference.now))) }
{
    let b = cut_parts(base);
    let r = cut_parts(reference);
    put_scheme(out, b.scheme)?;
    match r.authority {
        Some(_) => {
            put_authority(out, r.authority)?;
            put_path(out, b"", r.path.as_bytes())?;
            put_suffix(out, b'?', r.query)?;
        }
        None => {
            put_authority(out, b.authority)?;
            if r.path.is_empty() {
                out.extend_from_slice(b.path.as_bytes())?;
                put_suffix(out, b'?', first_of(r.query, b.query))?;
            } else {
                let front = merge_front(b.authority, b.path.as_bytes(), r.path.as_bytes());
                put_path(out, front, r.path.as_bytes())?;
                put_suffix(out, b'?', r.query)?;
            }
        }
    }
    put_suffix(out, b'#', r.fragment)?;
    Ok(())
}

fn first_of<'a>(first: Option<&'a str>, second: Option<&'a str>) -> Option<&'a str>
    ensures { text_of result ≡ or_else (text_of first.entry) (text_of second.entry) }
{
    match first {
        Some(text) => Some(text),
        None => second,
    }
}

/// What stands before the reference's path when it is merged with the base's.
fn merge_front<'a>(authority: Option<&str>, base: &'a [u8], path: &[u8]) -> &'a [u8]
    ensures { result.now ≡ merged_front (text_of authority.entry) base.now path.now }
{
    if begins_with(path, b"/") {
        return &base[..0];
    }
    if authority.is_some() && base.is_empty() {
        return b"/";
    }
    &base[..directory_len(base)]
}

fn put_scheme<A: Allocator>(out: &mut Vec<u8, A>, scheme: Option<&str>) -> Result<(), AllocError>
    ensures { OnOk result (out.new.items ≡ out.old.items ++ scheme_text (text_of scheme.entry)) }
{
    if let Some(scheme) = scheme {
        out.extend_from_slice(scheme.as_bytes())?;
        out.push(b':')?;
    }
    Ok(())
}

fn put_authority<A: Allocator>(
    out: &mut Vec<u8, A>,
    authority: Option<&str>,
) -> Result<(), AllocError>
    ensures { OnOk result (out.new.items ≡ out.old.items ++ authority_text (text_of authority.entry)) }
{
    if let Some(authority) = authority {
        out.extend_from_slice(b"//")?;
        out.extend_from_slice(authority.as_bytes())?;
    }
    Ok(())
}

fn put_suffix<A: Allocator>(
    out: &mut Vec<u8, A>,
    mark: u8,
    text: Option<&str>,
) -> Result<(), AllocError>
    ensures { OnOk result (out.new.items ≡ out.old.items ++ suffix mark (text_of text.entry)) }
{
    if let Some(text) = text {
        out.push(mark)?;
        out.extend_from_slice(text.as_bytes())?;
    }
    Ok(())
}

/// Appends two pieces of a path without their dot segments.
fn put_path<A: Allocator>(out: &mut Vec<u8, A>, front: &[u8], path: &[u8]) -> Result<(), AllocError>
    ensures { OnOk result (out.new.items ≡ out.old.items ++ dots_removed (front.now ++ path.now)) }
{
    let start = out.len();
    out.extend_from_slice(front)?;
    out.extend_from_slice(path)?;
    let len = remove_dots(&mut out[start..]);
    out.truncate(start + len);
    Ok(())
}
