// Texts that are used again: what a token spells is put in place of what stood there before.

ghost use Rattle.std.specs.Prelude.{◌≡◌, ◌≤◌, ◌*◌, true, OnOk, length};
ghost use Rattle.std.specs.Str.{chars, encode_utf8_all};
ghost use Rattle.std.specs.String.{string_bytes};
ghost use Rattle.rdf_terms.specs.Classes.{has};
ghost use Rattle.rdf_terms.specs.Classes.Class.{iri_char};
ghost use Rattle.rdf_terms.specs.Terms.{all_have};
ghost use Rattle.rdf_terms.specs.Values.{is_fit};
ghost use Rattle.rdf_terms.specs.Buffers.{iri_in, string_in};

use crate::Kind;
use crate::runs::{Run, is_run};
use crate::values::{ValueFault, set_iri_value, set_string_value, without_ends};
use std::alloc::{AllocError, Allocator};

/// Puts a text in place of another one.
#[inline(always)]
pub fn put_text<A: Allocator>(out: &mut String<A>, text: &str) -> Result<(), AllocError>
    ensures { OnOk result (string_bytes out.new ≡ text.now) }
{
    out.clear();
    out.push_str(text)
}

/// Puts what an IRIREF spells in place of a text. Most have no escape, and none is bad, since the token is fit.
pub fn put_iri<A: Allocator>(out: &mut String<A>, text: &str) -> Result<(), AllocError>
    requires { is_fit Kind.IriRef (chars text.now) ≡ true }
    ensures value { OnOk result (chars (string_bytes out.new) ≡ iri_in (chars text.now)) }
    ensures characters { OnOk result (all_have (has iri_char) (chars (string_bytes out.new)) ≡ true) }
{
    let inside = without_ends(text);
    if is_run(Run::Unescaped, inside.as_bytes()) {
        return put_text(out, inside);
    }
    match set_iri_value(out, inside) {
        Ok(()) => Ok(()),
        Err(ValueFault::BadEscape) => unreachable!(),
        Err(ValueFault::Memory) => Err(AllocError),
    }
}

/// The same of a string with one quote at each end.
pub fn put_string<A: Allocator>(out: &mut String<A>, text: &str) -> Result<(), AllocError>
    requires { is_fit Kind.ShortString (chars text.now) ≡ true }
    ensures value { OnOk result (chars (string_bytes out.new) ≡ string_in (chars text.now)) }
    ensures short { OnOk result (length (string_bytes out.new) ≤ 4 * length (chars text.now)) }
{
    let quoted = without_ends(text);
    if is_run(Run::Unescaped, quoted.as_bytes()) {
        return put_text(out, quoted);
    }
    match set_string_value(out, quoted) {
        Ok(()) => Ok(()),
        Err(ValueFault::BadEscape) => unreachable!(),
        Err(ValueFault::Memory) => Err(AllocError),
    }
}

/// The bytes of a text, by its characters.
#[inline(always)]
pub fn text_len(text: &str) -> u64
    ensures { result ≡ length (encode_utf8_all (chars text.now)) }
{
    text.len() as u64
}
