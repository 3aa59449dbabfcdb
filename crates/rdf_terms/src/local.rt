// The characters that a local part means.

ghost use Rattle.std.specs.Prelude.{◌≡◌, ◌↔◌, true, IfOk, OnErr, Err, Some, None, is_some};
ghost use Rattle.std.specs.Str.{chars};
ghost use Rattle.std.specs.String.{string_bytes};
ghost use Rattle.rdf_terms.specs.Classes.{has};
ghost use Rattle.rdf_terms.specs.Classes.Class.{iri_char};
ghost use Rattle.rdf_terms.specs.Terms.{all_have};
ghost use Rattle.rdf_terms.specs.Values.{local_value};
ghost use Rattle.rdf_terms.specs.Local.{local_stands, local_opens, without_backslashes};

use crate::classes::{iri_text, is_iri_char, is_local_escape};
use crate::values::{ValueFault, copied};
use std::alloc::Allocator;

/// The characters that a local part means: each PN_LOCAL_ESC stands for the one after its backslash, and a `%`
/// stands for itself, with hex digits after it or without (Turtle 6.4).
#[tactic(auto, using(crate::proofs::LocalLemmas::local_value_plain))]
pub fn local_value<A: Allocator>(alloc: A, inside: &str) -> Result<String<A>, ValueFault>
    ensures ok { IfOk result (λ s. local_value (chars inside.now) ≡ Some (chars (string_bytes s))) }
    ensures text { IfOk result (λ s. all_have (has iri_char) (chars (string_bytes s)) ≡ true) }
    ensures bad { (result ≡ Err ValueFault.BadEscape) ↔ (local_value (chars inside.now) ≡ None) }
{
    if is_plain_local(inside) {
        return copied(alloc, inside);
    }
    if !has_local_value(inside) {
        return Err(ValueFault::BadEscape);
    }
    unescaped(alloc, inside)
}

/// Whether a local part is its own value: it has IRI characters alone, so no escape. What holds a backslash is not.
#[tactic(auto, using(crate::proofs::LocalLemmas::local_value_plain))]
pub fn is_plain_local(inside: &str) -> bool
    ensures text { result ≡ all_have (has iri_char) (chars inside.now) }
    ensures value { result ≡ true → local_value (chars inside.now) ≡ Some (chars inside.now) }
{
    iri_text(inside)
}

fn has_local_value(inside: &str) -> bool
    ensures { result ≡ is_some (local_value (chars inside.now)) }
{
    let mut escaped = false;
    for c in inside.chars() {
        if !stands(escaped, c) {
            return false;
        }
        escaped = opens(escaped, c);
    }
    !escaped
}

fn stands(escaped: bool, c: char) -> bool
    ensures { result ≡ local_stands escaped c }
{
    if escaped {
        return is_local_escape(c);
    }
    c == '\\' || is_iri_char(c)
}

fn opens(escaped: bool, c: char) -> bool
    ensures { result ≡ local_opens escaped c }
{
    !escaped && c == '\\'
}

/// The text without its backslashes; none of them stands after another.
fn unescaped<A: Allocator>(alloc: A, text: &str) -> Result<String<A>, ValueFault>
    ensures ok { IfOk result (λ s. chars (string_bytes s) ≡ without_backslashes (chars text.now)) }
    ensures memory { OnErr result (result ≡ Err ValueFault.Memory) }
{
    let mut out = String::new(alloc);
    for c in text.chars() {
        if c == '\\' {
            continue;
        }
        if out.push(c).is_err() {
            return Err(ValueFault::Memory);
        }
    }
    Ok(out)
}
