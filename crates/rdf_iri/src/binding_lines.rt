// What a line of a file of bindings says.

ghost use Rattle.std.specs.Prelude.{◌≡◌, ◌≤◌, ◌↔◌, ◌++◌, ◌∷◌, [], ℕ, List, true, MatchOption, length};
ghost use Rattle.std.specs.Prelude.{take, drop};
ghost use Rattle.std.specs.Str.{chars};
ghost use Rattle.rdf_terms.specs.declared.kind.Dialect.TheVariants.{Turtle};
ghost use Rattle.rdf_terms.specs.declared.kind.Kind.TheVariants.{PnameNs, Prefix};
ghost use Rattle.rdf_terms.specs.Terminals.{Shape};
ghost use Rattle.rdf_iri.specs.Cuts.{past};
ghost use Rattle.rdf_iri.specs.BindingLines.{is_blank, AreBlanks, BeginsBlank, SaysNothing, IsPlain, IsBinding};
ghost use Rattle.rdf_iri.specs.BindingSteps.{IsComment, NameThen, IriThen, PairThen, EndsAtDot, Declares};
ghost use Rattle.rdf_iri.specs.BindingSteps.{IsDeclaration, IsIn};

use crate::parts::cut;
use rdf_terms::{has_scheme, iri_text, is_pname_ns};

/// Whether a line is empty, blank or a comment.
pub(crate) fn says_nothing(text: &str) -> bool
    ensures { (result ≡ true) ↔ SaysNothing (chars text.now) }
{
    let rest = after_blanks(text);
    rest.is_empty() || is_comment(rest)
}

fn is_comment(text: &str) -> bool
    ensures { (result ≡ true) ↔ IsComment (chars text.now) }
{
    match text.strip_prefix('#') {
        Some(comment) => !comment.contains('\r'),
        None => false,
    }
}

/// The prefix and the IRI of a line, if it has a form of a binding.
pub(crate) fn binding_in(text: &str) -> Option<(&str, &str)>
    ensures { MatchOption result ((prefix iri : List ℕ) → IsBinding text.now prefix iri → ⊥) (λ p.
        IsBinding text.now (chars p.0.now) (chars p.1.now)) }
{
    match plain(text) {
        Some(found) => Some(found),
        None => declaration(text),
    }
}

/// `ex: http://example.org/`
fn plain(text: &str) -> Option<(&str, &str)>
    ensures { MatchOption result ((prefix iri : List ℕ) → IsIn IsPlain (chars text.now) prefix iri → ⊥) (λ p.
        IsIn IsPlain (chars text.now) (chars p.0.now) (chars p.1.now)) }
{
    let (name, rest) = cut(text, ' ');
    match rest {
        Some(iri) => {
            if is_pname_ns(name) && iri_text(iri) && has_scheme(iri) {
                Some((without_colon(name), iri))
            } else {
                None
            }
        }
        None => None,
    }
}

/// `@prefix ex: <http://example.org/> .` or `PREFIX ex: <http://example.org/>`
fn declaration(text: &str) -> Option<(&str, &str)>
    ensures { MatchOption result ((prefix iri : List ℕ) → IsIn IsDeclaration (chars text.now) prefix iri → ⊥) (λ p.
        IsIn IsDeclaration (chars text.now) (chars p.0.now) (chars p.1.now)) }
{
    let text = after_blanks(text);
    match text.strip_prefix("@prefix") {
        Some(rest) => prefix_id(rest),
        None => sparql_prefix(after_keyword(text)?),
    }
}

/// What follows `@prefix`.
fn prefix_id(text: &str) -> Option<(&str, &str)>
    ensures { MatchOption result ((prefix iri : List ℕ) → Declares EndsAtDot (chars text.now) prefix iri → ⊥) (λ p.
        Declares EndsAtDot (chars text.now) (chars p.0.now) (chars p.1.now)) }
{
    let (prefix, iri, rest) = pair(text)?;
    if ends_at_dot(rest) {
        Some((prefix, iri))
    } else {
        None
    }
}

/// What follows `PREFIX`.
fn sparql_prefix(text: &str) -> Option<(&str, &str)>
    ensures { MatchOption result ((prefix iri : List ℕ) → Declares SaysNothing (chars text.now) prefix iri → ⊥) (λ p.
        Declares SaysNothing (chars text.now) (chars p.0.now) (chars p.1.now)) }
{
    let (prefix, iri, rest) = pair(text)?;
    if says_nothing(rest) {
        Some((prefix, iri))
    } else {
        None
    }
}

fn ends_at_dot(text: &str) -> bool
    ensures { (result ≡ true) ↔ EndsAtDot (chars text.now) }
{
    match after_blanks(text).strip_prefix('.') {
        Some(rest) => says_nothing(rest),
        None => false,
    }
}

/// The text after `PREFIX`, in any case.
fn after_keyword(text: &str) -> Option<&str>
    ensures { MatchOption result ((keyword rest : List ℕ) → Shape Turtle Prefix keyword → chars text.now ≡ keyword
        ++ rest → ⊥)
        (λ x. (keyword : List ℕ) × Shape Turtle Prefix keyword × (chars text.now ≡ keyword ++ chars x.now)) }
{
    let (keyword, rest) = text.split_at_checked(6)?;
    if keyword.eq_ignore_ascii_case("PREFIX") {
        Some(rest)
    } else {
        None
    }
}

/// PNAME_NS and IRIREF: the prefix, the IRI and what follows.
fn pair(text: &str) -> Option<(&str, &str, &str)>
    ensures { MatchOption result ((p : List ℕ × List ℕ × List ℕ) → PairThen (chars text.now) p → ⊥) (λ p.
        PairThen (chars text.now) (chars p.0.now, chars p.1.now, chars p.2.now)) }
{
    let (prefix, rest) = name_in(text)?;
    let (iri, rest) = iri_in(rest)?;
    Some((prefix, iri, rest))
}

/// The prefix of a PNAME_NS behind a blank, and what follows.
fn name_in(text: &str) -> Option<(&str, &str)>
    ensures { MatchOption result ((prefix rest : List ℕ) → NameThen (chars text.now) prefix rest → ⊥) (λ p.
        NameThen (chars text.now) (chars p.0.now) (chars p.1.now)) }
{
    if !begins_blank(text) {
        return None;
    }
    let named = after_blanks(text);
    let (prefix, rest) = cut(named, ':');
    match rest {
        Some(rest) => {
            let (name, _) = named.split_at(prefix.len() + 1);
            if is_pname_ns(name) {
                Some((prefix, rest))
            } else {
                None
            }
        }
        None => None,
    }
}

/// The IRI of an IRIREF, if it is absolute, and what follows.
fn iri_in(text: &str) -> Option<(&str, &str)>
    ensures { MatchOption result ((iri rest : List ℕ) → IriThen (chars text.now) iri rest → ⊥) (λ p.
        IriThen (chars text.now) (chars p.0.now) (chars p.1.now)) }
{
    let (iri, rest) = cut(after_blanks(text).strip_prefix('<')?, '>');
    match rest {
        Some(rest) => {
            if iri_text(iri) && has_scheme(iri) {
                Some((iri, rest))
            } else {
                None
            }
        }
        None => None,
    }
}

fn without_colon(name: &str) -> &str
    requires { Shape Turtle PnameNs (chars name.now) }
    ensures { name.now ≡ result.now ++ 58 ∷ [] }
{
    match name.strip_suffix(':') {
        Some(prefix) => prefix,
        None => unreachable!(),
    }
}

fn begins_blank(text: &str) -> bool
    ensures { (result ≡ true) ↔ BeginsBlank (chars text.now) }
{
    blanks_len(text.as_bytes()) > 0
}

fn after_blanks(text: &str) -> &str
    ensures { chars result.now ≡ past is_blank (chars text.now) }
{
    &text[blanks_len(text.as_bytes())..]
}

/// How many spaces and tabs stand first.
fn blanks_len(text: &[u8]) -> usize
    ensures within { result ≤ length text.now }
    ensures front { AreBlanks (take result text.now) }
    ensures rest { drop result text.now ≡ past is_blank text.now }
{
    for (i, byte) in text.iter().enumerate() {
        if *byte != b' ' && *byte != b'\t' {
            return i;
        }
    }
    text.len()
}
