// The prefixes of names, read character by character.

ghost use Rattle.std.specs.Prelude.{◌≡◌, ◌↔◌, IsUtf8, true};
ghost use Rattle.std.specs.Str.{chars};
ghost use Rattle.std.specs.Str.Iter.{chars_rest};
ghost use Rattle.rdf_terms.specs.declared.kind.Dialect.TheVariants.{Turtle};
ghost use Rattle.rdf_terms.specs.declared.kind.Kind.TheVariants.{PnameNs};
ghost use Rattle.rdf_terms.specs.Classes.{has};
ghost use Rattle.rdf_terms.specs.Classes.Class.{the};
ghost use Rattle.rdf_terms.specs.Expressions.{Matches};
ghost use Rattle.rdf_terms.specs.Terminals.{Shape, pn_prefix};
ghost use Rattle.rdf_terms.specs.Names.{name_goes_on};

use crate::classes::{is_pn_base, is_pn_char};
use crate::kind::Dialect;
use std::str::Chars;

/// Whether the text is a prefix with its colon, or a colon alone (PNAME_NS, Turtle 6.5).
pub fn is_pname_ns(text: &str) -> bool
    ensures { (result ≡ true) ↔ Shape Turtle PnameNs (chars text.now) }
{
    match text.strip_suffix(':') {
        Some(prefix) => prefix.is_empty() || is_prefix(prefix),
        None => false,
    }
}

/// PN_PREFIX (Turtle 6.5)
fn is_prefix(text: &str) -> bool
    ensures { (result ≡ true) ↔ Matches pn_prefix (chars text.now) }
{
    let mut rest = text.chars();
    match rest.next() {
        Some(c) => is_pn_base(c) && name_goes_on(rest, Dialect::Turtle),
        None => false,
    }
}

/// Whether the rest of a prefix or a label has its characters, and the last of them is no dot.
pub(crate) fn name_goes_on(rest: Chars<'_>, dialect: Dialect) -> bool
    requires { IsUtf8 (chars_rest rest) }
    ensures { result ≡ name_goes_on dialect true (chars (chars_rest rest.entry)) }
{
    let mut ends = true;
    for c in rest {
        ends = is_pn_char(c, dialect);
        if !ends && !is_dot(c) {
            return false;
        }
    }
    ends
}

#[tactic(auto, unfolding(crate::specs::Classes::has))]
fn is_dot(c: char) -> bool
    ensures { result ≡ has (the 46) c }
{
    c == '.'
}
