// The texts that tokens spell.

ghost use Rattle.std.specs.Prelude.{◌≡◌, ◌<◌, ◌≤◌, ◌*◌, [], true, OnOk, Some, drop, length, unwrap_or};
ghost use Rattle.std.specs.Str.{chars};
ghost use Rattle.std.specs.String.{string_bytes};
ghost use Rattle.rdf_terms.specs.Terms.{IsTag};
ghost use Rattle.rdf_terms.specs.Values.{is_fit, local_value};
ghost use Rattle.rdf_iri.specs.Texts.{IsIriText, before, after};
ghost use Rattle.rdf_tokens.specs.Scans.{KnowsColon};
ghost use Rattle.rdf_trig.specs.Scopes.{MeansLocal};
ghost use Rattle.rdf_trig.specs.Spelled.{long_in, SpellsTag};
ghost use Rattle.rdf_trig.specs.States.{leaf, IsTurtleToken};

use rdf_terms::{Kind, put_string, without_ends, without_first};
use rdf_tokens::Token;
use std::alloc::{AllocError, Allocator};

/// Puts the lexical form of a string in three quotes in place of a text.
pub fn set_long_string<A: Allocator>(out: &mut String<A>, text: &str) -> Result<(), AllocError>
    requires { is_fit Kind.LongString (chars text.now) ≡ true }
    ensures value { OnOk result (chars (string_bytes out.new) ≡ long_in (chars text.now)) }
    ensures short { OnOk result (length (string_bytes out.new) ≤ 4 * length (chars text.now)) }
{
    put_string(out, without_ends(without_ends(text)))
}

/// The tag of a LANGTAG, or of a word that is one too.
#[inline(always)]
pub fn tag_of<'a>(token: &Token<'a>) -> &'a str
    requires token { IsTurtleToken token.now }
    requires tag { SpellsTag token.now.kind }
    ensures tag { chars result.now ≡ drop 1 (leaf token.now).text }
    ensures is_tag { IsTag (chars result.now) }
{
    without_first(token.text)
}

/// What stands before the first colon of a name, and after it.
#[inline(always)]
pub fn parts(name: &str) -> (&str, &str)
    ensures prefix { chars result.0.now ≡ before 58 (chars name.now) }
    ensures local { chars result.1.now ≡ unwrap_or (after 58 (chars name.now)) [] }
{
    match name.as_bytes().iter().position(|byte| *byte == b':') {
        Some(len) => (&name[..len], &name[len + 1..]),
        None => (name, ""),
    }
}

/// The same of a name that is plain, by the place after its colon: what stands there has no escape, and so is its own
/// value.
#[inline(always)]
pub fn plain_parts(name: &str, past: usize) -> (&str, &str)
    requires some { 0 < past }
    requires colon { KnowsColon name.now past }
    requires means { MeansLocal (unwrap_or (after 58 (chars name.now)) []) }
    ensures prefix { chars result.0.now ≡ before 58 (chars name.now) }
    ensures local { chars result.1.now ≡ unwrap_or (after 58 (chars name.now)) [] }
    ensures text { IsIriText (chars result.1.now) }
    ensures value { local_value (chars result.1.now) ≡ Some (chars result.1.now) }
{
    (&name[..past - 1], &name[past..])
}
