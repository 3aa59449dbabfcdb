// Characters from 128 on: three widths tell all classes apart.

ghost use Rattle.std.specs.Prelude.{◌≡◌};
ghost use Rattle.rdf_tokens.specs.Sorts.{wide_of, is_mark};

use rdf_terms::is_pn_base;

/// What the classes can tell of a character from 128 on.
#[derive(Clone, Copy)]
pub(crate) enum Wide {
    /// PN_CHARS_BASE.
    Letter,
    /// PN_CHARS alone.
    Mark,
    /// Neither.
    Other,
}

fn is_name_mark(c: char) -> bool
    ensures { result ≡ is_mark c }
{
    matches!(c, '\u{B7}' | '\u{300}'..='\u{36F}' | '\u{203F}'..='\u{2040}')
}

#[inline(never)]
#[tactic(auto, unfolding(crate::specs::Sorts::wide_of, rdf_terms::specs::Classes::has))]
pub(crate) fn width(c: char) -> Wide
    ensures { result ≡ wide_of c }
{
    if is_pn_base(c) {
        Wide::Letter
    } else if is_name_mark(c) {
        Wide::Mark
    } else {
        Wide::Other
    }
}
