// The family of shapes that a first character begins.

ghost use Rattle.std.specs.Prelude.{◌≡◌, ◌<◌};
ghost use Rattle.rdf_tokens.specs.Sorts.{sort_by};
ghost use Rattle.rdf_tokens.specs.Machine.{ascii, high};

use crate::states::wide::{Wide, width};
use Family::{Iri, Label, Name, Number, Other, Tag, Text};

/// The family that a first character begins.
#[derive(Clone, Copy)]
pub(crate) enum Family {
    Iri,
    Label,
    Text,
    Tag,
    Number,
    Name,
    /// No family: a spelling, or nothing.
    Other,
}

/// The families of ASCII, from byte 0 on.
static FAMILIES: [Family; 128] = [
    Other, Other, Other, Other, Other, Other, Other, Other, Other, Other, Other, Other, Other,
    Other, Other, Other, Other, Other, Other, Other, Other, Other, Other, Other, Other, Other,
    Other, Other, Other, Other, Other, Other, Other, Other, Text, Other, Other, Other, Other, Text,
    Other, Other, Other, Number, Other, Number, Number, Other, Number, Number, Number, Number,
    Number, Number, Number, Number, Number, Number, Name, Other, Iri, Other, Other, Other, Tag,
    Name, Name, Name, Name, Name, Name, Name, Name, Name, Name, Name, Name, Name, Name, Name, Name,
    Name, Name, Name, Name, Name, Name, Name, Name, Name, Name, Other, Other, Other, Other, Label,
    Other, Name, Name, Name, Name, Name, Name, Name, Name, Name, Name, Name, Name, Name, Name,
    Name, Name, Name, Name, Name, Name, Name, Name, Name, Name, Name, Name, Other, Other, Other,
    Other, Other,
];

#[inline(always)]
fn family_of_ascii(byte: u8) -> Family
    requires { byte < 128 }
    ensures { result ≡ ascii byte }
{
    FAMILIES[byte as usize]
}

fn family_of_wide(wide: Wide) -> Family
    ensures { result ≡ high wide }
{
    match wide {
        Wide::Letter => Family::Name,
        _ => Family::Other,
    }
}

/// The family that a character begins.
#[inline(always)]
pub(crate) fn family_of(c: char) -> Family
    ensures { result ≡ sort_by ascii high c }
{
    let code = c as u32;
    if code < 128 {
        family_of_ascii(code as u8)
    } else {
        family_of_wide(width(c))
    }
}
