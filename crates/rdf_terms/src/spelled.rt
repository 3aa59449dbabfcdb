// The constant IRIs, spelled out.

ghost use Rattle.std.specs.Prelude.{◌≡◌};
ghost use Rattle.std.specs.Str.{chars};
ghost use Rattle.rdf_terms.specs.Known.{known_chars};
ghost use Rattle.rdf_terms.specs.Views.{iri_chars};

use crate::constants::Known;
use crate::views::IriView;

/// The IRI itself.
pub fn known(known: Known) -> IriView<'static>
    ensures { iri_chars result ≡ known_chars known }
{
    IriView::new(text(known))
}

fn text(known: Known) -> &'static str
    ensures { chars result.now ≡ known_chars known }
{
    match known {
        Known::RdfType => "http://www.w3.org/1999/02/22-rdf-syntax-ns#type",
        Known::RdfFirst => "http://www.w3.org/1999/02/22-rdf-syntax-ns#first",
        Known::RdfRest => "http://www.w3.org/1999/02/22-rdf-syntax-ns#rest",
        Known::RdfNil => "http://www.w3.org/1999/02/22-rdf-syntax-ns#nil",
        Known::XsdString => "http://www.w3.org/2001/XMLSchema#string",
        Known::XsdInteger => "http://www.w3.org/2001/XMLSchema#integer",
        Known::XsdDecimal => "http://www.w3.org/2001/XMLSchema#decimal",
        Known::XsdDouble => "http://www.w3.org/2001/XMLSchema#double",
        Known::XsdBoolean => "http://www.w3.org/2001/XMLSchema#boolean",
    }
}
