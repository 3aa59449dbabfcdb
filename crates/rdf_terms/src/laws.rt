//! The laws of shapes and values. These functions do nothing: their contracts are the laws.

ghost use Rattle.rdf_terms.specs.Laws.{TextsHaveOneKind, KindsAreShapes, BeginningsAreLive, StringsMeanTheirPieces};
ghost use Rattle.rdf_terms.specs.Laws.{IrisMeanTheirPieces, LocalPartsMeanTheirPieces, FitTextsHaveMeaning};

/// No text has the shapes of two kinds.
pub fn texts_have_one_kind()
    ensures { TextsHaveOneKind }
{}

/// The kind that `kind_of` computes is the kind whose shape the text has.
pub fn kinds_are_shapes()
    ensures { KindsAreShapes }
{}

/// `is_live` says that some longer text with a shape begins with the text.
pub fn beginnings_are_live()
    ensures { BeginningsAreLive }
{}

/// `string_value` computes what the pieces of the inside of a string mean.
pub fn strings_mean_their_pieces()
    ensures { StringsMeanTheirPieces }
{}

/// `iri_value` computes what the pieces of the inside of an IRI mean.
pub fn iris_mean_their_pieces()
    ensures { IrisMeanTheirPieces }
{}

/// `local_value` computes what the pieces of a local part mean.
pub fn local_parts_mean_their_pieces()
    ensures { LocalPartsMeanTheirPieces }
{}

/// `is_fit` says that the inside of an IRI or a string has a meaning.
pub fn fit_texts_have_meaning()
    ensures { FitTextsHaveMeaning }
{}
