//! The laws of references and of files of bindings. These functions do nothing: their contracts are the laws.

ghost use Rattle.rdf_iri.specs.BindingLaws.{FailingFilesAreNone};
ghost use Rattle.rdf_iri.specs.Laws.{ReferencesSplitOnce, DotsHaveOneResult, ReferencesHaveOneResult, PartsAreComputed};
ghost use Rattle.rdf_iri.specs.Laws.{DotsAreComputed, ResultsAreComputed};

/// A reference splits into its five parts in one way.
pub fn references_split_once()
    ensures { ReferencesSplitOnce }
{}

/// A path has one result without its dot segments.
pub fn dots_have_one_result()
    ensures { DotsHaveOneResult }
{}

/// A reference against a base, or none, resolves to one IRI.
pub fn references_have_one_result()
    ensures { ReferencesHaveOneResult }
{}

/// `parts_of` computes the parts into which a reference splits.
pub fn parts_are_computed()
    ensures { PartsAreComputed }
{}

/// `remove_dots` computes the path without its dot segments.
pub fn dots_are_computed()
    ensures { DotsAreComputed }
{}

/// `resolved` computes the IRI that a reference resolves to, and there is none without a scheme and a base.
pub fn results_are_computed()
    ensures { ResultsAreComputed }
{}

/// A file of which a line fails is no file of bindings within the limits: such a file is refused for want of memory
/// alone.
pub fn failing_files_are_none()
    ensures { FailingFilesAreNone }
{}
