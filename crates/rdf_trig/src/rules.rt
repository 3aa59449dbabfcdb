// What a reader of Turtle or TriG goes by.

use crate::form::DocForm;
use rdf_iri::Limits;

/// The form of the documents, and the limits.
#[derive(Clone, Copy)]
pub struct Rules {
    pub form: DocForm,
    pub limits: Limits,
}
