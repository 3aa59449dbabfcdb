// What a line reader goes by.

use crate::form::LineForm;

/// The form of the documents, and the most bytes of an IRI.
#[derive(Clone, Copy)]
pub struct Rules {
    pub form: LineForm,
    pub iri: u64,
}
