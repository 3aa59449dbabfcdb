// The IRIs that a document may mean without spelling them (Turtle 2.4, 2.5, 2.8; RDF 1.1 Concepts 3.3).

/// An IRI that a document may mean without spelling it.
#[derive(Clone, Copy, PartialEq, Eq, Debug)]
pub enum Known {
    /// rdf:type
    RdfType,
    /// rdf:first
    RdfFirst,
    /// rdf:rest
    RdfRest,
    /// rdf:nil
    RdfNil,
    /// xsd:string
    XsdString,
    /// xsd:integer
    XsdInteger,
    /// xsd:decimal
    XsdDecimal,
    /// xsd:double
    XsdDouble,
    /// xsd:boolean
    XsdBoolean,
}
