// The two forms of a document.

/// Turtle, or TriG, which has graphs too.
#[derive(Clone, Copy, PartialEq, Eq, Debug)]
pub enum DocForm {
    /// Triples of the default graph.
    Turtle,
    /// Triples of the default graph and of labelled graphs.
    TriG,
}
