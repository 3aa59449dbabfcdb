// What was read of a document.

/// What was read.
#[derive(Clone, Copy, PartialEq, Eq, Debug)]
pub struct Summary {
    /// How many quads were put into the sinks.
    pub quads: u64,
    /// How many tokens were accepted. The end is not counted.
    pub tokens: u64,
    /// How many bytes there are.
    pub bytes: u64,
}
