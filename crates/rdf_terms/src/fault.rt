// Why a text is no term.

/// Why a text was not taken as a term.
#[derive(Clone, Copy, PartialEq, Eq, Debug)]
pub enum TermFault {
    /// The text is no such term.
    BadTerm,
    /// A growth of memory was refused.
    Memory,
}
