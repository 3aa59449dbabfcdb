// Tokens, and why reading stopped.

use rdf_terms::{Kind, Reason};

/// A token: its kind, its text as it is written, and its place.
#[derive(Clone, Copy, Debug)]
pub struct Token<'a> {
    /// The kind.
    pub kind: Kind,
    /// The text as it stands in the input, escapes and delimiters included. That of `End` is empty.
    pub text: &'a str,
    /// The offset of the first byte, from the first byte of the input.
    pub offset: u64,
    /// One plus the number of LF bytes before it.
    pub line: u64,
    /// How many bytes stand before the local part of a name, which are its prefix and the colon, where it is known
    /// that the name has no escape and its prefix no more than letters, digits, `_` and `-` of ASCII. Else 0, which
    /// tells nothing.
    pub colon: usize,
}

/// Why a document was refused, or why reading stopped, and where.
#[derive(Clone, Copy, PartialEq, Eq, Debug)]
pub struct Fault {
    /// The reason.
    pub reason: Reason,
    /// The byte offset of the place, from the first byte of the input.
    pub offset: u64,
    /// One plus the number of LF bytes before it.
    pub line: u64,
}

/// Why a scanner stopped, and where.
pub type ScanFault = Fault;
