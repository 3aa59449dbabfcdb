//! What is written for a document of Turtle or TriG, and what `convert` writes for one of any format, is read back
//! as N-Quads; and what is refused is refused for one reason at one place. The laws say so of the definitions of
//! both readers and of the writer, which know nothing of one another.
#![tactic(auto)]

pub mod laws;
