//! The tests of complete runs, and of what they say of a refusal, over public calls: `stream` of the runs, `trees` of the
//! readers of Turtle and TriG with the same documents, `expected` of the kinds of tokens that all readers name after an
//! unexpected one, `near` of what a run tells of the place of a refusal, and `causes` of the likely causes. `documents`
//! has no tests: it holds the documents that `stream` and `trees` read.
#![tactic(auto)]

#[cfg(test)]
mod causes;
#[cfg(test)]
mod documents;
#[cfg(test)]
mod expected;
#[cfg(test)]
mod near;
#[cfg(test)]
mod stream;
#[cfg(test)]
mod trees;
