// The states of the token shapes, by family.

pub(crate) mod family;
pub(crate) mod fixed;
pub(crate) mod iri;
pub(crate) mod label;
pub(crate) mod machine;
pub(crate) mod name;
pub(crate) mod number;
pub(crate) mod shape;
pub(crate) mod tag;
pub(crate) mod text;
pub(crate) mod wide;
