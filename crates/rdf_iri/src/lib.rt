//! References of RFC 3986, the scope of a document (a base and prefixes), and the limits that every reader keeps.
#![tactic(auto)]

mod base;
mod binding_lines;
mod bindings;
mod dots;
mod fault;
pub mod laws;
mod limits;
mod parts;
mod places;
mod prefixes;
mod resolution;
mod scope;
mod steps;
mod table;

pub use bindings::{Bindings, read_bindings};
pub use fault::{BindingFault, BindingReason, IriFault};
pub use limits::Limits;
pub use parts::{Parts, split};
pub use rdf_terms::has_scheme;
pub use resolution::resolve;
pub use scope::Scope;
