//! The terms of RDF: IRIs, labels, tags, literals and quads, the classes of their characters, the shapes of
//! the tokens that spell them, and the sinks that quads go to.
#![tactic(auto)]

mod buffers;
mod classes;
mod constants;
pub mod escapes;
mod fault;
mod halves;
mod iris;
mod kind;
mod labels;
pub mod laws;
mod list;
mod local;
mod names;
pub mod place;
mod reason;
pub mod runs;
mod sink;
mod spelled;
mod tags;
mod terms;
mod text;
mod values;
mod views;

pub use buffers::{put_iri, put_string, put_text, text_len};
pub use classes::{
    has_scheme, hex_value, iri_text, is_iri_char, is_local_escape, is_pn_base, is_pn_char, is_pn_u,
};
pub use constants::Known;
pub use fault::TermFault;
pub use iris::Iri;
pub use kind::{Dialect, Kind};
pub use labels::{Label, is_label, label_of};
pub use list::QuadList;
pub use local::{is_plain_local, local_value};
pub use names::is_pname_ns;
pub use reason::Reason;
pub use sink::{PutFault, QuadSink};
pub use spelled::known;
pub use tags::{Tag, is_tag};
pub use terms::{Literal, Node, Quad, Subject, Tail, Term};
pub use text::TextBuffer;
pub use values::{
    ValueFault, iri_value, is_fit, set_iri_value, set_string_value, string_value, without_ends,
    without_first,
};
pub use views::{
    IriView, LabelView, LiteralRef, NodeRef, QuadRef, SubjectRef, TagView, TailRef, TermRef,
};
