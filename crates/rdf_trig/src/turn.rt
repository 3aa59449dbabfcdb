// What a token does, in the words of the grammar's productions.

use crate::state::{Around, Level, Outer, Spelling};
use rdf_terms::Known;

/// How a subject begins.
#[derive(Clone, Copy, Debug)]
pub enum SubjectStart {
    /// An IRI, as a reference or a name.
    Name,
    Label,
    /// `[` and `(`.
    Brackets,
    Collection,
}

/// What a verb is.
#[derive(Clone, Copy, Debug)]
pub enum Verb {
    /// An IRI, as a reference or a name.
    Name,
    /// `a`, which is rdf:type.
    Type,
}

/// How an object begins.
#[derive(Clone, Copy, Debug)]
pub enum ObjectStart {
    /// An IRI, as a reference or a name.
    Name,
    Label,
    ShortString,
    LongString,
    /// A number, of this type.
    Number(Known),
    True,
    False,
    /// `[` and `(`.
    Brackets,
    Collection,
}

/// What a token does. It has nothing that the state has, as the offset of a bracket that has come.
#[derive(Clone, Copy, Debug)]
pub enum Turn {
    /// It leads outside of statements, to a mode whose texts are there: of a directive all but its prefix, GRAPH,
    /// what opens and closes a block, the end of a statement, the end of the document.
    Lead(Outer),
    /// The prefix of a directive.
    Prefix(Spelling),
    /// A graph's label after GRAPH: an IRI, the label of a blank node, `[` and the `]` after it.
    GraphName,
    GraphLabel,
    GraphBracket,
    GraphNode,
    /// `{` after what would be a subject.
    SubjectBlock,
    /// A subject begins, of a statement at this level.
    Subject(Level, SubjectStart),
    /// A verb of a predicate list, and the first one in brackets.
    Verb(Around, Verb),
    FirstVerb(Verb),
    /// An object begins: after a verb or a comma, as the first item of a collection, as the next one.
    Object(ObjectStart),
    FirstItem(ObjectStart),
    NextItem(ObjectStart),
    /// `,` and `;`.
    NextObject,
    NextVerb,
    /// After a string: its tag, `^^`, and its datatype.
    Tag,
    DatatypeMark,
    Datatype,
    /// `]` after `[`, and at the end of a predicate list.
    EndNode,
    EndPropertyList,
    /// `)` after `(`, and after an item.
    EmptyCollection,
    EndCollection,
}
