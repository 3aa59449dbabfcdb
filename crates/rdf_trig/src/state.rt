// Where the reader stands: what has been read, as far as it matters for what may come.

ghost use Rattle.std.specs.Prelude.{◌≡◌};
ghost use Rattle.rdf_trig.specs.States.{first_of, cell_of};
ghost use Rattle.rdf_trig.specs.Holding.{frame_bytes};

use crate::names::Name;
use crate::rest::Rest;
use crate::slots::{TagText, Topic};
use crate::spares::Spares;
use rdf_terms::Known;
use std::alloc::{Allocator, Global};

/// The graph of a block.
#[derive(Clone, Copy, Debug)]
pub enum Block {
    /// The default graph.
    Default,
    /// The graph whose label the state has.
    Named,
}

/// Where a statement stands.
#[derive(Clone, Copy, Debug)]
pub enum Level {
    /// Outside of a block.
    Top,
    /// In a block.
    Block(Block),
}

/// What a predicate list stands in.
#[derive(Clone, Copy, Debug)]
pub enum Around {
    /// It is that of a statement.
    Statement,
    /// `[` and `]` are round it.
    PropertyList,
}

/// What is open round an object.
#[derive(Clone, Copy)]
pub enum Container {
    /// A predicate list.
    List(Around),
    /// A collection, with its first and its present cell.
    Cells { first: u64, cell: u64 },
}

/// What is open round an object, with its texts: the subject of a predicate list, and its last verb, where no IRI
/// is `a`.
#[derive(Drop)]
pub struct Frame<A: Allocator = Global> {
    pub container: Container,
    pub subject: Topic<A>,
    pub verb: Name<A>,
}

/// How a directive is spelled.
#[derive(Clone, Copy, Debug)]
pub enum Spelling {
    /// With `@`, and a dot at its end.
    Dotted,
    /// As in SPARQL.
    Sparql,
}

/// Where the reader stands outside of statements.
#[derive(Clone, Copy, Debug)]
pub enum Outer {
    /// Between statements, outside of a block.
    Start,
    /// Between statements, in a block.
    Inside(Block),
    /// After the end.
    Over,
    WantPrefix(Spelling),
    /// The text is the prefix.
    WantPrefixIri(Spelling),
    WantBaseIri(Spelling),
    WantDot,
    /// After GRAPH, after its `[`, and after its label.
    GraphWord,
    GraphBracket,
    WantBrace,
}

/// Where the reader stands. The texts that belong to it are in the state: the subject that has come is that of the
/// frame in hand, a string is the state's text.
#[derive(Clone, Copy, Debug)]
pub enum Mode {
    Outer(Outer),
    /// After a subject; outside of a block it may be a graph's label in TriG.
    AfterSubject,
    /// An object is to come, or has come; a string has come, and after it `^^`.
    Want,
    After,
    AfterText,
    WantType,
    /// After `[` and after `(`.
    PropertyListStart,
    CollectionStart,
    /// A verb has to come; after `;` one may; after a property list that is a subject.
    WantVerb,
    AfterSemicolon,
    AfterPropertyList,
}

/// The quad whose head ended with the last token.
#[derive(Clone, Copy, Debug)]
pub enum Ready {
    Nothing,
    /// That of the object, an IRI or a blank node, where the mode says.
    Resource,
    /// That of the text with the datatype, and with the tag.
    WithType,
    WithTag,
    /// That of the text, a number or a boolean, with the datatype that its form has.
    OfKnown(Known),
    /// The end of a collection, by its last cell.
    Nil(u64),
}

/// What has been read, as far as it matters for what may come. Its texts are used again, so a statement like those
/// before it takes no memory. A name is empty again when its token was taken, one of object and text is empty, and
/// so is one of datatype and tag.
#[derive(Drop)]
pub struct State<A: Allocator = Global> {
    pub alloc: A,
    /// Where the reader stands.
    pub mode: Mode,
    /// The predicate list or collection in hand, in the modes that belong to one. It stays where it is from token
    /// to token.
    pub frame: Frame<A>,
    /// Where the statement stands that is being read.
    pub level: Level,
    /// The label of the graph of the block.
    pub graph: Topic<A>,
    /// What is open round the frame in hand, or round a bracket that has just come, the innermost last.
    pub frames: Vec<Frame<A>, A>,
    /// Frames of brackets that have ended, for those that open.
    pub spares: Spares<A>,
    /// The cell before the one that the last token opened, and that cell.
    pub rest: Rest,
    /// The quad whose head ended with the last token.
    pub ready: Ready,
    /// The object, where it is an IRI or a blank node.
    pub object: Topic<A>,
    /// A lexical form, or the prefix of a directive.
    pub text: String<A>,
    /// The datatype and the tag of the lexical form.
    pub datatype: Name<A>,
    pub tag: TagText<A>,
    /// The IRI that the last token stands for.
    pub name: Name<A>,
    /// The offset of the `[` that has just come.
    pub bracket: u64,
    /// How many `[` and `(` are open.
    pub depth: u64,
}

impl<A: Allocator + Copy> Frame<A> {
    /// What is in hand where the mode needs no frame. It takes no memory.
    pub fn none(alloc: A) -> Frame<A>
        ensures container { result.container ≡ Container.Cells 0 0 }
        ensures texts { frame_bytes result ≡ 0 }
    {
        Frame {
            container: Container::none(),
            subject: Topic::new(alloc),
            verb: Name::new(alloc),
        }
    }
}

impl<A: Allocator> Frame<A> {
    /// Empties its texts. Their memory stays.
    #[inline(always)]
    pub fn clear(&mut self)
        ensures { frame_bytes self.new ≡ 0 }
    {
        self.subject.set_nil();
        self.verb.clear();
    }
}

impl Container {
    /// What is open where the mode needs no frame.
    pub fn none() -> Container
        ensures { result ≡ Container.Cells 0 0 }
    {
        Container::Cells { first: 0, cell: 0 }
    }

    /// The first and the present cell of a collection, zeros where there is none.
    #[inline(always)]
    pub fn cells(self) -> (u64, u64)
        ensures { result ≡ (first_of self, cell_of self) }
    {
        match self {
            Container::Cells { first, cell } => (first, cell),
            Container::List(_) => (0, 0),
        }
    }
}
