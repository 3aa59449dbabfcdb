// The formats that are read.

ghost use Rattle.std.specs.Prelude.{◌≡◌};
ghost use Rattle.rdf_stream.specs.Kinds.{kind_of};

use rdf_lines::LineForm;
use rdf_trig::DocForm;

/// The format of a document.
#[derive(Clone, Copy, PartialEq, Eq, Debug)]
pub enum Form {
    /// N-Triples.
    NTriples,
    /// N-Quads.
    NQuads,
    /// Turtle.
    Turtle,
    /// TriG.
    TriG,
}

/// A line format, or one of statements with names and brackets.
#[derive(Clone, Copy)]
pub(crate) enum Kind {
    Line(LineForm),
    Tree(DocForm),
}

impl Form {
    /// Which kind of format it is.
    pub(crate) fn kind(self) -> Kind
        ensures { result ≡ kind_of self }
    {
        match self {
            Form::NTriples => Kind::Line(LineForm::NTriples),
            Form::NQuads => Kind::Line(LineForm::NQuads),
            Form::Turtle => Kind::Tree(DocForm::Turtle),
            Form::TriG => Kind::Tree(DocForm::TriG),
        }
    }
}
