// The formats, and the forms of what is written.

ghost use Rattle.std.specs.Prelude.{◌≡◌};
ghost use Rattle.rdf_lines.specs.Forms.{form_of};
ghost use Rattle.rdf_lines.specs.NodePrefixes.{unprefixed};

use crate::prefix::NodePrefixView;

/// A line format.
#[derive(Clone, Copy, PartialEq, Eq, Debug)]
pub enum LineForm {
    /// N-Triples: a statement has no graph label.
    NTriples,
    /// N-Quads.
    NQuads,
}

/// How blank nodes are named in what is written.
#[derive(Clone, Copy, PartialEq, Eq, Debug)]
pub enum Style {
    /// A label stays as it is; a node without one can't be written.
    Kept,
    /// A letter before each name tells labels, unnamed nodes and cells apart.
    Tagged,
}

/// How characters above U+007F stand in what is written.
#[derive(Clone, Copy, PartialEq, Eq, Debug)]
pub enum Escapes {
    /// As they are.
    Plain,
    /// In strings and IRIs as UCHAR: `\u` and four hex digits up to U+FFFF, `\U` and eight above. Labels have no
    /// escapes.
    Ascii,
}

/// How lines end that are read.
#[derive(Clone, Copy, PartialEq, Eq, Debug)]
pub enum LineEnding {
    /// In LF, as each line that is written.
    Lf,
    /// In CR and LF.
    CrLf,
}

/// All that is asked for of what is written.
#[derive(Clone, Copy)]
pub struct WrittenForm<'a> {
    /// How nodes are named.
    pub style: Style,
    /// How characters above U+007F stand.
    pub escapes: Escapes,
    /// The word in front of each node's name, after its `_:`.
    pub prefix: NodePrefixView<'a>,
}

impl WrittenForm<'static> {
    /// The form with no word in front of the names.
    pub fn new(style: Style, escapes: Escapes) -> WrittenForm<'static>
        ensures { form_of result ≡ unprefixed style escapes }
    {
        WrittenForm {
            style,
            escapes,
            prefix: NodePrefixView::none(),
        }
    }
}
