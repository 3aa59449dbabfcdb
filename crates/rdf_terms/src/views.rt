// Terms and quads whose texts lie elsewhere.

ghost use Rattle.std.specs.Prelude.{◌≡◌, IsUtf8};
ghost use Rattle.std.specs.Str.{chars};
ghost use Rattle.rdf_terms.specs.Terms.{IsIri, IsLabel, IsTag};

/// An absolute IRI: characters of IRIREF, and a scheme.
#[derive(Clone, Copy)]
pub struct IriView<'a> {
    text: &'a [u8],
    ghost utf8: { ∥ IsUtf8 text.now ∥₁ },
    ghost is_iri: { ∥ IsIri (chars text.now) ∥₁ },
}

/// The part of a blank node label after `_:`, of the line formats.
#[derive(Clone, Copy)]
pub struct LabelView<'a> {
    text: &'a [u8],
    ghost utf8: { ∥ IsUtf8 text.now ∥₁ },
    ghost is_label: { ∥ IsLabel (chars text.now) ∥₁ },
}

/// A language tag without its `@`.
#[derive(Clone, Copy)]
pub struct TagView<'a> {
    text: &'a str,
    ghost utf8: { ∥ IsUtf8 text.now ∥₁ },
    ghost is_tag: { ∥ IsTag (chars text.now) ∥₁ },
}

impl<'a> IriView<'a> {
    /// A text that is known to be an absolute IRI.
    pub fn new(text: &'a str) -> IriView<'a>
        requires { IsIri (chars text.now) }
        ensures { result.text.now ≡ text.entry.now }
    {
        IriView::of_bytes(text.as_bytes())
    }

    /// The same of its bytes in UTF-8.
    #[inline(always)]
    pub fn of_bytes(text: &'a [u8]) -> IriView<'a>
        requires utf8 { IsUtf8 text.now }
        requires text { IsIri (chars text.now) }
        ensures { result.text.now ≡ text.entry.now }
    {
        IriView { text }
    }

    /// The IRI, without brackets. Its UTF-8 is checked once more.
    pub fn as_str(self) -> &'a str
        ensures { result.now ≡ self.entry.text.now }
    {
        match str::from_utf8(self.text) {
            Ok(text) => text,
            Err(_) => unreachable!(),
        }
    }

    /// The IRI, without brackets, in UTF-8.
    #[inline(always)]
    pub fn as_bytes(self) -> &'a [u8]
        ensures { result.now ≡ self.entry.text.now }
    {
        self.text
    }
}

impl<'a> LabelView<'a> {
    /// A text that is known to be a label.
    pub fn new(text: &'a str) -> LabelView<'a>
        requires { IsLabel (chars text.now) }
        ensures { result.text.now ≡ text.entry.now }
    {
        LabelView::of_bytes(text.as_bytes())
    }

    /// The same of its bytes in UTF-8.
    #[inline(always)]
    pub fn of_bytes(text: &'a [u8]) -> LabelView<'a>
        requires utf8 { IsUtf8 text.now }
        requires text { IsLabel (chars text.now) }
        ensures { result.text.now ≡ text.entry.now }
    {
        LabelView { text }
    }

    /// The label, without its `_:`. Its UTF-8 is checked once more.
    pub fn as_str(self) -> &'a str
        ensures { result.now ≡ self.entry.text.now }
    {
        match str::from_utf8(self.text) {
            Ok(text) => text,
            Err(_) => unreachable!(),
        }
    }

    /// The label, without its `_:`, in UTF-8.
    #[inline(always)]
    pub fn as_bytes(self) -> &'a [u8]
        ensures { result.now ≡ self.entry.text.now }
    {
        self.text
    }
}

impl<'a> TagView<'a> {
    /// A text that is known to be a tag.
    pub fn new(text: &'a str) -> TagView<'a>
        requires { IsTag (chars text.now) }
        ensures { result.text.now ≡ text.entry.now }
    {
        TagView { text }
    }

    /// The tag, without its `@`.
    pub fn as_str(self) -> &'a str
        ensures { result.now ≡ self.entry.text.now }
    {
        self.text
    }
}

/// A blank node: one with a label, or one that the document does not name.
#[derive(Clone, Copy)]
pub enum NodeRef<'a> {
    /// A label of the document.
    Label(LabelView<'a>),
    /// The node of a `[` at this byte offset.
    Anon(u64),
    /// The cell of a collection's item whose first token stands at this byte offset.
    Cell(u64),
}

/// What a literal has besides its lexical form.
#[derive(Clone, Copy)]
pub enum TailRef<'a> {
    /// A language tag.
    Lang(TagView<'a>),
    /// A datatype; that of a plain string is xsd:string.
    Typed(IriView<'a>),
}

/// A literal (RDF 1.1 Concepts 3.3).
#[derive(Clone, Copy)]
pub struct LiteralRef<'a> {
    /// The lexical form.
    pub lexical: &'a str,
    /// The language tag or the datatype.
    pub tail: TailRef<'a>,
    ghost utf8: { ∥ IsUtf8 lexical.now ∥₁ },
}

impl<'a> LiteralRef<'a> {
    /// The literal of a lexical form and what it has besides.
    pub fn new(lexical: &'a str, tail: TailRef<'a>) -> LiteralRef<'a>
        ensures lexical { result.lexical.now ≡ lexical.entry.now }
        ensures tail { result.tail ≡ tail.entry }
    {
        LiteralRef { lexical, tail }
    }
}

/// A subject or a graph label.
#[derive(Clone, Copy)]
pub enum SubjectRef<'a> {
    /// An IRI.
    Iri(IriView<'a>),
    /// A blank node.
    Node(NodeRef<'a>),
}

/// An object.
#[derive(Clone, Copy)]
pub enum TermRef<'a> {
    /// An IRI.
    Iri(IriView<'a>),
    /// A blank node.
    Node(NodeRef<'a>),
    /// A literal.
    Literal(LiteralRef<'a>),
}

/// A quad; without a graph label it belongs to the default graph.
#[derive(Clone, Copy)]
pub struct QuadRef<'a> {
    /// The subject.
    pub subject: SubjectRef<'a>,
    /// The predicate.
    pub predicate: IriView<'a>,
    /// The object.
    pub object: TermRef<'a>,
    /// The graph label, if there is one.
    pub graph: Option<SubjectRef<'a>>,
}
