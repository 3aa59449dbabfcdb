// The two dialects of tokens, and their kinds.

/// The two ways to read tokens: N-Triples and N-Quads, or Turtle and TriG.
#[derive(Clone, Copy, PartialEq, Eq, Debug)]
pub enum Dialect {
    /// N-Triples and N-Quads, where a line's end is a token.
    Lines,
    /// Turtle and TriG, where a line's end is white space.
    Turtle,
}

/// The kinds of tokens, by the terminals and keywords of the grammars (Turtle 6.5, TriG 4.5, N-Quads 4).
#[derive(Clone, Copy, PartialEq, Eq, Debug)]
pub enum Kind {
    /// IRIREF
    IriRef,
    /// BLANK_NODE_LABEL
    LabelNode,
    /// STRING_LITERAL_QUOTE and STRING_LITERAL_SINGLE_QUOTE
    ShortString,
    /// STRING_LITERAL_LONG_QUOTE and STRING_LITERAL_LONG_SINGLE_QUOTE
    LongString,
    /// LANGTAG
    LangTag,
    /// `^^`
    Carets,
    /// `.`
    Dot,
    /// One CR or one LF of a line format.
    LineEnd,
    /// INTEGER
    Integer,
    /// DECIMAL
    Decimal,
    /// DOUBLE
    Double,
    /// `true`
    True,
    /// `false`
    False,
    /// `a`
    A,
    /// `@prefix`
    AtPrefix,
    /// `@base`
    AtBase,
    /// `PREFIX` in any case
    Prefix,
    /// `BASE` in any case
    Base,
    /// `GRAPH` in any case
    Graph,
    /// PNAME_NS
    PnameNs,
    /// PNAME_LN
    PnameLn,
    /// `;`
    Semicolon,
    /// `,`
    Comma,
    /// `[`
    OpenBracket,
    /// `]`
    CloseBracket,
    /// `(`
    OpenParen,
    /// `)`
    CloseParen,
    /// `{`
    OpenBrace,
    /// `}`
    CloseBrace,
    /// The end of the input.
    End,
}
