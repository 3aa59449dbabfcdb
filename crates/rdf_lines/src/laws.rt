// Laws of line reading and of the written lines, over the definitions alone.

ghost use Rattle.rdf_lines.specs.SplitLines.{DocumentsAreTheirLines, GoodLinesAreRead};
ghost use Rattle.rdf_lines.specs.Canonical.{CanonicalLinesAreRead, CanonicalLinesAreWritten};
ghost use Rattle.rdf_lines.specs.Laws.{MarksNeverFall, TokensSettleTheQuads, TokensSettleWhatIsDue};
ghost use Rattle.rdf_lines.specs.Laws.{DueBeginsTheQuads, BeginningsAreCompleted, ReadQuadsAreDue, DocumentsAreRead};
ghost use Rattle.rdf_lines.specs.Laws.{RefusedIsNoDocument, DocumentIsWritable, WrittenTextReadsBack};
ghost use Rattle.rdf_lines.specs.Laws.{WrittenTextIsRead, WrittenDocumentIsRead, AsciiIsWritten, FormsAgreeOnAscii};
ghost use Rattle.rdf_lines.specs.Laws.{NamesStayApart, PrefixesKeepApart, JoinedTextsReadBack, NoPrefixIsNoChange};

/// The bytes written for quads in a form are a document of N-Quads, whose quads are these with their nodes named so,
/// one for one and in order. Any limit on a token's characters that is not below the text's length serves.
pub fn written_text_reads_back()
    ensures { WrittenTextReadsBack }
{}

/// No two nodes are written under one name in one form.
pub fn names_stay_apart()
    ensures { NamesStayApart }
{}

/// The marks never fall along the quads of a tree: a quad is not due before one that stands in front of it.
pub fn marks_never_fall()
    ensures { MarksNeverFall }
{}

/// Every tree of the same tokens has the same quads, with the same marks.
pub fn tokens_settle_the_quads()
    ensures { TokensSettleTheQuads }
{}

/// What is due after some tokens is the same in every document that begins with them.
pub fn tokens_settle_what_is_due()
    ensures { TokensSettleWhatIsDue }
{}

/// What is due is a beginning of the quads of each document that begins so.
pub fn due_begins_the_quads()
    ensures { DueBeginsTheQuads }
{}

/// What begins a document is completed to one by an IRI, a dot and the end of the input.
pub fn beginnings_are_completed()
    ensures { BeginningsAreCompleted }
{}

/// What a reader has read begins a document within the limits, and the quads that were put are those that are due.
pub fn read_quads_are_due()
    ensures { ReadQuadsAreDue }
{}

/// A document within the limits is read to its end, and nothing that begins it is refused.
pub fn documents_are_read()
    ensures { DocumentsAreRead }
{}

/// What is refused is no document within the limits.
pub fn refused_is_no_document()
    ensures { RefusedIsNoDocument }
{}

/// What is written for quads is read to its end by a reader of N-Quads, with any limit on IRIs that no IRI of the quads
/// passes, and any limit on tokens that no token of the lines passes without the word, and the word's length more.
pub fn written_text_is_read()
    ensures { WrittenTextIsRead }
{}

/// The quads of a document of a line format can be written with their labels kept: they are well formed, and each of
/// their nodes has a label.
pub fn document_is_writable()
    ensures { DocumentIsWritable }
{}

/// What is written for a document of a line format is read to its end: with twice its limit on tokens, room for an IRI
/// and its brackets, and its limit on IRIs, each at least 64. In ASCII with ten times its limit on tokens, and room for
/// three times an IRI. With a word in front of the names, with the word's length more for tokens.
pub fn written_document_is_read()
    ensures { WrittenDocumentIsRead }
{}

/// Between two lines, lines that stand as they are written spell tokens that a reader accepts, give their quads,
/// and lead back between two lines.
pub fn canonical_lines_are_read()
    ensures { CanonicalLinesAreRead }
{}

/// Lines that stand as they are written are what is written for their quads, but for the CRs of those that end in
/// CR and LF.
pub fn canonical_lines_are_written()
    ensures { CanonicalLinesAreWritten }
{}

/// In ASCII each byte that is written is below 128, where each label has such characters alone.
pub fn ascii_is_written()
    ensures { AsciiIsWritten }
{}

/// The plain form and the one in ASCII have the same text where the plain one is ASCII: then no character is escaped.
pub fn forms_agree_on_ascii()
    ensures { FormsAgreeOnAscii }
{}

/// With two different words of one length no node of the one is written under the name of a node of the other.
pub fn prefixes_keep_apart()
    ensures { PrefixesKeepApart }
{}

/// Texts that were written with words, one after the other, are a document of N-Quads that has the quads of both.
pub fn joined_texts_read_back()
    ensures { JoinedTextsReadBack }
{}

/// The empty word changes no line and no name, so the laws hold of what is written without one.
pub fn no_prefix_is_no_change()
    ensures { NoPrefixIsNoChange }
{}

/// Bytes are a document within the limits exactly where each of their lines is one by itself, and then its quads
/// are those of its lines, in order.
pub fn documents_are_their_lines()
    ensures { DocumentsAreTheirLines }
{}

/// What is left of some bytes without their bad lines is a document within the limits, and its quads are those of
/// the lines that are left.
pub fn good_lines_are_read()
    ensures { GoodLinesAreRead }
{}
