//! The laws of reading back. These functions do nothing: their contracts are the laws.

ghost use Rattle.rdf_read_back.specs.Laws.{ConvertedIsRead, DocumentIsWritable, RefusedInMore, RefusedOnce};
ghost use Rattle.rdf_read_back.specs.Laws.{WrittenDocumentIsRead};

/// The quads of a document can be written with a node that has no label named by its offset: they are well formed.
pub fn document_is_writable()
    ensures { DocumentIsWritable }
{}

/// What is written for a document within its limits is read to its end as N-Quads: with twice its limit on tokens, room
/// for an IRI and its brackets, and its limit on IRIs, each at least 64. In ASCII with ten times its limit on tokens,
/// and room for three times an IRI. With a word in front of the names, with the word's length more for tokens.
pub fn written_document_is_read()
    ensures { WrittenDocumentIsRead }
{}

/// What `convert` has written where it accepts a document, of any format, is read to its end so: its clause
/// `accepted` says all that this takes.
pub fn converted_is_read()
    ensures { ConvertedIsRead }
{}

/// What is read of a document, of any format, is refused for one reason, at one place.
pub fn refused_once()
    ensures { RefusedOnce }
{}

/// More bytes, or the end, change nothing of a refusal. So reason and place are the same however a document is cut.
pub fn refused_in_more()
    ensures { RefusedInMore }
{}
