// The reader of the line formats.

ghost use Rattle.std.specs.Prelude.{◌≡◌, ◌≤◌, ◌+◌, [], None, false, true, not, is_ok, OnOk, IfOk, IfErr};
ghost use Rattle.rdf_tokens.specs.Scans.{most_bytes, unread_bytes, place_of};
ghost use Rattle.rdf_terms.specs.declared.kind.Kind.{Kind};
ghost use Rattle.rdf_driver.specs.Kinds.{has};
ghost use Rattle.rdf_driver.specs.Words.{KnowsNext};
ghost use Rattle.rdf_driver.specs.Readers.{HasRead, SameLimits, Feeds, FeedFails, Finishes, FinishFails, TakesExactly};
ghost use Rattle.rdf_driver.specs.Readers.{FinishesExactly, FindsNoOther, IsPlacedWith, IsPlacedInRead};
ghost use Rattle.rdf_driver.specs.Readers as R;
ghost use Rattle.rdf_lines.specs.Documents.{most_held};
ghost use Rattle.rdf_lines.specs.Lines.{trees};
ghost use Rattle.rdf_lines.specs.Accepting.{all_bytes, line_words};

use crate::form::LineForm;
use crate::grammar::LineGrammar;
use rdf_driver::{Fault, Kinds, Reader, Summary};
use rdf_iri::Limits;
use rdf_terms::{Kind, QuadSink};
use std::alloc::{Allocator, Global};
use std::marker::Model;

/// Reads N-Triples or N-Quads, in pieces of any lengths, and puts the quads into sinks.
///
/// A quad is put when the dot of its statement is accepted. `feed` accepts all tokens that the bytes so far decide.
/// The first token that no document can have there is refused, at its place. After an error, and after `finish`,
/// each call answers `Ended`.
#[derive(Drop)]
pub struct LineReader<A: Allocator + Copy = Global> {
    reader: Reader<LineGrammar<A>, A>,
}

impl<A: Allocator + Copy> Model for LineReader<A> {
    ghost use Rattle.rdf_driver.specs.Readers.{Driven};
    ghost use Rattle.rdf_lines.specs.Accepting.{LineAt};

    ghost Value = { Driven LineAt };

    ghost view = { λ r. r.reader };
}

/// A reader of any grammar, for a line format. It has read nothing.
pub fn line_reader<A: Allocator + Copy>(
    alloc: A,
    form: LineForm,
    limits: Limits,
) -> Reader<LineGrammar<A>, A>
    ensures read { HasRead line_words result (record { form = form; iri = limits.iri }) [] [] }
    ensures form { result.grammar.rules.form ≡ form }
    ensures token { result.scanner.limit ≡ limits.token }
    ensures iri { result.grammar.rules.iri ≡ limits.iri }
    ensures most { R.most_held line_words result ≡ most_held limits }
    ensures found { result.found ≡ None }
{
    Reader::new(alloc, LineGrammar::new(alloc, form, limits), limits.token())
}

impl<A: Allocator + Copy> LineReader<A> {
    /// A reader that has read nothing. Of the limits, those on tokens and on IRIs are looked at. It takes no memory.
    pub fn new(alloc: A, form: LineForm, limits: Limits) -> LineReader<A>
        ensures read { HasRead line_words result (record { form = form; iri = limits.iri }) [] [] }
        ensures form { result.grammar.rules.form ≡ form }
        ensures token { result.scanner.limit ≡ limits.token }
        ensures iri { result.grammar.rules.iri ≡ limits.iri }
        ensures most { R.most_held line_words result ≡ most_held limits }
        ensures found { result.found ≡ None }
    {
        LineReader {
            reader: line_reader(alloc, form, limits),
        }
    }

    /// Reads a piece of the document. The sink keeps the quads that were put before an error.
    pub fn feed<S: QuadSink>(&mut self, piece: &[u8], sink: &mut S) -> Result<(), Fault>
        requires { self.old.done ≡ false → S.has_failed sink.old ≡ false }
        ensures ok { OnOk result (Feeds line_words S.takes self.old sink.old piece.now self.new sink.new) }
        ensures few { OnOk result (self.new.scanner.taken.offset ≤ most_bytes) }
        ensures live { OnOk result (S.has_failed sink.new ≡ false) }
        ensures err { IfErr result (λ f. FeedFails line_words S.takes S.leaves S.has_failed f.reason (place_of f)
            self.old sink.old piece.now self.new sink.new) }
        ensures exact { TakesExactly line_words self.old piece.now result }
        ensures place { IfErr result (IsPlacedWith line_words self.old piece.now) }
        ensures found { FindsNoOther result self.new.found }
        ensures done { self.new.done ≡ not (is_ok result) }
        ensures limits { SameLimits line_words self.old self.new }
    {
        self.reader.feed(piece, sink)
    }

    /// Reads the end of the document, and says what was read in all. It is the last call that does so.
    pub fn finish<S: QuadSink>(&mut self, sink: &mut S) -> Result<Summary, Fault>
        requires { self.old.done ≡ false → S.has_failed sink.old ≡ false }
        ensures ok { IfOk result (λ s. Finishes line_words S.takes self.old sink.old s sink.new) }
        ensures err { IfErr result (λ f. FinishFails line_words S.takes S.leaves S.has_failed f.reason
            (place_of f) self.old sink.old self.new sink.new) }
        ensures exact { FinishesExactly line_words self.old result }
        ensures place { IfErr result (IsPlacedInRead line_words self.old) }
        ensures found { FindsNoOther result self.new.found }
        ensures done { self.new.done ≡ true }
        ensures limits { SameLimits line_words self.old self.new }
    {
        self.reader.finish(sink)
    }

    /// Whether a token of this kind can come next, as `Reader::may_come` says: exactly if some tree of the format
    /// begins with the tokens that were accepted and such a token. After `Reason::Unexpected` these are the kinds that
    /// could have stood at its place.
    pub fn may_come(&self, kind: Kind) -> bool
        ensures exact { KnowsNext line_words (λ x. trees x.form) self.now.grammar kind result }
    {
        self.reader.may_come(kind)
    }

    /// The kinds of which a token can come next, as `may_come` says of each.
    pub fn expected(&self) -> Kinds
        ensures exact { (k : Kind) → KnowsNext line_words (λ x. trees x.form) self.now.grammar k (has result k) }
    {
        self.reader.expected()
    }

    /// The kind of the token that stands at the fault's place, after `Reason::Unexpected` (`finds` of `Refuses`). None
    /// before an error, and after another one; after `Reason::Ended` it is what it was. It takes no memory.
    pub fn found(&self) -> Option<Kind>
        ensures { result ≡ self.now.found }
    {
        self.reader.found()
    }

    /// The bytes of the texts that are held: of the next token, as far as it has come, and of the line that is
    /// being read. After each call, also one that failed, they are at most what the limits allow (`most` of `new`,
    /// `limits` of `feed` and `finish`), and so are the bytes of all texts of the reader, which has besides these
    /// the text of the last tokens until the next piece comes. Spare capacity is not counted. It takes no memory.
    pub fn held(&self) -> u64
        ensures sum { result ≡ unread_bytes self.now.scanner + self.now.grammar.held }
        ensures most { result ≤ R.most_held line_words self.now }
        ensures all { all_bytes self.now ≤ R.most_held line_words self.now }
    {
        self.reader.held()
    }
}
