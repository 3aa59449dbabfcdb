// The reader of Turtle and TriG.

ghost use Rattle.std.specs.Prelude.{◌≡◌, ◌+◌, ◌≤◌, [], None, true, false, not, is_ok, OnOk, IfOk, IfErr, SomeIff};
ghost use Rattle.rdf_tokens.specs.Scans.{most_bytes, place_of, unread_bytes};
ghost use Rattle.rdf_terms.specs.declared.kind.Kind.{Kind};
ghost use Rattle.rdf_driver.specs.Kinds.{has};
ghost use Rattle.rdf_driver.specs.Words.{KnowsNext};
ghost use Rattle.rdf_driver.specs.Readers as R;
ghost use Rattle.rdf_driver.specs.Readers.{HasRead, SameLimits, Feeds, FeedFails, Finishes, FinishFails, TakesExactly};
ghost use Rattle.rdf_driver.specs.Readers.{FinishesExactly, FindsNoOther, IsPlacedWith, IsPlacedInRead};
ghost use Rattle.rdf_iri.specs.Scope.{BaseFits};
ghost use Rattle.rdf_trig.specs.Documents.{trees};
ghost use Rattle.rdf_trig.specs.Language.{chosen_alone};
ghost use Rattle.rdf_trig.specs.Accepting.{tree_words, HoldsOwed, HoldsAllOwed};
ghost use Rattle.rdf_trig.specs.Owed.{most_held};
ghost use Rattle.rdf_trig.specs.Texts.{all_bytes};

use crate::form::DocForm;
use crate::grammar::TreeGrammar;
use crate::rules::Rules;
use rdf_driver::{Fault, Kinds, Reader, Summary};
use rdf_iri::{Bindings, Limits, Scope};
use rdf_terms::{Iri, Kind, QuadSink};
use std::alloc::{Allocator, Global};
use std::marker::Model;

/// What a reader is to read, and the base and prefixes that are in force before the first token.
#[derive(Drop)]
pub struct Options<A: Allocator = Global> {
    form: DocForm,
    base: Option<Iri<A>>,
    limits: Limits,
    bindings: Option<Bindings<A>>,
}

impl<A: Allocator> Model for Options<A> {
    ghost use Rattle.std.specs.Prelude.{◌≡◌, IfSome};
    ghost use Rattle.rdf_iri.specs.Scope.{BaseFits};
    ghost use Rattle.rdf_trig.specs.Language.{Chosen};
    ghost use Rattle.rdf_trig.specs.Accepting.{handed_in};

    ghost Value = { Chosen };

    ghost view = { λ o. record {
      form = o.form;
      start = record { base = o.base; bindings = handed_in o.bindings; limits = o.limits };
    } };

    ghost invariant = { λ o. BaseFits o.base o.limits × IfSome o.bindings (λ b. b.limits ≡ o.limits) };
}

// Whether a base is within the limit.
fn base_fits<A: Allocator>(base: &Option<Iri<A>>, limits: Limits) -> bool
    ensures yes { result ≡ true → BaseFits base.now limits }
    ensures no { BaseFits base.now limits → result ≡ true }
{
    match base {
        None => true,
        Some(iri) => iri.as_str().len() as u64 <= limits.iri(),
    }
}

impl<A: Allocator> Options<A> {
    /// Documents of the form, with this base or none and no prefix bound, within the limits. None where the base
    /// has more bytes than an IRI may have; it is dropped then.
    pub fn new(form: DocForm, base: Option<Iri<A>>, limits: Limits) -> Option<Options<A>>
        ensures { SomeIff result (BaseFits base limits) (chosen_alone form base limits) }
    {
        if base_fits(&base, limits) {
            Some(Options {
                form,
                base,
                limits,
                bindings: None,
            })
        } else {
            None
        }
    }

    /// The same, with these prefixes bound before the first token, in place of those that were. It takes no memory.
    pub fn with_bindings(self, bindings: Bindings<A>) -> Options<A>
        requires { bindings.limits ≡ self.start.limits }
        ensures { result ≡ record { form = self.form; start = record self.start { bindings = bindings.bindings } } }
    {
        let Options {
            form,
            base,
            limits,
            ..
        } = self;
        Options {
            form,
            base,
            limits,
            bindings: Some(bindings),
        }
    }

    /// The form and the limits.
    pub(crate) fn rules(&self) -> Rules
        ensures form { result.form ≡ self.now.form }
        ensures limits { result.limits ≡ self.now.start.limits }
    {
        Rules {
            form: self.form,
            limits: self.limits,
        }
    }
}

impl<A: Allocator + Copy> Options<A> {
    /// What is in force before the first token.
    pub(crate) fn start(self, alloc: A) -> Scope<A>
        ensures { result ≡ self.start }
    {
        let Options {
            base,
            limits,
            bindings,
            ..
        } = self;
        match bindings {
            Some(bindings) => Scope::starting(alloc, base, limits, bindings),
            None => Scope::new(alloc, base, limits),
        }
    }
}

/// Reads Turtle or TriG, in pieces of any lengths, and puts the quads into sinks.
///
/// A quad is put when the token after its head is accepted. `feed` accepts all tokens that the bytes so far decide.
/// The first token that no document can have there is refused, at its place. After an error, and after `finish`, each
/// call answers `Ended`. No tree and no list of tokens is built: what is held is what is open.
#[derive(Drop)]
pub struct TrigReader<A: Allocator + Copy = Global> {
    reader: Reader<TreeGrammar<A>, A>,
}

impl<A: Allocator + Copy> Model for TrigReader<A> {
    ghost use Rattle.rdf_trig.specs.Accepting.{TrigRead};
    ghost use Rattle.rdf_trig.specs.Coded.{up_code, around_code, place_code};
    ghost use Rattle.std.specs.Coded.{codes};

    ghost Value = { TrigRead };

    ghost coded = { Prim.hlevel (codes, up_code, around_code, place_code) };

    ghost view = { λ r. r.reader };
}

/// A reader of any grammar, for Turtle or TriG. It has read nothing.
pub fn tree_reader<A: Allocator + Copy>(alloc: A, options: Options<A>) -> Reader<TreeGrammar<A>, A>
    ensures read { HasRead tree_words result options [] [] }
    ensures form { result.grammar.form ≡ options.form }
    ensures token { result.scanner.limit ≡ options.start.limits.token }
    ensures most { R.most_held tree_words result ≡ most_held options.start.limits }
    ensures found { result.found ≡ None }
{
    let limit = options.limits.token();
    Reader::new(alloc, TreeGrammar::new(alloc, options), limit)
}

impl<A: Allocator + Copy> TrigReader<A> {
    /// A reader that has read nothing. It takes no memory.
    pub fn new(alloc: A, options: Options<A>) -> TrigReader<A>
        ensures read { HasRead tree_words result options [] [] }
        ensures form { result.grammar.form ≡ options.form }
        ensures token { result.scanner.limit ≡ options.start.limits.token }
        ensures most { R.most_held tree_words result ≡ most_held options.start.limits }
        ensures found { result.found ≡ None }
    {
        TrigReader {
            reader: tree_reader(alloc, options),
        }
    }

    /// Reads a piece of the document. The sink keeps the quads that were put before an error.
    pub fn feed<S: QuadSink>(&mut self, piece: &[u8], sink: &mut S) -> Result<(), Fault>
        requires { self.old.done ≡ false → S.has_failed sink.old ≡ false }
        ensures ok { OnOk result (Feeds tree_words S.takes self.old sink.old piece.now self.new sink.new) }
        ensures few { OnOk result (self.new.scanner.taken.offset ≤ most_bytes) }
        ensures live { OnOk result (S.has_failed sink.new ≡ false) }
        ensures err { IfErr result (λ f. FeedFails tree_words S.takes S.leaves S.has_failed f.reason
            (place_of f) self.old sink.old piece.now self.new sink.new) }
        ensures exact { TakesExactly tree_words self.old piece.now result }
        ensures place { IfErr result (IsPlacedWith tree_words self.old piece.now) }
        ensures found { FindsNoOther result self.new.found }
        ensures done { self.new.done ≡ not (is_ok result) }
        ensures limits { SameLimits tree_words self.old self.new }
    {
        self.reader.feed(piece, sink)
    }

    /// Reads the end of the document, and says what was read in all. It is the last call that does so.
    pub fn finish<S: QuadSink>(&mut self, sink: &mut S) -> Result<Summary, Fault>
        requires { self.old.done ≡ false → S.has_failed sink.old ≡ false }
        ensures ok { IfOk result (λ s. Finishes tree_words S.takes self.old sink.old s sink.new) }
        ensures err { IfErr result (λ f. FinishFails tree_words S.takes S.leaves S.has_failed f.reason
            (place_of f) self.old sink.old self.new sink.new) }
        ensures exact { FinishesExactly tree_words self.old result }
        ensures place { IfErr result (IsPlacedInRead tree_words self.old) }
        ensures found { FindsNoOther result self.new.found }
        ensures done { self.new.done ≡ true }
        ensures limits { SameLimits tree_words self.old self.new }
    {
        self.reader.finish(sink)
    }

    /// Whether a token of this kind can come next, as `Reader::may_come` says: exactly if some tree of the form begins
    /// with the tokens that were accepted and such a token, whether names and references stand for something or not.
    /// After `Reason::Unexpected` these are the kinds that could have stood at its place.
    pub fn may_come(&self, kind: Kind) -> bool
        ensures exact { KnowsNext tree_words (λ x. trees x.form x.start) self.now.grammar kind result }
    {
        self.reader.may_come(kind)
    }

    /// The kinds of which a token can come next, as `may_come` says of each.
    pub fn expected(&self) -> Kinds
        ensures exact { (k : Kind) → KnowsNext tree_words (λ x. trees x.form x.start) self.now.grammar k
            (has result k) }
    {
        self.reader.expected()
    }

    /// The kind of the token that stands at the fault's place, after `Reason::Unexpected` (`finds` of `Refuses`). None
    /// before an error, and after another one; after `Reason::Ended` it is what it was. It takes no memory.
    pub fn found(&self) -> Option<Kind>
        ensures { result ≡ self.now.found }
    {
        self.reader.found()
    }

    /// How many bytes of text are held: those of which no token was given, and all texts of the grammar, those of
    /// the open frames and of the quad in hand, the base, and the prefixes with their IRIs. After each call, also
    /// one that failed, they are at most what the limits allow (`most` of `new`, `limits` of `feed` and `finish`),
    /// and until one fails or finishes at least what is owed after the tokens so far, with the base and the
    /// prefixes (`least`; `owed` says it of the document). The text that the scanner has read stays until more
    /// comes. It is not counted here, but the bytes of all texts of the reader, with it too, are at most what the
    /// limits allow (`all`). Spare capacity is not counted. It takes no memory.
    pub fn held(&self) -> u64
        ensures sum { result ≡ unread_bytes self.now.scanner + self.now.grammar.held }
        ensures most { result ≤ R.most_held tree_words self.now }
        ensures all { all_bytes self.now ≤ R.most_held tree_words self.now }
        ensures least { HoldsOwed self.now result }
        ensures owed { HoldsAllOwed self.now result }
    {
        self.reader.held()
    }
}
