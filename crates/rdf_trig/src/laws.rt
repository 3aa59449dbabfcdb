//! The laws of Turtle and TriG. These functions do nothing: their contracts are the laws.

ghost use Rattle.rdf_trig.specs.Laws.{EventsTellTheTree, MarksNeverFall, TokensSettleTheQuads, TokensSettleWhatIsDue};
ghost use Rattle.rdf_trig.specs.Laws.{TokensSettleWhatIsOwed, ScopesAlikeTakeAlike, DueBeginsTheQuads};
ghost use Rattle.rdf_trig.specs.Laws.{TokensSettleTheirSenses, ViableIsShapedAndBound, BeginningsAreCompleted};
ghost use Rattle.rdf_trig.specs.Laws.{NamelessIsUnbound, DirectivesBind};
ghost use Rattle.rdf_trig.specs.Laws.{DocumentsAreAccepted, AcceptedIsADocument, AcceptedBeginsADocument};
ghost use Rattle.rdf_trig.specs.Laws.{RefusedForItsReason, ReadQuadsAreDue, DocumentsAreRead, RefusedIsNoDocument};

/// The events of a tree, from left to right, have the tokens that it derives, and its quads with their marks.
pub fn events_tell_the_tree()
    ensures { EventsTellTheTree }
{}

/// The marks never fall along the quads of a tree: a quad is not due before one that stands in front of it.
pub fn marks_never_fall()
    ensures { MarksNeverFall }
{}

/// Every tree of the same tokens has the same quads, with the same marks.
pub fn tokens_settle_the_quads()
    ensures { TokensSettleTheQuads }
{}

/// What is due after some tokens is the same in every document that begins with them.
pub fn tokens_settle_what_is_due()
    ensures { TokensSettleWhatIsDue }
{}

/// Something is owed after tokens that begin a document, with whatever is counted of the scope there, and it is the
/// same in each document that begins with them.
pub fn tokens_settle_what_is_owed()
    ensures { TokensSettleWhatIsOwed }
{}

/// Two scopes in which all names stand for the same take the same bytes, and no more than either of them holds.
pub fn scopes_alike_take_alike()
    ensures { ScopesAlikeTakeAlike }
{}

/// What is due is a beginning of the quads of each document that begins so.
pub fn due_begins_the_quads()
    ensures { DueBeginsTheQuads }
{}

/// What a token stands for is settled by the tokens before it.
pub fn tokens_settle_their_senses()
    ensures { TokensSettleTheirSenses }
{}

/// Tokens begin a document exactly where they begin a tree and their names are bound by what stands before.
pub fn viable_is_shaped_and_bound()
    ensures { ViableIsShapedAndBound }
{}

/// What begins a document is completed to one by a few fixed tokens, which need no binding and no base.
pub fn beginnings_are_completed()
    ensures { BeginningsAreCompleted }
{}

/// A name stands for nothing exactly where its prefix is not bound, a reference where it needs a base and has none.
pub fn nameless_is_unbound()
    ensures { NamelessIsUnbound }
{}

/// A directive binds its prefix to the IRI, and leaves all others as they were.
pub fn directives_bind()
    ensures { DirectivesBind }
{}

/// The machine accepts each document of which no token passes a limit, and gives out its quads.
pub fn documents_are_accepted()
    ensures { DocumentsAreAccepted }
{}

/// What the machine accepts to its end is a document, and what it gave out are its quads.
pub fn accepted_is_a_document()
    ensures { AcceptedIsADocument }
{}

/// What the machine accepts begins a document within the limits, and what it gave out is due.
pub fn accepted_begins_a_document()
    ensures { AcceptedBeginsADocument }
{}

/// Each token that the machine refuses is refused for its reason, and what stands before it is the longest front.
pub fn refused_for_its_reason()
    ensures { RefusedForItsReason }
{}

/// What a reader has read begins a document within the limits, and the quads that were put are those that are due.
pub fn read_quads_are_due()
    ensures { ReadQuadsAreDue }
{}

/// A document within the limits is read to its end, and nothing that begins it is refused.
pub fn documents_are_read()
    ensures { DocumentsAreRead }
{}

/// What is refused is no document within the limits.
pub fn refused_is_no_document()
    ensures { RefusedIsNoDocument }
{}
