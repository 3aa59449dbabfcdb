// Names that go straight into the text that they are for.

ghost use Rattle.std.specs.Prelude.{◌≡◌, [], true, None, OnOk, IfErr, IfSome};
ghost use Rattle.rdf_iri.specs.Scope.{InForce};
ghost use Rattle.rdf_tokens.specs.Scans.{KnowsItsColon};
ghost use Rattle.rdf_tokens.specs.declared.token.Token.{Token as Given};
ghost use Rattle.rdf_trig.specs.declared.form.DocForm.{DocForm};
ghost use Rattle.rdf_trig.specs.Scopes.{StandsForIri, Unnamed};
ghost use Rattle.rdf_trig.specs.States.{leaf, IsTurtleToken};
ghost use Rattle.rdf_trig.specs.Steps.{given};
ghost use Rattle.rdf_trig.specs.Straight.{Fills, slot_turn};

use crate::fault::StepFault;
use crate::give::is_idle;
use crate::state::{Around, Container, Level, Mode, Ready, State};
use crate::turn::{ObjectStart, SubjectStart, Turn, Verb};
use rdf_iri::Scope;
use rdf_terms::Kind;
use rdf_tokens::Token;
use std::alloc::Allocator;

/// What the IRI of a token is, where it goes straight into its text.
#[derive(Clone, Copy)]
pub enum Slot {
    /// The subject of a statement at this level.
    Subject(Level),
    /// The verb of a predicate list.
    Verb(Around),
    /// An object, after a verb or a comma.
    Object,
    /// The datatype of a string.
    Datatype,
}

impl<A: Allocator + Copy> State<A> {
    /// Where the IRI of the token goes, if no quad is given out before. Elsewhere the quad that is ready has to stay until the
    /// quads are put, so that the IRI goes into a text of its own first (`State::look_up`).
    #[inline(always)]
    pub fn slot(&self, turn: Turn, kind: Kind) -> Option<Slot>
        ensures turn { IfSome result (λ p. slot_turn p ≡ turn) }
        ensures kind { IfSome result (λ p. StandsForIri kind) }
        ensures ready { IfSome result (λ p. self.now.ready ≡ Ready.Nothing) }
        ensures rest { IfSome result (λ p. self.now.rest ≡ None) }
        ensures idle { IfSome result (λ p. (form : DocForm) (s : InForce) (t : Given) → given form s self.now t ≡ []) }
    {
        if !stands_for_iri(kind) || !is_idle(self) {
            return None;
        }
        match turn {
            Turn::Subject(level, SubjectStart::Name) => Some(Slot::Subject(level)),
            Turn::Verb(around, Verb::Name) => Some(Slot::Verb(around)),
            Turn::Object(ObjectStart::Name) => Some(Slot::Object),
            Turn::Datatype => Some(Slot::Datatype),
            _ => None,
        }
    }

    /// Takes a token whose IRI goes there. No quad is ready, and no rdf:rest is owed, so that these stay as they are.
    /// After an error nothing is known of the state.
    #[inline(always)]
    pub fn fill(&mut self, slot: Slot, scope: &Scope<A>, token: &Token<'_>) -> Result<(), StepFault>
        requires ready { self.old.ready ≡ Ready.Nothing }
        requires rest { self.old.rest ≡ None }
        requires token { IsTurtleToken token.now }
        requires kind { StandsForIri token.now.kind }
        requires colon { KnowsItsColon token.now }
        ensures ok { OnOk result (Fills scope.now self.old (slot_turn slot) token.now self.new) }
        ensures err { IfErr result (Unnamed scope.now token.now.kind (leaf token.now)) }
    {
        match slot {
            Slot::Subject(level) => {
                self.begin(level);
                self.frame.subject.set_name(self.alloc, scope, token)?;
                self.mode = Mode::AfterSubject;
            }
            Slot::Verb(around) => {
                self.frame.verb.set(self.alloc, scope, token)?;
                self.frame.container = Container::List(around);
                self.mode = Mode::Want;
            }
            Slot::Object => {
                self.object.set_name(self.alloc, scope, token)?;
                self.text.clear();
                self.ready = Ready::Resource;
                self.mode = Mode::After;
            }
            Slot::Datatype => {
                self.tag.clear();
                self.datatype.set(self.alloc, scope, token)?;
                self.ready = Ready::WithType;
                self.mode = Mode::After;
            }
        }
        Ok(())
    }
}

// Whether a token of the kind stands for an IRI.
#[inline(always)]
fn stands_for_iri(kind: Kind) -> bool
    ensures { result ≡ true → StandsForIri kind }
{
    matches!(kind, Kind::IriRef | Kind::PnameNs | Kind::PnameLn)
}
