// What may stand after a subject and in a predicate list.

ghost use Rattle.std.specs.Prelude.{◌≡◌, ℕ, ◌≤◌, List, None, Option, IfSome};
ghost use Rattle.rdf_trig.specs.Machine as M;
ghost use Rattle.rdf_trig.specs.States.{IsNamed, setting, graph_of, level_of, outer_graph, outer_of, mode_at};
ghost use Rattle.rdf_trig.specs.States.{setting_in, place_in, up_in, around_in, after_semicolon_at, mode_after_dot};
ghost use Rattle.rdf_trig.specs.Holding.{frames_most};
ghost use Rattle.rdf_trig.specs.Turns.{IsVerb, SuitsVerb};
ghost use Rattle.rdf_trig.specs.Turns.{Means, MeansHere, MeansVerb, IsSuited, KeepsFrames};
ghost use Rattle.rdf_trig.specs.declared.form.DocForm.{DocForm};

use crate::form::DocForm;
use crate::state::{Around, Block, Container, Level, Mode, Outer, State};
use crate::turn::{Turn, Verb};
use rdf_terms::Kind;
use std::alloc::Allocator;

impl<A: Allocator> State<A> {
    // After a subject, which outside of a block may be a graph's label in TriG.
    #[inline(always)]
    pub fn after_subject(&self, form: DocForm, kind: Kind) -> Option<Turn>
        ensures means { Means form self.now kind result (λ s.
            M.step form (setting_in s self.now) (mode_at form self.now Mode.AfterSubject) kind) }
        ensures suits { IfSome result (IsSuited kind) }
        ensures frames { IfSome result (KeepsFrames kind) }
    {
        match self.level {
            Level::Block(_) => self.want_verb(Around::Statement, kind),
            Level::Top => match form {
                DocForm::Turtle => self.want_verb(Around::Statement, kind),
                DocForm::TriG => self.after_label(kind),
            },
        }
    }

    #[inline(always)]
    fn after_label(&self, kind: Kind) -> Option<Turn>
        requires level { self.now.level ≡ Level.Top }
        ensures means { (form : DocForm) →
            Means form self.now kind result (λ s. M.after_label (setting s None) self.now.frame.subject kind) }
        ensures suits { IfSome result (IsSuited kind) }
        ensures frames { IfSome result (KeepsFrames kind) }
    {
        match kind {
            Kind::OpenBrace => {
                self.frame.subject.has_term();
                Some(Turn::SubjectBlock)
            }
            _ => self.want_verb(Around::Statement, kind),
        }
    }

    #[inline(always)]
    pub fn want_verb(&self, around: Around, kind: Kind) -> Option<Turn>
        ensures means { MeansVerb self.now around kind result }
        ensures suits { IfSome result (IsSuited kind) }
        ensures frames { IfSome result (KeepsFrames kind) }
    {
        Some(Turn::Verb(around, verb_of(kind)?))
    }

    #[tactic(auto, using(crate::proofs::machine::Fallbacks::fallbacks))]
    #[inline(always)]
    pub fn property_list_start(&self, kind: Kind) -> Option<Turn>
        ensures means { (form : DocForm) →
            Means form self.now kind result (λ s.
            M.property_list_start form (setting_in s self.now) self.now.bracket (up_in self.now) kind) }
        ensures suits { IfSome result (IsSuited kind) }
        ensures frames { IfSome result (KeepsFrames kind) }
    {
        match kind {
            Kind::CloseBracket => Some(Turn::EndNode),
            _ => Some(Turn::FirstVerb(verb_of(kind)?)),
        }
    }

    #[inline(always)]
    pub fn after_listed(&self, around: Around, kind: Kind) -> Option<Turn>
        requires listed { self.now.frame.container ≡ Container.List around }
        ensures means { MeansHere self.now kind result (λ c p. M.after c p kind) }
        ensures suits { IfSome result (IsSuited kind) }
        ensures frames { IfSome result (KeepsFrames kind) }
    {
        match kind {
            Kind::Comma => Some(Turn::NextObject),
            Kind::Semicolon => Some(Turn::NextVerb),
            _ => self.predicate_list_end(around, kind),
        }
    }

    #[inline(always)]
    pub fn after_semicolon(&self, kind: Kind) -> Option<Turn>
        ensures means { (form : DocForm) →
            Means form self.now kind result (λ s.
            M.step form (setting_in s self.now) (after_semicolon_at (place_in self.now)) kind) }
        ensures suits { IfSome result (IsSuited kind) }
        ensures frames { IfSome result (KeepsFrames kind) }
    {
        match self.frame.container {
            Container::List(around) => self.after_verb(around, kind),
            Container::Cells { .. } => None,
        }
    }

    #[inline(always)]
    fn after_verb(&self, around: Around, kind: Kind) -> Option<Turn>
        requires listed { self.now.frame.container ≡ Container.List around }
        ensures means { MeansHere self.now kind result (λ c p.
            M.after_semicolon c self.now.frame.subject (around_in self.now around) kind) }
        ensures suits { IfSome result (IsSuited kind) }
        ensures frames { IfSome result (KeepsFrames kind) }
    {
        match verb_of(kind) {
            Some(verb) => Some(Turn::Verb(around, verb)),
            None => match kind {
                Kind::Semicolon => Some(Turn::NextVerb),
                _ => self.predicate_list_end(around, kind),
            },
        }
    }

    // After a property list that is a subject.
    #[inline(always)]
    pub fn after_property_list(&self, kind: Kind) -> Option<Turn>
        ensures means { MeansHere self.now kind result (λ c p.
            M.after_property_list c self.now.frame.subject (level_of self.now.level) kind) }
        ensures suits { IfSome result (IsSuited kind) }
        ensures frames { IfSome result (KeepsFrames kind) }
    {
        match verb_of(kind) {
            Some(verb) => Some(Turn::Verb(Around::Statement, verb)),
            None => self.predicate_list_end(Around::Statement, kind),
        }
    }

    #[inline(always)]
    fn predicate_list_end(&self, around: Around, kind: Kind) -> Option<Turn>
        ensures means { MeansHere self.now kind result (λ c p.
            M.predicate_list_end c self.now.frame.subject (around_in self.now around) kind) }
        ensures suits { IfSome result (IsSuited kind) }
        ensures frames { IfSome result (KeepsFrames kind) }
    {
        match around {
            Around::Statement => self.statement_end(kind),
            Around::PropertyList => match kind {
                Kind::CloseBracket => Some(Turn::EndPropertyList),
                _ => None,
            },
        }
    }

    #[inline(always)]
    fn statement_end(&self, kind: Kind) -> Option<Turn>
        ensures means { (x : M.Topic) → MeansHere self.now kind result (λ c p.
            M.predicate_list_end c x (M.Statement (level_of self.now.level)) kind) }
        ensures suits { IfSome result (IsSuited kind) }
        ensures frames { IfSome result (KeepsFrames kind) }
    {
        match kind {
            Kind::Dot => Some(Turn::Lead(after_dot(self.level))),
            Kind::CloseBrace => match self.level {
                Level::Top => None,
                Level::Block(_) => Some(Turn::Lead(Outer::Start)),
            },
            _ => None,
        }
    }
}

// Where a statement's dot leads.
#[inline(always)]
fn after_dot(level: Level) -> Outer
    ensures graph { (g : M.Topic) → outer_graph result g ≡ graph_of level g }
    ensures mode { (n : ℕ) (p : List ℕ) (g : M.Topic) → outer_of result n p g ≡ mode_after_dot (level_of level) }
{
    match level {
        Level::Top => Outer::Start,
        Level::Block(block) => Outer::Inside(block),
    }
}

#[inline(always)]
fn verb_of(kind: Kind) -> Option<Verb>
    ensures means { IsVerb kind result }
    ensures suits { IfSome result (λ v. (i : Option (List ℕ)) → IsNamed kind i → SuitsVerb v i) }
    ensures frames { IfSome result (λ v. (m : ℕ) → m ≤ frames_most kind m) }
{
    match kind {
        Kind::IriRef | Kind::PnameNs | Kind::PnameLn => Some(Verb::Name),
        Kind::A => Some(Verb::Type),
        _ => None,
    }
}
