// What may stand outside of statements.

ghost use Rattle.std.specs.Prelude.{◌≡◌, ℕ, ◌≤◌, List, None, Option, IfSome};
ghost use Rattle.rdf_trig.specs.Machine as M;
ghost use Rattle.rdf_trig.specs.States.{IsNamed, setting, block_graph, outer_graph, outer_of, spelling_of};
ghost use Rattle.rdf_trig.specs.Holding.{frames_most};
ghost use Rattle.rdf_trig.specs.Turns.{BeginsSubject, SuitsSubject, IsOuterStart};
ghost use Rattle.rdf_trig.specs.Turns.{Decides, Means, MeansSubject, IsSuited, SuitsAny, SuitsIn, KeepsFrames};
ghost use Rattle.rdf_trig.specs.declared.form.DocForm.{DocForm};

use crate::form::DocForm;
use crate::state::{Block, Level, Mode, Outer, Spelling, State};
use crate::turn::{SubjectStart, Turn};
use rdf_terms::Kind;
use std::alloc::Allocator;

impl<A: Allocator> State<A> {
    // Outside of statements.
    #[inline(always)]
    pub fn outer_turn(&self, form: DocForm, outer: Outer, kind: Kind) -> Option<Turn>
        requires mode { self.now.mode ≡ Mode.Outer outer }
        ensures means { Decides form self.now (Mode.Outer outer) kind result }
        ensures suits { IfSome result (SuitsIn form self.now (Mode.Outer outer) kind) }
        ensures frames { IfSome result (KeepsFrames kind) }
    {
        match outer {
            Outer::Start => self.start(form, kind),
            Outer::Inside(block) => self.inside(block, kind),
            Outer::Over => None,
            Outer::WantPrefix(spelling) => self.want_prefix(spelling, kind),
            Outer::WantPrefixIri(spelling) => self.want_iri(spelling, kind),
            Outer::WantBaseIri(spelling) => self.want_iri(spelling, kind),
            Outer::WantDot => self.want_dot(kind),
            Outer::GraphWord => self.graph_word(kind),
            Outer::GraphBracket => self.graph_bracket(kind),
            Outer::WantBrace => self.want_brace(kind),
        }
    }

    // Between statements, outside of a block.
    #[inline(always)]
    fn start(&self, form: DocForm, kind: Kind) -> Option<Turn>
        ensures means { Means form self.now kind result (λ s. M.start form (setting s None) kind) }
        ensures suits { IfSome result (IsSuited kind) }
        ensures frames { IfSome result (KeepsFrames kind) }
    {
        match outer_start(form, kind) {
            Some(outer) => Some(Turn::Lead(outer)),
            None => self.want_subject(Level::Top, kind),
        }
    }

    // Between statements, in a block.
    #[inline(always)]
    fn inside(&self, block: Block, kind: Kind) -> Option<Turn>
        ensures means { (form : DocForm) →
            Means form self.now kind result (λ s. M.inside form (setting s (block_graph block self.now.graph)) kind) }
        ensures suits { IfSome result (IsSuited kind) }
        ensures frames { IfSome result (KeepsFrames kind) }
    {
        match kind {
            Kind::CloseBrace => Some(Turn::Lead(Outer::Start)),
            _ => self.want_subject(Level::Block(block), kind),
        }
    }

    #[inline(always)]
    fn want_subject(&self, level: Level, kind: Kind) -> Option<Turn>
        ensures means { MeansSubject self.now level kind result }
        ensures suits { IfSome result (IsSuited kind) }
        ensures frames { IfSome result (KeepsFrames kind) }
    {
        Some(Turn::Subject(level, subject_start(kind)?))
    }

    #[inline(always)]
    fn want_prefix(&self, spelling: Spelling, kind: Kind) -> Option<Turn>
        ensures means { (form : DocForm) → Decides form self.now (Mode.Outer (Outer.WantPrefix spelling)) kind result }
        ensures suits { IfSome result (SuitsAny kind) }
        ensures frames { IfSome result (KeepsFrames kind) }
    {
        match kind {
            Kind::PnameNs => Some(Turn::Prefix(spelling)),
            _ => None,
        }
    }

    #[inline(always)]
    fn want_iri(&self, spelling: Spelling, kind: Kind) -> Option<Turn>
        ensures prefix { (form : DocForm) →
            Decides form self.now (Mode.Outer (Outer.WantPrefixIri spelling)) kind result }
        ensures base { (form : DocForm) → Decides form self.now (Mode.Outer (Outer.WantBaseIri spelling)) kind result }
        ensures suits { IfSome result (SuitsAny kind) }
        ensures frames { IfSome result (KeepsFrames kind) }
    {
        match kind {
            Kind::IriRef => Some(Turn::Lead(directive_end(spelling))),
            _ => None,
        }
    }

    #[inline(always)]
    fn want_dot(&self, kind: Kind) -> Option<Turn>
        ensures means { (form : DocForm) → Means form self.now kind result (λ s. M.want_dot (setting s None) kind) }
        ensures suits { IfSome result (IsSuited kind) }
        ensures frames { IfSome result (KeepsFrames kind) }
    {
        match kind {
            Kind::Dot => Some(Turn::Lead(Outer::Start)),
            _ => None,
        }
    }

    #[inline(always)]
    fn graph_word(&self, kind: Kind) -> Option<Turn>
        ensures means { (form : DocForm) → Means form self.now kind result (λ s. M.graph_word (setting s None) kind) }
        ensures suits { IfSome result (IsSuited kind) }
        ensures frames { IfSome result (KeepsFrames kind) }
    {
        match kind {
            Kind::IriRef | Kind::PnameNs | Kind::PnameLn => Some(Turn::GraphName),
            Kind::LabelNode => Some(Turn::GraphLabel),
            Kind::OpenBracket => Some(Turn::GraphBracket),
            _ => None,
        }
    }

    #[inline(always)]
    fn graph_bracket(&self, kind: Kind) -> Option<Turn>
        ensures means { (form : DocForm) →
            Means form self.now kind result (λ s. M.graph_bracket (setting s None) self.now.bracket kind) }
        ensures suits { IfSome result (IsSuited kind) }
        ensures frames { IfSome result (KeepsFrames kind) }
    {
        match kind {
            Kind::CloseBracket => Some(Turn::GraphNode),
            _ => None,
        }
    }

    #[inline(always)]
    fn want_brace(&self, kind: Kind) -> Option<Turn>
        ensures means { (form : DocForm) →
            Means form self.now kind result (λ s. M.want_brace (setting s None) self.now.graph.term kind) }
        ensures suits { IfSome result (IsSuited kind) }
        ensures frames { IfSome result (KeepsFrames kind) }
    {
        match kind {
            Kind::OpenBrace => {
                self.graph.has_term();
                Some(Turn::Lead(Outer::Inside(Block::Named)))
            }
            _ => None,
        }
    }
}

// What begins between statements, outside of a block, besides a statement.
#[inline(always)]
fn outer_start(form: DocForm, kind: Kind) -> Option<Outer>
    ensures means { IsOuterStart form kind result }
    ensures frames { IfSome result (λ o. (m : ℕ) → m ≤ frames_most kind m) }
{
    match (kind, form) {
        (Kind::End, _) => Some(Outer::Over),
        (Kind::AtPrefix, _) => Some(Outer::WantPrefix(Spelling::Dotted)),
        (Kind::Prefix, _) => Some(Outer::WantPrefix(Spelling::Sparql)),
        (Kind::AtBase, _) => Some(Outer::WantBaseIri(Spelling::Dotted)),
        (Kind::Base, _) => Some(Outer::WantBaseIri(Spelling::Sparql)),
        (Kind::Graph, DocForm::TriG) => Some(Outer::GraphWord),
        (Kind::OpenBrace, DocForm::TriG) => Some(Outer::Inside(Block::Default)),
        _ => None,
    }
}

#[inline(always)]
fn directive_end(spelling: Spelling) -> Outer
    ensures mode { (n : ℕ) (p : List ℕ) (g : M.Topic) → outer_of result n p g ≡ M.directive_end (spelling_of spelling) }
    ensures graph { (g : M.Topic) → outer_graph result g ≡ None }
{
    match spelling {
        Spelling::Dotted => Outer::WantDot,
        Spelling::Sparql => Outer::Start,
    }
}

#[inline(always)]
fn subject_start(kind: Kind) -> Option<SubjectStart>
    ensures means { BeginsSubject kind result }
    ensures suits { IfSome result (λ b. (i : Option (List ℕ)) → IsNamed kind i → SuitsSubject b kind i) }
{
    match kind {
        Kind::IriRef | Kind::PnameNs | Kind::PnameLn => Some(SubjectStart::Name),
        Kind::LabelNode => Some(SubjectStart::Label),
        Kind::OpenBracket => Some(SubjectStart::Brackets),
        Kind::OpenParen => Some(SubjectStart::Collection),
        _ => None,
    }
}
