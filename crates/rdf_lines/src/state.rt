// What has been read of a line.

ghost use Rattle.std.specs.Prelude.{◌≡◌, ◌≤◌, ℕ, List};
ghost use Rattle.std.specs.Str.{chars};
ghost use Rattle.rdf_terms.specs.Terms.{Literal, Resource};
ghost use Rattle.rdf_terms.specs.Views.{tail_by, subject_by, term_by};
ghost use Rattle.rdf_tokens.specs.Scans.{most_bytes};
ghost use Rattle.rdf_lines.specs.Machine as M;
ghost use Rattle.rdf_tokens.specs.Leaves.{Leaf};
ghost use Rattle.rdf_terms.specs.Terms.{Subject, Term};
ghost use Rattle.rdf_lines.specs.Lines.{any_iri};
ghost use Rattle.rdf_lines.specs.States.{object_of, mode_of, gave, is_begin, state_bytes, HoldsAtMost, is_accepted};

use crate::form::LineForm;
use crate::slots::{IriText, SubjectText, TailText};
use rdf_terms::{Kind, Known, LiteralRef, SubjectRef, TailRef, TermRef, known};
use std::alloc::{Allocator, Global};

/// What an object is that has come.
#[derive(Clone, Copy)]
pub enum ObjectKind {
    /// An IRI or a label.
    Named,
    /// A string alone.
    Plain,
    /// A string, and its datatype or its language tag.
    WithTail,
}

/// Where the reader stands in a line.
#[derive(Clone, Copy)]
pub enum Mode {
    Begin,
    AfterSubject,
    AfterPredicate,
    AfterString,
    AfterCarets,
    AfterObject(ObjectKind),
    AfterGraph(ObjectKind),
    AfterDot,
    Finished,
}

/// What has been read of a line. The texts are cleared when the line's quad was put, and keep their memory, so that
/// a line whose texts are no longer than those before it takes none.
#[derive(Drop)]
pub struct State<A: Allocator = Global> {
    pub mode: Mode,
    pub subject: SubjectText<A>,
    pub predicate: IriText<A>,
    /// The object, where it is an IRI or a label.
    pub object: SubjectText<A>,
    /// The lexical form of a literal.
    pub lexical: String<A>,
    /// The datatype or the tag of a literal.
    pub tail: TailText<A>,
    /// The label of the graph.
    pub graph: SubjectText<A>,
}

impl<A: Allocator + Copy> State<A> {
    /// Before the first line. It takes no memory.
    pub fn new(alloc: A) -> State<A>
        ensures begins { mode_of result ≡ M.Begin }
        ensures held { state_bytes result ≡ 0 }
        ensures most { (n : ℕ) → HoldsAtMost n result }
    {
        State {
            mode: Mode::Begin,
            subject: SubjectText::new(alloc),
            predicate: IriText::new(alloc),
            object: SubjectText::new(alloc),
            lexical: String::new(alloc),
            tail: TailText::new(alloc),
            graph: SubjectText::new(alloc),
        }
    }
}

impl<A: Allocator> State<A> {
    /// Whether nothing of the line has been read.
    pub fn begins(&self) -> bool
        ensures { result ≡ is_begin (mode_of self.now) }
    {
        matches!(self.mode, Mode::Begin)
    }

    /// Whether the last token was a dot, so that a quad was given.
    #[inline(always)]
    pub fn gave(&self) -> bool
        ensures { result ≡ gave (mode_of self.now) }
    {
        matches!(self.mode, Mode::AfterDot)
    }

    /// Whether a token of this kind may stand here, whatever it spells.
    pub fn may_come(&self, form: LineForm, kind: Kind) -> bool
        ensures { (l : Leaf) → result ≡ is_accepted (M.accept any_iri form (mode_of self.now) kind l) }
    {
        match self.mode {
            Mode::Begin => matches!(
                kind,
                Kind::IriRef | Kind::LabelNode | Kind::LineEnd | Kind::End
            ),
            Mode::AfterSubject | Mode::AfterCarets => matches!(kind, Kind::IriRef),
            Mode::AfterPredicate => {
                matches!(kind, Kind::IriRef | Kind::LabelNode | Kind::ShortString)
            }
            Mode::AfterString => match kind {
                Kind::LangTag | Kind::Carets => true,
                _ => may_follow_object(form, kind),
            },
            Mode::AfterObject(_) => may_follow_object(form, kind),
            Mode::AfterGraph(_) => matches!(kind, Kind::Dot),
            Mode::AfterDot => matches!(kind, Kind::LineEnd | Kind::End),
            Mode::Finished => false,
        }
    }

    /// The object of this kind, borrowed.
    #[inline(always)]
    #[tactic(auto, unfolding(rdf_terms::specs::Known::known_chars))]
    pub fn object(&self, kind: ObjectKind) -> TermRef<'_>
        ensures { term_by chars result ≡ object_of self.now kind }
    {
        let lexical = self.lexical.as_str();
        match kind {
            ObjectKind::Named => resource(self.object.view()),
            ObjectKind::Plain => literal(lexical, TailRef::Typed(known(Known::XsdString))),
            ObjectKind::WithTail => literal(lexical, self.tail.view()),
        }
    }

    /// Clears the texts. Their memory stays.
    #[inline(always)]
    pub fn clear(&mut self)
        ensures { state_bytes self.new ≡ 0 }
    {
        self.subject.clear();
        self.predicate.clear();
        self.object.clear();
        self.lexical.clear();
        self.tail.clear();
        self.graph.clear();
    }

    /// The bytes of all texts.
    pub fn held(&self) -> u64
        requires { state_bytes self.now ≤ most_bytes }
        ensures { result ≡ state_bytes self.now }
    {
        self.subject.len()
            + self.predicate.len()
            + self.object.len()
            + self.lexical.len() as u64
            + self.tail.len()
            + self.graph.len()
    }
}

// Whether a token of this kind may follow an object that is whole.
fn may_follow_object(form: LineForm, kind: Kind) -> bool
    ensures { (s : Subject) (p : List ℕ) (o : Term) (l : Leaf) →
        result ≡ is_accepted (M.object_then any_iri form s p o kind l) }
{
    match (form, kind) {
        (_, Kind::Dot) | (LineForm::NQuads, Kind::IriRef | Kind::LabelNode) => true,
        _ => false,
    }
}

fn resource(subject: SubjectRef<'_>) -> TermRef<'_>
    ensures { term_by chars result ≡ Resource (subject_by chars subject.entry) }
{
    match subject {
        SubjectRef::Iri(iri) => TermRef::Iri(iri),
        SubjectRef::Node(node) => TermRef::Node(node),
    }
}

fn literal<'a>(lexical: &'a str, tail: TailRef<'a>) -> TermRef<'a>
    ensures { term_by chars result ≡ Literal (chars lexical.entry.now) (tail_by chars tail.entry) }
{
    TermRef::Literal(LiteralRef { lexical, tail })
}
