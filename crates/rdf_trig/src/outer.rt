// Turns outside of statements: directives, and graph blocks.

ghost use Rattle.std.specs.Prelude.{◌≡◌, ◌≤◌, ◌*◌, true, length, is_some, OnOk, IfErr};
ghost use Rattle.std.specs.Str.{chars};
ghost use Rattle.std.specs.String.{string_bytes};
ghost use Rattle.rdf_iri.specs.Texts.{before};
ghost use Rattle.rdf_tokens.specs.Leaves.{Leaf};
ghost use Rattle.rdf_terms.specs.declared.kind.Kind.TheVariants as Kind;
ghost use Rattle.rdf_trig.specs.declared.turn.Turn.TheVariants as Turn;
ghost use Rattle.rdf_trig.specs.States.{leaf, IsTurtleToken};
ghost use Rattle.rdf_trig.specs.Turns.{Leads, Takes, TakesFit, TurnFits, FramesTaken};

use crate::fault::StepFault;
use crate::spelled::parts;
use crate::state::{Block, Container, Level, Mode, Outer, Spelling, State};
use rdf_terms::label_of;
use rdf_tokens::Token;
use std::alloc::Allocator;
use std::mem;

impl<A: Allocator + Copy> State<A> {
    // The reader stands outside of statements.
    #[inline(always)]
    pub fn lead(&mut self, outer: Outer)
        ensures same { Leads self.old outer self.new }
        ensures takes { (l : Leaf) → Takes self.old (Turn.Lead outer) l self.new }
        ensures depth { self.new.depth ≡ self.old.depth }
        ensures stack { FramesTaken self.old (Turn.Lead outer) self.new }
        ensures fits { TurnFits self.old self.new }
    {
        self.level = Level::Top;
        self.frame.container = Container::none();
        self.stand(Mode::Outer(outer));
    }

    // The prefix of a directive.
    pub fn take_prefix(&mut self, spelling: Spelling, token: &Token<'_>) -> Result<(), StepFault>
        ensures takes { OnOk result (Takes self.old (Turn.Prefix spelling) (leaf token.now) self.new) }
        ensures depth { self.new.depth ≡ self.old.depth }
        ensures stack { OnOk result (FramesTaken self.old (Turn.Prefix spelling) self.new) }
        ensures fits { OnOk result (TakesFit self.old token.now self.new) }
        ensures err { IfErr result (λ r. r ≡ StepFault.Memory) }
    {
        self.object.set_nil();
        set_prefix(&mut self.text, token.text)?;
        self.lead(Outer::WantPrefixIri(spelling));
        Ok(())
    }

    // The IRI of a graph, after GRAPH.
    pub fn graph_name(&mut self)
        requires named { is_some self.old.name ≡ true }
        ensures takes { (l : Leaf) → Takes self.old Turn.GraphName l self.new }
        ensures depth { self.new.depth ≡ self.old.depth }
        ensures stack { FramesTaken self.old Turn.GraphName self.new }
        ensures fits { TurnFits self.old self.new }
    {
        self.graph.take(&mut self.name);
        self.lead(Outer::WantBrace);
    }

    // The label of a graph that is a blank node, after GRAPH.
    pub fn graph_label(&mut self, token: &Token<'_>) -> Result<(), StepFault>
        requires token { IsTurtleToken token.now }
        requires label { token.now.kind ≡ Kind.LabelNode }
        ensures takes { OnOk result (Takes self.old Turn.GraphLabel (leaf token.now) self.new) }
        ensures depth { self.new.depth ≡ self.old.depth }
        ensures stack { OnOk result (FramesTaken self.old Turn.GraphLabel self.new) }
        ensures fits { OnOk result (TakesFit self.old token.now self.new) }
        ensures err { IfErr result (λ r. r ≡ StepFault.Memory) }
    {
        self.graph.set_label(label_of(token.text))?;
        self.lead(Outer::WantBrace);
        Ok(())
    }

    // The `[` after GRAPH.
    pub fn take_bracket(&mut self, token: &Token<'_>)
        ensures takes { Takes self.old Turn.GraphBracket (leaf token.now) self.new }
        ensures depth { self.new.depth ≡ self.old.depth }
        ensures stack { FramesTaken self.old Turn.GraphBracket self.new }
        ensures fits { TurnFits self.old self.new }
    {
        self.bracket = token.offset;
        self.lead(Outer::GraphBracket);
    }

    // The `]` after GRAPH and `[`. No frame is open there.
    pub fn graph_node(&mut self)
        ensures takes { (l : Leaf) → Takes self.old Turn.GraphNode l self.new }
        ensures depth { self.new.depth ≡ self.old.depth }
        ensures stack { FramesTaken self.old Turn.GraphNode self.new }
        ensures fits { TurnFits self.old self.new }
    {
        self.graph.set_anon(self.bracket);
        self.frames.clear();
        self.lead(Outer::WantBrace);
    }

    // The `{` after what would be a subject: it is a graph's label.
    pub fn subject_block(&mut self)
        ensures takes { (l : Leaf) → Takes self.old Turn.SubjectBlock l self.new }
        ensures depth { self.new.depth ≡ self.old.depth }
        ensures stack { FramesTaken self.old Turn.SubjectBlock self.new }
        ensures fits { TurnFits self.old self.new }
    {
        mem::swap(&mut self.graph, &mut self.frame.subject);
        self.lead(Outer::Inside(Block::Named));
    }
}

// The prefix of a directive in place of a text.
fn set_prefix<A: Allocator>(out: &mut String<A>, text: &str) -> Result<(), StepFault>
    ensures ok { OnOk result (chars (string_bytes out.new) ≡ before 58 (chars text.now)) }
    ensures fits { OnOk result (length (string_bytes out.new) ≤ 4 * length (chars text.now)) }
    ensures err { IfErr result (λ r. r ≡ StepFault.Memory) }
{
    let (prefix, _) = parts(text);
    out.clear();
    out.push_str(prefix)?;
    Ok(())
}
