// What a token does to the mode and the frames, once it is known what it stands for.

ghost use Rattle.std.specs.Prelude.{◌≡◌, None, OnOk, IfErr};
ghost use Rattle.rdf_trig.specs.States.{leaf, IsTurtleToken};
ghost use Rattle.rdf_trig.specs.Turns.{Suits, Takes, TakesFit, FramesTaken};

use crate::fault::StepFault;
use crate::rest::Rest;
use crate::state::{Mode, Ready, State};
use crate::turn::Turn;
use rdf_tokens::Token;
use std::alloc::Allocator;

impl<A: Allocator + Copy> State<A> {
    /// Does what the turn says.
    #[inline(always)]
    pub fn take(&mut self, turn: Turn, token: &Token<'_>) -> Result<(), StepFault>
        requires token { IsTurtleToken token.now }
        requires suits { Suits turn token.now.kind self.old.name }
        ensures takes { OnOk result (Takes self.old turn (leaf token.now) self.new) }
        ensures depth { self.new.depth ≡ self.old.depth }
        ensures stack { OnOk result (FramesTaken self.old turn self.new) }
        ensures fits { OnOk result (TakesFit self.old token.now self.new) }
        ensures err { IfErr result (λ r. r ≡ StepFault.Memory) }
    {
        match turn {
            Turn::Lead(outer) => self.lead(outer),
            Turn::Prefix(spelling) => {
                // A copy is lent, so that LLVM keeps the token itself in registers. So too below.
                let token = *token;
                self.take_prefix(spelling, &token)?
            }
            Turn::GraphName => self.graph_name(),
            Turn::GraphLabel => {
                let token = *token;
                self.graph_label(&token)?
            }
            Turn::GraphBracket => {
                let token = *token;
                self.take_bracket(&token)
            }
            Turn::GraphNode => self.graph_node(),
            Turn::SubjectBlock => self.subject_block(),
            Turn::Subject(level, start) => self.subject(level, start, token)?,
            Turn::Verb(around, verb) => self.verb(around, verb),
            Turn::FirstVerb(verb) => self.first_verb(verb),
            Turn::Object(start) => self.object(Rest::none(), start, token)?,
            Turn::FirstItem(start) => self.first_item(start, token)?,
            Turn::NextItem(start) => self.next_item(start, token)?,
            Turn::NextObject => self.stand(Mode::Want),
            Turn::NextVerb => self.stand(Mode::AfterSemicolon),
            Turn::Tag => self.take_tag(token)?,
            Turn::DatatypeMark => self.stand(Mode::WantType),
            Turn::Datatype => self.take_datatype(),
            Turn::EndNode => self.end_node(),
            Turn::EndPropertyList => self.end_property_list(),
            Turn::EmptyCollection => self.empty_collection(),
            Turn::EndCollection => self.end_collection(),
        }
        Ok(())
    }

    // The reader stands here, and no quad is ready.
    #[inline(always)]
    pub fn stand(&mut self, mode: Mode)
        ensures { self.new ≡ record self.old { rest = None; ready = Ready.Nothing; mode = mode } }
    {
        self.wait(Rest::none(), mode);
    }

    // The reader stands here, and no more than the rdf:rest between two cells is ready.
    #[inline(always)]
    pub fn wait(&mut self, rest: Rest, mode: Mode)
        ensures { self.new ≡ record self.old { rest = rest; ready = Ready.Nothing; mode = mode } }
    {
        self.rest = rest;
        self.ready = Ready::Nothing;
        self.mode = mode;
    }
}
