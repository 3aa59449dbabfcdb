// A token is accepted: the checks, then the quads that are due, then the move.

ghost use Rattle.std.specs.Prelude.{◌≡◌, ◌≤◌, ◌<◌, ◌+◌, ◌^◌, ◌&&◌, length, nat_le, true, false, None, OnOk, IfOk};
ghost use Rattle.std.specs.Prelude.{IfErr};
ghost use Rattle.rdf_iri.specs.Limits.{Sizes};
ghost use Rattle.rdf_iri.specs.Scope.{InForce};
ghost use Rattle.rdf_tokens.specs.Scans.{KnowsItsColon};
ghost use Rattle.rdf_trig.specs.declared.form.DocForm.{DocForm};
ghost use Rattle.rdf_trig.specs.Machine as M;
ghost use Rattle.rdf_trig.specs.States.{leaf, IsTurtleToken, mode_in, DepthMoves};
ghost use Rattle.rdf_trig.specs.Holding.{state_bytes};
ghost use Rattle.rdf_trig.specs.Turns.{Suits, SuitsIn, IsTurn, KeepsFrames, Takes, TakesFit, FramesTaken};
ghost use Rattle.rdf_trig.specs.Steps.{state_of, MayAll, DepthMay, Keeps, AcceptsAll, Counts, FailsAll, RefusedWithin};

use crate::fault::StepFault;
use crate::give::give;
use crate::names::Name;
use crate::rest::Rest;
use crate::rules::Rules;
use crate::slots::{TagText, Topic};
use crate::spares::Spares;
use crate::state::{Frame, Level, Mode, Outer, Ready, State};
use crate::turn::Turn;
use rdf_driver::Hint;
use rdf_iri::Scope;
use rdf_terms::{Kind, QuadSink};
use rdf_tokens::Token;
use std::alloc::Allocator;

fn deepens(kind: Kind) -> bool
    ensures { result ≡ M.deepens kind }
{
    matches!(kind, Kind::OpenBracket | Kind::OpenParen)
}

// Whether the token opens a bracket more than may be open.
fn is_too_deep(most: u64, depth: u64, kind: Kind) -> bool
    ensures is { result ≡ (M.deepens kind && nat_le most depth) }
    ensures room { result ≡ false → M.deepens kind ≡ true → depth + 1 < 2 ^ 64 }
    ensures deep { result ≡ false → M.deepens kind ≡ true → depth + 1 ≤ most }
{
    deepens(kind) && most <= depth
}

// How many brackets are open after a token.
fn depth_after(depth: u64, kind: Kind) -> u64
    requires { DepthMay kind depth }
    ensures { DepthMoves kind depth result }
{
    match kind {
        Kind::OpenBracket | Kind::OpenParen => depth + 1,
        Kind::CloseBracket | Kind::CloseParen => depth - 1,
        _ => depth,
    }
}

impl<A: Allocator + Copy> State<A> {
    /// Nothing was read. It takes no memory.
    pub fn new(alloc: A) -> State<A>
        ensures start { (form : DocForm) (s : InForce) → state_of form s result ≡ M.at_start s }
        ensures keeps { (form : DocForm) (sizes : Sizes) → Keeps form sizes result }
        ensures held { state_bytes result ≡ 0 }
    {
        State {
            alloc,
            mode: Mode::Outer(Outer::Start),
            frame: Frame::none(alloc),
            level: Level::Top,
            graph: Topic::new(alloc),
            frames: Vec::new(alloc),
            spares: Spares::new(alloc),
            rest: Rest::none(),
            ready: Ready::Nothing,
            object: Topic::new(alloc),
            text: String::new(alloc),
            datatype: Name::new(alloc),
            tag: TagText::new(alloc),
            name: Name::new(alloc),
            bracket: 0,
            depth: 0,
        }
    }

    // What the token does, if it may stand here by the grammar and by the limit of open brackets.
    #[inline(always)]
    fn check(&self, rules: &Rules, kind: Kind) -> Result<Turn, StepFault>
        requires { self.now.depth ≡ M.depth (mode_in rules.now.form self.now) }
        ensures ok { OnOk result (MayAll rules.now.form rules.now.limits.depth self.now kind) }
        ensures turn { IfOk result (IsTurn rules.now.form self.now self.now.mode kind) }
        ensures suits { IfOk result (SuitsIn rules.now.form self.now self.now.mode kind) }
        ensures frames { IfOk result (KeepsFrames kind) }
        ensures room { OnOk result (DepthMay kind self.now.depth) }
        ensures deep { OnOk result (M.deepens kind ≡ true → self.now.depth + 1 ≤ rules.now.limits.depth) }
        ensures err { IfErr result (RefusedWithin rules.now.form rules.now.limits.depth self.now kind) }
    {
        match self.turn(rules.form, kind) {
            None => Err(StepFault::Unexpected),
            Some(turn) => {
                if is_too_deep(rules.limits.depth(), self.depth, kind) {
                    return Err(StepFault::TooDeep);
                }
                Ok(turn)
            }
        }
    }

    // Moves, once the quads were put, by a token of this kind.
    #[inline(always)]
    fn move_on(&mut self, turn: Turn, kind: Kind, token: &Token<'_>) -> Result<(), StepFault>
        requires token { IsTurtleToken token.now }
        requires suits { Suits turn token.now.kind self.old.name }
        requires room { DepthMay kind self.old.depth }
        ensures takes { OnOk result (Takes self.old turn (leaf token.now) self.new) }
        ensures depth { OnOk result (DepthMoves kind self.old.depth self.new.depth) }
        ensures stack { OnOk result (FramesTaken self.old turn self.new) }
        ensures fits { OnOk result (TakesFit self.old token.now self.new) }
        ensures name { OnOk result (self.new.name ≡ None) }
        ensures err { IfErr result (λ r. r ≡ StepFault.Memory) }
    {
        self.take(turn, token)?;
        self.name.clear();
        self.depth = depth_after(self.depth, kind);
        Ok(())
    }

    /// Accepts a token, and answers how many quads it determined, or says why not. A token that is unexpected changes
    /// nothing. After another error nothing is known of the state.
    pub fn accept<S: QuadSink, K: Hint>(
        &mut self,
        rules: &Rules,
        scope: &mut Scope<A>,
        token: &Token<'_>,
        sink: &mut S,
    ) -> Result<u64, StepFault>
        requires token { IsTurtleToken token.now }
        requires short { length (leaf token.now).text ≤ scope.old.limits.token }
        requires colon { KnowsItsColon token.now }
        requires most { rules.now.limits.depth ≡ scope.old.limits.depth }
        requires keeps { Keeps rules.now.form scope.old.limits self.old }
        requires live { S.has_failed sink.old ≡ false }
        ensures ok { OnOk result (AcceptsAll S.takes rules.now.form scope.old self.old token.now sink.old self.new
            scope.new sink.new) }
        ensures count { IfOk result (Counts rules.now.form self.old token.now) }
        ensures limits { OnOk result (scope.new.limits ≡ scope.old.limits) }
        ensures keeps { OnOk result (Keeps rules.now.form scope.old.limits self.new) }
        ensures live { OnOk result (S.has_failed sink.new ≡ false) }
        ensures stays { IfErr result (λ r. r ≡ StepFault.Unexpected → (self.new ≡ self.old) × (scope.new ≡ scope.old)) }
        ensures err { IfErr result (FailsAll S.takes S.leaves S.has_failed rules.now.form scope.old self.old token.now
            sink.old sink.new) }
    {
        // Read once, before the token is lent: where the caller knows the kind, so does all that follows.
        let kind = token.kind;
        let turn = self.check(rules, kind)?;
        if let Some(slot) = self.slot(turn, kind) {
            self.fill(slot, scope, token)?;
            return Ok(0);
        }
        self.look_up(scope, token)?;
        let given = give(self, token, sink)?;
        self.move_on(turn, kind, token)?;
        Ok(given)
    }
}
