// Turtle and TriG as a grammar that a reader drives.

ghost use Rattle.std.specs.Prelude.{◌≡◌, ◌≢◌, is_some};
ghost use Rattle.rdf_iri.specs.Limits.{Sizes};
ghost use Rattle.rdf_iri.specs.Scope.{bytes_held};
ghost use Rattle.rdf_driver.specs.Words.{KnowsNext};
ghost use Rattle.rdf_trig.specs.declared.form.DocForm.{DocForm};
ghost use Rattle.rdf_trig.specs.Documents.{trees};
ghost use Rattle.rdf_trig.specs.Machine as M;
ghost use Rattle.rdf_trig.specs.Steps.{reason_of, Keeps};
ghost use Rattle.rdf_trig.specs.Accepting.{StepsFrom, tree_words};

use crate::fault::StepFault;
use crate::form::DocForm;
use crate::reader::Options;
use crate::rules::Rules;
use crate::state::State;
use crate::step::Step;
use rdf_driver::{Foresees, Grammar, Hint, Holds, QuadGrammar, QuadItem};
use rdf_iri::Scope;
use rdf_terms::{Dialect, Kind, QuadSink, Reason};
use rdf_tokens::Token;
use std::alloc::{Allocator, Global};
use std::marker::Model;

/// Accepts the tokens of Turtle or TriG.
#[derive(Drop)]
pub struct TreeGrammar<A: Allocator = Global> {
    alloc: A,
    rules: Rules,
    scope: Scope<A>,
    state: State<A>,
}

impl<A: Allocator> Model for TreeGrammar<A> {
    ghost use Rattle.std.specs.Prelude.{◌≡◌};
    ghost use Rattle.rdf_trig.specs.Accepting.{TreeAt};
    ghost use Rattle.rdf_trig.specs.Steps.{state_of, Keeps};
    ghost use Rattle.rdf_trig.specs.Holding.{grammar_bytes};
    ghost use Rattle.rdf_trig.specs.Coded.{up_code, around_code, place_code};
    ghost use Rattle.std.specs.Coded.{codes};

    ghost Value = { TreeAt };

    ghost coded = { Prim.hlevel (codes, up_code, around_code, place_code) };

    ghost view = { λ g. record {
      form = g.rules.form;
      limit = g.rules.limits.token;
      state = state_of g.rules.form g.scope g.state;
      held = grammar_bytes g.state g.scope;
    } };

    ghost invariant = { λ g. (g.scope.limits ≡ g.rules.limits) × Keeps g.rules.form g.rules.limits g.state };
}

impl<A: Allocator + Copy> TreeGrammar<A> {
    /// Before the first token of a document. It takes no memory.
    pub fn new(alloc: A, options: Options<A>) -> TreeGrammar<A>
        ensures { result ≡ record {
          form = options.form;
          limit = options.start.limits.token;
          state = M.at_start options.start;
          held = bytes_held options.start;
        } }
    {
        TreeGrammar {
            alloc,
            rules: options.rules(),
            scope: options.start(alloc),
            state: State::new(alloc),
        }
    }

    /// Where the grammar stands, and what a token of this kind does there, to be printed with `{:?}`. It takes no
    /// memory.
    pub fn step(&self, kind: Kind) -> Step
        ensures exact { KnowsNext tree_words (λ x. trees x.form x.start) self.now kind (is_some result.turn) }
        ensures stands { StepsFrom A self.now kind result }
    {
        self.state.step(self.rules.form, kind)
    }
}

// What is left after a step that failed. It leaves any state, so state and scope begin anew; but a token that is
// unexpected has changed nothing. It is a call, so that the step itself stays as short as it was. The rules are
// lent: for limits that are handed over the step would have a place in memory, and fill it with zeros for each
// token.
#[inline(never)]
fn begin_anew<A: Allocator + Copy>(
    fault: StepFault,
    alloc: A,
    rules: &Rules,
    state: &mut State<A>,
    scope: &mut Scope<A>,
)
    ensures stays { fault ≡ StepFault.Unexpected → (state.new ≡ state.old) × (scope.new ≡ scope.old) }
    ensures anew { fault ≢ StepFault.Unexpected → ((form : DocForm) (sizes : Sizes) → Keeps form sizes state.new)
        × (scope.new.limits ≡ rules.now.limits) }
{
    match fault {
        StepFault::Unexpected => {}
        _ => {
            *state = State::new(alloc);
            *scope = Scope::new(alloc, None, rules.limits);
        }
    }
}

/// The fault of a step, as a reader reports it.
pub fn reason_of(fault: StepFault) -> Reason
    ensures { result ≡ reason_of fault }
{
    match fault {
        StepFault::Unexpected => Reason::Unexpected,
        StepFault::TooDeep => Reason::TooDeep,
        StepFault::Unbound => Reason::Unbound,
        StepFault::NoBase => Reason::NoBase,
        StepFault::IriTooLong => Reason::IriTooLong,
        StepFault::TooManyBindings => Reason::TooManyBindings,
        StepFault::Memory => Reason::Memory,
        StepFault::Sink => Reason::Sink,
    }
}

impl<A: Allocator + Copy> Grammar for TreeGrammar<A> {
    type Setting = Options<A>;

    type Item = QuadItem;

    ghost words = { tree_words };

    fn dialect(&self) -> Dialect {
        Dialect::Turtle
    }
}

impl<A: Allocator + Copy> Foresees for TreeGrammar<A> {
    ghost trees = { λ x. trees x.form x.start };

    fn may_come(&self, kind: Kind) -> bool {
        self.step(kind).may_come()
    }
}

impl<A: Allocator + Copy> QuadGrammar for TreeGrammar<A> {
    #[inline(always)]
    fn accept_quads<S: QuadSink, K: Hint>(
        &mut self,
        token: &Token<'_>,
        sink: &mut S,
    ) -> Result<u64, Reason> {
        match self
            .state
            .accept::<S, K>(&self.rules, &mut self.scope, token, sink)
        {
            Ok(given) => Ok(given),
            Err(fault) => {
                begin_anew(
                    fault,
                    self.alloc,
                    &self.rules,
                    &mut self.state,
                    &mut self.scope,
                );
                Err(reason_of(fault))
            }
        }
    }
}

impl<A: Allocator + Copy> Holds for TreeGrammar<A> {
    ghost bytes = { λ g. g.held };

    fn held(&self) -> u64 {
        self.rules.limits.are_in_range();
        self.state.held() + self.scope.held()
    }
}
