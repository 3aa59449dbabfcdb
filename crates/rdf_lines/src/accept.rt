// What a token does to the state of the reader.

ghost use Rattle.std.specs.Prelude.{◌≡◌, ℕ, false, OnOk, IfOk, IfErr};
ghost use Rattle.rdf_lines.specs.declared.rules.Rules.{Rules};
ghost use Rattle.rdf_lines.specs.Machine as M;
ghost use Rattle.rdf_lines.specs.Machine.{goes, gives};
ghost use Rattle.rdf_lines.specs.States.{mode_of, mode_at, answer, quad_with, IsLineToken, Declines, Does};
ghost use Rattle.rdf_lines.specs.States.{DoesByAnyRules, Fails, FailsByAnyRules, LeadsTo, IsDeclined, HoldsAt};
ghost use Rattle.rdf_lines.specs.States.{StaysWithin};

use crate::form::LineForm;
use crate::rules::Rules;
use crate::state::{Mode, ObjectKind, State};
use rdf_terms::{Kind, PutFault, QuadRef, QuadSink, Reason, SubjectRef, put_string};
use rdf_tokens::Token;
use std::alloc::Allocator;

impl<A: Allocator> State<A> {
    /// Takes a token. A statement's quad is put at its dot. A token that is unexpected changes nothing; after another
    /// error the reader has finished.
    #[inline(always)]
    pub fn accept<S: QuadSink>(
        &mut self,
        rules: Rules,
        token: &Token<'_>,
        sink: &mut S,
    ) -> Result<(), Reason>
        requires token { IsLineToken token.now }
        requires live { S.has_failed sink.old ≡ false }
        ensures ok { OnOk result (Does S.takes (answer rules (mode_of self.old) token.now) sink.old
            (mode_of self.new) sink.new) }
        ensures live { OnOk result (S.has_failed sink.new ≡ false) }
        ensures held { StaysWithin rules.iri self.old self.old.mode token.now self.new self.new.mode }
        ensures stays { IfErr result (λ r. r ≡ Reason.Unexpected → self.new ≡ self.old) }
        ensures err { IfErr result (λ r.
            Fails S.leaves S.has_failed r (answer rules (mode_of self.old) token.now) sink.old sink.new) }
    {
        match self.next(rules, token, sink) {
            Ok(mode) => {
                self.mode = mode;
                Ok(())
            }
            Err(Reason::Unexpected) => Err(Reason::Unexpected),
            Err(reason) => {
                self.clear();
                self.mode = Mode::Finished;
                Err(reason)
            }
        }
    }

    // The mode after a token, whose text has then its place in the state.
    #[inline(always)]
    fn next<S: QuadSink>(
        &mut self,
        rules: Rules,
        token: &Token<'_>,
        sink: &mut S,
    ) -> Result<Mode, Reason>
        requires token { IsLineToken token.now }
        requires live { S.has_failed sink.old ≡ false }
        ensures ok { IfOk result (λ m.
            Does S.takes (answer rules (mode_of self.old) token.now) sink.old (mode_at self.new m) sink.new) }
        ensures live { OnOk result (S.has_failed sink.new ≡ false) }
        ensures held { IfOk result (StaysWithin rules.iri self.old self.old.mode token.now self.new) }
        ensures stays { IfErr result (λ r. r ≡ Reason.Unexpected → self.new ≡ self.old) }
        ensures err { IfErr result (λ r.
            Fails S.leaves S.has_failed r (answer rules (mode_of self.old) token.now) sink.old sink.new) }
    {
        match self.mode {
            Mode::Begin => self.at_begin(rules.iri, token),
            Mode::AfterSubject => self.after_subject(rules.iri, token),
            Mode::AfterPredicate => self.after_predicate(rules.iri, token),
            Mode::AfterString => self.after_string(rules, token, sink),
            Mode::AfterCarets => self.after_carets(rules.iri, token),
            Mode::AfterObject(kind) => self.after_object(rules, kind, token, sink),
            Mode::AfterGraph(kind) => self.after_graph(kind, token, sink),
            Mode::AfterDot => self.after_dot(token),
            Mode::Finished => Err(Reason::Unexpected),
        }
    }

    #[inline(always)]
    fn at_begin(&mut self, limit: u64, token: &Token<'_>) -> Result<Mode, Reason>
        requires { IsLineToken token.now }
        ensures ok { IfOk result (λ m. LeadsTo limit M.Begin token.now (mode_at self.new m)) }
        ensures held { IfOk result (StaysWithin limit self.old Mode.Begin token.now self.new) }
        ensures stays { IfErr result (λ r. r ≡ Reason.Unexpected → self.new ≡ self.old) }
        ensures err { IfErr result (IsDeclined limit M.Begin token.now) }
    {
        match token.kind {
            Kind::IriRef => {
                self.subject.set_iri(token.text, limit)?;
                Ok(Mode::AfterSubject)
            }
            Kind::LabelNode => {
                self.subject.set_label(token.text)?;
                Ok(Mode::AfterSubject)
            }
            Kind::LineEnd => Ok(Mode::Begin),
            Kind::End => Ok(Mode::Finished),
            _ => Err(Reason::Unexpected),
        }
    }

    #[inline(always)]
    fn after_subject(&mut self, limit: u64, token: &Token<'_>) -> Result<Mode, Reason>
        requires { IsLineToken token.now }
        ensures ok { IfOk result (λ m.
            LeadsTo limit (mode_at self.old Mode.AfterSubject) token.now (mode_at self.new m)) }
        ensures held { IfOk result (StaysWithin limit self.old Mode.AfterSubject token.now self.new) }
        ensures stays { IfErr result (λ r. r ≡ Reason.Unexpected → self.new ≡ self.old) }
        ensures err { IfErr result (IsDeclined limit (mode_at self.old Mode.AfterSubject) token.now) }
    {
        match token.kind {
            Kind::IriRef => {
                self.predicate.set(token.text, limit)?;
                Ok(Mode::AfterPredicate)
            }
            _ => Err(Reason::Unexpected),
        }
    }

    #[inline(always)]
    fn after_predicate(&mut self, limit: u64, token: &Token<'_>) -> Result<Mode, Reason>
        requires { IsLineToken token.now }
        ensures ok { IfOk result (λ m.
            LeadsTo limit (mode_at self.old Mode.AfterPredicate) token.now (mode_at self.new m)) }
        ensures held { IfOk result (StaysWithin limit self.old Mode.AfterPredicate token.now self.new) }
        ensures stays { IfErr result (λ r. r ≡ Reason.Unexpected → self.new ≡ self.old) }
        ensures err { IfErr result (IsDeclined limit (mode_at self.old Mode.AfterPredicate) token.now) }
    {
        match token.kind {
            Kind::IriRef => {
                self.object.set_iri(token.text, limit)?;
                Ok(Mode::AfterObject(ObjectKind::Named))
            }
            Kind::LabelNode => {
                self.object.set_label(token.text)?;
                Ok(Mode::AfterObject(ObjectKind::Named))
            }
            Kind::ShortString => {
                put_string(&mut self.lexical, token.text)?;
                Ok(Mode::AfterString)
            }
            _ => Err(Reason::Unexpected),
        }
    }

    #[inline(always)]
    fn after_string<S: QuadSink>(
        &mut self,
        rules: Rules,
        token: &Token<'_>,
        sink: &mut S,
    ) -> Result<Mode, Reason>
        requires token { IsLineToken token.now }
        requires live { S.has_failed sink.old ≡ false }
        ensures ok { IfOk result (λ m. Does S.takes
            (answer rules (mode_at self.old Mode.AfterString) token.now) sink.old (mode_at self.new m) sink.new) }
        ensures live { OnOk result (S.has_failed sink.new ≡ false) }
        ensures held { IfOk result (StaysWithin rules.iri self.old Mode.AfterString token.now self.new) }
        ensures stays { IfErr result (λ r. r ≡ Reason.Unexpected → self.new ≡ self.old) }
        ensures err { IfErr result (λ r. Fails S.leaves S.has_failed r
            (answer rules (mode_at self.old Mode.AfterString) token.now) sink.old sink.new) }
    {
        match token.kind {
            Kind::LangTag => {
                self.tail.set_tag(token.text)?;
                Ok(Mode::AfterObject(ObjectKind::WithTail))
            }
            Kind::Carets => Ok(Mode::AfterCarets),
            _ => self.after_object(rules, ObjectKind::Plain, token, sink),
        }
    }

    #[inline(always)]
    fn after_carets(&mut self, limit: u64, token: &Token<'_>) -> Result<Mode, Reason>
        requires { IsLineToken token.now }
        ensures ok { IfOk result (λ m.
            LeadsTo limit (mode_at self.old Mode.AfterCarets) token.now (mode_at self.new m)) }
        ensures held { IfOk result (StaysWithin limit self.old Mode.AfterCarets token.now self.new) }
        ensures stays { IfErr result (λ r. r ≡ Reason.Unexpected → self.new ≡ self.old) }
        ensures err { IfErr result (IsDeclined limit (mode_at self.old Mode.AfterCarets) token.now) }
    {
        match token.kind {
            Kind::IriRef => {
                self.tail.set_datatype(token.text, limit)?;
                Ok(Mode::AfterObject(ObjectKind::WithTail))
            }
            _ => Err(Reason::Unexpected),
        }
    }

    // A graph label stands in N-Quads only.
    #[inline(always)]
    fn after_object<S: QuadSink>(
        &mut self,
        rules: Rules,
        kind: ObjectKind,
        token: &Token<'_>,
        sink: &mut S,
    ) -> Result<Mode, Reason>
        requires token { IsLineToken token.now }
        requires live { S.has_failed sink.old ≡ false }
        ensures ok { IfOk result (λ m. Does S.takes
            (answer rules (mode_at self.old (Mode.AfterObject kind)) token.now) sink.old
            (mode_at self.new m) sink.new) }
        ensures live { OnOk result (S.has_failed sink.new ≡ false) }
        ensures held { IfOk result (StaysWithin rules.iri self.old (Mode.AfterObject kind) token.now self.new) }
        ensures stays { IfErr result (λ r. r ≡ Reason.Unexpected → self.new ≡ self.old) }
        ensures err { IfErr result (λ r. Fails S.leaves S.has_failed r
            (answer rules (mode_at self.old (Mode.AfterObject kind)) token.now) sink.old sink.new) }
    {
        match (rules.form, token.kind) {
            (_, Kind::Dot) => {
                let mode = self.give(kind, None, sink)?;
                self.clear();
                Ok(mode)
            }
            (LineForm::NQuads, Kind::IriRef) => {
                self.graph.set_iri(token.text, rules.iri)?;
                Ok(Mode::AfterGraph(kind))
            }
            (LineForm::NQuads, Kind::LabelNode) => {
                self.graph.set_label(token.text)?;
                Ok(Mode::AfterGraph(kind))
            }
            _ => Err(Reason::Unexpected),
        }
    }

    #[inline(always)]
    fn after_graph<S: QuadSink>(
        &mut self,
        kind: ObjectKind,
        token: &Token<'_>,
        sink: &mut S,
    ) -> Result<Mode, Reason>
        requires { S.has_failed sink.old ≡ false }
        ensures ok { IfOk result (λ m. DoesByAnyRules S.takes
            (mode_at self.old (Mode.AfterGraph kind)) token.now sink.old (mode_at self.new m) sink.new) }
        ensures live { OnOk result (S.has_failed sink.new ≡ false) }
        ensures held { IfOk result (λ m. (n : ℕ) → HoldsAt n self.new m) }
        ensures stays { IfErr result (λ r. self.new ≡ self.old) }
        ensures err { IfErr result (λ r. FailsByAnyRules S.leaves S.has_failed r
            (mode_at self.old (Mode.AfterGraph kind)) token.now sink.old sink.new) }
    {
        match token.kind {
            Kind::Dot => {
                let mode = self.give(kind, Some(self.graph.view()), sink)?;
                self.clear();
                Ok(mode)
            }
            _ => Err(Reason::Unexpected),
        }
    }

    // Puts the quad of the line, whose dot has come.
    #[inline(always)]
    fn give<S: QuadSink>(
        &self,
        kind: ObjectKind,
        graph: Option<SubjectRef<'_>>,
        sink: &mut S,
    ) -> Result<Mode, Reason>
        requires { S.has_failed sink.old ≡ false }
        ensures mode { IfOk result (λ m. m ≡ Mode.AfterDot) }
        ensures ok { OnOk result (S.takes sink.old (quad_with self.now kind graph.entry) sink.new) }
        ensures live { OnOk result (S.has_failed sink.new ≡ false) }
        ensures err { IfErr result (λ r. Fails S.leaves S.has_failed r
            (gives (quad_with self.now kind graph.entry) M.AfterDot) sink.old sink.new) }
    {
        let quad = QuadRef {
            subject: self.subject.view(),
            predicate: self.predicate.view(),
            object: self.object(kind),
            graph,
        };
        match sink.put(&quad) {
            Ok(()) => Ok(Mode::AfterDot),
            Err(PutFault::Memory) => Err(Reason::Memory),
            Err(PutFault::Device) => Err(Reason::Sink),
        }
    }

    #[inline(always)]
    fn after_dot(&self, token: &Token<'_>) -> Result<Mode, Reason>
        ensures ok { IfOk result (λ m. (g : Rules) → answer g M.AfterDot token.now ≡ goes (mode_at self.now m)) }
        ensures held { IfOk result (λ m. (n : ℕ) → HoldsAt n self.now Mode.AfterDot → HoldsAt n self.now m) }
        ensures err { IfErr result (λ r. (g : Rules) → Declines r (answer g M.AfterDot token.now)) }
    {
        match token.kind {
            Kind::LineEnd => Ok(Mode::Begin),
            Kind::End => Ok(Mode::Finished),
            _ => Err(Reason::Unexpected),
        }
    }
}
