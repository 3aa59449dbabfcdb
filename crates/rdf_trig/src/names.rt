// What references and names stand for, and what directives do to the scope.

ghost use Rattle.std.specs.Prelude.{◌≡◌, ◌≤◌, ◌*◌, ℕ, List, true, Some, None, IfOk, IfErr, OnOk, length, is_some};
ghost use Rattle.std.specs.Prelude.{unwrap_or};
ghost use Rattle.std.specs.Str.{chars};
ghost use Rattle.std.specs.String.{string_bytes};
ghost use Rattle.rdf_terms.specs.Terms.{IsIri};
ghost use Rattle.rdf_terms.specs.Views.{iri_chars};
ghost use Rattle.rdf_terms.specs.Known.{known_chars};
ghost use Rattle.rdf_iri.specs.Texts.{IsIriText, byte_len};
ghost use Rattle.rdf_iri.specs.Scope.{ResolvesHere};
ghost use Rattle.rdf_tokens.specs.Leaves.{iri_of};
ghost use Rattle.rdf_tokens.specs.Scans.{KnowsItsColon};
ghost use Rattle.rdf_trig.specs.Machine as M;
ghost use Rattle.rdf_trig.specs.Owed.{iri_size};
ghost use Rattle.rdf_trig.specs.States.{leaf, IsTurtleToken, PrefixFits};
ghost use Rattle.rdf_trig.specs.Holding.{NameFits};
ghost use Rattle.rdf_trig.specs.Scopes.{IsReference, IsPrefixed, StandsForIri, Names, Unnamed, Binding, NotBinding};
ghost use Rattle.rdf_trig.specs.Scopes.{Based, Finds, FindsNone, FindsIri, FindsNoIri};

use crate::emptied::clear_text;
use crate::fault::StepFault;
use crate::plain::{lacks_escapes, lacks_iri_escapes};
use crate::spelled::{parts, plain_parts};
use crate::state::{Mode, Outer, State};
use rdf_iri::Scope;
use rdf_terms::{IriView, Kind, Known, TextBuffer, known, put_iri, without_ends};
use rdf_tokens::Token;
use std::alloc::{Allocator, Global};
use std::marker::Model;
use std::mem;

/// An IRI, or none where the text is empty, in a text that is used again.
#[derive(Drop)]
pub struct Name<A: Allocator = Global> {
    text: TextBuffer<A>,
}

impl<A: Allocator> Model for Name<A> {
    ghost use Rattle.std.specs.Prelude.{ℕ, List, Option, IfSome};
    ghost use Rattle.std.specs.Str.{chars};
    ghost use Rattle.rdf_terms.specs.Terms.{IsIri};
    ghost use Rattle.rdf_trig.specs.Slots.{text_at};

    ghost Value = { Option (List ℕ) };

    ghost view = { λ n. text_at (chars n.text) };

    ghost invariant = { λ n. IfSome (text_at (chars n.text)) (λ w. ∥ IsIri w ∥₁) };
}

impl<A: Allocator> Name<A> {
    /// No IRI. It takes no memory.
    pub fn new(alloc: A) -> Name<A>
        ensures { result ≡ None }
    {
        Name {
            text: TextBuffer::new(alloc),
        }
    }

    /// Takes the IRI away.
    #[inline(always)]
    pub fn clear(&mut self)
        ensures { self.new ≡ None }
    {
        clear_text(&mut self.text);
    }

    /// Gives its text away for another one.
    #[inline(always)]
    pub fn give(&mut self, text: &mut TextBuffer<A>)
        requires { is_some self.old ≡ true }
        ensures text { Some (chars text.new) ≡ self.old }
        ensures is_iri { IsIri (chars text.new) }
        ensures none { self.new ≡ None }
    {
        mem::swap(&mut self.text, text);
        clear_text(&mut self.text);
    }

    /// The IRI, borrowed; or, where there is none, this one.
    #[inline(always)]
    pub fn view_or(&self, other: Known) -> IriView<'_>
        ensures { iri_chars result ≡ unwrap_or self.now (known_chars other) }
    {
        if self.len() > 0 {
            IriView::of_bytes(self.text.as_bytes())
        } else {
            known(other)
        }
    }

    /// How many bytes its text has memory for.
    #[inline(always)]
    pub fn capacity(&self) -> usize {
        self.text.capacity()
    }

    /// How many bytes its text has.
    #[inline(always)]
    pub fn len(&self) -> u64
        ensures { result ≡ iri_size self.now }
    {
        self.text.byte_len()
    }
}

impl<A: Allocator + Copy> Name<A> {
    /// The IRI of a reference or a name. After an error there is none.
    #[inline(always)]
    pub fn set(&mut self, alloc: A, scope: &Scope<A>, token: &Token<'_>) -> Result<(), StepFault>
        requires token { IsTurtleToken token.now }
        requires kind { StandsForIri token.now.kind }
        requires colon { KnowsItsColon token.now }
        ensures ok { OnOk result (Names scope.now token.now.kind (leaf token.now) self.new) }
        ensures fits { OnOk result (NameFits scope.now.limits.iri self.new) }
        ensures err { IfErr result (λ r. Unnamed scope.now token.now.kind (leaf token.now) r) }
    {
        match put_name(alloc, &mut self.text, scope, token) {
            Ok(()) => Ok(()),
            Err(fault) => {
                clear_text(&mut self.text);
                Err(fault)
            }
        }
    }
}

/// Puts the IRI of a reference or a name in place of a text. After an error nothing is known of the text.
#[tactic(auto, using(crate::proofs::code::LookUps::reference_at))]
#[inline(always)]
pub fn put_name<A: Allocator + Copy>(
    alloc: A,
    text: &mut TextBuffer<A>,
    scope: &Scope<A>,
    token: &Token<'_>,
) -> Result<(), StepFault>
    requires token { IsTurtleToken token.now }
    requires kind { StandsForIri token.now.kind }
    requires colon { KnowsItsColon token.now }
    ensures ok { OnOk result (Names scope.now token.now.kind (leaf token.now) (Some (chars text.new))) }
    ensures is_iri { OnOk result (IsIri (chars text.new)) }
    ensures fits { OnOk result (byte_len (chars text.new) ≤ scope.now.limits.iri) }
    ensures err { IfErr result (λ r. Unnamed scope.now token.now.kind (leaf token.now) r) }
{
    match token.kind {
        Kind::IriRef => put_reference(alloc, text, scope, token),
        _ => put_prefixed(text, scope, token),
    }
}

// Puts the IRI of a prefixed name in place of a text.
#[tactic(auto, using(crate::proofs::code::LookUps::name_not))]
#[inline(always)]
fn put_prefixed<A: Allocator + Copy>(
    text: &mut TextBuffer<A>,
    scope: &Scope<A>,
    token: &Token<'_>,
) -> Result<(), StepFault>
    requires token { IsTurtleToken token.now }
    requires kind { IsPrefixed token.now.kind }
    requires colon { KnowsItsColon token.now }
    ensures ok { OnOk result (Names scope.now token.now.kind (leaf token.now) (Some (chars text.new))) }
    ensures is_iri { OnOk result (IsIri (chars text.new)) }
    ensures fits { OnOk result (byte_len (chars text.new) ≤ scope.now.limits.iri) }
    ensures err { IfErr result (λ r. Unnamed scope.now token.now.kind (leaf token.now) r) }
{
    if token.colon > 0 {
        let (prefix, local) = plain_parts(token.text, token.colon);
        return Ok(scope.expand_into(prefix, local, text)?);
    }
    // A copy is lent, so that LLVM keeps the token itself in registers.
    let token = *token;
    put_spelled(text, scope, &token)
}

// The same of a name that may have escapes. It is called, so that what calls it stays small.
#[tactic(auto, using(crate::proofs::code::LookUps::name_not))]
#[inline(never)]
fn put_spelled<A: Allocator + Copy>(
    text: &mut TextBuffer<A>,
    scope: &Scope<A>,
    token: &Token<'_>,
) -> Result<(), StepFault>
    requires token { IsTurtleToken token.now }
    requires kind { IsPrefixed token.now.kind }
    ensures ok { OnOk result (Names scope.now token.now.kind (leaf token.now) (Some (chars text.new))) }
    ensures is_iri { OnOk result (IsIri (chars text.new)) }
    ensures fits { OnOk result (byte_len (chars text.new) ≤ scope.now.limits.iri) }
    ensures err { IfErr result (λ r. Unnamed scope.now token.now.kind (leaf token.now) r) }
{
    let (prefix, local) = parts(token.text);
    if lacks_escapes(local) {
        return Ok(scope.expand_into(prefix, local, text)?);
    }
    Ok(scope.expand_escaped_into(prefix, local, text)?)
}

// Puts the IRI of a reference in place of a text. A reference without escapes is resolved as it stands in the token.
fn put_reference<A: Allocator + Copy>(
    alloc: A,
    text: &mut TextBuffer<A>,
    scope: &Scope<A>,
    token: &Token<'_>,
) -> Result<(), StepFault>
    requires token { IsTurtleToken token.now }
    requires kind { IsReference token.now.kind }
    ensures ok { OnOk result (ResolvesHere scope.now (iri_of (leaf token.now)) (chars text.new)) }
    ensures is_iri { OnOk result (IsIri (chars text.new)) }
    ensures err { IfErr result (λ r. Unnamed scope.now token.now.kind (leaf token.now) r) }
{
    let inside = without_ends(token.text);
    if lacks_iri_escapes(inside) {
        scope.resolve_into(inside, text)?;
    } else {
        let mut reference = reference_text(alloc, token)?;
        scope.resolve_in_place(&mut reference)?;
        text.put(reference.as_str())?;
    }
    Ok(())
}

// Puts the text of an IRIREF, with its escapes replaced, in place of a text.
#[tactic(auto, using(crate::proofs::code::SpelledLemmas::fit_reference))]
fn set_reference_text<A: Allocator>(out: &mut String<A>, token: &Token<'_>) -> Result<(), StepFault>
    requires token { IsTurtleToken token.now }
    requires kind { IsReference token.now.kind }
    ensures ok { OnOk result (chars (string_bytes out.new) ≡ iri_of (leaf token.now)) }
    ensures text { OnOk result (IsIriText (chars (string_bytes out.new))) }
    ensures err { IfErr result (λ r. r ≡ StepFault.Memory) }
{
    put_iri(out, token.text)?;
    Ok(())
}

// The text of an IRIREF, with its escapes replaced.
fn reference_text<A: Allocator>(alloc: A, token: &Token<'_>) -> Result<String<A>, StepFault>
    requires token { IsTurtleToken token.now }
    requires kind { IsReference token.now.kind }
    ensures ok { IfOk result (λ s. chars (string_bytes s) ≡ iri_of (leaf token.now)) }
    ensures text { IfOk result (λ s. IsIriText (chars (string_bytes s))) }
    ensures err { IfErr result (λ r. r ≡ StepFault.Memory) }
{
    let mut text = String::new(alloc);
    set_reference_text(&mut text, token)?;
    Ok(text)
}

#[tactic(auto, using(crate::proofs::code::LookUps::base_is, crate::proofs::code::LookUps::reference_not))]
fn set_base<A: Allocator + Copy>(
    alloc: A,
    scope: &mut Scope<A>,
    token: &Token<'_>,
) -> Result<(), StepFault>
    requires token { IsTurtleToken token.now }
    requires kind { IsReference token.now.kind }
    ensures ok { OnOk result (Based scope.old (leaf token.now) scope.new) }
    ensures err { IfErr result (λ r. Unnamed scope.old token.now.kind (leaf token.now) r) }
{
    let reference = reference_text(alloc, token)?;
    scope.set_base(reference.as_str())?;
    Ok(())
}

#[tactic(auto, using(crate::proofs::code::LookUps::binding_is, crate::proofs::code::LookUps::binding_not))]
fn bind<A: Allocator + Copy>(
    alloc: A,
    scope: &mut Scope<A>,
    prefix: &String<A>,
    token: &Token<'_>,
) -> Result<(), StepFault>
    requires token { IsTurtleToken token.now }
    requires kind { IsReference token.now.kind }
    requires short { length (string_bytes prefix.now) ≤ 4 * scope.old.limits.token }
    ensures ok { OnOk result (Binding scope.old (chars (string_bytes prefix.now)) (leaf token.now) scope.new) }
    ensures err { IfErr result (λ r. NotBinding scope.old (chars (string_bytes prefix.now)) (leaf token.now) r) }
{
    let reference = reference_text(alloc, token)?;
    scope.bind(prefix.as_str(), reference.as_str())?;
    Ok(())
}

impl<A: Allocator + Copy> State<A> {
    /// Looks up what a token stands for: the state's name is its IRI. In a directive the scope changes, and there is no
    /// name.
    #[inline(always)]
    pub fn look_up(&mut self, scope: &mut Scope<A>, token: &Token<'_>) -> Result<(), StepFault>
        requires none { self.old.name ≡ None }
        requires token { IsTurtleToken token.now }
        requires short { PrefixFits (4 * scope.old.limits.token) self.old self.old.mode }
        requires colon { KnowsItsColon token.now }
        ensures ok { OnOk result (Finds self.old self.old.mode scope.old token.now self.new.name scope.new) }
        ensures fits { OnOk result (NameFits scope.old.limits.iri self.new.name) }
        ensures same { self.new ≡ record self.old { name = self.new.name } }
        ensures err { IfErr result (FindsNone self.old self.old.mode scope.old token.now) }
    {
        match self.mode {
            Mode::Outer(outer) => {
                // A copy is lent, so that LLVM keeps the token itself in registers.
                let token = *token;
                self.look_up_outer(outer, scope, &token)
            }
            _ => self.look_up_name(scope, token),
        }
    }

    fn look_up_outer(
        &mut self,
        outer: Outer,
        scope: &mut Scope<A>,
        token: &Token<'_>,
    ) -> Result<(), StepFault>
        requires none { self.old.name ≡ None }
        requires token { IsTurtleToken token.now }
        requires short { PrefixFits (4 * scope.old.limits.token) self.old (Mode.Outer outer) }
        requires colon { KnowsItsColon token.now }
        ensures ok { OnOk result (Finds self.old (Mode.Outer outer) scope.old token.now self.new.name scope.new) }
        ensures fits { OnOk result (NameFits scope.old.limits.iri self.new.name) }
        ensures same { self.new ≡ record self.old { name = self.new.name } }
        ensures err { IfErr result (FindsNone self.old (Mode.Outer outer) scope.old token.now) }
    {
        match outer {
            Outer::WantPrefix(_) => Ok(()),
            Outer::WantPrefixIri(_) => look_up_prefix(self.alloc, scope, &self.text, token),
            Outer::WantBaseIri(_) => look_up_base(self.alloc, scope, token),
            _ => self.look_up_name(scope, token),
        }
    }

    // The IRI of a reference or a name. What the state holds stays as it is, though the token may be refused.
    #[inline(always)]
    fn look_up_name(&mut self, scope: &Scope<A>, token: &Token<'_>) -> Result<(), StepFault>
        requires none { self.old.name ≡ None }
        requires token { IsTurtleToken token.now }
        requires colon { KnowsItsColon token.now }
        ensures ok { OnOk result (Names scope.now token.now.kind (leaf token.now) self.new.name) }
        ensures fits { OnOk result (NameFits scope.now.limits.iri self.new.name) }
        ensures same { self.new ≡ record self.old { name = self.new.name } }
        ensures err { IfErr result (λ r. Unnamed scope.now token.now.kind (leaf token.now) r) }
    {
        name_token(self.alloc, &mut self.name, scope, token)
    }
}

// The IRI that a token stands for, if it is a reference or a name.
#[inline(always)]
fn name_token<A: Allocator + Copy>(
    alloc: A,
    name: &mut Name<A>,
    scope: &Scope<A>,
    token: &Token<'_>,
) -> Result<(), StepFault>
    requires none { name.old ≡ None }
    requires token { IsTurtleToken token.now }
    requires colon { KnowsItsColon token.now }
    ensures ok { OnOk result (Names scope.now token.now.kind (leaf token.now) name.new) }
    ensures fits { OnOk result (NameFits scope.now.limits.iri name.new) }
    ensures err { IfErr result (λ r. Unnamed scope.now token.now.kind (leaf token.now) r) }
{
    match token.kind {
        Kind::IriRef | Kind::PnameNs | Kind::PnameLn => name.set(alloc, scope, token),
        _ => Ok(()),
    }
}

fn look_up_prefix<A: Allocator + Copy>(
    alloc: A,
    scope: &mut Scope<A>,
    prefix: &String<A>,
    token: &Token<'_>,
) -> Result<(), StepFault>
    requires token { IsTurtleToken token.now }
    requires short { byte_len (chars (string_bytes prefix.now)) ≤ 4 * scope.old.limits.token }
    ensures ok { OnOk result (FindsIri (λ w. M.WantPrefixIri w
        (chars (string_bytes prefix.now))) scope.old token.now scope.new) }
    ensures err { IfErr result (FindsNoIri
        (λ w. M.WantPrefixIri w (chars (string_bytes prefix.now))) scope.old token.now) }
{
    match token.kind {
        Kind::IriRef => bind(alloc, scope, prefix, token),
        _ => Ok(()),
    }
}

fn look_up_base<A: Allocator + Copy>(
    alloc: A,
    scope: &mut Scope<A>,
    token: &Token<'_>,
) -> Result<(), StepFault>
    requires token { IsTurtleToken token.now }
    ensures ok { OnOk result (FindsIri M.WantBaseIri scope.old token.now scope.new) }
    ensures err { IfErr result (FindsNoIri M.WantBaseIri scope.old token.now) }
{
    match token.kind {
        Kind::IriRef => set_base(alloc, scope, token),
        _ => Ok(()),
    }
}
