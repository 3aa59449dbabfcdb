// The scope of a document: a base and prefixes.

ghost use Rattle.std.specs.Prelude.{◌≡◌, ◌≢◌, ℕ, List, Some, true, ◌++◌, ◌*◌, ◌≤◌, [], IfOk, IfErr, OnOk, OnErr};
ghost use Rattle.std.specs.Prelude.{MatchBool, length};
ghost use Rattle.std.specs.Str.{chars};
ghost use Rattle.std.specs.String.{string_bytes};
ghost use Rattle.rdf_terms.specs.Local.{without_backslashes};
ghost use Rattle.rdf_terms.specs.Terms.{IsIri};
ghost use Rattle.rdf_iri.specs.Texts.{IsIriText, byte_len};
ghost use Rattle.rdf_iri.specs.Seen.{text_of};
ghost use Rattle.rdf_iri.specs.Scope.{BaseFits, bound_to, ResolvesHere, UnresolvedHere, IsBased, IsBound, NotBound};
ghost use Rattle.rdf_iri.specs.Scope.{HasRoom, IsFull, ExpandsHere, NotExpanded, base_bytes, bytes_held};
ghost use Rattle.rdf_iri.specs.Prefixes.{NotJoined};
ghost use Rattle.rdf_iri.specs.Scope.{most_bytes_held};

use crate::base::Base;
use crate::bindings::Bindings;
use crate::fault::IriFault;
use crate::limits::Limits;
use crate::prefixes::{Prefixes, iri_len};
use crate::resolution::{resolve, resolve_in_place, resolve_into};
use rdf_terms::{Iri, IriView, TextBuffer};
use std::alloc::{Allocator, Global};
use std::marker::Model;

/// What is in force at a place of a document: the base, or none, and the IRIs of the prefixes that are bound.
#[derive(Drop)]
pub struct Scope<A: Allocator = Global> {
    alloc: A,
    base: Option<Base<A>>,
    limits: Limits,
    names: Prefixes<A>,
}

impl<A: Allocator> Model for Scope<A> {
    ghost use Rattle.rdf_iri.specs.Scope.{InForce, KeepsLimits};

    ghost Value = { InForce };

    ghost view = { λ s. record { base = s.base; bindings = s.names; limits = s.limits } };

    ghost invariant = { λ s. KeepsLimits (record { base = s.base; bindings = s.names; limits = s.limits }) };
}

impl<A: Allocator + Copy> Scope<A> {
    /// A scope with this base, or none, and no prefixes.
    pub fn new(alloc: A, base: Option<Iri<A>>, limits: Limits) -> Scope<A>
        requires { BaseFits base limits }
        ensures { result ≡ record { base = base; bindings = []; limits = limits } }
    {
        let base = match base {
            Some(iri) => Some(Base::of_iri(iri)),
            None => None,
        };
        Scope {
            alloc,
            base,
            limits,
            names: Prefixes::new(alloc),
        }
    }

    /// A scope with this base, or none, and the prefixes that are handed in. It takes no memory.
    pub fn starting(
        alloc: A,
        base: Option<Iri<A>>,
        limits: Limits,
        bindings: Bindings<A>,
    ) -> Scope<A>
        requires base { BaseFits base limits }
        requires limits { bindings.limits ≡ limits }
        ensures { result ≡ record { base = base; bindings = bindings.bindings; limits = limits } }
    {
        let mut scope = Scope::new(alloc, base, limits);
        scope.names = bindings.names;
        scope
    }

    /// The limits.
    pub(crate) fn limits(&self) -> Limits
        ensures { result ≡ self.now.limits }
    {
        self.limits
    }

    /// The base in force, or none.
    fn base(&self) -> Option<&Iri<A>>
        ensures { text_of result ≡ self.now.base }
    {
        match &self.base {
            Some(base) => Some(base.iri()),
            None => None,
        }
    }

    /// The same with what is known of it.
    fn known_base(&self) -> Option<&Base<A>>
        ensures { text_of result ≡ self.now.base }
    {
        match &self.base {
            Some(base) => Some(base),
            None => None,
        }
    }

    /// The prefixes that are bound, and their IRIs.
    pub(crate) fn into_bindings(self) -> Bindings<A>
        requires { (prefix iri : List ℕ) → bound_to self.bindings prefix ≡ Some iri → IsIri iri }
        ensures { result ≡ record { bindings = self.bindings; limits = self.limits } }
    {
        Bindings {
            names: self.names,
            limits: self.limits,
        }
    }

    /// The IRI of a reference, against the base in force.
    pub fn resolve_here(&self, reference: &str) -> Result<Iri<A>, IriFault>
        requires { IsIriText (chars reference.now) }
        ensures resolved { IfOk result (ResolvesHere self.now (chars reference.now)) }
        ensures refused { IfErr result (UnresolvedHere self.now (chars reference.now)) }
    {
        resolve(self.alloc, self.base(), reference, self.limits.iri())
    }

    /// Puts the IRI of a reference, against the base in force, in its place. After an error nothing is known of the
    /// text.
    pub fn resolve_in_place(&self, text: &mut String<A>) -> Result<(), IriFault>
        requires { IsIriText (chars (string_bytes text.old)) }
        ensures resolved { OnOk result (ResolvesHere self.now (chars (string_bytes text.old))
            (chars (string_bytes text.new))) }
        ensures is_iri { OnOk result (IsIri (chars (string_bytes text.new))) }
        ensures refused { IfErr result (UnresolvedHere self.now (chars (string_bytes text.old))) }
    {
        resolve_in_place(self.alloc, self.base(), text, self.limits.iri())
    }

    /// Puts the IRI of a reference, against the base in force, in place of a text, in the memory that the text has.
    /// After an error nothing is known of the text.
    pub fn resolve_into(&self, reference: &str, text: &mut TextBuffer<A>) -> Result<(), IriFault>
        requires { IsIriText (chars reference.now) }
        ensures resolved { OnOk result (ResolvesHere self.now (chars reference.now) (chars text.new)) }
        ensures is_iri { OnOk result (IsIri (chars text.new)) }
        ensures refused { IfErr result (UnresolvedHere self.now (chars reference.now)) }
    {
        resolve_into(
            self.alloc,
            self.known_base(),
            reference,
            text,
            self.limits.iri(),
        )
    }

    /// Takes the IRI of a reference as the base. A path without dot segments is written after a base that ends in a
    /// directory, at the cost of the path alone.
    pub fn set_base(&mut self, reference: &str) -> Result<(), IriFault>
        requires { IsIriText (chars reference.now) }
        ensures based { OnOk result (IsBased self.old (chars reference.now) self.new) }
        ensures refused { IfErr result (UnresolvedHere self.old (chars reference.now)) }
        ensures unchanged { OnErr result (self.new ≡ self.old) }
    {
        let limit = self.limits.iri();
        match &mut self.base {
            Some(base) if base.grows_by(reference) => base.grow(reference, limit),
            _ => self.replace_base(reference),
        }
    }

    /// Takes the IRI of a reference, resolved into a text of its own, as the base.
    fn replace_base(&mut self, reference: &str) -> Result<(), IriFault>
        requires { IsIriText (chars reference.now) }
        ensures based { OnOk result (IsBased self.old (chars reference.now) self.new) }
        ensures refused { IfErr result (UnresolvedHere self.old (chars reference.now)) }
        ensures unchanged { OnErr result (self.new ≡ self.old) }
    {
        let iri = self.resolve_here(reference)?;
        self.base = Some(Base::of_iri(iri));
        Ok(())
    }

    /// Binds a prefix, written without its colon, to the IRI of a reference. A prefix that is bound is bound anew.
    pub fn bind(&mut self, prefix: &str, reference: &str) -> Result<(), IriFault>
        requires text { IsIriText (chars reference.now) }
        requires short { length prefix.now ≤ 4 * self.old.limits.token }
        ensures bound { OnOk result (IsBound self.old (chars prefix.now) (chars reference.now) self.new) }
        ensures refused { IfErr result (NotBound self.old (chars prefix.now) (chars reference.now)) }
        ensures unchanged { OnErr result (self.new ≡ self.old) }
    {
        let iri = self.resolve_here(reference)?;
        if !self.has_room(prefix) {
            return Err(IriFault::TooManyBindings);
        }
        self.names.set(self.alloc, prefix, iri)?;
        Ok(())
    }

    fn has_room(&self, prefix: &str) -> bool
        ensures { MatchBool result (HasRoom self.now (chars prefix.now)) (IsFull self.now (chars prefix.now)) }
    {
        self.names.are_fewer(self.limits.bindings()) || self.names.get(prefix).is_some()
    }

    /// The IRI of a name: that of its prefix, with the local part after it. The local part is a value, without the
    /// backslashes of its escapes.
    pub fn expand(&self, prefix: &str, local: &str) -> Result<Iri<A>, IriFault>
        requires { IsIriText (chars local.now) }
        ensures expanded { IfOk result (ExpandsHere self.now (chars prefix.now) (chars local.now)) }
        ensures refused { IfErr result (NotExpanded self.now (chars prefix.now) (chars local.now)) }
    {
        let mut text = TextBuffer::new(self.alloc);
        self.expand_into(prefix, local, &mut text)?;
        Ok(IriView::of_bytes(text.as_bytes()).try_copy(self.alloc)?)
    }

    /// Puts the IRI of a name in place of a text, in the memory that the text has. After an error nothing is known
    /// of the text.
    ///
    /// What most names take is here without a call but the last one, which goes on in place of this: so no
    /// registers are saved.
    #[inline(never)]
    pub fn expand_into(
        &self,
        prefix: &str,
        local: &str,
        text: &mut TextBuffer<A>,
    ) -> Result<(), IriFault>
        requires { IsIriText (chars local.now) }
        ensures expanded { OnOk result (ExpandsHere self.now (chars prefix.now) (chars local.now) (chars text.new)) }
        ensures is_iri { OnOk result (IsIri (chars text.new)) }
        ensures refused { IfErr result (NotExpanded self.now (chars prefix.now) (chars local.now)) }
    {
        if let Some(front) = self.names.get_short(prefix) {
            if put_short_joined(text, front, local, self.limits.iri()) {
                return Ok(());
            }
        }
        self.expand_apart(prefix, local, text)
    }

    /// The same of any name.
    #[inline(never)]
    fn expand_apart(
        &self,
        prefix: &str,
        local: &str,
        text: &mut TextBuffer<A>,
    ) -> Result<(), IriFault>
        requires { IsIriText (chars local.now) }
        ensures expanded { OnOk result (ExpandsHere self.now (chars prefix.now) (chars local.now) (chars text.new)) }
        ensures is_iri { OnOk result (IsIri (chars text.new)) }
        ensures refused { IfErr result (NotExpanded self.now (chars prefix.now) (chars local.now)) }
    {
        let Some(front) = self.names.get(prefix) else {
            return Err(IriFault::Unbound);
        };
        put_joined(text, front, local, self.limits.iri())
    }

    /// What `expand_into` does with a local part as it is written, with the backslashes of its escapes. Where
    /// memory is short it is not known whether the IRI is within the limit.
    pub fn expand_escaped_into(
        &self,
        prefix: &str,
        local: &str,
        text: &mut TextBuffer<A>,
    ) -> Result<(), IriFault>
        requires { IsIriText (without_backslashes (chars local.now)) }
        ensures expanded { OnOk result (ExpandsHere self.now (chars prefix.now)
            (without_backslashes (chars local.now)) (chars text.new)) }
        ensures is_iri { OnOk result (IsIri (chars text.new)) }
        ensures refused { IfErr result (λ f. f ≢ IriFault.Memory →
            NotExpanded self.now (chars prefix.now) (without_backslashes (chars local.now)) f) }
    {
        self.expand_into(prefix, "", text)?;
        text.push_unescaped(local)?;
        if text.byte_len() > self.limits.iri() {
            return Err(IriFault::IriTooLong);
        }
        Ok(())
    }

    /// The bytes of the texts in force: the base, and each prefix, without its colon, with its IRI. What the texts have
    /// as spare capacity, the map's nodes and the table of many prefixes (512 KiB at most) are not counted. It takes no
    /// memory.
    pub fn held(&self) -> u64
        ensures sum { result ≡ bytes_held self.now }
        ensures most { result ≤ most_bytes_held self.now.limits }
    {
        self.limits.are_in_range();
        base_len(self.base()) + self.names.held(self.limits)
    }
}

/// The bytes of the base, if there is one.
fn base_len<A: Allocator>(base: Option<&Iri<A>>) -> u64
    ensures { result ≡ base_bytes (text_of base.entry) }
{
    match base {
        Some(base) => iri_len(base),
        None => 0,
    }
}

/// Puts an IRI with more characters after it in place of a text.
fn put_joined<A: Allocator + Copy>(
    text: &mut TextBuffer<A>,
    front: &Iri<A>,
    local: &str,
    limit: u64,
) -> Result<(), IriFault>
    requires { IsIriText (chars local.now) }
    ensures joined { OnOk result (chars text.new ≡ front.now ++ chars local.now) }
    ensures is_iri { OnOk result (IsIri (chars text.new)) }
    ensures within { OnOk result (byte_len (chars text.new) ≤ limit) }
    ensures refused { IfErr result (NotJoined front.now (chars local.now) limit) }
{
    let front = front.as_str();
    let len = front.len() + local.len();
    if len as u64 > limit {
        return Err(IriFault::IriTooLong);
    }
    text.put_joined(front, local)?;
    Ok(())
}

/// The same of short texts, without a call. It says whether it did; it puts nothing where they are long, or pass
/// the limit, or want more memory.
#[inline(always)]
fn put_short_joined<A: Allocator + Copy>(
    text: &mut TextBuffer<A>,
    front: &Iri<A>,
    local: &str,
    limit: u64,
) -> bool
    requires { IsIriText (chars local.now) }
    ensures joined { result ≡ true → chars text.new ≡ front.now ++ chars local.now }
    ensures is_iri { result ≡ true → IsIri (chars text.new) }
    ensures within { result ≡ true → byte_len (chars text.new) ≤ limit }
{
    let front = front.as_str();
    (front.len() + local.len()) as u64 <= limit && text.put_short_joined(front, local)
}
