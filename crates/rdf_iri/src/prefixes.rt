// The prefixes that are bound, and their IRIs.

ghost use Rattle.std.specs.Prelude.{◌≡◌, ◌≤◌, ◌<◌, ◌+◌, ◌*◌, ◌^◌, ℕ, List, [], Some, None, IfSome, OnOk, OnErr};
ghost use Rattle.std.specs.Prelude.{MatchBool, MatchOption, length};
ghost use Rattle.std.specs.List.{sum_by};
ghost use Rattle.std.specs.Str.{chars, bytes_eq};
ghost use Rattle.rdf_iri.specs.Texts.{byte_len};
ghost use Rattle.rdf_iri.specs.Seen.{text_of};
ghost use Rattle.rdf_iri.specs.Scope.{bound_to, binding_bytes};
ghost use Rattle.rdf_iri.specs.Prefixes.{entries_of};
ghost use Rattle.rdf_iri.specs.Prefixes.{KeptApart, StandsAt, Sets, entry_bytes};
ghost use Rattle.rdf_iri.specs.Table.{HaveSlots};

use crate::limits::Limits;
use crate::table::{ROW, find, is_next};
use rdf_terms::{Iri, text_len};
use std::alloc::{AllocError, Allocator, Global};
use std::collections::BTreeMap;
use std::marker::Model;

/// How long a prefix is at most that is compared byte by byte.
const SHORT: usize = 8;

/// Prefixes, without their colons, and their IRIs. The first ones stand in a row, where those of another length are
/// passed over at once. The others stand in a map, since there chosen prefixes do not make it slow. Once the map has
/// many, more go into the row and have a slot each in a table, or, where their slots are taken, into the map.
#[derive(Drop)]
pub(crate) struct Prefixes<A: Allocator = Global> {
    row: Vec<(String<A>, Iri<A>), A>,
    slots: Vec<u32, A>,
    others: BTreeMap<String<A>, Iri<A>, A>,
}

impl<A: Allocator> Model for Prefixes<A> {
    ghost use Rattle.std.specs.Prelude.{ℕ, List, ◌++◌};
    ghost use Rattle.rdf_iri.specs.Prefixes.{entries_of};
    ghost use Rattle.rdf_iri.specs.Table.{Kept};

    ghost Value = { List (List ℕ × List ℕ) };

    ghost view = { λ p. entries_of p.row.items ++ entries_of p.others.entries };

    ghost invariant = { λ p. Kept p.slots.items p.row.items p.others.entries };
}

impl<A: Allocator> Prefixes<A> {
    /// The IRI of a prefix, if it is bound.
    #[inline(always)]
    pub(crate) fn get(&self, prefix: &str) -> Option<&Iri<A>>
        ensures { text_of result ≡ bound_to self.now (chars prefix.now) }
    {
        if self.row.len() > ROW {
            return self.get_of_many(prefix);
        }
        match place_in(&self.row, prefix) {
            Some(place) => Some(&self.row[place].1),
            None => self.others.get(prefix),
        }
    }

    /// The same of a short prefix where few are bound. Else it tells nothing. It calls nothing, so that a function
    /// that does without other calls too saves no registers.
    #[inline(always)]
    pub(crate) fn get_short(&self, prefix: &str) -> Option<&Iri<A>>
        ensures { IfSome result (λ iri. bound_to self.now (chars prefix.now) ≡ Some iri.now) }
    {
        if self.row.len() > ROW || prefix.len() > SHORT {
            return None;
        }
        match place_in(&self.row, prefix) {
            Some(place) => Some(&self.row[place].1),
            None => None,
        }
    }

    /// What `get` does where the row has many.
    #[inline(never)]
    fn get_of_many(&self, prefix: &str) -> Option<&Iri<A>>
        ensures { text_of result ≡ bound_to self.now (chars prefix.now) }
    {
        match place_of(&self.slots, &self.row, prefix) {
            Some(place) => Some(&self.row[place].1),
            None => self.others.get(prefix),
        }
    }

    /// Whether they are fewer.
    pub(crate) fn are_fewer(&self, most: u64) -> bool
        ensures { MatchBool result (length self.now < most) (most ≤ length self.now) }
    {
        let row = self.row.len() as u64;
        row < most && (self.others.len() as u64) < most - row
    }

    /// The bytes of all prefixes and their IRIs, which keep the limits. It takes no memory.
    pub(crate) fn held(&self, limits: Limits) -> u64
        requires sizes { (prefix iri : List ℕ) → bound_to self.now prefix ≡ Some iri →
            (byte_len prefix ≤ 4 * limits.token) × (byte_len iri ≤ limits.iri) }
        requires count { length self.now ≤ limits.bindings }
        ensures sum { result ≡ sum_by binding_bytes self.now }
        ensures most { result ≤ limits.bindings * (4 * limits.token + limits.iri) }
    {
        limits.are_in_range();
        let mut held = row_len(&self.row);
        for (prefix, iri) in self.others.iter() {
            held += binding_len(prefix, iri);
        }
        held
    }
}

impl<A: Allocator + Copy> Prefixes<A> {
    /// No prefixes. It takes no memory.
    pub(crate) fn new(alloc: A) -> Prefixes<A>
        ensures { result ≡ [] }
    {
        Prefixes {
            row: Vec::new(alloc),
            slots: Vec::new(alloc),
            others: BTreeMap::new(alloc),
        }
    }

    /// Binds a prefix, anew where it is bound.
    pub(crate) fn set(&mut self, alloc: A, prefix: &str, iri: Iri<A>) -> Result<(), AllocError>
        ensures set { OnOk result (Sets self.old (chars prefix.now) iri self.new) }
        ensures unchanged { OnErr result (self.new ≡ self.old) }
    {
        if let Some(place) = place_of(&self.slots, &self.row, prefix) {
            self.row[place].1 = iri;
            return Ok(());
        }
        let key = String::from_str(alloc, prefix)?;
        let next = is_next(alloc, &mut self.slots, &self.row, &self.others, prefix)?;
        if next {
            self.row.push((key, iri))?;
            return Ok(());
        }
        self.others.insert(key, iri)?;
        Ok(())
    }
}

/// Where a prefix stands in the row.
#[inline(always)]
fn place_of<A: Allocator>(slots: &[u32], row: &[(String<A>, Iri<A>)], prefix: &str) -> Option<usize>
    requires slots { HaveSlots slots.now row.now }
    requires apart { KeptApart (entries_of row.now) [] }
    ensures { MatchOption result (bound_to (entries_of row.now) (chars prefix.now) ≡ None)
        (StandsAt (entries_of row.now) (chars prefix.now)) }
{
    if row.len() <= ROW {
        place_in(row, prefix)
    } else {
        place_of_many(slots, row, prefix)
    }
}

/// The same where the row has many: by their slots, and the first ones one by one.
#[inline(always)]
fn place_of_many<A: Allocator>(
    slots: &[u32],
    row: &[(String<A>, Iri<A>)],
    prefix: &str,
) -> Option<usize>
    requires many { 16 < length row.now }
    requires slots { HaveSlots slots.now row.now }
    requires apart { KeptApart (entries_of row.now) [] }
    ensures { MatchOption result (bound_to (entries_of row.now) (chars prefix.now) ≡ None)
        (StandsAt (entries_of row.now) (chars prefix.now)) }
{
    match find(slots, row, prefix) {
        Some(place) => Some(place),
        None => {
            let (first, _) = row.split_at(ROW);
            place_in(first, prefix)
        }
    }
}

/// Where a prefix stands in a row, sought one by one.
#[inline(always)]
fn place_in<A: Allocator>(row: &[(String<A>, Iri<A>)], prefix: &str) -> Option<usize>
    ensures { MatchOption result (bound_to (entries_of row.now) (chars prefix.now) ≡ None)
        (StandsAt (entries_of row.now) (chars prefix.now)) }
{
    for place in 0..row.len() {
        if is_same(row[place].0.as_str(), prefix) {
            return Some(place);
        }
    }
    None
}

/// Whether two prefixes are one.
#[inline(always)]
pub(crate) fn is_same(a: &str, b: &str) -> bool
    ensures { result ≡ bytes_eq a.now b.now }
{
    if a.len() != b.len() {
        return false;
    }
    if a.len() > SHORT {
        return is_same_long(a, b);
    }
    has_same_bytes(a.as_bytes(), b.as_bytes())
}

/// The same of long ones, by a call: what it takes to compare them is not got ready for each prefix of the row.
#[inline(never)]
fn is_same_long(a: &str, b: &str) -> bool
    ensures { result ≡ bytes_eq a.now b.now }
{
    a == b
}

#[inline(always)]
fn has_same_bytes(a: &[u8], b: &[u8]) -> bool
    requires { length a.now ≡ length b.now }
    ensures { result ≡ bytes_eq a.now b.now }
{
    for place in 0..a.len() {
        if a[place] != b[place] {
            return false;
        }
    }
    true
}

/// The bytes of the prefixes and IRIs of a row.
fn row_len<A: Allocator>(row: &[(String<A>, Iri<A>)]) -> u64
    requires { sum_by entry_bytes row.now < 2 ^ 64 }
    ensures { result ≡ sum_by entry_bytes row.now }
{
    let mut held = 0;
    for (prefix, iri) in row {
        held += binding_len(prefix, iri);
    }
    held
}

/// The bytes of a prefix and its IRI.
fn binding_len<A: Allocator>(prefix: &String<A>, iri: &Iri<A>) -> u64
    requires { entry_bytes (prefix.now, iri.now) < 2 ^ 64 }
    ensures { result ≡ entry_bytes (prefix.now, iri.now) }
{
    prefix.len() as u64 + iri_len(iri)
}

/// The bytes of an IRI.
pub(crate) fn iri_len<A: Allocator>(iri: &Iri<A>) -> u64
    ensures { result ≡ byte_len iri.now }
{
    text_len(iri.as_str())
}
