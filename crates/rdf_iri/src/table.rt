// Where prefixes stand in a row of many, by a hash of their bytes.

ghost use Rattle.std.specs.Prelude.{◌≡◌, ◌≤◌, ◌<◌, ◌+◌, ◌*◌, ◌^◌, ◌%◌, ℕ, true, None, MatchBool, MatchOption};
ghost use Rattle.std.specs.Prelude.{IfOk, IfSome, length, ⊤};
ghost use Rattle.std.specs.Option.{is_some};
ghost use Rattle.std.specs.Str.{chars};
ghost use Rattle.rdf_iri.specs.Scope.{bound_to};
ghost use Rattle.rdf_iri.specs.Prefixes.{entries_of};
ghost use Rattle.rdf_iri.specs.Table.{hash_of, first_slot, mark_of, Names, HasSlot, IsKeyAt, KeepsSlots, IsNext};
ghost use Rattle.rdf_iri.specs.Table.{IsFree};

use crate::prefixes::is_same;
use rdf_terms::Iri;
use std::alloc::{AllocError, Allocator};
use std::collections::BTreeMap;

/// How many places of the row are sought one by one: these have no slots.
pub(crate) const ROW: usize = 16;

/// How many prefixes stand in the map before a table is made.
const MANY: usize = 512;

/// How many slots the table has. A slot is 0, or the sum of a prefix's mark and its place in the row.
const SLOTS: usize = 131_072;

/// How many slots a prefix may have.
const WAYS: usize = 4;

/// How many places a slot tells apart.
const PLACES: u32 = 65_536;

/// What spreads the hash.
const FACTOR: u64 = 2_654_435_761;

/// The hash of a text.
#[inline(always)]
fn hash(text: &[u8]) -> u32
    ensures { result ≡ hash_of 0 text.now }
{
    let mut hash: u32 = 0;
    for byte in text {
        hash = ((hash as u64 + *byte as u64) * FACTOR % 4_294_967_296) as u32;
    }
    hash
}

/// The first of the slots that a prefix with this hash may have.
#[inline(always)]
fn first_of(hash: u32) -> usize
    ensures value { result ≡ first_slot hash }
    ensures within { result + 4 ≤ 131072 }
{
    WAYS * (hash % 32_768) as usize
}

/// What tells prefixes with the same slots apart, mostly.
#[inline(always)]
fn mark(hash: u32) -> u32
    ensures value { result ≡ mark_of hash }
    ensures whole { result % 65536 ≡ 0 }
    ensures within { result + 65536 ≤ 2 ^ 32 }
{
    hash / PLACES * PLACES
}

/// Where a prefix stands in the row, if it has a slot.
#[inline(always)]
pub(crate) fn find<A: Allocator>(
    slots: &[u32],
    row: &[(String<A>, Iri<A>)],
    prefix: &str,
) -> Option<usize>
    ensures { MatchOption result ((place : ℕ) → HasSlot slots.now prefix.now place →
        IsKeyAt row.now prefix.now place → ⊥) (IsKeyAt row.now prefix.now) }
{
    if slots.len() != SLOTS {
        return None;
    }
    let hash = hash(prefix.as_bytes());
    let first = first_of(hash);
    let mark = mark(hash);
    for way in 0..WAYS {
        if let Some(place) = place_in_slot(slots[first + way], mark, row, prefix) {
            return Some(place);
        }
    }
    None
}

/// The place in a slot, if the prefix stands there.
#[inline(always)]
fn place_in_slot<A: Allocator>(
    slot: u32,
    mark: u32,
    row: &[(String<A>, Iri<A>)],
    prefix: &str,
) -> Option<usize>
    requires { mark % 65536 ≡ 0 }
    ensures { MatchOption result ((place : ℕ) → Names slot mark place → IsKeyAt row.now prefix.now place →
        ⊥) (IsKeyAt row.now prefix.now) }
{
    let place = slot % PLACES;
    if slot - place != mark {
        return None;
    }
    let place = place as usize;
    if place >= row.len() {
        return None;
    }
    if is_same(row[place].0.as_str(), prefix) {
        Some(place)
    } else {
        None
    }
}

/// Whether a prefix that is not in the row comes next there. Then it has a slot, unless its place is one of the first.
pub(crate) fn is_next<A: Allocator + Copy>(
    alloc: A,
    slots: &mut Vec<u32, A>,
    row: &[(String<A>, Iri<A>)],
    others: &BTreeMap<String<A>, Iri<A>, A>,
    prefix: &str,
) -> Result<bool, AllocError>
    ensures next { IfOk result (λ b. b ≡ true → IsNext slots.new.items row.now others.now.entries prefix.now) }
    ensures kept { KeepsSlots slots.old.items slots.new.items }
{
    let place = row.len();
    if place < ROW {
        return Ok(others.is_empty());
    }
    if place >= PLACES as usize || others.len() < MANY || is_among(others, prefix) {
        return Ok(false);
    }
    make_slots(alloc, slots)?;
    Ok(add(slots, prefix, place))
}

fn is_among<A: Allocator>(others: &BTreeMap<String<A>, Iri<A>, A>, prefix: &str) -> bool
    ensures { result ≡ is_some (bound_to (entries_of others.now.entries) (chars prefix.now)) }
{
    others.contains_key(prefix)
}

/// Makes the slots where there are none.
fn make_slots<A: Allocator + Copy>(alloc: A, slots: &mut Vec<u32, A>) -> Result<(), AllocError>
    ensures { KeepsSlots slots.old.items slots.new.items }
{
    if slots.is_empty() {
        *slots = Vec::from_elem(alloc, 0, SLOTS)?;
    }
    Ok(())
}

/// Gives a prefix a slot for its place, if one is free.
fn add(slots: &mut [u32], prefix: &str, place: usize) -> bool
    requires { place < 65536 }
    ensures added { MatchBool result (HasSlot slots.new prefix.now place) ⊤ }
    ensures kept { KeepsSlots slots.old slots.new }
{
    if slots.len() != SLOTS {
        return false;
    }
    let hash = hash(prefix.as_bytes());
    match free_slot(slots, first_of(hash)) {
        Some(slot) => {
            slots[slot] = mark(hash) + place as u32;
            true
        }
        None => false,
    }
}

/// A slot that names no place, of those from this one on.
fn free_slot(slots: &[u32], first: usize) -> Option<usize>
    requires { first + 4 ≤ length slots.now }
    ensures { IfSome result (λ slot. IsFree slots.now first slot) }
{
    for way in 0..WAYS {
        if slots[first + way] == 0 {
            return Some(first + way);
        }
    }
    None
}
