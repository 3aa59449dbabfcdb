// Texts in memory that is filled once and used again.

ghost use Rattle.std.specs.Prelude.{◌≡◌, ◌+◌, ◌++◌, ◌≤◌, [], length, take, true, false, IsUtf8, OnOk};
ghost use Rattle.std.specs.Str.{chars, encode_utf8_all, IsCharBoundary};
ghost use Rattle.rdf_terms.specs.Local.{without_backslashes};
ghost use Rattle.rdf_terms.specs.Placing.{Placed};

use crate::place::{FEW, place_byte, place_few, place_text};
use std::alloc::{AllocError, Allocator, Global};
use std::marker::Model;

/// How many bytes are filled at least.
const LEAST_LEN: usize = 64;

/// A text of so many bytes or fewer is placed without a loop.
const SHORT: usize = 64;

/// A text. It differs from a `String` in cost alone: its memory stays filled, and the next text is placed over what
/// stands there by a few wide stores, where a `String` would append it by calls.
#[derive(Drop)]
pub struct TextBuffer<A: Allocator = Global> {
    bytes: Vec<u8, A>,
    len: usize,
}

impl<A: Allocator> Model for TextBuffer<A> {
    ghost use Rattle.std.specs.Prelude.{ℕ, ◌≤◌, IsUtf8, List, length, take};

    ghost Value = { List ℕ };

    ghost view = { λ b. take b.len b.bytes.items };

    ghost invariant = { λ b. (b.len ≤ length b.bytes.items) × ∥ IsUtf8 (take b.len b.bytes.items) ∥₁ };
}

impl<A: Allocator> TextBuffer<A> {
    /// No characters. It takes no memory.
    pub fn new(alloc: A) -> TextBuffer<A>
        ensures { result ≡ [] }
    {
        TextBuffer {
            bytes: Vec::new(alloc),
            len: 0,
        }
    }

    /// How many bytes the text has.
    #[inline(always)]
    pub fn len(&self) -> usize
        ensures { result ≡ length self.now }
    {
        self.len
    }

    /// How many bytes it has, by its characters.
    #[inline(always)]
    pub fn byte_len(&self) -> u64
        ensures { result ≡ length (encode_utf8_all (chars self.now)) }
    {
        self.len as u64
    }

    /// The text, in UTF-8.
    #[inline(always)]
    pub fn as_bytes(&self) -> &[u8]
        ensures bytes { result.now ≡ self.now }
        ensures utf8 { IsUtf8 result.now }
    {
        &self.bytes.as_slice()[..self.len]
    }

    /// Takes away what comes after the first `len` bytes.
    #[inline(always)]
    pub fn truncate(&mut self, len: usize)
        requires { IsCharBoundary self.old len }
        ensures { self.new ≡ take len self.old }
    {
        self.len = len;
    }

    /// How many bytes it has memory for.
    #[inline(always)]
    pub fn capacity(&self) -> usize {
        self.bytes.capacity()
    }
}

impl<A: Allocator + Copy> TextBuffer<A> {
    /// Puts a text in its place. After an error nothing is known of it.
    pub fn put(&mut self, text: &str) -> Result<(), AllocError>
        ensures { OnOk result (self.new ≡ text.now) }
    {
        self.len = 0;
        fill(&mut self.bytes, text.len())?;
        self.len = place_text(self.bytes.as_mut_slice(), 0, text.as_bytes());
        Ok(())
    }

    /// What `put` does, faster for a text of few bytes. It is a call, so that the loop that copies a long one does not
    /// stand in a reader's step, where it would take registers from all that is read.
    #[inline(never)]
    pub fn put_short(&mut self, text: &str) -> Result<(), AllocError>
        ensures { OnOk result (self.new ≡ text.now) }
    {
        if text.len() <= self.bytes.len() && text.len() < FEW {
            self.len = place_few(self.bytes.as_mut_slice(), 0, text.as_bytes());
            return Ok(());
        }
        self.put_apart(text)
    }

    // By one more call: `put_short` then saves no registers for a loop.
    #[inline(never)]
    fn put_apart(&mut self, text: &str) -> Result<(), AllocError>
        ensures { OnOk result (self.new ≡ text.now) }
    {
        self.put(text)
    }

    /// Puts two texts, one after the other, in its place. After an error nothing is known of it.
    #[inline(always)]
    pub fn put_joined(&mut self, front: &str, back: &str) -> Result<(), AllocError>
        ensures { OnOk result (self.new ≡ front.now ++ back.now) }
    {
        self.len = 0;
        fill(&mut self.bytes, front.len() + back.len())?;
        self.len = place_joined(self.bytes.as_mut_slice(), front, back);
        Ok(())
    }

    /// What `put_joined` does where each text is short and memory for both is filled. Else it puts nothing. It
    /// calls nothing, so that a function that does without other calls too saves no registers.
    #[inline(always)]
    pub fn put_short_joined(&mut self, front: &str, back: &str) -> bool
        ensures joined { result ≡ true → self.new ≡ front.now ++ back.now }
        ensures unchanged { result ≡ false → self.new ≡ self.old }
    {
        if front.len() > SHORT
            || back.len() > SHORT
            || front.len() + back.len() > self.bytes.len()
        {
            return false;
        }
        self.len = place_joined(self.bytes.as_mut_slice(), front, back);
        true
    }

    /// Appends a text. After an error nothing is known of what stands here.
    pub fn push(&mut self, text: &str) -> Result<(), AllocError>
        ensures { OnOk result (self.new ≡ self.old ++ text.now) }
    {
        let at = self.len;
        self.len = 0;
        fill(&mut self.bytes, at + text.len())?;
        self.len = place_after(self.bytes.as_mut_slice(), at, text);
        Ok(())
    }

    /// Appends a text without its backslashes. After an error nothing is known of what stands here.
    pub fn push_unescaped(&mut self, text: &str) -> Result<(), AllocError>
        ensures { OnOk result (chars self.new ≡ chars self.old ++ without_backslashes (chars text.now)) }
    {
        let at = self.len;
        self.len = 0;
        fill(&mut self.bytes, at + text.len())?;
        self.len = place_unescaped(self.bytes.as_mut_slice(), at, text);
        Ok(())
    }
}

// Places two texts at the beginning, one after the other.
#[inline(always)]
fn place_joined(slot: &mut [u8], front: &str, back: &str) -> usize
    requires { length front.now + length back.now ≤ length slot.old }
    ensures placed { Placed slot.old slot.new 0 (front.now ++ back.now) result }
    ensures bytes { take result slot.new ≡ front.now ++ back.now }
    ensures within { result ≤ length slot.new }
    ensures utf8 { IsUtf8 (take result slot.new) }
{
    let middle = place_text(slot, 0, front.as_bytes());
    place_text(slot, middle, back.as_bytes())
}

// Places a text after the first `at` bytes.
#[inline(always)]
fn place_after(slot: &mut [u8], at: usize, text: &str) -> usize
    requires room { at + length text.now ≤ length slot.old }
    requires utf8 { IsUtf8 (take at slot.old) }
    ensures len { length slot.new ≡ length slot.old }
    ensures bytes { take result slot.new ≡ take at slot.old ++ text.now }
    ensures within { result ≤ length slot.new }
    ensures utf8 { IsUtf8 (take result slot.new) }
{
    place_text(slot, at, text.as_bytes())
}

// Places a text without its backslashes after the first `at` bytes.
#[inline(always)]
fn place_unescaped(slot: &mut [u8], at: usize, text: &str) -> usize
    requires room { at + length text.now ≤ length slot.old }
    requires utf8 { IsUtf8 (take at slot.old) }
    ensures len { length slot.new ≡ length slot.old }
    ensures text { chars (take result slot.new) ≡ chars (take at slot.old) ++ without_backslashes (chars text.now) }
    ensures within { result ≤ length slot.new }
    ensures utf8 { IsUtf8 (take result slot.new) }
{
    place_without_backslashes(slot, at, text.as_bytes())
}

// The same byte by byte, which takes less for a name than to place what stands between them.
#[inline(always)]
fn place_without_backslashes(slot: &mut [u8], from: usize, text: &[u8]) -> usize
    requires { from + length text.now ≤ length slot.old }
    ensures len { length slot.new ≡ length slot.old }
    ensures bytes { take result slot.new ≡ take from slot.old ++ without_backslashes text.now }
    ensures within { result ≤ length slot.new }
{
    let mut at = from;
    for byte in text {
        if *byte != b'\\' {
            at = place_byte(slot, at, *byte);
        }
    }
    at
}

// Fills memory up to so many bytes, where fewer are filled.
#[inline(always)]
fn fill<A: Allocator + Copy>(bytes: &mut Vec<u8, A>, len: usize) -> Result<(), AllocError>
    ensures filled { OnOk result (len ≤ length bytes.new.items) }
    ensures kept { OnOk result (take (length bytes.old.items) bytes.new.items ≡ bytes.old.items) }
{
    if len <= bytes.len() {
        return Ok(());
    }
    bytes.resize(len.max(LEAST_LEN), 0)
}
