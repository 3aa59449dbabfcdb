// A number in decimal, placed from its first digit on.

ghost use Rattle.std.specs.Prelude.{◌++◌, ◌+◌, ◌/◌, ◌%◌, ◌<◌, ◌≤◌, decimal, length};
ghost use Rattle.rdf_terms.specs.Placing.{Placed};
ghost use Rattle.rdf_lines.specs.Placing.{two_digits};

use rdf_terms::place::{place_byte, place_two};

static PAIRS: [u8; 200] =
    *b"00010203040506070809101112131415161718192021222324252627282930313233343536373839404142434445464748495051525354555657585960616263646566676869707172737475767778798081828384858687888990919293949596979899";

/// Places a number. One of at most eight digits takes no further call.
pub fn place_digits(slot: &mut [u8], at: usize, n: u64) -> usize
    requires { at + length (decimal n) ≤ length slot.old }
    ensures { Placed slot.old slot.new at (decimal n) result }
{
    if n < 100_000_000 {
        return place_eight(slot, at, n);
    }
    let front = place_digits(slot, at, n / 10_000);
    place_four(slot, front, n % 10_000)
}

/// Places a number of at most twelve digits, without a call.
#[inline(always)]
pub fn place_twelve(slot: &mut [u8], at: usize, n: u64) -> usize
    requires { (n < 1000000000000) × (at + length (decimal n) ≤ length slot.old) }
    ensures { Placed slot.old slot.new at (decimal n) result }
{
    if n < 10_000 {
        return place_short(slot, at, n);
    }
    let front = place_eight(slot, at, n / 10_000);
    place_four(slot, front, n % 10_000)
}

#[inline(always)]
fn place_eight(slot: &mut [u8], at: usize, n: u64) -> usize
    requires { (n < 100000000) × (at + length (decimal n) ≤ length slot.old) }
    ensures { Placed slot.old slot.new at (decimal n) result }
{
    if n < 10_000 {
        return place_short(slot, at, n);
    }
    let front = place_short(slot, at, n / 10_000);
    place_four(slot, front, n % 10_000)
}

#[inline(always)]
fn place_short(slot: &mut [u8], at: usize, n: u64) -> usize
    requires { (n < 10000) × (at + length (decimal n) ≤ length slot.old) }
    ensures { Placed slot.old slot.new at (decimal n) result }
{
    if n < 100 {
        return place_first(slot, at, n);
    }
    let next = place_first(slot, at, n / 100);
    place_pair(slot, next, n % 100)
}

// One digit or two.
#[inline(always)]
fn place_first(slot: &mut [u8], at: usize, n: u64) -> usize
    requires { (n < 100) × (at + length (decimal n) ≤ length slot.old) }
    ensures { Placed slot.old slot.new at (decimal n) result }
{
    if n < 10 {
        return place_byte(slot, at, b'0' + n as u8);
    }
    place_pair(slot, at, n)
}

#[inline(always)]
fn place_four(slot: &mut [u8], at: usize, n: u64) -> usize
    requires { (n < 10000) × (at + 4 ≤ length slot.old) }
    ensures { Placed slot.old slot.new at (two_digits (n / 100) ++ two_digits (n % 100)) result }
{
    let next = place_pair(slot, at, n / 100);
    place_pair(slot, next, n % 100)
}

#[inline(always)]
fn place_pair(slot: &mut [u8], at: usize, n: u64) -> usize
    requires { (n < 100) × (at + 2 ≤ length slot.old) }
    ensures { Placed slot.old slot.new at (two_digits n) result }
{
    let from = n as usize * 2;
    place_two(slot, at, PAIRS[from], PAIRS[from + 1])
}
