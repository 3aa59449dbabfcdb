// Tables of sixteen bytes, looked up by half of each of sixteen bytes.

ghost use Rattle.std.specs.Prelude.{◌≡◌, ◌%◌, ◌/◌, map, slice_index};

use std::simd::prelude::*;

#[inline(always)]
pub(crate) fn by_low_half(table: [u8; 16], v: u8x16) -> u8x16
    ensures { result ≡ map (λ b. slice_index table (b % 16)) v }
{
    u8x16::from_array(table).swizzle_dyn(v & u8x16::splat(15))
}

#[inline(always)]
pub(crate) fn by_high_half(table: [u8; 16], v: u8x16) -> u8x16
    ensures { result ≡ map (λ b. slice_index table (b / 16)) v }
{
    u8x16::from_array(table).swizzle_dyn(v >> u8x16::splat(4))
}
