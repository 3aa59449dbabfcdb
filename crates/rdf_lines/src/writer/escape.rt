// A character as UCHAR (N-Quads 4).

ghost use Rattle.std.specs.Prelude.{◌≡◌, [], ◌∷◌, ◌++◌, ◌<◌, ◌/◌, ◌%◌, OnErr, OnOk};
ghost use Rattle.rdf_lines.specs.Writing.{hex_character, hex_digits, uchar};

use std::alloc::{AllocError, Allocator};

/// `\u` and four hex digits up to U+FFFF, `\U` and eight above, in upper case.
pub fn put_uchar<A: Allocator + Copy>(c: char, out: &mut Vec<u8, A>) -> Result<(), AllocError>
    ensures written { OnOk result (out.new.items ≡ out.old.items ++ uchar c) }
    ensures unchanged { OnErr result (out.new.items ≡ out.old.items) }
{
    let n = u32::from(c);
    if n <= 0xFFFF {
        out.extend_from_slice(&four_digits(n))
    } else {
        out.extend_from_slice(&eight_digits(n))
    }
}

fn four_digits(n: u32) -> [u8; 6]
    ensures { result ≡ 92 ∷ 117 ∷ hex_digits (0x1000 ∷ 0x100 ∷ 0x10 ∷ 1 ∷ []) n }
{
    [
        b'\\',
        b'u',
        hex_character(n, 0x1000),
        hex_character(n, 0x100),
        hex_character(n, 0x10),
        hex_character(n, 1),
    ]
}

fn eight_digits(n: u32) -> [u8; 10]
    ensures { result ≡ 92 ∷ 85 ∷ hex_digits
        (0x10000000 ∷ 0x1000000 ∷ 0x100000 ∷ 0x10000 ∷ 0x1000 ∷ 0x100 ∷ 0x10 ∷ 1 ∷ []) n }
{
    [
        b'\\',
        b'U',
        hex_character(n, 0x1000_0000),
        hex_character(n, 0x100_0000),
        hex_character(n, 0x10_0000),
        hex_character(n, 0x1_0000),
        hex_character(n, 0x1000),
        hex_character(n, 0x100),
        hex_character(n, 0x10),
        hex_character(n, 1),
    ]
}

// The digit of a number at a place, a power of 16.
fn hex_character(n: u32, place: u32) -> u8
    requires { 0 < place }
    ensures { result ≡ hex_character (n / place % 16) }
{
    let digit = (n / place % 16) as u8;
    if digit < 10 {
        b'0' + digit
    } else {
        b'A' + (digit - 10)
    }
}
