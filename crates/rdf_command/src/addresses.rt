// The address of a document, which can stand in place of a base.

ghost use Rattle.std.specs.Prelude.{◌≡◌, ◌++◌, ◌≤◌, ◌<◌, IfOk, OnOk, flat_map, option_map, string_bytes, true};
ghost use Rattle.std.specs.Fmt.{digit_glyph};
ghost use Rattle.std.specs.Result.{IsErrOf};
ghost use Rattle.rdf_iri.specs.Texts.{byte_len};
ghost use Rattle.rdf_command.specs.Addresses.{HasNoAddress, IsAddress, address_of, in_address, in_folder, is_absolute};
ghost use Rattle.rdf_command.specs.Addresses.{is_path_byte, path_of};

use crate::commands::iri_within;
use rdf_stream::{Iri, TermFault};
use std::alloc::{AllocError, Global};

/// The address of the file of this name as a base of at most so many bytes, where names start from this folder.
/// Standard input has none.
pub fn address_within(
    alloc: Global,
    folder: &str,
    file: Option<&str>,
    most: u64,
) -> Result<Iri, TermFault>
    ensures address { IfOk result (IsAddress most folder.now (option_map (λ s. s.now) file.entry)) }
    ensures fits { IfOk result (λ base. byte_len base ≤ most) }
    ensures none { IsErrOf result TermFault.BadTerm →
        HasNoAddress most folder.now (option_map (λ s. s.now) file.entry) }
{
    match file {
        Some(name) => named_address(alloc, folder, name, most),
        None => Err(TermFault::BadTerm),
    }
}

fn named_address(alloc: Global, folder: &str, name: &str, most: u64) -> Result<Iri, TermFault>
    ensures address { IfOk result (IsAddress most folder.now (Some name.now)) }
    ensures fits { IfOk result (λ base. byte_len base ≤ most) }
    ensures none { IsErrOf result TermFault.BadTerm → HasNoAddress most folder.now (Some name.now) }
{
    match address_of(alloc, folder, name) {
        Ok(address) => iri_within(alloc, address.as_str(), most),
        Err(AllocError) => Err(TermFault::Memory),
    }
}

// The address of the file of this name. Its path is taken as it is: no link is followed, and no dot segment removed.
fn address_of(alloc: Global, folder: &str, name: &str) -> Result<String, AllocError>
    ensures { IfOk result (λ text. string_bytes text ≡ address_of folder.now name.now) }
{
    let path = path_of(alloc, folder, name)?;
    let mut text = String::from_str(alloc, "file://")?;
    put_path(path.as_str(), &mut text)?;
    Ok(text)
}

fn path_of(alloc: Global, folder: &str, name: &str) -> Result<String, AllocError>
    ensures { IfOk result (λ text. string_bytes text ≡ path_of folder.now name.now) }
{
    if is_absolute(name.as_bytes()) {
        return String::from_str(alloc, name);
    }
    let mut path = in_folder(alloc, folder)?;
    path.push_str(name)?;
    Ok(path)
}

fn is_absolute(name: &[u8]) -> bool
    ensures { result ≡ is_absolute name.now }
{
    match name {
        [first, ..] => *first == b'/',
        [] => false,
    }
}

fn in_folder(alloc: Global, folder: &str) -> Result<String, AllocError>
    ensures { IfOk result (λ text. string_bytes text ≡ in_folder folder.now) }
{
    let mut path = String::from_str(alloc, folder)?;
    if folder != "/" {
        path.push_str("/")?;
    }
    Ok(path)
}

fn put_path(path: &str, text: &mut String) -> Result<(), AllocError>
    ensures { OnOk result (string_bytes text.new ≡ string_bytes text.old ++ flat_map in_address path.now) }
{
    let bytes = path.as_bytes();
    for byte in bytes {
        put_byte(*byte, text)?;
    }
    Ok(())
}

fn put_byte(byte: u8, text: &mut String) -> Result<(), AllocError>
    ensures { OnOk result (string_bytes text.new ≡ string_bytes text.old ++ in_address byte) }
{
    if is_path_byte(byte) {
        return text.push(byte as char);
    }
    text.push('%')?;
    text.push(hex_digit(byte / 16))?;
    text.push(hex_digit(byte % 16))
}

fn is_path_byte(byte: u8) -> bool
    ensures value { result ≡ is_path_byte byte }
    ensures ascii { result ≡ true → byte < 128 }
{
    byte.is_ascii_alphanumeric() || matches!(byte, b'-' | b'.' | b'_' | b'~' | b'/')
}

/// A hex digit, a capital where it is a letter.
pub(crate) fn hex_digit(value: u8) -> char
    requires { value < 16 }
    ensures digit { result ≡ digit_glyph true value }
    ensures ascii { result < 128 }
{
    if value < 10 {
        (b'0' + value) as char
    } else {
        (b'A' + (value - 10)) as char
    }
}
