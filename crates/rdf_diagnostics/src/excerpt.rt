// The line of a document near a place, as it is shown, with a caret under the place.

ghost use Rattle.std.specs.Prelude.{◌≡◌, ◌++◌, IfOk, OnOk, encode_utf8_all, map};
ghost use Rattle.rdf_diagnostics.specs.Excerpts.{excerpt_text, first_60, is_hidden, is_unseen, last_60, shown};
ghost use Rattle.rdf_diagnostics.specs.Excerpts.{shown_of, under, with_caret, without_cr};

use std::alloc::{AllocError, Allocator};

// How many characters are shown on each side of the place.
const SHOWN: usize = 60;

/// Appends two lines: the line of a document near a place, and a caret under the place. `before` has the bytes of the
/// line in front of the place, `after` those from there on, without its LF: the last and the first 244 of them, or
/// all, since more changes nothing, and a character that is cut there is not shown. Where a growth of memory is
/// refused, a part may have been appended.
pub fn put_excerpt<A: Allocator + Copy>(
    before: &[u8],
    after: &[u8],
    text: &mut Vec<u8, A>,
) -> Result<(), AllocError>
    ensures { OnOk result (text.new.items ≡ text.old.items ++ excerpt_text before.now after.now) }
{
    let alloc = *text.allocator();
    let front = last_of(alloc, before)?;
    let back = first_of(alloc, without_cr(after))?;
    let lines = with_caret(alloc, front.as_slice(), back.as_slice())?;
    put_chars(lines.as_slice(), text)
}

// The characters in front of the place that are shown.
fn last_of<A: Allocator + Copy>(alloc: A, before: &[u8]) -> Result<Vec<char, A>, AllocError>
    ensures { IfOk result (λ cs. cs.items ≡ last_60 (shown_of before.now)) }
{
    let all = shown_of(alloc, before)?;
    if all.len() <= SHOWN {
        return Ok(all);
    }
    let mut last = Vec::new(alloc);
    last.push('…')?;
    last.extend_from_slice(&all[all.len() - SHOWN..])?;
    Ok(last)
}

// The characters from the place on that are shown.
fn first_of<A: Allocator + Copy>(alloc: A, after: &[u8]) -> Result<Vec<char, A>, AllocError>
    ensures { IfOk result (λ cs. cs.items ≡ first_60 (shown_of after.now)) }
{
    let mut all = shown_of(alloc, after)?;
    if all.len() > SHOWN {
        all.truncate(SHOWN);
        all.push('…')?;
    }
    Ok(all)
}

// The characters that are shown of the bytes.
fn shown_of<A: Allocator + Copy>(alloc: A, bytes: &[u8]) -> Result<Vec<char, A>, AllocError>
    ensures { IfOk result (λ cs. cs.items ≡ shown_of bytes.now) }
{
    let text = String::from_utf8_lossy(alloc, bytes)?;
    text.as_str().chars().map(|c| shown(c)).collect(alloc)
}

// What is shown of a character.
fn shown(c: char) -> char
    ensures { result ≡ shown c }
{
    if is_hidden(c) { '\u{FFFD}' } else { c }
}

fn is_hidden(c: char) -> bool
    ensures { result ≡ is_hidden c }
{
    (c.is_control() && c != '\t') || is_unseen(c)
}

// Whether a character turns the direction of text, separates lines, or is U+FEFF.
fn is_unseen(c: char) -> bool
    ensures { result ≡ is_unseen c }
{
    matches!(
        c,
        '\u{061C}' | '\u{200E}'..='\u{200F}' | '\u{2028}'..='\u{202E}' | '\u{2066}'..='\u{2069}' | '\u{FEFF}'
    )
}

// The bytes without a CR at their end.
fn without_cr(bytes: &[u8]) -> &[u8]
    ensures { result.now ≡ without_cr bytes.now }
{
    if bytes.ends_with(b"\r") {
        &bytes[..bytes.len() - 1]
    } else {
        bytes
    }
}

// The characters of both lines.
fn with_caret<A: Allocator + Copy>(
    alloc: A,
    front: &[char],
    back: &[char],
) -> Result<Vec<char, A>, AllocError>
    ensures { IfOk result (λ cs. cs.items ≡ with_caret front.now back.now) }
{
    let mut lines = Vec::from_slice(alloc, front)?;
    lines.extend_from_slice(back)?;
    lines.push('\n')?;
    put_under(front, &mut lines)?;
    lines.push('^')?;
    lines.push('\n')?;
    Ok(lines)
}

// What stands under the characters.
fn put_under<A: Allocator + Copy>(
    front: &[char],
    lines: &mut Vec<char, A>,
) -> Result<(), AllocError>
    ensures { OnOk result (lines.new.items ≡ lines.old.items ++ map under front.now) }
{
    for &c in front {
        lines.push(under(c))?;
    }
    Ok(())
}

fn under(c: char) -> char
    ensures { result ≡ under c }
{
    if c == '\t' { '\t' } else { ' ' }
}

// The characters in UTF-8.
fn put_chars<A: Allocator + Copy>(chars: &[char], text: &mut Vec<u8, A>) -> Result<(), AllocError>
    ensures { OnOk result (text.new.items ≡ text.old.items ++ encode_utf8_all chars.now) }
{
    for &c in chars {
        text.extend_from_slice(c.encode_utf8(&mut [0; 4]).as_bytes())?;
    }
    Ok(())
}
