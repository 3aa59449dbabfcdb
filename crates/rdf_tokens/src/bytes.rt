// The characters of a text, by the bytes where they begin.

ghost use Rattle.std.specs.Prelude.{◌≡◌, ◌<◌, ◌≤◌, ◌+◌, ◌++◌, length, drop, encode_utf8, IsUtf8};
ghost use Rattle.std.specs.Char.{len_utf8};

/// The character that begins at a byte, and where the next one begins.
#[inline(always)]
pub(crate) fn char_at(text: &str, at: usize) -> (char, usize)
    requires inside { at < length text.now }
    requires utf8 { IsUtf8 (drop at text.now) }
    ensures is { drop at text.now ≡ encode_utf8 result.0 ++ drop result.1 text.now }
    ensures past { result.1 ≡ at + len_utf8 result.0 }
    ensures fits { result.1 ≤ length text.now }
{
    let byte = text.as_bytes()[at];
    if byte < 128 {
        return (byte as char, at + 1);
    }
    wide_char_at(text, at)
}

#[inline(never)]
fn wide_char_at(text: &str, at: usize) -> (char, usize)
    requires inside { at < length text.now }
    requires utf8 { IsUtf8 (drop at text.now) }
    ensures is { drop at text.now ≡ encode_utf8 result.0 ++ drop result.1 text.now }
    ensures past { result.1 ≡ at + len_utf8 result.0 }
    ensures fits { result.1 ≤ length text.now }
{
    let mut chars = text[at..].chars();
    match chars.next() {
        Some(c) => (c, at + c.len_utf8()),
        None => unreachable!(),
    }
}
