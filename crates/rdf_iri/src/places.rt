// Places of bytes in a text.

ghost use Rattle.std.specs.Prelude.{◌≡◌, ◌≤◌, length, take, drop};
ghost use Rattle.rdf_iri.specs.Texts.{before, from, begins, equal};
ghost use Rattle.rdf_iri.specs.Dots.{parent};
ghost use Rattle.rdf_iri.specs.Resolve.{directory};

/// How many bytes stand before the first `mark`, or all of them.
pub(crate) fn bytes_before(text: &[u8], mark: u8) -> usize
    ensures within { result ≤ length text.now }
    ensures front { take result text.now ≡ before mark text.now }
    ensures rest { drop result text.now ≡ from mark text.now }
{
    for (i, byte) in text.iter().enumerate() {
        if *byte == mark {
            return i;
        }
    }
    text.len()
}

/// How many bytes stand before the last slash, or none.
pub(crate) fn parent_len(text: &[u8]) -> usize
    ensures within { result ≤ length text.now }
    ensures front { take result text.now ≡ parent text.now }
{
    let mut len = text.len();
    while len > 0 {
        len -= 1;
        if text[len] == b'/' {
            return len;
        }
    }
    0
}

/// How many bytes there are up to and with the last slash, or none.
pub(crate) fn directory_len(text: &[u8]) -> usize
    ensures within { result ≤ length text.now }
    ensures front { take result text.now ≡ directory text.now }
{
    let mut len = text.len();
    while len > 0 {
        if text[len - 1] == b'/' {
            return len;
        }
        len -= 1;
    }
    0
}

pub(crate) fn begins_with(text: &[u8], front: &[u8]) -> bool
    ensures { result ≡ begins front.now text.now }
{
    text.starts_with(front)
}

pub(crate) fn is_equal(text: &[u8], other: &[u8]) -> bool
    ensures { result ≡ equal text.now other.now }
{
    text == other
}
