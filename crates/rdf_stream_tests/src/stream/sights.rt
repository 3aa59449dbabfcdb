// What stands at places of documents, where the bytes from there on are read by themselves.

use rdf_stream::{Sight, sight_of};
use rdf_tokens::{Dialect, Kind};
use std::alloc::Global;

// The bytes from a place on, and what stands there where they are the last.
#[rattlefmt::skip]
static ROWS: [(Dialect, &str, Sight); 31] = [
    (Dialect::Turtle, "<http://a/o b> .", Sight::Stop(11)),
    (Dialect::Lines, "<http://a/o b> .", Sight::Stop(11)),
    (Dialect::Turtle, "\"abc", Sight::Stop(4)),
    (Dialect::Lines, "\"abc", Sight::Stop(4)),
    (Dialect::Lines, "\"abc\n<a:b> .", Sight::Stop(4)),
    (Dialect::Turtle, "@en_US", Sight::Token(Kind::LangTag, 3)),
    (Dialect::Turtle, "]", Sight::Token(Kind::CloseBracket, 1)),
    (Dialect::Lines, "]", Sight::Stop(0)),
    (Dialect::Turtle, "\u{1f}", Sight::Stop(0)),
    (Dialect::Lines, "\u{1f}<a:b>", Sight::Stop(0)),
    (Dialect::Turtle, "uthor \"x\"", Sight::Stop(5)),
    (Dialect::Turtle, "\u{feff}<a:b>", Sight::Stop(3)),
    (Dialect::Lines, "\u{feff}", Sight::Stop(0)),
    (Dialect::Turtle, "a:\u{e9}t\u{e9} ", Sight::Token(Kind::PnameLn, 7)),
    (Dialect::Turtle, "\u{e9}t\u{e9} .", Sight::Stop(5)),
    (Dialect::Turtle, "\u{e9}t\u{e9}\u{d7} .", Sight::Stop(5)),
    (Dialect::Turtle, "\u{e9}t\u{e9}", Sight::Stop(5)),
    (Dialect::Turtle, "<\u{1f600}\u{1f600} >", Sight::Stop(9)),
    (Dialect::Turtle, "'''a''", Sight::Stop(6)),
    (Dialect::Turtle, "", Sight::Unknown),
    (Dialect::Turtle, " # a comment", Sight::Unknown),
    (Dialect::Turtle, " # a comment\n;", Sight::Token(Kind::Semicolon, 1)),
    (Dialect::Lines, "\r\n\n.", Sight::Token(Kind::LineEnd, 1)),
    (Dialect::Turtle, "\"\\uD800\"", Sight::BadEscape(1)),
    (Dialect::Lines, "<http://a/\\u0041\\u0020> .", Sight::BadEscape(16)),
    (Dialect::Turtle, "'''\u{e9}''\\n\\U00110000'''", Sight::BadEscape(9)),
    (Dialect::Turtle, "<a:\\uDFFF>", Sight::BadEscape(3)),
    (Dialect::Turtle, "<a:b> \"\\uD800\"", Sight::Token(Kind::IriRef, 5)),
    (Dialect::Turtle, "\"a\\z\"", Sight::Stop(3)),
    (Dialect::Turtle, "^a", Sight::Stop(1)),
    (Dialect::Turtle, "_:a.b. ", Sight::Token(Kind::LabelNode, 5)),
];

#[test]
fn what_stands_at_a_place_is_told(rt: HostRuntime) {
    for (dialect, text, told) in ROWS.as_slice() {
        let sight = sight_of(rt.alloc(), *dialect, 1000, text.as_bytes(), true);
        assert_eq!(rt; sight, Ok(*told), "{text}");
    }
}

// The first bytes of a row's, of which more may come, tell what all bytes tell, or that more decide.
fn is_told_early(sight: Sight, whole: Sight) -> bool {
    sight == whole || sight == Sight::Unknown
}

#[test]
fn fewer_bytes_tell_the_same_or_nothing(rt: HostRuntime) {
    for (dialect, text, told) in ROWS.as_slice() {
        let bytes = text.as_bytes();
        for len in 0..bytes.len() {
            match sight_of(rt.alloc(), *dialect, 1000, &bytes[..len], false) {
                Ok(sight) => assert!(rt; is_told_early(sight, *told), "{len} bytes of {text}"),
                Err(_) => assert!(rt; false, "no memory for {len} bytes of {text}"),
            }
        }
    }
}

// A string of so many bytes behind its first quote, and what comes after them.
fn long_string(alloc: Global, len: usize, after: &[u8]) -> Option<Vec<u8>> {
    let mut bytes = Vec::from_slice(alloc, b"\"").ok()?;
    for _ in 0..len / 2 {
        bytes.extend_from_slice("\u{e9}".as_bytes()).ok()?;
    }
    bytes.extend_from_slice(after).ok()?;
    Some(bytes)
}

// What stands at such a string; None where memory is refused.
fn long_sight(alloc: Global, words: (Dialect, u64), len: usize, after: &[u8]) -> Option<Sight> {
    let bytes = long_string(alloc, len, after)?;
    sight_of(alloc, words.0, words.1, bytes.as_slice(), true).ok()
}

// The bytes of a long string, and with the first quote.
static LONG: [(usize, u64); 7] = [
    (4090, 4091),
    (4092, 4093),
    (4094, 4095),
    (4096, 4097),
    (8190, 8191),
    (8192, 8193),
    (20_000, 20_001),
];

#[test]
fn a_long_string_is_read_in_parts(rt: HostRuntime) {
    for (len, count) in LONG.as_slice() {
        let open = long_sight(rt.alloc(), (Dialect::Lines, 100_000), *len, b"\n<a:b>");
        assert_eq!(rt; open, Some(Sight::Stop(*count)), "{len} open");
        let over = long_sight(rt.alloc(), (Dialect::Turtle, 1000), *len, b"\n<a:b>");
        assert_eq!(rt; over, Some(Sight::Unknown), "{len} over the limit");
        let closed = long_sight(rt.alloc(), (Dialect::Turtle, 100_000), *len, b"\" .");
        assert_eq!(rt;
            closed,
            Some(Sight::Token(Kind::ShortString, count.saturating_add(1))),
            "{len} closed"
        );
        let broken = long_sight(rt.alloc(), (Dialect::Turtle, 100_000), *len, b"\xff\" .");
        assert_eq!(rt; broken, Some(Sight::Unknown), "{len} and a bad byte");
    }
}
