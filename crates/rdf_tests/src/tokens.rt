// Documents in pieces, and where they are refused.

ghost use Rattle.std.specs.Prelude.{IfSome};
ghost use Rattle.rdf_tokens.specs.Peek.{IsPeeked};

use rdf_terms::Reason;
use rdf_tokens::{Blanks, Dialect, Kind, Peeked, RunClass, Scanner, plain_run};
use std::alloc::{AllocError, Global};

// What a call answers: the kind, the offset, the line and the number of bytes of a token; of a plain name the place
// after its colon too.
#[derive(Clone, Copy, PartialEq, Eq, Debug)]
enum Answer {
    Started,
    Took(usize),
    Ended,
    Pending(u64),
    Undecided,
    Unseen,
    Passed,
    Stayed,
    Token(Kind, u64, u64, usize),
    PlainName(u64, u64, usize, usize),
    Fault(Reason, u64),
}

fn push(scanner: &mut Scanner, piece: &[u8]) -> Answer {
    match scanner.push(piece) {
        Ok(len) => Answer::Took(len),
        Err(fault) => Answer::Fault(fault.reason, fault.offset),
    }
}

// Takes the token that is seen.
fn see(scanner: &mut Scanner) -> Answer {
    if !scanner.may_peek() {
        return Answer::Unseen;
    }
    let seen = scanner.peek();
    take_seen(scanner, seen)
}

// The same by the longer look.
fn see_far(scanner: &mut Scanner) -> Answer {
    if !scanner.may_peek() {
        return Answer::Unseen;
    }
    let seen = scanner.peek_far();
    take_seen(scanner, seen)
}

fn take_seen(scanner: &mut Scanner, seen: Option<Peeked>) -> Answer
    requires { IfSome seen (IsPeeked scanner.old) }
{
    match seen {
        Some(peeked) => {
            let token = scanner.take(peeked);
            if token.colon > 0 {
                return Answer::PlainName(token.offset, token.line, token.text.len(), token.colon);
            }
            Answer::Token(token.kind, token.offset, token.line, token.text.len())
        }
        None => Answer::Unseen,
    }
}

fn pass_line_feed(scanner: &mut Scanner) -> Answer {
    if !scanner.may_peek() {
        return Answer::Stayed;
    }
    scanner.pass_line_feed();
    Answer::Passed
}

fn pass_blanks(scanner: &mut Scanner) -> Answer {
    if scanner.may_peek() && scanner.pass_blanks() == Blanks::Passed {
        Answer::Passed
    } else {
        Answer::Stayed
    }
}

fn next(scanner: &mut Scanner) -> Answer {
    match scanner.next() {
        Ok(Some(token)) => Answer::Token(token.kind, token.offset, token.line, token.text.len()),
        Ok(None) => Answer::Undecided,
        Err(fault) => Answer::Fault(fault.reason, fault.offset),
    }
}

/// What is done with a scanner.
#[derive(Clone, Copy, Debug)]
enum Step {
    /// Takes a new scanner of a dialect and of tokens of so many characters in its place.
    Start(Dialect, u64),
    Push(&'static [u8]),
    Next,
    See,
    SeeFar,
    PassLineFeed,
    PassBlanks,
    End,
    Pending,
}

fn take(alloc: Global, scanner: &mut Scanner, step: Step) -> Answer {
    match step {
        Step::Start(dialect, limit) => {
            *scanner = Scanner::new(alloc, dialect, limit);
            Answer::Started
        }
        Step::Push(piece) => push(scanner, piece),
        Step::Next => next(scanner),
        Step::See => see(scanner),
        Step::SeeFar => see_far(scanner),
        Step::PassLineFeed => pass_line_feed(scanner),
        Step::PassBlanks => pass_blanks(scanner),
        Step::End => {
            scanner.end();
            Answer::Ended
        }
        Step::Pending => Answer::Pending(scanner.pending()),
    }
}

/// What is done with a scanner, and what it answers.
static STEPS: [(Step, Answer); 301] = [
    // The longer look sees less frequent tokens too, and those at the end of the text, but none behind more than a
    // space.
    (Step::Start(Dialect::Turtle, 64), Answer::Started),
    (
        Step::Push(b"; x:a.b x:\xD1\x8F true -1 'a' x:a\\,b x:c \n;"),
        Answer::Took(38),
    ),
    (Step::Next, Answer::Token(Kind::Semicolon, 0, 1, 1)),
    (Step::SeeFar, Answer::Token(Kind::PnameLn, 2, 1, 5)),
    (Step::SeeFar, Answer::Token(Kind::PnameLn, 8, 1, 4)),
    (Step::SeeFar, Answer::Token(Kind::True, 13, 1, 4)),
    (Step::SeeFar, Answer::Token(Kind::Integer, 18, 1, 2)),
    (Step::See, Answer::Unseen),
    (Step::SeeFar, Answer::Token(Kind::ShortString, 21, 1, 3)),
    (Step::SeeFar, Answer::Token(Kind::PnameLn, 25, 1, 6)),
    (Step::SeeFar, Answer::Token(Kind::PnameLn, 32, 1, 3)),
    (Step::SeeFar, Answer::Unseen),
    (Step::PassBlanks, Answer::Passed),
    (Step::SeeFar, Answer::Token(Kind::Semicolon, 37, 2, 1)),
    // Of names without an escape the place after the colon is known. Words and signed numbers are seen too.
    (Step::Start(Dialect::Turtle, 64), Answer::Started),
    (Step::Push(b"; :a.b :\xD1\x8F :a\\,b ;"), Answer::Took(18)),
    (Step::Next, Answer::Token(Kind::Semicolon, 0, 1, 1)),
    (Step::See, Answer::PlainName(2, 1, 4, 1)),
    (Step::See, Answer::PlainName(7, 1, 3, 1)),
    (Step::See, Answer::Token(Kind::PnameLn, 11, 1, 5)),
    (Step::See, Answer::Unseen),
    (Step::SeeFar, Answer::Token(Kind::Semicolon, 17, 1, 1)),
    (Step::Start(Dialect::Turtle, 64), Answer::Started),
    (
        Step::Push(b"; x:a.b x:\xD1\x8F x:a\\,b true false -1 +1.5 -1e3 ;"),
        Answer::Took(45),
    ),
    (Step::Next, Answer::Token(Kind::Semicolon, 0, 1, 1)),
    (Step::See, Answer::PlainName(2, 1, 5, 2)),
    (Step::See, Answer::PlainName(8, 1, 4, 2)),
    (Step::See, Answer::Token(Kind::PnameLn, 13, 1, 6)),
    (Step::See, Answer::Token(Kind::True, 20, 1, 4)),
    (Step::See, Answer::Token(Kind::False, 25, 1, 5)),
    (Step::See, Answer::Token(Kind::Integer, 31, 1, 2)),
    (Step::See, Answer::Token(Kind::Decimal, 34, 1, 4)),
    (Step::See, Answer::Token(Kind::Double, 39, 1, 4)),
    (Step::Next, Answer::Token(Kind::Semicolon, 44, 1, 1)),
    // Frequent tokens are seen before they are taken, but for the first of a document.
    (Step::Start(Dialect::Turtle, 64), Answer::Started),
    (
        Step::Push(b"; x:y a lib:b-1 , _:l [ ( ) ] . <i> \"s\" 12 x: \n;"),
        Answer::Took(48),
    ),
    (Step::See, Answer::Unseen),
    (Step::Next, Answer::Token(Kind::Semicolon, 0, 1, 1)),
    (Step::See, Answer::PlainName(2, 1, 3, 2)),
    (Step::See, Answer::Token(Kind::A, 6, 1, 1)),
    (Step::See, Answer::PlainName(8, 1, 7, 4)),
    (Step::See, Answer::Token(Kind::Comma, 16, 1, 1)),
    (Step::See, Answer::Token(Kind::LabelNode, 18, 1, 3)),
    (Step::See, Answer::Token(Kind::OpenBracket, 22, 1, 1)),
    (Step::See, Answer::Token(Kind::OpenParen, 24, 1, 1)),
    (Step::See, Answer::Token(Kind::CloseParen, 26, 1, 1)),
    (Step::See, Answer::Token(Kind::CloseBracket, 28, 1, 1)),
    (Step::See, Answer::Token(Kind::Dot, 30, 1, 1)),
    (Step::See, Answer::Token(Kind::IriRef, 32, 1, 3)),
    (Step::See, Answer::Token(Kind::ShortString, 36, 1, 3)),
    (Step::See, Answer::Token(Kind::Integer, 40, 1, 2)),
    (Step::See, Answer::Unseen),
    (Step::Next, Answer::Token(Kind::PnameNs, 43, 1, 2)),
    (Step::See, Answer::Unseen),
    (Step::Next, Answer::Token(Kind::Semicolon, 47, 2, 1)),
    (Step::See, Answer::Unseen),
    // A line feed is passed where a token stands after it.
    (Step::Push(b".\n, \n\n;"), Answer::Took(7)),
    (Step::See, Answer::Token(Kind::Dot, 48, 2, 1)),
    (Step::PassLineFeed, Answer::Passed),
    (Step::See, Answer::Token(Kind::Comma, 50, 3, 1)),
    (Step::PassLineFeed, Answer::Passed),
    (Step::See, Answer::Unseen),
    (Step::Next, Answer::Token(Kind::Semicolon, 54, 5, 1)),
    // So is an indentation after it, but none before another line feed.
    (Step::Push(b"\n \t,\n \n;"), Answer::Took(8)),
    (Step::PassLineFeed, Answer::Passed),
    (Step::See, Answer::Token(Kind::Comma, 58, 6, 1)),
    (Step::PassLineFeed, Answer::Passed),
    (Step::See, Answer::Unseen),
    (Step::Next, Answer::Token(Kind::Semicolon, 62, 8, 1)),
    // Two line feeds are passed too, with the indentation after them.
    (Step::Push(b"\n\n  ,\n\n;"), Answer::Took(8)),
    (Step::PassLineFeed, Answer::Passed),
    (Step::See, Answer::Token(Kind::Comma, 67, 10, 1)),
    (Step::PassLineFeed, Answer::Passed),
    (Step::Next, Answer::Token(Kind::Semicolon, 70, 12, 1)),
    // A tag is seen with all its parts.
    (
        Step::Push(b" @de-CH-1996 @a-b-c1-d @a- ;"),
        Answer::Took(28),
    ),
    (Step::See, Answer::Token(Kind::LangTag, 72, 12, 11)),
    (Step::See, Answer::Token(Kind::LangTag, 84, 12, 9)),
    (Step::See, Answer::Unseen),
    // Decimals and braces are seen too, and each token once the white space and comments before it are passed.
    (Step::Start(Dialect::Turtle, 64), Answer::Started),
    (
        Step::Push(b"; @en 1.5 { } :x : .\n \t# a\n  y:z ;"),
        Answer::Took(34),
    ),
    (Step::Next, Answer::Token(Kind::Semicolon, 0, 1, 1)),
    (Step::See, Answer::Token(Kind::LangTag, 2, 1, 3)),
    (Step::See, Answer::Token(Kind::Decimal, 6, 1, 3)),
    (Step::See, Answer::Token(Kind::OpenBrace, 10, 1, 1)),
    (Step::See, Answer::Token(Kind::CloseBrace, 12, 1, 1)),
    (Step::See, Answer::PlainName(14, 1, 2, 1)),
    (Step::See, Answer::PlainName(17, 1, 1, 1)),
    (Step::See, Answer::Token(Kind::Dot, 19, 1, 1)),
    (Step::See, Answer::Unseen),
    (Step::PassBlanks, Answer::Passed),
    (Step::See, Answer::PlainName(29, 3, 3, 2)),
    (Step::PassBlanks, Answer::Stayed),
    (Step::See, Answer::Unseen),
    (Step::PassBlanks, Answer::Stayed),
    (Step::Next, Answer::Token(Kind::Semicolon, 33, 3, 1)),
    (Step::Push(b" # a"), Answer::Took(4)),
    (Step::PassBlanks, Answer::Stayed),
    (Step::PassBlanks, Answer::Stayed),
    (Step::See, Answer::Unseen),
    (Step::Push(b"b\n;x"), Answer::Took(4)),
    (Step::Next, Answer::Token(Kind::Semicolon, 40, 4, 1)),
    (Step::Start(Dialect::Lines, 64), Answer::Started),
    (Step::Push(b" ."), Answer::Took(2)),
    (Step::PassBlanks, Answer::Stayed),
    (Step::Next, Answer::Token(Kind::Dot, 1, 1, 1)),
    // So are carets, and strings with escapes or between three quotes. Of names with letters of other scripts and
    // escapes all is taken.
    (Step::Start(Dialect::Turtle, 128), Answer::Started),
    (
        Step::Push(
            b"; \"a\\nb\"^^x:t \"\"\"a\"b\"\"\" x:\xC3\xA9t\xC3\xA9-1:b%2F\\~.c, \
                x:\xCE\xA9\xD0\xB0\xE6\x88\x91\xEA\xB0\x80.b x:a\xC3\xB7 ;",
        ),
        Answer::Took(66),
    ),
    (Step::Next, Answer::Token(Kind::Semicolon, 0, 1, 1)),
    (Step::See, Answer::Token(Kind::ShortString, 2, 1, 6)),
    (Step::See, Answer::Token(Kind::Carets, 8, 1, 2)),
    (Step::See, Answer::PlainName(10, 1, 3, 2)),
    (Step::See, Answer::Token(Kind::LongString, 14, 1, 9)),
    (Step::See, Answer::Token(Kind::PnameLn, 24, 1, 18)),
    (Step::See, Answer::Token(Kind::Comma, 42, 1, 1)),
    (Step::See, Answer::PlainName(44, 1, 14, 2)),
    (Step::See, Answer::Unseen),
    (Step::Next, Answer::Token(Kind::PnameLn, 59, 1, 3)),
    (Step::Next, Answer::Fault(Reason::NoToken, 62)),
    // More bytes decide.
    (Step::Start(Dialect::Turtle, 64), Answer::Started),
    (Step::Push(b"1."), Answer::Took(2)),
    (Step::Next, Answer::Undecided),
    (Step::End, Answer::Ended),
    (Step::Next, Answer::Token(Kind::Integer, 0, 1, 1)),
    (Step::Next, Answer::Token(Kind::Dot, 1, 1, 1)),
    (Step::Next, Answer::Token(Kind::End, 2, 1, 0)),
    (Step::Next, Answer::Fault(Reason::Ended, 2)),
    (Step::Start(Dialect::Turtle, 64), Answer::Started),
    (Step::Push(b"\"\""), Answer::Took(2)),
    (Step::Next, Answer::Undecided),
    (Step::Push(b" "), Answer::Took(1)),
    (Step::Next, Answer::Token(Kind::ShortString, 0, 1, 2)),
    (Step::Next, Answer::Undecided),
    (Step::End, Answer::Ended),
    (Step::Push(b"1"), Answer::Fault(Reason::Ended, 3)),
    // A fault stands at its place.
    (Step::Start(Dialect::Turtle, 64), Answer::Started),
    (Step::Push(b"1e+;"), Answer::Took(4)),
    (Step::Next, Answer::Token(Kind::Integer, 0, 1, 1)),
    (Step::Next, Answer::Fault(Reason::NoToken, 1)),
    (Step::Next, Answer::Fault(Reason::Ended, 4)),
    (Step::Push(b";"), Answer::Fault(Reason::Ended, 4)),
    (Step::Start(Dialect::Turtle, 64), Answer::Started),
    (Step::Push(b"<a\\u00>"), Answer::Took(7)),
    (Step::Next, Answer::Fault(Reason::NoToken, 0)),
    (Step::Start(Dialect::Turtle, 12), Answer::Started),
    (Step::Push(b"truefalsetrue"), Answer::Took(13)),
    (Step::Next, Answer::Fault(Reason::TokenTooLong, 0)),
    (Step::Start(Dialect::Turtle, 64), Answer::Started),
    (Step::Push(b"\xC3"), Answer::Took(1)),
    (Step::Next, Answer::Undecided),
    (Step::Push(b"\xA9"), Answer::Took(1)),
    (Step::Next, Answer::Undecided),
    (Step::End, Answer::Ended),
    (Step::Next, Answer::Fault(Reason::NoToken, 0)),
    // A bad byte is reported after the text before it.
    (Step::Start(Dialect::Turtle, 64), Answer::Started),
    (Step::Push(b"1 \xE2\x82"), Answer::Took(4)),
    (Step::Next, Answer::Token(Kind::Integer, 0, 1, 1)),
    (Step::Next, Answer::Undecided),
    (Step::Push(b"."), Answer::Took(1)),
    (Step::Push(b"."), Answer::Took(1)),
    (Step::Next, Answer::Fault(Reason::BadUtf8, 2)),
    (Step::Start(Dialect::Lines, 64), Answer::Started),
    (Step::Push(b".\n# \xC3"), Answer::Took(5)),
    (Step::End, Answer::Ended),
    (Step::Next, Answer::Token(Kind::Dot, 0, 1, 1)),
    (Step::Next, Answer::Token(Kind::LineEnd, 1, 1, 1)),
    (Step::Next, Answer::Fault(Reason::BadUtf8, 4)),
    // A full scanner takes what fits.
    (Step::Start(Dialect::Turtle, 2), Answer::Started),
    (Step::Pending, Answer::Pending(0)),
    (Step::Push(b"1 2 3 4 5 6 7 8 9"), Answer::Took(15)),
    (Step::Push(b" 9"), Answer::Took(0)),
    (Step::Next, Answer::Token(Kind::Integer, 0, 1, 1)),
    (Step::Push(b" 9"), Answer::Took(1)),
    (Step::Pending, Answer::Pending(15)),
    (Step::Start(Dialect::Turtle, 2), Answer::Started),
    (
        Step::Push(b"\"\xF0\x9F\x98\x80\xF0\x9F\x98"),
        Answer::Took(8),
    ),
    (Step::Next, Answer::Undecided),
    (Step::Pending, Answer::Pending(8)),
    (Step::Push(b"\x80 1 2 3 4"), Answer::Took(7)),
    (Step::Next, Answer::Fault(Reason::TokenTooLong, 0)),
    // A line has no long strings.
    (Step::Start(Dialect::Lines, 100), Answer::Started),
    (Step::Push(b"\"\"\"a\"\"\""), Answer::Took(7)),
    (Step::Push(b""), Answer::Took(0)),
    (Step::Next, Answer::Token(Kind::ShortString, 0, 1, 2)),
    (Step::Next, Answer::Token(Kind::ShortString, 2, 1, 3)),
    (Step::Next, Answer::Token(Kind::ShortString, 5, 1, 2)),
    (Step::Start(Dialect::Lines, 100), Answer::Started),
    (Step::Push(b"\"\"\"a\"\"\""), Answer::Took(7)),
    (Step::Push(b" "), Answer::Took(1)),
    (Step::Next, Answer::Token(Kind::ShortString, 0, 1, 2)),
    (Step::Next, Answer::Token(Kind::ShortString, 2, 1, 3)),
    (Step::Next, Answer::Token(Kind::ShortString, 5, 1, 2)),
    (Step::Start(Dialect::Lines, 100), Answer::Started),
    (Step::Push(b"\"\"\"a\"\"\""), Answer::Took(7)),
    (Step::Push(b"\xFF"), Answer::Took(1)),
    (Step::Next, Answer::Token(Kind::ShortString, 0, 1, 2)),
    (Step::Next, Answer::Token(Kind::ShortString, 2, 1, 3)),
    (Step::Next, Answer::Token(Kind::ShortString, 5, 1, 2)),
    // More text may decide otherwise.
    (Step::Start(Dialect::Turtle, 100), Answer::Started),
    (Step::Push(b""), Answer::Took(0)),
    (Step::Next, Answer::Undecided),
    (Step::Push(b"\xFF"), Answer::Took(1)),
    (Step::Next, Answer::Fault(Reason::BadUtf8, 0)),
    (Step::Start(Dialect::Turtle, 100), Answer::Started),
    (Step::Push(b"1."), Answer::Took(2)),
    (Step::Next, Answer::Undecided),
    (Step::Push(b"\xFF"), Answer::Took(1)),
    (Step::Next, Answer::Fault(Reason::BadUtf8, 2)),
    (Step::Start(Dialect::Turtle, 100), Answer::Started),
    (Step::Push(b"truefalse"), Answer::Took(9)),
    (Step::Next, Answer::Undecided),
    (Step::Push(b"\xFF"), Answer::Took(1)),
    (Step::Next, Answer::Fault(Reason::BadUtf8, 9)),
    (Step::Start(Dialect::Turtle, 100), Answer::Started),
    (Step::Push(b"\"\""), Answer::Took(2)),
    (Step::Next, Answer::Undecided),
    (Step::Push(b"\xFF"), Answer::Took(1)),
    (Step::Next, Answer::Fault(Reason::BadUtf8, 2)),
    (Step::Start(Dialect::Turtle, 100), Answer::Started),
    (Step::Push(b"x:d.e."), Answer::Took(6)),
    (Step::Next, Answer::Undecided),
    (Step::Push(b"\xFF"), Answer::Took(1)),
    (Step::Next, Answer::Fault(Reason::BadUtf8, 6)),
    (Step::Start(Dialect::Turtle, 100), Answer::Started),
    (Step::Push(b"@prefix"), Answer::Took(7)),
    (Step::Next, Answer::Undecided),
    (Step::Push(b"\xFF"), Answer::Took(1)),
    (Step::Next, Answer::Fault(Reason::BadUtf8, 7)),
    (Step::Start(Dialect::Turtle, 100), Answer::Started),
    (Step::Push(b"<a"), Answer::Took(2)),
    (Step::Next, Answer::Undecided),
    (Step::Push(b"\xFF"), Answer::Took(1)),
    (Step::Next, Answer::Fault(Reason::BadUtf8, 2)),
    (Step::Start(Dialect::Turtle, 100), Answer::Started),
    (Step::Push(b"_"), Answer::Took(1)),
    (Step::Next, Answer::Undecided),
    (Step::Push(b"\xFF"), Answer::Took(1)),
    (Step::Next, Answer::Fault(Reason::BadUtf8, 1)),
    // The longest token at the end of the input.
    (Step::Start(Dialect::Turtle, 100), Answer::Started),
    (Step::Push(b""), Answer::Took(0)),
    (Step::End, Answer::Ended),
    (Step::Next, Answer::Token(Kind::End, 0, 1, 0)),
    (Step::Start(Dialect::Turtle, 100), Answer::Started),
    (Step::Push(b"@prefix :"), Answer::Took(9)),
    (Step::End, Answer::Ended),
    (Step::Next, Answer::Token(Kind::AtPrefix, 0, 1, 7)),
    (Step::Start(Dialect::Turtle, 100), Answer::Started),
    (Step::Push(b"\"\"\"a"), Answer::Took(4)),
    (Step::End, Answer::Ended),
    (Step::Next, Answer::Fault(Reason::NoToken, 0)),
    (Step::Start(Dialect::Turtle, 100), Answer::Started),
    (Step::Push(b"_:a."), Answer::Took(4)),
    (Step::End, Answer::Ended),
    (Step::Next, Answer::Token(Kind::LabelNode, 0, 1, 3)),
    (Step::Start(Dialect::Turtle, 100), Answer::Started),
    (Step::Push(b"\xC3\xA9:\xC3\xBC "), Answer::Took(6)),
    (Step::End, Answer::Ended),
    (Step::Next, Answer::Token(Kind::PnameLn, 0, 1, 5)),
    (Step::Start(Dialect::Turtle, 100), Answer::Started),
    (Step::Push(b"<a b>"), Answer::Took(5)),
    (Step::End, Answer::Ended),
    (Step::Next, Answer::Fault(Reason::NoToken, 0)),
    (Step::Start(Dialect::Turtle, 100), Answer::Started),
    (Step::Push(b"<\\u0020>"), Answer::Took(8)),
    (Step::End, Answer::Ended),
    (Step::Next, Answer::Fault(Reason::BadEscape, 0)),
    (Step::Start(Dialect::Turtle, 100), Answer::Started),
    (Step::Push(b"\"\\uD800\""), Answer::Took(8)),
    (Step::End, Answer::Ended),
    (Step::Next, Answer::Fault(Reason::BadEscape, 0)),
    (Step::Start(Dialect::Turtle, 100), Answer::Started),
    (Step::Push(b"\"\\U00110000\""), Answer::Took(12)),
    (Step::End, Answer::Ended),
    (Step::Next, Answer::Fault(Reason::BadEscape, 0)),
    (Step::Start(Dialect::Turtle, 100), Answer::Started),
    (
        Step::Push(b"'\xC3\xA9\"\\uD7FF\\U0010FFFF'"),
        Answer::Took(21),
    ),
    (Step::End, Answer::Ended),
    (Step::Next, Answer::Token(Kind::ShortString, 0, 1, 21)),
    (Step::Start(Dialect::Turtle, 3), Answer::Started),
    (Step::Push(b"\xC3\xA9:\xC3\xBC "), Answer::Took(6)),
    (Step::End, Answer::Ended),
    (Step::Next, Answer::Token(Kind::PnameLn, 0, 1, 5)),
    (Step::Start(Dialect::Turtle, 2), Answer::Started),
    (Step::Push(b"\xC3\xA9:\xC3\xBC "), Answer::Took(6)),
    (Step::End, Answer::Ended),
    (Step::Next, Answer::Fault(Reason::TokenTooLong, 0)),
    (Step::Start(Dialect::Turtle, 1), Answer::Started),
    (Step::Push(b"^^<a>"), Answer::Took(5)),
    (Step::End, Answer::Ended),
    (Step::Next, Answer::Fault(Reason::TokenTooLong, 0)),
    (Step::Start(Dialect::Turtle, 2), Answer::Started),
    (Step::Push(b"^^<a>"), Answer::Took(5)),
    (Step::End, Answer::Ended),
    (Step::Next, Answer::Token(Kind::Carets, 0, 1, 2)),
    (Step::Start(Dialect::Turtle, 1), Answer::Started),
    (Step::Push(b";;;"), Answer::Took(3)),
    (Step::End, Answer::Ended),
    (Step::Next, Answer::Token(Kind::Semicolon, 0, 1, 1)),
    (Step::Start(Dialect::Turtle, 2), Answer::Started),
    (Step::Push(b"\"\"\""), Answer::Took(3)),
    (Step::End, Answer::Ended),
    (Step::Next, Answer::Fault(Reason::TokenTooLong, 0)),
];

/// The first of the steps that is answered otherwise, if there is one: how many stand before it, the step, and the
/// answer.
fn misanswered(alloc: Global, steps: &[(Step, Answer)]) -> Option<(usize, Step, Answer)> {
    let mut scanner = Scanner::new(alloc, Dialect::Turtle, 1);
    for i in 0..steps.len() {
        let (step, wanted) = steps[i];
        let answer = take(alloc, &mut scanner, step);
        if answer != wanted {
            return Some((i, step, answer));
        }
    }
    None
}

#[test]
fn a_scanner_answers_each_step(rt: HostRuntime) {
    let misanswered = misanswered(rt.alloc(), STEPS.as_slice());
    assert!(rt; misanswered.is_none(), "{misanswered:?}");
}

// Takes answers until the scanner waits or stops.
fn take_answers(scanner: &mut Scanner, answers: &mut Vec<Answer>) -> Result<(), AllocError> {
    for _ in 0..20 {
        let answer = next(scanner);
        if answer == Answer::Undecided {
            break;
        }
        answers.push(answer)?;
        if matches!(answer, Answer::Fault(_, _)) {
            break;
        }
    }
    Ok(())
}

// Takes the answers to a text, cut after each byte whose bit is set.
fn take_all(
    scanner: &mut Scanner,
    text: &[u8],
    cuts: u64,
    answers: &mut Vec<Answer>,
) -> Result<(), AllocError> {
    let mut from = 0;
    let mut left = cuts;
    for at in 0..text.len() {
        if left % 2 == 1 {
            push(scanner, &text[from..=at]);
            take_answers(scanner, answers)?;
            from = at + 1;
        }
        left /= 2;
    }
    push(scanner, &text[from..]);
    scanner.end();
    take_answers(scanner, answers)
}

/// Texts of the Turtle dialect, and all that a scanner answers.
static EXAMPLES: [(&str, &[Answer]); 12] = [
    (
        "\u{FEFF}<http://é/> a \"x\", 1.5e0 # ü\n'''y\n''' .",
        &[
            Answer::Token(Kind::IriRef, 3, 1, 12),
            Answer::Token(Kind::A, 16, 1, 1),
            Answer::Token(Kind::ShortString, 18, 1, 3),
            Answer::Token(Kind::Comma, 21, 1, 1),
            Answer::Token(Kind::Double, 23, 1, 5),
            Answer::Token(Kind::LongString, 34, 2, 8),
            Answer::Token(Kind::Dot, 43, 3, 1),
            Answer::Token(Kind::End, 44, 3, 0),
            Answer::Fault(Reason::Ended, 44),
        ],
    ),
    (
        "1.",
        &[
            Answer::Token(Kind::Integer, 0, 1, 1),
            Answer::Token(Kind::Dot, 1, 1, 1),
            Answer::Token(Kind::End, 2, 1, 0),
            Answer::Fault(Reason::Ended, 2),
        ],
    ),
    (
        "1.e5",
        &[
            Answer::Token(Kind::Double, 0, 1, 4),
            Answer::Token(Kind::End, 4, 1, 0),
            Answer::Fault(Reason::Ended, 4),
        ],
    ),
    (
        "1.5e3 -2E-1, 3.e+4 5e:x",
        &[
            Answer::Token(Kind::Double, 0, 1, 5),
            Answer::Token(Kind::Double, 6, 1, 5),
            Answer::Token(Kind::Comma, 11, 1, 1),
            Answer::Token(Kind::Double, 13, 1, 5),
            Answer::Token(Kind::Integer, 19, 1, 1),
            Answer::Token(Kind::PnameLn, 20, 1, 3),
            Answer::Token(Kind::End, 23, 1, 0),
            Answer::Fault(Reason::Ended, 23),
        ],
    ),
    (
        "1e:x",
        &[
            Answer::Token(Kind::Integer, 0, 1, 1),
            Answer::Token(Kind::PnameLn, 1, 1, 3),
            Answer::Token(Kind::End, 4, 1, 0),
            Answer::Fault(Reason::Ended, 4),
        ],
    ),
    (
        "x:d.e.",
        &[
            Answer::Token(Kind::PnameLn, 0, 1, 5),
            Answer::Token(Kind::Dot, 5, 1, 1),
            Answer::Token(Kind::End, 6, 1, 0),
            Answer::Fault(Reason::Ended, 6),
        ],
    ),
    (
        "truefalse",
        &[
            Answer::Token(Kind::True, 0, 1, 4),
            Answer::Token(Kind::False, 4, 1, 5),
            Answer::Token(Kind::End, 9, 1, 0),
            Answer::Fault(Reason::Ended, 9),
        ],
    ),
    (
        "true:x",
        &[
            Answer::Token(Kind::PnameLn, 0, 1, 6),
            Answer::Token(Kind::End, 6, 1, 0),
            Answer::Fault(Reason::Ended, 6),
        ],
    ),
    (
        "@prefixed",
        &[
            Answer::Token(Kind::LangTag, 0, 1, 9),
            Answer::Token(Kind::End, 9, 1, 0),
            Answer::Fault(Reason::Ended, 9),
        ],
    ),
    (
        "\"\" ",
        &[
            Answer::Token(Kind::ShortString, 0, 1, 2),
            Answer::Token(Kind::End, 3, 1, 0),
            Answer::Fault(Reason::Ended, 3),
        ],
    ),
    (
        "\"\"\"\"\"\"",
        &[
            Answer::Token(Kind::LongString, 0, 1, 6),
            Answer::Token(Kind::End, 6, 1, 0),
            Answer::Fault(Reason::Ended, 6),
        ],
    ),
    (
        "..5",
        &[
            Answer::Token(Kind::Dot, 0, 1, 1),
            Answer::Token(Kind::Decimal, 1, 1, 2),
            Answer::Token(Kind::End, 3, 1, 0),
            Answer::Fault(Reason::Ended, 3),
        ],
    ),
];

/// Whether a text of the Turtle dialect, cut after each byte whose bit is set, has these answers.
fn is_cut(alloc: Global, text: &[u8], cuts: u64, want: &[Answer]) -> bool {
    let mut scanner = Scanner::new(alloc, Dialect::Turtle, 64);
    let mut answers = Vec::new(alloc);
    let is_taken = take_all(&mut scanner, text, cuts, &mut answers).is_ok();
    is_taken && answers.as_slice() == want
}

#[test]
fn cuts_change_no_example(rt: HostRuntime) {
    for (text, want) in EXAMPLES.as_slice() {
        for cuts in 0..512 {
            assert!(rt; is_cut(rt.alloc(), text.as_bytes(), cuts, want), "{text}");
        }
    }
}

/// Strings with escapes, the most characters that a token may have, and the first answer to them.
#[rattlefmt::skip]
static STRINGS: [(Dialect, &str, u64, Answer); 11] = [
    (Dialect::Lines, "\"ab\\\"c\\u00E9d\\U0001F600\\té\" .", 64, Answer::Token(Kind::ShortString, 0, 1, 28)),
    (Dialect::Turtle, "\"ab\\\"c\\u00E9d\\U0001F600\\té\" .", 64, Answer::Token(Kind::ShortString, 0, 1, 28)),
    (Dialect::Turtle, "'ab\\'c\\u00E9d\\U0001F600\\té' .", 64, Answer::Token(Kind::ShortString, 0, 1, 28)),
    (Dialect::Lines, "\"ab\\\"c\\u00E9d\\U0001F600\\té\" .", 27, Answer::Token(Kind::ShortString, 0, 1, 28)),
    (Dialect::Turtle, "'ab\\'c\\u00E9d\\U0001F600\\té' .", 27, Answer::Token(Kind::ShortString, 0, 1, 28)),
    (Dialect::Lines, "\"ab\\\"c\\u00E9d\\U0001F600\\té\" .", 26, Answer::Fault(Reason::TokenTooLong, 0)),
    (Dialect::Turtle, "'ab\\'c\\u00E9d\\U0001F600\\té' .", 26, Answer::Fault(Reason::TokenTooLong, 0)),
    (Dialect::Lines, "\"abc\\uD800defghijklmnop\" .", 64, Answer::Fault(Reason::BadEscape, 0)),
    (Dialect::Turtle, "'abc\\t\\U00110000de\\n' .", 64, Answer::Fault(Reason::BadEscape, 0)),
    (Dialect::Lines, "\"abc\\t\\xde\" .", 64, Answer::Fault(Reason::NoToken, 0)),
    (Dialect::Turtle, "\"abc\\u00E9\n\" .", 64, Answer::Fault(Reason::NoToken, 0)),
];

// The first answer to a text that comes in three pieces.
fn first_answer(alloc: Global, dialect: Dialect, limit: u64, pieces: [&[u8]; 3]) -> Answer {
    let mut scanner = Scanner::new(alloc, dialect, limit);
    for piece in pieces {
        push(&mut scanner, piece);
        let answer = next(&mut scanner);
        if answer != Answer::Undecided {
            return answer;
        }
    }
    scanner.end();
    next(&mut scanner)
}

/// Whether a text has the same first answer wherever it is cut into three pieces.
fn is_same_in_pieces(
    alloc: Global,
    dialect: Dialect,
    text: &[u8],
    limit: u64,
    want: Answer,
) -> bool {
    for second in 0..=text.len() {
        for first in 0..=second {
            let pieces = [&text[..first], &text[first..second], &text[second..]];
            if first_answer(alloc, dialect, limit, pieces) != want {
                return false;
            }
        }
    }
    true
}

#[test]
fn cuts_change_no_string(rt: HostRuntime) {
    for (dialect, text, limit, want) in STRINGS.as_slice() {
        assert!(rt;
            is_same_in_pieces(rt.alloc(), *dialect, text.as_bytes(), *limit, *want),
            "{text}"
        );
    }
}

/// Whether runs end at the first byte that is not plain.
fn runs_are_plain() -> bool {
    let text = "a text that is longer than a few registers of sixteen bytes each";
    plain_run(text.as_bytes(), RunClass::InString) == text.len()
        && plain_run("é'".as_bytes(), RunClass::InString) == 2
        && plain_run(text.as_bytes(), RunClass::InIri) == 1
}

#[test]
fn the_first_byte_that_is_not_plain(rt: HostRuntime) {
    assert!(rt; runs_are_plain());
}
