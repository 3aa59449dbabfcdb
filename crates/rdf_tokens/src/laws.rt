//! The laws of token lists. These functions do nothing: their contracts are the laws.

ghost use Rattle.rdf_tokens.specs.Laws.{MoreBytesOnlyLengthen, GivenTokensAreABeginning, NextTokenIsGiven};
ghost use Rattle.rdf_tokens.specs.Laws.{TokensStandAtTheirPlaces, TokensHaveShapes, TokensKeepTheLimit, EndStandsLast};
ghost use Rattle.rdf_tokens.specs.Laws.{LongestIsFound, TokensAreLongest, OutcomesHaveReasons, OpenTextIsPending};
ghost use Rattle.rdf_tokens.specs.Passing.{PassedTokensAreRead};

/// More bytes, or the end, only lengthen the list of tokens, and change no outcome that is decided.
pub fn more_bytes_only_lengthen()
    ensures { MoreBytesOnlyLengthen }
{}

/// What a scanner has given is a beginning of the tokens of the bytes that it has taken.
pub fn given_tokens_are_a_beginning()
    ensures { GivenTokensAreABeginning }
{}

/// What `next` gives is the next token of the bytes that the scanner has taken, after those that it has given, or
/// their outcome.
pub fn next_token_is_given()
    ensures { NextTokenIsGiven }
{}

/// Each token stands at its place in the bytes, and its line counts the LF bytes before it.
pub fn tokens_stand_at_their_places()
    ensures { TokensStandAtTheirPlaces }
{}

/// Each token has the shape of its kind and escapes that stand for characters.
pub fn tokens_have_shapes()
    ensures { TokensHaveShapes }
{}

/// `End` is in the list where all of the input was read, and there it is the last token.
pub fn end_stands_last()
    ensures { EndStandsLast }
{}

/// No token has more characters than the limit.
pub fn tokens_keep_the_limit()
    ensures { TokensKeepTheLimit }
{}

/// `longest` finds the longest front of a text that has a shape, with its kind, if there is one.
pub fn longest_is_found()
    ensures { LongestIsFound }
{}

/// Each token is the longest front with a shape of the text at its place.
pub fn tokens_are_longest()
    ensures { TokensAreLongest }
{}

/// The outcome and its place have a reason: all was read up to the input's length; the bytes are UTF-8 up to there and
/// no further; no front of the text there has a shape; or nothing stands there, or the beginning of a token.
pub fn outcomes_have_reasons()
    ensures { OutcomesHaveReasons }
{}

/// A scanner that may be handed more holds at least the bytes that leave the next token open.
pub fn open_text_is_pending()
    ensures { OpenTextIsPending }
{}

/// Bytes that spell some tokens, passed between two tokens, leave a scanner as reading them would.
pub fn passed_tokens_are_read()
    ensures { PassedTokensAreRead }
{}
