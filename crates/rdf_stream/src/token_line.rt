// The line of a token.

ghost use Rattle.std.specs.Prelude.{◌≡◌, ◌++◌, codes, decimal, OnErr, OnOk};
ghost use Rattle.rdf_tokens.specs.Scans.{token_of};
ghost use Rattle.rdf_lines.specs.WrittenBytes.{BeginsWith};
ghost use Rattle.rdf_stream.specs.Shows.{kind_name, token_line};

use itoa::Buffer;
use rdf_lines::LineBuffer;
use rdf_tokens::{Kind, Token, char_count};
use std::alloc::{AllocError, Allocator};

/// Appends the token's offset, its number of characters and the name of its kind, with a space between them and a LF.
/// Where a growth of memory is refused, it appends nothing.
pub(crate) fn put_token_line<A: Allocator + Copy>(
    token: Token<'_>,
    out: &mut LineBuffer<A>,
) -> Result<(), AllocError>
    ensures written { OnOk result (out.new ≡ out.old ++ token_line (token_of token.entry)) }
    ensures unchanged { OnErr result (out.new ≡ out.old) }
{
    let start = out.len();
    match put_parts(token, out) {
        Ok(()) => Ok(()),
        Err(e) => {
            out.truncate(start);
            Err(e)
        }
    }
}

fn put_parts<A: Allocator + Copy>(
    token: Token<'_>,
    out: &mut LineBuffer<A>,
) -> Result<(), AllocError>
    ensures written { OnOk result (out.new ≡ out.old ++ token_line (token_of token.entry)) }
    ensures grown { OnErr result (BeginsWith out.old out.new) }
{
    put_number(token.offset, out)?;
    put_number(char_count(token.text) as u64, out)?;
    out.append(kind_name(token.kind).as_bytes())?;
    out.append(b"\n")
}

fn put_number<A: Allocator + Copy>(number: u64, out: &mut LineBuffer<A>) -> Result<(), AllocError>
    ensures written { OnOk result (out.new ≡ out.old ++ (decimal number ++ codes " ")) }
    ensures grown { OnErr result (BeginsWith out.old out.new) }
{
    out.append(Buffer::new().format(number).as_bytes())?;
    out.append(b" ")
}

fn kind_name(kind: Kind) -> &'static str
    ensures { result.now ≡ kind_name kind }
{
    match kind {
        Kind::IriRef => "iri",
        Kind::LabelNode => "label",
        Kind::ShortString => "string",
        Kind::LongString => "longstring",
        Kind::LangTag => "tag",
        Kind::Carets => "carets",
        Kind::Dot => "dot",
        Kind::LineEnd => "lineend",
        Kind::Integer => "integer",
        Kind::Decimal => "decimal",
        Kind::Double => "double",
        Kind::True => "true",
        Kind::False => "false",
        Kind::A => "a",
        Kind::AtPrefix => "atprefix",
        Kind::AtBase => "atbase",
        Kind::Prefix => "prefix",
        Kind::Base => "base",
        Kind::Graph => "graph",
        Kind::PnameNs => "ns",
        Kind::PnameLn => "name",
        Kind::Semicolon => "semicolon",
        Kind::Comma => "comma",
        Kind::OpenBracket => "lbracket",
        Kind::CloseBracket => "rbracket",
        Kind::OpenParen => "lparen",
        Kind::CloseParen => "rparen",
        Kind::OpenBrace => "lbrace",
        Kind::CloseBrace => "rbrace",
        Kind::End => "",
    }
}
