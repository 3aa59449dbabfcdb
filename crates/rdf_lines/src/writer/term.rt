// Terms as they are written (N-Quads 4).

ghost use Rattle.std.specs.Prelude.{◌≡◌, ◌↔◌, ◌∷◌, ◌++◌, ◌+◌, ◌≤◌, bytes_eq, drop, encode_utf8_all, length, take};
ghost use Rattle.std.specs.Prelude.{IfSome, None, OnErr, OnOk};
ghost use Rattle.rdf_terms.specs.Terms.{xsd_string};
ghost use Rattle.rdf_terms.specs.Views.{iri_chars, node_of};
ghost use Rattle.rdf_lines.specs.Forms.{form_of};
ghost use Rattle.rdf_lines.specs.Writing.{CanWriteNode, type_text};
ghost use Rattle.rdf_lines.specs.WrittenBytes.{BeginsWith, IsNamed, iri_bytes, node_bytes, subject_bytes, tail_bytes};
ghost use Rattle.rdf_lines.specs.WrittenBytes.{term_bytes};

use crate::form::{Escapes, Style, WrittenForm};
use crate::writer::string::{put_characters, put_string};
use itoa::Buffer;
use rdf_terms::{IriView, NodeRef, SubjectRef, TailRef, TermRef};
use std::alloc::{AllocError, Allocator};
use std::simd::prelude::*;

/// How many bytes xsd:string has.
const STRING_LEN: usize = 39;

pub fn put_term<A: Allocator + Copy>(
    term: TermRef<'_>,
    form: WrittenForm<'_>,
    out: &mut Vec<u8, A>,
) -> Result<(), AllocError>
    ensures written { OnOk result (out.new.items ≡ out.old.items ++ term_bytes (form_of form.entry) term.entry) }
    ensures grown { OnErr result (BeginsWith out.old.items out.new.items) }
{
    match term {
        TermRef::Iri(iri) => put_iri(iri, form.escapes, out),
        TermRef::Node(node) => put_node(node, form, out),
        TermRef::Literal(literal) => {
            put_string(literal.lexical, form.escapes, out)?;
            put_tail(literal.tail, form.escapes, out)
        }
    }
}

#[inline(always)]
pub fn put_name<A: Allocator + Copy>(
    name: SubjectRef<'_>,
    form: WrittenForm<'_>,
    out: &mut Vec<u8, A>,
) -> Result<(), AllocError>
    ensures written { OnOk result (out.new.items ≡ out.old.items ++ subject_bytes (form_of form.entry) name.entry) }
    ensures grown { OnErr result (BeginsWith out.old.items out.new.items) }
{
    match name {
        SubjectRef::Iri(iri) => put_iri(iri, form.escapes, out),
        SubjectRef::Node(node) => put_node(node, form, out),
    }
}

#[inline(always)]
pub fn put_iri<A: Allocator + Copy>(
    iri: IriView<'_>,
    escapes: Escapes,
    out: &mut Vec<u8, A>,
) -> Result<(), AllocError>
    ensures written { OnOk result (out.new.items ≡ out.old.items ++ iri_bytes escapes iri.entry) }
    ensures grown { OnErr result (BeginsWith out.old.items out.new.items) }
{
    out.extend_from_slice(b"<")?;
    put_characters(iri, escapes, out)?;
    out.extend_from_slice(b">")
}

#[tactic(auto, using(crate::proofs::EncodedLine::encoded_none))]
#[inline(always)]
fn put_node<A: Allocator + Copy>(
    node: NodeRef<'_>,
    form: WrittenForm<'_>,
    out: &mut Vec<u8, A>,
) -> Result<(), AllocError>
    ensures written { OnOk result (out.new.items ≡ out.old.items ++ node_bytes (form_of form.entry) node.entry) }
    ensures grown { OnErr result (BeginsWith out.old.items out.new.items) }
{
    let mut digits = Buffer::new();
    match letter_and_name(node, form.style, &mut digits) {
        None => Ok(()),
        Some((letter, name)) => {
            put_front(form.prefix.as_str(), letter, out)?;
            out.extend_from_slice(name.as_bytes())
        }
    }
}

// What stands in front of a name: `_:`, the word, and the letter.
fn put_front<A: Allocator + Copy>(
    word: &str,
    letter: &str,
    out: &mut Vec<u8, A>,
) -> Result<(), AllocError>
    ensures written { OnOk result (out.new.items ≡ out.old.items ++ (95 ∷ 58 ∷ (word.now ++ letter.now))) }
    ensures grown { OnErr result (BeginsWith out.old.items out.new.items) }
{
    out.extend_from_slice(b"_:")?;
    put_part(word, out)?;
    put_part(letter, out)
}

// Appends a text that is mostly empty, which costs a test alone.
fn put_part<A: Allocator + Copy>(text: &str, out: &mut Vec<u8, A>) -> Result<(), AllocError>
    ensures written { OnOk result (out.new.items ≡ out.old.items ++ text.now) }
    ensures unchanged { OnErr result (out.new.items ≡ out.old.items) }
{
    if text.is_empty() {
        return Ok(());
    }
    out.extend_from_slice(text.as_bytes())
}

// The label of a node in two parts, a letter or nothing and the name, or None where the style can't write it.
#[inline(always)]
pub fn letter_and_name<'a>(
    node: NodeRef<'a>,
    style: Style,
    digits: &'a mut Buffer,
) -> Option<(&'static str, &'a str)>
    ensures named { IfSome result (λ parts. IsNamed style node.entry (parts.0.now ++ parts.1.now)) }
    ensures none { (result ≡ None) ↔ ¬ CanWriteNode style (node_of node.entry) }
{
    match style {
        Style::Kept => match node {
            NodeRef::Label(label) => Some(("", label.as_str())),
            NodeRef::Anon(_) => None,
            NodeRef::Cell(_) => None,
        },
        Style::Tagged => match node {
            NodeRef::Label(label) => Some(("n", label.as_str())),
            NodeRef::Anon(offset) => Some(("a", digits.format(offset))),
            NodeRef::Cell(offset) => Some(("c", digits.format(offset))),
        },
    }
}

fn put_tail<A: Allocator + Copy>(
    tail: TailRef<'_>,
    escapes: Escapes,
    out: &mut Vec<u8, A>,
) -> Result<(), AllocError>
    ensures written { OnOk result (out.new.items ≡ out.old.items ++ tail_bytes escapes tail.entry) }
    ensures grown { OnErr result (BeginsWith out.old.items out.new.items) }
{
    match tail {
        TailRef::Lang(tag) => put_two("@", tag.as_str(), out),
        TailRef::Typed(datatype) => put_type(
            is_xsd_string(datatype.as_bytes()),
            datatype,
            escapes,
            out,
        ),
    }
}

/// Whether a datatype is xsd:string, which is not written.
#[inline(always)]
pub fn is_xsd_string(datatype: &[u8]) -> bool
    ensures { result ≡ bytes_eq datatype.now xsd_string }
{
    if datatype.len() != STRING_LEN {
        return false;
    }
    // The three spell xsd:string: the third stands at its end, and overlaps the second.
    let first = stand_at(b"http://www.w3.or", datatype, 0);
    let second = stand_at(b"g/2001/XMLSchema", datatype, 16);
    let third = stand_at(b"XMLSchema#string", datatype, 23);
    first & second & third
}

// Whether these sixteen bytes stand at a place, by one load.
#[inline(always)]
fn stand_at(these: &[u8], bytes: &[u8], at: usize) -> bool
    requires sixteen { length these.now ≡ 16 }
    requires inside { at + 16 ≤ length bytes.now }
    ensures { result ≡ bytes_eq (take 16 (drop at bytes.now)) these.now }
{
    let differs = u8x16::from_slice(&bytes[at..]).simd_ne(u8x16::from_slice(these));
    differs.to_bitmask() == 0
}

#[tactic(auto, using(crate::proofs::EncodedLine::encoded_type))]
fn put_type<A: Allocator + Copy>(
    plain: bool,
    datatype: IriView<'_>,
    escapes: Escapes,
    out: &mut Vec<u8, A>,
) -> Result<(), AllocError>
    ensures written { OnOk result (out.new.items ≡ out.old.items
        ++ encode_utf8_all (type_text escapes plain (iri_chars datatype.entry))) }
    ensures grown { OnErr result (BeginsWith out.old.items out.new.items) }
{
    if plain {
        return Ok(());
    }
    out.extend_from_slice(b"^^")?;
    put_iri(datatype, escapes, out)
}

#[inline(always)]
fn put_two<A: Allocator + Copy>(
    first: &str,
    second: &str,
    out: &mut Vec<u8, A>,
) -> Result<(), AllocError>
    ensures written { OnOk result (out.new.items ≡ out.old.items ++ (first.now ++ second.now)) }
    ensures grown { OnErr result (BeginsWith out.old.items out.new.items) }
{
    out.extend_from_slice(first.as_bytes())?;
    out.extend_from_slice(second.as_bytes())
}
