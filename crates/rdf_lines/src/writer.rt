// The line that is written for a quad, and the text of a blank node (N-Quads 4).

mod at_once;
mod characters;
mod digits;
mod escape;
mod line;
mod room;
mod short;
mod string;
mod term;
pub(crate) mod writable;

ghost use Rattle.std.specs.Prelude.{◌≡◌, ◌↔◌, ◌∷◌, ◌++◌, ◌≤◌, chars, encode_utf8_all, length, string_bytes, None, IfOk};
ghost use Rattle.std.specs.Prelude.{IfSome, OnErr, OnOk};
ghost use Rattle.std.specs.Result.{IsErrOf};
ghost use Rattle.rdf_terms.specs.Views.{iris_quad, node_of, quad_of};
ghost use Rattle.rdf_lines.specs.declared.form.Escapes.TheVariants.{Plain};
ghost use Rattle.rdf_lines.specs.Forms.{form_of};
ghost use Rattle.rdf_lines.specs.NodePrefixes.{line_in};
ghost use Rattle.rdf_lines.specs.Placing.{KeptFront, WrittenAt};
ghost use Rattle.rdf_lines.specs.WrittenBytes.{line_bytes};
ghost use Rattle.rdf_lines.specs.Writing.{CanWrite, CanWriteNode, line, node_text, rename_node};

use crate::form::{Escapes, Style, WrittenForm};
use at_once::{put_at_once, put_few_at_once, put_iris_at_once};
use itoa::Buffer;
use line::put_in_parts;
use rdf_terms::{IriView, NodeRef, QuadRef};
use room::{short_iris, short_room};
pub(crate) use short::put_short;
use std::alloc::{AllocError, Allocator};
use term::letter_and_name;
use writable::can_write;

/// Why a quad or a node was not written.
#[derive(Clone, Copy, PartialEq, Eq, Debug)]
pub enum LabelFault {
    /// The style writes labels as they are, and a node has none.
    NotLabelled,
    /// A growth of memory was refused.
    Memory,
}

/// Who puts a line, where nobody names himself. See `LineBuffer::put_line_for`.
pub struct Usual;

impl From<AllocError> for LabelFault {
    ghost use Rattle.std.specs.Prelude.{◌≡◌};
    ghost use Rattle.rdf_lines.specs.declared.writer.LabelFault.TheVariants.{Memory};

    ghost from_gives = { λ _ fault. fault ≡ Memory };

    fn from(_: AllocError) -> LabelFault {
        LabelFault::Memory
    }
}

/// Appends the line of a quad in N-Quads, with its LF: each part and a space, then a dot. In strings `"`, `\`,
/// LF and CR are escaped, and xsd:string is not written. In ASCII the characters above U+007F of strings and IRIs are
/// escaped too, and those of labels stay.
pub fn write_line<A: Allocator + Copy>(
    quad: &QuadRef<'_>,
    style: Style,
    escapes: Escapes,
    out: &mut Vec<u8, A>,
) -> Result<(), LabelFault>
    ensures written { OnOk result (out.new.items ≡ out.old.items
        ++ encode_utf8_all (line style escapes (quad_of quad.now))) }
    ensures unchanged { OnErr result (out.new.items ≡ out.old.items) }
    ensures not_labelled { IsErrOf result LabelFault.NotLabelled ↔ ¬ CanWrite style (quad_of quad.now) }
{
    let form = WrittenForm::new(style, escapes);
    write_line_in(quad, form, out)
}

/// The same, with a word in front of each node's name, after its `_:`. Without characters it is what `write_line`
/// appends.
pub fn write_line_in<A: Allocator + Copy>(
    quad: &QuadRef<'_>,
    form: WrittenForm<'_>,
    out: &mut Vec<u8, A>,
) -> Result<(), LabelFault>
    ensures written { OnOk result (out.new.items ≡ out.old.items
        ++ encode_utf8_all (line_in (form_of form.entry) (quad_of quad.now))) }
    ensures unchanged { OnErr result (out.new.items ≡ out.old.items) }
    ensures not_labelled { IsErrOf result LabelFault.NotLabelled ↔ ¬ CanWrite form.entry.style (quad_of quad.now) }
{
    let start = out.len();
    match put_quad::<Usual, A>(quad, &form, start, out) {
        Ok(end) => {
            out.truncate(end);
            Ok(())
        }
        Err(fault) => {
            out.truncate(start);
            Err(fault)
        }
    }
}

/// Puts the line of a quad after the first `at` bytes, and answers where it ends; what stands after that is not
/// said. After an error too the first `at` bytes are as they were.
#[inline(always)]
pub(crate) fn put_quad<C, A: Allocator + Copy>(
    quad: &QuadRef<'_>,
    form: &WrittenForm<'_>,
    at: usize,
    out: &mut Vec<u8, A>,
) -> Result<usize, LabelFault>
    requires { at ≤ length out.old.items }
    ensures written { IfOk result (λ end.
        WrittenAt out.old.items out.new.items at (line_bytes (form_of form.now) quad.now) end) }
    ensures kept { OnErr result (KeptFront out.old.items out.new.items at) }
    ensures not_labelled { IsErrOf result LabelFault.NotLabelled ↔ ¬ CanWrite form.now.style (quad_of quad.now) }
{
    if !can_write(quad, form.style) {
        return Err(LabelFault::NotLabelled);
    }
    let end = match form.escapes {
        Escapes::Plain => put_plain::<C, A>(quad, form, at, out)?,
        Escapes::Ascii => put_apart(quad, form, at, out)?,
    };
    Ok(end)
}

// At once where the texts are short, as most are. This is too large for LLVM to take a mark for it, so it stands in
// its caller only where it is called once: hence an instance for each.
#[inline(always)]
fn put_plain<C, A: Allocator + Copy>(
    quad: &QuadRef<'_>,
    form: &WrittenForm<'_>,
    at: usize,
    out: &mut Vec<u8, A>,
) -> Result<usize, AllocError>
    requires at { at ≤ length out.old.items }
    requires plain { form.now.escapes ≡ Plain }
    ensures written { IfOk result (λ end.
        WrittenAt out.old.items out.new.items at (line_bytes (form_of form.now) quad.now) end) }
    ensures kept { OnErr result (KeptFront out.old.items out.new.items at) }
{
    match short_room(quad, form.prefix.as_str()) {
        Some(room) => put_at_once::<C, A>(quad, form, room, at, out),
        None => put_apart(quad, form, at, out),
    }
}

/// Puts the line of the quad of three IRIs in the default graph, as `put_quad` does; each style can write it. The texts
/// stay in registers, where the parts of a quad that is lent stand in memory.
#[inline(always)]
pub(crate) fn put_iris<A: Allocator + Copy>(
    subject: IriView<'_>,
    predicate: IriView<'_>,
    object: IriView<'_>,
    form: &WrittenForm<'_>,
    at: usize,
    out: &mut Vec<u8, A>,
) -> Result<usize, AllocError>
    requires { at ≤ length out.old.items }
    ensures written { IfOk result (λ end. WrittenAt out.old.items out.new.items at
        (line_bytes (form_of form.now) (iris_quad subject.entry predicate.entry object.entry)) end) }
    ensures kept { OnErr result (KeptFront out.old.items out.new.items at) }
{
    if let Escapes::Plain = form.escapes {
        if let Some(room) = short_iris(subject, predicate, object) {
            return put_iris_at_once(subject, predicate, object, room, at, out);
        }
    }
    put_apart(&QuadRef::of_iris(subject, predicate, object), form, at, out)
}

/// What `put_iris` does in the plain form, where each text is short and the bytes have room for any such line. Else
/// it puts nothing. It calls nothing.
#[inline(always)]
pub(crate) fn put_short_iris(
    subject: IriView<'_>,
    predicate: IriView<'_>,
    object: IriView<'_>,
    form: &WrittenForm<'_>,
    at: usize,
    slot: &mut [u8],
) -> Option<usize>
    requires { at ≤ length slot.old }
    ensures written { IfSome result (λ end. WrittenAt slot.old slot.new at
        (line_bytes (form_of form.now) (iris_quad subject.entry predicate.entry object.entry)) end) }
    ensures unchanged { result ≡ None → slot.new ≡ slot.old }
{
    match form.escapes {
        Escapes::Plain => put_few_at_once(subject, predicate, object, at, slot),
        Escapes::Ascii => None,
    }
}

// Part by part, since in ASCII each may have escapes. What stood after the first `at` bytes is cut off.
fn put_apart<A: Allocator + Copy>(
    quad: &QuadRef<'_>,
    form: &WrittenForm<'_>,
    at: usize,
    out: &mut Vec<u8, A>,
) -> Result<usize, AllocError>
    requires { at ≤ length out.old.items }
    ensures written { IfOk result (λ end.
        WrittenAt out.old.items out.new.items at (line_bytes (form_of form.now) quad.now) end) }
    ensures kept { OnErr result (KeptFront out.old.items out.new.items at) }
{
    out.truncate(at);
    put_in_parts(quad, form, out)?;
    Ok(out.len())
}

/// The text of a blank node with its `_:`, as `write_line` writes it.
pub fn label_text<A: Allocator + Copy>(
    alloc: A,
    node: NodeRef<'_>,
    style: Style,
) -> Result<String<A>, LabelFault>
    ensures text { IfOk result (λ text.
        chars (string_bytes text) ≡ node_text (rename_node style (node_of node.entry))) }
    ensures not_labelled { IsErrOf result LabelFault.NotLabelled ↔ ¬ CanWriteNode style (node_of node.entry) }
{
    let mut digits = Buffer::new();
    match letter_and_name(node, style, &mut digits) {
        None => Err(LabelFault::NotLabelled),
        Some((letter, name)) => Ok(joined(alloc, letter, name)?),
    }
}

// `_:` and a label in two parts.
fn joined<A: Allocator + Copy>(alloc: A, letter: &str, name: &str) -> Result<String<A>, AllocError>
    ensures { IfOk result (λ text. string_bytes text ≡ 95 ∷ 58 ∷ (letter.now ++ name.now)) }
{
    let mut text = String::from_str(alloc, "_:")?;
    text.push_str(letter)?;
    text.push_str(name)?;
    Ok(text)
}
