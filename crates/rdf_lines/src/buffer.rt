// Lines in memory that is filled once and used again.

ghost use Rattle.std.specs.Prelude.{◌≡◌, ◌↔◌, ◌≤◌, ◌++◌, [], length, take, true, false, encode_utf8_all, IfOk, OnErr};
ghost use Rattle.std.specs.Prelude.{OnOk};
ghost use Rattle.std.specs.Result.{IsErrOf};
ghost use Rattle.rdf_terms.specs.Views.{iris_quad, quad_of};
ghost use Rattle.rdf_lines.specs.Escaped.{PassesInto};
ghost use Rattle.rdf_lines.specs.Forms.{form_of};
ghost use Rattle.rdf_lines.specs.NodePrefixes.{line_in};
ghost use Rattle.rdf_lines.specs.Writing.{CanWrite};

use crate::canonical::end_tokens;
use crate::escaped::{EscapedLine, Unpassed, Values, escaped_line};
use crate::form::{Escapes, LineEnding, Style, WrittenForm};
use crate::grammar::LineGrammar;
use crate::writer::{LabelFault, Usual, put_iris, put_quad, put_short, put_short_iris};
use rdf_driver::Reader;
use rdf_terms::place::place_all;
use rdf_terms::{IriView, QuadRef};
use std::alloc::{AllocError, Allocator, Global};
use std::marker::Model;

/// Where more bytes than these were filled, `clear` gives memory back.
const LONG_LEN: usize = 8_388_608;

/// How many bytes it keeps then.
const KEPT_LEN: usize = 1_048_576;

/// The bytes of lines, in order. It differs from a vector of bytes in cost alone: what `clear` and `truncate` take
/// away stays in memory, and the next line is placed over it, so that no memory has to be filled for it first.
#[derive(Drop)]
pub struct LineBuffer<A: Allocator = Global> {
    bytes: Vec<u8, A>,
    len: usize,
    values: Values<A>,
}

impl<A: Allocator> Model for LineBuffer<A> {
    ghost use Rattle.std.specs.Prelude.{ℕ, ◌≤◌, List, length, take};

    ghost Value = { List ℕ };

    ghost view = { λ b. take b.len b.bytes.items };

    ghost invariant = { λ b. b.len ≤ length b.bytes.items };
}

impl<A: Allocator + Copy> LineBuffer<A> {
    /// No lines. It takes no memory.
    pub fn new(alloc: A) -> LineBuffer<A>
        ensures { result ≡ [] }
    {
        LineBuffer {
            bytes: Vec::new(alloc),
            len: 0,
            values: Values::new(alloc),
        }
    }

    /// How many bytes the lines have.
    #[inline(always)]
    pub fn len(&self) -> usize
        ensures { result ≡ length self.now }
    {
        self.len
    }

    /// The bytes of the lines.
    pub fn as_slice(&self) -> &[u8]
        ensures { result.now ≡ self.now }
    {
        &self.bytes.as_slice()[..self.len]
    }

    /// Takes all bytes away. Their memory stays; where more than 8 MiB of it were filled, all but a MiB is given back.
    pub fn clear(&mut self)
        ensures { self.new ≡ [] }
    {
        self.len = 0;
        if self.bytes.len() > LONG_LEN {
            self.bytes.truncate(KEPT_LEN);
            self.bytes.shrink_to(KEPT_LEN);
        }
    }

    /// Takes away what comes after the first `len` bytes. Its memory stays.
    pub fn truncate(&mut self, len: usize)
        requires { len ≤ length self.old }
        ensures { self.new ≡ take len self.old }
    {
        self.len = len;
    }

    /// Appends bytes. Where a growth of memory is refused, it appends nothing.
    pub fn append(&mut self, bytes: &[u8]) -> Result<(), AllocError>
        ensures appended { OnOk result (self.new ≡ self.old ++ bytes.now) }
        ensures unchanged { OnErr result (self.new ≡ self.old) }
    {
        if bytes.len() <= self.bytes.len() - self.len {
            self.len = place_all(self.bytes.as_mut_slice(), self.len, bytes);
            return Ok(());
        }
        self.bytes.truncate(self.len);
        self.bytes.extend_from_slice(bytes)?;
        self.len = self.bytes.len();
        Ok(())
    }

    /// Appends the line of a quad in N-Quads, as `write_line_in` does. After an error the lines are as they were.
    #[inline(always)]
    pub fn put_line(&mut self, quad: &QuadRef<'_>, form: WrittenForm<'_>) -> Result<(), LabelFault>
        ensures written { OnOk result (self.new ≡ self.old
            ++ encode_utf8_all (line_in (form_of form.entry) (quad_of quad.now))) }
        ensures unchanged { OnErr result (self.new ≡ self.old) }
        ensures not_labelled { IsErrOf result LabelFault.NotLabelled ↔ ¬ CanWrite form.entry.style (quad_of quad.now) }
    {
        self.put_line_for::<Usual>(quad, form)
    }

    /// What `put_line` does, for a caller that names itself by a type. Each such type has machine code of its own,
    /// which stands in the caller where that is the only one to name it: a program that puts lines in two places
    /// calls this in one of them.
    #[inline(always)]
    pub fn put_line_for<C>(
        &mut self,
        quad: &QuadRef<'_>,
        form: WrittenForm<'_>,
    ) -> Result<(), LabelFault>
        ensures written { OnOk result (self.new ≡ self.old
            ++ encode_utf8_all (line_in (form_of form.entry) (quad_of quad.now))) }
        ensures unchanged { OnErr result (self.new ≡ self.old) }
        ensures not_labelled { IsErrOf result LabelFault.NotLabelled ↔ ¬ CanWrite form.entry.style (quad_of quad.now) }
    {
        self.len = put_quad::<C, A>(quad, &form, self.len, &mut self.bytes)?;
        Ok(())
    }

    /// What `put_line` does, for the quad of three IRIs in the default graph, which each style can write.
    #[inline(always)]
    pub fn put_iris(
        &mut self,
        subject: IriView<'_>,
        predicate: IriView<'_>,
        object: IriView<'_>,
        form: WrittenForm<'_>,
    ) -> Result<(), AllocError>
        ensures written { OnOk result (self.new ≡ self.old ++ encode_utf8_all (line_in (form_of form.entry)
            (quad_of (iris_quad subject.entry predicate.entry object.entry)))) }
        ensures unchanged { OnErr result (self.new ≡ self.old) }
    {
        self.len = put_iris(subject, predicate, object, &form, self.len, &mut self.bytes)?;
        Ok(())
    }

    /// What `put_iris` does in the plain form, where each text is short and memory for the longest line of such is
    /// filled. Else it puts nothing. It calls nothing, so that a function that does without other calls too saves
    /// no registers.
    #[inline(always)]
    pub fn put_short_iris(
        &mut self,
        subject: IriView<'_>,
        predicate: IriView<'_>,
        object: IriView<'_>,
        form: WrittenForm<'_>,
    ) -> bool
        ensures written { result ≡ true → self.new ≡ self.old ++ encode_utf8_all (line_in (form_of form.entry)
            (quad_of (iris_quad subject.entry predicate.entry object.entry))) }
        ensures unchanged { result ≡ false → self.new ≡ self.old }
    {
        let slot = self.bytes.as_mut_slice();
        match put_short_iris(subject, predicate, object, &form, self.len, slot) {
            Some(end) => {
                self.len = end;
                true
            }
            None => false,
        }
    }

    /// What `put_line` does in the plain form, where each text has at most 64 bytes, no word stands in front of a
    /// node's name, and memory for the longest line of such is filled. Else it appends nothing. It takes no memory.
    #[inline(always)]
    pub fn put_short(&mut self, quad: &QuadRef<'_>, form: WrittenForm<'_>) -> bool
        ensures written { result ≡ true → self.new ≡ self.old
            ++ encode_utf8_all (line_in (form_of form.entry) (quad_of quad.now)) }
        ensures unchanged { result ≡ false → self.new ≡ self.old }
    {
        let Some(end) = put_short(quad, &form, self.len, self.bytes.as_mut_slice()) else {
            return false;
        };
        self.len = end;
        true
    }

    /// Passes the line that the text begins with, as `pass_escaped` does, and answers how many bytes it has, or
    /// none. Where memory is refused, it is not passed.
    pub(crate) fn pass_line(
        &mut self,
        reader: &mut Reader<LineGrammar<A>, A>,
        text: &str,
        ending: LineEnding,
    ) -> Result<usize, AllocError>
        ensures within { IfOk result (λ n. n ≤ length text.now) }
        ensures passes { IfOk result (λ n. PassesInto reader.old (take n text.now) reader.new self.old self.new) }
        ensures refused { OnErr result ((reader.new ≡ reader.old) × (self.new ≡ self.old)) }
    {
        if !reader.can_pass(text.len()) {
            return Ok(0);
        }
        let rules = match reader.grammar().rules_at(text.len() as u64) {
            Some(rules) => rules,
            None => return Ok(0),
        };
        let line = match escaped_line(text, ending, rules, &mut self.values) {
            Ok(line) => line,
            Err(Unpassed::Other) => return Ok(0),
            Err(Unpassed::Memory) => return Err(AllocError),
        };
        let tokens = line.tokens + end_tokens(ending);
        let passed = text.len() - line.rest.len();
        let form = WrittenForm::new(Style::Kept, Escapes::Plain);
        match put_quad::<EscapedLine<'static>, A>(&line.quad, &form, self.len, &mut self.bytes) {
            Ok(end) => self.len = end,
            Err(LabelFault::NotLabelled) => return Ok(0),
            Err(LabelFault::Memory) => return Err(AllocError),
        }
        reader.pass(&text.as_bytes()[..passed], 1, tokens);
        Ok(passed)
    }
}
