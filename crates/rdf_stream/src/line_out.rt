// The sink that hands lines on to a drain.

ghost use Rattle.std.specs.Prelude.{◌≡◌, ◌↔◌, [], ◌<◌, ◌≤◌, length, take, true, false, ℕ, is_err};
ghost use Rattle.std.specs.Prelude.{OnOk, OnErr, IfErr, IfOk};
ghost use Rattle.std.specs.Io.KnownBytes.{Appends};
ghost use Rattle.rdf_terms.specs.Views.{iris_quad, quad_of};
ghost use Rattle.rdf_lines.specs.Canonical.{without_crs, written_as};
ghost use Rattle.rdf_stream.specs.Converting.{Reports};
ghost use Rattle.rdf_stream.specs.Devices.{AppendsFront};
ghost use Rattle.rdf_stream.specs.Faults.{IsSentOn};
ghost use Rattle.rdf_tokens.specs.Scans.{token_of};
ghost use Rattle.rdf_stream.specs.LineOut.{Leaves, LeavesBytes, PutHalts, SameOut, Takes, TakesBytes, Writes};
ghost use Rattle.rdf_stream.specs.LineOut.{most_waiting};
ghost use Rattle.rdf_stream.specs.Outputs.{line_by, line_of, of_quads, output_of};
ghost use Rattle.rdf_stream.specs.Shows.{token_line};
ghost use Rattle.rdf_stream.specs.Passes.{RewritesText};
ghost use Rattle.rdf_stream.specs.WrittenForms.{keeps_lines};

use crate::devices::{Drain, Failed};
use crate::fault::StreamFault;
use crate::output::{OutputView, in_graph};
use crate::passes::Passes;
use crate::put::put_all;
use crate::token_line::put_token_line;
use crate::views::see_quad;
use crate::without_crs::put_without_crs;
use rdf_driver::Reader;
use rdf_lines::{Escapes, LabelFault, LineBuffer, LineEnding};
use rdf_terms::{IriView, PutFault, QuadRef, QuadSink};
use rdf_tokens::{Fault, Token};
use std::alloc::{AllocError, Allocator, Global};

/// The number of bytes that wait for the drain at most, once a line has been put.
const WAITING_LEN: usize = 65536;

/// Fewer bytes than these are copied after what waits, and more go to the drain as they stand.
const COPIED_LEN: usize = 4096;

/// Puts quads as they are.
struct AsItIs;

/// Puts quads in the graph that was asked for.
struct InGraph;

/// The lines of the quads that were put, in the graph that was asked for: the drain has their front, and the buffer
/// what waits for it. A put of a quad that the style can't write is refused, as one for which there is no memory.
#[derive(Drop)]
pub(crate) struct LineOut<'a, D: Drain, A: Allocator = Global> {
    form: OutputView<'a>,
    buffer: &'a mut LineBuffer<A>,
    drain: &'a mut D,
}

impl<'a, D: Drain, A: Allocator + Copy> LineOut<'a, D, A> {
    /// No line waits.
    pub(crate) fn new(
        form: OutputView<'a>,
        buffer: &'a mut LineBuffer<A>,
        drain: &'a mut D,
    ) -> LineOut<'a, D, A>
        ensures form { result.form ≡ form.entry }
        ensures buffer { result.buffer.now ≡ buffer.old }
        ensures same_buffer { result.buffer.ghost_name ≡ buffer.entry.ghost_name }
        ensures drain { result.drain.now ≡ drain.old }
        ensures same_drain { result.drain.ghost_name ≡ drain.entry.ghost_name }
    {
        LineOut {
            form,
            buffer,
            drain,
        }
    }

    /// Whether characters above U+007F are escaped.
    pub(crate) fn is_ascii(&self) -> bool {
        matches!(self.form.lines.escapes, Escapes::Ascii)
    }

    /// Whether plain lines stand in what is written as they are, where they are known to be ASCII or not.
    pub(crate) fn keeps_lines(&self, are_ascii: bool) -> bool
        ensures { result ≡ keeps_lines self.now.form are_ascii }
    {
        (are_ascii || matches!(self.form.lines.escapes, Escapes::Plain))
            && self.form.lines.prefix.as_str().is_empty()
            && self.form.graph.is_none()
    }

    /// Hands over all that waits. This is rare, and inlined into `put` it would cost each quad some instructions.
    #[inline(never)]
    pub(crate) fn hand_over(&mut self) -> Result<(), Failed>
        requires live { D.has_failed self.old.drain.now ≡ false }
        ensures same { SameOut self.old self.new }
        ensures empty { OnOk result (self.new.buffer.now ≡ []) }
        ensures ok { OnOk result (Appends (D.contents self.old.drain.now)
            (D.contents self.new.drain.now) self.old.buffer.now) }
        ensures err { OnErr result (AppendsFront (D.contents self.old.drain.now)
            (D.contents self.new.drain.now) self.old.buffer.now) }
        ensures failed { D.has_failed self.new.drain.now ≡ is_err result }
    {
        put_all(self.drain, self.buffer.as_slice())?;
        self.buffer.clear();
        Ok(())
    }

    /// Hands over all that waits, and sends it on.
    pub(crate) fn send(&mut self) -> Result<(), Failed>
        requires live { D.has_failed self.old.drain.now ≡ false }
        ensures same { SameOut self.old self.new }
        ensures ok { OnOk result (Appends (D.contents self.old.drain.now)
            (D.contents self.new.drain.now) self.old.buffer.now) }
        ensures flushed { OnOk result (D.is_flushed self.new.drain.now ≡ true) }
        ensures err { OnErr result (AppendsFront (D.contents self.old.drain.now)
            (D.contents self.new.drain.now) self.old.buffer.now) }
        ensures failed { D.has_failed self.new.drain.now ≡ is_err result }
    {
        self.hand_over()?;
        self.drain.flush()
    }

    /// Puts lines as they stand, but for the CRs of those that end in CR and LF.
    pub(crate) fn append(&mut self, lines: &[u8], ending: LineEnding) -> Result<(), StreamFault>
        requires live { D.has_failed self.old.drain.now ≡ false }
        ensures same { SameOut self.old self.new }
        ensures writes { OnOk result (Writes D.contents self.old (written_as ending lines.now) self.new) }
        ensures few { OnOk result (length self.old.buffer.now < most_waiting →
            length self.new.buffer.now < most_waiting) }
        ensures live { OnOk result (D.has_failed self.new.drain.now ≡ false) }
        ensures halts { IfErr result (λ reported.
            PutHalts D.contents D.has_failed reported self.old (written_as ending lines.now) self.new) }
    {
        match ending {
            LineEnding::Lf => self.append_as_is(lines),
            LineEnding::CrLf => self.append_without_crs(lines),
        }
    }

    /// Passes lines with any escapes. What is written for them waits, also where memory is refused for more.
    pub(crate) fn pass_escaped<G: Passes<A>>(
        &mut self,
        reader: &mut Reader<G, A>,
        text: &str,
        ending: LineEnding,
    ) -> Result<usize, AllocError>
        ensures within { IfOk result (λ n. n ≤ length text.now) }
        ensures same { SameOut self.old self.new }
        ensures drain { self.new.drain.now ≡ self.old.drain.now }
        ensures passes { IfOk result (λ n. RewritesText G.words G.style reader.old
            (take n text.now) reader.new self.old.buffer.now self.new.buffer.now) }
        ensures refused { OnErr result ((n : ℕ)
            × RewritesText G.words G.style reader.old
            (take n text.now) reader.new self.old.buffer.now self.new.buffer.now) }
    {
        G::pass_escaped(reader, text, ending, self.buffer)
    }

    /// Hands over what waits, where that is much.
    pub(crate) fn settle(&mut self) -> Result<(), StreamFault>
        requires live { D.has_failed self.old.drain.now ≡ false }
        ensures same { SameOut self.old self.new }
        ensures writes { OnOk result (Writes D.contents self.old [] self.new) }
        ensures live { OnOk result (D.has_failed self.new.drain.now ≡ false) }
        ensures halts { IfErr result (λ reported. PutHalts D.contents D.has_failed reported self.old [] self.new) }
    {
        if self.buffer.len() < WAITING_LEN {
            return Ok(());
        }
        match self.hand_over() {
            Ok(()) => Ok(()),
            Err(Failed) => Err(StreamFault::Write),
        }
    }

    // Copies lines without their CRs after those that wait, and hands them over where they are many then.
    fn append_without_crs(&mut self, lines: &[u8]) -> Result<(), StreamFault>
        requires live { D.has_failed self.old.drain.now ≡ false }
        ensures same { SameOut self.old self.new }
        ensures writes { OnOk result (Writes D.contents self.old (without_crs lines.now) self.new) }
        ensures few { OnOk result (length self.old.buffer.now < most_waiting →
            length self.new.buffer.now < most_waiting) }
        ensures live { OnOk result (D.has_failed self.new.drain.now ≡ false) }
        ensures halts { IfErr result (λ reported.
            PutHalts D.contents D.has_failed reported self.old (without_crs lines.now) self.new) }
    {
        match put_without_crs(lines, self.buffer) {
            Ok(()) => {}
            Err(_) => return Err(handed_over(self)),
        }
        if WAITING_LEN <= self.buffer.len() {
            return match self.hand_over() {
                Ok(()) => Ok(()),
                Err(Failed) => Err(StreamFault::Write),
            };
        }
        Ok(())
    }

    // Puts lines as they stand.
    fn append_as_is(&mut self, lines: &[u8]) -> Result<(), StreamFault>
        requires live { D.has_failed self.old.drain.now ≡ false }
        ensures same { SameOut self.old self.new }
        ensures writes { OnOk result (Writes D.contents self.old lines.now self.new) }
        ensures few { OnOk result (length self.old.buffer.now < most_waiting →
            length self.new.buffer.now < most_waiting) }
        ensures live { OnOk result (D.has_failed self.new.drain.now ≡ false) }
        ensures halts { IfErr result (λ reported.
            PutHalts D.contents D.has_failed reported self.old lines.now self.new) }
    {
        if lines.len() < COPIED_LEN {
            return self.copy(lines);
        }
        match self.hand_over() {
            Ok(()) => {}
            Err(Failed) => return Err(StreamFault::Write),
        }
        match put_all(self.drain, lines) {
            Ok(()) => Ok(()),
            Err(Failed) => Err(StreamFault::Write),
        }
    }

    // Copies lines after those that wait, and hands them over where they are many then.
    fn copy(&mut self, lines: &[u8]) -> Result<(), StreamFault>
        requires live { D.has_failed self.old.drain.now ≡ false }
        ensures same { SameOut self.old self.new }
        ensures writes { OnOk result (Writes D.contents self.old lines.now self.new) }
        ensures few { OnOk result (length self.old.buffer.now < most_waiting →
            length self.new.buffer.now < most_waiting) }
        ensures live { OnOk result (D.has_failed self.new.drain.now ≡ false) }
        ensures halts { IfErr result (λ reported.
            PutHalts D.contents D.has_failed reported self.old lines.now self.new) }
    {
        match self.buffer.append(lines) {
            Ok(()) => {}
            Err(_) => return Err(handed_over(self)),
        }
        if WAITING_LEN <= self.buffer.len() {
            return match self.hand_over() {
                Ok(()) => Ok(()),
                Err(Failed) => Err(StreamFault::Write),
            };
        }
        Ok(())
    }

    // Puts the line of a quad as it is, for a caller that names itself. With its drain it is one of a kind, so that the
    // line buffer's code for it has one caller.
    #[inline(always)]
    fn put_line<C>(&mut self, quad: &QuadRef<'_>) -> Result<(), PutFault>
        requires live { D.has_failed self.old.drain.now ≡ false }
        ensures taken { OnOk result (TakesBytes D.contents D.has_failed self.old
            (line_of self.old.form.lines quad.now) self.new) }
        ensures left { OnErr result (LeavesBytes D.contents D.has_failed self.old
            (line_of self.old.form.lines quad.now) self.new) }
        ensures device { (D.has_failed self.new.drain.now ≡ true) ↔ (result ≡ Err PutFault.Device) }
    {
        match self.buffer.put_line_for::<(C, D)>(quad, self.form.lines) {
            Ok(()) => {}
            // No reader gives a quad that its style can't write. If one did, it would end the run.
            Err(LabelFault::NotLabelled) => return Err(PutFault::Memory),
            Err(LabelFault::Memory) => return Err(PutFault::Memory),
        }
        if self.buffer.len() < WAITING_LEN {
            return Ok(());
        }
        match self.hand_over() {
            Ok(()) => Ok(()),
            Err(Failed) => Err(PutFault::Device),
        }
    }

    // Puts the line of a quad as it is. Most lines are short.
    #[inline(always)]
    fn put_as_it_is(&mut self, quad: &QuadRef<'_>) -> Result<(), PutFault>
        requires live { D.has_failed self.old.drain.now ≡ false }
        ensures taken { OnOk result (TakesBytes D.contents D.has_failed self.old
            (line_of self.old.form.lines quad.now) self.new) }
        ensures left { OnErr result (LeavesBytes D.contents D.has_failed self.old
            (line_of self.old.form.lines quad.now) self.new) }
        ensures device { (D.has_failed self.new.drain.now ≡ true) ↔ (result ≡ Err PutFault.Device) }
    {
        if !self.buffer.put_short(quad, self.form.lines) {
            return self.put_long(quad);
        }
        if self.buffer.len() < WAITING_LEN {
            return Ok(());
        }
        match self.hand_over() {
            Ok(()) => Ok(()),
            Err(Failed) => Err(PutFault::Device),
        }
    }

    // Puts a line of any length.
    #[inline(never)]
    fn put_long(&mut self, quad: &QuadRef<'_>) -> Result<(), PutFault>
        requires live { D.has_failed self.old.drain.now ≡ false }
        ensures taken { OnOk result (TakesBytes D.contents D.has_failed self.old
            (line_of self.old.form.lines quad.now) self.new) }
        ensures left { OnErr result (LeavesBytes D.contents D.has_failed self.old
            (line_of self.old.form.lines quad.now) self.new) }
        ensures device { (D.has_failed self.new.drain.now ≡ true) ↔ (result ≡ Err PutFault.Device) }
    {
        self.put_line::<AsItIs>(quad)
    }

    // Puts the line of three IRIs in the default graph as it is. What most lines take is here without a call.
    #[inline(always)]
    fn put_line_of_iris(
        &mut self,
        subject: IriView<'_>,
        predicate: IriView<'_>,
        object: IriView<'_>,
    ) -> Result<(), PutFault>
        requires live { D.has_failed self.old.drain.now ≡ false }
        ensures taken { OnOk result (TakesBytes D.contents D.has_failed self.old
            (line_of self.old.form.lines (iris_quad subject.entry predicate.entry object.entry)) self.new) }
        ensures left { OnErr result (LeavesBytes D.contents D.has_failed self.old
            (line_of self.old.form.lines (iris_quad subject.entry predicate.entry object.entry)) self.new) }
        ensures device { (D.has_failed self.new.drain.now ≡ true) ↔ (result ≡ Err PutFault.Device) }
    {
        let lines = self.form.lines;
        if !self
            .buffer
            .put_short_iris(subject, predicate, object, lines)
        {
            return self.put_long_iris(subject, predicate, object);
        }
        if self.buffer.len() < WAITING_LEN {
            return Ok(());
        }
        match self.hand_over() {
            Ok(()) => Ok(()),
            Err(Failed) => Err(PutFault::Device),
        }
    }

    // Puts the line of three IRIs of any length.
    #[inline(never)]
    fn put_long_iris(
        &mut self,
        subject: IriView<'_>,
        predicate: IriView<'_>,
        object: IriView<'_>,
    ) -> Result<(), PutFault>
        requires live { D.has_failed self.old.drain.now ≡ false }
        ensures taken { OnOk result (TakesBytes D.contents D.has_failed self.old
            (line_of self.old.form.lines (iris_quad subject.entry predicate.entry object.entry)) self.new) }
        ensures left { OnErr result (LeavesBytes D.contents D.has_failed self.old
            (line_of self.old.form.lines (iris_quad subject.entry predicate.entry object.entry)) self.new) }
        ensures device { (D.has_failed self.new.drain.now ≡ true) ↔ (result ≡ Err PutFault.Device) }
    {
        match self
            .buffer
            .put_iris(subject, predicate, object, self.form.lines)
        {
            Ok(()) => {}
            Err(_) => return Err(PutFault::Memory),
        }
        if self.buffer.len() < WAITING_LEN {
            return Ok(());
        }
        match self.hand_over() {
            Ok(()) => Ok(()),
            Err(Failed) => Err(PutFault::Device),
        }
    }

    // Puts the line of a quad in the graph that was asked for. It stands apart, so that a put without one is no longer
    // for it.
    #[inline(never)]
    fn put_in_graph(&mut self, quad: &QuadRef<'_>) -> Result<(), PutFault>
        requires live { D.has_failed self.old.drain.now ≡ false }
        ensures taken { OnOk result (TakesBytes D.contents D.has_failed self.old
            (line_by (output_of self.old.form) (quad_of quad.now)) self.new) }
        ensures left { OnErr result (LeavesBytes D.contents D.has_failed self.old
            (line_by (output_of self.old.form) (quad_of quad.now)) self.new) }
        ensures device { (D.has_failed self.new.drain.now ≡ true) ↔ (result ≡ Err PutFault.Device) }
    {
        self.put_line::<InGraph>(&in_graph(quad, self.form.graph))
    }

    // The same of three IRIs.
    #[inline(never)]
    fn put_iris_in_graph(
        &mut self,
        subject: IriView<'_>,
        predicate: IriView<'_>,
        object: IriView<'_>,
    ) -> Result<(), PutFault>
        requires live { D.has_failed self.old.drain.now ≡ false }
        ensures taken { OnOk result (TakesBytes D.contents D.has_failed self.old
            (line_by (output_of self.old.form) (quad_of (iris_quad subject.entry predicate.entry object.entry)))
            self.new) }
        ensures left { OnErr result (LeavesBytes D.contents D.has_failed self.old
            (line_by (output_of self.old.form) (quad_of (iris_quad subject.entry predicate.entry object.entry)))
            self.new) }
        ensures device { (D.has_failed self.new.drain.now ≡ true) ↔ (result ≡ Err PutFault.Device) }
    {
        self.put_in_graph(&QuadRef::of_iris(subject, predicate, object))
    }

    /// Puts the line of a token.
    #[inline(always)]
    pub(crate) fn put_token(&mut self, token: Token<'_>) -> Result<(), PutFault>
        requires live { D.has_failed self.old.drain.now ≡ false }
        ensures taken { OnOk result (TakesBytes D.contents D.has_failed self.old
            (token_line (token_of token.entry)) self.new) }
        ensures left { OnErr result (LeavesBytes D.contents D.has_failed self.old
            (token_line (token_of token.entry)) self.new) }
        ensures device { (D.has_failed self.new.drain.now ≡ true) ↔ (result ≡ Err PutFault.Device) }
    {
        match put_token_line(token, self.buffer) {
            Ok(()) => {}
            Err(_) => return Err(PutFault::Memory),
        }
        if WAITING_LEN <= self.buffer.len() {
            return match self.hand_over() {
                Ok(()) => Ok(()),
                Err(Failed) => Err(PutFault::Device),
            };
        }
        Ok(())
    }
}

impl<'a, D: Drain, A: Allocator + Copy> QuadSink for LineOut<'a, D, A> {
    ghost takes = { λ before quad after. Takes of_quads D.contents D.has_failed before quad after };

    ghost leaves = { λ before quad after. Leaves of_quads D.contents D.has_failed before quad after };

    ghost has_failed = { λ sink. D.has_failed sink.drain.now };

    fn put(&mut self, quad: &QuadRef<'_>) -> Result<(), PutFault> {
        see_quad(quad);
        if self.form.graph.is_none() {
            return self.put_as_it_is(quad);
        }
        self.put_in_graph(quad)
    }

    // A call, whose arguments are in registers. What most lines take calls nothing, and no call here is lent a
    // quad, which would be made up in memory first (`see_quad` is gone once it is compiled). So few registers are
    // saved.
    #[inline(never)]
    fn put_iris(
        &mut self,
        subject: IriView<'_>,
        predicate: IriView<'_>,
        object: IriView<'_>,
    ) -> Result<(), PutFault> {
        see_quad(&QuadRef::of_iris(subject, predicate, object));
        if self.form.graph.is_none() {
            return self.put_line_of_iris(subject, predicate, object);
        }
        self.put_iris_in_graph(subject, predicate, object)
    }

    fn failed(&self) -> bool {
        self.drain.failed()
    }
}

/// Hands over what waits where no memory was left, sends it on, and says what is reported of it.
pub(crate) fn handed_over<A: Allocator + Copy, D: Drain>(
    lines: &mut LineOut<'_, D, A>,
) -> StreamFault
    requires live { D.has_failed lines.old.drain.now ≡ false }
    ensures same { SameOut lines.old lines.new }
    ensures halts { PutHalts D.contents D.has_failed result lines.old [] lines.new }
{
    let sent = lines.send();
    match sent {
        Ok(()) => StreamFault::Memory,
        Err(Failed) => StreamFault::Write,
    }
}

/// Hands over what waits, sends it on, and says what is reported of the reader's fault: a failure of the drain
/// comes first.
pub(crate) fn stop<A: Allocator + Copy, D: Drain>(
    fault: Fault,
    lines: &mut LineOut<'_, D, A>,
) -> StreamFault
    ensures same { SameOut lines.old lines.new }
    ensures reports { Reports D.contents D.has_failed fault result lines.old lines.new }
    ensures sent { IsSentOn result (D.is_flushed lines.new.drain.now) }
{
    if lines.failed() {
        return StreamFault::Write;
    }
    match lines.send() {
        Ok(()) => StreamFault::from(fault),
        Err(Failed) => StreamFault::Write,
    }
}
