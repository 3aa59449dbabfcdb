// Documents in pieces, read by the reader of their form. Only here is a reader made and dropped, since its many
// parts are dear to prove: where a scope ends they are dropped one by one in the function itself, but `drop` is a
// call, and the parts are proved once.

ghost use Rattle.std.specs.Prelude.{◌≡◌, Bool, true, false, OnOk, OnErr};

use rdf_driver::{Fault, Kinds, Summary};
use rdf_iri::Limits;
use rdf_lines::{LineForm, LineReader};
use rdf_terms::{Kind, QuadSink, Reason};
use rdf_trig::{DocForm, Options, TrigReader};
use std::alloc::Allocator;

/// The form of a document, which says by which reader it is read.
#[derive(Clone, Copy, Debug)]
pub enum Form {
    Lines(LineForm),
    Statements(DocForm),
}

/// Bytes that come in one piece, so many times.
#[derive(Clone, Copy)]
pub struct Piece<'a>(pub &'a [u8], pub u32);

/// A document: its pieces, and after them bytes that come one by one.
#[derive(Clone, Copy)]
pub struct Document<'a> {
    pub pieces: &'a [Piece<'a>],
    pub rest: &'a [u8],
}

/// What came of reading a document.
#[derive(Clone, Copy)]
pub struct Report {
    pub answer: Result<Summary, Fault>,
    /// How many bytes were held when all had come, or when it was refused.
    pub held: u64,
    /// The kinds of which a token could come next then.
    pub expected: Kinds,
    /// The kind of the token that is refused, if it is unexpected.
    pub found: Option<Kind>,
    /// Whether the calls after the last one report that reading has ended.
    pub has_ended: bool,
}

/// What comes after the end.
const MORE: &[u8] = b"<a:s> <a:p> <a:o> .\n";

fn is_ended(fault: Option<Fault>) -> bool {
    match fault {
        Some(fault) => fault.reason == Reason::Ended,
        None => false,
    }
}

/// A reader of documents that come in pieces.
trait PieceReader {
    /// Whether a call has failed, or the end was read.
    ghost is_done: { Self → Bool };

    fn feed<S: QuadSink>(&mut self, piece: &[u8], sink: &mut S) -> Result<(), Fault>
        requires { is_done self.old ≡ false → S.has_failed sink.old ≡ false }
        ensures live { OnOk result (S.has_failed sink.new ≡ false) }
        ensures done { OnErr result (is_done self.new ≡ true) };

    fn finish<S: QuadSink>(&mut self, sink: &mut S) -> Result<Summary, Fault>
        requires { is_done self.old ≡ false → S.has_failed sink.old ≡ false }
        ensures { is_done self.new ≡ true };

    fn held(&self) -> u64;

    fn expected(&self) -> Kinds;

    fn found(&self) -> Option<Kind>;
}

impl<A: Allocator + Copy> PieceReader for LineReader<A> {
    ghost is_done = { λ reader. reader.done };

    fn feed<S: QuadSink>(&mut self, piece: &[u8], sink: &mut S) -> Result<(), Fault> {
        self.feed(piece, sink)
    }

    fn finish<S: QuadSink>(&mut self, sink: &mut S) -> Result<Summary, Fault> {
        self.finish(sink)
    }

    fn held(&self) -> u64 {
        self.held()
    }

    fn expected(&self) -> Kinds {
        self.expected()
    }

    fn found(&self) -> Option<Kind> {
        self.found()
    }
}

impl<A: Allocator + Copy> PieceReader for TrigReader<A> {
    ghost is_done = { λ reader. reader.done };

    fn feed<S: QuadSink>(&mut self, piece: &[u8], sink: &mut S) -> Result<(), Fault> {
        self.feed(piece, sink)
    }

    fn finish<S: QuadSink>(&mut self, sink: &mut S) -> Result<Summary, Fault> {
        self.finish(sink)
    }

    fn held(&self) -> u64 {
        self.held()
    }

    fn expected(&self) -> Kinds {
        self.expected()
    }

    fn found(&self) -> Option<Kind> {
        self.found()
    }
}

fn feed_piece<R: PieceReader, S: QuadSink>(
    reader: &mut R,
    piece: &Piece<'_>,
    sink: &mut S,
) -> Result<(), Fault>
    requires { S.has_failed sink.old ≡ false }
    ensures live { OnOk result (S.has_failed sink.new ≡ false) }
    ensures done { OnErr result (R.is_done reader.new ≡ true) }
{
    let Piece(bytes, times) = *piece;
    for _ in 0..times {
        reader.feed(bytes, sink)?;
    }
    Ok(())
}

fn feed_bytes<R: PieceReader, S: QuadSink>(
    reader: &mut R,
    bytes: &[u8],
    sink: &mut S,
) -> Result<(), Fault>
    requires { S.has_failed sink.old ≡ false }
    ensures live { OnOk result (S.has_failed sink.new ≡ false) }
    ensures done { OnErr result (R.is_done reader.new ≡ true) }
{
    for byte in bytes {
        reader.feed(&[*byte], sink)?;
    }
    Ok(())
}

fn feed_document<R: PieceReader, S: QuadSink>(
    reader: &mut R,
    document: &Document<'_>,
    sink: &mut S,
) -> Result<(), Fault>
    requires { S.has_failed sink.old ≡ false }
    ensures live { OnOk result (S.has_failed sink.new ≡ false) }
    ensures done { OnErr result (R.is_done reader.new ≡ true) }
{
    for piece in document.pieces {
        feed_piece(reader, piece, sink)?;
    }
    feed_bytes(reader, document.rest, sink)
}

fn finish_fed<R: PieceReader, S: QuadSink>(
    reader: &mut R,
    fed: Result<(), Fault>,
    sink: &mut S,
) -> Result<Summary, Fault>
    requires live { OnOk fed (S.has_failed sink.old ≡ false) }
    requires done { OnErr fed (R.is_done reader.old ≡ true) }
    ensures { R.is_done reader.new ≡ true }
{
    fed?;
    reader.finish(sink)
}

fn report_on<R: PieceReader, S: QuadSink>(
    reader: &mut R,
    document: &Document<'_>,
    sink: &mut S,
) -> Report
    requires { S.has_failed sink.old ≡ false }
{
    let fed = feed_document(reader, document, sink);
    let held = reader.held();
    let answer = finish_fed(reader, fed, sink);
    let expected = reader.expected();
    let found = reader.found();
    let fed = reader.feed(MORE, sink).err();
    let finished = reader.finish(sink).err();
    Report {
        answer,
        held,
        expected,
        found,
        has_ended: is_ended(fed) && is_ended(finished),
    }
}

/// Reads a document of N-Triples or N-Quads.
fn read_lines<A: Allocator + Copy, S: QuadSink>(
    alloc: A,
    form: LineForm,
    limits: Limits,
    document: &Document<'_>,
    sink: &mut S,
) -> Report
    requires { S.has_failed sink.old ≡ false }
{
    let mut reader = LineReader::new(alloc, form, limits);
    let report = report_on(&mut reader, document, sink);
    drop(reader);
    report
}

/// Reads a document of Turtle or TriG.
pub fn read_statements<A: Allocator + Copy, S: QuadSink>(
    alloc: A,
    options: Options<A>,
    document: &Document<'_>,
    sink: &mut S,
) -> Report
    requires { S.has_failed sink.old ≡ false }
{
    let mut reader = TrigReader::new(alloc, options);
    let report = report_on(&mut reader, document, sink);
    drop(reader);
    report
}

/// Reads a document of any form, with no base.
pub fn read<A: Allocator + Copy, S: QuadSink>(
    alloc: A,
    form: Form,
    limits: Limits,
    document: &Document<'_>,
    sink: &mut S,
) -> Option<Report>
    requires { S.has_failed sink.old ≡ false }
{
    match form {
        Form::Lines(form) => Some(read_lines(alloc, form, limits, document, sink)),
        Form::Statements(form) => {
            let options = Options::new(form, None, limits)?;
            Some(read_statements(alloc, options, document, sink))
        }
    }
}

/// A document of N-Triples in pieces.
static LINES: [Piece<'static>; 3] = [
    Piece(b"<http://a/\\u0073> <a:p> \"\\t\\u00e9 a", 1),
    Piece(b" text\"@en-GB .\n_:x <a:p> _:y .\n<a:s> ", 1),
    Piece(b"<a:p> \"x\"^^<a:t> . # c\n<a:s> <a:p> <a:o> .", 1),
];

/// A document of Turtle in pieces. Its last dot is decided by its end, and a quad is given out there.
static STATEMENTS: [Piece<'static>; 3] = [
    Piece(
        b"@base <http://h/b/c> . @prefix : <#> . :s a :b%20\\~c, <s\\u0061>, _:l ; :p 'a\\t",
        1,
    ),
    Piece(
        b"'@en, \"b\"^^:t, 1 . [ :p [ :q ( 1 [ ] ( \"a\" ) () ) ] ] . @prefix : <x> . ( [ :p :o ] ) ",
        1,
    ),
    Piece(b":p :o .", 1),
];

/// Reads the document above of this form.
pub fn read_pieces<A: Allocator + Copy, S: QuadSink>(
    alloc: A,
    form: Form,
    sink: &mut S,
) -> Option<Report>
    requires { S.has_failed sink.old ≡ false }
{
    let pieces = match form {
        Form::Lines(_) => LINES.as_slice(),
        Form::Statements(_) => STATEMENTS.as_slice(),
    };
    let document = Document { pieces, rest: b"" };
    read(alloc, form, Limits::default(), &document, sink)
}
