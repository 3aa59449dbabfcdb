// Bindings that are handed in with a document, and the file that they are read from.

ghost use Rattle.std.specs.Prelude.{◌≡◌, ◌≤◌, ◌*◌, None, IfOk, IfErr, OnOk, length};
ghost use Rattle.std.specs.Str.{chars};
ghost use Rattle.rdf_iri.specs.Cuts.{before, after};
ghost use Rattle.rdf_iri.specs.Seen.{text_of};
ghost use Rattle.rdf_iri.specs.Bindings.{MarkDropped, CrDropped, IsReadFrom, IsRefused};
ghost use Rattle.rdf_iri.specs.BindingSteps.{TakesLine, StopsAt};

use crate::binding_lines::{binding_in, says_nothing};
use crate::fault::{BindingFault, BindingReason, IriFault};
use crate::limits::Limits;
use crate::places::{begins_with, bytes_before};
use crate::prefixes::Prefixes;
use crate::scope::Scope;
use rdf_terms::Iri;
use std::alloc::{Allocator, Global};
use std::marker::Model;

/// Prefixes and their IRIs that are in force before a document begins. They keep the limits that they were read with.
#[derive(Drop)]
pub struct Bindings<A: Allocator = Global> {
    pub(crate) names: Prefixes<A>,
    pub(crate) limits: Limits,
}

impl<A: Allocator> Model for Bindings<A> {
    ghost use Rattle.rdf_iri.specs.Bindings.{BindingMap, KeepsSizes};

    ghost Value = { BindingMap };

    ghost view = { λ b. record { bindings = b.names; limits = b.limits } };

    ghost invariant = { λ b. KeepsSizes (record { bindings = b.names; limits = b.limits }) };
}

impl<A: Allocator> Bindings<A> {
    /// The limits that they keep.
    pub fn limits(&self) -> Limits
        ensures { result ≡ self.now.limits }
    {
        self.limits
    }
}

/// The bindings of a file in UTF-8. Each line binds a prefix to an absolute IRI without escapes, in one of three
/// forms: `ex: http://example.org/`, `@prefix ex: <http://example.org/> .` or `PREFIX ex: <http://example.org/>`;
/// or it is empty, blank or a comment. Of the lines of one prefix the last counts. The first form has one space and
/// nothing more; the others are as in Turtle, with a comment behind them or not, but each in one line. Lines end at
/// LF or at CR and LF. One U+FEFF at the beginning is ignored.
pub fn read_bindings<A: Allocator + Copy>(
    alloc: A,
    limits: Limits,
    bytes: &[u8],
) -> Result<Bindings<A>, BindingFault>
    ensures read { IfOk result (IsReadFrom limits bytes.now) }
    ensures refused { IfErr result (λ f. IsRefused f.reason limits bytes.now f.line) }
{
    let mut scope = Scope::new(alloc, None, limits);
    let mut rest = Some(without_mark(bytes));
    let mut line = 0;
    while let Some(left) = rest {
        let (text, more) = first_line(left);
        line += 1;
        if let Err(reason) = bind_line(&mut scope, without_cr(text)) {
            return Err(BindingFault { reason, line });
        }
        rest = more;
    }
    Ok(scope.into_bindings())
}

fn without_mark(bytes: &[u8]) -> &[u8]
    ensures { MarkDropped bytes.now result.now }
{
    if begins_with(bytes, b"\xEF\xBB\xBF") {
        let (_, rest) = bytes.split_at(3);
        rest
    } else {
        bytes
    }
}

/// What stands before the first LF, and after it if it is there.
fn first_line(bytes: &[u8]) -> (&[u8], Option<&[u8]>)
    ensures line { result.0.now ≡ before 10 bytes.now }
    ensures rest { text_of result.1 ≡ after 10 bytes.now }
{
    let (line, rest) = bytes.split_at(bytes_before(bytes, b'\n'));
    match rest.split_first() {
        Some((_, rest)) => (line, Some(rest)),
        None => (line, None),
    }
}

fn without_cr(line: &[u8]) -> &[u8]
    ensures { CrDropped line.now result.now }
{
    let Some((last, front)) = line.split_last() else {
        return line;
    };
    if *last == b'\r' { front } else { line }
}

fn bind_line<A: Allocator + Copy>(scope: &mut Scope<A>, line: &[u8]) -> Result<(), BindingReason>
    requires { scope.old.base ≡ None }
    ensures ok { OnOk result (TakesLine scope.old line.now scope.new) }
    ensures err { IfErr result (λ reason. StopsAt reason scope.old line.now) }
{
    match str::from_utf8(line) {
        Ok(text) => bind_text(scope, text),
        Err(_) => Err(BindingReason::BadBinding),
    }
}

/// Binds what a line says, if it says something.
fn bind_text<A: Allocator + Copy>(scope: &mut Scope<A>, text: &str) -> Result<(), BindingReason>
    requires { scope.old.base ≡ None }
    ensures ok { OnOk result (TakesLine scope.old text.now scope.new) }
    ensures err { IfErr result (λ reason. StopsAt reason scope.old text.now) }
{
    if says_nothing(text) {
        return Ok(());
    }
    let Some((prefix, iri)) = binding_in(text) else {
        return Err(BindingReason::BadBinding);
    };
    if char_count(prefix) as u64 >= scope.limits().token() {
        return Err(BindingReason::TokenTooLong);
    }
    match scope.bind(prefix, iri) {
        Ok(()) => Ok(()),
        Err(IriFault::IriTooLong) => Err(BindingReason::IriTooLong),
        Err(IriFault::TooManyBindings) => Err(BindingReason::TooManyBindings),
        Err(IriFault::Memory) => Err(BindingReason::Memory),
        Err(IriFault::NoBase | IriFault::Unbound) => unreachable!(),
    }
}

fn char_count(text: &str) -> usize
    ensures count { result ≡ length (chars text.now) }
    ensures bytes { length text.now ≤ 4 * result }
{
    text.chars().count()
}
