// The parts of a written line, each with the space after it (N-Quads 4).

ghost use Rattle.std.specs.Prelude.{◌≡◌, [], ◌∷◌, ◌++◌, OnErr, OnOk};
ghost use Rattle.rdf_lines.specs.Forms.{form_of};
ghost use Rattle.rdf_lines.specs.Writing.{space};
ghost use Rattle.rdf_lines.specs.WrittenBytes.{BeginsWith, graph_bytes, iri_bytes, line_bytes, subject_bytes};
ghost use Rattle.rdf_lines.specs.WrittenBytes.{term_bytes};

use crate::form::{Escapes, WrittenForm};
use crate::writer::term::{put_iri, put_name, put_term};
use rdf_terms::{IriView, QuadRef, SubjectRef, TermRef};
use std::alloc::{AllocError, Allocator};

/// Appends the line of a quad part by part, as lines are that have long texts or are in ASCII.
#[inline(never)]
pub fn put_in_parts<A: Allocator + Copy>(
    quad: &QuadRef<'_>,
    form: &WrittenForm<'_>,
    out: &mut Vec<u8, A>,
) -> Result<(), AllocError>
    ensures written { OnOk result (out.new.items ≡ out.old.items ++ line_bytes (form_of form.now) quad.now) }
    ensures unchanged { OnErr result (out.new.items ≡ out.old.items) }
{
    let start = out.len();
    match put_line(quad, form, out) {
        Ok(()) => Ok(()),
        Err(fault) => {
            out.truncate(start);
            Err(fault)
        }
    }
}

#[inline(always)]
fn put_line<A: Allocator + Copy>(
    quad: &QuadRef<'_>,
    form: &WrittenForm<'_>,
    out: &mut Vec<u8, A>,
) -> Result<(), AllocError>
    ensures written { OnOk result (out.new.items ≡ out.old.items ++ line_bytes (form_of form.now) quad.now) }
    ensures grown { OnErr result (BeginsWith out.old.items out.new.items) }
{
    put_subject(quad.subject, *form, out)?;
    put_predicate(quad.predicate, form.escapes, out)?;
    put_object(quad.object, *form, out)?;
    put_end(quad.graph, *form, out)
}

#[inline(always)]
fn put_subject<A: Allocator + Copy>(
    subject: SubjectRef<'_>,
    form: WrittenForm<'_>,
    out: &mut Vec<u8, A>,
) -> Result<(), AllocError>
    ensures written { OnOk result (out.new.items ≡ out.old.items
        ++ (subject_bytes (form_of form.entry) subject.entry ++ space)) }
    ensures grown { OnErr result (BeginsWith out.old.items out.new.items) }
{
    put_name(subject, form, out)?;
    out.extend_from_slice(b" ")
}

fn put_predicate<A: Allocator + Copy>(
    predicate: IriView<'_>,
    escapes: Escapes,
    out: &mut Vec<u8, A>,
) -> Result<(), AllocError>
    ensures written { OnOk result (out.new.items ≡ out.old.items ++ (iri_bytes escapes predicate.entry ++ space)) }
    ensures grown { OnErr result (BeginsWith out.old.items out.new.items) }
{
    put_iri(predicate, escapes, out)?;
    out.extend_from_slice(b" ")
}

fn put_object<A: Allocator + Copy>(
    object: TermRef<'_>,
    form: WrittenForm<'_>,
    out: &mut Vec<u8, A>,
) -> Result<(), AllocError>
    ensures written { OnOk result (out.new.items ≡ out.old.items
        ++ (term_bytes (form_of form.entry) object.entry ++ space)) }
    ensures grown { OnErr result (BeginsWith out.old.items out.new.items) }
{
    put_term(object, form, out)?;
    out.extend_from_slice(b" ")
}

fn put_end<A: Allocator + Copy>(
    graph: Option<SubjectRef<'_>>,
    form: WrittenForm<'_>,
    out: &mut Vec<u8, A>,
) -> Result<(), AllocError>
    ensures written { OnOk result (out.new.items ≡ out.old.items
        ++ (graph_bytes (form_of form.entry) graph.entry ++ (46 ∷ []) ++ (10 ∷ []))) }
    ensures grown { OnErr result (BeginsWith out.old.items out.new.items) }
{
    put_graph(graph, form, out)?;
    out.extend_from_slice(b".\n")
}

fn put_graph<A: Allocator + Copy>(
    graph: Option<SubjectRef<'_>>,
    form: WrittenForm<'_>,
    out: &mut Vec<u8, A>,
) -> Result<(), AllocError>
    ensures written { OnOk result (out.new.items ≡ out.old.items ++ graph_bytes (form_of form.entry) graph.entry) }
    ensures grown { OnErr result (BeginsWith out.old.items out.new.items) }
{
    match graph {
        None => Ok(()),
        Some(subject) => put_subject(subject, form, out),
    }
}
