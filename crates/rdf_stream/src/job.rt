// What a run is asked for.

ghost use Rattle.std.specs.Prelude.{◌≡◌, ◌↔◌, None, Some, [], Decides, IfSome};
ghost use Rattle.rdf_iri.specs.Scope.{BaseFits};
ghost use Rattle.rdf_iri.specs.Texts.{byte_len};
ghost use Rattle.rdf_lines.specs.Forms.{form_of};
ghost use Rattle.rdf_stream.specs.Jobs.{JobRead};
ghost use Rattle.rdf_stream.specs.Languages.{tree_job, written_form};
ghost use Rattle.rdf_stream.specs.Outputs.{output};
ghost use Rattle.rdf_stream.specs.Outputs.{output_of};

use crate::form::Form;
use crate::output::{GraphView, OutputView};
use rdf_iri::{Bindings, Limits};
use rdf_lines::{Escapes, NodePrefix, NodePrefixView, Style, WrittenForm};
use rdf_terms::Iri;
use rdf_trig::{DocForm, Options};
use std::alloc::{Allocator, Global};
use std::marker::Model;

/// The format of a document, the base that its references are resolved against first, the prefixes that are bound
/// before it, the escapes of what is written for it, the word in front of the names of nodes there, the graph that
/// quads of the default graph get there, and the limits. The line formats have no relative references and no
/// prefixes, so they do not look at base and bindings.
#[derive(Drop)]
pub struct Job<A: Allocator = Global> {
    form: Form,
    base: Option<Iri<A>>,
    bindings: Option<Bindings<A>>,
    escapes: Escapes,
    node_prefix: Option<NodePrefix<A>>,
    graph: Option<Iri<A>>,
    limits: Limits,
}

impl<A: Allocator> Model for Job<A> {
    ghost use Rattle.std.specs.Prelude.{◌≡◌, IfSome};
    ghost use Rattle.rdf_iri.specs.Scope.{BaseFits};
    ghost use Rattle.rdf_trig.specs.Accepting.{handed_in};
    ghost use Rattle.rdf_stream.specs.Jobs.{JobRead, word_of};

    ghost Value = { JobRead };

    ghost view = { λ j. record {
      form = j.form;
      base = j.base;
      bindings = handed_in j.bindings;
      escapes = j.escapes;
      node_prefix = word_of j.node_prefix;
      graph = j.graph;
      limits = j.limits;
    } };

    ghost invariant = { λ j. BaseFits j.base j.limits × IfSome j.bindings (λ b. b.limits ≡ j.limits) };
}

impl<A: Allocator> Job<A> {
    /// A job without bindings, in plain lines, without a word in front of the names of nodes and without a graph,
    /// or None where the base has more bytes than the limits allow for an IRI. It takes no memory.
    pub fn new(form: Form, base: Option<Iri<A>>, limits: Limits) -> Option<Job<A>>
        ensures made { IfSome result (λ job. job ≡ record {
          form = form;
          base = base;
          bindings = [];
          escapes = Escapes.Plain;
          node_prefix = [];
          graph = None;
          limits = limits;
        }) }
        ensures none { (result ≡ None) ↔ ¬ BaseFits base limits }
    {
        if !fits(&base, limits) {
            return None;
        }
        Some(Job {
            form,
            base,
            bindings: None,
            escapes: Escapes::Plain,
            node_prefix: None,
            graph: None,
            limits,
        })
    }

    /// The same, with these prefixes bound before the document, in place of those that were. It takes no memory.
    pub fn with_bindings(self, bindings: Bindings<A>) -> Job<A>
        requires { bindings.limits ≡ self.limits }
        ensures { result ≡ record self { bindings = bindings.bindings } }
    {
        let Job {
            form,
            base,
            escapes,
            node_prefix,
            graph,
            limits,
            ..
        } = self;
        Job {
            form,
            base,
            bindings: Some(bindings),
            escapes,
            node_prefix,
            graph,
            limits,
        }
    }

    /// The same, with the characters above U+007F written so, in place of how they were. It takes no memory.
    pub fn with_escapes(self, escapes: Escapes) -> Job<A>
        ensures { result ≡ record self { escapes = escapes } }
    {
        let mut job = self;
        job.escapes = escapes;
        job
    }

    /// The same, with this word in front of the names of nodes that are written, in place of the one that was. It
    /// takes no memory.
    pub fn with_node_prefix(self, prefix: NodePrefix<A>) -> Job<A>
        ensures { result ≡ record self { node_prefix = prefix } }
    {
        let Job {
            form,
            base,
            bindings,
            escapes,
            graph,
            limits,
            ..
        } = self;
        Job {
            form,
            base,
            bindings,
            escapes,
            node_prefix: Some(prefix),
            graph,
            limits,
        }
    }

    /// The same, with quads of the default graph written in this graph, in place of the one that was. A quad that has a
    /// graph stays in it. It takes no memory.
    pub fn with_graph(self, graph: Iri<A>) -> Job<A>
        ensures { result ≡ record self { graph = Some graph } }
    {
        let Job {
            form,
            base,
            bindings,
            escapes,
            node_prefix,
            limits,
            ..
        } = self;
        Job {
            form,
            base,
            bindings,
            escapes,
            node_prefix,
            graph: Some(graph),
            limits,
        }
    }

    /// The document's format.
    pub(crate) fn form(&self) -> Form
        ensures { result ≡ self.now.form }
    {
        self.form
    }

    /// How quads are written, with blank nodes named in a style.
    pub(crate) fn output(&self, style: Style) -> OutputView<'_>
        ensures { output_of result ≡ output style self.now }
    {
        let graph = match &self.graph {
            Some(iri) => GraphView::new(iri),
            None => GraphView::none(),
        };
        OutputView {
            lines: self.written_form(style),
            graph,
        }
    }

    // What is asked of the lines.
    fn written_form(&self, style: Style) -> WrittenForm<'_>
        ensures { form_of result ≡ written_form style self.now }
    {
        let prefix = match &self.node_prefix {
            Some(prefix) => prefix.view(),
            None => NodePrefixView::none(),
        };
        WrittenForm {
            style,
            escapes: self.escapes,
            prefix,
        }
    }

    /// The limits. It takes no memory.
    pub fn limits(&self) -> Limits
        ensures { result ≡ self.now.limits }
    {
        self.limits
    }
}

impl<A: Allocator + Copy> Job<A> {
    /// What a reader of Turtle or TriG is asked for. It has the base and the bindings then, and the job has them no
    /// more.
    pub(crate) fn options(&mut self, form: DocForm) -> Options<A>
        ensures options { result ≡ tree_job form self.old }
        ensures left { self.new ≡ record self.old { base = None; bindings = [] } }
    {
        let base = self.base.take();
        let bindings = self.bindings.take();
        match (Options::new(form, base, self.limits), bindings) {
            (Some(options), Some(bindings)) => options.with_bindings(bindings),
            (Some(options), None) => options,
            (None, _) => unreachable!(),
        }
    }
}

fn fits<A: Allocator>(base: &Option<Iri<A>>, limits: Limits) -> bool
    ensures { Decides result (BaseFits base.now limits) }
{
    match base {
        None => true,
        Some(iri) => byte_len(iri) <= limits.iri(),
    }
}

fn byte_len<A: Allocator>(iri: &Iri<A>) -> u64
    ensures { result ≡ byte_len iri.now }
{
    iri.as_str().len() as u64
}
