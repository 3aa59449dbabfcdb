// The word in front of the names of nodes.

ghost use Rattle.std.specs.Prelude.{◌≡◌, ◌↔◌, [], IfSome, IsUtf8, None};
ghost use Rattle.std.specs.Str.{chars};
ghost use Rattle.std.specs.String.{string_bytes};
ghost use Rattle.rdf_terms.specs.Terms.{all_have};
ghost use Rattle.rdf_lines.specs.NodePrefixes.{IsNodePrefix, is_word_char};

use std::alloc::{Allocator, Global};
use std::marker::Model;

/// A word of ASCII letters and digits in front of each node's name that is written, so that the names of two documents
/// stay apart: with two different words of one length no node of the one has the name of a node of the other. An empty
/// word changes no name.
#[derive(Drop)]
pub struct NodePrefix<A: Allocator = Global> {
    word: String<A>,
}

impl<A: Allocator> Model for NodePrefix<A> {
    ghost use Rattle.std.specs.Prelude.{ℕ, List};
    ghost use Rattle.std.specs.Str.{chars};
    ghost use Rattle.std.specs.String.{string_bytes};
    ghost use Rattle.rdf_lines.specs.NodePrefixes.{IsNodePrefix};

    ghost Value = { List ℕ };

    ghost view = { λ p. chars (string_bytes p.word) };

    ghost invariant = { λ p. ∥ IsNodePrefix (chars (string_bytes p.word)) ∥₁ };
}

/// Such a word, borrowed.
#[derive(Clone, Copy)]
pub struct NodePrefixView<'a> {
    word: &'a str,
    ghost utf8: { ∥ IsUtf8 word.now ∥₁ },
    ghost is_prefix: { ∥ IsNodePrefix (chars word.now) ∥₁ },
}

impl<A: Allocator> NodePrefix<A> {
    /// The word of a text, or None where the text has another character than ASCII letters and digits. It takes no
    /// memory.
    pub fn new(word: String<A>) -> Option<NodePrefix<A>>
        ensures word { IfSome result (λ p. p ≡ chars (string_bytes word)) }
        ensures none { (result ≡ None) ↔ ¬ IsNodePrefix (chars (string_bytes word)) }
    {
        if !is_word(word.as_str()) {
            return None;
        }
        Some(NodePrefix { word })
    }

    /// The word, borrowed.
    pub fn view(&self) -> NodePrefixView<'_>
        ensures word { chars result.word.now ≡ self.now }
        ensures is_word { IsNodePrefix self.now }
    {
        NodePrefixView {
            word: self.word.as_str(),
        }
    }
}

impl NodePrefixView<'static> {
    /// The empty word.
    #[tactic(auto, using(crate::proofs::NodePrefixLemmas::no_chars, crate::proofs::NodePrefixLemmas::no_word))]
    pub fn none() -> NodePrefixView<'static>
        ensures { chars result.word.now ≡ [] }
    {
        NodePrefixView::known("")
    }
}

impl<'a> NodePrefixView<'a> {
    // A text that is known to be a word.
    fn known(word: &'a str) -> NodePrefixView<'a>
        requires { IsNodePrefix (chars word.now) }
        ensures { result.word.now ≡ word.entry.now }
    {
        NodePrefixView { word }
    }

    /// The word of a text, or None where the text has another character than ASCII letters and digits.
    pub fn new(word: &'a str) -> Option<NodePrefixView<'a>>
        ensures word { IfSome result (λ p. p.word.now ≡ word.entry.now) }
        ensures none { (result ≡ None) ↔ ¬ IsNodePrefix (chars word.now) }
    {
        if !is_word(word) {
            return None;
        }
        Some(NodePrefixView { word })
    }

    /// The word.
    pub fn as_str(self) -> &'a str
        ensures { result.now ≡ self.entry.word.now }
    {
        self.word
    }
}

fn is_word(text: &str) -> bool
    ensures { result ≡ all_have is_word_char (chars text.now) }
{
    for c in text.chars() {
        if !is_word_char(c) {
            return false;
        }
    }
    true
}

fn is_word_char(c: char) -> bool
    ensures { result ≡ is_word_char c }
{
    matches!(c, 'A'..='Z' | 'a'..='z' | '0'..='9')
}
