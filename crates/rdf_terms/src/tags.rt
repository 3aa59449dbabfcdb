// Language tags that own their texts.

ghost use Rattle.std.specs.Prelude.{◌≡◌, ◌↔◌, IfOk, OnOk, Err, option_map, true};
ghost use Rattle.std.specs.Str.{chars};
ghost use Rattle.rdf_terms.specs.Classes.{has};
ghost use Rattle.rdf_terms.specs.Classes.Class.{the, letter, letter_or_digit};
ghost use Rattle.rdf_terms.specs.Names.{place_of, after_tag, ends_tag};
ghost use Rattle.rdf_terms.specs.Terms.{IsTag};
ghost use Rattle.rdf_terms.specs.Views.{tag_chars};

use crate::fault::TermFault;
use crate::views::TagView;
use std::alloc::{AllocError, Allocator, Global};
use std::marker::Model;

/// A language tag without its `@`.
#[derive(Drop)]
pub struct Tag<A: Allocator = Global> {
    text: String<A>,
}

impl<A: Allocator> Model for Tag<A> {
    ghost use Rattle.std.specs.Prelude.{ℕ, List};
    ghost use Rattle.std.specs.Str.{chars};
    ghost use Rattle.std.specs.String.{string_bytes};
    ghost use Rattle.rdf_terms.specs.Terms.{IsTag};

    ghost Value = { List ℕ };

    ghost view = { λ t. chars (string_bytes t.text) };

    ghost invariant = { λ t. ∥ IsTag (chars (string_bytes t.text)) ∥₁ };
}

impl<A: Allocator> Tag<A> {
    /// The tag of a text without `@`; its case is kept.
    pub fn new(alloc: A, text: &str) -> Result<Tag<A>, TermFault>
        ensures ok { IfOk result (λ t. t ≡ chars text.now) }
        ensures is_tag { OnOk result (IsTag (chars text.now)) }
        ensures bad { (result ≡ Err TermFault.BadTerm) ↔ (¬ IsTag (chars text.now)) }
    {
        if !is_tag(text) {
            return Err(TermFault::BadTerm);
        }
        match String::from_str(alloc, text) {
            Ok(text) => Ok(Tag { text }),
            Err(_) => Err(TermFault::Memory),
        }
    }

    /// The tag, without its `@`.
    pub fn as_str(&self) -> &str
        ensures value { chars result.now ≡ self.now }
        ensures is_tag { IsTag self.now }
    {
        self.text.as_str()
    }

    /// The tag, borrowed.
    pub fn view(&self) -> TagView<'_>
        ensures { tag_chars result ≡ self.now }
    {
        TagView::new(self.as_str())
    }
}

impl<'a> TagView<'a> {
    /// A copy that owns its text.
    pub fn try_copy<A: Allocator>(self, alloc: A) -> Result<Tag<A>, AllocError>
        ensures { IfOk result (λ t. t ≡ tag_chars self.entry) }
    {
        let text = String::from_str(alloc, self.as_str())?;
        Ok(Tag { text })
    }
}

/// Whether the text is a LANGTAG without its `@` (Turtle 6.5).
pub fn is_tag(text: &str) -> bool
    ensures { (result ≡ true) ↔ IsTag (chars text.now) }
{
    let mut place = Place::Start;
    for c in text.chars() {
        match place.after(c) {
            Some(next) => place = next,
            None => return false,
        }
    }
    place.is_end()
}

/// Where a character of a tag stands.
#[derive(Clone, Copy)]
enum Place {
    Start,
    /// Behind letters of the first part.
    Letters,
    Hyphen,
    /// Behind letters or digits of a later part.
    Part,
}

impl Place {
    fn after(self, c: char) -> Option<Place>
        ensures { option_map place_of result ≡ after_tag (place_of self) c }
    {
        match self {
            Place::Start | Place::Letters if is_letter(c) => Some(Place::Letters),
            Place::Hyphen | Place::Part if is_letter_or_digit(c) => Some(Place::Part),
            Place::Letters | Place::Part if is_hyphen(c) => Some(Place::Hyphen),
            _ => None,
        }
    }

    fn is_end(self) -> bool
        ensures { result ≡ ends_tag (place_of self) }
    {
        matches!(self, Place::Letters | Place::Part)
    }
}

#[tactic(auto, unfolding(crate::specs::Classes::has))]
fn is_letter(c: char) -> bool
    ensures { result ≡ has letter c }
{
    matches!(c, 'A'..='Z' | 'a'..='z')
}

#[tactic(auto, unfolding(crate::specs::Classes::has))]
fn is_letter_or_digit(c: char) -> bool
    ensures { result ≡ has letter_or_digit c }
{
    matches!(c, 'A'..='Z' | 'a'..='z' | '0'..='9')
}

#[tactic(auto, unfolding(crate::specs::Classes::has))]
fn is_hyphen(c: char) -> bool
    ensures { result ≡ has (the 45) c }
{
    c == '-'
}
