// What may stand where, and what it does there: the only table of modes and kinds. Its parts stand below it.

ghost use Rattle.std.specs.Prelude.{IfSome};
ghost use Rattle.rdf_trig.specs.Turns.{Decides, SuitsIn, KeepsFrames};
ghost use Rattle.rdf_trig.specs.declared.form.DocForm.{DocForm};

mod lists;
mod objects;
mod outer;

use crate::form::DocForm;
use crate::state::{Around, Mode, Outer, State};
use crate::turn::Turn;
use rdf_terms::Kind;
use std::alloc::Allocator;

impl<A: Allocator> State<A> {
    /// What a token of this kind does where the reader stands, or None where no document has one there.
    #[inline(always)]
    pub fn turn(&self, form: DocForm, kind: Kind) -> Option<Turn>
        ensures means { Decides form self.now self.now.mode kind result }
        ensures suits { IfSome result (SuitsIn form self.now self.now.mode kind) }
        ensures frames { IfSome result (KeepsFrames kind) }
    {
        match self.mode {
            Mode::Outer(outer) => self.outer_turn(form, outer, kind),
            Mode::AfterSubject => self.after_subject(form, kind),
            Mode::Want => self.want_object(kind),
            Mode::After => self.after_object(kind),
            Mode::AfterText => self.after_text(kind),
            Mode::WantType => self.want_type(kind),
            Mode::PropertyListStart => self.property_list_start(kind),
            Mode::CollectionStart => self.collection_start(kind),
            Mode::WantVerb => self.want_verb(Around::Statement, kind),
            Mode::AfterSemicolon => self.after_semicolon(kind),
            Mode::AfterPropertyList => self.after_property_list(kind),
        }
    }
}
