// The states of all families in one.

use crate::states::family::{Family, family_of};
use crate::states::iri::Iri;
use crate::states::label::Label;
use crate::states::name::Name;
use crate::states::number::Number;
use crate::states::shape::Shape;
use crate::states::tag::Tag;
use crate::states::text::Text;
use rdf_terms::{Dialect, Kind};

/// The shapes that are still possible, fixed spellings aside.
#[derive(Clone, Copy)]
pub(crate) enum State {
    Start,
    Iri(Iri),
    Label(Label),
    Text(Text),
    Tag(Tag),
    Number(Number),
    Name(Name),
    /// None.
    Dead,
}

impl Shape for State {
    ghost whole = { λ s. s };

    #[inline(always)]
    fn to_state(self) -> State {
        self
    }

    #[inline]
    fn step(self, dialect: Dialect, c: char) -> State {
        match self {
            State::Start => match family_of(c) {
                Family::Iri => State::Iri(Iri::Start.step(dialect, c)),
                Family::Label => State::Label(Label::Start.step(dialect, c)),
                Family::Text => State::Text(Text::Start.step(dialect, c)),
                Family::Tag => State::Tag(Tag::Start.step(dialect, c)),
                Family::Number => State::Number(Number::Start.step(dialect, c)),
                Family::Name => State::Name(Name::Start.step(dialect, c)),
                Family::Other => State::Dead,
            },
            State::Iri(state) => State::Iri(state.step(dialect, c)),
            State::Label(state) => State::Label(state.step(dialect, c)),
            State::Text(state) => State::Text(state.step(dialect, c)),
            State::Tag(state) => State::Tag(state.step(dialect, c)),
            State::Number(state) => State::Number(state.step(dialect, c)),
            State::Name(state) => State::Name(state.step(dialect, c)),
            State::Dead => State::Dead,
        }
    }

    #[inline]
    fn kind(self) -> Option<Kind> {
        match self {
            State::Iri(state) => state.kind(),
            State::Label(state) => state.kind(),
            State::Text(state) => state.kind(),
            State::Tag(state) => state.kind(),
            State::Number(state) => state.kind(),
            State::Name(state) => state.kind(),
            State::Start | State::Dead => None,
        }
    }

    #[inline]
    fn is_live(self, dialect: Dialect) -> bool {
        match self {
            State::Start => true,
            State::Iri(state) => state.is_live(dialect),
            State::Label(state) => state.is_live(dialect),
            State::Text(state) => state.is_live(dialect),
            State::Tag(state) => state.is_live(dialect),
            State::Number(state) => state.is_live(dialect),
            State::Name(state) => state.is_live(dialect),
            State::Dead => false,
        }
    }

    #[inline(always)]
    fn rest_end(self, _text: &str, from: usize) -> usize {
        from
    }
}
