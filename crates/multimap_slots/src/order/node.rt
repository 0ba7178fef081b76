//! A node: what stands at a place, next to its item.
ghost use Rattle.std.specs.Prelude.{◌≡◌, ◌+◌, ◌<◌, ◌^◌, IfSome};
ghost use Rattle.multimap_slots.specs.declared.order.node.State.TheVariants.{Listed, Detached, Free};

use super::optional_place::OptionalPlace;
use std::marker::Model;

/// What stands at a place.
#[derive(Clone, Copy)]
pub(crate) enum State {
    Listed,
    Detached,
    Free,
}

/// The state of a place and, of a listed one, the place before it, in one word: that of an
/// `OptionalPlace`, or one of two numbers that no such word of a node reaches.
#[derive(Drop)]
pub(crate) struct Standing {
    word: usize,
}

/// The word of a free place.
const FREE: usize = usize::MAX;

/// The word of a detached place.
const DETACHED: usize = usize::MAX - 1;

impl Model for Standing {
    ghost use Rattle.multimap_slots.specs.Private.OptionalPlace.{place_below};
    ghost use Rattle.multimap_slots.specs.Private.Standings.{Stands, state_of};

    ghost Value = { Stands };

    ghost view = { λ s. record { previous = place_below s.word; state = state_of s.word } };
}

impl Standing {
    #[inline(always)]
    pub(crate) fn listed(previous: OptionalPlace) -> Standing
        requires { IfSome previous (λ p. p + 3 < 2 ^ 64) }
        ensures { result ≡ record { previous = previous; state = Listed } }
    {
        Standing {
            word: previous.word(),
        }
    }

    #[inline(always)]
    pub(crate) fn detached() -> Standing
        ensures { result.state ≡ Detached }
    {
        Standing { word: DETACHED }
    }

    #[inline(always)]
    pub(crate) fn free() -> Standing
        ensures { result.state ≡ Free }
    {
        Standing { word: FREE }
    }

    /// The place before a listed one.
    #[inline(always)]
    pub(crate) fn previous(&self) -> OptionalPlace
        ensures { result ≡ self.now.previous }
    {
        OptionalPlace::of_word(self.word)
    }

    #[inline(always)]
    pub(crate) fn state(&self) -> State
        ensures { result ≡ self.now.state }
    {
        match self.word {
            FREE => State::Free,
            DETACHED => State::Detached,
            _ => State::Listed,
        }
    }
}

/// A place's neighbours and its link. Of a free place `next` is the next free one.
#[derive(Drop)]
pub(crate) struct Node<L> {
    pub(crate) next: OptionalPlace,
    pub(crate) standing: Standing,
    pub(crate) link: L,
}
