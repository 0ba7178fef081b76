//! The order of a slot list or of a tape while its items are lent for writing.
ghost use Rattle.std.specs.Prelude.{⊤};

use crate::in_order::{InOrder, Linked};
use crate::link_form::{KeptLink, LinkForm};
use crate::order::Order;
use crate::tape::runs::Runs;
use std::alloc::Allocator;
use std::marker::Model;

/// The links and the places of a tape.
#[derive(Drop)]
pub(crate) struct TapeOrder<'a, L, A: Allocator, F: LinkForm<L>> {
    pub(crate) links: &'a Vec<KeptLink<L, F>, A>,
    pub(crate) runs: &'a Runs<A>,
}

impl<'a, L, A: Allocator, F: LinkForm<L>> Model for TapeOrder<'a, L, A, F> {
    ghost use Rattle.std.specs.Prelude.{◌≡◌, length};
    ghost use Rattle.multimap_slots.specs.Private.LentOrder.{LentPlaces};

    ghost Value = { LentPlaces L };

    ghost view = { λ t. record { order = t.runs.now.order; links = t.links.now.items } };

    ghost invariant = { λ t. length t.links.now.items ≡ t.runs.now.used };
}

impl<'a, L: Copy, A: Allocator, F: LinkForm<L>> InOrder for TapeOrder<'a, L, A, F> {
    ghost places = { λ o. o.order };

    ghost sound = { λ _. ⊤ };

    fn len(&self) -> usize {
        self.runs.len()
    }

    fn front(&self) -> Option<usize> {
        self.runs.front()
    }

    fn back(&self) -> Option<usize> {
        self.runs.back()
    }

    #[inline(always)]
    fn next(&self, place: usize) -> Option<usize> {
        self.runs.next(place)
    }

    #[inline(always)]
    fn previous(&self, place: usize) -> Option<usize> {
        self.runs.previous(place)
    }

    #[inline(always)]
    fn following(&self, place: usize) -> usize {
        self.runs.following(place)
    }

    #[inline(always)]
    fn preceding(&self, place: usize) -> usize {
        self.runs.preceding(place)
    }
}

impl<'a, L: Copy, A: Allocator, F: LinkForm<L>> Linked<L> for TapeOrder<'a, L, A, F> {
    ghost links = { λ o. o.links };

    #[inline(always)]
    fn link(&self, place: usize) -> L {
        // The length tells the proof that each listed place is in use.
        let _len = self.runs.len();
        self.links[place].link()
    }
}

/// Which of the two lends.
#[derive(Drop)]
pub(crate) enum Lender<'a, L, A: Allocator, F: LinkForm<L>> {
    List(&'a Order<L, A>),
    Tape(TapeOrder<'a, L, A, F>),
}

/// The order and the links of what lends its items.
#[derive(Drop)]
pub(crate) struct LentOrder<'a, L, A: Allocator, F: LinkForm<L>> {
    pub(crate) lender: Lender<'a, L, A, F>,
}

impl<'a, L, A: Allocator, F: LinkForm<L>> Model for LentOrder<'a, L, A, F> {
    ghost use Rattle.multimap_slots.specs.Private.LentOrder.{LentPlaces};
    ghost use Rattle.multimap_slots.specs.Private.Lenders.{places_lent};

    ghost Value = { LentPlaces L };

    ghost view = { λ o. places_lent o.lender };
}

impl<'a, L: Copy, A: Allocator, F: LinkForm<L>> InOrder for LentOrder<'a, L, A, F> {
    ghost places = { λ o. o.order };

    ghost sound = { λ _. ⊤ };

    fn len(&self) -> usize {
        match &self.lender {
            Lender::List(order) => order.len(),
            Lender::Tape(tape) => tape.len(),
        }
    }

    fn front(&self) -> Option<usize> {
        match &self.lender {
            Lender::List(order) => order.front(),
            Lender::Tape(tape) => tape.front(),
        }
    }

    fn back(&self) -> Option<usize> {
        match &self.lender {
            Lender::List(order) => order.back(),
            Lender::Tape(tape) => tape.back(),
        }
    }

    #[inline(always)]
    fn next(&self, place: usize) -> Option<usize> {
        match &self.lender {
            Lender::List(order) => order.next(place),
            Lender::Tape(tape) => tape.next(place),
        }
    }

    #[inline(always)]
    fn previous(&self, place: usize) -> Option<usize> {
        match &self.lender {
            Lender::List(order) => order.previous(place),
            Lender::Tape(tape) => tape.previous(place),
        }
    }

    #[inline(always)]
    fn following(&self, place: usize) -> usize {
        match &self.lender {
            Lender::List(order) => order.following(place),
            Lender::Tape(tape) => tape.following(place),
        }
    }

    #[inline(always)]
    fn preceding(&self, place: usize) -> usize {
        match &self.lender {
            Lender::List(order) => order.preceding(place),
            Lender::Tape(tape) => tape.preceding(place),
        }
    }
}

impl<'a, L: Copy, A: Allocator, F: LinkForm<L>> Linked<L> for LentOrder<'a, L, A, F> {
    ghost links = { λ o. o.links };

    #[inline(always)]
    fn link(&self, place: usize) -> L {
        match &self.lender {
            Lender::List(order) => order.link(place),
            Lender::Tape(tape) => tape.link(place),
        }
    }
}
