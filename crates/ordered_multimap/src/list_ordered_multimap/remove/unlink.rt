//! The ways in which a value leaves the list.
ghost use Rattle.std.specs.Prelude.{◌≡◌, Bool, true, false, Some, ⊤};
ghost use Rattle.multimap_slots.specs.Lists.{IsIn};
ghost use Rattle.multimap_slots.specs.Slots.{item_at};
ghost use Rattle.ordered_multimap.specs.Private.Remove.{UnlinksValue};

use multimap_slots::Tape;
use multimap_walks::{PackedLink, ValueLink};
use std::alloc::Allocator;

/// How a value leaves the list, and what it gives.
pub(crate) trait Unlink<V>: Drop {
    /// Whether what stands in the slots stays as it was.
    ghost keeps: { Bool };

    /// What is given tells this of the value.
    ghost gives: { Self → V → Type 0 };

    /// Lets the value at a listed place leave, and returns its link.
    fn unlink<A: Allocator>(
        values: &mut Tape<V, ValueLink, A, PackedLink>,
        place: usize,
    ) -> (Self, ValueLink)
        requires { IsIn place values.old.list.order }
        ensures left { UnlinksValue keeps values.old values.new place result.1 }
        ensures given { (v : V) → item_at values.old.list place ≡ Some v → gives result.0 v };
}

/// A value that was taken out of its slot.
#[derive(Drop)]
pub(crate) struct TakenOut<V> {
    pub(crate) value: V,
}

impl<V: Drop> Unlink<V> for TakenOut<V> {
    ghost keeps = { false };

    ghost gives = { λ taken v. taken.value ≡ v };

    #[inline(always)]
    fn unlink<A: Allocator>(
        values: &mut Tape<V, ValueLink, A, PackedLink>,
        place: usize,
    ) -> (Self, ValueLink) {
        let (value, link) = values.take_listed(place);
        (TakenOut { value }, link)
    }
}

/// A value that is kept in its slot, for a drain.
#[derive(Drop)]
pub(crate) struct KeptInPlace;

impl<V> Unlink<V> for KeptInPlace {
    ghost keeps = { true };

    ghost gives = { λ _ _. ⊤ };

    #[inline(always)]
    fn unlink<A: Allocator>(
        values: &mut Tape<V, ValueLink, A, PackedLink>,
        place: usize,
    ) -> (Self, ValueLink) {
        let link = values.detach_linked(place);
        (KeptInPlace, link)
    }
}
