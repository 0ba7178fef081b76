//! Reads and writes of the links that join keys and values.
ghost use Rattle.std.specs.Prelude.{◌≡◌, ◌+◌, ◌<◌, ◌^◌, Some, IfSome};
ghost use Rattle.multimap_slots.specs.Lists.{IsIn};
ghost use Rattle.multimap_slots.specs.Slots.{IsSound, link_at, with_link};
ghost use Rattle.multimap_walks.specs.Packed.{HasSmallPlaces};
ghost use Rattle.ordered_multimap.specs.Private.Relocations.{WritesLink};

use multimap_slots::{SlotList, Tape};
use multimap_walks::{KeyLink, PackedLink, ValueLink};
use std::alloc::Allocator;

/// Gives the key at the place another link.
#[inline(always)]
pub(super) fn set_link<K, A: Allocator>(
    keys: &mut SlotList<K, KeyLink, A>,
    place: usize,
    link: KeyLink,
)
    requires { IsIn place keys.old.order }
    ensures { keys.new ≡ with_link keys.old place link }
{
    *keys.listed_link_mut(place) = link;
}

/// The link of the value at a listed place.
#[inline(always)]
pub(super) fn link_of<V, A: Allocator>(
    values: &Tape<V, ValueLink, A, PackedLink>,
    place: usize,
) -> ValueLink
    requires { IsIn place values.now.list.order }
    ensures link { link_at values.now.list place ≡ Some result }
    ensures small { HasSmallPlaces result }
    ensures sound { IsSound values.now.list }
{
    // The length tells the proof that the list is sound.
    let _len = values.len();
    values.listed_link(place)
}

/// Writes the next place into the link of the value at the place, if there is one.
#[inline(always)]
pub(super) fn set_next<V, A: Allocator>(
    values: &mut Tape<V, ValueLink, A, PackedLink>,
    place: Option<usize>,
    next: Option<usize>,
)
    requires listed { IfSome place (λ p. IsIn p values.old.list.order) }
    requires fits { IfSome next (λ p. p + 1 < 2 ^ 64) }
    ensures { WritesLink values.old values.new place (λ l. record l { next = next }) }
{
    if let Some(place) = place {
        values.listed_form_mut(place).set_next(next);
    }
}

/// Writes the previous place into the link of the value at the place, if there is one.
#[inline(always)]
pub(super) fn set_previous<V, A: Allocator>(
    values: &mut Tape<V, ValueLink, A, PackedLink>,
    place: Option<usize>,
    previous: Option<usize>,
)
    requires listed { IfSome place (λ p. IsIn p values.old.list.order) }
    requires fits { IfSome previous (λ p. p + 1 < 2 ^ 64) }
    ensures { WritesLink values.old values.new place (λ l. record l { previous = previous }) }
{
    if let Some(place) = place {
        values.listed_form_mut(place).set_previous(previous);
    }
}

/// Writes that the value at the place, if there is one, is of the key at this place.
#[inline(always)]
pub(super) fn set_key<V, A: Allocator>(
    values: &mut Tape<V, ValueLink, A, PackedLink>,
    place: Option<usize>,
    key: usize,
)
    requires { IfSome place (λ p. IsIn p values.old.list.order) }
    ensures { WritesLink values.old values.new place (λ l. record l { key = key }) }
{
    if let Some(place) = place {
        values.listed_form_mut(place).set_key(key);
    }
}
