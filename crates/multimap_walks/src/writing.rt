//! Iterators over mutable references, and the step of those along the order of a list.
ghost use Rattle.std.specs.Prelude.{◌≡◌, IfNone, IfSome, IsSome, Some};
ghost use Rattle.multimap_slots.specs.SlotCells.{lent_slots, IsLeft};
ghost use Rattle.multimap_walks.specs.Along.{AreLeft, neighbour_of, places_left};
ghost use Rattle.multimap_walks.specs.Ends.{end_place};
ghost use Rattle.multimap_walks.specs.Lending.{CanLend, HandsOutSlot, NoneIsTaken, OneGoes, PassesEnd};
ghost use Rattle.multimap_walks.specs.Walk.{TakesEnd};

pub(crate) mod chain;
pub(crate) mod pairs;
pub(crate) mod rest;
pub(crate) mod values;

use crate::End;
use crate::links::{ChainEnds, ValueLink};
use multimap_slots::{LinkForm, SlotCells};
use std::alloc::Allocator;

/// All places of lent values.
fn all_of<V, A: Allocator, F: LinkForm<ValueLink>>(
    cells: &SlotCells<'_, V, ValueLink, A, F>,
) -> ChainEnds
    requires { NoneIsTaken cells.now }
    ensures can { CanLend cells.now result }
    ensures whole { places_left (lent_slots cells.now).order result ≡ (lent_slots cells.now).order }
{
    ChainEnds::of_all(cells.front_place(), cells.back_place(), cells.len())
}

/// The place that a step from an end reaches, where there is one and the items of both are left.
#[inline(always)]
fn neighbour<V, A: Allocator, F: LinkForm<ValueLink>>(
    end: End,
    cells: &SlotCells<'_, V, ValueLink, A, F>,
    place: usize,
) -> usize
    requires left { IsLeft cells.now place }
    requires more { IsSome (neighbour_of (lent_slots cells.now).order end place) }
    requires neighbour { IfSome (neighbour_of (lent_slots cells.now).order end place)
        (IsLeft cells.now) }
    ensures { neighbour_of (lent_slots cells.now).order end place ≡ Some result }
{
    match end {
        End::Front => cells.following_place(place),
        End::Back => cells.preceding_place(place),
    }
}

/// The places that are left when the one at an end is taken, or `None` if none is left. No place is
/// asked for beyond the other end.
#[inline(always)]
fn rest_after<V, A: Allocator, F: LinkForm<ValueLink>>(
    end: End,
    cells: &SlotCells<'_, V, ValueLink, A, F>,
    left: ChainEnds,
) -> Option<ChainEnds>
    requires { CanLend cells.now left }
    ensures none { IfNone result (left.length ≡ 0) }
    ensures are_left { IfSome result (AreLeft (lent_slots cells.now).order) }
    ensures taken { IfSome result
        (PassesEnd end (places_left (lent_slots cells.now).order) left) }
{
    let place = left.place_at(end);
    if left.length > 1 {
        Some(left.after(end, neighbour(end, cells, place)))
    } else if left.length == 1 {
        Some(left.after(end, place))
    } else {
        None
    }
}

/// Takes the place at an end from those that are left, or returns `None` if none is left.
#[inline(always)]
fn pass_end<V, A: Allocator, F: LinkForm<ValueLink>>(
    end: End,
    cells: &SlotCells<'_, V, ValueLink, A, F>,
    left: &mut ChainEnds,
) -> Option<usize>
    requires { CanLend cells.now left.old }
    ensures can { CanLend cells.now left.new }
    ensures place { IfSome result (λ place. place ≡ end_place end left.old) }
    ensures is_left { IfSome result (IsLeft cells.now) }
    ensures taken { TakesEnd end (λ _. end_place end left.old)
        (places_left (lent_slots cells.now).order left.old) result
        (places_left (lent_slots cells.now).order left.new) }
    ensures count { OneGoes left.old result left.new }
{
    let rest = rest_after(end, cells, *left)?;
    let place = left.place_at(end);
    *left = rest;
    Some(place)
}

/// Lends the value at an end of those that are left, with its link.
#[inline(always)]
fn lend<'map, V, A: Allocator, F: LinkForm<ValueLink>>(
    end: End,
    cells: &mut SlotCells<'map, V, ValueLink, A, F>,
    left: &mut ChainEnds,
) -> Option<(&'map mut V, ValueLink)>
    requires { CanLend cells.old left.old }
    ensures can { CanLend cells.new left.new }
    ensures slot { HandsOutSlot cells.old (end_place end left.old) result cells.new }
    ensures taken { TakesEnd end (λ _. end_place end left.old)
        (places_left (lent_slots cells.old).order left.old) result
        (places_left (lent_slots cells.old).order left.new) }
    ensures count { OneGoes left.old result left.new }
{
    let place = pass_end(end, cells, left)?;
    let link = cells.link(place);
    Some((cells.take(place), link))
}
