//! Iterators that read what a mutable iterator has left, and the step of those along the order of a
//! list.
ghost use Rattle.std.specs.Prelude.{IfSome};
ghost use Rattle.multimap_slots.specs.Slots.{HasSlot};
ghost use Rattle.multimap_slots.specs.SlotCells.{lent_slots};
ghost use Rattle.multimap_walks.specs.Along.{places_left};
ghost use Rattle.multimap_walks.specs.Ends.{end_place};
ghost use Rattle.multimap_walks.specs.Lending.{CanLend};
ghost use Rattle.multimap_walks.specs.Walk.{TakesEnd};

pub(crate) mod chain;
pub(crate) mod pairs;
pub(crate) mod values;

use super::pass_end;
use crate::End;
use crate::links::{ChainEnds, ValueLink};
use multimap_slots::{LinkForm, SlotCells};
use std::alloc::Allocator;

/// Reads the value at an end of those that are left, with its link.
#[inline(always)]
fn read<'walk, V, A: Allocator, F: LinkForm<ValueLink>>(
    end: End,
    cells: &'walk SlotCells<'_, V, ValueLink, A, F>,
    left: &mut ChainEnds,
) -> Option<(&'walk V, ValueLink)>
    requires { CanLend cells.now left.old }
    ensures can { CanLend cells.now left.new }
    ensures slot { IfSome result
        (λ slot. HasSlot (lent_slots cells.now) (end_place end left.old) slot.0.now slot.1) }
    ensures taken { TakesEnd end (λ _. end_place end left.old)
        (places_left (lent_slots cells.now).order left.old) result
        (places_left (lent_slots cells.now).order left.new) }
{
    let place = pass_end(end, cells, left)?;
    Some((cells.read(place), cells.link(place)))
}
