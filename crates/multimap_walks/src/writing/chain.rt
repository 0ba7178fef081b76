//! The iterator over one key's values for writing.
ghost use Rattle.std.specs.Prelude.{◌≡◌, IfNone, IfSome};
ghost use Rattle.multimap_slots.specs.SlotCells.{lent_slots, IsLeft};
ghost use Rattle.multimap_walks.specs.Chained.{places_along};
ghost use Rattle.multimap_walks.specs.Ends.{end_place};
ghost use Rattle.multimap_walks.specs.Lending.{PassesEnd};
ghost use Rattle.multimap_walks.specs.RestWalk.{CanReadChain};
ghost use Rattle.multimap_walks.specs.Walk.{TakesEnd};

mod methods;

use crate::End;
use crate::links::{ChainEnds, ValueLink};
use crate::packed::PackedLink;
use multimap_slots::{LinkForm, SlotCells};
use std::alloc::{Allocator, Global};
use std::marker::PhantomData;

/// A mutable iterator over the values of one key, in the order of the pairs.
///
/// This struct is created by `ListOrderedMultimap::get_all_mut`; see there for an example. It is
/// also created by `OccupiedEntry::iter_mut` and by the steps of `KeyValuesMut`. Its items are
/// `&mut value`. It iterates from both ends, and knows its length. It has a `Drop`, so one that is
/// held in a variable borrows the map to the end of its block; `drop` ends it sooner. Each item
/// reads one value slot.
pub struct EntryValuesMut<'map, K, V, A: Allocator = Global, F: LinkForm<ValueLink> = PackedLink> {
    keys: PhantomData<&'map K>,
    values: SlotCells<'map, V, ValueLink, A, F>,
    left: ChainEnds,
    ghost readable: { ∥ CanReadChain values left ∥₁ },
}

/// Takes the place at an end from those of a key's values that are left, or returns `None` if none
/// is left.
#[inline(always)]
pub(crate) fn pass_end_of_chain<V, A: Allocator, F: LinkForm<ValueLink>>(
    end: End,
    cells: &SlotCells<'_, V, ValueLink, A, F>,
    left: &mut ChainEnds,
) -> Option<usize>
    requires { CanReadChain cells.now left.old }
    ensures can { CanReadChain cells.now left.new }
    ensures place { IfSome result (λ place. place ≡ end_place end left.old) }
    ensures is_left { IfSome result (IsLeft cells.now) }
    ensures taken { TakesEnd end (λ _. end_place end left.old)
        (places_along (lent_slots cells.now) left.old.first left.old.length) result
        (places_along (lent_slots cells.now) left.new.first left.new.length) }
{
    let rest = chain_after(end, cells, *left)?;
    let place = left.place_at(end);
    *left = rest;
    Some(place)
}

/// The values of a key that are left once that at an end is taken, or `None` if none is left. Its
/// link alone is read.
#[inline(always)]
fn chain_after<V, A: Allocator, F: LinkForm<ValueLink>>(
    end: End,
    cells: &SlotCells<'_, V, ValueLink, A, F>,
    left: ChainEnds,
) -> Option<ChainEnds>
    requires { CanReadChain cells.now left }
    ensures none { IfNone result (left.length ≡ 0) }
    ensures can { IfSome result (CanReadChain cells.now) }
    ensures taken { IfSome result (PassesEnd end
        (λ ends. places_along (lent_slots cells.now) ends.first ends.length) left) }
{
    if left.length == 0 {
        return None;
    }
    let place = left.place_at(end);
    // At the last value this is 0, and isn't used: that costs less than a test.
    Some(left.after(end, cells.link(place).step_from(end).unwrap_or(0)))
}

/// Leaves the values that weren't yielded as they are.
impl<'map, K, V, A: Allocator, F: LinkForm<ValueLink>> Drop for EntryValuesMut<'map, K, V, A, F> {
    ghost use Rattle.std.specs.Borrow.{sem};
    ghost use Rattle.multimap_slots.specs.Ended.{ends_with};
    ghost use Rattle.multimap_walks.specs.WritingWalk.{entry_values_mut_cells};

    fn drop(self)
        ensures* ends { sem 𝓛 (ends_with V.row (entry_values_mut_cells self.entry)) }
    {
        let EntryValuesMut {
            keys: _,
            values: _,
            left: _,
        } = self;
    }
}
