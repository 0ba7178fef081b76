//! Room for one more key and one more value.
ghost use Rattle.std.specs.Prelude.{◌≡◌, ◌<◌, length};
ghost use Rattle.std.specs.FinMap.{len};
ghost use Rattle.multimap_slots.specs.Tapes.{HasTapeRoomFor};
ghost use Rattle.ordered_multimap.specs.Private.Append.{HasCountedChains, MakesEndRoom, MakesKeyRoom, MakesPairRoom, MakesValueRoom};
ghost use Rattle.ordered_multimap.specs.Private.Relocations.{AreChained};

use super::compact::compact;
use multimap_slots::{SlotList, Tape};
use multimap_table::KeyTable;
use multimap_walks::{KeyLink, PackedLink, ValueLink};
use std::alloc::{AllocError, Allocator};

/// Makes room for one more value behind the others, where half of the slots or more are free. It
/// closes the holes if the last slot is in use, and takes no memory.
#[tactic(auto, using(crate::proofs::Compact::Dense::same_places))]
#[inline(always)]
pub(super) fn make_end_room<K, V: Drop, A: Allocator>(
    keys: &mut SlotList<K, KeyLink, A>,
    values: &mut Tape<V, ValueLink, A, PackedLink>,
)
    requires chains { AreChained keys.old values.old.list }
    requires fits { HasTapeRoomFor values.old 0 }
    requires slots { 0 < values.old.list.capacity }
    ensures { MakesEndRoom keys.old keys.new values.old values.new }
{
    // The length tells the proof how many slots are in use.
    let _len = values.len();
    if !values.has_end_room() {
        compact(keys, values);
    }
}

/// Makes room for one more value behind the others. Where one more fits but the last slot is in
/// use, it closes the holes and takes no memory.
#[tactic(auto, using(crate::proofs::Compact::Dense::grown_places, crate::proofs::Compact::Dense::same_places))]
#[inline(always)]
pub(super) fn make_value_room<K, V: Drop, A: Allocator + Copy>(
    keys: &mut SlotList<K, KeyLink, A>,
    values: &mut Tape<V, ValueLink, A, PackedLink>,
) -> Result<(), AllocError>
    requires chains { AreChained keys.old values.old.list }
    ensures { MakesValueRoom keys.old keys.new values.old values.new result }
{
    if values.len() >= values.capacity() {
        return values.reserve(1);
    }
    make_end_room(keys, values);
    Ok(())
}

/// Makes room for so many more keys and their rows. Where list or table grows, both do, so that the
/// room at least doubles. The smaller of them grows last, so that the room stays as it was where
/// memory is refused.
pub(super) fn make_key_room<K, A: Allocator + Copy>(
    keys: &mut SlotList<K, KeyLink, A>,
    table: &mut KeyTable<A>,
    additional: usize,
) -> Result<(), AllocError>
    requires counted { len table.old.rows ≡ length keys.old.order }
    ensures { MakesKeyRoom keys.old keys.new table.old table.new additional result }
{
    let room = keys.capacity().min(table.capacity());
    if additional <= room - keys.len() {
        return Ok(());
    }
    let Some(doubled) = room.checked_mul(2) else {
        return Err(AllocError);
    };
    let wanted = additional.max(doubled - keys.len());
    if keys.capacity() <= table.capacity() {
        table.reserve(wanted)?;
        keys.reserve(wanted)
    } else {
        keys.reserve(wanted)?;
        table.reserve(wanted)
    }
}

/// Makes room for one more key and one more value.
#[tactic(auto, using(crate::proofs::Compact::Dense::grown_keys))]
pub(super) fn make_room<K, V: Drop, A: Allocator + Copy>(
    keys: &mut SlotList<K, KeyLink, A>,
    table: &mut KeyTable<A>,
    values: &mut Tape<V, ValueLink, A, PackedLink>,
) -> Result<(), AllocError>
    requires { HasCountedChains keys.old table.old values.old.list }
    ensures { MakesPairRoom keys.old keys.new table.old table.new values.old values.new result }
{
    make_key_room(keys, table, 1)?;
    make_value_room(keys, values)
}
