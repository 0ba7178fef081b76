//! Commands that ask for room, or give it back.
ghost use Rattle.std.specs.Prelude.{◌≡◌, ◌≤◌, ◌+◌, length};
ghost use Rattle.ordered_multimap.specs.TapeNumbers.{AreUnused};
ghost use Rattle.multimap_tool.specs.Private.MapSteps.{IsOwnStepInPlace};
ghost use Rattle.multimap_tool.specs.Step.{IsOwnStep};

use crate::commands::Command;
use crate::replies::Reply;
use ordered_multimap::ListOrderedMultimap;
use std::alloc::Allocator;
use std::hash::{BuildHasher, Hash};

/// Makes room for this many more keys and values. Where memory is refused, one of both may have
/// grown.
pub(crate) fn reserve<K: Eq + Hash + Copy, V: Copy, S: BuildHasher, A: Allocator + Copy>(
    map: &mut ListOrderedMultimap<K, V, S, A>,
    keys: usize,
    values: usize,
) -> Reply<K, V, A>
    ensures step { IsOwnStepInPlace K.eq (Command.Reserve keys values) map.old map.new result }
    ensures key_room { result ≡ Reply.Done
        → length map.old.lists.keys + keys ≤ map.new.key_room }
    ensures value_room { result ≡ Reply.Done
        → length map.old.lists.pairs + values ≤ map.new.value_room }
{
    // By both calls the proof learns that the rooms hold what is there.
    let _rooms = (map.keys_capacity(), map.values_capacity());
    if map.reserve_keys(keys).is_err() {
        return Reply::NoMemory;
    }
    match map.reserve_values(values) {
        Ok(()) => Reply::Done,
        Err(_) => Reply::NoMemory,
    }
}

/// Moves the map to new memory, without holes.
pub(crate) fn pack_to_fit<K: Eq + Hash + Copy, V: Copy, S: BuildHasher, A: Allocator + Copy>(
    map: &mut ListOrderedMultimap<K, V, S, A>,
) -> Reply<K, V, A>
    ensures step { IsOwnStep K.eq Command.PackToFit map.old.lists result map.new.lists }
    ensures hasher { map.new.hasher ≡ map.old.hasher }
    ensures packed { result ≡ Reply.Done → AreUnused map.new.tape }
{
    match map.pack_to_fit() {
        Ok(()) => Reply::Done,
        Err(_) => Reply::NoMemory,
    }
}
