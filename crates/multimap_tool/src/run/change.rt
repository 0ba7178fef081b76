//! Commands that change the map in its place, and lower none of its rooms.
ghost use Rattle.std.specs.Prelude.{◌≡◌, option_map};
ghost use Rattle.ordered_multimap.specs.Popped.{popped, popped_pair};
ghost use Rattle.ordered_multimap.specs.PopAnswers.{popped_of};
ghost use Rattle.ordered_multimap.specs.Rooms.{KeepsRooms};
ghost use Rattle.multimap_tool.specs.Private.MapSteps.{IsOwnStepInPlace};
ghost use Rattle.multimap_tool.specs.Step.{as_pop};

pub(crate) mod drained;
pub(crate) mod written;

use crate::commands::Command;
use crate::replies::{Popped, Reply};
use ordered_multimap::list_ordered_multimap::{Entry, KeyWrapper};
use ordered_multimap::{End, ListOrderedMultimap};
use std::alloc::Allocator;
use std::hash::{BuildHasher, Hash};

/// Appends the pair.
pub(crate) fn append<K: Eq + Hash + Copy, V: Copy, S: BuildHasher, A: Allocator + Copy>(
    map: &mut ListOrderedMultimap<K, V, S, A>,
    key: K,
    value: V,
) -> Reply<K, V, A>
    ensures { IsOwnStepInPlace K.eq (Command.Append key value) map.old map.new result }
{
    match map.append(key, value) {
        Ok(present) => Reply::Appended(present),
        Err(_) => Reply::NoMemory,
    }
}

/// Puts the pair in the place of all others of its key.
pub(crate) fn insert<K: Eq + Hash + Copy, V: Copy, S: BuildHasher, A: Allocator + Copy>(
    map: &mut ListOrderedMultimap<K, V, S, A>,
    key: K,
    value: V,
) -> Reply<K, V, A>
    ensures { IsOwnStepInPlace K.eq (Command.Insert key value) map.old map.new result }
{
    match map.insert(key, value) {
        Ok(old) => Reply::Old(old),
        Err(_) => Reply::NoMemory,
    }
}

/// Takes the value at an index among the key's values out, if the key has others.
pub(crate) fn remove_at<K: Eq + Hash + Copy, V: Copy, S: BuildHasher, A: Allocator + Copy>(
    map: &mut ListOrderedMultimap<K, V, S, A>,
    key: K,
    index: usize,
) -> Reply<K, V, A>
    ensures { IsOwnStepInPlace K.eq (Command.RemoveAt key index) map.old map.new result }
{
    match map.entry(key) {
        Entry::Occupied(mut entry) => Reply::Value(entry.remove_at(index)),
        Entry::Vacant(entry) => {
            entry.into_key();
            Reply::Value(None)
        }
    }
}

/// Takes the pair at an end out.
pub(crate) fn pop<K: Eq + Hash + Copy, V: Copy, S: BuildHasher, A: Allocator + Copy>(
    map: &mut ListOrderedMultimap<K, V, S, A>,
    end: End,
) -> Option<Popped<K, V>>
    ensures lists { map.new.lists ≡ popped K.eq end map.old.lists }
    ensures popped { option_map as_pop result ≡ popped_pair K.eq end map.old.lists.pairs }
    ensures rooms { KeepsRooms map.old map.new }
{
    match end {
        End::Front => map.pop_front_with(|pair| to_popped(pair)),
        End::Back => map.pop_back_with(|pair| to_popped(pair)),
    }
}

/// What a pop returns, with a copy of the key.
fn to_popped<K: Copy, V>(pair: Option<(KeyWrapper<'_, K>, V)>) -> Option<Popped<K, V>>
    ensures { option_map as_pop result ≡ option_map popped_of pair.entry }
{
    match pair {
        Some((KeyWrapper::Borrowed(key), value)) => Some(Popped {
            owned: false,
            key: *key,
            value,
        }),
        Some((KeyWrapper::Owned(key), value)) => Some(Popped {
            owned: true,
            key,
            value,
        }),
        None => None,
    }
}

/// Takes all pairs out.
pub(crate) fn clear<K: Eq + Hash + Copy, V: Copy, S: BuildHasher, A: Allocator + Copy>(
    map: &mut ListOrderedMultimap<K, V, S, A>,
) -> Reply<K, V, A>
    ensures { IsOwnStepInPlace K.eq Command.Clear map.old map.new result }
{
    map.clear();
    Reply::Done
}
