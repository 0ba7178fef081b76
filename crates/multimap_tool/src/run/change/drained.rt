//! Commands whose replies list the values that leave. The room for them is taken before the map is
//! changed.
ghost use Rattle.std.specs.Prelude.{◌≡◌, ◌+◌, ◌≤◌, ◌++◌, Some, length, map, vec_capacity};
ghost use Rattle.ordered_multimap.specs.Drains.{drain_left, KeepsMap};
ghost use Rattle.multimap_tool.specs.Private.MapSteps.{IsOwnStepInPlace};

use crate::commands::Command;
use crate::replies::Reply;
use ordered_multimap::ListOrderedMultimap;
use ordered_multimap::list_ordered_multimap::EntryValuesDrain;
use std::alloc::Allocator;
use std::hash::{BuildHasher, Hash};

/// Puts the pair in the place of all others of its key, and lists their values.
pub(crate) fn insert_all<K: Eq + Hash + Copy, V: Copy, S: BuildHasher, A: Allocator + Copy>(
    alloc: A,
    map: &mut ListOrderedMultimap<K, V, S, A>,
    key: K,
    value: V,
) -> Reply<K, V, A>
    ensures { IsOwnStepInPlace K.eq (Command.InsertAll key value) map.old map.new result }
{
    let Ok(mut values) = Vec::with_capacity(alloc, map.entry_len(&key)) else {
        return Reply::NoMemory;
    };
    match map.insert_all(key, value) {
        Ok(mut drain) => list_values(&mut values, &mut drain),
        Err(_) => return Reply::NoMemory,
    }
    Reply::Values(values)
}

/// Takes the key out, and lists its values.
pub(crate) fn remove_all<K: Eq + Hash + Copy, V: Copy, S: BuildHasher, A: Allocator + Copy>(
    alloc: A,
    map: &mut ListOrderedMultimap<K, V, S, A>,
    key: &K,
) -> Reply<K, V, A>
    ensures { IsOwnStepInPlace K.eq (Command.RemoveAll key.now) map.old map.new result }
{
    let Ok(mut values) = Vec::with_capacity(alloc, map.entry_len(key)) else {
        return Reply::NoMemory;
    };
    let mut drain = map.remove_all(key);
    list_values(&mut values, &mut drain);
    drop(drain);
    Reply::Values(values)
}

/// Takes the key out. The reply is the stored key with its values.
pub(crate) fn remove_entry_all<K: Eq + Hash + Copy, V: Copy, S: BuildHasher, A: Allocator + Copy>(
    alloc: A,
    map: &mut ListOrderedMultimap<K, V, S, A>,
    key: &K,
) -> Reply<K, V, A>
    ensures { IsOwnStepInPlace K.eq (Command.RemoveEntryAll key.now) map.old map.new result }
{
    let Ok(mut values) = Vec::with_capacity(alloc, map.entry_len(key)) else {
        return Reply::NoMemory;
    };
    let mut stored = None;
    let mut drain = map.remove_entry_with_all(key, &mut stored);
    take_values(&mut values, &mut drain);
    drop(drain);
    match stored {
        Some(stored) => Reply::List(Some((stored, values))),
        None => Reply::List(None),
    }
}

/// Puts the values that are left of the drain at the end, each as an item of a reply.
fn list_values<K: Eq + Hash, V: Drop, S: BuildHasher, A: Allocator>(
    values: &mut Vec<Option<V>, A>,
    drain: &mut EntryValuesDrain<'_, K, V, S, A>,
)
    requires { length values.old.items + length (drain_left drain.old) ≤ vec_capacity values.old }
    ensures values { values.new.items ≡ values.old.items ++ map Some (drain_left drain.old) }
    ensures map { KeepsMap drain.old drain.new }
{
    for _ in 0..drain.len() {
        values.push_reserved(drain.next());
    }
}

/// Puts the values that are left of the drain at the end.
fn take_values<K: Eq + Hash, V: Drop, S: BuildHasher, A: Allocator>(
    values: &mut Vec<V, A>,
    drain: &mut EntryValuesDrain<'_, K, V, S, A>,
)
    requires { length values.old.items + length (drain_left drain.old) ≤ vec_capacity values.old }
    ensures values { values.new.items ≡ values.old.items ++ drain_left drain.old }
    ensures map { KeepsMap drain.old drain.new }
{
    for _ in 0..drain.len() {
        match drain.next() {
            Some(value) => values.push_reserved(value),
            None => unreachable!(),
        }
    }
}
