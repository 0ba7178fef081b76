//! Commands that change nothing.
ghost use Rattle.multimap_tool.specs.Step.{IsOwnStep};

pub(crate) mod lists;
pub(crate) mod walk;

use crate::commands::{Command, Ends};
use crate::replies::Reply;
use crate::run::ask::walk::walk;
use ordered_multimap::ListOrderedMultimap;
use std::alloc::Allocator;
use std::hash::{BuildHasher, Hash};

/// The key's first value.
pub(crate) fn first_value<K: Eq + Hash + Copy, V: Copy, S: BuildHasher, A: Allocator + Copy>(
    map: &ListOrderedMultimap<K, V, S, A>,
    key: &K,
) -> Reply<K, V, A>
    ensures { IsOwnStep K.eq (Command.Get key.now) map.now.lists result map.now.lists }
{
    Reply::Value(map.get(key).copied())
}

/// The key's values, as a walk takes them.
pub(crate) fn walk_values<K: Eq + Hash + Copy, V: Copy, S: BuildHasher, A: Allocator + Copy>(
    alloc: A,
    map: &ListOrderedMultimap<K, V, S, A>,
    key: &K,
    ends: &Ends<A>,
) -> Reply<K, V, A>
    ensures { IsOwnStep K.eq (Command.All key.now ends.now) map.now.lists result map.now.lists }
{
    match walk(alloc, map.get_all(key), ends) {
        Ok(values) => Reply::Values(values),
        Err(_) => Reply::NoMemory,
    }
}

/// All pairs, as a walk takes them.
pub(crate) fn walk_pairs<K: Eq + Hash + Copy, V: Copy, S: BuildHasher, A: Allocator + Copy>(
    alloc: A,
    map: &ListOrderedMultimap<K, V, S, A>,
    ends: &Ends<A>,
) -> Reply<K, V, A>
    ensures { IsOwnStep K.eq (Command.Pairs ends.now) map.now.lists result map.now.lists }
{
    match walk(alloc, map.iter(), ends) {
        Ok(pairs) => Reply::Pairs(pairs),
        Err(_) => Reply::NoMemory,
    }
}

/// All keys, as a walk takes them.
pub(crate) fn walk_keys<K: Eq + Hash + Copy, V: Copy, S: BuildHasher, A: Allocator + Copy>(
    alloc: A,
    map: &ListOrderedMultimap<K, V, S, A>,
    ends: &Ends<A>,
) -> Reply<K, V, A>
    ensures { IsOwnStep K.eq (Command.Keys ends.now) map.now.lists result map.now.lists }
{
    match walk(alloc, map.keys(), ends) {
        Ok(keys) => Reply::Keys(keys),
        Err(_) => Reply::NoMemory,
    }
}

/// The values of all pairs, as a walk takes them.
pub(crate) fn walk_all_values<K: Eq + Hash + Copy, V: Copy, S: BuildHasher, A: Allocator + Copy>(
    alloc: A,
    map: &ListOrderedMultimap<K, V, S, A>,
    ends: &Ends<A>,
) -> Reply<K, V, A>
    ensures { IsOwnStep K.eq (Command.Values ends.now) map.now.lists result map.now.lists }
{
    match walk(alloc, map.values(), ends) {
        Ok(values) => Reply::Values(values),
        Err(_) => Reply::NoMemory,
    }
}
