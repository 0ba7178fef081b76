//! Commands that write a value in its place, or a pair where its key is absent.
ghost use Rattle.multimap_tool.specs.Private.MapSteps.{IsOwnStepInPlace, sets_end};

use crate::commands::Command;
use crate::replies::Reply;
use ordered_multimap::{End, ListOrderedMultimap};
use std::alloc::Allocator;
use std::hash::{BuildHasher, Hash};
use std::mem::replace;

/// Writes the key's first value.
pub(crate) fn set_first<K: Eq + Hash + Copy, V: Copy, S: BuildHasher, A: Allocator + Copy>(
    map: &mut ListOrderedMultimap<K, V, S, A>,
    key: &K,
    value: V,
) -> Reply<K, V, A>
    ensures { IsOwnStepInPlace K.eq (Command.SetFirst key.now value) map.old map.new result }
{
    match map.get_mut(key) {
        Some(first) => Reply::Old(Some(replace(first, value))),
        None => Reply::Old(None),
    }
}

/// Writes the value of the pair at an end.
pub(crate) fn set_end<K: Eq + Hash + Copy, V: Copy, S: BuildHasher, A: Allocator + Copy>(
    map: &mut ListOrderedMultimap<K, V, S, A>,
    end: End,
    value: V,
) -> Reply<K, V, A>
    ensures { IsOwnStepInPlace K.eq (sets_end end value) map.old map.new result }
{
    if map.is_empty() {
        return Reply::Pair(None);
    }
    match end {
        End::Front => {
            let (key, first) = map.first_mut();
            Reply::Pair(Some((*key, replace(first, value))))
        }
        End::Back => {
            let (key, last) = map.last_mut();
            Reply::Pair(Some((*key, replace(last, value))))
        }
    }
}

/// Appends the pair unless the key is present. The reply is the key's first value then.
pub(crate) fn or_insert<K: Eq + Hash + Copy, V: Copy, S: BuildHasher, A: Allocator + Copy>(
    map: &mut ListOrderedMultimap<K, V, S, A>,
    key: K,
    value: V,
) -> Reply<K, V, A>
    ensures { IsOwnStepInPlace K.eq (Command.OrInsert key value) map.old map.new result }
{
    match map.entry(key).or_insert(value) {
        Ok(first) => Reply::Value(Some(*first)),
        Err(_) => Reply::NoMemory,
    }
}
