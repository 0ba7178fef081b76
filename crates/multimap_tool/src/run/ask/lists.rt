//! The reply that lists each key with its values.
ghost use Rattle.std.specs.Prelude.{◌≡◌, List, map, IfOk, OnErr};
ghost use Rattle.multimap_tool.specs.Step.{IsOwnStep, ListsItem};

use crate::commands::Command;
use crate::replies::Reply;
use ordered_multimap::ListOrderedMultimap;
use ordered_multimap::list_ordered_multimap::{EntryValues, KeyValues};
use std::alloc::{AllocError, Allocator};
use std::hash::{BuildHasher, Hash};

/// Each key with its values.
pub(crate) fn list_keys<K: Eq + Hash + Copy, V: Copy, S: BuildHasher, A: Allocator + Copy>(
    alloc: A,
    map: &ListOrderedMultimap<K, V, S, A>,
) -> Reply<K, V, A>
    ensures { IsOwnStep K.eq Command.KeyLists map.now.lists result map.now.lists }
{
    match walk_keys_with_values(alloc, map.pairs()) {
        Ok(lists) => Reply::Lists(lists),
        Err(_) => Reply::NoMemory,
    }
}

/// The keys that are left, each with its values.
fn walk_keys_with_values<K: Copy, V: Copy, A: Allocator + Copy>(
    alloc: A,
    left: KeyValues<'_, K, V, A>,
) -> Result<Vec<(K, Vec<V, A>), A>, AllocError>
    ensures ok { IfOk result (λ lists. map {B = K × List V} (λ p. (p.0, p.1.items)) lists.items
        ≡ map (λ p. (p.0, p.1.left)) left.entry) }
    ensures lists_item { OnErr result (ListsItem left.entry) }
{
    let mut lists = Vec::with_capacity(alloc, left.len())?;
    for (key, values) in left {
        match copied(alloc, values) {
            Ok(values) => lists.push_reserved((*key, values)),
            Err(error) => return Err(error),
        }
    }
    Ok(lists)
}

/// The values that are left.
fn copied<K, V: Copy, A: Allocator>(
    alloc: A,
    left: EntryValues<'_, K, V, A>,
) -> Result<Vec<V, A>, AllocError>
    ensures { IfOk result (λ values. values.items ≡ left.entry.left) }
{
    let mut values = Vec::with_capacity(alloc, left.len())?;
    for value in left {
        values.push_reserved(*value);
    }
    Ok(values)
}
