//! A map of a JSON value that holds both of its lists: an object of its keys and its pairs.
ghost use Rattle.std.specs.Prelude.{◌≡◌, ◌⊎◌, [], true, false, Bool, length, option_map};
ghost use Rattle.std.specs.Prelude.{IfOk, IfErr, OnOk, IfSome, None};
ghost use Rattle.serde_json.specs.Data.{Data};
ghost use Rattle.serde_json.specs.View.{view, items_view};
ghost use Rattle.ordered_multimap.specs.Lists.{empty_lists};
ghost use Rattle.ordered_multimap.specs.TapeNumbers.{AreUnused};
ghost use Rattle.multimap_tool.specs.JsonLists.{array_at, both_arrays, has_value};
ghost use Rattle.multimap_tool.specs.Json.{UnlessMemory};
ghost use Rattle.multimap_tool.specs.JsonLists.{AreReadLists, IsListsFault, IsPairsFault};
ghost use Rattle.multimap_tool.specs.Private.JsonSteps.{AnswersLists};

use super::faults::{PartFault, ReadFault};
use super::items::{read_key, two_parts};
use super::listed::{append_keys, append_listed_pairs, refused_value, take_placeholder_pairs};
use super::reads::{ReadKey, ReadValue};
use ordered_multimap::ListOrderedMultimap;
use serde_json::Value;
use std::alloc::{Allocator, Global};
use std::hash::BuildHasher;

/// The arrays `keys` and `pairs` of an object that has exactly these members.
pub(super) fn both_arrays(value: &Value) -> Option<(&Vec<Value>, &Vec<Value>)>
    ensures { option_map (λ both. (items_view both.0.now.items, items_view both.1.now.items)) result
        ≡ both_arrays (view value.now) }
{
    let Some(members) = value.as_object() else {
        return None;
    };
    if members.len() != 2 {
        return None;
    }
    match (array_at(value, "keys"), array_at(value, "pairs")) {
        (Some(keys), Some(pairs)) => Some((keys, pairs)),
        _ => None,
    }
}

/// The array that an object has at a name.
fn array_at<'v>(value: &'v Value, name: &str) -> Option<&'v Vec<Value>>
    ensures { option_map (λ found. items_view found.now.items) result
        ≡ array_at name.now (view value.now) }
{
    match value.get(name) {
        Some(found) => found.as_array(),
        None => None,
    }
}

/// A map of the items of both arrays.
pub(super) fn read_lists<K: ReadKey, V: ReadValue, S: BuildHasher + Drop, A: Allocator + Copy>(
    alloc: A,
    memory: Global,
    state: S,
    keys: &[Value],
    pairs: &[Value],
) -> Result<ListOrderedMultimap<K, V, S, A>, ReadFault>
    ensures { AnswersLists K.json V.json K.is_part V.is_part K.eq
        (items_view keys.now) (items_view pairs.now) state result }
{
    match first_value::<V>(memory, pairs) {
        Ok(Some(value)) => read_with_value(alloc, memory, state, keys, pairs, value),
        Ok(None) => read_without_value(alloc, memory, state, keys, pairs),
        Err(fault) => Err(fault),
    }
}

/// The part of the first pair that is a value, if it is one.
fn first_value<V: ReadValue>(memory: Global, pairs: &[Value]) -> Result<Option<&Value>, ReadFault>
    ensures value { IfOk result (λ found. IfSome found (λ part. V.is_part (view part.now) ≡ true)) }
    ensures none { IfOk result (λ found. found ≡ None
        → has_value V.is_part (items_view pairs.now) ≡ false) }
    ensures fault { IfErr result (λ fault. fault ≡ ReadFault.OutOfMemory) }
{
    let Some(item) = pairs.first() else {
        return Ok(None);
    };
    let Some((_, part)) = two_parts(item) else {
        return Ok(None);
    };
    match V::from_part(memory, part) {
        Ok(_) => Ok(Some(part)),
        Err(PartFault::Refused) => Ok(None),
        Err(PartFault::OutOfMemory) => Err(ReadFault::OutOfMemory),
    }
}

/// Reads both arrays where a value is known that can stand for each listed key until its own pairs
/// come.
fn read_with_value<K: ReadKey, V: ReadValue, S: BuildHasher + Drop, A: Allocator + Copy>(
    alloc: A,
    memory: Global,
    state: S,
    keys: &[Value],
    pairs: &[Value],
    value: &Value,
) -> Result<ListOrderedMultimap<K, V, S, A>, ReadFault>
    requires value { V.is_part (view value.now) ≡ true }
    ensures { AnswersLists K.json V.json K.is_part V.is_part K.eq
        (items_view keys.now) (items_view pairs.now) state result }
{
    let mut map = ListOrderedMultimap::with_hasher(alloc, state);
    match append_lists(memory, keys, pairs, value, &mut map) {
        Ok(()) => Ok(map),
        Err(fault) => Err(fault),
    }
}

/// Puts the keys and the pairs into an empty map: each key first with the value, so that the keys
/// come in their order, and these pairs go again once all others are there.
fn append_lists<K: ReadKey, V: ReadValue, S: BuildHasher, A: Allocator + Copy>(
    memory: Global,
    keys: &[Value],
    pairs: &[Value],
    value: &Value,
    map: &mut ListOrderedMultimap<K, V, S, A>,
) -> Result<(), ReadFault>
    requires value { V.is_part (view value.now) ≡ true }
    requires empty { map.old.lists ≡ empty_lists }
    requires unused { AreUnused map.old.tape }
    ensures read { OnOk result (AreReadLists K.json V.json K.is_part V.is_part K.eq
        (items_view keys.now) (items_view pairs.now) map.new.lists) }
    ensures fault { IfErr result (UnlessMemory (IsListsFault K.json V.json K.is_part V.is_part K.eq
        (items_view keys.now) (items_view pairs.now))) }
    ensures hasher { map.new.hasher ≡ map.old.hasher }
    ensures freed { OnOk result (map.new.tape.freed ≡ length map.new.lists.keys) }
{
    append_keys(memory, keys, value, map)?;
    append_listed_pairs(memory, pairs, map)?;
    take_placeholder_pairs(map)
}

/// Reads both arrays where the first pair has no value, or there is none: unless both are empty
/// there is a fault.
fn read_without_value<K: ReadKey, V: ReadValue, S: BuildHasher + Drop, A: Allocator + Copy>(
    alloc: A,
    memory: Global,
    state: S,
    keys: &[Value],
    pairs: &[Value],
) -> Result<ListOrderedMultimap<K, V, S, A>, ReadFault>
    requires none { has_value V.is_part (items_view pairs.now) ≡ false }
    ensures { AnswersLists K.json V.json K.is_part V.is_part K.eq
        (items_view keys.now) (items_view pairs.now) state result }
{
    if keys.is_empty() && pairs.is_empty() {
        return Ok(ListOrderedMultimap::with_hasher(alloc, state));
    }
    // Truths stand for the keys: no map of them is returned, but each key is looked up in one.
    let mut listed: ListOrderedMultimap<K, bool, S, A> = ListOrderedMultimap::with_hasher(
        alloc, state,
    );
    match append_keys(memory, keys, &Value::from(true), &mut listed) {
        Ok(()) => Err(fault_without_value(memory, pairs, &listed)),
        Err(fault) => Err(fault),
    }
}

/// What is wrong with pairs of which the first has no value, or that are none, where all keys are
/// listed.
fn fault_without_value<K: ReadKey, S: BuildHasher, A: Allocator>(
    memory: Global,
    pairs: &[Value],
    listed: &ListOrderedMultimap<K, bool, S, A>,
) -> ReadFault
    ensures { (is_value : Data → Bool) → has_value is_value (items_view pairs.now) ≡ false
        → UnlessMemory (λ fault. IsPairsFault K.json K.is_part is_value K.eq 0
        listed.now.lists.keys (items_view pairs.now) fault
        ⊎ ((pairs.now ≡ []) × (fault ≡ ReadFault.UnusedKey 0))) result }
{
    let Some(item) = pairs.first() else {
        return ReadFault::UnusedKey(0);
    };
    match read_key(memory, 0, item) {
        Ok((key, _)) => refused_value(0, &key, listed),
        Err(fault) => fault,
    }
}
