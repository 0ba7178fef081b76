//! The steps by which a map is read whose keys are listed: the keys, the pairs under them, and the
//! end of the pairs that stood for the keys.
ghost use Rattle.std.specs.Prelude.{◌≡◌, ◌+◌, [], ◌∷◌, ◌++◌, true, false, cond};
ghost use Rattle.std.specs.Prelude.{IfErr, OnOk, length, take, drop, option_map};
ghost use Rattle.std.specs.Result.{result_err};
ghost use Rattle.std.specs.Map.{keys_of};
ghost use Rattle.serde_json.specs.View.{view, items_view};
ghost use Rattle.ordered_multimap.specs.End.TheVariants.{Front};
ghost use Rattle.ordered_multimap.specs.Lists.{IsWellFormed, empty_lists, lists};
ghost use Rattle.ordered_multimap.specs.Keys.{is_listed};
ghost use Rattle.ordered_multimap.specs.Popped.{popped_pair};
ghost use Rattle.ordered_multimap.specs.PopAnswers.{IsPopped, popped_of};
ghost use Rattle.multimap_tool.specs.JsonLists.{AreReadKeys, IsReadKey, IsKeysFault};
ghost use Rattle.multimap_tool.specs.JsonLists.{IsListedKeyFault, IsPairFault, IsPairsFault};
ghost use Rattle.multimap_tool.specs.Json.{UnlessMemory};
ghost use Rattle.multimap_tool.specs.JsonLists.{first_unused};
ghost use Rattle.multimap_tool.specs.Private.JsonSteps.{AppendsPair, AppendsPairs, AppendsUnder, ReadsInto, is_owned_pop};

use super::faults::{PartFault, ReadFault};
use super::items::read_key;
use super::reads::{ReadKey, ReadValue};
use ordered_multimap::ListOrderedMultimap;
use ordered_multimap::list_ordered_multimap::KeyWrapper;
use serde_json::Value;
use std::alloc::{Allocator, Global};
use std::hash::{BuildHasher, Hash};

/// Appends each key of the items to an empty map, with this value.
pub(super) fn append_keys<K: ReadKey, V: ReadValue, S: BuildHasher, A: Allocator + Copy>(
    memory: Global,
    items: &[Value],
    value: &Value,
    map: &mut ListOrderedMultimap<K, V, S, A>,
) -> Result<(), ReadFault>
    requires value { V.is_part (view value.now) ≡ true }
    requires empty { map.old.lists ≡ empty_lists }
    ensures read { ReadsInto map.old map.new
        (AreReadKeys K.json K.is_part K.eq (items_view items.now) map.new.lists.keys) result }
    ensures placeholder_pairs { OnOk result (keys_of map.new.lists.pairs ≡ map.new.lists.keys) }
    ensures fault { IfErr result (UnlessMemory (IsKeysFault K.json K.is_part K.eq 0 []
        (items_view items.now))) }
{
    // Ignored if refused: each append makes the room that it needs.
    let _reserved = map.reserve_keys(items.len());
    for (index, item) in items.iter().enumerate() {
        append_key(memory, index, item, value, map)?;
    }
    Ok(())
}

/// Appends the key of the item at a position, with this value.
#[tactic(auto, using(crate::proofs::Callers::JsonParts::still_unused))]
fn append_key<K: ReadKey, V: ReadValue, S: BuildHasher, A: Allocator + Copy>(
    memory: Global,
    index: usize,
    item: &Value,
    value: &Value,
    map: &mut ListOrderedMultimap<K, V, S, A>,
) -> Result<(), ReadFault>
    requires value { V.is_part (view value.now) ≡ true }
    requires placeholder_pairs { keys_of map.old.lists.pairs ≡ map.old.lists.keys }
    ensures read { ReadsInto map.old map.new
        ((k : K) × IsReadKey K.json K.is_part K.eq (view item.now) k
        × (is_listed K.eq map.old.lists.keys k ≡ false)
        × (map.new.lists.keys ≡ map.old.lists.keys ++ k ∷ [])) result }
    ensures placeholder_pairs { OnOk result (keys_of map.new.lists.pairs ≡ map.new.lists.keys) }
    ensures fault { IfErr result (UnlessMemory (IsListedKeyFault K.json K.is_part K.eq index
        map.old.lists.keys (view item.now))) }
{
    let key = match K::from_part(memory, item) {
        Ok(key) => key,
        Err(PartFault::Refused) => return Err(ReadFault::BadListedKey(index)),
        Err(PartFault::OutOfMemory) => return Err(ReadFault::OutOfMemory),
    };
    // It is a value: what is refused here is memory.
    let Ok(value) = V::from_part(memory, value) else {
        return Err(ReadFault::OutOfMemory);
    };
    let Ok(present) = map.append(key, value) else {
        return Err(ReadFault::OutOfMemory);
    };
    if present {
        return Err(ReadFault::RepeatedKey(index));
    }
    Ok(())
}

/// Appends the pairs of the items, whose keys are all listed.
pub(super) fn append_listed_pairs<K: ReadKey, V: ReadValue, S: BuildHasher, A: Allocator + Copy>(
    memory: Global,
    items: &[Value],
    map: &mut ListOrderedMultimap<K, V, S, A>,
) -> Result<(), ReadFault>
    ensures read { ReadsInto map.old map.new (AppendsPairs K.json V.json K.is_part V.is_part K.eq
        (items_view items.now) map.old.lists map.new.lists) result }
    ensures fault { IfErr result (UnlessMemory (IsPairsFault K.json K.is_part V.is_part K.eq
        0 map.old.lists.keys (items_view items.now))) }
{
    // Ignored if refused, as for the keys.
    let _reserved = map.reserve_values(items.len());
    for (index, item) in items.iter().enumerate() {
        append_listed_pair(memory, index, item, map)?;
    }
    Ok(())
}

/// Appends the pair of the item at a position, whose key is listed.
fn append_listed_pair<K: ReadKey, V: ReadValue, S: BuildHasher, A: Allocator + Copy>(
    memory: Global,
    index: usize,
    item: &Value,
    map: &mut ListOrderedMultimap<K, V, S, A>,
) -> Result<(), ReadFault>
    ensures read { ReadsInto map.old map.new (AppendsPair K.json V.json K.is_part V.is_part K.eq
        (view item.now) map.old.lists map.new.lists) result }
    ensures fault { IfErr result (UnlessMemory (IsPairFault K.json K.is_part V.is_part K.eq
        index map.old.lists.keys (view item.now))) }
{
    let (key, part) = match read_key(memory, index, item) {
        Ok(read) => read,
        Err(fault) => return Err(fault),
    };
    let value = match V::from_part(memory, part) {
        Ok(value) => value,
        Err(PartFault::Refused) => return Err(refused_value(index, &key, map)),
        Err(PartFault::OutOfMemory) => return Err(ReadFault::OutOfMemory),
    };
    append_under(index, key, value, map)
}

/// What is wrong with a pair of this key that has no value.
pub(super) fn refused_value<K: Eq + Hash, V, S: BuildHasher, A: Allocator>(
    index: usize,
    key: &K,
    map: &ListOrderedMultimap<K, V, S, A>,
) -> ReadFault
    ensures { result ≡ cond (is_listed K.eq map.now.lists.keys key.now)
        (ReadFault.BadValue index) (ReadFault.UnlistedKey index) }
{
    // By this call the proof learns that the lists are well formed.
    let _keys = map.keys_len();
    if map.contains_key(key) {
        ReadFault::BadValue(index)
    } else {
        ReadFault::UnlistedKey(index)
    }
}

/// Appends a pair whose key is listed.
#[tactic(auto, using(crate::proofs::Callers::JsonParts::still_unused))]
fn append_under<K: Eq + Hash + Drop, V: Drop, S: BuildHasher, A: Allocator + Copy>(
    index: usize,
    key: K,
    value: V,
    map: &mut ListOrderedMultimap<K, V, S, A>,
) -> Result<(), ReadFault>
    ensures read { ReadsInto map.old map.new
        (AppendsUnder K.eq key value map.old.lists map.new.lists) result }
    ensures fault { IfErr result (UnlessMemory (λ fault. (fault ≡ ReadFault.UnlistedKey index)
        × (is_listed K.eq map.old.lists.keys key ≡ false))) }
{
    let _keys = map.keys_len();
    let Ok(present) = map.append(key, value) else {
        return Err(ReadFault::OutOfMemory);
    };
    if !present {
        return Err(ReadFault::UnlistedKey(index));
    }
    Ok(())
}

/// Takes out the pairs that stand for the keys: the first ones, one for each key. A key that leaves
/// with one of them is the key of no other pair.
pub(super) fn take_placeholder_pairs<K: Eq + Hash + Drop, V: Drop, S: BuildHasher, A: Allocator>(
    map: &mut ListOrderedMultimap<K, V, S, A>,
) -> Result<(), ReadFault>
    requires placeholder_pairs { keys_of (take (length map.old.lists.keys) map.old.lists.pairs)
        ≡ map.old.lists.keys }
    ensures lists { OnOk result (map.new.lists
        ≡ lists map.old.lists.keys (drop (length map.old.lists.keys) map.old.lists.pairs)) }
    ensures used { result_err result ≡ first_unused K.eq 0 map.old.lists.keys
        (keys_of (drop (length map.old.lists.keys) map.old.lists.pairs)) }
    ensures hasher { map.new.hasher ≡ map.old.hasher }
    ensures freed { OnOk result (map.new.tape.freed ≡ map.old.tape.freed
        + length map.old.lists.keys) }
{
    for index in 0..map.keys_len() {
        if is_last_of_its_key(map) {
            return Err(ReadFault::UnusedKey(index));
        }
    }
    Ok(())
}

/// Takes the first pair out: whether it was the last of its key.
fn is_last_of_its_key<K: Eq + Hash + Drop, V: Drop, S: BuildHasher, A: Allocator>(
    map: &mut ListOrderedMultimap<K, V, S, A>,
) -> bool
    ensures well_formed { IsWellFormed K.eq map.old.lists }
    ensures popped { IsPopped K.eq Front map.old map.new }
    ensures last { result ≡ is_owned_pop (popped_pair K.eq Front map.old.lists.pairs) }
{
    let _keys = map.keys_len();
    map.pop_front_with(|popped| has_left_with_key(popped))
}

/// Whether a pop handed the key out.
fn has_left_with_key<K: Drop, V: Drop>(popped: Option<(KeyWrapper<'_, K>, V)>) -> bool
    ensures { result ≡ is_owned_pop (option_map popped_of popped.entry) }
{
    match popped {
        Some((KeyWrapper::Borrowed(_), _)) => false,
        Some((KeyWrapper::Owned(_), _)) => true,
        None => false,
    }
}
