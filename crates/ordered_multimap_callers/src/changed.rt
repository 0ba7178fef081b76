//! Callers that change maps, proved for every key and value type: each knows the lists afterwards.
//! Which values a walk for writing left none knows, nor what a step of `pairs_mut` leaves.
ghost use Rattle.std.specs.Prelude.{◌≡◌, slice_get, OnErr, OnOk, filter, map as each, nat_eq, nat_lt, not, Some, IfOk, ◌+◌, ◌%◌, ◌^◌, if◌then◌else◌, option_map};
ghost use Rattle.ordered_multimap.specs.Changes.{inserted, removed, all_appended, first_occurrences, kept, end_written};
ghost use Rattle.ordered_multimap.specs.Pairs.{values_of, is_present};
ghost use Rattle.ordered_multimap_callers.specs.Filled.{KeepsKeys};
ghost use Rattle.ordered_multimap.specs.AppendMap.{HasRoomForMap};
ghost use Rattle.ordered_multimap.specs.Lists.{empty_lists, lists};
ghost use Rattle.ordered_multimap.specs.Rooms.{SameRooms};
ghost use Rattle.ordered_multimap.specs.Retain.{kept_stepwise};
ghost use Rattle.ordered_multimap.specs.Keys.{stored_key};
ghost use Rattle.ordered_multimap.specs.Walk.{end_item};

use ordered_multimap::laws::{append_then_pop_back, json_first_occurrence};
use ordered_multimap::list_ordered_multimap::{KeyWrapper, Refused};
use ordered_multimap::{End, ListOrderedMultimap};
use std::alloc::{AllocError, Allocator};
use std::hash::{BuildHasher, Hash};
use std::mem;

/// Reads the first value alone.
pub fn remove_for_first<K: Eq + Hash + Drop, V: Drop, S: BuildHasher, A: Allocator>(
    map: &mut ListOrderedMultimap<K, V, S, A>,
    key: &K,
) -> Option<V>
    ensures lists { map.new.lists ≡ removed K.eq map.old.lists key.now }
    ensures first { result ≡ slice_get (values_of K.eq map.old.lists.pairs key.now) 0 }
{
    let mut drain = map.remove_all(key);
    drain.next()
}

/// Puts a pair in the place of all others of its key.
pub fn replace_all<K: Eq + Hash + Drop, V: Drop, S: BuildHasher, A: Allocator + Copy>(
    map: &mut ListOrderedMultimap<K, V, S, A>,
    key: K,
    value: V,
) -> Result<(), AllocError>
    ensures ok { OnOk result (map.new.lists ≡ inserted K.eq map.old.lists key value) }
    ensures unchanged { OnErr result (map.new.lists ≡ map.old.lists) }
{
    match map.insert_all(key, value) {
        Ok(drain) => {
            drop(drain);
            Ok(())
        }
        Err(_refused) => Err(AllocError),
    }
}

/// Each value becomes a copy of this one.
#[tactic(auto, using(ordered_multimap::proofs::Callers::LentValues::keys_revalued, ordered_multimap::proofs::Callers::LentValues::length_revalued))]
pub fn fill_all<K: Eq + Hash, V: Copy, S: BuildHasher, A: Allocator>(
    map: &mut ListOrderedMultimap<K, V, S, A>,
    value: V,
)
    ensures keeps { KeepsKeys map.old.lists map.new.lists }
    ensures key_room { map.new.key_room ≡ map.old.key_room }
    ensures value_room { map.new.value_room ≡ map.old.value_room }
    ensures tape { map.new.tape ≡ map.old.tape }
{
    for (_, slot) in map.iter_mut() {
        *slot = value;
    }
}

/// The same by a walk over values alone.
#[tactic(auto, using(ordered_multimap::proofs::Callers::LentValues::keys_revalued, ordered_multimap::proofs::Callers::LentValues::length_revalued))]
pub fn fill_values<K: Eq + Hash, V: Copy, S: BuildHasher, A: Allocator>(
    map: &mut ListOrderedMultimap<K, V, S, A>,
    value: V,
)
    ensures keeps { KeepsKeys map.old.lists map.new.lists }
{
    for slot in map.values_mut() {
        *slot = value;
    }
}

/// Each value of the key becomes a copy of this one.
#[tactic(auto, using(ordered_multimap::proofs::Callers::LentValues::keys_revalued, ordered_multimap::proofs::Callers::LentValues::length_revalued))]
pub fn fill_key<K: Eq + Hash, V: Copy, S: BuildHasher, A: Allocator>(
    map: &mut ListOrderedMultimap<K, V, S, A>,
    key: &K,
    value: V,
)
    ensures keeps { KeepsKeys map.old.lists map.new.lists }
{
    for slot in map.get_all_mut(key) {
        *slot = value;
    }
}

/// Each value becomes a copy of this one, by a loop over the reference to the map itself.
#[tactic(auto, using(ordered_multimap::proofs::Callers::LentValues::keys_revalued, ordered_multimap::proofs::Callers::LentValues::length_revalued))]
pub fn fill_by_reference<K: Eq + Hash, V: Copy, S: BuildHasher, A: Allocator>(
    map: &mut ListOrderedMultimap<K, V, S, A>,
    value: V,
)
    ensures keeps { KeepsKeys map.old.lists map.new.lists }
{
    for (_, slot) in map {
        *slot = value;
    }
}

/// Moves all pairs to another map in place of its own, and the keys as the pairs first name them.
pub fn move_all<K: Eq + Hash + Drop, V: Drop, S: BuildHasher, T: BuildHasher, A: Allocator + Copy>(
    from: &mut ListOrderedMultimap<K, V, S, A>,
    to: &mut ListOrderedMultimap<K, V, T, A>,
) -> Result<(), AllocError>
    ensures moved { OnOk result (to.new.lists
        ≡ lists (first_occurrences K.eq from.old.lists.pairs) from.old.lists.pairs) }
    ensures emptied { OnOk result (from.new.lists ≡ empty_lists) }
    ensures unchanged { OnErr result (from.new ≡ from.old) }
    ensures hasher { to.new.hasher ≡ to.old.hasher }
{
    // The number of keys tells the proof that the lists are well-formed.
    let _len = from.keys_len();
    json_first_occurrence::<K, V>();
    to.clear();
    to.append_map(from)
}

/// Appends all pairs of the other map where there is room for them, which raises no capacity.
pub fn append_in_room<
    K: Eq + Hash + Drop,
    V: Drop,
    S: BuildHasher,
    T: BuildHasher,
    A: Allocator + Copy,
>(map: &mut ListOrderedMultimap<K, V, S, A>, other: &mut ListOrderedMultimap<K, V, T, A>)
    requires { HasRoomForMap map.old other.old }
    ensures lists { map.new.lists ≡ all_appended K.eq map.old.lists other.old.lists.pairs }
    ensures emptied { other.new.lists ≡ empty_lists }
    ensures rooms { SameRooms map.old map.new }
{
    match map.append_map(other) {
        Ok(()) => {}
        Err(_) => unreachable!(),
    }
}

/// Lays overrides over the defaults: each key of theirs has the values that it has there.
pub fn override_defaults<
    K: Eq + Hash + Drop,
    V: Drop,
    S: BuildHasher,
    T: BuildHasher,
    A: Allocator + Copy,
>(
    defaults: &mut ListOrderedMultimap<K, V, S, A>,
    overrides: &mut ListOrderedMultimap<K, V, T, A>,
) -> Result<(), AllocError>
    ensures laid { OnOk result (defaults.new.lists ≡ all_appended K.eq
        (lists defaults.old.lists.keys
        (filter (λ p. not (is_present K.eq overrides.old.lists.pairs p.0))
        defaults.old.lists.pairs))
        overrides.old.lists.pairs) }
    ensures emptied { OnOk result (overrides.new.lists ≡ empty_lists) }
    ensures unchanged { OnErr result (defaults.new.lists ≡ defaults.old.lists) }
    ensures kept { OnErr result (overrides.new ≡ overrides.old) }
{
    defaults.insert_map(overrides)
}

/// Keeps the pairs with a value below the limit.
pub fn keep_below<S: BuildHasher, A: Allocator>(
    map: &mut ListOrderedMultimap<u32, u32, S, A>,
    limit: u32,
)
    ensures { map.new.lists
        ≡ kept nat_eq map.old.lists (filter (λ p. nat_lt p.1 limit) map.old.lists.pairs) }
{
    map.retain(|_key, value| *value < limit);
}

/// Keeps the pairs with a value below the limit, whatever the keys.
pub fn keep_values_below<K: Eq + Hash + Drop, S: BuildHasher, A: Allocator>(
    map: &mut ListOrderedMultimap<K, u32, S, A>,
    limit: u32,
)
    ensures { map.new.lists.pairs
        ≡ kept_stepwise (λ _ v. nat_lt v limit) (λ _ v. v) map.old.lists.pairs }
{
    map.retain(|_key, value| *value < limit);
}

/// Writes 0 to each value.
pub fn write_zeros<K: Eq + Hash + Drop, S: BuildHasher, A: Allocator>(
    map: &mut ListOrderedMultimap<K, u32, S, A>,
)
    ensures { map.new.lists.pairs ≡ each (λ p. (p.0, 0)) map.old.lists.pairs }
{
    map.retain(|_key, value| {
        *value = 0;
        true
    });
}

/// Appends the pair and takes the last one out: both lists are as before, also where the append was
/// refused. Returns whether the key went, the key as it was stored, and the value.
pub fn append_and_pop<K: Eq + Hash + Copy, V: Copy, S: BuildHasher, A: Allocator + Copy>(
    map: &mut ListOrderedMultimap<K, V, S, A>,
    key: K,
    value: V,
) -> Result<Option<(bool, K, V)>, Refused<K, V>>
    ensures lists { map.new.lists ≡ map.old.lists }
    ensures answer { IfOk result (λ popped.
        popped ≡ Some (
          not (is_present K.eq map.old.lists.pairs key),
          stored_key K.eq map.old.lists.keys key,
          value,
        )) }
{
    // The number of keys tells the proof that the lists are well-formed.
    let _len = map.keys_len();
    append_then_pop_back::<K, V>();
    map.append(key, value)?;
    Ok(map.pop_back_with(|popped| match popped {
        Some((KeyWrapper::Borrowed(key), value)) => Some((false, *key, value)),
        Some((KeyWrapper::Owned(key), value)) => Some((true, key, value)),
        None => None,
    }))
}

/// Adds one to each value of the key.
pub fn add_one_to<K: Eq + Hash, S: BuildHasher, A: Allocator>(
    map: &mut ListOrderedMultimap<K, u32, S, A>,
    key: &K,
)
    ensures { map.new.lists.pairs
        ≡ each (λ p. (p.0, if K.eq key.now p.0 then (p.1 + 1) % 2 ^ 32 else p.1))
        map.old.lists.pairs }
{
    map.update_all(key, |value| *value = value.wrapping_add(1));
}

/// Writes one value everywhere.
pub fn fill_with<K: Eq + Hash, S: BuildHasher, A: Allocator>(
    map: &mut ListOrderedMultimap<K, u32, S, A>,
    value: u32,
)
    ensures { map.new.lists.pairs ≡ each (λ p. (p.0, value)) map.old.lists.pairs }
{
    map.update_values(|_key, place| *place = value);
}

/// Sets the value of the pair at an end, if there is a pair, and returns the one before.
pub fn set_end<K: Eq + Hash, V: Drop, S: BuildHasher, A: Allocator>(
    map: &mut ListOrderedMultimap<K, V, S, A>,
    end: End,
    value: V,
) -> Option<V>
    ensures lists { map.new.lists ≡ end_written end map.old.lists value }
    ensures value { result ≡ option_map (λ p. p.1) (end_item end map.old.lists.pairs) }
{
    if map.values_len() == 0 {
        return None;
    }
    Some(match end {
        End::Front => mem::replace(map.first_mut().1, value),
        End::Back => mem::replace(map.last_mut().1, value),
    })
}
