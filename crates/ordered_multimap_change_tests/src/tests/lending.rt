//! The calls of a map that lend from it for writing. A proof pays for their clauses here alone.
use ordered_multimap::list_ordered_multimap::{
    DefaultState, Entry, EntryValuesDrain, EntryValuesMut, IterMut, KeyValuesMut, OccupiedEntry,
    ValuesMut,
};
use ordered_multimap_callers::maps::Numbers;

pub type Drain<'a> = EntryValuesDrain<'a, u32, u32, DefaultState>;

pub fn pairs_of(map: &mut Numbers) -> IterMut<'_, u32, u32> {
    map.iter_mut()
}

pub fn values_of(map: &mut Numbers) -> ValuesMut<'_, u32, u32> {
    map.values_mut()
}

pub fn values_of_key(map: &mut Numbers, key: u32) -> EntryValuesMut<'_, u32, u32> {
    map.get_all_mut(&key)
}

pub fn keys_of(map: &mut Numbers) -> KeyValuesMut<'_, u32, u32> {
    map.pairs_mut()
}

pub fn drain_of(map: &mut Numbers, key: u32) -> Drain<'_> {
    map.remove_all(&key)
}

pub fn entry_drain_of(map: &mut Numbers, key: u32) -> Option<(u32, Drain<'_>)> {
    map.remove_entry_all(&key)
}

pub fn first_key_of(map: &mut Numbers) -> Option<(u32, Drain<'_>)> {
    map.pop_front_key()
}

pub fn last_key_of(map: &mut Numbers) -> Option<(u32, Drain<'_>)> {
    map.pop_back_key()
}

pub fn replaced_by(map: &mut Numbers, key: u32, value: u32) -> Option<Drain<'_>> {
    map.insert_all(key, value).ok()
}

pub fn drain_by_entry(map: &mut Numbers, key: u32) -> Option<Drain<'_>> {
    match map.entry(key) {
        Entry::Occupied(entry) => Some(entry.remove_all()),
        Entry::Vacant(_) => None,
    }
}

pub fn entry_drain_by_entry(map: &mut Numbers, key: u32) -> Option<(u32, Drain<'_>)> {
    match map.entry(key) {
        Entry::Occupied(entry) => Some(entry.remove_entry_all()),
        Entry::Vacant(_) => None,
    }
}

pub fn replaced_by_entry(map: &mut Numbers, key: u32, value: u32) -> Option<Drain<'_>> {
    match map.entry(key) {
        Entry::Occupied(entry) => entry.insert_all(value).ok(),
        Entry::Vacant(_) => None,
    }
}

pub fn entered(map: &mut Numbers, key: u32, value: u32) -> Option<OccupiedEntry<'_, u32, u32>> {
    match map.entry(key) {
        Entry::Vacant(entry) => entry.insert_entry(value).ok(),
        Entry::Occupied(_) => None,
    }
}
