//! The calls, and what each writes.
use crate::command::Map;
use crate::key::Key;
use ordered_multimap::{Entry, EntryValues, ListOrderedMultimap, OrInsertFault};
use program_parts::bad;
use std::alloc::AllocError;
use std::fmt::Debug;
use std::io;
use std::mem::{replace, swap};

fn add<T: Debug + Drop>(reply: T, replies: &mut String) -> io::Result<()> {
    writeln!(replies, "{reply:?}")?;
    Ok(())
}

/// Carries out a command that names no key.
pub fn call_on_whole(
    map: &mut Map,
    other: &mut Map,
    word: &str,
    replies: &mut String,
) -> io::Result<()> {
    match word {
        "swap" => {
            swap(map, other);
            Ok(())
        }
        "append_map" => {
            map.append_map(other)?;
            add(other, replies)
        }
        "insert_map" => {
            map.insert_map(other)?;
            add(other, replies)
        }
        "pop_front" => add(map.pop_front(), replies),
        "pop_front_key" => add(map.pop_front_key(), replies),
        "pop_back_key" => add(map.pop_back_key(), replies),
        "into_keys" => Ok(add_keys(taken(map), replies)?),
        "into_values" => Ok(add_values(taken(map), replies)?),
        "lists" => Ok(add_lists(map, replies)?),
        _ => sort(map, word),
    }
}

fn sort(map: &mut Map, word: &str) -> io::Result<()> {
    match word {
        "sort_keys" => Ok(map.sort_keys()?),
        "sort_keys_by" => Ok(map.sort_keys_by(|a, b| b.remainder().cmp(&a.remainder()))?),
        "sort_by" => Ok(sort_pairs(map)?),
        _ => Err(bad("not a command")),
    }
}

/// Sorts the pairs by the two lowest bits of the values, and then by the keys as `sort_keys_by`.
fn sort_pairs(map: &mut Map) -> Result<(), AllocError> {
    map.sort_by(|a, value, b, other| {
        let bits = (*value & 3).cmp(&(*other & 3));
        bits.then(b.remainder().cmp(&a.remainder()))
    })
}

/// Takes the map out, and puts an empty one in its place.
pub fn taken(map: &mut Map) -> Map {
    replace(map, ListOrderedMultimap::new(*map.allocator()))
}

// The first key, the last of the others, and the rest.
fn add_keys(map: Map, replies: &mut String) -> Result<(), AllocError> {
    let mut keys = map.into_keys();
    let first = keys.next();
    let last = keys.next_back();
    writeln!(replies, "{first:?} {last:?} {keys:?}")
}

fn add_values(map: Map, replies: &mut String) -> Result<(), AllocError> {
    let mut values = map.into_values();
    let first = values.next();
    let last = values.next_back();
    writeln!(replies, "{first:?} {last:?} {values:?}")
}

/// Adds the pairs, the keys, and the values of each key from the front and from the back.
fn add_lists(map: &Map, replies: &mut String) -> Result<(), AllocError> {
    add_whole(map, replies)?;
    for (key, values) in map.pairs() {
        add_reversed(key, values, replies)?;
    }
    Ok(())
}

fn add_whole(map: &Map, replies: &mut String) -> Result<(), AllocError> {
    writeln!(replies, "{map:?}\n{:?}\n{:?}", map.keys(), map.pairs())
}

fn add_reversed(
    key: &Key,
    values: EntryValues<'_, Key, i64>,
    replies: &mut String,
) -> Result<(), AllocError> {
    write!(replies, "{key:?}")?;
    for value in values.rev() {
        write!(replies, " {value}")?;
    }
    writeln!(replies)
}

/// Carries out a command that names a key alone.
pub fn call_with_key(map: &mut Map, word: &str, key: Key, replies: &mut String) -> io::Result<()> {
    match word {
        "get_last" => add(map.get_last(&key), replies),
        "get_key_value" => add(map.get_key_value(&key), replies),
        "remove" => add(map.remove(&key), replies),
        "move_back" => add(map.move_key_to_back(&key), replies),
        "move_front" => add(map.move_key_to_front(&key), replies),
        "or_default" => add(default_raised(map, key)?, replies),
        _ => Err(bad("not a command")),
    }
}

/// Carries out the command that names two keys.
pub fn rename(map: &mut Map, key: Key, new_key: Key, replies: &mut String) -> io::Result<()> {
    add(map.rename_key(&key, new_key), replies)
}

fn default_raised(map: &mut Map, key: Key) -> Result<i64, AllocError> {
    let value = map.entry(key).or_default()?;
    *value = value.saturating_add(1);
    Ok(*value)
}

/// Carries out a command that names a key and a number.
pub fn call_with_number(
    map: &mut Map,
    word: &str,
    key: Key,
    number: i64,
) -> io::Result<Option<i64>> {
    match word {
        "append" => Ok(map.append(key, number)?.then_some(number)),
        "append_many" => Ok(i64::try_from(map.append_many(key, 0..number)?).ok()),
        "entry_append_many" => Ok(entry_append_many(map, key, number)?),
        "insert" => Ok(map.insert(key, number)?),
        "set" => Ok(map.set(key, number)?),
        "entry_set" => Ok(entry_set(map, key, number)),
        "try_insert" => Ok(try_insert(map, key, number)?),
        "contains" => Ok(map.contains(&key, &number).then_some(number)),
        "remove_index" => Ok(remove_index(map, key, number)),
        "remove_value" => Ok(map.remove_value(&key, &number)),
        "retain_all" => Ok(retain_all(map, key, number)),
        _ => Err(bad("not a command")),
    }
}

fn entry_append_many(map: &mut Map, key: Key, count: i64) -> Result<Option<i64>, AllocError> {
    match map.entry(key) {
        Entry::Occupied(mut entry) => Ok(i64::try_from(entry.append_many(0..count)?).ok()),
        Entry::Vacant(_) => Ok(None),
    }
}

fn entry_set(map: &mut Map, key: Key, value: i64) -> Option<i64> {
    match map.entry(key) {
        Entry::Occupied(mut entry) => Some(entry.set(value)),
        Entry::Vacant(_) => None,
    }
}

// The first value then, where the function doesn't fail.
fn try_insert(map: &mut Map, key: Key, value: i64) -> Result<Option<i64>, AllocError> {
    let made = || if value < 0 { Err(value) } else { Ok(value) };
    match map.entry(key).or_try_insert_with(made) {
        Ok(first) => Ok(Some(*first)),
        Err(OrInsertFault::Failed { .. }) => Ok(None),
        Err(OrInsertFault::Refused(pair)) => Err(AllocError::from(pair)),
    }
}

fn remove_index(map: &mut Map, key: Key, index: i64) -> Option<i64> {
    map.remove_index(&key, usize::try_from(index).ok()?)
}

// The last value that it was called on.
fn retain_all(map: &mut Map, key: Key, bound: i64) -> Option<i64> {
    let mut last = None;
    map.retain_all(&key, |value| {
        let keeps = *value >= bound;
        last = Some(*value);
        *value = value.saturating_add(1);
        keeps
    });
    last
}
