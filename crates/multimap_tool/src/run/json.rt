//! The commands that read the map back from its JSON value.
ghost use Rattle.multimap_tool.specs.Json.{DifferAsJson};
ghost use Rattle.multimap_tool.specs.Private.MapSteps.{IsOwnMapStep};

use crate::commands::Command;
use crate::json::{JsonPart, ReadFault, from_value, to_value, to_value_2};
use crate::replies::Reply;
use ordered_multimap::ListOrderedMultimap;
use std::alloc::{Allocator, Global};
use std::hash::{BuildHasher, Hash};

/// What is the key of a map that is read back.
pub(crate) trait JsonKey: JsonPart + Eq + Hash + Copy {}

impl<T: JsonPart + Eq + Hash + Copy> JsonKey for T {}

/// What is a value of such a map.
pub(crate) trait JsonValue: JsonPart + Copy {}

impl<T: JsonPart + Copy> JsonValue for T {}

/// Puts in the map's place what is read of its JSON value.
pub(crate) fn reread<K: JsonKey, V: JsonValue, S: BuildHasher + Clone, A: Allocator + Copy>(
    alloc: A,
    memory: Global,
    map: &mut ListOrderedMultimap<K, V, S, A>,
) -> Reply<K, V, A>
    requires { DifferAsJson K.json V.json }
    ensures { IsOwnMapStep K.eq S.is_clone Command.Json map.old map.new result }
{
    // By this call the proof learns that the lists are well formed.
    let _keys = map.keys_len();
    let Ok(value) = to_value(memory, map) else {
        return Reply::NoMemory;
    };
    let Ok(state) = map.hasher().clone() else {
        return Reply::NoMemory;
    };
    match from_value(alloc, memory, state, &value) {
        Ok(read) => {
            *map = read;
            Reply::Done
        }
        Err(ReadFault::OutOfMemory) => Reply::NoMemory,
        Err(_) => unreachable!(),
    }
}

/// Puts in the map's place what is read of the JSON value of both of its lists.
pub(crate) fn reread_lists<K: JsonKey, V: JsonValue, S: BuildHasher + Clone, A: Allocator + Copy>(
    alloc: A,
    memory: Global,
    map: &mut ListOrderedMultimap<K, V, S, A>,
) -> Reply<K, V, A>
    requires { DifferAsJson K.json V.json }
    ensures { IsOwnMapStep K.eq S.is_clone Command.Json2 map.old map.new result }
{
    let _keys = map.keys_len();
    let Ok(value) = to_value_2(memory, map) else {
        return Reply::NoMemory;
    };
    let Ok(state) = map.hasher().clone() else {
        return Reply::NoMemory;
    };
    match from_value(alloc, memory, state, &value) {
        Ok(copy) => {
            *map = copy;
            Reply::Done
        }
        Err(fault) => match fault {
            ReadFault::OutOfMemory => Reply::NoMemory,
            _ => unreachable!(),
        },
    }
}
