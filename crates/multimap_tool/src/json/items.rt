//! The items of an array of pairs: a key and a value of a JSON value.
ghost use Rattle.std.specs.Prelude.{◌≡◌, true, None, option_map, IfOk, IfErr, OnOk};
ghost use Rattle.serde_json.specs.View.{view};
ghost use Rattle.multimap_tool.specs.Json.{IsFound, item_fault, pair_json};
ghost use Rattle.multimap_tool.specs.JsonLists.{any, of_two, parts_of};

use super::faults::{PartFault, ReadFault};
use super::parts::JsonPart;
use serde_json::Value;
use std::alloc::Global;

/// Both parts of an array of two.
pub(super) fn two_parts(item: &Value) -> Option<(&Value, &Value)>
    ensures { option_map (λ p. (view p.0.now, view p.1.now)) result ≡ parts_of (view item.now) }
{
    let Some(parts) = item.as_array() else {
        return None;
    };
    if parts.len() != 2 {
        return None;
    }
    Some((&parts[0], &parts[1]))
}

/// The key of the item at a position, with the part that is to be its value.
pub(super) fn read_key<K: JsonPart>(
    memory: Global,
    index: usize,
    item: &Value,
) -> Result<(K, &Value), ReadFault>
    ensures read { IfOk result (λ read.
        view item.now ≡ of_two (K.json read.0) (view read.1.now)) }
    ensures accepted { IfOk result (λ read. K.is_part (K.json read.0) ≡ true) }
    ensures fault { IfErr result
        (IsFound (item_fault K.is_part any index (view item.now))) }
{
    let Some((key, value)) = two_parts(item) else {
        return Err(ReadFault::NotPair(index));
    };
    match K::from_part(memory, key) {
        Ok(key) => Ok((key, value)),
        Err(PartFault::Refused) => Err(ReadFault::BadKey(index)),
        Err(PartFault::OutOfMemory) => Err(ReadFault::OutOfMemory),
    }
}

/// The pair of the item at a position.
pub(super) fn read_pair<K: JsonPart + Drop, V: JsonPart>(
    memory: Global,
    index: usize,
    item: &Value,
) -> Result<(K, V), ReadFault>
    ensures read { IfOk result (λ pair. view item.now ≡ pair_json K.json V.json pair) }
    ensures accepted { OnOk result
        (item_fault K.is_part V.is_part index (view item.now) ≡ None) }
    ensures fault { IfErr result
        (IsFound (item_fault K.is_part V.is_part index (view item.now))) }
{
    let (key, value) = match read_key(memory, index, item) {
        Ok(read) => read,
        Err(fault) => return Err(fault),
    };
    match V::from_part(memory, value) {
        Ok(value) => Ok((key, value)),
        Err(PartFault::Refused) => Err(ReadFault::BadValue(index)),
        Err(PartFault::OutOfMemory) => Err(ReadFault::OutOfMemory),
    }
}
