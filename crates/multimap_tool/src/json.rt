//! Maps as JSON values.
//!
//! A map is an array of one array `[key, value]` for each pair, in order ([`to_value`]), or an
//! object of such an array and of the keys in their order ([`to_value_2`]). [`from_value`] reads
//! both. Keys and values are of the types that are [`JsonPart`]s: `u8` to `u64`, `i8` to `i64`,
//! `bool`, `char`, `String`, and your own.
ghost use Rattle.std.specs.Prelude.{◌≡◌, ℕ, true, None, IfOk, IfErr, OnOk, IsSome, length};
ghost use Rattle.serde_json.specs.Data.{array};
ghost use Rattle.serde_json.specs.Find.{as_array};
ghost use Rattle.serde_json.specs.View.{view, items_view};
ghost use Rattle.ordered_multimap.specs.Lists.{empty_lists};
ghost use Rattle.ordered_multimap.specs.TapeNumbers.{AreUnused};
ghost use Rattle.multimap_tool.specs.Json.{AppendsRead, IsFound, IsReadFrom, fault_in, item_fault, UnlessMemory};
ghost use Rattle.multimap_tool.specs.Json.{pair_json, pairs_json};
ghost use Rattle.multimap_tool.specs.JsonLists.{IsRead, IsFaultIn, has_form};
ghost use Rattle.multimap_tool.specs.JsonLists.{both_arrays};
ghost use Rattle.multimap_tool.specs.Private.JsonSteps.{IsReadOfPairs, ReadsInto};

mod faults;
mod items;
mod listed;
mod lists;
mod numbers;
mod parts;
mod reads;
mod to_json;
mod written;

pub use faults::{PartFault, ReadFault};
use items::read_pair;
use lists::{both_arrays, read_lists};
use ordered_multimap::ListOrderedMultimap;
pub use parts::JsonPart;
use reads::{ReadKey, ReadValue};
use serde_json::Value;
use std::alloc::{AllocError, Allocator, Global};
use std::hash::{BuildHasher, Hash};
pub use to_json::ToJson;
pub use written::to_value_2;

/// Returns the map as a JSON value: an array of one array `[key, value]` for each pair, in order.
///
/// The order of the keys isn't written. To keep it too see [`to_value_2`].
///
/// # Errors
///
/// Returns `AllocError` if memory allocation fails. The JSON value is allocated from `alloc`: once
/// for the whole, once for each pair, and for its strings.
///
/// # Complexity
///
/// *O*(*n*) for the *n* pairs.
///
/// # Examples
///
/// ```
/// use multimap_tool::json::to_value;
/// use ordered_multimap::ListOrderedMultimap;
///
/// let alloc = rt.alloc();
/// let mut map = ListOrderedMultimap::new(alloc);
/// map.append("line", 1)?;
/// map.append("page", 8)?;
/// map.append("line", 2)?;
/// let text = to_value(alloc, &map)?.to_string(alloc)?;
/// assert!(rt; text.as_str() == r#"[["line",1],["page",8],["line",2]]"#);
/// ```
pub fn to_value<K: ToJson + Eq + Hash, V: ToJson, S: BuildHasher, A: Allocator>(
    alloc: Global,
    map: &ListOrderedMultimap<K, V, S, A>,
) -> Result<Value, AllocError>
    ensures written { IfOk result (λ value.
        view value ≡ pairs_json K.json V.json map.now.lists.pairs) }
    ensures accepted { IfOk result (λ value.
        fault_in K.is_part V.is_part (view value) ≡ None) }
{
    let mut items = Vec::with_capacity(alloc, map.values_len())?;
    for (key, value) in map.iter() {
        items.push_reserved(item_of(alloc, key, value)?);
    }
    Ok(Value::from(items))
}

/// The array of the key and the value.
fn item_of<K: ToJson, V: ToJson>(alloc: Global, key: &K, value: &V) -> Result<Value, AllocError>
    ensures written { IfOk result (λ item.
        view item ≡ pair_json K.json V.json (key.now, value.now)) }
    ensures accepted { (index : ℕ) → IfOk result (λ item.
        item_fault K.is_part V.is_part index (view item) ≡ None) }
{
    let mut parts = Vec::with_capacity(alloc, 2)?;
    parts.push_reserved(key.to_json(alloc)?);
    parts.push_reserved(value.to_json(alloc)?);
    Ok(Value::from(parts))
}

/// Reads a map from a JSON value, as [`to_value`] or [`to_value_2`] writes it.
///
/// The map has the hash builder `state` and allocates from `alloc`; its keys and values are read
/// into `memory`.
///
/// - An array has to have arrays `[key, value]` as items. These pairs are appended in order.
/// - An object has to have exactly the members `keys`, an array of different keys, and `pairs`,
///   such an array of pairs of these keys, each of which occurs. The map has the keys in the order
///   of `keys`.
///
/// # Errors
///
/// Returns [`ReadFault::NotArray`] or [`ReadFault::NotVersion2`] if the value has neither form, the
/// fault of the first item that isn't as it has to be, or [`ReadFault::OutOfMemory`]. There is then
/// no map. The room for all keys and pairs is only asked for: if it isn't there, each addition
/// makes its own.
///
/// # Complexity
///
/// *O*(*n*) expected for the *n* items, with one lookup for each. Of an object each key takes a
/// value slot until all pairs are read, which is a hole afterwards.
///
/// # Examples
///
/// ```
/// use multimap_tool::json::{ReadFault, from_value, to_value};
/// use ordered_multimap::{DefaultState, ListOrderedMultimap};
///
/// let alloc = rt.alloc();
/// let mut map = ListOrderedMultimap::new(alloc);
/// map.append(1u32, 10i64)?;
/// map.append(2, -1)?;
/// let value = to_value(alloc, &map)?;
/// assert_eq!(rt; from_value(alloc, alloc, DefaultState::new(), &value), Ok(map));
///
/// let unsigned = from_value::<u32, u64, _, _>(alloc, alloc, DefaultState::new(), &value);
/// assert_eq!(rt; unsigned, Err(ReadFault::BadValue(1)));
/// ```
pub fn from_value<
    K: JsonPart + Eq + Hash + Drop,
    V: JsonPart + Drop,
    S: BuildHasher + Drop,
    A: Allocator + Copy,
>(
    alloc: A,
    memory: Global,
    state: S,
    value: &Value,
) -> Result<ListOrderedMultimap<K, V, S, A>, ReadFault>
    ensures read { IfOk result (λ map. IsRead K.json V.json K.is_part V.is_part K.eq
        (view value.now) map.lists) }
    ensures accepted { OnOk result (IsSome (as_array (view value.now))
        → fault_in K.is_part V.is_part (view value.now) ≡ None) }
    ensures fault { IfErr result (UnlessMemory (IsFaultIn K.json V.json K.is_part V.is_part K.eq
        (view value.now))) }
    ensures memory { IfErr result (λ fault. fault ≡ ReadFault.OutOfMemory
        → has_form (view value.now) ≡ true) }
    ensures hasher { IfOk result (λ map. map.hasher ≡ state) }
    ensures unused { IfOk result (λ map. IsSome (as_array (view value.now))
        → AreUnused map.tape) }
    ensures freed { IfOk result (λ map. IsSome (both_arrays (view value.now))
        → map.tape.freed ≡ length map.lists.keys) }
{
    if let Some(items) = value.as_array() {
        return read_items(alloc, memory, state, items);
    }
    if !value.is_object() {
        return Err(ReadFault::NotArray);
    }
    match both_arrays(value) {
        Some((keys, pairs)) => read_lists(alloc, memory, state, keys, pairs),
        None => Err(ReadFault::NotVersion2),
    }
}

/// A map of the pairs of the items.
fn read_items<K: ReadKey, V: ReadValue, S: BuildHasher + Drop, A: Allocator + Copy>(
    alloc: A,
    memory: Global,
    state: S,
    items: &[Value],
) -> Result<ListOrderedMultimap<K, V, S, A>, ReadFault>
    ensures read { IfOk result (IsReadOfPairs K.json V.json K.is_part V.is_part K.eq
        (items_view items.now) state) }
    ensures fault { IfErr result
        (IsFound (fault_in K.is_part V.is_part (array (items_view items.now)))) }
{
    let mut map = ListOrderedMultimap::with_hasher(alloc, state);
    match append_items(memory, items, &mut map) {
        Ok(()) => Ok(map),
        Err(fault) => Err(fault),
    }
}

/// Appends the pairs of the items to an empty map.
fn append_items<K: ReadKey, V: ReadValue, S: BuildHasher, A: Allocator + Copy>(
    memory: Global,
    items: &[Value],
    map: &mut ListOrderedMultimap<K, V, S, A>,
) -> Result<(), ReadFault>
    requires { map.old.lists ≡ empty_lists }
    ensures read { ReadsInto map.old map.new
        (IsReadFrom K.json V.json K.eq (array (items_view items.now)) map.new.lists) result }
    ensures accepted { OnOk result
        (fault_in K.is_part V.is_part (array (items_view items.now)) ≡ None) }
    ensures fault { IfErr result
        (IsFound (fault_in K.is_part V.is_part (array (items_view items.now)))) }
{
    // Ignored if refused: each append makes the room that it needs.
    let _reserved = map.reserve_values(items.len());
    for (index, item) in items.iter().enumerate() {
        append_item(memory, index, item, map)?;
    }
    Ok(())
}

/// Appends the pair of the item at a position.
#[tactic(auto, using(crate::proofs::Callers::JsonParts::still_unused))]
fn append_item<K: ReadKey, V: ReadValue, S: BuildHasher, A: Allocator + Copy>(
    memory: Global,
    index: usize,
    item: &Value,
    map: &mut ListOrderedMultimap<K, V, S, A>,
) -> Result<(), ReadFault>
    ensures read { ReadsInto map.old map.new
        (AppendsRead K.json V.json K.eq (view item.now) map.old.lists map.new.lists) result }
    ensures accepted { OnOk result
        (item_fault K.is_part V.is_part index (view item.now) ≡ None) }
    ensures fault { IfErr result
        (IsFound (item_fault K.is_part V.is_part index (view item.now))) }
{
    let (key, value) = read_pair(memory, index, item)?;
    let Ok(_) = map.append(key, value) else {
        return Err(ReadFault::OutOfMemory);
    };
    Ok(())
}
