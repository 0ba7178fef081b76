//! Both lists of a map as a JSON value: an object of its keys and its pairs.
ghost use Rattle.std.specs.Prelude.{◌≡◌, true, map as each_of, IfOk, IfSome, codes};
ghost use Rattle.serde_json.specs.Data.{array, object, Items, member, no_members};
ghost use Rattle.serde_json.specs.View.{view, items_of};
ghost use Rattle.multimap_tool.specs.JsonLists.{both_arrays, each_item, lists_json, AreAccepted};

use super::to_json::ToJson;
use super::to_value;
use ordered_multimap::ListOrderedMultimap;
use serde_json::{Value, json};
use std::alloc::{AllocError, Allocator, Global};
use std::hash::{BuildHasher, Hash};

/// Returns the map as a JSON value that keeps both orders: an object of its keys and its pairs.
///
/// The member `keys` is the array of the keys, in order, and `pairs` is the array that
/// [`to_value`](crate::json::to_value) returns.
///
/// # Errors
///
/// Returns `AllocError` if memory allocation fails. The JSON value is allocated from `alloc`: what
/// `to_value` allocates, twice for `keys`, and for the object.
///
/// # Complexity
///
/// *O*(*n*) for the *n* pairs.
///
/// # Examples
///
/// ```
/// use multimap_tool::json::to_value_2;
/// use ordered_multimap::ListOrderedMultimap;
///
/// let alloc = rt.alloc();
/// let mut map = ListOrderedMultimap::new(alloc);
/// map.append(1, 10)?;
/// map.append(2, 20)?;
/// map.insert(1, 30)?;
/// let text = to_value_2(alloc, &map)?.to_string(alloc)?;
/// assert!(rt; text.as_str() == r#"{"keys":[1,2],"pairs":[[2,20],[1,30]]}"#);
/// ```
pub fn to_value_2<K: ToJson + Eq + Hash, V: ToJson, S: BuildHasher, A: Allocator>(
    alloc: Global,
    map: &ListOrderedMultimap<K, V, S, A>,
) -> Result<Value, AllocError>
    ensures written { IfOk result (λ value.
        view value ≡ lists_json K.json V.json map.now.lists) }
    ensures accepted { IfOk result (λ value.
        IfSome (both_arrays (view value)) (AreAccepted K.is_part V.is_part)) }
{
    let keys = keys_value(alloc, map)?;
    match to_value(alloc, map) {
        Ok(pairs) => object_of(alloc, keys, pairs),
        Err(refused) => Err(refused),
    }
}

/// The array of the keys, in order.
fn keys_value<K: ToJson + Eq + Hash, V, S: BuildHasher, A: Allocator>(
    alloc: Global,
    map: &ListOrderedMultimap<K, V, S, A>,
) -> Result<Value, AllocError>
    ensures written { IfOk result (λ value.
        view value ≡ array (items_of (each_of K.json map.now.lists.keys))) }
    ensures accepted { IfOk result (λ value. (ds : Items) → view value ≡ array ds
        → each_item K.is_part ds ≡ true) }
{
    let mut items = Vec::with_capacity(alloc, map.keys_len())?;
    for key in map.keys() {
        items.push_reserved(key.to_json(alloc)?);
    }
    Ok(Value::from(items))
}

/// The object of the two members.
fn object_of(alloc: Global, keys: Value, pairs: Value) -> Result<Value, AllocError>
    ensures { IfOk result (λ value. view value ≡ object (member (codes "keys") (view keys)
        (member (codes "pairs") (view pairs) no_members))) }
{
    json!(in alloc; {"keys": keys, "pairs": pairs})
}
