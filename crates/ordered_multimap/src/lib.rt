//! A hash multimap that keeps its pairs in insertion order, and its keys in an order of their own.
//!
//! A [`ListOrderedMultimap`] maps each key to one or more values, and keeps two lists:
//!
//! - the pairs. *The order of the pairs* is the one in which they were added, unless `sort_by`
//!   sorted them;
//! - the keys. Theirs is the one in which each last became present, unless `move_key_to_back`,
//!   `move_key_to_front` or a sort of the keys moved it: a key that is removed and added again goes
//!   last.
//!
//! ```text
//! append line 1, append page 8, append line 2
//!     pairs      line=1  page=8  line=2      iter, values, front, back, pop_front
//!     keys       line  page                  keys, pairs
//!     line       1, 2                        get, get_all
//! insert line 3, which replaces the values of line
//!     pairs      page=8  line=3
//!     keys       line  page
//! append page 9, but out of memory
//!     Err(Refused { key: page, value: 9 }), and both lists are as before
//! ```
//!
//! As in std's maps, keys implement `Eq` and `Hash`, and equal keys have equal hashes; here this is
//! proved where the type of the keys is declared. Of equal keys the map keeps the one that was
//! added first.
//!
//! # When to use it
//!
//! Use `ListOrderedMultimap` when
//!
//! - a key may have several values, and the order of all pairs matters: headers, the query of a
//!   URL, forms, configuration files;
//! - you group by a key, and want the groups in the order in which they first came;
//! - running out of memory has to be an error that you handle, without losing the pair.
//!
//! Use `SetOrderedMultimap` of the crate `set_ordered_multimap` when no pair may occur twice, as
//! for tags of a document: it adds a pair only if no equal one is there.
//!
//! Use the kit's `IndexMap<K, Vec<V>>` when the order of all pairs doesn't matter, and its
//! `HashMap<K, Vec<V>>` when no order does.
//!
//! # What the calls cost
//!
//! Here *n* is the number of pairs, and *v* the number of values of the key. A lookup hashes the
//! key once.
//!
//! | Calls | Cost |
//! |---|---|
//! | `get`, `get_mut`, `get_last`, `get_key_value` | *O*(1) expected |
//! | `contains_key`, `entry_len`, `entry` | *O*(1) expected |
//! | `front`, `back`, `front_mut`, `back_mut`, `is_empty`, lengths, capacities | *O*(1) |
//! | `hasher`, `allocator`, `Entry::key` | *O*(1) |
//! | `iter`, `keys`, `values`, `pairs`, and their `_mut` | *O*(1), *O*(1) for each item |
//! | `get_all`, `get_all_mut` | *O*(1) expected, *O*(1) for each item |
//! | `append`, `entry(..).or_insert`, `entry(..).or_default` | *O*(1) expected, amortized |
//! | `entry(..).or_try_insert_with` | the same, and the function's cost |
//! | `append_many` | *O*(*m*) expected, amortized, for *m* values |
//! | `set`, `insert`, `insert_all` | *O*(*v*) expected, amortized |
//! | `contains`, `remove_index`, `remove_value`, `retain_all` | *O*(*v*) expected |
//! | `remove`, `remove_entry`, `remove_all`, `remove_entry_all` | *O*(*v*) expected |
//! | `move_key_to_back`, `move_key_to_front`, `rename_key` | *O*(1) expected |
//! | `pop_front`, `pop_back` | *O*(1) expected |
//! | `pop_front_key`, `pop_back_key` | *O*(*v*) expected |
//! | `into_iter` | *O*(1), *O*(1) for each item, and a clone of a key that has values left |
//! | `into_keys`, `into_values` | *O*(*n*), *O*(1) for each item |
//! | `sort_keys`, `sort_keys_by`, `sort_keys_by_cached_key` | *O*(*k* log *k*) for *k* keys |
//! | `sort_by` | *O*(*n* log *n*) |
//! | `retain`, `update_values`, `clear`, `clone`, `==`, `pack_to`, `pack_to_fit` | *O*(*n*) |
//!
//! Removals leave holes among the values. A call that makes room may move values into them, at most
//! one for each value that was removed before.
//!
//! # When memory runs out
//!
//! A call that may allocate returns a `Result`, and the others can't fail: lookups, removals,
//! writes in place, and iteration by reference. An addition never fails where the capacities suffice, and
//! `insert` and `set` never fail for a present key.
//!
//! - An addition returns [`Refused`] with the key and the value, or [`RefusedValue`] with the value
//!   where an [`OccupiedEntry`] has the key. Both lists are as before; capacities may have grown.
//! - `extend` and `from_iter` return a `Refused` with the pair that wasn't added. `extend` keeps
//!   the pairs before it, and `from_iter` drops them. std's `Extend` and `FromIterator` drop that
//!   pair too. `append_many` returns the value that wasn't added, and keeps those before it.
//! - The constructors with capacities, `reserve_keys`, `reserve_values`, `pack_to`, `pack_to_fit`,
//!   `clone`, `append_map` and `insert_map` return `AllocError`. After the last two both maps are as
//!   before; capacities may have grown.
//! - The sorts return `AllocError`, and both lists are as before.
//! - An item of [`IntoIter`] is a `Result`, because a key is cloned while another of its values is
//!   left: [`UnclonedKey`] has the value. [`IntoKeys`] and [`IntoValues`] clone nothing.
//!
//! `?` converts each of these errors into an `AllocError` or an `io::Error`.
//!
//! `rename_key` doesn't allocate. Its error, a [`RenameFault`], says that the key is absent, or that
//! another key is equal to the new one.
//!
//! # Keys that others choose
//!
//! The default hash builder, [`DefaultState`], has a fixed seed. So whoever chooses the keys can
//! choose keys of equal hashes, and a lookup then compares all of them: *O*(*n*). For keys from
//! people whom you don't trust, make the map by `with_hasher` with a [`RandomState`], whose seed
//! `RandomState::new(&rt)` takes from the operating system.
//!
//! # Examples
//!
//! In the examples of this crate `rt` is the runtime that `main` or a test is given, as in
//! `fn main(rt: HostRuntime)`. Each example is the body of a function that returns
//! `Result<(), AllocError>`.
//!
//! ```
//! use ordered_multimap::{KeyWrapper, ListOrderedMultimap, Refused};
//!
//! let mut map = ListOrderedMultimap::new(rt.alloc());
//! map.append("line", 1)?;
//! map.append("page", 8)?;
//! map.append("line", 2)?;
//!
//! // All pairs, the keys, and the values of one key.
//! assert!(rt; map.iter().eq([(&"line", &1), (&"page", &8), (&"line", &2)]));
//! assert!(rt; map.keys().eq(&["line", "page"]));
//! assert!(rt; map.get_all("line").eq(&[1, 2]));
//!
//! // Replaces the values of `line`: the new pair comes last, and the key keeps its place.
//! assert_eq!(rt; map.insert("line", 3)?, Some(1));
//! assert!(rt; map.iter().eq([(&"page", &8), (&"line", &3)]));
//! assert!(rt; map.keys().eq(&["line", "page"]));
//!
//! // Writes in place.
//! if let Some(value) = map.get_mut("page") {
//!     *value = 9;
//! }
//!
//! // Keeps a pair that wasn't added.
//! let mut kept = None;
//! if let Err(Refused { key, value }) = map.append("page", 10) {
//!     kept = Some((key, value));
//! }
//! assert_eq!(rt; kept, None);
//!
//! // Removes from an end, or by the key.
//! assert_eq!(rt; map.pop_front(), Some((KeyWrapper::Borrowed(&"page"), 9)));
//! assert_eq!(rt; map.remove("page"), Some(10));
//! assert!(rt; map.iter().eq([(&"line", &3)]));
//! ```
//!
//! A map with a random seed:
//!
//! ```
//! use ordered_multimap::{ListOrderedMultimap, RandomState};
//! use std::alloc::AllocError;
//!
//! let state = RandomState::new(&rt).map_err(|_| AllocError)?;
//! let mut map = ListOrderedMultimap::with_hasher(rt.alloc(), state);
//! map.append("line", 1)?;
//! assert_eq!(rt; map.get("line"), Some(&1));
//! ```
//!
//! Proved callers: what a proof needs beyond these comments is on the page CALLING.md. The comment
//! of a call that has a section there says so.
#![tactic(auto)]

pub mod laws;
pub mod list_ordered_multimap;
mod query;

pub use list_ordered_multimap::{
    DefaultState, Entry, EntryValues, EntryValuesDrain, EntryValuesMut, EntryValuesRest, IntoIter,
    IntoKeys, IntoValues, Iter, IterMut, IterRest, KeyLink, KeyValues, KeyValuesMut, KeyWrapper,
    Keys, ListOrderedMultimap, OccupiedEntry, OrInsertFault, RandomState, Refused, RefusedValue,
    RenameFault, UnclonedKey, VacantEntry, ValueLink, Values, ValuesMut, ValuesRest,
};
pub use multimap_walks::End;
pub use query::{KeyByPart, KeyQuery, Part};
