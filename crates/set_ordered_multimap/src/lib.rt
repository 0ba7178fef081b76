//! A multimap in which no pair occurs twice, and that keeps its pairs in an order.
//!
//! A [`SetOrderedMultimap`] is an `ordered_multimap::ListOrderedMultimap` that adds a pair only if
//! no pair with an equal key and an equal value is there. It keeps the same two lists:
//!
//! - the pairs. *The order of the pairs* is the one in which they were inserted, unless `sort_by`
//!   sorted them;
//! - the keys. Theirs is the one in which each last became present, unless `move_key_to_back`,
//!   `move_key_to_front` or a sort of the keys moved it: a key that is removed and inserted again
//!   goes last.
//!
//! ```text
//! insert plan draft, insert note draft, insert plan long
//!     pairs      plan=draft  note=draft  plan=long     iter, pop_front, pop_back
//!     keys       plan  note                            keys
//!     plan       draft, long                           get, get_all
//! insert plan draft: Ok(false), and both lists are as before
//! insert note long, but out of memory
//!     Err(Refused { key: note, value: long }), and both lists are as before
//! ```
//!
//! # When to use it
//!
//! Use the set when a pair is there or not, as a tag of a document, a follower or a permission. Use
//! `ListOrderedMultimap` when
//!
//! - a pair may occur twice;
//! - a value has to be written in place: the set returns no mutable references, since a written
//!   value could become equal to another one of its key.
//!
//! `contains`, `insert` and `remove_value` compare the value with the values of its key, one after
//! another. If a key has many values, make each pair a key of a `ListOrderedMultimap`, which finds
//! it by its hash, or swap keys and values if a value has few keys.
//!
//! # What differs from the map
//!
//! - `insert` adds a pair beside the key's other pairs, and returns whether it is new. The map's
//!   `insert` replaces the key's pairs; its `append` is the counterpart of the set's `insert`.
//! - `remove_value` returns whether the pair was there; the map's returns the value.
//! - The functions of `retain` and `retain_all` get each value for reading alone.
//! - `append_set` drops the pairs of the other set that are there. The map's `append_map` appends
//!   all. `insert_set` is the map's `insert_map`.
//! - The set lacks what writes values or lends them for writing: `set`, `entry`, `get_mut`,
//!   `front_mut`, `back_mut`, `first_mut`, `last_mut`, `iter_mut` and `&mut set` as an iterator,
//!   `values_mut`, `get_all_mut`, `pairs_mut`, `update_values` and `update_all`.
//! - It lacks `insert_all`, `remove`, `remove_entry`, `remove_entry_all` and
//!   `remove_entry_with_all`: see `remove_all` and `remove_all_with`.
//! - It lacks std's `Extend` of borrowed pairs, for which see `extend_copied`, and `Emptied` and
//!   `MadeWith`, by which `mem::try_take` and `or_default` make an empty map.
//!
//! The calls that take a key take a query, an `ordered_multimap::KeyQuery`, as the map's do: a
//! `String` key is looked up by a `&str`. `insert` takes the key itself.
//!
//! # What the calls cost
//!
//! Here *n* is the number of pairs, and *v* the number of values of the key. A lookup hashes the
//! key once.
//!
//! | Calls | Cost |
//! |---|---|
//! | `contains_key`, `entry_len`, `get`, `get_key_value`, `get_last` | *O*(1) expected |
//! | `move_key_to_back`, `move_key_to_front`, `rename_key` | *O*(1) expected |
//! | `contains`, `remove_value`, `remove_index`, `remove_all` | *O*(*v*) expected |
//! | `pop_front_key`, `pop_back_key` | *O*(*v*) expected |
//! | `retain_all` | *O*(*v*) expected, and as many calls of its function |
//! | `insert` | *O*(*v*) expected, amortized |
//! | `front`, `back`, `is_empty`, lengths, capacities | *O*(1) |
//! | `iter`, `keys`, `values`, `pairs` | *O*(1), *O*(1) for each item |
//! | `get_all` | *O*(1) expected, *O*(1) for each item |
//! | `pop_front`, `pop_back` | *O*(1) expected |
//! | `into_keys`, `into_values` | *O*(*n*), *O*(1) for each item |
//! | `sort_keys`, `sort_keys_by`, `sort_keys_by_cached_key` | *O*(*k* log *k*) for *k* keys |
//! | `sort_by` | *O*(*n* log *n*) |
//! | `retain`, `clear`, `clone`, `==`, `pack_to`, `pack_to_fit` | *O*(*n*) |
//! | `append_set` | what `clear` of the other set costs, and for each of its pairs *O*(*v*) expected |
//! | `insert_set` | what `clear` of the other set costs, and *O*(1) for each pair that comes or goes |
//!
//! # When memory runs out
//!
//! An insertion returns a `Refused` with the key and the value, and both lists are as before;
//! capacities may have grown. It never fails if an equal pair is there, or where the capacities
//! suffice. `extend` and `extend_copied` keep the pairs before that one, and `from_iter` drops
//! them. The calls of the traits `Extend` and `FromIterator` do the same, and return `AllocError`.
//! `append_set` and `insert_set` return `AllocError`, and both lists of both sets are as before.
//! `clone` and the constructors with capacities return `AllocError`, and so do `reserve_keys`,
//! `reserve_values`, `pack_to`, `pack_to_fit` and the sorts, after which both lists are as before.
//! Removals and lookups can't fail.
//!
//! `rename_key` doesn't allocate. Its error, an `ordered_multimap::RenameFault`, says that the key
//! is absent, or that another key is equal to the new one.
//!
//! # Keys that others choose
//!
//! The default hash builder has a fixed seed. So whoever chooses the keys can choose keys of equal
//! hashes, and a lookup then compares all of them. For keys from people whom you don't trust, make
//! the set by `with_hasher` with an `ordered_multimap::RandomState`.
//!
//! # Examples
//!
//! In the examples `rt` is the runtime that `main` or a test is given. Each example is the body of
//! a function that returns `Result<(), AllocError>`.
//!
//! ```
//! use set_ordered_multimap::SetOrderedMultimap;
//!
//! let mut tags = SetOrderedMultimap::new(rt.alloc());
//! tags.insert("plan", "draft")?;
//! tags.insert("note", "draft")?;
//! tags.insert("plan", "long")?;
//! assert_eq!(rt; tags.insert("plan", "draft"), Ok(false));
//!
//! assert!(rt; tags.contains("plan", &"long"));
//! assert!(rt; tags.get_all("plan").eq(&["draft", "long"]));
//! assert!(rt; tags.keys().eq(&["plan", "note"]));
//!
//! assert!(rt; tags.remove_value("plan", &"draft"));
//! assert!(rt; tags.iter().eq([(&"note", &"draft"), (&"plan", &"long")]));
//! ```
//!
//! Proved callers: see CALLING.md.
#![tactic(auto)]

pub mod laws;
mod set;

pub use set::SetOrderedMultimap;
