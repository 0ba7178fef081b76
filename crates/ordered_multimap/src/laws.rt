//! Laws of the map's definitions, for proved callers.
//!
//! The functions do nothing: what a function ensures is the law. See CALLING.md.
ghost use Rattle.std.specs.Borrow.{sem};
ghost use Rattle.ordered_multimap.specs.Exact.{InnerWalksAreExact, WalksAreExact};
ghost use Rattle.ordered_multimap.specs.Lists.{Lists, IsWellFormed};
ghost use Rattle.ordered_multimap.specs.Laws.{ComparesPairs, FiltersChains};
ghost use Rattle.ordered_multimap.specs.Laws.{IsRebuilt, IsRebuiltOfBoth, PopUndoesAppend};

use std::alloc::Allocator;
use std::hash::{BuildHasher, Hash};

/// States that an append and then a pop at the back restore both lists, and return the pair.
pub fn append_then_pop_back<K: Eq, V>()
    ensures { (m : Lists K V) (k : K) (v : V) → IsWellFormed K.eq m → PopUndoesAppend K.eq m k v }
{}

/// States that lists built of a map's own pairs have those pairs, and the keys by first occurrence.
pub fn json_first_occurrence<K: Eq, V>()
    ensures { (m : Lists K V) → IsWellFormed K.eq m → IsRebuilt K.eq m }
{}

/// States that lists built of a map's own keys and pairs are that map's lists.
pub fn json_two_lists<K: Eq, V>()
    ensures { (m : Lists K V) → IsWellFormed K.eq m → IsRebuiltOfBoth K.eq m }
{}

/// States that equality of maps is an equivalence, and that equal maps have as many keys.
pub fn equal_maps<K: Eq, V: Eq>()
    ensures { ComparesPairs K.eq V.eq }
{}

/// States that dropping pairs leaves each key its other values, in their order.
///
/// It also states that iterating with as many steps as there are items, from either end, yields
/// each item once.
pub fn chain_is_filter<K: Eq, V>()
    ensures { FiltersChains K.eq V }
{}

/// States which values a map has once an iterator for writing has ended.
///
/// At each place that was yielded, the map has the value with which that reference ended. At each
/// other place it has the value that was there before. Keys, order and all else are as before. The
/// law joins what the call that makes the iterator says (`writes_back`, `ends`), what each step
/// says (`taken`), and what the end of the iterator says (`ends`).
pub fn walks_are_exact<K: Eq + Hash, V, S: BuildHasher, A: Allocator>()
    ensures* exact { sem 𝓛 (WalksAreExact K.row V.row S.row A.row S.Hasher.row K.Hash
        S.BuildHasher S.Hasher.Hasher A.Allocator) }
{}

/// States the same of an iterator over one key's values, made by an occupied entry or `pairs_mut`.
///
/// Once it and all its references have ended, the map of the entry, or of the iterator over keys,
/// has ended exactly, and the iterator over keys has its other keys left. The law joins what
/// `iter_mut` of the entry, or `next` and `next_back` of the iterator over keys, say
/// (`writes_back`, `ends`) with what the iterator over values says.
pub fn inner_walks_are_exact<K: Eq + Hash, V, S: BuildHasher, A: Allocator>()
    ensures* exact { sem 𝓛 (InnerWalksAreExact K.row V.row S.row A.row S.Hasher.row K.PartialEq
        K.Hash.own S.BuildHasher S.Hasher.Hasher A.Allocator) }
{}
