//! The iterator of `pairs_mut`: the keys, each with an iterator over its values for writing.
ghost use Rattle.multimap_walks.specs.Along.{AreLeft};

mod methods;

use super::{DefaultState, ListOrderedMultimap};
use multimap_walks::ChainEnds;
use std::alloc::{Allocator, Global};
use std::hash::{BuildHasher, Hash};

/// An iterator-like type over the keys of a map, each with an iterator over its values for writing.
///
/// This struct is created by [`ListOrderedMultimap::pairs_mut`]; see there for an example. It goes
/// over the keys in their order, by [`next`](Self::next) and [`next_back`](Self::next_back). It
/// doesn't implement `Iterator`, because each step borrows it until the iterator over that key's
/// values ends.
#[derive(Drop)]
pub struct KeyValuesMut<
    'map,
    K: Eq + Hash,
    V,
    S: BuildHasher = DefaultState,
    A: Allocator = Global,
> {
    map: &'map mut ListOrderedMultimap<K, V, S, A>,
    left: ChainEnds,
    ghost are_left: { ∥ AreLeft map.now.slots.keys.order left ∥₁ },
}
