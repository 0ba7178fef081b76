//! The sets of these tests, how they are filled, and what they are compared with.
use ordered_multimap::list_ordered_multimap::DefaultState;
use set_ordered_multimap::SetOrderedMultimap;
use std::alloc::{Allocator, Global};
use std::hash::{BuildHasher, Hash};
use test_helpers::{Constant, Test, ZERO, copied, gives};

pub type SetBy<S = DefaultState, A = Global> = SetOrderedMultimap<u32, u32, S, A>;

/// A set whose memory may be refused. A parameter costs a proof half of a type with a reference.
pub type Refusing<A> = SetBy<DefaultState, A>;

/// An empty set in which all keys have the same hash.
pub fn collided<K: Eq + Hash, V: Eq>(alloc: Global) -> SetOrderedMultimap<K, V, Constant> {
    SetOrderedMultimap::with_hasher(alloc, ZERO)
}

/// Takes all pairs out, and inserts these.
pub fn refill<S: BuildHasher, A: Allocator + Copy>(
    test: &Test,
    set: &mut SetBy<S, A>,
    pairs: &[(u32, u32)],
) {
    set.clear();
    for (key, value) in pairs {
        test.expect(set.insert(*key, *value).is_ok());
    }
}

// Whether the first and the last pair, and all values, are those of these pairs.
fn has_ends<K: Eq + Hash + Copy, V: PartialEq + Copy, S: BuildHasher, A: Allocator>(
    set: &SetOrderedMultimap<K, V, S, A>,
    pairs: &[(K, V)],
) -> bool {
    let mut values = set.values();
    let mut same = values.len() == pairs.len();
    for (_key, value) in pairs {
        same = same && copied(values.next()) == Some(*value);
    }
    same && copied(set.front()) == pairs.first().copied()
        && copied(set.back()) == pairs.last().copied()
}

/// Whether a set has these pairs and these keys, each in this order, and no others.
pub fn has_lists<K: Eq + Hash + Copy, V: PartialEq + Copy, S: BuildHasher, A: Allocator>(
    set: &SetOrderedMultimap<K, V, S, A>,
    pairs: &[(K, V)],
    keys: &[K],
) -> bool {
    let same_len = set.values_len() == pairs.len() && set.keys_len() == keys.len();
    let same_pairs = gives(&mut set.iter(), pairs) && has_ends(set, pairs);
    same_len && same_pairs && gives(&mut set.keys(), keys)
}
