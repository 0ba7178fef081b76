//! Maps of the tests, and what they are compared with, proved once.
use ordered_multimap::ListOrderedMultimap;
use ordered_multimap::list_ordered_multimap::DefaultState;
use refusing_allocator::RefusingAllocator;
use std::alloc::{Allocator, Global};
use std::hash::{BuildHasher, Hash};
use std::mem;
use std::rc::Rc;
use test_helpers::{Checked, Constant, Failed, Plain, Step, Test, ZERO, gives, walk_difference};

/// A map of numbers.
pub type Numbers = ListOrderedMultimap<u32, u32>;

/// A map of numbers with a hash builder of this type.
pub type MapBy<S> = ListOrderedMultimap<u32, u32, S>;

/// A map of texts.
pub type Texts = ListOrderedMultimap<&'static str, &'static str>;

/// The same, whose memory may be refused. A parameter costs a proof half of a type with a reference.
pub type Refusing<A> = ListOrderedMultimap<u32, u32, DefaultState, A>;

/// A map whose values are shares of one number.
pub type Shares = ListOrderedMultimap<u8, Rc<u8>>;

/// Two keys with two values each, one inside the other.
pub const MIXED: &[(u32, u32)] = &[(1, 11), (2, 12), (2, 13), (1, 14)];

/// Four values of one key.
pub const ONE_KEY: &[(u32, u32)] = &[(1, 11), (1, 12), (1, 13), (1, 14)];

/// The mixed pairs as texts.
pub const MIXED_TEXTS: &[(&str, &str)] = &[
    ("key1", "value1"),
    ("key2", "value2"),
    ("key2", "value3"),
    ("key1", "value4"),
];

/// An empty map in which all keys have the same hash.
pub fn collided<K: Eq + Hash, V>(alloc: Global) -> ListOrderedMultimap<K, V, Constant> {
    ListOrderedMultimap::with_hasher(alloc, ZERO)
}

/// Appends these pairs.
pub fn fill<K: Eq + Hash + Copy, V: Copy, S: BuildHasher, A: Allocator + Copy>(
    test: &Test,
    map: &mut ListOrderedMultimap<K, V, S, A>,
    pairs: &[(K, V)],
) {
    for (key, value) in pairs {
        test.expect(map.append(*key, *value).is_ok());
    }
}

/// Takes all pairs out, and appends these.
pub fn refill<K: Eq + Hash + Copy + Drop, V: Copy, S: BuildHasher, A: Allocator + Copy>(
    test: &Test,
    map: &mut ListOrderedMultimap<K, V, S, A>,
    pairs: &[(K, V)],
) {
    map.clear();
    fill(test, map, pairs);
}

/// A map of these pairs.
pub fn map_of<K: Eq + Hash + Copy, V: Copy>(
    test: &Test,
    pairs: &[(K, V)],
) -> ListOrderedMultimap<K, V> {
    let mut map = ListOrderedMultimap::new(test.alloc());
    fill(test, &mut map, pairs);
    map
}

/// Appends a share of the number under each of these keys.
pub fn append_shares(test: &Test, map: &mut Shares, keys: &[u8], shared: &Rc<u8>) {
    for key in keys {
        match shared.clone() {
            Ok(share) => test.expect(map.append(*key, share).is_ok()),
            Err(_) => test.fail(),
        }
    }
}

/// Appends five shares. Those of the key 1 stay in their slots, where their drain is forgotten.
pub fn fill_with_shares(test: &Test, map: &mut Shares, shared: &Rc<u8>) {
    append_shares(test, map, &[1, 2, 1, 3, 2], shared);
    mem::forget(map.remove_all(&1));
    test.expect(Rc::strong_count(shared) == 6);
}

/// Expects that no memory was refused, gives all pairs and all room up, and reserves anew.
pub fn reserve_anew<A: Allocator + Copy>(
    test: &Test,
    allocator: &RefusingAllocator,
    map: &mut Refusing<A>,
    keys: usize,
    values: usize,
) {
    test.expect(!allocator.refused());
    allocator.refuse_none();
    map.clear();
    test.expect(map.pack_to_fit().is_ok());
    reserve(test, allocator, map, keys, values);
}

/// Asks for room for so many keys and values, and refuses all memory from then on.
pub fn reserve<A: Allocator + Copy>(
    test: &Test,
    allocator: &RefusingAllocator,
    map: &mut Refusing<A>,
    keys: usize,
    values: usize,
) {
    test.expect(map.reserve_keys(keys).is_ok());
    test.expect(map.reserve_values(values).is_ok());
    allocator.refuse_all();
}

/// Whether a map has these pairs and these keys, each in this order, and no others.
pub fn has_lists<K: Eq + Hash + Copy, V: PartialEq + Copy, S: BuildHasher, A: Allocator>(
    map: &ListOrderedMultimap<K, V, S, A>,
    pairs: &[(K, V)],
    keys: &[K],
) -> bool {
    let same_pairs = has_pairs(map, pairs);
    same_pairs && map.keys_len() == keys.len() && gives(&mut map.keys(), keys)
}

/// Whether a map has these pairs, in this order, and no others.
pub fn has_pairs<K: Eq + Hash + Copy, V: PartialEq + Copy, S: BuildHasher, A: Allocator>(
    map: &ListOrderedMultimap<K, V, S, A>,
    pairs: &[(K, V)],
) -> bool {
    map.values_len() == pairs.len() && gives(&mut map.iter(), pairs)
}

/// Appends a pair. It returns whether there was memory, and whether the key was there as is said.
pub fn appends<K: Eq + Hash + Drop, V: Drop, S: BuildHasher, A: Allocator + Copy>(
    map: &mut ListOrderedMultimap<K, V, S, A>,
    key: K,
    value: V,
    present: bool,
) -> bool {
    match map.append(key, value) {
        Ok(was_present) => was_present == present,
        Err(_) => false,
    }
}

/// Inserts a pair. It returns whether there was memory, and whether the first old value is this.
pub fn inserts<K: Eq + Hash + Drop, V: PartialEq + Drop, S: BuildHasher, A: Allocator + Copy>(
    map: &mut ListOrderedMultimap<K, V, S, A>,
    key: K,
    value: V,
    old: &Option<V>,
) -> bool {
    match map.insert(key, value) {
        Ok(first) => first == *old,
        Err(_) => false,
    }
}

/// Whether a map has room for this many keys and values.
pub fn has_room<K: Eq + Hash, V, S: BuildHasher, A: Allocator>(
    map: &ListOrderedMultimap<K, V, S, A>,
    keys: usize,
    values: usize,
) -> bool {
    map.keys_capacity() >= keys && map.values_capacity() >= values
}

/// Whether a walk gives this behind its first item, and its clone there gives the same.
pub fn goes_on<W: DoubleEndedIterator + ExactSizeIterator + Clone + Drop>(
    walk: &mut W,
    rest: &[Step<<W::Item as Plain>::Value>],
) -> bool
where
    W::Item: Plain,
    requires next { (state : W) → W.can_next state }
    requires next_back { (state : W) → W.can_next_back state }
{
    drop(walk.next());
    match walk.clone() {
        Ok(mut copy) => {
            walk_difference(&mut copy, rest).is_none() && walk_difference(walk, rest).is_none()
        }
        Err(_) => false,
    }
}

/// What a test can make without an argument of its own.
pub trait Empty: Drop {
    /// An empty one, which takes its memory from `alloc`.
    fn empty(alloc: Global) -> Self;
}

impl<K: Eq + Hash + Drop, V: Drop> Empty for ListOrderedMultimap<K, V> {
    fn empty(alloc: Global) -> ListOrderedMultimap<K, V> {
        ListOrderedMultimap::new(alloc)
    }
}

/// Runs a test whose checks are lent an empty map of their type.
// The types of test and map are parameters since the borrow checker covers no call of a closure with
// a reference to a type that itself holds references.
pub fn test_on_empty<T: Checked, M: Empty, F: FnOnce(&T, &mut M)>(
    alloc: Global,
    checks: F,
) -> Result<(), Failed>
    requires { F.IsAlwaysCallable checks }
{
    let test = T::begin(alloc);
    checks(&test, &mut M::empty(alloc));
    test.finish()
}

/// Runs a test of parts that are lent the same map of numbers, which is empty, one after another.
#[macro_export]
macro_rules! test_on_numbers {
    ($alloc:expr; $($part:path),+) => {
        test_on_empty($alloc, |test: &Test, map: &mut Numbers| {
            test_helpers::run_parts!(test, map; $($part),+)
        })
    };
}

/// Runs a check that is lent an allocator that can refuse memory, and a map by it with this room.
#[macro_export]
macro_rules! test_with_room {
    ($alloc:expr; $keys:expr, $values:expr; $check:path) => {{
        let test = Test::new($alloc);
        let allocator = RefusingAllocator::unlimited(test.alloc());
        test.expect(test_helpers::lend_made(
            ListOrderedMultimap::with_capacity(&allocator, $keys, $values),
            |map| $check(&test, &allocator, map),
            |_refused| {},
        ));
        test.end()
    }};
}

/// Runs each part on the emptied map with this room, and expects that no memory was asked for.
#[macro_export]
macro_rules! run_in_room {
    ($test:expr, $allocator:expr, $map:expr; $($keys:expr, $values:expr => $part:path),+) => {{
        $(
            reserve_anew($test, $allocator, $map, $keys, $values);
            $part($test, $map);
        )+
        $test.expect(!$allocator.refused());
    }};
}
