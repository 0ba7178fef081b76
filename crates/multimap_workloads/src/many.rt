//! Many pairs at once, from iterators that tell their length. Each returns none where memory was
//! refused.
use crate::appends::{Map, ends};
use crate::numbers::{Run, START, mix};
use ordered_multimap::ListOrderedMultimap;
use std::alloc::Global;
use std::hash::BuildHasher;

/// The checksum with the numbers of keys and of values, and the first value of the first key.
fn told<S: BuildHasher>(map: &Map<S>, run: Run, checksum: u64) -> u64 {
    let first = map.get(&run.key(0)).copied().unwrap_or(1);
    mix(ends(map, checksum), first)
}

/// Makes a map of a new key for each pair.
#[inline(never)]
pub(crate) fn makes<S: BuildHasher + Drop>(alloc: Global, state: S, run: Run) -> Option<u64> {
    let pairs = (0..run.pairs).map(|i| (run.key(i), run.value(i)));
    match ListOrderedMultimap::from_iter(alloc, state, pairs) {
        Ok(map) => Some(told(&map, run, START)),
        Err(_) => None,
    }
}

/// Extends the map by eight pairs a key, one after another.
#[inline(never)]
pub(crate) fn extends<S: BuildHasher>(map: &mut Map<S>, run: Run, start: u64) -> Option<u64> {
    let pairs = (0..run.pairs).map(|i| (run.key(i / 8), run.value(i)));
    match map.extend(pairs) {
        Ok(()) => Some(told(map, run, start)),
        Err(_) => None,
    }
}
