//! Sorts of a map that was filled by appends, whose keys come in a random order. Each returns none
//! where memory was refused.
use crate::appends::Map;
use crate::numbers::mix;
use std::hash::BuildHasher;

/// Sorts the keys, and mixes them in.
#[inline(never)]
pub(crate) fn sorts_keys<S: BuildHasher>(map: &mut Map<S>, start: u64) -> Option<u64> {
    if map.sort_keys().is_err() {
        return None;
    }
    let mut checksum = start;
    for key in map.keys() {
        checksum = mix(checksum, *key);
    }
    Some(checksum)
}

/// Sorts the pairs by their keys, so that those of a key keep their order, and mixes them in.
#[inline(never)]
pub(crate) fn sorts_pairs<S: BuildHasher>(map: &mut Map<S>, start: u64) -> Option<u64> {
    if map.sort_by(|key, _, other, _| key.cmp(other)).is_err() {
        return None;
    }
    let mut checksum = start;
    for (key, value) in map.iter() {
        checksum = mix(checksum, *key ^ *value);
    }
    Some(checksum)
}
