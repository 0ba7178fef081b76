//! Walks for writing, and functions that write values, on a map that was filled by appends.
use crate::appends::Map;
use crate::lookups::sum_of_pairs;
use crate::numbers::{Run, mix};
use std::hash::BuildHasher;

/// Adds its key to each value of all pairs, sixteen times, and then sums all pairs up.
pub(crate) fn adds_keys<S: BuildHasher>(map: &mut Map<S>, start: u64) -> u64 {
    for _ in 0..16 {
        for (key, value) in map.iter_mut() {
            *value = value.wrapping_add(*key);
        }
    }
    mix(start, sum_of_pairs(map))
}

/// Adds the number of the walk to each of the eight values of a random key, once for every two
/// pairs, and then sums all pairs up.
pub(crate) fn adds_numbers<S: BuildHasher>(map: &mut Map<S>, run: Run, start: u64) -> u64 {
    for j in 0..run.pairs / 2 {
        for value in map.get_all_mut(&run.key(run.choice(j, run.pairs / 8))) {
            *value = value.wrapping_add(j);
        }
    }
    mix(start, sum_of_pairs(map))
}

/// What `adds_keys` does, by a function that is called on each pair.
pub(crate) fn adds_keys_by_calls<S: BuildHasher>(map: &mut Map<S>, start: u64) -> u64 {
    for _ in 0..16 {
        map.update_values(|key, value| *value = value.wrapping_add(*key));
    }
    mix(start, sum_of_pairs(map))
}

/// What `adds_numbers` does, by a function that is called on each value of the key.
pub(crate) fn adds_numbers_by_calls<S: BuildHasher>(map: &mut Map<S>, run: Run, start: u64) -> u64 {
    for j in 0..run.pairs / 2 {
        map.update_all(&run.key(run.choice(j, run.pairs / 8)), |value| {
            *value = value.wrapping_add(j);
        });
    }
    mix(start, sum_of_pairs(map))
}
