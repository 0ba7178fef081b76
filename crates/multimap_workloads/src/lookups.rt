//! Look-ups, walks and clones, on a map that was filled by appends.
use crate::appends::{Map, ends};
use crate::numbers::{Run, mix};
use std::hash::BuildHasher;

/// The first value of a random key of the pairs, four times a pair.
pub(crate) fn hits<S: BuildHasher>(map: &Map<S>, run: Run, start: u64) -> u64 {
    let mut checksum = start;
    for j in 0..run.pairs.wrapping_mul(4) {
        let found = map.get(&run.key(run.choice(j, run.pairs)));
        checksum = mix(checksum, found.copied().unwrap_or(0));
    }
    checksum
}

/// Looks for keys that are absent, four times a pair.
pub(crate) fn misses<S: BuildHasher>(map: &Map<S>, run: Run, start: u64) -> u64 {
    let mut checksum = start;
    for j in 0..run.pairs.wrapping_mul(4) {
        let found = map.get(&run.key(run.pairs.wrapping_add(j)));
        checksum = mix(checksum, found.copied().unwrap_or(1));
    }
    checksum
}

/// Goes over the eight values of a random key, once for every two pairs.
pub(crate) fn walks<S: BuildHasher>(map: &Map<S>, run: Run, start: u64) -> u64 {
    let mut checksum = start;
    for j in 0..run.pairs / 2 {
        for value in map.get_all(&run.key(run.choice(j, run.pairs / 8))) {
            checksum = mix(checksum, *value);
        }
    }
    checksum
}

/// Goes over all pairs, sixteen times.
pub(crate) fn all_pairs<S: BuildHasher>(map: &Map<S>, start: u64) -> u64 {
    let mut checksum = start;
    for _ in 0..16 {
        for (key, value) in map.iter() {
            checksum = mix(checksum, *key ^ *value);
        }
    }
    checksum
}

/// The sum of all keys, sixteen times.
pub(crate) fn all_keys<S: BuildHasher>(map: &Map<S>, start: u64) -> u64 {
    let mut checksum = start;
    for _ in 0..16 {
        let mut sum = 0u64;
        for key in map.keys() {
            sum = sum.wrapping_add(*key);
        }
        checksum = mix(checksum, sum);
    }
    checksum
}

/// The sum of all pairs, each as key ^ value, key by key, sixteen times.
pub(crate) fn all_lists<S: BuildHasher>(map: &Map<S>, start: u64) -> u64 {
    let mut checksum = start;
    for _ in 0..16 {
        let mut sum = 0u64;
        for (key, values) in map.pairs() {
            for value in values {
                sum = sum.wrapping_add(*key ^ *value);
            }
        }
        checksum = mix(checksum, sum);
    }
    checksum
}

/// Clones the map four times. Returns none where memory was refused.
pub(crate) fn clones<S: BuildHasher + Clone>(map: &Map<S>, start: u64) -> Option<u64> {
    let mut checksum = start;
    for _ in 0..4 {
        match map.clone() {
            Ok(copy) => checksum = ends(&copy, checksum),
            Err(_) => return None,
        }
    }
    Some(checksum)
}

/// Looks for the sixteen keys from `first` on.
pub(crate) fn sixteen_keys<S: BuildHasher>(map: &Map<S>, first: u64, run: Run, start: u64) -> u64 {
    let mut checksum = start;
    for i in first..first.wrapping_add(16) {
        let found = map.get(&run.key(i));
        checksum = mix(checksum, found.copied().unwrap_or(1));
    }
    checksum
}

/// The sum of all pairs, each as key ^ value.
pub(crate) fn sum_of_pairs<S: BuildHasher>(map: &Map<S>) -> u64 {
    let mut sum = 0u64;
    for (key, value) in map.iter() {
        sum = sum.wrapping_add(*key ^ *value);
    }
    sum
}
