//! Appends to a map, in the orders of the workloads. Each returns none where memory was refused.
use crate::numbers::{Run, mix};
use ordered_multimap::ListOrderedMultimap;
use std::hash::BuildHasher;

/// The map that is measured.
pub(crate) type Map<S> = ListOrderedMultimap<u64, u64, S>;

/// Appends a pair, and mixes in whether its key was present.
#[inline(always)]
fn append<S: BuildHasher>(map: &mut Map<S>, key: u64, value: u64, checksum: u64) -> Option<u64> {
    match map.append(key, value) {
        Ok(present) => Some(mix(checksum, present as u64)),
        Err(_) => None,
    }
}

/// The checksum with the numbers of keys and of values.
pub(crate) fn ends<S: BuildHasher>(map: &Map<S>, checksum: u64) -> u64 {
    mix(
        mix(checksum, map.keys_len() as u64),
        map.values_len() as u64,
    )
}

/// A new key for each pair.
pub(crate) fn distinct<S: BuildHasher>(map: &mut Map<S>, run: Run, start: u64) -> Option<u64> {
    let mut checksum = start;
    for i in 0..run.pairs {
        checksum = append(map, run.key(i), run.value(i), checksum)?;
    }
    Some(ends(map, checksum))
}

/// A random one of a thousand keys for each pair.
pub(crate) fn few<S: BuildHasher>(map: &mut Map<S>, run: Run, start: u64) -> Option<u64> {
    let mut checksum = start;
    for i in 0..run.pairs {
        let chosen = run.key(run.choice(i, 1000));
        checksum = append(map, chosen, run.value(i), checksum)?;
    }
    Some(ends(map, checksum))
}

/// Eight pairs a key, one after another.
pub(crate) fn grouped<S: BuildHasher>(map: &mut Map<S>, run: Run, start: u64) -> Option<u64> {
    let mut checksum = start;
    for group in 0..run.pairs / 8 {
        for round in 0..8u64 {
            let number = group.wrapping_mul(8).wrapping_add(round);
            checksum = append(map, run.key(group), run.value(number), checksum)?;
        }
    }
    Some(ends(map, checksum))
}

/// Eight pairs a key, one in each of eight rounds over all keys.
pub(crate) fn scattered<S: BuildHasher>(map: &mut Map<S>, run: Run, start: u64) -> Option<u64> {
    let mut checksum = start;
    let groups = run.pairs / 8;
    for round in 0..8u64 {
        for group in 0..groups {
            let number = round.wrapping_mul(groups).wrapping_add(group);
            checksum = append(map, run.key(group), run.value(number), checksum)?;
        }
    }
    Some(ends(map, checksum))
}

/// Sixteen pairs from `first` on, each under a random one of twelve keys.
pub(crate) fn spread_over_twelve<S: BuildHasher>(
    map: &mut Map<S>,
    first: u64,
    run: Run,
    start: u64,
) -> Option<u64> {
    let mut checksum = start;
    for i in first..first.wrapping_add(16) {
        let chosen = run.key(first.wrapping_add(run.choice(i, 12)));
        checksum = append(map, chosen, run.value(i), checksum)?;
    }
    Some(checksum)
}
