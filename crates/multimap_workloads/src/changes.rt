//! Pairs that come and go, that are replaced, and that leave with their key, on a map that was filled
//! by appends; and keys that are counted. Each returns none where memory was refused.
use crate::appends::{Map, distinct, ends};
use crate::numbers::{Run, mix, spread};
use std::hash::BuildHasher;

/// Appends a pair and pops the first one. Mixes in the value that left, whether the key that came
/// was present, and whether the one that left is gone.
#[inline(always)]
fn churn<S: BuildHasher>(map: &mut Map<S>, key: u64, value: u64, checksum: u64) -> Option<u64> {
    let present = match map.append(key, value) {
        Ok(present) => present as u64,
        Err(_) => return None,
    };
    let number = match map.pop_front() {
        Some((popped, old)) => old ^ present ^ (popped.is_owned() as u64).wrapping_mul(2),
        None => 5,
    };
    Some(mix(checksum, number))
}

/// New keys come and the oldest go, four times a pair.
#[inline(never)]
pub(crate) fn fifo<S: BuildHasher>(
    map: &mut Map<S>,
    filled: u64,
    run: Run,
    start: u64,
) -> Option<u64> {
    let mut checksum = start;
    for j in 0..run.pairs.wrapping_mul(4) {
        let number = filled.wrapping_add(j);
        checksum = churn(map, run.key(number), run.value(number), checksum)?;
    }
    Some(ends(map, checksum))
}

/// Pairs of a thousand keys come and go, four times a pair.
#[inline(never)]
pub(crate) fn fifo_few<S: BuildHasher>(map: &mut Map<S>, run: Run, start: u64) -> Option<u64> {
    let mut checksum = start;
    for j in 0..run.pairs.wrapping_mul(4) {
        let number = run.pairs.wrapping_add(j);
        let chosen = run.key(run.choice(number, 1000));
        checksum = churn(map, chosen, run.value(number), checksum)?;
    }
    Some(ends(map, checksum))
}

/// The same as `fifo` on a map of 64 pairs, however many come and go.
#[inline(never)]
pub(crate) fn fifo_small<S: BuildHasher>(map: &mut Map<S>, run: Run, start: u64) -> Option<u64> {
    let checksum = distinct(map, Run { pairs: 64, ..run }, start)?;
    fifo(map, 64, run, checksum)
}

/// Puts a new pair in the place of all pairs of a random key, four times a pair.
#[inline(never)]
pub(crate) fn replaces<S: BuildHasher>(map: &mut Map<S>, run: Run, start: u64) -> Option<u64> {
    let mut checksum = start;
    for j in 0..run.pairs.wrapping_mul(4) {
        let chosen = run.key(run.choice(j, run.pairs));
        let old = match map.insert(chosen, run.value(run.pairs.wrapping_add(j))) {
            Ok(old) => old,
            Err(_) => return None,
        };
        checksum = mix(checksum, old.unwrap_or(0));
    }
    Some(ends(map, checksum))
}

/// Sets each key, which has eight values, so that it has one.
#[inline(never)]
pub(crate) fn sets<S: BuildHasher>(map: &mut Map<S>, run: Run, start: u64) -> Option<u64> {
    let mut checksum = start;
    for group in 0..run.pairs / 8 {
        let value = run.value(run.pairs.wrapping_add(group));
        let old = match map.set(run.key(group), value) {
            Ok(old) => old,
            Err(_) => return None,
        };
        checksum = mix(checksum, old.unwrap_or(0));
    }
    Some(ends(map, checksum))
}

/// Takes out every other key with its only value.
#[inline(never)]
pub(crate) fn removes_single<S: BuildHasher>(map: &mut Map<S>, run: Run, start: u64) -> u64 {
    let mut checksum = start;
    for half in 0..run.pairs / 2 {
        let old = map.remove(&run.key(half.wrapping_mul(2)));
        checksum = mix(checksum, old.unwrap_or(0));
    }
    ends(map, checksum)
}

/// Takes out every other key with its eight values.
pub(crate) fn removes<S: BuildHasher>(map: &mut Map<S>, run: Run, start: u64) -> u64 {
    let mut checksum = start;
    let groups = run.pairs / 8;
    for half in 0..groups.wrapping_add(1) / 2 {
        for old in map.remove_all(&run.key(half.wrapping_mul(2))) {
            checksum = mix(checksum, old);
        }
    }
    ends(map, checksum)
}

/// Keeps the pairs with an even value once its bits are spread, about half of them. Mixes in how
/// often the map asked.
pub(crate) fn retains<S: BuildHasher>(map: &mut Map<S>, start: u64) -> u64 {
    let mut calls = 0u64;
    map.retain(|_key, value| {
        calls = calls.wrapping_add(1);
        spread(*value) % 2 == 0
    });
    ends(map, mix(start, calls))
}

/// Counts how often each of an eighth as many keys is chosen, four times a pair.
#[inline(never)]
pub(crate) fn counts<S: BuildHasher>(map: &mut Map<S>, run: Run, start: u64) -> Option<u64> {
    let mut checksum = start;
    for j in 0..run.pairs.wrapping_mul(4) {
        let chosen = run.key(run.choice(j, run.pairs / 8));
        let entry = map
            .entry(chosen)
            .and_modify(|count| *count = count.wrapping_add(1));
        let count = match entry.or_insert(1) {
            Ok(count) => *count,
            Err(_) => return None,
        };
        checksum = mix(checksum, count);
    }
    Some(ends(map, checksum))
}
