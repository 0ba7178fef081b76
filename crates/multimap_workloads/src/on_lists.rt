//! Some of the workloads on the kit's maps. Each returns none where memory was refused.
use crate::lists::Lists;
use crate::marks::mark;
use crate::numbers::{Run, START, mix};
use crate::workloads::Workload;
use std::alloc::Global;

/// Makes a map, runs the workload on it if it is one of those here, and lets it go.
#[inline(never)]
pub(crate) fn run_on_lists<L: Lists + Drop>(
    alloc: Global,
    workload: Workload,
    run: Run,
) -> Option<u64> {
    if matches!(workload, Workload::SmallMaps) {
        return small::<L>(alloc, run);
    }
    let mut lists = L::empty(alloc);
    let checksum = fill(alloc, &mut lists, workload, run)?;
    match workload {
        Workload::GetHit => Some(hits(&lists, run, checksum)),
        Workload::GetAllWalk => Some(walks(&lists, run, checksum)),
        Workload::RemoveAllHalf => Some(removes(&mut lists, run, checksum)),
        Workload::Clone => clones(&lists, run, checksum),
        Workload::HoldDistinct | Workload::HoldGrouped | Workload::HoldFew => mark(alloc, checksum),
        _ => Some(checksum),
    }
}

/// The appends of the workload.
fn fill<L: Lists>(alloc: Global, lists: &mut L, workload: Workload, run: Run) -> Option<u64> {
    match workload {
        Workload::AppendDistinct | Workload::GetHit | Workload::HoldDistinct => {
            distinct(alloc, lists, run)
        }
        Workload::AppendFew | Workload::HoldFew => few(alloc, lists, run),
        Workload::AppendGrouped | Workload::GetAllWalk | Workload::HoldGrouped => {
            grouped(alloc, lists, run)
        }
        Workload::AppendScattered | Workload::RemoveAllHalf | Workload::Clone => {
            scattered(alloc, lists, run)
        }
        _ => None,
    }
}

/// Appends a pair, and mixes in whether its key was present.
#[inline(always)]
fn append<L: Lists>(
    alloc: Global,
    lists: &mut L,
    key: u64,
    value: u64,
    checksum: u64,
) -> Option<u64> {
    let was_present = lists.append(alloc, key, value)?;
    Some(mix(checksum, was_present as u64))
}

/// The checksum with the numbers of keys and of values.
fn ends<L: Lists>(lists: &L, values: u64, checksum: u64) -> u64 {
    mix(mix(checksum, lists.keys_len()), values)
}

fn distinct<L: Lists>(alloc: Global, lists: &mut L, run: Run) -> Option<u64> {
    let mut checksum = START;
    for i in 0..run.pairs {
        checksum = append(alloc, lists, run.key(i), run.value(i), checksum)?;
    }
    Some(ends(lists, run.pairs, checksum))
}

fn few<L: Lists>(alloc: Global, lists: &mut L, run: Run) -> Option<u64> {
    let mut checksum = START;
    for i in 0..run.pairs {
        let chosen = run.key(run.choice(i, 1000));
        checksum = append(alloc, lists, chosen, run.value(i), checksum)?;
    }
    Some(ends(lists, run.pairs, checksum))
}

fn grouped<L: Lists>(alloc: Global, lists: &mut L, run: Run) -> Option<u64> {
    let mut checksum = START;
    for group in 0..run.pairs / 8 {
        for round in 0..8u64 {
            let number = group.wrapping_mul(8).wrapping_add(round);
            checksum = append(alloc, lists, run.key(group), run.value(number), checksum)?;
        }
    }
    Some(ends(lists, run.pairs, checksum))
}

fn scattered<L: Lists>(alloc: Global, lists: &mut L, run: Run) -> Option<u64> {
    let mut checksum = START;
    let groups = run.pairs / 8;
    for round in 0..8u64 {
        for group in 0..groups {
            let number = round.wrapping_mul(groups).wrapping_add(group);
            checksum = append(alloc, lists, run.key(group), run.value(number), checksum)?;
        }
    }
    Some(ends(lists, run.pairs, checksum))
}

/// The first value of the key, or this one.
#[inline(always)]
fn first_or<L: Lists>(lists: &L, key: u64, absent: u64) -> u64 {
    match lists.values(key) {
        Some(values) => values.first().copied().unwrap_or(absent),
        None => absent,
    }
}

fn hits<L: Lists>(lists: &L, run: Run, start: u64) -> u64 {
    let mut checksum = start;
    for j in 0..run.pairs.wrapping_mul(4) {
        let found = first_or(lists, run.key(run.choice(j, run.pairs)), 0);
        checksum = mix(checksum, found);
    }
    checksum
}

fn walks<L: Lists>(lists: &L, run: Run, start: u64) -> u64 {
    let mut checksum = start;
    for j in 0..run.pairs / 2 {
        if let Some(values) = lists.values(run.key(run.choice(j, run.pairs / 8))) {
            for value in values {
                checksum = mix(checksum, *value);
            }
        }
    }
    checksum
}

fn removes<L: Lists>(lists: &mut L, run: Run, start: u64) -> u64 {
    let mut checksum = start;
    let mut left = run.pairs;
    let groups = run.pairs / 8;
    for half in 0..groups.wrapping_add(1) / 2 {
        if let Some(values) = lists.take(run.key(half.wrapping_mul(2))) {
            left = left.wrapping_sub(values.len() as u64);
            for old in values {
                checksum = mix(checksum, old);
            }
        }
    }
    ends(lists, left, checksum)
}

fn clones<L: Lists + Drop>(lists: &L, run: Run, start: u64) -> Option<u64> {
    let mut checksum = start;
    for _ in 0..4 {
        let copy = lists.copy()?;
        checksum = ends(&copy, run.pairs, checksum);
    }
    Some(checksum)
}

/// A map of sixteen pairs for every sixteen pairs.
fn small<L: Lists + Drop>(alloc: Global, run: Run) -> Option<u64> {
    let mut checksum = START;
    for round in 0..run.pairs / 16 {
        let mut lists = L::empty(alloc);
        checksum = small_map(alloc, &mut lists, round.wrapping_mul(16), run, checksum)?;
    }
    Some(checksum)
}

/// Fills an empty map with the sixteen pairs from `first` on, and asks it.
fn small_map<L: Lists>(
    alloc: Global,
    lists: &mut L,
    first: u64,
    run: Run,
    start: u64,
) -> Option<u64> {
    let mut checksum = start;
    for i in first..first.wrapping_add(16) {
        let chosen = run.key(first.wrapping_add(run.choice(i, 12)));
        checksum = append(alloc, lists, chosen, run.value(i), checksum)?;
    }
    for i in first..first.wrapping_add(16) {
        checksum = mix(checksum, first_or(lists, run.key(i), 1));
    }
    Some(ends(lists, 16, mix(checksum, lists.sum_of_pairs())))
}
