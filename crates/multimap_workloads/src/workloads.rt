//! The workloads, each on a map of its own under any hash builder.
use crate::appends::{Map, distinct, ends, few, grouped, scattered, spread_over_twelve};
use crate::changes::{
    counts, fifo, fifo_few, fifo_small, removes, removes_single, replaces, retains, sets,
};
use crate::lookups::{
    all_keys, all_lists, all_pairs, clones, hits, misses, sixteen_keys, sum_of_pairs, walks,
};
use crate::many::{extends, makes};
use crate::marks::mark;
use crate::names::{Named, named_maps};
use crate::numbers::{Run, START, mix};
use crate::sorts::{sorts_keys, sorts_pairs};
use crate::writes::{adds_keys, adds_keys_by_calls, adds_numbers, adds_numbers_by_calls};
use ordered_multimap::ListOrderedMultimap;
use std::alloc::Global;
use std::hash::BuildHasher;

/// What a workload returns where memory was refused.
pub(crate) const REFUSED: u64 = 0;

/// What is done to an empty map.
#[derive(Clone, Copy)]
pub(crate) enum Workload {
    /// Appends a new key for each pair.
    AppendDistinct,
    /// Appends to a thousand keys, in random order.
    AppendFew,
    /// Appends eight pairs a key, one after another.
    AppendGrouped,
    /// Appends eight pairs a key, in eight rounds over the keys.
    AppendScattered,
    /// Gets random keys that are there, after `AppendDistinct`.
    GetHit,
    /// Gets keys that are not there, after `AppendDistinct`.
    GetMiss,
    /// Goes over the values of random keys, after `AppendGrouped`.
    GetAllWalk,
    /// Goes over the values of random keys, after `AppendScattered`.
    GetAllWalkScattered,
    /// Goes over all pairs, after `AppendScattered`.
    IterAll,
    /// New keys come and the oldest go, after `AppendDistinct`.
    FifoChurn,
    /// Pairs of a thousand keys come and the oldest go, after `AppendFew`.
    FifoChurnFew,
    /// New keys come and the oldest go, on a map of 64 pairs.
    FifoSmall,
    /// Puts new pairs in the place of old ones, after `AppendDistinct`.
    InsertReplace,
    /// Takes out half of the keys with their values, after `AppendScattered`.
    RemoveAllHalf,
    /// Goes over all keys, after `AppendScattered`.
    KeysAll,
    /// Goes over all keys with their values, after `AppendScattered`.
    PairsAll,
    /// Clones the map four times, after `AppendScattered`.
    Clone,
    /// Keeps half of the pairs, after `AppendDistinct`.
    RetainHalf,
    /// Keeps half of the pairs, after `AppendScattered`.
    RetainHalfMulti,
    /// Counts keys by their entries, on an empty map.
    EntryCount,
    /// Makes, fills, asks and drops maps of sixteen pairs.
    SmallMaps,
    /// Writes all values by walks over all pairs, after `AppendScattered`.
    IterMutAll,
    /// Writes the values of random keys, after `AppendGrouped`.
    GetAllMutWalk,
    /// What `IterMutAll` does, by a function that is called on each pair.
    UpdateValues,
    /// What `GetAllMutWalk` does, by a function that is called on each value of the key.
    UpdateAll,
    /// Makes a map of a new key for each pair, from an iterator that tells its length.
    FromIter,
    /// Extends an empty map by eight pairs a key, from an iterator that tells its length.
    Extend,
    /// Sorts the keys, after `AppendDistinct`.
    SortKeys,
    /// Sorts the pairs by their keys, after `AppendScattered`.
    SortBy,
    /// Makes, fills, asks, changes and drops maps with text keys.
    Names(Named),
    /// Sets each key, which has eight values, after `AppendScattered`.
    SetOverEight,
    /// Takes out half of the keys, which have a value each, after `AppendDistinct`.
    RemoveSingle,
    /// Marks the memory in use after `AppendDistinct`.
    HoldDistinct,
    /// Marks the memory in use after `AppendGrouped`.
    HoldGrouped,
    /// Marks the memory in use after `AppendFew`.
    HoldFew,
}

/// The workloads by their numbers.
pub(crate) const WORKLOADS: [Workload; 38] = [
    Workload::AppendDistinct,
    Workload::AppendFew,
    Workload::AppendGrouped,
    Workload::AppendScattered,
    Workload::GetHit,
    Workload::GetMiss,
    Workload::GetAllWalk,
    Workload::GetAllWalkScattered,
    Workload::IterAll,
    Workload::FifoChurn,
    Workload::FifoChurnFew,
    Workload::FifoSmall,
    Workload::InsertReplace,
    Workload::RemoveAllHalf,
    Workload::KeysAll,
    Workload::PairsAll,
    Workload::Clone,
    Workload::RetainHalf,
    Workload::RetainHalfMulti,
    Workload::EntryCount,
    Workload::SmallMaps,
    Workload::IterMutAll,
    Workload::GetAllMutWalk,
    Workload::UpdateValues,
    Workload::UpdateAll,
    Workload::FromIter,
    Workload::Extend,
    Workload::SortKeys,
    Workload::SortBy,
    Workload::Names(Named::RequestHeaders),
    Workload::Names(Named::FormFields),
    Workload::Names(Named::ConfigSection),
    Workload::Names(Named::FortyHeaders),
    Workload::SetOverEight,
    Workload::RemoveSingle,
    Workload::HoldDistinct,
    Workload::HoldGrouped,
    Workload::HoldFew,
];

/// Makes a map, runs a workload on it, and lets the map go. Returns the checksum. Each hasher has
/// this function to itself, as a large one keeps fewer of a walk's numbers in registers.
#[inline(never)]
pub(crate) fn run_workload<S: BuildHasher + Clone + Default + Drop>(
    alloc: Global,
    state: S,
    workload: Workload,
    run: Run,
) -> u64 {
    if matches!(workload, Workload::SmallMaps) {
        return run_small::<S>(alloc, run);
    }
    if let Workload::Names(named) = workload {
        return named_maps(alloc, named, run).unwrap_or(REFUSED);
    }
    if matches!(workload, Workload::FromIter) {
        return makes(alloc, state, run).unwrap_or(REFUSED);
    }
    let mut map = ListOrderedMultimap::with_hasher(alloc, state);
    run_on(&mut map, workload, run)
}

fn run_on<S: BuildHasher + Clone>(map: &mut Map<S>, workload: Workload, run: Run) -> u64 {
    let Some(filled) = fill(map, workload, run) else {
        return REFUSED;
    };
    match change(map, workload, run, filled) {
        Some(checksum) => look_up(map, workload, run, checksum),
        None => REFUSED,
    }
}

/// The appends of a workload. They stand apart, as the changes that append do, so that the loops of
/// other workloads don't share their registers with an append that is inlined.
#[inline(never)]
fn fill<S: BuildHasher>(map: &mut Map<S>, workload: Workload, run: Run) -> Option<u64> {
    match workload {
        Workload::AppendDistinct
        | Workload::GetHit
        | Workload::GetMiss
        | Workload::FifoChurn
        | Workload::InsertReplace
        | Workload::RetainHalf
        | Workload::SortKeys
        | Workload::RemoveSingle
        | Workload::HoldDistinct => distinct(map, run, START),
        Workload::AppendFew | Workload::FifoChurnFew | Workload::HoldFew => few(map, run, START),
        Workload::AppendGrouped
        | Workload::GetAllWalk
        | Workload::GetAllMutWalk
        | Workload::UpdateAll
        | Workload::HoldGrouped => grouped(map, run, START),
        Workload::AppendScattered
        | Workload::GetAllWalkScattered
        | Workload::IterAll
        | Workload::KeysAll
        | Workload::PairsAll
        | Workload::RemoveAllHalf
        | Workload::RetainHalfMulti
        | Workload::Clone
        | Workload::IterMutAll
        | Workload::UpdateValues
        | Workload::SetOverEight
        | Workload::SortBy => scattered(map, run, START),
        Workload::Extend => extends(map, run, START),
        _ => Some(START),
    }
}

/// The changes of a workload, after its appends.
fn change<S: BuildHasher>(
    map: &mut Map<S>,
    workload: Workload,
    run: Run,
    checksum: u64,
) -> Option<u64> {
    match workload {
        Workload::FifoChurn => fifo(map, run.pairs, run, checksum),
        Workload::FifoChurnFew => fifo_few(map, run, checksum),
        Workload::FifoSmall => fifo_small(map, run, checksum),
        Workload::InsertReplace => replaces(map, run, checksum),
        Workload::RemoveAllHalf => Some(removes(map, run, checksum)),
        Workload::RemoveSingle => Some(removes_single(map, run, checksum)),
        Workload::SetOverEight => sets(map, run, checksum),
        Workload::RetainHalf | Workload::RetainHalfMulti => Some(retains(map, checksum)),
        Workload::EntryCount => counts(map, run, checksum),
        Workload::IterMutAll => Some(adds_keys(map, checksum)),
        Workload::GetAllMutWalk => Some(adds_numbers(map, run, checksum)),
        Workload::UpdateValues => Some(adds_keys_by_calls(map, checksum)),
        Workload::UpdateAll => Some(adds_numbers_by_calls(map, run, checksum)),
        Workload::SortKeys => sorts_keys(map, checksum),
        Workload::SortBy => sorts_pairs(map, checksum),
        Workload::HoldDistinct | Workload::HoldGrouped | Workload::HoldFew => {
            mark(*map.allocator(), checksum)
        }
        _ => Some(checksum),
    }
}

/// The look-ups, walks and clones of a workload, after its appends and changes.
fn look_up<S: BuildHasher + Clone>(
    map: &Map<S>,
    workload: Workload,
    run: Run,
    checksum: u64,
) -> u64 {
    match workload {
        Workload::IterAll => all_pairs(map, checksum),
        Workload::KeysAll => all_keys(map, checksum),
        Workload::PairsAll => all_lists(map, checksum),
        Workload::Clone => clones(map, checksum).unwrap_or(REFUSED),
        Workload::GetHit
        | Workload::GetMiss
        | Workload::GetAllWalk
        | Workload::GetAllWalkScattered => ask(map, workload, run, checksum),
        _ => checksum,
    }
}

/// The look-ups of a workload, after its appends. They stand apart, so that the walks over all pairs
/// or keys keep their numbers in registers.
#[inline(never)]
fn ask<S: BuildHasher>(map: &Map<S>, workload: Workload, run: Run, checksum: u64) -> u64 {
    match workload {
        Workload::GetHit => hits(map, run, checksum),
        Workload::GetMiss => misses(map, run, checksum),
        _ => walks(map, run, checksum),
    }
}

/// Makes, fills, asks and drops a map of sixteen pairs for every sixteen pairs. Returns the
/// checksum.
fn run_small<S: BuildHasher + Default + Drop>(alloc: Global, run: Run) -> u64 {
    let mut checksum = START;
    for round in 0..run.pairs / 16 {
        let map = ListOrderedMultimap::with_hasher(alloc, S::default());
        match small_map(map, round.wrapping_mul(16), run, checksum) {
            Some(seen) => checksum = seen,
            None => return REFUSED,
        }
    }
    checksum
}

/// Fills an empty map with the sixteen pairs from `first` on, asks it, and lets it go.
fn small_map<S: BuildHasher + Drop>(
    empty: Map<S>,
    first: u64,
    run: Run,
    start: u64,
) -> Option<u64> {
    let mut map = empty;
    let filled = spread_over_twelve(&mut map, first, run, start)?;
    let found = sixteen_keys(&map, first, run, filled);
    Some(ends(&map, mix(found, sum_of_pairs(&map))))
}
