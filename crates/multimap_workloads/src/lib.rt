//! Workloads of the map, for programs that run and time them.
//!
//! Proved is that each is safe and returns. That it does the work that it is named for is tested:
//! `layer_benchmarks` prints the checksums at 64 pairs.
#![tactic(auto)]

mod appends;
mod changes;
mod fast;
mod lists;
mod lookups;
mod many;
mod marks;
mod names;
mod numbers;
mod on_lists;
mod sorts;
mod workloads;
mod writes;

use fast::FastHasher;
use indexmap::IndexMap;
use numbers::Run;
use on_lists::run_on_lists;
use ordered_multimap::list_ordered_multimap::DefaultState;
use std::alloc::Global;
use std::collections::HashMap;
use std::hash::BuildHasherDefault;
use workloads::{REFUSED, WORKLOADS, run_workload};

/// The sides by their numbers: the map with its default hash builder, and the kit's maps with a vector
/// of values a key, which have the same. Every other number is the map with the fast hasher of
/// `fast.rt`.
const DEFAULT: u64 = 0;

const HASH_MAP: u64 = 2;

const INDEX_MAP: u64 = 3;

/// Makes a map, runs a workload on it, and lets it go.
///
/// `workload` is the place of the workload in `WORKLOADS`, `side` 0 for the map with its default hash
/// builder, 1 for the map with the fast one, 2 for the kit's `HashMap` and 3 for its `IndexMap`, and
/// `n` the number of pairs, a multiple of 16. The result is a checksum of what the calls returned,
/// which depends on no hasher, or 0 where memory was refused or the side has no such workload.
pub fn bench(alloc: Global, workload: u64, side: u64, n: u64, seed: u64) -> u64 {
    let named = usize::try_from(workload)
        .ok()
        .and_then(|place| WORKLOADS.get(place));
    let Some(found) = named else {
        return REFUSED;
    };
    let run = Run { pairs: n, seed };
    match side {
        DEFAULT => run_workload(alloc, DefaultState::new(), *found, run),
        HASH_MAP => {
            run_on_lists::<HashMap<u64, Vec<u64>>>(alloc, *found, run).unwrap_or(REFUSED)
        }
        INDEX_MAP => {
            run_on_lists::<IndexMap<u64, Vec<u64>>>(alloc, *found, run).unwrap_or(REFUSED)
        }
        _ => {
            let fast = BuildHasherDefault::<FastHasher>::new();
            run_workload(alloc, fast, *found, run)
        }
    }
}
