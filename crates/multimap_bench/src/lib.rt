//! The workloads of the map as a static library, for a program in another language that times them.
#![tactic(auto)]

use std::alloc::Global;

/// Makes a map, runs a workload on it, and lets it go: `bench` of `multimap_workloads`, whose
/// arguments and result these are.
#[unsafe(no_mangle)]
pub extern "C" fn bench(alloc: Global, workload: u64, side: u64, n: u64, seed: u64) -> u64 {
    multimap_workloads::bench(alloc, workload, side, n, seed)
}
