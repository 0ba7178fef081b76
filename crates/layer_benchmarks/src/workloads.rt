//! The checksums of the map's workloads.
use multimap_workloads::bench;
use std::io;

// By the workloads' numbers.
const NAMES: &[&str] = &[
    "append_distinct",
    "append_few",
    "append_grouped",
    "append_scattered",
    "get_hit",
    "get_miss",
    "get_all_walk",
    "get_all_walk_scattered",
    "iter_all",
    "fifo_churn",
    "fifo_churn_few",
    "fifo_small",
    "insert_replace",
    "remove_all_half",
    "keys_all",
    "pairs_all",
    "clone",
    "retain_half",
    "retain_half_multi",
    "entry_count",
    "small_maps",
    "iter_mut_all",
    "get_all_mut_walk",
    "update_values",
    "update_all",
    "from_iter",
    "extend",
    "sort_keys",
    "sort_by",
    "request_headers",
    "form_fields",
    "config_section",
    "forty_headers",
    "set_over_eight",
    "remove_single",
    "hold_distinct",
    "hold_grouped",
    "hold_few",
];

/// A line for each workload: its name, and its checksums under the two hash builders, and on the kit's
/// two maps, where 0 stands for no such workload.
pub fn print_checksums(rt: &HostRuntime) -> io::Result<()> {
    for (workload, name) in NAMES.iter().enumerate() {
        print_line(rt, workload as u64, name)?;
    }
    Ok(())
}

fn print_line(rt: &HostRuntime, workload: u64, name: &str) -> io::Result<()> {
    let default = bench(rt.alloc(), workload, 0, 64, 1);
    let fast = bench(rt.alloc(), workload, 1, 64, 1);
    let hash = bench(rt.alloc(), workload, 2, 64, 1);
    let index = bench(rt.alloc(), workload, 3, 64, 1);
    println!(rt; "{name} {default} {fast} {hash} {index}")
}
