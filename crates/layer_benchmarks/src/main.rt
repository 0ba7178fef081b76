//! Measures the layers below the map: with the word `table` the key table, and with `tape` walks over
//! a tape with holes. It prints a line of times for each size. With no word it goes through that work
//! at small sizes, and through the map's workloads at 64 pairs and seed 1, and prints the checksums
//! alone: of a workload that under the map's default hash builder, that under the fast one, and those of
//! the kit's maps.
#![tactic(auto)]

mod table;
mod tape;
mod walks;
mod workloads;

use std::{env, io};

fn main(rt: HostRuntime) -> io::Result<()> {
    let words = env::args(&rt)?;
    match words.last().as_deref() {
        Some("table") => table::print_times(&rt),
        Some("tape") => tape::print_times(&rt),
        _ => print_checksums(&rt),
    }
}

fn print_checksums(rt: &HostRuntime) -> io::Result<()> {
    let _times = table::measure(rt, 1000, 2000)?;
    tape::print_checksums(rt)?;
    workloads::print_checksums(rt)
}
