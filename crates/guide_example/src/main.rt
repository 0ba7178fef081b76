//! The program of README.md and docs/GUIDE.md: it prints three pairs in their order.
#![tactic(auto)]

use ordered_multimap::ListOrderedMultimap;
use std::alloc::AllocError;
use std::io;

/// Words with numbers.
type Words = ListOrderedMultimap<&'static str, u32>;

fn add_three(map: &mut Words) -> Result<(), AllocError> {
    map.append("line", 1)?;
    map.append("page", 8)?;
    map.append("line", 2)?;
    Ok(())
}

fn print_pairs(rt: &impl Print, map: &Words) -> io::Result<()> {
    for (key, value) in map {
        println!(rt; "{key} {value}")?;
    }
    Ok(())
}

fn main(rt: HostRuntime) -> io::Result<()> {
    let mut map = ListOrderedMultimap::new(rt.alloc());
    add_three(&mut map)?;
    print_pairs(&rt, &map)
}
