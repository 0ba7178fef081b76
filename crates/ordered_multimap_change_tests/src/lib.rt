//! Tests of what changes the map, from outside: entries and references for writing; insertions,
//! removals, pops, drains and `retain`; and the walks that lend values for writing.
#![tactic(auto)]

#[cfg(test)]
mod tests;
