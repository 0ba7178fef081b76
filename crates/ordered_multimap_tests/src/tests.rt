//! The tests: each makes one map, or is lent one, since maps that are owned cost a proof most.
mod defaults;
mod derives;
mod maps;
mod queries;
mod taken;
mod walks;
