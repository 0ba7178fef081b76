//! A table of rows (hash, place), found by hash: the index under a map, which sees no key.
#![tactic(auto)]

mod group;
mod grow;
mod insert;
mod probe;
mod remove;
mod table;

pub use table::KeyTable;
