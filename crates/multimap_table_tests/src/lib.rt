//! Tests of the key table from outside, and of what all tests stand on: the allocator that refuses
//! and the helpers.
//!
//! They stand in a crate of their own, since they need an allocator that refuses: a crate has one
//! list of dependencies for its code and its tests, and the key table itself stands on nothing.
#![tactic(auto)]

pub mod compared;
#[cfg(test)]
mod helpers;
#[cfg(test)]
mod rows;
