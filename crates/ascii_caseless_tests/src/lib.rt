//! Tests of texts without case, from outside, and proved callers of maps with such keys.
#![tactic(auto)]

pub mod callers;
#[cfg(test)]
mod tests;
