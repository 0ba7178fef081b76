//! Tests of the set from outside.
#![tactic(auto)]

#[cfg(test)]
mod tests;
