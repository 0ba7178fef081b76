//! Tests of room that is asked for ahead, of packing, of many pairs that come at once, and of each
//! call of the map with each of its requests for memory refused, from outside.
#![tactic(auto)]

#[cfg(test)]
mod tests;
