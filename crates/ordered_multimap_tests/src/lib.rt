//! Tests of the map, from outside: constructors, appends, look-ups, walks for reading, clones,
//! equality, and the walk that takes a map apart; queries; and what programs write first.
#![tactic(auto)]

#[cfg(test)]
mod tests;
