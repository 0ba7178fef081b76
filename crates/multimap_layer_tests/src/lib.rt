//! Tests of the slot list and of the tape, from outside, and of a walk's step along links. They stand
//! in a crate of their own, since they need an allocator that refuses.
#![tactic(auto)]

#[cfg(test)]
mod tests;
