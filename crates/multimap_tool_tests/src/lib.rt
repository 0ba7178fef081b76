//! Tests of the tool, which itself needs no test allocator. More lines, bad ones, refused memory and
//! random runs are cases of the program.
#![tactic(auto)]

#[cfg(test)]
mod tests;
