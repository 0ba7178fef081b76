//! The tests, by what they are of.
mod callers;
mod faults;
mod letters;
mod maps;
mod memory;
mod parts;
mod streams;
mod texts;
