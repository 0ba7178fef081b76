//! The tests, by what they are of.
mod drained;
mod entry;
mod joined;
mod keys;
mod lending;
mod many;
mod memory;
mod popped_keys;
mod removal;
mod sorted;
mod tried;
mod writing;
mod written;
