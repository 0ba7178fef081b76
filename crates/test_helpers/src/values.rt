//! What derives and Debug give a value; numbers that are sorted; and random ones.
use std::alloc::Global;
use std::fmt;

/// More numbers than are sorted in place.
pub const SHUFFLED: &[u32] = &[
    1, 9, 17, 4, 12, 20, 7, 15, 2, 10, 18, 5, 13, 21, 8, 16, 3, 11, 19, 6, 14,
];

/// The same, the least first.
pub const ASCENDING: &[u32] = &[
    1, 2, 3, 4, 5, 6, 7, 8, 9, 10, 11, 12, 13, 14, 15, 16, 17, 18, 19, 20, 21,
];

/// Whether a value is shown by this text.
pub fn is_shown<T: fmt::Debug>(alloc: Global, value: &T, wanted: &str) -> bool {
    match format!(in alloc; "{value:?}") {
        Ok(text) => text.as_str() == wanted,
        Err(_) => false,
    }
}

/// Whether a value is equal to itself and to one like it, and not to another.
pub fn is_compared<T: PartialEq>(value: &T, like: &T, other: &T) -> bool {
    *value == *value && *value == *like && *value != *other && !(*value == *other)
}

/// Whether a value is equal to its copy and to its clone.
pub fn is_copied<T: PartialEq + Clone + Copy>(value: &T) -> bool {
    let copy = *value;
    match value.clone() {
        Ok(clone) => copy == *value && clone == *value,
        Err(_) => false,
    }
}

/// A random number after this one, by shifts.
pub fn next_random(state: u64) -> u64 {
    let mut x = state;
    x ^= x << 13;
    x ^= x >> 7;
    x ^= x << 17;
    x
}
