//! A hash builder by which each key has the same hash.
use std::hash::{BuildHasher, Hasher};

/// A hasher, and a builder of it, whose hash is always the same.
#[derive(Clone, Copy)]
pub struct Constant {
    /// The hash of each key.
    pub hash: u64,
}

/// The builder by which the hash of each key is 0.
pub const ZERO: Constant = Constant { hash: 0 };

impl Hasher for Constant {
    ghost write = { λ s _. s };

    ghost finish = { λ s. s.hash };

    fn finish(&self) -> u64 {
        self.hash
    }

    fn write(&mut self, _bytes: &[u8]) {}
}

impl BuildHasher for Constant {
    type Hasher = Constant;

    ghost build_hasher = { λ s. s };

    fn build_hasher(&self) -> Constant {
        *self
    }
}
