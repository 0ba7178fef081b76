//! The text of an entry.
use super::{Entry, OccupiedEntry, VacantEntry};
use std::alloc::Allocator;
use std::fmt;
use std::hash::{BuildHasher, Hash};

impl<'map, K: Eq + Hash + fmt::Debug, V: fmt::Debug, S: BuildHasher, A: Allocator> fmt::Debug
    for OccupiedEntry<'map, K, V, S, A> {
    fn fmt<W: fmt::Write>(&self, f: &mut fmt::Formatter<W>) -> fmt::Result {
        f.debug_struct("OccupiedEntry")
            .field("key", self.key())
            .field("values", &self.iter())
            .finish()
    }
}

impl<'map, K: Eq + Hash + fmt::Debug, V, S: BuildHasher, A: Allocator> fmt::Debug
    for VacantEntry<'map, K, V, S, A> {
    fn fmt<W: fmt::Write>(&self, f: &mut fmt::Formatter<W>) -> fmt::Result {
        f.debug_tuple("VacantEntry").field(&self.key).finish()
    }
}

impl<'map, K: Eq + Hash + fmt::Debug, V: fmt::Debug, S: BuildHasher, A: Allocator> fmt::Debug
    for Entry<'map, K, V, S, A> {
    fn fmt<W: fmt::Write>(&self, f: &mut fmt::Formatter<W>) -> fmt::Result {
        match self {
            Entry::Occupied(entry) => entry.fmt(f),
            Entry::Vacant(entry) => entry.fmt(f),
        }
    }
}
