//! A table with a plain list of hashes, so that the condition of each call can be tested.
ghost use Rattle.std.specs.Prelude.{◌≡◌, ℕ, None, slice_index_or};
ghost use Rattle.std.specs.FinMap as map;

use multimap_table::KeyTable;
use std::alloc::{AllocError, Allocator, Global};
use std::marker::Model;

/// A table with a plain list, which has the hash of each place that has a row.
#[derive(Drop)]
pub struct Compared<A: Allocator = Global> {
    table: KeyTable<A>,
    hashes: Vec<Option<u64>, A>,
}

impl<A: Allocator> Model for Compared<A> {
    ghost use Rattle.std.specs.Prelude.{◌≡◌, ℕ, None, slice_index_or};
    ghost use Rattle.std.specs.FinMap as map;
    ghost use Rattle.multimap_table.specs.Table.{Table, table_code};

    ghost Value = { Table };

    ghost coded = { table_code };

    ghost view = { λ t. t.table };

    ghost invariant = { λ t. (place : ℕ)
        → map.get t.table.rows place ≡ slice_index_or t.hashes.items place None };
}

impl<A: Allocator + Copy> Compared<A> {
    /// An empty table with a list of this many places.
    pub fn with_places(alloc: A, places: usize) -> Result<Compared<A>, AllocError> {
        let mut hashes = Vec::new(alloc);
        hashes.resize(places, None)?;
        let table = KeyTable::new(alloc);
        Ok(Compared { table, hashes })
    }

    /// The table.
    #[inline(always)]
    pub fn table(&self) -> &KeyTable<A>
        ensures { result.now ≡ self.now }
    {
        &self.table
    }

    /// The table alone.
    #[cfg(test)]
    pub fn into_table(self) -> KeyTable<A> {
        let Compared { table, hashes: _ } = self;
        table
    }

    /// Adds a row where the table has room and no row of the place. Returns whether it did.
    #[inline(always)]
    pub fn insert(&mut self, hash: u64, place: usize) -> bool {
        if self.table.len() == self.table.capacity() || place >= self.hashes.len() {
            return false;
        }
        if self.hashes[place].is_some() {
            return false;
        }
        self.table.insert(hash, place);
        self.hashes[place] = Some(hash);
        true
    }

    /// Takes the row of the place out, where it has one. Returns whether it had.
    #[inline(always)]
    pub fn remove(&mut self, place: usize) -> bool {
        if place >= self.hashes.len() {
            return false;
        }
        let Some(hash) = self.hashes[place] else {
            return false;
        };
        self.table.remove(hash, place);
        self.hashes[place] = None;
        true
    }

    /// Takes out a row of this hash whose place passes the test. Returns the place.
    #[inline(always)]
    pub fn take<F: Fn(usize) -> bool>(&mut self, hash: u64, test: F) -> Option<usize>
        requires { F.IsAlwaysCallable test }
    {
        let Some(place) = self.table.take(hash, test) else {
            return None;
        };
        self.hashes[place] = None;
        Some(place)
    }

    /// Takes the row of the place out as `remove` does, by the table's `take`.
    #[inline(always)]
    pub fn take_at(&mut self, place: usize) -> bool {
        if place >= self.hashes.len() {
            return false;
        }
        let Some(hash) = self.hashes[place] else {
            return false;
        };
        self.take(hash, |other| other == place) == Some(place)
    }

    /// Makes room in the table for this many more rows.
    pub fn reserve(&mut self, additional: usize) -> Result<(), AllocError> {
        self.table.reserve(additional)
    }

    /// How many places the table and the list disagree on.
    #[cfg(test)]
    pub fn differences(&self) -> usize {
        let mut differences = 0usize;
        let mut rows = 0usize;
        for place in 0..self.hashes.len() {
            if let Some(hash) = self.hashes[place] {
                rows = rows.wrapping_add(1);
                if self.table.find(hash, |other| other == place) != Some(place) {
                    differences = differences.wrapping_add(1);
                }
            }
        }
        if self.table.len() != rows {
            differences = differences.wrapping_add(1);
        }
        differences
    }
}
