//! The table itself: its lanes, and how many rows they hold.
ghost use Rattle.std.specs.Prelude.{◌≡◌, ℕ, ◌+◌, ◌*◌, ◌<◌, ◌≤◌, ◌↔◌, true, false, None, Some, IfSome, IfNone, IfOk, OnOk, OnErr, IsOk, IsTrue};
ghost use Rattle.std.specs.FinMap as map;
ghost use Rattle.multimap_table.specs.Table.{HasRow};
ghost use Rattle.multimap_table.specs.Private.Layout.{Grows, IsEmptyFor};

use crate::group::{LANES, Row};
use crate::grow::{GROUP_LOAD, MAX_GROUPS, groups_for, insert_all};
use crate::insert::insert_row;
use crate::probe::find_lane;
use crate::remove::remove_row;
use std::alloc::{AllocError, Allocator, Global};
use std::fmt;
use std::marker::Model;

/// A set of rows (hash, place) with distinct places, in which a row is found by its hash.
///
/// Any number is a hash and any number is a place, and all hashes may be equal. A hash is kept with
/// its place, so that growth hashes no key again.
///
/// The rows lie in lanes, sixteen a group, and each lane has one byte of its row's hash as a tag. A
/// row stands in the first group with an empty lane, from the group that its hash names. A removal
/// moves later rows back where it has to, so nothing is left behind that would slow later calls.
#[derive(Drop)]
pub struct KeyTable<A: Allocator = Global> {
    tags: Vec<u8, A>,
    rows: Vec<Row, A>,
    len: usize,
}

impl<A: Allocator> Model for KeyTable<A> {
    ghost use Rattle.multimap_table.specs.Table.{Table, table_code};

    ghost Value = { Table };

    ghost coded = { table_code };

    ghost use Rattle.multimap_table.specs.Private.Layout.{IsTable, table_of};

    ghost view = { λ t. table_of t.tags.items t.rows.items };

    ghost invariant = { λ t. IsTable t.tags.items t.rows.items t.len };
}

impl<A: Allocator> KeyTable<A> {
    /// How many rows the table has.
    pub fn len(&self) -> usize
        ensures { result ≡ map.len self.now.rows }
    {
        self.len
    }

    /// Whether the table has no row.
    pub fn is_empty(&self) -> bool
        ensures { IsTrue result ↔ (self.now.rows ≡ map.empty) }
    {
        self.len == 0
    }

    /// How many rows fit without growing.
    pub fn capacity(&self) -> usize
        ensures capacity { result ≡ self.now.capacity }
        ensures fits { map.len self.now.rows ≤ self.now.capacity }
    {
        GROUP_LOAD * (self.tags.len() / LANES)
    }

    /// A place of this hash that passes the test, which is called on places of this hash alone.
    ///
    /// Reads one group of tags or a little more, and one row for each that has the hash.
    #[inline(always)]
    pub fn find<F: Fn(usize) -> bool>(&self, hash: u64, test: F) -> Option<usize>
        requires callable { (place : ℕ) → HasRow self.now place hash → F.pre test place }
        ensures found { IfSome result (λ place. HasRow self.now place hash
            × F.post test place true) }
        ensures absent { IfNone result ((place : ℕ) → HasRow self.now place hash
            → F.post test place false) }
    {
        if self.tags.is_empty() {
            return None;
        }
        let rows = self.rows.as_slice();
        match find_lane(self.tags.as_slice(), rows, hash, &test) {
            Some(lane) => Some(rows[lane].place),
            None => None,
        }
    }

    /// Adds a row of a place that the table does not have yet. There must be room for it. Takes no
    /// memory.
    ///
    /// Reads the tags of groups up to the first that has an empty lane: one, seldom more.
    pub fn insert(&mut self, hash: u64, place: usize)
        requires room { map.len self.old.rows < self.old.capacity }
        requires absent { map.get self.old.rows place ≡ None }
        ensures rows { self.new.rows ≡ map.insert self.old.rows place hash }
        ensures capacity { self.new.capacity ≡ self.old.capacity }
    {
        insert_row(&mut self.tags, &mut self.rows, Row { hash, place });
        self.len += 1;
    }

    /// Takes the row of a place out, which must be there with this hash. Its lane is free for
    /// another row.
    ///
    /// Finds the row as `find` does. Where its group was full, rows of later groups may move back,
    /// each with the tags and rows between read once.
    #[inline(always)]
    pub fn remove(&mut self, hash: u64, place: usize)
        requires { HasRow self.old place hash }
        ensures rows { self.new.rows ≡ map.remove self.old.rows place }
        ensures capacity { self.new.capacity ≡ self.old.capacity }
    {
        let is_place = |other| other == place;
        let found = find_lane(self.tags.as_slice(), self.rows.as_slice(), hash, &is_place);
        let Some(lane) = found else { unreachable!() };
        remove_row(&mut self.tags, &mut self.rows, lane);
        self.len -= 1;
    }

    /// Takes out a row of this hash whose place passes the test, and returns the place. The test is
    /// called on places of this hash alone.
    ///
    /// Finds the row as `find` does and takes it out as `remove` does, in one probe.
    #[inline(always)]
    pub fn take<F: Fn(usize) -> bool>(&mut self, hash: u64, test: F) -> Option<usize>
        requires callable { (place : ℕ) → HasRow self.old place hash → F.pre test place }
        ensures found { IfSome result (λ place. HasRow self.old place hash
            × F.post test place true) }
        ensures rows { IfSome result (λ place. self.new.rows ≡ map.remove self.old.rows place) }
        ensures absent { IfNone result ((place : ℕ) → HasRow self.old place hash
            → F.post test place false) }
        ensures unchanged { IfNone result (self.new ≡ self.old) }
        ensures capacity { self.new.capacity ≡ self.old.capacity }
    {
        if self.tags.is_empty() {
            return None;
        }
        let found = find_lane(self.tags.as_slice(), self.rows.as_slice(), hash, &test);
        let Some(lane) = found else {
            return None;
        };
        let place = self.rows[lane].place;
        remove_row(&mut self.tags, &mut self.rows, lane);
        self.len -= 1;
        Some(place)
    }

    /// Takes all rows out. The capacity stays. Writes the tag of each lane.
    pub fn clear(&mut self)
        ensures empty { self.new.rows ≡ map.empty }
        ensures capacity { self.new.capacity ≡ self.old.capacity }
    {
        self.tags.fill(0);
        self.len = 0;
    }
}

impl<A: Allocator + Copy> KeyTable<A> {
    /// An empty table, which takes no memory.
    pub fn new(alloc: A) -> KeyTable<A>
        ensures empty { result.rows ≡ map.empty }
        ensures capacity { result.capacity ≡ 0 }
    {
        KeyTable {
            tags: Vec::new(alloc),
            rows: Vec::new(alloc),
            len: 0,
        }
    }

    /// An empty table with room for `capacity` rows or more. `Err` where memory was refused, or the
    /// rows would be too many for any memory. Writes each lane.
    pub fn with_capacity(alloc: A, capacity: usize) -> Result<KeyTable<A>, AllocError>
        ensures empty { IfOk result (λ table. table.rows ≡ map.empty) }
        ensures room { IfOk result (λ table. capacity ≤ table.capacity) }
        ensures succeeds { capacity ≡ 0 → IsOk result }
    {
        if capacity == 0 {
            return Ok(KeyTable::new(alloc));
        }
        KeyTable::with_groups_for(alloc, capacity)
    }

    /// Makes room for `additional` more rows. If they fit already, nothing changes.
    ///
    /// `Err` where a growth was refused, or the rows would be too many for any memory. The rows and
    /// the capacity are then as before. A growth writes each lane of the new groups and puts each
    /// row in, by the hash that is kept with it.
    pub fn reserve(&mut self, additional: usize) -> Result<(), AllocError>
        ensures unchanged { self.new.rows ≡ self.old.rows }
        ensures room { OnOk result (map.len self.old.rows + additional ≤ self.new.capacity) }
        ensures refused { OnErr result (self.new.capacity ≡ self.old.capacity) }
        ensures capacity { self.old.capacity ≤ self.new.capacity }
        ensures succeeds { map.len self.old.rows + additional ≤ self.old.capacity → IsOk result }
        ensures had_room { map.len self.old.rows + additional ≤ self.old.capacity
            → self.new.capacity ≡ self.old.capacity }

        // A growth that happens at least doubles, so that n rows that are put in cost n moves.
        ensures doubles { self.old.capacity < self.new.capacity
            → self.old.capacity * 2 ≤ self.new.capacity }
    {
        let room = self.capacity() - self.len;
        if additional <= room {
            return Ok(());
        }
        let Some(wanted) = self.len.checked_add(additional) else {
            return Err(AllocError);
        };
        self.grow_to(wanted)
    }

    /// Takes groups for this many rows, and for at least twice the rows that had room, and puts
    /// each row into them.
    #[inline(never)]
    fn grow_to(&mut self, capacity: usize) -> Result<(), AllocError>
        requires { self.old.capacity < capacity }
        ensures { Grows capacity self.old self.new result }
    {
        // The capacity tells the proof that all rows fit.
        let Some(doubled) = self.capacity().checked_mul(2) else {
            return Err(AllocError);
        };
        let wanted = capacity.max(doubled);
        let mut grown = KeyTable::with_groups_for(*self.tags.allocator(), wanted)?;
        insert_all(
            &mut grown.tags,
            &mut grown.rows,
            self.tags.as_slice(),
            self.rows.as_slice(),
        );
        grown.len = self.len;
        *self = grown;
        Ok(())
    }

    /// An empty table whose groups hold `capacity` rows.
    #[inline(never)]
    fn with_groups_for(alloc: A, capacity: usize) -> Result<KeyTable<A>, AllocError>
        requires { 0 < capacity }
        ensures { IfOk result (IsEmptyFor capacity) }
    {
        if GROUP_LOAD * MAX_GROUPS < capacity {
            return Err(AllocError);
        }
        let lanes = LANES * groups_for(capacity);
        let no_row = Row { hash: 0, place: 0 };
        // The rows take sixteen times as much as the tags. Where they are refused, nothing was written.
        let rows = Vec::from_elem(alloc, no_row, lanes)?;
        let tags = Vec::from_elem(alloc, 0, lanes)?;
        Ok(KeyTable { tags, rows, len: 0 })
    }
}

impl<A: Allocator> fmt::Debug for KeyTable<A> {
    fn fmt<W: fmt::Write>(&self, f: &mut fmt::Formatter<W>) -> fmt::Result {
        let mut rows = f.debug_list();
        for lane in 0..self.tags.len() {
            if self.tags[lane] != 0 {
                let row = self.rows[lane];
                rows.entry(&(row.hash, row.place));
            }
        }
        rows.finish()
    }
}
