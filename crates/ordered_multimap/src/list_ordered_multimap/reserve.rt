//! Reserving capacity.
ghost use Rattle.std.specs.Prelude.{◌≡◌, ◌≤◌, ◌<◌, ◌+◌, OnErr, OnOk, IsOk, length};
ghost use Rattle.ordered_multimap.specs.Rooms.{OnlyGrows, SameRooms};
ghost use Rattle.ordered_multimap.specs.TapeNumbers.{TakesOut};

use super::ListOrderedMultimap;
use super::room::make_key_room;
use std::alloc::{AllocError, Allocator};
use std::hash::{BuildHasher, Hash};

impl<K: Eq + Hash, V, S: BuildHasher, A: Allocator + Copy> ListOrderedMultimap<K, V, S, A> {
    /// Reserves capacity for at least `additional` more keys.
    ///
    /// After a success `keys_capacity()` is at least `keys_len() + additional`. The map may reserve
    /// more, to avoid frequent allocations. It does nothing if the capacity is already sufficient.
    /// Values have a capacity of their own: see [`reserve_values`](Self::reserve_values). To make
    /// room in a new map see [`with_capacity`](Self::with_capacity), and to lower capacities
    /// [`pack_to`](Self::pack_to).
    ///
    /// # Errors
    ///
    /// Returns [`AllocError`] if an allocation fails, or if the number of keys overflows `usize`.
    /// Both lists are unchanged. It never fails if the capacity is already sufficient.
    ///
    /// # Complexity
    ///
    /// *O*(1) if the capacity is sufficient. Otherwise *O*(new capacity): a growth moves the slots
    /// of the keys and the rows of the hash table, and at least doubles the capacity.
    ///
    /// # Examples
    ///
    /// ```
    /// use ordered_multimap::ListOrderedMultimap;
    ///
    /// let mut map = ListOrderedMultimap::new(rt.alloc());
    /// map.append("line", 1)?;
    /// map.reserve_keys(10)?;
    /// assert!(rt; map.keys_capacity() >= 11);
    /// ```
    pub fn reserve_keys(&mut self, additional: usize) -> Result<(), AllocError>
        ensures room { OnOk result
            (length self.old.lists.keys + additional ≤ self.new.key_room) }
        ensures grows { OnlyGrows self.old self.new }
        ensures values { self.new.value_room ≡ self.old.value_room }
        ensures tape { self.new.tape ≡ self.old.tape }

        // Where there is room already, nothing grows and nothing is refused.
        ensures succeeds { length self.old.lists.keys + additional ≤ self.old.key_room
            → IsOk result }
        ensures had_room { length self.old.lists.keys + additional ≤ self.old.key_room
            → SameRooms self.old self.new }
        ensures full { OnErr result
            (self.new.key_room < length self.old.lists.keys + additional) }
    {
        make_key_room(&mut self.keys, &mut self.table, additional)
    }

    /// Reserves capacity for at least `additional` more values.
    ///
    /// After a success `values_capacity()` is at least `values_len() + additional`. The map may
    /// reserve more, to avoid frequent allocations. It does nothing if the capacity is already
    /// sufficient. There are two slots for each value of the capacity. Keys have a capacity of
    /// their own: see [`reserve_keys`](Self::reserve_keys). To make room in a new map see
    /// [`with_capacity`](Self::with_capacity), and to lower capacities [`pack_to`](Self::pack_to).
    ///
    /// # Errors
    ///
    /// Returns [`AllocError`] if an allocation fails, or if the number of slots overflows `usize`.
    /// Both lists are unchanged. It never fails if the capacity is already sufficient.
    ///
    /// # Complexity
    ///
    /// *O*(1) if the capacity is sufficient. Otherwise *O*(slots in use): a growth moves the slots
    /// of the values, and at least doubles the capacity.
    ///
    /// # Examples
    ///
    /// ```
    /// use ordered_multimap::ListOrderedMultimap;
    ///
    /// let mut map = ListOrderedMultimap::new(rt.alloc());
    /// map.append("line", 1)?;
    /// map.reserve_values(10)?;
    /// assert!(rt; map.values_capacity() >= 11);
    /// ```
    pub fn reserve_values(&mut self, additional: usize) -> Result<(), AllocError>
        ensures room { OnOk result
            (length self.old.lists.pairs + additional ≤ self.new.value_room) }
        ensures grows { OnlyGrows self.old self.new }
        ensures keys { self.new.key_room ≡ self.old.key_room }
        ensures taken { TakesOut 0 self.old.tape self.new.tape }
        ensures slots { self.new.slots.keys ≡ self.old.slots.keys }

        // Where there is room already, nothing grows and nothing is refused.
        ensures succeeds { length self.old.lists.pairs + additional ≤ self.old.value_room
            → IsOk result }
        ensures had_room { length self.old.lists.pairs + additional ≤ self.old.value_room
            → SameRooms self.old self.new }
        ensures full { OnErr result
            (self.new.value_room < length self.old.lists.pairs + additional) }
    {
        self.values.reserve(additional)
    }
}
