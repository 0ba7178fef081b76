//! Reserving capacity.
ghost use Rattle.std.specs.Prelude.{◌≡◌, ◌≤◌, ◌<◌, ◌+◌, OnErr, OnOk, IsOk, length};
ghost use Rattle.ordered_multimap.specs.Rooms.{OnlyGrows, SameRooms};
ghost use Rattle.ordered_multimap.specs.TapeNumbers.{TakesOut};
ghost use Rattle.set_ordered_multimap.specs.Set.{IsSet};

use super::SetOrderedMultimap;
use std::alloc::{AllocError, Allocator};
use std::hash::{BuildHasher, Hash};

impl<K: Eq + Hash, V: Eq, S: BuildHasher, A: Allocator + Copy> SetOrderedMultimap<K, V, S, A> {
    /// Reserves capacity for at least `additional` more keys.
    ///
    /// After a success `keys_capacity()` is at least `keys_len() + additional`. The set may reserve
    /// more, to avoid frequent allocations. It does nothing if the capacity is already sufficient.
    /// Pairs have a capacity of their own: see [`reserve_values`](Self::reserve_values). To make
    /// room in a new set see [`with_capacity`](Self::with_capacity), and to lower capacities
    /// [`pack_to`](Self::pack_to).
    ///
    /// # Errors
    ///
    /// Returns [`AllocError`] if an allocation fails, or if the number of keys overflows `usize`.
    /// Both lists are unchanged. It never fails if the capacity is already sufficient.
    ///
    /// # Complexity
    ///
    /// *O*(1) if the capacity is sufficient. Otherwise *O*(new capacity): a growth moves the slots
    /// of the keys and the rows of the hash table, and at least doubles the capacity.
    ///
    /// # Examples
    ///
    /// ```
    /// use set_ordered_multimap::SetOrderedMultimap;
    ///
    /// let mut set = SetOrderedMultimap::new(rt.alloc());
    /// set.insert("plan", "draft")?;
    /// set.reserve_keys(10)?;
    /// assert!(rt; set.keys_capacity() >= 11);
    /// ```
    pub fn reserve_keys(&mut self, additional: usize) -> Result<(), AllocError>
        ensures room { OnOk result
            (length self.old.lists.keys + additional ≤ self.new.key_room) }
        ensures grows { OnlyGrows self.old self.new }
        ensures set { IsSet K.eq V.eq self.old.lists → IsSet K.eq V.eq self.new.lists }
        ensures values { self.new.value_room ≡ self.old.value_room }
        ensures tape { self.new.tape ≡ self.old.tape }

        // Where there is room already, nothing grows and nothing is refused.
        ensures succeeds { length self.old.lists.keys + additional ≤ self.old.key_room
            → IsOk result }
        ensures had_room { length self.old.lists.keys + additional ≤ self.old.key_room
            → SameRooms self.old self.new }
        ensures full { OnErr result
            (self.new.key_room < length self.old.lists.keys + additional) }
    {
        self.map.reserve_keys(additional)
    }

    /// Reserves capacity for at least `additional` more pairs.
    ///
    /// After a success `values_capacity()` is at least `values_len() + additional`. The set may
    /// reserve more, to avoid frequent allocations. It does nothing if the capacity is already
    /// sufficient. There are two slots for each pair of the capacity. Keys have a capacity of their
    /// own: see [`reserve_keys`](Self::reserve_keys). To make room in a new set see
    /// [`with_capacity`](Self::with_capacity), and to lower capacities [`pack_to`](Self::pack_to).
    ///
    /// # Errors
    ///
    /// Returns [`AllocError`] if an allocation fails, or if the number of slots overflows `usize`.
    /// Both lists are unchanged. It never fails if the capacity is already sufficient.
    ///
    /// # Complexity
    ///
    /// *O*(1) if the capacity is sufficient. Otherwise *O*(slots in use): a growth moves the slots
    /// of the values, and at least doubles the capacity.
    ///
    /// # Examples
    ///
    /// ```
    /// use set_ordered_multimap::SetOrderedMultimap;
    ///
    /// let mut set = SetOrderedMultimap::new(rt.alloc());
    /// set.insert("plan", "draft")?;
    /// set.reserve_values(10)?;
    /// assert!(rt; set.values_capacity() >= 11);
    /// ```
    pub fn reserve_values(&mut self, additional: usize) -> Result<(), AllocError>
        ensures room { OnOk result
            (length self.old.lists.pairs + additional ≤ self.new.value_room) }
        ensures grows { OnlyGrows self.old self.new }
        ensures set { IsSet K.eq V.eq self.old.lists → IsSet K.eq V.eq self.new.lists }
        ensures keys { self.new.key_room ≡ self.old.key_room }
        ensures taken { TakesOut 0 self.old.tape self.new.tape }

        // Where there is room already, nothing grows and nothing is refused.
        ensures succeeds { length self.old.lists.pairs + additional ≤ self.old.value_room
            → IsOk result }
        ensures had_room { length self.old.lists.pairs + additional ≤ self.old.value_room
            → SameRooms self.old self.new }
        ensures full { OnErr result
            (self.new.value_room < length self.old.lists.pairs + additional) }
    {
        self.map.reserve_values(additional)
    }
}
