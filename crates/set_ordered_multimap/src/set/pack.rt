//! Packing: the set goes to new memory, with the room that is asked for.
ghost use Rattle.std.specs.Prelude.{◌≤◌, length};
ghost use Rattle.ordered_multimap.specs.Rooms.{Packs};
ghost use Rattle.set_ordered_multimap.specs.Set.{IsSet};

use super::SetOrderedMultimap;
use std::alloc::{AllocError, Allocator};
use std::hash::{BuildHasher, Hash};

impl<K: Eq + Hash, V: Eq, S: BuildHasher, A: Allocator + Copy> SetOrderedMultimap<K, V, S, A> {
    /// Moves the set to new memory with room for at least the given numbers of keys and pairs.
    ///
    /// Both lists stay the same, and the old memory is freed. Unlike std's `shrink_to` it can both
    /// lower and raise capacities. It also closes the holes that removals left among the slots, and
    /// drops what a leaked iterator of [`remove_all`](Self::remove_all) left. For just the room
    /// that the set needs see [`pack_to_fit`](Self::pack_to_fit), and to raise capacities only
    /// [`reserve_keys`](Self::reserve_keys) and [`reserve_values`](Self::reserve_values).
    ///
    /// # Errors
    ///
    /// Returns [`AllocError`] if an allocation fails, or if the number of slots overflows `usize`.
    /// The set is unchanged then, since all new memory is allocated before anything is moved.
    ///
    /// # Complexity
    ///
    /// *O*(slots in use + capacity of the new hash table). No key is hashed or compared. During the
    /// call it allocates a number for each slot of a key that is in use.
    ///
    /// # Requires
    ///
    /// The set has at most `keys_minimum_capacity` keys and at most `values_minimum_capacity`
    /// pairs.
    ///
    /// # Examples
    ///
    /// ```
    /// use set_ordered_multimap::SetOrderedMultimap;
    ///
    /// let mut set = SetOrderedMultimap::with_capacity(rt.alloc(), 100, 100)?;
    /// set.insert("plan", "draft")?;
    /// set.insert("note", "draft")?;
    /// set.pack_to(5, 5)?;
    /// assert!(rt; set.keys_capacity() >= 5);
    /// assert!(rt; set.values_capacity() >= 5);
    /// assert!(rt; set.iter().eq([(&"plan", &"draft"), (&"note", &"draft")]));
    /// ```
    pub fn pack_to(
        &mut self,
        keys_minimum_capacity: usize,
        values_minimum_capacity: usize,
    ) -> Result<(), AllocError>
    where
        K: Drop,
        V: Drop,
        requires keys { length self.old.lists.keys ≤ keys_minimum_capacity }
        requires values { length self.old.lists.pairs ≤ values_minimum_capacity }
        ensures packs { Packs keys_minimum_capacity values_minimum_capacity
            self.old self.new result }
        ensures set { IsSet K.eq V.eq self.old.lists → IsSet K.eq V.eq self.new.lists }
    {
        self.map
            .pack_to(keys_minimum_capacity, values_minimum_capacity)
    }

    /// Moves the set to new memory with room for at least its own keys and pairs.
    ///
    /// It does what [`pack_to`](Self::pack_to) does for the numbers of keys and pairs that the set
    /// has. So it gives back memory that removals left unused, as std's `shrink_to_fit` does.
    ///
    /// # Errors
    ///
    /// Returns [`AllocError`] if an allocation fails, or if the number of slots overflows `usize`.
    /// The set is unchanged then.
    ///
    /// # Complexity
    ///
    /// Same as [`pack_to`](Self::pack_to).
    ///
    /// # Examples
    ///
    /// ```
    /// use set_ordered_multimap::SetOrderedMultimap;
    ///
    /// let mut set = SetOrderedMultimap::with_capacity(rt.alloc(), 100, 100)?;
    /// set.insert("plan", "draft")?;
    /// set.insert("note", "draft")?;
    /// set.pack_to_fit()?;
    /// assert!(rt; set.values_capacity() >= 2);
    /// assert!(rt; set.iter().eq([(&"plan", &"draft"), (&"note", &"draft")]));
    /// ```
    pub fn pack_to_fit(&mut self) -> Result<(), AllocError>
    where
        K: Drop,
        V: Drop,
        ensures packs { Packs (length self.old.lists.keys) (length self.old.lists.pairs)
            self.old self.new result }
        ensures set { IsSet K.eq V.eq self.old.lists → IsSet K.eq V.eq self.new.lists }
    {
        self.map.pack_to_fit()
    }
}
