//! Cloning a map.
ghost use Rattle.std.specs.Prelude.{◌≡◌, ◌≤◌, [], true, length, IfOk, IsOk};
ghost use Rattle.multimap_slots.specs.Lists.{IsIn};
ghost use Rattle.ordered_multimap.specs.Clones.{AreClones};
ghost use Rattle.ordered_multimap.specs.Pairs.{all_values};
ghost use Rattle.ordered_multimap.specs.TapeNumbers.{AreUnused};

mod in_place;
mod ranks;
mod steps;

use super::{ListOrderedMultimap, NO_CHAIN};
use std::alloc::{AllocError, Allocator};
use std::hash::{BuildHasher, Hash};
use steps::cloned_storage;

impl<
    K: Eq + Hash + Clone,
    V: Clone,
    S: BuildHasher + Clone,
    A: Allocator + Copy,
> ListOrderedMultimap<K, V, S, A> {
    /// Returns a map with a clone of each key and of each value, in the same orders.
    ///
    /// The hash builder is cloned too, and hashes the keys again. The new map has room for at least
    /// its keys and values, and no holes among its slots. This isn't the method of the trait
    /// `Clone`, since it can fail.
    ///
    /// # Errors
    ///
    /// Returns [`AllocError`] if an allocation fails: for the new map, or for the clone of the hash
    /// builder, of a key or of a value. What was cloned is dropped. It never fails if the map is
    /// empty and the clone of its hash builder can't fail.
    ///
    /// # Complexity
    ///
    /// *O*(slots in use) expected. It reads each pair once and hashes each key once. All room of
    /// the clone is allocated before a key is cloned. Nothing else is allocated if there are no
    /// holes among the values' slots and the keys fill the first slots in order, as in a map to
    /// which pairs were only appended. Otherwise, it allocates during the call a number for each
    /// slot of a key that is in use. If there are holes among the values' slots, it also allocates
    /// one for each of these slots that is in use.
    ///
    /// # Requires
    ///
    /// A clone of a key is equal to the key.
    ///
    /// # Examples
    ///
    /// ```
    /// use ordered_multimap::ListOrderedMultimap;
    ///
    /// let mut map = ListOrderedMultimap::new(rt.alloc());
    /// map.append("line", 1)?;
    /// map.append("page", 8)?;
    /// let copy = map.clone()?;
    /// map.remove("line");
    /// assert!(rt; map.iter().eq([(&"page", &8)]));
    /// assert!(rt; copy.iter().eq([(&"line", &1), (&"page", &8)]));
    /// ```
    pub fn clone(&self) -> Result<Self, AllocError>
        requires { (k c : K) → IsIn k self.now.lists.keys → K.is_clone k c → K.eq k c ≡ true }
        ensures clones { IfOk result (λ m.
            AreClones K.eq K.is_clone V.is_clone self.now.lists m.lists) }

        // Where a clone is the key or value itself, the lists are the same.
        ensures lists { ((k c : K) → IsIn k self.now.lists.keys → K.is_clone k c → c ≡ k)
            → ((v c : V) → IsIn v (all_values self.now.lists.pairs) → V.is_clone v c → c ≡ v)
            → IfOk result (λ m. m.lists ≡ self.now.lists) }

        ensures hasher { IfOk result (λ m. S.is_clone self.now.hasher m.hasher) }
        ensures key_room { IfOk result (λ m. length self.now.lists.keys ≤ m.key_room) }
        ensures value_room { IfOk result (λ m. length self.now.lists.pairs ≤ m.value_room) }
        ensures unused { IfOk result (λ m. AreUnused m.tape) }
        ensures succeeds { self.now.lists.pairs ≡ [] → S.is_infallible self.now.hasher
            → IsOk result }
    {
        let state = self.state.clone()?;
        if self.values.is_empty() {
            let alloc = *self.keys.allocator();
            return Ok(ListOrderedMultimap::with_hasher(alloc, state));
        }
        let storage = cloned_storage(&self.keys, &self.values, &state)?;
        Ok(ListOrderedMultimap {
            state,
            keys: storage.keys,
            table: storage.table,
            values: storage.values,
            left: NO_CHAIN,
        })
    }
}
