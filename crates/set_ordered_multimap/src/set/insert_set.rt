//! Inserting all pairs of another set in the place of those of its keys.
ghost use Rattle.std.specs.Prelude.{IsOk, OnErr, OnOk};
ghost use Rattle.ordered_multimap.specs.AppendMap.{HasRoomForMap, RefusesMap};
ghost use Rattle.ordered_multimap.specs.Rooms.{SameRooms};
ghost use Rattle.ordered_multimap.specs.TapeNumbers.{ArePaid};
ghost use Rattle.set_ordered_multimap.specs.AppendSet.{InsertsSet};
ghost use Rattle.set_ordered_multimap.specs.Set.{IsSet};

use super::SetOrderedMultimap;
use std::alloc::{AllocError, Allocator};
use std::hash::{BuildHasher, Hash};

impl<K: Eq + Hash + Drop, V: Eq + Drop, S: BuildHasher, A: Allocator + Copy> SetOrderedMultimap<
    K,
    V,
    S,
    A,
> {
    /// Removes all pairs of the keys that the other set has, moves the other set's pairs to the end
    /// of this one, in their order, and leaves the other one empty.
    ///
    /// Afterwards each key of the other set has the values that it had there, and every other key
    /// those that it has here. A present key keeps its stored form and its place among the keys,
    /// and the other set's key and the old values are dropped. New keys go last, in the order of
    /// their first pairs, which can differ from that of the other set's [`keys`](Self::keys).
    /// Nothing is cloned, and the keys are hashed anew, by the builder of this set. The other set
    /// keeps its capacities, as after [`clear`](Self::clear). To keep the old pairs see
    /// [`append_set`](Self::append_set).
    ///
    /// # Errors
    ///
    /// Returns [`AllocError`] if an allocation fails. Both lists of both sets are unchanged;
    /// capacities of this set may have grown. It never fails if there is room for as many more keys
    /// and values as the other set has, whether or not they replace pairs of this set.
    ///
    /// # Complexity
    ///
    /// *O*(slots in use + capacity of the hash table) of the other set, expected, and *O*(1) for
    /// each old value: no value is compared. Room for all of its keys and values is made first,
    /// also for those that replace others: a capacity that grows at least doubles, and the slots of
    /// this set are moved. No other memory is asked for.
    ///
    /// # Examples
    ///
    /// ```
    /// use set_ordered_multimap::SetOrderedMultimap;
    ///
    /// let mut set = SetOrderedMultimap::new(rt.alloc());
    /// set.insert("plan", "draft")?;
    /// set.insert("note", "short")?;
    /// let mut other = SetOrderedMultimap::new(rt.alloc());
    /// other.insert("plan", "final")?;
    /// other.insert("plan", "signed")?;
    ///
    /// set.insert_set(&mut other)?;
    /// assert!(rt; set.get_all("plan").eq(&["final", "signed"]));
    /// assert!(rt; set.values().eq(&["short", "final", "signed"]));
    /// assert!(rt; set.keys().eq(&["plan", "note"]));
    /// assert!(rt; other.is_empty());
    /// ```
    pub fn insert_set<T: BuildHasher>(
        &mut self,
        other: &mut SetOrderedMultimap<K, V, T, A>,
    ) -> Result<(), AllocError>
        ensures ok { OnOk result (InsertsSet K.eq V.eq self.old self.new other.old other.new) }
        ensures refused { OnErr result (RefusesMap self.old self.new other.old other.new) }
        ensures set { IsSet K.eq V.eq self.old.lists → IsSet K.eq V.eq other.old.lists
            → IsSet K.eq V.eq self.new.lists }

        // Where there is room already, nothing grows and nothing is refused.
        ensures succeeds { HasRoomForMap self.old other.old → IsOk result }
        ensures had_room { HasRoomForMap self.old other.old → SameRooms self.old self.new }
        ensures paid { ArePaid self.new.tape }
    {
        self.map.insert_map(&mut other.map)
    }
}
