//! Appending the pairs of another set.
ghost use Rattle.std.specs.Prelude.{◌≡◌, ◌-◌, ◌≤◌, IsOk, OnErr, OnOk, length, not};
ghost use Rattle.ordered_multimap.specs.AppendMap.{HasRoomForMap, RefusesMap};
ghost use Rattle.ordered_multimap.specs.Changes.{kept};
ghost use Rattle.ordered_multimap.specs.Rooms.{SameRooms};
ghost use Rattle.ordered_multimap.specs.TapeNumbers.{ArePaid, TakesOut};
ghost use Rattle.set_ordered_multimap.specs.AppendSet.{AppendsLacked, lacked};
ghost use Rattle.set_ordered_multimap.specs.Set.{IsSet, all_inserted, has_pair};

use super::SetOrderedMultimap;
use ordered_multimap::ListOrderedMultimap;
use std::alloc::{AllocError, Allocator};
use std::hash::{BuildHasher, Hash};

/// Whether no pair of the map is equal to this one.
fn lacks<K: Eq + Hash, V: Eq, S: BuildHasher, A: Allocator>(
    map: &ListOrderedMultimap<K, V, S, A>,
    key: &K,
    value: &V,
) -> bool
    ensures { result ≡ not (has_pair K.eq V.eq map.now.lists.pairs key.now value.now) }
{
    !map.contains(key, value)
}

/// Drops the pairs of the other map that are equal to one of the map.
fn drop_present<K: Eq + Hash + Drop, V: Eq + Drop, S: BuildHasher, T: BuildHasher, A: Allocator>(
    map: &ListOrderedMultimap<K, V, S, A>,
    other: &mut ListOrderedMultimap<K, V, T, A>,
)
    ensures lists { other.new.lists ≡ kept K.eq other.old.lists
        (lacked K.eq V.eq map.now.lists other.old.lists.pairs) }
    ensures rooms { SameRooms other.old other.new }
    ensures taken { TakesOut (length other.old.lists.pairs - length other.new.lists.pairs)
        other.old.tape other.new.tape }
    ensures fewer { length other.new.lists.pairs ≤ length other.old.lists.pairs }
{
    other.retain(
        |key: &K, value: &mut V| -> bool
            ensures lacks { result
                ≡ not (has_pair K.eq V.eq map.entry.now.lists.pairs key.now value.old) }
            ensures same { value.new ≡ value.old }
        { lacks(map, key, value) },
    );
}

/// Appends the pairs of the other map that are equal to none of the map, for which there is room,
/// and clears the other map.
fn append_lacked<
    K: Eq + Hash + Drop,
    V: Eq + Drop,
    S: BuildHasher,
    T: BuildHasher,
    A: Allocator + Copy,
>(map: &mut ListOrderedMultimap<K, V, S, A>, other: &mut ListOrderedMultimap<K, V, T, A>)
    requires room { HasRoomForMap map.old other.old }
    ensures appends { AppendsLacked K.eq V.eq map.old map.new other.old other.new }
    ensures rooms { SameRooms map.old map.new }
    ensures paid { ArePaid map.new.tape }
{
    drop_present(map, other);
    match map.append_map(other) {
        Ok(()) => {}
        Err(_) => unreachable!(),
    }
}

impl<K: Eq + Hash + Drop, V: Eq + Drop, S: BuildHasher, A: Allocator + Copy> SetOrderedMultimap<
    K,
    V,
    S,
    A,
> {
    /// Moves the pairs of the other set that this one lacks to its end, and leaves the other one
    /// empty.
    ///
    /// The pairs are inserted in the order that they have there, each as by
    /// [`insert`](Self::insert): where an equal one is there, it is dropped. A present key keeps
    /// its stored form and its place among the keys. New keys go last, in the order of their first
    /// pairs, which can differ from that of the other set's [`keys`](Self::keys). Nothing is
    /// cloned, and the keys are hashed anew, by the builder of this set. The other set keeps its
    /// capacities, as after [`clear`](Self::clear). To insert copies of its pairs see
    /// [`extend`](Self::extend).
    ///
    /// # Errors
    ///
    /// Returns [`AllocError`] if an allocation fails. Both lists of both sets are unchanged;
    /// capacities of this set may have grown. It never fails if there is room for as many more keys
    /// and values as the other set has, whether or not this set lacks them.
    ///
    /// # Complexity
    ///
    /// *O*(slots in use + capacity of the hash table) of the other set, expected, and for each of
    /// its pairs *O*(*v*) for the *v* values that this set has of the key, with which the value is
    /// compared. Room for all pairs is made first: a capacity that grows at least doubles, and the
    /// slots of this set are moved. No other memory is asked for.
    ///
    /// # Examples
    ///
    /// ```
    /// use set_ordered_multimap::SetOrderedMultimap;
    ///
    /// let mut set = SetOrderedMultimap::new(rt.alloc());
    /// set.insert("plan", "draft")?;
    /// let mut other = SetOrderedMultimap::new(rt.alloc());
    /// other.insert("note", "draft")?;
    /// other.insert("plan", "draft")?;
    /// other.insert("plan", "long")?;
    ///
    /// set.append_set(&mut other)?;
    /// assert_eq!(rt; set.values_len(), 3);
    /// assert!(rt; set.get_all("plan").eq(&["draft", "long"]));
    /// assert!(rt; set.keys().eq(&["plan", "note"]));
    /// assert!(rt; other.is_empty());
    /// ```
    pub fn append_set<T: BuildHasher>(
        &mut self,
        other: &mut SetOrderedMultimap<K, V, T, A>,
    ) -> Result<(), AllocError>
        ensures ok { OnOk result
            (AppendsLacked K.eq V.eq self.old self.new other.old other.new) }
        ensures refused { OnErr result (RefusesMap self.old self.new other.old other.new) }

        // Where the other one is a set, each pair was inserted in turn.
        ensures inserted { OnOk result (IsSet K.eq V.eq other.old.lists → self.new.lists
            ≡ all_inserted K.eq V.eq self.old.lists other.old.lists.pairs) }
        ensures set { IsSet K.eq V.eq self.old.lists → IsSet K.eq V.eq other.old.lists
            → IsSet K.eq V.eq self.new.lists }

        // Where there is room already, nothing grows and nothing is refused.
        ensures succeeds { HasRoomForMap self.old other.old → IsOk result }
        ensures had_room { HasRoomForMap self.old other.old → SameRooms self.old self.new }
        ensures paid { OnOk result (ArePaid self.new.tape) }
    {
        self.map.reserve_keys(other.keys_len())?;
        self.map.reserve_values(other.values_len())?;
        append_lacked(&mut self.map, &mut other.map);
        Ok(())
    }
}
