//! Inserting all pairs of another map in the place of those of its keys.
ghost use Rattle.std.specs.Prelude.{OnOk, OnErr, IsOk};
ghost use Rattle.ordered_multimap.specs.AppendMap.{HasRoomForMap, InsertsMap, RefusesMap};
ghost use Rattle.ordered_multimap.specs.Rooms.{SameRooms};
ghost use Rattle.ordered_multimap.specs.TapeNumbers.{ArePaid};

use super::ListOrderedMultimap;
use std::alloc::{AllocError, Allocator};
use std::hash::{BuildHasher, Hash};

impl<K: Eq + Hash + Drop, V: Drop, S: BuildHasher, A: Allocator + Copy> ListOrderedMultimap<
    K,
    V,
    S,
    A,
> {
    /// Removes all pairs of the keys that the other map has, moves the other map's pairs to the end
    /// of this one, in their order, and leaves the other one empty.
    ///
    /// This lays overrides over defaults: afterwards each key of the other map has the values that
    /// it had there, and every other key those that it has here. The first pair of each key goes in
    /// as by [`insert`](Self::insert), the later ones as by [`append`](Self::append): a present key
    /// keeps its stored form and its place among the keys, and the other map's key and the old
    /// values are dropped. New keys go last, in the order of their first pairs, which can differ
    /// from that of the other map's [`keys`](Self::keys). Nothing is cloned, and the keys are
    /// hashed anew, by the builder of this map. The other map keeps its capacities, as after
    /// [`clear`](Self::clear). To keep the old pairs see [`append_map`](Self::append_map).
    ///
    /// To insert the pairs of an iterator collect them in a map first, by
    /// [`from_iter`](Self::from_iter).
    ///
    /// # Errors
    ///
    /// Returns [`AllocError`] if an allocation fails. Both lists of both maps are unchanged;
    /// capacities of this map may have grown. It never fails if there is room for as many more keys
    /// and values as the other map has, whether or not they replace pairs of this map.
    ///
    /// # Complexity
    ///
    /// *O*(slots in use + capacity of the hash table) of the other map, expected, and *O*(1) for
    /// each old value. Each key of the other map is hashed once. Room for all of its keys and
    /// values is reserved first, also for those that replace others, as by
    /// [`reserve_keys`](Self::reserve_keys) and [`reserve_values`](Self::reserve_values), and no
    /// other memory is asked for. In this map values may be moved into the slots that removals
    /// left, as by [`append`](Self::append).
    ///
    /// # Examples
    ///
    /// ```
    /// use ordered_multimap::ListOrderedMultimap;
    ///
    /// let mut settings = ListOrderedMultimap::new(rt.alloc());
    /// settings.append("path", "/etc")?;
    /// settings.append("path", "/usr/etc")?;
    /// settings.append("color", "never")?;
    /// let mut overrides = ListOrderedMultimap::new(rt.alloc());
    /// overrides.append("level", "3")?;
    /// overrides.append("path", "/opt/etc")?;
    ///
    /// settings.insert_map(&mut overrides)?;
    /// assert!(rt; settings.get_all("path").eq(&["/opt/etc"]));
    /// assert!(rt; settings.values().eq(&["never", "3", "/opt/etc"]));
    /// assert!(rt; settings.keys().eq(&["path", "color", "level"]));
    /// assert!(rt; overrides.is_empty());
    /// ```
    pub fn insert_map<T: BuildHasher>(
        &mut self,
        other: &mut ListOrderedMultimap<K, V, T, A>,
    ) -> Result<(), AllocError>
        ensures ok { OnOk result (InsertsMap K.eq self.old self.new other.old other.new) }
        ensures refused { OnErr result (RefusesMap self.old self.new other.old other.new) }

        // Where there is room already, nothing grows and nothing is refused.
        ensures succeeds { HasRoomForMap self.old other.old → IsOk result }
        ensures had_room { HasRoomForMap self.old other.old → SameRooms self.old self.new }
        ensures paid { ArePaid self.new.tape }
    {
        self.move_all(other, true)
    }
}
