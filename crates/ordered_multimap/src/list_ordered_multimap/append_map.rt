//! Moving all pairs of another map to the end of this one.
ghost use Rattle.std.specs.Prelude.{◌≡◌, ◌≤◌, ◌+◌, ℕ, true, false, length, OnOk, OnErr, IsOk};
ghost use Rattle.multimap_slots.specs.Lists.{IsIn};
ghost use Rattle.multimap_walks.specs.Chained.{pairs_of};
ghost use Rattle.ordered_multimap.specs.Agrees.{HasKey};
ghost use Rattle.ordered_multimap.specs.AppendMap.{AppendsMap, HasRoomForMap, RefusesMap};
ghost use Rattle.ordered_multimap.specs.Private.AppendMap.{AgreeBySome, CanPutTaken, IsUsedUp, MovesMap, PutsInRoom, PutsTaken};
ghost use Rattle.ordered_multimap.specs.Private.AppendMap.{all_put, count_for_all};
ghost use Rattle.ordered_multimap.specs.Rooms.{HasPairRoom, HasValueRoom, SameRooms};
ghost use Rattle.ordered_multimap.specs.TapeNumbers.{ArePaid, TakesOut};

use super::ListOrderedMultimap;
use super::links::set_key;
use multimap_slots::{SlotList, Tape};
use multimap_walks::{KeyLink, PackedLink, ValueLink};
use std::alloc::{AllocError, Allocator};
use std::hash::{BuildHasher, Hash};

impl<K: Eq + Hash + Drop, V: Drop, S: BuildHasher, A: Allocator + Copy> ListOrderedMultimap<
    K,
    V,
    S,
    A,
> {
    /// Moves all pairs of the other map to the end of this one, in their order, and leaves the other
    /// one empty.
    ///
    /// Each pair is added as by [`append`](Self::append): a present key keeps its stored form and
    /// its place among the keys, and the other map's key is dropped. New keys go last, in the order
    /// of their first pairs, which can differ from that of the other map's [`keys`](Self::keys).
    /// Nothing is cloned, and the keys are hashed anew, by the builder of this map. The other map
    /// keeps its capacities, as after [`clear`](Self::clear). To remove the pairs that this map has
    /// of the other's keys see [`insert_map`](Self::insert_map), to append copies of its pairs
    /// [`extend_copied`](Self::extend_copied).
    ///
    /// # Errors
    ///
    /// Returns [`AllocError`] if an allocation fails. Both lists of both maps are unchanged;
    /// capacities of this map may have grown. It never fails if there is room for as many more keys
    /// and values as the other map has.
    ///
    /// # Complexity
    ///
    /// *O*(slots in use + capacity of the hash table) of the other map, expected. Each of its keys
    /// is hashed once. Room for all is reserved first, as by [`reserve_keys`](Self::reserve_keys)
    /// and [`reserve_values`](Self::reserve_values), and no other memory is asked for. In this map
    /// values may be moved into the slots that removals left, as by [`append`](Self::append).
    ///
    /// # Examples
    ///
    /// ```
    /// use ordered_multimap::ListOrderedMultimap;
    ///
    /// let mut map = ListOrderedMultimap::new(rt.alloc());
    /// map.append("line", 1)?;
    /// let mut other = ListOrderedMultimap::new(rt.alloc());
    /// other.append("page", 8)?;
    /// other.append("line", 2)?;
    ///
    /// map.append_map(&mut other)?;
    /// assert!(rt; map.iter().eq([(&"line", &1), (&"page", &8), (&"line", &2)]));
    /// assert!(rt; map.keys().eq(&["line", "page"]));
    /// assert!(rt; other.is_empty());
    /// ```
    pub fn append_map<T: BuildHasher>(
        &mut self,
        other: &mut ListOrderedMultimap<K, V, T, A>,
    ) -> Result<(), AllocError>
        ensures ok { OnOk result (AppendsMap K.eq self.old self.new other.old other.new) }
        ensures refused { OnErr result (RefusesMap self.old self.new other.old other.new) }

        // Where there is room already, nothing grows and nothing is refused.
        ensures succeeds { HasRoomForMap self.old other.old → IsOk result }
        ensures had_room { HasRoomForMap self.old other.old → SameRooms self.old self.new }
        ensures paid { ArePaid self.new.tape }
    {
        self.move_all(other, false)
    }

    /// Moves all pairs of the other map to the end of this one, behind those of their keys or in the
    /// place of these.
    pub(super) fn move_all<T: BuildHasher>(
        &mut self,
        other: &mut ListOrderedMultimap<K, V, T, A>,
        replaces: bool,
    ) -> Result<(), AllocError>
        ensures ok { OnOk result (MovesMap K.eq replaces self.old self.new other.old other.new) }
        ensures refused { OnErr result (RefusesMap self.old self.new other.old other.new) }
        ensures succeeds { HasRoomForMap self.old other.old → IsOk result }
        ensures had_room { HasRoomForMap self.old other.old → SameRooms self.old self.new }
        ensures paid { ArePaid self.new.tape }
    {
        // The field tells the proof that the moves are paid for.
        let _state = &self.state;
        self.reserve_keys(other.keys_len())?;
        self.reserve_values(other.values_len())?;
        self.move_parts(&mut other.keys, &mut other.values, replaces);
        other.keys.clear_listed();
        other.table.clear();
        other.values.clear();
        Ok(())
    }

    /// Puts each value of another map last, under its key, for which there is room.
    fn move_parts(
        &mut self,
        keys: &mut SlotList<K, KeyLink, A>,
        values: &mut Tape<V, ValueLink, A, PackedLink>,
        replaces: bool,
    )
        requires agrees { AgreeBySome K.eq keys.old values.old.list }
        requires key_room { length self.old.lists.keys + length keys.old.order
            ≤ self.old.key_room }
        requires value_room { length self.old.lists.pairs + length values.old.list.order
            ≤ self.old.value_room }
        ensures lists { self.new.lists ≡ all_put K.eq replaces self.old.lists
            (pairs_of keys.old values.old.list) }
        ensures rooms { SameRooms self.old self.new }
        ensures taken { TakesOut (count_for_all K.eq replaces self.old.lists
            (pairs_of keys.old values.old.list)) self.old.tape self.new.tape }
        ensures used_up { IsUsedUp keys.old keys.new values.old values.new }
    {
        while let Some(place) = values.front_place() {
            let (value, link) = values.take_listed(place);
            let key = self.move_taken(keys, value, link, replaces);
            // The next value of the key names the key's place in this map from now on.
            set_key(values, link.next, key);
        }
    }

    /// Puts a value that had this link last, and returns the place of its key. A first value takes
    /// its key out of `keys`, and the link of a later one names the key's place in this map.
    fn move_taken(
        &mut self,
        keys: &mut SlotList<K, KeyLink, A>,
        value: V,
        link: ValueLink,
        replaces: bool,
    ) -> usize
        requires { CanPutTaken self.old keys.old link }
        ensures { PutsTaken K.eq replaces value link self.old self.new keys.old keys.new result }
    {
        if link.previous.is_some() {
            self.append_at_reserved(link.key, value);
            return link.key;
        }
        let (key, _) = keys.take_listed(link.key);
        self.put_reserved(key, value, replaces)
    }

    /// Puts a pair for which there is room last, and returns the place of its key.
    fn put_reserved(&mut self, key: K, value: V, replaces: bool) -> usize
        requires { HasPairRoom K.eq self.old key }
        ensures found { HasKey K.eq self.new.slots.keys key result }
        ensures put { PutsInRoom K.eq replaces key value self.old self.new }
    {
        let (hash, place) = self.look_up(&key);
        let Some(place) = place else {
            return match self.append_new(hash, key, value) {
                Ok(place) => place,
                Err(_) => unreachable!(),
            };
        };
        self.put_at_reserved(place, value, replaces);
        place
    }

    /// Puts a value of the key at the place last, for which there is room.
    fn put_at_reserved(&mut self, place: usize, value: V, replaces: bool)
        requires listed { IsIn place self.old.slots.keys.order }
        requires room { HasValueRoom self.old }
        ensures put { (k : K) → HasKey K.eq self.old.slots.keys k place
            → PutsInRoom K.eq replaces k value self.old self.new }
    {
        if replaces {
            self.insert_at_reserved(place, value);
        } else {
            self.append_at_reserved(place, value);
        }
    }

    /// Puts a value of the key at the place last, and drops the others.
    fn insert_at_reserved(&mut self, place: usize, value: V)
        requires { IsIn place self.old.slots.keys.order }
        ensures put { (k : K) → HasKey K.eq self.old.slots.keys k place
            → PutsInRoom K.eq true k value self.old self.new }
    {
        self.insert_at(place, value);
    }

    /// Appends a value of the key at the place, for which there is room.
    #[inline(always)]
    fn append_at_reserved(&mut self, place: usize, value: V)
        requires listed { IsIn place self.old.slots.keys.order }
        requires room { HasValueRoom self.old }
        ensures keys { self.new.lists.keys ≡ self.old.lists.keys }
        ensures put { (k : K) → HasKey K.eq self.old.slots.keys k place
            → PutsInRoom K.eq false k value self.old self.new }
    {
        match self.append_at(place, value) {
            Ok(()) => {}
            Err(_) => unreachable!(),
        }
    }
}
