//! Removing one value of a key: the one at an index, or the first that is equal to a given one.
ghost use Rattle.std.specs.Prelude.{◌≡◌, ◌+◌, IfNone, cond, find, is_some, slice_get, Some};
ghost use Rattle.multimap_slots.specs.Lists.{IsIn};
ghost use Rattle.ordered_multimap.specs.Agrees.{HasKey};
ghost use Rattle.ordered_multimap.specs.OneValue.{first_removed, index_of, index_removed};
ghost use Rattle.ordered_multimap.specs.Pairs.{values_of, values_where};
ghost use Rattle.ordered_multimap.specs.Private.Remove.{HasEntry, KeepsRoom};
ghost use Rattle.ordered_multimap.specs.Private.RemoveAt.{TakesPairAt};
ghost use Rattle.ordered_multimap.specs.Rooms.{SameRooms};
ghost use Rattle.ordered_multimap.specs.TapeNumbers.{TakesOut, numbers_of};

use crate::KeyQuery;
use crate::list_ordered_multimap::ListOrderedMultimap;
use crate::list_ordered_multimap::remove::at::place_at;
use crate::list_ordered_multimap::remove::one::take_pair;
use multimap_slots::{SlotList, Tape};
use multimap_table::KeyTable;
use multimap_walks::{EntryValues, KeyLink, PackedLink, ValueLink};
use std::alloc::Allocator;
use std::hash::{BuildHasher, Hash};

/// How many values a walk gives before the first one that is equal to `value`; all, where none is.
fn index_of<K, V: PartialEq, A: Allocator>(values: EntryValues<'_, K, V, A>, value: &V) -> usize
    ensures { result ≡ index_of (V.eq value.now) values.entry.left }
{
    let len = values.len();
    let mut index = 0;
    for stored in values {
        if value == stored {
            return index;
        }
        index += 1;
    }
    len
}

/// Takes the pair of the value at an index in the chain of the key at the place out, and the key
/// with its only value.
fn take_indexed<K: Drop, V, A: Allocator>(
    keys: &mut SlotList<K, KeyLink, A>,
    table: &mut KeyTable<A>,
    values: &mut Tape<V, ValueLink, A, PackedLink>,
    place: usize,
    index: usize,
) -> Option<V>
    requires { HasEntry keys.old table.old.rows values.old.list place }
    ensures taken { TakesPairAt keys.old keys.new table.old table.new values.old values.new
        place index result }
    ensures counts { TakesOut (cond (is_some result) 1 0)
        (numbers_of values.old) (numbers_of values.new) }
    ensures room { KeepsRoom keys.old keys.new table.old table.new values.old values.new }
    ensures unchanged_keys { IfNone result (keys.new ≡ keys.old) }
    ensures unchanged_rows { IfNone result (table.new ≡ table.old) }
    ensures unchanged_values { IfNone result (values.new ≡ values.old) }
{
    let link = keys.listed_link(place);
    if link.length <= index {
        return None;
    }
    let found = place_at(keys, values, place, index);
    Some(take_pair(keys, table, values, found, link).value)
}

impl<K: Eq + Hash, V, S: BuildHasher, A: Allocator> ListOrderedMultimap<K, V, S, A> {
    /// Removes the value at an index among the values of the key, and returns it.
    ///
    /// The values are counted from 0, in the order of the pairs. Returns `None`, and changes
    /// nothing, if the key is absent or the index is out of bounds. The key is removed with its
    /// last value. The other keys and pairs keep their order. The key may be a query
    /// ([`KeyQuery`]).
    ///
    /// To keep a key with its only value see
    /// [`OccupiedEntry::remove_at`](crate::OccupiedEntry::remove_at), and to remove an equal value
    /// [`remove_value`](Self::remove_value).
    ///
    /// No memory is freed: later additions reuse the slots.
    ///
    /// # Complexity
    ///
    /// *O*(*v*) expected for the *v* values of the key: it follows them from the nearer end, over
    /// half of them at most.
    ///
    /// # Examples
    ///
    /// ```
    /// use ordered_multimap::ListOrderedMultimap;
    ///
    /// let mut map = ListOrderedMultimap::new(rt.alloc());
    /// map.append("line", 1)?;
    /// map.append("page", 8)?;
    /// map.append("line", 2)?;
    /// assert_eq!(rt; map.remove_index("line", 2), None);
    /// assert_eq!(rt; map.remove_index("line", 0), Some(1));
    /// assert!(rt; map.iter().eq([(&"page", &8), (&"line", &2)]));
    /// assert_eq!(rt; map.remove_index("line", 0), Some(2));
    /// assert!(rt; !map.contains_key("line"));
    /// ```
    pub fn remove_index<Q: KeyQuery<K>>(&mut self, key: Q, index: usize) -> Option<V>
    where
        K: Drop,
        ensures value { result
            ≡ slice_get (values_where (Q.equivalent key) self.old.lists.pairs) index }
        ensures lists { self.new.lists
            ≡ index_removed K.eq (Q.equivalent key) self.old.lists index }
        ensures rooms { SameRooms self.old self.new }
        ensures taken { TakesOut (cond (is_some result) 1 0) self.old.tape self.new.tape }
        ensures unchanged { IfNone result (self.new ≡ self.old) }
    {
        match self.look_up(key).1 {
            Some(place) => self.take_index_at(place, index),
            None => None,
        }
    }

    /// Removes the first value of the key that is equal to `value`, and returns the stored one.
    ///
    /// Returns `None`, and changes nothing, if the key has no equal value. The key is removed with
    /// its last value. The other keys and pairs keep their order. The key may be a query
    /// ([`KeyQuery`]).
    ///
    /// To remove all equal values, or others by a condition, see [`retain_all`](Self::retain_all),
    /// and to remove the value at an index [`remove_index`](Self::remove_index).
    ///
    /// No memory is freed: later additions reuse the slots.
    ///
    /// # Complexity
    ///
    /// *O*(*v*) expected for the *v* values of the key: it compares them in order, up to the equal
    /// one.
    ///
    /// # Examples
    ///
    /// ```
    /// use ordered_multimap::ListOrderedMultimap;
    ///
    /// let mut map = ListOrderedMultimap::new(rt.alloc());
    /// map.append("line", 1)?;
    /// map.append("line", 2)?;
    /// map.append("line", 1)?;
    /// assert_eq!(rt; map.remove_value("line", &1), Some(1));
    /// assert!(rt; map.get_all("line").eq(&[2, 1]));
    /// assert_eq!(rt; map.remove_value("line", &3), None);
    /// ```
    pub fn remove_value<Q: KeyQuery<K>>(&mut self, key: Q, value: &V) -> Option<V>
    where
        K: Drop,
        V: Eq,
        ensures value { result
            ≡ find (V.eq value.now) (values_where (Q.equivalent key) self.old.lists.pairs) }
        ensures lists { self.new.lists
            ≡ first_removed K.eq (Q.equivalent key) (V.eq value.now) self.old.lists }
        ensures rooms { SameRooms self.old self.new }
        ensures taken { TakesOut (cond (is_some result) 1 0) self.old.tape self.new.tape }
        ensures unchanged { IfNone result (self.new ≡ self.old) }
    {
        match self.look_up(key).1 {
            Some(place) => {
                let index = index_of(self.values_at(place), value);
                self.take_index_at(place, index)
            }
            None => None,
        }
    }

    /// Takes the value at an index among the values of the key at the place out, and the key with
    /// its only value.
    fn take_index_at(&mut self, place: usize, index: usize) -> Option<V>
    where
        K: Drop,
        requires { IsIn place self.old.slots.keys.order }
        ensures value { (k : K) → HasKey K.eq self.old.slots.keys k place
            → result ≡ slice_get (values_of K.eq self.old.lists.pairs k) index }
        ensures lists { (k : K) → HasKey K.eq self.old.slots.keys k place
            → self.new.lists ≡ index_removed K.eq (K.eq k) self.old.lists index }
        ensures rooms { SameRooms self.old self.new }
        ensures taken { TakesOut (cond (is_some result) 1 0) self.old.tape self.new.tape }
        ensures unchanged { IfNone result (self.new ≡ self.old) }
    {
        take_indexed(
            &mut self.keys,
            &mut self.table,
            &mut self.values,
            place,
            index,
        )
    }
}
