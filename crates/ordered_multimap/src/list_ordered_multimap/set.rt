//! Setting the value of a key at the place of its first pair.
ghost use Rattle.std.specs.Prelude.{◌≡◌, IfErr, IfOk, IsOk, Some, slice_get};
ghost use Rattle.multimap_slots.specs.Lists.{IsIn};
ghost use Rattle.multimap_slots.specs.Slots.{item_at, with_item};
ghost use Rattle.multimap_slots.specs.Tapes.{with_list};
ghost use Rattle.ordered_multimap.specs.Additions.{IsRefused};
ghost use Rattle.ordered_multimap.specs.Agrees.{HasKey};
ghost use Rattle.ordered_multimap.specs.Changes.{first_written};
ghost use Rattle.ordered_multimap.specs.Pairs.{values_of};
ghost use Rattle.ordered_multimap.specs.Private.KeySteps.{KeepsPlace, StaysInRoom};
ghost use Rattle.ordered_multimap.specs.Rooms.{HasInsertRoom, SameNumbers};
ghost use Rattle.ordered_multimap.specs.Sets.{SetsValue, LeavesOnly};
ghost use Rattle.ordered_multimap.specs.TapeNumbers.{ArePaid};

use super::remove::chain::drop_later;
use super::{ListOrderedMultimap, Refused};
use multimap_slots::Tape;
use multimap_walks::{PackedLink, ValueLink};
use std::alloc::Allocator;
use std::hash::{BuildHasher, Hash};
use std::mem::replace;

/// Puts another value at a listed place, and returns the one that stood there.
fn replace_value<V, A: Allocator>(
    values: &mut Tape<V, ValueLink, A, PackedLink>,
    place: usize,
    value: V,
) -> V
    requires { IsIn place values.old.list.order }
    ensures old { item_at values.old.list place ≡ Some result }
    ensures written { values.new ≡ with_list values.old (with_item values.old.list place value) }
{
    replace(values.get_listed_mut(place), value)
}

impl<K: Eq + Hash, V, S: BuildHasher, A: Allocator + Copy> ListOrderedMultimap<K, V, S, A> {
    /// Sets the value of the key at the place of its first pair, removes its other pairs, and
    /// returns the first of the old values, or `None` if the key was absent.
    ///
    /// The key's first pair keeps its place among the pairs, and the key its place among the keys.
    /// The key also keeps its stored form, and the given key is dropped, as are the other old
    /// values. A new key and its pair go last, as by [`append`](Self::append).
    ///
    /// To put the new pair last see [`insert`](Self::insert), to write the first value and keep the
    /// others [`get_mut`](Self::get_mut), and to add a value [`append`](Self::append).
    ///
    /// # Errors
    ///
    /// Returns [`Refused`] with the key and the value if the key is absent and an allocation fails.
    /// Both lists are unchanged; capacities may have grown. It never fails if the key is present,
    /// since it doesn't allocate then, or if there is room for one more key and one more value.
    ///
    /// # Complexity
    ///
    /// *O*(*v*) expected for the *v* old values of the key, and *O*(1) amortized for a new key.
    ///
    /// # Examples
    ///
    /// ```
    /// use ordered_multimap::ListOrderedMultimap;
    ///
    /// let mut map = ListOrderedMultimap::new(rt.alloc());
    /// map.append("line", 1)?;
    /// map.append("page", 8)?;
    /// map.append("line", 2)?;
    /// assert_eq!(rt; map.set("line", 3)?, Some(1));
    /// assert_eq!(rt; map.set("word", 5)?, None);
    /// assert!(rt; map.iter().eq([(&"line", &3), (&"page", &8), (&"word", &5)]));
    /// ```
    pub fn set(&mut self, key: K, value: V) -> Result<Option<V>, Refused<K, V>>
    where
        K: Drop,
        V: Drop,
        ensures value { IfOk result (λ first. first
            ≡ slice_get (values_of K.eq self.old.lists.pairs key) 0) }
        ensures ok { IfOk result (SetsValue K.eq key value self.old self.new) }
        ensures refused { IfErr result (IsRefused K.eq key value self.old self.new) }
        ensures succeeds { HasInsertRoom K.eq self.old key → IsOk result }
        ensures paid { ArePaid self.new.tape }
    {
        let (hash, place) = self.look_up(&key);
        let Some(place) = place else {
            self.append_new(hash, key, value)?;
            return Ok(None);
        };
        Ok(Some(self.set_at(place, value)))
    }
}

impl<K: Eq + Hash, V, S: BuildHasher, A: Allocator> ListOrderedMultimap<K, V, S, A> {
    /// Sets the first value of the key at the place, takes its other values out, and returns the
    /// first of the old ones.
    pub(crate) fn set_at(&mut self, place: usize, value: V) -> V
    where
        V: Drop,
        requires { IsIn place self.old.slots.keys.order }
        ensures stays { StaysInRoom K.eq self.old self.new place }
        ensures value { (k : K) → HasKey K.eq self.old.slots.keys k place
            → slice_get (values_of K.eq self.old.lists.pairs k) 0 ≡ Some result }
        ensures only { (k : K) → HasKey K.eq self.old.slots.keys k place
            → LeavesOnly K.eq k value self.old self.new }
        ensures paid { ArePaid self.new.tape }
    {
        let first = self.replace_first(place, value);
        self.drop_others(place);
        first
    }

    /// Takes all values of the key at the place out but the first one.
    fn drop_others(&mut self, place: usize)
    where
        V: Drop,
        requires { IsIn place self.old.slots.keys.order }
        ensures stays { StaysInRoom K.eq self.old self.new place }
        ensures only { (k : K) (first : V) → HasKey K.eq self.old.slots.keys k place
            → slice_get (values_of K.eq self.old.lists.pairs k) 0 ≡ Some first
            → LeavesOnly K.eq k first self.old self.new }
        ensures paid { ArePaid self.new.tape }
    {
        if self.keys.listed_link(place).length > 1 {
            drop_later(&mut self.keys, &mut self.values, place);
        }
    }

    /// Puts another first value under the key at the place, and returns the one that it had.
    fn replace_first(&mut self, place: usize, value: V) -> V
        requires { IsIn place self.old.slots.keys.order }
        ensures stays { KeepsPlace K.eq self.old self.new place }
        ensures value { (k : K) → HasKey K.eq self.old.slots.keys k place
            → slice_get (values_of K.eq self.old.lists.pairs k) 0 ≡ Some result }
        ensures lists { (k : K) → HasKey K.eq self.old.slots.keys k place
            → self.new.lists ≡ first_written K.eq self.old.lists k value }
        ensures numbers { SameNumbers self.old self.new }
        ensures paid { ArePaid self.new.tape }
    {
        let link = self.keys.listed_link(place);
        replace_value(&mut self.values, link.head, value)
    }
}
