//! Keeping the pairs for which a function returns `true`.
ghost use Rattle.std.specs.Prelude.{◌≡◌, ◌≤◌, ◌-◌, ℕ, Bool, Some, length};
ghost use Rattle.std.specs.Map.Calls.{CallableOnEachPair, CalledAtPair, TakesPair as MayCall};
ghost use Rattle.multimap_slots.specs.Slots.{link_at};
ghost use Rattle.multimap_walks.specs.Chained.{pair_at, pairs_of};
ghost use Rattle.ordered_multimap.specs.Agrees.{Agrees};
ghost use Rattle.ordered_multimap.specs.Keys.{keys_named_by};
ghost use Rattle.ordered_multimap.specs.Retain.{AlwaysRetains, Retains, kept_stepwise};
ghost use Rattle.ordered_multimap.specs.Private.Retain.{Asks, IsOwnedAt, LosesSome, RetainsAt};
ghost use Rattle.ordered_multimap.specs.Rooms.{SameRooms};
ghost use Rattle.ordered_multimap.specs.Private.RemoveOne.{HasPair};
ghost use Rattle.ordered_multimap.specs.TapeNumbers.{TakesOut};

mod values;

use super::ListOrderedMultimap;
use super::lookup::{slot_at, value_at};
use super::remove::one::take_pair;
use multimap_slots::{SlotList, Tape};
use multimap_table::KeyTable;
use multimap_walks::{KeyLink, PackedLink, ValueLink};
use std::alloc::Allocator;
use std::hash::{BuildHasher, Hash};

/// Calls the function on the pair at a listed place, and returns its result, with the key's link.
#[inline(always)]
fn ask<K, V, A: Allocator, F: FnMut(&K, &mut V) -> bool>(
    keys: &SlotList<K, KeyLink, A>,
    values: &mut Tape<V, ValueLink, A, PackedLink>,
    f: &mut F,
    place: usize,
) -> (bool, KeyLink)
    requires owned { IsOwnedAt keys.now values.old.list place }
    requires callable { (k : K) (v : V) → pair_at keys.now values.old.list place ≡ Some (k, v)
        → MayCall F.FnMut f.old k v }
    ensures asked { Asks (CalledAtPair F.FnMut) keys.now values.old values.new place
        f.old result.0 f.new }
    ensures key_link { (l : ValueLink) → link_at values.old.list place ≡ Some l
        → link_at keys.now l.key ≡ Some result.1 }
{
    let (_, link) = value_at(values, place);
    let (key, key_link) = slot_at(keys, link.key);
    (f(key, values.get_listed_mut(place)), key_link)
}

/// Calls the function on the pair at a listed place, and takes the pair out if it returns false.
fn retain_at<K: Drop, V: Drop, A: Allocator, F: FnMut(&K, &mut V) -> bool>(
    keys: &mut SlotList<K, KeyLink, A>,
    table: &mut KeyTable<A>,
    values: &mut Tape<V, ValueLink, A, PackedLink>,
    f: &mut F,
    place: usize,
)
    requires pair { HasPair keys.old table.old.rows values.old.list place }
    requires callable { (k : K) (v : V) → pair_at keys.old values.old.list place ≡ Some (k, v)
        → MayCall F.FnMut f.old k v }
    ensures { RetainsAt (CalledAtPair F.FnMut) keys.old keys.new table.old table.new
        values.old values.new place f.old f.new }
{
    let (stays, key_link) = ask(keys, values, f, place);
    if !stays {
        take_pair(keys, table, values, place, key_link);
    }
}

/// Calls the function on each pair in turn, and takes out those for which it returns false.
fn retain_pairs<K: Eq + Drop, V: Drop, A: Allocator, F: FnMut(&K, &mut V) -> bool>(
    keys: &mut SlotList<K, KeyLink, A>,
    table: &mut KeyTable<A>,
    values: &mut Tape<V, ValueLink, A, PackedLink>,
    mut f: F,
)
    requires agrees { (hash : K → ℕ) × Agrees K.eq hash keys.old table.old.rows values.old.list }
    requires callable { CallableOnEachPair (CalledAtPair F.FnMut) (MayCall F.FnMut) f
        (pairs_of keys.old values.old.list) }
    ensures retained { (last : F) × Retains (CalledAtPair F.FnMut) f
        (pairs_of keys.old values.old.list) (pairs_of keys.new values.new.list) last }
    ensures loses { LosesSome K.eq keys.old keys.new table.old table.new values.old values.new }
{
    let mut following = values.front_place();
    while let Some(place) = following {
        // Asked for before the pair may go: where no value is listed, none follows.
        following = values.next_listed_place(place);
        retain_at(keys, table, values, &mut f, place);
    }
}

impl<K: Eq + Hash, V, S: BuildHasher, A: Allocator> ListOrderedMultimap<K, V, S, A> {
    /// Retains only the pairs for which the function returns `true`.
    ///
    /// In other words, removes all pairs `(k, v)` for which `f(&k, &mut v)` returns `false`. It
    /// works in place, visits the pairs in their order, each exactly once, and keeps the order of
    /// the pairs and keys that stay. So the function may decide by what it has seen before. It may
    /// also write the value: a retained pair has the value that the call left. The removed pairs
    /// are dropped, and a key is removed with its last pair.
    ///
    /// For the values of one key see [`retain_all`](Self::retain_all), to write values only
    /// [`update_values`](Self::update_values) and [`iter_mut`](Self::iter_mut), to remove one key
    /// [`remove`](Self::remove), and to remove all pairs [`clear`](Self::clear).
    ///
    /// No memory is freed: later additions reuse the slots.
    ///
    /// # Complexity
    ///
    /// *O*(*n*) expected, where *n* is the number of pairs, whatever the capacity. For each pair it
    /// reads the slots of the value and of its key, and for each removed pair it writes the slots
    /// of its neighbours under that key.
    ///
    /// # Requires
    ///
    /// The function's own `requires` clauses, if it has any, hold for each pair.
    ///
    /// # Examples
    ///
    /// ```
    /// use ordered_multimap::ListOrderedMultimap;
    ///
    /// let mut map = ListOrderedMultimap::new(rt.alloc());
    /// map.append("line", 1)?;
    /// map.append("page", 8)?;
    /// map.append("line", 2)?;
    /// map.append("word", 5)?;
    /// map.retain(|_key, value| *value < 5);
    /// assert!(rt; map.iter().eq([(&"line", &1), (&"line", &2)]));
    /// assert!(rt; map.keys().eq(&["line"]));
    /// ```
    pub fn retain<F: FnMut(&K, &mut V) -> bool>(&mut self, f: F)
    where
        K: Drop,
        V: Drop,
        requires { CallableOnEachPair (CalledAtPair F.FnMut) (MayCall F.FnMut) f
            self.old.lists.pairs }
        ensures retained { (last : F) × Retains (CalledAtPair F.FnMut) f
            self.old.lists.pairs self.new.lists.pairs last }

        // Where each answer and each value depends on nothing but the pair, the pairs are filtered.
        ensures stepwise { (keep : K → V → Bool) (step : K → V → V)
            → AlwaysRetains (CalledAtPair F.FnMut) f keep step
            → self.new.lists.pairs ≡ kept_stepwise keep step self.old.lists.pairs }
        ensures keys { self.new.lists.keys
            ≡ keys_named_by K.eq self.old.lists.keys self.new.lists.pairs }
        ensures rooms { SameRooms self.old self.new }
        ensures taken { TakesOut (length self.old.lists.pairs - length self.new.lists.pairs)
            self.old.tape self.new.tape }
        ensures fewer { length self.new.lists.pairs ≤ length self.old.lists.pairs }
    {
        retain_pairs(&mut self.keys, &mut self.table, &mut self.values, f);
    }
}
