//! What a drain does with the map that it borrows: it reads, takes and drops detached values.
ghost use Rattle.std.specs.Prelude.{◌≡◌, find, length, option_map, slice_get};
ghost use Rattle.std.specs.Prelude.{IfErr, IfNone, IfSome, OnErr, OnOk, IsOk};
ghost use Rattle.multimap_slots.specs.Lists.{IsIn};
ghost use Rattle.ordered_multimap.specs.Private.Append.{KeepsTapeRoom};
ghost use Rattle.ordered_multimap.specs.Agrees.{HasKey};
ghost use Rattle.ordered_multimap.specs.Changes.{inserted, removed, removed_where};
ghost use Rattle.ordered_multimap.specs.Keys.{stored_key, stored_where};
ghost use Rattle.ordered_multimap.specs.Private.KeySteps.{DetachesValues, DetachesWhere, HoldsInRoom, KeepsBothLists};
ghost use Rattle.ordered_multimap.specs.Pairs.{values_of, values_where};
ghost use Rattle.ordered_multimap.specs.Rooms.{HasPairRoom, HasValueRoom, KeepsRooms, RaisesNoRoom, SameRooms};
ghost use Rattle.ordered_multimap.specs.TapeNumbers.{TakesOut};
ghost use Rattle.multimap_walks.specs.ChainWalk.{detached_walk};
ghost use Rattle.multimap_walks.specs.Walk.{TakesEnd};
ghost use Rattle.ordered_multimap.specs.Detaches.{AreDropped, DropsRest, EndsDrain, HoldsDrain, IsDrained, KeepsListed};
ghost use Rattle.ordered_multimap.specs.Detaches.{KeepsSlots, LeavesDrain, left_of};

use crate::KeyQuery;
use crate::list_ordered_multimap::insert::insert_behind_all;
use crate::list_ordered_multimap::remove::chain::{take_row, unlink_entry, unlink_key};
use crate::list_ordered_multimap::remove::unlink::KeptInPlace;
use crate::list_ordered_multimap::{
    EntryValues, ListOrderedMultimap, NO_CHAIN, Refused, RefusedValue,
};
use multimap_slots::Tape;
use multimap_walks::{ChainEnds, End, PackedLink, ValueLink};
use std::alloc::Allocator;
use std::hash::{BuildHasher, Hash};

impl<K: Eq + Hash, V, S: BuildHasher, A: Allocator> ListOrderedMultimap<K, V, S, A> {
    /// Takes the key out, detaches all its values for a drain, and returns the stored key.
    pub(crate) fn detach_all<Q: KeyQuery<K>>(&mut self, key: Q) -> Option<K>
        ensures holds { HoldsInRoom self.old self.new }
        ensures detached { DetachesWhere (Q.equivalent key) self.old self.new
            (removed_where K.eq (Q.equivalent key) self.old.lists) }
        ensures found { result ≡ find (Q.equivalent key) self.old.lists.keys }
        ensures key { IfSome (Q.as_key key) (λ k. result
            ≡ option_map (λ _. stored_where (Q.equivalent key) self.old.lists.keys k)
            (slice_get (values_where (Q.equivalent key) self.old.lists.pairs) 0)) }
        ensures absent { IfNone result (KeepsListed self.old self.new) }
    {
        let hash = self.state.hash_one(key);
        let Some(place) = take_row(&self.keys, &mut self.table, hash, key) else {
            self.detach_none();
            return None;
        };
        let (stored, _, left) = unlink_key::<K, V, KeptInPlace, A>(
            &mut self.keys,
            &mut self.values,
            place,
        );
        self.left = left;
        Some(stored)
    }

    /// Takes the key at the place out, detaches all its values for a drain, and returns the key.
    pub(crate) fn detach_at(&mut self, place: usize) -> K
        requires { IsIn place self.old.slots.keys.order }
        ensures holds { HoldsInRoom self.old self.new }
        ensures detached { (k : K) → HasKey K.eq self.old.slots.keys k place
            → DetachesValues K.eq self.old self.new k (removed K.eq self.old.lists k) }
        ensures key { (k : K) → HasKey K.eq self.old.slots.keys k place
            → result ≡ stored_key K.eq self.old.lists.keys k }
    {
        let (key, _, left) = unlink_entry::<K, V, KeptInPlace, A>(
            &mut self.keys,
            &mut self.table,
            &mut self.values,
            place,
        );
        self.left = left;
        key
    }

    /// Nothing is left for a drain.
    pub(super) fn detach_none(&mut self)
        ensures { EndsDrain self.old self.new }
    {
        self.left = NO_CHAIN;
    }

    /// Detaches the key's values, as `detach_all` does, and hands the map back.
    pub(crate) fn detach_all_on(&mut self, key: &K) -> (Option<K>, &mut Self)
        ensures same_map { result.1.ghost_name ≡ self.entry.ghost_name }
        ensures holds { HoldsDrain result.1.now }
        ensures left { left_of result.1.now ≡ values_of K.eq self.old.lists.pairs key.now }
        ensures key { result.0 ≡ option_map (λ _. stored_key K.eq self.old.lists.keys key.now)
            (slice_get (values_of K.eq self.old.lists.pairs key.now) 0) }
        ensures lists { result.1.now.lists ≡ removed K.eq self.old.lists key.now }
        ensures rooms { SameRooms self.old result.1.now }
        ensures taken { TakesOut (length (values_of K.eq self.old.lists.pairs key.now))
            self.old.tape result.1.now.tape }
        ensures absent { IfNone result.0 (KeepsListed self.old result.1.now) }
    {
        let stored = self.detach_all(key);
        (stored, self)
    }

    /// How many values are left of the drain.
    pub(crate) fn count_left(&self) -> usize
        requires { HoldsDrain self.now }
        ensures { result ≡ length (left_of self.now) }
    {
        self.left.length
    }

    /// A walk over the values that are left of the drain.
    pub(crate) fn values_left(&self) -> EntryValues<'_, K, V, A>
        requires { HoldsDrain self.now }
        ensures { result ≡ detached_walk (left_of self.now) }
    {
        EntryValues::new_detached(&self.values, Some(self.left))
    }

    /// Takes the value at an end of what is left of the drain.
    #[inline(always)]
    pub(crate) fn take_left(&mut self, end: End) -> Option<V>
        requires { HoldsDrain self.old }
        ensures drain { LeavesDrain self.old self.new }
        ensures taken { TakesEnd end (λ v. v) (left_of self.old) result (left_of self.new) }
    {
        if self.left.length == 0 {
            return None;
        }
        let place = self.left.place_at(end);
        let (value, link) = self.values.take_detached_linked(place);
        // At the last value this is 0, and isn't used.
        self.left = self.left.after(end, link.step_from(end).unwrap_or(0));
        Some(value)
    }

    /// Drops the values that are left of the drain.
    pub(crate) fn drop_left(&mut self)
    where
        V: Drop,
        requires { HoldsDrain self.old }
        ensures ends { EndsDrain self.old self.new }
        ensures dropped { DropsRest self.old self.new }
    {
        let left = self.left;
        self.left.length = 0;
        drop_chain(&mut self.values, left);
    }
}

impl<K: Eq + Hash, V, S: BuildHasher, A: Allocator + Copy> ListOrderedMultimap<K, V, S, A> {
    /// Puts the pair last, and detaches the older values of its key for a drain.
    pub(crate) fn insert_detaching(&mut self, key: K, value: V) -> Result<(), Refused<K, V>>
    where
        K: Drop,
        V: Drop,
        ensures holds { OnOk result (HoldsDrain self.new) }
        ensures ok { OnOk result (DetachesValues K.eq self.old self.new key
            (inserted K.eq self.old.lists key value)) }
        ensures unchanged { OnErr result (KeepsBothLists self.old self.new) }
        ensures refused { IfErr result (λ pair. pair ≡ record { key = key; value = value }) }
        ensures full { OnErr result (¬ HasPairRoom K.eq self.new key) }
        ensures succeeds { HasPairRoom K.eq self.old key → IsOk result }
        ensures rooms { KeepsRooms self.old self.new }
        ensures had_room { RaisesNoRoom K.eq key self.old self.new }
    {
        let (hash, place) = self.look_up(&key);
        let Some(place) = place else {
            self.append_new(hash, key, value)?;
            self.detach_none();
            return Ok(());
        };
        match self.insert_detaching_at(place, value) {
            Ok(()) => Ok(()),
            Err(RefusedValue { value }) => Err(Refused { key, value }),
        }
    }

    /// Puts a value of the key at the place last, and detaches its older values for a drain.
    pub(crate) fn insert_detaching_at(
        &mut self,
        place: usize,
        value: V,
    ) -> Result<(), RefusedValue<V>>
    where
        V: Drop,
        requires { IsIn place self.old.slots.keys.order }
        ensures stays { (k : K) → HasKey K.eq self.old.slots.keys k place
            → HasKey K.eq self.new.slots.keys k place }
        ensures holds { OnOk result (HoldsDrain self.new) }
        ensures ok { OnOk result ((k : K) → HasKey K.eq self.old.slots.keys k place
            → DetachesValues K.eq self.old self.new k (inserted K.eq self.old.lists k value)) }
        ensures unchanged { OnErr result (KeepsBothLists self.old self.new) }
        ensures refused { IfErr result (λ r. r.value ≡ value) }
        ensures full { OnErr result (¬ HasValueRoom self.new) }
        ensures succeeds { HasValueRoom self.old → IsOk result }
        ensures rooms { KeepsRooms self.old self.new }
        ensures had_room { (k : K) → HasKey K.eq self.old.slots.keys k place
            → RaisesNoRoom K.eq k self.old self.new }
    {
        let left = insert_behind_all(&mut self.keys, &mut self.values, place, value)?;
        self.left = left;
        Ok(())
    }
}

/// Takes detached values, and drops them.
fn drop_chain<V: Drop, A: Allocator>(
    values: &mut Tape<V, ValueLink, A, PackedLink>,
    ends: ChainEnds,
)
    requires { IsDrained values.old.list ends }
    ensures dropped { AreDropped values.old.list ends values.new.list }
    ensures kept { KeepsSlots values.old.list values.new.list }
    ensures room { KeepsTapeRoom values.old values.new }
{
    let mut place = ends.first;
    for _ in 0..ends.length {
        // The length tells the proof that the list is sound.
        let _len = values.len();
        let (value, link) = values.take_detached_linked(place);
        drop(value);
        place = link.next.unwrap_or(0);
    }
}
