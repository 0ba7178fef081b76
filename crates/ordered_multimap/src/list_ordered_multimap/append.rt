//! Appending one pair.
ghost use Rattle.std.specs.Prelude.{◌≡◌, false, IfOk, IfErr, OnOk, OnErr, IsOk};
ghost use Rattle.multimap_slots.specs.Lists.{IsIn};
ghost use Rattle.multimap_slots.specs.Slots.{HasItem};
ghost use Rattle.multimap_slots.specs.Tapes.{HasTapeRoomFor};
ghost use Rattle.ordered_multimap.specs.Private.Append.{AppendsBehind, AppendsFirst, FitsOneMore, GrowsFor};
ghost use Rattle.ordered_multimap.specs.Private.Append.{HandsBackAt, HasCountedChains, HasListedRows, MakesRoom};
ghost use Rattle.ordered_multimap.specs.Additions.{Appends, IsAppended, IsAppendedAt, IsRefused, RefusesValue};
ghost use Rattle.ordered_multimap.specs.Private.KeySteps.{KeepsPlace, KeepsPlaces};
ghost use Rattle.ordered_multimap.specs.Agrees.{HasKey, hash_of};
ghost use Rattle.ordered_multimap.specs.Private.Relocations.{AreRelocated};
ghost use Rattle.ordered_multimap.specs.Private.Remove.{HasChain};
ghost use Rattle.ordered_multimap.specs.Keys.{is_listed};
ghost use Rattle.ordered_multimap.specs.Pairs.{is_present};
ghost use Rattle.ordered_multimap.specs.Rooms.{HasPairRoom, HasValueRoom};
ghost use Rattle.ordered_multimap.specs.TapeNumbers.{ArePaid};

pub(crate) mod steps;

use super::append::steps::{new_link, push_behind, push_row, push_value};
use super::room::{make_room, make_value_room};
use super::{ListOrderedMultimap, Refused, RefusedValue};
use multimap_slots::{SlotList, Tape};
use multimap_table::KeyTable;
use multimap_walks::{KeyLink, PackedLink, ValueLink};
use std::alloc::Allocator;
use std::hash::{BuildHasher, Hash};

impl<K: Eq + Hash, V, S: BuildHasher, A: Allocator + Copy> ListOrderedMultimap<K, V, S, A> {
    /// Appends the pair at the end, and returns whether the key was already present.
    ///
    /// A present key keeps its stored form and its place among the keys, and the given key is
    /// dropped. A new key goes last among the keys. To replace the values of a key see
    /// [`insert`](Self::insert) and [`set`](Self::set), to append many pairs
    /// [`extend`](Self::extend) and [`append_map`](Self::append_map), and to add a value only if the
    /// key is absent [`entry`](Self::entry).
    ///
    /// # Errors
    ///
    /// Returns [`Refused`] with the key and the value if an allocation fails. Both lists are
    /// unchanged; capacities may have grown. It never fails if there is room for one more value
    /// and, where the key is absent, for one more key.
    ///
    /// # Complexity
    ///
    /// *O*(1) expected, amortized. The key is hashed once. A growth at least doubles the capacity,
    /// and moves the slots or rows of what grows. If there is room but the last slot is in use,
    /// values are moved into the slots that removals left, without allocating: over all calls at
    /// most one move for each removed value.
    ///
    /// # Examples
    ///
    /// ```
    /// use ordered_multimap::ListOrderedMultimap;
    ///
    /// let mut map = ListOrderedMultimap::new(rt.alloc());
    /// assert_eq!(rt; map.append("line", 1)?, false);
    /// assert_eq!(rt; map.append("page", 8)?, false);
    /// assert_eq!(rt; map.append("line", 2)?, true);
    /// assert!(rt; map.iter().eq([(&"line", &1), (&"page", &8), (&"line", &2)]));
    /// assert!(rt; map.get_all("line").eq(&[1, 2]));
    /// assert!(rt; map.keys().eq(&["line", "page"]));
    /// ```
    #[tactic(auto, using(crate::proofs::Append::Rooms::appended_there, crate::proofs::Append::Rooms::refused_there))]
    #[inline(always)]
    pub fn append(&mut self, key: K, value: V) -> Result<bool, Refused<K, V>>
    where
        K: Drop,
        V: Drop,
        ensures present { IfOk result (λ present.
            present ≡ is_present K.eq self.old.lists.pairs key) }
        ensures ok { OnOk result (IsAppended K.eq key value self.old self.new) }
        ensures refused { IfErr result (IsRefused K.eq key value self.old self.new) }
        ensures succeeds { HasPairRoom K.eq self.old key → IsOk result }
        ensures paid { ArePaid self.new.tape }
    {
        let (hash, place) = self.look_up(&key);
        let Some(place) = place else {
            self.append_new(hash, key, value)?;
            return Ok(false);
        };
        match self.append_at(place, value) {
            Ok(()) => Ok(true),
            Err(RefusedValue { value }) => Err(Refused { key, value }),
        }
    }

    /// Puts a pair of an absent key, whose hash is `hash`, last, and returns the key's place.
    pub(super) fn append_new(&mut self, hash: u64, key: K, value: V) -> Result<usize, Refused<K, V>>
    where
        V: Drop,
        requires hash { hash ≡ hash_of S.BuildHasher S.Hasher.Hasher self.old.hasher
            (K.hash_input key) }
        requires absent { is_listed K.eq self.old.lists.keys key ≡ false }
        ensures found { IfOk result (HasKey K.eq self.new.slots.keys key) }
        ensures places { KeepsPlaces K.eq self.old self.new }
        ensures appends { Appends K.eq key value self.old self.new result }
        ensures paid { ArePaid self.new.tape }
    {
        append_first(
            &mut self.keys,
            &mut self.table,
            &mut self.values,
            hash,
            key,
            value,
        )
    }

    /// Puts a value of the key at the place last.
    #[inline(always)]
    pub(super) fn append_at(&mut self, place: usize, value: V) -> Result<(), RefusedValue<V>>
    where
        V: Drop,
        requires { IsIn place self.old.slots.keys.order }
        ensures stays { KeepsPlace K.eq self.old self.new place }
        ensures places { KeepsPlaces K.eq self.old self.new }
        ensures keys { self.new.lists.keys ≡ self.old.lists.keys }
        ensures ok { OnOk result (IsAppendedAt K.eq place value self.old self.new) }
        ensures refused { IfErr result (RefusesValue value self.old self.new) }
        ensures succeeds { HasValueRoom self.old → IsOk result }
        ensures paid { ArePaid self.new.tape }
    {
        append_behind(&mut self.keys, &mut self.values, place, value)
    }
}

/// Appends to the key at the place.
#[inline(always)]
fn append_behind<K, V: Drop, A: Allocator + Copy>(
    keys: &mut SlotList<K, KeyLink, A>,
    values: &mut Tape<V, ValueLink, A, PackedLink>,
    place: usize,
    value: V,
) -> Result<(), RefusedValue<V>>
    requires chain { HasChain keys.old values.old.list place }
    ensures ok { OnOk result (AppendsBehind keys.old keys.new
        values.old.list values.new.list place value) }
    ensures unchanged { OnErr result (AreRelocated keys.old keys.new
        values.old.list values.new.list) }
    ensures hands_back { HandsBackAt value values.old result }
    ensures full { OnErr result (¬ HasTapeRoomFor values.new 1) }
    ensures keys_capacity { keys.new.capacity ≡ keys.old.capacity }
    ensures values { MakesRoom values.old values.new }
{
    if make_value_room(keys, values).is_err() {
        return Err(RefusedValue { value });
    }
    push_behind(keys, values, place, value);
    Ok(())
}

/// Appends a key that isn't listed, whose hash is `hash`, with its first value, and returns its
/// place.
#[tactic(auto, using(crate::proofs::Append::Appended::rows_listed))]
#[inline(never)]
fn append_first<K, V: Drop, A: Allocator + Copy>(
    keys: &mut SlotList<K, KeyLink, A>,
    table: &mut KeyTable<A>,
    values: &mut Tape<V, ValueLink, A, PackedLink>,
    hash: u64,
    key: K,
    value: V,
) -> Result<usize, Refused<K, V>>
    requires rows { HasListedRows keys.old table.old.rows }
    requires chains { HasCountedChains keys.old table.old values.old.list }
    ensures found { IfOk result (λ place. HasItem keys.new place key) }
    ensures ok { OnOk result (AppendsFirst keys.old keys.new table.old.rows table.new.rows
        values.old.list values.new.list hash key value) }
    ensures unchanged { OnErr result (AreRelocated keys.old keys.new values.old.list values.new.list
        × (table.new.rows ≡ table.old.rows)) }
    ensures refused { IfErr result (λ pair. pair ≡ record { key = key; value = value }) }
    ensures succeeds { FitsOneMore keys.old table.old.rows table.old.capacity values.old
        → IsOk result }
    ensures full { OnErr result (¬ FitsOneMore keys.new table.new.rows table.new.capacity
        values.new) }
    ensures grows { GrowsFor keys.old keys.new table.old.rows
        table.old.capacity table.new.capacity 1 }
    ensures values { MakesRoom values.old values.new }
{
    if make_room(keys, table, values).is_err() {
        return Err(Refused { key, value });
    }
    let link = new_link(hash, values.push_place());
    let place = push_row(keys, table, key, link);
    push_value(values, value, place, None);
    Ok(place)
}
