//! Inserting a pair in the place of all others of its key.
ghost use Rattle.std.specs.Prelude.{◌≡◌, true, false, Some, slice_get, IfOk, IfErr, OnOk, OnErr, IsOk, ⊤};
ghost use Rattle.multimap_slots.specs.Lists.{IsIn};
ghost use Rattle.multimap_slots.specs.Tapes.{HasTapeRoomFor};
ghost use Rattle.ordered_multimap.specs.Private.Append.{HandsBackAt};
ghost use Rattle.ordered_multimap.specs.Agrees.{HasKey};
ghost use Rattle.ordered_multimap.specs.Private.KeySteps.{KeepsPlaces, StaysInRoom};
ghost use Rattle.ordered_multimap.specs.Removals.{LosesValues};
ghost use Rattle.ordered_multimap.specs.Private.Remove.{GrowsForOne, HasFittingChain, Inserts, KeepsNames};
ghost use Rattle.ordered_multimap.specs.Private.Relocations.{KeepsCapacities};
ghost use Rattle.ordered_multimap.specs.Pairs.{values_of};
ghost use Rattle.ordered_multimap.specs.Changes.{inserted};
ghost use Rattle.ordered_multimap.specs.Rooms.{HasInsertRoom};
ghost use Rattle.ordered_multimap.specs.TapeNumbers.{ArePaid};
ghost use Rattle.ordered_multimap.specs.Additions.{IsInserted, IsRefused};

use super::append::steps::push_value;
use super::remove::chain::replace_chain;
use super::remove::unlink::{KeptInPlace, TakenOut};
use super::room::{make_end_room, make_value_room};
use super::{ListOrderedMultimap, Refused, RefusedValue};
use multimap_slots::{SlotList, Tape};
use multimap_walks::{ChainEnds, KeyLink, PackedLink, ValueLink};
use std::alloc::Allocator;
use std::hash::{BuildHasher, Hash};

impl<K: Eq + Hash, V, S: BuildHasher, A: Allocator + Copy> ListOrderedMultimap<K, V, S, A> {
    /// Removes all pairs of the key, appends the pair at the end, and returns the first of the old
    /// values, or `None` if the key was absent.
    ///
    /// The new pair goes last in the order of the pairs. A present key keeps its stored form and
    /// its place among the keys. The given key and the other old values are dropped.
    ///
    /// To put the value at the place of the first old pair see [`set`](Self::set), to get all old
    /// values [`insert_all`](Self::insert_all), to keep the old pairs [`append`](Self::append), and
    /// to write values in place [`get_mut`](Self::get_mut) and [`update_all`](Self::update_all).
    ///
    /// # Errors
    ///
    /// Returns [`Refused`] with the key and the value if the key is absent and an allocation fails.
    /// Both lists are unchanged; capacities may have grown. It never fails if the key is present,
    /// since it doesn't allocate then, or if there is room for one more key and one more value.
    ///
    /// # Complexity
    ///
    /// *O*(*v*) expected, amortized, where *v* is the number of old values of the key. A growth,
    /// and the moving of values into slots that removals left, cost what they cost in
    /// [`append`](Self::append).
    ///
    /// # Examples
    ///
    /// ```
    /// use ordered_multimap::ListOrderedMultimap;
    ///
    /// let mut map = ListOrderedMultimap::new(rt.alloc());
    /// map.append("line", 1)?;
    /// map.append("page", 8)?;
    /// map.append("line", 2)?;
    /// assert_eq!(rt; map.insert("line", 3)?, Some(1));
    /// assert_eq!(rt; map.insert("word", 5)?, None);
    /// assert!(rt; map.iter().eq([(&"page", &8), (&"line", &3), (&"word", &5)]));
    /// assert!(rt; map.keys().eq(&["line", "page", "word"]));
    /// ```
    #[tactic(auto, using(crate::proofs::Agreement::AbsentKeys::inserted_there))]
    pub fn insert(&mut self, key: K, value: V) -> Result<Option<V>, Refused<K, V>>
    where
        K: Drop,
        V: Drop,
        ensures value { IfOk result (λ old.
            old ≡ slice_get (values_of K.eq self.old.lists.pairs key) 0) }
        ensures ok { OnOk result (IsInserted K.eq key value self.old self.new) }
        ensures refused { IfErr result (IsRefused K.eq key value self.old self.new) }
        ensures succeeds { HasInsertRoom K.eq self.old key → IsOk result }
        ensures paid { ArePaid self.new.tape }
    {
        let (hash, place) = self.look_up(&key);
        let Some(place) = place else {
            self.append_new(hash, key, value)?;
            return Ok(None);
        };
        Ok(Some(self.insert_at(place, value)))
    }
}

impl<K: Eq + Hash, V, S: BuildHasher, A: Allocator> ListOrderedMultimap<K, V, S, A> {
    /// Takes all pairs of the key at the place out, puts one with this value last, and returns the
    /// first of the old values.
    pub(super) fn insert_at(&mut self, place: usize, value: V) -> V
    where
        V: Drop,
        requires { IsIn place self.old.slots.keys.order }
        ensures stays { StaysInRoom K.eq self.old self.new place }
        ensures places { KeepsPlaces K.eq self.old self.new }
        ensures value { (k : K) → HasKey K.eq self.old.slots.keys k place
            → slice_get (values_of K.eq self.old.lists.pairs k) 0 ≡ Some result }
        ensures inserted { (k : K) → HasKey K.eq self.old.slots.keys k place
            → LosesValues K.eq self.old self.new k (inserted K.eq self.old.lists k value) }
        ensures paid { ArePaid self.new.tape }
    {
        insert_behind(&mut self.keys, &mut self.values, place, value)
    }
}

/// Puts the value last, behind the others of the key at the place, takes these out, and returns the
/// first of them. There is a slot for it, since a tape has two for each value of the map. Where there
/// is one other, no link of it is written.
#[inline(always)]
fn insert_behind<K, V: Drop, A: Allocator>(
    keys: &mut SlotList<K, KeyLink, A>,
    values: &mut Tape<V, ValueLink, A, PackedLink>,
    place: usize,
    value: V,
) -> V
    requires { HasFittingChain keys.old values.old place }
    ensures inserted { (ends : _) × Inserts false (λ v. result ≡ v) keys.old keys.new
        values.old values.new place value ends }
    ensures capacities { KeepsCapacities keys.old keys.new values.old values.new }
{
    make_end_room(keys, values);
    let link = keys.listed_link_mut(place);
    if link.length == 1 {
        let end = push_value(values, value, place, None);
        let (old, _) = values.take_listed(link.head);
        link.head = end;
        link.tail = end;
        return old;
    }
    let (first, _) = replace_chain::<K, V, TakenOut<V>, A>(keys, values, place, value);
    first.value
}

/// Puts the value last, behind the others of the key at the place, detaches these, and returns
/// where they stand.
pub(super) fn insert_behind_all<K, V: Drop, A: Allocator + Copy>(
    keys: &mut SlotList<K, KeyLink, A>,
    values: &mut Tape<V, ValueLink, A, PackedLink>,
    place: usize,
    value: V,
) -> Result<ChainEnds, RefusedValue<V>>
    requires { HasFittingChain keys.old values.old place }
    ensures ok { IfOk result (Inserts true (λ _. ⊤) keys.old keys.new values.old values.new
        place value) }
    ensures unchanged { OnErr result (KeepsNames keys.old keys.new values.old values.new) }
    ensures hands_back { HandsBackAt value values.old result }
    ensures full { OnErr result (¬ HasTapeRoomFor values.new 1) }
    ensures grows { GrowsForOne keys.old keys.new values.old values.new }
{
    if make_value_room(keys, values).is_err() {
        return Err(RefusedValue { value });
    }
    let (_, left) = replace_chain::<K, V, KeptInPlace, A>(keys, values, place, value);
    Ok(left)
}
