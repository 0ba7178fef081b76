//! Retaining the values of one key for which a function returns true.
ghost use Rattle.std.specs.Prelude.{◌≡◌, ◌-◌, ◌≤◌, ℕ, Bool, Some, cond, false, length, true};
ghost use Rattle.multimap_slots.specs.Lists.{IsIn};
ghost use Rattle.multimap_slots.specs.Slots.{item_at, link_at};
ghost use Rattle.multimap_walks.specs.Chained.{chain_of, pairs_of, values_at};
ghost use Rattle.ordered_multimap.specs.Agrees.{Agrees, HasKey};
ghost use Rattle.ordered_multimap.specs.Keys.{keys_named_by};
ghost use Rattle.ordered_multimap.specs.Pairs.{is_present_where, values_where};
ghost use Rattle.ordered_multimap.specs.Private.RemoveOne.{HasPair};
ghost use Rattle.ordered_multimap.specs.Private.Retain.{Asks, AsksAny, IsOwnedAt, LosesSome, RetainsAt};
ghost use Rattle.ordered_multimap.specs.Retain.{AlwaysAnswers, AsksAccepted, MayAskEach, MayAskValue, Retains, kept_stepwise};
ghost use Rattle.ordered_multimap.specs.Rooms.{SameRooms};
ghost use Rattle.ordered_multimap.specs.TapeNumbers.{TakesOut};

use crate::KeyQuery;
use crate::list_ordered_multimap::ListOrderedMultimap;
use crate::list_ordered_multimap::lookup::{slot_at, value_at};
use crate::list_ordered_multimap::remove::one::take_pair;
use multimap_slots::{SlotList, Tape};
use multimap_table::KeyTable;
use multimap_walks::{KeyLink, PackedLink, ValueLink};
use std::alloc::Allocator;
use std::hash::{BuildHasher, Hash};

/// Calls the function on the value at a listed place, and returns its result, with the place of the
/// key's next value, and the key's link.
#[inline(always)]
fn ask_value<K, V, A: Allocator, F: FnMut(&mut V) -> bool>(
    keys: &SlotList<K, KeyLink, A>,
    values: &mut Tape<V, ValueLink, A, PackedLink>,
    f: &mut F,
    place: usize,
) -> (bool, Option<usize>, KeyLink)
    requires owned { IsOwnedAt keys.now values.old.list place }
    requires callable { (v : V) → item_at values.old.list place ≡ Some v
        → MayAskValue F.FnMut f.old v }
    ensures asked { Asks (AsksAny F.FnMut) keys.now values.old values.new place
        f.old result.0 f.new }
    ensures next { (l : ValueLink) → link_at values.old.list place ≡ Some l → result.1 ≡ l.next }
    ensures key_link { (l : ValueLink) → link_at values.old.list place ≡ Some l
        → link_at keys.now l.key ≡ Some result.2 }
{
    let (_, link) = value_at(values, place);
    let (_, key_link) = slot_at(keys, link.key);
    (f(values.get_listed_mut(place)), link.next, key_link)
}

/// Calls the function on the value at a listed place, takes its pair out if it returns false, and
/// returns the place of the key's next value.
fn retain_value_at<K: Drop, V: Drop, A: Allocator, F: FnMut(&mut V) -> bool>(
    keys: &mut SlotList<K, KeyLink, A>,
    table: &mut KeyTable<A>,
    values: &mut Tape<V, ValueLink, A, PackedLink>,
    f: &mut F,
    place: usize,
) -> Option<usize>
    requires pair { HasPair keys.old table.old.rows values.old.list place }
    requires callable { (v : V) → item_at values.old.list place ≡ Some v
        → MayAskValue F.FnMut f.old v }
    ensures retains { RetainsAt (AsksAny F.FnMut) keys.old keys.new table.old table.new
        values.old values.new place f.old f.new }
    ensures next { (l : ValueLink) → link_at values.old.list place ≡ Some l → result ≡ l.next }
{
    let (stays, next, key_link) = ask_value(keys, values, f, place);
    if !stays {
        take_pair(keys, table, values, place, key_link);
    }
    next
}

/// Calls the function on each value of the key at the place, in turn, and takes out those for which
/// it returns false.
fn retain_chain<K: Eq + Drop, V: Drop, A: Allocator, F: FnMut(&mut V) -> bool>(
    keys: &mut SlotList<K, KeyLink, A>,
    table: &mut KeyTable<A>,
    values: &mut Tape<V, ValueLink, A, PackedLink>,
    key_place: usize,
    mut f: F,
)
    requires listed { IsIn key_place keys.old.order }
    requires agrees { (hash : K → ℕ) × Agrees K.eq hash keys.old table.old.rows values.old.list }
    requires callable { MayAskEach F.FnMut f
        (values_at values.old.list (chain_of values.old.list key_place)) }
    ensures retained { (k : K) → HasKey K.eq keys.old k key_place
        → (last : F) × Retains (AsksAccepted F.FnMut (K.eq k)) f
        (pairs_of keys.old values.old.list) (pairs_of keys.new values.new.list) last }
    ensures loses { LosesSome K.eq keys.old keys.new table.old table.new values.old values.new }
{
    let link = keys.listed_link(key_place);
    let mut following = Some(link.head);
    while let Some(place) = following {
        following = retain_value_at(keys, table, values, &mut f, place);
    }
}

impl<K: Eq + Hash, V, S: BuildHasher, A: Allocator> ListOrderedMultimap<K, V, S, A> {
    /// Retains only the values of the key for which the function returns `true`.
    ///
    /// It works in place, and visits each value of the key exactly once, in the order of the pairs.
    /// The function may also write the value: a retained pair has the value that the call left. The
    /// removed values are dropped, and the key is removed with its last value. If the key is
    /// absent, the function isn't called. All other pairs and keys stay as they are. The key may be
    /// a query ([`KeyQuery`]).
    ///
    /// For the pairs of all keys see [`retain`](Self::retain), to write values and remove none
    /// [`get_all_mut`](Self::get_all_mut), and to remove one value
    /// [`remove_value`](Self::remove_value).
    ///
    /// No memory is freed: later additions reuse the slots.
    ///
    /// # Complexity
    ///
    /// *O*(*v*) expected for the *v* values of the key. It reads the slots of the key and of its
    /// values, and no others.
    ///
    /// # Requires
    ///
    /// The function's own `requires` clauses, if it has any, hold for each value of the key.
    ///
    /// # Examples
    ///
    /// ```
    /// use ordered_multimap::ListOrderedMultimap;
    ///
    /// let mut map = ListOrderedMultimap::new(rt.alloc());
    /// map.append("line", 1)?;
    /// map.append("page", 1)?;
    /// map.append("line", 2)?;
    /// map.retain_all("line", |value| *value > 1);
    /// assert!(rt; map.iter().eq([(&"page", &1), (&"line", &2)]));
    /// ```
    pub fn retain_all<Q: KeyQuery<K>, F: FnMut(&mut V) -> bool>(&mut self, key: Q, f: F)
    where
        K: Drop,
        V: Drop,
        requires { MayAskEach F.FnMut f (values_where (Q.equivalent key) self.old.lists.pairs) }
        ensures retained { (last : F) × Retains (AsksAccepted F.FnMut (Q.equivalent key)) f
            self.old.lists.pairs self.new.lists.pairs last }

        // Where each answer and each value depends on nothing but the value, they are filtered.
        ensures stepwise { (keep : V → Bool) (step : V → V) → AlwaysAnswers F.FnMut f keep step
            → self.new.lists.pairs ≡ kept_stepwise
            (λ k v. cond (Q.equivalent key k) (keep v) true)
            (λ k v. cond (Q.equivalent key k) (step v) v) self.old.lists.pairs }
        ensures keys { self.new.lists.keys
            ≡ keys_named_by K.eq self.old.lists.keys self.new.lists.pairs }
        ensures rooms { SameRooms self.old self.new }
        ensures taken { TakesOut (length self.old.lists.pairs - length self.new.lists.pairs)
            self.old.tape self.new.tape }
        ensures fewer { length self.new.lists.pairs ≤ length self.old.lists.pairs }
        ensures unchanged { is_present_where (Q.equivalent key) self.old.lists.pairs ≡ false
            → self.new ≡ self.old }
    {
        if let Some(place) = self.look_up(key).1 {
            retain_chain(&mut self.keys, &mut self.table, &mut self.values, place, f);
        }
    }
}
