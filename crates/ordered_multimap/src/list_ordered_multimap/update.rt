//! Writing values by a function: those of all pairs, and those of a key.
ghost use Rattle.std.specs.Prelude.{◌≡◌, ℕ, if◌then◌else◌, true, Some, map as each};
ghost use Rattle.std.specs.Map.Calls.{CallableOnEachPair};
ghost use Rattle.multimap_slots.specs.Lists.{IsIn};
ghost use Rattle.multimap_slots.specs.Slots.{item_at};
ghost use Rattle.multimap_walks.specs.Chained.{chain_of, pair_at, pairs_of, values_at};
ghost use Rattle.ordered_multimap.specs.Agrees.{Agrees};
ghost use Rattle.ordered_multimap.specs.Pairs.{values_of};
ghost use Rattle.ordered_multimap.specs.Retain.{Retains};
ghost use Rattle.ordered_multimap.specs.Private.Retain.{Asks, IsOwnedAt};
ghost use Rattle.ordered_multimap.specs.Rooms.{SameNumbers};
ghost use Rattle.ordered_multimap.specs.Private.Update.{KeepsAgreed, RewritesAt, RewritesOne};
ghost use Rattle.ordered_multimap.specs.Updates.{AlwaysLeaves, MayUpdate, Updates};
ghost use Rattle.ordered_multimap.specs.Updates.{AlwaysRewrites, CallableOnEach, MayRewrite};
ghost use Rattle.ordered_multimap.specs.Updates.{UpdatesKey};

use super::ListOrderedMultimap;
use super::lookup::{slot_at, value_at};
use multimap_slots::{SlotList, Tape};
use multimap_table::KeyTable;
use multimap_walks::{KeyLink, PackedLink, ValueLink};
use std::alloc::Allocator;
use std::hash::{BuildHasher, Hash};

/// Calls the function on the pair at a listed place.
fn update_at<K, V, A: Allocator, F: FnMut(&K, &mut V)>(
    keys: &SlotList<K, KeyLink, A>,
    values: &mut Tape<V, ValueLink, A, PackedLink>,
    f: &mut F,
    place: usize,
)
    requires owned { IsOwnedAt keys.now values.old.list place }
    requires callable { (k : K) (v : V) → pair_at keys.now values.old.list place ≡ Some (k, v)
        → MayUpdate F.FnMut f.old k v }
    ensures { Asks (Updates F.FnMut) keys.now values.old values.new place f.old true f.new }
{
    let (_, link) = value_at(values, place);
    let (key, _) = slot_at(keys, link.key);
    f(key, values.get_listed_mut(place));
}

/// Calls the function on each pair in turn.
fn update_pairs<K: Eq, V, A: Allocator, F: FnMut(&K, &mut V)>(
    keys: &SlotList<K, KeyLink, A>,
    table: &KeyTable<A>,
    values: &mut Tape<V, ValueLink, A, PackedLink>,
    mut f: F,
)
    requires agrees { (hash : K → ℕ)
        × Agrees K.eq hash keys.now table.now.rows values.old.list }
    requires callable { CallableOnEachPair (Updates F.FnMut) (MayUpdate F.FnMut) f
        (pairs_of keys.now values.old.list) }
    ensures kept { KeepsAgreed K.eq keys.now table.now.rows values.old values.new }
    ensures updated { (last : F) × Retains (Updates F.FnMut) f
        (pairs_of keys.now values.old.list) (pairs_of keys.now values.new.list) last }
{
    let mut following = values.front_place();
    while let Some(place) = following {
        following = values.next_listed_place(place);
        update_at(keys, values, &mut f, place);
    }
}

/// Calls the function on the value at a listed place, and returns the place of the next value of
/// its key.
fn rewrite_at<V, A: Allocator, F: FnMut(&mut V)>(
    values: &mut Tape<V, ValueLink, A, PackedLink>,
    f: &mut F,
    place: usize,
) -> Option<usize>
    requires listed { IsIn place values.old.list.order }
    requires callable { (v : V) → item_at values.old.list place ≡ Some v
        → MayRewrite F.FnMut f.old v }
    ensures { RewritesOne F.FnMut values.old values.new place f.old f.new result }
{
    let (_, link) = value_at(values, place);
    f(values.get_listed_mut(place));
    link.next
}

/// Calls the function on each value of the key at the place, in turn.
fn rewrite_chain<K: Eq, V, A: Allocator, F: FnMut(&mut V)>(
    keys: &SlotList<K, KeyLink, A>,
    table: &KeyTable<A>,
    values: &mut Tape<V, ValueLink, A, PackedLink>,
    key_place: usize,
    mut f: F,
)
    requires listed { IsIn key_place keys.now.order }
    requires agrees { (hash : K → ℕ)
        × Agrees K.eq hash keys.now table.now.rows values.old.list }
    requires callable { CallableOnEach F.FnMut f
        (values_at values.old.list (chain_of values.old.list key_place)) }
    ensures kept { KeepsAgreed K.eq keys.now table.now.rows values.old values.new }
    ensures rewritten { (last : F) × RewritesAt F.FnMut keys.now values.old.list key_place f
        (pairs_of keys.now values.new.list) last }
{
    let link = keys.listed_link(key_place);
    let mut following = Some(link.head);
    while let Some(place) = following {
        following = rewrite_at(values, &mut f, place);
    }
}

impl<K: Eq + Hash, V, S: BuildHasher, A: Allocator> ListOrderedMultimap<K, V, S, A> {
    /// Calls the function once on each pair, in the order of the pairs, with a mutable reference to
    /// the value.
    ///
    /// The keys, their order, and the number and order of the pairs stay the same. For the values
    /// of one key see [`update_all`](Self::update_all), and to remove pairs as well
    /// [`retain`](Self::retain). With [`iter_mut`](Self::iter_mut) a loop can stop early, begin at
    /// the back, or keep the references.
    ///
    /// Proved callers: see CALLING.md.
    ///
    /// # Complexity
    ///
    /// *O*(*n*), where *n* is the number of pairs. For each pair it reads the slots of the value
    /// and of its key. It doesn't allocate.
    ///
    /// # Requires
    ///
    /// The function's own `requires` clauses, if it has any, hold for each pair.
    ///
    /// # Examples
    ///
    /// ```
    /// use ordered_multimap::ListOrderedMultimap;
    ///
    /// let mut map = ListOrderedMultimap::new(rt.alloc());
    /// map.append("line", 1)?;
    /// map.append("page", 8)?;
    /// map.append("line", 2)?;
    /// map.update_values(|key, value| {
    ///     if *key == "line" {
    ///         *value = 7;
    ///     }
    /// });
    /// assert!(rt; map.iter().eq([(&"line", &7), (&"page", &8), (&"line", &7)]));
    /// ```
    pub fn update_values<F: FnMut(&K, &mut V)>(&mut self, f: F)
        requires { CallableOnEachPair (Updates F.FnMut) (MayUpdate F.FnMut) f
            self.old.lists.pairs }
        ensures updated { (last : F) × Retains (Updates F.FnMut) f
            self.old.lists.pairs self.new.lists.pairs last }
        ensures stepwise { (step : K → V → V) → AlwaysLeaves F.FnMut f step
            → self.new.lists.pairs ≡ each (λ p. (p.0, step p.0 p.1)) self.old.lists.pairs }
        ensures keys { self.new.lists.keys ≡ self.old.lists.keys }
        ensures numbers { SameNumbers self.old self.new }
    {
        update_pairs(&self.keys, &self.table, &mut self.values, f);
    }

    /// Calls the function once on each value of the key, in the order of the pairs, with a mutable
    /// reference to it.
    ///
    /// If the key is absent, the function isn't called. All else in the map stays the same. The key
    /// is a `&K`. For a query see [`get_all_mut`](Self::get_all_mut), with which a loop can also
    /// stop early, begin at the back, or keep the references. For the values of all pairs see
    /// [`update_values`](Self::update_values).
    ///
    /// Proved callers: see CALLING.md.
    ///
    /// # Complexity
    ///
    /// *O*(*v*) expected, where *v* is the number of values of the key. It reads the slots of the
    /// key and of its values, and no others. It doesn't allocate.
    ///
    /// # Requires
    ///
    /// The function's own `requires` clauses, if it has any, hold for each value of the key.
    ///
    /// # Examples
    ///
    /// ```
    /// use ordered_multimap::ListOrderedMultimap;
    ///
    /// let mut map = ListOrderedMultimap::new(rt.alloc());
    /// map.append("line", 1)?;
    /// map.append("page", 8)?;
    /// map.append("line", 2)?;
    /// map.update_all(&"line", |value| *value = 7);
    /// assert!(rt; map.iter().eq([(&"line", &7), (&"page", &8), (&"line", &7)]));
    /// ```
    pub fn update_all<F: FnMut(&mut V)>(&mut self, key: &K, f: F)
        requires { CallableOnEach F.FnMut f (values_of K.eq self.old.lists.pairs key.now) }
        ensures updated { (last : F) × UpdatesKey F.FnMut K.eq self.old.lists.pairs key.now f
            self.new.lists.pairs last }
        ensures stepwise { (step : V → V) → AlwaysRewrites F.FnMut f step
            → self.new.lists.pairs
            ≡ each (λ p. (p.0, if K.eq key.now p.0 then step p.1 else p.1)) self.old.lists.pairs }
        ensures keys { self.new.lists.keys ≡ self.old.lists.keys }
        ensures numbers { SameNumbers self.old self.new }
    {
        if let Some(place) = self.look_up(key).1 {
            rewrite_chain(&self.keys, &self.table, &mut self.values, place, f);
        }
    }
}
