//! Keeping the pairs, or the values of a key, for which a function returns true.
ghost use Rattle.std.specs.Prelude.{◌≡◌, Bool, cond, false, filter, true};
ghost use Rattle.ordered_multimap.specs.Pairs.{is_present_where, values_where};
ghost use Rattle.ordered_multimap.specs.Retain.{AsksAccepted, MayAskEach, Retains};
ghost use Rattle.set_ordered_multimap.specs.Asked.{AlwaysTells, AskedOnPair, AskedOnValue};
ghost use Rattle.set_ordered_multimap.specs.Asked.{AsksOfAccepted, AsksOnPair};
ghost use Rattle.set_ordered_multimap.specs.Private.Retain.{LosesSome};
ghost use Rattle.set_ordered_multimap.specs.SetChanges.{LosesPairs};

use super::SetOrderedMultimap;
use ordered_multimap::{KeyQuery, ListOrderedMultimap};
use std::alloc::Allocator;
use std::hash::{BuildHasher, Hash};
use std::marker::Model;

/// Tells which pairs stay: a trait of its own, since the borrow checker doesn't cover a closure that
/// calls a function of a type that is a parameter.
trait Keep<K, V>: Drop {
    /// It may be asked now, and after each time that it was asked.
    ghost lasts: { Self → Type 0 };

    /// Asked for a key and a value, it may return this, and be left as that.
    ghost gives: { Self → K → V → Bool → Self → Type 0 };

    /// Whether the pair stays.
    fn keeps(&mut self, key: &K, value: &V) -> bool
        requires { lasts self.old }
        ensures gives { gives self.old key.now value.now result self.new }
        ensures lasts { lasts self.new };
}

/// Tells which values of a key stay.
trait KeepValue<V>: Drop {
    /// It may be asked now, and after each time that it was asked.
    ghost lasts: { Self → Type 0 };

    /// Asked for a value, it may return this, and be left as that.
    ghost gives: { Self → V → Bool → Self → Type 0 };

    /// Whether the value stays.
    fn keeps_value(&mut self, value: &V) -> bool
        requires { lasts self.old }
        ensures gives { gives self.old value.now result self.new }
        ensures lasts { lasts self.new };
}

/// A function that is asked.
#[derive(Drop)]
struct KeepBy<F> {
    keep: F,
}

impl<F> Model for KeepBy<F> {
    ghost Value = { F };

    ghost view = { λ k. k.keep };
}

impl<K, V, F: FnMut(&K, &V) -> bool> Keep<K, V> for KeepBy<F> {
    ghost lasts = { λ f. F.IsAlwaysCallable f };

    ghost gives = { AskedOnPair F.FnMut };

    fn keeps(&mut self, key: &K, value: &V) -> bool {
        (self.keep)(key, value)
    }
}

impl<V, F: FnMut(&V) -> bool> KeepValue<V> for KeepBy<F> {
    ghost lasts = { λ f. F.IsAlwaysCallable f };

    ghost gives = { AskedOnValue F.FnMut };

    fn keeps_value(&mut self, value: &V) -> bool {
        (self.keep)(value)
    }
}

/// What `retain_values` asks of a query: less than `KeyQuery`, under all whose bounds a goal of its
/// closure grows past the prover's limit.
trait OfKey<K: Eq + Hash + Drop> {
    /// Whether it stands for a key.
    ghost accepts: { Self → K → Bool };

    /// Does what the map's call of this name does.
    fn retain_all<V: Drop, S: BuildHasher, A: Allocator, F: FnMut(&mut V) -> bool>(
        self,
        map: &mut ListOrderedMultimap<K, V, S, A>,
        f: F,
    )
        requires { MayAskEach F.FnMut f (values_where (accepts self) map.old.lists.pairs) }
        ensures retained { (last : F) × Retains (AsksAccepted F.FnMut (accepts self)) f
            map.old.lists.pairs map.new.lists.pairs last }
        ensures loses { LosesSome K.eq map.old map.new }
        ensures unchanged { is_present_where (accepts self) map.old.lists.pairs ≡ false
            → map.new ≡ map.old };
}

impl<K: Eq + Hash + Drop, Q: KeyQuery<K>> OfKey<K> for Q {
    ghost accepts = { Q.equivalent };

    fn retain_all<V: Drop, S: BuildHasher, A: Allocator, F: FnMut(&mut V) -> bool>(
        self,
        map: &mut ListOrderedMultimap<K, V, S, A>,
        f: F,
    ) {
        map.retain_all(self, f);
    }
}

/// Asks once for each value of the key, in the order of the pairs, and takes out those that don't
/// stay.
fn retain_values<
    K: Eq + Hash + Drop,
    V: Drop,
    S: BuildHasher,
    A: Allocator,
    Q: OfKey<K>,
    P: KeepValue<V>,
>(map: &mut ListOrderedMultimap<K, V, S, A>, key: Q, mut keep: P)
    requires { P.lasts keep }
    ensures retained { (last : P) × Retains (AsksOfAccepted P.gives (Q.accepts key)) keep
        map.old.lists.pairs map.new.lists.pairs last }
    ensures loses { LosesSome K.eq map.old map.new }
    ensures unchanged { is_present_where (Q.accepts key) map.old.lists.pairs ≡ false
        → map.new ≡ map.old }
{
    key.retain_all(
        map,
        move |value: &mut V| -> bool
            requires { P.lasts keep }
        { keep.keeps_value(value) },
    );
}

impl<K: Eq + Hash, V: Eq, S: BuildHasher, A: Allocator> SetOrderedMultimap<K, V, S, A> {
    /// Asks once for each pair, in the order of the pairs, and takes out those that don't stay.
    fn retain_by<P: Keep<K, V>>(&mut self, mut keep: P)
    where
        K: Drop,
        V: Drop,
        requires { P.lasts keep }
        ensures retained { (last : P)
            × Retains (λ p k v b w q. P.gives p k v b q × (w ≡ v)) keep
            self.old.lists.pairs self.new.lists.pairs last }
        ensures loses { LosesPairs K.eq V.eq self.old self.new }
    {
        self.map.retain(
            move |key: &K, value: &mut V| -> bool
                requires { P.lasts keep }
            { keep.keeps(key, value) },
        );
    }

    /// Keeps the pairs for which `f` returns `true`, and removes the others.
    ///
    /// `f` is called once on each pair, in their order. A key is dropped with its last pair.
    /// The pairs and keys that stay keep their order. For the values of one key see
    /// [`retain_all`](Self::retain_all). Unlike the map's `retain`, it gets each value
    /// for reading alone, since a written value could become equal to another one. The call doesn't
    /// allocate, and leaves the capacities as they are.
    ///
    /// # Complexity
    ///
    /// *O*(*n*) for the *n* pairs, and as many calls of `f`.
    ///
    /// # Requires
    ///
    /// `f` may be called on any pair, however often it was called.
    ///
    /// # Examples
    ///
    /// ```
    /// use set_ordered_multimap::SetOrderedMultimap;
    ///
    /// let mut set = SetOrderedMultimap::new(rt.alloc());
    /// set.insert("plan", "draft")?;
    /// set.insert("note", "draft")?;
    /// set.insert("plan", "long")?;
    /// set.retain(|_key, value| *value != "draft");
    /// assert!(rt; set.iter().eq([(&"plan", &"long")]));
    /// ```
    pub fn retain<F: FnMut(&K, &V) -> bool>(&mut self, f: F)
    where
        K: Drop,
        V: Drop,
        requires { F.IsAlwaysCallable f }
        ensures retained { (last : F) × Retains (AsksOnPair F.FnMut) f
            self.old.lists.pairs self.new.lists.pairs last }
        ensures loses { LosesPairs K.eq V.eq self.old self.new }
    {
        self.retain_by(KeepBy { keep: f });
    }

    /// Keeps the values of the key for which `f` returns `true`, and removes its others.
    ///
    /// `f` is called once on each value of the key, in the order of the pairs, and not at all if
    /// the key is absent. The key is dropped with its last value. All other pairs and keys stay as
    /// they are. Unlike the map's `retain_all`, it gets each value for reading alone, since a
    /// written value could become equal to another one. The call doesn't allocate, and leaves the
    /// capacities as they are. For the pairs of all keys see [`retain`](Self::retain), and to
    /// remove one pair [`remove_value`](Self::remove_value). The key may be a query ([`KeyQuery`]).
    ///
    /// # Complexity
    ///
    /// *O*(*v*) expected for the *v* values of the key, and as many calls of `f`.
    ///
    /// # Requires
    ///
    /// `f` may be called on any value, however often it was called.
    ///
    /// # Examples
    ///
    /// ```
    /// use set_ordered_multimap::SetOrderedMultimap;
    ///
    /// let mut set = SetOrderedMultimap::new(rt.alloc());
    /// set.insert("plan", "draft")?;
    /// set.insert("note", "draft")?;
    /// set.insert("plan", "long")?;
    /// set.retain_all("plan", |value| *value != "draft");
    /// assert!(rt; set.iter().eq([(&"note", &"draft"), (&"plan", &"long")]));
    /// ```
    pub fn retain_all<Q: KeyQuery<K>, F: FnMut(&V) -> bool>(&mut self, key: Q, f: F)
    where
        K: Drop,
        V: Drop,
        requires { F.IsAlwaysCallable f }
        ensures retained { (last : F)
            × Retains (AsksOfAccepted (AskedOnValue F.FnMut) (Q.equivalent key)) f
            self.old.lists.pairs self.new.lists.pairs last }

        // Where each answer depends on nothing but the value, the pairs of the key are filtered.
        ensures stepwise { (keep : V → Bool) → AlwaysTells (AskedOnValue F.FnMut) f keep
            → self.new.lists.pairs ≡ filter
            (λ p. cond (Q.equivalent key p.0) (keep p.1) true) self.old.lists.pairs }
        ensures loses { LosesPairs K.eq V.eq self.old self.new }
        ensures unchanged { is_present_where (Q.equivalent key) self.old.lists.pairs ≡ false
            → self.new ≡ self.old }
    {
        retain_values(&mut self.map, key, KeepBy { keep: f });
    }
}
