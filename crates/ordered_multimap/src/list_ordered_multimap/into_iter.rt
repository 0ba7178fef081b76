//! The iterator that takes a map apart.
ghost use Rattle.std.specs.Prelude.{◌≡◌, length, MatchOption};
ghost use Rattle.std.specs.Iterator.{at_most};
ghost use Rattle.std.specs.List.{filter_map};
ghost use Rattle.multimap_slots.specs.Lists.{IsIn, without};
ghost use Rattle.multimap_walks.specs.Chained.{pair_at, pairs_of};
ghost use Rattle.multimap_walks.specs.Walk.{TellsLength};
ghost use Rattle.ordered_multimap.specs.IntoIters.{HandsFirst, HandsLast, HandsOut, IsCounted, IsHanded};
ghost use Rattle.ordered_multimap.specs.Private.IntoIters.{IsCountedAt, GivesKey};

use super::links::set_link;
use super::lookup::slot_at;
use super::pop::place_at_end;
use super::show::show_left;
use super::{ListOrderedMultimap, UnclonedKey};
use multimap_slots::{SlotList, Tape};
use multimap_walks::{End, Iter, KeyLink, PackedLink, ValueLink};
use std::alloc::{Allocator, Global};
use std::fmt;
use std::hash::{BuildHasher, Hash};
use std::iter::FusedIterator;
use std::marker::Model;

/// An owning iterator over the pairs of a map, in their order.
///
/// This struct is created by the `into_iter` method of [`ListOrderedMultimap`]. It iterates from
/// both ends, and knows its length. Each item is a `Result`: a pair, or [`UnclonedKey`] with the
/// value alone. A key comes itself with the last of its values that is taken, and before that as a
/// clone. So a key with one value isn't cloned, and an item is an `UnclonedKey` only where a clone
/// ran out of memory while another value of the key was left. The iterator goes on after such an
/// item. Pairs that weren't taken are dropped with the iterator.
#[derive(Drop)]
pub struct IntoIter<K, V, A: Allocator = Global> {
    keys: SlotList<K, KeyLink, A>,
    values: Tape<V, ValueLink, A, PackedLink>,
}

impl<K, V, A: Allocator> Model for IntoIter<K, V, A> {
    ghost use Rattle.std.specs.Prelude.{List};
    ghost use Rattle.multimap_walks.specs.Chained.{pairs_of};
    ghost use Rattle.ordered_multimap.specs.IntoIters.{IsCounted};

    ghost Value = { List (K × V) };

    ghost view = { λ w. pairs_of w.keys w.values.list };

    ghost invariant = { λ w. IsCounted w.keys w.values.list };
}

impl<K: Eq + Hash + Clone, V: Drop, S: BuildHasher + Drop, A: Allocator> IntoIterator
    for ListOrderedMultimap<K, V, S, A> {
    type Item = Result<(K, V), UnclonedKey<V>>;

    type IntoIter = IntoIter<K, V, A>;

    ghost into_iter_gives = { λ m r. r ≡ m.lists.pairs };

    /// Consumes the map, and returns an iterator over its pairs, in their order.
    ///
    /// For the pairs by reference see [`iter`](Self::iter), and for the keys or the values alone,
    /// without a clone, [`into_keys`](Self::into_keys) and [`into_values`](Self::into_values).
    ///
    /// # Errors
    ///
    /// The call can't fail. Each item is a `Result`: an item whose key can't be cloned is
    /// [`UnclonedKey`] with the value, and the iterator goes on after it. A key is cloned only
    /// while another of its values is left. A clone that doesn't allocate, as that of a number or a
    /// `&str`, never fails.
    ///
    /// # Complexity
    ///
    /// *O*(1), and *O*(1) for each pair, with a clone of the key while another of its values is
    /// left.
    ///
    /// # Examples
    ///
    /// ```
    /// use ordered_multimap::ListOrderedMultimap;
    ///
    /// let mut map = ListOrderedMultimap::new(rt.alloc());
    /// map.append("line", 1)?;
    /// map.append("page", 8)?;
    /// map.append("line", 2)?;
    /// let mut sum: u32 = 0;
    /// for pair in map {
    ///     let (_key, value) = pair?;
    ///     sum = sum.saturating_add(value);
    /// }
    /// assert_eq!(rt; sum, 11);
    /// ```
    fn into_iter(self) -> IntoIter<K, V, A> {
        let ListOrderedMultimap {
            state: _state,
            keys,
            table: _table,
            values,
            left: _left,
        } = self;
        IntoIter { keys, values }
    }
}

impl<K, V, A: Allocator> IntoIter<K, V, A> {
    /// Returns an iterator over the pairs that are left, by reference.
    ///
    /// It clones no key, and this iterator goes on where it is.
    ///
    /// # Complexity
    ///
    /// *O*(1), and *O*(1) for each pair.
    ///
    /// # Examples
    ///
    /// ```
    /// use ordered_multimap::ListOrderedMultimap;
    ///
    /// let mut map = ListOrderedMultimap::new(rt.alloc());
    /// map.append("line", 1)?;
    /// map.append("page", 8)?;
    /// let mut pairs = map.into_iter();
    /// assert_eq!(rt; pairs.next(), Some(Ok(("line", 1))));
    /// assert!(rt; pairs.iter().eq([(&"page", &8)]));
    /// ```
    pub fn iter(&self) -> Iter<'_, K, V, A>
        ensures { result ≡ self.now }
    {
        Iter::new(&self.keys, &self.values)
    }
}

/// Takes the key at a listed place out with its last value. While it has others it counts one
/// less, and clones the key: `None` is a clone that ran out of memory.
fn give_key<K: Clone, A: Allocator>(keys: &mut SlotList<K, KeyLink, A>, place: usize) -> Option<K>
    requires { IsIn place keys.old.order }
    ensures { GivesKey K.is_clone K.is_infallible keys.old keys.new place result }
{
    let (_, link) = slot_at(keys, place);
    if link.length < 2 {
        let (key, _) = keys.take_listed(place);
        return Some(key);
    }
    set_link(
        keys,
        place,
        KeyLink {
            length: link.length - 1,
            ..link
        },
    );
    let (key, _) = slot_at(keys, place);
    key.clone().ok()
}

/// Takes the value at a listed place out, with its key or a clone of it.
#[tactic(auto, using(crate::proofs::Walks::TakenApart::pairs_left, crate::proofs::Walks::TakenApart::counted_left))]
fn give_pair<K: Clone, V, A: Allocator>(
    keys: &mut SlotList<K, KeyLink, A>,
    values: &mut Tape<V, ValueLink, A, PackedLink>,
    place: usize,
) -> Result<(K, V), UnclonedKey<V>>
    requires { IsCountedAt keys.old values.old.list place }
    ensures handed { MatchOption (pair_at keys.old values.old.list place) ⊥
        (IsHanded K.is_clone K.is_infallible (pairs_of keys.new values.new.list) result) }
    ensures pairs { pairs_of keys.new values.new.list
        ≡ filter_map (pair_at keys.old values.old.list) (without values.old.list.order place) }
    ensures counted { IsCounted keys.new values.new.list }
{
    let (value, link) = values.take_listed(place);
    match give_key(keys, link.key) {
        Some(key) => Ok((key, value)),
        None => Err(UnclonedKey { value }),
    }
}

impl<K: Clone, V: Drop, A: Allocator> IntoIter<K, V, A> {
    /// Hands out the pair at an end.
    #[inline(always)]
    fn hand_out(&mut self, end: End) -> Option<Result<(K, V), UnclonedKey<V>>>
        ensures { HandsOut K.is_clone K.is_infallible end self.old result self.new }
    {
        // The length tells the proof that the list is sound.
        let _values = self.values.len();
        let Some(place) = place_at_end(&self.values, end) else {
            return None;
        };
        Some(give_pair(&mut self.keys, &mut self.values, place))
    }
}

impl<K: Clone, V: Drop, A: Allocator> Iterator for IntoIter<K, V, A> {
    type Item = Result<(K, V), UnclonedKey<V>>;

    ghost next_gives = { HandsFirst K.is_clone K.is_infallible };

    ghost remaining = { λ s. at_most (length s) };

    fn next(&mut self) -> Option<Result<(K, V), UnclonedKey<V>>> {
        self.hand_out(End::Front)
    }

    fn size_hint(&self) -> (usize, Option<usize>)
        ensures { TellsLength result self.now }
    {
        self.iter().size_hint()
    }
}

impl<K: Clone, V: Drop, A: Allocator> DoubleEndedIterator for IntoIter<K, V, A> {
    ghost next_back_gives = { HandsLast K.is_clone K.is_infallible };

    fn next_back(&mut self) -> Option<Result<(K, V), UnclonedKey<V>>> {
        self.hand_out(End::Back)
    }
}

impl<K: Clone, V: Drop, A: Allocator> ExactSizeIterator for IntoIter<K, V, A> {
    fn len(&self) -> usize {
        self.iter().len()
    }
}

impl<K: Clone, V: Drop, A: Allocator> FusedIterator for IntoIter<K, V, A> {}

impl<K: fmt::Debug, V: fmt::Debug, A: Allocator> fmt::Debug for IntoIter<K, V, A> {
    fn fmt<W: fmt::Write>(&self, f: &mut fmt::Formatter<W>) -> fmt::Result {
        show_left(f, "IntoIter", self.iter())
    }
}
