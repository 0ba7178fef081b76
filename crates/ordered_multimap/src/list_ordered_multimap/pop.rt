//! Removing the pair at an end of the map.
ghost use Rattle.std.specs.Prelude.{◌≡◌, option_map};
ghost use Rattle.std.specs.Borrow.{sem};
ghost use Rattle.multimap_walks.specs.declared.End.TheVariants.{Front, Back};
ghost use Rattle.ordered_multimap.specs.Popped.{popped_pair};
ghost use Rattle.ordered_multimap.specs.PopAnswers.{IsPopped, IsTaken, IsTakenKey, popped_of, ends_same, ends_popped};
ghost use Rattle.ordered_multimap.specs.Private.RemoveOne.{end_of_list};

use super::lookup::slot_at;
use super::remove::one::{Taken, TakenKey, take_pair_at};
use super::{KeyWrapper, ListOrderedMultimap};
use multimap_slots::Tape;
use multimap_walks::{End, PackedLink, ValueLink};
use std::alloc::Allocator;
use std::hash::{BuildHasher, Hash};

/// The place of the value at an end.
pub(super) fn place_at_end<V, A: Allocator>(
    values: &Tape<V, ValueLink, A, PackedLink>,
    end: End,
) -> Option<usize>
    ensures { result ≡ end_of_list end values.now.list.order }
{
    match end {
        End::Front => values.front_place(),
        End::Back => values.back_place(),
    }
}

impl<K: Eq + Hash, V, S: BuildHasher, A: Allocator> ListOrderedMultimap<K, V, S, A> {
    /// Takes the pair at an end out.
    fn take_end(&mut self, end: End) -> Option<Taken<K, V>>
        ensures popped { IsPopped K.eq end self.old self.new }
        ensures taken { IsTaken self.new.slots.keys (popped_pair K.eq end self.old.lists.pairs)
            result }
    {
        match place_at_end(&self.values, end) {
            Some(place) => Some(take_pair_at(
                &mut self.keys,
                &mut self.table,
                &mut self.values,
                place,
            )),
            None => None,
        }
    }

    /// Takes the pair at an end out, as `take_end` does, and hands the map back.
    fn take_end_on(&mut self, end: End) -> (Option<Taken<K, V>>, &mut Self)
        ensures same_map { result.1.ghost_name ≡ self.entry.ghost_name }
        ensures popped { IsPopped K.eq end self.old result.1.now }
        ensures taken { IsTaken result.1.now.slots.keys
            (popped_pair K.eq end self.old.lists.pairs) result.0 }
    {
        let taken = self.take_end(end);
        (taken, self)
    }

    /// The map, which is only read from now on until the loan ends.
    fn as_shared(&mut self) -> &Self
        ensures* rest { sem 𝓛 (ends_same K.row V.row S.row A.row S.Hasher.row K.Hash
            S.BuildHasher S.Hasher.Hasher A.Allocator self.entry) }
        ensures same { result.now ≡ self.old }
    {
        self
    }

    /// The pair that was taken, if there is one, with its key.
    fn wrapped(&self, taken: Option<Taken<K, V>>) -> Option<(KeyWrapper<'_, K>, V)>
        requires { (p : _) × IsTaken self.now.slots.keys p taken }
        ensures { (p : _) → IsTaken self.now.slots.keys p taken → option_map popped_of result ≡ p }
    {
        match taken {
            Some(taken) => Some(self.wrapped_one(taken)),
            None => None,
        }
    }

    /// One pair that was taken, with its key.
    fn wrapped_one(&self, taken: Taken<K, V>) -> (KeyWrapper<'_, K>, V)
        requires { (p : _) × (taken.value ≡ p.value) × IsTakenKey self.now.slots.keys p taken.key }
        ensures { (p : _) → (taken.value ≡ p.value) → IsTakenKey self.now.slots.keys p taken.key
            → popped_of result ≡ p }
    {
        let Taken { key, value } = taken;
        match key {
            TakenKey::Kept(place) => {
                let (key, _) = slot_at(&self.keys, place);
                (KeyWrapper::Borrowed(key), value)
            }
            TakenKey::Gone(key) => (KeyWrapper::Owned(key), value),
        }
    }

    /// Takes the pair at an end out, and returns it with its key.
    fn pop_end(&mut self, end: End) -> Option<(KeyWrapper<'_, K>, V)>
        ensures* ends { sem 𝓛 (ends_popped K.row V.row S.row A.row S.Hasher.row K.Hash
            S.BuildHasher S.Hasher.Hasher A.Allocator end self.entry) }
        ensures popped { option_map popped_of result ≡ popped_pair K.eq end self.old.lists.pairs }
    {
        let (taken, map) = self.take_end_on(end);
        map.as_shared().wrapped(taken)
    }

    /// Removes the first pair and returns its key and its value, or `None` if the map is empty.
    ///
    /// If that was the last value of its key, the key is removed too, and returned as
    /// [`KeyWrapper::Owned`]. Otherwise the key keeps its place among the keys, and is returned by
    /// reference, as [`KeyWrapper::Borrowed`]. To read the pair without removing it see
    /// [`front`](Self::front), and to remove the first key with all its values
    /// [`pop_front_key`](Self::pop_front_key).
    ///
    /// No memory is freed: later additions reuse the slots.
    ///
    /// Proved callers: see CALLING.md.
    ///
    /// # Complexity
    ///
    /// *O*(1) expected. It reads and writes the slots of the value, of its key and of the next
    /// value of that key.
    ///
    /// # Examples
    ///
    /// ```
    /// use ordered_multimap::{KeyWrapper, ListOrderedMultimap};
    ///
    /// let mut map = ListOrderedMultimap::new(rt.alloc());
    /// map.append("line", 1)?;
    /// map.append("page", 8)?;
    /// map.append("line", 2)?;
    /// assert_eq!(rt; map.pop_front(), Some((KeyWrapper::Borrowed(&"line"), 1)));
    /// assert_eq!(rt; map.pop_front(), Some((KeyWrapper::Owned("page"), 8)));
    /// assert_eq!(rt; map.pop_front(), Some((KeyWrapper::Owned("line"), 2)));
    /// assert_eq!(rt; map.pop_front(), None);
    /// ```
    pub fn pop_front(&mut self) -> Option<(KeyWrapper<'_, K>, V)>
        ensures* ends { sem 𝓛 (ends_popped K.row V.row S.row A.row S.Hasher.row K.Hash
            S.BuildHasher S.Hasher.Hasher A.Allocator Front self.entry) }
        ensures popped { option_map popped_of result ≡ popped_pair K.eq Front self.old.lists.pairs }
    {
        self.pop_end(End::Front)
    }

    /// Removes the last pair and returns its key and its value, or `None` if the map is empty.
    ///
    /// If that was the last value of its key, the key is removed too, and returned as
    /// [`KeyWrapper::Owned`]. Otherwise the key keeps its place among the keys, and is returned by
    /// reference, as [`KeyWrapper::Borrowed`]. To read the pair without removing it see
    /// [`back`](Self::back), and to remove the last key with all its values
    /// [`pop_back_key`](Self::pop_back_key).
    ///
    /// No memory is freed: later additions reuse the slots.
    ///
    /// Proved callers: see CALLING.md.
    ///
    /// # Complexity
    ///
    /// *O*(1) expected. It reads and writes the slots of the value, of its key and of the previous
    /// value of that key.
    ///
    /// # Examples
    ///
    /// ```
    /// use ordered_multimap::{KeyWrapper, ListOrderedMultimap};
    ///
    /// let mut map = ListOrderedMultimap::new(rt.alloc());
    /// map.append("line", 1)?;
    /// map.append("page", 8)?;
    /// map.append("line", 2)?;
    /// assert_eq!(rt; map.pop_back(), Some((KeyWrapper::Borrowed(&"line"), 2)));
    /// assert_eq!(rt; map.pop_back(), Some((KeyWrapper::Owned("page"), 8)));
    /// assert!(rt; map.iter().eq([(&"line", &1)]));
    /// ```
    pub fn pop_back(&mut self) -> Option<(KeyWrapper<'_, K>, V)>
        ensures* ends { sem 𝓛 (ends_popped K.row V.row S.row A.row S.Hasher.row K.Hash
            S.BuildHasher S.Hasher.Hasher A.Allocator Back self.entry) }
        ensures popped { option_map popped_of result ≡ popped_pair K.eq Back self.old.lists.pairs }
    {
        self.pop_end(End::Back)
    }

    /// Removes the first pair, calls the function on the result of [`pop_front`](Self::pop_front),
    /// and returns what the function returns.
    ///
    /// It is for proved callers: see CALLING.md. Others use
    /// [`pop_front`](Self::pop_front).
    ///
    /// # Complexity
    ///
    /// That of [`pop_front`](Self::pop_front), plus the function's.
    ///
    /// # Requires
    ///
    /// The function's own `requires` clauses, if it has any, hold for that result.
    ///
    /// # Examples
    ///
    /// ```
    /// use ordered_multimap::ListOrderedMultimap;
    ///
    /// let mut map = ListOrderedMultimap::new(rt.alloc());
    /// map.append("line", 1)?;
    /// map.append("page", 8)?;
    /// let value = map.pop_front_with(|popped| popped.map(|(_key, value)| value));
    /// assert_eq!(rt; value, Some(1));
    /// assert!(rt; map.iter().eq([(&"page", &8)]));
    /// ```
    pub fn pop_front_with<R, F: FnOnce(Option<(KeyWrapper<'_, K>, V)>) -> R>(&mut self, f: F) -> R
        requires { (x : _) → option_map popped_of x ≡ popped_pair K.eq Front self.old.lists.pairs
            → F.pre f x }
        ensures popped { IsPopped K.eq Front self.old self.new }
        ensures result { (x : _)
            × (option_map popped_of x ≡ popped_pair K.eq Front self.old.lists.pairs)
            × F.post f x result }
    {
        self.pop_end_with(End::Front, f)
    }

    /// Removes the last pair, calls the function on the result of [`pop_back`](Self::pop_back), and
    /// returns what the function returns.
    ///
    /// It is for proved callers: see CALLING.md. Others use
    /// [`pop_back`](Self::pop_back).
    ///
    /// # Complexity
    ///
    /// That of [`pop_back`](Self::pop_back), plus the function's.
    ///
    /// # Requires
    ///
    /// The function's own `requires` clauses, if it has any, hold for that result.
    ///
    /// # Examples
    ///
    /// ```
    /// use ordered_multimap::ListOrderedMultimap;
    ///
    /// let mut map = ListOrderedMultimap::new(rt.alloc());
    /// map.append("line", 1)?;
    /// map.append("page", 8)?;
    /// let value = map.pop_back_with(|popped| popped.map(|(_key, value)| value));
    /// assert_eq!(rt; value, Some(8));
    /// assert!(rt; map.iter().eq([(&"line", &1)]));
    /// ```
    pub fn pop_back_with<R, F: FnOnce(Option<(KeyWrapper<'_, K>, V)>) -> R>(&mut self, f: F) -> R
        requires { (x : _) → option_map popped_of x ≡ popped_pair K.eq Back self.old.lists.pairs
            → F.pre f x }
        ensures popped { IsPopped K.eq Back self.old self.new }
        ensures result { (x : _)
            × (option_map popped_of x ≡ popped_pair K.eq Back self.old.lists.pairs)
            × F.post f x result }
    {
        self.pop_end_with(End::Back, f)
    }

    /// Removes the pair at an end, and calls the function with it.
    #[inline(always)]
    fn pop_end_with<R, F: FnOnce(Option<(KeyWrapper<'_, K>, V)>) -> R>(
        &mut self,
        end: End,
        f: F,
    ) -> R
        requires { (x : _) → option_map popped_of x ≡ popped_pair K.eq end self.old.lists.pairs
            → F.pre f x }
        ensures popped { IsPopped K.eq end self.old self.new }
        ensures result { (x : _)
            × (option_map popped_of x ≡ popped_pair K.eq end self.old.lists.pairs)
            × F.post f x result }
    {
        let taken = self.take_end(end);
        f(self.wrapped(taken))
    }
}
