//! Removals of the first and of the last pair.
ghost use Rattle.std.specs.Borrow.{sem};
ghost use Rattle.ordered_multimap.specs.End.TheVariants.{Front, Back};
ghost use Rattle.set_ordered_multimap.specs.Asked.{AnswersPopped, GivesPopped, TakesPopped};
ghost use Rattle.set_ordered_multimap.specs.SetChanges.{LosesEnd};
ghost use Rattle.set_ordered_multimap.specs.SetLends.{ends_set_popped};

use super::SetOrderedMultimap;
use ordered_multimap::list_ordered_multimap::KeyWrapper;
use std::alloc::Allocator;
use std::hash::{BuildHasher, Hash};

impl<K: Eq + Hash, V, S: BuildHasher, A: Allocator> SetOrderedMultimap<K, V, S, A> {
    /// Removes the first pair, and returns its key and its value, or `None` if the set is empty.
    ///
    /// The key is [`KeyWrapper::Owned`] if that was its last value. Otherwise it is
    /// [`KeyWrapper::Borrowed`]: the key stays in the set, and keeps its place in the order of
    /// keys. The call doesn't allocate. To remove a pair by its key and value see
    /// [`remove_value`](Self::remove_value).
    ///
    /// Proved callers: see CALLING.md.
    ///
    /// # Complexity
    ///
    /// *O*(1) expected.
    ///
    /// # Examples
    ///
    /// ```
    /// use ordered_multimap::KeyWrapper;
    /// use set_ordered_multimap::SetOrderedMultimap;
    ///
    /// let mut set = SetOrderedMultimap::new(rt.alloc());
    /// set.insert("plan", "draft")?;
    /// set.insert("plan", "long")?;
    /// assert_eq!(rt; set.pop_front(), Some((KeyWrapper::Borrowed(&"plan"), "draft")));
    /// assert_eq!(rt; set.pop_front(), Some((KeyWrapper::Owned("plan"), "long")));
    /// assert_eq!(rt; set.pop_front(), None);
    /// ```
    pub fn pop_front(&mut self) -> Option<(KeyWrapper<'_, K>, V)>
        ensures* ends { sem 𝓛 (ends_set_popped K.row V.row S.row A.row S.Hasher.row K.Hash
            S.BuildHasher S.Hasher.Hasher A.Allocator Front self.entry) }
        ensures popped { GivesPopped K.eq Front self.old.lists.pairs result }
    {
        let map = self.lend();
        map.pop_front()
    }

    /// Removes the last pair, and returns its key and its value, or `None` if the set is empty.
    ///
    /// The key is owned or borrowed as that of [`pop_front`](Self::pop_front). The call doesn't
    /// allocate.
    ///
    /// Proved callers: see CALLING.md.
    ///
    /// # Complexity
    ///
    /// *O*(1) expected.
    ///
    /// # Examples
    ///
    /// ```
    /// use ordered_multimap::KeyWrapper;
    /// use set_ordered_multimap::SetOrderedMultimap;
    ///
    /// let mut set = SetOrderedMultimap::new(rt.alloc());
    /// set.extend([("plan", "draft"), ("note", "draft"), ("plan", "long")])?;
    /// assert_eq!(rt; set.pop_back(), Some((KeyWrapper::Borrowed(&"plan"), "long")));
    /// assert_eq!(rt; set.pop_back(), Some((KeyWrapper::Owned("note"), "draft")));
    /// assert!(rt; set.keys().eq(&["plan"]));
    /// ```
    pub fn pop_back(&mut self) -> Option<(KeyWrapper<'_, K>, V)>
        ensures* ends { sem 𝓛 (ends_set_popped K.row V.row S.row A.row S.Hasher.row K.Hash
            S.BuildHasher S.Hasher.Hasher A.Allocator Back self.entry) }
        ensures popped { GivesPopped K.eq Back self.old.lists.pairs result }
    {
        let map = self.lend();
        map.pop_back()
    }
}

impl<K: Eq + Hash, V: Eq, S: BuildHasher, A: Allocator> SetOrderedMultimap<K, V, S, A> {
    /// Removes the first pair, and returns the result of `f` on what `pop_front` returns.
    ///
    /// It is for proved callers; others take [`pop_front`](Self::pop_front), which costs the same.
    /// See CALLING.md.
    ///
    /// # Complexity
    ///
    /// *O*(1) expected, and one call of `f`.
    ///
    /// # Requires
    ///
    /// `f` may be called on the first pair, or on `None` if the set is empty.
    ///
    /// # Examples
    ///
    /// ```
    /// use set_ordered_multimap::SetOrderedMultimap;
    ///
    /// let mut set = SetOrderedMultimap::new(rt.alloc());
    /// set.insert("plan", "draft")?;
    /// let is_some = set.pop_front_with(|popped| popped.is_some());
    /// assert!(rt; is_some);
    /// assert!(rt; set.is_empty());
    /// ```
    pub fn pop_front_with<R, F: FnOnce(Option<(KeyWrapper<'_, K>, V)>) -> R>(&mut self, f: F) -> R
        requires { TakesPopped F.FnOnce K.eq Front self.old.lists.pairs f }
        ensures popped { LosesEnd K.eq V.eq self.old self.new Front }
        ensures result { AnswersPopped F.FnOnce K.eq Front self.old.lists.pairs f result }
    {
        self.map.pop_front_with(f)
    }

    /// Removes the last pair, and returns the result of `f` on what `pop_back` returns.
    ///
    /// It is for proved callers; others take [`pop_back`](Self::pop_back), which costs the same.
    /// See CALLING.md.
    ///
    /// # Complexity
    ///
    /// *O*(1) expected, and one call of `f`.
    ///
    /// # Requires
    ///
    /// `f` may be called on the last pair, or on `None` if the set is empty.
    ///
    /// # Examples
    ///
    /// ```
    /// use set_ordered_multimap::SetOrderedMultimap;
    ///
    /// let mut set = SetOrderedMultimap::new(rt.alloc());
    /// set.insert("plan", "draft")?;
    /// set.insert("note", "draft")?;
    /// let is_some = set.pop_back_with(|popped| popped.is_some());
    /// assert!(rt; is_some);
    /// assert!(rt; set.keys().eq(&["plan"]));
    /// ```
    pub fn pop_back_with<R, F: FnOnce(Option<(KeyWrapper<'_, K>, V)>) -> R>(&mut self, f: F) -> R
        requires { TakesPopped F.FnOnce K.eq Back self.old.lists.pairs f }
        ensures popped { LosesEnd K.eq V.eq self.old self.new Back }
        ensures result { AnswersPopped F.FnOnce K.eq Back self.old.lists.pairs f result }
    {
        self.map.pop_back_with(f)
    }
}
