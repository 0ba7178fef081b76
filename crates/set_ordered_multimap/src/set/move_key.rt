//! Moving a key to an end of the keys.
ghost use Rattle.std.specs.Prelude.{◌≡◌};
ghost use Rattle.ordered_multimap.specs.KeyMoves.{MovesKey, moved_to_back_where, moved_to_front_where};
ghost use Rattle.ordered_multimap.specs.Pairs.{is_present_where};
ghost use Rattle.set_ordered_multimap.specs.Set.{IsSet};

use super::SetOrderedMultimap;
use ordered_multimap::KeyQuery;
use std::alloc::Allocator;
use std::hash::{BuildHasher, Hash};

impl<K: Eq + Hash, V: Eq, S: BuildHasher, A: Allocator> SetOrderedMultimap<K, V, S, A> {
    /// Moves the key behind all other keys, and returns `true` if it was present.
    ///
    /// The other keys keep their order, and all pairs theirs. Returns `false`, and changes nothing,
    /// if the key is absent. To move it before all others see
    /// [`move_key_to_front`](Self::move_key_to_front). The key may be a query ([`KeyQuery`]).
    ///
    /// # Complexity
    ///
    /// *O*(1) expected.
    ///
    /// # Examples
    ///
    /// ```
    /// use set_ordered_multimap::SetOrderedMultimap;
    ///
    /// let mut set = SetOrderedMultimap::new(rt.alloc());
    /// set.insert("plan", "draft")?;
    /// set.insert("note", "draft")?;
    /// assert!(rt; set.move_key_to_back("plan"));
    /// assert!(rt; set.keys().eq(&["note", "plan"]));
    /// assert!(rt; set.iter().eq([(&"plan", &"draft"), (&"note", &"draft")]));
    /// ```
    pub fn move_key_to_back<Q: KeyQuery<K>>(&mut self, key: Q) -> bool
        ensures present { result ≡ is_present_where (Q.equivalent key) self.old.lists.pairs }
        ensures moved { MovesKey (Q.equivalent key)
            (moved_to_back_where (Q.equivalent key) self.old.lists) self.old self.new }
        ensures set { IsSet K.eq V.eq self.old.lists → IsSet K.eq V.eq self.new.lists }
    {
        self.map.move_key_to_back(key)
    }

    /// Moves the key before all other keys, and returns `true` if it was present.
    ///
    /// The other keys keep their order, and all pairs theirs. Returns `false`, and changes nothing,
    /// if the key is absent. To move it behind all others see
    /// [`move_key_to_back`](Self::move_key_to_back). The key may be a query ([`KeyQuery`]).
    ///
    /// # Complexity
    ///
    /// *O*(1) expected.
    ///
    /// # Examples
    ///
    /// ```
    /// use set_ordered_multimap::SetOrderedMultimap;
    ///
    /// let mut set = SetOrderedMultimap::new(rt.alloc());
    /// set.extend([("plan", "draft"), ("note", "draft")])?;
    /// assert!(rt; set.move_key_to_front("note"));
    /// assert!(rt; set.keys().eq(&["note", "plan"]));
    /// assert!(rt; set.iter().eq([(&"plan", &"draft"), (&"note", &"draft")]));
    /// assert!(rt; !set.move_key_to_front("gone"));
    /// ```
    pub fn move_key_to_front<Q: KeyQuery<K>>(&mut self, key: Q) -> bool
        ensures present { result ≡ is_present_where (Q.equivalent key) self.old.lists.pairs }
        ensures moved { MovesKey (Q.equivalent key)
            (moved_to_front_where (Q.equivalent key) self.old.lists) self.old self.new }
        ensures set { IsSet K.eq V.eq self.old.lists → IsSet K.eq V.eq self.new.lists }
    {
        self.map.move_key_to_front(key)
    }
}
