//! Moving a key to an end of the keys.
ghost use Rattle.std.specs.Prelude.{◌≡◌};
ghost use Rattle.multimap_slots.specs.Lists.{IsIn};
ghost use Rattle.ordered_multimap.specs.Agrees.{HasKey};
ghost use Rattle.ordered_multimap.specs.KeyMoves.{MovesKey, moved_to_back_where, moved_to_front_where};
ghost use Rattle.ordered_multimap.specs.Pairs.{is_present_where};
ghost use Rattle.ordered_multimap.specs.Private.KeyMoves.{moved_place, moved_to_end};
ghost use Rattle.ordered_multimap.specs.Rooms.{SameNumbers};

use super::ListOrderedMultimap;
use crate::KeyQuery;
use multimap_slots::SlotList;
use multimap_walks::{End, KeyLink};
use std::alloc::Allocator;
use std::hash::{BuildHasher, Hash};

impl<K: Eq + Hash, V, S: BuildHasher, A: Allocator> ListOrderedMultimap<K, V, S, A> {
    /// Moves the key behind all other keys, and returns `true` if it was present.
    ///
    /// The other keys keep their order, and all pairs theirs: [`iter`](Self::iter),
    /// [`front`](Self::front) and [`pop_front`](Self::pop_front) give what they gave before. Returns
    /// `false`, and changes nothing, if the key is absent. The key may be a query, as `&str` for
    /// `String` keys ([`KeyQuery`]).
    ///
    /// To move it before all others see [`move_key_to_front`](Self::move_key_to_front), and to take
    /// the first key out [`pop_front_key`](Self::pop_front_key).
    ///
    /// # Complexity
    ///
    /// *O*(1) expected.
    ///
    /// # Examples
    ///
    /// ```
    /// use ordered_multimap::ListOrderedMultimap;
    ///
    /// let mut map = ListOrderedMultimap::new(rt.alloc());
    /// map.append("line", 1)?;
    /// map.append("page", 8)?;
    /// map.append("word", 5)?;
    /// assert!(rt; map.move_key_to_back("line"));
    /// assert!(rt; map.keys().eq(&["page", "word", "line"]));
    /// assert!(rt; map.iter().eq([(&"line", &1), (&"page", &8), (&"word", &5)]));
    /// assert!(rt; !map.move_key_to_back("char"));
    /// ```
    pub fn move_key_to_back<Q: KeyQuery<K>>(&mut self, key: Q) -> bool
        ensures present { result ≡ is_present_where (Q.equivalent key) self.old.lists.pairs }
        ensures moved { MovesKey (Q.equivalent key)
            (moved_to_back_where (Q.equivalent key) self.old.lists) self.old self.new }
    {
        self.move_to_end(End::Back, key)
    }

    /// Moves the key before all other keys, and returns `true` if it was present.
    ///
    /// The other keys keep their order, and all pairs theirs: [`iter`](Self::iter) gives what it gave
    /// before. Returns `false`, and changes nothing, if the key is absent. The key may be a query
    /// ([`KeyQuery`]).
    ///
    /// To move it behind all others see [`move_key_to_back`](Self::move_key_to_back).
    ///
    /// # Complexity
    ///
    /// *O*(1) expected.
    ///
    /// # Examples
    ///
    /// ```
    /// use ordered_multimap::ListOrderedMultimap;
    ///
    /// let mut map = ListOrderedMultimap::new(rt.alloc());
    /// map.append("line", 1)?;
    /// map.append("page", 8)?;
    /// map.append("word", 5)?;
    /// assert!(rt; map.move_key_to_front("word"));
    /// assert!(rt; map.keys().eq(&["word", "line", "page"]));
    /// assert!(rt; map.iter().eq([(&"line", &1), (&"page", &8), (&"word", &5)]));
    /// assert!(rt; !map.move_key_to_front("char"));
    /// ```
    pub fn move_key_to_front<Q: KeyQuery<K>>(&mut self, key: Q) -> bool
        ensures present { result ≡ is_present_where (Q.equivalent key) self.old.lists.pairs }
        ensures moved { MovesKey (Q.equivalent key)
            (moved_to_front_where (Q.equivalent key) self.old.lists) self.old self.new }
    {
        self.move_to_end(End::Front, key)
    }

    /// Moves the key to an end of the keys, and returns `true` if it was present.
    #[inline(always)]
    fn move_to_end<Q: KeyQuery<K>>(&mut self, end: End, key: Q) -> bool
        ensures present { result ≡ is_present_where (Q.equivalent key) self.old.lists.pairs }
        ensures moved { MovesKey (Q.equivalent key)
            (moved_to_end end (Q.equivalent key) self.old.lists) self.old self.new }
    {
        match self.look_up(key).1 {
            Some(place) => {
                self.move_at(end, place);
                true
            }
            None => false,
        }
    }

    /// Moves the key at the place to an end of the keys.
    #[inline(always)]
    fn move_at(&mut self, end: End, place: usize)
        requires { IsIn place self.old.slots.keys.order }
        ensures lists { (k : K) → HasKey K.eq self.old.slots.keys k place
            → self.new.lists ≡ moved_to_end end (K.eq k) self.old.lists }
        ensures numbers { SameNumbers self.old self.new }
    {
        move_place(&mut self.keys, end, place);
    }
}

/// Lists the place first or last.
#[inline(always)]
fn move_place<K, A: Allocator>(keys: &mut SlotList<K, KeyLink, A>, end: End, place: usize)
    requires { IsIn place keys.old.order }
    ensures { keys.new ≡ record keys.old { order = moved_place end keys.old.order place } }
{
    match end {
        End::Front => keys.move_to_front(place),
        End::Back => keys.move_to_back(place),
    }
}
