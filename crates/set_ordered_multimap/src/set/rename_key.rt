//! Putting another key in the place of one.
ghost use Rattle.std.specs.Prelude.{◌≡◌};
ghost use Rattle.ordered_multimap.specs.Renames.{RenamesKey, rename_answer};
ghost use Rattle.set_ordered_multimap.specs.Set.{IsSet};

use super::SetOrderedMultimap;
use ordered_multimap::KeyQuery;
use ordered_multimap::list_ordered_multimap::RenameFault;
use std::alloc::Allocator;
use std::hash::{BuildHasher, Hash};

impl<K: Eq + Hash, V: Eq, S: BuildHasher, A: Allocator> SetOrderedMultimap<K, V, S, A> {
    /// Replaces the key by a new one that has all its values, and returns the old one.
    ///
    /// The new key stands at the place of the old one among the keys, and each pair at its place
    /// among the pairs. It may also be equal to the old one, as another spelling of it is. Two keys
    /// never become one, so each pair still occurs once. The key may be a query, as a `&str` for
    /// `String` keys ([`KeyQuery`]). The call doesn't allocate.
    ///
    /// # Errors
    ///
    /// Returns [`RenameFault::Absent`] if the key is absent, and else [`RenameFault::Taken`] if
    /// another key is equal to the new one, each with the new key. Nothing has changed then.
    ///
    /// # Complexity
    ///
    /// *O*(1) expected. No value is read or written.
    ///
    /// # Examples
    ///
    /// ```
    /// use ordered_multimap::RenameFault;
    /// use set_ordered_multimap::SetOrderedMultimap;
    ///
    /// let mut set = SetOrderedMultimap::new(rt.alloc());
    /// set.insert("plan", "draft")?;
    /// set.insert("note", "draft")?;
    /// assert!(rt; set.rename_key("plan", "book") == Ok("plan"));
    /// assert!(rt; set.iter().eq([(&"book", &"draft"), (&"note", &"draft")]));
    /// assert!(rt; set.keys().eq(&["book", "note"]));
    /// assert!(rt; set.rename_key("book", "note") == Err(RenameFault::Taken("note")));
    /// assert!(rt; set.rename_key("plan", "word") == Err(RenameFault::Absent("word")));
    /// ```
    pub fn rename_key<Q: KeyQuery<K>>(&mut self, key: Q, new_key: K) -> Result<K, RenameFault<K>>
        ensures answer { result
            ≡ rename_answer K.eq (Q.equivalent key) new_key self.old.lists.keys }
        ensures renamed { RenamesKey (Q.equivalent key) new_key self.old self.new result }
        ensures set { IsSet K.eq V.eq self.old.lists → IsSet K.eq V.eq self.new.lists }
    {
        // The number tells the proof that the key of each pair is listed.
        let _keys = self.map.keys_len();
        self.map.rename_key(key, new_key)
    }
}
