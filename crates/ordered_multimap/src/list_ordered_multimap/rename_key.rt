//! Putting another key in the place of one.
ghost use Rattle.std.specs.Prelude.{◌≡◌, Some, false, find, is_none, length, IfSome};
ghost use Rattle.std.specs.FinMap as map;
ghost use Rattle.multimap_slots.specs.Lists.{IsIn};
ghost use Rattle.multimap_slots.specs.Slots.{link_at};
ghost use Rattle.multimap_table.specs.Table.{HasRow};
ghost use Rattle.ordered_multimap.specs.Agrees.{HasKey, hash_of};
ghost use Rattle.ordered_multimap.specs.Private.Renames.{ReplacesKey};
ghost use Rattle.ordered_multimap.specs.Renames.{RenamesKey, is_taken, rename_answer, renamed_where};
ghost use Rattle.ordered_multimap.specs.Rooms.{SameNumbers};

use super::links::set_link;
use super::{ListOrderedMultimap, RenameFault};
use crate::KeyQuery;
use multimap_slots::SlotList;
use multimap_table::KeyTable;
use multimap_walks::KeyLink;
use std::alloc::Allocator;
use std::hash::{BuildHasher, Hash};
use std::mem::replace;

/// Puts another key at the place, with its hash, and returns the one that stood there.
fn replace_key<K, A: Allocator>(
    keys: &mut SlotList<K, KeyLink, A>,
    table: &mut KeyTable<A>,
    place: usize,
    hash: u64,
    key: K,
) -> K
    requires listed { IsIn place keys.old.order }
    requires row { (l : KeyLink) → link_at keys.old place ≡ Some l → HasRow table.old place l.hash }
    requires counted { map.len table.old.rows ≡ length keys.old.order }
    ensures replaced { ReplacesKey keys.old keys.new table.old.rows table.new.rows place hash key
        result }
    ensures capacity { table.new.capacity ≡ table.old.capacity }
{
    let link = keys.listed_link(place);
    // It tells the proof that one more row fits once the old one has gone.
    let _room = table.capacity();
    table.remove(link.hash, place);
    table.insert(hash, place);
    let renamed = KeyLink {
        hash,
        head: link.head,
        tail: link.tail,
        length: link.length,
    };
    set_link(keys, place, renamed);
    replace(keys.get_listed_mut(place), key)
}

impl<K: Eq + Hash, V, S: BuildHasher, A: Allocator> ListOrderedMultimap<K, V, S, A> {
    /// Replaces the key by a new one that has all its values, and returns the old one.
    ///
    /// The new key stands at the place of the old one among the keys, and each pair at its place
    /// among the pairs. It may also be equal to the old one, as another spelling of it is. The key
    /// may be a query, as `&str` for `String` keys ([`KeyQuery`]). It doesn't allocate.
    ///
    /// # Errors
    ///
    /// Returns [`RenameFault::Absent`] if the key is absent, and else [`RenameFault::Taken`] if
    /// another key is equal to the new one, each with the new key. Nothing has changed then.
    ///
    /// # Complexity
    ///
    /// *O*(1) expected. No value is read or written.
    ///
    /// # Examples
    ///
    /// ```
    /// use ordered_multimap::{ListOrderedMultimap, RenameFault};
    ///
    /// let mut map = ListOrderedMultimap::new(rt.alloc());
    /// map.append("line", 1)?;
    /// map.append("page", 8)?;
    /// map.append("line", 2)?;
    /// assert!(rt; map.rename_key("line", "row") == Ok("line"));
    /// assert!(rt; map.iter().eq([(&"row", &1), (&"page", &8), (&"row", &2)]));
    /// assert!(rt; map.keys().eq(&["row", "page"]));
    /// assert!(rt; map.rename_key("row", "page") == Err(RenameFault::Taken("page")));
    /// assert!(rt; map.rename_key("line", "word") == Err(RenameFault::Absent("word")));
    /// ```
    pub fn rename_key<Q: KeyQuery<K>>(&mut self, key: Q, new_key: K) -> Result<K, RenameFault<K>>
        ensures answer { result
            ≡ rename_answer K.eq (Q.equivalent key) new_key self.old.lists.keys }
        ensures renamed { RenamesKey (Q.equivalent key) new_key self.old self.new result }
    {
        match self.look_up(key).1 {
            Some(place) => match self.hash_at(place, &new_key) {
                Some(hash) => Ok(self.rename_at(place, hash, new_key)),
                None => Err(RenameFault::Taken(new_key)),
            },
            None => Err(RenameFault::Absent(new_key)),
        }
    }

    /// The hash of a new key for the place, or none if the key of another place is equal to it.
    fn hash_at(&self, place: usize, key: &K) -> Option<u64>
        requires { IsIn place self.now.slots.keys.order }
        ensures hash { IfSome result (λ h. h ≡ hash_of S.BuildHasher S.Hasher.Hasher
            self.now.hasher (K.hash_input key.now)) }
        ensures taken { (k : K) → HasKey K.eq self.now.slots.keys k place
            → is_none result ≡ is_taken K.eq (K.eq k) key.now self.now.lists.keys }
    {
        // The field tells the proof that no two keys are equal.
        let _keys = &self.keys;
        let (hash, found) = self.look_up(key);
        match found {
            Some(other) => (other == place).then_some(hash),
            None => Some(hash),
        }
    }

    /// Puts another key at the place, which has this hash and is equal to no key of another place,
    /// and returns the one that stood there.
    fn rename_at(&mut self, place: usize, hash: u64, key: K) -> K
        requires listed { IsIn place self.old.slots.keys.order }
        requires hash { hash ≡ hash_of S.BuildHasher S.Hasher.Hasher self.old.hasher
            (K.hash_input key) }
        requires untaken { (k : K) → HasKey K.eq self.old.slots.keys k place
            → is_taken K.eq (K.eq k) key self.old.lists.keys ≡ false }
        ensures old { (k : K) → HasKey K.eq self.old.slots.keys k place
            → find (K.eq k) self.old.lists.keys ≡ Some result }
        ensures lists { (k : K) → HasKey K.eq self.old.slots.keys k place
            → self.new.lists ≡ renamed_where (K.eq k) key self.old.lists }
        ensures numbers { SameNumbers self.old self.new }
    {
        replace_key(&mut self.keys, &mut self.table, place, hash, key)
    }
}
