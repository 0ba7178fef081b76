//! `Entry::or_default`.
ghost use Rattle.std.specs.Prelude.{◌≡◌, IfErr, IfOk};
ghost use Rattle.std.specs.Borrow.{sem};
ghost use Rattle.std.specs.Option.{UnwrapsOrElse};
ghost use Rattle.ordered_multimap.specs.Entries.{FindsRoom, IsEntryOf, first_value};
ghost use Rattle.ordered_multimap.specs.EntryLends.{lends_entered};

use super::Entry;
use crate::list_ordered_multimap::Refused;
use std::alloc::Allocator;
use std::default::MadeWith;
use std::hash::{BuildHasher, Hash};

impl<'map, K: Eq + Hash, V: Drop, S: BuildHasher, A: Allocator + Copy> Entry<'map, K, V, S, A> {
    /// Returns a mutable reference to the key's first value, appending a default one if vacant.
    ///
    /// The value is made only if the entry is vacant: by [`Default`], or, of a collection, empty
    /// and with the map's allocator. The new pair comes last in both lists, as by
    /// [`or_insert_with`](Self::or_insert_with).
    ///
    /// # Errors
    ///
    /// If the entry is vacant and memory allocation fails, returns [`Refused`] with the key and the
    /// value that was made. Both lists are unchanged; capacities may have grown. An occupied entry
    /// never fails.
    ///
    /// # Complexity
    ///
    /// *O*(1) expected and amortized, without a lookup, and one value made at most.
    ///
    /// # Examples
    ///
    /// ```
    /// use ordered_multimap::ListOrderedMultimap;
    ///
    /// let mut map: ListOrderedMultimap<&str, u32> = ListOrderedMultimap::new(rt.alloc());
    /// map.append("line", 1)?;
    /// assert_eq!(rt; map.entry("line").or_default()?, &1);
    /// assert_eq!(rt; map.entry("page").or_default()?, &0);
    ///
    /// // Of a collection an empty one.
    /// let mut lists: ListOrderedMultimap<&str, Vec<u32>> = ListOrderedMultimap::new(rt.alloc());
    /// lists.entry("line").or_default()?.push(1)?;
    /// lists.entry("line").or_default()?.push(2)?;
    /// assert_eq!(rt; lists.get("line").map(|list| list.len()), Some(2));
    /// ```
    pub fn or_default(self) -> Result<&'map mut V, Refused<K, V>>
    where
        V: MadeWith<A>,
        ensures* writes_back { sem 𝓛 (lends_entered K.row V.row S.row A.row S.Hasher.row
            A.Allocator self.entry result) }
        ensures value { IfOk result (λ v. (k : K) → IsEntryOf self.entry k
            → UnwrapsOrElse (first_value self.entry k) V.is_made_with v.now) }
        ensures refused { IfErr result (λ pair. (k : K) → IsEntryOf self.entry k
            → (pair.key ≡ k) × V.is_made_with pair.value) }
        ensures succeeds { FindsRoom self.entry result }
    {
        match self {
            Entry::Occupied(occupied) => Ok(occupied.into_mut()),
            Entry::Vacant(entry) => {
                let value = V::made_with(*entry.map.allocator());
                entry.insert(value)
            }
        }
    }
}
