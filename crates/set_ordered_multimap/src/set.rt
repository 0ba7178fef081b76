//! The set: its field, its lengths and its capacities.
ghost use Rattle.std.specs.Prelude.{◌≡◌, length};
ghost use Rattle.set_ordered_multimap.specs.SetReads.{TellsEmpty, TellsKeys, TellsRoom};

mod append_set;
mod collect;
mod constructors;
mod insert;
mod insert_set;
mod lookup;
mod move_key;
mod pack;
mod pop;
mod pop_key;
mod remove;
mod rename_key;
mod reserve;
mod retain;
mod sort;
mod walks;
mod whole;

use ordered_multimap::ListOrderedMultimap;
use ordered_multimap::list_ordered_multimap::DefaultState;
use std::alloc::{Allocator, Global};
use std::hash::{BuildHasher, Hash};
use std::marker::Model;

/// A multimap that keeps its pairs in an order, and in which no pair occurs twice.
///
/// No two pairs have equal keys and equal values. Of equal pairs the set keeps the one that was
/// inserted first, and so it does of equal keys. The order of the pairs is the one in which they
/// were inserted, unless [`sort_by`](Self::sort_by) sorted them. The set returns no mutable
/// references to values, since a written value could become equal to another one of its key. See
/// the [crate's page](crate) for when to use it, and for what its calls cost.
///
/// # Examples
///
/// ```
/// use set_ordered_multimap::SetOrderedMultimap;
///
/// let mut set = SetOrderedMultimap::new(rt.alloc());
/// assert_eq!(rt; set.insert("plan", "draft"), Ok(true));
/// assert_eq!(rt; set.insert("plan", "long"), Ok(true));
/// assert_eq!(rt; set.insert("plan", "draft"), Ok(false));
/// assert!(rt; set.iter().eq([(&"plan", &"draft"), (&"plan", &"long")]));
/// ```
#[derive(Drop)]
pub struct SetOrderedMultimap<
    K: Eq + Hash,
    V,
    S: BuildHasher = DefaultState,
    A: Allocator = Global,
> {
    map: ListOrderedMultimap<K, V, S, A>,
}

impl<K: Eq + Hash, V, S: BuildHasher, A: Allocator> Model for SetOrderedMultimap<K, V, S, A> {
    ghost use Rattle.ordered_multimap.specs.Multimap.{Multimap, multimap_code};

    ghost Value = { Multimap K V S };

    ghost coded = { multimap_code K.code V.code S.code };

    ghost view = { λ s. s.map };
}

impl<K: Eq + Hash, V, S: BuildHasher, A: Allocator> SetOrderedMultimap<K, V, S, A> {
    /// Returns a reference to the allocator of the set.
    ///
    /// It is the one that the set was made with, of which the set takes its memory.
    ///
    /// # Complexity
    ///
    /// *O*(1).
    ///
    /// # Examples
    ///
    /// ```
    /// use set_ordered_multimap::SetOrderedMultimap;
    ///
    /// let mut set = SetOrderedMultimap::new(rt.alloc());
    /// set.insert("plan", "draft")?;
    /// let mut other = SetOrderedMultimap::new(*set.allocator());
    /// other.insert("plan", "draft")?;
    /// assert!(rt; other == set);
    /// ```
    pub fn allocator(&self) -> &A {
        self.map.allocator()
    }

    /// Returns a reference to the set's hash builder.
    ///
    /// # Complexity
    ///
    /// *O*(1).
    ///
    /// # Examples
    ///
    /// ```
    /// use ordered_multimap::DefaultState;
    /// use set_ordered_multimap::SetOrderedMultimap;
    /// use std::hash::BuildHasher;
    ///
    /// let set: SetOrderedMultimap<&str, u32> = SetOrderedMultimap::new(rt.alloc());
    /// assert_eq!(rt; set.hasher().hash_one(&"plan"), DefaultState::new().hash_one(&"plan"));
    /// ```
    pub fn hasher(&self) -> &S
        ensures { result.now ≡ self.now.hasher }
    {
        self.map.hasher()
    }

    /// Returns the number of keys in the set.
    ///
    /// For the number of pairs see [`values_len`](Self::values_len), and for the number of values
    /// of one key see [`entry_len`](Self::entry_len).
    ///
    /// # Complexity
    ///
    /// *O*(1).
    ///
    /// # Examples
    ///
    /// ```
    /// use set_ordered_multimap::SetOrderedMultimap;
    ///
    /// let mut set = SetOrderedMultimap::new(rt.alloc());
    /// set.insert("plan", "draft")?;
    /// set.insert("plan", "long")?;
    /// assert_eq!(rt; set.keys_len(), 1);
    /// ```
    pub fn keys_len(&self) -> usize
        ensures keys { TellsKeys K.eq self.now.lists result }
    {
        self.map.keys_len()
    }

    /// Returns the number of pairs in the set.
    ///
    /// # Complexity
    ///
    /// *O*(1).
    ///
    /// # Examples
    ///
    /// ```
    /// use set_ordered_multimap::SetOrderedMultimap;
    ///
    /// let mut set = SetOrderedMultimap::new(rt.alloc());
    /// set.insert("plan", "draft")?;
    /// set.insert("plan", "draft")?;
    /// set.insert("plan", "long")?;
    /// assert_eq!(rt; set.values_len(), 2);
    /// ```
    pub fn values_len(&self) -> usize
        ensures { result ≡ length self.now.lists.pairs }
    {
        self.map.values_len()
    }

    /// Returns `true` if the set has no pair.
    ///
    /// # Complexity
    ///
    /// *O*(1).
    ///
    /// # Examples
    ///
    /// ```
    /// use set_ordered_multimap::SetOrderedMultimap;
    ///
    /// let mut set = SetOrderedMultimap::new(rt.alloc());
    /// assert!(rt; set.is_empty());
    /// set.insert("plan", "draft")?;
    /// assert!(rt; !set.is_empty());
    /// ```
    pub fn is_empty(&self) -> bool
        ensures empty { TellsEmpty K.eq self.now.lists result }
    {
        self.map.is_empty()
    }

    /// Returns the number of keys that the set can hold without allocating.
    ///
    /// # Complexity
    ///
    /// *O*(1).
    ///
    /// # Examples
    ///
    /// ```
    /// use set_ordered_multimap::SetOrderedMultimap;
    ///
    /// let mut set = SetOrderedMultimap::new(rt.alloc());
    /// assert_eq!(rt; set.keys_capacity(), 0);
    /// set.insert("plan", "draft")?;
    /// assert!(rt; set.keys_capacity() >= 1);
    /// ```
    pub fn keys_capacity(&self) -> usize
        ensures room { TellsRoom self.now.key_room (length self.now.lists.keys) result }
    {
        self.map.keys_capacity()
    }

    /// Returns the number of pairs that the set can hold without allocating.
    ///
    /// # Complexity
    ///
    /// *O*(1).
    ///
    /// # Examples
    ///
    /// ```
    /// use set_ordered_multimap::SetOrderedMultimap;
    ///
    /// let mut set = SetOrderedMultimap::new(rt.alloc());
    /// assert_eq!(rt; set.values_capacity(), 0);
    /// set.insert("plan", "draft")?;
    /// assert!(rt; set.values_capacity() >= 1);
    /// ```
    pub fn values_capacity(&self) -> usize
        ensures room { TellsRoom self.now.value_room (length self.now.lists.pairs) result }
    {
        self.map.values_capacity()
    }
}
