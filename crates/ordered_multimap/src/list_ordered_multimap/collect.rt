//! The traits by which an iterator is collected into a map, and by which a map is extended.
ghost use Rattle.std.specs.Iterator.{IsFinite};
ghost use Rattle.ordered_multimap.specs.Extends.{AppendsAll, Extends, ExtendsCopied};
ghost use Rattle.ordered_multimap.specs.Extends.{ExtendsInRoom, IsCollected, StoppedForRoom, lent_pair};

use super::ListOrderedMultimap;
use std::alloc::{AllocError, Allocator};
use std::hash::{BuildHasher, Hash};

/// Lets `pairs.collect(alloc)?` make a map of the pairs of an iterator, with a default hash
/// builder.
///
/// Each pair is added as by [`append`](ListOrderedMultimap::append). The map's own
/// [`from_iter`](ListOrderedMultimap::from_iter) takes a hash builder, and its error has the pair
/// for which an allocation fails.
///
/// # Errors
///
/// Returns [`AllocError`] if an allocation fails. The pairs that were read are dropped.
///
/// # Requires
///
/// The iterator is finite.
///
/// # Examples
///
/// ```
/// use ordered_multimap::ListOrderedMultimap;
///
/// let pairs = [("line", 1), ("page", 8), ("line", 2)].into_iter();
/// let map: ListOrderedMultimap<&str, u32> = pairs.collect(rt.alloc())?;
/// assert!(rt; map.iter().eq([(&"line", &1), (&"page", &8), (&"line", &2)]));
/// ```
impl<
    K: Eq + Hash + Drop,
    V: Drop,
    S: BuildHasher + Default + Drop,
    A: Allocator + Copy,
> FromIterator<(K, V)> for ListOrderedMultimap<K, V, S, A> {
    type Alloc = A;

    ghost from_iter_gives = { IsCollected K.eq S.is_default };

    fn from_iter<I: IntoIterator<Item = (K, V)>>(alloc: A, iter: I) -> Result<Self, AllocError> {
        Ok(ListOrderedMultimap::from_iter(alloc, S::default(), iter)?)
    }
}

/// Appends all pairs of an iterator, for generic code over collections.
///
/// It does what the map's own [`extend`](ListOrderedMultimap::extend) does, but its error doesn't
/// have the pair.
///
/// # Errors
///
/// Returns [`AllocError`] if an allocation fails. The pair is dropped, and those before it stay in
/// the map.
///
/// # Requires
///
/// The iterator is finite.
///
/// # Examples
///
/// ```
/// use ordered_multimap::ListOrderedMultimap;
///
/// let mut map = ListOrderedMultimap::new(rt.alloc());
/// map.append("line", 1)?;
/// Extend::extend(&mut map, [("page", 8), ("line", 2)])?;
/// assert!(rt; map.iter().eq([(&"line", &1), (&"page", &8), (&"line", &2)]));
/// ```
impl<K: Eq + Hash + Drop, V: Drop, S: BuildHasher, A: Allocator + Copy> Extend<(K, V)>
    for ListOrderedMultimap<K, V, S, A> {
    ghost extend_gives = { AppendsAll K.eq };

    fn extend<I: IntoIterator<Item = (K, V)>>(&mut self, iter: I) -> Result<(), AllocError>
        requires { (it : I.IntoIter) → I.into_iter_gives iter it
            → I.IntoIter.can_next it × IsFinite (I.IntoIter.remaining it) }
        ensures extends { ExtendsInRoom I.into_iter_gives I.IntoIter.next_gives
            I.IntoIter.remaining (AppendsAll K.eq) iter self.old self.new result }
        ensures stopped { StoppedForRoom K.eq (Extends K.eq I.into_iter_gives I.IntoIter.next_gives
            iter) self.old self.new result }
    {
        self.extend_in_room(iter)
    }
}

/// Appends a copy of each pair of an iterator, for generic code over collections.
///
/// It does what the map's own [`extend_copied`](ListOrderedMultimap::extend_copied) does, but its
/// error doesn't have the pair.
///
/// # Errors
///
/// Returns [`AllocError`] if an allocation fails. The pairs before it stay in the map.
///
/// # Requires
///
/// The iterator is finite.
///
/// # Examples
///
/// ```
/// use ordered_multimap::ListOrderedMultimap;
///
/// let mut other = ListOrderedMultimap::new(rt.alloc());
/// other.append("line", 2)?;
///
/// let mut map = ListOrderedMultimap::new(rt.alloc());
/// map.append("line", 1)?;
/// Extend::extend(&mut map, &other)?;
/// assert!(rt; map.get_all("line").eq(&[1, 2]));
/// ```
impl<'a, K: Eq + Hash + Copy + 'a, V: Copy + 'a, S: BuildHasher, A: Allocator + Copy> Extend<
    (&'a K, &'a V),
> for ListOrderedMultimap<K, V, S, A> {
    ghost use Rattle.std.specs.Prelude.{map};

    ghost extend_gives = { λ m items n. AppendsAll K.eq m (map lent_pair items) n };

    fn extend<I: IntoIterator<Item = (&'a K, &'a V)>>(&mut self, iter: I) -> Result<(), AllocError>
        requires { (it : I.IntoIter) → I.into_iter_gives iter it
            → I.IntoIter.can_next it × IsFinite (I.IntoIter.remaining it) }
        ensures extends { ExtendsInRoom I.into_iter_gives I.IntoIter.next_gives
            I.IntoIter.remaining (λ m items n. AppendsAll K.eq m (map lent_pair items) n)
            iter self.old self.new result }
        ensures stopped { StoppedForRoom K.eq (ExtendsCopied K.eq I.into_iter_gives
            I.IntoIter.next_gives iter) self.old self.new result }
    {
        self.extend_in_room(iter)
    }
}
