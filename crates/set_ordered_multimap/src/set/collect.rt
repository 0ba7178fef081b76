//! The traits by which an iterator is collected into a set, and by which a set is extended.
ghost use Rattle.set_ordered_multimap.specs.Insertions.{ComesToAnEnd, ExtendsSet, InsertsPairs};
ghost use Rattle.set_ordered_multimap.specs.Insertions.{IsCollectedSet};

use super::SetOrderedMultimap;
use std::alloc::{AllocError, Allocator};
use std::hash::{BuildHasher, Hash};

/// Lets `pairs.collect(alloc)?` make a set of the pairs of an iterator, with a default hash
/// builder.
///
/// The pairs are inserted in order, so each is kept once, at its first occurrence. The set's own
/// [`from_iter`](SetOrderedMultimap::from_iter) takes a hash builder, and its error has the pair
/// for which an allocation fails.
///
/// # Errors
///
/// Returns [`AllocError`] if an allocation fails. The pairs that were read are dropped.
///
/// # Requires
///
/// The iterator ends.
///
/// # Examples
///
/// ```
/// use set_ordered_multimap::SetOrderedMultimap;
///
/// let pairs = [("plan", "draft"), ("note", "draft"), ("plan", "draft")].into_iter();
/// let set: SetOrderedMultimap<&str, &str> = pairs.collect(rt.alloc())?;
/// assert!(rt; set.iter().eq([(&"plan", &"draft"), (&"note", &"draft")]));
/// ```
impl<
    K: Eq + Hash + Drop,
    V: Eq + Drop,
    S: BuildHasher + Default + Drop,
    A: Allocator + Copy,
> FromIterator<(K, V)> for SetOrderedMultimap<K, V, S, A> {
    type Alloc = A;

    ghost from_iter_gives = { IsCollectedSet K.eq V.eq S.is_default };

    fn from_iter<I: IntoIterator<Item = (K, V)>>(alloc: A, iter: I) -> Result<Self, AllocError> {
        Ok(SetOrderedMultimap::from_iter(alloc, S::default(), iter)?)
    }
}

/// Inserts the pairs of an iterator, for generic code over collections.
///
/// It does what the set's own [`extend`](SetOrderedMultimap::extend) does, but its error doesn't
/// have the pair.
///
/// # Errors
///
/// Returns [`AllocError`] if an allocation fails. The pair is dropped, and those before it stay in
/// the set.
///
/// # Requires
///
/// The iterator ends.
///
/// # Examples
///
/// ```
/// use set_ordered_multimap::SetOrderedMultimap;
///
/// let mut set = SetOrderedMultimap::new(rt.alloc());
/// set.insert("plan", "draft")?;
/// Extend::extend(&mut set, [("note", "draft"), ("plan", "draft")])?;
/// assert!(rt; set.iter().eq([(&"plan", &"draft"), (&"note", &"draft")]));
/// ```
impl<K: Eq + Hash + Drop, V: Eq + Drop, S: BuildHasher, A: Allocator + Copy> Extend<(K, V)>
    for SetOrderedMultimap<K, V, S, A> {
    ghost extend_gives = { InsertsPairs K.eq V.eq };

    fn extend<I: IntoIterator<Item = (K, V)>>(&mut self, iter: I) -> Result<(), AllocError>
        requires { ComesToAnEnd I.into_iter_gives I.IntoIter.can_next I.IntoIter.remaining iter }
        ensures { ExtendsSet K.eq V.eq I.into_iter_gives I.IntoIter.next_gives iter
            self.old self.new result }
    {
        match SetOrderedMultimap::extend(self, iter) {
            Ok(()) => Ok(()),
            Err(refused) => Err(AllocError::from(refused)),
        }
    }
}
