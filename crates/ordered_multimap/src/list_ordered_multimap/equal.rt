//! Equality of maps.
ghost use Rattle.std.specs.Prelude.{◌≡◌, ◌&&◌};
ghost use Rattle.std.specs.Cmp.{and_equiv, and_per, on_equiv, on_per, partial_equiv_from_equiv};
ghost use Rattle.std.specs.Cmp.Lexicographic.{lists_equiv, lists_per};
ghost use Rattle.ordered_multimap.specs.Pairs.{same_pairs};

use super::ListOrderedMultimap;
use multimap_walks::Iter;
use std::alloc::Allocator;
use std::hash::{BuildHasher, Hash};

/// Whether two pairs have equal keys and equal values.
fn is_same<K: PartialEq, V: PartialEq>(key: &K, other_key: &K, value: &V, other_value: &V) -> bool
    ensures { result ≡ (K.eq key.now other_key.now && V.eq value.now other_value.now) }
{
    key == other_key && value == other_value
}

/// Whether two walks have the same number of pairs left, and equal pairs at each position.
fn are_same<K: PartialEq, V: PartialEq, A: Allocator>(
    left: Iter<'_, K, V, A>,
    mut right: Iter<'_, K, V, A>,
) -> bool
    ensures { result ≡ same_pairs K.eq V.eq left.entry right.entry }
{
    for (key, value) in left {
        match right.next() {
            Some((other_key, other_value)) => {
                if !is_same(key, other_key, value, other_value) {
                    return false;
                }
            }
            None => return false,
        }
    }
    right.next().is_none()
}

/// Two maps are equal if they have the same number of pairs, and equal keys and equal values at
/// each position in the order of the pairs.
///
/// The order of their keys may differ, and so may their capacities and the values of their hash
/// builders, which have one type.
///
/// # Complexity
///
/// *O*(*n*), where *n* is the number of pairs. It compares the lengths first, and then the pairs up
/// to the first difference.
///
/// # Examples
///
/// ```
/// use ordered_multimap::ListOrderedMultimap;
///
/// let mut map = ListOrderedMultimap::new(rt.alloc());
/// map.append("line", 1)?;
/// map.append("page", 8)?;
/// map.insert("line", 3)?;
///
/// let mut other = ListOrderedMultimap::new(rt.alloc());
/// other.append("page", 8)?;
/// assert!(rt; map != other);
/// other.append("line", 3)?;
/// assert!(rt; map == other);
/// assert!(rt; map.keys().eq(&["line", "page"]));
/// assert!(rt; other.keys().eq(&["page", "line"]));
/// ```
impl<K: Eq + Hash, V: PartialEq, S: BuildHasher, A: Allocator> PartialEq
    for ListOrderedMultimap<K, V, S, A> {
    ghost eq = { λ m n. same_pairs K.eq V.eq m.lists.pairs n.lists.pairs };

    ghost laws = { on_per (λ m. m.lists.pairs) (lists_per
        (and_per (on_per (λ p. p.0) (partial_equiv_from_equiv K.Eq.laws))
        (on_per (λ p. p.1) V.laws))) };

    fn eq(&self, other: &Self) -> bool {
        self.values_len() == other.values_len() && are_same(self.iter(), other.iter())
    }
}

impl<K: Eq + Hash, V: Eq, S: BuildHasher, A: Allocator> Eq for ListOrderedMultimap<K, V, S, A> {
    ghost laws = { on_equiv (λ m. m.lists.pairs) (lists_equiv
        (and_equiv (on_equiv (λ p. p.0) K.Eq.laws) (on_equiv (λ p. p.1) V.Eq.laws))) };
}
