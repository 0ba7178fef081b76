//! A walk for writing that is dropped once it has given one value. The caller is proved by hand,
//! since a generated proof learns nothing of the loan of a walk. No test calls it: only a function
//! that is proved by hand can.
ghost use Rattle.std.specs.Prelude.{◌≡◌, ◌<◌, Some, length, option_map};
ghost use Rattle.std.specs.Borrow.{sem};
ghost use Rattle.ordered_multimap.specs.End.TheVariants.{Front};
ghost use Rattle.ordered_multimap.specs.Walk.{end_item};
ghost use Rattle.ordered_multimap.specs.WritingWalk.{values_mut_rest, LendsFirstValue};
ghost use Rattle.ordered_multimap_callers.specs.Ends.{ends_first_written};

use ordered_multimap::ListOrderedMultimap;
use ordered_multimap::laws::walks_are_exact;
use ordered_multimap::list_ordered_multimap::ValuesMut;
use std::alloc::Allocator;
use std::hash::{BuildHasher, Hash};

// The walk, and the first value that it had left.
fn first_of<'map, K, V, A: Allocator>(
    walk: ValuesMut<'map, K, V, A>,
) -> (ValuesMut<'map, K, V, A>, &'map mut V)
    requires { 0 < length (values_mut_rest walk) }
    ensures { LendsFirstValue walk.entry (Some result.1) result.0 }
{
    let mut walk = walk;
    match walk.next() {
        Some(first) => (walk, first),
        None => unreachable!(),
    }
}

/// The first pair's value, for writing, by a walk over all values that is dropped when it has given
/// that one. Once the reference has ended, the map has what was written there, and otherwise what
/// it had.
pub fn first_by_walk<'map, K: Eq + Hash + Drop, V: Drop, S: BuildHasher, A: Allocator>(
    map: &'map mut ListOrderedMultimap<K, V, S, A>,
) -> &'map mut V
    requires more { 0 < length map.old.lists.pairs }
    ensures* ends { sem 𝓛 (ends_first_written K.row V.row S.row map.entry result) }
    ensures value { option_map (λ p. p.1) (end_item Front map.old.lists.pairs) ≡ Some result.now }
{
    let walk = map.values_mut();
    let (_rest, first) = first_of(walk);
    walks_are_exact::<K, V, S, A>();
    first
}
