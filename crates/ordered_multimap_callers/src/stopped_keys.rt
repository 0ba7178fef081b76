//! A walk over keys for writing that is left once it has given one value of its next key. The
//! caller is proved by hand, since a generated proof learns nothing of the loan of a walk. No test
//! calls it: only a function that is proved by hand can.
ghost use Rattle.std.specs.Prelude.{◌≡◌, ◌<◌, IfSome, Some, length};
ghost use Rattle.std.specs.Borrow.{sem};
ghost use Rattle.multimap_walks.specs.Walk.{end_item};
ghost use Rattle.multimap_walks.specs.WritingWalk.{entry_values_mut_rest, LendsFirstOfKey};
ghost use Rattle.multimap_walks.specs.declared.End.TheVariants.{Front};
ghost use Rattle.ordered_multimap.specs.KeysLeft.{keys_left};
ghost use Rattle.ordered_multimap.specs.Pairs.{values_of};
ghost use Rattle.ordered_multimap_callers.specs.Ends.{ends_next_written};

use ordered_multimap::laws::inner_walks_are_exact;
use ordered_multimap::list_ordered_multimap::{EntryValuesMut, KeyValuesMut};
use std::alloc::Allocator;
use std::hash::{BuildHasher, Hash};

// The walk over one key's values, and the first value that it had left.
fn first_of_values<'map, K, V, A: Allocator>(
    walk: EntryValuesMut<'map, K, V, A>,
) -> (EntryValuesMut<'map, K, V, A>, &'map mut V)
    requires { 0 < length (entry_values_mut_rest walk) }
    ensures { LendsFirstOfKey walk.entry (Some result.1) result.0 }
{
    let mut walk = walk;
    match walk.next() {
        Some(first) => (walk, first),
        None => unreachable!(),
    }
}

/// The first value of the next key that a walk over keys gives, for writing. The walk over that
/// key's values is dropped when it has given that one. Once the reference has ended, the map has
/// what was written there as the first value of that key. All else in the map is as it was, and the
/// walk over keys has its other keys left.
pub fn first_of_next_key<'w, 'map, K: Eq + Hash + Drop, V: Drop, S: BuildHasher, A: Allocator>(
    walk: &'w mut KeyValuesMut<'map, K, V, S, A>,
) -> &'w mut V
    requires { 0 < length (keys_left walk.old) }
    ensures* ends { sem 𝓛 (ends_next_written K.row V.row S.row A.row S.Hasher.row A.Allocator
        walk.entry result) }
    ensures value { IfSome (end_item Front (keys_left walk.old)) (λ k. end_item Front
        (values_of K.eq walk.old.map.now.lists.pairs k) ≡ Some result.now) }
{
    match walk.next() {
        Some((_key, values)) => {
            let (_rest, first) = first_of_values(values);
            inner_walks_are_exact::<K, V, S, A>();
            first
        }
        None => unreachable!(),
    }
}
