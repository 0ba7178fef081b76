//! Empty maps, as code over any collection makes them.
ghost use Rattle.std.specs.Prelude.{IfOk};
ghost use Rattle.ordered_multimap.specs.Rooms.{IsNewMap};

use super::ListOrderedMultimap;
use std::alloc::{AllocError, Allocator};
use std::default::{Emptied, MadeWith};
use std::hash::{BuildHasher, Hash};

/// Makes the empty map that `mem::try_take` leaves in the place of a map, with a clone of the hash
/// builder and the same allocator. Only the clone may allocate.
impl<K: Eq + Hash, V, S: BuildHasher + Clone, A: Allocator + Copy> Emptied
    for ListOrderedMultimap<K, V, S, A> {
    ghost is_emptied = { IsNewMap };

    fn emptied(
        like: &ListOrderedMultimap<K, V, S, A>,
    ) -> Result<ListOrderedMultimap<K, V, S, A>, AllocError>
        ensures empty { IfOk result IsNewMap }
        ensures hasher { IfOk result (λ m. S.is_clone like.now.hasher m.hasher) }
    {
        let state = like.state.clone()?;
        Ok(ListOrderedMultimap::with_hasher(*like.keys.allocator(), state))
    }
}

/// Makes the empty map that `or_default` of another map's entry inserts. It doesn't allocate.
impl<K: Eq + Hash, V, S: BuildHasher + Default, A: Allocator + Copy> MadeWith<A>
    for ListOrderedMultimap<K, V, S, A> {
    ghost is_made_with = { λ m. IsNewMap m × S.is_default m.hasher };

    fn made_with(alloc: A) -> ListOrderedMultimap<K, V, S, A> {
        ListOrderedMultimap::with_hasher(alloc, S::default())
    }
}
