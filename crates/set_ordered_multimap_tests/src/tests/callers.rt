//! Proved callers of the set: each says by its own clauses what the set is afterwards.
ghost use Rattle.std.specs.Prelude.{◌≡◌, cond, filter, nat_eq, nat_lt, true, false, OnOk, IfOk, OnErr, ◌&&◌, length};
ghost use Rattle.ordered_multimap.specs.Changes.{kept, removed_where};
ghost use Rattle.ordered_multimap.specs.End.TheVariants.{Front};
ghost use Rattle.ordered_multimap.specs.Popped.{popped};
ghost use Rattle.ordered_multimap.specs.Renames.{renamed_where};
ghost use Rattle.set_ordered_multimap.specs.Set.{IsSet, set_inserted, value_removed, all_inserted, has_pair_where};
ghost use Rattle.std.specs.Iterator.{IsFinite};
ghost use Rattle.set_ordered_multimap.specs.Insertions.{IsSetOf};
ghost use Rattle.ordered_multimap.specs.Lists.{empty_lists};
ghost use Rattle.ordered_multimap.specs.Rooms.{SameRooms};
ghost use Rattle.ordered_multimap.specs.Pairs.{values_where};

use ordered_multimap::KeyQuery;
use ordered_multimap::list_ordered_multimap::{DefaultState, Refused};
use set_ordered_multimap::SetOrderedMultimap;
use set_ordered_multimap::laws::insertions_keep_first_pairs;
use std::alloc::{AllocError, Allocator};
use std::hash::{BuildHasher, Hash};

/// Takes the first pair out, and returns its value.
pub fn take_first<K: Eq + Hash + Drop, V: Eq, S: BuildHasher, A: Allocator>(
    set: &mut SetOrderedMultimap<K, V, S, A>,
) -> Option<V>
    ensures lists { set.new.lists ≡ popped K.eq Front set.old.lists }
    ensures set { IsSet K.eq V.eq set.old.lists → IsSet K.eq V.eq set.new.lists }
{
    set.pop_front_with(|popped| match popped {
        Some((_key, value)) => Some(value),
        None => None,
    })
}

/// Puts a value of the key in the place of another one, or last where that one isn't there.
pub fn exchange<K: Eq + Hash + Copy, V: Eq + Drop, S: BuildHasher, A: Allocator + Copy>(
    set: &mut SetOrderedMultimap<K, V, S, A>,
    key: K,
    old: &V,
    new: V,
) -> Result<bool, Refused<K, V>>
    ensures ok { OnOk result (set.new.lists ≡ set_inserted K.eq V.eq
        (value_removed K.eq V.eq set.old.lists key old.now) key new) }
    ensures set { IsSet K.eq V.eq set.old.lists → IsSet K.eq V.eq set.new.lists }
{
    set.remove_value(&key, old);
    set.insert(key, new)
}

/// Inserts a pair where there is room for it. It is never refused then.
pub fn insert_in_room<K: Eq + Hash + Drop, V: Eq + Drop, S: BuildHasher, A: Allocator + Copy>(
    set: &mut SetOrderedMultimap<K, V, S, A>,
    key: K,
    value: V,
) -> bool
    ensures { result ≡ true → set.new.lists ≡ set_inserted K.eq V.eq set.old.lists key value }
{
    let has_room = set.keys_len() < set.keys_capacity() && set.values_len() < set.values_capacity();
    has_room && set.insert(key, value).is_ok()
}

/// Keeps the pairs with a value below the limit.
pub fn keep_below<S: BuildHasher, A: Allocator>(
    set: &mut SetOrderedMultimap<u32, u32, S, A>,
    limit: u32,
)
    ensures lists { set.new.lists
        ≡ kept nat_eq set.old.lists (filter (λ p. nat_lt p.1 limit) set.old.lists.pairs) }
    ensures set { IsSet nat_eq nat_eq set.old.lists → IsSet nat_eq nat_eq set.new.lists }
{
    set.retain(|_key, value| *value < limit);
}

/// Keeps the values of the key that are below the limit, and all pairs of other keys.
pub fn keep_values_below<S: BuildHasher, A: Allocator>(
    set: &mut SetOrderedMultimap<u32, u32, S, A>,
    key: u32,
    limit: u32,
)
    ensures pairs { set.new.lists.pairs ≡ filter
        (λ p. cond (nat_eq key p.0) (nat_lt p.1 limit) true) set.old.lists.pairs }
    ensures set { IsSet nat_eq nat_eq set.old.lists → IsSet nat_eq nat_eq set.new.lists }
{
    set.retain_all(&key, |value| *value < limit);
}

/// Inserts what the iterator gives into an empty set, by one call for each pair.
pub fn gathered<
    K: Eq + Hash + Drop,
    V: Eq + Drop,
    A: Allocator + Copy,
    I: IntoIterator<Item = (K, V)>,
>(alloc: A, iter: I) -> Result<SetOrderedMultimap<K, V, DefaultState, A>, AllocError>
    requires { (it : I.IntoIter) → I.into_iter_gives iter it
        → I.IntoIter.can_next it × IsFinite (I.IntoIter.remaining it) }
    ensures pairs { IfOk result (λ s.
        IsSetOf K.eq V.eq I.into_iter_gives I.IntoIter.next_gives iter s.lists) }
    ensures set { IfOk result (λ s. IsSet K.eq V.eq s.lists) }
{
    insertions_keep_first_pairs::<K, V>();
    let mut set = SetOrderedMultimap::new(alloc);
    for (key, value) in iter {
        set.insert(key, value)?;
    }
    Ok(set)
}

/// Inserts all pairs of the other set in turn, and empties it.
pub fn join<K: Eq + Hash + Drop, V: Eq + Drop, S: BuildHasher, T: BuildHasher, A: Allocator + Copy>(
    set: &mut SetOrderedMultimap<K, V, S, A>,
    other: &mut SetOrderedMultimap<K, V, T, A>,
) -> Result<(), AllocError>
    ensures lists { OnOk result (IsSet K.eq V.eq other.old.lists → set.new.lists
        ≡ all_inserted K.eq V.eq set.old.lists other.old.lists.pairs) }
    ensures emptied { OnOk result (other.new.lists ≡ empty_lists) }
    ensures unchanged { OnErr result (set.new.lists ≡ set.old.lists) }
    ensures other_unchanged { OnErr result (other.new ≡ other.old) }
    ensures set { IsSet K.eq V.eq set.old.lists → IsSet K.eq V.eq other.old.lists
        → IsSet K.eq V.eq set.new.lists }
{
    set.append_set(other)
}

/// Inserts all pairs of the other set where there is room for them, and raises no capacity.
pub fn join_in_room<
    K: Eq + Hash + Drop,
    V: Eq + Drop,
    S: BuildHasher,
    T: BuildHasher,
    A: Allocator + Copy,
>(set: &mut SetOrderedMultimap<K, V, S, A>, other: &mut SetOrderedMultimap<K, V, T, A>) -> bool
    ensures emptied { result ≡ true → other.new.lists ≡ empty_lists }
    ensures rooms { SameRooms set.old set.new }
{
    let key_room = set.keys_capacity() - set.keys_len();
    let value_room = set.values_capacity() - set.values_len();
    if key_room < other.keys_len() || value_room < other.values_len() {
        return false;
    }
    match set.append_set(other) {
        Ok(()) => {}
        Err(_) => unreachable!(),
    }
    true
}

/// Whether the key has this value, and no other.
pub fn has_only<K: Eq + Hash, V: Eq, Q: KeyQuery<K>, S: BuildHasher, A: Allocator>(
    set: &SetOrderedMultimap<K, V, S, A>,
    query: Q,
    value: &V,
) -> bool
    ensures { result
        ≡ (nat_eq (length (values_where (Q.equivalent query) set.now.lists.pairs)) 1
        && has_pair_where (Q.equivalent query) V.eq set.now.lists.pairs value.now) }
{
    set.entry_len(query) == 1 && set.contains(query, value)
}

/// Takes a key out with all its values, and drops them.
pub fn remove_key<K: Eq + Hash + Drop, V: Eq + Drop, Q: KeyQuery<K>, S: BuildHasher, A: Allocator>(
    set: &mut SetOrderedMultimap<K, V, S, A>,
    query: Q,
)
    ensures lists { set.new.lists ≡ removed_where K.eq (Q.equivalent query) set.old.lists }
    ensures set { IsSet K.eq V.eq set.old.lists → IsSet K.eq V.eq set.new.lists }
{
    set.remove_all_with(query, |_value| {});
}

/// Puts another key in the place of one, and returns whether it did. A set stays one either way.
pub fn rename<K: Eq + Hash + Drop, V: Eq, Q: KeyQuery<K>, S: BuildHasher, A: Allocator>(
    set: &mut SetOrderedMultimap<K, V, S, A>,
    query: Q,
    new_key: K,
) -> bool
    ensures renamed { result ≡ true
        → set.new.lists ≡ renamed_where (Q.equivalent query) new_key set.old.lists }
    ensures refused { result ≡ false → set.new ≡ set.old }
    ensures set { IsSet K.eq V.eq set.old.lists → IsSet K.eq V.eq set.new.lists }
{
    match set.rename_key(query, new_key) {
        Ok(old) => {
            drop(old);
            true
        }
        Err(fault) => {
            drop(fault.into_key());
            false
        }
    }
}
