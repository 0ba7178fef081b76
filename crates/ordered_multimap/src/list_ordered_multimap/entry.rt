//! The entry of a key: a view of it that was looked up once.
ghost use Rattle.std.specs.Prelude.{◌≡◌, true, false};
ghost use Rattle.ordered_multimap.specs.Agrees.{hash_of};
ghost use Rattle.ordered_multimap.specs.Keys.{is_listed};
ghost use Rattle.ordered_multimap.specs.Pairs.{is_present};
ghost use Rattle.ordered_multimap.specs.Private.Remove.{among};
ghost use Rattle.ordered_multimap.specs.Writes.{head_at};

mod changed;
mod drained;
mod methods;
mod occupied;
mod or_default;
mod remove_at;
mod show;
mod tried;
mod vacant;

use super::{DefaultState, ListOrderedMultimap};
use std::alloc::{Allocator, Global};
use std::hash::{BuildHasher, Hash};

/// A view of one key of a map, which is either occupied or vacant.
///
/// This enum is created by [`ListOrderedMultimap::entry`], which looks the key up once. It borrows
/// the map mutably.
///
/// # Examples
///
/// ```
/// use ordered_multimap::{Entry, ListOrderedMultimap};
///
/// let mut map = ListOrderedMultimap::new(rt.alloc());
/// map.append("line", 1)?;
/// match map.entry("line") {
///     Entry::Occupied(mut entry) => entry.append(2)?,
///     Entry::Vacant(entry) => *entry.insert(0)? = 1,
/// }
/// assert!(rt; map.get_all("line").eq(&[1, 2]));
/// ```
#[derive(Drop)]
pub enum Entry<'map, K: Eq + Hash, V, S: BuildHasher = DefaultState, A: Allocator = Global> {
    /// An occupied entry: the key is present, and has one or more values.
    Occupied(OccupiedEntry<'map, K, V, S, A>),
    /// A vacant entry: the key is absent.
    Vacant(VacantEntry<'map, K, V, S, A>),
}

/// The entry of a key that is present. It is part of the [`Entry`] enum.
///
/// The entry keeps the position of the stored key, so none of its calls looks the key up again. Its
/// key has at least one value for as long as the entry lives: see [`len`](Self::len). See [`Entry`]
/// for an example.
#[derive(Drop)]
pub struct OccupiedEntry<
    'map,
    K: Eq + Hash,
    V,
    S: BuildHasher = DefaultState,
    A: Allocator = Global,
> {
    map: &'map mut ListOrderedMultimap<K, V, S, A>,
    place: usize,
    first: usize,
    ghost listed: { among map.now.slots.keys.order place ≡ true },
    ghost begins: { first ≡ head_at map.now.slots.keys place },
}

/// The entry of a key that is absent. It is part of the [`Entry`] enum.
///
/// The entry keeps the key that was passed to [`ListOrderedMultimap::entry`], and its hash, so that
/// an insertion doesn't hash it again. See [`Entry`] for an example.
#[derive(Drop)]
pub struct VacantEntry<
    'map,
    K: Eq + Hash,
    V,
    S: BuildHasher = DefaultState,
    A: Allocator = Global,
> {
    map: &'map mut ListOrderedMultimap<K, V, S, A>,
    hash: u64,
    key: K,
    ghost hashed: { hash ≡ hash_of S.BuildHasher S.Hasher.Hasher map.now.hasher
        (K.hash_input key) },
    ghost unlisted: { is_listed K.eq map.now.lists.keys key ≡ false },
    ghost absent: { is_present K.eq map.now.lists.pairs key ≡ false },
}
