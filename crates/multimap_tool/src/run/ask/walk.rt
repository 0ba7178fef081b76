//! Walks for replies: items copied from both ends of what remains.
ghost use Rattle.std.specs.Prelude.{◌≡◌, IfOk, OnErr, option_map};
ghost use Rattle.std.specs.Map.Iter.{deref_pair};
ghost use Rattle.ordered_multimap.specs.Walk.{answers_of_walk, forward};
ghost use Rattle.multimap_tool.specs.Step.{ListsItem, walked};

use crate::commands::Ends;
use ordered_multimap::End;
use ordered_multimap::list_ordered_multimap::{EntryValues, Iter, Keys, Values};
use std::alloc::{AllocError, Allocator};

/// Takes the item at an end of a walk.
macro_rules! next_at {
    ($walk:expr, $end:expr) => {
        match $end {
            End::Front => $walk.next(),
            End::Back => $walk.next_back(),
        }
    };
}

/// A walk from both ends whose items are copied.
pub(crate) trait Copied: Drop {
    ghost use Rattle.std.specs.Prelude.{◌≡◌, List, length};
    ghost use Rattle.ordered_multimap.specs.Walk.{end_item, end_rest};

    /// A copied item.
    type Item;

    /// The items that are left.
    ghost left: { Self → List Self.Item };

    /// How many items are left.
    fn count(&self) -> usize
        ensures { result ≡ length (left self.now) };

    /// Takes the item at the end.
    fn take(&mut self, end: End) -> Option<Self::Item>
        ensures item { result ≡ end_item end (left self.old) }
        ensures rest { left self.new ≡ end_rest end (left self.old) };
}

impl<'map, K, V: Copy, A: Allocator> Copied for EntryValues<'map, K, V, A> {
    type Item = V;

    ghost left = { λ walk. walk.left };

    fn count(&self) -> usize {
        self.len()
    }

    fn take(&mut self, end: End) -> Option<V> {
        next_at!(self, end).copied()
    }
}

impl<'map, K: Copy, A: Allocator> Copied for Keys<'map, K, A> {
    type Item = K;

    ghost left = { λ walk. walk };

    fn count(&self) -> usize {
        self.len()
    }

    fn take(&mut self, end: End) -> Option<K> {
        next_at!(self, end).copied()
    }
}

impl<'map, K, V: Copy, A: Allocator> Copied for Values<'map, K, V, A> {
    type Item = V;

    ghost left = { λ walk. walk };

    fn count(&self) -> usize {
        self.len()
    }

    fn take(&mut self, end: End) -> Option<V> {
        next_at!(self, end).copied()
    }
}

impl<'map, K: Copy, V: Copy, A: Allocator> Copied for Iter<'map, K, V, A> {
    type Item = (K, V);

    ghost left = { λ walk. walk };

    fn count(&self) -> usize {
        self.len()
    }

    fn take(&mut self, end: End) -> Option<(K, V)> {
        copied_pair(next_at!(self, end))
    }
}

/// The pair itself.
pub(crate) fn copied_pair<K: Copy, V: Copy>(pair: Option<(&K, &V)>) -> Option<(K, V)>
    ensures { result ≡ option_map deref_pair pair.entry }
{
    match pair {
        Some((key, value)) => Some((*key, *value)),
        None => None,
    }
}

/// Walks to the end. It takes memory only if the reply lists an item, and before it takes one.
pub(crate) fn walk<W: Copied, A: Allocator>(
    alloc: A,
    walk: W,
    ends: &Ends<A>,
) -> Result<Vec<Option<W::Item>, A>, AllocError>
    ensures ok { IfOk result (λ taken. taken.items ≡ walked (W.left walk) ends.now) }
    ensures lists_item { OnErr result (ListsItem (walked (W.left walk) ends.now)) }
{
    match ends {
        Ends::Forward => walk_forward(alloc, walk),
        Ends::Word(word) => walk_by_word(alloc, walk, word),
    }
}

/// Takes each item once, from the front.
fn walk_forward<W: Copied, A: Allocator>(
    alloc: A,
    walk: W,
) -> Result<Vec<Option<W::Item>, A>, AllocError>
    ensures ok { IfOk result (λ taken.
        taken.items ≡ answers_of_walk (W.left walk) (forward (W.left walk))) }
    ensures lists_item { OnErr result
        (ListsItem (answers_of_walk (W.left walk) (forward (W.left walk)))) }
{
    let mut rest = walk;
    let count = rest.count();
    let mut taken = Vec::with_capacity(alloc, count)?;
    for _ in 0..count {
        taken.push_reserved(rest.take(End::Front));
    }
    Ok(taken)
}

/// Takes one item for each letter.
fn walk_by_word<W: Copied, A: Allocator>(
    alloc: A,
    walk: W,
    word: &[End],
) -> Result<Vec<Option<W::Item>, A>, AllocError>
    ensures ok { IfOk result (λ taken. taken.items ≡ answers_of_walk (W.left walk) word.now) }
    ensures lists_item { OnErr result (ListsItem (answers_of_walk (W.left walk) word.now)) }
{
    let mut rest = walk;
    let mut taken = Vec::with_capacity(alloc, word.len())?;
    for end in word {
        taken.push_reserved(rest.take(*end));
    }
    Ok(taken)
}
