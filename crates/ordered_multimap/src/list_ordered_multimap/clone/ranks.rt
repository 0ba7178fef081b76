//! The rank of a value: how many values stand before it. It is the value's place in a clone.
ghost use Rattle.std.specs.Prelude.{◌≡◌, ◌<◌, ℕ, ⊤, Some, length, option_map, IfOk};
ghost use Rattle.multimap_slots.specs.Lists.{IsIn, first_of, next_of};
ghost use Rattle.ordered_multimap.specs.Private.Copies.{AreRanks, HasRankedEnds, HasRankedNeighbours};
ghost use Rattle.ordered_multimap.specs.Private.KeyRelocations.{new_place_in};
ghost use Rattle.ordered_multimap.specs.Private.Relocations.{relocated_key, relocated_value};

use multimap_slots::Tape;
use multimap_walks::{KeyLink, PackedLink, ValueLink};
use std::alloc::{AllocError, Allocator};

/// The ranks of the values on a tape.
pub(super) trait Ranks {
    /// The rank of the value at a place.
    ghost rank: { Self → ℕ → ℕ };

    /// Whether the place has a rank.
    ghost has_rank: { Self → ℕ → Type 0 };

    /// The link of a key, with ranks for the places of values.
    fn ranked_key(&self, link: KeyLink) -> KeyLink
        requires { HasRankedEnds (has_rank self.now) link }
        ensures { result ≡ relocated_key (rank self.now) link };

    /// The link of a value, with ranks for the places of values.
    fn ranked_value(&self, link: ValueLink) -> ValueLink
        requires { HasRankedNeighbours (has_rank self.now) link }
        ensures { result ≡ relocated_value (rank self.now) link };

    /// The place of the tape's first value.
    fn front<V, A: Allocator>(&self, values: &Tape<V, ValueLink, A, PackedLink>) -> Option<usize>
        requires { AreRanks values.now.list.order (has_rank self.now) (rank self.now) }
        ensures { result ≡ first_of values.now.list.order };

    /// The place of the value behind the one at the place.
    fn next<V, A: Allocator>(
        &self,
        values: &Tape<V, ValueLink, A, PackedLink>,
        place: usize,
    ) -> Option<usize>
        requires ranks { AreRanks values.now.list.order (has_rank self.now) (rank self.now) }
        requires listed { IsIn place values.now.list.order }
        ensures { result ≡ next_of values.now.list.order place };
}

/// At each place in use its rank. No hole's rank is read.
impl<B: Allocator> Ranks for Vec<usize, B> {
    ghost rank = { λ ranks. new_place_in ranks.items };

    ghost has_rank = { λ ranks place. place < length ranks.items };

    #[inline(always)]
    fn ranked_key(&self, link: KeyLink) -> KeyLink {
        let head = self[link.head];
        let tail = self[link.tail];
        KeyLink { head, tail, ..link }
    }

    #[inline(always)]
    fn ranked_value(&self, link: ValueLink) -> ValueLink {
        let previous = rank_in(self, link.previous);
        let next = rank_in(self, link.next);
        ValueLink {
            previous,
            next,
            ..link
        }
    }

    #[inline(always)]
    fn front<V, A: Allocator>(&self, values: &Tape<V, ValueLink, A, PackedLink>) -> Option<usize> {
        values.front_place()
    }

    #[inline(always)]
    fn next<V, A: Allocator>(
        &self,
        values: &Tape<V, ValueLink, A, PackedLink>,
        place: usize,
    ) -> Option<usize> {
        values.next_listed_place(place)
    }
}

/// The ranks on a tape without holes: each value's place is its rank.
#[derive(Drop)]
pub(super) struct NoHoles;

impl Ranks for NoHoles {
    ghost rank = { λ _ place. place };

    ghost has_rank = { λ _ _. ⊤ };

    #[inline(always)]
    fn ranked_key(&self, link: KeyLink) -> KeyLink {
        link
    }

    #[inline(always)]
    fn ranked_value(&self, link: ValueLink) -> ValueLink {
        link
    }

    #[inline(always)]
    fn front<V, A: Allocator>(&self, values: &Tape<V, ValueLink, A, PackedLink>) -> Option<usize> {
        if values.is_empty() { None } else { Some(0) }
    }

    #[inline(always)]
    fn next<V, A: Allocator>(
        &self,
        values: &Tape<V, ValueLink, A, PackedLink>,
        place: usize,
    ) -> Option<usize> {
        let len = values.len();
        let next = place + 1;
        if next < len { Some(next) } else { None }
    }
}

/// The rank of the value at the place, where there is one.
#[inline(always)]
fn rank_in<A: Allocator>(ranks: &Vec<usize, A>, place: Option<usize>) -> Option<usize>
    requires { (q : ℕ) → place ≡ Some q → q < length ranks.now.items }
    ensures { result ≡ option_map (new_place_in ranks.now.items) place }
{
    match place {
        Some(place) => Some(ranks[place]),
        None => None,
    }
}

/// The ranks on a tape with holes.
pub(super) fn ranks_of<V, A: Allocator + Copy>(
    values: &Tape<V, ValueLink, A, PackedLink>,
    alloc: A,
) -> Result<Vec<usize, A>, AllocError>
    ensures { IfOk result (λ ranks. AreRanks values.now.list.order
        (λ place. place < length ranks.items) (new_place_in ranks.items)) }
{
    // The length tells the proof that places rise.
    let _len = values.len();
    let end = values.push_place();
    let mut ranks = Vec::with_capacity(alloc, end)?;
    let mut rank = 0;
    for place in 0..end {
        ranks.push_reserved(rank);
        if values.is_listed(place) {
            rank += 1;
        }
    }
    Ok(ranks)
}
