//! The links of keys in their slot list, and of values on their tape.
ghost use Rattle.std.specs.Prelude.{◌≡◌, unwrap_or};
ghost use Rattle.multimap_walks.specs.Ends.{end_place, ends_after, ends_of, step_from};

use crate::End;

/// The link of a key: its hash, and where its values are.
///
/// It is a part of the map's storage, of which no call of the map returns one.
#[derive(Debug, PartialEq, Eq, Clone, Copy)]
pub struct KeyLink {
    /// The key's hash.
    pub hash: u64,
    /// The place of the key's first value.
    pub head: usize,
    /// The place of the key's last value.
    pub tail: usize,
    /// The number of the key's values.
    pub length: usize,
}

impl KeyLink {
    /// Where the key's values stand.
    #[inline(always)]
    pub(crate) fn ends(&self) -> ChainEnds
        ensures { result ≡ ends_of self.now }
    {
        ChainEnds {
            first: self.head,
            last: self.tail,
            length: self.length,
        }
    }
}

/// The link of a value: its key's place, and its neighbours among the key's values.
///
/// It is a part of the map's storage, of which no call of the map returns one.
#[derive(Debug, PartialEq, Eq, Clone, Copy)]
pub struct ValueLink {
    /// The place of the key.
    pub key: usize,
    /// The place of the value before it under the same key, or `None` for the first.
    pub previous: Option<usize>,
    /// The place of the value after it under the same key, or `None` for the last.
    pub next: Option<usize>,
}

impl ValueLink {
    /// Returns the place that a step from an end reaches, or `None` at the last value.
    ///
    /// # Complexity
    ///
    /// *O*(1).
    #[inline(always)]
    pub fn step_from(&self, end: End) -> Option<usize>
        ensures { result ≡ step_from end self.now.next self.now.previous }
    {
        match end {
            End::Front => self.next,
            End::Back => self.previous,
        }
    }
}

/// The ends of a row of items that follow each other in order.
///
/// They are values of one key that name each other, or what an iterator along a list has left.
#[derive(Clone, Copy)]
pub struct ChainEnds {
    /// The place of the first item.
    pub first: usize,
    /// The place of the last item.
    pub last: usize,
    /// The number of items.
    pub length: usize,
}

impl ChainEnds {
    /// The ends of a whole list, from its first and last place and its length.
    #[inline(always)]
    pub(crate) fn of_all(first: Option<usize>, last: Option<usize>, length: usize) -> ChainEnds
        ensures { result
            ≡ record { first = unwrap_or first 0; last = unwrap_or last 0; length = length } }
    {
        ChainEnds {
            first: first.unwrap_or(0),
            last: last.unwrap_or(0),
            length,
        }
    }

    /// Returns the place at an end.
    ///
    /// # Complexity
    ///
    /// *O*(1).
    #[inline(always)]
    pub fn place_at(&self, end: End) -> usize
        ensures { result ≡ end_place end self.now }
    {
        match end {
            End::Front => self.first,
            End::Back => self.last,
        }
    }

    /// Returns what is left once the place at an end has gone, where `place` is at that end then.
    ///
    /// # Complexity
    ///
    /// *O*(1).
    ///
    /// # Requires
    ///
    /// There is at least one item.
    #[inline(always)]
    pub fn after(&self, end: End, place: usize) -> ChainEnds
        requires more { ¬ (self.now.length ≡ 0) }
        ensures { result ≡ ends_after end self.now place }
    {
        let length = self.length - 1;
        match end {
            End::Front => ChainEnds {
                first: place,
                last: self.last,
                length,
            },
            End::Back => ChainEnds {
                first: self.first,
                last: place,
                length,
            },
        }
    }
}

/// The ends of no items.
pub(crate) const NO_ENDS: ChainEnds = ChainEnds {
    first: 0,
    last: 0,
    length: 0,
};
