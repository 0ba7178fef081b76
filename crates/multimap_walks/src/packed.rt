//! A value's link in three words.
ghost use Rattle.std.specs.Prelude.{◌≡◌, ◌+◌, ◌<◌, ◌^◌, IfSome};

use crate::links::ValueLink;
use multimap_slots::{LinkForm, OptionalPlace};

/// The form of a value's link in three words, where a [`ValueLink`] takes five.
///
/// A tape of a map keeps its links so. Each neighbour's place is below `usize::MAX`.
#[derive(Clone, Copy)]
pub struct PackedLink {
    key: usize,
    previous: OptionalPlace,
    next: OptionalPlace,
}

impl PackedLink {
    ghost use Rattle.multimap_walks.specs.Packed.{unpacked};

    /// Writes the place of the value before it, or that there is none.
    ///
    /// # Complexity
    ///
    /// *O*(1).
    ///
    /// # Requires
    ///
    /// The place is below `usize::MAX`.
    #[inline(always)]
    pub fn set_previous(&mut self, previous: Option<usize>)
        requires { IfSome previous (λ p. p + 1 < 2 ^ 64) }
        ensures { unpacked self.new ≡ record (unpacked self.old) { previous = previous } }
    {
        self.previous = OptionalPlace::of(previous);
    }

    /// Writes the place of the value after it, or that there is none.
    ///
    /// # Complexity
    ///
    /// *O*(1).
    ///
    /// # Requires
    ///
    /// The place is below `usize::MAX`.
    #[inline(always)]
    pub fn set_next(&mut self, next: Option<usize>)
        requires { IfSome next (λ p. p + 1 < 2 ^ 64) }
        ensures { unpacked self.new ≡ record (unpacked self.old) { next = next } }
    {
        self.next = OptionalPlace::of(next);
    }

    /// Writes the place of the key.
    ///
    /// # Complexity
    ///
    /// *O*(1).
    #[inline(always)]
    pub fn set_key(&mut self, key: usize)
        ensures { unpacked self.new ≡ record (unpacked self.old) { key = key } }
    {
        self.key = key;
    }
}

impl LinkForm<ValueLink> for PackedLink {
    ghost use Rattle.multimap_walks.specs.Packed.{HasSmallPlaces, unpacked};

    ghost link_of = { unpacked };

    ghost fits = { HasSmallPlaces };

    #[inline(always)]
    fn keep(link: ValueLink) -> PackedLink {
        PackedLink {
            key: link.key,
            previous: OptionalPlace::of(link.previous),
            next: OptionalPlace::of(link.next),
        }
    }

    #[inline(always)]
    fn link(&self) -> ValueLink {
        ValueLink {
            key: self.key,
            previous: self.previous.get(),
            next: self.next.get(),
        }
    }

    #[inline(always)]
    fn copied(&self) -> PackedLink {
        *self
    }
}
