//! A place or none, in one word.
ghost use Rattle.std.specs.Prelude.{◌≡◌, ◌+◌, ◌<◌, ◌^◌, ℕ, None, Some, Option, IfSome, IsSome};

use std::marker::Model;

/// A place or none, in one word where an `Option<usize>` takes two.
///
/// 0 stands for none, and any other number for the place below it.
#[derive(Clone, Copy)]
pub struct OptionalPlace {
    above: usize,
}

impl Model for OptionalPlace {
    ghost use Rattle.std.specs.Prelude.{ℕ, Option};
    ghost use Rattle.multimap_slots.specs.Private.OptionalPlace.{place_below, number_above};

    ghost Value = { Option ℕ };

    ghost view = { λ o. place_below o.above };

    ghost inverse = { λ p. record { above = number_above p } };
}

impl OptionalPlace {
    ghost use Rattle.multimap_slots.specs.Private.OptionalPlace.{place_below, number_above};

    #[inline(always)]
    pub(crate) fn none() -> OptionalPlace
        ensures { result ≡ None }
    {
        OptionalPlace { above: 0 }
    }

    #[inline(always)]
    pub(crate) fn some(place: usize) -> OptionalPlace
        requires { place + 1 < 2 ^ 64 }
        ensures { result ≡ Some place }
    {
        OptionalPlace { above: place + 1 }
    }

    /// Puts a place or none into one word.
    ///
    /// # Complexity
    ///
    /// *O*(1).
    ///
    /// # Requires
    ///
    /// The place is below `usize::MAX`.
    #[inline(always)]
    pub fn of(place: Option<usize>) -> OptionalPlace
        requires { IfSome place (λ p. p + 1 < 2 ^ 64) }
        ensures { result ≡ place }
    {
        match place {
            Some(place) => OptionalPlace::some(place),
            None => OptionalPlace::none(),
        }
    }

    /// Returns the place, or `None` where there is none.
    ///
    /// # Complexity
    ///
    /// *O*(1).
    #[inline(always)]
    pub fn get(self) -> Option<usize>
        ensures place { result ≡ self }
        ensures fits { IfSome result (λ p. p + 1 < 2 ^ 64) }
    {
        if self.above == 0 {
            None
        } else {
            Some(self.above - 1)
        }
    }

    /// The number that stands for it.
    #[inline(always)]
    pub(crate) fn word(self) -> usize
        ensures { result ≡ number_above self }
    {
        self.above
    }

    /// What the number stands for.
    #[inline(always)]
    pub(crate) fn of_word(word: usize) -> OptionalPlace
        ensures { result ≡ place_below word }
    {
        OptionalPlace { above: word }
    }

    /// The place, or any number where there is none.
    #[inline(always)]
    pub(crate) fn place_or_any(self) -> usize
        ensures { (p : ℕ) → self ≡ Some p → result ≡ p }
    {
        self.above.wrapping_sub(1)
    }

    /// The place of one that isn't none.
    #[inline(always)]
    pub(crate) fn place(self) -> usize
        requires { IsSome self }
        ensures { self ≡ Some result }
    {
        self.above - 1
    }
}
