//! What every order of places tells: its ends, the neighbours of a place, and how many there are.
ghost use Rattle.std.specs.Prelude.{◌≡◌, ◌↔◌, ℕ, List, Some, IsSome, IsTrue, length, slice_get};
ghost use Rattle.multimap_slots.specs.Lists.{IsIn, first_of, last_of, next_of, previous_of};

/// Places in an order.
pub(crate) trait InOrder {
    /// The listed places, in order.
    ghost places: { Self → List ℕ };

    /// What else is so of all that is listed.
    ghost sound: { Self → Type 0 };

    /// How many places are listed.
    fn len(&self) -> usize
        ensures len { result ≡ length (places self.now) }
        ensures sound { sound self.now };

    /// The first place.
    fn front(&self) -> Option<usize>
        ensures { result ≡ first_of (places self.now) };

    /// The last place.
    fn back(&self) -> Option<usize>
        ensures { result ≡ last_of (places self.now) };

    /// The place behind a listed one.
    fn next(&self, place: usize) -> Option<usize>
        requires { IsIn place (places self.now) }
        ensures { result ≡ next_of (places self.now) place };

    /// The place before a listed one.
    fn previous(&self, place: usize) -> Option<usize>
        requires { IsIn place (places self.now) }
        ensures { result ≡ previous_of (places self.now) place };

    /// The place behind a listed one that isn't the last.
    fn following(&self, place: usize) -> usize
        requires listed { IsIn place (places self.now) }
        requires more { IsSome (next_of (places self.now) place) }
        ensures { next_of (places self.now) place ≡ Some result };

    /// The place before a listed one that isn't the first.
    fn preceding(&self, place: usize) -> usize
        requires listed { IsIn place (places self.now) }
        requires more { IsSome (previous_of (places self.now) place) }
        ensures { previous_of (places self.now) place ≡ Some result };
}

/// Places in an order, each with a link.
pub(crate) trait Linked<L>: InOrder {
    /// The link of each place.
    ghost links: { Self → List L };

    /// The link of a listed place.
    fn link(&self, place: usize) -> L
        requires { IsIn place (Self.places self.now) }
        ensures { slice_get (links self.now) place ≡ Some result };
}

/// Places in an order, in memory of its own.
pub(crate) trait Stored: InOrder {
    /// How many places fit.
    ghost room: { Self → ℕ };

    /// How many places fit before the memory must grow.
    fn capacity(&self) -> usize
        ensures { result ≡ room self.now };

    /// Whether the place is listed.
    fn is_listed(&self, place: usize) -> bool
        ensures { IsTrue result ↔ IsIn place (Self.places self.now) };
}
