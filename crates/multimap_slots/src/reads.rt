//! A counter of reads that has no bytes at run time.
ghost use Rattle.std.specs.Prelude.{◌≡◌, ◌+◌, ⊤};

use std::alloc::AllocError;
use std::marker::Model;
use std::snapshot::Snapshot;

// How a counter came to be. Only contracts see one.
#[derive(Drop)]
enum Past {
    Start,
    Same(Snapshot<Snapshot<Past>>),
    Next(Snapshot<Snapshot<Past>>),
    More(usize, Snapshot<Snapshot<Past>>),
}

/// How many items a walk has read: a number to contracts, and no bytes at run time.
///
/// A walk makes one when it is made, and reads through no other.
#[derive(Drop)]
pub struct Reads {
    past: Snapshot<Past>,
}

impl Model for Reads {
    ghost use Rattle.std.specs.Prelude.{ℕ};

    ghost Value = { ℕ };

    ghost use Rattle.multimap_slots.specs.Reads.{count_of};

    ghost view = { λ r. count_of r.past.value };
}

impl Reads {
    /// A counter that has counted nothing.
    pub fn new() -> Reads
        ensures { result ≡ 0 }
    {
        Reads {
            past: Snapshot::of(&Past::Start),
        }
    }

    /// Counts one read.
    pub(crate) fn count_one(&mut self)
        ensures { self.new ≡ self.old + 1 }
    {
        self.past = Snapshot::of(&Past::Next(Snapshot::of(&self.past)));
    }

    /// Counts as many at once.
    pub(crate) fn count_more(&mut self, count: usize)
        ensures { self.new ≡ self.old + count }
    {
        self.past = Snapshot::of(&Past::More(count, Snapshot::of(&self.past)));
    }
}

impl Clone for Reads {
    ghost is_clone = { λ x y. y ≡ x };

    ghost is_infallible = { λ _. ⊤ };

    fn clone(&self) -> Result<Reads, AllocError> {
        Ok(Reads {
            past: Snapshot::of(&Past::Same(Snapshot::of(&self.past))),
        })
    }
}
