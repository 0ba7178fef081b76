//! For tests: an allocator that refuses each request past a number that the test grants.
//!
//! No clause can say when a request is refused, since an allocator may refuse at any time. So a
//! test runs a call once for each number of granted requests, until none is refused.
#![tactic(auto)]

use std::alloc::{AllocError, Allocator, Global};
use std::cell::Cell;

/// How many requests are still granted, and whether one was refused.
#[derive(Clone, Copy)]
struct Budget {
    granted: u64,
    refused: bool,
}

/// An allocator that passes each request on to `inner` while its budget lasts, and refuses the
/// others.
///
/// A request is a call of `allocate`. Each growth of a collection is one too, since it takes a new
/// block. To give a block back is none. A `&` to it is an allocator as well, and is `Copy`: so
/// several collections can draw on one budget, and the test can change it while they live.
#[derive(Drop)]
pub struct RefusingAllocator<A: Allocator = Global> {
    inner: A,
    budget: Cell<Budget>,
}

impl<A: Allocator> RefusingAllocator<A> {
    /// Grants the first `granted` requests, and refuses each later one.
    pub fn new(inner: A, granted: u64) -> RefusingAllocator<A> {
        let budget = Cell::new(Budget {
            granted,
            refused: false,
        });
        RefusingAllocator { inner, budget }
    }

    /// Refuses no request, until the test says otherwise.
    pub fn unlimited(inner: A) -> RefusingAllocator<A> {
        RefusingAllocator::new(inner, u64::MAX)
    }

    /// Grants the next `granted` requests, whatever was granted before, and refuses each later one.
    pub fn grant(&self, granted: u64) {
        let budget = self.budget.get();
        self.budget.set(Budget { granted, ..budget });
    }

    /// Refuses no request from now on, and forgets that one was refused.
    pub fn refuse_none(&self) {
        self.budget.set(Budget {
            granted: u64::MAX,
            refused: false,
        });
    }

    /// Refuses each request from now on.
    pub fn refuse_all(&self) {
        self.grant(0);
    }

    /// How many of the next requests are granted.
    pub fn granted(&self) -> u64 {
        self.budget.get().granted
    }

    /// Whether any request was refused so far, or since `refuse_none`.
    pub fn refused(&self) -> bool {
        self.budget.get().refused
    }
}

/// Takes one request off the budget, and returns whether it is to be refused.
fn refuses(budget: &Cell<Budget>) -> bool {
    let Budget { granted, refused } = budget.get();
    if granted == 0 {
        budget.set(Budget {
            granted,
            refused: true,
        });
        return true;
    }
    budget.set(Budget {
        granted: granted - 1,
        refused,
    });
    false
}

unsafe impl<A: Allocator> Allocator for RefusingAllocator<A> {
    ghost dealloc_token = { λ heap ty ptr. A.dealloc_token heap.inner ty ptr };

    fn allocate(&self, size: usize, align: usize) -> Result<*mut u8, AllocError> {
        if refuses(&self.budget) {
            return Err(AllocError);
        }
        self.inner.allocate(size, align)
    }

    unsafe fn deallocate(&self, ptr: *mut u8, size: usize, align: usize) {
        self.inner.deallocate(ptr, size, align);
    }
}
