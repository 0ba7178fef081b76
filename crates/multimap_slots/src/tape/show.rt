//! How a tape is shown: each item by its place, in order.
use super::Tape;
use crate::link_form::LinkForm;
use crate::show::show_items;
use std::alloc::Allocator;
use std::fmt;

impl<T: fmt::Debug, L: Copy, A: Allocator, F: LinkForm<L>> fmt::Debug for Tape<T, L, A, F> {
    fn fmt<W: fmt::Write>(&self, f: &mut fmt::Formatter<W>) -> fmt::Result {
        show_items(self.items.as_slice(), &self.runs, f)
    }
}
