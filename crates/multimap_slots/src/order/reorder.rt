//! The listed places in another order.
ghost use Rattle.std.specs.Prelude.{◌≡◌, ℕ, get_or, IsPermutation};
ghost use Rattle.multimap_slots.specs.Lists.{IsIn, AreDistinct};
ghost use Rattle.multimap_slots.specs.Private.ListLayout.{states};
ghost use Rattle.multimap_slots.specs.Private.Reorders.{LinksInOrder};
ghost use Rattle.multimap_slots.specs.Private.Vectors.{Rewrites};
ghost use Rattle.multimap_slots.specs.declared.order.node.State.TheVariants.{Free, Listed};

use super::Order;
use super::node::Node;
use super::optional_place::OptionalPlace;
use super::write::{set_next, set_previous};
use std::alloc::Allocator;

/// Links the places in this order, from the last one on.
fn link_in_order<L, A: Allocator>(
    nodes: &mut Vec<Node<L>, A>,
    front: &mut OptionalPlace,
    back: &mut OptionalPlace,
    places: &[usize],
)
    requires listed { (p : ℕ) → IsIn p places.now
        → get_or (states nodes.old.items) p Free ≡ Listed }
    requires distinct { AreDistinct places.now }
    ensures { Rewrites nodes.old nodes.new
        (λ old new. LinksInOrder old new front.new back.new places.now) }
{
    let mut first = OptionalPlace::none();
    let mut left = places.len();
    while left > 0 {
        left -= 1;
        let place = OptionalPlace::some(places[left]);
        set_next(nodes, front, place, first);
        set_previous(nodes, back, first, place);
        first = place;
    }
    let end = OptionalPlace::none();
    set_next(nodes, front, end, first);
    set_previous(nodes, back, first, end);
}

impl<L: Copy, A: Allocator> Order<L, A> {
    /// Puts the listed places in this order.
    pub(crate) fn set_order(&mut self, places: &[usize])
        requires { IsPermutation self.old.order places.now }
        ensures { self.new ≡ record self.old { order = places.now } }
    {
        link_in_order(&mut self.nodes, &mut self.front, &mut self.back, places);
    }
}
