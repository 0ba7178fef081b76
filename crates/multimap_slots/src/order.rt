//! Places in an order, each with a link, over one vector of nodes that also lists the free places.
ghost use Rattle.std.specs.Prelude.{◌≡◌, ◌+◌, ◌<◌, ℕ, [], length, Some, slice_get, vec_capacity};
ghost use Rattle.multimap_slots.specs.Lists.{IsIn, next_of, previous_of};
ghost use Rattle.multimap_slots.specs.Private.Vectors.{GrowsTo};

mod detached;
mod ends;
mod node;
pub(crate) mod optional_place;
mod reorder;
mod write;

use crate::grow::grow_to;
use crate::in_order::{InOrder, Linked, Stored};
use node::{Node, Standing, State};
use optional_place::OptionalPlace;
use std::alloc::{AllocError, Allocator};
use std::marker::Model;
use write::{claim, release, set_next, unlink};

/// Places in an order, each with a link.
#[derive(Drop)]
pub(crate) struct Order<L, A: Allocator> {
    nodes: Vec<Node<L>, A>,
    front: OptionalPlace,
    back: OptionalPlace,
    // The place that was freed last, from which the other free ones are linked.
    free: OptionalPlace,
    len: usize,
    // How many places are neither listed nor free.
    detached: usize,
}

impl<L, A: Allocator> Model for Order<L, A> {
    ghost use Rattle.std.specs.Prelude.{vec_capacity, None};
    ghost use Rattle.multimap_slots.specs.Private.Paths.{after, walk};
    ghost use Rattle.multimap_slots.specs.Private.ListLayout.{Places, nexts, states, links, IsOrdered};

    ghost Value = { Places L };

    ghost view = { λ o. record {
      order = walk (after o.front (nexts o.nodes.items)) None o.len;
      states = states o.nodes.items;
      links = links o.nodes.items;
      capacity = vec_capacity o.nodes;
      detached = o.detached;
    } };

    ghost invariant = { λ o. IsOrdered o.nodes.items o.front o.back o.free o.len o.detached };
}

impl<L: Copy, A: Allocator> Order<L, A> {
    ghost use Rattle.std.specs.Borrow.{sem};
    ghost use Rattle.multimap_slots.specs.Private.ListLayout.{HasNoPlaces, HasFree, AddsLast, KeepsPlaces, RemovesPlace};
    ghost use Rattle.multimap_slots.specs.Private.OrderLends.{lends_place_link};

    /// An order without places, over an empty vector of nodes.
    pub(crate) fn over(nodes: Vec<Node<L>, A>) -> Self
        requires { nodes.items ≡ [] }
        ensures { HasNoPlaces result (vec_capacity nodes) }
    {
        Order {
            nodes,
            front: OptionalPlace::none(),
            back: OptionalPlace::none(),
            free: OptionalPlace::none(),
            len: 0,
            detached: 0,
        }
    }

    /// How many places are free among the nodes.
    pub(crate) fn vacant(&self) -> usize
        ensures { HasFree self.now result }
    {
        self.nodes.len() - self.len - self.detached
    }

    /// Makes room for so many nodes in all.
    pub(crate) fn grow_to(&mut self, slots: usize) -> Result<(), AllocError>
    where
        A: Copy,
        ensures capacity { GrowsTo slots self.old.capacity self.new.capacity result }
        ensures rest { KeepsPlaces self.old self.new }
    {
        grow_to(&mut self.nodes, slots)
    }

    /// Lists a free place last, and returns it.
    pub(crate) fn push_back(&mut self, link: L) -> usize
        requires { length self.old.order + self.old.detached < self.old.capacity }
        ensures { AddsLast self.old self.new result link }
    {
        let node = Node {
            next: OptionalPlace::none(),
            standing: Standing::listed(self.back),
            link,
        };
        let place = claim(&mut self.nodes, &mut self.free, node);
        let end = OptionalPlace::some(place);
        set_next(&mut self.nodes, &mut self.front, self.back, end);
        self.back = end;
        self.len += 1;
        place
    }

    /// Takes the place out of the order. It is free then, and the next to be given.
    pub(crate) fn remove(&mut self, place: usize)
        requires { IsIn place self.old.order }
        ensures { RemovesPlace self.old self.new place }
    {
        unlink(&mut self.nodes, &mut self.front, &mut self.back, place);
        release(&mut self.nodes, place, self.free);
        self.free = OptionalPlace::some(place);
        self.len -= 1;
    }

    /// Gives up every place, and keeps the capacity.
    pub(crate) fn clear(&mut self)
        ensures { HasNoPlaces self.new self.old.capacity }
    {
        self.nodes.clear();
        self.front = OptionalPlace::none();
        self.back = OptionalPlace::none();
        self.free = OptionalPlace::none();
        self.len = 0;
        self.detached = 0;
    }

    /// The node of a listed place.
    #[inline(always)]
    fn node(&self, place: usize) -> &Node<L>
        requires { IsIn place self.now.order }
        ensures next { result.now.next ≡ next_of self.now.order place }
        ensures previous { result.now.standing.previous ≡ previous_of self.now.order place }
        ensures link { slice_get self.now.links place ≡ Some result.now.link }
    {
        &self.nodes[place]
    }

    /// The place behind a listed one, or any number behind the last. It tests nothing.
    pub(crate) fn place_behind(&self, place: usize) -> usize
        requires { IsIn place self.now.order }
        ensures { (p : ℕ) → next_of self.now.order place ≡ Some p → result ≡ p }
    {
        self.node(place).next.place_or_any()
    }

    /// The place before a listed one, or any number before the first. It tests nothing.
    pub(crate) fn place_before(&self, place: usize) -> usize
        requires { IsIn place self.now.order }
        ensures { (p : ℕ) → previous_of self.now.order place ≡ Some p → result ≡ p }
    {
        self.node(place).standing.previous().place_or_any()
    }

    pub(crate) fn link_mut(&mut self, place: usize) -> &mut L
        requires { IsIn place self.old.order }
        ensures* writes_back { sem 𝓛 (lends_place_link L.row A.row A.Allocator self.entry
            place result) }
        ensures value { slice_get self.old.links place ≡ Some result.now }
    {
        &mut self.nodes[place].link
    }
}

impl<L: Copy, A: Allocator> InOrder for Order<L, A> {
    ghost use Rattle.multimap_slots.specs.Private.ListLayout.{AreSound};

    ghost places = { λ o. o.order };

    ghost sound = { AreSound };

    fn len(&self) -> usize {
        self.len
    }

    fn front(&self) -> Option<usize> {
        self.front.get()
    }

    fn back(&self) -> Option<usize> {
        self.back.get()
    }

    fn next(&self, place: usize) -> Option<usize> {
        self.node(place).next.get()
    }

    fn previous(&self, place: usize) -> Option<usize> {
        self.node(place).standing.previous().get()
    }

    fn following(&self, place: usize) -> usize {
        self.node(place).next.place()
    }

    fn preceding(&self, place: usize) -> usize {
        self.node(place).standing.previous().place()
    }
}

impl<L: Copy, A: Allocator> Linked<L> for Order<L, A> {
    ghost links = { λ o. o.links };

    fn link(&self, place: usize) -> L {
        self.node(place).link
    }
}

impl<L: Copy, A: Allocator> Stored for Order<L, A> {
    ghost room = { λ o. o.capacity };

    fn capacity(&self) -> usize {
        self.nodes.capacity()
    }

    fn is_listed(&self, place: usize) -> bool {
        if place >= self.nodes.len() {
            return false;
        }
        match self.nodes[place].standing.state() {
            State::Listed => true,
            State::Detached | State::Free => false,
        }
    }
}
