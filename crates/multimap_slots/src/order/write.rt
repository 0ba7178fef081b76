//! Writes of single nodes. Each leaves the fields that it doesn't name as they were.
ghost use Rattle.std.specs.Prelude.{◌≡◌, ◌+◌, ◌<◌, ◌^◌, length, get_or, IfSome, vec_capacity};
ghost use Rattle.multimap_slots.specs.Private.ListLayout.{SetsNext, SetsPrevious, CanUnlink, Unlinks, SetsDetached, Releases, CanClaim, Claims, states};
ghost use Rattle.multimap_slots.specs.declared.order.node.State.TheVariants.{Listed, Free};
ghost use Rattle.multimap_slots.specs.Private.Vectors.{Rewrites};

use super::node::{Node, Standing};
use super::optional_place::OptionalPlace;
use std::alloc::Allocator;

/// Writes the place behind `from`, where none is the list's own end.
pub(super) fn set_next<L, A: Allocator>(
    nodes: &mut Vec<Node<L>, A>,
    front: &mut OptionalPlace,
    from: OptionalPlace,
    to: OptionalPlace,
)
    requires { IfSome from (λ p. p < length nodes.old.items) }
    ensures { Rewrites nodes.old nodes.new
        (λ old new. SetsNext old new front.old front.new from to) }
{
    match from.get() {
        Some(place) => {
            let node = &mut nodes[place];
            node.next = to;
        }
        None => *front = to,
    }
}

/// Writes the place before `from`, where none is the list's own end.
pub(super) fn set_previous<L, A: Allocator>(
    nodes: &mut Vec<Node<L>, A>,
    back: &mut OptionalPlace,
    from: OptionalPlace,
    to: OptionalPlace,
)
    requires listed { IfSome from (λ p. get_or (states nodes.old.items) p Free ≡ Listed) }
    requires low { IfSome to (λ p. p + 3 < 2 ^ 64) }
    ensures { Rewrites nodes.old nodes.new
        (λ old new. SetsPrevious old new back.old back.new from to) }
{
    match from.get() {
        Some(place) => {
            let node = &mut nodes[place];
            node.standing = Standing::listed(to);
        }
        None => *back = to,
    }
}

/// Ties the places before and behind a listed one to each other.
#[inline(always)]
pub(super) fn unlink<L, A: Allocator>(
    nodes: &mut Vec<Node<L>, A>,
    front: &mut OptionalPlace,
    back: &mut OptionalPlace,
    place: usize,
)
    requires { CanUnlink nodes.old.items place }
    ensures { Rewrites nodes.old nodes.new
        (λ old new. Unlinks old new front.old front.new back.old back.new place) }
{
    let previous = nodes[place].standing.previous();
    let next = nodes[place].next;
    set_next(nodes, front, previous, next);
    set_previous(nodes, back, next, previous);
}

/// Marks the place as detached.
pub(super) fn set_detached<L, A: Allocator>(nodes: &mut Vec<Node<L>, A>, place: usize)
    requires { place < length nodes.old.items }
    ensures { Rewrites nodes.old nodes.new (λ old new. SetsDetached old new place) }
{
    let node = &mut nodes[place];
    node.standing = Standing::detached();
}

/// Makes the place free, ahead of the free places from `free` on.
pub(super) fn release<L, A: Allocator>(
    nodes: &mut Vec<Node<L>, A>,
    place: usize,
    free: OptionalPlace,
)
    requires { place < length nodes.old.items }
    ensures { Rewrites nodes.old nodes.new (λ old new. Releases old new place free) }
{
    let node = &mut nodes[place];
    node.next = free;
    node.standing = Standing::free();
}

/// Writes the node at a free place: the one that was freed last, else the one behind the nodes.
pub(super) fn claim<L: Copy, A: Allocator>(
    nodes: &mut Vec<Node<L>, A>,
    free: &mut OptionalPlace,
    node: Node<L>,
) -> usize
    requires { CanClaim nodes.old.items free.old (vec_capacity nodes.old) }
    ensures claims { Rewrites nodes.old nodes.new
        (λ old new. Claims old new free.old free.new node result) }
    ensures within { result < length nodes.new.items }
{
    match free.get() {
        Some(place) => {
            let slot = &mut nodes[place];
            *free = slot.next;
            *slot = node;
            place
        }
        None => {
            let place = nodes.len();
            nodes.push_reserved(node);
            place
        }
    }
}
