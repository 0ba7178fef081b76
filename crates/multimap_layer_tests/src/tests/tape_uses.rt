//! Callers of the tape, proved from its public contracts alone, and holes that are closed.
ghost use Rattle.std.specs.Prelude.{◌≡◌, ◌+◌, ◌≤◌, ◌<◌, ℕ, false, IsTrue};
ghost use Rattle.multimap_slots.specs.Lists.{IsIn};
ghost use Rattle.multimap_slots.specs.Slots.{IsDetached, item_at};
ghost use Rattle.multimap_slots.specs.Tapes.{Frees, KeepsCounts};

use crate::tests::slots::{Items, expect_on};
use multimap_slots::{Reads, Tape};
use test_helpers::{Failed, Test};

/// Whether an item of the list stands at a place.
pub fn is_listed<T>(tape: &Tape<T, u8>, place: usize) -> bool
    ensures { IsTrue result → IsIn place tape.now.list.order }
{
    tape.get(place, &mut Reads::new()).is_some()
}

/// Whether the item at `from` may go down to `to`: there are holes alone on its way.
pub fn can_move_down(tape: &Items, from: usize, to: usize) -> bool
    ensures listed { IsTrue result → IsIn from tape.now.list.order }
    ensures down { IsTrue result → to < from }
    ensures holes { IsTrue result → (q : ℕ) → to ≤ q → q < from → ¬ IsIn q tape.now.list.order }
{
    // The length tells the proof that places rise along the list.
    let _len = tape.len();
    if !is_listed(tape, from) || from <= to {
        return false;
    }
    match tape.previous_place_before(from) {
        Some(before) => before < to,
        None => true,
    }
}

/// Detaches the item at a place, if one of the list is there, and returns whether there was.
pub fn detach_listed<T>(tape: &mut Tape<T, u8>, place: usize) -> bool
    ensures detached { IsTrue result → IsDetached tape.new.list place }
    ensures item { IsTrue result → item_at tape.new.list place ≡ item_at tape.old.list place }
    ensures freed { IsTrue result → Frees tape.old tape.new }
    ensures kept { result ≡ false → tape.new ≡ tape.old }
{
    // The length tells the proof that each listed place has an item.
    let _len = tape.len();
    let is_there = is_listed(tape, place);
    if is_there {
        tape.detach(place);
    }
    is_there
}

/// Takes the item at a place out of the list and then out of its slot, if one is there, and returns
/// it with its link, as each of the two calls returns it.
pub fn take_with_links(tape: &mut Items, place: usize) -> Option<(usize, u8, u8)> {
    // The length tells the proof that each listed place has an item.
    let _len = tape.len();
    if !is_listed(tape, place) {
        return None;
    }
    let link = tape.detach_linked(place);
    let (item, same) = tape.take_detached_linked(place);
    Some((item, link, same))
}

/// Takes both items out, and returns whether both were there.
pub fn remove_both(tape: &mut Items, first: usize, second: usize) -> bool
    ensures moved { tape.new.moved ≡ tape.old.moved }
    ensures freed { IsTrue result → tape.new.freed ≡ tape.old.freed + 2 }
{
    let first = tape.remove(first);
    let second = tape.remove(second);
    first.is_some() && second.is_some()
}

/// Moves an item down, if it may go, and returns whether it went.
pub fn move_if_free(tape: &mut Items, from: usize, to: usize) -> bool
    ensures moved { IsTrue result → tape.new.moved ≡ tape.old.moved + 1 }
    ensures freed { tape.new.freed ≡ tape.old.freed }
    ensures kept { result ≡ false → tape.new ≡ tape.old }
{
    let is_free = can_move_down(tape, from, to);
    if is_free {
        tape.move_down(from, to);
    }
    is_free
}

/// Cuts the end, and returns whether the list has no hole then.
pub fn cut_to_no_hole(tape: &mut Items) -> bool
    ensures holes { IsTrue result → tape.new.holes ≡ 0 }
    ensures moved { tape.new.moved ≡ tape.old.moved }
    ensures freed { tape.new.freed ≡ tape.old.freed }
{
    tape.cut_end();
    match tape.back_place() {
        Some(last) => last < tape.len(),
        None => true,
    }
}

/// The places of 10, 20, 30 and 40.
pub type Four = (usize, usize, usize, usize);

/// Pushes 10, 20, 30 and 40.
pub fn push_four(tape: &mut Items) -> Four
    ensures { KeepsCounts tape.old tape.new }
{
    let p0 = tape.push_back(10, 1).unwrap_or(9);
    let p1 = tape.push_back(20, 2).unwrap_or(9);
    let p2 = tape.push_back(30, 3).unwrap_or(9);
    let p3 = tape.push_back(40, 4).unwrap_or(9);
    (p0, p1, p2, p3)
}

fn close(tape: &mut Items, places: Four) -> bool
    ensures moved { IsTrue result → tape.new.moved ≡ tape.old.moved + 2 }
    ensures freed { IsTrue result → tape.new.freed ≡ tape.old.freed }
    ensures holes { IsTrue result → tape.new.holes ≡ 0 }
{
    let first = move_if_free(tape, places.1, places.0);
    let second = move_if_free(tape, places.3, places.1);
    cut_to_no_hole(tape) && first && second
}

// On a new tape: two of four items go, and the others are moved down. The contract has the numbers.
fn closes_two_holes(test: &Test, tape: &mut Items) -> bool
    requires moved { tape.old.moved ≡ 0 }
    requires freed { tape.old.freed ≡ 0 }
    ensures moved { IsTrue result → tape.new.moved ≡ 2 }
    ensures freed { IsTrue result → tape.new.freed ≡ 2 }
    ensures holes { IsTrue result → tape.new.holes ≡ 0 }
{
    let places = push_four(tape);
    let are_removed = remove_both(tape, places.0, places.2);
    expect_on(test, tape, &[(places.1, 20, 2), (places.3, 40, 4)]);
    test.expect(tape.push_place() == 4);
    let are_closed = close(tape, places);
    expect_on(test, tape, &[(places.0, 20, 2), (places.1, 40, 4)]);
    test.expect(tape.push_place() == 2);
    are_removed && are_closed
}

#[test]
fn items_of_a_tape_go_down_over_holes(rt: HostRuntime) -> Result<(), Failed> {
    let test = Test::new(rt.alloc());
    let closes = closes_two_holes(&test, &mut Tape::new(test.alloc()));
    test.expect(closes);
    test.end()
}
