//! The lists of most of these tests, and what a test sees of one.
use multimap_slots::{Reads, SlotList, Tape};
use std::alloc::Allocator;
use test_helpers::Test;

pub type List = SlotList<usize, u8>;

pub type Items = Tape<usize, u8>;

/// A place, its item, and its link.
pub type Slot = (usize, usize, u8);

// What stands at a place that is told as that of an item.
fn slot_of(place: usize, found: Option<(&usize, u8)>) -> Slot {
    match found {
        Some((item, link)) => (place, *item, link),
        None => (place, 0, 0),
    }
}

macro_rules! add_slots {
    ($test:ident, $items:ident, $slots:ident, $previous:ident, $next:ident) => {
        let mut following = $items.front_place();
        let mut earlier = None;
        for _ in 0..$items.len() {
            let place = following.unwrap_or(0);
            let before = $items.$previous(place);
            $test.expect(before == earlier);
            let slot = slot_of(place, $items.get(place, &mut Reads::new()));
            $test.expect($slots.push(slot).is_ok());
            earlier = following;
            following = $items.$next(place);
        }
        $test.expect($items.back_place() == earlier);
    };
}

/// Adds each slot from the front. The places have to be the same from the back.
pub fn add_slots<A: Allocator>(test: &Test, list: &SlotList<usize, u8, A>, slots: &mut Vec<Slot>) {
    add_slots!(test, list, slots, previous_place, next_place);
}

/// The same of a tape.
pub fn add_slots_on<A: Allocator>(test: &Test, tape: &Tape<usize, u8, A>, slots: &mut Vec<Slot>) {
    add_slots!(test, tape, slots, previous_place_before, next_place_after);
}

/// Expects these slots and no others.
pub fn expect_slots(test: &Test, list: &List, wanted: &[Slot]) {
    let slots = &mut Vec::new(test.alloc());
    add_slots(test, list, slots);
    test.expect(slots.as_slice() == wanted);
}

/// The same of a tape.
pub fn expect_on(test: &Test, tape: &Items, wanted: &[Slot]) {
    let slots = &mut Vec::new(test.alloc());
    add_slots_on(test, tape, slots);
    test.expect(slots.as_slice() == wanted);
}
