//! Slot list and tape with refused memory: each request in turn.
use crate::tests::slots::{Slot, add_slots, add_slots_on};
use multimap_slots::{SlotList, Tape};
use refusing_allocator::RefusingAllocator;
use std::alloc::{AllocError, Allocator};
use test_helpers::{Failed, Test, lend, requests_until_enough, try_on_new};

// Which of both.
#[derive(Clone, Copy)]
enum Kind {
    List,
    Tape,
}

// A slot list or a tape.
#[derive(Drop)]
enum Both<A: Allocator> {
    List(SlotList<usize, u8, A>),
    Tape(Tape<usize, u8, A>),
}

impl<A: Allocator + Copy> Both<A> {
    fn with_capacity(kind: Kind, alloc: A, capacity: usize) -> Result<Both<A>, AllocError> {
        match kind {
            Kind::List => Ok(Both::List(SlotList::with_capacity(alloc, capacity)?)),
            Kind::Tape => Ok(Both::Tape(Tape::with_capacity(alloc, capacity)?)),
        }
    }

    fn new(alloc: A, kind: Kind) -> Both<A> {
        match kind {
            Kind::List => Both::List(SlotList::new(alloc)),
            Kind::Tape => Both::Tape(Tape::new(alloc)),
        }
    }

    fn capacity(&self) -> usize {
        match self {
            Both::List(list) => list.capacity(),
            Both::Tape(tape) => tape.capacity(),
        }
    }

    // Whether the next push takes no memory.
    fn has_room(&self) -> bool {
        match self {
            Both::List(list) => list.len() != list.capacity(),
            Both::Tape(tape) => tape.has_end_room(),
        }
    }

    fn reserve(&mut self, additional: usize) -> Result<(), AllocError> {
        match self {
            Both::List(list) => list.reserve(additional),
            Both::Tape(tape) => tape.reserve(additional),
        }
    }

    fn push_back(&mut self, item: usize, link: u8) -> Result<usize, usize> {
        match self {
            Both::List(list) => list.push_back(item, link),
            Both::Tape(tape) => tape.push_back(item, link),
        }
    }

    fn remove(&mut self, place: usize) -> Option<usize> {
        match self {
            Both::List(list) => list.remove(place),
            Both::Tape(tape) => tape.remove(place),
        }
    }

    fn add_slots(&self, test: &Test, slots: &mut Vec<Slot>) {
        match self {
            Both::List(list) => add_slots(test, list, slots),
            Both::Tape(tape) => add_slots_on(test, tape, slots),
        }
    }

    // Each slot from the front.
    fn slots(&self, test: &Test) -> Vec<Slot> {
        let mut slots = Vec::new(test.alloc());
        self.add_slots(test, &mut slots);
        slots
    }
}

// Pushes an item, and returns its place.
fn push<A: Allocator + Copy>(test: &Test, list: &mut Both<A>, item: usize, link: u8) -> usize {
    let pushed = list.push_back(item, link);
    test.expect(pushed.is_ok());
    pushed.unwrap_or(0)
}

// More slots than any list of these tests has free.
const MANY: usize = 40;

// A call that may find no memory.
#[derive(Clone, Copy)]
enum Call {
    PushBack,
    Reserve,
}

// Pushes items until the next one would take memory.
fn fill_up<A: Allocator + Copy>(test: &Test, list: &mut Both<A>) {
    for item in 0..MANY {
        if list.has_room() {
            let _place = push(test, list, item, 7);
        }
    }
    test.expect(!list.has_room());
}

// Items of which one goes and others come, so that places don't rise along a slot list, and a tape
// has a hole.
fn make_full<A: Allocator + Copy>(test: &Test, list: &mut Both<A>) {
    for item in 0..4usize {
        let place = push(test, list, item, 7);
        if item == 1 {
            test.expect(list.remove(place) == Some(1));
        }
    }
    fill_up(test, list);
}

// Whether the call has memory enough. A refused push hands its item back.
fn is_enough<A: Allocator + Copy>(test: &Test, list: &mut Both<A>, call: Call) -> bool {
    match call {
        Call::PushBack => match list.push_back(50, 9) {
            Ok(_) => true,
            Err(returned) => {
                test.expect(returned == 50);
                false
            }
        },
        Call::Reserve => list.reserve(20).is_ok(),
    }
}

// After a refusal the list is as before.
fn call_and_compare<A: Allocator + Copy>(test: &Test, list: &mut Both<A>, call: Call) -> bool {
    let before = list.slots(test);
    let capacity = list.capacity();
    let enough = is_enough(test, list, call);
    test.expect(list.capacity() >= capacity);
    test.expect(enough || list.slots(test) == before);
    enough
}

fn call_on(test: &Test, kind: Kind, call: Call, granted: u64) -> bool {
    try_on_new!(test, granted; Both::new, kind; make_full; call_and_compare, call)
}

fn refusals_change_nothing(test: &Test, kind: Kind, call: Call) {
    let enough = requests_until_enough(|granted| call_on(test, kind, call, granted));
    test.expect(enough.unwrap_or(0) > 0);
}

fn is_made<A: Allocator + Copy>(kind: Kind, allocator: A, room: usize) -> bool {
    match Both::with_capacity(kind, allocator, room) {
        Ok(list) => list.capacity() >= room,
        Err(_) => false,
    }
}

fn make_with(test: &Test, kind: Kind, granted: u64) -> bool {
    let allocator = RefusingAllocator::new(test.alloc(), granted);
    test.expect(is_made(kind, &allocator, 0));
    test.expect(allocator.granted() == granted);
    let enough = is_made(kind, &allocator, 5);
    test.expect(enough != allocator.refused());
    enough
}

fn lists_are_made(test: &Test, kind: Kind) {
    let enough = requests_until_enough(|granted| make_with(test, kind, granted));
    test.expect(enough.unwrap_or(0) > 0);
}

// Three come, one goes, and others come.
fn room_is_used<A: Allocator + Copy>(test: &Test, list: &mut Both<A>) {
    for item in 0..3usize {
        let _place = push(test, list, item, 7);
    }
    test.expect(list.remove(0) == Some(0));
    fill_up(test, list);
}

fn fill_room<A: Allocator + Copy>(test: &Test, memory: &RefusingAllocator, list: &mut Both<A>) {
    test.expect(list.reserve(3).is_ok());
    memory.refuse_all();
    room_is_used(test, list);
    test.expect(!memory.refused());
    test.expect(!is_enough(test, list, Call::PushBack));
}

fn room_of(test: &Test, kind: Kind) {
    let allocator = RefusingAllocator::unlimited(test.alloc());
    lend(Both::new(&allocator, kind), |list| {
        fill_room(test, &allocator, list);
    });
}

#[test]
fn refusals_change_nothing_and_room_is_used(rt: HostRuntime) -> Result<(), Failed> {
    let test = Test::new(rt.alloc());
    for kind in [Kind::List, Kind::Tape] {
        refusals_change_nothing(&test, kind, Call::PushBack);
        refusals_change_nothing(&test, kind, Call::Reserve);
        lists_are_made(&test, kind);
        room_of(&test, kind);
    }
    test.end()
}
