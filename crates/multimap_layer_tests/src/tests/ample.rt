//! The calls of slot list and tape with ample memory, and a step from the ends of a row.
use crate::tests::slots::{Items, List, expect_on, expect_slots};
use crate::tests::uses::{
    Used, push_at_end, push_linked_as, push_with_room, take_from, take_from_tape, use_listed,
    use_listed_on_tape,
};
use multimap_slots::{Reads, SlotList, Tape};
use multimap_walks::{ChainEnds, End, ValueLink};
use std::mem::size_of;
use test_helpers::{Failed, Test, is_shown, lend, test_on_new};

// A place that no list of these tests has.
const NOWHERE: usize = 1000;

fn push(test: &Test, list: &mut List, item: usize) -> usize {
    let place = list.push_back(item, 1);
    test.expect(place.is_ok());
    place.unwrap_or(NOWHERE)
}

// Items 10, 20, 30 at a, b, c: one goes, one comes, and the first goes.
fn items_keep_their_places(test: &Test, list: &mut List) {
    let a = push(test, list, 10);
    let b = push(test, list, 20);
    let c = push(test, list, 30);
    test.expect(list.remove(b) == Some(20));
    test.expect(list.remove(b).is_none());
    test.expect(list.next_place(a) == Some(c));
    test.expect(list.previous_place(c) == Some(a));
    one_comes_and_the_first_goes(test, list, a, c);
}

fn one_comes_and_the_first_goes(test: &Test, list: &mut List, a: usize, c: usize) {
    let d = push(test, list, 40);
    expect_slots(test, list, &[(a, 10, 1), (c, 30, 1), (d, 40, 1)]);
    test.expect(!list.is_dense());
    test.expect(list.remove(a) == Some(10));
    test.expect(list.front_place() == Some(c));
}

fn two_are_pushed(test: &Test, list: &mut List) {
    test.expect(push(test, list, 10) == 0);
    test.expect(push(test, list, 20) == 1);
    test.expect(is_shown(test.alloc(), list, "{0: 10, 1: 20}"));
    test.expect(list.is_dense());
}

// Writes the value at a place, and returns whether there is one.
fn is_written<T: Copy>(place: Option<&mut T>, value: T) -> bool {
    match place {
        Some(old) => {
            *old = value;
            true
        }
        None => false,
    }
}

fn an_item_is_written(test: &Test, list: &mut List) {
    test.expect(is_written(list.get_mut(0), 11));
    test.expect(is_written(list.link_mut(0), 9));
    test.expect(list.get_mut(NOWHERE).is_none());
    test.expect(list.link_mut(NOWHERE).is_none());
    expect_slots(test, list, &[(0, 11, 9), (1, 20, 1)]);
}

fn a_list_is_cleared(test: &Test, list: &mut List) {
    let capacity = list.capacity();
    test.expect(list.used_slots() == 2);
    list.clear_listed();
    test.expect(list.used_slots() == 0);
    test.expect(list.is_empty() && list.is_dense());
    test.expect(list.capacity() == capacity);
}

// The item behind the first one was written.
fn expect_used(test: &Test, first: usize, used: Option<Used>) {
    test.expect(used == Some((Some(first), (21, 3), None)));
}

fn listed_slots_answer(test: &Test, list: &mut List) {
    test.expect(push_with_room(list, 5, 5).is_none());
    test.expect(list.reserve(2).is_ok());
    let a = push_with_room(list, 10, 1).unwrap_or(NOWHERE);
    let b = push_with_room(list, 20, 2).unwrap_or(NOWHERE);
    expect_used(test, a, use_listed(list, b, (21, 3), &mut Reads::new()));
    test.expect(take_from(list, a) == Some((10, 1)));
    expect_slots(test, list, &[(b, 21, 3)]);
}

fn calls_of_a_list_answer(test: &Test, list: &mut List) {
    listed_slots_answer(test, list);
    a_list_is_cleared(test, list);
    two_are_pushed(test, list);
    an_item_is_written(test, list);
    list.clear();
    items_keep_their_places(test, list);
}

fn a_counter_has_no_bytes(test: &Test) {
    test.expect(Reads::new().clone().is_ok());
    test.expect(size_of::<Reads>() == 0);
}

#[test]
fn every_call_of_a_slot_list_answers(rt: HostRuntime) -> Result<(), Failed> {
    let test = Test::new(rt.alloc());
    calls_of_a_list_answer(&test, &mut SlotList::new(test.alloc()));
    a_counter_has_no_bytes(&test);
    test.end()
}

fn listed_slots_of_a_tape_answer(test: &Test, tape: &mut Items) {
    test.expect(tape.is_empty());
    test.expect(push_at_end(tape, 5, 5).is_none());
    test.expect(tape.reserve(2).is_ok());
    let a = push_at_end(tape, 10, 1).unwrap_or(NOWHERE);
    let b = push_at_end(tape, 20, 2).unwrap_or(NOWHERE);
    let used = use_listed_on_tape(tape, b, (21, 3), &mut Reads::new());
    expect_used(test, a, used);
    test.expect(is_shown(test.alloc(), tape, "{0: 10, 1: 21}"));
}

fn an_item_of_a_tape_is_written(test: &Test, tape: &mut Items) {
    test.expect(is_written(tape.get_mut(0), 11));
    test.expect(is_written(tape.link_mut(0), 9));
    expect_on(test, tape, &[(0, 11, 9), (1, 21, 3)]);
}

fn a_link_is_copied(test: &Test, tape: &Items, copies: &mut Items) {
    test.expect(push_linked_as(copies, 5, tape, 1).is_none());
    test.expect(copies.reserve(1).is_ok());
    test.expect(push_linked_as(copies, 5, tape, NOWHERE).is_none());
    test.expect(push_linked_as(copies, 31, tape, 1) == Some(0));
    expect_on(test, copies, &[(0, 31, 3)]);
}

fn an_item_of_a_tape_is_taken(test: &Test, tape: &mut Items) {
    test.expect(take_from_tape(tape, 0) == Some((11, 9)));
    test.expect(take_from_tape(tape, 0).is_none());
    test.expect(!tape.is_listed(0) && !tape.is_listed(NOWHERE));
    test.expect(tape.is_listed(1));
    expect_on(test, tape, &[(1, 21, 3)]);
}

fn calls_of_a_tape_answer(test: &Test, tape: &mut Items) {
    listed_slots_of_a_tape_answer(test, tape);
    an_item_of_a_tape_is_written(test, tape);
    lend(
        Tape::new(test.alloc()),
        |copies| a_link_is_copied(test, tape, copies),
    );
    an_item_of_a_tape_is_taken(test, tape);
}

#[test]
fn every_call_of_a_tape_answers(rt: HostRuntime) -> Result<(), Failed> {
    test_on_new(rt.alloc(), Tape::new, calls_of_a_tape_answer)
}

const ROW: ChainEnds = ChainEnds {
    first: 3,
    last: 8,
    length: 2,
};

const LAST: ValueLink = ValueLink {
    key: 0,
    previous: Some(3),
    next: None,
};

fn is_one(row: ChainEnds, place: usize) -> bool {
    row.first == place && row.last == place && row.length == 1
}

#[test]
fn a_row_is_shortened_at_either_end(rt: HostRuntime) -> Result<(), Failed> {
    let test = Test::new(rt.alloc());
    test.expect(ROW.place_at(End::Front) == 3);
    test.expect(ROW.place_at(End::Back) == 8);
    test.expect(is_one(ROW.after(End::Front, 8), 8));
    test.expect(is_one(ROW.after(End::Back, 3), 3));
    test.expect(LAST.step_from(End::Front).is_none());
    test.expect(LAST.step_from(End::Back) == Some(3));
    test.end()
}
