//! Items that leave the order, the right to write the others, and what is dropped once.
ghost use Rattle.multimap_slots.specs.Slots.{IsDetached};

use crate::tests::cell_uses::{Lending, write_last, write_slots, write_tape_ends};
use crate::tests::slots::{Items, List, expect_on, expect_slots};
use crate::tests::tape_uses::push_four;
use crate::tests::{tape_uses, uses};
use multimap_slots::{SlotList, Tape};
use std::rc::Rc;
use test_helpers::{Failed, Test, test_on_share};

// The second item is detached: it is no item of the list, and stays at its place.
fn it_has_left_the_list(test: &Test, list: &mut List, detached: usize)
    requires { IsDetached list.old detached }
    ensures { IsDetached list.new detached }
{
    expect_slots(test, list, &[(0, 10, 1), (2, 30, 3)]);
    test.expect(uses::remove_none(list, detached));
    let (item, link) = list.get_detached(detached);
    test.expect((*item, link) == (20, 2));
    let place = uses::push_beside(list, 40, detached);
    test.expect(place == Some(3));
    test.expect(write_last(list, 42) == Some(40));
    expect_slots(test, list, &[(0, 10, 1), (2, 30, 3), (3, 42, 4)]);
}

// The items of the list go, and the detached one stays.
fn the_list_is_cleared(test: &Test, list: &mut List, detached: usize)
    requires { IsDetached list.old detached }
    ensures { IsDetached list.new detached }
{
    let capacity = list.capacity();
    test.expect(uses::clear_beside(list, detached) == (20, 2));
    test.expect(list.is_empty());
    test.expect(list.capacity() == capacity);
}

// Items 10, 20 and 30: the second is detached, and 40 comes.
fn items_leave_and_are_written(test: &Test, list: &mut List) {
    let _first = list.push_back(10, 1);
    let detached = list.push_back(20, 2).unwrap_or(9);
    let _third = list.push_back(30, 3);
    if !uses::detach_listed(list, detached) {
        return test.fail();
    }
    it_has_left_the_list(test, list, detached);
    the_list_is_cleared(test, list, detached);
    test.expect(list.take_detached(detached) == 20);
}

// Of three items that are lent: the ends, the second one's link and neighbours, and both ends
// before they were written.
fn expect_lent(test: &Test, lending: Lending) {
    let (lent, second, read, were) = lending;
    test.expect(lent == (3, Some(0), Some(3)));
    test.expect(second == Some((3, Some(0), Some(3), (0, 3))));
    test.expect(read == Some((10, 40)));
    test.expect(were == Some((10, 40)));
}

fn it_has_left_the_tape(test: &Test, tape: &Items, detached: usize)
    requires { IsDetached tape.now.list detached }
{
    let (item, link) = tape.get_detached(detached);
    test.expect((*item, link) == (20, 2));
}

// Items 10, 20, 30 and 40: the second is detached, and the ends of the others are written.
fn items_of_a_tape_leave_and_are_written(test: &Test, tape: &mut Items) {
    let places = push_four(tape);
    if !tape_uses::detach_listed(tape, places.1) {
        return test.fail();
    }
    it_has_left_the_tape(test, tape, places.1);
    expect_lent(test, write_tape_ends(tape, 11, 41));
    expect_on(test, tape, &[(0, 11, 1), (2, 30, 3), (3, 41, 4)]);
    test.expect(tape.take_detached(places.1) == 20);
    test.expect(tape_uses::take_with_links(tape, 2) == Some((30, 3, 3)));
    expect_on(test, tape, &[(0, 11, 1), (3, 41, 4)]);
}

fn a_slice_of_slots_is_written(test: &Test) {
    let mut slots = [Some(10), None, Some(30), Some(40)];
    let (length, read, were) = write_slots(&mut slots, 11, 31);
    test.expect(length == 4);
    test.expect(read == (10, 30) && were == (10, 30));
    let wanted = [Some(11), None, Some(31), Some(40)];
    test.expect(slots == wanted);
}

#[test]
fn items_leave_the_order_and_the_others_are_written(rt: HostRuntime) -> Result<(), Failed> {
    let test = Test::new(rt.alloc());
    items_leave_and_are_written(&test, &mut SlotList::new(test.alloc()));
    items_of_a_tape_leave_and_are_written(&test, &mut Tape::new(test.alloc()));
    a_slice_of_slots_is_written(&test);
    test.end()
}

type Shared = SlotList<Rc<u8>, u8>;

type Shares = Tape<Rc<u8>, u8>;

// The place at which a share of the item is pushed; one at which none is where memory was refused.
fn share_pushed<F: FnOnce(Rc<u8>) -> Result<usize, Rc<u8>> + Drop>(item: &Rc<u8>, push: F) -> usize
    requires { F.IsAlwaysCallable push }
{
    match item.clone() {
        Ok(share) => push(share).unwrap_or(9),
        Err(_) => 9,
    }
}

// Pushes a share of the item and detaches it.
fn add_detached(test: &Test, list: &mut Shared, item: &Rc<u8>) {
    let place = share_pushed(item, |share| list.push_back(share, 0));
    let detached = uses::detach_listed(list, place);
    test.expect(detached && Rc::strong_count(item) == 2);
}

fn add_detached_to_tape(test: &Test, tape: &mut Shares, item: &Rc<u8>) {
    let place = share_pushed(item, |share| tape.push_back(share, 0));
    let detached = tape_uses::detach_listed(tape, place);
    test.expect(detached && Rc::strong_count(item) == 2);
}

// The list ends here.
fn a_list_drops_what_is_detached(test: &Test, mut list: Shared, item: &Rc<u8>) {
    add_detached(test, &mut list, item);
    list.clear();
    test.expect(Rc::strong_count(item) == 1);
    add_detached(test, &mut list, item);
}

// The tape ends here.
fn a_tape_drops_what_is_detached(test: &Test, mut tape: Shares, item: &Rc<u8>) {
    add_detached_to_tape(test, &mut tape, item);
    tape.clear();
    test.expect(Rc::strong_count(item) == 1);
    add_detached_to_tape(test, &mut tape, item);
    tape.cut_end();
    test.expect(Rc::strong_count(item) == 1);
    add_detached_to_tape(test, &mut tape, item);
}

fn all_is_dropped(test: &Test, item: &Rc<u8>) {
    a_list_drops_what_is_detached(test, SlotList::new(test.alloc()), item);
    test.expect(Rc::strong_count(item) == 1);
    a_tape_drops_what_is_detached(test, Tape::new(test.alloc()), item);
    test.expect(Rc::strong_count(item) == 1);
}

#[test]
fn what_is_detached_is_dropped(rt: HostRuntime) -> Result<(), Failed> {
    test_on_share(rt.alloc(), all_is_dropped)
}
