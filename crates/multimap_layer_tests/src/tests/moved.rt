//! Items that move to an end of a list, or stand in another order.
ghost use Rattle.std.specs.Prelude.{◌≡◌};
ghost use Rattle.multimap_slots.specs.Lists.{IsIn, moved_first, moved_last};

use crate::tests::slots::{List, Slot, expect_slots};
use multimap_slots::{Reads, SlotList};
use test_helpers::{Failed, Test, test_on_new};

/// Puts an item last, if one is there.
fn bring_last(list: &mut List, place: usize)
    ensures { IsIn place list.old.order
        → list.new ≡ record list.old { order = moved_last list.old.order place } }
{
    if list.get(place, &mut Reads::new()).is_some() {
        list.move_to_back(place);
    }
}

/// Puts an item first, if one is there.
fn bring_first(list: &mut List, place: usize)
    ensures { IsIn place list.old.order
        → list.new ≡ record list.old { order = moved_first list.old.order place } }
{
    if list.get(place, &mut Reads::new()).is_some() {
        list.move_to_front(place);
    }
}

// A place that goes last or first of three, one after another, and the slots then.
const MOVES: &[(usize, bool, &[Slot])] = &[
    (2, true, &[(0, 10, 1), (1, 11, 2), (2, 12, 3)]),
    (0, true, &[(1, 11, 2), (2, 12, 3), (0, 10, 1)]),
    (2, true, &[(1, 11, 2), (0, 10, 1), (2, 12, 3)]),
    (2, false, &[(2, 12, 3), (1, 11, 2), (0, 10, 1)]),
    (1, false, &[(1, 11, 2), (2, 12, 3), (0, 10, 1)]),
    (1, false, &[(1, 11, 2), (2, 12, 3), (0, 10, 1)]),
    (3, false, &[(1, 11, 2), (2, 12, 3), (0, 10, 1)]),
];

fn items_move(test: &Test, list: &mut List) {
    for (item, link) in [(10, 1), (11, 2), (12, 3)] {
        test.expect(list.push_back(item, link).is_ok());
    }
    for (place, last, slots) in MOVES {
        if *last {
            bring_last(list, *place);
        } else {
            bring_first(list, *place);
        }
        expect_slots(test, list, slots);
    }
}

#[test]
fn items_move_to_an_end(rt: HostRuntime) -> Result<(), Failed> {
    test_on_new(rt.alloc(), SlotList::new, items_move)
}

/// Makes a list of three items, and brings the last one first, if there is memory.
fn make_rotated(list: &mut List) -> bool {
    list.clear();
    let Ok(first) = list.push_back(10, 1) else {
        return false;
    };
    let Ok(second) = list.push_back(11, 2) else {
        return false;
    };
    let Ok(third) = list.push_back(12, 3) else {
        return false;
    };
    list.set_order(&[third, first, second]);
    true
}

fn items_rotate(test: &Test, list: &mut List) {
    test.expect(make_rotated(list));
    expect_slots(test, list, &[(2, 12, 3), (0, 10, 1), (1, 11, 2)]);
    test.expect(list.push_back(13, 4).is_ok() && list.remove(0) == Some(10));
    expect_slots(test, list, &[(2, 12, 3), (1, 11, 2), (3, 13, 4)]);
}

#[test]
fn items_stand_in_a_new_order(rt: HostRuntime) -> Result<(), Failed> {
    test_on_new(rt.alloc(), SlotList::new, items_rotate)
}
