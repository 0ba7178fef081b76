//! Callers of the right to write a list's items, proved from its public contracts alone.
ghost use Rattle.std.specs.Prelude.{◌≡◌, ℕ, IsSome, None, Some, get_or, length};
ghost use Rattle.multimap_slots.specs.Lists.{IsIn};
ghost use Rattle.multimap_slots.specs.Slots.{IsDetached};
ghost use Rattle.multimap_slots.specs.SlotCells.{lent_slots, IsLeft};
ghost use Rattle.multimap_slots.specs.Tapes.{KeepsCounts};

use crate::tests::slots::{Items, List};
use multimap_slots::{Cells, SlotCells};

/// How many items are lent, and the places of the first and of the last.
pub type Lent = (usize, Option<usize>, Option<usize>);

/// Of the second item the link and the places beside it, and those that the calls tell that ask for
/// a neighbour.
pub type Second = (u8, Option<usize>, Option<usize>, (usize, usize));

/// What stood at both ends.
pub type Ends = (usize, usize);

/// What the list that lends its items shows, what was read at both ends before an item was taken,
/// and what stood there once both were.
pub type Lending = (Lent, Option<Second>, Option<Ends>, Option<Ends>);

fn lent_of(cells: &SlotCells<'_, usize, u8>) -> Lent {
    (cells.len(), cells.front_place(), cells.back_place())
}

// No item was taken yet, so that each place may be asked for its neighbours.
fn second_of(cells: &SlotCells<'_, usize, u8>) -> Option<Second>
    requires left { (p : ℕ) → IsIn p (lent_slots cells.now).order → IsLeft cells.now p }
{
    let first = cells.front_place()?;
    let second = cells.next_place(first)?;
    let link = cells.link(second);
    let before = cells.previous_place(second);
    let behind = cells.next_place(second);
    if before.is_none() || behind.is_none() {
        return None;
    }
    let beside = (cells.preceding_place(second), cells.following_place(second));
    Some((link, before, behind, beside))
}

fn read_ends(cells: &SlotCells<'_, usize, u8>) -> Option<Ends>
    requires left { (p : ℕ) → IsIn p (lent_slots cells.now).order → IsLeft cells.now p }
{
    let front = cells.front_place()?;
    let back = cells.back_place()?;
    Some((*cells.read(front), *cells.read(back)))
}

// Writes the items at both ends while both references live, and returns what stood there: the last
// one is read beside the reference to the first.
fn write_ends(cells: &mut SlotCells<'_, usize, u8>, first: usize, last: usize) -> Option<Ends>
    requires left { (p : ℕ) → IsIn p (lent_slots cells.old).order → IsLeft cells.old p }
{
    let front = cells.front_place()?;
    let back = cells.back_place()?;
    if front == back {
        return None;
    }
    let at_front = cells.take(front);
    let were = (*at_front, *cells.read(back));
    let at_back = cells.take(back);
    *at_front = first;
    *at_back = last;
    Some(were)
}

/// Reads the order and both ends of a tape that lends its items, and writes the items at both ends
/// while both references live. The right to write the others is given up, and what is detached stays
/// so.
pub fn write_tape_ends(tape: &mut Items, first: usize, last: usize) -> Lending
    ensures order { tape.new.list.order ≡ tape.old.list.order }
    ensures links { tape.new.list.links ≡ tape.old.list.links }
    ensures capacity { tape.new.list.capacity ≡ tape.old.list.capacity }
    ensures counts { KeepsCounts tape.old tape.new }
    ensures detached { (p : ℕ) → IsDetached tape.old.list p → IsDetached tape.new.list p }
{
    let mut cells = tape.cells();
    let lent = lent_of(&cells);
    let second = second_of(&cells);
    let read = read_ends(&cells);
    let were = write_ends(&mut cells, first, last);
    cells.end();
    (lent, second, read, were)
}

// Writes the last item once the order is given up, and gives up the right to the others.
fn write_without_order(cells: SlotCells<'_, usize, u8>, last: usize) -> Option<usize>
    requires left { (p : ℕ) → IsIn p (lent_slots cells).order → IsLeft cells p }
{
    let Some(back) = cells.back_place() else {
        return None;
    };
    let mut rest = cells.into_cells();
    let at_back = rest.take(back);
    rest.end();
    let was = *at_back;
    *at_back = last;
    Some(was)
}

/// Writes the last item of a list by the cells without the order, and returns what stood there.
/// What is detached stays so.
pub fn write_last(list: &mut List, last: usize) -> Option<usize>
    ensures order { list.new.order ≡ list.old.order }
    ensures detached { (p : ℕ) → IsDetached list.old p → IsDetached list.new p }
{
    write_without_order(list.cells(), last)
}

/// Writes the first and the third item of a slice of slots while both references live. Returns how
/// many slots there are, what was read of both items, the third beside the reference to the first,
/// and what stood there.
pub fn write_slots(slots: &mut [Option<usize>], first: usize, third: usize) -> (usize, Ends, Ends)
    requires first { IsSome (get_or slots.old 0 None) }
    requires third { IsSome (get_or slots.old 2 None) }
    ensures length { result.0 ≡ length slots.old }
    ensures read_first { get_or slots.old 0 None ≡ Some result.1.0 }
    ensures read_third { get_or slots.old 2 None ≡ Some result.1.1 }
{
    let mut cells = Cells::new(slots);
    let read_first = *cells.read(0);
    let at_first = cells.take(0);
    let read = (read_first, *cells.read(2));
    let at_third = cells.take(2);
    let length = cells.len();
    cells.end();
    let were = (*at_first, *at_third);
    *at_first = first;
    *at_third = third;
    (length, read, were)
}
