//! Rows of the key table, against a plain list of them, and where memory is refused.
use crate::compared::Compared;
use multimap_table::KeyTable;
use refusing_allocator::RefusingAllocator;
use std::alloc::{AllocError, Allocator};
use test_helpers::{Failed, Test, expect_text, next_random, requests_until_enough};

/// An empty table with a plain list of this many places, and room for this many rows.
pub fn with_room<A: Allocator + Copy>(
    alloc: A,
    places: usize,
    room: usize,
) -> Result<Compared<A>, AllocError> {
    let mut rows = Compared::with_places(alloc, places)?;
    rows.reserve(room)?;
    Ok(rows)
}

fn rows_are_found(test: &Test, rows: &mut Compared) {
    test.expect(rows.table().is_empty());
    for (hash, place) in [(7, 0), (7, 3), (9, 4)] {
        test.expect(rows.insert(hash, place));
    }
    let third = rows.table().find(7, |place| place == 3);
    test.expect(third == Some(3));
    let other = rows.table().find(7, |place| place == 4);
    test.expect(other.is_none());
    test.expect(rows.table().find(8, |_| true).is_none());
}

fn the_other_rows_stay(test: &Test, rows: &mut Compared) {
    test.expect(rows.remove(0));
    test.expect(rows.table().len() == 2);
    test.expect(rows.table().find(7, |_| true) == Some(3));
    test.expect(rows.remove(4));
    let shown = format!(in test.alloc(); "{:?}", rows.table());
    expect_text(test, shown, "[(7, 3)]");
}

#[test]
fn a_row_is_found_by_hash_and_test(rt: HostRuntime) -> Result<(), Failed> {
    let test = Test::new(rt.alloc());
    match with_room(test.alloc(), 5, 3) {
        Ok(mut rows) => {
            rows_are_found(&test, &mut rows);
            the_other_rows_stay(&test, &mut rows);
        }
        Err(_) => test.fail(),
    }
    test.end()
}

fn rows_are_taken(test: &Test, rows: &mut Compared) {
    for (hash, place) in [(7, 0), (7, 3), (7, 1), (9, 4)] {
        test.expect(rows.insert(hash, place));
    }
    test.expect(rows.take(8, |_| true).is_none());
    test.expect(rows.take(7, |place| place == 4).is_none());
    test.expect(rows.table().len() == 4);
    test.expect(rows.take(7, |place| place == 3) == Some(3));
    test.expect(rows.take(7, |place| place == 3).is_none());
    test.expect(rows.differences() == 0);
}

fn the_rest_is_taken(test: &Test, rows: &mut Compared) {
    test.expect(rows.take(7, |place| place > 0) == Some(1));
    test.expect(rows.take(9, |_| true) == Some(4));
    let shown = format!(in test.alloc(); "{:?}", rows.table());
    expect_text(test, shown, "[(7, 0)]");
    test.expect(rows.take(7, |_| true) == Some(0));
    test.expect(rows.table().is_empty());
}

#[test]
fn a_row_is_taken_by_hash_and_test(rt: HostRuntime) -> Result<(), Failed> {
    let test = Test::new(rt.alloc());
    match Compared::with_places(test.alloc(), 5) {
        Ok(mut rows) => {
            test.expect(rows.take(7, |_| true).is_none());
            test.expect(rows.reserve(4).is_ok());
            test.expect(rows.take(7, |_| true).is_none());
            rows_are_taken(&test, &mut rows);
            the_rest_is_taken(&test, &mut rows);
        }
        Err(_) => test.fail(),
    }
    test.end()
}

// Rows of one hash fill the first two groups, so that others move back into each gap.
fn full_groups_are_taken_from(test: &Test, rows: &mut Compared) {
    for place in 0..40usize {
        test.expect(rows.insert(5, place));
    }
    for step in 0..40usize {
        let place = step * 7 % 40;
        test.expect_at(step, rows.take(5, |other| other == place) == Some(place));
        test.expect_at(step, rows.differences() == 0);
    }
    test.expect(rows.table().is_empty());
}

#[test]
fn rows_move_back_when_one_is_taken(rt: HostRuntime) -> Result<(), Failed> {
    let test = Test::new(rt.alloc());
    match with_room(test.alloc(), 40, 40) {
        Ok(mut rows) => full_groups_are_taken_from(&test, &mut rows),
        Err(_) => test.fail(),
    }
    test.end()
}

// These leave few different hashes, few tags, few groups to start from, or all hashes apart.
const MASKS: &[u64] = &[0xF, 0xFF00_0000_0000_0007, 0x0F00_0000_0000_FFFF, u64::MAX];

// Takes a row out by one of the two calls. Returns whether the place had one.
fn take_out(rows: &mut Compared, place: usize, random: u64) -> bool {
    if random & 1 == 0 {
        rows.remove(place)
    } else {
        rows.take_at(place)
    }
}

// Takes a row out, or puts one in where the place has none.
fn change_one(test: &Test, rows: &mut Compared, mask: u64, random: u64) {
    let place = (random >> 20) as usize % 2000;
    if !take_out(rows, place, random) {
        test.expect(rows.reserve(1).is_ok());
        test.expect(rows.insert(next_random(random) & mask, place));
    }
}

fn change_many(test: &Test, rows: &mut Compared, mask: u64) {
    let mut random = 88_172_645_463_325_252;
    for round in 0..20_000usize {
        random = next_random(next_random(random));
        change_one(test, rows, mask, random);
        if round % 4000 == 0 {
            test.expect(rows.differences() == 0);
        }
    }
    test.expect(rows.differences() == 0);
}

fn a_cleared_table_is_empty(test: &Test, table: &mut KeyTable) {
    let capacity = table.capacity();
    table.clear();
    test.expect(table.capacity() == capacity);
    test.expect(table.is_empty());
}

#[test]
fn a_table_agrees_with_a_plain_list(rt: HostRuntime) -> Result<(), Failed> {
    let test = Test::new(rt.alloc());
    for mask in MASKS {
        match Compared::with_places(test.alloc(), 2000) {
            Ok(mut rows) => {
                change_many(&test, &mut rows, *mask);
                a_cleared_table_is_empty(&test, &mut rows.into_table());
            }
            Err(_) => test.fail(),
        }
    }
    test.end()
}

fn is_made<A: Allocator + Copy>(allocator: A) -> bool {
    match KeyTable::with_capacity(allocator, 100) {
        Ok(table) => table.is_empty() && table.capacity() >= 100,
        Err(_) => false,
    }
}

// One table made with this many requests granted. It returns whether that was enough.
fn make_with(test: &Test, granted: u64) -> bool {
    let allocator = RefusingAllocator::new(test.alloc(), granted);
    let enough = is_made(&allocator);
    test.expect(enough != allocator.refused());
    enough
}

fn fill<A: Allocator + Copy>(test: &Test, rows: &mut Compared<A>) {
    for place in 0..100usize {
        test.expect(rows.insert(place as u64 % 7, place));
    }
}

// One growth past the capacity with this many requests granted.
fn grow_with<A: Allocator + Copy>(
    test: &Test,
    memory: &RefusingAllocator,
    rows: &mut Compared<A>,
    granted: u64,
) -> bool {
    let capacity = rows.table().capacity();
    memory.refuse_none();
    memory.grant(granted);
    let enough = rows.reserve(capacity).is_ok();
    test.expect(enough != memory.refused());
    test.expect(enough || rows.table().capacity() == capacity);
    test.expect(rows.differences() == 0);
    enough
}

// What has room goes on without memory: a row goes and comes again, and others come.
fn use_room<A: Allocator + Copy>(test: &Test, memory: &RefusingAllocator, rows: &mut Compared<A>) {
    let capacity = rows.table().capacity();
    test.expect(rows.reserve(usize::MAX).is_err());
    memory.refuse_all();
    test.expect(rows.reserve(capacity.saturating_sub(100)).is_ok());
    test.expect(rows.table().capacity() == capacity);
    test.expect(rows.remove(50));
    test.expect(rows.insert(3, 50));
    for place in 100..capacity {
        test.expect_at(place, rows.insert(3, place));
    }
    test.expect(rows.differences() == 0);
}

fn refuse<A: Allocator + Copy>(test: &Test, memory: &RefusingAllocator, rows: &mut Compared<A>) {
    fill(test, rows);
    use_room(test, memory, rows);
    for granted in 0..3u64 {
        let enough = grow_with(test, memory, rows, granted);
        test.expect(enough == (granted == 2));
    }
}

#[test]
fn refusals_change_nothing_and_room_is_used(rt: HostRuntime) -> Result<(), Failed> {
    let test = Test::new(rt.alloc());
    // One block for the tags, and one for the rows.
    let enough = requests_until_enough(|granted| make_with(&test, granted));
    test.expect(enough == Some(2));
    let allocator = RefusingAllocator::unlimited(test.alloc());
    match with_room(&allocator, 300, 100) {
        Ok(mut rows) => refuse(&test, &allocator, &mut rows),
        Err(_) => test.fail(),
    }
    allocator.refuse_all();
    let none = KeyTable::with_capacity(&allocator, 0);
    test.expect(none.is_ok());
    test.end()
}
