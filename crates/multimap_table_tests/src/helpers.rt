//! What tests stand on: failed steps, walks that differ, and the allocator that refuses.
use refusing_allocator::RefusingAllocator;
use std::alloc::Global;
use std::hash::BuildHasher;
use test_helpers::{
    B, Constant, F, Failed, Step, Test, expect_text, is_compared, is_copied, is_shown,
    requests_until_enough, walk_difference,
};

// How a test ends whose second part has a good check, a bad one of a row, and a bad one.
fn is_told(alloc: Global) -> bool {
    let test = Test::new(alloc);
    test.begin("first");
    test.expect(true);
    test.begin("second");
    test.expect(true);
    test.expect_at(3, false);
    test.fail();
    match test.end() {
        Ok(()) => false,
        Err(failed) => {
            let wanted = "Failed { part: \"second\", check: 2, row: Some(3) }";
            is_shown(alloc, &failed, wanted)
        }
    }
}

fn differs(alloc: Global) -> bool {
    let test = Test::new(alloc);
    test.expect_same(Some(0));
    test.end().is_err()
}

// Whether a test that expects 5 to be shown so ends well.
fn ends_well(alloc: Global, shown: &str) -> bool {
    let test = Test::new(alloc);
    test.expect_same(None);
    expect_text(&test, format!(in alloc; "{}", 5), shown);
    test.end().is_ok()
}

// Steps over 10, 20, 30, with the row at which a walk differs from them.
const WALKS: &[(&[Step<u32>], Option<usize>)] = &[
    (&[(F, 10), (B, 30), (F, 20)], None),
    (&[(F, 10), (F, 20), (F, 31)], Some(2)),
    (&[(F, 10), (F, 20)], Some(0)),
];

fn walks_differ(test: &Test, items: &[u32]) {
    for (row, (steps, difference)) in WALKS.iter().enumerate() {
        let found = walk_difference(&mut items.iter(), steps);
        test.expect_at(row, found == *difference);
    }
}

fn values_are_compared() -> bool {
    is_compared(&5u32, &5, &6)
        && !is_compared(&5u32, &6, &7)
        && !is_compared(&5u32, &5, &5)
        && is_copied(&5u32)
}

#[test]
fn what_differs_is_noticed(rt: HostRuntime) -> Result<(), Failed> {
    let test = Test::new(rt.alloc());
    test.expect(is_told(test.alloc()));
    test.expect(differs(test.alloc()));
    test.expect(ends_well(test.alloc(), "5"));
    test.expect(!ends_well(test.alloc(), "6"));
    walks_differ(&test, &[10, 20, 30]);
    let requests = requests_until_enough(|granted| granted >= 5);
    test.expect(requests == Some(5));
    test.expect(requests_until_enough(|_| false).is_none());
    test.expect(Constant { hash: 7 }.hash_one(&4) == 7);
    test.expect(values_are_compared());
    test.end()
}

fn is_granted(allocator: &RefusingAllocator) -> bool {
    Box::new(allocator, 7u64).is_ok()
}

// Six requests, one after the other: a block that is given back grants no other.
fn boxes_are_granted(test: &Test, granted: u64) {
    let allocator = RefusingAllocator::new(test.alloc(), granted);
    for request in 0..6u64 {
        test.expect(is_granted(&allocator) == (request < granted));
        test.expect(allocator.refused() == (request >= granted));
    }
    test.expect(allocator.granted() == 0);
}

#[test]
fn so_many_requests_are_granted(rt: HostRuntime) -> Result<(), Failed> {
    let test = Test::new(rt.alloc());
    for granted in 0..4u64 {
        boxes_are_granted(&test, granted);
    }
    let allocator = RefusingAllocator::unlimited(test.alloc());
    allocator.grant(1);
    test.expect(is_granted(&allocator) && !is_granted(&allocator));
    allocator.refuse_none();
    test.expect(!allocator.refused() && is_granted(&allocator));
    allocator.refuse_all();
    test.expect(!is_granted(&allocator) && allocator.refused());
    test.end()
}
