//! Requests for a map's memory that are refused while it is read of a JSON value, in `Global`.
use multimap_tool::json::{ReadFault, from_value};
use ordered_multimap::ListOrderedMultimap;
use ordered_multimap::list_ordered_multimap::DefaultState;
use refusing_allocator::RefusingAllocator;
use serde_json::Value;
use std::alloc::Allocator;
use std::hash::BuildHasher;
use test_helpers::{Constant, Failed, Test, ZERO, gives, lend_made, requests_until_enough};

// The types are parameters, since a map of a type with a reference costs a proof more.
type Numbers<S, A> = ListOrderedMultimap<u32, i64, S, A>;

const PAIRS: &[(u32, i64)] = &[(1, 5), (2, 6), (1, 7)];

fn fault_of<M>(read: &Result<M, ReadFault>) -> Option<ReadFault> {
    match read {
        Ok(_) => None,
        Err(fault) => Some(*fault),
    }
}

// Whether so many granted requests are enough. With fewer it is lack of memory.
fn read_with(test: &Test, value: &Value, ample: Option<ReadFault>, granted: u64) -> bool {
    let budget = RefusingAllocator::new(test.alloc(), granted);
    let fault = read_by(test, &budget, value);
    is_told(test, fault, ample, budget.refused())
}

fn read_by<A: Allocator + Copy>(test: &Test, allocator: A, value: &Value) -> Option<ReadFault> {
    let read = from_value(allocator, test.alloc(), DefaultState::new(), value);
    let fault = fault_of(&read);
    let has_all = |map: &mut Numbers<DefaultState, A>| test.expect(gives(&mut map.iter(), PAIRS));
    lend_made(read, has_all, |_fault| {});
    fault
}

fn is_told(test: &Test, fault: Option<ReadFault>, ample: Option<ReadFault>, refused: bool) -> bool {
    if fault == Some(ReadFault::OutOfMemory) {
        test.expect(refused);
        return false;
    }
    test.expect(fault == ample);
    fault.is_none() || !refused
}

/// Texts, each with the fault of ample memory.
const TEXTS: &[(&str, Option<ReadFault>)] = &[
    ("[[1,5],[2,6],[1,7]]", None),
    ("[[1,2],[3]]", Some(ReadFault::NotPair(1))),
    ("{\"keys\":[2,1],\"pairs\":[[1,5],[2,6],[1,7]]}", None),
    (
        "{\"keys\":[1,1],\"pairs\":[[1,2]]}",
        Some(ReadFault::RepeatedKey(1)),
    ),
    (
        "{\"keys\":[1,2],\"pairs\":[[1,5]]}",
        Some(ReadFault::UnusedKey(1)),
    ),
    (
        "{\"keys\":[1],\"pairs\":[[2,true]]}",
        Some(ReadFault::UnlistedKey(0)),
    ),
];

fn requests_are_refused(test: &Test, value: &Value, ample: Option<ReadFault>) {
    let enough = requests_until_enough(|granted| read_with(test, value, ample, granted));
    test.expect(enough.unwrap_or(0) >= 3);
}

/// A hash builder that ends the refusals of an allocator once it hashes a key.
#[derive(Drop)]
struct Granting<'a> {
    budget: &'a RefusingAllocator,
}

impl<'a> BuildHasher for Granting<'a> {
    type Hasher = Constant;

    ghost build_hasher = { λ _. record { hash = 0 } };

    fn build_hasher(&self) -> Constant {
        self.budget.refuse_none();
        ZERO
    }
}

fn a_refused_wish_is_no_fault(test: &Test, value: &Value) {
    let budget = RefusingAllocator::new(test.alloc(), 0);
    let state = Granting { budget: &budget };
    test.expect(is_read_whole(test, &budget, state, value));
}

fn is_read_whole<S: BuildHasher + Drop, A: Allocator + Copy>(
    test: &Test,
    allocator: A,
    state: S,
    value: &Value,
) -> bool {
    let read = from_value(allocator, test.alloc(), state, value);
    let has_all = |map: &mut Numbers<S, A>| test.expect(gives(&mut map.iter(), PAIRS));
    lend_made(read, has_all, |_fault| {})
}

fn a_value_is_read(test: &Test, text: &str, ample: Option<ReadFault>) {
    match Value::from_str(test.alloc(), text) {
        Ok(value) => {
            requests_are_refused(test, &value, ample);
            if ample.is_none() {
                a_refused_wish_is_no_fault(test, &value);
            }
        }
        Err(_) => test.fail(),
    }
}

#[test]
fn a_map_that_is_read_finds_no_memory(rt: HostRuntime) -> Result<(), Failed> {
    let test = Test::new(rt.alloc());
    for (text, ample) in TEXTS {
        a_value_is_read(&test, text, *ample);
    }
    test.end()
}
