//! The calls of an entry whose function may fail.
use ordered_multimap::list_ordered_multimap::{OrInsertFault, Refused};
use ordered_multimap_callers::maps::{Numbers, has_lists, test_on_empty};
use ordered_multimap_callers::test_on_numbers;
use std::alloc::AllocError;
use std::cell::Cell;
use std::io;
use test_helpers::{Failed, Test, is_compared, is_shown};

#[test]
fn values_are_tried(rt: HostRuntime) -> Result<(), Failed> {
    test_on_numbers!(rt.alloc(); first_values_stay, entries_come, failures_change_nothing,
        entries_tell_their_key, faults_are_errors, errors_are_taken_out)
}

type Tried = Result<u32, OrInsertFault<u32, u32, u8>>;

fn failed(key: u32, error: u8) -> Tried {
    Err(OrInsertFault::Failed { key, error })
}

// What a call gives whose function counts its calls and returns this.
fn tried(map: &mut Numbers, key: u32, given: Result<u32, u8>, calls: &Cell<u32>) -> Tried {
    let made = || {
        calls.set(calls.get().saturating_add(1));
        given
    };
    match map.entry(key).or_try_insert_with(made) {
        Ok(value) => Ok(*value),
        Err(fault) => Err(fault),
    }
}

fn tried_entry(map: &mut Numbers, key: u32, given: Result<u32, u8>) -> Tried {
    match map.entry(key).or_try_insert_with_entry(|| given) {
        Ok(entry) => Ok(*entry.get()),
        Err(fault) => Err(fault),
    }
}

// The function is called for a vacant entry alone, and once.
fn first_values_stay(test: &Test, map: &mut Numbers) {
    map.clear();
    let calls = Cell::new(0);
    test.expect(tried(map, 1, Ok(11), &calls) == Ok(11));
    test.expect(calls.get() == 1);
    test.expect(tried(map, 1, Ok(12), &calls) == Ok(11));
    test.expect(tried(map, 1, Err(7), &calls) == Ok(11));
    test.expect(calls.get() == 1);
    test.expect(has_lists(map, &[(1, 11)], &[1]));
}

fn entries_come(test: &Test, map: &mut Numbers) {
    map.clear();
    test.expect(tried_entry(map, 2, Ok(21)) == Ok(21));
    test.expect(tried_entry(map, 1, Ok(11)) == Ok(11));
    test.expect(tried_entry(map, 2, Err(7)) == Ok(21));
    test.expect(has_lists(map, &[(2, 21), (1, 11)], &[2, 1]));
}

fn failures_change_nothing(test: &Test, map: &mut Numbers) {
    map.clear();
    let calls = Cell::new(0);
    test.expect(tried(map, 1, Err(7), &calls) == failed(1, 7));
    test.expect(calls.get() == 1);
    test.expect(tried_entry(map, 2, Err(8)) == failed(2, 8));
    test.expect(map.is_empty());
}

fn entries_tell_their_key(test: &Test, map: &mut Numbers) {
    map.clear();
    test.expect(*map.entry(3).key() == 3);
    test.expect(map.append(3, 1) == Ok(false));
    test.expect(*map.entry(3).key() == 3);
    test.expect(has_lists(map, &[(3, 1)], &[3]));
}

const PAIR: Refused<u32, u32> = Refused { key: 1, value: 2 };

type MemoryFault = OrInsertFault<u32, u32, AllocError>;

type IoFault = OrInsertFault<u32, u32, io::Error>;

fn invalid() -> IoFault {
    OrInsertFault::Failed {
        key: 1,
        error: io::Error::from(io::ErrorKind::InvalidData),
    }
}

fn faults_are_errors(test: &Test, _map: &mut Numbers) {
    let fault = MemoryFault::Failed {
        key: 1,
        error: AllocError,
    };
    test.expect(is_compared(&fault, &fault, &MemoryFault::Refused(PAIR)));
    test.expect(is_shown(test.alloc(), &fault, "Failed { .. }"));
    let refused = MemoryFault::Refused(PAIR);
    test.expect(is_shown(test.alloc(), &refused, "Refused(..)"));
    test.expect(AllocError::from(fault) == AllocError);
    test.expect(AllocError::from(MemoryFault::Refused(PAIR)) == AllocError);
    test.expect(io::Error::from(IoFault::Refused(PAIR)).kind() == io::ErrorKind::OutOfMemory);
    test.expect(io::Error::from(invalid()).kind() == io::ErrorKind::InvalidData);
}

fn errors_are_taken_out(test: &Test, _map: &mut Numbers) {
    test.expect(OrInsertFault::into_error(MemoryFault::Refused(PAIR)) == AllocError);
    test.expect(IoFault::Refused(PAIR).into_error().kind() == io::ErrorKind::OutOfMemory);
    test.expect(invalid().into_error().kind() == io::ErrorKind::InvalidData);
}
