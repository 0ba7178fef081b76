//! Calls that put a pair into a map, and what one leaves whose memory is refused.
use crate::tests::room::pack_to;
use ordered_multimap::list_ordered_multimap::{Entry, OrInsertFault, Refused, RefusedValue};
use ordered_multimap_callers::maps::{Refusing, has_lists};
use std::alloc::Allocator;
use test_helpers::{Test, copied};

type Answer = Result<(), Refused<u32, u32>>;

/// Calls on a key, of the entry of an absent one, and of the entry of a present one.
#[derive(PartialEq, Eq, Clone, Copy)]
pub enum Call {
    Append,
    Insert,
    InsertAll,
    Set,
    OrInsert,
    OrInsertWith,
    OrInsertEntry,
    OrInsertWithEntry,
    OrTryInsertWith,
    OrTryInsertWithEntry,
    VacantInsert,
    VacantInsertEntry,
    OccupiedAppend,
    OccupiedInsertAll,
}

fn put<A: Allocator + Copy>(map: &mut Refusing<A>, call: Call) -> Answer {
    match call {
        Call::Append => done(map.append(1, 77)),
        Call::Insert => done(map.insert(1, 77)),
        Call::InsertAll => done(map.insert_all(1, 77)),
        Call::Set => done(map.set(1, 77)),
        Call::OccupiedAppend | Call::OccupiedInsertAll => match occupy(map, call) {
            Ok(()) => Ok(()),
            Err(RefusedValue { value }) => Err(Refused { key: 1, value }),
        },
        _ => put_by_vacant(map, call),
    }
}

// That it was done, whatever the call gave, or the pair that comes back.
fn done<G: Drop, R>(given: Result<G, R>) -> Result<(), R> {
    match given {
        Ok(_) => Ok(()),
        Err(refused) => Err(refused),
    }
}

fn put_by_vacant<A: Allocator + Copy>(map: &mut Refusing<A>, call: Call) -> Answer {
    match call {
        Call::OrInsert => done(map.entry(1).or_insert(77)),
        Call::OrInsertWith => done(map.entry(1).or_insert_with(|| 77)),
        Call::OrInsertEntry => done(map.entry(1).or_insert_entry(77)),
        Call::OrInsertWithEntry => done(map.entry(1).or_insert_with_entry(|| 77)),
        Call::OrTryInsertWith => tried(map.entry(1).or_try_insert_with(|| Ok(77))),
        Call::OrTryInsertWithEntry => tried(map.entry(1).or_try_insert_with_entry(|| Ok(77))),
        _ => filled(map, call),
    }
}

// The same of a call whose function doesn't fail.
fn tried<G: Drop>(given: Result<G, OrInsertFault<u32, u32, u32>>) -> Answer {
    match given {
        Ok(_) => Ok(()),
        Err(OrInsertFault::Refused(pair)) => Err(pair),
        Err(OrInsertFault::Failed { key, error }) => Err(Refused { key, value: error }),
    }
}

fn filled<A: Allocator + Copy>(map: &mut Refusing<A>, call: Call) -> Answer {
    match map.entry(1) {
        Entry::Vacant(entry) if call == Call::VacantInsert => done(entry.insert(77)),
        Entry::Vacant(entry) => done(entry.insert_entry(77)),
        Entry::Occupied(_) => Ok(()),
    }
}

fn occupy<A: Allocator + Copy>(map: &mut Refusing<A>, call: Call) -> Result<(), RefusedValue<u32>> {
    match map.entry(1) {
        Entry::Occupied(mut entry) if call == Call::OccupiedAppend => entry.append(77),
        Entry::Occupied(entry) => done(entry.insert_all(77)),
        Entry::Vacant(_) => Ok(()),
    }
}

const PAIRS: &[(u32, u32)] = &[(1, 0), (1, 1), (1, 2), (1, 3), (1, 4), (1, 5)];

const PAIR: Refused<u32, u32> = Refused { key: 1, value: 77 };

pub fn first<T>(rows: &[T], count: usize) -> &[T] {
    &rows[..count.min(rows.len())]
}

// Whether the pair stands behind these, and nothing else is there.
fn stands_behind<A: Allocator + Copy>(map: &Refusing<A>, pairs: &[(u32, u32)]) -> bool {
    let mut walk = map.iter();
    let mut same = map.keys_len() == 1;
    for pair in pairs {
        same = same && copied(walk.next()) == Some(*pair);
    }
    same && copied(walk.next()) == Some((1, 77)) && walk.next().is_none()
}

// It returns whether there was memory enough. Other calls than appends take the pairs out.
fn is_put<A: Allocator + Copy>(
    test: &Test,
    map: &Refusing<A>,
    call: Call,
    before: &[(u32, u32)],
    answer: Answer,
) -> bool {
    match answer {
        Ok(()) => {
            let appends = call == Call::Append || call == Call::OccupiedAppend;
            test.expect(stands_behind(map, if appends { before } else { &[] }));
            true
        }
        Err(refused) => {
            test.expect(refused == PAIR);
            test.expect(has_lists(map, before, first(&[1], before.len())));
            false
        }
    }
}

/// Makes the call on a map of the first pairs. It returns whether there was memory enough.
pub fn puts<A: Allocator + Copy>(test: &Test, map: &mut Refusing<A>, call: Call) -> bool {
    let before = first(PAIRS, map.values_len());
    let answer = put(map, call);
    is_put(test, map, call, before, answer)
}

/// Appends the pairs, all of one key, as long as there is room.
pub fn fill_up<A: Allocator + Copy>(test: &Test, map: &mut Refusing<A>) {
    test.expect(pack_to(test, map, 1, 4));
    for (key, value) in first(PAIRS, map.values_capacity()) {
        test.expect(map.append(*key, *value).is_ok());
    }
    test.expect(map.values_len() == map.values_capacity());
}
