//! Maps that are taken apart for keys, for values, or for pairs; `map_calls` has more rows.
use ordered_multimap::ListOrderedMultimap;
use ordered_multimap::list_ordered_multimap::{IntoIter, UnclonedKey};
use ordered_multimap_callers::maps::{Numbers, Shares, fill, fill_with_shares};
use refusing_allocator::RefusingAllocator;
use std::alloc::Allocator;
use std::rc::Rc;
use test_helpers::{
    B, F, Failed, Test, filled, lend, requests_until_enough, test_all, test_on_share, try_on_new,
    walk_difference,
};

// Pairs whose map has a hole in front and one between, once the key 1 was removed and came again.
const HOLES: &[(u32, u32)] = &[(1, 11), (2, 21), (1, 12), (3, 31), (2, 22)];

fn make_holes(test: &Test, map: &mut Numbers) {
    fill(test, map, HOLES);
    test.expect(map.remove(&1) == Some(11));
    fill(test, map, &[(1, 13)]);
}

fn made_with_holes(test: &Test) -> Numbers {
    filled(
        ListOrderedMultimap::new(test.alloc()),
        |map| make_holes(test, map),
    )
}

fn keys_are_handed_out(test: &Test) {
    let wanted = [(F, 2), (B, 1), (B, 3)];
    test.expect_same(walk_difference(&mut made_with_holes(test).into_keys(), &wanted));
}

fn values_are_handed_out(test: &Test) {
    let wanted = [(F, 21), (B, 13), (B, 22), (F, 31)];
    test.expect_same(walk_difference(&mut made_with_holes(test).into_values(), &wanted));
}

fn filled_with_shares(test: &Test, shared: &Rc<u8>) -> Shares {
    filled(
        ListOrderedMultimap::new(test.alloc()),
        |map| fill_with_shares(test, map, shared),
    )
}

// All values leave at the call, forgotten ones too.
fn values_leave_for_keys(test: &Test, shared: &Rc<u8>) {
    lend(filled_with_shares(test, shared).into_keys(), |keys| {
        test.expect(Rc::strong_count(shared) == 1);
        test.expect(keys.len() == 2);
    });
}

// A value that was taken is the caller's, and those that weren't leave with the iterator.
fn first_is_taken(test: &Test, shared: &Rc<u8>) -> Option<Rc<u8>> {
    lend(filled_with_shares(test, shared).into_values(), |values| {
        let first = values.next();
        test.expect(values.len() == 2);
        test.expect(Rc::strong_count(shared) == 6);
        first
    })
}

fn shares_are_dropped(test: &Test, shared: &Rc<u8>) {
    values_leave_for_keys(test, shared);
    lend(first_is_taken(test, shared), |first| {
        test.expect(first.is_some());
        test.expect(Rc::strong_count(shared) == 2);
    });
    test.expect(Rc::strong_count(shared) == 1);
}

#[test]
fn what_is_left_is_dropped_once(rt: HostRuntime) -> Result<(), Failed> {
    test_on_share(rt.alloc(), shares_are_dropped)
}

// The allocator's type is a parameter, since a map of a type with a reference costs a proof more.
type Texts<A> = ListOrderedMultimap<String<A>, u32>;

// The value of an item, and whether it has its key.
fn told<A: Allocator>(
    item: Option<Result<(String<A>, u32), UnclonedKey<u32>>>,
) -> Option<(u32, bool)> {
    match item {
        Some(Ok((key, value))) => Some((value, key.as_str() == "a")),
        Some(Err(refused)) => Some((refused.value, false)),
        None => None,
    }
}

// The first value comes whether or not its key is cloned, and the last one with the key itself.
// Returns whether the key was cloned.
fn both_are_given<A: Allocator + Copy>(test: &Test, walk: &mut IntoIter<String<A>, u32>) -> bool {
    let first = told(walk.next());
    let cloned = first == Some((1, true));
    test.expect(cloned || first == Some((1, false)));
    test.expect(told(walk.next()) == Some((2, true)));
    test.expect(walk.next().is_none());
    cloned
}

fn append_text<A: Allocator + Copy>(test: &Test, allocator: A, map: &mut Texts<A>, value: u32) {
    let mut text = String::new(allocator);
    test.expect(text.push('a').is_ok());
    test.expect(map.append(text, value).is_ok());
}

fn made_of_two<A: Allocator + Copy>(allocator: A, test: &Test) -> IntoIter<String<A>, u32> {
    let mut map = ListOrderedMultimap::new(test.alloc());
    append_text(test, allocator, &mut map, 1);
    append_text(test, allocator, &mut map, 2);
    map.into_iter()
}

fn two_are_left<A: Allocator + Copy>(test: &Test, walk: &mut IntoIter<String<A>, u32>) {
    test.expect(walk.len() == 2);
}

fn taken_apart_with(test: &Test, granted: u64) -> bool {
    try_on_new!(test, granted; made_of_two, test; two_are_left; both_are_given)
}

fn one_request_for_two_values(test: &Test) {
    let enough = requests_until_enough(|granted| taken_apart_with(test, granted));
    test.expect(enough == Some(1));
}

#[test]
fn all_is_handed_out(rt: HostRuntime) -> Result<(), Failed> {
    test_all!(rt.alloc(); keys_are_handed_out, values_are_handed_out, one_request_for_two_values)
}
