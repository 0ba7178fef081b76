//! Calls of a set that no other test makes, proved callers, and pairs that are equal, not the same.
use crate::tests::callers::{
    exchange, gathered, insert_in_room, keep_below, remove_key, rename, take_first,
};
use crate::tests::sets::{SetBy, has_lists, refill};
use ordered_multimap::list_ordered_multimap::{DefaultState, KeyWrapper};
use set_ordered_multimap::SetOrderedMultimap;
use set_ordered_multimap::laws::{changes_keep_sets, insertions_keep_first_pairs};
use std::alloc::AllocError;
use std::fmt;
use std::hash::BuildHasher;
use test_helpers::{
    B, F, Failed, Test, filled, is_shown, lend_made, test_all, test_on_new, walk_difference,
};

type Numbers = SetBy;

const NUMBERS: &[(u32, u32)] = &[(1, 1), (2, 2), (1, 1), (3, 3)];

fn parts_return(test: &Test, set: &Numbers) {
    let twin = Numbers::new(*set.allocator());
    test.expect(twin.is_empty());
    test.expect(set.hasher().hash_one(&1u32) == DefaultState::new().hash_one(&1u32));
}

fn clone_is_equal(set: &Numbers) -> Result<bool, AllocError> {
    Ok(*set == set.clone()?)
}

fn walks_return(test: &Test, set: &Numbers) {
    test.expect(set.into_iter().len() == 3);
    test.expect(is_shown(test.alloc(), set, "{1: 1, 2: 2, 3: 3}"));
    test.expect(clone_is_equal(set) == Ok(true));
}

// What is proved of callers holds where they are called.
fn callers_return(test: &Test, set: &mut Numbers) {
    changes_keep_sets::<u32, u32>();
    insertions_keep_first_pairs::<u32, u32>();
    test.expect(exchange(set, 1, &1, 4) == Ok(true));
    keep_below(set, 4);
    test.expect(has_lists(set, &[(2, 2), (3, 3)], &[2, 3]));
    test.expect(take_first(set) == Some(2));
    test.expect(insert_in_room(set, 2, 2));
    test.expect(rename(set, &3, 4) && !rename(set, &3, 5));
    remove_key(set, &4);
    test.expect(has_lists(set, &[(2, 2)], &[2]));
}

fn the_last_leaves(test: &Test, set: &mut Numbers) {
    let popped = set.pop_back();
    test.expect(popped == Some((KeyWrapper::Owned(2), 2)));
    test.expect(set.is_empty() && is_shown(test.alloc(), &set.pairs(), "KeyValues([])"));
}

// Each key with its values.
fn keys_are_walked(test: &Test, set: &mut Numbers) {
    refill(test, set, &[(1, 5)]);
    let shown = "KeyValues([(1, EntryValues([5]))])";
    test.expect(is_shown(test.alloc(), &set.pairs(), shown));
    refill(test, set, &[(2, 5), (1, 5), (2, 6), (2, 5)]);
    let shown = "KeyValues([(2, EntryValues([5, 6])), (1, EntryValues([5]))])";
    test.expect(is_shown(test.alloc(), &set.pairs(), shown));
}

fn gathered_numbers_return(test: &Test, set: &mut Numbers) {
    test.expect(has_lists(set, &[(1, 1), (2, 2), (3, 3)], &[1, 2, 3]));
    parts_return(test, set);
    walks_return(test, set);
    callers_return(test, set);
    the_last_leaves(test, set);
    keys_are_walked(test, set);
}

fn numbers_are_gathered(test: &Test) {
    lend_made(
        gathered(test.alloc(), NUMBERS.iter().copied()),
        |set| gathered_numbers_return(test, set),
        |_refused| test.fail(),
    );
}

#[test]
fn numbers_return(rt: HostRuntime) -> Result<(), Failed> {
    test_all!(rt.alloc(); numbers_are_gathered)
}

fn made(test: &Test) -> Numbers {
    let pairs = [(2, 5), (1, 6), (2, 7), (3, 5), (2, 5)];
    filled(
        SetOrderedMultimap::new(test.alloc()),
        |set| refill(test, set, &pairs),
    )
}

fn keys_are_handed_out(test: &Test) {
    let wanted = [(F, 2), (B, 3), (F, 1)];
    test.expect_same(walk_difference(&mut made(test).into_keys(), &wanted));
}

fn values_are_handed_out(test: &Test) {
    let wanted = [(F, 5), (B, 5), (B, 7), (F, 6)];
    test.expect_same(walk_difference(&mut made(test).into_values(), &wanted));
}

#[test]
fn keys_or_values_are_taken_out(rt: HostRuntime) -> Result<(), Failed> {
    test_all!(rt.alloc(); keys_are_handed_out, values_are_handed_out)
}

// An ASCII letter, whose case counts for nothing.
#[derive(Clone, Copy)]
#[derive_where(PartialEq, Eq, Hash)]
struct Letter {
    #[derive_where(skip(EqHashOrd))]
    letter: u8,
    folded: u8,
}

impl Letter {
    fn new(letter: u8) -> Letter {
        Letter {
            letter,
            folded: letter.to_ascii_lowercase(),
        }
    }
}

type Letters = SetOrderedMultimap<Letter, Letter>;

// A pair of letters, and whether it is new.
const LETTERS: &[(u8, u8, bool)] = &[
    (b'A', b'x', true),
    (b'a', b'X', false),
    (b'a', b'y', true),
    (b'B', b'X', true),
    (b'b', b'x', false),
];

fn inserts(set: &mut Letters, key: u8, value: u8, new: bool) -> bool {
    set.insert(Letter::new(key), Letter::new(value)).ok() == Some(new)
}

impl fmt::Debug for Letter {
    fn fmt<W: fmt::Write>(&self, f: &mut fmt::Formatter<W>) -> fmt::Result {
        (self.letter as char).fmt(f)
    }
}

fn letters_stay(test: &Test, set: &mut Letters) {
    for (row, (key, value, new)) in LETTERS.iter().enumerate() {
        test.expect_at(row, inserts(set, *key, *value, *new));
    }
    test.expect(is_shown(test.alloc(), set, "{'A': 'x', 'A': 'y', 'B': 'X'}"));
    let stored = set.get_key_value(&Letter::new(b'b'));
    test.expect(stored.is_some_and(|pair| pair.0.letter == b'B' && pair.1.letter == b'X'));
    let gone = set.remove_value(&Letter::new(b'a'), &Letter::new(b'Y'));
    test.expect(gone);
    test.expect(is_shown(test.alloc(), set, "{'A': 'x', 'B': 'X'}"));
}

#[test]
fn of_equal_pairs_the_first_stays(rt: HostRuntime) -> Result<(), Failed> {
    test_on_new(rt.alloc(), SetOrderedMultimap::new, letters_stay)
}
