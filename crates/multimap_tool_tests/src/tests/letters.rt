//! A run over keys that are equal and not the same, which writes what it keeps; laws of runs.
use crate::tests::callers::{lists_of_numbers_are_read, pairs_of_numbers_are_read};
use multimap_tool::commands::Command;
use multimap_tool::json::{JsonPart, PartFault};
use multimap_tool::laws::{characters_differ_as_json, run_is_well_formed, step_is_orderly};
use multimap_tool::replies::Reply;
use multimap_tool::run::run;
use ordered_multimap::ListOrderedMultimap;
use ordered_multimap::laws::{chain_is_filter, equal_maps, json_first_occurrence, json_two_lists};
use serde_json::Value;
use std::alloc::{AllocError, Global};
use test_helpers::{Failed, Test};

/// The letter k, which is equal to itself in the other case.
#[derive(Clone, Copy, Debug)]
#[derive_where(PartialEq, Eq, Hash)]
struct Letter {
    #[derive_where(skip(EqHashOrd))]
    is_upper: bool,
}

const UPPER: Letter = Letter { is_upper: true };

const LOWER: Letter = Letter { is_upper: false };

/// Whether it is a capital letter.
impl JsonPart for Letter {
    ghost use Rattle.std.specs.Prelude.{true};
    ghost use Rattle.serde_json.specs.Data.{boolean};
    ghost use Rattle.multimap_tool.specs.Json.{is_truth};

    ghost json = { λ letter. boolean letter.is_upper };

    ghost is_part = { is_truth };

    ghost is_written_freely = { true };

    ghost is_read_freely = { true };

    fn to_part(&self, _alloc: Global) -> Result<Value, AllocError> {
        Ok(Value::from(self.is_upper))
    }

    fn from_part(_alloc: Global, value: &Value) -> Result<Letter, PartFault> {
        match value.as_bool() {
            Some(is_upper) => Ok(Letter { is_upper }),
            None => Err(PartFault::Refused),
        }
    }
}

// Keeps the values that are no less, and writes another.
fn keep_and_write(least: char, _key: &Letter, value: &mut char) -> bool {
    let was = *value;
    *value = 'z';
    was >= least
}

fn the_first_letter_stays(test: &Test, map: &mut ListOrderedMultimap<Letter, char>) {
    let commands = [
        Command::Append(UPPER, 'a'),
        Command::Append(LOWER, 'b'),
        Command::Json,
        Command::Retain('b'),
        Command::Get(LOWER),
    ];
    let wanted = [
        Reply::Appended(false),
        Reply::Appended(true),
        Reply::Done,
        Reply::Done,
        Reply::Value(Some('z')),
    ];
    characters_differ_as_json();
    match run(test.alloc(), test.alloc(), map, &commands, keep_and_write) {
        Ok(replies) => test.expect(replies.as_slice() == wanted.as_slice()),
        Err(_) => test.fail(),
    }
    test.expect(map.front().is_some_and(|pair| pair.0.is_upper));
}

fn laws_can_be_called() {
    json_first_occurrence::<u32, i64>();
    json_two_lists::<u32, i64>();
    chain_is_filter::<u32, i64>();
    equal_maps::<u32, i64>();
    step_is_orderly::<u32, i64, Global, _>(&|_, _, _| true);
    run_is_well_formed::<u32, i64, Global, _>(&|_, _, _| true);
    pairs_of_numbers_are_read();
    lists_of_numbers_are_read();
}

#[test]
fn the_key_stored_first_stays(rt: HostRuntime) -> Result<(), Failed> {
    let test = Test::new(rt.alloc());
    the_first_letter_stays(&test, &mut ListOrderedMultimap::new(test.alloc()));
    laws_can_be_called();
    test.end()
}
