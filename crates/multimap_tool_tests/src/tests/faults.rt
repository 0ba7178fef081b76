//! What Debug and Display show, and what is equal, of faults, commands and replies.
use multimap_tool::commands::Command;
use multimap_tool::faults::{TextFault, ToolFault};
use multimap_tool::format::format_replies;
use multimap_tool::json::{PartFault, ReadFault};
use multimap_tool::parse::parse_commands;
use multimap_tool::replies::Reply;
use multimap_tool::run::run;
use ordered_multimap::ListOrderedMultimap;
use std::alloc::AllocError;
use std::fmt;
use test_helpers::{Failed, Test, expect_text, is_compared, is_copied, is_shown};

/// Different faults, and a line for each: what Debug and Display show of it.
struct Told<F: 'static> {
    faults: &'static [F],
    lines: &'static str,
}

const TOOL_FAULTS: Told<ToolFault> = Told {
    faults: &[
        ToolFault::BadLine(7),
        ToolFault::BadLine(8),
        ToolFault::Read,
        ToolFault::Write,
        ToolFault::OutOfMemory,
    ],
    lines: "BadLine(7): bad line 7
BadLine(8): bad line 8
Read: read failed
Write: write failed
OutOfMemory: out of memory",
};

const TEXT_FAULTS: Told<TextFault> = Told {
    faults: &[TextFault::BadLine(7), TextFault::OutOfMemory],
    lines: "BadLine(7): bad line 7
OutOfMemory: out of memory",
};

const PART_FAULTS: Told<PartFault> = Told {
    faults: &[PartFault::Refused, PartFault::OutOfMemory],
    lines: "Refused: refused
OutOfMemory: out of memory",
};

const READ_FAULTS: Told<ReadFault> = Told {
    faults: &[
        ReadFault::NotArray,
        ReadFault::NotVersion2,
        ReadFault::BadListedKey(3),
        ReadFault::RepeatedKey(3),
        ReadFault::NotPair(7),
        ReadFault::BadKey(0),
        ReadFault::UnlistedKey(10),
        ReadFault::BadValue(1),
        ReadFault::UnusedKey(0),
        ReadFault::OutOfMemory,
    ],
    lines: r#"NotArray: the value is neither an array nor an object
NotVersion2: the object isn't made of two arrays "keys" and "pairs" alone
BadListedKey(3): item 3 of "keys" is no key of the map's type
RepeatedKey(3): item 3 of "keys" equals an earlier one
NotPair(7): pair 7 is no array of a key and a value
BadKey(0): the key of pair 0 is no key of the map's type
UnlistedKey(10): the key of pair 10 equals no item of "keys"
BadValue(1): the value of pair 1 is no value of the map's type
UnusedKey(0): item 0 of "keys" is the key of no pair
OutOfMemory: out of memory"#,
};

/// Whether the fault of a row equals itself, and no other one.
fn stands_apart<F: PartialEq>(faults: &[F], row: usize, fault: &F) -> bool {
    let mut apart = true;
    for (at, other) in faults.iter().enumerate() {
        if at != row {
            apart = apart && is_compared(fault, fault, other);
        }
    }
    apart
}

fn are_told<F: fmt::Debug + fmt::Display + PartialEq + Clone + Copy>(test: &Test, told: &Told<F>) {
    let mut lines = told.lines.lines();
    for (row, fault) in told.faults.iter().enumerate() {
        let shown = format!(in test.alloc(); "{fault:?}: {fault}");
        expect_text(test, shown, lines.next().unwrap_or(""));
        test.expect_at(row, stands_apart(told.faults, row, fault));
        test.expect_at(row, is_copied(fault));
    }
    test.expect(lines.next().is_none());
}

fn statuses_are_told(test: &Test) {
    test.expect(ToolFault::BadLine(7).status() == 2 && ToolFault::OutOfMemory.status() == 4);
    test.expect(ToolFault::Read.status() == 3 && ToolFault::Write.status() == 3);
}

fn faults_are_passed_on(test: &Test) {
    let line = ToolFault::from(TextFault::BadLine(7));
    test.expect(line == ToolFault::BadLine(7));
    let fault = ToolFault::from(TextFault::OutOfMemory);
    test.expect(fault == ToolFault::OutOfMemory);
    let run = ToolFault::from(AllocError);
    test.expect(run == ToolFault::OutOfMemory);
    let text = TextFault::from(AllocError);
    test.expect(text == TextFault::OutOfMemory);
}

#[test]
fn faults_are_told_and_passed_on(rt: HostRuntime) -> Result<(), Failed> {
    let test = Test::new(rt.alloc());
    are_told(&test, &TOOL_FAULTS);
    are_told(&test, &TEXT_FAULTS);
    are_told(&test, &PART_FAULTS);
    are_told(&test, &READ_FAULTS);
    statuses_are_told(&test);
    faults_are_passed_on(&test);
    test.end()
}

type Commands = Vec<Command<u32, i64>>;

type Replies = Vec<Reply<u32, i64>>;

/// Each word once.
const LINES: &str =
    "append 1 -2\ninsert 1 3\ninsertall 1 4\norinsert 2 5\nsetfirst 2 6\nsetfront 7\n\
    setback 8\nget 3\nall 1\nwalk 1 fb\nhas 2\nlen 1\nfront\nback\npairs\nwalkpairs b\nkeys\n\
    walkkeys bff\nvalues\nwalkvalues f\nlists\nlengths\nreserve 0 9\npacktofit\nswap\njson\n\
    json2\nretain 8\nremove 1\nremoveall 1\nremoveentry 1\nremoveentryall 2\nremoveat 2 1\n\
    orinsert 4 4\npopfront\npopback\nclear";

const COMMANDS: &str = "[Append(1, -2), Insert(1, 3), InsertAll(1, 4), OrInsert(2, 5), \
    SetFirst(2, 6), SetFront(7), SetBack(8), Get(3), All(1, Forward), \
    All(1, Word([Front, Back])), Has(2), Len(1), Front, Back, Pairs(Forward), \
    Pairs(Word([Back])), Keys(Forward), Keys(Word([Back, Front, Front])), Values(Forward), \
    Values(Word([Front])), KeyLists, Lengths, Reserve(0, 9), PackToFit, Swap, Json, Json2, \
    Retain(8), Remove(1), RemoveAll(1), RemoveEntry(1), RemoveEntryAll(2), RemoveAt(2, 1), \
    OrInsert(4, 4), PopFront, PopBack, Clear]";

const REPLIES: &str = "[Appended(false), Old(Some(-2)), Values([Some(3)]), Value(Some(5)), \
    Old(Some(5)), Pair(Some((1, 4))), Pair(Some((2, 6))), Value(None), Values([Some(7)]), \
    Values([Some(7), None]), Truth(true), Count(1), Pair(Some((1, 7))), Pair(Some((2, 8))), \
    Pairs([Some((1, 7)), Some((2, 8))]), Pairs([Some((2, 8))]), Keys([Some(1), Some(2)]), \
    Keys([Some(2), Some(1), None]), Values([Some(7), Some(8)]), Values([Some(7)]), \
    Lists([(1, [7]), (2, [8])]), Counts(2, 2), Done, Done, Done, Done, Done, Done, \
    Value(None), Values([]), Pair(None), List(Some((2, [8]))), Value(None), Value(Some(4)), \
    Popped(Some(Popped { owned: true, key: 4, value: 4 })), Popped(None), Done]";

/// A line whose command and reply are others.
const OTHER_LINE: &str = "walkkeys bfb\n";

fn commands_in(test: &Test, lines: &str) -> Commands {
    let parsed = parse_commands(test.alloc(), lines.as_bytes());
    test.expect(parsed.is_ok());
    parsed.unwrap_or(Vec::new(test.alloc()))
}

fn replies_to(test: &Test, commands: &Commands) -> Replies {
    let alloc = test.alloc();
    let mut map = ListOrderedMultimap::new(alloc);
    let ran = run(
        alloc,
        alloc,
        &mut map,
        commands,
        |least, _, value| *value >= least,
    );
    test.expect(ran.is_ok());
    ran.unwrap_or(Vec::new(alloc))
}

fn commands_are_shown(test: &Test, commands: &Commands) {
    test.expect(is_shown(test.alloc(), commands, COMMANDS));
    let like = commands_in(test, LINES);
    let other = commands_in(test, OTHER_LINE);
    test.expect(is_compared(commands, &like, &other));
}

fn replies_are_shown(test: &Test, commands: &Commands) {
    let replies = replies_to(test, commands);
    test.expect(is_shown(test.alloc(), &replies, REPLIES));
    let like = replies_to(test, commands);
    let other = replies_to(test, &commands_in(test, OTHER_LINE));
    test.expect(is_compared(&replies, &like, &other));
}

// No run of lines with ample memory gives these.
fn rare_replies_are_shown(test: &Test) {
    let rare: [Reply<u32, i64>; 2] = [Reply::NoMemory, Reply::Count(usize::MAX)];
    test.expect(is_shown(test.alloc(), &rare[0], "NoMemory"));
    let wanted = b"no memory\n18446744073709551615\n";
    match format_replies(test.alloc(), &rare) {
        Ok(text) => test.expect(text.as_slice() == wanted.as_slice()),
        Err(_) => test.fail(),
    }
}

#[test]
fn commands_and_replies_are_shown_and_compared(rt: HostRuntime) -> Result<(), Failed> {
    let test = Test::new(rt.alloc());
    let commands = commands_in(&test, LINES);
    commands_are_shown(&test, &commands);
    replies_are_shown(&test, &commands);
    rare_replies_are_shown(&test);
    test.end()
}
