//! Carries out commands on two maps, for comparing the map's calls with plain lists.
//!
//! Standard input holds a command on each line. A key is a whole number of 32 bits, with any zeros
//! in front: `7` and `07` are one key, spelled differently. `VALUE`, `BOUND` and `INDEX` are whole
//! numbers of 64 bits with a sign, and so is `COUNT`. All commands are about the first map, and `swap` makes the
//! second one the first.
//!
//! | Command | What it does | What it writes |
//! |---|---|---|
//! | `append KEY VALUE` | `append` | the value if the key was there |
//! | `append_many KEY COUNT` | `append_many` of the numbers from 0 on that are below the count | how many |
//! | `entry_append_many KEY COUNT` | `OccupiedEntry::append_many` of the same, nothing for an absent key | how many |
//! | `insert KEY VALUE` | `insert` | the old first value |
//! | `set KEY VALUE` | `set` | the old first value |
//! | `entry_set KEY VALUE` | `OccupiedEntry::set`, nothing for an absent key | the old first value |
//! | `try_insert KEY VALUE` | `Entry::or_try_insert_with` of a function that fails for a value below 0 | the first value, if there is one then |
//! | `or_default KEY` | `Entry::or_default`, then adds 1 to the value | the value |
//! | `contains KEY VALUE` | `contains` | the value if it is there |
//! | `get_last KEY` | `get_last` | the value |
//! | `get_key_value KEY` | `get_key_value` | the key and the value |
//! | `remove KEY` | `remove` | the value |
//! | `move_back KEY`, `move_front KEY` | `move_key_to_back`, `move_key_to_front` | whether the key was there |
//! | `rename KEY KEY` | `rename_key` to the second key | the old key, or why not |
//! | `remove_index KEY INDEX` | `remove_index` | the value |
//! | `remove_value KEY VALUE` | `remove_value` | the value |
//! | `retain_all KEY BOUND` | `retain_all` of what is at least the bound, with 1 added | the last value that it was called on |
//! | `pop_front` | `pop_front` | the key and the value |
//! | `pop_front_key`, `pop_back_key` | the same call | the key and a drain of its values |
//! | `append_map` | `append_map` of the second map | the second map |
//! | `insert_map` | `insert_map` of the second map | the second map |
//! | `swap` | swaps the maps | nothing |
//! | `into_keys` | `into_keys`, which leaves an empty map | the first key, the last of the others, and the rest |
//! | `into_values` | `into_values`, which leaves an empty map | the first value, the last of the others, and the rest |
//! | `walk NAME WORD` | `NAME`, by the letters `f` and `b` of the word: `iter`, `keys`, `values`, `pairs`, `iter_mut`, `values_mut`, or `into_iter`, which leaves an empty map | of each step the size hint before it, the item, and the iterator then |
//! | `walk NAME KEY WORD` | `get_all`, `get_all_mut` or `remove_all` of the key | the same |
//! | `lists` | iterates | the pairs, the keys, the values of each key, and those from the back |
//!
//! Replies are written as `Debug` shows them, keys as they are stored.
//! Empty lines are ignored.
//!
//! The exit status is 0, or 2 where a line is bad, 3 when out of memory, or 4 where standard input
//! or output failed. Then nothing but a message on standard error is written, unless it is the
//! output that failed.
#![tactic(auto)]

mod calls;
mod command;
mod key;
mod walks;

use crate::command::{Map, carry_out_all};
use ordered_multimap::ListOrderedMultimap;
use program_parts::{Arguments, Fault, Program, read_input, run_program};
use std::io;
use std::process::ExitCode;

const PROGRAM: Program = Program {
    name: "map_calls",
    help: "usage: map_calls < FILE\n",
    flags: &[],
    valued: &[],
    text: None,
};

fn main(rt: HostRuntime) -> ExitCode {
    run_program(&rt, &PROGRAM, replies_to)
}

fn replies_to(rt: &HostRuntime, arguments: &Arguments<'_>) -> Result<Vec<u8>, Fault> {
    let input = read_input(rt, &PROGRAM, arguments)?;
    let mut replies = String::new(rt.alloc());
    let mut line = 0usize;
    match add_replies(rt, &input, &mut replies, &mut line) {
        Ok(()) => Ok(replies.into_bytes()),
        Err(error) => Err(Fault::at_line(line, error)),
    }
}

fn add_replies(
    rt: &HostRuntime,
    input: &[u8],
    replies: &mut String,
    line: &mut usize,
) -> io::Result<()> {
    add_beside(
        &mut ListOrderedMultimap::new(rt.alloc()),
        input,
        replies,
        line,
    )
}

/// Adds the replies of this map, and of a second one.
fn add_beside(
    map: &mut Map,
    input: &[u8],
    replies: &mut String,
    line: &mut usize,
) -> io::Result<()> {
    let mut other = ListOrderedMultimap::new(*map.allocator());
    carry_out_all(map, &mut other, input, replies, line)
}
