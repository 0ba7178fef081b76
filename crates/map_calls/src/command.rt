//! Commands, read from lines.
use crate::calls::{call_on_whole, call_with_key, call_with_number, rename};
use crate::key::Key;
use crate::walks::walk;
use ordered_multimap::ListOrderedMultimap;
use program_parts::{bad, text_of};
use std::io;

/// A map whose keys are spelled as in the input.
pub type Map = ListOrderedMultimap<Key, i64>;

/// Carries out the commands on the maps, which are empty, and adds what each writes. A bad line
/// ends this. `number` is the number of the line that is read.
pub fn carry_out_all(
    map: &mut Map,
    other: &mut Map,
    input: &[u8],
    replies: &mut String,
    number: &mut usize,
) -> io::Result<()> {
    for (index, line) in input.split(|byte| *byte == b'\n').enumerate() {
        *number = index.saturating_add(1);
        let line = text_of(line)?;
        if !line.is_empty() {
            carry_out(map, other, line, replies)?;
        }
    }
    Ok(())
}

/// The first word, and what stands behind it.
pub fn parted(text: &str) -> (&str, &str) {
    text.split_once(' ').unwrap_or((text, ""))
}

fn carry_out(map: &mut Map, other: &mut Map, line: &str, replies: &mut String) -> io::Result<()> {
    let (word, operands) = parted(line);
    if operands.is_empty() {
        call_on_whole(map, other, word, replies)
    } else if word == "walk" {
        walk(map, operands, replies)
    } else {
        carry_out_by_key(map, word, operands, replies)
    }
}

fn carry_out_by_key(
    map: &mut Map,
    word: &str,
    operands: &str,
    replies: &mut String,
) -> io::Result<()> {
    let (key, number) = parted(operands);
    let key = Key::new(key)?;
    if number.is_empty() {
        return call_with_key(map, word, key, replies);
    }
    if word == "rename" {
        return rename(map, key, Key::new(number)?, replies);
    }
    let Ok(number) = number.parse() else {
        return Err(bad("not a number"));
    };
    let reply = call_with_number(map, word, key, number)?;
    writeln!(replies, "{reply:?}")?;
    Ok(())
}
