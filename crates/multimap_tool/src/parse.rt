//! Commands read from the lines of a text.
ghost use Rattle.std.specs.Prelude.{◌≡◌, ◌<◌, ◌++◌, ◌∷◌, length, IfOk, IfErr, MatchOption};
ghost use Rattle.std.specs.Fmt.{decimal, signed_decimal};
ghost use Rattle.multimap_tool.specs.Spelling.{lines_of, SpellEach};
ghost use Rattle.multimap_tool.specs.Execute.{IsTextFaultOf};
ghost use Rattle.multimap_tool.specs.Private.Parts.{IsWithout, IsReadingOf};

mod operands;
mod words;

use crate::commands::Command;
use crate::faults::TextFault;
use crate::parse::operands::{key_in, key_of, value_of, word_of};
use crate::parse::words::{
    key_command, key_walk_command, lone_command, number_command, pair_command, value_command,
    walk_command,
};
use std::alloc::{AllocError, Allocator};

/// Reads the commands of a text, one of each line.
///
/// A line is a command's word and its arguments, each after one space. Each command has one
/// spelling, which docs/TOOLS.md lists. The text may have any bytes. What follows the last line
/// feed is a line unless it is empty.
///
/// # Errors
///
/// Returns [`TextFault::BadLine`] with the number of the first line that is no command, counted
/// from 1. Returns [`TextFault::OutOfMemory`] if memory allocation fails at that line or before it.
/// There are then no commands.
///
/// # Complexity
///
/// *O*(*b*) for a text of *b* bytes.
///
/// # Examples
///
/// ```
/// use multimap_tool::commands::Command;
/// use multimap_tool::faults::TextFault;
/// use multimap_tool::parse::parse_commands;
///
/// let alloc = rt.alloc();
/// let commands = vec![in alloc; Command::Append(1, 10), Command::Get(1)]?;
/// assert_eq!(rt; parse_commands(alloc, b"append 1 10\nget 1\n"), Ok(commands));
/// assert_eq!(rt; parse_commands(alloc, b"get 1\nget one\n"), Err(TextFault::BadLine(2)));
/// ```
pub fn parse_commands<A: Allocator + Copy>(
    alloc: A,
    text: &[u8],
) -> Result<Vec<Command<u32, i64, A>, A>, TextFault>
    ensures ok { IfOk result (λ commands. SpellEach commands.items (lines_of text.now)) }
    ensures fault { IfErr result (IsTextFaultOf A text.now) }
{
    let mut commands = Vec::new(alloc);
    let mut rest = text;
    while !rest.is_empty() {
        let (line, others) = first_line(rest);
        match command_of(alloc, line)? {
            Some(command) => commands.push(command)?,
            None => return Err(TextFault::BadLine(commands.len() as u64 + 1)),
        }
        rest = others;
    }
    Ok(commands)
}

/// The first line of a text that isn't empty, and the text of the other lines.
fn first_line(text: &[u8]) -> (&[u8], &[u8])
    requires { 0 < length text.now }
    ensures lines { lines_of text.now ≡ result.0.now ∷ lines_of result.1.now }
    ensures shorter { length result.1.now < length text.now }
{
    let (line, behind) = cut(text, b'\n');
    match behind {
        Some(others) => (line, others),
        None => (line, &[]),
    }
}

/// What stands before the first separator, and what stands behind it if there is one.
fn cut(text: &[u8], separator: u8) -> (&[u8], Option<&[u8]>)
    ensures parts { MatchOption result.1 (text.now ≡ result.0.now)
        (λ behind. text.now ≡ result.0.now ++ separator ∷ behind.now) }
    ensures first { IsWithout separator result.0.now }
{
    for (at, byte) in text.iter().enumerate() {
        if separator == *byte {
            return (&text[..at], Some(&text[at + 1..]));
        }
    }
    (text, None)
}

/// The command that a line spells, or none if the line is bad.
fn command_of<A: Allocator + Copy>(
    alloc: A,
    line: &[u8],
) -> Result<Option<Command<u32, i64, A>>, AllocError>
    ensures { IfOk result (IsReadingOf line.now) }
{
    let (name, operands) = cut(line, b' ');
    let Some(operands) = operands else {
        return Ok(lone_command(name));
    };
    let (first, second) = cut(operands, b' ');
    match second {
        None => with_one_operand(alloc, name, first),
        Some(second) => with_two_operands(alloc, name, first, second),
    }
}

/// The command of a word and one operand.
fn with_one_operand<A: Allocator>(
    alloc: A,
    name: &[u8],
    operand: &[u8],
) -> Result<Option<Command<u32, i64, A>>, AllocError>
    requires name { IsWithout 32 name.now }
    requires operand { IsWithout 32 operand.now }
    ensures { IfOk result (IsReadingOf (name.now ++ 32 ∷ operand.now)) }
{
    if let Some(number) = value_of(operand) {
        return Ok(with_one_number(name, number));
    }
    let Some(word) = word_of(alloc, operand)? else {
        return Ok(None);
    };
    Ok(walk_command(name, word))
}

/// The command of a word and a number: a value, or a key where it fits one.
fn with_one_number<A: Allocator>(name: &[u8], number: i64) -> Option<Command<u32, i64, A>>
    requires { IsWithout 32 name.now }
    ensures { IsReadingOf (name.now ++ 32 ∷ signed_decimal number) result }
{
    if let Some(command) = value_command(name, number) {
        return Some(command);
    }
    let Some(key) = key_of(number) else {
        return None;
    };
    key_command(name, key)
}

/// The command of a word and two operands; in the second, spaces may remain.
fn with_two_operands<A: Allocator>(
    alloc: A,
    name: &[u8],
    first: &[u8],
    second: &[u8],
) -> Result<Option<Command<u32, i64, A>>, AllocError>
    requires name { IsWithout 32 name.now }
    requires first { IsWithout 32 first.now }
    ensures { IfOk result (IsReadingOf (name.now ++ 32 ∷ (first.now ++ 32 ∷ second.now))) }
{
    let Some(key) = key_in(first) else {
        return Ok(None);
    };
    if let Some(number) = value_of(second) {
        return Ok(with_two_numbers(name, key, number));
    }
    let Some(word) = word_of(alloc, second)? else {
        return Ok(None);
    };
    Ok(key_walk_command(name, key, word))
}

/// The command of a word, a key and a number: a value, or a number of items where it fits one.
fn with_two_numbers<A: Allocator>(
    name: &[u8],
    key: u32,
    number: i64,
) -> Option<Command<u32, i64, A>>
    requires { IsWithout 32 name.now }
    ensures { IsReadingOf (name.now ++ 32 ∷ (decimal key ++ 32 ∷ signed_decimal number)) result }
{
    if let Some(command) = pair_command(name, key, number) {
        return Some(command);
    }
    let Some(items) = key_of(number) else {
        return None;
    };
    number_command(name, key, items)
}
