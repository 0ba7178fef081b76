//! Commands found by their words.
ghost use Rattle.std.specs.Prelude.{◌≡◌, ◌↔◌, [], ◌∷◌, IsTrue};
ghost use Rattle.multimap_tool.specs.Spelling.{key_operand, value_operand, word_operand};
ghost use Rattle.multimap_tool.specs.Private.Parts.{IsFoundFor};

use crate::commands::{Command, Ends};
use ordered_multimap::End;
use std::alloc::Allocator;

/// Whether both are the same text.
fn is(name: &[u8], word: &[u8]) -> bool
    ensures { IsTrue result ↔ (name.now ≡ word.now) }
{
    name == word
}

/// The command of a word alone.
pub(crate) fn lone_command<A: Allocator>(name: &[u8]) -> Option<Command<u32, i64, A>>
    ensures { IsFoundFor name.now [] result }
{
    if is(name, b"popfront") {
        Some(Command::PopFront)
    } else if is(name, b"popback") {
        Some(Command::PopBack)
    } else if is(name, b"clear") {
        Some(Command::Clear)
    } else if is(name, b"packtofit") {
        Some(Command::PackToFit)
    } else if is(name, b"swap") {
        Some(Command::Swap)
    } else if is(name, b"json") {
        Some(Command::Json)
    } else if is(name, b"json2") {
        Some(Command::Json2)
    } else if is(name, b"front") {
        Some(Command::Front)
    } else if is(name, b"back") {
        Some(Command::Back)
    } else if is(name, b"pairs") {
        Some(Command::Pairs(Ends::Forward))
    } else if is(name, b"keys") {
        Some(Command::Keys(Ends::Forward))
    } else if is(name, b"values") {
        Some(Command::Values(Ends::Forward))
    } else if is(name, b"lists") {
        Some(Command::KeyLists)
    } else if is(name, b"lengths") {
        Some(Command::Lengths)
    } else {
        None
    }
}

/// The command of a word and a value.
pub(crate) fn value_command<A: Allocator>(name: &[u8], value: i64) -> Option<Command<u32, i64, A>>
    ensures { IsFoundFor name.now (value_operand value ∷ []) result }
{
    if is(name, b"setfront") {
        return Some(Command::SetFront(value));
    }
    if is(name, b"setback") {
        return Some(Command::SetBack(value));
    }
    if is(name, b"retain") {
        return Some(Command::Retain(value));
    }
    None
}

/// The command of a word and a key.
pub(crate) fn key_command<A: Allocator>(name: &[u8], key: u32) -> Option<Command<u32, i64, A>>
    ensures { IsFoundFor name.now (key_operand key ∷ []) result }
{
    if is(name, b"get") {
        return Some(Command::Get(key));
    }
    if is(name, b"all") {
        return Some(Command::All(key, Ends::Forward));
    }
    if is(name, b"has") {
        return Some(Command::Has(key));
    }
    if is(name, b"len") {
        return Some(Command::Len(key));
    }
    if is(name, b"remove") {
        return Some(Command::Remove(key));
    }
    if is(name, b"removeall") {
        return Some(Command::RemoveAll(key));
    }
    if is(name, b"removeentry") {
        return Some(Command::RemoveEntry(key));
    }
    if is(name, b"removeentryall") {
        return Some(Command::RemoveEntryAll(key));
    }
    None
}

/// The command of a word and the letters of a walk.
pub(crate) fn walk_command<A: Allocator>(
    name: &[u8],
    word: Vec<End, A>,
) -> Option<Command<u32, i64, A>>
    ensures { IsFoundFor name.now (word_operand word.items ∷ []) result }
{
    if is(name, b"walkpairs") {
        return Some(Command::Pairs(Ends::Word(word)));
    }
    if is(name, b"walkkeys") {
        return Some(Command::Keys(Ends::Word(word)));
    }
    if is(name, b"walkvalues") {
        return Some(Command::Values(Ends::Word(word)));
    }
    None
}

/// The command of a word, a key and a value.
pub(crate) fn pair_command<A: Allocator>(
    name: &[u8],
    key: u32,
    value: i64,
) -> Option<Command<u32, i64, A>>
    ensures { IsFoundFor name.now (key_operand key ∷ value_operand value ∷ []) result }
{
    if is(name, b"append") {
        return Some(Command::Append(key, value));
    }
    if is(name, b"insert") {
        return Some(Command::Insert(key, value));
    }
    if is(name, b"insertall") {
        return Some(Command::InsertAll(key, value));
    }
    if is(name, b"setfirst") {
        return Some(Command::SetFirst(key, value));
    }
    if is(name, b"orinsert") {
        return Some(Command::OrInsert(key, value));
    }
    None
}

/// The command of a word, a key or a number of items, and a number of items.
pub(crate) fn number_command<A: Allocator>(
    name: &[u8],
    first: u32,
    items: u32,
) -> Option<Command<u32, i64, A>>
    ensures { IsFoundFor name.now (key_operand first ∷ key_operand items ∷ []) result }
{
    if is(name, b"reserve") {
        return Some(Command::Reserve(first as usize, items as usize));
    }
    if is(name, b"removeat") {
        return Some(Command::RemoveAt(first, items as usize));
    }
    None
}

/// The command of a word, a key and the letters of a walk.
pub(crate) fn key_walk_command<A: Allocator>(
    name: &[u8],
    key: u32,
    word: Vec<End, A>,
) -> Option<Command<u32, i64, A>>
    ensures { IsFoundFor name.now (key_operand key ∷ word_operand word.items ∷ []) result }
{
    if is(name, b"walk") {
        return Some(Command::All(key, Ends::Word(word)));
    }
    None
}
