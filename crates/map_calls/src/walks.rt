//! Walks from both ends, and what each step writes.
use crate::calls::taken;
use crate::command::{Map, parted};
use crate::key::Key;
use program_parts::bad;
use std::fmt::Debug;
use std::io;

/// Walks by the letters of a word: `f` takes the first item, any other letter the last one. Each step
/// writes how many items were left, the item, and what is left then.
fn add_steps<W>(walk: &mut W, word: &str, replies: &mut String) -> io::Result<()>
where
    W: DoubleEndedIterator + ExactSizeIterator + Debug,
    W::Item: Debug + Drop,
    requires next { (state : W) → W.can_next state }
    requires next_back { (state : W) → W.can_next_back state }
{
    for letter in word.bytes() {
        write!(replies, "{:?} ", walk.size_hint())?;
        let item = if letter == b'f' {
            walk.next()
        } else {
            walk.next_back()
        };
        writeln!(replies, "{item:?} {walk:?}")?;
    }
    Ok(())
}

/// Carries out the command that names a walk and a word.
pub fn walk(map: &mut Map, operands: &str, replies: &mut String) -> io::Result<()> {
    let (name, word) = parted(operands);
    match name {
        "iter" => add_steps(&mut map.iter(), word, replies),
        "keys" => add_steps(&mut map.keys(), word, replies),
        "values" => add_steps(&mut map.values(), word, replies),
        "pairs" => add_steps(&mut map.pairs(), word, replies),
        _ => walk_writing(map, name, word, replies),
    }
}

fn walk_writing(map: &mut Map, name: &str, word: &str, replies: &mut String) -> io::Result<()> {
    match name {
        "iter_mut" => add_steps(&mut map.iter_mut(), word, replies),
        "values_mut" => add_steps(&mut map.values_mut(), word, replies),
        "into_iter" => add_steps(&mut taken(map).into_iter(), word, replies),
        _ => walk_of_key(map, name, word, replies),
    }
}

fn walk_of_key(map: &mut Map, name: &str, operands: &str, replies: &mut String) -> io::Result<()> {
    let (key, word) = parted(operands);
    let key = Key::new(key)?;
    match name {
        "get_all" => add_steps(&mut map.get_all(&key), word, replies),
        "get_all_mut" => add_steps(&mut map.get_all_mut(&key), word, replies),
        "remove_all" => add_steps(&mut map.remove_all(&key), word, replies),
        _ => Err(bad("not a command")),
    }
}
