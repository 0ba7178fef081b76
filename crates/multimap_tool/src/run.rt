//! Commands run in order, with one reply for each.
ghost use Rattle.std.specs.Borrow.{Bor, MutBor};
ghost use Rattle.std.specs.Prelude.{◌≡◌, ◌≤◌, [], Contains, IfOk, OnErr, length, vec_capacity};
ghost use Rattle.multimap_tool.specs.declared.commands.Command.{Command};
ghost use Rattle.multimap_tool.specs.Step.{MayKeep, Rereads};
ghost use Rattle.multimap_tool.specs.Json.{DifferAsJson};
ghost use Rattle.multimap_tool.specs.Runs.{ClonesAreSame, IsRun};
ghost use Rattle.multimap_tool.specs.RunRooms.{HasRunRoom, FindsRoom};
ghost use Rattle.multimap_tool.specs.MapRuns.{IsMapRun, IsMapStep};
ghost use Rattle.multimap_tool.specs.Private.MapSteps.{CanStep, IsOwnMapStep, IsStepInPlace};

mod ask;
mod change;
mod json;
mod keep;
mod room;

use crate::commands::Command;
use crate::json::JsonPart;
use crate::replies::Reply;
use crate::run::ask::lists::list_keys;
use crate::run::ask::walk::copied_pair;
use crate::run::ask::{first_value, walk_all_values, walk_keys, walk_pairs, walk_values};
use crate::run::change::drained::{insert_all, remove_all, remove_entry_all};
use crate::run::change::written::{or_insert, set_end, set_first};
use crate::run::change::{append, clear, insert, pop, remove_at};
use crate::run::json::{JsonKey, JsonValue, reread, reread_lists};
use crate::run::keep::Keep;
use crate::run::room::{pack_to_fit, reserve};
use ordered_multimap::{End, ListOrderedMultimap};
use std::alloc::{AllocError, Allocator, Global};
use std::hash::{BuildHasher, Hash};

/// Runs the commands on the map, in order, and returns one reply for each.
///
/// The replies are allocated from `alloc`, and the JSON value that a [`Command::Json`] or
/// [`Command::Json2`] makes and reads from `memory`. `keep` says which pairs a [`Command::Retain`]
/// keeps: it gets the command's value, the key, and the value, which it may write.
///
/// A command that runs out of memory gets [`Reply::NoMemory`], and changes neither keys nor pairs.
/// No append, insert or or-insert gets it if the map has room for one more key and one more value
/// at that command. So none gets it if the map has room at the start for as many more keys and
/// values as there are commands, and none of these is a [`Command::PackToFit`], [`Command::Swap`],
/// [`Command::Json`] or [`Command::Json2`]. A [`Command::Reserve`] whose room is there already is
/// done, and one that is done has made its room.
///
/// # Errors
///
/// Returns `AllocError` if the room for all replies, which is allocated at the start, can't be
/// allocated. No command was run then.
///
/// # Complexity
///
/// What the map's call of the same name costs, for each command.
///
/// # Requires
///
/// - `keep` may be called with the value of each [`Command::Retain`], and any key and value.
/// - Clones of keys and values are the same keys and values, as those of numbers are.
/// - If a [`Command::Json`] or [`Command::Json2`] is among the commands, different keys have
///   different JSON values, and different values too.
///
/// # Examples
///
/// ```
/// use multimap_tool::commands::Command;
/// use multimap_tool::replies::Reply;
/// use multimap_tool::run::run;
/// use ordered_multimap::ListOrderedMultimap;
///
/// let alloc = rt.alloc();
/// let mut map = ListOrderedMultimap::new(alloc);
/// let commands = [Command::Append(1, 10), Command::Append(2, 20), Command::Retain(15)];
/// let replies = run(alloc, alloc, &mut map, &commands, |least, _key, value| *value >= least)?;
/// let wanted = [Reply::Appended(false), Reply::Appended(false), Reply::Done];
/// assert!(rt; replies.iter().eq(&wanted));
/// assert!(rt; map.iter().eq([(&2, &20)]));
/// ```
pub fn run<
    K: JsonPart + Eq + Hash + Copy,
    V: JsonPart + Copy,
    S: BuildHasher + Clone,
    A: Allocator + Copy,
    F: Fn(V, &K, &mut V) -> bool + Drop,
>(
    alloc: A,
    memory: Global,
    map: &mut ListOrderedMultimap<K, V, S, A>,
    commands: &[Command<K, V, A>],
    keep: F,
) -> Result<Vec<Reply<K, V, A>, A>, AllocError>
    requires callable { (operand : V) → Contains commands.now (Command.Retain operand)
        → (key : Bor K) (value : MutBor V) → F.pre keep operand key value }
    requires clones { ClonesAreSame K.is_clone V.is_clone }
    requires parts { (command : Command K V A) → Contains commands.now command → Rereads command
        → DifferAsJson K.json V.json }
    ensures ok { IfOk result (λ replies. IsRun (MayKeep F.Fn keep) K.eq
        commands.now map.old.lists replies.items map.new.lists) }
    ensures steps { IfOk result (λ replies. IsMapRun (MayKeep F.Fn keep) K.eq S.is_clone
        commands.now map.old replies.items map.new) }
    ensures hasher { ((s c : S) → S.is_clone s c → c ≡ s) → map.new.hasher ≡ map.old.hasher }
    ensures room { HasRunRoom commands.now map.old
        → IfOk result (λ replies. FindsRoom commands.now replies.items) }
    ensures unchanged { OnErr result (map.new ≡ map.old) }
{
    let mut replies = Vec::with_capacity(alloc, commands.len())?;
    run_all(alloc, memory, map, commands, &keep, &mut replies);
    Ok(replies)
}

/// Runs the commands, and puts the replies into an empty list with room for them.
fn run_all<K: JsonKey, V: JsonValue, S: BuildHasher + Clone, A: Allocator + Copy, F: Keep<K, V>>(
    alloc: A,
    memory: Global,
    map: &mut ListOrderedMultimap<K, V, S, A>,
    commands: &[Command<K, V, A>],
    keep: &F,
    replies: &mut Vec<Reply<K, V, A>, A>,
)
    requires steps { (command : Command K V A) → Contains commands.now command
        → CanStep (F.accepts keep.now) K.is_clone V.is_clone K.json V.json command }
    requires empty { replies.old.items ≡ [] }
    requires capacity { length commands.now ≤ vec_capacity replies.old }
    ensures ok { IsRun (F.answers keep.now) K.eq
        commands.now map.old.lists replies.new.items map.new.lists }
    ensures steps { IsMapRun (F.answers keep.now) K.eq S.is_clone
        commands.now map.old replies.new.items map.new }
    ensures hasher { ((s c : S) → S.is_clone s c → c ≡ s) → map.new.hasher ≡ map.old.hasher }
    ensures room { HasRunRoom commands.now map.old → FindsRoom commands.now replies.new.items }
{
    for command in commands {
        replies.push_reserved(step(alloc, memory, map, command, keep));
    }
}

/// Runs one command.
fn step<K: JsonKey, V: JsonValue, S: BuildHasher + Clone, A: Allocator + Copy, F: Keep<K, V>>(
    alloc: A,
    memory: Global,
    map: &mut ListOrderedMultimap<K, V, S, A>,
    command: &Command<K, V, A>,
    keep: &F,
) -> Reply<K, V, A>
    requires { CanStep (F.accepts keep.now) K.is_clone V.is_clone K.json V.json command.now }
    ensures { IsMapStep (F.answers keep.now) K.eq S.is_clone command.now map.old map.new result }
{
    match command {
        Command::Append(key, value) => append(map, *key, *value),
        Command::Insert(key, value) => insert(map, *key, *value),
        Command::InsertAll(key, value) => insert_all(alloc, map, *key, *value),
        Command::SetFirst(key, value) => set_first(map, key, *value),
        Command::SetFront(value) => set_end(map, End::Front, *value),
        Command::SetBack(value) => set_end(map, End::Back, *value),
        Command::OrInsert(key, value) => or_insert(map, *key, *value),
        Command::Get(key) => first_value(map, key),
        Command::All(key, ends) => walk_values(alloc, map, key, ends),
        Command::Has(key) => Reply::Truth(map.contains_key(key)),
        Command::Len(key) => Reply::Count(map.entry_len(key)),
        Command::Front => Reply::Pair(copied_pair(map.front())),
        Command::Back => Reply::Pair(copied_pair(map.back())),
        Command::Remove(key) => Reply::Value(map.remove(key)),
        Command::RemoveAll(key) => remove_all(alloc, map, key),
        Command::RemoveEntry(key) => Reply::Pair(map.remove_entry(key)),
        Command::RemoveEntryAll(key) => remove_entry_all(alloc, map, key),
        Command::RemoveAt(key, index) => remove_at(map, *key, *index),
        Command::PopFront => Reply::Popped(pop(map, End::Front)),
        Command::PopBack => Reply::Popped(pop(map, End::Back)),
        Command::Retain(operand) => retain(map, *operand, keep),
        Command::Clear => clear(map),
        Command::Reserve(keys, values) => reserve(map, *keys, *values),
        Command::PackToFit => pack_to_fit(map),
        Command::Swap => swap(map),
        Command::Json => reread(alloc, memory, map),
        Command::Json2 => reread_lists(alloc, memory, map),
        Command::Pairs(ends) => walk_pairs(alloc, map, ends),
        Command::Keys(ends) => walk_keys(alloc, map, ends),
        Command::Values(ends) => walk_all_values(alloc, map, ends),
        Command::KeyLists => list_keys(alloc, map),
        Command::Lengths => Reply::Counts(map.keys_len(), map.values_len()),
    }
}

/// Keeps the pairs for which the function returns true.
fn retain<K: Eq + Hash + Copy, V: Copy, S: BuildHasher, A: Allocator + Copy, F: Keep<K, V>>(
    map: &mut ListOrderedMultimap<K, V, S, A>,
    operand: V,
    keep: &F,
) -> Reply<K, V, A>
    requires { F.accepts keep.now operand }
    ensures { IsStepInPlace (F.answers keep.now) K.eq (Command.Retain operand)
        map.old map.new result }
{
    map.retain(|key, value| keep.keeps(operand, key, value));
    Reply::Done
}

/// Puts a clone of the map in its place.
fn swap<K: Eq + Hash + Copy, V: Copy, S: BuildHasher + Clone, A: Allocator + Copy>(
    map: &mut ListOrderedMultimap<K, V, S, A>,
) -> Reply<K, V, A>
    requires { ClonesAreSame K.is_clone V.is_clone }
    ensures { IsOwnMapStep K.eq S.is_clone Command.Swap map.old map.new result }
{
    match map.clone() {
        Ok(copy) => {
            *map = copy;
            Reply::Done
        }
        Err(_) => Reply::NoMemory,
    }
}
