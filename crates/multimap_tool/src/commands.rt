//! Commands: what a line of input asks for.
use ordered_multimap::End;
use std::alloc::{Allocator, Global};

/// Which items an iterating command takes, and from which end.
///
/// # Examples
///
/// ```
/// use multimap_tool::commands::{Command, Ends};
/// use multimap_tool::parse::parse_commands;
/// use ordered_multimap::End;
///
/// let alloc = rt.alloc();
/// let word = Ends::Word(vec![in alloc; End::Front, End::Back]?);
/// let commands = vec![in alloc; Command::Pairs(Ends::Forward), Command::Pairs(word)]?;
/// assert_eq!(rt; parse_commands(alloc, b"pairs\nwalkpairs fb\n"), Ok(commands));
/// ```
#[derive_where(Debug, PartialEq, Eq)]
#[derive(Drop)]
pub enum Ends<A: Allocator = Global> {
    /// Each item once, from the front.
    Forward,
    /// One item for each letter, from that end of what is left.
    Word(Vec<End, A>),
}

/// A command: a call on a map, with its arguments.
///
/// It is made by [`parse_commands`](crate::parse::parse_commands) and run by
/// [`run`](crate::run::run). Each variant says which [`Reply`](crate::replies::Reply) it gets. A
/// command that runs out of memory gets `Reply::NoMemory` in its place, and changes neither keys
/// nor pairs.
///
/// # Examples
///
/// ```
/// use multimap_tool::commands::Command;
/// use multimap_tool::replies::Reply;
/// use multimap_tool::run::run;
/// use ordered_multimap::ListOrderedMultimap;
///
/// let alloc = rt.alloc();
/// let mut map = ListOrderedMultimap::new(alloc);
/// let commands = [Command::Append(1, 10), Command::Append(1, 20), Command::RemoveAt(1, 0)];
/// let replies = run(alloc, alloc, &mut map, &commands, |least, _key, value| *value >= least)?;
/// assert_eq!(rt; replies.last(), Some(&Reply::Value(Some(10))));
/// assert!(rt; map.iter().eq([(&1, &20)]));
/// ```
#[derive_where(Debug, PartialEq, Eq; K, V)]
#[derive(Drop)]
pub enum Command<K, V, A: Allocator = Global> {
    /// Appends the pair. The reply is `Appended`: whether the key was present.
    Append(K, V),
    /// Replaces all pairs of the key with this one, which comes last. The reply is `Old`: the first
    /// value that was replaced.
    Insert(K, V),
    /// Replaces all pairs of the key with this one, which comes last. The reply is `Values`: the
    /// values that were replaced.
    InsertAll(K, V),
    /// Overwrites the key's first value, if it has one. The reply is `Old`: the old value.
    SetFirst(K, V),
    /// Overwrites the value of the first pair, if there is one. The reply is `Pair`: the pair as it
    /// was.
    SetFront(V),
    /// Overwrites the value of the last pair, if there is one. The reply is `Pair`: the pair as it
    /// was.
    SetBack(V),
    /// Appends the pair if the key is absent. The reply is `Value`: the key's first value then.
    OrInsert(K, V),
    /// Asks for the key's first value. The reply is `Value`.
    Get(K),
    /// Asks for the key's values. The reply is `Values`.
    All(K, Ends<A>),
    /// Asks whether the key is present. The reply is `Truth`.
    Has(K),
    /// Asks how many values the key has. The reply is `Count`.
    Len(K),
    /// Asks for the first pair. The reply is `Pair`.
    Front,
    /// Asks for the last pair. The reply is `Pair`.
    Back,
    /// Removes the key with all its values. The reply is `Value`: the first of them.
    Remove(K),
    /// Removes the key with all its values. The reply is `Values`: all of them.
    RemoveAll(K),
    /// Removes the key with all its values. The reply is `Pair`: the stored key and the first of
    /// them.
    RemoveEntry(K),
    /// Removes the key with all its values. The reply is `List`: the stored key and all of them.
    RemoveEntryAll(K),
    /// Removes the value at an index among the key's values, if the key has others. The reply is
    /// `Value`: that value.
    RemoveAt(K, usize),
    /// Removes the first pair. The reply is `Popped`.
    PopFront,
    /// Removes the last pair. The reply is `Popped`.
    PopBack,
    /// Keeps the pairs for which the function of `run` returns `true`, given this value, the key
    /// and the value. The reply is `Done`.
    Retain(V),
    /// Removes all pairs. The reply is `Done`.
    Clear,
    /// Makes room for this many more keys, and this many more values. The reply is `Done`.
    Reserve(usize, usize),
    /// Moves the map to new memory, without holes. The reply is `Done`.
    PackToFit,
    /// Replaces the map with its clone. The reply is `Done`.
    Swap,
    /// Replaces the map with what is read of its `to_value`. The keys are then in the order of
    /// their first pairs. The reply is `Done`.
    Json,
    /// Replaces the map with what is read of its `to_value_2`. Both lists stay. The reply is
    /// `Done`.
    Json2,
    /// Asks for the pairs. The reply is `Pairs`.
    Pairs(Ends<A>),
    /// Asks for the keys. The reply is `Keys`.
    Keys(Ends<A>),
    /// Asks for the values of all pairs. The reply is `Values`.
    Values(Ends<A>),
    /// Asks for each key with its values. The reply is `Lists`.
    KeyLists,
    /// Asks how many keys and how many pairs there are. The reply is `Counts`.
    Lengths,
}
