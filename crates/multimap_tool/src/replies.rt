//! Replies to commands.
use std::alloc::{Allocator, Global};

/// A pair that was popped, and whether its key left with it.
#[derive(Debug, PartialEq, Eq, Drop)]
pub struct Popped<K, V> {
    /// `true` if it was the key's last value.
    pub owned: bool,
    /// The pair's key.
    pub key: K,
    /// The pair's value.
    pub value: V,
}

/// The reply to one command.
///
/// It is made by [`run`](crate::run::run), and written by
/// [`format_replies`](crate::format::format_replies).
///
/// # Examples
///
/// ```
/// use multimap_tool::format::format_replies;
/// use multimap_tool::replies::{Popped, Reply};
///
/// let popped = Popped { owned: true, key: 1, value: 10 };
/// let replies = [Reply::Done, Reply::Popped(Some(popped)), Reply::Value(None)];
/// let text = format_replies(rt.alloc(), &replies)?;
/// assert_eq!(rt; text.as_slice(), b"done\nowned 1 10\nnone\n".as_slice());
/// ```
#[derive_where(Debug, PartialEq, Eq; K, V)]
#[derive(Drop)]
pub enum Reply<K, V, A: Allocator = Global> {
    /// Memory ran out. The command changed neither keys nor pairs.
    NoMemory,
    /// The command was done.
    Done,
    /// The pair was appended. `true` if its key was present.
    Appended(bool),
    /// Whether the key is present.
    Truth(bool),
    /// How many values the key has.
    Count(usize),
    /// How many keys and how many pairs there are.
    Counts(usize, usize),
    /// A value, if there is one.
    Value(Option<V>),
    /// The first of the values that were replaced or overwritten, if there were any.
    Old(Option<V>),
    /// A pair, if there is one.
    Pair(Option<(K, V)>),
    /// The pair that was popped, if there was one.
    Popped(Option<Popped<K, V>>),
    /// Values: all of a key, all that were removed, or one for each letter, `None` where none was
    /// left.
    Values(Vec<Option<V>, A>),
    /// Keys: all, or one for each letter, `None` where none was left.
    Keys(Vec<Option<K>, A>),
    /// Pairs: all, or one for each letter, `None` where none was left.
    Pairs(Vec<Option<(K, V)>, A>),
    /// A key with its values, if it was present.
    List(Option<(K, Vec<V, A>)>),
    /// Each key with its values, in the order of the keys.
    Lists(Vec<(K, Vec<V, A>), A>),
}
