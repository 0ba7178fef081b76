//! Iterators over a multimap that is kept as a slot list of keys and a tape of values.
//!
//! These are the types that the methods of `ordered_multimap::ListOrderedMultimap` return. The
//! constructors are for that crate alone. A link with each key and each value chains the values of
//! one key.
//!
//! | Type | Items | Method of the map |
//! |---|---|---|
//! | [`Iter`], [`IterMut`] | all pairs | `iter`, `iter_mut` |
//! | [`Values`], [`ValuesMut`] | the values of all pairs | `values`, `values_mut` |
//! | [`Keys`] | the keys | `keys` |
//! | [`KeyValues`] | the keys, each with its values | `pairs` |
//! | [`EntryValues`], [`EntryValuesMut`] | the values of one key | `get_all`, `get_all_mut` |
//! | [`IterRest`], [`ValuesRest`], [`EntryValuesRest`] | what is left | `iter` of the `Mut` types |
//!
//! Each iterates from both ends, knows its length, and goes on returning `None` once it is
//! exhausted.
#![tactic(auto)]

mod chain;
mod key_values;
mod keys;
mod left;
pub mod links;
mod packed;
mod pairs;
mod show;
mod slots;
mod values;
mod writing;

pub use chain::EntryValues;
pub use key_values::KeyValues;
pub use keys::Keys;
pub use left::{Ordered, take};
pub use links::{ChainEnds, KeyLink, ValueLink};
pub use packed::PackedLink;
pub use pairs::Iter;
pub use values::Values;
pub use writing::chain::EntryValuesMut;
pub use writing::pairs::IterMut;
pub use writing::rest::chain::EntryValuesRest;
pub use writing::rest::pairs::IterRest;
pub use writing::rest::values::ValuesRest;
pub use writing::values::ValuesMut;

/// An end of a list, and with it the direction of a step.
#[derive(Debug, PartialEq, Eq, Clone, Copy)]
pub enum End {
    /// The first item of what is left.
    Front,
    /// The last item of what is left.
    Back,
}
