//! Commands on a multimap, read from text, run in order, and replied to as text; and maps as JSON.
//!
//! The crate has two parts:
//!
//! - a small command language for an `ordered_multimap::ListOrderedMultimap`. [`execute::execute`]
//!   goes from the bytes of a reader to the bytes of a writer; its three steps are
//!   [`parse::parse_commands`], [`run::run`] and [`format::format_replies`].
//! - [`json`], which writes a map as a `serde_json::Value` and reads it again.
//!
//! ```text
//! append 1 10     new            1:10
//! append 2 20     new            1:10 2:20
//! append 1 30     more           1:10 2:20 1:30
//! lists           1=10,30 2=20
//! insert 1 40     old 10         2:20 1:40        the new pair comes last
//! keys            1 2                             and the key keeps its place
//! ```
//!
//! The left column has the commands, the next one the replies, and the right one the pairs then.
//! The commands are listed in docs/TOOLS.md; as values they are [`commands::Command`], and the
//! replies [`replies::Reply`]. The map keeps its pairs in insertion order, and its keys in the
//! order in which each last became present (see the crate `ordered_multimap`). There are no
//! commands for the set of the crate `set_ordered_multimap`, in which no pair occurs twice.
//!
//! # What the calls cost
//!
//! | Call | Cost |
//! |---|---|
//! | `parse_commands` | *O*(*b*) for a text of *b* bytes |
//! | `run` | what the map's calls cost, one for each command |
//! | `format_replies` | *O*(*b*) for a text of *b* bytes |
//! | `execute` | the sum of these three |
//! | `to_value`, `to_value_2` | *O*(*n*) for *n* pairs |
//! | `from_value` | *O*(*n*) expected for *n* items |
//!
//! # When memory runs out
//!
//! `run` needs memory for its list of replies at the start. If it fails there, it returns
//! `AllocError` and has run nothing. A command that runs out of memory later gets the reply
//! [`Reply::NoMemory`](replies::Reply::NoMemory), and changes neither list of the map. The other
//! calls return a fault or an `AllocError`, and there is then no result: see [`faults`] and
//! [`json::ReadFault`].
//!
//! # Keys that others choose
//!
//! `execute` makes a map with the default hash builder, which has a fixed seed. Whoever chooses the
//! keys can choose keys of equal hashes, and each lookup then compares all of them. For input from
//! people whom you don't trust call `run` on a map with an `ordered_multimap::RandomState`.
//!
//! # Examples
//!
//! In the examples `rt` is the runtime that `main` or a test is given. Each example is the body of
//! a function that returns `Result<(), AllocError>`.
//!
//! ```
//! use multimap_tool::execute::execute;
//!
//! let alloc = rt.alloc();
//! let mut input: &[u8] = b"append 1 10\nappend 2 20\ninsert 1 40\npairs\nkeys\n";
//! let mut output = Vec::new(alloc);
//! assert_eq!(rt; execute(alloc, alloc, &mut input, &mut output), Ok(()));
//! assert_eq!(rt; output.as_slice(), b"new\nnew\nold 10\n2:20 1:40\n1 2\n".as_slice());
//! ```
//!
//! Proved callers: see CALLING.md.
#![tactic(auto)]

pub mod commands;
pub mod execute;
pub mod faults;
pub mod format;
pub mod json;
pub mod laws;
pub mod parse;
pub mod replies;
pub mod run;

pub use ordered_multimap::End;
