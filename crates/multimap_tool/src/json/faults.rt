//! Why a JSON value is no key, no value or no map, with a message.
ghost use Rattle.std.specs.Prelude.{Some};

use ReadFault::{
    BadKey, BadListedKey, BadValue, NotArray, NotPair, NotVersion2, OutOfMemory, RepeatedKey,
    UnlistedKey, UnusedKey,
};
use std::error::Error;
use std::fmt;

/// The error of [`JsonPart::from_part`](crate::json::JsonPart::from_part).
#[derive(Debug, PartialEq, Eq, Clone, Copy)]
pub enum PartFault {
    /// No value of the type is written as this JSON value.
    Refused,
    /// Memory ran out.
    OutOfMemory,
}

/// The error of [`from_value`](crate::json::from_value): why a JSON value is no map.
///
/// The pairs are the items of the array, or of the member `pairs` of an object. Items are counted
/// from 0, and the first bad one decides, items of `keys` before items of `pairs`.
///
/// # Examples
///
/// ```
/// use multimap_tool::json::ReadFault;
///
/// let message = format!(in rt.alloc(); "{}", ReadFault::NotPair(7))?;
/// assert!(rt; message.as_str() == "pair 7 is no array of a key and a value");
/// ```
#[derive(Debug, PartialEq, Eq, Clone, Copy)]
pub enum ReadFault {
    /// The value is neither an array nor an object.
    NotArray,
    /// It is an object whose members aren't exactly `keys` and `pairs`, or one of them is no array.
    NotVersion2,
    /// The first bad item of `keys` is no key of the map's type.
    BadListedKey(usize),
    /// The first bad item of `keys` is a key that equals an earlier one.
    RepeatedKey(usize),
    /// The first bad pair is no array of exactly two.
    NotPair(usize),
    /// The first bad pair is an array of two, and its key is no key of the map's type.
    BadKey(usize),
    /// The first bad pair is an array of two, and its key equals no item of `keys`.
    UnlistedKey(usize),
    /// The first bad pair is an array of two with a good key, and its value is no value of the
    /// map's type. In an object the key is one of `keys`.
    BadValue(usize),
    /// No pair is bad, and this item of `keys` is the first that is the key of no pair.
    UnusedKey(usize),
    /// Memory ran out, at the first bad item or before it, or at any item if none is bad. Of an
    /// object it may also have run out at the value of the first pair, which is read before all
    /// else.
    OutOfMemory,
}

impl fmt::Display for PartFault {
    ghost use Rattle.multimap_tool.specs.Faults.{part_fault_text};

    ghost output = { λ fault. Some (part_fault_text fault) };

    fn fmt<W: fmt::Write>(&self, f: &mut fmt::Formatter<W>) -> fmt::Result {
        f.write_str(match self {
            PartFault::Refused => "refused",
            PartFault::OutOfMemory => "out of memory",
        })
    }
}

impl fmt::Display for ReadFault {
    ghost use Rattle.multimap_tool.specs.Faults.{read_fault_text};

    ghost output = { λ fault. Some (read_fault_text fault) };

    fn fmt<W: fmt::Write>(&self, f: &mut fmt::Formatter<W>) -> fmt::Result {
        match self {
            NotArray => write!(f, "the value is neither an array nor an object"),
            NotVersion2 => {
                write!(
                    f,
                    "the object isn't made of two arrays \"keys\" and \"pairs\" alone"
                )
            }
            BadListedKey(index) => write!(
                f,
                "item {index} of \"keys\" is no key of the map's type"
            ),
            RepeatedKey(index) => write!(f, "item {index} of \"keys\" equals an earlier one"),
            NotPair(index) => write!(f, "pair {index} is no array of a key and a value"),
            BadKey(index) => write!(f, "the key of pair {index} is no key of the map's type"),
            UnlistedKey(index) => write!(f, "the key of pair {index} equals no item of \"keys\""),
            BadValue(index) => write!(f, "the value of pair {index} is no value of the map's type"),
            UnusedKey(index) => write!(f, "item {index} of \"keys\" is the key of no pair"),
            OutOfMemory => write!(f, "out of memory"),
        }
    }
}

impl Error for PartFault {}

impl Error for ReadFault {}
