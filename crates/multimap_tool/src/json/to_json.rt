//! What can be written as a part of a JSON value: each `JsonPart`, and `&str`, which can't be read.
ghost use Rattle.std.specs.Prelude.{◌≡◌, true, false, IfOk, IsOk};
ghost use Rattle.serde_json.specs.View.{view};

use super::parts::JsonPart;
use serde_json::Value;
use std::alloc::{AllocError, Global};

/// A type whose values can be keys or values of a map that is written as JSON.
///
/// Each [`JsonPart`] is one. A type of your own that can't be read implements this trait alone, as
/// `&str` does.
///
/// Proved callers: see CALLING.md.
pub trait ToJson {
    ghost use Rattle.std.specs.Prelude.{Bool};
    ghost use Rattle.serde_json.specs.Data.{Data};

    /// The JSON value of a key or value.
    ghost json: { Self → Data };

    /// Whether a value of this type has this JSON value.
    ghost is_part: { Data → Bool };

    /// Whether writing never allocates.
    ghost is_written_freely: { Bool };

    /// Returns the JSON value of this key or value.
    ///
    /// # Errors
    ///
    /// Returns `AllocError` if memory allocation fails. Strings and characters alone allocate, from
    /// `alloc`.
    ///
    /// # Complexity
    ///
    /// *O*(1), and *O*(*b*) for a string of *b* bytes.
    ///
    /// # Examples
    ///
    /// ```
    /// use multimap_tool::json::ToJson;
    ///
    /// let alloc = rt.alloc();
    /// assert_eq!(rt; "line".to_json(alloc)?.as_str(), Some("line"));
    /// assert_eq!(rt; 7u32.to_json(alloc)?.as_u64(), Some(7));
    /// ```
    fn to_json(&self, alloc: Global) -> Result<Value, AllocError>
        ensures written { IfOk result (λ part. view part ≡ json self.now) }
        ensures accepted { IfOk result (λ part. is_part (view part) ≡ true) }
        ensures free { is_written_freely ≡ true → IsOk result };
}

/// Writes what [`JsonPart::to_part`] writes.
impl<T: JsonPart> ToJson for T {
    ghost json = { T.json };

    ghost is_part = { T.is_part };

    ghost is_written_freely = { T.is_written_freely };

    fn to_json(&self, alloc: Global) -> Result<Value, AllocError> {
        self.to_part(alloc)
    }
}

/// Written as a string.
impl ToJson for &str {
    ghost use Rattle.serde_json.specs.Data.{string};
    ghost use Rattle.multimap_tool.specs.Json.{is_text};

    ghost json = { λ part. string part.now };

    ghost is_part = { is_text };

    ghost is_written_freely = { false };

    fn to_json(&self, alloc: Global) -> Result<Value, AllocError> {
        Value::try_from_str(alloc, self)
    }
}
