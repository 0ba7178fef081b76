//! Keys and values as parts of JSON values.
ghost use Rattle.std.specs.Prelude.{◌≡◌, true, false, IfOk, IfErr, IsOk, OnOk};
ghost use Rattle.serde_json.specs.View.{view};

use super::faults::PartFault;
use serde_json::Value;
use std::alloc::{AllocError, Global};

/// A type whose values can be keys or values of a map that is written as JSON and read again.
///
/// What `to_part` writes, `from_part` reads as a value with the same JSON value, or it runs out of
/// memory. A type of your own that is written alone implements [`ToJson`](crate::json::ToJson).
/// There is no implementation for floats: JSON has no NaN.
///
/// Proved callers: see CALLING.md.
pub trait JsonPart {
    ghost use Rattle.std.specs.Prelude.{Bool};
    ghost use Rattle.serde_json.specs.Data.{Data};

    /// The JSON value of a key or value.
    ghost json: { Self → Data };

    /// Whether a value of this type has this JSON value.
    ghost is_part: { Data → Bool };

    /// Whether writing never allocates, and whether reading never does.
    ghost is_written_freely: { Bool };

    ghost is_read_freely: { Bool };

    /// Returns the JSON value of this key or value.
    ///
    /// # Errors
    ///
    /// Returns `AllocError` if memory allocation fails. Strings and characters alone allocate, from
    /// `alloc`.
    ///
    /// # Complexity
    ///
    /// *O*(1), and *O*(*b*) for a string of *b* bytes.
    ///
    /// # Examples
    ///
    /// ```
    /// use multimap_tool::json::JsonPart;
    ///
    /// let alloc = rt.alloc();
    /// assert_eq!(rt; 7u32.to_part(alloc)?.as_u64(), Some(7));
    /// assert_eq!(rt; 'b'.to_part(alloc)?.as_str(), Some("b"));
    /// ```
    fn to_part(&self, alloc: Global) -> Result<Value, AllocError>
        ensures written { IfOk result (λ part. view part ≡ json self.now) }
        ensures accepted { IfOk result (λ part. is_part (view part) ≡ true) }
        ensures free { is_written_freely ≡ true → IsOk result };

    /// Returns the key or value that is written as this JSON value.
    ///
    /// # Errors
    ///
    /// Returns [`PartFault::Refused`] if no value of the type is written so, and
    /// [`PartFault::OutOfMemory`] if memory allocation fails. Strings alone allocate, from `alloc`.
    ///
    /// # Complexity
    ///
    /// *O*(1), and *O*(*b*) for a string of *b* bytes.
    ///
    /// # Examples
    ///
    /// ```
    /// use multimap_tool::json::{JsonPart, PartFault};
    ///
    /// let alloc = rt.alloc();
    /// let value = 300u32.to_part(alloc)?;
    /// assert_eq!(rt; u32::from_part(alloc, &value), Ok(300));
    /// assert_eq!(rt; u8::from_part(alloc, &value), Err(PartFault::Refused));
    /// ```
    fn from_part(alloc: Global, value: &Value) -> Result<Self, PartFault>
        ensures read { IfOk result (λ part. view value.now ≡ json part) }
        ensures accepted { OnOk result (is_part (view value.now) ≡ true) }
        ensures refused { IfErr result (λ fault. fault ≡ PartFault.Refused
            → is_part (view value.now) ≡ false) }
        ensures free { is_read_freely ≡ true → IfErr result (λ fault. fault ≡ PartFault.Refused) };
}

/// Written as `true` or `false`.
impl JsonPart for bool {
    ghost use Rattle.serde_json.specs.Data.{boolean};
    ghost use Rattle.multimap_tool.specs.Json.{is_truth};

    ghost json = { boolean };

    ghost is_part = { is_truth };

    ghost is_written_freely = { true };

    ghost is_read_freely = { true };

    fn to_part(&self, _alloc: Global) -> Result<Value, AllocError> {
        Ok(Value::from(*self))
    }

    fn from_part(_alloc: Global, value: &Value) -> Result<bool, PartFault> {
        value.as_bool().ok_or(PartFault::Refused)
    }
}

/// Written as a string of one character.
impl JsonPart for char {
    ghost use Rattle.std.specs.Char.{encode_utf8};
    ghost use Rattle.serde_json.specs.Data.{string};
    ghost use Rattle.multimap_tool.specs.Json.{is_character};

    ghost json = { λ part. string (encode_utf8 part) };

    ghost is_part = { is_character };

    ghost is_written_freely = { false };

    ghost is_read_freely = { true };

    fn to_part(&self, alloc: Global) -> Result<Value, AllocError> {
        let mut text = String::new(alloc);
        text.push(*self)?;
        Ok(Value::from(text))
    }

    fn from_part(_alloc: Global, value: &Value) -> Result<char, PartFault> {
        let Some(text) = value.as_str() else {
            return Err(PartFault::Refused);
        };
        let mut characters = text.chars();
        match (characters.next(), characters.next()) {
            (Some(part), None) => Ok(part),
            _ => Err(PartFault::Refused),
        }
    }
}

/// Written as a string.
impl JsonPart for String {
    ghost use Rattle.std.specs.String.{string_bytes};
    ghost use Rattle.serde_json.specs.Data.{string};
    ghost use Rattle.multimap_tool.specs.Json.{is_text};

    ghost json = { λ part. string (string_bytes part) };

    ghost is_part = { is_text };

    ghost is_written_freely = { false };

    ghost is_read_freely = { false };

    fn to_part(&self, alloc: Global) -> Result<Value, AllocError> {
        Value::try_from_str(alloc, self.as_str())
    }

    fn from_part(alloc: Global, value: &Value) -> Result<String, PartFault> {
        match value.as_str() {
            Some(text) => String::from_str(alloc, text).map_err(|_| PartFault::OutOfMemory),
            None => Err(PartFault::Refused),
        }
    }
}
