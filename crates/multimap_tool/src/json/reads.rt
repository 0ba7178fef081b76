//! What a map is read with: the bounds of its keys, and of its values, in one word.
use super::parts::JsonPart;
use std::hash::Hash;

/// What can be read as a key.
pub(super) trait ReadKey: JsonPart + Eq + Hash + Drop {}

impl<T: JsonPart + Eq + Hash + Drop> ReadKey for T {}

/// What can be read as a value.
pub(super) trait ReadValue: JsonPart + Drop {}

impl<T: JsonPart + Drop> ReadValue for T {}
