//! Proved callers of the laws that what is written of a map is read, at numbers and at texts.
ghost use Rattle.std.specs.Prelude.{◌≡◌, ℕ, ℤ, true, String};
ghost use Rattle.std.specs.declared.alloc.Global.{Global};
ghost use Rattle.ordered_multimap.specs.Lists.{Lists, IsWellFormed};
ghost use Rattle.ordered_multimap.specs.Pairs.{same_pairs};
ghost use Rattle.multimap_tool.specs.Json.{AreEqualLists, IsReadFrom, pairs_json};
ghost use Rattle.multimap_tool.specs.JsonLists.{IsRead, lists_json};

use multimap_tool::json::JsonPart;
use multimap_tool::laws::{
    both_lists_are_read, equal_lists_are_read, equal_pairs_are_read, texts_differ_as_json,
    what_is_written_is_read,
};

/// What is read of the JSON value of a map of numbers has its pairs.
pub fn pairs_of_numbers_are_read()
    ensures { (m n : Lists ℕ ℤ) → IsWellFormed ⟦<u32 as PartialEq>⟧.eq m
        → IsReadFrom ⟦<u32 as JsonPart>⟧.json ⟦<i64 as JsonPart>⟧.json ⟦<u32 as PartialEq>⟧.eq
        (pairs_json ⟦<u32 as JsonPart>⟧.json ⟦<i64 as JsonPart>⟧.json m.pairs) n
        → n.pairs ≡ m.pairs }
{
    what_is_written_is_read::<u32, i64>();
}

/// What is read of the JSON value of both lists of a map of numbers are the same lists.
pub fn lists_of_numbers_are_read()
    ensures { (m n : Lists ℕ ℤ) → IsWellFormed ⟦<u32 as PartialEq>⟧.eq m
        → IsRead ⟦<u32 as JsonPart>⟧.json ⟦<i64 as JsonPart>⟧.json ⟦<u32 as JsonPart>⟧.is_part
        ⟦<i64 as JsonPart>⟧.is_part ⟦<u32 as PartialEq>⟧.eq
        (lists_json ⟦<u32 as JsonPart>⟧.json ⟦<i64 as JsonPart>⟧.json m) n → n ≡ m }
{
    both_lists_are_read::<u32, i64>();
}

/// What is read of the JSON value of a map of texts has pairs equal to its own.
pub fn pairs_of_texts_are_read()
    ensures { (m n : Lists (String Global) (String Global)) →
        IsWellFormed ⟦<String as PartialEq>⟧.eq m
        → IsReadFrom ⟦<String as JsonPart>⟧.json ⟦<String as JsonPart>⟧.json
        ⟦<String as PartialEq>⟧.eq
        (pairs_json ⟦<String as JsonPart>⟧.json ⟦<String as JsonPart>⟧.json m.pairs) n
        → same_pairs ⟦<String as PartialEq>⟧.eq ⟦<String as PartialEq>⟧.eq m.pairs n.pairs ≡ true }
{
    texts_differ_as_json();
    equal_pairs_are_read::<String, String>();
}

/// What is read of the JSON value of both lists of a map with texts as keys are equal lists.
pub fn lists_of_texts_are_read()
    ensures { (m n : Lists (String Global) ℕ) → IsWellFormed ⟦<String as PartialEq>⟧.eq m
        → IsRead ⟦<String as JsonPart>⟧.json ⟦<u32 as JsonPart>⟧.json ⟦<String as JsonPart>⟧.is_part
        ⟦<u32 as JsonPart>⟧.is_part ⟦<String as PartialEq>⟧.eq
        (lists_json ⟦<String as JsonPart>⟧.json ⟦<u32 as JsonPart>⟧.json m) n
        → AreEqualLists ⟦<String as PartialEq>⟧.eq ⟦<u32 as PartialEq>⟧.eq m n }
{
    texts_differ_as_json();
    equal_lists_are_read::<String, u32>();
}
