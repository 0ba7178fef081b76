//! Laws of steps and runs, and of maps as JSON values, for proved callers.
//!
//! The functions do nothing: what a function ensures is the law. See CALLING.md.
ghost use Rattle.std.specs.Prelude.{◌≡◌, ◌+◌, ℕ, List, Some, Contains, take, slice_get};
ghost use Rattle.ordered_multimap.specs.Lists.{Lists, IsWellFormed, lists};
ghost use Rattle.ordered_multimap.specs.Changes.{first_occurrences};
ghost use Rattle.multimap_tool.specs.declared.commands.Command.{Command};
ghost use Rattle.multimap_tool.specs.declared.replies.Reply.{Reply};
ghost use Rattle.multimap_tool.specs.Step.{IsStep, MayKeep};
ghost use Rattle.ordered_multimap.specs.Multimap.{Multimap};
ghost use Rattle.multimap_tool.specs.Runs.{IsRun};
ghost use Rattle.multimap_tool.specs.MapRuns.{IsMapRun};
ghost use Rattle.multimap_tool.specs.RunRooms.{HasRoomsFor, KeepsRoom};
ghost use Rattle.multimap_tool.specs.Laws.{IsOrderly};
ghost use Rattle.multimap_tool.specs.Json.{DifferAsJson, IsReadFrom, pairs_json};
ghost use Rattle.multimap_tool.specs.Json.{UnequalDiffer, AreEqualLists};
ghost use Rattle.multimap_tool.specs.JsonLists.{IsRead, lists_json};

use crate::json::JsonPart;
use std::alloc::Allocator;

/// States that a step leaves well-formed lists well formed, whatever its function keeps.
///
/// Keys that stay keep their order, and a new key comes last: [`Command::Json`] alone may reorder
/// keys.
pub fn step_is_orderly<K: Eq, V, A: Allocator, F: Fn(V, &K, &mut V) -> bool>(_keep: &F)
    ensures { (c : Command K V A) (m : Lists K V) (r : Reply K V A) (n : Lists K V) →
        IsWellFormed K.eq m → IsStep (MayKeep F.Fn _keep.now) K.eq c m r n
        → IsOrderly K.eq c m n }
{}

/// States that a run leaves well-formed lists well formed, whatever its function keeps.
pub fn run_is_well_formed<K: Eq, V, A: Allocator, F: Fn(V, &K, &mut V) -> bool>(_keep: &F)
    ensures { (cs : List (Command K V A))
        (m : Lists K V) (rs : List (Reply K V A)) (n : Lists K V) →
        IsWellFormed K.eq m → IsRun (MayKeep F.Fn _keep.now) K.eq cs m rs n → IsWellFormed K.eq n }
{}

/// States that in a run a [`Command::Reserve`] is done if its room is there from the start.
///
/// That is: beside room for a key and a value for each command before it, of which none lowers a
/// room.
pub fn reserves_find_room<K: Eq, V, S: Clone, A: Allocator, F: Fn(V, &K, &mut V) -> bool>(_keep: &F)
    ensures { (cs : List (Command K V A)) (m : Multimap K V S)
        (rs : List (Reply K V A)) (n : Multimap K V S) (i a b : ℕ) →
        IsMapRun (MayKeep F.Fn _keep.now) K.eq S.is_clone cs m rs n
        → slice_get cs i ≡ Some (Command.Reserve a b)
        → ((c : Command K V A) → Contains (take i cs) c → KeepsRoom c)
        → HasRoomsFor m (i + a) (i + b) → slice_get rs i ≡ Some Reply.Done }
{}

/// States that what is read of a map's JSON value has its pairs, and its keys by first occurrence.
///
/// # Requires
///
/// Different keys have different JSON values, and different values too, as those of numbers are.
pub fn what_is_written_is_read<K: JsonPart + Eq, V: JsonPart>()
    requires { DifferAsJson K.json V.json }
    ensures { (m n : Lists K V) → IsWellFormed K.eq m
        → IsReadFrom K.json V.json K.eq (pairs_json K.json V.json m.pairs) n
        → (n.keys ≡ first_occurrences K.eq m.pairs) × (n.pairs ≡ m.pairs) }
{}

/// States that what is read of the JSON value of both lists of a map are those lists.
///
/// # Requires
///
/// Different keys have different JSON values, and different values too.
pub fn both_lists_are_read<K: JsonPart + Eq, V: JsonPart>()
    requires { DifferAsJson K.json V.json }
    ensures { (m n : Lists K V) → IsWellFormed K.eq m
        → IsRead K.json V.json K.is_part V.is_part K.eq (lists_json K.json V.json m) n → n ≡ m }
{}

/// States that what is read of a map's JSON value has pairs equal to its own, position by position.
///
/// The keys are equal to those of the pairs, in the order in which they first occur.
///
/// # Requires
///
/// Unequal keys have different JSON values, and unequal values too, as those of strings are.
pub fn equal_pairs_are_read<K: JsonPart + Eq, V: JsonPart + PartialEq>()
    requires keys { UnequalDiffer K.json K.eq }
    requires values { UnequalDiffer V.json V.eq }
    ensures { (m n : Lists K V) → IsWellFormed K.eq m
        → IsReadFrom K.json V.json K.eq (pairs_json K.json V.json m.pairs) n
        → AreEqualLists K.eq V.eq (lists (first_occurrences K.eq m.pairs) m.pairs) n }
{}

/// States that what is read of the JSON value of both lists of a map are equal lists.
///
/// They are equal position by position.
///
/// # Requires
///
/// Unequal keys have different JSON values, and unequal values too, as those of strings are.
pub fn equal_lists_are_read<K: JsonPart + Eq, V: JsonPart + PartialEq>()
    requires keys { UnequalDiffer K.json K.eq }
    requires values { UnequalDiffer V.json V.eq }
    ensures { (m n : Lists K V) → IsWellFormed K.eq m
        → IsRead K.json V.json K.is_part V.is_part K.eq (lists_json K.json V.json m) n
        → AreEqualLists K.eq V.eq m n }
{}

/// States that different characters have different JSON values, as [`crate::run::run`] requires.
///
/// For numbers and `bool` a caller's proof needs no such law.
pub fn characters_differ_as_json()
    ensures { (c d : ℕ) → ⟦<char as JsonPart>⟧.json c ≡ ⟦<char as JsonPart>⟧.json d → c ≡ d }
{}

/// States that unequal strings have different JSON values.
///
/// [`equal_pairs_are_read`] and [`equal_lists_are_read`] require it of keys and values. To a
/// contract two strings with the same bytes may be different values.
pub fn texts_differ_as_json()
    ensures { UnequalDiffer ⟦<String as JsonPart>⟧.json ⟦<String as PartialEq>⟧.eq }
{}
