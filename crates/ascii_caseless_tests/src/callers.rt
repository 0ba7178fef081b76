//! Callers of maps whose keys are texts without case, proved for every value type: any spelling of
//! a name finds its values.
ghost use Rattle.std.specs.Prelude.{◌≡◌, ℕ, List, IfOk, Some, slice_get};
ghost use Rattle.std.specs.Str.{str_eq_ignore_ascii_case, str_to_ascii_lowercase};
ghost use Rattle.std.specs.String.{string_bytes};
ghost use Rattle.ordered_multimap.specs.Pairs.{values_where};

use ascii_caseless::AsciiCaseless;
use ordered_multimap::{EntryValues, ListOrderedMultimap, Refused};
use std::alloc::Allocator;
use std::hash::BuildHasher;

/// The values of a name, in order: those of the key that differs from it in the case of ASCII
/// letters alone, however the name is spelled.
pub fn values_of_any_spelling<'m, V, S: BuildHasher, A: Allocator, B: Allocator>(
    map: &'m ListOrderedMultimap<AsciiCaseless<String<B>>, V, S, A>,
    name: &str,
) -> EntryValues<'m, AsciiCaseless<String<B>>, V, A>
    ensures found { result.left ≡ values_where
        (λ stored. str_eq_ignore_ascii_case name.now (string_bytes stored.0))
        map.now.lists.pairs }
    ensures any_spelling { (other : List ℕ)
        → str_to_ascii_lowercase other ≡ str_to_ascii_lowercase name.now
        → result.left ≡ values_where
        (λ stored. str_eq_ignore_ascii_case other (string_bytes stored.0))
        map.now.lists.pairs }
{
    map.get_all(AsciiCaseless(name))
}

/// The first values of two names, which are the same if these are spellings of one name.
pub fn first_of_both_spellings<V: Copy, S: BuildHasher, A: Allocator, B: Allocator>(
    map: &ListOrderedMultimap<AsciiCaseless<String<B>>, V, S, A>,
    one: &str,
    other: &str,
) -> (Option<V>, Option<V>)
    ensures first { result.0 ≡ slice_get (values_where
        (λ stored. str_eq_ignore_ascii_case one.now (string_bytes stored.0))
        map.now.lists.pairs) 0 }
    ensures same { str_to_ascii_lowercase one.now ≡ str_to_ascii_lowercase other.now
        → result.0 ≡ result.1 }
{
    let first = map.get(AsciiCaseless(one)).copied();
    (first, map.get(AsciiCaseless(other)).copied())
}

/// Appends a value under a name, and returns the last value of another one: the same value, if
/// these are spellings of one name.
pub fn append_and_find<V: Copy, S: BuildHasher, A: Allocator + Copy, B: Allocator + Drop>(
    map: &mut ListOrderedMultimap<AsciiCaseless<String<B>>, V, S, A>,
    name: String<B>,
    value: V,
    other: &str,
) -> Result<Option<V>, Refused<AsciiCaseless<String<B>>, V>>
    ensures last { str_to_ascii_lowercase (string_bytes name) ≡ str_to_ascii_lowercase other.now
        → IfOk result (λ found. found ≡ Some value) }
{
    map.append(AsciiCaseless(name), value)?;
    Ok(map.get_last(AsciiCaseless(other)).copied())
}
