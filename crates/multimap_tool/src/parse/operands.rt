//! Operands read from their texts.
ghost use Rattle.std.specs.Prelude.{◌↔◌, ◌<◌, length, IsTrue, IfOk, MatchOption};
ghost use Rattle.multimap_tool.specs.Private.Parts.{StartsANumber, StartsBelowZero, StartsAValue, IsKeyIn, IsKeyOf, IsValueOf, IsEndOf, IsNoWord, AreLettersOf};

use ordered_multimap::End;
use std::alloc::{AllocError, Allocator};

/// The value that a text spells: decimal digits, none of them a leading zero, or a minus sign and
/// such digits other than 0.
pub(crate) fn value_of(text: &[u8]) -> Option<i64>
    ensures { IsValueOf text.now result }
{
    if !starts_a_value(text) {
        return None;
    }
    let Ok(digits) = str::from_utf8(text) else {
        return None;
    };
    digits.parse().ok()
}

/// The key that a text spells: the digits of a number that fits one.
pub(crate) fn key_in(text: &[u8]) -> Option<u32>
    ensures { IsKeyIn text.now result }
{
    let Some(value) = value_of(text) else {
        return None;
    };
    key_of(value)
}

/// The key that a number is, if it fits one.
pub(crate) fn key_of(number: i64) -> Option<u32>
    ensures { IsKeyOf number result }
{
    u32::try_from(number).ok()
}

/// Whether the text begins as a number does, or a minus sign stands before one that isn't 0.
fn starts_a_value(text: &[u8]) -> bool
    ensures { IsTrue result ↔ StartsAValue text.now }
{
    starts_a_number(text) || starts_below_zero(text)
}

/// Whether the text begins with a digit, and with a zero only if nothing follows.
fn starts_a_number(text: &[u8]) -> bool
    ensures { IsTrue result ↔ StartsANumber text.now }
{
    match text {
        [b'0'] => true,
        [b'1'..=b'9', ..] => true,
        _ => false,
    }
}

/// Whether the text begins with a minus sign and a digit that is no zero.
fn starts_below_zero(text: &[u8]) -> bool
    ensures { IsTrue result ↔ StartsBelowZero text.now }
{
    match text {
        [b'-', b'1'..=b'9', ..] => true,
        _ => false,
    }
}

/// The ends that a text spells, a letter for each: f for the front and b for the back.
pub(crate) fn word_of<A: Allocator>(
    alloc: A,
    text: &[u8],
) -> Result<Option<Vec<End, A>>, AllocError>
    ensures { IfOk result (λ found.
        MatchOption found (IsNoWord text.now) (λ word. AreLettersOf text.now word.items)) }
{
    if text.is_empty() {
        return Ok(None);
    }
    letters_of(alloc, text)
}

/// The ends that the letters of a text spell, or none if one of them spells none.
fn letters_of<A: Allocator>(alloc: A, text: &[u8]) -> Result<Option<Vec<End, A>>, AllocError>
    requires { 0 < length text.now }
    ensures { IfOk result (λ found.
        MatchOption found (IsNoWord text.now) (λ word. AreLettersOf text.now word.items)) }
{
    let mut word = Vec::with_capacity(alloc, text.len())?;
    for letter in text {
        match end_of(*letter) {
            Some(end) => word.push_reserved(end),
            None => return Ok(None),
        }
    }
    Ok(Some(word))
}

/// The end that a letter spells.
fn end_of(letter: u8) -> Option<End>
    ensures { IsEndOf letter result }
{
    match letter {
        b'f' => Some(End::Front),
        b'b' => Some(End::Back),
        _ => None,
    }
}
