//! One group of sixteen lanes, whose tags are compared at once.
ghost use Rattle.std.specs.Prelude.{◌≡◌, ◌≢◌, ℕ, ◌+◌, ◌*◌, ◌<◌, ◌≤◌, length, slice_index};
ghost use Rattle.std.specs.Int.{w64, trailing_zeros};
ghost use Rattle.multimap_table.specs.Private.Layout.{hash_tag, IsBitSet};

use std::simd::prelude::*;

/// How many lanes a group has.
pub(crate) const LANES: usize = 16;

/// A row of the table: a hash, and the place that has it.
#[derive(Clone, Copy)]
pub(crate) struct Row {
    pub(crate) hash: u64,
    pub(crate) place: usize,
}

/// The tag of a lane that holds a row of this hash. An empty lane has the tag 0.
pub(crate) fn tag_of(hash: u64) -> u8
    ensures value { result ≡ hash_tag hash }
    ensures full { 0 < result }
{
    (hash >> 56).max(1) as u8
}

/// A bit for each lane of the group that has the tag.
#[inline(always)]
pub(crate) fn match_tag(tags: &[u8], group: usize, tag: u8) -> u64
    requires { 16 * group + 16 ≤ length tags.now }
    ensures only { (k : ℕ) → IsBitSet result k
        → (k < 16) × (slice_index tags.now (16 * group + k) ≡ tag) }
    ensures all { (k : ℕ) → k < 16 → slice_index tags.now (16 * group + k) ≡ tag
        → IsBitSet result k }
{
    let lanes = u8x16::from_slice(&tags[LANES * group..]);
    lanes.simd_eq(u8x16::splat(tag)).to_bitmask()
}

/// The place of the lowest bit that is set.
pub(crate) fn lowest_set_bit(bits: u64) -> usize
    requires { 0 < bits }
    ensures value { result ≡ trailing_zeros w64 bits }
    ensures set { IsBitSet bits result }
{
    bits.trailing_zeros() as usize
}

/// The mask without its lowest bit.
pub(crate) fn remove_lowest_bit(bits: u64) -> u64
    requires { 0 < bits }
    ensures less { result < bits }
    ensures only { (k : ℕ) → IsBitSet result k → IsBitSet bits k }
    ensures others { (k : ℕ) → IsBitSet bits k → k ≢ trailing_zeros w64 bits → IsBitSet result k }
{
    bits & (bits - 1)
}
