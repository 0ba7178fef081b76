//! Looks through the groups, one after another, from the group that a hash names.
ghost use Rattle.std.specs.Prelude.{◌≡◌, ℕ, ◌+◌, ◌*◌, ◌/◌, ◌^◌, ◌<◌, ◌≤◌, length, slice_index};
ghost use Rattle.multimap_table.specs.Private.Layout.{hash_tag, probe_start, distance, group_count, IsGroupCount, IsGroupAfter, Reaches, HoldsHash, CanFind, FindsLane, HasRoom};
ghost use Rattle.multimap_table.specs.Private.Entries.{row_at};

use crate::group::{LANES, Row, lowest_set_bit, match_tag, remove_lowest_bit, tag_of};

/// The group where a probe for the hash starts.
pub(crate) fn probe_start(hash: u64, count: usize) -> usize
    requires { 0 < count }
    ensures value { result ≡ probe_start count hash }
    ensures in_range { result < count }
{
    hash as usize & (count - 1)
}

/// The group that lies this many groups further on, round the table.
pub(crate) fn probe(start: usize, step: usize, count: usize) -> usize
    requires count { IsGroupCount count }
    requires fits { 16 * count < 2 ^ 64 }
    requires start { start < count }
    requires step { step < count }
    ensures { IsGroupAfter count start step result }
{
    (start + step) & (count - 1)
}

/// How many groups a probe goes on from one group to the other.
pub(crate) fn distance(from: usize, to: usize, count: usize) -> usize
    requires from { from < count }
    requires to { to < count }
    ensures { result ≡ distance count from to }
{
    if from <= to {
        to - from
    } else {
        count - (from - to)
    }
}

/// The lane of the group that holds a row of this hash whose place passes the test.
#[inline(always)]
fn find_in_group<F: Fn(usize) -> bool>(
    tags: &[u8],
    rows: &[Row],
    group: usize,
    hash: u64,
    test: &F,
) -> Option<usize>
    requires tags { 16 * group + 16 ≤ length tags.now }
    requires rows { length rows.now ≡ length tags.now }
    requires callable { (lane : ℕ) → HoldsHash tags.now rows.now hash lane
        → F.pre test.now (row_at rows.now lane).place }
    ensures { FindsLane tags.now rows.now hash (λ lane. (lane / 16 ≡ group)
        × (slice_index tags.now lane ≡ hash_tag hash) × ((row_at rows.now lane).hash ≡ hash))
        (F.post test.now) result }
{
    let mut matches = match_tag(tags, group, tag_of(hash));
    while matches != 0 {
        let lane = LANES * group + lowest_set_bit(matches);
        let row = rows[lane];
        if row.hash == hash && test(row.place) {
            return Some(lane);
        }
        matches = remove_lowest_bit(matches);
    }
    None
}

/// The lane that holds a row of this hash whose place passes the test.
///
/// Goes through the groups from the hash's first, up to the first that has an empty lane.
#[inline(always)]
pub(crate) fn find_lane<F: Fn(usize) -> bool>(
    tags: &[u8],
    rows: &[Row],
    hash: u64,
    test: &F,
) -> Option<usize>
    requires { CanFind tags.now rows.now hash (F.pre test.now) }
    ensures { FindsLane tags.now rows.now hash (HoldsHash tags.now rows.now hash) (F.post test.now)
        result }
{
    let count = tags.len() / LANES;
    let start = probe_start(hash, count);
    // Most look-ups end in the first group, so it isn't a step of the loop.
    if let Some(lane) = find_in_group(tags, rows, start, hash, test) {
        return Some(lane);
    }
    if match_tag(tags, start, 0) != 0 {
        return None;
    }
    for step in 1..count {
        let group = probe(start, step, count);
        if let Some(lane) = find_in_group(tags, rows, group, hash, test) {
            return Some(lane);
        }
        if match_tag(tags, group, 0) != 0 {
            return None;
        }
    }
    None
}

/// The first empty lane of the first group from the start on that has one.
pub(crate) fn lane_with_room(tags: &[u8], start: usize) -> usize
    requires count { IsGroupCount (group_count tags.now) }
    requires groups { length tags.now ≡ 16 * group_count tags.now }
    requires start { start < group_count tags.now }
    requires room { HasRoom tags.now }
    ensures in_range { result < length tags.now }
    ensures empty { slice_index tags.now result ≡ 0 }
    ensures reached { Reaches tags.now start (result / 16) }
{
    let count = tags.len() / LANES;
    for steps in 0..count {
        let group = probe(start, steps, count);
        let empty = match_tag(tags, group, 0);
        if empty != 0 {
            return LANES * group + lowest_set_bit(empty);
        }
    }
    unreachable!()
}
