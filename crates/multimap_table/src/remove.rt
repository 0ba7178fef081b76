//! Takes rows out of their lanes, and lets later rows move back into the gap.
ghost use Rattle.std.specs.Prelude.{◌≡◌, ℕ, ◌/◌, ◌<◌, length, slice_index, slice_set, IfSome, IfNone};
ghost use Rattle.multimap_table.specs.Private.Layout.{group_count, IsSized, Passes, CanLose, LosesRow};
ghost use Rattle.multimap_table.specs.Private.Entries.{row_at};

use crate::group::{LANES, Row, match_tag};
use crate::probe::{distance, lane_with_room, probe, probe_start};
use std::alloc::Allocator;

/// A lane of the group that holds a row whose probe passes the earlier group.
fn row_that_passes(tags: &[u8], rows: &[Row], group: usize, earlier: usize) -> Option<usize>
    requires sized { IsSized tags.now rows.now }
    requires group { group < group_count tags.now }
    requires earlier { earlier < group_count tags.now }
    ensures found { IfSome result (λ lane. (lane / 16 ≡ group) × (0 < slice_index tags.now lane)
        × Passes tags.now rows.now lane earlier) }
    ensures absent { IfNone result ((lane : ℕ) → lane / 16 ≡ group → 0 < slice_index tags.now lane
        → Passes tags.now rows.now lane earlier → ⊥) }
{
    let count = tags.len() / LANES;
    for lane in LANES * group..LANES * group + LANES {
        if tags[lane] != 0 {
            let start = probe_start(rows[lane].hash, count);
            if distance(start, earlier, count) < distance(start, group, count) {
                return Some(lane);
            }
        }
    }
    None
}

/// Empties the lane, so that no probe meets a gap before its row.
///
/// Only behind a full group does a row lie that was put past it. So where the lane's group has an
/// empty lane already, no other row moves.
#[inline(always)]
pub(crate) fn remove_row<A: Allocator>(tags: &mut Vec<u8, A>, rows: &mut Vec<Row, A>, lane: usize)
    requires { CanLose tags.old.items rows.old.items lane }
    ensures { LosesRow tags.old.items rows.old.items lane tags.new.items rows.new.items }
{
    let empty = match_tag(tags, lane / LANES, 0);
    if empty == 0 {
        close_gap(tags, rows, lane);
        return;
    }
    tags[lane] = 0;
}

/// Empties the lane of a full group, and moves later rows back.
///
/// The gap moves on from group to group, by each row that passes it, up to the first group that had
/// an empty lane anyway.
#[inline(never)]
fn close_gap<A: Allocator>(tags: &mut Vec<u8, A>, rows: &mut Vec<Row, A>, lane: usize)
    requires { CanLose tags.old.items rows.old.items lane }
    ensures { LosesRow tags.old.items rows.old.items lane tags.new.items rows.new.items }
{
    let count = tags.len() / LANES;
    let last = lane_with_room(tags, lane / LANES) / LANES;
    tags[lane] = 0;
    let mut gap = lane;
    let mut group = lane / LANES;
    while group != last {
        group = probe(group, 1, count);
        if let Some(later) = row_that_passes(tags, rows, group, gap / LANES) {
            move_row(tags, rows, later, gap);
            gap = later;
        }
    }
}

/// Moves the row of a lane into an empty one.
fn move_row<A: Allocator>(tags: &mut Vec<u8, A>, rows: &mut Vec<Row, A>, from: usize, to: usize)
    requires tags { (from < length tags.old.items) × (to < length tags.old.items) }
    requires rows { length rows.old.items ≡ length tags.old.items }
    ensures tags { tags.new.items
        ≡ slice_set (slice_set tags.old.items from 0) to (slice_index tags.old.items from) }
    ensures rows { rows.new.items ≡ slice_set rows.old.items to (row_at rows.old.items from) }
{
    let tag = tags[from];
    tags[from] = 0;
    tags[to] = tag;
    rows[to] = rows[from];
}
