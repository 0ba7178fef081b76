//! Puts rows into empty lanes.
ghost use Rattle.std.specs.Prelude.{◌≡◌, ◌+◌, length};
ghost use Rattle.std.specs.FinMap as map;
ghost use Rattle.multimap_table.specs.Private.Layout.{CanTake, HoldRows};
ghost use Rattle.multimap_table.specs.Private.Entries.{entries, rows_of};

use crate::group::{LANES, Row, tag_of};
use crate::probe::{lane_with_room, probe_start};
use std::alloc::Allocator;

/// Puts the row into the first empty lane that a probe for its hash finds.
pub(crate) fn insert_row<A: Allocator>(tags: &mut Vec<u8, A>, rows: &mut Vec<Row, A>, row: Row)
    requires { CanTake tags.old.items rows.old.items row.place }
    ensures rows { HoldRows (length tags.old.items)
        (map.insert (rows_of tags.old.items rows.old.items) row.place row.hash)
        tags.new.items rows.new.items }
    ensures counted { length (entries tags.new.items rows.new.items)
        ≡ length (entries tags.old.items rows.old.items) + 1 }
{
    let count = tags.len() / LANES;
    let lane = lane_with_room(tags, probe_start(row.hash, count));
    tags[lane] = tag_of(row.hash);
    rows[lane] = row;
}
