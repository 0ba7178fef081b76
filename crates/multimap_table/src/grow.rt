//! Lanes for more rows.
ghost use Rattle.std.specs.Prelude.{◌≡◌, ◌*◌, ◌^◌, ◌<◌, ◌≤◌, [], length};
ghost use Rattle.multimap_table.specs.Private.Layout.{group_count, IsGroupCount, IsLaidOut, HoldRows};
ghost use Rattle.multimap_table.specs.Private.Entries.{entries, rows_of, IsUnique};

use crate::group::Row;
use crate::insert::insert_row;
use std::alloc::Allocator;

/// How many rows a group holds on average at most, so that most groups have an empty lane.
pub(crate) const GROUP_LOAD: usize = 12;

/// More groups than memory has addresses for.
pub(crate) const MAX_GROUPS: usize = 1 << 56;

/// The least power of two of groups that hold this many rows.
pub(crate) fn groups_for(capacity: usize) -> usize
    requires { capacity ≤ 12 * 2 ^ 56 }
    ensures count { IsGroupCount result }
    ensures enough { capacity ≤ 12 * result }
    ensures fits { result ≤ 2 ^ 56 }
{
    let mut count = 1;
    while GROUP_LOAD * count < capacity {
        count *= 2;
    }
    count
}

/// Puts each row of the old lanes into the new ones, by its kept hash.
pub(crate) fn insert_all<A: Allocator>(
    tags: &mut Vec<u8, A>,
    rows: &mut Vec<Row, A>,
    old_tags: &[u8],
    old_rows: &[Row],
)
    requires laid_out { IsLaidOut tags.old.items rows.old.items }
    requires empty { entries tags.old.items rows.old.items ≡ [] }
    requires old_rows { length old_rows.now ≡ length old_tags.now }
    requires unique { IsUnique (entries old_tags.now old_rows.now) }
    requires room { length (entries old_tags.now old_rows.now) ≤ 12 * group_count tags.old.items }
    ensures rows { HoldRows (length tags.old.items) (rows_of old_tags.now old_rows.now)
        tags.new.items rows.new.items }
    ensures counted { length (entries tags.new.items rows.new.items)
        ≡ length (entries old_tags.now old_rows.now) }
{
    for lane in 0..old_tags.len() {
        if old_tags[lane] != 0 {
            insert_row(tags, rows, old_rows[lane]);
        }
    }
}
