//! The text of what a list or a tape holds.
use crate::in_order::Stored;
use std::fmt;

/// Shows the items that the order lists.
pub(crate) fn show_items<T: fmt::Debug, O: Stored, W: fmt::Write>(
    items: &[Option<T>],
    order: &O,
    f: &mut fmt::Formatter<W>,
) -> fmt::Result {
    let mut map = f.debug_map();
    let mut following = order.front();
    for _ in 0..order.len() {
        if let Some(place) = following {
            if let Some(Some(item)) = items.get(place) {
                map.entry(&place, item);
            }
            following = if order.is_listed(place) {
                order.next(place)
            } else {
                None
            };
        }
    }
    map.finish()
}
