//! The `Debug` formats of a map, and of what takes its items out or lends them.
ghost use Rattle.std.specs.Iterator.{IsFinite};

use super::ListOrderedMultimap;
use std::alloc::Allocator;
use std::fmt;
use std::hash::{BuildHasher, Hash};

/// Formats the map as std formats a map: all pairs in their order, each value with its key.
///
/// # Examples
///
/// ```
/// use ordered_multimap::ListOrderedMultimap;
///
/// let mut map = ListOrderedMultimap::new(rt.alloc());
/// map.append("line", 1)?;
/// map.append("page", 8)?;
/// map.append("line", 2)?;
/// let text = format!(in rt.alloc(); "{:?}", map)?;
/// assert_eq!(rt; text.as_str(), r#"{"line": 1, "page": 8, "line": 2}"#);
/// ```
impl<K: Eq + Hash + fmt::Debug, V: fmt::Debug, S: BuildHasher, A: Allocator> fmt::Debug
    for ListOrderedMultimap<K, V, S, A> {
    fn fmt<W: fmt::Write>(&self, f: &mut fmt::Formatter<W>) -> fmt::Result {
        f.debug_map().entries(self.iter()).finish()
    }
}

/// Writes the name, and in parentheses the list of the items that are left.
pub(super) fn show_left<I: Iterator + Drop, W: fmt::Write>(
    f: &mut fmt::Formatter<W>,
    name: &str,
    left: I,
) -> fmt::Result
where
    I::Item: fmt::Debug + Drop,
    requires next { I.can_next left }
    requires ends { IsFinite (I.remaining left) }
{
    f.write_str(name)?;
    f.write_str("(")?;
    f.debug_list().entries(left).finish()?;
    f.write_str(")")
}
