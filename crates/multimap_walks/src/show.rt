//! How iterators are shown: the type's name, and the items that are left.
ghost use Rattle.std.specs.Iterator.{IsFinite};

use std::fmt;

/// Writes the name, and in parentheses the list of the items that the walk has left. It takes them
/// from a clone.
pub(crate) fn show_left<I: Iterator + Clone, W: fmt::Write>(
    f: &mut fmt::Formatter<W>,
    name: &str,
    walk: &I,
) -> fmt::Result
where
    I: Drop,
    I::Item: fmt::Debug + Drop,
    requires next { (state : I) → I.can_next state }
    requires ends { (state : I) → IsFinite (I.remaining state) }
{
    let rest = match walk.clone() {
        Ok(rest) => rest,
        Err(_) => return Err(fmt::Error),
    };
    f.write_str(name)?;
    f.write_str("(")?;
    f.debug_list().entries(rest).finish()?;
    f.write_str(")")
}
