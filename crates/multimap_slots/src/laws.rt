//! Laws of the definitions, for proved callers.
//!
//! The functions do nothing: what a function ensures is the law.
ghost use Rattle.multimap_slots.specs.ListedSlots.{ListsSlots};

/// States what a change of a slot list or of a tape leaves of its list of places, items and links.
///
/// A slot that comes stands last in it, and a slot that is removed or detached leaves it. Taking a
/// detached item changes nothing in it.
pub fn listed_slots<T, L>()
    ensures { ListsSlots T L }
{}
