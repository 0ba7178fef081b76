//! Walks from both ends, compared with a slice of what each step returns.

/// The end that a step of a walk takes an item from.
#[derive(Clone, Copy)]
pub enum End {
    /// The first item of what remains.
    Front,
    /// The last item of what remains.
    Back,
}

/// Short for [`End::Front`], in tables.
pub const F: End = End::Front;

/// Short for [`End::Back`], in tables.
pub const B: End = End::Back;

/// The end that a step of a walk takes an item from, and the item's values.
pub type Step<T> = (End, T);

/// An item of a walk, as values that a test can write down.
pub trait Plain: Drop {
    /// The values themselves, where the item holds references.
    type Value: PartialEq + Copy;

    /// The item's values. A number that is lent for writing is multiplied by 10.
    fn plain(self) -> Self::Value;
}

impl<T: PartialEq + Copy> Plain for &T {
    type Value = T;

    fn plain(self) -> T {
        *self
    }
}

impl<K: PartialEq + Copy, V: PartialEq + Copy> Plain for (&K, &V) {
    type Value = (K, V);

    fn plain(self) -> (K, V) {
        (*self.0, *self.1)
    }
}

/// A number that a walk hands out.
impl Plain for u32 {
    type Value = u32;

    fn plain(self) -> u32 {
        self
    }
}

impl Plain for &mut u32 {
    type Value = u32;

    fn plain(self) -> u32 {
        let was = *self;
        *self = was.saturating_mul(10);
        was
    }
}

/// The item of a walk whose items may be refused.
impl<T: PartialEq + Copy, E: Drop> Plain for Result<T, E> {
    type Value = Option<T>;

    fn plain(self) -> Option<T> {
        self.ok()
    }
}

/// The row at which a walk first differs from what is wanted, counted from 0; none if it doesn't.
///
/// Each row names the end that an item is taken from, and the item. Before each the walk has to
/// tell how many items are left. Behind the last row it has to have ended, and to stay so: where it
/// hasn't, the result is how many rows there are.
pub fn walk_difference<W: DoubleEndedIterator + ExactSizeIterator>(
    walk: &mut W,
    wanted: &[Step<<W::Item as Plain>::Value>],
) -> Option<usize>
where
    W::Item: Plain,
    requires next { (state : W) → W.can_next state }
    requires next_back { (state : W) → W.can_next_back state }
{
    let mut left = wanted.len();
    for (row, (end, value)) in wanted.iter().enumerate() {
        if !has_left(walk, left) || taken(walk, *end) != Some(*value) {
            return Some(row);
        }
        left = left.saturating_sub(1);
    }
    for _ in 0..3 {
        if !has_left(walk, 0) || walk.next().is_some() || walk.next_back().is_some() {
            return Some(wanted.len());
        }
    }
    None
}

/// The values of the item that a walk takes at an end.
pub fn taken<W: DoubleEndedIterator>(walk: &mut W, end: End) -> Option<<W::Item as Plain>::Value>
where
    W::Item: Plain,
    requires next { (state : W) → W.can_next state }
    requires next_back { (state : W) → W.can_next_back state }
{
    copied(match end {
        End::Front => walk.next(),
        End::Back => walk.next_back(),
    })
}

/// The values of an item, if there is one.
pub fn copied<T: Plain>(item: Option<T>) -> Option<T::Value> {
    match item {
        Some(item) => Some(item.plain()),
        None => None,
    }
}

/// Whether a walk from the front gives these items, and then ends.
pub fn gives<W: DoubleEndedIterator>(walk: &mut W, items: &[<W::Item as Plain>::Value]) -> bool
where
    W::Item: Plain,
    requires next { (state : W) → W.can_next state }
    requires next_back { (state : W) → W.can_next_back state }
{
    for item in items {
        if taken(walk, End::Front) != Some(*item) {
            return false;
        }
    }
    taken(walk, End::Front).is_none()
}

/// Whether both tellings of how many items are left are this number.
fn has_left<W: ExactSizeIterator>(walk: &W, left: usize) -> bool {
    walk.size_hint() == (left, Some(left)) && walk.len() == left
}
