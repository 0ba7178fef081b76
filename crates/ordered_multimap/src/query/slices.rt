//! Slices as queries for keys that are slices or vectors.
ghost use Rattle.std.specs.Box.{boxed_slice_items};
ghost use Rattle.std.specs.Cmp.Lexicographic.{pointwise, lists_equiv};
ghost use Rattle.std.specs.Cow.{cow_slice_items};
ghost use Rattle.std.specs.Hash.{items_Alike};
ghost use Rattle.std.specs.Prelude.{None};

use super::KeyQuery;
use std::alloc::Allocator;
use std::borrow::CowSlice;
use std::boxed::BoxedSlice;
use std::hash::Hash;

/// A slice is equivalent to each `Vec` of equal items.
impl<T: Eq + Hash, B: Allocator> KeyQuery<Vec<T, B>> for &[T] {
    ghost equivalent = { λ q k. pointwise T.eq q.now k.items };

    ghost as_key = { λ q. None };

    ghost respects_hash = { λ q k. (items_Alike (record { fed = T.respects_eq })).fed q.now k.items };

    ghost respects_eq = { λ q x y. (lists_equiv T.Eq.laws).congr q.now x.items y.items };

    fn equivalent(&self, key: &Vec<T, B>) -> bool {
        *self == key.as_slice()
    }
}

/// A slice is equivalent to each slice of equal items, of any lifetime.
impl<'k, T: Eq + Hash> KeyQuery<&'k [T]> for &[T] {
    ghost equivalent = { λ q k. pointwise T.eq q.now k.now };

    ghost as_key = { λ q. None };

    ghost respects_hash = { λ q k. (items_Alike (record { fed = T.respects_eq })).fed q.now k.now };

    ghost respects_eq = { λ q x y. (lists_equiv T.Eq.laws).congr q.now x.now y.now };

    fn equivalent(&self, key: &&'k [T]) -> bool {
        *self == *key
    }
}

/// A slice is equivalent to each `BoxedSlice` of equal items.
impl<T: Eq + Hash, B: Allocator> KeyQuery<BoxedSlice<T, B>> for &[T] {
    ghost equivalent = { λ q k. pointwise T.eq q.now (boxed_slice_items k) };

    ghost as_key = { λ q. None };

    ghost respects_hash = { λ q k. (items_Alike (record { fed = T.respects_eq })).fed q.now
        (boxed_slice_items k) };

    ghost respects_eq = { λ q x y. (lists_equiv T.Eq.laws).congr q.now (boxed_slice_items x)
        (boxed_slice_items y) };

    fn equivalent(&self, key: &BoxedSlice<T, B>) -> bool {
        *self == key.as_slice()
    }
}

/// A slice is equivalent to each `CowSlice` of equal items, borrowed or owned.
impl<'k, T: Eq + Hash, B: Allocator> KeyQuery<CowSlice<'k, T, B>> for &[T] {
    ghost equivalent = { λ q k. pointwise T.eq q.now (cow_slice_items k) };

    ghost as_key = { λ q. None };

    ghost respects_hash = { λ q k. (items_Alike (record { fed = T.respects_eq })).fed q.now
        (cow_slice_items k) };

    ghost respects_eq = { λ q x y. (lists_equiv T.Eq.laws).congr q.now (cow_slice_items x)
        (cow_slice_items y) };

    fn equivalent(&self, key: &CowSlice<'k, T, B>) -> bool {
        *self == key.as_slice()
    }
}
