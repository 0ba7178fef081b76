//! Parts of keys as queries.
ghost use Rattle.std.proofs.Math.Path.{◌∙◌, sym};
ghost use Rattle.std.specs.Prelude.{◌≡◌, None};

use super::KeyQuery;
use std::hash::Hash;

/// A key that is compared and hashed by one part of it alone, so that the part stands for the key.
///
/// With it [`Part`] makes a query for the key of each query for the part. A key that derives `Eq`
/// and `Hash` and has one field is such a key, and so is one whose other fields count for nothing.
///
/// # Examples
///
/// ```
/// use ordered_multimap::{KeyByPart, ListOrderedMultimap, Part};
///
/// #[derive(PartialEq, Eq, Hash, Drop)]
/// struct Name {
///     text: String,
/// }
///
/// impl KeyByPart for Name {
///     type Part = String;
///
///     ghost part_of = { λ name. name.text };
///
///     ghost same_eq = { λ x y. refl };
///
///     ghost same_hash = { λ x. refl };
///
///     fn part(&self) -> &String {
///         &self.text
///     }
/// }
///
/// let mut map = ListOrderedMultimap::new(rt.alloc());
/// map.append(Name { text: String::from_str(rt.alloc(), "line")? }, 1)?;
/// assert_eq!(rt; map.get(Part("line")), Some(&1));
/// ```
pub trait KeyByPart: Eq + Hash {
    /// What the key is compared and hashed by.
    type Part: Eq + Hash;

    // The part of a key.
    ghost part_of: { Self → Self.Part };

    /// Returns the part.
    fn part(&self) -> &Self::Part
        ensures { result.now ≡ part_of self.now };

    // Keys are equal exactly if their parts are.
    ghost same_eq: { (x y : Self) → Self.eq x y ≡ Self.Part.eq (part_of x) (part_of y) };

    // A key is hashed as its part is.
    ghost same_hash: { (x : Self) → Self.hash_input x ≡ Self.Part.hash_input (part_of x) };
}

/// A query for keys by their part: it stands for the keys for whose part the query in it stands.
///
/// `Part("line")` looks up a key whose part is a `String`. See [`KeyByPart`].
#[derive(Clone, Copy, Debug, PartialEq, Eq, Hash)]
pub struct Part<Q>(pub Q);

impl<K: KeyByPart, Q: KeyQuery<K::Part>> KeyQuery<K> for Part<Q> {
    ghost equivalent = { λ q k. Q.equivalent q.0 (K.part_of k) };

    ghost as_key = { λ q. None };

    ghost respects_hash = { λ q k same. Q.respects_hash q.0 (K.part_of k) same
        ∙ sym (K.same_hash k) };

    ghost respects_eq = { λ q x y same. Q.KeyQuery.respects_eq q.0 (K.part_of x) (K.part_of y) same
        ∙ sym (K.same_eq x y) };

    fn equivalent(&self, key: &K) -> bool {
        self.0.equivalent(key.part())
    }
}
