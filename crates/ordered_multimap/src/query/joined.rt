//! Queries that are made of others, for keys that are made of others.
ghost use Rattle.std.specs.Prelude.{◌≡◌, ◌&&◌, None};
ghost use Rattle.ordered_multimap.specs.Queries.{option_equivalent, option_key};
ghost use Rattle.ordered_multimap.specs.QueryLaws.{option_hash, option_respects, pair_hash};
ghost use Rattle.ordered_multimap.specs.QueryLaws.{pair_respects, triple_hash};

use super::KeyQuery;
use std::hash::Hash;

/// An `Option` of a query stands for the keys in an `Option`: `None` for `None`, `Some` of a query
/// for `Some` of each key for which that stands.
impl<K: Eq + Hash, Q: KeyQuery<K>> KeyQuery<Option<K>> for Option<Q> {
    ghost equivalent = { option_equivalent Q.equivalent };

    ghost as_key = { option_key Q.as_key };

    ghost respects_hash = { option_hash Q.equivalent Q.hash_input K.hash_input Q.respects_hash };

    ghost respects_eq = { option_respects Q.equivalent K.eq Q.KeyQuery.respects_eq };

    fn equivalent(&self, key: &Option<K>) -> bool {
        match (self, key) {
            (Some(query), Some(key)) => query.equivalent(key),
            (None, None) => true,
            _ => false,
        }
    }
}

/// Two queries stand for pairs of keys.
impl<K: Eq + Hash, L: Eq + Hash, Q: KeyQuery<K>, R: KeyQuery<L>> KeyQuery<(K, L)> for (Q, R) {
    ghost equivalent = { λ q k. Q.equivalent q.0 k.0 && R.equivalent q.1 k.1 };

    ghost as_key = { λ q. None };

    ghost respects_hash = { pair_hash Q.equivalent R.equivalent Q.hash_input K.hash_input
        R.hash_input L.hash_input Q.respects_hash R.respects_hash };

    ghost respects_eq = { pair_respects Q.equivalent R.equivalent K.eq L.eq
        Q.KeyQuery.respects_eq R.KeyQuery.respects_eq };

    fn equivalent(&self, key: &(K, L)) -> bool {
        self.0.equivalent(&key.0) && self.1.equivalent(&key.1)
    }
}

/// Three queries stand for triples of keys.
impl<
    K: Eq + Hash,
    L: Eq + Hash,
    M: Eq + Hash,
    Q: KeyQuery<K>,
    R: KeyQuery<L>,
    S: KeyQuery<M>,
> KeyQuery<(K, L, M)> for (Q, R, S) {
    ghost equivalent = { λ q k. Q.equivalent q.0 k.0 && R.equivalent q.1 k.1
        && S.equivalent q.2 k.2 };

    ghost as_key = { λ q. None };

    ghost respects_hash = { triple_hash Q.equivalent R.equivalent S.equivalent
        Q.hash_input K.hash_input R.hash_input L.hash_input S.hash_input M.hash_input
        Q.respects_hash R.respects_hash S.respects_hash };

    ghost respects_eq = { λ q x y. pair_respects
        (λ r l. Q.equivalent r.0 l.0 && R.equivalent r.1 l.1) S.equivalent
        (λ l m. K.eq l.0 m.0 && L.eq l.1 m.1) M.eq
        (pair_respects Q.equivalent R.equivalent K.eq L.eq Q.KeyQuery.respects_eq
        R.KeyQuery.respects_eq) S.KeyQuery.respects_eq
        ((q.0, q.1), q.2) ((x.0, x.1), x.2) ((y.0, y.1), y.2) };

    fn equivalent(&self, key: &(K, L, M)) -> bool {
        self.0.equivalent(&key.0) && self.1.equivalent(&key.1) && self.2.equivalent(&key.2)
    }
}
