//! Laws of the set's definitions, for proved callers.
//!
//! The functions do nothing: what a function ensures is the law. See CALLING.md.
ghost use Rattle.std.specs.Prelude.{List};
ghost use Rattle.set_ordered_multimap.specs.Laws.{ChangesKeepSets, KeepsFirstPairs};

/// States that after an insertion, a removal or a pop no pair occurs twice, if none did before.
pub fn changes_keep_sets<K: Eq, V: Eq>()
    ensures { ChangesKeepSets K.eq V.eq }
{}

/// States that of pairs that are inserted in turn into an empty set, each is kept once.
///
/// Each is kept at its first occurrence: the lists are the same as those of a map to which just
/// these pairs were appended.
pub fn insertions_keep_first_pairs<K: Eq, V: Eq>()
    ensures { (pairs : List (K × V)) → KeepsFirstPairs K.eq V.eq pairs }
{}
