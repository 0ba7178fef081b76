//! Pairs of an iterator that are appended in turn, whatever it says of how many it has.
ghost use Rattle.std.specs.Prelude.{◌^◌, ◌+◌, ◌-◌};
ghost use Rattle.std.specs.Iterator.{at_most};

use ordered_multimap::ListOrderedMultimap;
use ordered_multimap::list_ordered_multimap::DefaultState;
use ordered_multimap_callers::maps::{Numbers, has_pairs, map_of};
use test_helpers::Test;

/// The pairs of a slice. It says that there are at least this many, whatever is left.
#[derive(Drop)]
pub struct Hinted {
    pub rows: &'static [(u32, u32)],
    pub given: usize,
    pub hint: usize,
}

impl Iterator for Hinted {
    type Item = (u32, u32);

    ghost remaining = { λ s. at_most (2 ^ 64 + (2 ^ 64 - s.given)) };

    fn next(&mut self) -> Option<(u32, u32)> {
        if self.given >= self.rows.len() {
            return None;
        }
        let row = self.rows[self.given];
        self.given += 1;
        Some(row)
    }

    fn size_hint(&self) -> (usize, Option<usize>) {
        (self.hint, None)
    }
}

const THREE: &[(u32, u32)] = &[(1, 11), (2, 12), (2, 13)];

const COPIED: &[(u32, u32)] = &[(1, 1), (2, 1), (2, 2)];

// Whether the key 1 has the first value, and the key 2 the others.
fn has_both(test: &Test, map: &Numbers, values: [u32; 3]) {
    let [one, two, three] = values;
    test.expect(map.get_all(&1).eq(&[one]) && map.get_all(&2).eq(&[two, three]));
}

const PAIRS: &[(u32, u32)] = &[(1, 1), (2, 2), (1, 3)];

fn pairs_with_hint(hint: usize) -> Hinted {
    Hinted {
        rows: PAIRS,
        given: 0,
        hint,
    }
}

fn copies_come(test: &Test, map: &mut Numbers, other: &Numbers) {
    test.expect(map.extend_copied(other.iter()) == Ok(()));
    has_both(test, map, [1, 1, 2]);
}

/// Pairs are appended in turn. A hint of more pairs than there can be is ignored.
pub fn pairs_come(test: &Test, map: &mut Numbers) {
    test.expect(map.extend(THREE.iter().copied()) == Ok(()));
    has_both(test, map, [11, 12, 13]);
    map.clear();
    copies_come(test, map, &map_of(test, COPIED));
    map.clear();
    test.expect(map.extend(pairs_with_hint(usize::MAX)) == Ok(()));
    test.expect(has_pairs(map, PAIRS));
}

pub fn maps_are_made(test: &Test) {
    match ListOrderedMultimap::from_iter(test.alloc(), DefaultState::new(), THREE.iter().copied()) {
        Ok(map) => has_both(test, &map, [11, 12, 13]),
        Err(_) => test.fail(),
    }
}

pub fn map_is_made_without_hint(test: &Test) {
    match ListOrderedMultimap::from_iter(test.alloc(), DefaultState::new(), pairs_with_hint(0)) {
        Ok(map) => test.expect(has_pairs(&map, PAIRS)),
        Err(_) => test.fail(),
    }
}
