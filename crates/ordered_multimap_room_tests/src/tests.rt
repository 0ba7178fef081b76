//! The tests: each makes one map, or is lent one, since maps that are owned cost a proof most.
mod additions;
mod extend;
mod made;
mod refused;
mod room;

use crate::tests::extend::{map_is_made_without_hint, maps_are_made, pairs_come};
use crate::tests::made::room_is_refused;
use crate::tests::room::{pairs_are_packed, room_grows};
use ordered_multimap::ListOrderedMultimap;
use ordered_multimap_callers::maps::{Numbers, test_on_empty};
use test_helpers::{Failed, Test, test_all};

fn room_comes_and_goes(test: &Test, map: &mut Numbers) {
    pairs_are_packed(test, map);
    room_grows(test, map);
    room_is_refused(test, map);
}

fn room_for_ten(test: &Test) {
    match ListOrderedMultimap::with_capacity(test.alloc(), 10, 10) {
        Ok(mut map) => room_comes_and_goes(test, &mut map),
        Err(_) => test.fail(),
    }
}

#[test]
fn room_is_made_and_maps_are_made_of_pairs(rt: HostRuntime) -> Result<(), Failed> {
    test_all!(rt.alloc(); room_for_ten, maps_are_made, map_is_made_without_hint)
}

#[test]
fn pairs_come_at_once(rt: HostRuntime) -> Result<(), Failed> {
    test_on_empty(rt.alloc(), pairs_come)
}
