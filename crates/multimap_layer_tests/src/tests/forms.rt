//! The forms in which a tape keeps links, and a tape that keeps them in three words.
ghost use Rattle.std.specs.Prelude.{◌+◌, ◌<◌, ◌^◌, IfSome};
ghost use Rattle.multimap_walks.specs.Packed.{HasSmallPlaces};

use multimap_slots::{LinkForm, OptionalPlace, PlainLink, Reads, Tape};
use multimap_walks::{End, PackedLink, ValueLink};
use std::alloc::{AllocError, Global};
use test_helpers::{Failed, Test};

type Packed = Tape<usize, ValueLink, Global, PackedLink>;

// A place that no tape of these tests has.
const NOWHERE: usize = 1000;

const FIRST: ValueLink = ValueLink {
    key: 4,
    previous: None,
    next: Some(1),
};

const LAST: ValueLink = ValueLink {
    key: 4,
    previous: Some(0),
    next: None,
};

const ALONE: ValueLink = ValueLink {
    key: 6,
    previous: None,
    next: None,
};

fn stored(place: Option<usize>) -> Option<usize>
    requires { IfSome place (λ p. p + 1 < 2 ^ 64) }
{
    OptionalPlace::of(place).get()
}

#[test]
fn a_place_or_none_comes_back(rt: HostRuntime) -> Result<(), Failed> {
    let test = Test::new(rt.alloc());
    test.expect(stored(None).is_none());
    test.expect(stored(Some(0)) == Some(0));
    test.expect(stored(Some(7)) == Some(7));
    test.expect(stored(Some(usize::MAX - 1)) == Some(18446744073709551614));
    test.end()
}

/// The parts of a link: its key, and the places before and behind.
type Parts = (usize, Option<usize>, Option<usize>);

// What comes back of a link that was kept in three words.
fn packed(key: usize, previous: Option<usize>, next: Option<usize>) -> Parts
    requires previous { IfSome previous (λ p. p + 1 < 2 ^ 64) }
    requires next { IfSome next (λ p. p + 1 < 2 ^ 64) }
{
    let kept = PackedLink::keep(ValueLink {
        key,
        previous,
        next,
    });
    parts_of(kept.link())
}

fn plain(link: u8) -> u8 {
    PlainLink::keep(link).link()
}

#[test]
fn a_kept_link_comes_back(rt: HostRuntime) -> Result<(), Failed> {
    let test = Test::new(rt.alloc());
    test.expect(packed(4, Some(0), Some(7)) == (4, Some(0), Some(7)));
    test.expect(packed(5, Some(3), None) == (5, Some(3), None));
    test.expect(packed(6, None, Some(2)) == (6, None, Some(2)));
    test.expect(packed(0, None, None) == (0, None, None));
    test.expect(plain(9) == 9);
    test.end()
}

fn slot_at(tape: &Packed, place: usize) -> Option<(usize, ValueLink)> {
    match tape.get(place, &mut Reads::new()) {
        Some((item, link)) => Some((*item, link)),
        None => None,
    }
}

// Writes the link at a place, if an item of the list is there, and returns whether one is.
fn relink(tape: &mut Packed, place: usize, link: ValueLink) -> bool
    requires { HasSmallPlaces link }
{
    let is_there = tape.is_listed(place);
    if is_there {
        tape.set_listed_link(place, link);
    }
    is_there
}

fn two_are_pushed(test: &Test, tape: &mut Packed) {
    let first = tape.push_back(10, FIRST).unwrap_or(NOWHERE);
    let last = tape.push_back(20, LAST).unwrap_or(NOWHERE);
    test.expect(first == 0 && last == 1);
    test.expect(slot_at(tape, 0) == Some((10, FIRST)));
    test.expect(slot_at(tape, 1) == Some((20, LAST)));
}

fn one_link_is_written(test: &Test, tape: &mut Packed) {
    test.expect(relink(tape, 1, ALONE));
    test.expect(slot_at(tape, 0) == Some((10, FIRST)));
    test.expect(slot_at(tape, 1) == Some((20, ALONE)));
    test.expect(!relink(tape, NOWHERE, ALONE));
}

#[test]
fn a_tape_keeps_links_in_three_words(rt: HostRuntime) -> Result<(), Failed> {
    let test = Test::new(rt.alloc());
    let tape: &mut Packed = &mut Tape::with_form(test.alloc());
    two_are_pushed(&test, tape);
    one_link_is_written(&test, tape);
    test.end()
}

fn has_room(made: Result<Packed, AllocError>, wanted: usize) -> bool {
    match made {
        Ok(tape) => tape.is_empty() && tape.capacity() >= wanted,
        Err(_) => false,
    }
}

#[test]
fn a_tape_of_a_form_has_the_room_asked_for(rt: HostRuntime) -> Result<(), Failed> {
    let test = Test::new(rt.alloc());
    test.expect(has_room(Tape::with_form_and_capacity(test.alloc(), 3), 3));
    test.expect(has_room(Tape::with_form_and_slots(test.alloc(), 8), 4));
    test.expect(has_room(Tape::with_form_and_slots(test.alloc(), 0), 0));
    test.end()
}

// Writes the parts of the link at a place one after the other, if an item of the list is there.
fn rewrite(tape: &mut Packed, place: usize) {
    if tape.is_listed(place) {
        tape.listed_form_mut(place).set_key(6);
        tape.listed_form_mut(place).set_previous(Some(2));
        tape.listed_form_mut(place).set_next(Some(3));
    }
}

#[test]
fn parts_of_a_link_are_written_in_place(rt: HostRuntime) -> Result<(), Failed> {
    let test = Test::new(rt.alloc());
    let tape: &mut Packed = &mut Tape::with_form(test.alloc());
    two_are_pushed(&test, tape);
    rewrite(tape, 1);
    let written = slot_at(tape, 1).map(|slot| parts_of(slot.1));
    test.expect(written == Some((6, Some(2), Some(3))));
    test.expect(slot_at(tape, 0) == Some((10, FIRST)));
    test.end()
}

fn parts_of(link: ValueLink) -> Parts {
    (link.key, link.previous, link.next)
}

#[test]
fn a_copy_of_a_form_has_the_same_link(rt: HostRuntime) -> Result<(), Failed> {
    let test = Test::new(rt.alloc());
    test.expect(parts_of(PackedLink::keep(LAST).copied().link()) == (4, Some(0), None));
    test.expect(PlainLink::keep(9u8).copied().link() == 9);
    test.end()
}

#[test]
fn a_link_leads_on_from_each_end(rt: HostRuntime) -> Result<(), Failed> {
    let test = Test::new(rt.alloc());
    test.expect(FIRST.step_from(End::Front) == Some(1) && FIRST.step_from(End::Back).is_none());
    test.expect(LAST.step_from(End::Back) == Some(0) && LAST.step_from(End::Front).is_none());
    test.end()
}
