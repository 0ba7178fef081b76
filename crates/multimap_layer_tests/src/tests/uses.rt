//! Callers of slot list and tape at listed places, proved from the public contracts alone.
ghost use Rattle.std.specs.Prelude.{◌≡◌, ◌≢◌, ◌+◌, ℕ, [], Some, IfSome, IsTrue};
ghost use Rattle.multimap_slots.specs.Lists.{next_of, previous_of, without};
ghost use Rattle.multimap_slots.specs.Slots.{HasDetached, HasSlot, IsDetached, PushesBack, link_at};
ghost use Rattle.multimap_slots.specs.Tapes.{Frees};

use crate::tests::slots::{Items, List};
use multimap_slots::{Reads, SlotList};

/// Detaches the item at a place, and returns whether an item of the list is there.
pub fn detach_listed<T>(list: &mut SlotList<T, u8>, place: usize) -> bool
    ensures { IsTrue result → IsDetached list.new place }
{
    let _sound = list.len();
    let Some(_) = list.get(place, &mut Reads::new()) else {
        return false;
    };
    list.detach(place);
    true
}

/// Removes no item where one is detached, and returns whether that is so.
pub fn remove_none(list: &mut List, place: usize) -> bool
    requires { IsDetached list.old place }
    ensures none { IsTrue result }
    ensures unchanged { list.new ≡ list.old }
{
    list.remove(place).is_none()
}

/// Pushes an item while another is detached, which stays: the item comes to another place.
pub fn push_beside(list: &mut List, item: usize, detached: usize) -> Option<usize>
    requires { IsDetached list.old detached }
    ensures another { IfSome result (λ place. place ≢ detached) }
    ensures kept { IsDetached list.new detached }
{
    let Ok(place) = list.push_back(item, 4) else {
        return None;
    };
    Some(place)
}

/// Clears the list while an item is detached, which stays, and returns its number and link.
pub fn clear_beside(list: &mut List, detached: usize) -> (usize, u8)
    requires { IsDetached list.old detached }
    ensures empty { list.new.order ≡ [] }
    ensures kept { HasDetached list.new detached result.0 result.1 }
    ensures capacity { list.new.capacity ≡ list.old.capacity }
{
    let _found = list.get_detached(detached);
    list.clear_listed();
    let (item, link) = list.get_detached(detached);
    (*item, link)
}

/// Puts an item last without a test, where there is room, and returns its place.
pub fn push_with_room(list: &mut List, item: usize, link: u8) -> Option<usize>
    ensures { IfSome result (λ place. PushesBack list.old list.new place item link) }
{
    if list.len() >= list.capacity() {
        return None;
    }
    Some(list.push_reserved(item, link))
}

/// The same on a tape, where a slot is left at its end.
pub fn push_at_end(tape: &mut Items, item: usize, link: u8) -> Option<usize>
    ensures { IfSome result (λ place. PushesBack tape.old.list tape.new.list place item link) }
{
    if !tape.has_end_room() {
        return None;
    }
    Some(tape.push_reserved(item, link))
}

/// Puts an item at the end of a tape, where a slot is left, with the link of an item of another one.
pub fn push_linked_as(tape: &mut Items, item: usize, other: &Items, place: usize) -> Option<usize>
    ensures { IfSome result (λ to. (link : ℕ) → link_at other.now.list place ≡ Some link
        → PushesBack tape.old.list tape.new.list to item link) }
{
    if !tape.has_end_room() || !other.is_listed(place) {
        return None;
    }
    Some(tape.push_linked(item, other, place))
}

/// What stands before an item, its number and link as they were written, and what stands behind.
pub type Used = (Option<usize>, (usize, u8), Option<usize>);

macro_rules! used {
    ($items:ident, $place:ident, $slot:ident, $reads:ident) => {{
        if $items.get($place, &mut Reads::new()).is_none() {
            return None;
        }
        *$items.get_listed_mut($place) = $slot.0;
        *$items.listed_link_mut($place) = $slot.1;
        let before = match $items.previous_listed_place($place) {
            Some(_) => Some($items.preceding_listed_place($place)),
            None => None,
        };
        let behind = match $items.next_listed_place($place) {
            Some(_) => Some($items.following_listed_place($place)),
            None => None,
        };
        let (item, _) = $items.get_listed($place, $reads);
        Some((before, (*item, $items.listed_link($place)), behind))
    }};
}

/// Writes an item and its link, if one is there, reads them again, and so counts one read.
pub fn use_listed(
    list: &mut List,
    place: usize,
    slot: (usize, u8),
    reads: &mut Reads,
) -> Option<Used>
    ensures order { list.new.order ≡ list.old.order }
    ensures before { IfSome result (λ r. r.0 ≡ previous_of list.old.order place) }
    ensures found { IfSome result (λ r. HasSlot list.new place r.1.0 r.1.1) }
    ensures behind { IfSome result (λ r. r.2 ≡ next_of list.old.order place) }
    ensures counted { IfSome result (λ _. reads.new ≡ reads.old + 1) }
{
    used!(list, place, slot, reads)
}

/// The same on a tape.
pub fn use_listed_on_tape(
    tape: &mut Items,
    place: usize,
    slot: (usize, u8),
    reads: &mut Reads,
) -> Option<Used>
    ensures order { tape.new.list.order ≡ tape.old.list.order }
    ensures before { IfSome result (λ r. r.0 ≡ previous_of tape.old.list.order place) }
    ensures found { IfSome result (λ r. HasSlot tape.new.list place r.1.0 r.1.1) }
    ensures behind { IfSome result (λ r. r.2 ≡ next_of tape.old.list.order place) }
    ensures counted { IfSome result (λ _. reads.new ≡ reads.old + 1) }
{
    used!(tape, place, slot, reads)
}

/// Takes an item with its link, if one is there.
pub fn take_from(list: &mut List, place: usize) -> Option<(usize, u8)>
    ensures taken { IfSome result (λ r. HasSlot list.old place r.0 r.1) }
    ensures order { IfSome result (λ _. list.new.order ≡ without list.old.order place) }
{
    if list.get(place, &mut Reads::new()).is_none() {
        return None;
    }
    Some(list.take_listed(place))
}

/// The same on a tape, which counts the slot as freed.
pub fn take_from_tape(tape: &mut Items, place: usize) -> Option<(usize, u8)>
    ensures taken { IfSome result (λ r. HasSlot tape.old.list place r.0 r.1) }
    ensures order { IfSome result (λ _. tape.new.list.order ≡ without tape.old.list.order place) }
    ensures freed { IfSome result (λ _. Frees tape.old tape.new) }
{
    if tape.get(place, &mut Reads::new()).is_none() {
        return None;
    }
    Some(tape.take_listed(place))
}
