//! Random calls of a set beside plain lists, with both lists after each call.
use crate::tests::lists::Lists;
use crate::tests::sets::{SetBy, collided, has_lists};
use ordered_multimap::list_ordered_multimap::KeyWrapper;
use set_ordered_multimap::SetOrderedMultimap;
use std::alloc::AllocError;
use std::hash::BuildHasher;
use test_helpers::{Failed, Test, copied, next_random, test_on_new};

const CALLS: usize = 4000;

// What a call is made with.
#[derive(Clone, Copy)]
struct Drawn {
    call: u64,
    key: u32,
    value: u32,
    other: u32,
}

fn draw(random: u64) -> Drawn {
    Drawn {
        call: (random >> 8) % 28,
        key: ((random >> 20) % 6) as u32,
        value: ((random >> 32) % 5) as u32,
        other: ((random >> 44) % 6) as u32,
    }
}

// Whether both say the same of a pair that comes, or of one that is inserted again.
fn inserts<S: BuildHasher>(set: &mut SetBy<S>, lists: &mut Lists, d: Drawn) -> bool {
    let wanted = lists.insert(d.key, d.value);
    wanted.is_ok() && set.insert(d.key, d.value).ok() == wanted.ok()
}

// What an end of the lists gives, once it is taken out.
fn pops(lists: &mut Lists, from_front: bool) -> Option<(u32, u32, bool)> {
    let end = if from_front {
        lists.pairs.first().copied()
    } else {
        lists.pairs.last().copied()
    };
    let (key, value) = end?;
    lists.remove(key, value);
    Some((key, value, !lists.has_key(key)))
}

fn popped(pair: Option<(KeyWrapper<'_, u32>, u32)>) -> Option<(u32, u32, bool)> {
    match pair? {
        (KeyWrapper::Owned(key), value) => Some((key, value, true)),
        (KeyWrapper::Borrowed(key), value) => Some((*key, value, false)),
    }
}

// Whether both remove the same.
fn removes<S: BuildHasher>(set: &mut SetBy<S>, lists: &mut Lists, d: Drawn) -> bool {
    match d.call {
        6 | 7 => set.remove_value(&d.key, &d.value) == lists.remove(d.key, d.value),
        8 => popped(set.pop_front()) == pops(lists, true),
        9 => popped(set.pop_back()) == pops(lists, false),
        10 => {
            let mut left = 0u32;
            set.remove_all_with(&d.key, |_value| left = left.wrapping_add(1));
            let was = lists.pairs.len();
            lists.keep(|key, _value| key != d.key);
            left as usize == was.saturating_sub(lists.pairs.len())
        }
        _ => {
            set.retain(|_key, value| *value < 4);
            lists.keep(|_key, value| value < 4);
            true
        }
    }
}

// Whether both take values of a key out alike.
fn loses_values<S: BuildHasher>(set: &mut SetBy<S>, lists: &mut Lists, d: Drawn) -> bool {
    if d.call == 24 {
        let index = (d.other % 3) as usize;
        return set.remove_index(&d.key, index) == lists.remove_index(d.key, index);
    }
    set.retain_all(&d.key, |value| *value < d.value);
    lists.keep(|key, value| key != d.key || value < d.value);
    true
}

// Whether both sort alike.
fn sorts<S: BuildHasher>(
    set: &mut SetBy<S>,
    lists: &mut Lists,
    d: Drawn,
) -> Result<bool, AllocError> {
    if d.call == 17 {
        lists.pairs.sort_by(|a, b| a.1.cmp(&b.1))?;
        return Ok(set.sort_by(|_, value, _, other| value.cmp(other)).is_ok());
    }
    if d.value < 2 {
        lists.sort_keys_by_len()?;
        let sorted = set.sort_keys_by_cached_key(|_key, values| values.len());
        return Ok(sorted.is_ok());
    }
    lists.keys.sort()?;
    Ok(set.sort_keys().is_ok())
}

// Whether both move or rename alike.
fn reorders<S: BuildHasher>(
    set: &mut SetBy<S>,
    lists: &mut Lists,
    d: Drawn,
) -> Result<bool, AllocError> {
    match d.call {
        12 => Ok(set.move_key_to_back(&d.key) == lists.move_key(d.key, false)?),
        13 => Ok(set.move_key_to_front(&d.key) == lists.move_key(d.key, true)?),
        _ => Ok(set.rename_key(&d.key, d.other) == lists.rename(d.key, d.other)),
    }
}

// Room is made or given back, and the lists stay.
fn makes_room<S: BuildHasher>(set: &mut SetBy<S>, d: Drawn) -> Result<bool, AllocError> {
    match d.call {
        18 => set.reserve_keys(d.key as usize)?,
        19 => set.reserve_values(d.key as usize)?,
        20 => set.pack_to_fit()?,
        _ => {
            let (keys, values) = (set.keys_len(), set.values_len());
            set.pack_to(
                keys.saturating_add(d.key as usize),
                values.saturating_add(d.value as usize),
            )?;
        }
    }
    Ok(set.keys_len() <= set.keys_capacity() && set.values_len() <= set.values_capacity())
}

// Inserts three pairs into the other set and the lists, and takes all into this set: those that it
// lacks, or first those of their keys out. Whether that emptied the other one where it should.
fn takes<S: BuildHasher>(
    set: &mut SetBy<S>,
    lists: &mut Lists,
    other: &mut SetBy,
    d: Drawn,
) -> Result<bool, AllocError> {
    let replaces = d.call == 22 && d.value < 2;
    if replaces {
        lists.make_way(d.key);
        lists.make_way(d.other);
    }
    for (key, value) in [(d.key, d.value), (d.other, 0), (d.key, 1)] {
        other.insert(key, value)?;
        lists.insert(key, value)?;
    }
    if replaces {
        set.insert_set(other)?;
    } else if d.call == 22 {
        set.append_set(other)?;
    } else {
        set.extend_copied(&*other)?;
    }
    Ok(other.is_empty() == (d.call == 22))
}

// The same of a set that is made for it.
fn appends<S: BuildHasher>(
    set: &mut SetBy<S>,
    lists: &mut Lists,
    d: Drawn,
) -> Result<bool, AllocError> {
    let mut other = SetBy::with_capacity(*set.allocator(), 2, 3)?;
    takes(set, lists, &mut other, d)
}

// A set of the same pairs.
fn copy_of<S: BuildHasher>(set: &SetBy<S>) -> Result<SetBy, AllocError> {
    let mut copy = SetBy::with_capacity(*set.allocator(), 2, 3)?;
    copy.extend_copied(set.iter())?;
    Ok(copy)
}

// Whether a copy hands out the keys, each where it first comes, or the values.
fn hands_out<S: BuildHasher>(set: &SetBy<S>, lists: &Lists, d: Drawn) -> Result<bool, AllocError> {
    if d.value < 2 {
        let keys = lists.first_occurrences(*set.allocator())?;
        return Ok(copy_of(set)?.into_keys().eq(keys));
    }
    let values = lists.pairs.iter().map(|pair| pair.1);
    Ok(copy_of(set)?.into_values().eq(values))
}

fn is_called<S: BuildHasher>(
    set: &mut SetBy<S>,
    lists: &mut Lists,
    d: Drawn,
) -> Result<bool, AllocError> {
    match d.call {
        0..=5 => Ok(inserts(set, lists, d)),
        6..=11 => Ok(removes(set, lists, d)),
        12..=15 => reorders(set, lists, d),
        16 | 17 => sorts(set, lists, d),
        18..=21 => makes_room(set, d),
        22 | 23 => appends(set, lists, d),
        24 | 25 => Ok(loses_values(set, lists, d)),
        26 => hands_out(set, lists, d),
        _ => {
            if d.value == 0 {
                lists.keep(|_key, _value| false);
                set.clear();
            }
            Ok(true)
        }
    }
}

// Whether a look-up finds the key with its first value.
fn finds_entry<S: BuildHasher>(set: &SetBy<S>, lists: &Lists, d: Drawn) -> bool {
    let mut own = lists.pairs.iter().filter(|pair| pair.0 == d.key);
    copied(set.get_key_value(&d.key)) == own.next().copied()
}

// Whether look-ups find what stands in the lists.
fn finds<S: BuildHasher>(set: &SetBy<S>, lists: &Lists, d: Drawn) -> bool {
    let mut own = lists.pairs.iter().filter(|pair| pair.0 == d.key);
    let first = own.next().map(|pair| pair.1);
    let last = own.last().map(|pair| pair.1);
    set.contains(&d.key, &d.value) == lists.has(d.key, d.value)
        && set.contains_key(&d.key) == lists.has_key(d.key)
        && copied(set.get(&d.key)) == first
        && copied(set.get_last(&d.key)) == last.or(first)
}

fn call_agrees<S: BuildHasher>(
    test: &Test,
    set: &mut SetBy<S>,
    lists: &mut Lists,
    at: usize,
    d: Drawn,
) {
    test.expect_at(at, is_called(set, lists, d) == Ok(true));
    let same = has_lists(set, lists.pairs.as_slice(), lists.keys.as_slice());
    test.expect_at(
        at,
        same && finds(set, lists, d) && finds_entry(set, lists, d),
    );
}

fn calls_agree<S: BuildHasher>(test: &Test, set: &mut SetBy<S>, lists: &mut Lists) {
    let mut random = 88_172_645_463_325_252;
    for at in 0..CALLS {
        random = next_random(random);
        call_agrees(test, set, lists, at, draw(random));
    }
}

fn random_calls_agree<S: BuildHasher>(test: &Test, set: &mut SetBy<S>) {
    let mut lists = Lists::new(test.alloc());
    calls_agree(test, set, &mut lists);
}

#[test]
fn a_set_is_as_two_lists(rt: HostRuntime) -> Result<(), Failed> {
    test_on_new(rt.alloc(), SetOrderedMultimap::new, random_calls_agree)?;
    test_on_new(rt.alloc(), collided, random_calls_agree)
}
