//! The tapes that are measured, walks over them, and the times of these.
use multimap_slots::{Reads, Tape};
use std::alloc::AllocError;
use std::io;
use std::time::Instant;
use test_helpers::next_random;

const ROUNDS: usize = 7;

/// A tape whose items and links are numbers.
pub type Numbers = Tape<usize, usize>;

fn push_numbers(tape: &mut Numbers, count: usize) -> Result<(), AllocError> {
    for number in 0..count {
        if tape.push_back(number, !number).is_err() {
            return Err(AllocError);
        }
    }
    Ok(())
}

/// Which of the items that were pushed stay on the tape.
#[derive(Clone, Copy)]
pub enum Stay {
    /// The last one of each equal part.
    Spread,
    /// As many at the end.
    Last,
    /// Random ones.
    Random,
}

/// Pushes items onto an empty tape, and takes all but `left` of them out.
pub fn fill(
    tape: &mut Numbers,
    (pushed, left, stay): (usize, usize, Stay),
) -> Result<(), AllocError> {
    push_numbers(tape, pushed)?;
    let step = (pushed / left.max(1)).max(1);
    let mut wanted = left as u64;
    let mut random = 88_172_645_463_325_252;
    for place in 0..pushed {
        random = next_random(random);
        let drawn = (random >> 32).wrapping_mul((pushed - place) as u64) >> 32;
        let stays = match stay {
            Stay::Spread => place % step == step - 1,
            Stay::Last => pushed - place <= left,
            Stay::Random => drawn < wanted,
        };
        if stays {
            wanted = wanted.saturating_sub(1);
        } else {
            let _item = tape.remove(place);
        }
    }
    Ok(())
}

/// Mixes all items of the list, with their links, into a checksum, from the front or from the back.
#[inline(always)]
pub fn walk(tape: &Numbers, is_forth: bool, start: usize) -> usize {
    let mut reads = Reads::new();
    let mut answers = start;
    let (front, back) = (tape.front_place(), tape.back_place());
    let mut following = if is_forth { front } else { back };
    for _ in 0..tape.len() {
        let Some(place) = following else { break };
        if let Some((item, link)) = tape.get(place, &mut reads) {
            answers = answers.wrapping_mul(31).wrapping_add(*item ^ (link >> 1));
        }
        following = if is_forth {
            tape.next_place_after(place)
        } else {
            tape.previous_place_before(place)
        };
    }
    answers
}

/// Walks so often in each round, and goes on with the checksum. The time is that of one of so many
/// parts of a round, in nanoseconds, and the least of the rounds.
pub fn time_of(
    rt: &HostRuntime,
    tape: &Numbers,
    is_forth: bool,
    (walks, parts): (usize, u64),
    start: usize,
) -> io::Result<(u64, usize)> {
    let mut answers = start;
    let mut least = u64::MAX;
    for _ in 0..ROUNDS {
        let before = Instant::now(rt)?;
        for _ in 0..walks {
            answers = walk(tape, is_forth, answers);
        }
        let time = before.elapsed(rt)?.as_nanos();
        least = least.min((time & 0xFFFF_FFFF_FFFF) as u64 / parts.max(1));
    }
    Ok((least, answers))
}
