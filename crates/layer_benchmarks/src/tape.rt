//! Measures walks over a tape with holes.
use crate::walks::{Numbers, Stay, fill, time_of, walk};
use multimap_slots::Tape;
use std::io;

/// A line of times for each tape.
pub fn print_times(rt: &HostRuntime) -> io::Result<()> {
    measure_walks(rt)?;
    measure_shares(rt)
}

/// Walks over small tapes, and prints the checksums.
pub fn print_checksums(rt: &HostRuntime) -> io::Result<()> {
    let shapes = [
        (100, 100, Stay::Spread),
        (1000, 100, Stay::Spread),
        (1000, 100, Stay::Last),
        (1000, 100, Stay::Random),
    ];
    for shape in shapes {
        measure_tape(rt, shape, 0, 1)?;
    }
    Ok(())
}

/// Of each tape a hundred items are left: the last of every hundredth part, or those at the end.
fn measure_walks(rt: &HostRuntime) -> io::Result<()> {
    println!(rt; "pushed left forth back answers, nanoseconds a walk")?;
    for pushed in [100, 10_000, 1_000_000] {
        measure_tape(rt, (pushed, 100, Stay::Spread), 20_000, 20_000)?;
    }
    measure_tape(rt, (1_000_000, 100, Stay::Last), 20_000, 20_000)
}

/// Of each tape a share of the items is left, at random.
fn measure_shares(rt: &HostRuntime) -> io::Result<()> {
    println!(rt; "pushed left forth back answers, tenths of a nanosecond an item")?;
    for pushed in [100_000, 200_000, 1_000_000, 10_000_000] {
        measure_tape(rt, (pushed, 100_000, Stay::Random), 20, 200_000)?;
    }
    Ok(())
}

/// A line of one tape, by so many walks each way: the times are those of one of so many parts.
fn measure_tape(
    rt: &HostRuntime,
    shape: (usize, usize, Stay),
    walks: usize,
    parts: u64,
) -> io::Result<()> {
    let mut tape = Tape::new(rt.alloc());
    fill(&mut tape, shape)?;
    print_line(rt, &tape, shape.0, (walks, parts))
}

/// With no walk to be timed, it prints the checksum of one walk forth and one back.
fn print_line(
    rt: &HostRuntime,
    tape: &Numbers,
    pushed: usize,
    (walks, parts): (usize, u64),
) -> io::Result<()> {
    let left = tape.len();
    if walks == 0 {
        let answers = walk(tape, false, walk(tape, true, 0));
        return println!(rt; "{pushed} {left} {answers}");
    }
    let (forth, start) = time_of(rt, tape, true, (walks, parts), 0)?;
    let (back, answers) = time_of(rt, tape, false, (walks, parts), start)?;
    println!(rt; "{pushed} {left} {forth} {back} {answers}")
}
