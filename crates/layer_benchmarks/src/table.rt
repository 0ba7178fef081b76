//! Measures the key table: it is filled, looked into, and churned.
use multimap_table_tests::compared::Compared;
use std::alloc::{AllocError, Allocator, Global};
use std::time::{Duration, Instant};
use std::{fmt, io};
use test_helpers::next_random;

/// What was measured, in tenths of a nanosecond a call, and a checksum of the results.
#[derive(Drop)]
pub struct Times {
    rows: usize,
    capacity: usize,
    insert: u64,
    hit: u64,
    miss: u64,
    churn: u64,
    remove: u64,
    answers: usize,
}

impl fmt::Display for Times {
    fn fmt<W: fmt::Write>(&self, f: &mut fmt::Formatter<W>) -> fmt::Result {
        write!(f, "{} {} {} ", self.rows, self.capacity, self.insert)?;
        write!(f, "{} {} {} ", self.hit, self.miss, self.churn)?;
        write!(f, "{} {}", self.remove, self.answers)
    }
}

/// The hash of a key: one wide multiplication, whose halves are mixed.
fn hash_of(key: u64) -> u64 {
    let product = (key ^ 0x243F_6A88_85A3_08D3) as u128 * 0x5851_F42D_4C95_7F2D;
    (product & 0xFFFF_FFFF_FFFF_FFFF) as u64 ^ (product >> 64) as u64
}

fn key_of(number: usize) -> u64 {
    (number as u64).wrapping_mul(0x9E37_79B9_7F4A_7C15)
}

/// A number below `limit`, from a random one.
fn below(random: u64, limit: usize) -> usize {
    ((random >> 32).wrapping_mul(limit as u64) >> 32) as usize
}

/// Tenths of a nanosecond a call.
fn a_call(time: Duration, calls: usize) -> u64 {
    let tenths = time.as_nanos().wrapping_mul(10) / (calls as u128).max(1);
    (tenths & 0xFFFF_FFFF) as u64
}

/// What is measured: the keys of its places, of which the first half have rows at first.
#[derive(Drop)]
struct Measured<A: Allocator> {
    keys: Vec<u64, A>,
    compared: Compared<A>,
    rows: usize,
    places: usize,
    answers: usize,
}

impl<A: Allocator + Copy> Measured<A> {
    fn with_rows(alloc: A, rows: usize) -> Result<Measured<A>, AllocError> {
        let places = rows.saturating_mul(2);
        let mut keys = Vec::with_capacity(alloc, places)?;
        for number in 0..places {
            keys.push(key_of(number))?;
        }
        let mut compared = Compared::with_places(alloc, places)?;
        compared.reserve(rows)?;
        Ok(Measured {
            keys,
            compared,
            rows,
            places,
            answers: 0,
        })
    }

    fn insert_all(&mut self) {
        for place in 0..self.rows {
            self.answers ^= self.compared.insert(hash_of(key_of(place)), place) as usize;
        }
    }

    /// Looks for random keys among `rows` of them, the first of which has the number `first`.
    fn find(&mut self, first: usize, calls: usize) {
        let keys = self.keys.as_slice();
        let mut random = 88_172_645_463_325_252;
        for _ in 0..calls {
            random = next_random(random);
            let key = key_of(below(random, self.rows).wrapping_add(first));
            let table = self.compared.table();
            let found = table.find(hash_of(key), |place| keys.get(place) == Some(&key));
            self.answers ^= found.unwrap_or(0);
        }
    }

    /// Takes the oldest row out and adds a new one, so often.
    fn churn(&mut self, calls: usize) {
        let mut first = 0usize;
        let mut last = self.rows;
        for _ in 0..calls {
            self.answers ^= self.compared.remove(first) as usize;
            self.answers ^= self.compared.insert(hash_of(key_of(last)), last) as usize;
            first = self.after(first);
            last = self.after(last);
        }
    }

    /// Takes all rows out, one by one.
    fn remove_all(&mut self) {
        for place in 0..self.places {
            self.answers ^= self.compared.remove(place) as usize;
        }
    }

    fn after(&self, place: usize) -> usize {
        if place.wrapping_add(1) == self.places {
            0
        } else {
            place.wrapping_add(1)
        }
    }
}

/// A line of times for each size.
pub fn print_times(rt: &HostRuntime) -> io::Result<()> {
    println!(rt; "rows capacity insert hit miss churn remove answers")?;
    for rows in [1 << 10, 1474, 1 << 17, 188_743, 1 << 20, 1_509_949] {
        let times = measure(rt, rows, 4_000_000)?;
        println!(rt; "{times}")?;
    }
    Ok(())
}

/// Measures a table of this many rows by about this many calls.
pub fn measure(rt: &HostRuntime, rows: usize, calls: usize) -> io::Result<Times> {
    let mut measured = Measured::with_rows(rt.alloc(), rows)?;
    times_of(rt, &mut measured, calls)
}

fn times_of(rt: &HostRuntime, measured: &mut Measured<Global>, calls: usize) -> io::Result<Times> {
    let rows = measured.rows;
    let start = Instant::now(rt)?;
    measured.insert_all();
    let insert = a_call(start.elapsed(rt)?, rows);

    let start = Instant::now(rt)?;
    measured.find(0, calls);
    let hit = a_call(start.elapsed(rt)?, calls);

    let start = Instant::now(rt)?;
    measured.find(rows, calls);
    let miss = a_call(start.elapsed(rt)?, calls);

    let start = Instant::now(rt)?;
    measured.churn(calls);
    let churn = a_call(start.elapsed(rt)?, calls);

    let start = Instant::now(rt)?;
    measured.remove_all();
    let remove = a_call(start.elapsed(rt)?, rows);

    let capacity = measured.compared.table().capacity();
    Ok(Times {
        rows,
        capacity,
        insert,
        hit,
        miss,
        churn,
        remove,
        answers: measured.answers,
    })
}
