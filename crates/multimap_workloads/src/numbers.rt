//! The numbers of a workload: keys, values and random choices, each a function of a seed.

const GOLDEN: u64 = 0x9E37_79B9_7F4A_7C15;

const SECOND: u64 = 0x632B_E59B_D9B4_E019;

/// What a checksum begins as.
pub(crate) const START: u64 = 0xCBF2_9CE4_8422_2325;

/// The checksum with one more number.
#[inline(always)]
pub(crate) fn mix(checksum: u64, number: u64) -> u64 {
    checksum.wrapping_mul(0x100_0000_01B3).wrapping_add(number)
}

/// Spreads each bit over the whole number. Different numbers stay different.
#[inline(always)]
pub(crate) fn spread(number: u64) -> u64 {
    let mut z = number;
    z = (z ^ z >> 30).wrapping_mul(0xBF58_476D_1CE4_E5B9);
    z = (z ^ z >> 27).wrapping_mul(0x94D0_49BB_1331_11EB);
    z ^ z >> 31
}

/// Random number `index`, by the generator splitmix64.
#[inline(always)]
fn random(seed: u64, index: u64) -> u64 {
    spread(seed.wrapping_add(index.wrapping_add(1).wrapping_mul(GOLDEN)))
}

/// A run of a workload: how many pairs it has, and the seed of its numbers.
#[derive(Clone, Copy)]
pub(crate) struct Run {
    pub(crate) pairs: u64,
    pub(crate) seed: u64,
}

impl Run {
    /// Key number `index`. All keys of a seed are distinct.
    #[inline(always)]
    pub(crate) fn key(self, index: u64) -> u64 {
        random(self.seed, index)
    }

    /// Value number `index`.
    #[inline(always)]
    pub(crate) fn value(self, index: u64) -> u64 {
        self.seed.wrapping_add(index.wrapping_mul(GOLDEN))
    }

    /// Choice number `index` of a number below `limit`, which is below 2^32.
    #[inline(always)]
    pub(crate) fn choice(self, index: u64, limit: u64) -> u64 {
        (random(self.seed.wrapping_add(SECOND), index) >> 32).wrapping_mul(limit) >> 32
    }
}
