//! A fast hasher for keys of one word, which has no seed.
ghost use Rattle.std.specs.Prelude.{◌≡◌, length};
ghost use Rattle.multimap_workloads.specs.Fast.{folded, first_word, written};

use std::hash::Hasher;

/// Multiplies each word to two words, and joins these.
#[derive(Clone, Copy)]
pub(crate) struct FastHasher {
    state: u64,
}

/// The two halves of the product of both words, joined.
#[inline(always)]
fn folded(state: u64, word: u64) -> u64
    ensures { result ≡ folded state word }
{
    let product = (state ^ word) as u128 * 0x5851_F42D_4C95_7F2D;
    (product & 0xFFFF_FFFF_FFFF_FFFF) as u64 ^ (product >> 64) as u64
}

impl Default for FastHasher {
    ghost is_default = { λ h. h.state ≡ 0x243F_6A88_85A3_08D3 };

    fn default() -> FastHasher {
        FastHasher {
            state: 0x243F_6A88_85A3_08D3,
        }
    }
}

impl Hasher for FastHasher {
    ghost write = { written };

    ghost finish = { λ h. h.state };

    #[inline(always)]
    fn finish(&self) -> u64 {
        self.state
    }

    /// Takes a word of eight bytes. Of a write of any other length it takes the length.
    #[inline(always)]
    fn write(&mut self, bytes: &[u8]) {
        let word = if bytes.len() == 8 {
            first_word(bytes)
        } else {
            bytes.len() as u64
        };
        self.state = folded(self.state, word);
    }
}

#[inline(always)]
fn first_word(bytes: &[u8]) -> u64
    requires { length bytes.now ≡ 8 }
    ensures { result ≡ first_word bytes.now }
{
    u64::from_le_bytes([
        bytes[0], bytes[1], bytes[2], bytes[3], bytes[4], bytes[5], bytes[6], bytes[7],
    ])
}
