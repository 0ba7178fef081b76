//! A sign for whoever watches the allocator.
use std::alloc::Global;

/// No other block has just as many bytes.
const MARK: usize = 77_777;

/// Allocates a block and frees it at once, so that a program which watches the allocator notes what is
/// in use. Returns none where memory was refused.
#[inline(never)]
pub(crate) fn mark(alloc: Global, checksum: u64) -> Option<u64> {
    match Vec::<u8>::with_capacity(alloc, MARK) {
        Ok(block) => Some(checksum.wrapping_add(block.len() as u64)),
        Err(_) => None,
    }
}
