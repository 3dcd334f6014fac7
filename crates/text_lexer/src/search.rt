//! Searches of bytes, sixteen at once.
ghost use Rattle.std.specs.Prelude.{◌≤◌, length};

use std::simd::prelude::*;

/// How many bytes are looked at at once.
pub(crate) const LANES: usize = 16;

/// How many bytes stand before the first that is one of these.
#[inline(always)]
pub(crate) fn len_before<const N: usize>(bytes: &[u8], stops: [u8; N]) -> usize
    ensures { result ≤ length bytes.now }
{
    let mut passed: usize = 0;
    let (blocks, rest) = bytes.as_chunks::<LANES>();
    for block in blocks {
        let block = u8x16::from_array(*block);
        let mut found = 0;
        for stop in stops {
            found |= block.simd_eq(u8x16::splat(stop)).to_bitmask();
        }
        if found != 0 {
            let len = passed.saturating_add(found.trailing_zeros() as usize);
            return len.min(bytes.len());
        }
        passed = passed.saturating_add(LANES);
    }
    for byte in rest {
        if stops.contains(byte) {
            break;
        }
        passed = passed.saturating_add(1);
    }
    passed.min(bytes.len())
}
