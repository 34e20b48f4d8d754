ghost use Rattle.std.specs.Prelude.{◌≡◌, ℕ, ◌<◌, ◌≤◌, true, false, length, slice_index};
ghost use Rattle.byte_lanes.specs.code.Members.{holds};

use crate::set::ByteSet;
use std::simd::prelude::*;

const LANES: usize = 16;

/// The least place at or after `from` whose byte is in the set, or the length where there is none.
/// Places are byte offsets.
pub fn first_special(bytes: &[u8], from: usize, set: &ByteSet) -> usize
    requires { from ≤ length bytes.now }
    ensures from { from ≤ result }
    ensures within { result ≤ length bytes.now }
    ensures before { (k : ℕ) → from ≤ k → k < result
        → holds set.now (slice_index bytes.now k) ≡ false }
    ensures found { result < length bytes.now
        → holds set.now (slice_index bytes.now result) ≡ true }
{
    let mut at = from;
    while bytes.len() - at >= LANES {
        let hits = set.hits(u8x16::from_slice(&bytes[at..]));
        if hits != 0 {
            return at + hits.trailing_zeros() as usize;
        }
        at += LANES;
    }
    while at < bytes.len() {
        if set.has(bytes[at]) {
            return at;
        }
        at += 1;
    }
    at
}
