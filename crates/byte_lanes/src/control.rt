ghost use Rattle.std.specs.Prelude.{◌≡◌, ℕ, ◌+◌, ◌<◌, ◌≤◌, true, false, length, map, slice_index, slice_range};
ghost use Rattle.std.specs.Simd.Lanes.{mask_l};
ghost use Rattle.byte_lanes.specs.code.Controls.{is_control_or};

use std::simd::prelude::*;

const LANES: usize = 16;

/// The least place at or after `from` whose byte is below 32 or one of two, or the length where there
/// is none. Places are byte offsets.
pub fn first_control_or(bytes: &[u8], from: usize, one: u8, other: u8) -> usize
    requires { from ≤ length bytes.now }
    ensures from { from ≤ result }
    ensures within { result ≤ length bytes.now }
    ensures before { (k : ℕ) → from ≤ k → k < result
        → is_control_or one other (slice_index bytes.now k) ≡ false }
    ensures found { result < length bytes.now
        → is_control_or one other (slice_index bytes.now result) ≡ true }
{
    let mut at = from;
    while bytes.len() - at >= LANES {
        let hits = hits_in(bytes, at, one, other);
        if hits != 0 {
            return at + hits.trailing_zeros() as usize;
        }
        at += LANES;
    }
    while at < bytes.len() {
        if is_control_or(one, other, bytes[at]) {
            return at;
        }
        at += 1;
    }
    at
}

fn is_control_or(one: u8, other: u8, byte: u8) -> bool
    ensures { result ≡ is_control_or one other byte }
{
    byte < 32 || byte == one || byte == other
}

// A bit for each byte of a block that is below 32 or one of two.
fn hits_in(bytes: &[u8], at: usize, one: u8, other: u8) -> u64
    requires { at + 16 ≤ length bytes.now }
    ensures { result ≡ mask_l (map (is_control_or one other) (slice_range bytes.now at (at + 16))) }
{
    let lanes = u8x16::from_slice(&bytes[at..]);
    let controls = lanes.simd_lt(u8x16::splat(32));
    let ones = lanes.simd_eq(u8x16::splat(one));
    let others = lanes.simd_eq(u8x16::splat(other));
    (controls | ones | others).to_bitmask()
}
