ghost use Rattle.std.specs.Prelude.{◌≡◌, ◌==◌, ◌+◌, ◌≤◌, length, slice_range, count_by};

use std::simd::prelude::*;

const LANES: usize = 32;

/// How many of the bytes are this one.
pub fn count_byte(bytes: &[u8], byte: u8) -> usize
    ensures { result ≡ count_by (λ x. x == byte) bytes.now }
{
    let mut total: usize = 0;
    let mut at = 0;
    while bytes.len() - at >= LANES {
        total += count_in(bytes, at, byte) as usize;
        at += LANES;
    }
    for x in &bytes[at..] {
        if *x == byte {
            total += 1;
        }
    }
    total
}

// How many bytes of a block are this one.
fn count_in(bytes: &[u8], at: usize, byte: u8) -> u32
    requires { at + 32 ≤ length bytes.now }
    ensures { result ≡ count_by (λ x. x == byte) (slice_range bytes.now at (at + 32)) }
{
    let lanes = u8x32::from_slice(&bytes[at..]);
    lanes.simd_eq(u8x32::splat(byte)).to_bitmask().count_ones()
}
