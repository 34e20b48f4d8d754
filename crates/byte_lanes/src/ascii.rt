ghost use Rattle.std.specs.Prelude.{◌≡◌, ◌+◌, ◌≤◌, nat_lt, length, slice_range};
ghost use Rattle.std.specs.List.{list_all};

use std::simd::prelude::*;

const LANES: usize = 32;

/// Whether all bytes are ASCII, below 128 (RFC 20).
pub fn is_ascii(bytes: &[u8]) -> bool
    ensures { result ≡ list_all (λ x. nat_lt x 128) bytes.now }
{
    let mut at = 0;
    while bytes.len() - at >= LANES {
        if !is_ascii_in(bytes, at) {
            return false;
        }
        at += LANES;
    }
    is_ascii_plain(&bytes[at..])
}

// Whether all bytes of a block are ASCII.
fn is_ascii_in(bytes: &[u8], at: usize) -> bool
    requires { at + 32 ≤ length bytes.now }
    ensures { result ≡ list_all (λ x. nat_lt x 128) (slice_range bytes.now at (at + 32)) }
{
    let lanes = u8x32::from_slice(&bytes[at..]);
    lanes.simd_lt(u8x32::splat(128)).to_bitmask().count_ones() == 32
}

// The same of the bytes that fill no block.
fn is_ascii_plain(bytes: &[u8]) -> bool
    ensures { result ≡ list_all (λ x. nat_lt x 128) bytes.now }
{
    bytes.iter().all(|x| *x < 128)
}
