ghost use Rattle.std.specs.Prelude.{◌≡◌, ◌==◌, ◌+◌, ◌^◌, ◌<◌, ◌≤◌, ◌++◌, length, map, slice_range, IfOk, OnOk};
ghost use Rattle.std.specs.Simd.Lanes.{mask_l};
ghost use Rattle.byte_lanes.specs.code.LineStarts.{starts_of_lines, after_newlines};

use crate::count::count_byte;
use std::alloc::{AllocError, Global};
use std::simd::prelude::*;

const LANES: usize = 64;

/// Where the lines start: 0, and then the place after each newline byte, as byte offsets in rising
/// order. A text that ends with a newline has its length as the last start.
pub fn line_starts(alloc: Global, bytes: &[u8]) -> Result<Vec<u32>, AllocError>
    requires { length bytes.now < 2 ^ 32 }
    ensures { IfOk result (λ starts. starts.items ≡ starts_of_lines bytes.now) }
{
    let mut starts = Vec::with_capacity(alloc, count_byte(bytes, b'\n') + 1)?;
    starts.push(0)?;
    let mut at = 0;
    while bytes.len() - at >= LANES {
        push_starts(bytes, at, &mut starts)?;
        at += LANES;
    }
    while at < bytes.len() {
        if bytes[at] == b'\n' {
            starts.push(at as u32 + 1)?;
        }
        at += 1;
    }
    Ok(starts)
}

// Appends the place after each newline of a block.
fn push_starts(bytes: &[u8], at: usize, starts: &mut Vec<u32>) -> Result<(), AllocError>
    requires block { at + 64 ≤ length bytes.now }
    requires small { length bytes.now < 2 ^ 32 }
    ensures { OnOk result (starts.new.items ≡ starts.old.items ++ after_newlines bytes.now at 64) }
{
    let mut newlines = newlines_in(bytes, at);
    let mut place = at;
    while newlines != 0 {
        let skipped = newlines.trailing_zeros();
        place += skipped as usize + 1;
        starts.push(place as u32)?;
        // Two shifts, since one by 64 is none.
        newlines = (newlines >> skipped) >> 1;
    }
    Ok(())
}

// A bit for each byte of a block that is a newline.
fn newlines_in(bytes: &[u8], at: usize) -> u64
    requires { at + 64 ≤ length bytes.now }
    ensures { result ≡ mask_l (map (λ x. x == 10) (slice_range bytes.now at (at + 64))) }
{
    let lanes = u8x64::from_slice(&bytes[at..]);
    lanes.simd_eq(u8x64::splat(b'\n')).to_bitmask()
}
