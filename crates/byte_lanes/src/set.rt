ghost use Rattle.std.specs.Prelude.{◌≡◌, ℕ, ◌==◌, ◌||◌, [], map};
ghost use Rattle.std.specs.Simd.Lanes.{mask_l};
ghost use Rattle.byte_lanes.specs.code.Members.{holds};

use std::marker::Model;
use std::simd::prelude::*;

const BITS: [u8; 16] = [1, 2, 4, 8, 16, 32, 64, 128, 1, 2, 4, 8, 16, 32, 64, 128];

/// A set of bytes, seen in contracts as the list of its bytes in rising order.
// Row `r` of each table has a bit for each byte whose low half is `r`, so that one look-up of a
// block's low halves and one of its high halves answer for 16 bytes at once.
#[derive(Drop)]
pub struct ByteSet {
    low: [u8; 16],
    high: [u8; 16],
}

impl Model for ByteSet {
    ghost use Rattle.std.specs.Prelude.{ℕ, List};
    ghost use Rattle.byte_lanes.specs.code.Tables.{members};

    ghost Value = { List ℕ };

    ghost view = { λ s. members s.low s.high };
}

impl ByteSet {
    /// The set of these bytes, in any order and with repeats.
    pub fn of(bytes: &[u8]) -> ByteSet
        ensures { (b : ℕ) → holds result b ≡ holds bytes.now b }
    {
        let mut set = ByteSet::empty();
        for byte in bytes {
            set.add(*byte);
        }
        set
    }

    /// Whether the byte is in the set.
    pub fn has(&self, byte: u8) -> bool
        ensures { result ≡ holds self.now byte }
    {
        let row = (byte % 16) as usize;
        if byte < 128 {
            (self.low[row] >> (byte / 16)) & 1 == 1
        } else {
            (self.high[row] >> (byte / 16 - 8)) & 1 == 1
        }
    }

    fn empty() -> ByteSet
        ensures { result ≡ [] }
    {
        ByteSet {
            low: [0; 16],
            high: [0; 16],
        }
    }

    fn add(&mut self, byte: u8)
        ensures { (b : ℕ) → holds self.new b ≡ (holds self.old b || byte == b) }
    {
        let row = (byte % 16) as usize;
        if byte < 128 {
            self.low[row] |= 1 << (byte / 16);
        } else {
            self.high[row] |= 1 << (byte / 16 - 8);
        }
    }

    // A bit for each lane whose byte is in the set.
    pub(crate) fn hits(&self, lanes: u8x16) -> u64
        ensures { result ≡ mask_l (map (holds self.now) lanes) }
    {
        let rows = lanes & u8x16::splat(15);
        let low = u8x16::from_array(self.low).swizzle_dyn(rows);
        let high = u8x16::from_array(self.high).swizzle_dyn(rows);
        let row = lanes.simd_lt(u8x16::splat(128)).select(low, high);
        let bit = u8x16::from_array(BITS).swizzle_dyn(lanes >> u8x16::splat(4));
        (row & bit).simd_ne(u8x16::splat(0)).to_bitmask()
    }
}
