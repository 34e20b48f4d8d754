//! White space at the end of a part of a text.
ghost use Rattle.std.specs.Prelude.{◌≡◌, ◌-◌, ◌<◌, ◌≤◌, length, take, drop, slice_index, true};
ghost use Rattle.yaml_scalars.specs.Lines.{is_white, trimmed};

use crate::lines::is_white;

/// Where the white space at the end of a part of a text begins.
pub(crate) fn trim_end(bytes: &[u8], start: usize, stop: usize) -> usize
    requires order { start ≤ stop }
    requires within { stop ≤ length bytes.now }
    ensures from { start ≤ result }
    ensures to { result ≤ stop }
    ensures white { result < stop → is_white (slice_index bytes.now result) ≡ true }
    ensures edge { (stop < length bytes.now → slice_index bytes.now stop < 128) → result < length bytes.now → slice_index bytes.now result < 128 }
    ensures part { take (result - start) (drop start bytes.now) ≡ trimmed (take (stop - start) (drop start bytes.now)) }
{
    let mut end = stop;
    while start < end {
        if !is_white(bytes[end - 1]) {
            return end;
        }
        end -= 1;
    }
    end
}
