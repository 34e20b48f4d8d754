//! A scalar of any form.
ghost use Rattle.std.specs.Prelude.{◌≡◌, ◌⊎◌, ◌<◌, ◌≤◌, ◌≤ℤ◌, length, drop, slice_index, true, pos, negsuc, IfOk, IsErrOf};
ghost use Rattle.std.specs.Str.{IsCharBoundary};
ghost use Rattle.yaml_scalars.specs.code.Limits.{text_limit};
ghost use Rattle.yaml_scalars.specs.Scalar.{IsEndOf, Answers, begins_quoted, begins_block, scalar_at, is_typed};
ghost use Rattle.yaml_scalars.specs.code.Memory.{may_take};

use crate::block::read_block;
use crate::plain::read_plain;
use crate::quoted::read_quoted;
use crate::scalar::{Scalar, ScalarRefusal, Setting};
use std::alloc::Global;

/// Whether a quote stands at a place.
fn begins_quoted(bytes: &[u8], at: usize) -> bool
    requires { at < length bytes.now }
    ensures { result ≡ begins_quoted (drop at bytes.now) }
{
    matches!(bytes[at], b'"' | b'\'')
}

/// Whether the indicator of a block scalar stands at a place, where one may stand.
fn begins_block(bytes: &[u8], at: usize, setting: Setting) -> bool
    requires { at < length bytes.now }
    ensures is { result ≡ begins_block setting (drop at bytes.now) }
    ensures indicator { result ≡ true → (slice_index bytes.now at ≡ 124) ⊎ (slice_index bytes.now at ≡ 62) }
{
    !setting.flow && !setting.one_line && matches!(bytes[at], b'|' | b'>')
}

/// The plain, quoted or block scalar that begins at a byte offset. Its text is borrowed where it stands on one line
/// without escapes. `NoMemory` says no more of the text than that the scalar is in quotes or may have lines below.
pub fn read_scalar<'s>(
    alloc: Global,
    text: &'s str,
    at: usize,
    setting: Setting,
) -> Result<Scalar<'s>, ScalarRefusal>
    requires within { at < length text.now }
    requires small { length text.now ≤ text_limit }
    requires boundary { IsCharBoundary text.now at }
    requires low { negsuc 0 ≤ℤ setting.parent }
    requires high { setting.parent ≤ℤ pos text_limit }
    ensures answer { Answers (is_typed setting text.now at) (scalar_at setting text.now at) result }
    ensures end { IfOk result (λ s. IsEndOf text.now at s.end) }
    ensures memory { IsErrOf result ScalarRefusal.NoMemory → may_take setting text.now at ≡ true }
{
    if begins_quoted(text.as_bytes(), at) {
        return read_quoted(alloc, text, at, setting);
    }
    if begins_block(text.as_bytes(), at, setting) {
        return read_block(alloc, text, at, setting);
    }
    read_plain(alloc, text, at, setting)
}
