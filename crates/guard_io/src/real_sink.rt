ghost use Rattle.std.specs.Prelude.{◌≡◌, ◌≤◌, ℕ, List, None, [], true, false, IsErrOf, IsOk, OnOk, OnErr};
ghost use Rattle.std.specs.Io.KnownBytes.{Appends};
ghost use Rattle.guard_io.specs.Outside.{IsPrefix, one_more};

use crate::sink::{Sink, SinkFault};
use std::io::Write;

/// A writer of the system. It tells no bytes; a write or flush that fails is a fault, and so is a
/// write that takes nothing.
#[derive(Drop)]
pub struct RealSink<W: Write> {
    pub writer: W,
    /// How many pieces failed; it stays at its last value.
    pub faults: u64,
}

impl<W: Write> Sink for RealSink<W> {
    ghost told = { λ sink. None };

    ghost faults = { λ sink. sink.faults };

    fn put(&mut self, bytes: &[u8]) -> Result<(), SinkFault>
        // Where the writer knows its bytes, they grow by the piece, or by a front of it.
        ensures ok { OnOk result
            (Appends (W.contents self.old.writer) (W.contents self.new.writer) bytes.now) }
        ensures err { OnErr result ((front : List ℕ) × IsPrefix front bytes.now
            × Appends (W.contents self.old.writer) (W.contents self.new.writer) front) }
        ensures fault { OnErr result (IsErrOf result SinkFault.Failed) }
        ensures failed { OnErr result (self.new.faults ≡ one_more self.old.faults) }
        ensures no_fault { OnOk result (self.new.faults ≡ self.old.faults) }
        ensures kept { self.old.faults ≤ self.new.faults }
        ensures empty { bytes.now ≡ [] → IsOk result }
        ensures nothing { bytes.now ≡ [] → self.new ≡ self.old }
    {
        if bytes.is_empty() {
            return Ok(());
        }
        if write_whole(&mut self.writer, bytes) {
            return Ok(());
        }
        self.faults = self.faults.saturating_add(1);
        Err(SinkFault::Failed)
    }
}

/// Writes and flushes, and says whether both went well. Each turn but the last takes a byte.
fn write_whole<W: Write>(writer: &mut W, bytes: &[u8]) -> bool
    ensures whole { result ≡ true
        → Appends (W.contents writer.old) (W.contents writer.new) bytes.now }
    ensures part { result ≡ false → (front : List ℕ) × IsPrefix front bytes.now
        × Appends (W.contents writer.old) (W.contents writer.new) front }
{
    let mut rest = bytes;
    while !rest.is_empty() {
        match writer.write(rest) {
            Ok(taken) if taken > 0 => rest = &rest[taken..],
            _ => return false,
        }
    }
    writer.flush().is_ok()
}
