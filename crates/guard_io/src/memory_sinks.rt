ghost use Rattle.std.specs.Prelude.{◌≡◌, ◌≢◌, ◌≤◌, ◌<◌, ◌++◌, ◌+◌, ◌-◌, ℕ, List, Some, [], length, take, IsErrOf, IsOk, OnOk, OnErr, vec_len};
ghost use Rattle.guard_io.specs.Outside.{IsPrefix, one_more};

use crate::sink::{Sink, SinkFault};

/// Takes bytes until it holds `room` of them, and then fails.
#[derive(Drop)]
pub struct MemSink {
    pub bytes: Vec<u8>,
    pub room: u64,
    /// How many pieces it refused; it stays at its last value.
    pub faults: u64,
}

impl Sink for MemSink {
    ghost told = { λ sink. Some sink.bytes.items };

    ghost faults = { λ sink. sink.faults };

    fn put(&mut self, bytes: &[u8]) -> Result<(), SinkFault>
        ensures ok { OnOk result (self.new.bytes.items ≡ self.old.bytes.items ++ bytes.now) }
        // What still fits is taken.
        ensures full { IsErrOf result SinkFault.Failed → self.new.bytes.items
            ≡ self.old.bytes.items ++ take (self.old.room - vec_len self.old.bytes) bytes.now }
        ensures memory { IsErrOf result SinkFault.Memory
            → self.new.bytes.items ≡ self.old.bytes.items }
        ensures err { OnErr result ((front : List ℕ) × IsPrefix front bytes.now
            × (self.new.bytes.items ≡ self.old.bytes.items ++ front)) }
        // It fails exactly where the piece does not fit, and takes an empty one always.
        ensures refused { IsErrOf result SinkFault.Failed
            → self.old.room < vec_len self.old.bytes + length bytes.now }
        ensures fits { OnOk result (0 < length bytes.now
            → vec_len self.old.bytes + length bytes.now ≤ self.old.room) }
        ensures empty { bytes.now ≡ [] → IsOk result }
        ensures nothing { bytes.now ≡ [] → self.new ≡ self.old }
        ensures failed { IsErrOf result SinkFault.Failed
            → self.new.faults ≡ one_more self.old.faults }
        ensures no_fault { result ≢ Err SinkFault.Failed → self.new.faults ≡ self.old.faults }
        ensures kept { self.old.faults ≤ self.new.faults }
        ensures room { self.new.room ≡ self.old.room }
    {
        if bytes.is_empty() {
            return Ok(());
        }
        let left = self.room.saturating_sub(self.bytes.len() as u64);
        let fitting = left.min(bytes.len() as u64) as usize;
        match self.bytes.extend_from_slice(&bytes[..fitting]) {
            Ok(()) => {}
            Err(_) => return Err(SinkFault::Memory),
        }
        if fitting < bytes.len() {
            self.faults = self.faults.saturating_add(1);
            return Err(SinkFault::Failed);
        }
        Ok(())
    }
}

/// Takes bytes, and never fails but for want of memory.
#[derive(Drop)]
pub struct CleanSink {
    pub bytes: Vec<u8>,
}

impl Sink for CleanSink {
    ghost told = { λ sink. Some sink.bytes.items };

    ghost faults = { λ sink. 0 };

    fn put(&mut self, bytes: &[u8]) -> Result<(), SinkFault>
        ensures ok { OnOk result (self.new.bytes.items ≡ self.old.bytes.items ++ bytes.now) }
        ensures err { OnErr result (self.new.bytes.items ≡ self.old.bytes.items) }
        ensures never { result ≢ Err SinkFault.Failed }
        ensures empty { bytes.now ≡ [] → IsOk result }
    {
        if bytes.is_empty() {
            return Ok(());
        }
        match self.bytes.extend_from_slice(bytes) {
            Ok(()) => Ok(()),
            Err(_) => Err(SinkFault::Memory),
        }
    }
}
