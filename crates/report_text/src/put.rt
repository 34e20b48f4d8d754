//! What is written at once.
ghost use Rattle.std.specs.Prelude.{◌≡◌, ◌≤◌, ◌++◌, ℕ, List, Some, IsErrOf, IsSome, OnOk, OnErr};
ghost use Rattle.std.specs.Option.{ForSome};
ghost use Rattle.guard_io.specs.Outside.{FaultCounted, IsPrefix};

use guard_io::{Sink, SinkFault};

/// Why a text was not written whole.
#[derive(Clone, Copy)]
pub enum ReportFault {
    /// The sink failed, and counted it.
    Failed,
    /// Memory was wanting.
    Memory,
}

/// Writes a text, or a front of it and an error.
pub fn put<S: Sink>(text: &[u8], sink: &mut S) -> Result<(), ReportFault>
    ensures ok { OnOk result (ForSome (S.told sink.old) (λ held. S.told sink.new ≡ Some (held ++ text.now))) }
    ensures err { OnErr result (ForSome (S.told sink.old) (λ held. (front : List ℕ)
        × IsPrefix front text.now × (S.told sink.new ≡ Some (held ++ front)))) }
    ensures tells { IsSome (S.told sink.old) → IsSome (S.told sink.new) }
    ensures failed { IsErrOf result ReportFault.Failed → FaultCounted (S.faults sink.old) (S.faults sink.new) }
    ensures kept { S.faults sink.old ≤ S.faults sink.new }
{
    match sink.put(text) {
        Ok(()) => Ok(()),
        Err(SinkFault::Failed) => Err(ReportFault::Failed),
        Err(SinkFault::Memory) => Err(ReportFault::Memory),
    }
}
