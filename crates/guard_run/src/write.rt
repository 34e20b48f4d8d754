//! What came of a call is written, on out or on err.
ghost use Rattle.std.specs.Prelude.{◌≡◌, ◌≢◌, ◌≤◌, ℕ, List, Option};
ghost use Rattle.guard_io.specs.Outside.{FaultCounted};
ghost use Rattle.guard_ends.specs.Lines.{read_fault_line};
ghost use Rattle.guard_ends.specs.End.{Counts, Faults};
ghost use Rattle.guard_ends.specs.Order.{ComesTo, Contents, EndOf};
ghost use Rattle.guard_run.specs.code.Outcome.{IsOutcomeBy, IsStopBy, ended};
ghost use Rattle.guard_run.specs.code.Writing.{Closed, Said, SaidMemory};

use crate::done::Done;
use guard_ends::{End, Pipe, Which};
use guard_inputs::{Refused, Stop};
use guard_io::{Sink, SinkFault};

/// Writes what came of a call, on out or on err.
pub(crate) fn write_outcome<O: Sink, E: Sink>(
    outcome: Result<Done, Stop>,
    out: &mut O,
    err: &mut E,
) -> End
    ensures closed { (words : List (List ℕ)) (told : Contents) (before after : Counts)
        → IsOutcomeBy (ComesTo words told) before after outcome
        → Closed words told (record { read = before; out = O.faults out.old })
        (record { read = after; out = O.faults out.new }) result
        (O.told out.old) (O.told out.new) (E.told err.old) (E.told err.new) }
    ensures out_fault { result ≡ End.WriteFault Pipe.Out → FaultCounted (O.faults out.old) (O.faults out.new) }
    ensures err_fault { result ≡ End.WriteFault Pipe.Err → FaultCounted (E.faults err.old) (E.faults err.new) }
    ensures out_count { O.faults out.old ≤ O.faults out.new }
    ensures err_count { E.faults err.old ≤ E.faults err.new }
{
    match outcome {
        Ok(done) => write_done(done, out, err),
        Err(stop) => write_stop(stop, err),
    }
}

/// Writes on out, and then on err, what is done, and gives the end where both took it.
fn write_done<O: Sink, E: Sink>(done: Done, out: &mut O, err: &mut E) -> End
    ensures closed { (words : List (List ℕ)) (told : Contents) (before after : Counts)
        → EndOf words told (ended done)
        → Closed words told (record { read = before; out = O.faults out.old })
        (record { read = after; out = O.faults out.new }) result
        (O.told out.old) (O.told out.new) (E.told err.old) (E.told err.new) }
    ensures out_fault { result ≡ End.WriteFault Pipe.Out → FaultCounted (O.faults out.old) (O.faults out.new) }
    ensures err_fault { result ≡ End.WriteFault Pipe.Err → FaultCounted (E.faults err.old) (E.faults err.new) }
    ensures out_count { O.faults out.old ≤ O.faults out.new }
    ensures err_count { E.faults err.old ≤ E.faults err.new }
{
    let Done {
        how,
        out: text,
        err: further,
    } = done;
    match out.put(text.as_bytes()) {
        Ok(()) => say(further.as_bytes(), how, err),
        Err(SinkFault::Failed) => say(
            b"guard: cannot write out\n",
            End::WriteFault(Pipe::Out),
            err,
        ),
        Err(SinkFault::Memory) => say_memory(err),
    }
}

/// Writes on err what stopped the work; out takes nothing.
fn write_stop<E: Sink>(stop: Stop, err: &mut E) -> End
    ensures closed { (words : List (List ℕ)) (told : Contents) (before after : Faults) (out : Option (List ℕ))
        → IsStopBy (ComesTo words told) before.read after.read stop
        → Closed words told before after result out out (E.told err.old) (E.told err.new) }
    ensures no_out_fault { result ≢ End.WriteFault Pipe.Out }
    ensures err_fault { result ≡ End.WriteFault Pipe.Err → FaultCounted (E.faults err.old) (E.faults err.new) }
    ensures err_count { E.faults err.old ≤ E.faults err.new }
{
    match stop {
        Stop::Usage => say(
            b"usage: guard validate --rules FILE --data FILE [--params FILE] [--evidence] | check --rules FILE --data FILE [--params FILE] --proof FILE | drill --count N | test --rules FILE --tests FILE | rulegen --data FILE | parse-tree --rules FILE\n",
            End::Usage,
            err,
        ),
        Stop::Refused(Refused { refusal, line }) => {
            say(line.as_bytes(), End::Refused(refusal), err)
        }
        Stop::Unread(which) => say(
            read_fault_text(which).as_bytes(),
            End::ReadFault(which),
            err,
        ),
        Stop::Unmade => say(b"guard: pattern refused\n", End::PatternRefused, err),
        Stop::Memory => say_memory(err),
    }
}

/// Writes a line on err, and gives the end where err took it. Where err wants memory for it, the
/// line of that is tried.
fn say<E: Sink>(line: &[u8], end: End, err: &mut E) -> End
    ensures said { Said line.now end result (E.told err.old) (E.told err.new) }
    ensures whole { result ≢ End.WriteFault Pipe.Err → result ≢ End.Memory → result ≡ end }
    ensures fault { end ≢ End.WriteFault Pipe.Err → result ≡ End.WriteFault Pipe.Err
        → FaultCounted (E.faults err.old) (E.faults err.new) }
    ensures kept { E.faults err.old ≤ E.faults err.new }
{
    match err.put(line) {
        Ok(()) => end,
        Err(SinkFault::Failed) => End::WriteFault(Pipe::Err),
        Err(SinkFault::Memory) => say_memory(err),
    }
}

/// Tries the line of wanting memory on err, once.
fn say_memory<E: Sink>(err: &mut E) -> End
    ensures said { SaidMemory result (E.told err.old) (E.told err.new) }
    ensures fault { result ≡ End.WriteFault Pipe.Err → FaultCounted (E.faults err.old) (E.faults err.new) }
    ensures kept { E.faults err.old ≤ E.faults err.new }
{
    match err.put(b"guard: memory\n") {
        Ok(()) => End::Memory,
        Err(SinkFault::Failed) => End::WriteFault(Pipe::Err),
        Err(SinkFault::Memory) => End::Memory,
    }
}

/// The line of a file that could not be read.
fn read_fault_text(which: Which) -> &'static str
    ensures { result.now ≡ read_fault_line which }
{
    match which {
        Which::Rules => "guard: cannot read rules\n",
        Which::Template => "guard: cannot read data\n",
        Which::Params => "guard: cannot read params\n",
        Which::Proof => "guard: cannot read proof\n",
        Which::Tests => "guard: cannot read tests\n",
    }
}
