ghost use Rattle.std.specs.Prelude.{◌≡◌, ◌≤◌, ℕ, List, map, string_bytes, true};
ghost use Rattle.guard_io.specs.Outside.{FaultCounted};
ghost use Rattle.guard_ends.specs.End.{is_defined, Unmade, Unread, TookAsDefined, TookOfUnread, TookOfUnmade, TookOfUnwritten, TookOfUnsaid, TookOfMemory};

use crate::work::outcome_of;
use crate::write::write_outcome;
use guard_ends::{End, Pipe, Which};
use guard_io::{Files, Sink};
use std::alloc::Global;
use value_compare::PatternMaker;

/// Judges a template, alone or with parameters, by rules, or evidence for their verdicts, or tests rules: what the program does
/// with its words.
pub fn guard<F: Files, M: PatternMaker, O: Sink, E: Sink>(
    alloc: Global,
    words: &[String],
    files: &mut F,
    maker: &mut M,
    out: &mut O,
    err: &mut E,
) -> End
    // What is no fault and no want of memory is the end by the order of work, and out and err took
    // just what it says.
    ensures ends { is_defined result ≡ true
        → TookAsDefined (map string_bytes words.now) (F.content files.old) result
        (O.told out.old) (O.told out.new) (E.told err.old) (E.told err.new) }
    // A file is not read only where the call comes to its load and the count of its name rose.
    ensures read_fault { (which : Which) → result ≡ End.ReadFault which
        → Unread (map string_bytes words.now) (F.content files.old) (F.faults files.old) (F.faults files.new) which
        × TookOfUnread which (O.told out.old) (O.told out.new) (E.told err.old) (E.told err.new) }
    // A pattern is not made only where the call comes to its making and the count of its text rose.
    ensures pattern_fault { result ≡ End.PatternRefused
        → Unmade (map string_bytes words.now) (F.content files.old) (M.faults maker.old) (M.faults maker.new)
        × TookOfUnmade (O.told out.old) (O.told out.new) (E.told err.old) (E.told err.new) }
    // Out is not written only where it is to take a report, evidence, rules, or what is said of evidence or of tests, and its
    // count rose.
    ensures out_fault { result ≡ End.WriteFault Pipe.Out
        → FaultCounted (O.faults out.old) (O.faults out.new)
        × TookOfUnwritten (map string_bytes words.now) (F.content files.old)
        (O.told out.old) (O.told out.new) (E.told err.old) (E.told err.new) }
    // Err is not written only where there is a line to write and its count rose.
    ensures err_fault { result ≡ End.WriteFault Pipe.Err
        → FaultCounted (E.faults err.old) (E.faults err.new)
        × TookOfUnsaid (map string_bytes words.now) (F.content files.old)
        (record { read = record { files = F.faults files.old; patterns = M.faults maker.old }; out = O.faults out.old })
        (record { read = record { files = F.faults files.new; patterns = M.faults maker.new }; out = O.faults out.new })
        (O.told out.old) (O.told out.new) (E.told err.old) (E.told err.new) }
    // Memory may be wanting at any point; a line of a fault is begun on err only where its count rose.
    ensures memory { result ≡ End.Memory
        → TookOfMemory (map string_bytes words.now) (F.content files.old)
        (record { read = record { files = F.faults files.old; patterns = M.faults maker.old }; out = O.faults out.old })
        (record { read = record { files = F.faults files.new; patterns = M.faults maker.new }; out = O.faults out.new })
        (O.told out.old) (O.told out.new) (E.told err.old) (E.told err.new) }
    // The files keep their contents, and no count falls.
    ensures contents { (name : List ℕ) → F.content files.new name ≡ F.content files.old name }
    ensures files_count { (name : List ℕ) → F.faults files.old name ≤ F.faults files.new name }
    ensures maker_count { (text : List ℕ) → M.faults maker.old text ≤ M.faults maker.new text }
    ensures out_count { O.faults out.old ≤ O.faults out.new }
    ensures err_count { E.faults err.old ≤ E.faults err.new }
{
    write_outcome(outcome_of(alloc, words, files, maker), out, err)
}
