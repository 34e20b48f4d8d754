//! `validate --evidence` with sinks of each room, and with want of memory.
use crate::calls::{FIRST, Given, PASSED, Ran, call, word};
use guard_run::End;
use std::alloc::{AllocError, Global};
use std::test::Fail;

/// A validation with a variable and a block, whose evidence is written.
const WRITTEN: Given<'static> = Given {
    words: &[
        "validate",
        "--rules",
        "r.guard",
        "--data",
        "d.json",
        "--evidence",
    ],
    rules: b"let x = A\nrule r { %x.b exists A { b exists } }",
    data: br#"{"A":{"b":1,"c":2}}"#,
    ..FIRST
};

const HEADER: &[u8] = b"guard-evidence 2\n";

/// Whether a call passed, with evidence on out and the report on err.
fn is_whole(ran: &Ran) -> bool {
    word(&ran.end) == "passed"
        && ran.out.starts_with(HEADER)
        && ran.out.len() > HEADER.len()
        && ran.err.as_slice() == PASSED
}

/// Whether out is cut where there is no more room, and err says so and has no report.
fn is_out_cut(alloc: Global, whole: &[u8], room: usize) -> Result<bool, AllocError> {
    let given = Given {
        out_room: room as u64,
        ..WRITTEN
    };
    let ran = call(alloc, &given)?;
    Ok(
        word(&ran.end) == "out not written"
            && ran.out.len() == room
            && whole.starts_with(&ran.out)
            && ran.err.as_slice() == b"guard: cannot write out\n".as_slice(),
    )
}

#[test]
fn tells_out_with_too_little_room_for_evidence(rt: HostRuntime) -> Result<(), Fail> {
    let whole = call(rt.alloc(), &WRITTEN)?;
    if !is_whole(&whole) {
        return Err(Fail::from("evidence"));
    }
    for room in 0..whole.out.len() {
        if !is_out_cut(rt.alloc(), &whole.out, room)? {
            return Err(Fail::from("out"));
        }
    }
    Ok(())
}

/// Whether the report is cut where err has no more room, and out has the whole evidence.
fn is_report_cut(alloc: Global, whole: &[u8], room: usize) -> Result<bool, AllocError> {
    let given = Given {
        err_room: room as u64,
        ..WRITTEN
    };
    let ran = call(alloc, &given)?;
    Ok(
        word(&ran.end) == "err not written"
            && ran.out.as_slice() == whole
            && ran.err.len() == room
            && PASSED.starts_with(&ran.err),
    )
}

#[test]
fn tells_err_with_too_little_room_for_the_report(rt: HostRuntime) -> Result<(), Fail> {
    let whole = call(rt.alloc(), &WRITTEN)?;
    for room in 0..PASSED.len() {
        if !is_report_cut(rt.alloc(), &whole.out, room)? {
            return Err(Fail::from("err"));
        }
    }
    Ok(())
}

/// Whether out has just room for the evidence, and err for the report.
#[test]
fn takes_evidence_with_just_enough_room(rt: HostRuntime) -> Result<(), Fail> {
    let whole = call(rt.alloc(), &WRITTEN)?;
    let given = Given {
        out_room: whole.out.len() as u64,
        err_room: PASSED.len() as u64,
        ..WRITTEN
    };
    let ran = call(rt.alloc(), &given)?;
    if is_whole(&ran) && ran.out.as_slice() == whole.out.as_slice() {
        Ok(())
    } else {
        Err(Fail::from("room"))
    }
}

/// With memory at hand the call ends as defined. Where an allocation is refused, it ends so, or by want of memory: out has taken
/// nothing, or evidence, and err nothing but fronts of the report and of the line.
#[test]
fn writes_evidence_or_ends_by_want_of_memory(rt: HostRuntime) -> Result<(), Fail> {
    let ran = match call(rt.alloc(), &WRITTEN) {
        Ok(ran) => ran,
        // The words, the files and their contents were not made.
        Err(AllocError) => return Ok(()),
    };
    let is_well = match &ran.end {
        End::Memory => {
            (ran.out.is_empty() || ran.out.starts_with(HEADER))
                && b"guard: memory\n".as_slice().starts_with(&ran.err)
        }
        _ => is_whole(&ran),
    };
    if is_well {
        Ok(())
    } else {
        Err(Fail::from("memory"))
    }
}
