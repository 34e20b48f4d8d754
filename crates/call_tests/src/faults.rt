//! Loads, patterns and pieces that fail, each at its turn, and want of memory.
use crate::calls::Wanted::{Failed, Passed, Rejected};
use crate::calls::{
    AMPLE, CHECK_WITH_PARAMS, CHECKED, FIRST, Given, JOINED, PASSED, Wanted, call, comes_out,
    is_end, word,
};
use guard_run::End;
use std::alloc::{AllocError, Global};
use std::test::Fail;

/// The loads that fail in a validation, the room of out and of err, and what comes of it.
const FAULTS: &[(&[u64], u64, u64, Wanted)] = &[
    (
        &[0],
        AMPLE,
        AMPLE,
        Failed("rules not read", b"", b"guard: cannot read rules\n"),
    ),
    (
        &[1],
        AMPLE,
        AMPLE,
        Failed("template not read", b"", b"guard: cannot read data\n"),
    ),
    (&[2], AMPLE, AMPLE, Passed),
    (&[0], AMPLE, 0, Failed("err not written", b"", b"")),
    (&[1], AMPLE, 7, Failed("err not written", b"", b"guard: ")),
    (
        &[],
        4,
        AMPLE,
        Failed("out not written", b"rule", b"guard: cannot write out\n"),
    ),
    (
        &[],
        4,
        23,
        Failed("err not written", b"rule", b"guard: cannot write out"),
    ),
    (&[], 0, 0, Failed("err not written", b"", b"")),
    (&[], 39, 0, Passed),
];

#[test]
fn tells_each_fault(rt: HostRuntime) -> Result<(), Fail> {
    for (failing, out_room, err_room, wanted) in FAULTS {
        let given = Given {
            failing: *failing,
            out_room: *out_room,
            err_room: *err_room,
            ..FIRST
        };
        if !comes_out(rt.alloc(), &given, wanted)? {
            return Err(Fail::from("a fault of a validation"));
        }
    }
    Ok(())
}

const NO_PARAMS: Wanted = Failed("parameters not read", b"", b"guard: cannot read params\n");

/// The loads that fail in a validation with parameters, the room of err, and what comes of it.
const FAULTS_WITH_PARAMS: &[(&[u64], u64, Wanted)] = &[
    (
        &[0],
        AMPLE,
        Failed("rules not read", b"", b"guard: cannot read rules\n"),
    ),
    (
        &[1],
        AMPLE,
        Failed("template not read", b"", b"guard: cannot read data\n"),
    ),
    (&[2], AMPLE, NO_PARAMS),
    (&[2, 3], AMPLE, NO_PARAMS),
    (&[2], 7, Failed("err not written", b"", b"guard: ")),
    (&[2], 0, Failed("err not written", b"", b"")),
    (&[3], AMPLE, Passed),
];

#[test]
fn tells_each_fault_with_parameters(rt: HostRuntime) -> Result<(), Fail> {
    for (failing, err_room, wanted) in FAULTS_WITH_PARAMS {
        let given = Given {
            failing: *failing,
            err_room: *err_room,
            ..JOINED
        };
        if !comes_out(rt.alloc(), &given, wanted)? {
            return Err(Fail::from("a fault of a validation with parameters"));
        }
    }
    Ok(())
}

/// The loads that fail in a check with parameters, and what comes of it.
const FAULTS_OF_A_CHECK_WITH_PARAMS: &[(&[u64], Wanted)] = &[
    (&[2], NO_PARAMS),
    (
        &[3],
        Failed("proof not read", b"", b"guard: cannot read proof\n"),
    ),
    (&[], Rejected(b"rejected 1\n")),
];

#[test]
fn tells_each_fault_of_a_check_with_parameters(rt: HostRuntime) -> Result<(), Fail> {
    for (failing, wanted) in FAULTS_OF_A_CHECK_WITH_PARAMS {
        let given = Given {
            words: CHECK_WITH_PARAMS,
            proof: b"guard-evidence 1\n",
            failing: *failing,
            ..CHECKED
        };
        if !comes_out(rt.alloc(), &given, wanted)? {
            return Err(Fail::from("a fault of a check with parameters"));
        }
    }
    Ok(())
}

/// The loads that fail in a check, the calls for a pattern that do, the room of out and of err, and what comes of it.
const FAULTS_OF_A_CHECK: &[(&[u64], &[u64], u64, u64, Wanted)] = &[
    (
        &[2],
        &[],
        AMPLE,
        AMPLE,
        Failed("proof not read", b"", b"guard: cannot read proof\n"),
    ),
    (
        &[1],
        &[],
        AMPLE,
        AMPLE,
        Failed("template not read", b"", b"guard: cannot read data\n"),
    ),
    (
        &[2],
        &[],
        AMPLE,
        7,
        Failed("err not written", b"", b"guard: "),
    ),
    (
        &[2],
        &[0],
        AMPLE,
        AMPLE,
        Failed("pattern not made", b"", b"guard: pattern refused\n"),
    ),
    (
        &[],
        &[],
        4,
        AMPLE,
        Failed("out not written", b"reje", b"guard: cannot write out\n"),
    ),
    (&[], &[], AMPLE, 0, Rejected(b"rejected 1\n")),
];

#[test]
fn tells_each_fault_of_a_check(rt: HostRuntime) -> Result<(), Fail> {
    for (failing, refusing, out_room, err_room, wanted) in FAULTS_OF_A_CHECK {
        let given = Given {
            rules: b"rule r { A == /a/ }",
            data: b"{}",
            proof: b"guard-evidence 1\n",
            failing: *failing,
            refusing: *refusing,
            out_room: *out_room,
            err_room: *err_room,
            ..CHECKED
        };
        if !comes_out(rt.alloc(), &given, wanted)? {
            return Err(Fail::from("a fault of a check"));
        }
    }
    Ok(())
}

/// Whether out is cut where there is no more room, and err says so.
fn is_cut(alloc: Global, room: usize) -> Result<bool, AllocError> {
    let given = Given {
        out_room: room as u64,
        ..FIRST
    };
    let ran = call(alloc, &given)?;
    Ok(
        word(&ran.end) == "out not written"
            && ran.out.len() == room
            && PASSED.starts_with(&ran.out)
            && ran.err.as_slice() == b"guard: cannot write out\n".as_slice(),
    )
}

#[test]
fn tells_out_with_too_little_room(rt: HostRuntime) -> Result<(), Fail> {
    for room in 0..PASSED.len() {
        if !is_cut(rt.alloc(), room)? {
            return Err(Fail::from("out"));
        }
    }
    Ok(())
}

/// The line of a refused template.
const DOUBLE_KEY: &[u8] = b"guard: data 1:8: DuplicateKey\n";

/// Whether the line of a refusal is cut where there is no more room.
fn is_refusal_cut(alloc: Global, room: usize) -> Result<bool, AllocError> {
    let given = Given {
        data: br#"{"a":1,"a":2}"#,
        err_room: room as u64,
        ..FIRST
    };
    let ran = call(alloc, &given)?;
    Ok(
        word(&ran.end) == "err not written"
            && ran.out.is_empty()
            && ran.err.len() == room
            && DOUBLE_KEY.starts_with(&ran.err),
    )
}

#[test]
fn tells_err_with_too_little_room_for_a_refusal(rt: HostRuntime) -> Result<(), Fail> {
    for room in 0..DOUBLE_KEY.len() {
        if !is_refusal_cut(rt.alloc(), room)? {
            return Err(Fail::from("err"));
        }
    }
    Ok(())
}

/// The line of parameters that share a key with the template.
const SHARED: &[u8] = b"guard: params 1:14: SharedKey\n";

/// Whether the line of a shared key is cut where there is no more room.
fn is_shared_key_cut(alloc: Global, room: usize) -> Result<bool, AllocError> {
    let given = Given {
        params: br#"{"Resources":1}"#,
        err_room: room as u64,
        ..JOINED
    };
    let ran = call(alloc, &given)?;
    Ok(
        word(&ran.end) == "err not written"
            && ran.out.is_empty()
            && ran.err.len() == room
            && SHARED.starts_with(&ran.err),
    )
}

#[test]
fn tells_err_with_too_little_room_for_a_shared_key(rt: HostRuntime) -> Result<(), Fail> {
    for room in 0..SHARED.len() {
        if !is_shared_key_cut(rt.alloc(), room)? {
            return Err(Fail::from("err"));
        }
    }
    Ok(())
}

/// The usage line is cut where there is no more room.
#[test]
fn tells_err_with_too_little_room_for_the_usage_line(rt: HostRuntime) -> Result<(), Fail> {
    let given = Given {
        words: &[],
        err_room: 5,
        ..FIRST
    };
    if comes_out(
        rt.alloc(),
        &given,
        &Failed("err not written", b"", b"usage"),
    )? {
        Ok(())
    } else {
        Err(Fail::from("usage"))
    }
}

/// With memory at hand the call ends as defined. Where an allocation is refused, as `rt try --test --fail-alloc N` does,
/// it ends so, or by want of memory with fronts of the defined texts on out and err.
#[test]
fn ends_as_defined_or_by_want_of_memory(rt: HostRuntime) -> Result<(), Fail> {
    passes_or_wants(rt.alloc(), &FIRST)
}

#[test]
fn merges_parameters_or_ends_by_want_of_memory(rt: HostRuntime) -> Result<(), Fail> {
    let given = Given {
        params: br#"{"P":{"Q":1},"R":"s"}"#,
        ..JOINED
    };
    passes_or_wants(rt.alloc(), &given)
}

/// Makes a call that passes where there is memory.
fn passes_or_wants(alloc: Global, given: &Given<'_>) -> Result<(), Fail> {
    let ran = match call(alloc, given) {
        Ok(ran) => ran,
        // The words, the files and their contents were not made.
        Err(AllocError) => return Ok(()),
    };
    let is_well = match &ran.end {
        End::Memory => {
            PASSED.starts_with(&ran.out) && b"guard: memory\n".as_slice().starts_with(&ran.err)
        }
        _ => is_end(&ran, &Passed),
    };
    if is_well {
        Ok(())
    } else {
        Err(Fail::from("memory"))
    }
}
