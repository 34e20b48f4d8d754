//! Tests of rules: loads, patterns and pieces that fail, and in which order the work is done.
use crate::calls::Wanted::{Failed, Met, Refused, Unmet};
use crate::calls::{AMPLE, Given, TESTED, Wanted, call, is_end};
use std::alloc::{AllocError, Global};
use std::test::Fail;

const ONE: &[u8] = br#"[{"input":{"A":"a"},"expectations":{"rules":{"r":"PASS"}}}]"#;

const TWO: &[u8] =
    br#"[{"input":{"A":"a"},"expectations":{"rules":{"r":"PASS"}}},{"input":{"A":"a"},"expectations":{"rules":{"r":"SKIP"}}}]"#;

const UNKNOWN: &[u8] = br#"[{"input":{},"expectations":{"rules":{"q":"FAIL"}}}]"#;

const ONE_MET: Wanted = Met(b"case 1 ok\ncases 1 wrong 0\n");

const NOT_MADE: Wanted = Failed("pattern not made", b"", b"guard: pattern refused\n");

/// Tests, the loads and the calls for a pattern that fail, the room of out, what comes of it, and how many files are loaded and
/// how many patterns are asked for.
const TESTS: &[(&[u8], &[u64], &[u64], u64, Wanted, u64, u64)] = &[
    (ONE, &[], &[], AMPLE, ONE_MET, 2, 1),
    (
        TWO,
        &[],
        &[],
        AMPLE,
        Unmet(b"case 1 ok\ncase 2 wrong\n  r expected SKIP got PASS\ncases 2 wrong 1\n"),
        2,
        1,
    ),
    (
        ONE,
        &[0],
        &[],
        AMPLE,
        Failed("rules not read", b"", b"guard: cannot read rules\n"),
        1,
        0,
    ),
    (
        ONE,
        &[1],
        &[],
        AMPLE,
        Failed("tests not read", b"", b"guard: cannot read tests\n"),
        2,
        0,
    ),
    (ONE, &[2], &[], AMPLE, ONE_MET, 2, 1),
    (ONE, &[], &[0], AMPLE, NOT_MADE, 2, 1),
    // The tests are read before a pattern is made, and the patterns are made whether there are cases or not.
    (
        b"{",
        &[],
        &[0],
        AMPLE,
        Refused(b"guard: tests 1:2: Syntax\n"),
        2,
        0,
    ),
    (
        b"{}",
        &[],
        &[0],
        AMPLE,
        Refused(b"guard: tests 1:1: TestShape\n"),
        2,
        0,
    ),
    (
        UNKNOWN,
        &[],
        &[0],
        AMPLE,
        Refused(b"guard: tests 1:43: NoSuchRule q\n"),
        2,
        0,
    ),
    (b"[]", &[], &[0], AMPLE, NOT_MADE, 2, 1),
    (
        ONE,
        &[],
        &[],
        4,
        Failed("out not written", b"case", b"guard: cannot write out\n"),
        2,
        1,
    ),
];

/// Whether a call comes out as wanted, and asks for so many files and patterns.
fn asks_for(
    alloc: Global,
    given: &Given<'_>,
    wanted: &Wanted,
    asked: (u64, u64),
) -> Result<bool, AllocError> {
    let ran = call(alloc, given)?;
    Ok(is_end(&ran, wanted) && ran.loads == asked.0 && ran.made == asked.1)
}

#[test]
fn tests_rules_in_order(rt: HostRuntime) -> Result<(), Fail> {
    for (tests, failing, refusing, out_room, wanted, loads, made) in TESTS {
        let given = Given {
            rules: b"rule r { A == /a/ }",
            tests: *tests,
            failing: *failing,
            refusing: *refusing,
            out_room: *out_room,
            ..TESTED
        };
        if !asks_for(rt.alloc(), &given, wanted, (*loads, *made))? {
            return Err(Fail::from("a test of rules"));
        }
    }
    Ok(())
}
