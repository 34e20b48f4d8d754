//! In which order the work is done: how many files are loaded, and how many patterns are made, where something is refused or
//! fails.
use crate::calls::Wanted::{Failed, Passed, Refused};
use crate::calls::{
    CHECK, CHECK_WITH_PARAMS, CHECKED, FIRST, Given, JOINED, VALIDATE, WITH_PARAMS, Wanted, call,
    is_end,
};
use std::alloc::{AllocError, Global};
use std::test::Fail;

/// Rules with a pattern in a call.
const REPLACED: &[u8] = b"let x = regex_replace(A, 'a', 'b') rule r { %x == 'b' }";

const SMALL: &[u8] = br#"{"A":"a"}"#;

const NOT_MADE: Wanted = Failed("pattern not made", b"", b"guard: pattern refused\n");

const BAD: Wanted = Refused(b"guard: rules 1:15: BadPattern\n");

/// Rules and a template, the calls for a pattern that fail, what comes of it, and how many patterns are asked for.
const PATTERNS: &[(&[u8], &[u8], &[u64], Wanted, u64)] = &[
    (b"rule r { A == /(/ }", b"{}", &[], BAD, 1),
    (
        b"rule r { A == /(/ }",
        b"{",
        &[],
        Refused(b"guard: data 1:2: Syntax\n"),
        0,
    ),
    (
        b"rule r { A == /a/ A == /(/ }",
        b"{}",
        &[],
        Refused(b"guard: rules 1:24: BadPattern\n"),
        2,
    ),
    (b"rule r { A == /(/ A == /)/ }", b"{}", &[], BAD, 1),
    (
        b"rule r { A IN ['x', /(/] }",
        b"{}",
        &[],
        Refused(b"guard: rules 1:21: BadPattern\n"),
        1,
    ),
    (b"rule r { A == /a/ }", SMALL, &[], Passed, 1),
    (b"rule r { A == /a/ }", SMALL, &[0], NOT_MADE, 1),
    (b"rule r { A == /a/ A == /b/ }", b"{}", &[1], NOT_MADE, 2),
    (b"rule r { A == /a/ A == /(/ }", b"{}", &[0], NOT_MADE, 1),
    // A text that stands there twice is made once.
    (b"rule r { A == /a/ A == /a/ }", SMALL, &[1], Passed, 1),
    (b"rule r { A exists }", SMALL, &[0], Passed, 0),
    // The pattern of a call is made, and no other text of one.
    (REPLACED, SMALL, &[], Passed, 1),
    (REPLACED, SMALL, &[0], NOT_MADE, 1),
    (
        b"let x = regex_replace(A, '(', 'b') rule r { %x == /)/ }",
        b"{}",
        &[],
        Refused(b"guard: rules 1:26: BadPattern\n"),
        1,
    ),
    (
        b"let x = regex_replace(A, 'a', '(') rule r { %x == '(' }",
        SMALL,
        &[],
        Passed,
        1,
    ),
    (
        b"let x = join(A, '(') rule r { %x == 'a' }",
        SMALL,
        &[0],
        Passed,
        0,
    ),
];

/// Whether a call comes out as wanted, and asks for so many patterns.
fn asks_for(
    alloc: Global,
    given: &Given<'_>,
    wanted: &Wanted,
    made: u64,
) -> Result<bool, AllocError> {
    let ran = call(alloc, given)?;
    Ok(is_end(&ran, wanted) && ran.made == made)
}

#[test]
fn makes_patterns_once_the_template_is_read(rt: HostRuntime) -> Result<(), Fail> {
    for (rules, data, refusing, wanted, made) in PATTERNS {
        let given = Given {
            rules: *rules,
            data: *data,
            refusing: *refusing,
            ..FIRST
        };
        if !asks_for(rt.alloc(), &given, wanted, *made)? {
            return Err(Fail::from("a pattern"));
        }
    }
    Ok(())
}

/// Rules and a template beside evidence that is refused too, the line on err, how many files are loaded, and how many
/// patterns are asked for.
const LOADS: &[(&[u8], &[u8], &[u8], u64, u64)] = &[
    (b"\xff", b"{}", b"guard: rules: NotText\n", 1, 0),
    (
        b"rule r { A exists }",
        b"{",
        b"guard: data 1:2: Syntax\n",
        2,
        0,
    ),
    (
        b"rule r { A == /(/ }",
        b"{}",
        b"guard: rules 1:15: BadPattern\n",
        2,
        1,
    ),
    (
        b"rule r { A == /a/ }",
        b"{}",
        b"guard: proof line 0: EvidenceSyntax\n",
        3,
        1,
    ),
];

/// Whether a call is refused with this line, and has loaded so many files and asked for so many patterns.
fn stops_after(
    alloc: Global,
    given: &Given<'_>,
    line: &'static [u8],
    loads: u64,
    made: u64,
) -> Result<bool, AllocError> {
    let ran = call(alloc, given)?;
    Ok(is_end(&ran, &Refused(line)) && ran.loads == loads && ran.made == made)
}

#[test]
fn loads_evidence_last(rt: HostRuntime) -> Result<(), Fail> {
    for (rules, data, line, loads, made) in LOADS {
        let given = Given {
            rules: *rules,
            data: *data,
            ..CHECKED
        };
        if !stops_after(rt.alloc(), &given, *line, *loads, *made)? {
            return Err(Fail::from("a load"));
        }
    }
    Ok(())
}

/// Rules, a template and parameters, the line on err, how many files are loaded, and how many patterns are asked for.
const MERGES: &[(&[u8], &[u8], &[u8], &[u8], u64, u64)] = &[
    (b"\xff", b"[", b"[", b"guard: rules: NotText\n", 1, 0),
    (ODD, b"{", b"{", b"guard: data 1:2: Syntax\n", 2, 0),
    (ODD, b"[]", b"\xff", b"guard: params: NotText\n", 3, 0),
    (ODD, b"[]", b"{", b"guard: params 1:2: Syntax\n", 3, 0),
    (ODD, b"[]", b"[]", b"guard: data 1:1: NotAMap\n", 3, 0),
    (ODD, b" 7", b"{}", b"guard: data 1:2: NotAMap\n", 3, 0),
    (ODD, b"{}", b"  []", b"guard: params 1:3: NotAMap\n", 3, 0),
    (
        ODD,
        SMALL,
        br#"{"B":1,"A":2}"#,
        b"guard: params 1:12: SharedKey\n",
        3,
        0,
    ),
    (ODD, SMALL, b"{}", b"guard: rules 1:15: BadPattern\n", 3, 1),
];

/// Rules whose pattern is none.
const ODD: &[u8] = b"rule r { A == /(/ }";

#[test]
fn merges_once_all_is_read(rt: HostRuntime) -> Result<(), Fail> {
    for (rules, data, params, line, loads, made) in MERGES {
        let given = Given {
            rules: *rules,
            data: *data,
            params: *params,
            ..JOINED
        };
        if !stops_after(rt.alloc(), &given, *line, *loads, *made)? {
            return Err(Fail::from("parameters"));
        }
    }
    Ok(())
}

/// Evidence is loaded behind the parameters, and once the patterns are made.
#[test]
fn loads_evidence_behind_parameters(rt: HostRuntime) -> Result<(), Fail> {
    let given = Given {
        words: CHECK_WITH_PARAMS,
        rules: b"rule r { A == /a/ }",
        ..CHECKED
    };
    let line = b"guard: proof line 0: EvidenceSyntax\n";
    if stops_after(rt.alloc(), &given, line, 4, 1)? {
        Ok(())
    } else {
        Err(Fail::from("evidence"))
    }
}

/// Words, the status, and how many files are loaded. No pattern is made.
const WORDS: &[(&[&str], u8, u64)] = &[
    (VALIDATE, 0, 2),
    (&["validate", "--data", "d.json", "--rules=r.guard"], 0, 2),
    (CHECK, 5, 3),
    (WITH_PARAMS, 0, 3),
    (
        &[
            "validate",
            "--params=p.json",
            "--rules=r.guard",
            "--data=d.json",
        ],
        0,
        3,
    ),
    (CHECK_WITH_PARAMS, 5, 4),
    (
        &["validate", "--rules=r.guard", "--data=d.json", "--params"],
        2,
        0,
    ),
    (
        &["validate", "--rules=r.guard", "--data=d.json", "--evidence"],
        0,
        2,
    ),
    (&["validate", "--rules", "a"], 2, 0),
    (&[], 2, 0),
    (&["drill", "--count", "8"], 19, 0),
    (&["drill", "--count", "07"], 2, 0),
];

/// Whether a call of these words ends with this status, has loaded so many files, and has asked for no pattern.
fn is_loaded(
    alloc: Global,
    words: &'static [&'static str],
    status: u8,
    loads: u64,
) -> Result<bool, AllocError> {
    let ran = call(alloc, &Given { words, ..FIRST })?;
    Ok(ran.end.status() == status && ran.loads == loads && ran.made == 0)
}

#[test]
fn loads_what_the_words_name(rt: HostRuntime) -> Result<(), Fail> {
    for (words, status, loads) in WORDS {
        if !is_loaded(rt.alloc(), *words, *status, *loads)? {
            return Err(Fail::from("words"));
        }
    }
    Ok(())
}
