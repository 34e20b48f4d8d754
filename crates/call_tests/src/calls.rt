//! Calls of the top call over files, sinks and a maker of patterns in memory, and what is wanted of them.
use guard_io::{MemFiles, MemSink};
use guard_run::{End, Pipe, Which, guard};
use std::alloc::{AllocError, Global};
use value_compare::ScriptMaker;

/// More room than any output takes.
pub(crate) const AMPLE: u64 = 1 << 20;

pub(crate) const RULES: &[u8] = b"rule r { Resources.B.Properties.BucketName exists }";

pub(crate) const NAMED: &[u8] =
    br#"{"Resources":{"B":{"Type":"AWS::S3::Bucket","Properties":{"BucketName":"x"}}}}"#;

pub(crate) const PASSED: &[u8] = b"rule r PASS\ntotal 1 PASS 0 FAIL 0 SKIP\n";

/// What is given to a call: the words, the contents of the files, and where it is to fail.
#[derive(Clone, Copy)]
pub(crate) struct Given<'a> {
    pub words: &'a [&'a str],
    pub rules: &'a [u8],
    pub data: &'a [u8],
    pub params: &'a [u8],
    pub proof: &'a [u8],
    pub tests: &'a [u8],
    /// The loads that fail, by their numbers from 0.
    pub failing: &'a [u64],
    /// The calls for a pattern that fail.
    pub refusing: &'a [u64],
    pub out_room: u64,
    pub err_room: u64,
}

/// The words of a validation, and those of a check.
pub(crate) const VALIDATE: &[&str] = &["validate", "--rules", "r.guard", "--data", "d.json"];

pub(crate) const CHECK: &[&str] = &[
    "check", "--rules", "r.guard", "--data", "d.json", "--proof", "e",
];

/// Those of a validation with parameters, and of a check with them.
pub(crate) const WITH_PARAMS: &[&str] = &[
    "validate", "--rules", "r.guard", "--data", "d.json", "--params", "p.json",
];

pub(crate) const CHECK_WITH_PARAMS: &[&str] = &[
    "check", "--rules", "r.guard", "--data", "d.json", "--params", "p.json", "--proof", "e",
];

/// Those of a test of rules.
pub(crate) const TEST: &[&str] = &["test", "--rules", "r.guard", "--tests", "t.json"];

/// A validation of the rules and the template above.
pub(crate) const FIRST: Given<'static> = Given {
    words: VALIDATE,
    rules: RULES,
    data: NAMED,
    params: b"{}",
    proof: b"",
    tests: b"[]",
    failing: &[],
    refusing: &[],
    out_room: AMPLE,
    err_room: AMPLE,
};

/// A check of evidence that is empty.
pub(crate) const CHECKED: Given<'static> = Given {
    words: CHECK,
    ..FIRST
};

/// A validation with parameters, which are an empty map.
pub(crate) const JOINED: Given<'static> = Given {
    words: WITH_PARAMS,
    ..FIRST
};

/// A test of the rules above.
pub(crate) const TESTED: Given<'static> = Given {
    words: TEST,
    ..FIRST
};

/// What a call is to end with.
#[derive(Clone, Copy)]
pub(crate) enum Wanted {
    /// The one rule passes.
    Passed,
    /// The evidence is rejected, with this on out.
    Rejected(&'static [u8]),
    /// The verdicts are as the tests expect them, with this on out.
    Met(&'static [u8]),
    /// They are not, with this on out.
    Unmet(&'static [u8]),
    /// A text is refused, with this on err.
    Refused(&'static [u8]),
    /// A device fails: the end by its word, and what out and err take.
    Failed(&'static str, &'static [u8], &'static [u8]),
}

impl Wanted {
    /// The end by its word, its status, and what out and err are to take.
    fn parts(&self) -> (&'static str, u8, &'static [u8], &'static [u8]) {
        match self {
            Wanted::Passed => ("passed", 0, PASSED, b""),
            Wanted::Rejected(line) => ("rejected", 19, *line, b""),
            Wanted::Met(text) => ("passed", 0, *text, b""),
            Wanted::Unmet(text) => ("failed", 19, *text, b""),
            Wanted::Refused(line) => ("refused", 5, b"", *line),
            Wanted::Failed(end, out, err) => (*end, 6, *out, *err),
        }
    }
}

/// How a call ended.
#[derive(Drop)]
pub(crate) struct Ran {
    pub end: End,
    pub out: Vec<u8>,
    pub err: Vec<u8>,
    pub loads: u64,
    pub made: u64,
}

/// Whether a call ended so.
pub(crate) fn is_end(ran: &Ran, wanted: &Wanted) -> bool {
    let (end, status, out, err) = wanted.parts();
    word(&ran.end) == end
        && ran.end.status() == status
        && ran.out.as_slice() == out
        && ran.err.as_slice() == err
}

/// Whether a call comes out as wanted.
pub(crate) fn comes_out(
    alloc: Global,
    given: &Given<'_>,
    wanted: &Wanted,
) -> Result<bool, AllocError> {
    let ran = call(alloc, given)?;
    Ok(is_end(&ran, wanted))
}

/// Runs a call.
pub(crate) fn call(alloc: Global, given: &Given<'_>) -> Result<Ran, AllocError> {
    let words = words_of(alloc, given.words)?;
    let mut files = MemFiles {
        names: files_of(alloc, given)?,
        failing: Vec::from_slice(alloc, given.failing)?,
        calls: 0,
        faults: 0,
    };
    let mut maker = ScriptMaker {
        failing: Vec::from_slice(alloc, given.refusing)?,
        calls: 0,
        faults: 0,
    };
    let mut out = sink(alloc, given.out_room);
    let mut err = sink(alloc, given.err_room);
    let end = guard(alloc, &words, &mut files, &mut maker, &mut out, &mut err);
    Ok(Ran {
        end,
        out: out.bytes,
        err: err.bytes,
        loads: files.calls,
        made: maker.calls,
    })
}

fn words_of(alloc: Global, words: &[&str]) -> Result<Vec<String>, AllocError> {
    let mut owned = Vec::new(alloc);
    for word in words {
        owned.push(String::from_str(alloc, word)?)?;
    }
    Ok(owned)
}

fn files_of(alloc: Global, given: &Given<'_>) -> Result<Vec<(String, Vec<u8>)>, AllocError> {
    let mut files = Vec::new(alloc);
    for (name, bytes) in [
        ("r.guard", given.rules),
        ("d.json", given.data),
        ("p.json", given.params),
        ("e", given.proof),
        ("t.json", given.tests),
    ] {
        files.push(file(alloc, name, bytes)?)?;
    }
    Ok(files)
}

fn file(alloc: Global, name: &str, bytes: &[u8]) -> Result<(String, Vec<u8>), AllocError> {
    let name = String::from_str(alloc, name)?;
    let bytes = Vec::from_slice(alloc, bytes)?;
    Ok((name, bytes))
}

fn sink(alloc: Global, room: u64) -> MemSink {
    MemSink {
        bytes: Vec::new(alloc),
        room,
        faults: 0,
    }
}

/// The word for an end.
pub(crate) fn word(end: &End) -> &'static str {
    match end {
        End::Passed => "passed",
        End::Failed => "failed",
        End::Accepted => "accepted",
        End::Rejected(_) => "rejected",
        End::Usage => "usage",
        End::Refused(_) => "refused",
        End::ReadFault(Which::Rules) => "rules not read",
        End::ReadFault(Which::Template) => "template not read",
        End::ReadFault(Which::Params) => "parameters not read",
        End::ReadFault(Which::Proof) => "proof not read",
        End::ReadFault(Which::Tests) => "tests not read",
        End::WriteFault(Pipe::Out) => "out not written",
        End::WriteFault(Pipe::Err) => "err not written",
        End::PatternRefused => "pattern not made",
        End::Memory => "memory",
    }
}
