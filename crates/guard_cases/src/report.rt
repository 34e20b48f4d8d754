//! A table run: its cases in order, and what is told of them.
use crate::case::Case;
use crate::compare::{append, differences, judged_out};
use crate::refusal::{Misfit, TableRefusal};
use crate::run::{Ran, run_case};
use crate::table::read_table;
use guard_io::{Files, LoadFault};
use std::alloc::{AllocError, Global};

/// How many bytes a table may have; what stands behind them is not read.
const TABLE_LIMIT: u64 = 1 << 28;

/// Whether each case of a table came out as wanted.
#[derive(Clone, Copy, PartialEq)]
pub enum Verdict {
    Agree,
    Differ,
}

/// How many cases came out as wanted, and how many did not.
#[derive(Clone, Copy)]
struct Tally {
    agree: u64,
    differ: u64,
}

/// Loads a table, runs its cases and appends what came of them.
pub fn run_table<F: Files>(
    alloc: Global,
    files: &mut F,
    name: &str,
    lines: &mut Vec<u8>,
) -> Result<Verdict, AllocError> {
    let mut table = Vec::new(alloc);
    match files.load(name, TABLE_LIMIT, &mut table) {
        Ok(()) => run_loaded(alloc, name, &table, lines),
        Err(LoadFault::Failed) => {
            append(lines, format!(in alloc; "{name}: not read\n")?)?;
            Ok(Verdict::Differ)
        }
        Err(LoadFault::Memory) => Err(AllocError),
    }
}

fn run_loaded(
    alloc: Global,
    name: &str,
    table: &[u8],
    lines: &mut Vec<u8>,
) -> Result<Verdict, AllocError> {
    match read_table(alloc, table) {
        Ok(cases) => append_tally(name, run_cases(alloc, name, &cases, lines)?, lines),
        Err(TableRefusal::Unfit { line, misfit }) => append_refusal(name, line, misfit, lines),
        Err(TableRefusal::NoMemory) => Err(AllocError),
    }
}

fn append_refusal(
    name: &str,
    line: u64,
    misfit: Misfit,
    lines: &mut Vec<u8>,
) -> Result<Verdict, AllocError> {
    let word = misfit.name();
    append(
        lines,
        format!(in *lines.allocator(); "{name}:{line}: {word}\n")?,
    )?;
    Ok(Verdict::Differ)
}

fn append_tally(name: &str, tally: Tally, lines: &mut Vec<u8>) -> Result<Verdict, AllocError> {
    let Tally { agree, differ } = tally;
    if differ == 0 {
        append(
            lines,
            format!(in *lines.allocator(); "{name} {agree} agree\n")?,
        )?;
        Ok(Verdict::Agree)
    } else {
        append(
            lines,
            format!(in *lines.allocator(); "{name} {agree} agree {differ} differ\n")?,
        )?;
        Ok(Verdict::Differ)
    }
}

/// Runs cases in order, and tells of those that differ.
fn run_cases(
    alloc: Global,
    table: &str,
    cases: &[Case<'_>],
    lines: &mut Vec<u8>,
) -> Result<Tally, AllocError> {
    let mut tally = Tally {
        agree: 0,
        differ: 0,
    };
    let mut before = Vec::new(alloc);
    for case in cases {
        let ran = run_case(alloc, case, &before)?;
        match judge_case(table, case, &ran, lines)? {
            Verdict::Agree => tally.agree = tally.agree.saturating_add(1),
            Verdict::Differ => tally.differ = tally.differ.saturating_add(1),
        }
        before = ran.out;
    }
    Ok(tally)
}

/// Appends in what a case differs, if in anything.
fn judge_case(
    table: &str,
    case: &Case<'_>,
    ran: &Ran,
    lines: &mut Vec<u8>,
) -> Result<Verdict, AllocError> {
    let judged = judged_out(*lines.allocator(), case.out, &ran.out)?;
    let mut verdict = Verdict::Agree;
    for difference in differences(case, ran, &judged).iter().flatten() {
        if verdict == Verdict::Agree {
            let name = case.name;
            append(lines, format!(in *lines.allocator(); "{table}: {name}\n")?)?;
            verdict = Verdict::Differ;
        }
        difference.append(lines)?;
    }
    Ok(verdict)
}
