//! How many verdicts are each, and the total line of a report.
ghost use Rattle.std.specs.Prelude.{◌≡◌, ◌+◌, ◌++◌, ◌<◌, ◌^◌, ◌-◌, ◌∷◌, [], IfOk, codes, count_by, decimal, string_bytes};
ghost use Rattle.rule_meaning.specs.Verdicts.{is_fail, is_pass, is_skip};
ghost use Rattle.guard_ends.specs.Report.{total_line};
ghost use Rattle.evidence_report.specs.code.VerdictLines.{verdicts_in};

use crate::verdict_lines::VerdictLine;
use guard_syntax::Verdict;
use std::alloc::{AllocError, Global};

/// How many of the verdicts are each.
#[derive(Clone, Copy)]
struct Tally {
    pass: usize,
    fail: usize,
    skip: usize,
}

impl Tally {
    /// Counts one verdict more.
    fn add(&mut self, verdict: Verdict)
        requires { self.old.pass + self.old.fail + self.old.skip < 2 ^ 64 - 1 }
        ensures pass { self.new.pass ≡ self.old.pass + count_by is_pass (verdict ∷ []) }
        ensures fail { self.new.fail ≡ self.old.fail + count_by is_fail (verdict ∷ []) }
        ensures skip { self.new.skip ≡ self.old.skip + count_by is_skip (verdict ∷ []) }
        ensures all { self.new.pass + self.new.fail + self.new.skip
            ≡ self.old.pass + self.old.fail + self.old.skip + 1 }
    {
        match verdict {
            Verdict::Pass => self.pass += 1,
            Verdict::Fail => self.fail += 1,
            Verdict::Skip => self.skip += 1,
        }
    }
}

/// The total line of all verdicts.
pub(crate) fn total_line(alloc: Global, all: &[VerdictLine<'_>]) -> Result<String, AllocError>
    ensures { IfOk result (λ text. string_bytes text ≡ total_line (verdicts_in all.now)) }
{
    tally_line(alloc, &tally_of(all))
}

/// The total line, by how many of the verdicts are each.
fn tally_line(alloc: Global, tally: &Tally) -> Result<String, AllocError>
    ensures { IfOk result (λ text. string_bytes text ≡ codes "total " ++ decimal tally.now.pass ++ codes " PASS " ++ decimal tally.now.fail
        ++ codes " FAIL " ++ decimal tally.now.skip ++ codes " SKIP\n") }
{
    let Tally { pass, fail, skip } = *tally;
    let line = format!(in alloc; "total {pass} PASS {fail} FAIL {skip} SKIP\n")?;
    Ok(line)
}

/// How many of all verdicts are each.
fn tally_of(all: &[VerdictLine<'_>]) -> Tally
    ensures pass { result.pass ≡ count_by is_pass (verdicts_in all.now) }
    ensures fail { result.fail ≡ count_by is_fail (verdicts_in all.now) }
    ensures skip { result.skip ≡ count_by is_skip (verdicts_in all.now) }
{
    let mut tally = Tally {
        pass: 0,
        fail: 0,
        skip: 0,
    };
    for listed in all {
        tally.add(listed.line.verdict);
    }
    tally
}
