//! Where lines stop: the verdicts that decide, by the version of the evidence.
ghost use Rattle.std.specs.Prelude.{◌≡◌};
ghost use Rattle.evidence_rules.specs.Follows.{block_stop, conds_stop, disj_stop, is_stop};

use evidence_lines::Version;
use guard_syntax::Verdict;

/// The verdict that decides a disjunction.
pub(crate) fn disj_stop(version: Version) -> Option<Verdict>
    ensures { result ≡ disj_stop version }
{
    match version {
        Version::One => None,
        Version::Two => Some(Verdict::Pass),
    }
}

/// The verdict that decides a conjunction of conditions.
pub(crate) fn conds_stop(version: Version) -> Option<Verdict>
    ensures { result ≡ conds_stop version }
{
    match version {
        Version::One => None,
        Version::Two => Some(Verdict::Fail),
    }
}

/// The verdict that decides a block.
pub(crate) fn block_stop(any: bool, version: Version) -> Option<Verdict>
    ensures { result ≡ block_stop any version }
{
    match (any, version) {
        (true, Version::Two) => Some(Verdict::Pass),
        (true, Version::One) => None,
        (false, _) => None,
    }
}

/// Whether a verdict is the deciding one, if there is one.
pub(crate) fn is_stop(stop: Option<Verdict>, verdict: Verdict) -> bool
    ensures { result ≡ is_stop stop verdict }
{
    match stop {
        Some(decides) => decides == verdict,
        None => false,
    }
}
