//! Parts that stand behind one another, by the sites at which they begin.
ghost use Rattle.std.specs.Prelude.{◌≡◌, ◌<◌, ◌≤◌, ℕ, List, IfSome, MatchOption};
ghost use Rattle.std.specs.List.Sorted.{IsNonDecreasingBy};
ghost use Rattle.guard_syntax.specs.code.Seen.{see_let, see_rule, see_disj, see_part, see_step, see_expr};
ghost use Rattle.guard_syntax.specs.Sites.{sites_let, sites_rule, sites_disj, sites_part, sites_step, sites_expr};
ghost use Rattle.rule_names.specs.code.IncreasingSites.{first_site, AllBehind, IsLast, IsLastSite};

use guard_syntax::{Disj, Expr, Let, Part, Rule, Step};

/// A part with a site of its own.
pub trait HasSite {
    ghost own: { Self → ℕ };

    fn site(&self) -> u32
        ensures { result ≡ own self.now };
}

impl HasSite for Let {
    ghost own = { λ l. first_site (sites_let (see_let l)) };

    fn site(&self) -> u32 {
        self.site
    }
}

impl HasSite for Rule {
    ghost own = { λ r. first_site (sites_rule (see_rule r)) };

    fn site(&self) -> u32 {
        self.site
    }
}

impl HasSite for Disj {
    ghost own = { λ d. first_site (sites_disj (see_disj d)) };

    fn site(&self) -> u32 {
        self.site
    }
}

impl HasSite for Part {
    ghost own = { λ p. first_site (sites_part (see_part p)) };

    fn site(&self) -> u32 {
        match self {
            Part::Block { site, .. } => *site,
            Part::When { site, .. } => *site,
            Part::Kinds { site, .. } => *site,
            Part::Test { site, .. } => *site,
            Part::Refer { site, .. } => *site,
            Part::Call { site, .. } => *site,
        }
    }
}

impl HasSite for Step {
    ghost own = { λ s. first_site (sites_step (see_step s)) };

    fn site(&self) -> u32 {
        self.site
    }
}

impl HasSite for Expr {
    ghost own = { λ e. first_site (sites_expr (see_expr e)) };

    fn site(&self) -> u32 {
        match self {
            Expr::Literal { site, .. } => *site,
            Expr::Function { site, .. } => *site,
            Expr::Query(query) => query.site,
            Expr::Found { site, .. } => *site,
        }
    }
}

/// So many parts are looked at by halves at once: a guess would take as long.
const FEW: usize = 16;

/// The index of the last part that begins at or before a site, where the parts begin at even distances, as those of many
/// like tests do; else it may be missed.
fn guess<T: HasSite>(parts: &[T], site: u32) -> Option<usize>
    requires { IsNonDecreasingBy T.own parts.now }
    ensures { IfSome result (λ i. IsLast T.own site parts.now i) }
{
    let count = parts.len();
    if count <= FEW {
        return None;
    }
    let end = count - 1;
    let first = parts[0].site();
    let last = parts[end].site();
    if site < first || last <= site {
        return None;
    }
    let index = share(site - first, last - first, end);
    if index >= end {
        return None;
    }
    let here = parts[index].site();
    let next = parts[index + 1].site();
    if site < here || next <= site {
        return None;
    }
    Some(index)
}

/// As great a share of a number as a part has of a whole.
fn share(part: u32, whole: u32, of: usize) -> usize
    requires { 0 < whole }
{
    (u64::from(part).saturating_mul(of as u64) / u64::from(whole)) as usize
}

/// The index of the last part that begins at or before a site. Among many it is guessed first; else the search halves what
/// is left at each step.
pub fn last_to<T: HasSite>(parts: &[T], site: u32) -> Option<usize>
    requires { IsNonDecreasingBy T.own parts.now }
    ensures { MatchOption result (AllBehind T.own site parts.now) (λ i. IsLast T.own site parts.now i) }
{
    if let Some(index) = guess(parts, site) {
        return Some(index);
    }
    let count = parts.partition_point(|part| part.site() <= site);
    if count == 0 { None } else { Some(count - 1) }
}

/// The site at which that part begins.
pub fn last_site<T: HasSite>(parts: &[T], site: u32) -> Option<u32>
    requires { IsNonDecreasingBy T.own parts.now }
    ensures { MatchOption result (AllBehind T.own site parts.now) (λ found. IsLastSite T.own site parts.now found) }
{
    match last_to(parts, site) {
        Some(index) => Some(parts[index].site()),
        None => None,
    }
}
