//! Items of a file that are too deep.
ghost use Rattle.std.specs.Prelude.{◌≡◌, ◌≤◌, IfOk, map};
ghost use Rattle.guard_syntax.specs.code.Seen.{see_file, see_let, see_rule, see_disj, let_list, disj_list};
ghost use Rattle.rule_names.specs.Deep.{deep_fault, deep_if, deep_lets, deep_rules, deep_disjs};
ghost use Rattle.rule_names.specs.Depths.{deepened, depth_limit, depths_of};
ghost use Rattle.rule_names.specs.Faults.{first_from};
ghost use Rattle.rule_names.specs.Resolution.{resolution_of};
ghost use Rattle.name_table.specs.code.Measures.{file_of, known_of};
ghost use Rattle.rule_names.specs.Pieces.{AreInOrder};
ghost use Rattle.name_scopes.specs.code.Seen.{see_best};

use crate::depths::{of_disj, of_expr, of_file, of_rule};
use crate::measure::{DEPTH_LIMIT, Measure};
use guard_syntax::{Disj, Let, RawFile, Rule};
use name_scopes::fault::{Wrong, earlier};
use rule_names::{Link, NameKind};
use std::alloc::{AllocError, Global};

/// The greatest Depth of a part outside rules: what they are together counts 1 more.
const DEFAULT_LIMIT: u8 = 199;

/// The Depths of the sites of a file, where names are followed once more than in those that are known.
fn deepened(
    alloc: Global,
    file: &RawFile,
    links: &[Option<Link>],
    depths: &[u8],
) -> Result<Vec<u8>, AllocError>
    requires sites { AreInOrder (see_file file.now) }
    requires links { links.now ≡ resolution_of (see_file file.now) }
    ensures { IfOk result (λ next. next.items ≡ deepened (see_file file.now) depths.now) }
{
    let measure = Measure {
        file,
        links,
        depths,
    };
    let mut next = vec![in alloc; 0; file.places.as_slice().len()]?;
    of_file(&measure, &mut next);
    Ok(next)
}

/// The Depths of the sites of a file. Names are followed until that changes nothing, at most as often as a part that is
/// not too deep can lead through them, and once more.
pub(crate) fn depths_of(
    alloc: Global,
    file: &RawFile,
    links: &[Option<Link>],
) -> Result<Vec<u8>, AllocError>
    requires sites { AreInOrder (see_file file.now) }
    requires links { links.now ≡ resolution_of (see_file file.now) }
    ensures { IfOk result (λ depths. depths.items ≡ depths_of (see_file file.now)) }
{
    let mut depths = vec![in alloc; 0; file.places.as_slice().len()]?;
    for _round in 0..DEPTH_LIMIT + 1 {
        let next = deepened(alloc, file, links, &depths)?;
        if next == depths {
            return Ok(next);
        }
        depths = next;
    }
    Ok(depths)
}

/// The first of the faults until now and that of an item, if its Depth is above the most that it may be.
fn deep_if<'f>(
    measure: &Measure<'_>,
    most: u8,
    site: u32,
    depth: u8,
    best: Option<Wrong<'f>>,
) -> Option<Wrong<'f>>
    ensures { see_best result ≡ first_from (see_best best.entry) (deep_if (file_of measure.now) (known_of measure.now) most site depth) }
{
    if depth <= most {
        return best;
    }
    let places = measure.file.places.as_slice();
    let wrong = Wrong {
        kind: NameKind::TooDeep,
        name: "",
        at: places.get(site as usize).copied().unwrap_or(0),
    };
    Some(earlier(best, wrong))
}

/// The first of the faults until now and those of lets.
fn deep_lets<'f>(measure: &Measure<'_>, lets: &[Let], best: Option<Wrong<'f>>) -> Option<Wrong<'f>>
    ensures { see_best result ≡ first_from (see_best best.entry) (deep_lets (file_of measure.now) (known_of measure.now) (let_list (map see_let lets.now))) }
{
    let mut best = best;
    for given in lets {
        // An empty table: nothing is noted.
        let depth = of_expr(measure, &given.value, &mut []);
        best = deep_if(measure, DEPTH_LIMIT, given.site, depth, best);
    }
    best
}

/// The first of the faults until now and those of rules.
fn deep_rules<'f>(
    measure: &Measure<'_>,
    rules: &[Rule],
    best: Option<Wrong<'f>>,
) -> Option<Wrong<'f>>
    ensures { see_best result ≡ first_from (see_best best.entry) (deep_rules (file_of measure.now) (known_of measure.now) (map see_rule rules.now)) }
{
    let mut best = best;
    for rule in rules {
        let depth = of_rule(measure, rule, &mut []);
        best = deep_if(measure, DEPTH_LIMIT, rule.site, depth, best);
    }
    best
}

/// The first of the faults until now and those of disjunctions, whose Depths may be at most a number.
fn deep_disjs<'f>(
    measure: &Measure<'_>,
    most: u8,
    disjs: &[Disj],
    best: Option<Wrong<'f>>,
) -> Option<Wrong<'f>>
    requires { most ≤ depth_limit }
    ensures { see_best result ≡ first_from (see_best best.entry) (deep_disjs (file_of measure.now) (known_of measure.now) most (disj_list (map see_disj disjs.now))) }
{
    let mut best = best;
    for disj in disjs {
        let depth = of_disj(measure, disj, &mut []);
        best = deep_if(measure, most, disj.site, depth, best);
    }
    best
}

/// The first item of a file that is too deep, by the Depths of its sites.
pub(crate) fn first_deep<'f>(
    file: &'f RawFile,
    links: &[Option<Link>],
    depths: &[u8],
) -> Option<Wrong<'f>>
    requires links { links.now ≡ resolution_of (see_file file.now) }
    requires depths { depths.now ≡ depths_of (see_file file.now) }
    ensures { see_best result ≡ deep_fault (see_file file.entry.now) }
{
    let measure = Measure {
        file,
        links,
        depths,
    };
    let best = deep_lets(&measure, &file.lets, None);
    let best = deep_rules(&measure, &file.rules, best);
    let best = deep_disjs(&measure, DEPTH_LIMIT, &file.loose, best);
    match best {
        Some(wrong) => Some(wrong),
        None => deep_disjs(&measure, DEFAULT_LIMIT, &file.loose, None),
    }
}
