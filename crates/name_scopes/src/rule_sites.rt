//! The site of each rule of a file, by its name.
ghost use Rattle.std.specs.Prelude.{◌≡◌, IfOk, map};
ghost use Rattle.guard_syntax.specs.code.Seen.{see_rule};
ghost use Rattle.name_scopes.specs.code.RuleSites.{AreRuleSites};

use guard_syntax::Rule;
use std::alloc::{AllocError, Global};
use std::collections::BTreeMap;

/// The sites of rules by their names; of several rules with one name, the first counts.
pub fn sites_of<'f>(alloc: Global, rules: &'f [Rule]) -> Result<BTreeMap<&'f str, u32>, AllocError>
    ensures { IfOk result (λ sites. AreRuleSites (map see_rule rules.entry.now) sites) }
{
    let mut sites = BTreeMap::new(alloc);
    // The first rule of a name comes last, and stays.
    for index in (0..rules.len()).rev() {
        let rule = &rules[index];
        sites.insert(rule.name.as_str(), rule.site)?;
    }
    Ok(sites)
}
