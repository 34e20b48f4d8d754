//! What a walk over a file has to know of the whole file.
ghost use Rattle.std.specs.Prelude.{◌≡◌, IfOk, map};
ghost use Rattle.guard_syntax.specs.code.Seen.{see_rule};
ghost use Rattle.name_scopes.specs.code.RuleSites.{AreRuleSites, site_named};
ghost use Rattle.rule_names.specs.ReferenceGraph.{rule_node, variable_node};

use guard_syntax::Rule;
use name_scopes::rule_sites::sites_of;
use std::alloc::{AllocError, Global};
use std::collections::BTreeMap;

/// How many sites a file has, and the site of each of its rules by its name.
#[derive(Drop)]
pub(crate) struct RuleIndex<'f> {
    pub alloc: Global,
    pub count: u32,
    pub rules: &'f [Rule],
    pub sites: BTreeMap<&'f str, u32>,
    pub ghost known: { AreRuleSites (map see_rule rules.now) sites },
}

impl<'f> RuleIndex<'f> {
    /// The index of the rules of a file with so many sites.
    pub fn new(alloc: Global, rules: &'f [Rule], count: u32) -> Result<RuleIndex<'f>, AllocError>
        ensures rules { IfOk result (λ rule_index. rule_index.rules.now ≡ rules.entry.now) }
        ensures count { IfOk result (λ rule_index. rule_index.count ≡ count) }
    {
        let sites = sites_of(alloc, rules)?;
        Ok(RuleIndex {
            alloc,
            count,
            rules,
            sites,
        })
    }

    /// The site of the rule that a name means.
    pub fn rule(&self, name: &str) -> Option<u32>
        ensures { result ≡ site_named (map see_rule self.now.rules.now) name.now }
    {
        self.sites.get(name).copied()
    }

    /// The node of the name of a rule.
    pub fn rule_node(&self, site: u32) -> u64
        ensures { result ≡ rule_node (map see_rule self.now.rules.now) self.now.count site }
    {
        self.count as u64 + site as u64
    }

    /// The node of the name of a let or capture.
    pub fn variable_node(&self, site: u32) -> u64
        ensures { result ≡ variable_node (map see_rule self.now.rules.now) self.now.count site }
    {
        2 * self.count as u64 + site as u64
    }
}
