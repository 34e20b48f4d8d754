//! The rules that are reported, by their names.
ghost use Rattle.std.specs.Prelude.{◌≡◌, true, false, MatchOption, IfOk};
ghost use Rattle.doc_values.specs.Places.{label_at};
ghost use Rattle.doc_values.specs.Tree.{size};
ghost use Rattle.report_text.specs.RuleLines.{reported_names};
ghost use Rattle.rule_names.specs.Duplicates.{is_among};
ghost use Rattle.rule_names.specs.code.Files.{file_of};
ghost use Rattle.guard_testfile.specs.Refusals.{HoldsBelow, IsFirstFailure, named_at, names_rule};
ghost use Rattle.guard_testfile.specs.code.Places.{ArePlaces};
ghost use Rattle.guard_testfile.specs.code.RuleSites.{AreSites, name_of_site};

use crate::place::Place;
use doc_values::{Cursor, Doc};
use rule_names::RuleFile;
use std::alloc::{AllocError, Global};
use std::collections::BTreeMap;

/// The sites of the rules of a file that are reported, by their names; that of `default` is 0.
#[derive(Drop)]
pub(crate) struct RuleSites<'f> {
    pub file: &'f RuleFile,
    pub by_name: BTreeMap<&'f str, u32>,
    pub ghost known: { AreSites (file_of file.now) (reported_names (file_of file.now)) by_name },
}

impl<'f> RuleSites<'f> {
    /// Those of a file.
    pub fn new(alloc: Global, file: &'f RuleFile) -> Result<RuleSites<'f>, AllocError>
        ensures { IfOk result (λ sites. sites.file.now ≡ file.entry.now) }
    {
        let by_name = sites_of(alloc, file)?;
        Ok(RuleSites { file, by_name })
    }

    /// The site of the rule with a name.
    pub fn site(&self, name: &str) -> Option<u32>
        ensures { MatchOption result (is_among name.now (reported_names (file_of self.now.file.now)) ≡ false)
            (λ site. (is_among name.now (reported_names (file_of self.now.file.now)) ≡ true) × (name_of_site (file_of self.now.file.now) site ≡ name.now)) }
    {
        self.by_name.get(name).copied()
    }

    /// The first node of a tree that expects a verdict of no rule, by where each stands.
    pub fn first_unnamed(&self, doc: &Doc<'_>, places: &[Place]) -> Option<u32>
        requires { ArePlaces doc.now (size doc.now) places.now }
        ensures { MatchOption result (HoldsBelow (size doc.now) (named_at (file_of self.now.file.now) doc.now))
            (IsFirstFailure (size doc.now) (named_at (file_of self.now.file.now) doc.now)) }
    {
        for id in 0..doc.len() {
            let node = doc.cursor(id);
            if !self.names_rule(places[id as usize], &node) {
                return Some(id);
            }
        }
        None
    }

    /// Whether a value, where it is a verdict that is expected, has the name of a rule as its key.
    fn names_rule(&self, place: Place, node: &Cursor<'_, '_>) -> bool
        ensures { result ≡ names_rule (file_of self.now.file.now) place (label_at node.now.doc.now node.now.id).key }
    {
        match place {
            Place::Verdict => self.is_named(node),
            _ => true,
        }
    }

    /// Whether a value has no key but the name of a rule.
    fn is_named(&self, node: &Cursor<'_, '_>) -> bool
        ensures { result ≡ names_rule (file_of self.now.file.now) Place.Verdict (label_at node.now.doc.now node.now.id).key }
    {
        match node.key() {
            Some(name) => self.site(name).is_some(),
            None => true,
        }
    }
}

/// The sites of the rules of a file that are reported, by their names.
fn sites_of<'f>(alloc: Global, file: &'f RuleFile) -> Result<BTreeMap<&'f str, u32>, AllocError>
    ensures { IfOk result (λ sites. AreSites (file_of file.entry.now) (reported_names (file_of file.entry.now)) sites) }
{
    let raw = file.raw();
    let rules = raw.rules.as_slice();
    let mut sites = BTreeMap::new(alloc);
    for rule in rules {
        if !rule.params.as_slice().is_empty() {
            continue;
        }
        sites.insert(rule.name.as_str(), rule.site)?;
    }
    let loose = raw.loose.as_slice();
    if loose.is_empty() {
        return Ok(sites);
    }
    sites.insert("default", 0)?;
    Ok(sites)
}
