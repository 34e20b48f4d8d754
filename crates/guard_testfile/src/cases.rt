//! The cases of a tree that is a tests file.
ghost use Rattle.std.specs.Prelude.{◌≡◌, ◌+◌, ◌<◌, ◌∷◌, [], All, IfOk, MatchOption, codes, map, unwrap_or};
ghost use Rattle.doc_values.specs.Places.{key_place, kids_at, label_at};
ghost use Rattle.doc_values.specs.Tree.{IsTree, size};
ghost use Rattle.rule_names.specs.code.Files.{file_of};
ghost use Rattle.report_text.specs.Paths.{step_to};
ghost use Rattle.guard_testfile.specs.Cases.{case_at as the_case, cases_of as the_cases, contents_of, expected_by, expected_in};
ghost use Rattle.guard_testfile.specs.Refusals.{IsTestsFile};
ghost use Rattle.guard_testfile.specs.Shape.{inside, place_of, verdict_named};
ghost use Rattle.guard_testfile.specs.code.Seen.{see_case, see_expectation};

use crate::case::{Case, Expectation};
use crate::place::Place;
use crate::rule_sites::RuleSites;
use crate::shape::verdict_at;
use doc_values::{Cursor, Doc};
use std::alloc::{AllocError, Global};

/// The cases of a tests file.
pub(crate) fn cases_of(
    alloc: Global,
    doc: &Doc<'_>,
    sites: &RuleSites<'_>,
) -> Result<Vec<Case>, AllocError>
    requires { IsTestsFile (file_of sites.now.file.now) doc.now }
    ensures cases { IfOk result (λ cases. map (see_case (file_of sites.now.file.now)) cases.items ≡ the_cases doc.now) }
    ensures inputs { IfOk result (λ cases. All (λ case. case.input < size doc.now) cases.items) }
{
    let _nodes = doc.len();
    let root = doc.cursor(0);
    let mut cases = Vec::new(alloc);
    for i in 0..root.len() {
        let case = case_at(alloc, &root.child(i), sites)?;
        cases.push(case)?;
    }
    Ok(cases)
}

/// The case of a node.
fn case_at(alloc: Global, node: &Cursor<'_, '_>, sites: &RuleSites<'_>) -> Result<Case, AllocError>
    requires tree { IsTree node.now.doc.now }
    requires tests { IsTestsFile (file_of sites.now.file.now) node.now.doc.now }
    requires place { place_of node.now.doc.now node.now.id ≡ Place.Case }
    ensures case { IfOk result (λ case. see_case (file_of sites.now.file.now) case ≡ the_case node.now.id (kids_at node.now.doc.now node.now.id)) }
    ensures input { IfOk result (λ case. case.input < size node.now.doc.now) }
{
    let wanted = wanted_at(alloc, node, sites)?;
    Ok(Case {
        input: input_at(node),
        wanted,
    })
}

/// The number of the input of a case.
fn input_at(node: &Cursor<'_, '_>) -> u32
    ensures place { result ≡ unwrap_or (key_place (node.now.id + 1) (kids_at node.now.doc.now node.now.id) (codes "input")) 0 }
    ensures within { result < size node.now.doc.now }
{
    match node.get("input") {
        Some(input) => input.id,
        None => 0,
    }
}

/// What a case expects of rules.
fn wanted_at(
    alloc: Global,
    node: &Cursor<'_, '_>,
    sites: &RuleSites<'_>,
) -> Result<Vec<Expectation>, AllocError>
    requires tree { IsTree node.now.doc.now }
    requires tests { IsTestsFile (file_of sites.now.file.now) node.now.doc.now }
    requires place { place_of node.now.doc.now node.now.id ≡ Place.Case }
    ensures { IfOk result (λ wanted. map (see_expectation (file_of sites.now.file.now)) wanted.items
        ≡ expected_in (contents_of (contents_of (kids_at node.now.doc.now node.now.id) (codes "expectations")) (codes "rules"))) }
{
    let Some(expectations) = node.get("expectations") else {
        return Ok(Vec::new(alloc));
    };
    let Some(rules) = expectations.get("rules") else {
        return Ok(Vec::new(alloc));
    };
    expectations_in(alloc, &rules, sites)
}

/// The verdicts that stand in a map from names of rules.
fn expectations_in(
    alloc: Global,
    rules: &Cursor<'_, '_>,
    sites: &RuleSites<'_>,
) -> Result<Vec<Expectation>, AllocError>
    requires tree { IsTree rules.now.doc.now }
    requires tests { IsTestsFile (file_of sites.now.file.now) rules.now.doc.now }
    requires place { place_of rules.now.doc.now rules.now.id ≡ Place.Rules }
    ensures { IfOk result (λ wanted. map (see_expectation (file_of sites.now.file.now)) wanted.items ≡ expected_in (kids_at rules.now.doc.now rules.now.id)) }
{
    let mut wanted = Vec::new(alloc);
    for i in 0..rules.len() {
        let Some(expectation) = expectation_at(&rules.child(i), sites) else {
            continue;
        };
        wanted.push(expectation)?;
    }
    Ok(wanted)
}

/// The verdict that an entry of such a map expects. A value without a key is no entry.
fn expectation_at(node: &Cursor<'_, '_>, sites: &RuleSites<'_>) -> Option<Expectation>
    requires tests { IsTestsFile (file_of sites.now.file.now) node.now.doc.now }
    requires place { place_of node.now.doc.now node.now.id ≡ inside Place.Rules (step_to 0 (label_at node.now.doc.now node.now.id).key) }
    ensures { MatchOption result
        (expected_by (label_at node.now.doc.now node.now.id).key (verdict_named (label_at node.now.doc.now node.now.id).text) ≡ [])
        (λ e. expected_by (label_at node.now.doc.now node.now.id).key (verdict_named (label_at node.now.doc.now node.now.id).text) ≡ see_expectation (file_of sites.now.file.now) e ∷ []) }
{
    let Some(name) = node.key() else {
        return None;
    };
    let Some(site) = sites.site(name) else {
        // In a tests file each verdict is expected of a rule.
        unreachable!()
    };
    let Some(verdict) = verdict_at(node) else {
        // And each is the word of one.
        unreachable!()
    };
    Some(Expectation { site, verdict })
}
