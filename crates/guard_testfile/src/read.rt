//! The test of a tests file.
ghost use Rattle.std.specs.Prelude.{◌≡◌, ◌<◌, All, IfErr, IfOk, map, string_bytes};
ghost use Rattle.std.specs.List.{flat_map};
ghost use Rattle.doc_values.specs.Tree.{size};
ghost use Rattle.report_text.specs.Paths.{key_byte};
ghost use Rattle.rule_names.specs.code.Files.{file_of};
ghost use Rattle.guard_testfile.specs.Cases.{cases_of as the_cases};
ghost use Rattle.guard_testfile.specs.Refusals.{IsTestsFile, NamesNoRule, RefusesTests};
ghost use Rattle.guard_testfile.specs.code.Seen.{see_case};

use crate::case::Case;
use crate::cases::cases_of;
use crate::places::places_of;
use crate::refusal::TestRefusal;
use crate::rule_sites::RuleSites;
use crate::shape::first_unshaped;
use doc_values::{Cursor, Doc};
use report_text::push_key_text;
use rule_names::RuleFile;
use std::alloc::{AllocError, Global};

/// The cases of a tests file for these rules, or why it is refused: the shape is tested first, the whole of it, and then
/// whether each verdict is expected of a rule that is reported.
pub fn read_cases(alloc: Global, file: &RuleFile, doc: &Doc<'_>) -> Result<Vec<Case>, TestRefusal>
    ensures accepted { IfOk result (λ _. IsTestsFile (file_of file.now) doc.now) }
    ensures cases { IfOk result (λ cases. map (see_case (file_of file.now)) cases.items ≡ the_cases doc.now) }
    ensures inputs { IfOk result (λ cases. All (λ case. case.input < size doc.now) cases.items) }
    ensures refused { IfErr result (RefusesTests (file_of file.now) doc.now) }
{
    let places = places_of(alloc, doc)?;
    if let Some(node) = first_unshaped(doc, &places) {
        return Err(TestRefusal::TestShape(doc.cursor(node).at()));
    }
    let sites = RuleSites::new(alloc, file)?;
    if let Some(node) = sites.first_unnamed(doc, &places) {
        return Err(unnamed(alloc, file, &doc.cursor(node)));
    }
    let cases = cases_of(alloc, doc, &sites)?;
    Ok(cases)
}

/// The refusal of the first value that expects a verdict of no rule.
fn unnamed(alloc: Global, file: &RuleFile, node: &Cursor<'_, '_>) -> TestRefusal
    requires { NamesNoRule (file_of file.now) node.now.doc.now node.now.id }
    ensures { RefusesTests (file_of file.now) node.now.doc.now result }
{
    let Some(key) = node.key() else {
        // A verdict is expected of the rule of a key.
        unreachable!()
    };
    match spelled(alloc, key) {
        Ok(name) => TestRefusal::NoSuchRule {
            name,
            at: node.at(),
        },
        Err(_) => TestRefusal::NoMemory,
    }
}

/// A key as it stands in a path.
fn spelled(alloc: Global, key: &str) -> Result<String, AllocError>
    ensures { IfOk result (λ name. string_bytes name ≡ flat_map key_byte key.now) }
{
    let mut bytes = Vec::new(alloc);
    push_key_text(&mut bytes, key)?;
    match String::from_utf8(bytes) {
        Ok(name) => Ok(name),
        // Escapes are of single signs.
        Err(_) => unreachable!(),
    }
}
