//! Tests, which are read: the tree of their text, and the cases that it is.
ghost use Rattle.std.specs.Prelude.{◌≤◌, ◌<◌, All, MatchResult, length, map};
ghost use Rattle.doc_values.specs.Limits.{template_limit};
ghost use Rattle.doc_values.specs.Tree.{Forest, size};
ghost use Rattle.guard_syntax.specs.Syntax.{File};
ghost use Rattle.guard_testfile.specs.Refusals.{RefusesTests};
ghost use Rattle.guard_testfile.specs.code.Seen.{see_case};
ghost use Rattle.rule_names.specs.code.Files.{file_of};
ghost use Rattle.guard_ends.specs.Inputs.{AreCases, RefusesCases};
ghost use Rattle.guard_inputs.specs.code.Stops.{IsNotRead, IsStop, NoneRose};
ghost use Rattle.guard_inputs.specs.code.Tests.{AreTests, RefusingTests};

use crate::inputs::Sources;
use crate::refused::{data_at, refused_rule};
use crate::stop::Stop;
use crate::tests::Tests;
use crate::tree::read_tree;
use doc_values::Doc;
use guard_ends::{RefusalKind, Which};
use guard_testfile::{Case, TestRefusal, read_cases};
use rule_names::RuleFile;
use std::alloc::Global;

/// Reads the tests of sources.
pub fn read_tests(alloc: Global, sources: &Sources) -> Result<Tests<'_>, Stop>
    ensures { MatchResult result (AreTests sources.entry.now) (IsStop (RefusingTests sources.entry.now) NoneRose NoneRose) }
{
    let rules = &sources.rules;
    let text = sources.beside.text.as_str();
    let tree = read_tree(alloc, Which::Tests, sources.beside.format, text)?;
    let cases = cases_in(alloc, &rules.file, &tree, text)?;
    Ok(Tests { rules, tree, cases })
}

/// The cases of the tree of tests with this text.
fn cases_in(alloc: Global, rules: &RuleFile, tree: &Doc<'_>, text: &str) -> Result<Vec<Case>, Stop>
    requires { length text.now ≤ template_limit }
    ensures { MatchResult result
        (λ cases. AreCases (file_of rules.now) tree.now (map (see_case (file_of rules.now)) cases.items) × All (λ case. case.input < size tree.now) cases.items)
        (IsNotRead (λ bytes. RefusesCases (file_of rules.now) tree.now) text.now) }
{
    match read_cases(alloc, rules, tree) {
        Ok(cases) => Ok(cases),
        Err(refusal) => Err(not_tests(alloc, refusal, text)),
    }
}

/// What stops the work where the tree of this text is no tests file.
fn not_tests(alloc: Global, refusal: TestRefusal, text: &str) -> Stop
    requires { length text.now ≤ template_limit }
    ensures { (rules : File) (tree : Forest) → RefusesTests rules tree refusal
        → IsNotRead (λ bytes. RefusesCases rules tree) text.now result }
{
    match refusal {
        TestRefusal::TestShape(at) => {
            Stop::Refused(data_at(Which::Tests, RefusalKind::TestShape, at, text))
        }
        TestRefusal::NoSuchRule { name, at } => {
            match refused_rule(alloc, name, at, text.as_bytes()) {
                Ok(refused) => Stop::Refused(refused),
                Err(_) => Stop::Memory,
            }
        }
        TestRefusal::NoMemory => Stop::Memory,
    }
}
