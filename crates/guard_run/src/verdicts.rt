//! The verdicts of rules over a tree, without a report.
ghost use Rattle.std.specs.Prelude.{◌≡◌, IfOk, false};
ghost use Rattle.evidence_lines.specs.declared.version.Version.TheVariants.{Two};
ghost use Rattle.rule_names.specs.code.Files.{file_of};
ghost use Rattle.rule_meaning.specs.FunctionMeaning.{IsAnswering};
ghost use Rattle.rule_meaning.specs.Locations.{Answers};
ghost use Rattle.rule_meaning.specs.Values.{has_pattern};
ghost use Rattle.value_store.specs.code.Books.{IsBookOf};
ghost use Rattle.value_store.specs.code.Stores.{see_store};
ghost use Rattle.evidence_rules.specs.Follows.{Accepts};
ghost use Rattle.rule_calls.specs.code.Ends.{AreOfEngine};
ghost use Rattle.guard_ends.specs.Reported.{verdicts_of, world_over};

use doc_values::Doc;
use evidence_lookups::tables::FileTables;
use evidence_report::verdicts_told;
use guard_syntax::Verdict;
use rule_calls::{Evaluation, evaluate, judged_lines, line_context};
use rule_names::RuleFile;
use std::alloc::{AllocError, Global};
use value_compare::PatternBook;

/// The verdicts that are reported of rules over a tree, in the order of the report. The patterns are those of the rules.
pub(crate) fn verdicts_over(
    alloc: Global,
    rules: &RuleFile,
    tree: &Doc<'_>,
    book: &PatternBook,
) -> Result<Vec<Verdict>, AllocError>
    requires plain { has_pattern tree.now ≡ false }
    requires book { IsBookOf (file_of rules.now) book.now }
    ensures { (answers : Answers) → IsAnswering (world_over (file_of rules.now) tree.now answers)
        → IfOk result (λ verdicts. verdicts.items ≡ verdicts_of (world_over (file_of rules.now) tree.now answers)) }
{
    let evaluation = evaluate(alloc, rules, tree, book)?;
    verdicts_by(alloc, rules, book, &evaluation)
}

/// The verdicts that are reported by the evaluation of rules.
fn verdicts_by(
    alloc: Global,
    rules: &RuleFile,
    book: &PatternBook,
    evaluation: &Evaluation<'_, '_>,
) -> Result<Vec<Verdict>, AllocError>
    requires accepted { Accepts Two (see_store evaluation.now.store).template (file_of rules.now) evaluation.now.evidence.lines }
    requires book { IsBookOf (file_of rules.now) book.now }
    requires file { (see_store evaluation.now.store).file ≡ file_of rules.now }
    requires whole { AreOfEngine (see_store evaluation.now.store) evaluation.now.evidence.lines }
    ensures { (answers : Answers) → IsAnswering (world_over (file_of rules.now) (see_store evaluation.now.store).template answers)
        → IfOk result (λ verdicts. verdicts.items ≡ verdicts_of (world_over (file_of rules.now) (see_store evaluation.now.store).template answers)) }
{
    let tables = FileTables::new(alloc, evaluation.store.file)?;
    let judged = judged_lines(alloc, evaluation)?;
    let context = line_context(alloc, evaluation, book, &tables, &judged);
    verdicts_told(alloc, &context)
}
