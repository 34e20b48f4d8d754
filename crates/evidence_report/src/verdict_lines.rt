//! The verdicts that are reported, listed from evidence: of each rule without parameters, and of the parts outside rules.
ghost use Rattle.std.specs.Prelude.{◌≡◌, ◌∷◌, [], None, Some, true, is_some, length, Contains, IfOk, OnOk, map, List, slice_index_or};
ghost use Rattle.std.specs.List.{flat_map};
ghost use Rattle.evidence_lines.specs.declared.line.Line.{Line};
ghost use Rattle.guard_syntax.specs.Syntax as sx;
ghost use Rattle.guard_syntax.specs.code.Seen.{disj_list, see_disj, see_file, see_rule};
ghost use Rattle.rule_meaning.specs.FunctionMeaning.{IsAnswering};
ghost use Rattle.rule_meaning.specs.Locations.{Answers};
ghost use Rattle.rule_meaning.specs.Seeing.{world_of};
ghost use Rattle.rule_meaning.specs.StoreModel.{StoreModel};
ghost use Rattle.evidence_lookups.specs.code.Grounds.{known_of, lines_of};
ghost use Rattle.guard_ends.specs.Reported.{of_loose, of_rule, reported, verdicts_of};
ghost use Rattle.evidence_report.specs.code.RuleEntries.{AreTold, IsAccepted};
ghost use Rattle.evidence_report.specs.code.RuleTables.{AreJudged, AreRuleLines, HasLoose, HasRule};
ghost use Rattle.evidence_report.specs.declared.rule_lines.RuleLine.{RuleLine};
ghost use Rattle.evidence_report.specs.code.VerdictLines.{AreSaid, Lists, reported_by, see_verdict, verdicts_in};

use crate::laws::rules_told;
use crate::rule_lines::{RuleLine, line_at, rule_lines};
use evidence_lines::LineList;
use evidence_lookups::line_context::LineContext;
use guard_syntax::{Disj, RawFile, Rule, Verdict};
use std::alloc::{AllocError, Global};

/// A verdict under its name, by its `rule` line.
#[derive(Clone, Copy)]
pub(crate) struct VerdictLine<'f> {
    pub name: &'f str,
    pub line: RuleLine,
}

/// The verdicts that are reported on a template by evidence that was accepted, in their order. The store holds the trees of the
/// lines' calls.
pub fn verdicts_told(
    alloc: Global,
    context: &LineContext<'_, '_, '_>,
) -> Result<Vec<Verdict>, AllocError>
    requires { IsAccepted context.now.version (known_of context.now) (lines_of context.now) }
    ensures { (answers : Answers) → IsAnswering (world_of (known_of context.now) answers)
        → IfOk result (λ verdicts. verdicts.items ≡ verdicts_of (world_of (known_of context.now) answers)) }
{
    let all = verdict_lines(alloc, context)?;
    verdicts_alone(alloc, &all)
}

/// The verdicts, without their lines and names.
fn verdicts_alone(alloc: Global, all: &[VerdictLine<'_>]) -> Result<Vec<Verdict>, AllocError>
    ensures { IfOk result (λ verdicts. verdicts.items ≡ verdicts_in all.now) }
{
    let mut verdicts = Vec::new(alloc);
    for listed in all {
        verdicts.push(listed.line.verdict)?;
    }
    Ok(verdicts)
}

/// The verdicts that are reported by evidence that was accepted, by their lines.
pub(crate) fn verdict_lines<'f>(
    alloc: Global,
    context: &'f LineContext<'_, '_, '_>,
) -> Result<Vec<VerdictLine<'f>>, AllocError>
    requires { IsAccepted context.now.version (known_of context.now) (lines_of context.now) }
    ensures verdicts { (answers : Answers) → IsAnswering (world_of (known_of context.entry.now) answers)
        → IfOk result (λ all. map (see_verdict (known_of context.entry.now) (lines_of context.entry.now)) all.items ≡ reported (world_of (known_of context.entry.now) answers)) }
    ensures said { IfOk result (λ all. AreSaid (lines_of context.entry.now) all.items) }
{
    rules_told();
    list_verdicts(alloc, &context.lines, context.store.file.raw())
}

/// The verdicts of a file that are reported, in their order, by lines of which each has its own.
fn list_verdicts<'f>(
    alloc: Global,
    lines: &LineList<'_>,
    file: &'f RawFile,
) -> Result<Vec<VerdictLine<'f>>, AllocError>
    requires { AreJudged lines.now (see_file file.now) }
    ensures verdicts { (known : StoreModel) (answers : Answers) → known.file ≡ see_file file.entry.now → AreTold (world_of known answers) known lines.now
        → IfOk result (λ all. map (see_verdict known lines.now) all.items ≡ reported (world_of known answers)) }
    ensures said { IfOk result (λ all. AreSaid lines.now all.items) }
{
    let table = rule_lines(alloc, lines, file.places.as_slice().len())?;
    let mut all: Vec<VerdictLine<'f>> = Vec::new(alloc);
    list_rules(&table, &file.rules, &mut all)?;
    list_loose(&table, &file.loose, &mut all)?;
    Ok(all)
}

/// Appends the verdicts of rules, by the table of their lines.
fn list_rules<'f>(
    table: &[Option<RuleLine>],
    rules: &'f [Rule],
    into: &mut Vec<VerdictLine<'f>>,
) -> Result<(), AllocError>
    requires { (r : sx.Rule) → Contains (map see_rule rules.now) r → HasRule table.now r }
    ensures verdicts { (known : StoreModel) (lines : List Line) (answers : Answers)
        → known.file.rules ≡ map see_rule rules.entry.now → AreRuleLines lines table.now → AreTold (world_of known answers) known lines
        → OnOk result (Lists known lines into.old.items into.new.items (flat_map (of_rule (world_of known answers)) known.file.rules)) }
    ensures said { (lines : List Line) → AreRuleLines lines table.now → OnOk result (AreSaid lines into.old.items → AreSaid lines into.new.items) }
{
    for rule in rules {
        list_rule(table, rule, into)?;
    }
    Ok(())
}

/// Appends the verdict of a rule, unless it has parameters.
fn list_rule<'f>(
    table: &[Option<RuleLine>],
    rule: &'f Rule,
    into: &mut Vec<VerdictLine<'f>>,
) -> Result<(), AllocError>
    requires { HasRule table.now (see_rule rule.now) }
    ensures verdicts { (known : StoreModel) (lines : List Line) (answers : Answers)
        → Contains known.file.rules (see_rule rule.entry.now) → AreRuleLines lines table.now → AreTold (world_of known answers) known lines
        → OnOk result (Lists known lines into.old.items into.new.items (of_rule (world_of known answers) (see_rule rule.entry.now))) }
    ensures said { (lines : List Line) → AreRuleLines lines table.now → OnOk result (AreSaid lines into.old.items → AreSaid lines into.new.items) }
{
    if !rule.params.as_slice().is_empty() {
        return Ok(());
    }
    list_line(table, rule.name.as_str(), rule.site, into)
}

/// Appends the verdict of the parts outside rules, if there are some.
fn list_loose(
    table: &[Option<RuleLine>],
    parts: &[Disj],
    into: &mut Vec<VerdictLine<'_>>,
) -> Result<(), AllocError>
    requires { HasLoose table.now (disj_list (map see_disj parts.now)) }
    ensures verdicts { (known : StoreModel) (lines : List Line) (answers : Answers)
        → known.file.loose ≡ disj_list (map see_disj parts.now) → AreRuleLines lines table.now → AreTold (world_of known answers) known lines
        → OnOk result (Lists known lines into.old.items into.new.items (of_loose (world_of known answers) known.file.loose)) }
    ensures said { (lines : List Line) → AreRuleLines lines table.now → OnOk result (AreSaid lines into.old.items → AreSaid lines into.new.items) }
{
    if parts.is_empty() {
        return Ok(());
    }
    list_line(table, "default", 0, into)
}

/// Appends the verdict of the line that a table has at a site, under a name.
fn list_line<'f>(
    table: &[Option<RuleLine>],
    name: &'f str,
    site: u32,
    into: &mut Vec<VerdictLine<'f>>,
) -> Result<(), AllocError>
    requires { is_some (slice_index_or table.now site None) ≡ true }
    ensures verdict { (known : StoreModel) → (lines : List Line) → (r : RuleLine) → slice_index_or table.now site None ≡ Some r
        → OnOk result (Lists known lines into.old.items into.new.items (reported_by known lines name.entry.now r ∷ [])) }
    ensures said { (lines : List Line) → AreRuleLines lines table.now → OnOk result (AreSaid lines into.old.items → AreSaid lines into.new.items) }
{
    let Some(line) = line_at(table, site) else {
        // Each verdict that is reported has its line.
        unreachable!()
    };
    into.push(VerdictLine { name, line })?;
    Ok(())
}
