//! The laws that accepted evidence is true, tells entries, and speaks of values that exist. The bodies cite other laws and do nothing else; a law is kept by a
//! contract.
ghost use Rattle.std.specs.Prelude.{◌≡◌, ◌≤◌, ℕ, List, [], ◌∷◌, All, Contains};
ghost use Rattle.doc_values.specs.Tree.{Forest, IsTree};
ghost use Rattle.evidence_lines.specs.declared.line.Line.{Line};
ghost use Rattle.evidence_lines.specs.declared.line.LineKind.TheVariants as kind;
ghost use Rattle.evidence_lines.specs.declared.line.Outcome.TheVariants as says;
ghost use Rattle.evidence_lines.specs.declared.version.Version.{Version};
ghost use Rattle.guard_syntax.specs.Syntax.{File, Rule};
ghost use Rattle.guard_syntax.specs.declared.row.Verdict.{Verdict};
ghost use Rattle.guard_syntax.specs.declared.row.Verdict.TheVariants.{Fail};
ghost use Rattle.rule_names.specs.Pieces.{AreInOrder};
ghost use Rattle.rule_names.specs.WellNamed.{WellNamed};
ghost use Rattle.rule_meaning.specs.StoreModel.{StoreModel};
ghost use Rattle.evidence_rules.specs.CitedLines.{IsLine};
ghost use Rattle.evidence_rules.specs.Follows.{AllFollow, nothing_made};
ghost use Rattle.rule_meaning.specs.Seeing.{world_of};
ghost use Rattle.rule_meaning.specs.FunctionMeaning.{IsAnswering};
ghost use Rattle.rule_meaning.specs.Fails.{loose_fails, rule_fails};
ghost use Rattle.rule_meaning.specs.Meaning.{Names};
ghost use Rattle.rule_meaning.specs.code.Fixpoint.{IsFixpoint};
ghost use Rattle.rule_meaning.specs.NameMeaning.{rule_verdict, loose_verdict};
ghost use Rattle.rule_meaning.specs.Locations.{Answers};
ghost use Rattle.evidence_rules.specs.RuleLines.{AreOfRules, IsSaidOf};
ghost use Rattle.evidence_rules.specs.code.Judgement.{FollowTo, Holds, verdicts_of};
ghost use Rattle.evidence_truth.specs.code.HeldTrees.{HoldsTrees};
ghost use Rattle.evidence_truth.specs.code.KnownLines.{AreKnown, AreTrees};
ghost use Rattle.evidence_truth.specs.code.LineFails.{line_fails};

use meaning_laws::{one_failing_over_locations, one_meaning_over_locations};

/// The law that lines are true, in each version, for any syntax whose sites are in order and whose names are as they must be: where each line follows from those before it, which makes a last store, each
/// says what is so, whatever functions answer by their table and whatever names mean by theirs; and so a `rule` line has the verdict of its
/// rule, or of the parts outside rules, and accepted evidence has all verdicts of the file.
pub fn lines_true()
    ensures store { (file : File) (version : Version) (template : Forest) (lines : List Line) → AllFollow version (nothing_made template file) [] lines
        → (known : StoreModel) × FollowTo version (nothing_made template file) [] lines known }
    ensures lines { (file : File) (version : Version) (template : Forest) (lines : List Line) (known : StoreModel) (answers : Answers) (names : Names)
        → AreInOrder file → WellNamed file
        → FollowTo version (nothing_made template file) [] lines known
        → IsAnswering (world_of known answers) → IsFixpoint (world_of known answers) names
        → All (Holds known lines (world_of known answers) names) lines }
    ensures rules { (file : File) (version : Version) (template : Forest) (lines : List Line) (known : StoreModel) (answers : Answers) (rule : Rule) (verdict : Verdict)
        → AreInOrder file → WellNamed file
        → FollowTo version (nothing_made template file) [] lines known
        → IsAnswering (world_of known answers)
        → Contains file.rules rule → IsSaidOf lines rule.site verdict → verdict ≡ rule_verdict (world_of known answers) rule }
    ensures loose { (file : File) (version : Version) (template : Forest) (lines : List Line) (known : StoreModel) (answers : Answers) (verdict : Verdict)
        → AreInOrder file → WellNamed file
        → FollowTo version (nothing_made template file) [] lines known
        → IsAnswering (world_of known answers)
        → IsSaidOf lines 0 verdict → verdict ≡ loose_verdict (world_of known answers) file.loose }
    ensures accepted { (file : File) (version : Version) (template : Forest) (lines : List Line) (answers : Answers) (verdicts : List Verdict)
        → AreInOrder file → WellNamed file
        → AllFollow version (nothing_made template file) [] lines
        → IsAnswering (world_of (nothing_made template file) answers)
        → AreOfRules lines file.rules file.loose verdicts
        → verdicts ≡ verdicts_of (world_of (nothing_made template file) answers) file.rules file.loose }
{
    one_meaning_over_locations();
}

/// The law that entries are told by lines, in each version: where each line follows from those before it, a `rule` line that says FAIL
/// leads by its cites to just the entries by which its rule fails, or the parts outside rules, in their order; so no rule has to be
/// evaluated to list them. It holds for any store that holds the trees of the lines.
pub fn entries_told()
    ensures rules { (file : File) (version : Version) (template : Forest) (lines : List Line) (known held : StoreModel) (answers : Answers) (rule : Rule) (number frame most : ℕ)
        → AreInOrder file → WellNamed file
        → FollowTo version (nothing_made template file) [] lines known → HoldsTrees held known
        → IsAnswering (world_of known answers)
        → Contains file.rules rule → IsLine lines number kind.Rule frame rule.site (says.Verdict Fail) → number ≤ most
        → line_fails held lines most number ≡ rule_fails (world_of known answers) rule }
    ensures loose { (file : File) (version : Version) (template : Forest) (lines : List Line) (known held : StoreModel) (answers : Answers) (number frame most : ℕ)
        → AreInOrder file → WellNamed file
        → FollowTo version (nothing_made template file) [] lines known → HoldsTrees held known
        → IsAnswering (world_of known answers)
        → IsLine lines number kind.Rule frame 0 (says.Verdict Fail) → number ≤ most
        → line_fails held lines most number ≡ loose_fails (world_of known answers) file.loose }
{
    one_meaning_over_locations();
    one_failing_over_locations();
}

/// The law that what lines say is known, in each version: where each line follows from those before it, over a template and a
/// file whose literals are trees, each value that a line says exists, for any store that holds the trees of the lines.
pub fn lines_known()
    ensures { (file : File) (version : Version) (template : Forest) (lines : List Line) (known held : StoreModel)
        → IsTree template → AreTrees file
        → FollowTo version (nothing_made template file) [] lines known → HoldsTrees held known
        → AreKnown held lines }
{}
