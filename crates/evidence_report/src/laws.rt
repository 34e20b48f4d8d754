//! The law that `rule` lines tell verdicts and entries: a call that does nothing.
ghost use Rattle.std.specs.Prelude.{List};
ghost use Rattle.evidence_lines.specs.declared.line.Line.{Line};
ghost use Rattle.evidence_lines.specs.declared.version.Version.{Version};
ghost use Rattle.rule_names.specs.Pieces.{AreInOrder};
ghost use Rattle.rule_names.specs.WellNamed.{WellNamed};
ghost use Rattle.rule_meaning.specs.FunctionMeaning.{IsAnswering};
ghost use Rattle.rule_meaning.specs.Locations.{Answers};
ghost use Rattle.rule_meaning.specs.Seeing.{world_of};
ghost use Rattle.rule_meaning.specs.StoreModel.{StoreModel};
ghost use Rattle.evidence_report.specs.code.RuleEntries.{AreTold, IsAccepted};

use evidence_truth::{entries_told, lines_true};

/// The law that `rule` lines tell what is reported, over a store that holds the trees of the lines: a line says the verdict of
/// its rule, or of the parts outside rules, and where that is FAIL it leads to the entries.
pub(crate) fn rules_told()
    ensures { (version : Version) (held : StoreModel) (lines : List Line) (answers : Answers)
        → AreInOrder held.file → WellNamed held.file → IsAccepted version held lines → IsAnswering (world_of held answers)
        → AreTold (world_of held answers) held lines }
{
    lines_true();
    entries_told();
}
