//! A rule whose test fails.
ghost use Rattle.std.specs.Prelude.{List};
ghost use Rattle.evidence_lines.specs.declared.version.Version.{Version};
ghost use Rattle.rule_names.specs.Pieces.{AreInOrder};
ghost use Rattle.rule_meaning.specs.StoreModel.{Made};
ghost use Rattle.evidence_rules.specs.Follows.{Accepts, Follows};
ghost use Rattle.evidence_rules.specs.Lean.{IsLean};
ghost use Rattle.evidence_examples.specs.code.FailingRule.{template, file, known, six_lines, all_lines, passes_line, other_cite};

/// Ten lines for a rule whose test fails are accepted in each version, and lean. Behind the six lines before it, the line
/// of the test does not follow with PASS, nor with the cite of the step before the last. The call itself does nothing.
pub fn failing_rule()
    ensures ordered { AreInOrder file }
    ensures accepted { (version : Version) → Accepts version template file all_lines }
    ensures lean { IsLean all_lines }
    ensures no_pass { (version : Version) (more : List Made) → Follows version known six_lines passes_line more → ⊥ }
    ensures no_other_cite { (version : Version) (more : List Made) → Follows version known six_lines other_cite more → ⊥ }
{}
