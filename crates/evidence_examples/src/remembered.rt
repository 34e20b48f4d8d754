//! A variable that is used twice.
ghost use Rattle.evidence_lines.specs.declared.version.Version.{Version};
ghost use Rattle.rule_names.specs.Pieces.{AreInOrder};
ghost use Rattle.evidence_rules.specs.Follows.{Accepts};
ghost use Rattle.evidence_rules.specs.Lean.{IsLean};
ghost use Rattle.evidence_examples.specs.code.OneVariable.{template, file, all_lines};

/// Thirteen lines in which both uses of a variable cite the one line of its expression are accepted in each version, and
/// lean. The call itself does nothing.
pub fn remembered_variable()
    ensures ordered { AreInOrder file }
    ensures accepted { (version : Version) → Accepts version template file all_lines }
    ensures lean { IsLean all_lines }
{}
