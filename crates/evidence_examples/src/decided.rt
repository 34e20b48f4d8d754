//! A condition that is decided.
ghost use Rattle.std.specs.Prelude.{List};
ghost use Rattle.evidence_lines.specs.declared.version.Version.TheVariants.{One, Two};
ghost use Rattle.rule_names.specs.Pieces.{AreInOrder};
ghost use Rattle.rule_meaning.specs.StoreModel.{Made};
ghost use Rattle.evidence_rules.specs.Follows.{Accepts, Follows};
ghost use Rattle.evidence_rules.specs.Lean.{IsLean};
ghost use Rattle.evidence_examples.specs.code.DecidedCondition.{template, file, known, three_lines, all_lines, line_4};

/// Eleven lines, in which a condition of two parts is decided by the first, are accepted in version 2 and lean. In version
/// 1 the line of the disjunction does not follow. The call itself does nothing.
pub fn decided_condition()
    ensures ordered { AreInOrder file }
    ensures accepted { Accepts Two template file all_lines }
    ensures lean { IsLean all_lines }
    ensures not_in_version_1 { (more : List Made) → Follows One known three_lines line_4 more → ⊥ }
{}
