//! The kinds of lines that are not in the other examples.
ghost use Rattle.std.specs.Prelude.{[]};
ghost use Rattle.evidence_lines.specs.declared.version.Version.TheVariants.{One};
ghost use Rattle.rule_names.specs.Pieces.{AreInOrder};
ghost use Rattle.evidence_rules.specs.Follows.{AllFollow};
ghost use Rattle.evidence_examples.specs.code.OtherKinds.{file, known, all_lines};

/// Lines of each kind that is not in the other examples follow in version 1, each from those before it. The call itself
/// does nothing.
pub fn other_kinds()
    ensures ordered { AreInOrder file }
    ensures follow { AllFollow One known [] all_lines }
{}
