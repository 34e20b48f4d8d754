//! A call with parameters.
ghost use Rattle.std.specs.Prelude.{[]};
ghost use Rattle.evidence_lines.specs.declared.version.Version.TheVariants.{One};
ghost use Rattle.rule_names.specs.Pieces.{AreInOrder};
ghost use Rattle.evidence_rules.specs.Follows.{AllFollow};
ghost use Rattle.evidence_examples.specs.code.OneCall.{file, known, all_lines};

/// The lines of a call with parameters follow in version 1, each from those before it. The call itself does nothing.
pub fn call_with_parameters()
    ensures ordered { AreInOrder file }
    ensures follow { AllFollow One known [] all_lines }
{}
