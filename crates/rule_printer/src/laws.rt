//! The laws: calls that do nothing, whose contracts say what holds of canonical texts.
ghost use Rattle.std.specs.Prelude.{◌≡◌};
ghost use Rattle.guard_syntax.specs.Syntax.{File};
ghost use Rattle.rule_spelling.specs.code.Pieces.{spelled};
ghost use Rattle.rule_printer.specs.RuleText.{rule_text};
ghost use Rattle.rule_printer.specs.code.RulePieces.{file_end, rule_pieces};

/// The canonical text of a file is what its tokens spell, each behind its white space. The call itself does nothing.
pub fn text_in_pieces()
    ensures { (f : File) → spelled (rule_pieces f) (file_end f) ≡ rule_text f }
{}
