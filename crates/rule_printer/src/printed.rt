//! The laws of the tokens of canonical texts. The calls do nothing.
ghost use Rattle.std.specs.Prelude.{ℕ, List, false};
ghost use Rattle.guard_lexer.specs.declared.token.Token.{Token};
ghost use Rattle.guard_lexer.specs.Lexes.{IsTokenList};
ghost use Rattle.guard_syntax.specs.Syntax.{File};
ghost use Rattle.guard_parser.specs.File.{Rules};
ghost use Rattle.rule_spelling.specs.code.Pieces.{AreApart, tokens_from};
ghost use Rattle.rule_printer.specs.RuleText.{rule_text};
ghost use Rattle.rule_printer.specs.code.RulePieces.{rule_pieces};
ghost use Rattle.rule_printer.specs.code.Spellable.{HasSpelling};

/// The tokens of the canonical text of a file that has a spelling are its pieces: each keeps apart from the one before. The
/// call itself does nothing.
pub fn text_has_tokens()
    ensures apart { (f : File) → HasSpelling f → AreApart false (rule_pieces f) }
    ensures tokens { (f : File) → HasSpelling f → IsTokenList (rule_text f) (tokens_from 0 (rule_pieces f)) }
{}

/// A file that tokens spell has a spelling: what its lexemes have can be written again. The call itself does nothing.
pub fn rules_have_spelling()
    ensures { (text : List ℕ) (tokens : List Token) (f : File) → IsTokenList text tokens → Rules text tokens f → HasSpelling f }
{}
