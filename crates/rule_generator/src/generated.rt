//! The law of the tokens of generated rules. The call does nothing.
ghost use Rattle.std.specs.Prelude.{◌≤◌, length};
ghost use Rattle.doc_values.specs.Limits.{rules_limit};
ghost use Rattle.doc_values.specs.Tree.{Forest};
ghost use Rattle.guard_lexer.specs.Lexes.{IsTokenList};
ghost use Rattle.rule_spelling.specs.code.Pieces.{tokens_from};
ghost use Rattle.rule_generator.specs.GeneratedRules.{generated, rules_of};
ghost use Rattle.rule_generator.specs.code.GeneratedPieces.{HaveSpellings, generated_pieces};

/// The tokens of the generated text are its pieces, where the types, keys and values that stand in it can be written. The
/// call itself does nothing.
pub fn generated_tokens()
    ensures { (tree : Forest) → HaveSpellings (rules_of tree) → length (generated tree) ≤ rules_limit → IsTokenList (generated tree) (tokens_from 0 (generated_pieces tree)) }
{}
