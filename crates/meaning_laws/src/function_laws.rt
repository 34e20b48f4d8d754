//! What holds of the table of functions. The bodies do nothing; a law is kept by a contract.
ghost use Rattle.std.specs.Prelude.{◌≡◌, ℕ, List, IsSome};
ghost use Rattle.guard_io.specs.Outside.{FaultCounted};
ghost use Rattle.guard_syntax.specs.declared.function.Function.{Function};
ghost use Rattle.guard_syntax.specs.declared.row.Row.{Row};
ghost use Rattle.meaning_laws.specs.code.Answered.{answered};
ghost use Rattle.rule_meaning.specs.PatternMatch.{counted, pattern_in};
ghost use Rattle.rule_meaning.specs.Functions.{Functions, MadeRow};
ghost use Rattle.rule_meaning.specs.StoreModel.{StoreModel};

/// The law that a call has one answer: it has one, and two answers of a function for the same arguments are the same.
pub fn one_answer()
    ensures some { (known : StoreModel) (f : Function) (call : ℕ) (args : List (List Row)) → Functions known f call args (answered known f call args) }
    ensures one { (known : StoreModel) (f : Function) (call : ℕ) (args : List (List Row)) (a b : List MadeRow)
        → Functions known f call args a → Functions known f call args b → a ≡ b }
{}

/// The law that `RegexMaker` refuses nothing but patterns: a text whose count rose is one.
pub fn refused_is_pattern()
    ensures { (before after : ℕ) (text : List ℕ) → FaultCounted (counted before text) (counted after text) → IsSome (pattern_in text) }
{}
