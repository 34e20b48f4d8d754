//! What holds of the meaning of rules, which is over locations: functions have one answer. The body does nothing; a law is kept
//! by a contract.
ghost use Rattle.std.specs.Prelude.{◌≡◌, ℕ, List};
ghost use Rattle.doc_values.specs.Tree.{Forest};
ghost use Rattle.guard_syntax.specs.Syntax.{File};
ghost use Rattle.rule_meaning.specs.FunctionMeaning.{Functions, IsAnswering};
ghost use Rattle.rule_meaning.specs.Locations.{AnswerRow, Answers, LocatedRow, World};

use guard_syntax::Function;

/// The law that functions have one answer over locations: over each template and file something is answered that follows the
/// table, and no call has two answers that do.
pub fn one_answer_over_locations()
    ensures some { (template : Forest) (file : File) → (answers : Answers) × IsAnswering (record { template = template; file = file; answers = answers }) }
    ensures one { (world : World) (function : Function) (call : ℕ) (args : List (List LocatedRow)) (a b : List AnswerRow)
        → Functions world function call args a → Functions world function call args b → a ≡ b }
{}
