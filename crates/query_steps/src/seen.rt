//! What holds of seeing references into a store as locations: a step gives over locations what it gives over references, and what
//! a store knows is seen as before when it has grown. So the meaning of rules does not depend on the lines and rows at
//! which trees were made. The bodies do nothing; a law is kept by a contract.
ghost use Rattle.std.specs.Prelude.{◌≡◌, ◌++◌, ◌∷◌, ℕ, suc, Bool, true, List, [], Some, length, map};
ghost use Rattle.std.specs.List.{flat_map, list_all};
ghost use Rattle.guard_syntax.specs.Syntax as syntax;
ghost use Rattle.rule_meaning.specs.Functions as table;
ghost use Rattle.rule_meaning.specs.StoreModel.{StoreModel, Made, is_known, is_known_ref, meant, stands_for};
ghost use Rattle.rule_meaning.specs.Filters.{candidates_in, filtered};
ghost use Rattle.rule_meaning.specs.Keys.{captured_row, passes};
ghost use Rattle.rule_meaning.specs.Kinds.{rows_of_type};
ghost use Rattle.rule_meaning.specs.Seeing.{are_called, grown, is_known_answer, rows_kept, see_answer, see_row, see_location, trees_kept, world_of};
ghost use Rattle.rule_meaning.specs.FunctionMeaning as functions;
ghost use Rattle.rule_meaning.specs.Meaning.{answered};
ghost use Rattle.rule_meaning.specs.StepMeaning as location;
ghost use Rattle.rule_meaning.specs.Locations.{Answers};
ghost use Rattle.rule_meaning.specs.Locations as locations;
ghost use Rattle.rule_meaning.specs.Steps.{found_step, on_found};

use guard_syntax::{Function, Op, Ref, Row, Verdict};

/// The law that a reference stands for what its location stands for, and a row for what the row over locations does.
pub fn seen_values()
    ensures references { (known : StoreModel) (answers : Answers) (calls : List ℕ) (value : Ref)
        → locations.stands_for (world_of known answers) (see_location known calls value) ≡ stands_for known value }
    ensures rows { (known : StoreModel) (answers : Answers) (calls : List ℕ) (row : Row)
        → locations.meant (world_of known answers) (see_row known calls row) ≡ meant known row }
{}

/// The law of steps other than filters, of tests of rows, and of captures: each gives over locations what it gives over
/// references.
pub fn seen_steps()
    ensures steps { (known : StoreModel) (answers : Answers) (calls : List ℕ) (last : Bool) (rows : List Row) (step : syntax.Step) (before : List Row)
        → map (see_row known calls) (flat_map (on_found (found_step known last rows step)) before)
        ≡ flat_map (location.on_found (location.found_step (world_of known answers) last (map (see_row known calls) rows) step)) (map (see_row known calls) before) }
    ensures tests { (known : StoreModel) (answers : Answers) (calls : List ℕ) (op : Op) (negated : Bool) (rights : List Row) (left : Row)
        → location.passes (world_of known answers) op negated (map (see_row known calls) rights) (see_row known calls left) ≡ passes known op negated rights left }
    ensures captures { (known : StoreModel) (answers : Answers) (calls : List ℕ) (rows : List Row)
        → map (see_row known calls) (flat_map (captured_row known) rows)
        ≡ flat_map (location.captured_row (world_of known answers)) (map (see_row known calls) rows) }
{}

/// The law of filters and of type blocks: what is tried and what is kept over locations is what is over references.
pub fn seen_filters()
    ensures candidates { (known : StoreModel) (answers : Answers) (calls : List ℕ) (after_key : Bool) (rows : List Row)
        → map (see_location known calls) (candidates_in known after_key rows)
        ≡ location.candidates_in (world_of known answers) after_key (map (see_row known calls) rows) }
    ensures kept { (known : StoreModel) (answers : Answers) (calls : List ℕ) (after_key : Bool) (rows : List Row) (verdicts : List Verdict)
        → map (see_row known calls) (filtered known after_key rows verdicts)
        ≡ location.filtered (world_of known answers) after_key (map (see_row known calls) rows) verdicts }
    ensures types { (known : StoreModel) (answers : Answers) (calls : List ℕ) (name : List ℕ) (current : Ref)
        → map (see_row known calls) (rows_of_type known name current) ≡ location.rows_of_type (world_of known answers) name (see_location known calls current) }
{}

/// The law of functions: what one answers for rows is over locations what it answers for the rows that these are seen as, and
/// so the rows of its call are those of the meaning, where the world answers as the table says.
pub fn seen_functions()
    ensures called { (known : StoreModel) (answers : Answers) (calls : List ℕ) (function : Function) (call : ℕ) (args : List (List Row)) (made : List table.MadeRow)
        → functions.IsAnswering (world_of known answers) → table.Functions known function call args made
        → map (locations.answered_row call) (map (see_answer known calls) made)
        ≡ answered (world_of known answers) call (Some function) (map (map (see_row known calls)) args) }
    ensures answers { (known : StoreModel) (answers : Answers) (calls : List ℕ) (function : Function) (call : ℕ) (args : List (List Row)) (made : List table.MadeRow)
        → table.Functions known function call args made
        → functions.Functions (world_of known answers) function call (map (map (see_row known calls)) args) (map (see_answer known calls) made) }
{}

/// The law that more trees and further calls change nothing of what a store knows: it is known, stands for the same, and
/// is seen as the same, where each tree that the store had was made by one of the calls before.
pub fn seen_as_before()
    ensures known { (known : StoreModel) (more : List Made) (value : Ref) → is_known_ref known value ≡ true → is_known_ref (grown known more) value ≡ true }
    ensures values { (known : StoreModel) (more : List Made) (value : Ref) → is_known_ref known value ≡ true → stands_for (grown known more) value ≡ stands_for known value }
    ensures references { (known : StoreModel) (more : List Made) (calls : List ℕ) (later : List ℕ) (value : Ref)
        → are_called calls known.made ≡ true → is_known_ref known value ≡ true
        → see_location (grown known more) (calls ++ later) value ≡ see_location known calls value }
    ensures rows { (known : StoreModel) (more : List Made) (calls : List ℕ) (later : List ℕ) (rows : List Row)
        → are_called calls known.made ≡ true → list_all (is_known known) rows ≡ true
        → map (see_row (grown known more) (calls ++ later)) rows ≡ map (see_row known calls) rows }
{}

/// The law of the rows of an answer, where a store keeps its trees at the line of the call, which is the next one: they are
/// known, they are seen as the rows that the call answers, and each tree was made by one of the calls, this one with them.
pub fn seen_answers()
    ensures known { (known : StoreModel) (calls : List ℕ) (call : ℕ) (made : List table.MadeRow) → are_called calls known.made ≡ true → is_known_answer known made ≡ true
        → list_all (is_known (grown known (trees_kept (suc (length calls)) 0 made))) (rows_kept (suc (length calls)) 0 made) ≡ true }
    ensures rows { (known : StoreModel) (calls : List ℕ) (call : ℕ) (made : List table.MadeRow) → are_called calls known.made ≡ true → is_known_answer known made ≡ true
        → map (see_row (grown known (trees_kept (suc (length calls)) 0 made)) (calls ++ call ∷ [])) (rows_kept (suc (length calls)) 0 made)
        ≡ map (locations.answered_row call) (map (see_answer known calls) made) }
    ensures calls { (known : StoreModel) (calls : List ℕ) (call : ℕ) (made : List table.MadeRow) → are_called calls known.made ≡ true
        → are_called (calls ++ call ∷ []) (grown known (trees_kept (suc (length calls)) 0 made)).made ≡ true }
{}
