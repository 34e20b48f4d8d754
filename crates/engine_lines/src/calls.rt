//! Lines of calls of functions, which make trees known.
ghost use Rattle.std.specs.Prelude.{◌≡◌, ℕ, List, None, IfOk, OnOk, false, map, true};
ghost use Rattle.std.specs.List.{list_all};
ghost use Rattle.evidence_lines.specs.declared.line.LineKind.TheVariants as kind;
ghost use Rattle.evidence_lines.specs.declared.line.Outcome.TheVariants as says;
ghost use Rattle.guard_builtins.specs.code.Seen.{is_plain, see_made, see_rows};
ghost use Rattle.guard_syntax.specs.Syntax.{Exprs};
ghost use Rattle.guard_syntax.specs.declared.row.Row.{Row};
ghost use Rattle.rule_meaning.specs.Seeing.{grown, rows_kept, trees_kept};
ghost use Rattle.rule_meaning.specs.StoreModel.{made_at};
ghost use Rattle.rule_meaning.specs.StoreModel as known;
ghost use Rattle.value_store.specs.code.Stores.{see_store};
ghost use Rattle.engine_states.specs.code.Adding.{Added};
ghost use Rattle.engine_states.specs.code.Answers.{AreGiven, IsAnswerOf, SayRowsOf};
ghost use Rattle.engine_states.specs.code.States.{IsWhole};
ghost use Rattle.engine_lines.specs.code.Lines.{see_lines};

use crate::engine::EngineLines;
use crate::place::Place;
use evidence_lines::{LineKind, Outcome, Rows};
use guard_builtins::{Made, call};
use guard_syntax::{Expr, Function, Origin, Ref, Row};
use rule_names::Piece;
use std::alloc::{AllocError, Global};
use value_compare::Store;

impl<'t, 's> EngineLines<'t, 's> {
    /// Adds the line of the call of a function, by those of its arguments. Its new trees are kept at this line.
    pub fn add_call(&mut self, frame: u64, site: u32, cites: Vec<u64>) -> Result<u64, AllocError>
        requires whole { IsWhole (see_lines self.old) }
        requires given { (es : Exprs) × AreGiven (see_lines self.old) frame site es cites.items }
        requires new { (see_lines self.old).parts frame site ≡ None }
        ensures { IfOk result (λ number. (rows : List Row) × Added (see_lines self.old) (see_lines self.new) frame site kind.Fn cites.items (says.Rows rows) number) }
    {
        let answer = self.answer(frame, site, &cites)?;
        let number = self.evidence.len() + 1;
        let rows = keep(self.alloc, &mut self.store, number, answer)?;
        let line = self.line_in(
            Place { frame, site },
            LineKind::Fn,
            &cites,
            Outcome::Rows(Rows::new(&rows)),
        );
        let number = self.evidence.push(line)?;
        self.parts.set(frame, site, number)?;
        Ok(number)
    }

    /// What the call of a function answers, by the lines of its arguments.
    fn answer(&self, frame: u64, site: u32, cites: &[u64]) -> Result<Vec<Made>, AllocError>
        requires whole { IsWhole (see_lines self.now) }
        requires given { (es : Exprs) × AreGiven (see_lines self.now) frame site es cites.now }
        ensures answer { IfOk result (λ answer. IsAnswerOf (see_lines self.now) frame site cites.now (map see_made answer.items)) }
        ensures plain { IfOk result (λ answer. list_all is_plain answer.items ≡ true) }
    {
        let file = self.file;
        let Some(Piece::Expr(Expr::Function { name, .. })) = file.find(site) else {
            unreachable!()
        };
        let Some(function) = Function::named(name.as_str()) else {
            unreachable!()
        };
        let given = self.rows_of_each(cites)?;
        call(self.alloc, function, site, &given, &self.store, self.book)
    }

    /// The rows that each of some lines says.
    fn rows_of_each(&self, lines: &[u64]) -> Result<Vec<Vec<Row>>, AllocError>
        requires { (given : List (List Row)) × SayRowsOf self.now.evidence.lines lines.now given }
        ensures { IfOk result (λ all. (given : List (List Row)) → SayRowsOf self.now.evidence.lines lines.now given → map see_rows all.items ≡ given) }
    {
        let mut all = Vec::new(self.alloc);
        for line in lines {
            all.push(self.rows_said(*line).to_vec(self.alloc)?)?;
        }
        Ok(all)
    }
}

/// Adds the new trees of an answer at a line that has none, each at its row of the answer, and answers the rows.
fn keep(
    alloc: Global,
    store: &mut Store<'_, '_>,
    line: u64,
    answer: Vec<Made>,
) -> Result<Vec<Row>, AllocError>
    requires free { (row : ℕ) → made_at (see_store store.old).made line row ≡ None }
    requires plain { list_all is_plain answer.items ≡ true }
    ensures rows { IfOk result (λ rows. rows.items ≡ rows_kept line 0 (map see_made answer.items)) }
    ensures trees { OnOk result (see_store store.new ≡ grown (see_store store.old) (trees_kept line 0 (map see_made answer.items))) }
    ensures more { (made : List known.Made) × (see_store store.new ≡ grown (see_store store.old) made) }
    ensures file { store.new.file.now ≡ store.old.file.now }
{
    let mut rows = Vec::new(alloc);
    for made in answer {
        let row = rows.len() as u64;
        let tree = match made {
            Made::Tree(tree) => tree,
            Made::Kept(kept) => {
                rows.push(kept)?;
                continue;
            }
        };
        store.add(line, row, tree)?;
        rows.push(Row::Found(root_at(line, row)))?;
    }
    Ok(rows)
}

/// The root of the tree that a call made, at a line and a row.
fn root_at(line: u64, row: u64) -> Ref
    ensures { result ≡ record { origin = Origin.Made line row; node = 0; key = false } }
{
    Ref {
        origin: Origin::Made { line, row },
        node: 0,
        key: false,
    }
}
