//! What goes over the lines of an evaluation: its evidence and its store, with the tables that look-ups of lines go by.
ghost use Rattle.std.specs.Prelude.{◌≡◌, IfOk};
ghost use Rattle.evidence_lines.specs.declared.version.Version.TheVariants.{Two};
ghost use Rattle.value_store.specs.code.Books.{IsBookOf};
ghost use Rattle.value_store.specs.code.Stores.{see_store};
ghost use Rattle.evidence_lookups.specs.code.Grounds.{known_of, lines_of};
ghost use Rattle.evidence_lookups.specs.code.JudgedSites.{AreJudged};
ghost use Rattle.evidence_lookups.specs.code.Tables.{AreTablesOf};
ghost use Rattle.rule_calls.specs.code.Ends.{AreOfEngine};

use crate::evaluation::Evaluation;
use evidence_lookups::judged::{Judged, is_rule_line};
use evidence_lookups::line_context::LineContext;
use evidence_lookups::tables::FileTables;
use std::alloc::{AllocError, Global};
use value_compare::PatternBook;

/// The verdicts that the `rule` lines of an evaluation say, by their sites.
pub fn judged_lines(alloc: Global, evaluation: &Evaluation<'_, '_>) -> Result<Judged, AllocError>
    requires { AreOfEngine (see_store evaluation.now.store) evaluation.now.evidence.lines }
    ensures { IfOk result (λ judged. AreJudged evaluation.now.evidence.lines judged.of.items) }
{
    let file = evaluation.store.file;
    let sites = file.raw().places.as_slice().len();
    let mut judged = Judged::new(alloc, sites)?;
    for before in 0..evaluation.evidence.len() {
        if !is_rule_line(&evaluation.evidence.lines(), before + 1) {
            continue;
        }
        let Some(line) = evaluation.evidence.get(before + 1) else {
            // Each of these numbers has its line.
            unreachable!()
        };
        judged.note(&line);
    }
    Ok(judged)
}

/// The lines of an evaluation, over its store and the patterns, with the tables of its file and the verdicts of its `rule`
/// lines. It takes no memory.
pub fn line_context<'g, 't, 's>(
    alloc: Global,
    evaluation: &'g Evaluation<'t, 's>,
    book: &'g PatternBook,
    tables: &'g FileTables<'t>,
    judged: &'g Judged,
) -> LineContext<'g, 't, 's>
    requires whole { AreOfEngine (see_store evaluation.now.store) evaluation.now.evidence.lines }
    requires book { IsBookOf (see_store evaluation.now.store).file book.now }
    requires tables { AreTablesOf evaluation.now.store.file.now tables.now }
    requires judged { AreJudged evaluation.now.evidence.lines judged.now.of.items }
    ensures version { result.version ≡ Two }
    ensures known { known_of result ≡ see_store evaluation.entry.now.store }
    ensures lines { lines_of result ≡ evaluation.entry.now.evidence.lines }
{
    LineContext {
        alloc,
        version: evaluation.evidence.version(),
        file: evaluation.store.file,
        store: &evaluation.store,
        book,
        tables,
        judged,
        lines: evaluation.evidence.lines(),
    }
}
