//! The entries of rows: what a test, a test of whole sets and a block show of the rows that they fail by.
ghost use Rattle.std.specs.Prelude.{◌≡◌, [], ◌∷◌, map, true, OnOk};
ghost use Rattle.std.specs.List.{flat_map, list_all};
ghost use Rattle.rule_meaning.specs.Fails as fails;
ghost use Rattle.rule_meaning.specs.Keys.{passes};
ghost use Rattle.rule_meaning.specs.StoreModel.{StoreModel, is_known, is_known_ref};
ghost use Rattle.report_text.specs.code.SeenEntries.{see_word};
ghost use Rattle.evidence_lookups.specs.code.Grounds.{known_of, lines_of};
ghost use Rattle.evidence_rules.specs.code.Judgement.{location_said};
ghost use Rattle.evidence_truth.specs.code.LineFails.{failed_row, see};
ghost use Rattle.evidence_leads.specs.code.Leads.{Appends, ToEntry, own};

use crate::lead::Lead;
use crate::shown::shown;
use evidence_lines::LineList;
use evidence_lookups::line_context::LineContext;
use guard_syntax::{Op, Ref, Row};
use query_steps::{RowTest, row_passes};
use report_text::{Entry, Shown, Word};
use std::alloc::AllocError;
use value_compare::Matchers;

/// A test of rows against right rows, by the site of its part.
#[derive(Clone, Copy)]
pub(crate) struct SitedTest<'r> {
    pub part: u32,
    pub op: Op,
    pub not: bool,
    pub rights: &'r [Row],
}

/// Appends an entry that shows a value.
pub(crate) fn push_value(
    lines: &LineList<'_>,
    part: u32,
    word: Word,
    value: Ref,
    into: &mut Vec<Lead>,
) -> Result<(), AllocError>
    ensures { (known : StoreModel) → is_known_ref known value ≡ true → OnOk result (Appends known into.old.items into.new.items
        (ToEntry (fails.entry part (see_word word) (location_said known lines.now value)) ∷ [])) }
{
    into.push(Lead::Entry(Entry {
        shown: shown(lines, value),
        word,
        part,
    }))?;
    Ok(())
}

/// Appends the entry of a call that did not apply.
fn push_unmade(part: u32, call: u32, into: &mut Vec<Lead>) -> Result<(), AllocError>
    ensures { (known : StoreModel) → OnOk result (Appends known into.old.items into.new.items
        (ToEntry (record { shown = fails.OfCall call; word = fails.IsMissing; part = part }) ∷ [])) }
{
    into.push(Lead::Entry(Entry {
        shown: Shown::Unmade(call),
        word: Word::Missing,
        part,
    }))?;
    Ok(())
}

/// Appends the entry of a row at which nothing was found; there is none of a row that was found.
pub(crate) fn push_missing(
    lines: &LineList<'_>,
    part: u32,
    row: &Row,
    into: &mut Vec<Lead>,
) -> Result<(), AllocError>
    ensures { (known : StoreModel) → is_known known row.now ≡ true → OnOk result (Appends known into.old.items into.new.items
        (own (fails.missing_row part (see known lines.now row.now)))) }
{
    match row {
        Row::Found(_) => Ok(()),
        Row::Missing { value, .. } => push_value(lines, part, Word::Missing, *value, into),
        Row::Unmade { call } => push_unmade(part, *call, into),
    }
}

/// Appends the entry of a row that a test failed.
fn push_tested(
    lines: &LineList<'_>,
    part: u32,
    row: &Row,
    into: &mut Vec<Lead>,
) -> Result<(), AllocError>
    ensures { (known : StoreModel) → is_known known row.now ≡ true → OnOk result (Appends known into.old.items into.new.items
        (own (fails.tested_row part (see known lines.now row.now)))) }
{
    match row {
        Row::Found(value) => push_value(lines, part, Word::Value, *value, into),
        Row::Missing { value, .. } => push_value(lines, part, Word::Missing, *value, into),
        Row::Unmade { call } => push_unmade(part, *call, into),
    }
}

/// Appends the entries of the left rows that do not pass a test, with what finds patterns.
pub(crate) fn push_each_failed(
    matchers: &mut Matchers<'_>,
    context: &LineContext<'_, '_, '_>,
    test: &SitedTest<'_>,
    lefts: &[Row],
    into: &mut Vec<Lead>,
) -> Result<(), AllocError>
    requires book { matchers.old.book.now ≡ context.now.book.now }
    requires lefts { list_all (is_known (known_of context.now)) lefts.now ≡ true }
    requires rights { list_all (is_known (known_of context.now)) test.now.rights.now ≡ true }
    ensures { OnOk result (Appends (known_of context.now) into.old.items into.new.items
        (own (flat_map (failed_row (known_of context.now) (lines_of context.now) test.now.part (passes (known_of context.now) test.now.op test.now.not test.now.rights.now)) lefts.now))) }
{
    let asked = RowTest {
        op: test.op,
        not: test.not,
        rights: test.rights,
    };
    for left in lefts {
        if row_passes(matchers, asked, left, context.store)? {
            continue;
        }
        push_tested(&context.lines, test.part, left, into)?;
    }
    Ok(())
}

/// Appends the entry of a row that was found; there is none of another.
fn push_found_row(
    lines: &LineList<'_>,
    part: u32,
    row: &Row,
    into: &mut Vec<Lead>,
) -> Result<(), AllocError>
    ensures { (known : StoreModel) → is_known known row.now ≡ true → OnOk result (Appends known into.old.items into.new.items
        (own (fails.found_row part (see known lines.now row.now)))) }
{
    match row {
        Row::Found(value) => push_value(lines, part, Word::Rows, *value, into),
        Row::Missing { .. } => Ok(()),
        Row::Unmade { .. } => Ok(()),
    }
}

/// Appends an entry for each row that was found.
pub(crate) fn push_found(
    lines: &LineList<'_>,
    part: u32,
    rows: &[Row],
    into: &mut Vec<Lead>,
) -> Result<(), AllocError>
    ensures { (known : StoreModel) → list_all (is_known known) rows.now ≡ true → OnOk result (Appends known into.old.items into.new.items
        (own (flat_map (fails.found_row part) (map (see known lines.now) rows.now)))) }
{
    for row in rows {
        push_found_row(lines, part, row, into)?;
    }
    Ok(())
}

/// Appends the entry of the first row at which nothing was found, or else one that shows the current value.
pub(crate) fn push_first_missing(
    lines: &LineList<'_>,
    part: u32,
    current: Ref,
    rows: &[Row],
    into: &mut Vec<Lead>,
) -> Result<(), AllocError>
    ensures { (known : StoreModel) → is_known_ref known current ≡ true → list_all (is_known known) rows.now ≡ true → OnOk result (Appends known into.old.items into.new.items
        (own (fails.first_or (fails.entry part fails.IsRows (location_said known lines.now current))
        (flat_map (fails.missing_row part) (map (see known lines.now) rows.now))))) }
{
    for row in rows {
        match row {
            Row::Found(_) => {}
            Row::Missing { .. } => return push_missing(lines, part, row, into),
            Row::Unmade { .. } => return push_missing(lines, part, row, into),
        }
    }
    push_value(lines, part, Word::Rows, current, into)
}
