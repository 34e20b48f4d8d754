//! What a line that says FAIL leads to, by the part of its site.
ghost use Rattle.std.specs.Prelude.{◌≡◌, ◌&&◌, ℕ, Bool, List, Option, Some, true, false, All, map, IfOk, OnOk};
ghost use Rattle.std.specs.List.{flat_map, list_all};
ghost use Rattle.evidence_lines.specs.Lines.{line_of};
ghost use Rattle.guard_syntax.specs.Syntax.{more_steps, no_steps};
ghost use Rattle.guard_syntax.specs.code.Seen.{see_part, see_query, see_step};
ghost use Rattle.guard_syntax.specs.declared.row.Ref.{Ref};
ghost use Rattle.guard_syntax.specs.declared.row.Row.{Row};
ghost use Rattle.guard_syntax.specs.declared.row.Row.TheVariants.{Found};
ghost use Rattle.rule_meaning.specs.Keys.{passes};
ghost use Rattle.rule_meaning.specs.SetTests as asked;
ghost use Rattle.rule_meaning.specs.StoreModel.{StoreModel, is_known};
ghost use Rattle.evidence_lookups.specs.code.Grounds.{known_of, lines_of};
ghost use Rattle.evidence_truth.specs.code.LineFails.{test_entries};
ghost use Rattle.evidence_leads.specs.code.Leads.{Appends, AreGrounded, IsShown, block_leads, call_leads, cite_leads, cites_behind, line_leads, own, part_leads, row_leads, rows_leads, see_lead};

use crate::cited::{behind_conds, current_ref, is_failing, rows_cited, rows_of_line};
use crate::lead::Lead;
use crate::rows::{
    SitedTest, push_each_failed, push_first_missing, push_found, push_missing, push_value,
};
use evidence_lines::{Line, LineList};
use evidence_lookups::line_context::LineContext;
use evidence_lookups::lookup::line_of;
use guard_syntax::{Op, Part, Query, Row, Step, StepForm};
use report_text::Word;
use rule_names::Piece;
use std::alloc::{AllocError, Global};
use value_compare::Matchers;

/// A test by the site of its part: what it asks, and whether it is negated.
#[derive(Clone, Copy)]
struct PartTest {
    part: u32,
    op: Op,
    not: bool,
}

/// What the line of a number leads to, where it says FAIL.
pub fn leads_of(
    alloc: Global,
    context: &LineContext<'_, '_, '_>,
    number: u64,
) -> Result<Vec<Lead>, AllocError>
    ensures leads { IfOk result (λ leads. map (see_lead (known_of context.now)) leads.items
        ≡ line_leads (known_of context.now) (lines_of context.now) (line_of (lines_of context.now) number)) }
    ensures shown { IfOk result (λ leads. All (IsShown (known_of context.now)) leads.items) }
{
    let mut leads = Vec::new(alloc);
    if let Some(line) = line_of(&context.lines, number) {
        push_line(alloc, context, &line, &mut leads)?;
    }
    Ok(leads)
}

/// Appends what a line leads to.
fn push_line(
    alloc: Global,
    context: &LineContext<'_, '_, '_>,
    line: &Line<'_>,
    into: &mut Vec<Lead>,
) -> Result<(), AllocError>
    ensures { OnOk result (Appends (known_of context.now) into.old.items into.new.items
        (line_leads (known_of context.now) (lines_of context.now) (Some line.now))) }
{
    match line.site {
        None => push_cites(&context.lines, line.cites.as_slice(), into),
        Some(site) => match context.find(site) {
            Some(Piece::Part(part)) => push_part(alloc, context, part, line, into),
            _ => push_cites(&context.lines, line.cites.as_slice(), into),
        },
    }
}

/// Appends what the line of a part leads to.
fn push_part(
    alloc: Global,
    context: &LineContext<'_, '_, '_>,
    part: &Part,
    line: &Line<'_>,
    into: &mut Vec<Lead>,
) -> Result<(), AllocError>
    ensures { OnOk result (Appends (known_of context.now) into.old.items into.new.items
        (part_leads (known_of context.now) (lines_of context.now) (see_part part.now) line.now.frame line.now.cites)) }
{
    // A tree has a root, as `len` says.
    let _nodes = context.store.doc.len();
    let lines = &context.lines;
    let cites = line.cites.as_slice();
    match part {
        Part::Block { site, .. } => push_block(alloc, lines, *site, cites, into),
        Part::When { .. } => push_cites(lines, cites, into),
        Part::Kinds { site, cond, .. } => {
            push_block(alloc, lines, *site, behind_conds(cond, cites), into)
        }
        Part::Test {
            site,
            left,
            op,
            not,
            ..
        } => {
            let test = PartTest {
                part: *site,
                op: *op,
                not: *not,
            };
            if is_set_test(*op, left) {
                push_set(alloc, lines, &test, line, into)
            } else {
                push_rows_test(alloc, context, &test, cites, into)
            }
        }
        Part::Refer { site, .. } => {
            let current = current_ref(lines, line.frame);
            push_value(lines, *site, Word::Rule, current, into)
        }
        Part::Call { site, not, .. } => push_call(lines, *site, *not, line, into),
    }
}

/// Appends the entries of a test of each left row.
fn push_rows_test(
    alloc: Global,
    context: &LineContext<'_, '_, '_>,
    test: &PartTest,
    cites: &[u64],
    into: &mut Vec<Lead>,
) -> Result<(), AllocError>
    ensures { (frame : Option ℕ) → OnOk result (Appends (known_of context.now) into.old.items into.new.items
        (own (test_entries (known_of context.now) (lines_of context.now) test.now.part false test.now.not (passes (known_of context.now) test.now.op test.now.not) frame cites.now))) }
{
    let rights = rows_cited(&context.lines, cites, 1).gather(alloc)?;
    let lefts = rows_cited(&context.lines, cites, 0).gather(alloc)?;
    let rows = SitedTest {
        part: test.part,
        op: test.op,
        not: test.not,
        rights: rights.as_slice(),
    };
    let mut matchers = Matchers::new(alloc, context.book);
    push_each_failed(&mut matchers, context, &rows, lefts.as_slice(), into)
}

/// Appends the entries of a test of a whole set: `empty` shows each row that was found, `!empty` the first row at which
/// nothing was found, or the current value where there is none.
fn push_set(
    alloc: Global,
    lines: &LineList<'_>,
    test: &PartTest,
    line: &Line<'_>,
    into: &mut Vec<Lead>,
) -> Result<(), AllocError>
    ensures { (known : StoreModel) → AreGrounded known lines.now → (holds : List Row → Row → Bool) → OnOk result (Appends known into.old.items into.new.items
        (own (test_entries known lines.now test.now.part true test.now.not holds line.now.frame line.now.cites))) }
{
    let cited = rows_cited(lines, line.cites.as_slice(), 0).gather(alloc)?;
    let rows = cited.as_slice();
    if test.not {
        let current = current_ref(lines, line.frame);
        push_first_missing(lines, test.part, current, rows, into)
    } else {
        push_found(lines, test.part, rows, into)
    }
}

/// Appends the entry of a negated call, or what the called body fails by.
fn push_call(
    lines: &LineList<'_>,
    part: u32,
    not: bool,
    line: &Line<'_>,
    into: &mut Vec<Lead>,
) -> Result<(), AllocError>
    ensures { (known : StoreModel) → AreGrounded known lines.now → OnOk result (Appends known into.old.items into.new.items
        (call_leads known lines.now part not line.now.frame line.now.cites)) }
{
    if not {
        let current = current_ref(lines, line.frame);
        push_value(lines, part, Word::Call, current, into)
    } else {
        push_cites(lines, line.cites.as_slice(), into)
    }
}

/// Appends the lines that say FAIL among cites.
fn push_cites(lines: &LineList<'_>, cites: &[u64], into: &mut Vec<Lead>) -> Result<(), AllocError>
    ensures { (known : StoreModel) → OnOk result (Appends known into.old.items into.new.items
        (flat_map (cite_leads known lines.now) cites.now)) }
{
    for cite in cites {
        push_cite(lines, *cite, into)?;
    }
    Ok(())
}

/// Appends a line, where it says FAIL.
fn push_cite(lines: &LineList<'_>, cite: u64, into: &mut Vec<Lead>) -> Result<(), AllocError>
    ensures { (known : StoreModel) → OnOk result (Appends known into.old.items into.new.items
        (cite_leads known lines.now cite)) }
{
    if is_failing(lines, cite) {
        into.push(Lead::Line(cite))?;
    }
    Ok(())
}

/// Appends what a block leads to: the first line that it cites gives its rows, and each one behind is that of the body at one
/// of them.
fn push_block(
    alloc: Global,
    lines: &LineList<'_>,
    part: u32,
    cites: &[u64],
    into: &mut Vec<Lead>,
) -> Result<(), AllocError>
    ensures { (known : StoreModel) → AreGrounded known lines.now → OnOk result (Appends known into.old.items into.new.items
        (block_leads known lines.now part cites.now)) }
{
    match cites {
        [] => Ok(()),
        [head, bodies @ ..] => {
            let rows = rows_of_line(lines, *head).gather(alloc)?;
            push_rows(lines, part, rows.as_slice(), bodies, into)
        }
    }
}

/// Appends what the rows of a block lead to, rows and cites in step: a row at which nothing was found is an entry itself, one
/// that was found takes a cite.
fn push_rows(
    lines: &LineList<'_>,
    part: u32,
    rows: &[Row],
    cites: &[u64],
    into: &mut Vec<Lead>,
) -> Result<(), AllocError>
    ensures { (known : StoreModel) → list_all (is_known known) rows.now ≡ true → OnOk result (Appends known into.old.items into.new.items
        (rows_leads known lines.now part rows.now cites.now)) }
{
    let mut left = cites;
    for row in rows {
        left = push_row(lines, part, row, left, into)?;
    }
    Ok(())
}

/// Appends what a row of a block leads to, and gives the cites behind its own.
fn push_row<'c>(
    lines: &LineList<'_>,
    part: u32,
    row: &Row,
    cites: &'c [u64],
    into: &mut Vec<Lead>,
) -> Result<&'c [u64], AllocError>
    ensures leads { (known : StoreModel) → is_known known row.now ≡ true → OnOk result (Appends known into.old.items into.new.items
        (row_leads known lines.now part row.now cites.entry.now)) }
    ensures left { (known : StoreModel) → IfOk result (λ left. left.now ≡ cites_behind known lines.now row.now cites.entry.now) }
{
    match row {
        Row::Found(_) => push_found_row(lines, cites, into),
        Row::Missing { .. } => {
            push_missing(lines, part, row, into)?;
            Ok(cites)
        }
        Row::Unmade { .. } => {
            push_missing(lines, part, row, into)?;
            Ok(cites)
        }
    }
}

/// Appends the body at a row that was found, where it says FAIL, and gives the cites behind.
fn push_found_row<'c>(
    lines: &LineList<'_>,
    cites: &'c [u64],
    into: &mut Vec<Lead>,
) -> Result<&'c [u64], AllocError>
    ensures leads { (known : StoreModel) (part : ℕ) (v : Ref) → OnOk result (Appends known into.old.items into.new.items
        (row_leads known lines.now part (Found v) cites.entry.now)) }
    ensures left { (known : StoreModel) (v : Ref) → IfOk result (λ left. left.now ≡ cites_behind known lines.now (Found v) cites.entry.now) }
{
    match cites {
        [] => Ok(cites),
        [first, rest @ ..] => {
            push_cite(lines, *first, into)?;
            Ok(rest)
        }
    }
}

/// Whether a test asks if a set is empty.
fn is_set_test(op: Op, left: &Query) -> bool
    ensures { result ≡ (asked.is_empty_test op && asked.is_set (see_query left.now)) }
{
    match op {
        Op::Empty => is_set(left),
        _ => false,
    }
}

/// Whether the rows of a query are a set: it ends in a filter or a key filter, or is a variable alone.
fn is_set(query: &Query) -> bool
    ensures { result ≡ asked.is_set (see_query query.now) }
{
    match query.steps.as_slice() {
        [] => false,
        [step] => is_filtering(step) || is_variable(step),
        [.., last] => is_filtering(last),
    }
}

/// Whether a step is a filter or a key filter.
fn is_filtering(step: &Step) -> bool
    ensures { result ≡ asked.is_filtering (see_step step.now) }
{
    match &step.form {
        StepForm::Filter(_, _) => true,
        StepForm::Keys { .. } => true,
        _ => false,
    }
}

/// Whether a step is a variable.
fn is_variable(step: &Step) -> bool
    ensures { result ≡ asked.is_lone_variable (more_steps (see_step step.now) no_steps) }
{
    match &step.form {
        StepForm::Var(_) => true,
        _ => false,
    }
}
