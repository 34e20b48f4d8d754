//! Verdicts by what they are made of: of tests on rows, of disjunctions and conjunctions, of references and calls.
ghost use Rattle.std.specs.Prelude.{◌≡◌, ◌&&◌, true, [], ◌∷◌, IfOk, filter};
ghost use Rattle.std.specs.List.{list_all, list_any};
ghost use Rattle.guard_syntax.specs.code.Seen.{see_part, see_query, see_step};
ghost use Rattle.rule_names.specs.ReferenceGraph.{part_site};
ghost use Rattle.evidence_rules.specs.Follows.{is_stop};
ghost use Rattle.guard_syntax.specs.Syntax.{more_steps, no_steps};
ghost use Rattle.value_store.specs.code.Books.{IsBookOf};
ghost use Rattle.value_store.specs.code.Stores.{see_store};
ghost use Rattle.rule_meaning.specs.StoreModel.{is_known};
ghost use Rattle.rule_meaning.specs.Keys.{passes};
ghost use Rattle.rule_meaning.specs.SetTests as asked;
ghost use Rattle.rule_meaning.specs.Verdicts.{block_verdict, conjunction, disjunction, test_verdict, set_verdict};
ghost use Rattle.rule_meaning.specs.Verdicts as judged;

use guard_syntax::{Op, Part, Query, Row, Step, StepForm, Verdict};
use query_steps::{RowTest, StepContext, row_passes};
use rule_names::siblings::HasSite;
use std::alloc::{AllocError, Global};
use value_compare::{Matchers, Store};

/// The conjunction of two verdicts.
pub fn both(earlier: Verdict, later: Verdict) -> Verdict
    ensures { result ≡ conjunction (earlier ∷ later ∷ []) }
{
    match (earlier, later) {
        (Verdict::Fail, _) | (_, Verdict::Fail) => Verdict::Fail,
        (Verdict::Pass, _) | (_, Verdict::Pass) => Verdict::Pass,
        (Verdict::Skip, Verdict::Skip) => Verdict::Skip,
    }
}

/// The disjunction of two verdicts.
pub fn either(earlier: Verdict, later: Verdict) -> Verdict
    ensures { result ≡ disjunction (earlier ∷ later ∷ []) }
{
    match (earlier, later) {
        (Verdict::Pass, _) | (_, Verdict::Pass) => Verdict::Pass,
        (Verdict::Fail, _) | (_, Verdict::Fail) => Verdict::Fail,
        (Verdict::Skip, Verdict::Skip) => Verdict::Skip,
    }
}

/// The verdict of a block over two rows: the conjunction of two verdicts, with `some` the disjunction.
pub fn joined(any: bool, earlier: Verdict, later: Verdict) -> Verdict
    ensures { result ≡ block_verdict any (earlier ∷ later ∷ []) }
{
    if any {
        either(earlier, later)
    } else {
        both(earlier, later)
    }
}

/// Whether a block needs no further line of its body where this is its verdict so far.
pub fn is_decided(any: bool, verdict: Verdict) -> bool
    ensures { result ≡ (any && judged.is_pass verdict) }
{
    if any { is_pass(verdict) } else { false }
}

/// Whether a verdict is PASS.
pub fn is_pass(verdict: Verdict) -> bool
    ensures { result ≡ judged.is_pass verdict }
{
    match verdict {
        Verdict::Pass => true,
        Verdict::Fail => false,
        Verdict::Skip => false,
    }
}

/// Whether a verdict is FAIL.
pub fn is_fail(verdict: Verdict) -> bool
    ensures { result ≡ judged.is_fail verdict }
{
    match verdict {
        Verdict::Pass => false,
        Verdict::Fail => true,
        Verdict::Skip => false,
    }
}

/// Whether a test asks if a set is empty.
pub fn is_set_test(op: Op, left: &Query) -> bool
    ensures { result ≡ (asked.is_empty_test op && asked.is_set (see_query left.now)) }
{
    match op {
        Op::Empty => is_set(left),
        _ => false,
    }
}

/// The verdict of a test whether a set is empty: it is where no row was found.
pub fn verdict_of_set(not: bool, rows: &[Row]) -> Verdict
    ensures { result ≡ set_verdict not rows.now }
{
    if not {
        pass_if(one_is_found(rows))
    } else {
        pass_if(!one_is_found(rows))
    }
}

/// Whether something was found at one of the rows.
pub fn one_is_found(rows: &[Row]) -> bool
    ensures { result ≡ list_any judged.is_found rows.now }
{
    rows.iter().any(|row| is_found(row))
}

/// The verdict of a test on left rows; with `some` one of them that passes is enough.
pub fn verdict_of_test(
    context: StepContext<'_, '_, '_>,
    any: bool,
    test: RowTest<'_>,
    lefts: &[Row],
) -> Result<Verdict, AllocError>
    requires lefts { list_all (is_known (see_store context.store.now)) lefts.now ≡ true }
    requires rights { list_all (is_known (see_store context.store.now)) test.rights.now ≡ true }
    ensures { IfOk result (λ v. v ≡ test_verdict any (passes (see_store context.entry.store.now) test.entry.op test.entry.not test.entry.rights.now) lefts.now) }
{
    if lefts.is_empty() {
        return Ok(Verdict::Skip);
    }
    let mut matchers = Matchers::new(context.alloc, context.book);
    if any {
        Ok(pass_if(one_passes(&mut matchers, test, lefts, context.store)?))
    } else {
        Ok(pass_if(all_pass(&mut matchers, test, lefts, context.store)?))
    }
}

/// Whether a left row passes a test.
pub fn one_passes(
    matchers: &mut Matchers<'_>,
    test: RowTest<'_>,
    lefts: &[Row],
    store: &Store<'_, '_>,
) -> Result<bool, AllocError>
    requires lefts { list_all (is_known (see_store store.now)) lefts.now ≡ true }
    requires rights { list_all (is_known (see_store store.now)) test.rights.now ≡ true }
    requires book { IsBookOf (see_store store.now).file matchers.old.book.now }
    ensures { IfOk result (λ p. p ≡ list_any (passes (see_store store.now) test.entry.op test.entry.not test.entry.rights.now) lefts.now) }
{
    for left in lefts {
        if row_passes(matchers, test, left, store)? {
            return Ok(true);
        }
    }
    Ok(false)
}

/// Whether each left row passes a test.
pub fn all_pass(
    matchers: &mut Matchers<'_>,
    test: RowTest<'_>,
    lefts: &[Row],
    store: &Store<'_, '_>,
) -> Result<bool, AllocError>
    requires lefts { list_all (is_known (see_store store.now)) lefts.now ≡ true }
    requires rights { list_all (is_known (see_store store.now)) test.rights.now ≡ true }
    requires book { IsBookOf (see_store store.now).file matchers.old.book.now }
    ensures { IfOk result (λ p. p ≡ list_all (passes (see_store store.now) test.entry.op test.entry.not test.entry.rights.now) lefts.now) }
{
    for left in lefts {
        if !row_passes(matchers, test, left, store)? {
            return Ok(false);
        }
    }
    Ok(true)
}

/// PASS where something holds.
pub fn pass_if(holds: bool) -> Verdict
    ensures { result ≡ judged.pass_if holds }
{
    if holds { Verdict::Pass } else { Verdict::Fail }
}

/// The verdict of a reference: PASS where its rule is PASS and else FAIL; with `not` the opposite.
pub fn refer_to(not: bool, rule: Verdict) -> Verdict
    ensures { result ≡ judged.referred not rule }
{
    if not {
        pass_if(!is_pass(rule))
    } else {
        pass_if(is_pass(rule))
    }
}

/// The verdict of a call: that of the called body; with `not` PASS and FAIL are exchanged.
pub fn exchange(not: bool, called: Verdict) -> Verdict
    ensures { result ≡ judged.exchanged not called }
{
    match (not, called) {
        (true, Verdict::Pass) => Verdict::Fail,
        (true, Verdict::Fail) => Verdict::Pass,
        (true, Verdict::Skip) => Verdict::Skip,
        (false, _) => called,
    }
}

/// Whether something was found at a row.
pub fn is_found(row: &Row) -> bool
    ensures { result ≡ judged.is_found row.now }
{
    match row {
        Row::Found(_) => true,
        Row::Missing { .. } => false,
        Row::Unmade { .. } => false,
    }
}

/// Whether the rows of a query are a set: it ends in a filter or a key filter, or is a variable alone.
pub fn is_set(query: &Query) -> bool
    ensures { result ≡ asked.is_set (see_query query.now) }
{
    match query.steps.as_slice() {
        [] => false,
        [step] => is_filtering(step) || is_variable(step),
        [.., last] => is_filtering(last),
    }
}

/// Whether a step is a filter or a key filter.
pub fn is_filtering(step: &Step) -> bool
    ensures { result ≡ asked.is_filtering (see_step step.now) }
{
    match &step.form {
        StepForm::Filter(_, _) => true,
        StepForm::Keys { .. } => true,
        _ => false,
    }
}

/// Whether a step is a variable.
pub fn is_variable(step: &Step) -> bool
    ensures { result ≡ asked.is_lone_variable (more_steps (see_step step.now) no_steps) }
{
    match &step.form {
        StepForm::Var(_) => true,
        _ => false,
    }
}

/// The rows at which something was found.
pub fn found_rows(alloc: Global, rows: &[Row]) -> Result<Vec<Row>, AllocError>
    ensures { IfOk result (λ found. found.items ≡ filter judged.is_found rows.now) }
{
    rows.iter()
        .copied()
        .filter(|row| is_found(row))
        .collect(alloc)
}

/// Whether a verdict is the one that decides, if one does.
pub fn is_stop(stop: Option<Verdict>, verdict: Verdict) -> bool
    ensures { result ≡ is_stop stop verdict }
{
    match stop {
        None => false,
        Some(Verdict::Pass) => is_pass(verdict),
        Some(Verdict::Fail) => is_fail(verdict),
        Some(Verdict::Skip) => is_skip(verdict),
    }
}

/// Whether a verdict is SKIP.
fn is_skip(verdict: Verdict) -> bool
    ensures { result ≡ judged.is_skip verdict }
{
    match verdict {
        Verdict::Pass => false,
        Verdict::Fail => false,
        Verdict::Skip => true,
    }
}

/// The site of a part.
pub fn site_of(part: &Part) -> u32
    ensures { result ≡ part_site (see_part part.now) }
{
    part.site()
}
