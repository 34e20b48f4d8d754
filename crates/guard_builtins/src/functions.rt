//! The functions on lists of rows. Those that answer a row for each row of an argument take no memory where it has none.
ghost use Rattle.std.specs.Prelude.{◌≡◌, [], false, true, count_by, IfOk, IfSome, IsOk, Some, map};
ghost use Rattle.std.specs.List.{list_all};
ghost use Rattle.rule_meaning.specs.Functions.{AreRows, IsRow, IsSubstring, counted, is_found, joined, joined_row, single_text, single_whole, texts_in};
ghost use Rattle.value_store.specs.code.Stores.{see_store};
ghost use Rattle.rule_meaning.specs.Values.{has_pattern};
ghost use Rattle.guard_builtins.specs.code.Seen.{changes, is_plain, see_made};

use crate::changing::ValueChange;
use crate::made::{Made, new_or_missing, one_row};
use doc_values::{Doc, Kind};
use guard_syntax::Row;
use std::alloc::{AllocError, Global};
use value_functions::{Change, plain_tree, single_text, single_whole, text_tree, texts_in};
use value_store::Store;

/// `count`: one whole number, how many rows are found.
pub fn count(alloc: Global, rows: &[Row]) -> Result<Vec<Made>, AllocError>
    ensures rows { IfOk result (λ made. map see_made made.items ≡ counted rows.now) }
    ensures plain { IfOk result (λ made. list_all is_plain made.items ≡ true) }
{
    let found = found_count(rows);
    one_row(
        alloc,
        Made::Tree(plain_tree(alloc, Kind::Whole(found as i64))?),
    )
}

/// How many rows are found.
fn found_count(rows: &[Row]) -> usize
    ensures { result ≡ count_by is_found rows.now }
{
    let mut count = 0;
    for row in rows {
        if is_found(row) {
            count += 1;
        }
    }
    count
}

fn is_found(row: &Row) -> bool
    ensures { result ≡ is_found row.now }
{
    matches!(row, Row::Found(_))
}

/// `join`: one text, those of the rows with that of `between` between each two. Each row has to stand for a text, and
/// `between` has to be one row that does.
pub fn join(
    alloc: Global,
    site: u32,
    rows: &[Row],
    between: &[Row],
    store: &Store<'_, '_>,
) -> Result<Vec<Made>, AllocError>
    ensures rows { IfOk result (λ made. map see_made made.items ≡ joined_row (see_store store.now) site rows.now between.now) }
    ensures plain { IfOk result (λ made. list_all is_plain made.items ≡ true) }
{
    let tree = joined(alloc, rows, between, store)?;
    one_row(alloc, new_or_missing(site, tree))
}

/// The tree of the texts of rows with that of `between` between each two.
fn joined(
    alloc: Global,
    rows: &[Row],
    between: &[Row],
    store: &Store<'_, '_>,
) -> Result<Option<Doc<'static>>, AllocError>
    ensures tree { IfOk result (λ tree. tree ≡ joined (texts_in (see_store store.now) rows.now) (single_text (see_store store.now) between.now)) }
    ensures plain { IfOk result (λ tree. IfSome tree (λ t. has_pattern t ≡ false)) }
{
    match single_text(between, store) {
        None => Ok(None),
        Some(between) => joined_by(alloc, rows, between, store),
    }
}

/// The tree of the texts of rows with another text between each two.
fn joined_by(
    alloc: Global,
    rows: &[Row],
    between: &str,
    store: &Store<'_, '_>,
) -> Result<Option<Doc<'static>>, AllocError>
    ensures tree { IfOk result (λ tree. tree ≡ joined (texts_in (see_store store.now) rows.now) (Some between.now)) }
    ensures plain { IfOk result (λ tree. IfSome tree (λ t. has_pattern t ≡ false)) }
{
    let Some(texts) = texts_in(alloc, rows, store)? else {
        return Ok(None);
    };
    let text = texts.join(alloc, between)?;
    Ok(Some(text_tree(alloc, text)?))
}

/// A row of the answer for a row of the first argument: a missing one stays as it is.
fn row_for<C: ValueChange>(
    alloc: Global,
    change: &mut C,
    site: u32,
    row: &Row,
    store: &Store<'_, '_>,
) -> Result<Made, AllocError>
    ensures row { IfOk result (λ made. IsRow (changes (C.changing change.old)) (see_store store.now) site row.now (see_made made)) }
    ensures kept { C.changing change.new ≡ C.changing change.old }
{
    match row {
        Row::Found(value) => match store.view(*value) {
            None => Ok(new_or_missing(site, None)),
            Some(view) => Ok(new_or_missing(site, change.given(alloc, view)?)),
        },
        Row::Missing { .. } | Row::Unmade { .. } => Ok(Made::Kept(*row)),
    }
}

/// A row of the answer for each row of the first argument. Where there is none, no memory is taken.
pub(crate) fn rows_for<C: ValueChange>(
    alloc: Global,
    change: &mut C,
    site: u32,
    rows: &[Row],
    store: &Store<'_, '_>,
) -> Result<Vec<Made>, AllocError>
    ensures rows { IfOk result (λ made. AreRows (changes (C.changing change.old)) (see_store store.now) site rows.now (map see_made made.items)) }
    ensures plain { IfOk result (λ made. list_all is_plain made.items ≡ true) }
    ensures no_memory { rows.now ≡ [] → IsOk result }
{
    let mut made = Vec::new(alloc);
    for row in rows {
        made.push(row_for(alloc, change, site, row, store)?)?;
    }
    Ok(made)
}

/// `substring`: the bytes of a text from one index up to another. Both have to be single whole numbers, in order and
/// within the text, and each where a character begins or the text ends.
pub fn substring(
    alloc: Global,
    site: u32,
    rows: &[Row],
    from: &[Row],
    to: &[Row],
    store: &Store<'_, '_>,
) -> Result<Vec<Made>, AllocError>
    ensures rows { IfOk result (λ made. AreRows (IsSubstring (single_whole (see_store store.now) from.now) (single_whole (see_store store.now) to.now)) (see_store store.now) site rows.now (map see_made made.items)) }
    ensures plain { IfOk result (λ made. list_all is_plain made.items ≡ true) }
    ensures no_memory { rows.now ≡ [] → IsOk result }
{
    let mut change = Change::Substring(single_whole(from, store), single_whole(to, store));
    rows_for(alloc, &mut change, site, rows, store)
}
