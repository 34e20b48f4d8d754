//! Tests on one row.
ghost use Rattle.std.specs.Prelude.{◌≡◌, ℕ, List, [], IfSome, None, Some, true, false, map, IfOk, IsOk, MatchOption};
ghost use Rattle.std.specs.List.{list_all};
ghost use Rattle.std.specs.Option.{option_map_or};
ghost use Rattle.guard_syntax.specs.code.Seen.{see_file};
ghost use Rattle.value_store.specs.code.Books.{IsBookOf};
ghost use Rattle.value_store.specs.code.BookCovers.{covers};
ghost use Rattle.rule_meaning.specs.StoreModel.{meant, is_known};
ghost use Rattle.rule_meaning.specs.Pairs.{is_order, is_yes, ordered};
ghost use Rattle.rule_meaning.specs.RowTests.{binary, found_of, is_binary, is_some_right, row_test_of};
ghost use Rattle.value_store.specs.code.Stores.{see_store};
ghost use Rattle.value_store.specs.code.Views.{see_view};

use crate::matchers::Matchers;
use crate::members::{Asked, settles, within};
use guard_syntax::{Op, Row};
use std::alloc::{AllocError, Global};
use value_store::order::pair_order;
use value_store::unary::unary_test;
use value_store::{Store, View};

/// Whether a left row passes a test against the right rows; a unary test has none. The store knows each row, and the book
/// of the matchers was made of the store's rule file. Memory is taken only to compare a value by `==` or `IN` with right
/// values that are there.
pub fn row_test(
    matchers: &mut Matchers<'_>,
    op: Op,
    not: bool,
    left: &Row,
    right: &[Row],
    store: &Store<'_, '_>,
) -> Result<bool, AllocError>
    requires order { is_order op ≡ true → not ≡ false }
    requires left { is_known (see_store store.now) left.now ≡ true }
    requires right { list_all (is_known (see_store store.now)) right.now ≡ true }
    requires book { IsBookOf (see_file store.now.file.now.raw) matchers.old.book.now }
    ensures answer { IfOk result (λ passes. passes ≡ row_test_of op not (meant (see_store store.now) left.now) (map (meant (see_store store.now)) right.now)) }
    ensures kept { matchers.new.book.now ≡ matchers.old.book.now }
    ensures no_memory_unary { is_binary op ≡ false → IsOk result }
    ensures no_memory_order { is_order op ≡ true → IsOk result }
    ensures no_memory_left { meant (see_store store.now) left.now ≡ None → IsOk result }
    ensures no_memory_right { found_of (map (meant (see_store store.now)) right.now) ≡ [] → IsOk result }
{
    let left = found(left, store);
    if !has_right(op) {
        return Ok(unary_test(op, not, left));
    }
    let Some(left) = left else {
        return Ok(false);
    };
    if !has_found(right, store) {
        return Ok(false);
    }
    if is_order(op) {
        return Ok(stands_to_each(op, left, right, store));
    }
    match found_rows(matchers.alloc, right, store) {
        Ok(rights) => binary_test(matchers, op, not, left, &rights),
        Err(_) => Err(AllocError),
    }
}

/// Whether a test asks for an order.
fn is_order(op: Op) -> bool
    ensures { result ≡ is_order op }
{
    matches!(op, Op::Lt | Op::Le | Op::Gt | Op::Ge)
}

/// Whether a test has a right side.
fn has_right(op: Op) -> bool
    ensures { result ≡ is_binary op }
{
    match op {
        Op::Eq | Op::Lt | Op::Le | Op::Gt | Op::Ge | Op::Within => true,
        _ => false,
    }
}

/// The value that a row has found.
fn found<'v, 's>(row: &Row, store: &'v Store<'_, 's>) -> Option<View<'v, 's>>
    ensures value { MatchOption result (meant (see_store store.entry.now) row.now ≡ None) (λ seen. meant (see_store store.entry.now) row.now ≡ Some (see_view seen)) }
    ensures held { (book : List (List ℕ)) → IsBookOf (see_file store.entry.now.file.now.raw) book → IfSome result (λ seen. covers book (see_view seen) ≡ true) }
{
    match row {
        Row::Found(value) => store.view(*value),
        Row::Missing { .. } | Row::Unmade { .. } => None,
    }
}

/// Whether one of the rows has found a value.
fn has_found(rows: &[Row], store: &Store<'_, '_>) -> bool
    ensures { result ≡ is_some_right (found_of (map (meant (see_store store.now)) rows.now)) }
{
    for row in rows {
        if let Some(_) = found(row, store) {
            return true;
        }
    }
    false
}

/// The values that rows have found; missing ones are passed over.
fn found_rows<'v, 's>(
    alloc: Global,
    rows: &[Row],
    store: &'v Store<'_, 's>,
) -> Result<Vec<View<'v, 's>>, AllocError>
    ensures values { IfOk result (λ views. map see_view views.items ≡ found_of (map (meant (see_store store.entry.now)) rows.now)) }
    ensures held { (book : List (List ℕ)) → IsBookOf (see_file store.entry.now.file.now.raw) book → IfOk result (λ views. list_all (λ r. covers book (see_view r)) views.items ≡ true) }
{
    let mut views = Vec::new(alloc);
    for row in rows {
        if let Some(view) = found(row, store) {
            views.push(view)?;
        }
    }
    Ok(views)
}

/// Whether a value passes a test against right ones that asks for no order.
fn binary_test(
    matchers: &mut Matchers<'_>,
    op: Op,
    not: bool,
    left: View<'_, '_>,
    rights: &[View<'_, '_>],
) -> Result<bool, AllocError>
    requires op { is_binary op ≡ true }
    requires order { is_order op ≡ false }
    requires some { is_some_right (map see_view rights.now) ≡ true }
    requires held { list_all (λ r. covers matchers.old.book.now (see_view r)) rights.now ≡ true }
    ensures answer { IfOk result (λ passes. passes ≡ binary op not (see_view left.entry) (map see_view rights.entry.now)) }
    ensures kept { matchers.new.book.now ≡ matchers.old.book.now }
{
    match op {
        Op::Eq => settles(matchers, Asked::Equal, not, left, rights),
        Op::Within => within(matchers, not, left, rights),
        _ => unreachable!(),
    }
}

/// `<`, `<=`, `>`, `>=`: the order holds with each right value, of which there is one. It takes no memory.
fn stands_to_each(op: Op, left: View<'_, '_>, rights: &[Row], store: &Store<'_, '_>) -> bool
    requires order { is_order op ≡ true }
    requires some { is_some_right (found_of (map (meant (see_store store.now)) rights.now)) ≡ true }
    ensures { result ≡ binary op false (see_view left.entry) (found_of (map (meant (see_store store.now)) rights.now)) }
{
    for row in rights {
        if !stands_to(op, left, row, store) {
            return false;
        }
    }
    true
}

/// Whether the order holds with the value that a row has found; where it has found none, nothing is asked.
fn stands_to(op: Op, left: View<'_, '_>, row: &Row, store: &Store<'_, '_>) -> bool
    ensures { result ≡ option_map_or (λ r. is_yes (ordered op (see_view left.entry) r)) (meant (see_store store.now) row.now) true }
{
    match found(row, store) {
        None => true,
        Some(right) => pair_order(op, left, right).is_yes(),
    }
}
