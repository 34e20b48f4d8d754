//! Tests of rows, the keys that a key filter tests and those that a capture binds.
ghost use Rattle.std.specs.Prelude.{◌≡◌, ◌++◌, [], List, Option, None, true, false, map, IfOk, IsOk, OnOk};
ghost use Rattle.std.specs.List.{flat_map, list_all};
ghost use Rattle.value_store.specs.code.Books.{IsBookOf};
ghost use Rattle.rule_meaning.specs.StoreModel.{is_known, meant};
ghost use Rattle.rule_meaning.specs.Pairs.{is_order};
ghost use Rattle.rule_meaning.specs.RowTests.{found_of, is_binary, row_test_of};
ghost use Rattle.value_store.specs.code.Stores.{see_store};
ghost use Rattle.rule_meaning.specs.Values.{Value};
ghost use Rattle.rule_meaning.specs.Keys.{captured_row, passes};

use crate::reached::key_of;
use crate::steps::push_one;
use guard_syntax::{Op, Row};
use std::alloc::{AllocError, Global};
use value_compare::{Matchers, Store, row_test};

/// What is asked of a left row: an operator, whether it is negated, and the right rows, of which a unary operator has none.
/// An order operator has one meaning, negated or not: no rule file spells its negation.
#[derive(Clone, Copy)]
pub struct RowTest<'r> {
    pub op: Op,
    pub not: bool,
    pub rights: &'r [Row],
}

/// Whether a left row passes a test. Memory is taken only to compare a value by `==` or `IN` with right values that are
/// there.
pub fn row_passes(
    matchers: &mut Matchers<'_>,
    test: RowTest<'_>,
    left: &Row,
    store: &Store<'_, '_>,
) -> Result<bool, AllocError>
    requires left { is_known (see_store store.now) left.now ≡ true }
    requires rights { list_all (is_known (see_store store.now)) test.rights.now ≡ true }
    requires book { IsBookOf (see_store store.now).file matchers.old.book.now }
    ensures answer { IfOk result (λ p. p
        ≡ passes (see_store store.now) test.entry.op test.entry.not test.entry.rights.now left.now) }
    ensures kept { matchers.new.book.now ≡ matchers.old.book.now }
    ensures no_memory_unary { is_binary test.entry.op ≡ false → IsOk result }
    ensures no_memory_order { is_order test.entry.op ≡ true → IsOk result }
    ensures no_memory_left { meant (see_store store.now) left.now ≡ None → IsOk result }
    ensures no_memory_right { found_of (map (meant (see_store store.now)) test.entry.rights.now) ≡ [] → IsOk result }
{
    let not = is_negated(test.op, test.not);
    row_test(matchers, test.op, not, left, test.rights, store)
}

/// Whether a test is negated. An order operator never is: the tables of tests have one answer for both.
fn is_negated(op: Op, not: bool) -> bool
    ensures order { is_order op ≡ true → result ≡ false }
    ensures same { (left : Option Value) (right : List (Option Value))
        → row_test_of op result left right ≡ row_test_of op not left right }
{
    match op {
        Op::Lt | Op::Le | Op::Gt | Op::Ge => false,
        _ => not,
    }
}

/// The keys that a capture binds: those of the found rows that are entries of a map, in order. A row that is itself a key
/// gives none. Where no row has a key, no memory is taken.
pub fn captured(alloc: Global, rows: &[Row], store: &Store<'_, '_>) -> Result<Vec<Row>, AllocError>
    requires known { list_all (is_known (see_store store.now)) rows.now ≡ true }
    ensures rows { IfOk result (λ keys. keys.items ≡ flat_map (captured_row (see_store store.now)) rows.now) }
    ensures known { IfOk result (λ keys. list_all (is_known (see_store store.now)) keys.items ≡ true) }
    ensures no_memory { flat_map (captured_row (see_store store.now)) rows.now ≡ [] → IsOk result }
{
    let mut keys = Vec::new(alloc);
    for row in rows {
        push_captured(row, store, &mut keys)?;
    }
    Ok(keys)
}

/// Adds the key of a row, where a capture binds one.
fn push_captured(row: &Row, store: &Store<'_, '_>, keys: &mut Vec<Row>) -> Result<(), AllocError>
    ensures keys { OnOk result (keys.new.items ≡ keys.old.items ++ captured_row (see_store store.now) row.now) }
    ensures no_memory { captured_row (see_store store.now) row.now ≡ [] → IsOk result }
{
    let value = match row {
        Row::Found(value) if !value.key => *value,
        _ => return Ok(()),
    };
    let key = key_of(value);
    match store.view(key) {
        None => Ok(()),
        Some(_) => push_one(Row::Found(key), keys),
    }
}
