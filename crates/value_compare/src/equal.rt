//! Equality of values.
ghost use Rattle.std.specs.Prelude.{◌≡◌, ℕ, Bool, true, false, List, IfOk, IsOk};
ghost use Rattle.doc_values.specs.Places.{label_at, kids_at};
ghost use Rattle.doc_values.specs.Tree.{Nil, has_text, holds_values};
ghost use Rattle.value_store.specs.code.BookCovers.{holds_if, holds_in, covers};
ghost use Rattle.value_compare.specs.code.Meetings.{compares_pattern, may_find_entries, may_find_items};
ghost use Rattle.rule_meaning.specs.Pairs.{equal, equal_by, is_yes, same_items, same_maps, told};
ghost use Rattle.value_compare.specs.code.Entries.{has_equal, may_find_entry};
ghost use Rattle.rule_meaning.specs.Values.{is_pattern, value_at, value_of_key};
ghost use Rattle.value_store.specs.code.Views.{see_view};

use crate::matchers::Matchers;
use doc_values::{Cursor, Decimal, Kind};
use rule_meaning::PairAnswer;
use std::alloc::AllocError;
use value_store::{View, range};

/// Null and a value.
fn pair_null(right: Kind) -> PairAnswer
    ensures { (lists maps : Bool) (lt rt : List ℕ) → equal_by lists maps Kind.Null lt right rt ≡ result }
{
    match right {
        Kind::Null => PairAnswer::Yes,
        _ => PairAnswer::Apart,
    }
}

/// A truth value and a value.
fn pair_truth(left: bool, right: Kind) -> PairAnswer
    ensures { (lists maps : Bool) (lt rt : List ℕ) → equal_by lists maps (Kind.Truth left) lt right rt ≡ result }
{
    match right {
        Kind::Truth(truth) => PairAnswer::told(left == truth),
        _ => PairAnswer::Apart,
    }
}

/// A whole number and a value.
fn pair_whole(left: i64, right: Kind) -> PairAnswer
    ensures { (lists maps : Bool) (lt rt : List ℕ) → equal_by lists maps (Kind.Whole left) lt right rt ≡ result }
{
    match right {
        Kind::Whole(number) => PairAnswer::told(left == number),
        Kind::Limits(limits) => range::pair_whole(limits, left),
        _ => PairAnswer::Apart,
    }
}

/// A decimal and a value.
fn pair_decimal(left: Decimal, right: Kind) -> PairAnswer
    ensures { (lists maps : Bool) (lt rt : List ℕ) → equal_by lists maps (Kind.Fraction left) lt right rt ≡ result }
{
    match right {
        Kind::Fraction(number) => PairAnswer::told(left.compare(&number).is_eq()),
        Kind::Limits(limits) => range::pair_decimal(limits, left),
        _ => PairAnswer::Apart,
    }
}

/// A value that has no text, and in which nothing stands, and a value.
fn pair_leaf(left: Kind, right: Kind) -> PairAnswer
    requires text { has_text left ≡ false }
    requires values { holds_values left ≡ false }
    ensures { (lists maps : Bool) (lt rt : List ℕ) → equal_by lists maps left lt right rt ≡ result }
{
    match left {
        Kind::Null => pair_null(right),
        Kind::Truth(truth) => pair_truth(truth, right),
        Kind::Whole(number) => pair_whole(number, right),
        Kind::Fraction(number) => pair_decimal(number, right),
        _ => PairAnswer::Apart,
    }
}

/// A text and a value.
fn pair_text(
    matchers: &mut Matchers<'_>,
    left: &str,
    right: View<'_, '_>,
) -> Result<PairAnswer, AllocError>
    requires held { covers matchers.old.book.now (see_view right) ≡ true }
    ensures answer { IfOk result (λ a. a ≡ equal (value_of_key left.now) (see_view right.entry)) }
    ensures kept { matchers.new.book.now ≡ matchers.old.book.now }
    ensures no_memory { is_pattern (see_view right.entry).kind ≡ false → IsOk result }
{
    match right.kind() {
        Kind::Text => Ok(PairAnswer::told(left == right.text())),
        Kind::Pattern => match matchers.finds(right.text(), left) {
            Ok(found) => Ok(PairAnswer::told(found)),
            Err(_) => Err(AllocError),
        },
        _ => Ok(PairAnswer::Apart),
    }
}

/// Two values of trees.
#[cycle(equal)]
fn pair_values(
    matchers: &mut Matchers<'_>,
    left: Cursor<'_, '_>,
    right: Cursor<'_, '_>,
) -> Result<PairAnswer, AllocError>
    requires held { covers matchers.old.book.now (value_at right.doc.now right.id) ≡ true }
    ensures answer { IfOk result (λ a. a ≡ equal (value_at left.entry.doc.now left.entry.id) (value_at right.entry.doc.now right.entry.id)) }
    ensures kept { matchers.new.book.now ≡ matchers.old.book.now }
    ensures no_memory { compares_pattern (value_at left.entry.doc.now left.entry.id) (value_at right.entry.doc.now right.entry.id) ≡ false → IsOk result }
{
    match left.kind() {
        Kind::Text => pair_text(matchers, left.text(), View::At(right)),
        Kind::Pattern => Ok(PairAnswer::Apart),
        Kind::List => match right.kind() {
            Kind::List => pair_items(matchers, left, right),
            _ => Ok(PairAnswer::Apart),
        },
        Kind::Map => match right.kind() {
            Kind::Map => pair_entries(matchers, left, right),
            _ => Ok(PairAnswer::Apart),
        },
        kind => Ok(pair_leaf(kind, right.kind())),
    }
}

/// Two lists: they are equal if they have as many items, each equal to the one at its index.
#[cycle(equal)]
fn pair_items(
    matchers: &mut Matchers<'_>,
    left: Cursor<'_, '_>,
    right: Cursor<'_, '_>,
) -> Result<PairAnswer, AllocError>
    requires held { holds_in matchers.old.book.now (kids_at right.doc.now right.id) ≡ true }
    ensures answer { IfOk result (λ a. a ≡ told (same_items (kids_at left.entry.doc.now left.entry.id) (kids_at right.entry.doc.now right.entry.id))) }
    ensures kept { matchers.new.book.now ≡ matchers.old.book.now }
    ensures no_memory { may_find_items (kids_at left.entry.doc.now left.entry.id) (kids_at right.entry.doc.now right.entry.id) ≡ false → IsOk result }
{
    if left.len() != right.len() {
        return Ok(PairAnswer::No);
    }
    for i in 0..left.len() {
        if !pair_values(matchers, left.child(i), right.child(i))?.is_yes() {
            return Ok(PairAnswer::No);
        }
    }
    Ok(PairAnswer::Yes)
}

/// Two maps: they are equal if they have the same keys, and equal values at each.
#[cycle(equal)]
fn pair_entries(
    matchers: &mut Matchers<'_>,
    left: Cursor<'_, '_>,
    right: Cursor<'_, '_>,
) -> Result<PairAnswer, AllocError>
    requires left { (label_at left.doc.now left.id).kind ≡ Kind.Map }
    requires right { (label_at right.doc.now right.id).kind ≡ Kind.Map }
    requires held { holds_in matchers.old.book.now (kids_at right.doc.now right.id) ≡ true }
    ensures answer { IfOk result (λ a. a ≡ told (same_maps (kids_at left.entry.doc.now left.entry.id) (kids_at right.entry.doc.now right.entry.id))) }
    ensures kept { matchers.new.book.now ≡ matchers.old.book.now }
    ensures no_memory { may_find_entries (kids_at left.entry.doc.now left.entry.id) (kids_at right.entry.doc.now right.entry.id) ≡ false → IsOk result }
{
    // Keys of a map are distinct, as `len` says of each tree: so where there are as many entries, one direction is enough.
    let _nodes = (left.doc.len(), right.doc.len());
    if left.len() != right.len() {
        return Ok(PairAnswer::No);
    }
    for i in 0..left.len() {
        if !pair_entry(matchers, left.child(i), right)?.is_yes() {
            return Ok(PairAnswer::No);
        }
    }
    Ok(PairAnswer::Yes)
}

/// An entry of a map and another map: `Yes` if that has an entry of the key, equal to it.
#[cycle(equal)]
fn pair_entry(
    matchers: &mut Matchers<'_>,
    entry: Cursor<'_, '_>,
    right: Cursor<'_, '_>,
) -> Result<PairAnswer, AllocError>
    requires held { holds_in matchers.old.book.now (kids_at right.doc.now right.id) ≡ true }
    ensures answer { IfOk result (λ a. is_yes a ≡ has_equal (label_at entry.entry.doc.now entry.entry.id).key (value_at entry.entry.doc.now entry.entry.id) (kids_at right.entry.doc.now right.entry.id)) }
    ensures kept { matchers.new.book.now ≡ matchers.old.book.now }
    ensures no_memory { may_find_entry (label_at entry.entry.doc.now entry.entry.id).key (value_at entry.entry.doc.now entry.entry.id) (kids_at right.entry.doc.now right.entry.id) ≡ false → IsOk result }
{
    let Some(key) = entry.key() else {
        return Ok(PairAnswer::No);
    };
    match right.get(key) {
        Some(other) => pair_values(matchers, entry, other),
        None => Ok(PairAnswer::No),
    }
}

/// A value of a tree and a key.
fn pair_key(left: Cursor<'_, '_>, key: &str) -> PairAnswer
    ensures { result ≡ equal (value_at left.entry.doc.now left.entry.id) (value_of_key key.now) }
{
    match left.kind() {
        Kind::Text => PairAnswer::told(left.text() == key),
        _ => PairAnswer::Apart,
    }
}

/// Whether two values are equal.
pub(crate) fn pair_equal(
    matchers: &mut Matchers<'_>,
    left: View<'_, '_>,
    right: View<'_, '_>,
) -> Result<PairAnswer, AllocError>
    requires held { covers matchers.old.book.now (see_view right) ≡ true }
    ensures answer { IfOk result (λ a. a ≡ equal (see_view left.entry) (see_view right.entry)) }
    ensures kept { matchers.new.book.now ≡ matchers.old.book.now }
    ensures no_memory { compares_pattern (see_view left.entry) (see_view right.entry) ≡ false → IsOk result }
{
    match left {
        View::Key(text) => pair_text(matchers, text, right),
        View::At(left) => match right {
            View::Key(key) => Ok(pair_key(left, key)),
            View::At(right) => pair_values(matchers, left, right),
        },
    }
}
