//! Whether values are equal to right ones or members of them, each asked one after another.
ghost use Rattle.std.specs.Prelude.{◌≡◌, true, false, map, IfOk, MatchOption};
ghost use Rattle.std.specs.List.{list_all, list_any};
ghost use Rattle.doc_values.specs.Places.{kids_at};
ghost use Rattle.guard_syntax.specs.declared.syntax.Op.TheVariants.{Within};
ghost use Rattle.value_store.specs.code.BookCovers.{holds_in, covers};
ghost use Rattle.rule_meaning.specs.Pairs.{equal, is_yes, told};
ghost use Rattle.rule_meaning.specs.RowTests.{binary, is_some_right, member};
ghost use Rattle.rule_meaning.specs.Values.{is_list, value_at, values_in};
ghost use Rattle.value_compare.specs.code.Settled.{answer_to, ends, items_settled, settled};
ghost use Rattle.value_store.specs.code.Views.{see_view};

use crate::equal::pair_equal;
use crate::matchers::Matchers;
use doc_values::{Cursor, Kind};
use rule_meaning::PairAnswer;
use std::alloc::AllocError;
use value_store::View;

/// What may be asked of a value and a right one: whether it is equal, or a member.
#[derive(Clone, Copy)]
pub(crate) enum Asked {
    Equal,
    Member,
}

/// Whether a value is in right ones; a list is also in where each of its items is a member. Negated, whether it is outside
/// them; a list is so where neither it nor one of its items is a member.
pub(crate) fn within(
    matchers: &mut Matchers<'_>,
    not: bool,
    left: View<'_, '_>,
    rights: &[View<'_, '_>],
) -> Result<bool, AllocError>
    requires some { is_some_right (map see_view rights.now) ≡ true }
    requires held { list_all (λ r. covers matchers.old.book.now (see_view r)) rights.now ≡ true }
    ensures answer { IfOk result (λ b. b ≡ binary Within not (see_view left.entry) (map see_view rights.entry.now)) }
    ensures kept { matchers.new.book.now ≡ matchers.old.book.now }
{
    let Some(list) = list_of(left) else {
        return settles(matchers, Asked::Member, not, left, rights);
    };
    if settles(matchers, Asked::Member, false, left, rights)? {
        return Ok(!not);
    }
    items_settle(matchers, not, list, rights)
}

/// The list that a value is.
fn list_of<'t, 's>(value: View<'t, 's>) -> Option<Cursor<'t, 's>>
    ensures { MatchOption result (is_list (see_view value.entry).kind ≡ false)
        (λ list. (is_list (see_view value.entry).kind ≡ true) × (see_view value.entry ≡ value_at list.doc.now list.id)) }
{
    match value {
        View::At(at) => match at.kind() {
            Kind::List => Some(at),
            _ => None,
        },
        View::Key(_) => None,
    }
}

/// Whether a value is a member of a right one.
fn member(
    matchers: &mut Matchers<'_>,
    left: View<'_, '_>,
    right: View<'_, '_>,
) -> Result<PairAnswer, AllocError>
    requires { covers matchers.old.book.now (see_view right) ≡ true }
    ensures answer { IfOk result (λ a. a ≡ member (see_view left.entry) (see_view right.entry)) }
    ensures kept { matchers.new.book.now ≡ matchers.old.book.now }
{
    match list_of(right) {
        None => pair_equal(matchers, left, right),
        Some(list) => item_equal(matchers, left, list),
    }
}

/// Whether an item of a list is equal to a value.
fn item_equal(
    matchers: &mut Matchers<'_>,
    left: View<'_, '_>,
    list: Cursor<'_, '_>,
) -> Result<PairAnswer, AllocError>
    requires { holds_in matchers.old.book.now (kids_at list.doc.now list.id) ≡ true }
    ensures answer { IfOk result (λ a. a ≡ told (list_any (λ item. is_yes (equal (see_view left.entry) item)) (values_in (kids_at list.entry.doc.now list.entry.id)))) }
    ensures kept { matchers.new.book.now ≡ matchers.old.book.now }
{
    for i in 0..list.len() {
        let item = View::At(list.child(i));
        match pair_equal(matchers, left, item)? {
            PairAnswer::Yes => return Ok(PairAnswer::Yes),
            PairAnswer::No | PairAnswer::Apart => {}
        }
    }
    Ok(PairAnswer::No)
}

/// What is asked of a value and a right one.
fn answer_to(
    matchers: &mut Matchers<'_>,
    asked: Asked,
    left: View<'_, '_>,
    right: View<'_, '_>,
) -> Result<PairAnswer, AllocError>
    requires { covers matchers.old.book.now (see_view right) ≡ true }
    ensures answer { IfOk result (λ a. a ≡ answer_to asked (see_view left.entry) (see_view right.entry)) }
    ensures kept { matchers.new.book.now ≡ matchers.old.book.now }
{
    match asked {
        Asked::Equal => pair_equal(matchers, left, right),
        Asked::Member => member(matchers, left, right),
    }
}

/// Whether a right value answers yes; negated, whether each answers no.
pub(crate) fn settles(
    matchers: &mut Matchers<'_>,
    asked: Asked,
    not: bool,
    left: View<'_, '_>,
    rights: &[View<'_, '_>],
) -> Result<bool, AllocError>
    requires { list_all (λ r. covers matchers.old.book.now (see_view r)) rights.now ≡ true }
    ensures answer { IfOk result (λ b. b ≡ settled not asked (see_view left.entry) (map see_view rights.entry.now)) }
    ensures kept { matchers.new.book.now ≡ matchers.old.book.now }
{
    for right in rights {
        let answer = answer_to(matchers, asked, left, *right)?;
        if ends(not, answer) {
            return Ok(!not);
        }
    }
    Ok(not)
}

/// Whether no further right value is asked behind this answer.
fn ends(not: bool, answer: PairAnswer) -> bool
    ensures { result ≡ ends not answer }
{
    match answer {
        PairAnswer::Yes => true,
        PairAnswer::No => false,
        PairAnswer::Apart => not,
    }
}

/// Whether each item of a list is a member of a right value; negated, whether none is.
fn items_settle(
    matchers: &mut Matchers<'_>,
    not: bool,
    list: Cursor<'_, '_>,
    rights: &[View<'_, '_>],
) -> Result<bool, AllocError>
    requires { list_all (λ r. covers matchers.old.book.now (see_view r)) rights.now ≡ true }
    ensures answer { IfOk result (λ b. b ≡ items_settled not (map see_view rights.entry.now) (values_in (kids_at list.entry.doc.now list.entry.id))) }
    ensures kept { matchers.new.book.now ≡ matchers.old.book.now }
{
    for i in 0..list.len() {
        let item = View::At(list.child(i));
        if settles(matchers, Asked::Member, false, item, rights)? == not {
            return Ok(false);
        }
    }
    Ok(true)
}
