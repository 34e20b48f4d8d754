//! Order of values: of two whole numbers, two decimals and two texts.
ghost use Rattle.std.specs.Prelude.{◌≡◌};
ghost use Rattle.std.specs.Option.{option_map_or};
ghost use Rattle.guard_syntax.specs.declared.syntax.Op.{Op};
ghost use Rattle.rule_meaning.specs.Pairs.{told, covers, ordered};
ghost use Rattle.value_store.specs.code.Views.{see_view};

use crate::view::View;
use doc_values::Kind;
use guard_syntax::Op;
use rule_meaning::PairAnswer;
use std::cmp::Ordering;

/// Whether an order is the one that an operator asks for.
fn holds(op: Op, order: Ordering) -> bool
    ensures { result ≡ covers op order }
{
    match op {
        Op::Lt => order.is_lt(),
        Op::Le => order.is_le(),
        Op::Gt => order.is_gt(),
        Op::Ge => order.is_ge(),
        _ => false,
    }
}

/// The order of two values, texts by their bytes; None where they have none.
fn order_of(left: View<'_, '_>, right: View<'_, '_>) -> Option<Ordering>
    ensures { (op : Op) → ordered op (see_view left.entry) (see_view right.entry) ≡ option_map_or (λ order. told (covers op order)) result PairAnswer.Apart }
{
    match left.kind() {
        Kind::Whole(a) => match right.kind() {
            Kind::Whole(b) => Some(a.cmp(&b)),
            _ => None,
        },
        Kind::Fraction(a) => match right.kind() {
            Kind::Fraction(b) => Some(a.compare(&b)),
            _ => None,
        },
        Kind::Text => match right.kind() {
            Kind::Text => Some(left.text().cmp(right.text())),
            _ => None,
        },
        _ => None,
    }
}

/// What an order operator says of two values.
pub fn pair_order(op: Op, left: View<'_, '_>, right: View<'_, '_>) -> PairAnswer
    ensures { result ≡ ordered op (see_view left.entry) (see_view right.entry) }
{
    match order_of(left, right) {
        Some(order) => PairAnswer::told(holds(op, order)),
        None => PairAnswer::Apart,
    }
}
