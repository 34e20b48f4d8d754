//! Tests without a right side. They take no memory.
ghost use Rattle.std.specs.Prelude.{◌≡◌, MatchOption, None, Some};
ghost use Rattle.std.specs.Option.{option_map};
ghost use Rattle.rule_meaning.specs.RowTests.{has_kind, is_empty, passes_found, passes_missing, unary};
ghost use Rattle.value_store.specs.code.Views.{see_view};

use crate::view::View;
use doc_values::Kind;
use guard_syntax::Op;

/// Whether a value, or a missing one, passes a test without a right side.
pub fn unary_test(op: Op, not: bool, value: Option<View<'_, '_>>) -> bool
    ensures { result ≡ unary op not (option_map see_view value.entry) }
{
    match value {
        None => missing_passes(op, not),
        Some(view) => found_passes(op, view) != not,
    }
}

/// Whether a missing value passes: `empty` and `!exists` alone hold there.
fn missing_passes(op: Op, not: bool) -> bool
    ensures { result ≡ passes_missing op not }
{
    match op {
        Op::Exists => not,
        Op::Empty => !not,
        _ => false,
    }
}

/// Whether a value passes a test that is not negated.
fn found_passes(op: Op, value: View<'_, '_>) -> bool
    ensures { result ≡ passes_found op (see_view value.entry) }
{
    match op {
        Op::Exists => true,
        Op::Empty => is_empty(value),
        _ => is_of(op, value.kind()),
    }
}

/// Whether nothing is in a value: no byte in a text, no value in a list or map.
fn is_empty(value: View<'_, '_>) -> bool
    ensures { result ≡ is_empty (see_view value.entry) }
{
    match value {
        View::At(at) => match at.kind() {
            Kind::Text => at.text().is_empty(),
            Kind::List | Kind::Map => at.len() == 0,
            Kind::Null => true,
            _ => false,
        },
        View::Key(text) => text.is_empty(),
    }
}

/// Whether a test of a kind is that of this kind.
fn is_of(op: Op, kind: Kind) -> bool
    ensures { result ≡ has_kind op kind }
{
    match kind {
        Kind::Null => matches!(op, Op::IsNull),
        Kind::Truth(_) => matches!(op, Op::IsBool),
        Kind::Whole(_) => matches!(op, Op::IsInt),
        Kind::Fraction(_) => matches!(op, Op::IsFloat),
        Kind::Text => matches!(op, Op::IsString),
        Kind::List => matches!(op, Op::IsList),
        Kind::Map => matches!(op, Op::IsStruct),
        Kind::Pattern | Kind::Limits(_) => false,
    }
}
