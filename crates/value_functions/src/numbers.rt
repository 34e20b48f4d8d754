//! Numbers in texts with a sign of either kind.
ghost use Rattle.std.specs.Prelude.{◌≡◌, ℤ, MatchOption, None, Some, option_map, if◌then◌else◌};
ghost use Rattle.decimals.specs.Decimal.{Decimal};
ghost use Rattle.decimals.specs.declared.decimal.Num.{Num};
ghost use Rattle.decimals.specs.declared.decimal.Num.TheVariants as num;
ghost use Rattle.doc_values.specs.declared.kind.Kind.TheVariants as kind;
ghost use Rattle.rule_meaning.specs.Functions.{begins_with_minus, behind_plus, IsDecimal, IsDecimalBy, IsSigned};

use doc_values::{Decimal, Num, read_number};

fn begins_with_minus(text: &str) -> bool
    ensures { result ≡ begins_with_minus text.now }
{
    match text.as_bytes() {
        [b'-', ..] => true,
        _ => false,
    }
}

/// The text without the plus in front, behind which no minus may stand.
fn behind_plus(text: &str) -> Option<&str>
    ensures { option_map (λ rest. rest.now) result ≡ behind_plus text.now }
{
    match text.strip_prefix('+') {
        None => Some(text),
        Some(rest) => unsigned(rest),
    }
}

/// The text, where no minus stands in front.
fn unsigned(text: &str) -> Option<&str>
    ensures { option_map (λ rest. rest.now) result ≡ (if begins_with_minus text.now then None else Some text.now) }
{
    if begins_with_minus(text) {
        None
    } else {
        Some(text)
    }
}

/// The number of a text that is an optional sign, plus or minus, and a number text without one.
pub(crate) fn read_signed(text: &str) -> Option<Num>
    ensures { MatchOption result ((n : Num) → IsSigned text.now n → ⊥) (λ n. IsSigned text.now n) }
{
    match behind_plus(text) {
        None => None,
        Some(rest) => read_number(rest),
    }
}

/// A number as a decimal; a whole number has to be below 10^18 in size.
pub(crate) fn decimal_of(number: Num) -> Option<Decimal>
    ensures { MatchOption result ((d : Decimal) → IsDecimal number d → ⊥) (λ d. IsDecimal number d) }
{
    match number {
        Num::Whole(n) => Decimal::whole(n),
        Num::Fraction(d) => Some(d),
    }
}

/// The same, where it is a whole number.
pub(crate) fn read_whole(text: &str) -> Option<i64>
    ensures { MatchOption result ((n : ℤ) → IsSigned text.now (num.Whole n) → ⊥) (λ n. IsSigned text.now (num.Whole n)) }
{
    match read_signed(text) {
        None => None,
        Some(number) => match number {
            Num::Whole(n) => Some(n),
            Num::Fraction(_) => None,
        },
    }
}

/// The same as a decimal.
pub(crate) fn read_decimal(text: &str) -> Option<Decimal>
    ensures { MatchOption result ((d : Decimal) → IsDecimalBy kind.Text text.now d → ⊥) (λ d. IsDecimalBy kind.Text text.now d) }
{
    match read_signed(text) {
        None => None,
        Some(number) => decimal_of(number),
    }
}
