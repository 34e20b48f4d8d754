//! Numbers in ranges.
ghost use Rattle.std.specs.Prelude.{◌≡◌};
ghost use Rattle.rule_meaning.specs.Pairs.{is_past, whole_in, decimal_in};

use doc_values::{Decimal, Num, Range};
use rule_meaning::PairAnswer;
use std::cmp::Ordering;

/// Whether a number lies on the inner side of an end of a range. The order is that of the lower of the two to the higher,
/// as it should be.
fn is_inside(end_is_in: bool, order: Ordering) -> bool
    ensures { result ≡ is_past end_is_in order }
{
    if end_is_in {
        order.is_le()
    } else {
        order.is_lt()
    }
}

/// A whole number and a range. Ranges of decimals hold none.
pub fn pair_whole(range: Range, number: i64) -> PairAnswer
    ensures { result ≡ whole_in range range.low range.high number }
{
    match range.low {
        Num::Whole(low) => match range.high {
            Num::Whole(high) => PairAnswer::told(
                is_inside(range.low_in, low.cmp(&number))
                    && is_inside(range.high_in, number.cmp(&high)),
            ),
            Num::Fraction(_) => PairAnswer::Apart,
        },
        Num::Fraction(_) => PairAnswer::Apart,
    }
}

/// A decimal and a range. Ranges of whole numbers hold none.
pub fn pair_decimal(range: Range, number: Decimal) -> PairAnswer
    ensures { result ≡ decimal_in range range.low range.high number }
{
    let low = range.low;
    let high = range.high;
    match low {
        Num::Fraction(low) => match high {
            Num::Fraction(high) => PairAnswer::told(
                is_inside(range.low_in, low.compare(&number))
                    && is_inside(range.high_in, number.compare(&high)),
            ),
            Num::Whole(_) => PairAnswer::Apart,
        },
        Num::Whole(_) => PairAnswer::Apart,
    }
}
