//! Kinds of values.
use decimals::{Decimal, Range};

/// What a value is. The bytes of a text or pattern and the values of a list or map stand beside its kind. Patterns and
/// ranges stand in the literals of rules alone.
#[derive(Clone, Copy)]
pub enum Kind {
    Null,
    Truth(bool),
    Whole(i64),
    Fraction(Decimal),
    Text,
    List,
    Map,
    Pattern,
    Limits(Range),
}
