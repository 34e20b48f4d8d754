//! Numbers: whole numbers, decimals, and ranges of them.
ghost use Rattle.std.specs.Prelude.{◌≡◌, ℕ, ◌^◌, ◌<◌, ◌≤◌, Option, SomeIff, unsigned_abs};
ghost use Rattle.decimals.specs.Decimal.{order, IsNormal};

use std::cmp::Ordering;
use std::marker::Model;

/// The number units / 10^scale, in its one form: the units have no zero at their end but where the scale is 0. They are
/// below 10^18 in size, and the scale is at most 18.
#[derive(Clone, Copy, Debug, PartialEq, Eq)]
pub struct Decimal {
    units: i64,
    scale: u8,
}

impl Model for Decimal {
    ghost use Rattle.decimals.specs.Decimal.{Decimal, IsNormal};
    ghost use Rattle.decimals.specs.code.DecimalCode.{decimal_code};

    ghost Value = { Decimal };

    ghost coded = { decimal_code };

    ghost view = { λ d. record { units = d.units; scale = d.scale } };

    ghost invariant = { λ d. IsNormal (record { units = d.units; scale = d.scale }) };

    ghost inverse = { λ d. record { units = d.units; scale = d.scale } };
}

/// A whole number or a decimal.
#[derive(Clone, Copy)]
pub enum Num {
    Whole(i64),
    Fraction(Decimal),
}

/// The numbers between two, each of which may be in it or not.
#[derive(Clone, Copy)]
pub struct Range {
    pub low: Num,
    pub high: Num,
    pub low_in: bool,
    pub high_in: bool,
}

/// The units of a decimal are below this in size.
pub(crate) const LIMIT: u64 = 1000000000000000000;

impl Decimal {
    /// The decimal of units and a scale.
    pub(crate) fn of(units: i64, scale: u8) -> Decimal
        requires { IsNormal (record { units = units; scale = scale }) }
        ensures { result ≡ record { units = units; scale = scale } }
    {
        Decimal { units, scale }
    }

    /// The decimal that is a whole number; 10^18 and more are out of its range.
    pub fn whole(n: i64) -> Option<Decimal>
        ensures { SomeIff result (unsigned_abs n < 10 ^ 18) (record { units = n; scale = 0 }) }
    {
        if n.unsigned_abs() < LIMIT {
            Some(Decimal { units: n, scale: 0 })
        } else {
            None
        }
    }

    /// The units, with the sign.
    pub fn units(&self) -> i64
        ensures { result ≡ self.now.units }
    {
        self.units
    }

    /// How many of the units' digits stand behind the point.
    pub fn scale(&self) -> u8
        ensures { result ≡ self.now.scale }
    {
        self.scale
    }

    /// The order of the two numbers. Both products are below 10^36 in size.
    pub fn compare(&self, other: &Decimal) -> Ordering
        ensures { result ≡ order self.now other.now }
    {
        let left = self.units as i128 * 10i128.pow(other.scale as u32);
        let right = other.units as i128 * 10i128.pow(self.scale as u32);
        left.cmp(&right)
    }
}
