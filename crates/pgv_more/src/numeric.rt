//! Numbers with any number of digits (PostgreSQL, "Numeric Types", numeric).

ghost use Rattle.std.specs.Prelude.{◌≡◌, [], pos};
ghost use Rattle.pgv_more.specs.Numeric.{number, is_digit, numeric_of};
ghost use Rattle.pgv_more.specs.declared.numeric.PgNumericSign.TheVariants.{Positive};

mod codec;

use std::alloc::Global;

/// Whether a number is below zero.
#[derive(Clone, Copy, PartialEq, Eq, Debug)]
pub enum PgNumericSign {
    /// Zero or above.
    Positive,
    /// Below zero.
    Negative,
}

/// A number as its digits, or NaN.
///
/// The digits are of base 10000, the highest first: 123.45 has the digits 123 and 4500, the weight 0 and the scale 2.
#[derive(Debug, Drop, PartialEq)]
pub enum PgNumeric {
    /// `NaN`, not a number.
    NotANumber,
    /// The sum of `digits[i] * 10000 ^ (weight - i)`, with its sign.
    Number {
        /// Whether it is below zero.
        sign: PgNumericSign,
        /// The digits, the highest first, each from 0 to 9999. Others are read, and refused in writing.
        digits: Vec<i16>,
        /// The power of 10000 of the first digit.
        weight: i16,
        /// How many decimal places are shown after the point.
        scale: i16,
    },
}

impl PgNumeric {
    /// The number 0, of no digits.
    pub fn zero(alloc: Global) -> PgNumeric
        ensures { numeric_of result ≡ number Positive [] (pos 0) (pos 0) }
    {
        PgNumeric::Number {
            sign: PgNumericSign::Positive,
            digits: Vec::new(alloc),
            weight: 0,
            scale: 0,
        }
    }

    /// Whether it is a digit of base 10000: from 0 to 9999.
    pub fn is_valid_digit(digit: i16) -> bool
        ensures { result ≡ is_digit digit }
    {
        (0..10_000).contains(&digit)
    }
}
