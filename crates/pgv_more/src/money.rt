//! Amounts of money (PostgreSQL, "Monetary Types", money).

ghost use Rattle.std.specs.Prelude.{◌≡◌, ◌+ℤ◌, ◌-ℤ◌, FitsSigned, MatchOption, ok_or};
ghost use Rattle.std.specs.Int.{w64};
ghost use Rattle.pgv_value.specs.Parsed.{GivesExactly};
ghost use Rattle.pgv_value.specs.declared.error.CodecError.TheVariants.{Short};
ghost use Rattle.pgv_more.specs.MoneyCodec.{money_in_binary};

mod codec;

use pgv_value::{CodecError, number_of_eight};
use std::ops::{Add, AddAssign, Sub, SubAssign};

/// An amount of money, as a number of the smallest unit of its currency (a cent, where there are two places after the
/// point).
///
/// The operators need a result that fits in 64 bits; [`checked_add`](PgMoney::checked_add) and
/// [`checked_sub`](PgMoney::checked_sub) test it.
#[derive(Clone, Copy, PartialEq, Eq, Debug)]
pub struct PgMoney(pub i64);

/// The amount 0.
impl Default for PgMoney {
    ghost use Rattle.std.specs.Prelude.{◌≡◌, pos};

    ghost is_default = { λ amount. amount.0 ≡ pos 0 };

    fn default() -> PgMoney {
        PgMoney(0)
    }
}

impl PgMoney {
    /// The sum, or `None` if it does not fit in 64 bits, as `i64::MAX` and one more.
    pub fn checked_add(self, rhs: PgMoney) -> Option<PgMoney>
        ensures { MatchOption result (¬ FitsSigned w64 (self.0 +ℤ rhs.0))
            (λ sum. (sum.0 ≡ self.0 +ℤ rhs.0) × FitsSigned w64 (self.0 +ℤ rhs.0)) }
    {
        self.0.checked_add(rhs.0).map(PgMoney)
    }

    /// The difference, or `None` if it does not fit in 64 bits.
    pub fn checked_sub(self, rhs: PgMoney) -> Option<PgMoney>
        ensures { MatchOption result (¬ FitsSigned w64 (self.0 -ℤ rhs.0)) (λ difference.
            (difference.0 ≡ self.0 -ℤ rhs.0) × FitsSigned w64 (self.0 -ℤ rhs.0)) }
    {
        self.0.checked_sub(rhs.0).map(PgMoney)
    }
}

/// The sum, which has to be a number of 64 bits.
impl Add for PgMoney {
    type Output = PgMoney;

    ghost can_add = { λ a b. FitsSigned w64 (a.0 +ℤ b.0) };

    ghost add_gives = { λ a b sum. sum.0 ≡ a.0 +ℤ b.0 };

    fn add(self, rhs: PgMoney) -> PgMoney {
        PgMoney(self.0 + rhs.0)
    }
}

/// The difference, which has to be a number of 64 bits.
impl Sub for PgMoney {
    type Output = PgMoney;

    ghost can_sub = { λ a b. FitsSigned w64 (a.0 -ℤ b.0) };

    ghost sub_gives = { λ a b difference. difference.0 ≡ a.0 -ℤ b.0 };

    fn sub(self, rhs: PgMoney) -> PgMoney {
        PgMoney(self.0 - rhs.0)
    }
}

/// The sum, which has to be a number of 64 bits.
impl AddAssign for PgMoney {
    ghost can_add_assign = { λ a b. FitsSigned w64 (a.0 +ℤ b.0) };

    ghost add_assign_gives = { λ a b sum. sum.0 ≡ a.0 +ℤ b.0 };

    fn add_assign(&mut self, rhs: PgMoney) {
        self.0 += rhs.0;
    }
}

/// The difference, which has to be a number of 64 bits.
impl SubAssign for PgMoney {
    ghost can_sub_assign = { λ a b. FitsSigned w64 (a.0 -ℤ b.0) };

    ghost sub_assign_gives = { λ a b difference. difference.0 ≡ a.0 -ℤ b.0 };

    fn sub_assign(&mut self, rhs: PgMoney) {
        self.0 -= rhs.0;
    }
}

/// The amount of this number of the smallest unit.
impl From<i64> for PgMoney {
    ghost from_gives = { λ number amount. amount.0 ≡ number };

    fn from(number: i64) -> PgMoney {
        PgMoney(number)
    }
}

/// The amount of this number of the smallest unit.
impl From<i32> for PgMoney {
    ghost from_gives = { λ number amount. amount.0 ≡ number };

    fn from(number: i32) -> PgMoney {
        PgMoney(number as i64)
    }
}

/// The amount of this number of the smallest unit.
impl From<i16> for PgMoney {
    ghost from_gives = { λ number amount. amount.0 ≡ number };

    fn from(number: i16) -> PgMoney {
        PgMoney(number as i64)
    }
}

/// The amount of this number of the smallest unit.
impl From<i8> for PgMoney {
    ghost from_gives = { λ number amount. amount.0 ≡ number };

    fn from(number: i8) -> PgMoney {
        PgMoney(number as i64)
    }
}

/// The amount of this number of the smallest unit.
impl From<u32> for PgMoney {
    ghost use Rattle.std.specs.Prelude.{pos};

    ghost from_gives = { λ number amount. amount.0 ≡ pos number };

    fn from(number: u32) -> PgMoney {
        PgMoney(number as i64)
    }
}

/// The amount of this number of the smallest unit.
impl From<u16> for PgMoney {
    ghost use Rattle.std.specs.Prelude.{pos};

    ghost from_gives = { λ number amount. amount.0 ≡ pos number };

    fn from(number: u16) -> PgMoney {
        PgMoney(number as i64)
    }
}

/// The amount of this number of the smallest unit.
impl From<u8> for PgMoney {
    ghost use Rattle.std.specs.Prelude.{pos};

    ghost from_gives = { λ number amount. amount.0 ≡ pos number };

    fn from(number: u8) -> PgMoney {
        PgMoney(number as i64)
    }
}

/// The amount of the first eight bytes, whatever comes after them.
fn of_bytes(bytes: &[u8]) -> Result<PgMoney, CodecError>
    ensures { GivesExactly (λ amount. amount.0) (ok_or (money_in_binary bytes.now) Short) result }
{
    if bytes.len() < 8 {
        return Err(CodecError::Short);
    }
    Ok(PgMoney(number_of_eight(bytes)))
}
