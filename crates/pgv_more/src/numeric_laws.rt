//! Laws of numerics and of amounts of money. Each is the contract of a function that does nothing.

ghost use Rattle.std.specs.Prelude.{◌≡◌, ◌↔◌, true};
ghost use Rattle.std.specs.Int.{w64};
ghost use Rattle.pgv_types.specs.Ty.{builtin};
ghost use Rattle.pgv_codec.specs.Encoding.{plainly, writes};
ghost use Rattle.pgv_codec.specs.TypeRow.{FitsAlways, IsCodecRow};
ghost use Rattle.pgv_codec.specs.ScalarImage.{signed_image};
ghost use Rattle.pgv_more.specs.NumericLaws.{NumericIsRead, OneNumeric, OneMoney, NumericsAreEqual};
ghost use Rattle.pgv_more.specs.MoneyCodec.{parse_money, MoneyIsRead};
ghost use Rattle.pgv_more.specs.Numeric.{numeric_image, numeric_of, parse_numeric};
ghost use Rattle.pgv_value.specs.Outcome.{without_memory};

use crate::PgMoney;
use pgv_codec::{Decode, Encode, PgHasArrayType, ReadBack, Type};

/// A `PgMoney` is a money (OID 790), eight bytes in two's complement. Its arrays are `money[]` (791).
pub fn money_is_a_money()
    ensures { IsCodecRow ⟦<PgMoney as Type>⟧ ⟦<PgMoney as PgHasArrayType>⟧
        ⟦<PgMoney as Encode>⟧ ⟦<PgMoney as Decode>⟧ ⟦<PgMoney as ReadBack>⟧.kept (record {
          info = builtin 790;
          array = builtin 791;
          encoding = λ amount. plainly (writes (signed_image w64 amount.0));
          view = λ amount. amount.0;
          parse = without_memory parse_money;
          kept = λ amount. amount.0;
        }) }
{}

/// A `PgNumeric` is a numeric (OID 1700), a list of words of two bytes. Its arrays are `numeric[]` (1231). More than
/// 32767 digits are refused before memory is asked for, and else the first digit that isn't from 0 to 9999.
pub fn numeric_is_a_numeric()
    ensures { IsCodecRow ⟦<crate::PgNumeric as Type>⟧ ⟦<crate::PgNumeric as PgHasArrayType>⟧
        ⟦<crate::PgNumeric as Encode>⟧ ⟦<crate::PgNumeric as Decode>⟧
        ⟦<crate::PgNumeric as ReadBack>⟧.kept (record {
          info = builtin 1700;
          array = builtin 1231;
          encoding = λ n. plainly (numeric_image (numeric_of n));
          view = numeric_of;
          parse = parse_numeric;
          kept = numeric_of;
        }) }
{}

/// `money_in_binary` reads an amount from bytes iff the bytes begin with the eight bytes of this amount.
#[tactic(auto, using(crate::proofs::LawsOfMoney::money_is_read))]
pub fn money_is_read()
    ensures { MoneyIsRead }
{}

/// Bytes begin with the eight bytes of at most one amount.
pub fn one_money()
    ensures { OneMoney }
{}

/// `numeric_in_binary` reads a number or NaN from bytes iff the bytes begin with its binary form.
#[tactic(auto, using(crate::proofs::LawsOfNumerics::numeric_is_read))]
pub fn numeric_is_read()
    ensures { NumericIsRead }
{}

/// Bytes begin with the binary form of at most one number or NaN.
#[tactic(auto, using(crate::proofs::LawsOfNumerics::one_numeric))]
pub fn one_numeric()
    ensures { OneNumeric }
{}

/// Two amounts are equal iff they are the same number.
pub fn equal_amounts()
    ensures { (a b : PgMoney) → (⟦<PgMoney as PartialEq>⟧.eq a b ≡ true) ↔ (a ≡ b) }
{}

/// Two numerics are equal iff both are NaN, or their sign, digits, weight and scale are equal.
pub fn equal_numerics()
    ensures { NumericsAreEqual ⟦<crate::PgNumeric as PartialEq>⟧.eq }
{}

/// A `PgMoney` and a `PgNumeric` fit every type, so that they are read back under each.
pub fn plain_types_fit()
    ensures money { FitsAlways ⟦<PgMoney as ReadBack>⟧.fits }
    ensures numeric { FitsAlways ⟦<crate::PgNumeric as ReadBack>⟧.fits }
{}
