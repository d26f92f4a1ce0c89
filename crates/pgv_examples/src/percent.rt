//! A codec that refuses: only a number from 0 to 100 is written or read. A value is written and read as a
//! [`PgPlain<Percent>`](pgv::PgPlain).

ghost use Rattle.std.specs.Prelude.{◌≡◌, true, false, IsOk, IsErrOf};
ghost use Rattle.pgv_examples.specs.Percents.{is_percent, percent_rules};

use pgv::{
    CodecError, Encode, IsNull, PgArgumentBuffer, PgHasArrayType, PgTypeInfo, PgValueRef, Plain,
    PlainCodec, Type,
};
use std::alloc::Global;

/// A share in percent, an `int4`.
#[derive(Clone, Copy, Debug, PartialEq, Eq)]
pub struct Percent {
    /// The number, from 0 to 100. Another can be made, but is neither written nor read.
    pub number: i32,
}

/// Nothing where the number is from 0 to 100, and else [`Caller(9)`](CodecError::Caller) (C38).
fn check(number: i32) -> Result<(), CodecError>
    ensures ok { is_percent number ≡ true → IsOk result }
    ensures err { is_percent number ≡ false → IsErrOf result (CodecError.Caller 9) }
{
    if 0 <= number && number <= 100 {
        return Ok(());
    }
    Err(CodecError::Caller(9))
}

/// Written and read as its number; another than 0 to 100 is refused with [`Caller(9)`](CodecError::Caller) (C38).
impl PlainCodec for Percent {
    ghost rules = { percent_rules };

    fn type_info() -> PgTypeInfo {
        i32::type_info()
    }

    fn compatible(type_info: &PgTypeInfo) -> bool {
        i32::compatible(type_info)
    }

    fn array_type_info() -> PgTypeInfo {
        i32::array_type_info()
    }

    fn write(&self, out: &mut PgArgumentBuffer) -> Result<IsNull, CodecError> {
        check(self.number)?;
        self.number.encode_by_ref(out)
    }

    fn read(alloc: Global, value: &PgValueRef<'_>) -> Result<Percent, CodecError> {
        let number = i32::read(alloc, value)?;
        check(number)?;
        Ok(Percent { number })
    }
}
