//! A type that the library doesn't have, by its bytes: `float8` (PostgreSQL, "Floating-Point Types"). A value is
//! written and read as a [`PgPlain<Float8>`](pgv::PgPlain).

use pgv::{
    CodecError, Encode, IsNull, PgArgumentBuffer, PgType, PgTypeInfo, PgValueFormat, PgValueRef,
    Plain, PlainCodec,
};
use std::alloc::Global;

/// A number of the type `float8`, by its 64 bits (IEEE 754) as a signed number: 4607182418800017408 is 1.0.
#[derive(Clone, Copy, Debug, PartialEq, Eq)]
pub struct Float8(pub i64);

/// Written as its eight bytes, the highest first, as an `int8` is, and read from eight. Others are refused with
/// [`WrongLength`](CodecError::WrongLength) (C17), a text with [`TextUnsupported`](CodecError::TextUnsupported) (C18),
/// and null with [`UnexpectedNull`](CodecError::UnexpectedNull) (C13). Every number comes back.
impl PlainCodec for Float8 {
    ghost use Rattle.pgv_examples.specs.Floats.{float_rules};

    ghost rules = { float_rules };

    fn type_info() -> PgTypeInfo {
        PgTypeInfo(PgType::Float8)
    }

    fn compatible(type_info: &PgTypeInfo) -> bool {
        type_info.type_compatible(&PgTypeInfo(PgType::Float8))
    }

    fn array_type_info() -> PgTypeInfo {
        PgTypeInfo(PgType::Float8Array)
    }

    fn write(&self, out: &mut PgArgumentBuffer) -> Result<IsNull, CodecError> {
        self.0.encode_by_ref(out)
    }

    fn read(alloc: Global, value: &PgValueRef<'_>) -> Result<Float8, CodecError> {
        match value.format() {
            PgValueFormat::Binary => {
                // An `i64` is read from one to eight bytes.
                let length = value.as_bytes()?.len();
                if length != 8 {
                    return Err(CodecError::WrongLength(length));
                }
                Ok(Float8(i64::read(alloc, value)?))
            }
            PgValueFormat::Text => {
                // Null is refused as null.
                value.as_bytes()?;
                Err(CodecError::TextUnsupported)
            }
        }
    }
}
