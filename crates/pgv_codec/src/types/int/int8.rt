//! `int8` (PostgreSQL, "Integer Types").

ghost use Rattle.std.specs.Int.{w64};
ghost use Rattle.std.specs.Prelude.{ℤ, refl};
ghost use Rattle.pgv_types.specs.Ty.{builtin};
ghost use Rattle.pgv_value.specs.Outcome.{without_memory};
ghost use Rattle.pgv_value.specs.ScalarGrammar.{parse_int};
ghost use Rattle.pgv_codec.specs.ScalarImage.{signed_image};
ghost use Rattle.pgv_codec.specs.Encoding.{plainly, writes};

use super::write_i64;
use crate::buffer::{IsNull, PgArgumentBuffer};
use crate::traits::{BuiltIn, HasBuiltIn, Of, Plain, Scalar};
use crate::types::fixed::{Fixed, write_fixed};
use crate::types::part::binary_value;
use pgv_types::{PgType, PgTypeInfo};
use pgv_value::{CodecError, PgValueRef, read_i64};
use std::alloc::Global;

impl HasBuiltIn for i64 {}
/// `int8` (OID 20), read under `int8` and domains over it. An array of them is `int8[]` (OID 1016).
impl BuiltIn for Of<i64> {
    ghost INFO = { builtin 20 };

    ghost ARRAY_INFO = { builtin 1016 };

    const INFO: PgTypeInfo = PgTypeInfo(PgType::Int8);

    const ARRAY_INFO: PgTypeInfo = PgTypeInfo(PgType::Int8Array);
}

/// Written as eight bytes in two's complement, the highest first: 7 as `0000000000000007`.
impl Scalar for i64 {
    ghost SIZE = { 0 };

    ghost image = { λ value. writes (signed_image w64 value) };

    const SIZE: usize = 0;

    #[inline(always)]
    fn write(&self, out: &mut PgArgumentBuffer) -> Result<IsNull, CodecError> {
        write_i64(*self, out)
    }

    #[inline(always)]
    fn write_at_once(&self, out: &mut PgArgumentBuffer) -> Result<bool, CodecError> {
        out.push_frame(&self.to_be_bytes())
    }

    #[inline(always)]
    fn write_first(values: &[i64], out: &mut PgArgumentBuffer) -> Result<usize, CodecError> {
        write_fixed::<i64, 8, 12, 8, 96>(values, out)
    }
}

impl Fixed<8> for i64 {
    ghost encoding = { λ number. plainly (writes (signed_image w64 number)) };

    #[inline(always)]
    fn image(&self) -> [u8; 8] {
        self.to_be_bytes()
    }
}

/// An `int8` (PostgreSQL, "Integer Types"), as [`read_i64`] reads it: `0000000000000007` and `7` are 7.
impl Plain for i64 {
    ghost use Rattle.pgv_codec.specs.ScalarBackLemmas.{int8_back};

    ghost View = { ℤ };

    ghost view = { λ number. number };

    ghost parse = { without_memory (parse_int w64) };

    ghost null = { λ _ _. refl };

    ghost written = { λ _ m. plainly (writes (signed_image w64 m)) };

    #[inline(always)]
    fn read(_alloc: Global, value: &PgValueRef<'_>) -> Result<i64, CodecError> {
        read_i64(value)
    }

    #[inline(always)]
    fn width() -> usize {
        8
    }

    #[inline(always)]
    fn read_at_once(bytes: &[u8]) -> Option<i64> {
        read_i64(&binary_value(bytes, Of::<i64>::INFO)).ok()
    }

    ghost reads_back = { int8_back };

    ghost agrees = { λ _. refl };
}
