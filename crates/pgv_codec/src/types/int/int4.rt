//! `int4` (PostgreSQL, "Integer Types").

ghost use Rattle.std.specs.Int.{w32};
ghost use Rattle.std.specs.Prelude.{ℤ, refl};
ghost use Rattle.pgv_types.specs.Ty.{builtin};
ghost use Rattle.pgv_value.specs.Outcome.{without_memory};
ghost use Rattle.pgv_value.specs.ScalarGrammar.{parse_int};
ghost use Rattle.pgv_codec.specs.ScalarImage.{signed_image};
ghost use Rattle.pgv_codec.specs.Encoding.{plainly, writes};

use super::write_i32;
use crate::buffer::{IsNull, PgArgumentBuffer};
use crate::traits::{BuiltIn, HasBuiltIn, Of, Plain, Scalar};
use crate::types::fixed::{Fixed, write_fixed};
use crate::types::part::binary_value;
use pgv_types::{PgType, PgTypeInfo};
use pgv_value::{CodecError, PgValueRef, read_i32};
use std::alloc::Global;

impl HasBuiltIn for i32 {}
/// `int4` (OID 23), read under `int4` and domains over it. An array of them is `int4[]` (OID 1007).
impl BuiltIn for Of<i32> {
    ghost INFO = { builtin 23 };

    ghost ARRAY_INFO = { builtin 1007 };

    const INFO: PgTypeInfo = PgTypeInfo(PgType::Int4);

    const ARRAY_INFO: PgTypeInfo = PgTypeInfo(PgType::Int4Array);
}

/// Written as four bytes in two's complement, the highest first: 7 as `00000007`.
impl Scalar for i32 {
    ghost SIZE = { 0 };

    ghost image = { λ value. writes (signed_image w32 value) };

    const SIZE: usize = 0;

    #[inline(always)]
    fn write(&self, out: &mut PgArgumentBuffer) -> Result<IsNull, CodecError> {
        write_i32(*self, out)
    }

    #[inline(always)]
    fn write_at_once(&self, out: &mut PgArgumentBuffer) -> Result<bool, CodecError> {
        out.push_frame(&self.to_be_bytes())
    }

    #[inline(always)]
    fn write_first(values: &[i32], out: &mut PgArgumentBuffer) -> Result<usize, CodecError> {
        write_fixed::<i32, 4, 8, 8, 64>(values, out)
    }
}

impl Fixed<4> for i32 {
    ghost encoding = { λ number. plainly (writes (signed_image w32 number)) };

    #[inline(always)]
    fn image(&self) -> [u8; 4] {
        self.to_be_bytes()
    }
}

/// An `int4` (PostgreSQL, "Integer Types"), as [`read_i32`] reads it: `00000007` and `7` are 7.
impl Plain for i32 {
    ghost use Rattle.pgv_codec.specs.ScalarBackLemmas.{int4_back};

    ghost View = { ℤ };

    ghost view = { λ number. number };

    ghost parse = { without_memory (parse_int w32) };

    ghost null = { λ _ _. refl };

    ghost written = { λ _ m. plainly (writes (signed_image w32 m)) };

    #[inline(always)]
    fn read(_alloc: Global, value: &PgValueRef<'_>) -> Result<i32, CodecError> {
        read_i32(value)
    }

    #[inline(always)]
    fn width() -> usize {
        4
    }

    #[inline(always)]
    fn read_at_once(bytes: &[u8]) -> Option<i32> {
        read_i32(&binary_value(bytes, Of::<i32>::INFO)).ok()
    }

    ghost reads_back = { int4_back };

    ghost agrees = { λ _. refl };
}
