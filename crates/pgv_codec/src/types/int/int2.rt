//! `int2` (PostgreSQL, "Integer Types").

ghost use Rattle.std.specs.Int.{w16};
ghost use Rattle.std.specs.Prelude.{ℤ, refl};
ghost use Rattle.pgv_types.specs.Ty.{builtin};
ghost use Rattle.pgv_value.specs.Outcome.{without_memory};
ghost use Rattle.pgv_value.specs.ScalarGrammar.{parse_int};
ghost use Rattle.pgv_codec.specs.ScalarImage.{signed_image};
ghost use Rattle.pgv_codec.specs.Encoding.{plainly, writes};

use crate::buffer::{IsNull, PgArgumentBuffer};
use crate::traits::{BuiltIn, HasBuiltIn, Of, Plain, Scalar};
use crate::types::fixed::{Fixed, write_fixed};
use crate::types::part::binary_value;
use pgv_types::{PgType, PgTypeInfo};
use pgv_value::{CodecError, PgValueRef, read_i16};
use std::alloc::Global;

impl HasBuiltIn for i16 {}
/// `int2` (OID 21), read under `int2` and domains over it. An array of them is `int2[]` (OID 1005).
impl BuiltIn for Of<i16> {
    ghost INFO = { builtin 21 };

    ghost ARRAY_INFO = { builtin 1005 };

    const INFO: PgTypeInfo = PgTypeInfo(PgType::Int2);

    const ARRAY_INFO: PgTypeInfo = PgTypeInfo(PgType::Int2Array);
}

/// Written as two bytes in two's complement, the highest first: 7 as `0007`.
impl Scalar for i16 {
    ghost SIZE = { 0 };

    ghost image = { λ value. writes (signed_image w16 value) };

    const SIZE: usize = 0;

    #[inline(always)]
    fn write(&self, out: &mut PgArgumentBuffer) -> Result<IsNull, CodecError> {
        out.extend_from_slice(&self.to_be_bytes())?;
        Ok(IsNull::No)
    }

    #[inline(always)]
    fn write_at_once(&self, out: &mut PgArgumentBuffer) -> Result<bool, CodecError> {
        out.push_frame(&self.to_be_bytes())
    }

    #[inline(always)]
    fn write_first(values: &[i16], out: &mut PgArgumentBuffer) -> Result<usize, CodecError> {
        write_fixed::<i16, 2, 6, 8, 48>(values, out)
    }
}

impl Fixed<2> for i16 {
    ghost encoding = { λ number. plainly (writes (signed_image w16 number)) };

    #[inline(always)]
    fn image(&self) -> [u8; 2] {
        self.to_be_bytes()
    }
}

/// An `int2` (PostgreSQL, "Integer Types"), as [`read_i16`] reads it: `0007` and `7` are 7.
impl Plain for i16 {
    ghost use Rattle.pgv_codec.specs.ScalarBackLemmas.{int2_back};

    ghost View = { ℤ };

    ghost view = { λ number. number };

    ghost parse = { without_memory (parse_int w16) };

    ghost null = { λ _ _. refl };

    ghost written = { λ _ m. plainly (writes (signed_image w16 m)) };

    #[inline(always)]
    fn read(_alloc: Global, value: &PgValueRef<'_>) -> Result<i16, CodecError> {
        read_i16(value)
    }

    #[inline(always)]
    fn width() -> usize {
        2
    }

    #[inline(always)]
    fn read_at_once(bytes: &[u8]) -> Option<i16> {
        read_i16(&binary_value(bytes, Of::<i16>::INFO)).ok()
    }

    ghost reads_back = { int2_back };

    ghost agrees = { λ _. refl };
}
