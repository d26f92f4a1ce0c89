//! The type "char" (PostgreSQL, "Character Types"), as a number of one byte.

ghost use Rattle.std.specs.Int.{w8};
ghost use Rattle.std.specs.Prelude.{ℤ, refl};
ghost use Rattle.pgv_types.specs.Ty.{builtin};
ghost use Rattle.pgv_value.specs.Outcome.{without_memory};
ghost use Rattle.pgv_value.specs.ScalarGrammar.{parse_char};
ghost use Rattle.pgv_codec.specs.ScalarImage.{signed_image};
ghost use Rattle.pgv_codec.specs.Encoding.{plainly, writes};

use crate::buffer::{IsNull, PgArgumentBuffer};
use crate::traits::{BuiltIn, HasBuiltIn, Of, Plain, Scalar};
use pgv_types::{PgType, PgTypeInfo};
use pgv_value::{CodecError, PgValueRef, read_i8};
use std::alloc::Global;

impl HasBuiltIn for i8 {}
/// `"char"` (OID 18), read under `"char"` and domains over it. An array of them is `"char"[]` (OID 1002).
impl BuiltIn for Of<i8> {
    ghost INFO = { builtin 18 };

    ghost ARRAY_INFO = { builtin 1002 };

    const INFO: PgTypeInfo = PgTypeInfo(PgType::Char);

    const ARRAY_INFO: PgTypeInfo = PgTypeInfo(PgType::CharArray);
}

/// Written as one byte in two's complement: -1 as `ff`.
impl Scalar for i8 {
    ghost SIZE = { 0 };

    ghost image = { λ value. writes (signed_image w8 value) };

    const SIZE: usize = 0;

    #[inline(always)]
    fn write(&self, out: &mut PgArgumentBuffer) -> Result<IsNull, CodecError> {
        out.extend_from_slice(&self.to_be_bytes())?;
        Ok(IsNull::No)
    }

    #[inline(always)]
    fn write_at_once(&self, out: &mut PgArgumentBuffer) -> Result<bool, CodecError> {
        out.push_frame(&self.to_be_bytes())
    }
}

/// A `"char"` as a number (PostgreSQL, "Character Types"), as [`read_i8`] reads it: `61` and `a` are 97.
impl Plain for i8 {
    ghost use Rattle.pgv_codec.specs.ScalarBackLemmas.{char_back};

    ghost View = { ℤ };

    ghost view = { λ number. number };

    ghost parse = { without_memory parse_char };

    ghost null = { λ _ _. refl };

    ghost written = { λ _ m. plainly (writes (signed_image w8 m)) };

    #[inline(always)]
    fn read(_alloc: Global, value: &PgValueRef<'_>) -> Result<i8, CodecError> {
        read_i8(value)
    }

    ghost reads_back = { char_back };

    ghost agrees = { λ _. refl };
}
