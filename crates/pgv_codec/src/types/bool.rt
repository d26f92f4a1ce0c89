//! Truth values (PostgreSQL, "Boolean Type"): one byte, 1 or 0.

ghost use Rattle.pgv_types.specs.Ty.{builtin};
ghost use Rattle.pgv_codec.specs.ScalarImage.{bool_image};
ghost use Rattle.std.specs.Prelude.{Bool, refl};
ghost use Rattle.pgv_value.specs.Outcome.{without_memory};
ghost use Rattle.pgv_value.specs.ScalarGrammar.{parse_bool};
ghost use Rattle.pgv_codec.specs.Encoding.{plainly, writes};

use crate::buffer::{IsNull, PgArgumentBuffer};
use crate::traits::{BuiltIn, HasBuiltIn, Of, Plain, Scalar};
use crate::types::fixed::{Fixed, write_fixed};
use crate::types::part::binary_value;
use pgv_types::{PgType, PgTypeInfo};
use pgv_value::{CodecError, PgValueRef, read_bool};
use std::alloc::Global;

impl HasBuiltIn for bool {}
/// A `bool` (OID 16), read under `bool` and domains over it. An array of them is a `bool[]` (OID 1000).
impl BuiltIn for Of<bool> {
    ghost INFO = { builtin 16 };

    ghost ARRAY_INFO = { builtin 1000 };

    const INFO: PgTypeInfo = PgTypeInfo(PgType::Bool);

    const ARRAY_INFO: PgTypeInfo = PgTypeInfo(PgType::BoolArray);
}

/// Written as one byte: `true` as `01`, `false` as `00`.
impl Scalar for bool {
    ghost SIZE = { 0 };

    ghost image = { λ value. writes (bool_image value) };

    const SIZE: usize = 0;

    #[inline(always)]
    fn write(&self, out: &mut PgArgumentBuffer) -> Result<IsNull, CodecError> {
        out.push(u8::from(*self))?;
        Ok(IsNull::No)
    }

    #[inline(always)]
    fn write_at_once(&self, out: &mut PgArgumentBuffer) -> Result<bool, CodecError> {
        out.push_frame(&[u8::from(*self)])
    }

    #[inline(always)]
    fn write_first(values: &[bool], out: &mut PgArgumentBuffer) -> Result<usize, CodecError> {
        write_fixed::<bool, 1, 5, 8, 40>(values, out)
    }
}

impl Fixed<1> for bool {
    ghost encoding = { λ truth. plainly (writes (bool_image truth)) };

    #[inline(always)]
    fn image(&self) -> [u8; 1] {
        [u8::from(*self)]
    }
}

/// A truth value (PostgreSQL, "Boolean Type"), as [`read_bool`] reads it: `01` and `t` are `true`.
impl Plain for bool {
    ghost use Rattle.pgv_codec.specs.ScalarBackLemmas.{bool_back};

    ghost View = { Bool };

    ghost view = { λ truth. truth };

    ghost parse = { without_memory parse_bool };

    ghost null = { λ _ _. refl };

    ghost written = { λ _ m. plainly (writes (bool_image m)) };

    #[inline(always)]
    fn read(_alloc: Global, value: &PgValueRef<'_>) -> Result<bool, CodecError> {
        read_bool(value)
    }

    #[inline(always)]
    fn width() -> usize {
        1
    }

    #[inline(always)]
    fn read_at_once(bytes: &[u8]) -> Option<bool> {
        read_bool(&binary_value(bytes, Of::<bool>::INFO)).ok()
    }

    ghost reads_back = { bool_back };

    ghost agrees = { λ _. refl };
}
