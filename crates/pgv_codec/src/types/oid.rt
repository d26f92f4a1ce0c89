//! Object identifiers (PostgreSQL, "Object Identifier Types"): unsigned, four bytes, the highest first.

ghost use Rattle.pgv_types.specs.Ty.{builtin};
ghost use Rattle.std.specs.Int.{w32};
ghost use Rattle.pgv_codec.specs.ScalarImage.{unsigned_image};
ghost use Rattle.std.specs.Prelude.{ℕ, refl};
ghost use Rattle.pgv_value.specs.Outcome.{without_memory};
ghost use Rattle.pgv_value.specs.ScalarGrammar.{parse_oid};
ghost use Rattle.pgv_codec.specs.Encoding.{plainly, writes};

use crate::buffer::{IsNull, PgArgumentBuffer};
use crate::traits::{BuiltIn, HasBuiltIn, Of, Plain, Scalar};
use crate::types::fixed::{Fixed, write_fixed};
use crate::types::part::binary_value;
use pgv_types::{Oid, PgType, PgTypeInfo};
use pgv_value::{CodecError, PgValueRef, read_oid};
use std::alloc::Global;

impl HasBuiltIn for Oid {}
/// `oid` (OID 26), read under `oid` and domains over it. An array of them is `oid[]` (OID 1028).
impl BuiltIn for Of<Oid> {
    ghost INFO = { builtin 26 };

    ghost ARRAY_INFO = { builtin 1028 };

    const INFO: PgTypeInfo = PgTypeInfo(PgType::Oid);

    const ARRAY_INFO: PgTypeInfo = PgTypeInfo(PgType::OidArray);
}

/// Written as four bytes, the highest first: that of `text` as `00000019`.
impl Scalar for Oid {
    ghost SIZE = { 0 };

    ghost image = { λ o. writes (unsigned_image w32 o.0) };

    const SIZE: usize = 0;

    #[inline(always)]
    fn write(&self, out: &mut PgArgumentBuffer) -> Result<IsNull, CodecError> {
        out.extend_from_slice(&self.0.to_be_bytes())?;
        Ok(IsNull::No)
    }

    #[inline(always)]
    fn write_at_once(&self, out: &mut PgArgumentBuffer) -> Result<bool, CodecError> {
        out.push_frame(&self.0.to_be_bytes())
    }

    #[inline(always)]
    fn write_first(values: &[Oid], out: &mut PgArgumentBuffer) -> Result<usize, CodecError> {
        write_fixed::<Oid, 4, 8, 8, 64>(values, out)
    }
}

impl Fixed<4> for Oid {
    ghost encoding = { λ oid. plainly (writes (unsigned_image w32 oid.0)) };

    #[inline(always)]
    fn image(&self) -> [u8; 4] {
        self.0.to_be_bytes()
    }
}

/// An object identifier (PostgreSQL, "Object Identifier Types"), as [`read_oid`] reads it: `00000019` and `25` are the
/// OID of `text`.
impl Plain for Oid {
    ghost use Rattle.pgv_codec.specs.ScalarBackLemmas.{oid_back};

    ghost View = { ℕ };

    ghost view = { λ oid. oid.0 };

    ghost parse = { without_memory parse_oid };

    ghost null = { λ _ _. refl };

    ghost written = { λ _ m. plainly (writes (unsigned_image w32 m)) };

    #[inline(always)]
    fn read(_alloc: Global, value: &PgValueRef<'_>) -> Result<Oid, CodecError> {
        read_oid(value)
    }

    #[inline(always)]
    fn width() -> usize {
        4
    }

    #[inline(always)]
    fn read_at_once(bytes: &[u8]) -> Option<Oid> {
        read_oid(&binary_value(bytes, Of::<Oid>::INFO)).ok()
    }

    ghost reads_back = { oid_back };

    ghost agrees = { λ _. refl };
}
