//! UUIDs (PostgreSQL, "UUID Type"): their sixteen bytes.

ghost use Rattle.pgv_types.specs.Ty.{builtin};
ghost use Rattle.pgv_codec.specs.ScalarImage.{uuid_image};
ghost use Rattle.std.specs.Prelude.{ℕ, List, refl};
ghost use Rattle.pgv_value.specs.Outcome.{without_memory};
ghost use Rattle.pgv_value.specs.ScalarGrammar.{parse_uuid};
ghost use Rattle.pgv_codec.specs.Encoding.{plainly, writes};

use crate::buffer::{IsNull, PgArgumentBuffer};
use crate::traits::{BuiltIn, HasBuiltIn, Of, Plain, Scalar};
use crate::types::fixed::{Fixed, write_fixed};
use crate::types::part::binary_value;
use pgv_types::{PgType, PgTypeInfo};
use pgv_value::{CodecError, PgValueRef, read_uuid};
use std::alloc::Global;
use uuid::Uuid;

impl HasBuiltIn for Uuid {}
/// `uuid` (OID 2950), read under `uuid` and domains over it. An array of them is `uuid[]` (OID 2951).
impl BuiltIn for Of<Uuid> {
    ghost INFO = { builtin 2950 };

    ghost ARRAY_INFO = { builtin 2951 };

    const INFO: PgTypeInfo = PgTypeInfo(PgType::Uuid);

    const ARRAY_INFO: PgTypeInfo = PgTypeInfo(PgType::UuidArray);
}

/// Written as its sixteen bytes.
/// `00000000-0000-0000-0000-000000000007` is fifteen bytes `00` and `07`.
impl Scalar for Uuid {
    ghost SIZE = { 0 };

    ghost image = { λ value. writes (uuid_image value) };

    const SIZE: usize = 0;

    #[inline(always)]
    fn write(&self, out: &mut PgArgumentBuffer) -> Result<IsNull, CodecError> {
        out.extend_from_slice(self.as_bytes())?;
        Ok(IsNull::No)
    }

    #[inline(always)]
    fn write_at_once(&self, out: &mut PgArgumentBuffer) -> Result<bool, CodecError> {
        out.push_frame(self.as_bytes())
    }

    #[inline(always)]
    fn write_first(values: &[Uuid], out: &mut PgArgumentBuffer) -> Result<usize, CodecError> {
        write_fixed::<Uuid, 16, 20, 4, 80>(values, out)
    }
}

impl Fixed<16> for Uuid {
    ghost encoding = { λ id. plainly (writes (uuid_image id)) };

    #[inline(always)]
    fn image(&self) -> [u8; 16] {
        self.into_bytes()
    }
}

/// A UUID (PostgreSQL, "UUID Type"), as [`read_uuid`] reads it: its sixteen bytes, or
/// `550e8400-e29b-41d4-a716-446655440000` and the other spellings.
impl Plain for Uuid {
    ghost use Rattle.pgv_codec.specs.ScalarBackLemmas.{uuid_back};

    ghost View = { List ℕ };

    ghost view = { λ id. id };

    ghost parse = { without_memory parse_uuid };

    ghost null = { λ _ _. refl };

    ghost written = { λ _ m. plainly (writes (uuid_image m)) };

    #[inline(always)]
    fn read(_alloc: Global, value: &PgValueRef<'_>) -> Result<Uuid, CodecError> {
        read_uuid(value)
    }

    #[inline(always)]
    fn width() -> usize {
        16
    }

    #[inline(always)]
    fn read_at_once(bytes: &[u8]) -> Option<Uuid> {
        read_uuid(&binary_value(bytes, Of::<Uuid>::INFO)).ok()
    }

    ghost reads_back = { uuid_back };

    ghost agrees = { λ _. refl };
}
