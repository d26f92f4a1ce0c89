//! Strings of bytes, written and read (PostgreSQL, "Binary Data Types", bytea).

ghost use Rattle.std.specs.Prelude.{ℕ, List, refl};
ghost use Rattle.pgv_types.specs.Ty.{builtin};
ghost use Rattle.pgv_types.specs.Relations.{softly};
ghost use Rattle.pgv_codec.specs.Encoding.{plainly, writes};
ghost use Rattle.pgv_codec.specs.ScalarImage.{text_image as plain_image};
ghost use Rattle.pgv_more.specs.ByteaText.{parse_bytea};

use super::{PgBytea, copy_of, of_text};
use pgv_codec::{Encode, IsNull, PgArgumentBuffer, PgHasArrayType, Plain, Type};
use pgv_types::{PgType, PgTypeInfo};
use pgv_value::{CodecError, PgValueFormat, PgValueRef};
use std::alloc::{AllocError, Global};

/// `bytea` (OID 17), read under `bytea` and domains over it.
impl Type for PgBytea {
    ghost info = { builtin 17 };

    ghost accepts = { λ t. softly t (builtin 17) };

    fn type_info() -> PgTypeInfo {
        PgTypeInfo(PgType::Bytea)
    }

    fn compatible(type_info: &PgTypeInfo) -> bool {
        type_info.type_compatible(&Self::type_info())
    }
}

/// An array of them is `bytea[]` (OID 1001).
impl PgHasArrayType for PgBytea {
    ghost array_info = { builtin 1001 };

    ghost accepts_array = { λ t. softly t (builtin 1001) };

    fn array_type_info() -> PgTypeInfo {
        PgTypeInfo(PgType::ByteaArray)
    }

    fn array_compatible(type_info: &PgTypeInfo) -> bool {
        type_info.type_compatible(&Self::array_type_info())
    }
}

/// Written as the bytes.
/// The bytes 1 and 255 are `01ff`.
impl Encode for PgBytea {
    ghost encoding = { λ b. plainly (writes (plain_image b.0.items)) };

    fn encode_by_ref(&self, out: &mut PgArgumentBuffer) -> Result<IsNull, CodecError> {
        out.extend_from_slice(self.0.as_slice())?;
        Ok(IsNull::No)
    }

    fn size_hint(&self) -> usize {
        0
    }

    fn produces(&self) -> Result<Option<PgTypeInfo>, AllocError> {
        Ok(None)
    }
}

/// In binary the bytes, and in text `\x` and two hex digits of either case for each, as `\x00ff`; another text is
/// refused with [`Syntax`](CodecError::Syntax) (C29), one that isn't UTF-8 too. Null is refused with
/// [`UnexpectedNull`](CodecError::UnexpectedNull) (C13). (A server that writes the older escape format is not read.)
/// For no bytes no memory is asked for. Bytes come back as they were written.
impl Plain for PgBytea {
    ghost use Rattle.pgv_more.specs.ByteaBackLemmas.{bytea_back};

    ghost View = { List ℕ };

    ghost view = { λ b. b.0.items };

    ghost parse = { parse_bytea };

    ghost null = { λ _ _. refl };

    ghost written = { λ _ m. plainly (writes (plain_image m)) };

    #[inline(always)]
    fn read(alloc: Global, value: &PgValueRef<'_>) -> Result<PgBytea, CodecError> {
        let bytes = value.as_bytes()?;
        match value.format() {
            PgValueFormat::Binary => Ok(PgBytea(copy_of(alloc, bytes)?)),
            PgValueFormat::Text => of_text(alloc, bytes),
        }
    }

    ghost reads_back = { bytea_back };

    ghost agrees = { λ _. refl };
}
