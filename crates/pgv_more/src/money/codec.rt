//! Amounts of money, written and read (PostgreSQL, "Monetary Types", money).

ghost use Rattle.std.specs.Prelude.{ℤ, refl};
ghost use Rattle.std.specs.Int.{w64};
ghost use Rattle.pgv_types.specs.Ty.{builtin};
ghost use Rattle.pgv_types.specs.Relations.{softly};
ghost use Rattle.pgv_codec.specs.ScalarImage.{signed_image};
ghost use Rattle.pgv_codec.specs.Encoding.{plainly, writes};
ghost use Rattle.pgv_more.specs.MoneyCodec.{parse_money};
ghost use Rattle.pgv_value.specs.Outcome.{without_memory};

use super::{PgMoney, of_bytes};
use pgv_codec::{Encode, IsNull, PgArgumentBuffer, PgHasArrayType, Plain, Type};
use pgv_types::{PgType, PgTypeInfo};
use pgv_value::{CodecError, PgValueFormat, PgValueRef};
use std::alloc::{AllocError, Global};

/// `money` (OID 790), read under `money` and domains over it.
impl Type for PgMoney {
    ghost info = { builtin 790 };

    ghost accepts = { λ t. softly t (builtin 790) };

    fn type_info() -> PgTypeInfo {
        PgTypeInfo(PgType::Money)
    }

    fn compatible(type_info: &PgTypeInfo) -> bool {
        type_info.type_compatible(&Self::type_info())
    }
}

/// An array of them is `money[]` (OID 791).
impl PgHasArrayType for PgMoney {
    ghost array_info = { builtin 791 };

    ghost accepts_array = { λ t. softly t (builtin 791) };

    fn array_type_info() -> PgTypeInfo {
        PgTypeInfo(PgType::MoneyArray)
    }

    fn array_compatible(type_info: &PgTypeInfo) -> bool {
        type_info.type_compatible(&Self::array_type_info())
    }
}

/// Written as eight bytes in two's complement, the highest first: 123.45 as `0000000000003039`.
impl Encode for PgMoney {
    ghost encoding = { λ amount. plainly (writes (signed_image w64 amount.0)) };

    fn encode_by_ref(&self, out: &mut PgArgumentBuffer) -> Result<IsNull, CodecError> {
        self.0.encode_by_ref(out)
    }

    fn size_hint(&self) -> usize {
        0
    }

    fn produces(&self) -> Result<Option<PgTypeInfo>, AllocError> {
        Ok(None)
    }
}

/// Read from the first eight bytes, whatever comes after them; fewer are refused with [`Short`](CodecError::Short)
/// (C15), a text with [`TextUnsupported`](CodecError::TextUnsupported) (C18), and null with
/// [`UnexpectedNull`](CodecError::UnexpectedNull) (C13). (The text depends on the settings of the server,
/// `lc_monetary`.) An amount is read back as it is.
impl Plain for PgMoney {
    ghost use Rattle.pgv_more.specs.MoneyBackLemmas.{money_back};

    ghost View = { ℤ };

    ghost view = { λ amount. amount.0 };

    ghost parse = { without_memory parse_money };

    ghost null = { λ _ _. refl };

    ghost written = { λ _ m. plainly (writes (signed_image w64 m)) };

    fn read(_alloc: Global, value: &PgValueRef<'_>) -> Result<PgMoney, CodecError> {
        let bytes = value.as_bytes()?;
        match value.format() {
            PgValueFormat::Binary => of_bytes(bytes),
            PgValueFormat::Text => Err(CodecError::TextUnsupported),
        }
    }

    ghost reads_back = { money_back };

    ghost agrees = { λ _. refl };
}
