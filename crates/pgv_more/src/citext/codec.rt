//! Text whose case doesn't matter, written and read (PostgreSQL, appendix F, citext).

ghost use Rattle.std.specs.Prelude.{ℕ, List, refl, codes, string_bytes};
ghost use Rattle.pgv_types.specs.Ty.{named};
ghost use Rattle.pgv_value.specs.Text.{parse_text};
ghost use Rattle.pgv_codec.specs.Encoding.{plainly, writes};
ghost use Rattle.pgv_codec.specs.ScalarImage.{is_text, is_text_array, text_image};

use super::PgCiText;
use pgv_codec::{
    Decode, Encode, IsNull, PgArgumentBuffer, PgHasArrayType, Plain, Type, encode_text,
};
use pgv_types::PgTypeInfo;
use pgv_value::{CodecError, PgValueRef};
use std::alloc::{AllocError, Global};

/// `citext`, of which only the name is known, read under each type under which a `String` is.
impl Type for PgCiText {
    ghost info = { named (codes "citext") };

    ghost accepts = { is_text };

    fn type_info() -> PgTypeInfo {
        PgTypeInfo::with_name("citext")
    }

    fn compatible(type_info: &PgTypeInfo) -> bool {
        <String as Type>::compatible(type_info)
    }
}

/// An array of them is `_citext`, read under each array of a type under which a `String` is read.
impl PgHasArrayType for PgCiText {
    ghost array_info = { named (codes "_citext") };

    ghost accepts_array = { is_text_array };

    fn array_type_info() -> PgTypeInfo {
        PgTypeInfo::with_name("_citext")
    }

    fn array_compatible(type_info: &PgTypeInfo) -> bool {
        <String as PgHasArrayType>::array_compatible(type_info)
    }
}

/// Written as its bytes.
/// `Ab` is `4162`.
impl Encode for PgCiText {
    ghost encoding = { λ text. plainly (writes (text_image (string_bytes text.0))) };

    fn encode_by_ref(&self, out: &mut PgArgumentBuffer) -> Result<IsNull, CodecError> {
        encode_text(self.as_str(), out)
    }

    fn size_hint(&self) -> usize {
        0
    }

    fn produces(&self) -> Result<Option<PgTypeInfo>, AllocError> {
        Ok(None)
    }

    #[inline(always)]
    fn encode_at_once(&self, out: &mut PgArgumentBuffer) -> Result<bool, CodecError> {
        self.0.encode_at_once(out)
    }
}

/// Read as a `String` is: in either format any bytes that are UTF-8, else [`Utf8`](CodecError::Utf8) (C14). Null is
/// refused with [`UnexpectedNull`](CodecError::UnexpectedNull) (C13). A text comes back as it was written.
impl Plain for PgCiText {
    ghost use Rattle.pgv_codec.specs.ScalarBackLemmas.{text_back};

    ghost View = { List ℕ };

    ghost view = { λ text. string_bytes text.0 };

    ghost parse = { parse_text };

    ghost null = { λ _ _. refl };

    ghost written = { λ _ m. plainly (writes (text_image m)) };

    #[inline(always)]
    fn read(alloc: Global, value: &PgValueRef<'_>) -> Result<PgCiText, CodecError> {
        Ok(PgCiText(String::read(alloc, value)?))
    }

    ghost reads_back = { λ text. text_back text.0 };

    ghost agrees = { λ _. refl };
}
