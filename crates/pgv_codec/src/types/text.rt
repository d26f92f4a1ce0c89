//! Texts (PostgreSQL, "Character Types"): their bytes in UTF-8, and which types are read as texts.

ghost use Rattle.std.specs.Prelude.{◌≡◌, ◌≢◌, ℕ, List, [], refl, string_bytes, MatchResult, OnErr};
ghost use Rattle.pgv_types.specs.Ty.{builtin};
ghost use Rattle.pgv_codec.specs.Appending.{Encodes};
ghost use Rattle.pgv_codec.specs.Encoding.{plainly, writes};
ghost use Rattle.pgv_codec.specs.ScalarImage as spec;

use crate::buffer::{IsNull, PgArgumentBuffer};
use crate::traits::{Encode, PgHasArrayType, Plain, Type};
use pgv_types::{PgType, PgTypeInfo, PgTypeKindRef};
use pgv_value::{CodecError, PgValueRef};
use std::alloc::{AllocError, Global};

/// Appends a text, for a caller's own encoder, as the encoder of `String` does. Out of memory (C1) leaves the buffer as
/// it was.
#[inline(always)]
pub fn encode_text(text: &str, out: &mut PgArgumentBuffer) -> Result<IsNull, CodecError>
    ensures encodes { Encodes (writes (spec.text_image text.now)) out.old out.new result }
    ensures err { OnErr result (out.new ≡ out.old) }
{
    out.extend_from_slice(text.as_bytes())?;
    Ok(IsNull::No)
}

/// Whether values of this type are read as texts.
#[inline(always)]
fn is_text(type_info: &PgTypeInfo) -> bool
    ensures { result ≡ spec.is_text type_info.now }
{
    type_info.type_compatible(&PgTypeInfo(PgType::Text)) || is_other_text(type_info)
}

/// Whether it is one of the types under which texts are read beside `text` itself.
fn is_other_text(type_info: &PgTypeInfo) -> bool
    ensures { result ≡ spec.is_other_text type_info.now }
{
    type_info.type_compatible(&PgTypeInfo(PgType::Name))
        || type_info.type_compatible(&PgTypeInfo(PgType::Bpchar))
        || type_info.type_compatible(&PgTypeInfo(PgType::Varchar))
        || type_info.type_compatible(&PgTypeInfo(PgType::Unknown))
        || type_info.type_compatible(&PgTypeInfo::with_name("citext"))
}

/// Whether it is an array of such a type.
fn is_text_array(type_info: &PgTypeInfo) -> bool
    ensures { result ≡ spec.is_text_array type_info.now }
{
    match type_info.kind() {
        Some(PgTypeKindRef::Array(element)) => is_text(element.as_ref()),
        _ => false,
    }
}

/// `text` (OID 25), read under `text`, `name`, `bpchar`, `varchar`, `unknown` and domains over one of them, and as
/// `citext`, of which only the name is known, under each type of this name, and under one declared by its OID.
impl Type for String {
    ghost info = { builtin 25 };

    ghost accepts = { spec.is_text };

    #[inline(always)]
    fn type_info() -> PgTypeInfo {
        PgTypeInfo(PgType::Text)
    }

    #[inline(always)]
    fn compatible(type_info: &PgTypeInfo) -> bool {
        is_text(type_info)
    }
}

/// An array of them is `text[]` (OID 1009), read under each array of a type under which a text is read.
impl PgHasArrayType for String {
    ghost array_info = { builtin 1009 };

    ghost accepts_array = { spec.is_text_array };

    fn array_type_info() -> PgTypeInfo {
        PgTypeInfo(PgType::TextArray)
    }

    fn array_compatible(type_info: &PgTypeInfo) -> bool {
        is_text_array(type_info)
    }
}

/// A text of its own. An empty one asks for no memory.
#[inline(always)]
fn copy_of(alloc: Global, text: &str) -> Result<String, AllocError>
    ensures { MatchResult result (λ copy. string_bytes copy ≡ text.now) (λ _. text.now ≢ []) }
{
    let mut copy = String::with_capacity(alloc, text.len())?;
    copy.push_str(text)?;
    Ok(copy)
}

/// Written as its bytes: `hi` as `6869`.
impl Encode for String {
    ghost encoding = { λ s. plainly (writes (spec.text_image (string_bytes s))) };

    #[inline(always)]
    fn encode_by_ref(&self, out: &mut PgArgumentBuffer) -> Result<IsNull, CodecError> {
        encode_text(self.as_str(), out)
    }

    #[inline(always)]
    fn size_hint(&self) -> usize {
        0
    }

    #[inline(always)]
    fn produces(&self) -> Result<Option<PgTypeInfo>, AllocError> {
        Ok(None)
    }

    #[inline(always)]
    fn encode_at_once(&self, out: &mut PgArgumentBuffer) -> Result<bool, CodecError> {
        out.push_long_frame(self.as_bytes())
    }
}

/// A text (PostgreSQL, "Character Types"), the same in either format: bytes that are UTF-8, else
/// [`Utf8`](CodecError::Utf8) (C14): `6869` is `hi`. Null is refused with
/// [`UnexpectedNull`](CodecError::UnexpectedNull) (C13). An empty text asks for no memory.
impl Plain for String {
    ghost use Rattle.pgv_value.specs.Text.{parse_text};
    ghost use Rattle.pgv_codec.specs.ScalarBackLemmas.{text_back};

    ghost View = { List ℕ };

    ghost view = { λ text. string_bytes text };

    ghost parse = { parse_text };

    ghost null = { λ _ _. refl };

    ghost written = { λ _ m. plainly (writes (spec.text_image m)) };

    #[inline(always)]
    fn read(alloc: Global, value: &PgValueRef<'_>) -> Result<String, CodecError> {
        Ok(copy_of(alloc, value.as_str()?)?)
    }

    ghost reads_back = { text_back };

    ghost agrees = { λ _. refl };
}
