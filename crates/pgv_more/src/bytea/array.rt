//! Strings of a number of bytes that is known (PostgreSQL, "Binary Data Types", bytea).

ghost use Rattle.std.specs.Prelude.{ℕ, List, refl};
ghost use Rattle.pgv_types.specs.Ty.{builtin};
ghost use Rattle.pgv_types.specs.Relations.{softly};
ghost use Rattle.pgv_codec.specs.Encoding.{plainly, writes};
ghost use Rattle.pgv_value.specs.Outcome.{without_memory};
ghost use Rattle.pgv_value.specs.Parsed.{GivesExactly};
ghost use Rattle.pgv_more.specs.ByteaText.{of_length, parse_bytea_sized, bytea_sized_image, sized_in_text};

use super::{are_pairs, digits_of};
use hex::FromHex;
use pgv_codec::{Encode, IsNull, PgArgumentBuffer, PgHasArrayType, Plain, Type};
use pgv_types::{PgType, PgTypeInfo};
use pgv_value::{CodecError, PgValueFormat, PgValueRef};
use std::alloc::{AllocError, Global};

/// A string of `N` bytes, such as a hash.
#[derive(Clone, Copy, Debug, PartialEq)]
pub struct PgByteaArray<const N: usize>(pub [u8; N]);

/// The bytes of a text `\x00ff`, of `N` bytes.
#[tactic(auto, using(crate::proofs::ByteaDigits::refused_for_length, crate::proofs::ByteaDigits::refused_for_digits))]
fn of_text<const N: usize>(text: &[u8]) -> Result<PgByteaArray<N>, CodecError>
    ensures { GivesExactly (λ b. b.0) (sized_in_text N text.now) result }
{
    let Some(digits) = digits_of(text) else {
        return Err(CodecError::Syntax);
    };
    match <[u8; N] as FromHex>::from_hex(digits) {
        Ok(bytes) => Ok(PgByteaArray(bytes)),
        Err(_) if are_pairs(digits) => Err(CodecError::WrongLength(digits.len() / 2)),
        Err(_) => Err(CodecError::Syntax),
    }
}

/// The bytes, where there are `N`.
fn of_bytes<const N: usize>(bytes: &[u8]) -> Result<PgByteaArray<N>, CodecError>
    ensures { GivesExactly (λ b. b.0) (of_length N bytes.now) result }
{
    match <[u8; N]>::try_from(bytes) {
        Ok(bytes) => Ok(PgByteaArray(bytes)),
        Err(_) => Err(CodecError::WrongLength(bytes.len())),
    }
}

/// `bytea` (OID 17), read under `bytea` and domains over it.
impl<const N: usize> Type for PgByteaArray<N> {
    ghost info = { builtin 17 };

    ghost accepts = { λ t. softly t (builtin 17) };

    fn type_info() -> PgTypeInfo {
        PgTypeInfo(PgType::Bytea)
    }

    fn compatible(type_info: &PgTypeInfo) -> bool {
        type_info.type_compatible(&Self::type_info())
    }
}

/// An array of them is `bytea[]` (OID 1001).
impl<const N: usize> PgHasArrayType for PgByteaArray<N> {
    ghost array_info = { builtin 1001 };

    ghost accepts_array = { λ t. softly t (builtin 1001) };

    fn array_type_info() -> PgTypeInfo {
        PgTypeInfo(PgType::ByteaArray)
    }

    fn array_compatible(type_info: &PgTypeInfo) -> bool {
        type_info.type_compatible(&Self::array_type_info())
    }
}

/// Written as the bytes.
/// `[1, 255]` is `01ff`.
impl<const N: usize> Encode for PgByteaArray<N> {
    ghost encoding = { λ b. plainly (writes (bytea_sized_image N b.0)) };

    fn encode_by_ref(&self, out: &mut PgArgumentBuffer) -> Result<IsNull, CodecError> {
        out.extend_from_slice(&self.0)?;
        Ok(IsNull::No)
    }

    fn size_hint(&self) -> usize {
        0
    }

    fn produces(&self) -> Result<Option<PgTypeInfo>, AllocError> {
        Ok(None)
    }
}

/// Read as [`PgBytea`](super::PgBytea) is, of `N` bytes: another number of bytes, or of pairs of digits, is refused
/// with [`WrongLength`](CodecError::WrongLength) (C17), and another text with [`Syntax`](CodecError::Syntax) (C29).
/// Null is refused with [`UnexpectedNull`](CodecError::UnexpectedNull) (C13). It takes no memory. Bytes come back as
/// they were written.
impl<const N: usize> Plain for PgByteaArray<N> {
    ghost use Rattle.pgv_more.specs.ByteaBackLemmas.{sized_back};

    ghost View = { List ℕ };

    ghost view = { λ b. b.0 };

    ghost parse = { without_memory (parse_bytea_sized N) };

    ghost null = { λ _ _. refl };

    ghost written = { λ _ m. plainly (writes (bytea_sized_image N m)) };

    fn read(_alloc: Global, value: &PgValueRef<'_>) -> Result<PgByteaArray<N>, CodecError> {
        let bytes = value.as_bytes()?;
        match value.format() {
            PgValueFormat::Binary => of_bytes(bytes),
            PgValueFormat::Text => of_text(bytes),
        }
    }

    #[inline(always)]
    fn width() -> usize {
        0
    }

    ghost reads_back = { sized_back N };

    ghost agrees = { λ _. refl };
}
