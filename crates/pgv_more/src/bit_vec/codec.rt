//! Lists of bits, written and read (PostgreSQL, "Bit String Types").

ghost use Rattle.std.specs.Prelude.{Bool, List, ok_or, refl};
ghost use Rattle.pgv_types.specs.Ty.{builtin};
ghost use Rattle.pgv_value.specs.Outcome.{Gives, copied};
ghost use Rattle.pgv_value.specs.declared.error.CodecError.TheVariants.{Syntax};
ghost use Rattle.pgv_more.specs.BitsBinary.{bits_image, bits_hint, bits_in_binary};
ghost use Rattle.pgv_more.specs.BitsText.{bits_in_text};
ghost use Rattle.pgv_more.specs.BitsCodec.{is_bits, is_bits_array, parse_bits};
ghost use Rattle.pgv_codec.specs.Encoding.{with_hint};

use super::BitVec;
use pgv_codec::{Encode, IsNull, PgArgumentBuffer, PgHasArrayType, Plain, Type};
use pgv_types::{PgType, PgTypeInfo};
use pgv_value::{CodecError, MAX_LENGTH, PgValueFormat, PgValueRef, u32_in_front};
use std::alloc::{AllocError, Global};

/// `varbit` (OID 1562), read under `bit`, `varbit` and domains over one of them.
impl Type for BitVec {
    ghost info = { builtin 1562 };

    ghost accepts = { is_bits };

    fn type_info() -> PgTypeInfo {
        PgTypeInfo(PgType::Varbit)
    }

    fn compatible(type_info: &PgTypeInfo) -> bool {
        type_info.type_compatible(&PgTypeInfo(PgType::Bit))
            || type_info.type_compatible(&PgTypeInfo(PgType::Varbit))
    }
}

/// An array of them is `varbit[]` (OID 1563), read under arrays of `bit` and of `varbit`.
impl PgHasArrayType for BitVec {
    ghost array_info = { builtin 1563 };

    ghost accepts_array = { is_bits_array };

    fn array_type_info() -> PgTypeInfo {
        PgTypeInfo(PgType::VarbitArray)
    }

    fn array_compatible(type_info: &PgTypeInfo) -> bool {
        type_info.type_compatible(&PgTypeInfo(PgType::BitArray))
            || type_info.type_compatible(&PgTypeInfo(PgType::VarbitArray))
    }
}

/// Bits are written as their number, in four bytes, and then in bytes, the first bit highest, with zeros after the
/// last: `101` is `00000003a0`. More than 2147483647 are refused with [`ValueSize`](CodecError::ValueSize) (C2).
impl Encode for BitVec {
    ghost encoding = { λ bits. with_hint (bits_hint bits) (bits_image bits) };

    fn encode_by_ref(&self, out: &mut PgArgumentBuffer) -> Result<IsNull, CodecError> {
        let count = self.len();
        let Ok(number) = i32::try_from(count) else {
            return Err(CodecError::ValueSize(count));
        };
        out.extend_from_slice(&number.to_be_bytes())?;
        out.extend_from_slice(self.as_bytes())?;
        Ok(IsNull::No)
    }

    fn size_hint(&self) -> usize {
        self.len().saturating_add(4)
    }

    fn produces(&self) -> Result<Option<PgTypeInfo>, AllocError> {
        Ok(None)
    }
}

/// The bits of a number and of bytes after it.
#[tactic(auto, unfolding(pgv_value::specs::ReadingSteps::number))]
fn read_binary(alloc: Global, form: &[u8]) -> Result<BitVec, CodecError>
    ensures { Gives (λ bits. bits) (copied (bits_in_binary form.now)) result }
{
    let (count, body) = u32_in_front(form)?;
    if count > MAX_LENGTH {
        return Err(CodecError::NegativeLength(count.cast_signed()));
    }
    let count = count as usize;
    if body.len() != count.div_ceil(8) {
        return Err(CodecError::WrongLength(form.len()));
    }
    Ok(BitVec::from_packed(alloc, body, count)?)
}

/// The bits of digits `0` and `1`. Another text is refused with [`Syntax`](CodecError::Syntax) (C29).
fn read_text(alloc: Global, text: &str) -> Result<BitVec, CodecError>
    ensures { Gives (λ bits. bits) (copied (ok_or (bits_in_text text.now) Syntax)) result }
{
    match BitVec::from_digits(alloc, text.as_bytes())? {
        Some(bits) => Ok(bits),
        None => Err(CodecError::Syntax),
    }
}

/// Bits are read in binary as they are written, whatever fills the last byte after them: fewer than four bytes are
/// refused with [`Short`](CodecError::Short) (C15), a negative number with
/// [`NegativeLength`](CodecError::NegativeLength) (C16), and another number of bytes than the bits need with
/// [`WrongLength`](CodecError::WrongLength) (C17). A text is digits `0` and `1`, perhaps none, else
/// [`Syntax`](CodecError::Syntax) (C29). Null is refused with [`UnexpectedNull`](CodecError::UnexpectedNull) (C13).
/// `00000003a0` and the text `101` are `101`. For no bits no memory is asked for. Bits come back as they were written.
impl Plain for BitVec {
    ghost use Rattle.pgv_more.specs.BitsBackLemmas.{bits_back};

    ghost View = { List Bool };

    ghost view = { λ bits. bits };

    ghost parse = { parse_bits };

    ghost null = { λ _ _. refl };

    ghost written = { λ _ m. with_hint (bits_hint m) (bits_image m) };

    fn read(alloc: Global, value: &PgValueRef<'_>) -> Result<BitVec, CodecError> {
        match value.format() {
            PgValueFormat::Binary => read_binary(alloc, value.as_bytes()?),
            PgValueFormat::Text => read_text(alloc, value.as_str()?),
        }
    }

    ghost reads_back = { bits_back };

    ghost agrees = { λ _. refl };
}
