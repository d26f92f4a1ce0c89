//! MAC addresses, written and read (PostgreSQL, "Network Address Types", macaddr).

ghost use Rattle.std.specs.Prelude.{ℕ, List, ok_or, refl};
ghost use Rattle.pgv_types.specs.Ty.{builtin};
ghost use Rattle.pgv_types.specs.Relations.{softly};
ghost use Rattle.pgv_value.specs.Outcome.{without_memory};
ghost use Rattle.pgv_value.specs.Parsed.{GivesExactly};
ghost use Rattle.pgv_value.specs.declared.error.CodecError.TheVariants.{Syntax};
ghost use Rattle.pgv_more.specs.MacAddressCodec.{mac_image, parse_mac, six};
ghost use Rattle.pgv_more.specs.MacAddressText.{mac_value};
ghost use Rattle.pgv_codec.specs.Encoding.{with_hint, writes};

use super::MacAddress;
use pgv_codec::{Encode, IsNull, PgArgumentBuffer, PgHasArrayType, Plain, Type};
use pgv_types::{PgType, PgTypeInfo};
use pgv_value::{CodecError, PgValueFormat, PgValueRef};
use std::alloc::{AllocError, Global};

/// The address of six bytes.
#[inline(always)]
fn of_bytes(bytes: &[u8]) -> Result<MacAddress, CodecError>
    ensures { GivesExactly (λ address. address) (six bytes.now) result }
{
    match <[u8; 6]>::try_from(bytes) {
        Ok(bytes) => Ok(MacAddress::new(bytes)),
        Err(_) => Err(CodecError::WrongLength(bytes.len())),
    }
}

/// The address of a text.
#[inline(always)]
fn of_text(text: &str) -> Result<MacAddress, CodecError>
    ensures { GivesExactly (λ address. address) (ok_or (mac_value text.now) Syntax) result }
{
    MacAddress::from_str(text).ok_or(CodecError::Syntax)
}

/// `macaddr` (OID 829), read under `macaddr` and domains over it.
impl Type for MacAddress {
    ghost info = { builtin 829 };

    ghost accepts = { λ t. softly t (builtin 829) };

    fn type_info() -> PgTypeInfo {
        PgTypeInfo(PgType::Macaddr)
    }

    fn compatible(type_info: &PgTypeInfo) -> bool {
        type_info.type_compatible(&Self::type_info())
    }
}

/// An array of them is `macaddr[]` (OID 1040).
impl PgHasArrayType for MacAddress {
    ghost array_info = { builtin 1040 };

    ghost accepts_array = { λ t. softly t (builtin 1040) };

    fn array_type_info() -> PgTypeInfo {
        PgTypeInfo(PgType::MacaddrArray)
    }

    fn array_compatible(type_info: &PgTypeInfo) -> bool {
        type_info.type_compatible(&Self::array_type_info())
    }
}

/// An address is written as its six bytes.
/// `08:00:2b:01:02:03` is `08002b010203`.
impl Encode for MacAddress {
    ghost encoding = { λ address. with_hint 6 (writes (mac_image address)) };

    fn encode_by_ref(&self, out: &mut PgArgumentBuffer) -> Result<IsNull, CodecError> {
        out.extend_from_slice(&self.bytes())?;
        Ok(IsNull::No)
    }

    fn size_hint(&self) -> usize {
        6
    }

    fn produces(&self) -> Result<Option<PgTypeInfo>, AllocError> {
        Ok(None)
    }
}

/// An address is read in binary from its six bytes, where another number of bytes is refused with
/// [`WrongLength`](CodecError::WrongLength) (C17), and in text as [`from_str`](MacAddress::from_str) reads it, else
/// [`Syntax`](CodecError::Syntax) (C29). Null is refused with [`UnexpectedNull`](CodecError::UnexpectedNull) (C13).
/// `08002b010203` and the text `08:00:2b:01:02:03` are one address. An address comes back as it was written.
impl Plain for MacAddress {
    ghost use Rattle.pgv_more.specs.MacAddressBackLemmas.{mac_back};

    ghost View = { List ℕ };

    ghost view = { λ address. address };

    ghost parse = { without_memory parse_mac };

    ghost null = { λ _ _. refl };

    ghost written = { λ _ m. with_hint 6 (writes (mac_image m)) };

    #[inline(always)]
    fn read(_alloc: Global, value: &PgValueRef<'_>) -> Result<MacAddress, CodecError> {
        match value.format() {
            PgValueFormat::Binary => of_bytes(value.as_bytes()?),
            PgValueFormat::Text => of_text(value.as_str()?),
        }
    }

    ghost reads_back = { mac_back };

    ghost agrees = { λ _. refl };
}
