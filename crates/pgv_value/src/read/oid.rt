//! Object identifiers.

ghost use Rattle.pgv_value.specs.ScalarGrammar.{parse_oid};
ghost use Rattle.pgv_value.specs.Parsed.{GivesExactly};

use crate::error::CodecError;
use crate::front::u32_in_front;
use crate::read::int::in_type;
use crate::value::{PgValueFormat, PgValueRef};
use pgv_scalar_text::unsigned_number_of;
use pgv_types::Oid;

/// Reads an `oid`: in binary the first four bytes, the highest first, whatever comes after them, and in text perhaps
/// `+` and one or more digits. Fewer bytes are refused with [`Short`](CodecError::Short) (C15), another text with
/// [`Syntax`](CodecError::Syntax) (C29), and a number above 4294967295 with [`OutOfRange`](CodecError::OutOfRange)
/// (C30). `00000019` and `25` are the OID of `text`.
pub fn read_oid(value: &PgValueRef<'_>) -> Result<Oid, CodecError>
    ensures { GivesExactly (λ oid. oid.0) (parse_oid value.now) result }
{
    match value.format() {
        PgValueFormat::Binary => {
            let (number, _rest) = u32_in_front(value.as_bytes()?)?;
            Ok(Oid(number))
        }
        PgValueFormat::Text => {
            let number = in_type(u32::try_from(unsigned_number_of(value.as_str()?)?))?;
            Ok(Oid(number))
        }
    }
}
