//! Universally unique identifiers.

ghost use Rattle.std.specs.Prelude.{ok_or};
ghost use Rattle.pgv_value.specs.ScalarGrammar.{parse_uuid};
ghost use Rattle.pgv_value.specs.Parsed.{GivesExactly};
ghost use Rattle.pgv_value.specs.declared.error.CodecError.TheVariants.{Syntax};
ghost use Rattle.uuid.specs.Text.{parsed};

use crate::error::CodecError;
use crate::value::{PgValueFormat, PgValueRef};
use uuid::Uuid;

/// The identifier of a text. Another text is refused with [`Syntax`](CodecError::Syntax) (C29).
#[tactic(auto, using(crate::proofs::Outcomes::none_there))]
fn uuid_of(text: &str) -> Result<Uuid, CodecError>
    ensures { GivesExactly (λ id. id) (ok_or (parsed text.now) Syntax) result }
{
    match Uuid::parse_str(text) {
        Ok(id) => Ok(id),
        Err(_) => Err(CodecError::Syntax),
    }
}

/// Reads a `uuid`: in binary its sixteen bytes, and in text its 32 hex digits of either case, also hyphenated, in
/// braces or after `urn:uuid:`. Another number of bytes is refused with [`WrongLength`](CodecError::WrongLength) (C17),
/// and another text with [`Syntax`](CodecError::Syntax) (C29). `550e8400e29b41d4a716446655440000` is read in either
/// format, as bytes and as digits.
pub fn read_uuid(value: &PgValueRef<'_>) -> Result<Uuid, CodecError>
    ensures { GivesExactly (λ id. id) (parse_uuid value.now) result }
{
    match value.format() {
        PgValueFormat::Binary => {
            let bytes = value.as_bytes()?;
            match Uuid::from_slice(bytes) {
                Ok(id) => Ok(id),
                Err(_) => Err(CodecError::WrongLength(bytes.len())),
            }
        }
        PgValueFormat::Text => uuid_of(value.as_str()?),
    }
}
