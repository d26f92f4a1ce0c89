//! Truth values.

ghost use Rattle.pgv_value.specs.ScalarGrammar.{parse_bool};
ghost use Rattle.pgv_value.specs.Parsed.{GivesExactly};

use crate::error::CodecError;
use crate::value::{PgValueFormat, PgValueRef};
use pgv_scalar_text::bool_of;

/// Reads a `bool`: in binary whether the first byte is other than zero, whatever comes after it, and in text `t` or
/// `f`. No byte is refused with [`Short`](CodecError::Short) (C15), and another text with
/// [`Syntax`](CodecError::Syntax) (C29). `01` and `t` are `true`.
pub fn read_bool(value: &PgValueRef<'_>) -> Result<bool, CodecError>
    ensures { GivesExactly (λ truth. truth) (parse_bool value.now) result }
{
    match value.format() {
        PgValueFormat::Binary => match value.as_bytes()? {
            [first, ..] => Ok(*first != 0),
            [] => Err(CodecError::Short),
        },
        PgValueFormat::Text => bool_of(value.as_str()?).ok_or(CodecError::Syntax),
    }
}
