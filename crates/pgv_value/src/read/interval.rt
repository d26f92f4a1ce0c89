//! Intervals.

ghost use Rattle.pgv_value.specs.Interval.{interval_in_binary, parse_interval};
ghost use Rattle.pgv_value.specs.Parsed.{GivesExactly};

use crate::error::CodecError;
use crate::front::{number_of_eight, number_of_four};
use crate::interval::PgInterval;
use crate::value::{PgValueFormat, PgValueRef};

/// The interval of sixteen bytes, whatever comes after them.
fn interval_of_bytes(bytes: &[u8]) -> Result<PgInterval, CodecError>
    ensures { GivesExactly (λ interval. interval) (interval_in_binary bytes.now) result }
{
    if bytes.len() < 16 {
        return Err(CodecError::Short);
    }
    let (microseconds, rest) = bytes.split_at(8);
    let (days, months) = rest.split_at(4);
    Ok(PgInterval {
        months: number_of_four(months),
        days: number_of_four(days),
        microseconds: number_of_eight(microseconds),
    })
}

/// Reads an `interval`, in binary alone: the microseconds in eight bytes, the days in four and the months in four, each
/// signed, the highest byte first, whatever comes after them. Fewer bytes are refused with [`Short`](CodecError::Short)
/// (C15), and a text with [`TextUnsupported`](CodecError::TextUnsupported) (C18). `00000000d693a400 00000000 00000000`
/// is an hour.
pub fn read_interval(value: &PgValueRef<'_>) -> Result<PgInterval, CodecError>
    ensures { GivesExactly (λ interval. interval) (parse_interval value.now) result }
{
    let bytes = value.as_bytes()?;
    match value.format() {
        PgValueFormat::Binary => interval_of_bytes(bytes),
        PgValueFormat::Text => Err(CodecError::TextUnsupported),
    }
}
