//! Times of day with an offset from UTC (PostgreSQL, "Date/Time Types", timetz).

ghost use Rattle.std.specs.Prelude.{◌≡◌, ℕ, ℤ, OnErr, refl};
ghost use Rattle.std.specs.Option.{option_map};
ghost use Rattle.pgv_codec.specs.Appending.{Encodes, Extends};
ghost use Rattle.pgv_codec.specs.Encoding.{with_hint, writes};
ghost use Rattle.pgv_types.specs.Relations.{softly};
ghost use Rattle.pgv_types.specs.Ty.{builtin};
ghost use Rattle.pgv_scalar_text.specs.DateTimeText.{time_tz_value};
ghost use Rattle.pgv_value.specs.Outcome.{without_memory};
ghost use Rattle.pgv_value.specs.Parsed.{GivesExactly};
ghost use Rattle.pgv_more.specs.TimeTzCodec.{time_tz_numbers, time_tz_image, time_tz_in_binary, parse_time_tz, two_numbers, other_way, image_of_numbers};

use jiff::civil::Time;
use jiff::tz::Offset;
use pgv_codec::{Encode, IsNull, PgArgumentBuffer, PgHasArrayType, Plain, Type, micros_of_day};
use pgv_scalar_text::time_tz;
use pgv_types::{PgType, PgTypeInfo};
use pgv_value::{CodecError, PgValueFormat, PgValueRef, number_of_eight, number_of_four, time_at};
use std::alloc::{AllocError, Global};

/// The seconds of a day.
const DAY_SECONDS: u32 = 86_400;

/// A time of day, and how far its clock is ahead of UTC.
#[derive(Clone, Copy, Debug, PartialEq, Eq)]
pub struct PgTimeTz {
    /// What the clock shows.
    pub time: Time,
    /// How far it is ahead of UTC.
    pub offset: Offset,
}

/// The offset of seconds west of UTC, where they are less than a day.
#[inline(always)]
fn offset_west(west: i32) -> Option<Offset>
    ensures { option_map (λ offset. offset.seconds) result ≡ other_way west }
{
    if west.unsigned_abs() >= DAY_SECONDS {
        return None;
    }
    Offset::from_seconds(-west).ok()
}

/// The seconds west of UTC of an offset, where they are less than a day.
fn seconds_west(offset: Offset) -> Option<i32>
    ensures { result ≡ other_way offset.seconds }
{
    let east = offset.seconds();
    if east.unsigned_abs() >= DAY_SECONDS {
        return None;
    }
    Some(-east)
}

/// The two numbers of the first twelve bytes, whatever comes after them.
#[inline(always)]
fn numbers_of(form: &[u8]) -> Option<(i64, i32)>
    ensures { result ≡ two_numbers form.now }
{
    if form.len() < 12 {
        return None;
    }
    let (micros, west) = form.split_at(8);
    Some((number_of_eight(micros), number_of_four(west)))
}

/// The time and the offset of bytes.
#[inline(always)]
fn of_bytes(form: &[u8]) -> Result<PgTimeTz, CodecError>
    ensures { GivesExactly time_tz_numbers (time_tz_in_binary form.now) result }
{
    let Some((micros, west)) = numbers_of(form) else {
        return Err(CodecError::Short);
    };
    match offset_west(west) {
        Some(offset) => Ok(PgTimeTz {
            time: time_at(micros),
            offset,
        }),
        None => Err(CodecError::OffsetRange(west)),
    }
}

/// The time and the offset of a text.
fn of_text(text: &str) -> Option<PgTimeTz>
    ensures { option_map time_tz_numbers result ≡ time_tz_value text.now }
{
    let (time, offset) = time_tz(text)?;
    Some(PgTimeTz { time, offset })
}

/// Appends the microseconds of the day and the seconds west of UTC.
fn write_numbers(micros: i64, west: i32, out: &mut PgArgumentBuffer) -> Result<IsNull, CodecError>
    ensures encodes { Encodes (writes (image_of_numbers micros west)) out.old out.new result }
    ensures appended { OnErr result (Extends out.old out.new) }
{
    let micros = micros.to_be_bytes();
    let west = west.to_be_bytes();
    out.extend_from_slice(&micros)?;
    out.extend_from_slice(&west)?;
    Ok(IsNull::No)
}

/// `timetz` (OID 1266), read under `timetz` and domains over it.
impl Type for PgTimeTz {
    ghost info = { builtin 1266 };

    ghost accepts = { λ t. softly t (builtin 1266) };

    fn type_info() -> PgTypeInfo {
        PgTypeInfo(PgType::Timetz)
    }

    fn compatible(type_info: &PgTypeInfo) -> bool {
        type_info.type_compatible(&Self::type_info())
    }
}

/// An array of them is `timetz[]` (OID 1270).
impl PgHasArrayType for PgTimeTz {
    ghost array_info = { builtin 1270 };

    ghost accepts_array = { λ t. softly t (builtin 1270) };

    fn array_type_info() -> PgTypeInfo {
        PgTypeInfo(PgType::TimetzArray)
    }

    fn array_compatible(type_info: &PgTypeInfo) -> bool {
        type_info.type_compatible(&Self::array_type_info())
    }
}

/// Written as twelve bytes, the microseconds of the day and the seconds west of UTC: 12:30 two hours east as
/// `0000000a7a358200ffffe3e0`. An offset of a day or more in size is refused with
/// [`OffsetRange`](CodecError::OffsetRange) (C6).
impl Encode for PgTimeTz {
    ghost encoding = { λ v. with_hint 12 (time_tz_image (time_tz_numbers v)) };

    fn encode_by_ref(&self, out: &mut PgArgumentBuffer) -> Result<IsNull, CodecError> {
        match seconds_west(self.offset) {
            Some(west) => write_numbers(micros_of_day(self.time), west, out),
            None => Err(CodecError::OffsetRange(self.offset.seconds())),
        }
    }

    fn size_hint(&self) -> usize {
        12
    }

    fn produces(&self) -> Result<Option<PgTypeInfo>, AllocError> {
        Ok(None)
    }
}

/// Read in binary from the first twelve bytes, where fewer are refused with [`Short`](CodecError::Short) (C15): the
/// time round the clock, and an offset of less than a day, else [`OffsetRange`](CodecError::OffsetRange) (C6) with the
/// seconds that the bytes have. A text is a time and an offset, as [`time_tz`] reads it, else
/// [`Syntax`](CodecError::Syntax) (C29). Null is refused with [`UnexpectedNull`](CodecError::UnexpectedNull) (C13).
/// `0000000a7a358200ffffe3e0` and the text `12:30:00+02` are 12:30 two hours east. The time comes back in whole
/// microseconds, where what is less is cut off, and the offset as it is.
impl Plain for PgTimeTz {
    ghost use Rattle.pgv_more.specs.TimeTzBackLemmas.{time_tz_back, time_tz_kept};

    ghost View = { ℕ × ℤ };

    ghost view = { time_tz_numbers };

    ghost parse = { without_memory parse_time_tz };

    ghost null = { λ _ _. refl };

    ghost written = { λ _ m. with_hint 12 (time_tz_image m) };

    ghost kept = { time_tz_kept };

    #[inline(always)]
    fn read(_alloc: Global, value: &PgValueRef<'_>) -> Result<PgTimeTz, CodecError> {
        match value.format() {
            PgValueFormat::Binary => of_bytes(value.as_bytes()?),
            PgValueFormat::Text => of_text(value.as_str()?).ok_or(CodecError::Syntax),
        }
    }

    ghost reads_back = { time_tz_back };

    ghost agrees = { λ _. refl };
}
