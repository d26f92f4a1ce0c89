//! Dates, times of day, date-times and instants.

ghost use Rattle.std.specs.Prelude.{◌≡◌};
ghost use Rattle.std.specs.Option.{option_map};
ghost use Rattle.jiff.specs.Words.{civil_nanos, epoch_day, time_nanos};
ghost use Rattle.pgv_scalar_text.specs.DateTimeText.{instant_nanos};
ghost use Rattle.pgv_value.specs.DateTimeBinary.{civil_at, day_after, nanos_after, time_after};
ghost use Rattle.pgv_value.specs.DateTimeBinary.{date_of_bytes, parse_date, parse_date_time, parse_instant, parse_time};
ghost use Rattle.pgv_value.specs.Parsed.{GivesExactly};

use super::int::{number_of_32, whole_number_of};
use crate::error::CodecError;
use crate::value::{PgValueFormat, PgValueRef};
use jiff::Timestamp;
use jiff::civil::{Date, DateTime, Time};
use pgv_scalar_text::{date, date_time, instant, time};

/// The days from 1970-01-01 to 2000-01-01, from which dates are counted.
pub const FIRST_DAY: i32 = 10_957;

/// The nanoseconds from 1970-01-01 00:00 UTC to 2000-01-01 00:00 UTC, from which date-times and instants are counted.
pub const FIRST_NANOSECOND: i128 = 946_684_800_000_000_000;

/// The microseconds of a day.
const DAY: i64 = 86_400_000_000;

/// The date that many days after 2000-01-01.
fn date_after(days: i32) -> Option<Date>
    ensures { option_map epoch_day result ≡ day_after days }
{
    let plain = jiff_core::civil::Date::from_unix_epoch_day(days as i64 + FIRST_DAY as i64);
    plain.ok().map(Date::from_plain)
}

/// The time that is this many microseconds after midnight, round the clock: for 86400000001 it is one microsecond after
/// midnight.
pub fn time_at(micros: i64) -> Time
    ensures { time_nanos result ≡ time_after micros }
{
    let micros = micros.rem_euclid(DAY) as u64;
    Time::from_plain(jiff_core::civil::Time::from_nanosecond(micros * 1000))
}

/// The nanoseconds from 1970 that many microseconds after 2000-01-01 00:00.
fn nanos_of(micros: i64) -> i128
    ensures { result ≡ nanos_after micros }
{
    micros as i128 * 1000 + FIRST_NANOSECOND
}

/// The date-time that many microseconds after 2000-01-01 00:00.
fn date_time_after(micros: i64) -> Option<DateTime>
    ensures { option_map civil_nanos result ≡ civil_at (nanos_after micros) }
{
    let plain = jiff_core::civil::DateTime::from_nanosecond(nanos_of(micros));
    plain.ok().map(DateTime::from_plain)
}

/// The instant that many microseconds after 2000-01-01 00:00 UTC.
fn instant_after(micros: i64) -> Option<Timestamp>
    ensures { option_map (λ at. at.nanosecond) result ≡ instant_nanos (nanos_after micros) }
{
    Timestamp::from_nanosecond(nanos_of(micros)).ok()
}

/// Reads a `date` in binary: the days from 2000-01-01, in one to eight bytes of two's complement. Another number of
/// bytes is refused with [`WrongLength`](CodecError::WrongLength) (C17), a day outside the years -9999 to 9999 with
/// [`OutOfRange`](CodecError::OutOfRange) (C30). `00000001` is 2000-01-02.
#[inline(always)]
pub fn date_of_bytes(bytes: &[u8]) -> Result<Date, CodecError>
    ensures { GivesExactly epoch_day (date_of_bytes bytes.now) result }
{
    date_after(number_of_32(bytes)?).ok_or(CodecError::OutOfRange)
}

/// Reads a `date`: in binary the days from 2000-01-01, in one to eight bytes of two's complement, and in text
/// `YYYY-MM-DD`. Another number of bytes is refused with [`WrongLength`](CodecError::WrongLength) (C17), a day outside
/// the years -9999 to 9999 with [`OutOfRange`](CodecError::OutOfRange) (C30), and another text with
/// [`Syntax`](CodecError::Syntax) (C29). `00000001` and `2000-01-02` are the same day.
pub fn read_date(value: &PgValueRef<'_>) -> Result<Date, CodecError>
    ensures { GivesExactly epoch_day (parse_date value.now) result }
{
    match value.format() {
        PgValueFormat::Binary => date_of_bytes(value.as_bytes()?),
        PgValueFormat::Text => date(value.as_str()?).ok_or(CodecError::Syntax),
    }
}

/// Reads a `time`: in binary the microseconds of the day, in one to eight bytes of two's complement and round the
/// clock, and in text `HH:MM:SS`, perhaps with a fraction of up to six digits, or `24:00:00` for midnight. Another
/// number of bytes is refused with [`WrongLength`](CodecError::WrongLength) (C17), and another text with
/// [`Syntax`](CodecError::Syntax) (C29). `00000000000f4240` and `00:00:01` are the first second.
pub fn read_time(value: &PgValueRef<'_>) -> Result<Time, CodecError>
    ensures { GivesExactly time_nanos (parse_time value.now) result }
{
    match value.format() {
        PgValueFormat::Binary => Ok(time_at(whole_number_of(value.as_bytes()?)?)),
        PgValueFormat::Text => time(value.as_str()?).ok_or(CodecError::Syntax),
    }
}

/// Reads a `timestamp`: in binary the microseconds from 2000-01-01 00:00, in one to eight bytes of two's complement,
/// and in text a date, a space, a time, and perhaps an offset with `+`, which is ignored. Another number of bytes is
/// refused with [`WrongLength`](CodecError::WrongLength) (C17), a date-time outside the years -9999 to 9999 with
/// [`OutOfRange`](CodecError::OutOfRange) (C30), and another text with [`Syntax`](CodecError::Syntax) (C29).
/// `00000000000f4240` and `2000-01-01 00:00:01` are the same.
pub fn read_date_time(value: &PgValueRef<'_>) -> Result<DateTime, CodecError>
    ensures { GivesExactly civil_nanos (parse_date_time value.now) result }
{
    match value.format() {
        PgValueFormat::Binary => {
            date_time_after(whole_number_of(value.as_bytes()?)?).ok_or(CodecError::OutOfRange)
        }
        PgValueFormat::Text => date_time(value.as_str()?).ok_or(CodecError::Syntax),
    }
}

/// Reads a `timestamptz`: in binary the microseconds from 2000-01-01 00:00 UTC, in one to eight bytes of two's
/// complement, and in text a date, a space, a time and an offset. Another number of bytes is refused with
/// [`WrongLength`](CodecError::WrongLength) (C17), an instant outside those of `jiff` with
/// [`OutOfRange`](CodecError::OutOfRange) (C30) in binary, and another text with [`Syntax`](CodecError::Syntax) (C29).
/// `00000000000f4240` and `2000-01-01 02:00:01+02` are the same instant.
pub fn read_instant(value: &PgValueRef<'_>) -> Result<Timestamp, CodecError>
    ensures { GivesExactly (λ at. at.nanosecond) (parse_instant value.now) result }
{
    match value.format() {
        PgValueFormat::Binary => {
            instant_after(whole_number_of(value.as_bytes()?)?).ok_or(CodecError::OutOfRange)
        }
        PgValueFormat::Text => instant(value.as_str()?).ok_or(CodecError::Syntax),
    }
}
