//! Dates, times of day, date-times without a time zone, and instants (PostgreSQL, "Date/Time Types": date, time,
//! timestamp and timestamptz).

ghost use Rattle.std.specs.Int.{w64};
ghost use Rattle.std.specs.Prelude.{◌≡◌, ◌/◌, FitsSigned, ℕ, ℤ, pos, refl};
ghost use Rattle.jiff.specs.Words.{civil_nanos, epoch_day, time_nanos};
ghost use Rattle.pgv_types.specs.Ty.{builtin};
ghost use Rattle.pgv_value.specs.Outcome.{without_memory};
ghost use Rattle.pgv_value.specs.DateTimeBinary.{parse_date, parse_date_time, parse_instant, parse_time};
ghost use Rattle.pgv_codec.specs.DateTimeImage.{date_image, days_of, micros_of, moment_image, time_image};
ghost use Rattle.pgv_codec.specs.Encoding.{with_hint, writes};

use super::int::{write_i32, write_i64};
use crate::buffer::{IsNull, PgArgumentBuffer};
use crate::traits::{BuiltIn, HasBuiltIn, Of, Plain, Scalar};
use crate::types::fixed::{Fixed, write_fixed};
use crate::types::part::binary_value;
use jiff::Timestamp;
use jiff::civil::{Date, DateTime, Time};
use pgv_types::{PgType, PgTypeInfo};
use pgv_value::{
    CodecError, FIRST_DAY, FIRST_NANOSECOND, PgValueRef, date_of_bytes, read_date, read_date_time,
    read_instant, read_time,
};
use std::alloc::Global;

/// The days from 2000-01-01.
fn days_from_2000(date: Date) -> i32
    ensures { result ≡ days_of (epoch_day date) }
{
    date.to_plain().to_unix_epoch_day() - FIRST_DAY
}

impl HasBuiltIn for Date {}
/// `date` (OID 1082), read under `date` and domains over it. An array of them is `date[]` (OID 1182).
impl BuiltIn for Of<Date> {
    ghost INFO = { builtin 1082 };

    ghost ARRAY_INFO = { builtin 1182 };

    const INFO: PgTypeInfo = PgTypeInfo(PgType::Date);

    const ARRAY_INFO: PgTypeInfo = PgTypeInfo(PgType::DateArray);
}

/// Written as four bytes, the days from 2000-01-01: 2024-02-29 as `00002279`.
impl Scalar for Date {
    ghost SIZE = { 4 };

    ghost image = { λ v. writes (date_image (epoch_day v)) };

    const SIZE: usize = 4;

    #[inline(always)]
    fn write(&self, out: &mut PgArgumentBuffer) -> Result<IsNull, CodecError> {
        write_i32(days_from_2000(*self), out)
    }

    #[inline(always)]
    fn write_first(values: &[Date], out: &mut PgArgumentBuffer) -> Result<usize, CodecError> {
        write_fixed::<Date, 4, 8, 8, 64>(values, out)
    }
}

impl Fixed<4> for Date {
    ghost encoding = { λ date. with_hint 4 (writes (date_image (epoch_day date))) };

    #[inline(always)]
    fn image(&self) -> [u8; 4] {
        days_from_2000(*self).to_be_bytes()
    }
}

/// A `date`, as [`read_date`] reads it: `00002279` and `2024-02-29` are the same day.
/// A date comes back as it is.
impl Plain for Date {
    ghost use Rattle.pgv_codec.specs.DateTimeBackLemmas.{date_back};

    ghost View = { ℤ };

    ghost view = { epoch_day };

    ghost parse = { without_memory parse_date };

    ghost null = { λ _ _. refl };

    ghost written = { λ _ m. with_hint 4 (writes (date_image m)) };

    fn read(_alloc: Global, value: &PgValueRef<'_>) -> Result<Date, CodecError> {
        read_date(value)
    }

    #[inline(always)]
    fn width() -> usize {
        4
    }

    #[inline(always)]
    fn read_at_once(bytes: &[u8]) -> Option<Date> {
        date_of_bytes(bytes).ok()
    }

    ghost reads_back = { date_back };

    ghost agrees = { λ _. refl };
}

/// The microseconds of the day; what is less is cut off.
pub fn micros_of_day(time: Time) -> i64
    ensures { result ≡ pos (time_nanos time / 1000) }
{
    (time.to_plain().to_nanosecond() / 1000) as i64
}

impl HasBuiltIn for Time {}
/// `time` (OID 1083), read under `time` and domains over it. An array of them is `time[]` (OID 1183).
impl BuiltIn for Of<Time> {
    ghost INFO = { builtin 1083 };

    ghost ARRAY_INFO = { builtin 1183 };

    const INFO: PgTypeInfo = PgTypeInfo(PgType::Time);

    const ARRAY_INFO: PgTypeInfo = PgTypeInfo(PgType::TimeArray);
}

/// Written as eight bytes, the microseconds of the day: 12:30 as `0000000a7a358200`.
impl Scalar for Time {
    ghost SIZE = { 8 };

    ghost image = { λ v. writes (time_image (time_nanos v)) };

    const SIZE: usize = 8;

    #[inline(always)]
    fn write(&self, out: &mut PgArgumentBuffer) -> Result<IsNull, CodecError> {
        write_i64(micros_of_day(*self), out)
    }

    #[inline(always)]
    fn write_first(values: &[Time], out: &mut PgArgumentBuffer) -> Result<usize, CodecError> {
        write_fixed::<Time, 8, 12, 8, 96>(values, out)
    }
}

impl Fixed<8> for Time {
    ghost encoding = { λ time. with_hint 8 (writes (time_image (time_nanos time))) };

    #[inline(always)]
    fn image(&self) -> [u8; 8] {
        micros_of_day(*self).to_be_bytes()
    }
}

/// A `time`, as [`read_time`] reads it: `0000000a7a358200` and `12:30:00` are half past twelve.
/// A time comes back in whole microseconds; what is less is cut off.
impl Plain for Time {
    ghost use Rattle.pgv_codec.specs.DateTimeBackLemmas.{time_back};
    ghost use Rattle.pgv_codec.specs.DateTimeKept.{time_kept};

    ghost View = { ℕ };

    ghost view = { time_nanos };

    ghost parse = { without_memory parse_time };

    ghost null = { λ _ _. refl };

    ghost written = { λ _ m. with_hint 8 (writes (time_image m)) };

    ghost kept = { time_kept };

    fn read(_alloc: Global, value: &PgValueRef<'_>) -> Result<Time, CodecError> {
        read_time(value)
    }

    #[inline(always)]
    fn width() -> usize {
        8
    }

    #[inline(always)]
    fn read_at_once(bytes: &[u8]) -> Option<Time> {
        read_time(&binary_value(bytes, Of::<Time>::INFO)).ok()
    }

    ghost reads_back = { time_back };

    ghost agrees = { λ _. refl };
}

/// The microseconds from 2000-01-01 00:00 to this number of nanoseconds after 1970-01-01 00:00; what is less is cut
/// off, towards the former.
#[inline(always)]
fn micros_from_2000(nanos: i128) -> i64
    requires { FitsSigned w64 (micros_of nanos) }
    ensures { result ≡ micros_of nanos }
{
    ((nanos - FIRST_NANOSECOND) / 1000) as i64
}

impl HasBuiltIn for DateTime {}
/// `timestamp` (OID 1114), read under `timestamp` and domains over it. An array of them is `timestamp[]` (OID 1115).
impl BuiltIn for Of<DateTime> {
    ghost INFO = { builtin 1114 };

    ghost ARRAY_INFO = { builtin 1115 };

    const INFO: PgTypeInfo = PgTypeInfo(PgType::Timestamp);

    const ARRAY_INFO: PgTypeInfo = PgTypeInfo(PgType::TimestampArray);
}

/// Written as eight bytes, the microseconds from 2000-01-01 00:00: one second later as `00000000000f4240`.
impl Scalar for DateTime {
    ghost SIZE = { 8 };

    ghost image = { λ v. writes (moment_image (civil_nanos v)) };

    const SIZE: usize = 8;

    #[inline(always)]
    fn write(&self, out: &mut PgArgumentBuffer) -> Result<IsNull, CodecError> {
        write_i64(micros_from_2000(self.to_plain().to_nanosecond()), out)
    }

    #[inline(always)]
    fn write_first(values: &[DateTime], out: &mut PgArgumentBuffer) -> Result<usize, CodecError> {
        write_fixed::<DateTime, 8, 12, 8, 96>(values, out)
    }
}

impl Fixed<8> for DateTime {
    ghost encoding = { λ moment. with_hint 8 (writes (moment_image (civil_nanos moment))) };

    #[inline(always)]
    fn image(&self) -> [u8; 8] {
        micros_from_2000(self.to_plain().to_nanosecond()).to_be_bytes()
    }
}

/// A `timestamp`, as [`read_date_time`] reads it: `00000000000f4240` and `2000-01-01 00:00:01` are the same. A
/// date-time comes back in whole microseconds, cut towards 2000-01-01 00:00: one before 2000 may come back as the
/// midnight after it.
impl Plain for DateTime {
    ghost use Rattle.pgv_codec.specs.DateTimeBackLemmas.{date_time_back};
    ghost use Rattle.pgv_codec.specs.DateTimeKept.{date_time_kept};

    ghost View = { ℤ };

    ghost view = { civil_nanos };

    ghost parse = { without_memory parse_date_time };

    ghost null = { λ _ _. refl };

    ghost written = { λ _ m. with_hint 8 (writes (moment_image m)) };

    ghost kept = { date_time_kept };

    fn read(_alloc: Global, value: &PgValueRef<'_>) -> Result<DateTime, CodecError> {
        read_date_time(value)
    }

    #[inline(always)]
    fn width() -> usize {
        8
    }

    #[inline(always)]
    fn read_at_once(bytes: &[u8]) -> Option<DateTime> {
        read_date_time(&binary_value(bytes, Of::<DateTime>::INFO)).ok()
    }

    ghost reads_back = { date_time_back };

    ghost agrees = { λ _. refl };
}

impl HasBuiltIn for Timestamp {}
/// `timestamptz` (OID 1184), read under `timestamptz` and domains over it. An array of them is `timestamptz[]` (OID
/// 1185).
impl BuiltIn for Of<Timestamp> {
    ghost INFO = { builtin 1184 };

    ghost ARRAY_INFO = { builtin 1185 };

    const INFO: PgTypeInfo = PgTypeInfo(PgType::Timestamptz);

    const ARRAY_INFO: PgTypeInfo = PgTypeInfo(PgType::TimestamptzArray);
}

/// Written as eight bytes, the microseconds from 2000-01-01 00:00 UTC: one second later as `00000000000f4240`.
impl Scalar for Timestamp {
    ghost SIZE = { 8 };

    ghost image = { λ v. writes (moment_image v.nanosecond) };

    const SIZE: usize = 8;

    #[inline(always)]
    fn write(&self, out: &mut PgArgumentBuffer) -> Result<IsNull, CodecError> {
        write_i64(micros_from_2000(self.as_nanosecond()), out)
    }

    #[inline(always)]
    fn write_first(values: &[Timestamp], out: &mut PgArgumentBuffer) -> Result<usize, CodecError> {
        write_fixed::<Timestamp, 8, 12, 8, 96>(values, out)
    }
}

impl Fixed<8> for Timestamp {
    ghost encoding = { λ instant. with_hint 8 (writes (moment_image instant.nanosecond)) };

    #[inline(always)]
    fn image(&self) -> [u8; 8] {
        micros_from_2000(self.as_nanosecond()).to_be_bytes()
    }
}

/// A `timestamptz`, as [`read_instant`] reads it: `00000000000f4240` and `2000-01-01 02:00:01+02` are the same.
/// An instant comes back in whole microseconds, cut towards 2000-01-01 00:00 UTC.
impl Plain for Timestamp {
    ghost use Rattle.pgv_codec.specs.DateTimeBackLemmas.{instant_back};
    ghost use Rattle.pgv_codec.specs.DateTimeKept.{instant_kept};

    ghost View = { ℤ };

    ghost view = { λ at. at.nanosecond };

    ghost parse = { without_memory parse_instant };

    ghost null = { λ _ _. refl };

    ghost written = { λ _ m. with_hint 8 (writes (moment_image m)) };

    ghost kept = { instant_kept };

    fn read(_alloc: Global, value: &PgValueRef<'_>) -> Result<Timestamp, CodecError> {
        read_instant(value)
    }

    #[inline(always)]
    fn width() -> usize {
        8
    }

    #[inline(always)]
    fn read_at_once(bytes: &[u8]) -> Option<Timestamp> {
        read_instant(&binary_value(bytes, Of::<Timestamp>::INFO)).ok()
    }

    ghost reads_back = { instant_back };

    ghost agrees = { λ _. refl };
}
