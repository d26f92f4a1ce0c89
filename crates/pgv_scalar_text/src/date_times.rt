//! Texts of dates, times of day, date-times and instants, as PostgreSQL writes them. Each function gives what is
//! computed of a text; a law of each, as [`date_is_its_value`](crate::laws::date_is_its_value), says which texts these
//! are.

ghost use Rattle.std.specs.Prelude.{◌≡◌, ◌<◌};
ghost use Rattle.std.specs.Option.{option_copied, option_map};
ghost use Rattle.jiff.specs.Words.{epoch_day, civil_nanos, time_nanos};
ghost use Rattle.pgv_scalar_text.specs.DateTimeText as spec;
ghost use Rattle.pgv_scalar_text.specs.FieldText.{in_front};

use crate::field::{after, four, fraction, two};
use crate::offset::{is_ignored, offset_of};
use jiff::Timestamp;
use jiff::civil::{Date, DateTime, Time};
use jiff::tz::Offset;

/// The date of these numbers, if the calendar has it.
fn date_of(year: u16, month: u8, day: u8) -> Option<Date>
    requires year { year < 10_000 }
    requires month { month < 100 }
    requires day { day < 100 }
    ensures { option_map epoch_day result ≡ spec.day_number year month day }
{
    Date::new(year as i16, month as i8, day as i8).ok()
}

/// The date at the front, and the text after it.
fn date_front(text: &[u8]) -> Option<(Date, &[u8])>
    ensures { in_front epoch_day result ≡ spec.date_front text.now }
{
    let (year, text) = four(text)?;
    let (month, text) = two(after(text, b'-')?)?;
    let (day, text) = two(after(text, b'-')?)?;
    let date = date_of(year, month, day)?;
    Some((date, text))
}

/// The time of these numbers, if a clock shows it.
fn time_of(hour: u8, minute: u8, second: u8, nanos: u32) -> Option<Time>
    requires hour { hour < 100 }
    requires minute { minute < 100 }
    requires second { second < 100 }
    requires nanos { nanos < 1_000_000_000 }
    ensures { option_map time_nanos result ≡ spec.clock_nanos hour minute second nanos }
{
    Time::new(hour as i8, minute as i8, second as i8, nanos as i32).ok()
}

/// The time at the front, as a clock shows it, and the text after it.
fn clock_front(text: &[u8]) -> Option<(Time, &[u8])>
    ensures { in_front time_nanos result ≡ spec.clock_front text.now }
{
    let (hour, text) = two(text)?;
    let (minute, text) = two(after(text, b':')?)?;
    let (second, text) = two(after(text, b':')?)?;
    let (nanos, text) = fraction(text)?;
    let time = time_of(hour, minute, second, nanos)?;
    Some((time, text))
}

/// What follows `24:00:00`.
fn after_midnight(text: &[u8]) -> Option<&[u8]>
    ensures { option_copied result ≡ spec.after_midnight text.now }
{
    match text {
        [b'2', b'4', b':', b'0', b'0', b':', b'0', b'0', rest @ ..] => Some(rest),
        _ => None,
    }
}

/// The time at the front, which may be `24:00:00` for midnight, and the text after it.
fn time_front(text: &[u8]) -> Option<(Time, &[u8])>
    ensures { in_front time_nanos result ≡ spec.time_front text.now }
{
    match after_midnight(text) {
        Some(rest) => Some((Time::midnight(), rest)),
        None => clock_front(text),
    }
}

/// The date at the time.
#[tactic(auto, using(crate::proofs::Calendar::civil_parts))]
fn civil_of(date: Date, time: Time) -> DateTime
    ensures { civil_nanos result ≡ spec.nanos_at (epoch_day date) (time_nanos time) }
{
    DateTime::from_parts(date, time)
}

/// The date and the time at the front, with a space between them, and the text after them.
fn civil_front(text: &[u8]) -> Option<(DateTime, &[u8])>
    ensures { in_front civil_nanos result ≡ spec.civil_front text.now }
{
    let Some((date, text)) = date_front(text) else {
        return None;
    };
    let Some((time, text)) = clock_front(after(text, b' ')?) else {
        return None;
    };
    Some((civil_of(date, time), text))
}

/// The date of a text: `YYYY-MM-DD`, a day that exists.
pub fn date(text: &str) -> Option<Date>
    ensures { option_map epoch_day result ≡ spec.date_value text.now }
{
    match date_front(text.as_bytes()) {
        Some((date, [])) => Some(date),
        _ => None,
    }
}

/// The time of a text: `HH:MM:SS`, perhaps with `.` and one to six digits, or exactly `24:00:00`, which is midnight.
pub fn time(text: &str) -> Option<Time>
    ensures { option_map time_nanos result ≡ spec.time_value text.now }
{
    match time_front(text.as_bytes()) {
        Some((time, [])) => Some(time),
        _ => None,
    }
}

/// The date-time of a text: a date, a space and a time, which is never `24:00:00`. An offset that begins with `+` may
/// follow, and is ignored.
pub fn date_time(text: &str) -> Option<DateTime>
    ensures { option_map civil_nanos result ≡ spec.date_time_value text.now }
{
    match civil_front(text.as_bytes()) {
        Some((civil, rest)) if is_ignored(rest) => Some(civil),
        _ => None,
    }
}

/// The instant of a text: a date, a space, a time, which is never `24:00:00`, and the offset of the clock that shows
/// them.
pub fn instant(text: &str) -> Option<Timestamp>
    ensures { option_map (λ at. at.nanosecond) result ≡ spec.instant_value text.now }
{
    let Some((civil, rest)) = civil_front(text.as_bytes()) else {
        return None;
    };
    offset_of(rest)?.to_timestamp(civil).ok()
}

/// The time of a text and its offset: the one and then the other.
pub fn time_tz(text: &str) -> Option<(Time, Offset)>
    ensures { option_map spec.zoned_numbers result ≡ spec.time_tz_value text.now }
{
    let Some((time, rest)) = time_front(text.as_bytes()) else {
        return None;
    };
    let offset = offset_of(rest)?;
    Some((time, offset))
}
