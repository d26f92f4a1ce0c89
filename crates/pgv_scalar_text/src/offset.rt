//! Texts of offsets from UTC, as PostgreSQL writes them after times.

ghost use Rattle.std.specs.Prelude.{◌≡◌};
ghost use Rattle.std.specs.Option.{option_map};
ghost use Rattle.pgv_scalar_text.specs.DateTimeText as spec;
ghost use Rattle.pgv_scalar_text.specs.FieldText.{IsBelow};

use crate::field::{after, two_below};
use jiff::tz::Offset;

/// The seconds of a text that is `:` and two digits below 60, or 0 where it is empty.
fn seconds_of(text: &[u8]) -> Option<u8>
    ensures { IsBelow 60 (spec.seconds_value text.now) result }
{
    if text.is_empty() {
        return Some(0);
    }
    match two_below(after(text, b':')?, 60)? {
        (second, []) => Some(second),
        _ => None,
    }
}

/// The seconds of a text that is `:`, two digits of minutes and perhaps seconds, or 0 where it is empty.
fn minutes_of(text: &[u8]) -> Option<u32>
    ensures { IsBelow 3600 (spec.minutes_value text.now) result }
{
    if text.is_empty() {
        return Some(0);
    }
    let (minute, rest) = two_below(after(text, b':')?, 60)?;
    let second = seconds_of(rest)?;
    Some(minute as u32 * 60 + second as u32)
}

/// The seconds of an offset without its sign.
fn hours_of(text: &[u8]) -> Option<u32>
    ensures { IsBelow 86_400 (spec.hours_value text.now) result }
{
    let (hour, rest) = two_below(text, 24)?;
    let minutes = minutes_of(rest)?;
    Some(hour as u32 * 3600 + minutes)
}

/// The offset of a text: `+` for east of UTC or `-` for west, the hours, and perhaps the minutes and the seconds.
pub(crate) fn offset_of(text: &[u8]) -> Option<Offset>
    ensures { option_map (λ offset. offset.seconds) result ≡ spec.offset_value text.now }
{
    match text {
        [b'+', rest @ ..] => Offset::from_seconds(hours_of(rest)? as i32).ok(),
        [b'-', rest @ ..] => Offset::from_seconds(-(hours_of(rest)? as i32)).ok(),
        _ => None,
    }
}

/// Whether nothing follows a date-time, or only an offset that is ignored.
pub(crate) fn is_ignored(text: &[u8]) -> bool
    ensures { result ≡ spec.is_ignored text.now }
{
    match text {
        [] => true,
        [b'+', rest @ ..] => hours_of(rest).is_some(),
        _ => false,
    }
}
