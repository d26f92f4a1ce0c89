//! Intervals (PostgreSQL, "Date/Time Types", interval), and durations as intervals.

ghost use Rattle.std.specs.Prelude.{◌≡◌, pos};

use crate::error::CodecError;
use jiff::SignedDuration;
use std::time::Duration;

/// An interval: months, days and microseconds, each with a sign of its own. `1 month` isn't a number of days, nor
/// `1 day` one of hours.
#[derive(Clone, Copy, Debug, PartialEq, Eq, Hash)]
pub struct PgInterval {
    /// Months, of which twelve are a year.
    pub months: i32,
    /// Days.
    pub days: i32,
    /// Microseconds.
    pub microseconds: i64,
}

/// No months, no days and no microseconds.
impl Default for PgInterval {
    ghost use Rattle.std.specs.Prelude.{◌≡◌, pos};

    ghost is_default = { λ i. (i.months ≡ pos 0) × (i.days ≡ pos 0) × (i.microseconds ≡ pos 0) };

    fn default() -> PgInterval {
        of_microseconds(0)
    }
}

/// The interval of the duration's microseconds, with no days and no months. A duration that isn't whole microseconds is
/// refused with [`IntervalPrecision`](CodecError::IntervalPrecision) (C4), another one of more than 9223372036854775807
/// microseconds with [`IntervalOverflow`](CodecError::IntervalOverflow) (C5).
impl TryFrom<Duration> for PgInterval {
    ghost use Rattle.std.specs.Prelude.{◌≡◌, pos};
    ghost use Rattle.std.specs.Duration.{as_nanos};
    ghost use Rattle.pgv_value.specs.Interval.{interval_of};

    type Error = CodecError;

    ghost try_from_gives = { λ duration result. result ≡ interval_of (pos (as_nanos duration)) };

    fn try_from(duration: Duration) -> Result<PgInterval, CodecError> {
        let nanoseconds = duration.as_nanos();
        if nanoseconds % 1000 != 0 {
            return Err(CodecError::IntervalPrecision);
        }
        match i64::try_from(nanoseconds / 1000) {
            Ok(microseconds) => Ok(of_microseconds(microseconds)),
            Err(_) => Err(CodecError::IntervalOverflow),
        }
    }
}

/// The same for a duration with a sign: [`IntervalOverflow`](CodecError::IntervalOverflow) (C5) past
/// -9223372036854775808 and 9223372036854775807 microseconds.
impl TryFrom<SignedDuration> for PgInterval {
    ghost use Rattle.std.specs.Prelude.{◌≡◌};
    ghost use Rattle.jiff.specs.Words.{signed_nanos};
    ghost use Rattle.pgv_value.specs.Interval.{interval_of};

    type Error = CodecError;

    ghost try_from_gives = { λ duration result. result ≡ interval_of (signed_nanos duration) };

    fn try_from(duration: SignedDuration) -> Result<PgInterval, CodecError> {
        let signed_nanoseconds = duration.as_nanos();
        if signed_nanoseconds % 1000 != 0 {
            return Err(CodecError::IntervalPrecision);
        }
        match i64::try_from(signed_nanoseconds / 1000) {
            Ok(microseconds) => Ok(of_microseconds(microseconds)),
            Err(_) => Err(CodecError::IntervalOverflow),
        }
    }
}

/// The interval of these microseconds.
fn of_microseconds(microseconds: i64) -> PgInterval
    ensures months { result.months ≡ pos 0 }
    ensures days { result.days ≡ pos 0 }
    ensures microseconds { result.microseconds ≡ microseconds }
{
    PgInterval {
        months: 0,
        days: 0,
        microseconds,
    }
}
