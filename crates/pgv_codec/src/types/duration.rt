//! Durations, which are written as intervals (PostgreSQL, "Date/Time Types", interval) and not read.

ghost use Rattle.std.specs.Duration.{as_nanos};
ghost use Rattle.std.specs.Prelude.{pos};
ghost use Rattle.jiff.specs.Words.{signed_nanos};
ghost use Rattle.pgv_types.specs.Ty.{builtin};
ghost use Rattle.pgv_codec.specs.Intervals.{duration_image};

use super::interval::write_interval;
use crate::buffer::{IsNull, PgArgumentBuffer};
use crate::traits::{BuiltIn, HasBuiltIn, Of, Scalar};
use jiff::SignedDuration;
use pgv_types::{PgType, PgTypeInfo};
use pgv_value::{CodecError, PgInterval};
use std::time::Duration;

impl HasBuiltIn for Duration {}
/// `interval` (OID 1186), as [`PgInterval`] is. It is only written.
/// An array of them is `interval[]` (OID 1187).
impl BuiltIn for Of<Duration> {
    ghost INFO = { builtin 1186 };

    ghost ARRAY_INFO = { builtin 1187 };

    const INFO: PgTypeInfo = PgTypeInfo(PgType::Interval);

    const ARRAY_INFO: PgTypeInfo = PgTypeInfo(PgType::IntervalArray);
}

/// A duration is written as the interval of its microseconds, with no days and no months. One that isn't whole
/// microseconds is refused with [`IntervalPrecision`](CodecError::IntervalPrecision) (C4), and another whose number of
/// microseconds 64 bits don't have with [`IntervalOverflow`](CodecError::IntervalOverflow) (C5).
impl Scalar for Duration {
    ghost SIZE = { 16 };

    ghost image = { λ duration. duration_image (pos (as_nanos duration)) };

    const SIZE: usize = 16;

    fn write(&self, out: &mut PgArgumentBuffer) -> Result<IsNull, CodecError> {
        let interval = PgInterval::try_from(*self)?;
        write_interval(interval, out)
    }
}

impl HasBuiltIn for SignedDuration {}
/// `interval` (OID 1186), as [`PgInterval`] is. It is only written.
/// An array of them is `interval[]` (OID 1187).
impl BuiltIn for Of<SignedDuration> {
    ghost INFO = { builtin 1186 };

    ghost ARRAY_INFO = { builtin 1187 };

    const INFO: PgTypeInfo = PgTypeInfo(PgType::Interval);

    const ARRAY_INFO: PgTypeInfo = PgTypeInfo(PgType::IntervalArray);
}

/// A duration with a sign, written as one without.
impl Scalar for SignedDuration {
    ghost SIZE = { 16 };

    ghost image = { λ duration. duration_image (signed_nanos duration) };

    const SIZE: usize = 16;

    fn write(&self, out: &mut PgArgumentBuffer) -> Result<IsNull, CodecError> {
        write_interval(PgInterval::try_from(*self)?, out)
    }
}
