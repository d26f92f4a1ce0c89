//! Laws that say what intervals and durations are, as [`rows`](super::rows) does for other types.

ghost use Rattle.std.specs.Prelude.{pos};
ghost use Rattle.std.specs.Duration.{as_nanos};
ghost use Rattle.jiff.specs.Words.{signed_nanos};
ghost use Rattle.pgv_value.specs.Outcome.{without_memory};
ghost use Rattle.pgv_value.specs.Interval.{parse_interval};
ghost use Rattle.pgv_codec.specs.Encoding.{with_hint, writes};
ghost use Rattle.pgv_types.specs.Ty.{builtin};
ghost use Rattle.pgv_codec.specs.Intervals.{interval_image, duration_image};
ghost use Rattle.pgv_codec.specs.TypeRow.{HasTypes, IsCodecRow, IsWrittenAs};

use jiff::SignedDuration;
use pgv_codec::{Decode, Encode, PgHasArrayType, ReadBack, Type};
use pgv_value::PgInterval;
use std::time::Duration;

/// A `PgInterval` is an interval (OID 1186): microseconds, days and months, as `00000000d693a4000000000000000000` for
/// an hour. Its arrays are `interval[]` (1187).
pub fn pg_interval_is_an_interval()
    ensures { IsCodecRow ⟦<PgInterval as Type>⟧ ⟦<PgInterval as PgHasArrayType>⟧
        ⟦<PgInterval as Encode>⟧ ⟦<PgInterval as Decode>⟧ ⟦<PgInterval as ReadBack>⟧.kept (record {
          info = builtin 1186;
          array = builtin 1187;
          encoding = λ v. with_hint 16 (writes (interval_image v));
          view = λ v. v;
          parse = without_memory parse_interval;
          kept = λ v. v;
        }) }
{}

/// A `Duration` is an interval (OID 1186) of its microseconds, if they are whole and fit in 64 bits; else it is refused
/// with [`IntervalPrecision`](pgv_value::CodecError::IntervalPrecision) (C4) or
/// [`IntervalOverflow`](pgv_value::CodecError::IntervalOverflow) (C5).
pub fn duration_is_an_interval()
    ensures types { HasTypes ⟦<Duration as Type>⟧ ⟦<Duration as PgHasArrayType>⟧
        (builtin 1186) (builtin 1187) }
    ensures written { IsWrittenAs ⟦<Duration as Encode>⟧
        (λ v. with_hint 16 (duration_image (pos (as_nanos v)))) }
{}

/// A `SignedDuration` is an interval (OID 1186), and is written or refused as a `Duration` is.
pub fn signed_duration_is_an_interval()
    ensures types { HasTypes ⟦<SignedDuration as Type>⟧ ⟦<SignedDuration as PgHasArrayType>⟧
        (builtin 1186) (builtin 1187) }
    ensures written { IsWrittenAs ⟦<SignedDuration as Encode>⟧
        (λ v. with_hint 16 (duration_image (signed_nanos v))) }
{}
