//! Laws that say what dates, times, date-times and instants are, as [`rows`](super::rows) does for other types. Dates
//! and moments count from 2000-01-01.

ghost use Rattle.std.specs.Prelude.{◌*◌, ◌/◌};
ghost use Rattle.jiff.specs.Words.{civil_nanos, epoch_day, time_nanos};
ghost use Rattle.pgv_types.specs.Ty.{builtin};
ghost use Rattle.pgv_value.specs.Outcome.{without_memory};
ghost use Rattle.pgv_value.specs.DateTimeBinary.{parse_date, parse_date_time, parse_instant, nanos_after, parse_time};
ghost use Rattle.pgv_codec.specs.Encoding.{with_hint, writes};
ghost use Rattle.pgv_codec.specs.DateTimeImage.{date_image, micros_of, moment_image, time_image};
ghost use Rattle.pgv_codec.specs.TypeRow.{IsCodecRow};

use jiff::Timestamp;
use jiff::civil::{Date, DateTime, Time};
use pgv_codec::{Decode, Encode, PgHasArrayType, ReadBack, Type};

/// A `Date` is a date (OID 1082), its days in four bytes, as `00002279` for 2024-02-29. Its arrays are `date[]` (1182).
pub fn date_is_a_date()
    ensures { IsCodecRow ⟦<Date as Type>⟧ ⟦<Date as PgHasArrayType>⟧
        ⟦<Date as Encode>⟧ ⟦<Date as Decode>⟧ ⟦<Date as ReadBack>⟧.kept (record {
          info = builtin 1082;
          array = builtin 1182;
          encoding = λ v. with_hint 4 (writes (date_image (epoch_day v)));
          view = epoch_day;
          parse = without_memory parse_date;
          kept = epoch_day;
        }) }
{}

/// A `Time` is a time (OID 1083), its microseconds in eight bytes, as `0000000a7a358200` for 12:30. Its arrays are
/// `time[]` (1183). It is read back cut to whole microseconds.
#[tactic(auto, using(pgv_codec::specs::DateTimeKept::time_kept_cut))]
pub fn time_is_a_time()
    ensures { IsCodecRow ⟦<Time as Type>⟧ ⟦<Time as PgHasArrayType>⟧
        ⟦<Time as Encode>⟧ ⟦<Time as Decode>⟧ ⟦<Time as ReadBack>⟧.kept (record {
          info = builtin 1083;
          array = builtin 1183;
          encoding = λ v. with_hint 8 (writes (time_image (time_nanos v)));
          view = time_nanos;
          parse = without_memory parse_time;
          kept = λ v. time_nanos v / 1000 * 1000;
        }) }
{}

/// A `DateTime` is a timestamp (OID 1114), its microseconds in eight bytes. Its arrays are `timestamp[]` (1115). It is
/// read back as the moment of its microseconds.
#[tactic(auto, using(pgv_codec::specs::DateTimeKept::date_time_kept_cut))]
pub fn date_time_is_a_timestamp()
    ensures { IsCodecRow ⟦<DateTime as Type>⟧ ⟦<DateTime as PgHasArrayType>⟧
        ⟦<DateTime as Encode>⟧ ⟦<DateTime as Decode>⟧ ⟦<DateTime as ReadBack>⟧.kept (record {
          info = builtin 1114;
          array = builtin 1115;
          encoding = λ v. with_hint 8 (writes (moment_image (civil_nanos v)));
          view = civil_nanos;
          parse = without_memory parse_date_time;
          kept = λ v. nanos_after (micros_of (civil_nanos v));
        }) }
{}

/// A `Timestamp` is a timestamptz (OID 1184), its microseconds in eight bytes. Its arrays are `timestamptz[]` (1185).
/// It is read back as the moment of its microseconds.
pub fn timestamp_is_a_timestamptz()
    ensures { IsCodecRow ⟦<Timestamp as Type>⟧ ⟦<Timestamp as PgHasArrayType>⟧
        ⟦<Timestamp as Encode>⟧ ⟦<Timestamp as Decode>⟧ ⟦<Timestamp as ReadBack>⟧.kept (record {
          info = builtin 1184;
          array = builtin 1185;
          encoding = λ v. with_hint 8 (writes (moment_image v.nanosecond));
          view = λ v. v.nanosecond;
          parse = without_memory parse_instant;
          kept = λ v. nanos_after (micros_of v.nanosecond);
        }) }
{}
