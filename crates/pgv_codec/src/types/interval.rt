//! Intervals (PostgreSQL, "Date/Time Types", interval).

ghost use Rattle.std.specs.Prelude.{OnErr, refl};
ghost use Rattle.pgv_types.specs.Ty.{builtin};
ghost use Rattle.pgv_value.specs.Outcome.{without_memory};
ghost use Rattle.pgv_value.specs.Interval.{parse_interval};
ghost use Rattle.pgv_value.specs.declared.interval.PgInterval.{PgInterval as Interval};
ghost use Rattle.pgv_codec.specs.Intervals.{interval_image};
ghost use Rattle.pgv_codec.specs.Appending.{Encodes, Extends};
ghost use Rattle.pgv_codec.specs.IntervalBackLemmas.{interval_back};
ghost use Rattle.pgv_codec.specs.Encoding.{with_hint, writes};

use crate::buffer::{IsNull, PgArgumentBuffer};
use crate::traits::{BuiltIn, HasBuiltIn, Of, Plain, Scalar};
use pgv_types::{PgType, PgTypeInfo};
use pgv_value::{CodecError, PgInterval, PgValueRef, read_interval};
use std::alloc::Global;

/// Appends an interval: each has an image.
pub(super) fn write_interval(
    interval: PgInterval,
    out: &mut PgArgumentBuffer,
) -> Result<IsNull, CodecError>
    ensures encodes { Encodes (writes (interval_image interval)) out.old out.new result }
    ensures appended { OnErr result (Extends out.old out.new) }
{
    out.extend_from_slice(&interval.microseconds.to_be_bytes())?;
    out.extend_from_slice(&interval.days.to_be_bytes())?;
    out.extend_from_slice(&interval.months.to_be_bytes())?;
    Ok(IsNull::No)
}

impl HasBuiltIn for PgInterval {}
/// `interval` (OID 1186), read under `interval` and domains over it. An array of them is `interval[]` (OID 1187).
impl BuiltIn for Of<PgInterval> {
    ghost INFO = { builtin 1186 };

    ghost ARRAY_INFO = { builtin 1187 };

    const INFO: PgTypeInfo = PgTypeInfo(PgType::Interval);

    const ARRAY_INFO: PgTypeInfo = PgTypeInfo(PgType::IntervalArray);
}

/// Written as its microseconds in eight bytes, its days in four and its months in four: an hour as
/// `00000000d693a4000000000000000000`.
impl Scalar for PgInterval {
    ghost SIZE = { 16 };

    ghost image = { λ value. writes (interval_image value) };

    const SIZE: usize = 16;

    fn write(&self, out: &mut PgArgumentBuffer) -> Result<IsNull, CodecError> {
        write_interval(*self, out)
    }
}

/// An `interval`, as [`read_interval`] reads it: `00000000d693a4000000000000000000` is an hour. It has no text (C18).
/// It comes back as it is.
impl Plain for PgInterval {
    ghost View = { Interval };

    ghost view = { λ interval. interval };

    ghost parse = { without_memory parse_interval };

    ghost null = { λ _ _. refl };

    ghost written = { λ _ m. with_hint 16 (writes (interval_image m)) };

    fn read(_alloc: Global, value: &PgValueRef<'_>) -> Result<PgInterval, CodecError> {
        read_interval(value)
    }

    ghost reads_back = { interval_back };

    ghost agrees = { λ _. refl };
}
