//! The types of ranges, and of their arrays (PostgreSQL, "Built-in Range and Multirange Types").

ghost use Rattle.std.specs.Prelude.{◌≡◌, Bool};
ghost use Rattle.std.specs.Option.{option_map};
ghost use Rattle.pgv_types.specs.LentParts.{ref_type};
ghost use Rattle.pgv_types.specs.Relations.{softly};
ghost use Rattle.pgv_types.specs.Ty.{Ty, builtin};
ghost use Rattle.pgv_range.specs.RangeGrammar.{range_accepts, range_element};

use crate::range::PgRange;
use jiff::Timestamp;
use jiff::civil::{Date, DateTime};
use pgv_codec::{PgHasArrayType, Type};
use pgv_types::{PgType, PgTypeInfo, PgTypeKindRef, PgTypeRef};

/// What a type is a range over; `None` where it isn't known to be a range.
pub(crate) fn element_of(type_info: &PgTypeInfo) -> Option<PgTypeRef<'_>>
    ensures { option_map ref_type result ≡ range_element type_info.now }
{
    match type_info.kind() {
        Some(PgTypeKindRef::Range(element)) => Some(element),
        _ => None,
    }
}

/// Whether a type is a range over a type under which values of `T` are read. A type that is only declared is not.
pub fn range_compatible<T: Type>(type_info: &PgTypeInfo) -> bool
    ensures { result ≡ range_accepts T.accepts type_info.now }
{
    match element_of(type_info) {
        Some(element) => T::compatible(element.as_ref()),
        None => false,
    }
}

/// A Rust type of which ranges are made. From this one impl a [`PgRange`] of it has [`Type`] and [`PgHasArrayType`].
pub trait PgHasRangeType {
    /// The type of such a range.
    ghost range_info: { Ty };

    /// The types under which such ranges are read.
    ghost accepts_range: { Ty → Bool };

    /// The type of an array of such ranges.
    ghost range_array_info: { Ty };

    /// The type of such a range.
    fn range_type_info() -> PgTypeInfo
        ensures { result ≡ range_info };

    /// Whether such ranges are read under this type.
    fn range_compatible(type_info: &PgTypeInfo) -> bool
        ensures { result ≡ accepts_range type_info.now };

    /// The type of an array of such ranges.
    fn range_array_type_info() -> PgTypeInfo
        ensures { result ≡ range_array_info };
}

/// The type that the bounds state for their ranges.
impl<T: PgHasRangeType> Type for PgRange<T> {
    ghost info = { T.range_info };

    ghost accepts = { T.accepts_range };

    #[inline(always)]
    fn type_info() -> PgTypeInfo {
        T::range_type_info()
    }

    #[inline(always)]
    fn compatible(type_info: &PgTypeInfo) -> bool {
        T::range_compatible(type_info)
    }
}

/// The type that the bounds state for arrays of their ranges. They are read under it and domains over it.
impl<T: PgHasRangeType> PgHasArrayType for PgRange<T> {
    ghost array_info = { T.range_array_info };

    ghost accepts_array = { λ t. softly t T.range_array_info };

    fn array_type_info() -> PgTypeInfo {
        T::range_array_type_info()
    }

    fn array_compatible(type_info: &PgTypeInfo) -> bool {
        type_info.type_compatible(&Self::array_type_info())
    }
}

/// `int4range` (OID 3904), read under ranges over `int4` and domains over it. An array of them is `int4range[]`
/// (OID 3905).
impl PgHasRangeType for i32 {
    ghost range_info = { builtin 3904 };

    ghost accepts_range = { range_accepts (λ t. softly t (builtin 23)) };

    ghost range_array_info = { builtin 3905 };

    fn range_type_info() -> PgTypeInfo {
        PgTypeInfo(PgType::Int4Range)
    }

    fn range_compatible(type_info: &PgTypeInfo) -> bool {
        range_compatible::<i32>(type_info)
    }

    fn range_array_type_info() -> PgTypeInfo {
        PgTypeInfo(PgType::Int4RangeArray)
    }
}

/// `int8range` (OID 3926), read under ranges over `int8` and domains over it. An array of them is `int8range[]`
/// (OID 3927).
impl PgHasRangeType for i64 {
    ghost range_info = { builtin 3926 };

    ghost accepts_range = { range_accepts (λ t. softly t (builtin 20)) };

    ghost range_array_info = { builtin 3927 };

    fn range_type_info() -> PgTypeInfo {
        PgTypeInfo(PgType::Int8Range)
    }

    fn range_compatible(type_info: &PgTypeInfo) -> bool {
        range_compatible::<i64>(type_info)
    }

    fn range_array_type_info() -> PgTypeInfo {
        PgTypeInfo(PgType::Int8RangeArray)
    }
}

/// `daterange` (OID 3912), read under ranges over `date` and domains over it. An array of them is `daterange[]`
/// (OID 3913).
impl PgHasRangeType for Date {
    ghost range_info = { builtin 3912 };

    ghost accepts_range = { range_accepts (λ t. softly t (builtin 1082)) };

    ghost range_array_info = { builtin 3913 };

    fn range_type_info() -> PgTypeInfo {
        PgTypeInfo(PgType::DateRange)
    }

    fn range_compatible(type_info: &PgTypeInfo) -> bool {
        range_compatible::<Date>(type_info)
    }

    fn range_array_type_info() -> PgTypeInfo {
        PgTypeInfo(PgType::DateRangeArray)
    }
}

/// `tsrange` (OID 3908), read under ranges over `timestamp` and domains over it. An array of them is `tsrange[]`
/// (OID 3909).
impl PgHasRangeType for DateTime {
    ghost range_info = { builtin 3908 };

    ghost accepts_range = { range_accepts (λ t. softly t (builtin 1114)) };

    ghost range_array_info = { builtin 3909 };

    fn range_type_info() -> PgTypeInfo {
        PgTypeInfo(PgType::TsRange)
    }

    fn range_compatible(type_info: &PgTypeInfo) -> bool {
        range_compatible::<DateTime>(type_info)
    }

    fn range_array_type_info() -> PgTypeInfo {
        PgTypeInfo(PgType::TsRangeArray)
    }
}

/// `tstzrange` (OID 3910), read under ranges over `timestamptz` and domains over it. An array of them is `tstzrange[]`
/// (OID 3911).
impl PgHasRangeType for Timestamp {
    ghost range_info = { builtin 3910 };

    ghost accepts_range = { range_accepts (λ t. softly t (builtin 1184)) };

    ghost range_array_info = { builtin 3911 };

    fn range_type_info() -> PgTypeInfo {
        PgTypeInfo(PgType::TstzRange)
    }

    fn range_compatible(type_info: &PgTypeInfo) -> bool {
        range_compatible::<Timestamp>(type_info)
    }

    fn range_array_type_info() -> PgTypeInfo {
        PgTypeInfo(PgType::TstzRangeArray)
    }
}
