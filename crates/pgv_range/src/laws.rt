//! Laws of ranges: what they are in binary and in text, what they are read back as, and what each type of this crate
//! is. Each is the contract of a function that does nothing.

ghost use Rattle.std.specs.Prelude.{◌≡◌, ◌↔◌, false, List, None};
ghost use Rattle.std.specs.Range.{range_inclusive_start, range_inclusive_end};
ghost use Rattle.std.specs.declared.ops.Bound.TheVariants.{Included, Excluded, Unbounded};
ghost use Rattle.pgv_types.specs.Relations.{softly};
ghost use Rattle.pgv_types.specs.Ty.{Ty};
ghost use Rattle.pgv_types.specs.declared.oid.Oid.{Oid};
ghost use Rattle.pgv_value.specs.Outcome.{fails};
ghost use Rattle.pgv_value.specs.ValueView.{Given, given};
ghost use Rattle.pgv_value.specs.declared.error.CodecError.TheVariants.{UnexpectedNull};
ghost use Rattle.pgv_value.specs.declared.value.PgValueFormat.{PgValueFormat as Format};
ghost use Rattle.pgv_codec.specs.NestText.{TextIs};
ghost use Rattle.pgv_codec.specs.TypeRow.{ComesBack, HasArrayType, HasType, IsReadAs, IsWrittenAs};
ghost use Rattle.pgv_range.specs.RangeBinary.{IsRangeOver, OneRange, RangeIsItsBounds};
ghost use Rattle.pgv_range.specs.RangeFits.{BoundsFit, range_kept};
ghost use Rattle.pgv_range.specs.RangeGrammar.{parse_range};
ghost use Rattle.pgv_codec.specs.Encoding.{plainly};
ghost use Rattle.pgv_range.specs.RangeImage.{range_image};
ghost use Rattle.pgv_range.specs.RangeInText.{IsRangeInText, OneRangeInText};
ghost use Rattle.pgv_range.specs.RangeLaws.{Converts, RangeFieldComesBack, TakesOnlyForCopies};
ghost use Rattle.pgv_range.specs.RangeOf.{range_view};
ghost use Rattle.pgv_range.specs.RangeRow.{ComesBackUnderRanges, IsRangeRow};
ghost use Rattle.pgv_range.specs.RangeShown.{range_eq, range_text};
ghost use Rattle.pgv_range.specs.RangeView.{HasBothBounds};
ghost use Rattle.pgv_range.specs.declared.range.PgRange.TheVariants.{Bounds, Empty};

use crate::range::PgRange;
use crate::types::PgHasRangeType;
use jiff::Timestamp;
use jiff::civil::{Date, DateTime};
use pgv_codec::laws::{field_reads_back, read_back};
use pgv_codec::{Decode, Encode, PgHasArrayType, ReadBack, Type};
use pgv_text::laws::range_is_computed;
use std::fmt;
use std::ops::{Bound, Range, RangeFrom, RangeInclusive, RangeTo, RangeToInclusive};

/// Several ranges.
type Ranges<T> = Vec<PgRange<T>>;

/// A range of arrays.
type OfLists<T> = PgRange<Vec<T>>;

/// A range is decoded from bytes in binary iff the type is of kind range and the bytes are this range (PostgreSQL,
/// "Range Types"; range_send).
///
/// The bytes are a flag byte and a frame for each bound that there is, or a flag byte with 01; anything may come after
/// them.
#[tactic(auto, using(crate::proofs::BinaryGrammars::range_exactly))]
pub fn range_is_its_bounds<T: Type + Decode>()
    ensures { RangeIsItsBounds ⟦<PgRange<T> as Decode>⟧.parse T.parse }
{}

/// Under a type, bytes in binary are at most one range.
#[tactic(auto, using(crate::proofs::BinaryGrammars::one_range))]
pub fn one_range<T: Decode>()
    ensures { OneRange T.parse }
{}

/// A range is decoded from a text iff the grammar of ranges assigns it to the text: the empty range, or one of two
/// bounds, each read under the bounds' own type (PostgreSQL, "Range Input/Output").
#[tactic(auto, using(crate::proofs::TextGrammars::range_text))]
pub fn range_text_is_its_bounds<T: Type + Decode>()
    ensures { TextIs ⟦<PgRange<T> as Decode>⟧.parse (IsRangeInText T.parse T.info) }
{
    range_is_computed();
}

/// A text denotes at most one range.
#[tactic(auto, using(crate::proofs::TextGrammars::one_range_text))]
pub fn one_range_in_text<T: Type + Decode>()
    ensures { OneRangeInText T.parse T.info }
{
    range_is_computed();
}

/// Null is never decoded as a range, in either format.
pub fn null_is_no_range<T: Type + Decode>()
    ensures { (t : Ty) (format : Format) → ⟦<PgRange<T> as Decode>⟧.parse (given t format None)
        ≡ fails UnexpectedNull }
{}

/// A range is written as a flag byte and the frames of its bounds, and what it says, its grammar and what it keeps are
/// made of those of its bounds, included or excluded as they were.
///
/// The empty range is a flag byte, and is kept.
pub fn ranges_are_their_bounds<T: ReadBack + Type>()
    ensures written { IsWrittenAs ⟦<PgRange<T> as Encode>⟧
        (λ r. plainly (range_image (range_view T.encoding r))) }
    ensures read { IsReadAs ⟦<PgRange<T> as Decode>⟧ (range_view T.view)
        (parse_range T.info T.parse) }
    ensures kept { ⟦<PgRange<T> as ReadBack>⟧.kept ≡ range_kept T.kept }
{}

/// If reading a bound never asks for memory, reading a range asks only for copies: in binary of a custom type that the
/// range is over, in text of a part that is not one run of the text's bytes.
#[tactic(auto, using(crate::proofs::BoundCopies::takes_only_for_copies))]
pub fn ranges_take_only_for_copies<T: Decode + Type>()
    ensures { ((value : Given) → (T.parse value).may_alloc ≡ false)
        → TakesOnlyForCopies ⟦<PgRange<T> as Decode>⟧.parse }
{}

/// Reading a range of `i32`, `i64`, `Date`, `DateTime` or `Timestamp` asks for memory only for copies: in binary of a
/// custom type that the range is over, in text of a part that is not one run of the text's bytes.
pub fn own_ranges_take_only_for_copies()
    ensures int4 { TakesOnlyForCopies ⟦<PgRange<i32> as Decode>⟧.parse }
    ensures int8 { TakesOnlyForCopies ⟦<PgRange<i64> as Decode>⟧.parse }
    ensures date { TakesOnlyForCopies ⟦<PgRange<Date> as Decode>⟧.parse }
    ensures date_time { TakesOnlyForCopies ⟦<PgRange<DateTime> as Decode>⟧.parse }
    ensures timestamp { TakesOnlyForCopies ⟦<PgRange<Timestamp> as Decode>⟧.parse }
{
    ranges_take_only_for_copies::<i32>();
    ranges_take_only_for_copies::<i64>();
    ranges_take_only_for_copies::<Date>();
    ranges_take_only_for_copies::<DateTime>();
    ranges_take_only_for_copies::<Timestamp>();
}

/// A range fits a type of kind range if the value of each bound fits the type that it is a range over, with the OIDs of
/// its own holes, those of the lower bound first.
///
/// So it does if every value fits that type. The empty range fits every type of kind range.
pub fn ranges_fit<T: ReadBack + Type>()
    ensures empty { (t u : Ty) (oids : List Oid) → IsRangeOver t u
        → ⟦<PgRange<T> as ReadBack>⟧.fits Empty t oids }
    ensures bounds { (lower upper : _) (t u : Ty) (oids : List Oid) → IsRangeOver t u
        → BoundsFit T.encoding T.fits u lower upper oids
        → ⟦<PgRange<T> as ReadBack>⟧.fits (Bounds lower upper) t oids }
    ensures always { (r : _) (t u : Ty) (oids : List Oid) → IsRangeOver t u
        → ((v : T) (own : List Oid) → T.fits v u own) → ⟦<PgRange<T> as ReadBack>⟧.fits r t oids }
{}

/// A range of `i32`, `i64`, `Date`, `DateTime` or `Timestamp` fits every type of kind range.
pub fn own_ranges_fit()
    ensures int4 { ComesBackUnderRanges ⟦<PgRange<i32> as ReadBack>⟧.fits }
    ensures int8 { ComesBackUnderRanges ⟦<PgRange<i64> as ReadBack>⟧.fits }
    ensures date { ComesBackUnderRanges ⟦<PgRange<Date> as ReadBack>⟧.fits }
    ensures date_time { ComesBackUnderRanges ⟦<PgRange<DateTime> as ReadBack>⟧.fits }
    ensures timestamp { ComesBackUnderRanges ⟦<PgRange<Timestamp> as ReadBack>⟧.fits }
{}

/// A range that was written is read back as what it keeps, under each type that fits, and so are a list of ranges, a
/// range of lists and a range that is a field of a record.
pub fn ranges_read_back<T: ReadBack + Type + PgHasArrayType + PgHasRangeType>()
    ensures range { ComesBack ⟦<PgRange<T> as Encode>⟧ ⟦<PgRange<T> as Decode>⟧
        ⟦<PgRange<T> as ReadBack>⟧.kept ⟦<PgRange<T> as ReadBack>⟧.fits }
    ensures ranges { ComesBack ⟦<Ranges<T> as Encode>⟧ ⟦<Ranges<T> as Decode>⟧
        ⟦<Ranges<T> as ReadBack>⟧.kept ⟦<Ranges<T> as ReadBack>⟧.fits }
    ensures of_lists { ComesBack ⟦<OfLists<T> as Encode>⟧ ⟦<OfLists<T> as Decode>⟧
        ⟦<OfLists<T> as ReadBack>⟧.kept ⟦<OfLists<T> as ReadBack>⟧.fits }
    ensures field { RangeFieldComesBack T.encoding T.info T.parse T.view T.kept
        ⟦<PgRange<T> as Type>⟧.info ⟦<PgRange<T> as Type>⟧.accepts ⟦<PgRange<T> as ReadBack>⟧.fits }
{
    read_back::<PgRange<T>>();
    read_back::<Ranges<T>>();
    read_back::<OfLists<T>>();
    field_reads_back::<PgRange<T>>();
}

/// The conversion of a pair of bounds, or of a range of Rust, gives the range with exactly its bounds, and never the
/// empty range.
pub fn conversions<T>()
    ensures pair { Converts ⟦<PgRange<T> as From<(Bound<T>, Bound<T>)>>⟧.from_gives
        (λ from. Bounds from.0 from.1) }
    ensures range { Converts ⟦<PgRange<T> as From<Range<T>>>⟧.from_gives
        (λ from. Bounds (Included from.start) (Excluded from.end)) }
    ensures range_from { Converts ⟦<PgRange<T> as From<RangeFrom<T>>>⟧.from_gives
        (λ from. Bounds (Included from.start) Unbounded) }
    ensures inclusive { Converts ⟦<PgRange<T> as From<RangeInclusive<T>>>⟧.from_gives
        (λ from. Bounds (Included (range_inclusive_start from))
        (Included (range_inclusive_end from))) }
    ensures range_to { Converts ⟦<PgRange<T> as From<RangeTo<T>>>⟧.from_gives
        (λ from. Bounds Unbounded (Excluded from.end)) }
    ensures to_inclusive { Converts ⟦<PgRange<T> as From<RangeToInclusive<T>>>⟧.from_gives
        (λ from. Bounds Unbounded (Included from.end)) }
{}

/// The conversion of an array of two bounds gives the range with these bounds, and never the empty range.
pub fn conversion_of_array<T: Copy>()
    ensures { (from : _) (r : _) → ⟦<PgRange<T> as From<[Bound<T>; 2]>>⟧.from_gives from r
        ↔ HasBothBounds from r }
{}

/// A range is printed as `empty`, or as its brackets around the printed values of its bounds, so far as `Display` of
/// the bounds promises what it prints.
pub fn printed<T: fmt::Display>()
    ensures { ⟦<PgRange<T> as fmt::Display>⟧.output ≡ range_text T.output }
{}

/// Two ranges are equal iff both are empty, or their bounds are of the same kind and have equal values.
pub fn equal_by_bounds<T: PartialEq>()
    ensures { (a : _) (b : _) → ⟦<PgRange<T> as PartialEq>⟧.eq a b ≡ range_eq T.eq a b }
{}

/// A range has the type that the type of its bounds states for it, and so have arrays of ranges.
pub fn ranges_have_types<T: PgHasRangeType>()
    ensures range { HasType ⟦<PgRange<T> as Type>⟧ T.range_info T.accepts_range }
    ensures array { HasArrayType ⟦<PgRange<T> as PgHasArrayType>⟧ T.range_array_info
        (λ t. softly t T.range_array_info) }
{}

/// A `PgRange<i32>` is an int4range (OID 3904). Its arrays are `int4range[]` (3905).
pub fn i32_range_is_an_int4range()
    ensures { IsRangeRow ⟦<i32 as Type>⟧ ⟦<PgRange<i32> as Type>⟧
        ⟦<PgRange<i32> as PgHasArrayType>⟧ 3904 23 3905 }
{}

/// A `PgRange<i64>` is an int8range (OID 3926). Its arrays are `int8range[]` (3927).
pub fn i64_range_is_an_int8range()
    ensures { IsRangeRow ⟦<i64 as Type>⟧ ⟦<PgRange<i64> as Type>⟧
        ⟦<PgRange<i64> as PgHasArrayType>⟧ 3926 20 3927 }
{}

/// A `PgRange<Date>` is a daterange (OID 3912). Its arrays are `daterange[]` (3913).
pub fn date_range_is_a_daterange()
    ensures { IsRangeRow ⟦<Date as Type>⟧ ⟦<PgRange<Date> as Type>⟧
        ⟦<PgRange<Date> as PgHasArrayType>⟧ 3912 1082 3913 }
{}

/// A `PgRange<DateTime>` is a tsrange (OID 3908). Its arrays are `tsrange[]` (3909).
pub fn date_time_range_is_a_tsrange()
    ensures { IsRangeRow ⟦<DateTime as Type>⟧ ⟦<PgRange<DateTime> as Type>⟧
        ⟦<PgRange<DateTime> as PgHasArrayType>⟧ 3908 1114 3909 }
{}

/// A `PgRange<Timestamp>` is a tstzrange (OID 3910). Its arrays are `tstzrange[]` (3911).
pub fn timestamp_range_is_a_tstzrange()
    ensures { IsRangeRow ⟦<Timestamp as Type>⟧ ⟦<PgRange<Timestamp> as Type>⟧
        ⟦<PgRange<Timestamp> as PgHasArrayType>⟧ 3910 1184 3911 }
{}
