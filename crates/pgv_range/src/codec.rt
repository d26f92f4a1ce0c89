//! What ranges are written as and read from, whatever their bounds are (PostgreSQL, "Range Types"; the binary form is
//! that of its source, range_send).

ghost use Rattle.std.specs.Prelude.{◌≡◌, OnOk, OnErr, Some, drop};
ghost use Rattle.std.specs.Range.Bound.{bound_map};
ghost use Rattle.pgv_types.specs.LentParts.{ref_type};
ghost use Rattle.pgv_text.specs.PartsView.{copies, nest};
ghost use Rattle.pgv_value.specs.Outcome.{Gives};
ghost use Rattle.pgv_value.specs.Parsed.{GivesOr};
ghost use Rattle.pgv_value.specs.declared.error.CodecError.TheVariants.{NotARange};
ghost use Rattle.pgv_codec.specs.Appending.{Appends, Encodes, Extends};
ghost use Rattle.pgv_range.specs.RangeGrammar.{bound_in, bound_in_text, bounds_in, bounds_in_text, next_bound, range_element, range_in_binary, range_in_text, side_in_text, bound_in_front};
ghost use Rattle.pgv_range.specs.RangeImage.{bound_frame, bounds_image, empty_image};
ghost use Rattle.pgv_range.specs.RangeOf.{range_view};

use crate::flags::{RangeFlags, RangeForm, Side};
use crate::range::PgRange;
use crate::types::{PgHasRangeType, element_of};
use bitflags::Flags;
use pgv_codec::{Codec, Decode, Encode, IsNull, PgArgumentBuffer, ReadBack, Type};
use pgv_text::{Parts, TextForm};
use pgv_types::{PgTypeInfo, PgTypeRef};
use pgv_value::{CodecError, PgValueFormat, PgValueRef, part_in_front};
use std::alloc::{AllocError, Global};
use std::ops::Bound;

/// Written as a flag byte (02 and 04: the lower and the upper bound is included; 08 and 10: there is none) and the
/// frame of each bound that there is, the lower first. From 1 to 10 without 10, of `int4`, is
/// `02 00000004 00000001 00000004 0000000a`. The empty range is the flag byte 01 alone.
impl<T: Encode> Encode for PgRange<T> {
    ghost use Rattle.pgv_codec.specs.Encoding.{plainly};
    ghost use Rattle.pgv_range.specs.RangeImage.{range_image};

    ghost encoding = { λ r. plainly (range_image (range_view T.encoding r)) };

    #[inline(always)]
    fn encode_by_ref(&self, out: &mut PgArgumentBuffer) -> Result<IsNull, CodecError> {
        match self {
            PgRange::Empty => encode_empty(out),
            PgRange::Bounds { start, end } => encode_bounds(start, end, out),
        }
    }

    fn size_hint(&self) -> usize {
        0
    }

    fn produces(&self) -> Result<Option<PgTypeInfo>, AllocError> {
        Ok(None)
    }
}

/// The flag byte of an empty range.
#[inline(always)]
fn encode_empty(out: &mut PgArgumentBuffer) -> Result<IsNull, CodecError>
    ensures encodes { Encodes empty_image out.old out.new result }
    ensures appended { OnErr result (Extends out.old out.new) }
{
    out.push(RangeFlags::EMPTY.bits())?;
    Ok(IsNull::No)
}

/// The flag byte of these bounds, and their frames.
#[inline(always)]
#[tactic(auto, unfolding(crate::specs::RangeImage::bounds_image))]
fn encode_bounds<T: Encode>(
    start: &Bound<T>,
    end: &Bound<T>,
    out: &mut PgArgumentBuffer,
) -> Result<IsNull, CodecError>
    ensures encodes { Encodes (bounds_image (bound_map T.encoding start.now)
        (bound_map T.encoding end.now)) out.old out.new result }
    ensures appended { OnErr result (Extends out.old out.new) }
{
    out.push(RangeFlags::of(start, end).bits())?;
    encode_bound(start, out)?;
    encode_bound(end, out)?;
    Ok(IsNull::No)
}

/// The frame of a bound, and nothing where there is none.
#[inline(always)]
fn encode_bound<T: Encode>(bound: &Bound<T>, out: &mut PgArgumentBuffer) -> Result<(), CodecError>
    ensures exact { Appends (bound_frame (bound_map T.encoding bound.now)) out.old out.new result }
    ensures appended { OnErr result (Extends out.old out.new) }
{
    match bound {
        Bound::Included(value) | Bound::Excluded(value) => out.encode(value),
        Bound::Unbounded => Ok(()),
    }
}

/// A range of values that `T` reads (PostgreSQL, "Range Types").
///
/// In binary a flag byte and the frames of the bounds, read under the type that the value's type is a range over; bits
/// of the flag byte that have no meaning and bytes after the bounds are ignored. A flag byte with 01 is the empty
/// range, whatever other flags and bytes there are.
///
/// In text the bounds are read under `T`'s own type, as `[1,10)` from 1 to 10 without 10; `empty`, in upper or lower
/// case and without white space, is the empty range.
///
/// Null is refused with [`UnexpectedNull`](CodecError::UnexpectedNull) (C13), a text that is not UTF-8 with
/// [`Utf8`](CodecError::Utf8) (C14) and one outside the grammar with [`Syntax`](CodecError::Syntax) (C29), a type that
/// isn't a range in binary with [`NotARange`](CodecError::NotARange) (C23), bytes that end too early with
/// [`Short`](CodecError::Short) (C15), and what a bound is refused with. Out of memory (C1) is answered only where the
/// value of a bound asks for memory, or for a copy: in binary of a custom type that the range is over, in text of a
/// part, only if a quote or a backslash is anywhere in it.
impl<T: Decode + Type> Decode for PgRange<T> {
    ghost use Rattle.std.specs.Prelude.{refl};
    ghost use Rattle.pgv_range.specs.RangeGrammar.{parse_range};
    ghost use Rattle.pgv_range.specs.RangeOf.{RangeOf};
    ghost use Rattle.pgv_range.specs.RangeSaying.{range_written};

    ghost View = { RangeOf T.View };

    ghost view = { range_view T.view };

    ghost parse = { parse_range T.info T.parse };

    ghost written = { λ _ m. range_written (T.written T.info) m };

    ghost null = { λ _ _. (refl, refl) };

    fn decode(alloc: Global, value: PgValueRef<'_>) -> Result<PgRange<T>, CodecError> {
        match value.format() {
            PgValueFormat::Text => read_text(alloc, value.as_str()?),
            PgValueFormat::Binary => read_binary(alloc, value.type_info(), value.as_bytes()?),
        }
    }
}

/// A range in binary.
fn read_binary<T: Decode>(
    alloc: Global,
    type_info: &PgTypeInfo,
    bytes: &[u8],
) -> Result<PgRange<T>, CodecError>
    ensures { Gives (range_view T.view) (range_in_binary T.parse type_info.now bytes.now) result }
{
    let element = element_of_range(type_info)?;
    let Some((flags, frames)) = bytes.split_first() else {
        return Err(CodecError::Short);
    };
    match RangeFlags::from_bits_retain(*flags).form() {
        RangeForm::Empty => Ok(PgRange::Empty),
        RangeForm::Sides(below, above) => {
            read_bounds(alloc, element.as_ref(), below, above, frames)
        }
    }
}

/// What a type is a range over; one that isn't a range is refused with [`NotARange`](CodecError::NotARange) (C23).
fn element_of_range(type_info: &PgTypeInfo) -> Result<PgTypeRef<'_>, CodecError>
    ensures { GivesOr ref_type (range_element type_info.now) NotARange result }
{
    match element_of(type_info) {
        Some(element) => Ok(element),
        None => Err(CodecError::NotARange),
    }
}

/// The lower bound and the upper one.
#[tactic(auto, unfolding(crate::specs::RangeGrammar::bounds_in))]
fn read_bounds<T: Decode>(
    alloc: Global,
    element: &PgTypeInfo,
    below: Side,
    above: Side,
    bytes: &[u8],
) -> Result<PgRange<T>, CodecError>
    ensures { Gives (range_view T.view) (bounds_in T.parse element.now below
        above bytes.now) result }
{
    let mut rest = bytes;
    let start = read_bound(alloc, element, below, &mut rest)?;
    let end = read_bound(alloc, element, above, &mut rest)?;
    Ok(PgRange::Bounds { start, end })
}

/// A bound, by what the flags say of it. The slice goes on after its frame.
fn read_bound<'a, T: Decode>(
    alloc: Global,
    element: &PgTypeInfo,
    side: Side,
    bytes: &mut &'a [u8],
) -> Result<Bound<T>, CodecError>
    ensures { Gives (λ bound. (bound_map T.view bound, bytes.new.now))
        (bound_in T.parse element.now side bytes.old.now) result }
{
    match side {
        Side::Infinite => Ok(Bound::Unbounded),
        Side::Inclusive => Ok(Bound::Included(read_value(alloc, element, bytes)?)),
        Side::Exclusive => Ok(Bound::Excluded(read_value(alloc, element, bytes)?)),
    }
}

/// The value of the frame in front. No memory is asked for before the frame is there, and then only by the value, and
/// for the copy of a custom type.
fn read_value<'a, T: Decode>(
    alloc: Global,
    element: &PgTypeInfo,
    bytes: &mut &'a [u8],
) -> Result<T, CodecError>
    ensures { Gives (λ value. (T.view value, bytes.new.now))
        (bound_in_front T.parse element.now bytes.old.now) result }
{
    let all: &'a [u8] = *bytes;
    let (part, rest) = part_in_front(all)?;
    *bytes = rest;
    let value = PgValueRef::new(part, element.clone()?, PgValueFormat::Binary);
    T::decode(alloc, value)
}

/// A range in text.
#[tactic(auto, unfolding(crate::specs::RangeGrammar::range_in_text))]
fn read_text<T: Decode + Type>(alloc: Global, text: &str) -> Result<PgRange<T>, CodecError>
    ensures { Gives (range_view T.view) (range_in_text T.parse T.info text.now) result }
{
    match Parts::new(TextForm::Range, text) {
        None => Err(CodecError::Syntax),
        Some(parts) if parts.is_empty_range() => Ok(PgRange::Empty),
        Some(parts) => read_parts(alloc, parts),
    }
}

/// The two parts of a range, each read under the own type of `T`.
#[tactic(auto, unfolding(crate::specs::RangeGrammar::bounds_in_text))]
fn read_parts<T: Decode + Type>(alloc: Global, parts: Parts<'_>) -> Result<PgRange<T>, CodecError>
    ensures { Gives (range_view T.view) (bounds_in_text T.parse T.info (copies parts.entry)
        (nest parts.entry)) result }
{
    let (lower_included, upper_included) = parts.includes();
    let mut parts = parts;
    let mut text = String::new(alloc);
    let start = next_bound_of(alloc, &mut parts, lower_included, &mut text)?;
    let end = next_bound_of(alloc, &mut parts, upper_included, &mut text)?;
    Ok(PgRange::Bounds { start, end })
}

/// The bound of the next part. One that is copied is read from this text; for another only its value asks for memory.
fn next_bound_of<T: Decode + Type>(
    alloc: Global,
    parts: &mut Parts<'_>,
    included: bool,
    text: &mut String,
) -> Result<Bound<T>, CodecError>
    ensures exact { Gives (λ bound. (bound_map T.view bound, (nest parts.new).values))
        (next_bound T.parse T.info included (copies parts.old) (nest parts.old).values) result }
    ensures copies { OnOk result (copies parts.new ≡ drop 1 (copies parts.old)) }
{
    let Some(part) = parts.next_borrowed(text)? else {
        return Err(CodecError::Syntax);
    };
    match part.in_text(text.as_str()) {
        None => Ok(Bound::Unbounded),
        Some(text) => bound_of_text(alloc, included, text),
    }
}

/// The bound of a text that is present, at a bracket that includes or doesn't.
fn bound_of_text<T: Decode + Type>(
    alloc: Global,
    included: bool,
    text: &str,
) -> Result<Bound<T>, CodecError>
    ensures { Gives (bound_map T.view) (bound_in_text T.parse T.info included
        (Some text.now)) result }
{
    let part = PgValueRef::of_text(Some(text), T::type_info());
    let value = T::decode(alloc, part)?;
    Ok(side_of(included, value))
}

/// A bound that is included or isn't.
fn side_of<T>(included: bool, value: T) -> Bound<T>
    ensures { result ≡ side_in_text included value }
{
    if included {
        Bound::Included(value)
    } else {
        Bound::Excluded(value)
    }
}

/// A range is read back under a type of kind range, if each bound's value is read back under the type that it is a
/// range over; the empty range under every type of kind range.
impl<T: ReadBack + Type> ReadBack for PgRange<T> {
    ghost use Rattle.pgv_range.specs.RangeBackLemmas.{range_back};
    ghost use Rattle.pgv_range.specs.RangeFits.{RangeFits, range_kept};

    ghost kept = { range_kept T.kept };

    ghost fits = { RangeFits T.encoding T.fits };

    ghost reads_back = { range_back T.info T.encoding T.parse T.view T.kept T.fits T.reads_back };
}

impl<T: Codec + PgHasRangeType> Codec for PgRange<T> {
    ghost use Rattle.pgv_range.specs.RangeSaying.{range_agrees};

    ghost agrees = { range_agrees T.encoding T.view (T.written T.info) T.agrees };
}
