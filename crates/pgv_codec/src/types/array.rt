//! Arrays of one dimension (PostgreSQL, "Arrays").

ghost use Rattle.std.specs.Prelude.{◌≡◌, IfOk, IfErr, OnOk, OnErr, ◌+◌, ◌*◌, ◌<◌, ◌≤◌, ◌++◌, false, true, length, map, Ok, None, Some, [], IfSome, is_some, List, MatchResult, refl};
ghost use Rattle.std.specs.Vec.{with_items};
ghost use Rattle.pgv_text.specs.Values.{array_values};
ghost use Rattle.pgv_buf.specs.Tokens.{be4};
ghost use Rattle.pgv_value.specs.Outcome.{Gives, GivesWhere, after};
ghost use Rattle.pgv_value.specs.Reading.{has_items};
ghost use Rattle.pgv_value.specs.declared.error.CodecError.TheVariants.{Memory};
ghost use Rattle.pgv_value.specs.declared.value.PgValueFormat.TheVariants.{Binary};
ghost use Rattle.pgv_types.specs.Facts.{oid_of};
ghost use Rattle.pgv_codec.specs.ArrayGrammar.{array_in_binary, array_in_text, elements, parse_frames, parse_array, parse_sized};
ghost use Rattle.pgv_codec.specs.Encoding.{array_image, written_element, frames, header, is_copied, plainly, sized_image, value_type};
ghost use Rattle.pgv_codec.specs.Appending.{Appended, Appends, Encodes, Extends};
ghost use Rattle.pgv_codec.specs.AtOnce.{AreFirst, IsInFront, IsNext};
ghost use Rattle.pgv_codec.specs.AgreeLemmas.{array_agrees, sized_agrees};
ghost use Rattle.pgv_codec.specs.Back.{ArrayFits};
ghost use Rattle.pgv_codec.specs.NestBackLemmas.{vec_back, sized_back};

use super::part::read_part;
use crate::buffer::{IsNull, PgArgumentBuffer};
use crate::nest::array_head_of;
use crate::traits::{Codec, Decode, Encode, PgHasArrayType, ReadBack, Type};
use pgv_text::{Elements, Next, Parts, TextForm};
use pgv_types::PgTypeInfo;
use pgv_value::{CodecError, MAX_LENGTH, PgValueFormat, PgValueRef, part_of_length};
use std::alloc::{AllocError, Global};

/// Appends the elements as an array of one dimension, for a caller's own encoder. More than 2147483647 are refused with
/// [`ArrayLength`](CodecError::ArrayLength) (C3). A refusal may have appended something.
#[inline(always)]
pub fn encode_array<T: Encode + Type>(
    values: &[T],
    out: &mut PgArgumentBuffer,
) -> Result<IsNull, CodecError>
    ensures encodes { Encodes (array_image T.info (map T.encoding values.now))
        out.old out.new result }
    ensures appended { OnErr result (Extends out.old out.new) }
{
    let count = values.len();
    if count > MAX_LENGTH as usize {
        return Err(CodecError::ArrayLength(count));
    }
    let element = type_of_elements(values)?;
    out.reserve(20 + 8 * count)?;
    write_header(out, element, count as u32)?;
    write_frames(values, out)?;
    Ok(IsNull::No)
}

/// The type of the elements, as an array writes it.
#[inline(always)]
fn type_of_elements<T: Encode + Type>(values: &[T]) -> Result<PgTypeInfo, AllocError>
    ensures { IfOk result (λ t. t ≡ written_element T.info (map T.encoding values.now)) }
{
    match values.first() {
        None => Ok(T::type_info()),
        Some(first) => type_of_value(first),
    }
}

/// The type that a value has: what it produces, or else its Rust type's own.
#[inline(always)]
pub fn type_of_value<T: Encode + Type>(value: &T) -> Result<PgTypeInfo, AllocError>
    ensures ok { IfOk result (λ t. t ≡ value_type T.info (T.encoding value.now)) }
    ensures err { OnErr result (is_copied (T.encoding value.now).produced ≡ true) }
{
    match value.produces()? {
        Some(produced) => Ok(produced),
        None => Ok(T::type_info()),
    }
}

/// What comes before the elements, where the OID of their type is known.
#[inline(always)]
#[tactic(auto, using(crate::proofs::Lists::head_is))]
fn known_header(oid: u32, count: u32) -> [u8; 20]
    ensures bytes { result ≡ be4 1 ++ (be4 0 ++ (be4 oid ++ (be4 count ++ be4 1))) }
    ensures number { oid < 4294967296 }
{
    let [a, b, c, d] = oid.to_be_bytes();
    let [e, f, g, h] = count.to_be_bytes();
    [0, 0, 0, 1, 0, 0, 0, 0, a, b, c, d, e, f, g, h, 0, 0, 0, 1]
}

/// What comes before the elements: one dimension and no flags, their type, their number and the lower bound 1.
#[inline(always)]
fn write_header(
    out: &mut PgArgumentBuffer,
    element: PgTypeInfo,
    count: u32,
) -> Result<(), CodecError>
    ensures ok { OnOk result (Appended (header element count) out.old out.new) }
    ensures err { IfErr result (λ e. e ≡ Memory) }
    ensures appended { OnErr result (Extends out.old out.new) }
{
    if let Some(oid) = element.oid() {
        out.extend_from_slice(&known_header(oid.0, count))?;
        return Ok(());
    }
    write_open_header(out, element, count)
}

/// The same where only the name of the elements' type is known: its OID is a hole.
fn write_open_header(
    out: &mut PgArgumentBuffer,
    element: PgTypeInfo,
    count: u32,
) -> Result<(), CodecError>
    requires { oid_of element ≡ None }
    ensures ok { OnOk result (Appended (header element count) out.old out.new) }
    ensures err { IfErr result (λ e. e ≡ Memory) }
    ensures appended { OnErr result (Extends out.old out.new) }
{
    let [a, b, c, d] = count.to_be_bytes();
    out.extend_from_slice(&[0, 0, 0, 1, 0, 0, 0, 0])?;
    out.push_hole(element)?;
    out.extend_from_slice(&[a, b, c, d, 0, 0, 0, 1])?;
    Ok(())
}

/// A frame for each element: the first ones in a loop of their own, where the type has one.
#[inline(always)]
fn write_frames<T: Encode>(values: &[T], out: &mut PgArgumentBuffer) -> Result<(), CodecError>
    ensures exact { Appends (after true (frames (map T.encoding values.now)))
        out.old out.new result }
    ensures appended { OnErr result (Extends out.old out.new) }
{
    let written = T::encode_first(values, out)?;
    let (_written, others) = values.split_at(written);
    write_each(others, out)
}

/// A frame for each element, one after another.
#[inline(always)]
fn write_each<T: Encode>(values: &[T], out: &mut PgArgumentBuffer) -> Result<(), CodecError>
    ensures exact { Appends (after true (frames (map T.encoding values.now)))
        out.old out.new result }
    ensures appended { OnErr result (Extends out.old out.new) }
{
    for value in values {
        out.encode(value)?;
    }
    Ok(())
}

/// The array type of `T`, read under those of `T`.
impl<T: PgHasArrayType> Type for Vec<T> {
    ghost info = { T.array_info };

    ghost accepts = { T.accepts_array };

    fn type_info() -> PgTypeInfo {
        T::array_type_info()
    }

    fn compatible(type_info: &PgTypeInfo) -> bool {
        T::array_compatible(type_info)
    }
}

/// Written as an array of one dimension, as [`encode_array`] does: the number of dimensions, 1; flags, 0; the OID of
/// the elements' type; their number; the lower bound, 1; and the frame of each. One `7` of `int4` is
/// `00000001 00000000 00000017 00000001 00000001 00000004 00000007`.
impl<T: Encode + Type> Encode for Vec<T> {
    ghost encoding = { λ v. plainly (array_image T.info (map T.encoding v.items)) };

    #[inline(always)]
    fn encode_by_ref(&self, out: &mut PgArgumentBuffer) -> Result<IsNull, CodecError> {
        encode_array(self.as_slice(), out)
    }

    fn size_hint(&self) -> usize {
        0
    }

    fn produces(&self) -> Result<Option<PgTypeInfo>, AllocError> {
        Ok(None)
    }
}

/// The array type of `T`, read under those of `T`.
impl<T: PgHasArrayType, const N: usize> Type for [T; N] {
    ghost info = { T.array_info };

    ghost accepts = { T.accepts_array };

    fn type_info() -> PgTypeInfo {
        T::array_type_info()
    }

    fn compatible(type_info: &PgTypeInfo) -> bool {
        T::array_compatible(type_info)
    }
}

/// Written as the list of its elements is.
impl<T: Encode + Type, const N: usize> Encode for [T; N] {
    ghost encoding = { λ v. plainly (sized_image N T.info (map T.encoding v)) };

    fn encode_by_ref(&self, out: &mut PgArgumentBuffer) -> Result<IsNull, CodecError> {
        encode_array(self.as_slice(), out)
    }

    fn size_hint(&self) -> usize {
        0
    }

    fn produces(&self) -> Result<Option<PgTypeInfo>, AllocError> {
        Ok(None)
    }
}

/// An array of no or one dimension, whose elements `T` reads (PostgreSQL, "Arrays"). The type of the elements is the
/// built-in type of the OID in the bytes, else the element of the value's type.
///
/// In text the elements are read under `T`'s own type.
///
/// Null is refused with [`UnexpectedNull`](CodecError::UnexpectedNull) (C13), a text that is not UTF-8 with
/// [`Utf8`](CodecError::Utf8) (C14) and one outside the grammar with [`Syntax`](CodecError::Syntax) (C29), bytes that
/// end too early with [`Short`](CodecError::Short) (C15), a negative number of elements or length with
/// [`NegativeLength`](CodecError::NegativeLength) (C16), other dimensions with [`Dimensions`](CodecError::Dimensions)
/// (C19), a lower bound other than 1 with [`LowerBound`](CodecError::LowerBound) (C20), elements of an unknown type
/// with [`ElementType`](CodecError::ElementType) (C21), and what an element is refused with.
/// `00000001 00000000 00000017 00000001 00000001 00000004 00000007` and `{7}` are a list of one 7.
impl<T: Decode + Type> Decode for Vec<T> {
    ghost View = { List T.View };

    ghost view = { λ v. map T.view v.items };

    ghost parse = { parse_array T.info T.parse };

    ghost written = { λ _ ms. plainly (array_image T.info (map (T.written T.info) ms)) };

    ghost null = { λ _ _. (refl, refl) };

    fn decode(alloc: Global, value: PgValueRef<'_>) -> Result<Vec<T>, CodecError>
        ensures exact { Gives (λ v. map T.view v.items)
            (parse_array T.info T.parse value.entry) result }
        // In binary each element takes four bytes or more.
        ensures few { value.entry.format ≡ Binary
            → IfOk result (λ v. IfSome value.entry.bytes
            (λ bytes. 4 * length v.items ≤ length bytes)) }
    {
        match value.format() {
            PgValueFormat::Text => read_text(alloc, value.as_str()?),
            PgValueFormat::Binary => read_array(alloc, value.type_info(), value.as_bytes()?),
        }
    }
}

/// An array of `N` elements, read as a list; another number of elements is refused with
/// [`ElementCount`](CodecError::ElementCount) (C22).
impl<T: Decode + Type, const N: usize> Decode for [T; N] {
    ghost View = { List T.View };

    ghost view = { map T.view };

    ghost parse = { parse_sized N T.info T.parse };

    ghost written = { λ _ ms. plainly (sized_image N T.info (map (T.written T.info) ms)) };

    ghost null = { λ _ _. (refl, refl) };

    fn decode(alloc: Global, value: PgValueRef<'_>) -> Result<[T; N], CodecError> {
        let items = Vec::<T>::decode(alloc, value)?;
        let count = items.len();
        match items.try_into() {
            Ok(items) => Ok(items),
            Err(_) => Err(CodecError::ElementCount(count)),
        }
    }

    #[inline(always)]
    fn width_at_once() -> usize {
        0
    }
}

impl<T: Codec + PgHasArrayType> Codec for Vec<T> {
    ghost agrees = { λ v. array_agrees T.encoding T.view (T.written T.info) T.agrees T.info v.items };
}

impl<T: Codec + PgHasArrayType, const N: usize> Codec for [T; N] {
    ghost agrees = { λ v. sized_agrees T.encoding T.view (T.written T.info) T.agrees N T.info v };
}

/// An array in binary.
#[tactic(auto, unfolding(crate::specs::ArrayGrammar::array_in_binary))]
fn read_array<T: Decode>(
    alloc: Global,
    type_info: &PgTypeInfo,
    bytes: &[u8],
) -> Result<Vec<T>, CodecError>
    ensures exact { Gives (λ v. map T.view v.items)
        (array_in_binary T.parse type_info.now bytes.now) result }
    ensures few { IfOk result (λ v. 4 * length v.items ≤ length bytes.now) }
{
    match array_head_of(type_info, bytes)? {
        None => Ok(Vec::new(alloc)),
        Some(head) => read_frames(alloc, &head.element, head.count, head.frames),
    }
}

/// As many frames as the head says. Without one, or without the length of one, no memory is asked for.
#[tactic(auto, unfolding(crate::specs::ArrayGrammar::elements, crate::specs::ArrayGrammar::parse_frames, pgv_value::specs::FrameBinary::front), using(crate::proofs::FrameLoop::too_short))]
fn read_frames<T: Decode>(
    alloc: Global,
    element: &PgTypeInfo,
    count: u32,
    bytes: &[u8],
) -> Result<Vec<T>, CodecError>
    ensures exact { Gives (λ v. map T.view v.items)
        (elements T.parse element.now count bytes.now) result }
    ensures few { IfOk result (λ v. 4 * length v.items ≤ length bytes.now) }
{
    if count == 0 {
        return Ok(Vec::new(alloc));
    }
    if bytes.len() < 4 {
        return Err(CodecError::Short);
    }
    read_in_room(alloc, element, count, bytes)
}

/// The same in a list with room for as many elements as the bytes can hold at most, whatever the count says.
fn read_in_room<T: Decode>(
    alloc: Global,
    element: &PgTypeInfo,
    count: u32,
    bytes: &[u8],
) -> Result<Vec<T>, CodecError>
    ensures exact { Gives (λ v. map T.view v.items)
        (after true (parse_frames T.parse element.now count bytes.now)) result }
    ensures few { IfOk result (λ v. 4 * length v.items ≤ length bytes.now) }
{
    let (mut items, mut rest) = read_first(alloc, count as usize, bytes)?;
    for _ in items.len()..count as usize {
        match next_at_once(rest, T::width_at_once()) {
            Some((item, others)) => {
                items.push(item)?;
                rest = others;
            }
            None => {
                let part = PgValueRef::get(&mut rest, PgValueFormat::Binary, element.clone()?)?;
                items.push(T::decode(alloc, part)?)?;
            }
        }
    }
    Ok(items)
}

/// The element in front, if it is read at once, and the frames after it.
#[inline(always)]
fn next_at_once<T: Decode>(bytes: &[u8], width: usize) -> Option<(T, &[u8])>
    requires { width ≤ 16 }
    ensures { IfSome result (λ r. IsNext T.parse width bytes.now (T.view r.0) r.1.now) }
{
    if width == 0 || bytes.len() < 4 + width {
        return None;
    }
    match in_front(bytes, width) {
        Some(item) => Some((item, &bytes[4 + width..])),
        None => None,
    }
}

/// The first elements, as far as each is read at once and its frame has the width of the type, and the frames after
/// them: none, where the type has no width. The list has room for as many elements as the bytes can hold at most.
#[inline(always)]
fn read_first<T: Decode>(
    alloc: Global,
    count: usize,
    bytes: &[u8],
) -> Result<(Vec<T>, &[u8]), CodecError>
    ensures { MatchResult result (λ r. AreFirst T.parse count bytes.now (map T.view r.0.items) r.1.now
        × (length r.0.items ≤ count)) (λ e. e ≡ Memory) }
{
    let width = T::width_at_once();
    let frame = 4 + width;
    let mut items = Vec::with_capacity(alloc, count.min(bytes.len() / 4))?;
    let whole = count.min(bytes.len() / frame);
    for place in 0..whole {
        let (_read, rest) = bytes.split_at(place * frame);
        match in_front(rest, width) {
            Some(item) => items.push_reserved(item),
            None => return Ok((items, rest)),
        }
    }
    let (_read, rest) = bytes.split_at(whole * frame);
    Ok((items, rest))
}

/// What is read at once of the frame in front, if its length is this width.
#[inline(always)]
fn in_front<T: Decode>(bytes: &[u8], width: usize) -> Option<T>
    requires narrow { width ≤ 16 }
    requires there { 4 + width ≤ length bytes.now }
    ensures { IfSome result (λ v. IsInFront T.parse width bytes.now (T.view v)) }
{
    let (part, _rest) = part_of_length(bytes, width)?;
    T::decode_at_once(part)
}

/// An array in text. An invalid text (C29) comes before the refusal of a part, or out of memory. A text without
/// elements asks for no memory.
#[tactic(auto, unfolding(crate::specs::ArrayGrammar::array_in_text, crate::specs::ArrayGrammar::each))]
fn read_text<T: Decode + Type>(alloc: Global, text: &str) -> Result<Vec<T>, CodecError>
    ensures { Gives (λ v. map T.view v.items) (array_in_text T.parse T.info text.now) result }
{
    if is_empty_array(text) {
        return Ok(Vec::new(alloc));
    }
    match read_elements(alloc, text) {
        Ok(items) => Ok(items),
        Err(error) if is_array_text(text) => Err(error),
        Err(_) => Err(CodecError::Syntax),
    }
}

/// Whether a text is that of an array without elements.
#[inline(always)]
fn is_empty_array(text: &str) -> bool
    ensures { (result ≡ true → array_values text.now ≡ Some [])
        × (result ≡ false → has_items (array_values text.now) ≡ is_some (array_values text.now)) }
{
    match Elements::of_text(text) {
        Some(elements) => elements.is_at_end(),
        None => false,
    }
}

/// Whether a text is that of an array, whatever its elements are.
fn is_array_text(text: &str) -> bool
    ensures { result ≡ is_some (array_values text.now) }
{
    Parts::new(TextForm::Array, text).is_some()
}

/// The elements of a text, each read under the own type of `T` as it comes: the text is not tested before. Room for the
/// first four is asked for before any is read.
#[tactic(auto, using(crate::proofs::PartLoop::alloc_in_text))]
fn read_elements<T: Decode + Type>(alloc: Global, text: &str) -> Result<Vec<T>, CodecError>
    ensures { GivesWhere (has_items (array_values text.now)) (λ v. map T.view v.items)
        (array_in_text T.parse T.info text.now) result }
{
    let Some(mut elements) = Elements::of_text(text) else {
        return Err(CodecError::Syntax);
    };
    let mut items = Vec::with_capacity(alloc, 4)?;
    let mut unquoted = String::new(alloc);
    loop {
        match elements.next_borrowed(&mut unquoted)? {
            Next::Element(part) => items.push(read_part(
                alloc,
                T::type_info(),
                part.in_text(unquoted.as_str()),
            )?)?,
            Next::End => return Ok(items),
            Next::Fault => return Err(CodecError::Syntax),
        }
    }
}

/// A list is read back if each element is, under the type that is found by the OID that was written.
impl<T: ReadBack + Type> ReadBack for Vec<T> {
    ghost kept = { λ v. with_items v (map T.kept v.items) };

    ghost fits = { λ v t os. ArrayFits T.info T.encoding T.fits v.items t os };

    ghost reads_back = { vec_back T.info T.encoding T.parse T.view T.kept T.fits T.reads_back };
}

/// An array is read back as the list of its elements is.
impl<T: ReadBack + Type, const N: usize> ReadBack for [T; N] {
    ghost kept = { map T.kept };

    ghost fits = { ArrayFits T.info T.encoding T.fits };

    ghost reads_back = { sized_back T.info T.encoding T.parse T.view T.kept T.fits T.reads_back N };
}
