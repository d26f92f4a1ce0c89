//! The stream of a COPY of an `int4`, a `text` and an `int8`, and the same fields as one frame after another.
//!
//! Each way of reading them is a function that isn't inlined: all in one function, they take up to a twentieth longer.

use crate::seen::Seen;
use pgv_codec::{Decode, Type};
use pgv_copy::PgCopyReader;
use pgv_row::{PgColumns, PgCopyRows};
use pgv_types::{PgType, PgTypeInfo};
use pgv_value::{CodecError, PgValueFormat, PgValueRef};
use std::alloc::Global;

/// The types of the columns.
fn columns(alloc: Global) -> Result<Vec<PgTypeInfo>, CodecError> {
    let mut types = Vec::new(alloc);
    for built_in in [PgType::Int4, PgType::Text, PgType::Int8] {
        types.push(PgTypeInfo(built_in))?;
    }
    Ok(types)
}

/// What is seen of a field.
fn field<T: Decode + Seen>(alloc: Global, value: PgValueRef<'_>) -> Result<usize, CodecError> {
    Ok(T::decode(alloc, value)?.seen())
}

/// What is seen of the field at a place.
#[inline(always)]
fn field_at(alloc: Global, place: usize, value: PgValueRef<'_>) -> Result<usize, CodecError> {
    match place {
        0 => field::<i32>(alloc, value),
        1 => field::<String>(alloc, value),
        _ => field::<i64>(alloc, value),
    }
}

/// What is seen of the fields of a row.
fn row_seen(alloc: Global, row: Vec<PgValueRef<'_>>) -> Result<usize, CodecError> {
    let mut sum = 0usize;
    for (place, value) in row.into_iter().enumerate() {
        sum = sum.wrapping_add(field_at(alloc, place, value)?);
    }
    Ok(sum)
}

/// The same of a row whose list is kept, from its last field on.
fn kept_seen(alloc: Global, row: &mut Vec<PgValueRef<'_>>) -> Result<usize, CodecError> {
    let mut sum = 0usize;
    for place in (0..row.len()).rev() {
        let Some(value) = row.pop() else {
            return Ok(sum);
        };
        sum = sum.wrapping_add(field_at(alloc, place, value)?);
    }
    Ok(sum)
}

/// What is seen of a field that stays in its list. It is not inlined, as `field` is not.
#[inline(never)]
fn lent_field<T: Decode + Seen>(
    alloc: Global,
    value: &PgValueRef<'_>,
) -> Result<usize, CodecError> {
    Ok(T::decode_by_ref(alloc, value)?.seen())
}

/// The same of a row whose values stay in its list.
fn lent_seen(alloc: Global, row: &[PgValueRef<'_>]) -> Result<usize, CodecError> {
    let [number, text, long] = row else {
        return Err(CodecError::FieldCount);
    };
    let mut sum = lent_field::<i32>(alloc, number)?;
    sum = sum.wrapping_add(lent_field::<String>(alloc, text)?);
    Ok(sum.wrapping_add(lent_field::<i64>(alloc, long)?))
}

#[inline(never)]
fn stream_once(alloc: Global, stream: &[u8]) -> Result<usize, CodecError> {
    let mut reader = PgCopyReader::new(stream, columns(alloc)?)?;
    let mut sum = 0usize;
    for _ in 0..stream.len() {
        let Some(row) = reader.next_row()? else {
            return Ok(sum);
        };
        sum = sum.wrapping_add(row_seen(alloc, row)?);
    }
    Ok(sum)
}

/// The rows in one list, whose values are taken from it, or where `LENT` stay in it.
#[inline(never)]
fn stream_kept<const LENT: bool>(alloc: Global, stream: &[u8]) -> Result<usize, CodecError> {
    let mut reader = PgCopyReader::new(stream, columns(alloc)?)?;
    let mut row = Vec::new(alloc);
    let mut sum = 0usize;
    for _ in 0..stream.len() {
        if !reader.next_row_into(&mut row)? {
            return Ok(sum);
        }
        let seen = if LENT {
            lent_seen(alloc, row.as_slice())?
        } else {
            kept_seen(alloc, &mut row)?
        };
        sum = sum.wrapping_add(seen);
    }
    Ok(sum)
}

/// The columns, for rows as tuples.
fn described(alloc: Global) -> Result<PgColumns<'static>, CodecError> {
    PgColumns::new(alloc)
        .with_type(PgTypeInfo(PgType::Int4))?
        .with_type(PgTypeInfo(PgType::Text))?
        .with_type(PgTypeInfo(PgType::Int8))
}

/// What is seen of the next row as a tuple.
fn tuple_seen(alloc: Global, rows: &mut PgCopyRows<'_, '_>) -> Result<Option<usize>, CodecError> {
    match rows.next_row_as::<(i32, String, i64)>(alloc) {
        Ok(Some((number, text, long))) => {
            let sum = number.seen().wrapping_add(text.seen());
            Ok(Some(sum.wrapping_add(long.seen())))
        }
        Ok(None) => Ok(None),
        Err(error) => Err(CodecError::from(error)),
    }
}

#[inline(never)]
fn tuples_once(alloc: Global, stream: &[u8]) -> Result<usize, CodecError> {
    let columns = described(alloc)?;
    let mut rows = columns.copy_rows(stream)?;
    let mut sum = 0usize;
    for _ in 0..stream.len() {
        let Some(seen) = tuple_seen(alloc, &mut rows)? else {
            return Ok(sum);
        };
        sum = sum.wrapping_add(seen);
    }
    Ok(sum)
}

/// What is seen of the frame in front.
fn frame<T: Decode + Type + Seen>(alloc: Global, rest: &mut &[u8]) -> Result<usize, CodecError> {
    let value = PgValueRef::get(rest, PgValueFormat::Binary, T::type_info())?;
    field::<T>(alloc, value)
}

#[inline(never)]
fn frames_once(alloc: Global, frames: &[u8]) -> Result<usize, CodecError> {
    let mut sum = 0usize;
    let mut rest = frames;
    for _ in 0..frames.len() {
        if rest.is_empty() {
            return Ok(sum);
        }
        sum = sum.wrapping_add(frame::<i32>(alloc, &mut rest)?);
        sum = sum.wrapping_add(frame::<String>(alloc, &mut rest)?);
        sum = sum.wrapping_add(frame::<i64>(alloc, &mut rest)?);
    }
    Ok(sum)
}

/// Reads all rows `rounds` times: of a stream where `how` is 0, of one as tuples where it is 2, of one into one
/// list where it is 3, of one whose values stay in that list where it is 4, and else of frames.
pub fn copies(alloc: Global, bytes: &[u8], rounds: u32, how: u32) -> Result<usize, CodecError> {
    let mut sum = 0usize;
    for _ in 0..rounds {
        let once = match how {
            0 => stream_once(alloc, bytes)?,
            2 => tuples_once(alloc, bytes)?,
            3 => stream_kept::<false>(alloc, bytes)?,
            4 => stream_kept::<true>(alloc, bytes)?,
            _ => frames_once(alloc, bytes)?,
        };
        sum = sum.wrapping_add(once);
    }
    Ok(sum)
}
