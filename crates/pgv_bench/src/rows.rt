//! Rows of an `int4`, a `text`, an `int8`, a `bool` and a `date` by their description, the same fields as one frame
//! after another, and the message Bind.

use crate::seen::Seen;
use jiff::civil::Date;
use pgv_codec::{Decode, Type};
use pgv_message::{MessageError, write_bind};
use pgv_row::{PgColumn, PgColumns, PgPlaces, PgRow};
use pgv_types::PgTypeInfo;
use pgv_value::{CodecError, PgValueFormat, PgValueRef};
use pgv_wire::PgArguments;
use std::alloc::Global;

/// The body of the RowDescription of the five columns, in binary.
const DESCRIPTION: &[u8] = b"\0\x05\
    id\0\0\0\0\0\0\0\0\0\0\x17\0\x04\xff\xff\xff\xff\0\x01\
    name\0\0\0\0\0\0\0\0\0\0\x19\xff\xff\xff\xff\xff\xff\0\x01\
    total\0\0\0\0\0\0\0\0\0\0\x14\0\x08\xff\xff\xff\xff\0\x01\
    open\0\0\0\0\0\0\0\0\0\0\x10\0\x01\xff\xff\xff\xff\0\x01\
    born\0\0\0\0\0\0\0\0\0\x04\x3a\0\x04\xff\xff\xff\xff\0\x01";

/// What is seen of the value at a place.
fn at<T: Decode + Type + Seen>(
    alloc: Global,
    row: &PgRow<'_>,
    place: usize,
) -> Result<usize, CodecError> {
    match row.try_get::<T, _>(alloc, place) {
        Ok(value) => Ok(value.seen()),
        Err(error) => Err(CodecError::from(error)),
    }
}

/// What is seen of a row.
fn row_seen(alloc: Global, row: &PgRow<'_>) -> Result<usize, CodecError> {
    let mut sum = at::<i32>(alloc, row, 0)?;
    sum = sum.wrapping_add(at::<String>(alloc, row, 1)?);
    sum = sum.wrapping_add(at::<i64>(alloc, row, 2)?);
    sum = sum.wrapping_add(at::<bool>(alloc, row, 3)?);
    Ok(sum.wrapping_add(at::<Date>(alloc, row, 4)?))
}

/// What is seen of the row of a body.
fn row_once(
    alloc: Global,
    columns: &PgColumns<'_>,
    room: &mut PgPlaces,
    body: &[u8],
) -> Result<usize, CodecError> {
    let row = PgRow::read(columns, room, body)?;
    row_seen(alloc, &row)
}

/// What is seen of all rows, whose bodies come one after another and have these lengths.
fn rows_once(
    alloc: Global,
    columns: &PgColumns<'_>,
    room: &mut PgPlaces,
    bodies: &[u8],
    lens: &[u32],
) -> Result<usize, CodecError> {
    let mut sum = 0usize;
    let mut rest = bodies;
    for len in lens {
        let (body, behind) = rest.split_at((*len as usize).min(rest.len()));
        rest = behind;
        sum = sum.wrapping_add(row_once(alloc, columns, room, body)?);
    }
    Ok(sum)
}

/// The fields of a row.
type Fields = (i32, String, i64, bool, Date);

/// What is seen of the row of a body, which is read in one pass.
fn passed_once(alloc: Global, columns: &PgColumns<'_>, body: &[u8]) -> Result<usize, CodecError> {
    let fields: Fields = columns.read_row(alloc, body)?;
    Ok(fields.seen())
}

/// What is seen of all rows, each read in one pass.
fn passes_once(
    alloc: Global,
    columns: &PgColumns<'_>,
    bodies: &[u8],
    lens: &[u32],
) -> Result<usize, CodecError> {
    let mut sum = 0usize;
    let mut rest = bodies;
    for len in lens {
        let (body, behind) = rest.split_at((*len as usize).min(rest.len()));
        rest = behind;
        sum = sum.wrapping_add(passed_once(alloc, columns, body)?);
    }
    Ok(sum)
}

/// Reads all rows `rounds` times, each in one pass.
fn read_in_one_pass(
    alloc: Global,
    columns: &PgColumns<'_>,
    bodies: &[u8],
    lens: &[u32],
    rounds: u32,
) -> Result<usize, CodecError> {
    columns.check::<Fields>()?;
    let mut sum = 0usize;
    for _ in 0..rounds {
        sum = sum.wrapping_add(passes_once(alloc, columns, bodies, lens)?);
    }
    Ok(sum)
}

/// What is seen of the frame in front.
fn frame<T: Decode + Type + Seen>(alloc: Global, rest: &mut &[u8]) -> Result<usize, CodecError> {
    let value = PgValueRef::get(rest, PgValueFormat::Binary, T::type_info())?;
    Ok(T::decode(alloc, value)?.seen())
}

/// What is seen of the frames after a number of two bytes.
fn frames_seen(alloc: Global, body: &[u8]) -> Result<usize, CodecError> {
    let Some(frames) = body.get(2..) else {
        return Err(CodecError::Short);
    };
    let mut rest = frames;
    let mut sum = frame::<i32>(alloc, &mut rest)?;
    sum = sum.wrapping_add(frame::<String>(alloc, &mut rest)?);
    sum = sum.wrapping_add(frame::<i64>(alloc, &mut rest)?);
    sum = sum.wrapping_add(frame::<bool>(alloc, &mut rest)?);
    Ok(sum.wrapping_add(frame::<Date>(alloc, &mut rest)?))
}

/// What is seen of the frame in front under a column's type.
fn column_frame<T: Decode + Seen>(
    alloc: Global,
    rest: &mut &[u8],
    column: &PgColumn<'_>,
) -> Result<usize, CodecError> {
    let value = PgValueRef::get(rest, column.format(), column.type_info().clone()?)?;
    Ok(T::decode(alloc, value)?.seen())
}

/// What is seen of the frames after a number of two bytes, under the columns' types.
fn described_seen(
    alloc: Global,
    columns: &PgColumns<'_>,
    body: &[u8],
) -> Result<usize, CodecError> {
    let Some(frames) = body.get(2..) else {
        return Err(CodecError::Short);
    };
    let [id, name, total, open, born] = columns.as_slice() else {
        return Err(CodecError::FieldCount);
    };
    let mut rest = frames;
    let mut sum = column_frame::<i32>(alloc, &mut rest, id)?;
    sum = sum.wrapping_add(column_frame::<String>(alloc, &mut rest, name)?);
    sum = sum.wrapping_add(column_frame::<i64>(alloc, &mut rest, total)?);
    sum = sum.wrapping_add(column_frame::<bool>(alloc, &mut rest, open)?);
    Ok(sum.wrapping_add(column_frame::<Date>(alloc, &mut rest, born)?))
}

/// What is seen of the frames of all rows, under the columns' types or those of the fields.
fn frames_once(
    alloc: Global,
    columns: Option<&PgColumns<'_>>,
    bodies: &[u8],
    lens: &[u32],
) -> Result<usize, CodecError> {
    let mut sum = 0usize;
    let mut rest = bodies;
    for len in lens {
        let (body, behind) = rest.split_at((*len as usize).min(rest.len()));
        rest = behind;
        let seen = match columns {
            Some(columns) => described_seen(alloc, columns, body)?,
            None => frames_seen(alloc, body)?,
        };
        sum = sum.wrapping_add(seen);
    }
    Ok(sum)
}

/// Reads all rows `rounds` times: by their columns where `how` is 0, in one pass where it is 2, and else as frames,
/// under the columns' types where it is 3.
pub fn read_rows(
    alloc: Global,
    bodies: &[u8],
    lens: &[u32],
    rounds: u32,
    how: u32,
) -> Result<usize, CodecError> {
    let none: &[PgTypeInfo] = &[];
    let columns = PgColumns::read(alloc, DESCRIPTION, &none)?;
    if how == 2 {
        return read_in_one_pass(alloc, &columns, bodies, lens, rounds);
    }
    let mut room = PgPlaces::with_columns(alloc, &columns)?;
    let mut sum = 0usize;
    for _ in 0..rounds {
        let once = match how {
            0 => rows_once(alloc, &columns, &mut room, bodies, lens)?,
            3 => frames_once(alloc, Some(&columns), bodies, lens)?,
            _ => frames_once(alloc, None, bodies, lens)?,
        };
        sum = sum.wrapping_add(once);
    }
    Ok(sum)
}

/// Adds a number, a text, a truth value and a long number.
#[inline(always)]
fn add_four(arguments: &mut PgArguments, name: &String) -> Result<(), CodecError> {
    arguments.add(7i32)?;
    arguments.add_by_ref(name)?;
    arguments.add(true)?;
    arguments.add(9i64)
}

/// The length of the Bind of these.
fn bind(alloc: Global, name: &String) -> Result<usize, CodecError> {
    let mut arguments = PgArguments::new(alloc);
    add_four(&mut arguments, name)?;
    let mut out = Vec::new(alloc);
    match write_bind(&mut out, "", "", &arguments, &[PgValueFormat::Binary]) {
        Ok(()) => Ok(out.len()),
        Err(MessageError::Memory) => Err(CodecError::Memory),
        Err(_) => Err(CodecError::Caller(1)),
    }
}

/// Writes a Bind for each name, `rounds` times.
pub fn binds(alloc: Global, names: &[String], rounds: u32) -> Result<usize, CodecError> {
    let mut sum = 0usize;
    for _ in 0..rounds {
        for name in names {
            sum = sum.wrapping_add(bind(alloc, name)?);
        }
    }
    Ok(sum)
}
