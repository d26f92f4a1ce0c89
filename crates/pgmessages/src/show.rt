//! Values as text.

use crate::fault::Fault;
use jiff::civil::Date;
use pgv::row::PgRow;
use pgv::{Decode, Oid, PgCopyReader, PgEnum, PgTypeInfo, PgValueFormat, PgValueRef, Type};
use pgv_examples::mood::Mood;
use std::alloc::{AllocError, Global};
use std::fmt::{Debug, Display};

/// An item of an order: its name, its count and the moods of those who bought it.
type Item = (
    Option<String>,
    Option<i32>,
    Option<Vec<Option<PgEnum<Mood>>>>,
);

/// Appends the values of a row.
pub fn show_row(alloc: Global, row: &PgRow<'_>, out: &mut String) -> Result<(), Fault> {
    for place in 0..row.len() {
        out.push_str(" | ")?;
        show_value(alloc, row, place, out)?;
    }
    Ok(())
}

/// Appends a value of a row: null, its text, or what is read from it in binary.
fn show_value(alloc: Global, row: &PgRow<'_>, place: usize, out: &mut String) -> Result<(), Fault> {
    let value = row.try_get_raw(place)?;
    if value.is_null() {
        return Ok(out.push_str("null")?);
    }
    if value.format() == PgValueFormat::Text {
        return show_text(&value, out);
    }
    show_binary(alloc, row, place, &value, out)
}

/// Appends the text of a value.
fn show_text(value: &PgValueRef<'_>, out: &mut String) -> Result<(), Fault> {
    let text = value.as_str()?;
    Ok(out.push_str(text)?)
}

/// Appends a value in binary.
fn show_binary(
    alloc: Global,
    row: &PgRow<'_>,
    place: usize,
    value: &PgValueRef<'_>,
    out: &mut String,
) -> Result<(), Fault> {
    match value.type_info().oid() {
        Some(Oid(16)) => show_displayed::<bool>(alloc, row, place, out),
        Some(Oid(18)) => show_displayed::<i8>(alloc, row, place, out),
        Some(Oid(20)) => show_displayed::<i64>(alloc, row, place, out),
        Some(Oid(23)) => show_displayed::<i32>(alloc, row, place, out),
        Some(Oid(26)) => show_oid(alloc, row, place, out),
        Some(Oid(1007)) => show_debugged::<Vec<Option<i32>>>(alloc, row, place, out),
        Some(Oid(1082)) => show_displayed::<Date>(alloc, row, place, out),
        _ => show_named(alloc, row, place, value, out),
    }
}

/// Appends a value of a type that is not built in, or a text.
fn show_named(
    alloc: Global,
    row: &PgRow<'_>,
    place: usize,
    value: &PgValueRef<'_>,
    out: &mut String,
) -> Result<(), Fault> {
    match value.type_info().name().text() {
        "mood" => show_debugged::<PgEnum<Mood>>(alloc, row, place, out),
        "item" => show_unchecked::<Item>(alloc, row, place, out),
        "_item" => show_unchecked::<Vec<Option<Item>>>(alloc, row, place, out),
        _ => show_text(value, out),
    }
}

/// Appends what `T` reads from a column, as `Display` shows it.
fn show_displayed<T: Type + Decode + Display>(
    alloc: Global,
    row: &PgRow<'_>,
    place: usize,
    out: &mut String,
) -> Result<(), Fault> {
    match row.try_get::<T, _>(alloc, place) {
        Ok(value) => Ok(write!(out, "{value}")?),
        Err(error) => Err(Fault::from(error)),
    }
}

/// Appends what `T` reads from a column, as `Debug` shows it.
fn show_debugged<T: Type + Decode + Debug>(
    alloc: Global,
    row: &PgRow<'_>,
    place: usize,
    out: &mut String,
) -> Result<(), Fault> {
    match row.try_get::<T, _>(alloc, place) {
        Ok(value) => Ok(write!(out, "{value:?}")?),
        Err(error) => Err(Fault::from(error)),
    }
}

/// Appends what `T` reads from a column whatever its type is, as `Debug` shows it.
fn show_unchecked<T: Decode + Debug>(
    alloc: Global,
    row: &PgRow<'_>,
    place: usize,
    out: &mut String,
) -> Result<(), Fault> {
    match row.try_get_unchecked::<T, _>(alloc, place) {
        Ok(value) => Ok(write!(out, "{value:?}")?),
        Err(error) => Err(Fault::from(error)),
    }
}

/// Appends the number of an OID.
fn show_oid(alloc: Global, row: &PgRow<'_>, place: usize, out: &mut String) -> Result<(), Fault> {
    match row.try_get::<Oid, _>(alloc, place) {
        Ok(oid) => Ok(write!(out, "{}", oid.0)?),
        Err(error) => Err(Fault::from(error)),
    }
}

/// As many types of which nothing is known.
fn unknown_types(alloc: Global, width: usize) -> Result<Vec<PgTypeInfo>, AllocError> {
    let mut types = Vec::new(alloc);
    for _ in 0..width {
        types.push(PgTypeInfo::with_oid(Oid(0)))?;
    }
    Ok(types)
}

/// Appends a field of a COPY: null, or its bytes in hex.
fn show_field(alloc: Global, value: &PgValueRef<'_>, out: &mut String) -> Result<(), Fault> {
    out.push(' ')?;
    if value.is_null() {
        return Ok(out.push_str("null")?);
    }
    let digits = hex::encode(alloc, value.as_bytes()?)?;
    Ok(out.push_str(digits.as_str())?)
}

/// Appends the fields of a row of a COPY.
fn show_fields(alloc: Global, row: &[PgValueRef<'_>], out: &mut String) -> Result<(), Fault> {
    out.push_str("\n   ")?;
    for value in row {
        show_field(alloc, value, out)?;
    }
    Ok(())
}

/// Appends the rows of a stream of COPY with as many columns.
pub fn show_copy(
    alloc: Global,
    stream: &[u8],
    width: usize,
    out: &mut String,
) -> Result<(), Fault> {
    let mut reader = PgCopyReader::new(stream, unknown_types(alloc, width)?)?;
    out.push_str("copied")?;
    let mut row = Vec::new(alloc);
    for _ in 0..stream.len() {
        if !reader.next_row_into(&mut row)? {
            return Ok(());
        }
        show_fields(alloc, row.as_slice(), out)?;
    }
    Ok(())
}
