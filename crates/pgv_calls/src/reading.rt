//! What is asked of a row: `get NAME`, `unchecked NAME`, `raw NAME`, `column NAME`, `tuple NUMBER` of so many numbers,
//! or `catalog KIND`.

use pgv::catalog::{PgFieldRow, PgLabelRow, PgTypeRow};
use pgv::row::{FromRow, PgColumns, PgCopyRows, PgRow};
use pgv::{CodecError, Decode, PgEnum, PgValue, Type};
use pgv_examples::mood::Mood;
use std::alloc::Global;
use std::fmt::Debug;

/// What is asked of a row.
pub fn asked(alloc: Global, row: &PgRow<'_>, call: &str) -> Result<String, CodecError> {
    let (form, name) = call.split_once(' ').unwrap_or((call, ""));
    match form {
        "get" => got(alloc, row, name),
        "unchecked" => unchecked(alloc, row, name),
        "raw" => raw(alloc, row, name),
        "column" => column(alloc, row, name),
        "tuple" => tuple(alloc, row, name),
        _ => of_catalog(alloc, row, name),
    }
}

/// The value of the column of a name.
fn got(alloc: Global, row: &PgRow<'_>, name: &str) -> Result<String, CodecError> {
    match name {
        "id" => value::<i32>(alloc, row, name),
        "name" => value::<Option<String>>(alloc, row, name),
        "mood" => value::<PgEnum<Mood>>(alloc, row, name),
        _ => value::<Vec<Option<i32>>>(alloc, row, name),
    }
}

/// What `T` reads from a column.
fn value<T: Type + Decode + Debug>(
    alloc: Global,
    row: &PgRow<'_>,
    name: &str,
) -> Result<String, CodecError> {
    match row.try_get::<T, _>(alloc, name) {
        Ok(value) => Ok(format!(in alloc; "{value:?}")?),
        Err(error) => Err(CodecError::from(error)),
    }
}

/// A text that is read whatever the column's type is.
fn unchecked(alloc: Global, row: &PgRow<'_>, name: &str) -> Result<String, CodecError> {
    match row.try_get_unchecked::<String, _>(alloc, name) {
        Ok(text) => Ok(text),
        Err(error) => Err(CodecError::from(error)),
    }
}

/// The bytes of a value that is kept.
fn raw(alloc: Global, row: &PgRow<'_>, name: &str) -> Result<String, CodecError> {
    match row.try_get_raw(name) {
        Ok(value) => kept(alloc, &value.to_owned(alloc)?),
        Err(error) => Err(CodecError::from(error)),
    }
}

/// The bytes of a value that was kept.
fn kept(alloc: Global, value: &PgValue) -> Result<String, CodecError> {
    let lent = value.as_ref()?;
    Ok(hex::encode(alloc, lent.as_bytes()?)?)
}

/// The name of a column.
fn column(alloc: Global, row: &PgRow<'_>, name: &str) -> Result<String, CodecError> {
    match row.try_column(name) {
        Ok(column) => Ok(String::from_str(alloc, column.name())?),
        Err(error) => Err(CodecError::from(error)),
    }
}

/// The first columns as a tuple of as many.
fn tuple(alloc: Global, row: &PgRow<'_>, number: &str) -> Result<String, CodecError> {
    match number {
        "1" => fields::<(i32,)>(alloc, row),
        "2" => fields::<(i32, Option<String>)>(alloc, row),
        "3" => fields::<(i32, i32, i32)>(alloc, row),
        "4" => fields::<(i32, i32, i32, i32)>(alloc, row),
        _ => longer_tuple(alloc, row, number),
    }
}

/// The same of five columns or more.
fn longer_tuple(alloc: Global, row: &PgRow<'_>, number: &str) -> Result<String, CodecError> {
    match number {
        "5" => fields::<(i32, i32, i32, i32, i32)>(alloc, row),
        "6" => fields::<(i32, i32, i32, i32, i32, i32)>(alloc, row),
        "7" => fields::<(i32, i32, i32, i32, i32, i32, i32)>(alloc, row),
        "8" => fields::<(i32, i32, i32, i32, i32, i32, i32, i32)>(alloc, row),
        _ => fields::<(i32, i32, i32, i32, i32, i32, i32, i32, i32)>(alloc, row),
    }
}

/// What `T` reads from a row.
fn fields<T: FromRow + Debug>(alloc: Global, row: &PgRow<'_>) -> Result<String, CodecError> {
    match row.as_tuple::<T>(alloc) {
        Ok(fields) => Ok(format!(in alloc; "{fields:?}")?),
        Err(error) => Err(CodecError::from(error)),
    }
}

/// The body of a row, read in one pass as a tuple of so many fields.
pub fn in_one_pass(
    alloc: Global,
    columns: &PgColumns<'_>,
    body: &[u8],
    number: &str,
) -> Result<String, CodecError> {
    match number {
        "1" => passed::<(i32,)>(alloc, columns, body),
        "2" => person(alloc, columns, body),
        "3" => passed::<(i32, i32, i32)>(alloc, columns, body),
        "4" => passed::<(i32, i32, i32, i32)>(alloc, columns, body),
        _ => longer_in_one_pass(alloc, columns, body, number),
    }
}

/// The same of five fields or more.
fn longer_in_one_pass(
    alloc: Global,
    columns: &PgColumns<'_>,
    body: &[u8],
    number: &str,
) -> Result<String, CodecError> {
    match number {
        "5" => passed::<(i32, i32, i32, i32, i32)>(alloc, columns, body),
        "6" => passed::<(i32, i32, i32, i32, i32, i32)>(alloc, columns, body),
        "7" => passed::<(i32, i32, i32, i32, i32, i32, i32)>(alloc, columns, body),
        "8" => passed::<(i32, i32, i32, i32, i32, i32, i32, i32)>(alloc, columns, body),
        _ => passed::<(i32, i32, i32, i32, i32, i32, i32, i32, i32)>(alloc, columns, body),
    }
}

/// What `T` reads from a body under columns that are tested first.
fn passed<T: FromRow + Debug>(
    alloc: Global,
    columns: &PgColumns<'_>,
    body: &[u8],
) -> Result<String, CodecError> {
    if let Err(error) = columns.check::<T>() {
        return Err(CodecError::from(error));
    }
    match columns.read_row::<T>(alloc, body) {
        Ok(fields) => Ok(format!(in alloc; "{fields:?}")?),
        Err(error) => Err(CodecError::from(error)),
    }
}

/// The same of a number and a text that may be null.
fn person(alloc: Global, columns: &PgColumns<'_>, body: &[u8]) -> Result<String, CodecError> {
    columns.check::<(i32, Option<String>)>()?;
    let person: (i32, Option<String>) = columns.read_row(alloc, body)?;
    Ok(format!(in alloc; "{person:?}")?)
}

/// The first two rows of a COPY stream, where there are so many, each as a number and a text.
pub fn copied(alloc: Global, columns: &PgColumns<'_>, stream: &[u8]) -> Result<String, CodecError> {
    let mut rows = columns.copy_rows(stream)?;
    let first = next_copied(alloc, &mut rows)?;
    let second = next_copied(alloc, &mut rows)?;
    Ok(format!(in alloc; "{first:?} {second:?}")?)
}

/// The next row of a COPY stream.
fn next_copied(
    alloc: Global,
    rows: &mut PgCopyRows<'_, '_>,
) -> Result<Option<(i32, Option<String>)>, CodecError> {
    match rows.next_row_as(alloc) {
        Ok(row) => Ok(row),
        Err(error) => Err(CodecError::from(error)),
    }
}

/// The name in a row of the catalogue.
fn of_catalog(alloc: Global, row: &PgRow<'_>, kind: &str) -> Result<String, CodecError> {
    match kind {
        "type" => type_name(alloc, row),
        "field" => match PgFieldRow::read(alloc, row) {
            Ok(read) => Ok(String::from_str(alloc, read.name.as_str())?),
            Err(error) => Err(CodecError::from(error)),
        },
        _ => match PgLabelRow::read(alloc, row) {
            Ok(read) => Ok(String::from_str(alloc, read.label.as_str())?),
            Err(error) => Err(CodecError::from(error)),
        },
    }
}

/// The name of a type, with its schema before it and its class after it.
fn type_name(alloc: Global, row: &PgRow<'_>) -> Result<String, CodecError> {
    match PgTypeRow::read(alloc, row) {
        Ok(read) => {
            let (schema, name, class) = (read.schema.as_str(), read.name.as_str(), read.class);
            Ok(format!(in alloc; "{schema}.{name} {class:?}")?)
        }
        Err(error) => Err(CodecError::from(error)),
    }
}
