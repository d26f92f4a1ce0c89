//! The rows of a COPY stream, as the program answers them.

ghost use Rattle.std.specs.Prelude.{◌≡◌, IfOk, map, option_map, string_bytes};
ghost use Rattle.pgv_copy.specs.CopyBinary.{after_header};
ghost use Rattle.pgv_session.specs.CopiedView.{infos, rows_of, ShowsField, ShowsRow};
ghost use Rattle.pgv_session.specs.Lines.{words};
ghost use Rattle.pgv_session.specs.Session.{Copies, CopiesFrom, all_with, rows_named, rows_told};
ghost use Rattle.pgv_session.specs.Types.{row_of};

use crate::line::split_word;
use crate::type_name::{TypeName, type_name};
use crate::value::{Told, refusal, show, type_of};
use pgv_copy::PgCopyReader;
use pgv_types::PgTypeInfo;
use pgv_value::PgValueRef;
use std::alloc::{AllocError, Global};

/// The rows of a stream whose columns have the TYPEs of these names, or the first refusal alone.
pub fn copied(alloc: Global, bytes: &[u8], names: &[u8]) -> Result<String, AllocError>
    ensures { IfOk result (λ text. Copies (rows_named (words names.now)) bytes.now
        (string_bytes text)) }
{
    match columns_named(alloc, names)? {
        Some(columns) => rows(alloc, bytes, columns.as_slice()),
        None => String::from_str(alloc, "refused line"),
    }
}

/// The TYPEs of the names in a text, if each name has one.
fn columns_named(alloc: Global, names: &[u8]) -> Result<Option<Vec<TypeName>>, AllocError>
    ensures { IfOk result (λ found. option_map (λ columns. rows_of columns.items) found
        ≡ rows_named (words names.now)) }
{
    let mut columns = Vec::new(alloc);
    let mut left = Some(names);
    while let Some(text) = left {
        let (name, rest) = split_word(text);
        let Some(column) = type_name(name) else {
            return Ok(None);
        };
        columns.push(column)?;
        left = rest;
    }
    Ok(Some(columns))
}

/// The types of columns.
fn types_of(alloc: Global, columns: &[TypeName]) -> Result<Vec<PgTypeInfo>, AllocError>
    ensures { IfOk result (λ types. types.items ≡ infos (rows_of columns.now)) }
{
    let mut types = Vec::new(alloc);
    for column in columns {
        types.push(type_of(*column))?;
    }
    Ok(types)
}

/// The rows of a stream of these columns, or the first refusal alone.
fn rows(alloc: Global, bytes: &[u8], columns: &[TypeName]) -> Result<String, AllocError>
    ensures { IfOk result (λ answer. CopiesFrom (rows_of columns.now) (after_header bytes.now)
        (string_bytes answer)) }
{
    let types = types_of(alloc, columns)?;
    let mut reader = match PgCopyReader::new(bytes, types) {
        Ok(reader) => reader,
        Err(error) => return refusal(alloc, &error),
    };
    let mut texts = Vec::new(alloc);
    loop {
        let row = match reader.next_row() {
            Ok(Some(row)) => row,
            Ok(None) => return all_rows(alloc, texts.as_slice()),
            Err(error) => return refusal(alloc, &error),
        };
        match row_text(alloc, columns, row.as_slice())? {
            Told::Said(text) => texts.push(text)?,
            Told::Refused(text) => return Ok(text),
        }
    }
}

/// The texts of all rows, or `none`.
fn all_rows(alloc: Global, texts: &[String]) -> Result<String, AllocError>
    ensures { IfOk result (λ answer. string_bytes answer
        ≡ rows_told (map (λ text. string_bytes text) texts.now)) }
{
    if texts.is_empty() {
        return String::from_str(alloc, "none");
    }
    joined(alloc, texts, " / ")
}

/// The fields of a row, or the refusal of the first that is not read or has no frame.
fn row_text(alloc: Global, columns: &[TypeName], row: &[PgValueRef<'_>]) -> Result<Told, AllocError>
    ensures { IfOk result (ShowsRow (rows_of columns.now) row.now) }
{
    let mut texts = Vec::new(alloc);
    for (place, column) in columns.iter().enumerate() {
        let Some(value) = row.get(place) else {
            return Ok(Told::Said(joined(alloc, texts.as_slice(), " ")?));
        };
        match field(alloc, *column, value)? {
            Told::Said(text) => texts.push(text)?,
            Told::Refused(text) => return Ok(Told::Refused(text)),
        }
    }
    Ok(Told::Said(joined(alloc, texts.as_slice(), " ")?))
}

/// A field: null as `null`, and bytes as `read` shows them.
fn field(alloc: Global, column: TypeName, value: &PgValueRef<'_>) -> Result<Told, AllocError>
    ensures { IfOk result (ShowsField (row_of column) value.now.bytes) }
{
    match value.as_bytes() {
        Ok(bytes) => show(alloc, column, bytes),
        Err(_) => Ok(Told::Said(String::from_str(alloc, "null")?)),
    }
}

/// Texts with this between each two.
fn joined(alloc: Global, texts: &[String], between: &str) -> Result<String, AllocError>
    ensures { IfOk result (λ text. string_bytes text
        ≡ all_with between.now (map (λ text. string_bytes text) texts.now)) }
{
    let mut joined = String::new(alloc);
    let Some((first, rest)) = texts.split_first() else {
        return Ok(joined);
    };
    joined.push_str(first.as_str())?;
    for text in rest {
        joined.push_str(between)?;
        joined.push_str(text.as_str())?;
    }
    Ok(joined)
}
