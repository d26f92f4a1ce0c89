//! Rows as lines of text.

ghost use Rattle.std.specs.Prelude.{◌≡◌, ◌++◌, ◌<◌, OnOk};
ghost use Rattle.pgv_row.specs.RowView.{value_at_column};
ghost use Rattle.pgquery.specs.RowLines.{escape, escaped, json_escape, json_escaped, json_value, line_of, member, object_of, string_of, value_shown};
ghost use Rattle.pgquery.specs.RowLines as lines;

use crate::fault::Fault;
use crate::parameter::add_value;
use crate::source::Source;
use pgv::catalog::{PgServerTypes, fill};
use pgv::row::PgRow;
use pgv::{CodecError, PgArguments, PgTypeInfo};
use std::alloc::{AllocError, Global};

/// Appends a byte as COPY escapes it (PostgreSQL, "COPY", "Text Format").
fn push_byte(byte: u8, line: &mut Vec<u8>) -> Result<(), AllocError>
    ensures { OnOk result (line.new.items ≡ line.old.items ++ escape byte) }
{
    match byte {
        b'\t' => line.extend_from_slice(b"\\t"),
        b'\n' => line.extend_from_slice(b"\\n"),
        b'\r' => line.extend_from_slice(b"\\r"),
        b'\\' => line.extend_from_slice(b"\\\\"),
        _ => Ok(line.push(byte)?),
    }
}

/// Appends a text with its tabs, line ends and backslashes escaped.
fn push_escaped(text: &[u8], line: &mut Vec<u8>) -> Result<(), AllocError>
    ensures { OnOk result (line.new.items ≡ line.old.items ++ escaped text.now) }
{
    for byte in text {
        push_byte(*byte, line)?;
    }
    Ok(())
}

/// The digit of a number below 16.
fn hex_digit(number: u8) -> u8
    requires { number < 16 }
    ensures { result ≡ lines.hex_digit number }
{
    if number < 10 {
        b'0' + number
    } else {
        b'a' + (number - 10)
    }
}

/// Appends a byte as a string of JSON has it (RFC 8259).
fn push_string_byte(byte: u8, line: &mut Vec<u8>) -> Result<(), AllocError>
    ensures { OnOk result (line.new.items ≡ line.old.items ++ json_escape byte) }
{
    match byte {
        b'"' => line.extend_from_slice(b"\\\""),
        b'\\' => line.extend_from_slice(b"\\\\"),
        0..=0x1f => {
            let (high, low) = (hex_digit(byte / 16), hex_digit(byte % 16));
            line.extend_from_slice(&[b'\\', b'u', b'0', b'0', high, low])
        }
        _ => Ok(line.push(byte)?),
    }
}

/// Appends a text with its quotes, backslashes and controls escaped.
fn push_string_bytes(text: &[u8], line: &mut Vec<u8>) -> Result<(), AllocError>
    ensures { OnOk result (line.new.items ≡ line.old.items ++ json_escaped text.now) }
{
    for byte in text {
        push_string_byte(*byte, line)?;
    }
    Ok(())
}

/// Appends a text as a string of JSON.
fn push_string(text: &[u8], line: &mut Vec<u8>) -> Result<(), AllocError>
    ensures { OnOk result (line.new.items ≡ line.old.items ++ string_of text.now) }
{
    line.push(b'"')?;
    push_string_bytes(text, line)?;
    Ok(line.push(b'"')?)
}

/// Appends the value of a column: null as `\N`, and else its text.
fn push_value(row: &PgRow<'_>, place: usize, line: &mut Vec<u8>) -> Result<(), Fault>
    ensures { OnOk result (line.new.items ≡ line.old.items
        ++ value_shown (value_at_column row.now place)) }
{
    let value = row.try_get_raw(place)?;
    if value.is_null() {
        return Ok(line.extend_from_slice(b"\\N")?);
    }
    Ok(push_escaped(value.as_str()?.as_bytes(), line)?)
}

/// Appends the line of a row: its values with a tab between two, and a line feed.
pub fn push_values(row: &PgRow<'_>, line: &mut Vec<u8>) -> Result<(), Fault>
    ensures { OnOk result (line.new.items ≡ line.old.items ++ line_of row.now) }
{
    for place in 0..row.len() {
        if place > 0 {
            line.push(b'\t')?;
        }
        push_value(row, place, line)?;
    }
    Ok(line.push(b'\n')?)
}

/// Appends the value of a column: `null`, or its text as a string.
fn push_json_value(row: &PgRow<'_>, place: usize, line: &mut Vec<u8>) -> Result<(), Fault>
    ensures { OnOk result (line.new.items
        ≡ line.old.items ++ json_value (value_at_column row.now place)) }
{
    let value = row.try_get_raw(place)?;
    if value.is_null() {
        return Ok(line.extend_from_slice(b"null")?);
    }
    Ok(push_string(value.as_str()?.as_bytes(), line)?)
}

/// Appends the name of a column and its value.
fn push_member(row: &PgRow<'_>, place: usize, line: &mut Vec<u8>) -> Result<(), Fault>
    ensures { OnOk result (line.new.items ≡ line.old.items ++ member row.now place) }
{
    let Some(column) = row.columns().get(place) else {
        return Err(Fault::Codec(CodecError::NoField(place)));
    };
    push_string(column.name().as_bytes(), line)?;
    line.push(b':')?;
    push_json_value(row, place, line)
}

/// Appends a row as an object, a string or null for each column, and a line feed.
pub fn push_object(row: &PgRow<'_>, line: &mut Vec<u8>) -> Result<(), Fault>
    ensures { OnOk result (line.new.items ≡ line.old.items ++ object_of row.now) }
{
    line.push(b'{')?;
    for place in 0..row.len() {
        if place > 0 {
            line.push(b',')?;
        }
        push_member(row, place, line)?;
    }
    Ok(line.extend_from_slice(b"}\n")?)
}

/// Adds a row's values, as the codec reads them, and their types.
fn add_values(
    alloc: Global,
    row: &PgRow<'_>,
    arguments: &mut PgArguments,
    types: &mut Vec<PgTypeInfo>,
) -> Result<(), Fault> {
    for (place, column) in row.columns().iter().enumerate() {
        let type_info = column.type_info();
        add_value(alloc, arguments, type_info, Source::Column(row, place))?;
        types.push(type_info.clone()?)?;
    }
    Ok(())
}

/// A row's values as arguments, with the holes filled.
fn arguments_of(
    alloc: Global,
    row: &PgRow<'_>,
    known: &PgServerTypes,
) -> Result<PgArguments, Fault> {
    let mut arguments = PgArguments::new(alloc);
    let mut types = Vec::new(alloc);
    add_values(alloc, row, &mut arguments, &mut types)?;
    fill(alloc, &mut arguments, types.as_slice(), known)?;
    Ok(arguments)
}

/// Appends the frames that the codec writes of a row's values, as it reads them, in hex, and a line feed.
pub fn push_frames(
    alloc: Global,
    row: &PgRow<'_>,
    known: &PgServerTypes,
    line: &mut Vec<u8>,
) -> Result<(), Fault> {
    let arguments = arguments_of(alloc, row, known)?;
    let digits = hex::encode(alloc, arguments.buffer().as_slice())?;
    line.extend_from_slice(digits.as_bytes())?;
    Ok(line.push(b'\n')?)
}
