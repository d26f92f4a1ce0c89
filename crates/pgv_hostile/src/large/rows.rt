//! Records and rows of 1,700 fields; a table has at most 1,600 columns.

use pgv::{
    CodecError, Decode, Oid, PgArgumentBuffer, PgCopyReader, PgRecordDecoder, PgRecordEncoder,
    PgType, PgTypeInfo, PgTypeKind, PgValueFormat, PgValueRef,
};
use std::alloc::Global;
use std::rc::RcStr;

/// The number of fields.
const FIELDS: i32 = 1_700;

/// Fields of numbers.
fn fields(alloc: Global) -> Result<Vec<(RcStr, PgTypeInfo)>, CodecError> {
    let mut fields = Vec::new(alloc);
    for _ in 0..FIELDS {
        fields.push((RcStr::from_str(alloc, "number")?, PgTypeInfo(PgType::Int4)))?;
    }
    Ok(fields)
}

/// A composite type of numbers.
fn composite_type(alloc: Global) -> Result<PgTypeInfo, CodecError> {
    let kind = PgTypeKind::Composite(fields(alloc)?);
    Ok(PgTypeInfo::custom(alloc, Oid(16600), "numbers", kind.clone()?)?)
}

/// A record of the numbers from 0 on.
fn write_record(out: &mut PgArgumentBuffer) -> Result<(), CodecError> {
    let mut record = PgRecordEncoder::new(out)?;
    for number in 0..FIELDS {
        record.encode(number)?;
    }
    record.finish();
    Ok(())
}

/// A record that is written, and read field by field under its composite type.
pub fn composite(alloc: Global) -> Result<bool, CodecError> {
    let mut out = PgArgumentBuffer::new(alloc);
    write_record(&mut out)?;
    is_record(alloc, out.as_slice())
}

/// Whether bytes are that record.
fn is_record(alloc: Global, bytes: &[u8]) -> Result<bool, CodecError> {
    let value = PgValueRef::new(Some(bytes), composite_type(alloc)?, PgValueFormat::Binary);
    let mut fields = PgRecordDecoder::new(alloc, value)?;
    are_in_order(&mut fields)
}

/// Whether the fields are the numbers from 0 on.
fn are_in_order(fields: &mut PgRecordDecoder<'_>) -> Result<bool, CodecError> {
    for number in 0..FIELDS {
        if fields.try_decode::<i32>()? != number {
            return Ok(false);
        }
    }
    Ok(true)
}

/// A record text whose first field is quoted.
fn record_text(alloc: Global) -> Result<String, CodecError> {
    let mut text = String::from_str(alloc, "(\"7\"\"\"")?;
    for _ in 1..FIELDS {
        text.push_str(",7")?;
    }
    text.push(')')?;
    Ok(text)
}

/// Whether all other fields are 7.
fn others_are_seven(fields: &mut PgRecordDecoder<'_>) -> Result<bool, CodecError> {
    for _ in 1..FIELDS {
        if fields.try_decode::<i32>()? != 7 {
            return Ok(false);
        }
    }
    Ok(true)
}

/// A record text whose first field is quoted, and so is copied.
pub fn in_text(alloc: Global) -> Result<bool, CodecError> {
    let text = record_text(alloc)?;
    is_record_text(alloc, text.as_bytes())
}

/// Whether bytes are that text.
fn is_record_text(alloc: Global, bytes: &[u8]) -> Result<bool, CodecError> {
    let record = PgTypeInfo(PgType::Record);
    let value = PgValueRef::new(Some(bytes), record, PgValueFormat::Text);
    let mut fields = PgRecordDecoder::new(alloc, value)?;
    Ok(first_is_quoted(&mut fields)? && others_are_seven(&mut fields)?)
}

/// Whether the first field has the quote.
fn first_is_quoted(fields: &mut PgRecordDecoder<'_>) -> Result<bool, CodecError> {
    let first = fields.try_decode::<String>()?;
    Ok(first.as_str() == "7\"")
}

/// A stream of COPY with one row of the number 7.
fn stream(alloc: Global) -> Result<Vec<u8>, CodecError> {
    let mut bytes = Vec::new(alloc);
    bytes.extend_from_slice(b"PGCOPY\n\xff\r\n\0\0\0\0\0\0\0\0\0\x06\xa4")?;
    for _ in 0..FIELDS {
        bytes.extend_from_slice(b"\0\0\0\x04\0\0\0\x07")?;
    }
    bytes.extend_from_slice(b"\xff\xff")?;
    Ok(bytes)
}

/// The types of the columns.
fn columns(alloc: Global) -> Result<Vec<PgTypeInfo>, CodecError> {
    let mut types = Vec::new(alloc);
    for _ in 0..FIELDS {
        types.push(PgTypeInfo(PgType::Int4))?;
    }
    Ok(types)
}

/// Whether all values are 7.
fn are_seven(alloc: Global, row: Vec<PgValueRef<'_>>) -> Result<bool, CodecError> {
    for value in row {
        if i32::decode(alloc, value)? != 7 {
            return Ok(false);
        }
    }
    Ok(true)
}

/// The row of a stream, and its end.
pub fn copied(alloc: Global) -> Result<bool, CodecError> {
    let bytes = stream(alloc)?;
    is_stream(alloc, bytes.as_slice())
}

/// Whether bytes are that stream.
fn is_stream(alloc: Global, bytes: &[u8]) -> Result<bool, CodecError> {
    let mut reader = PgCopyReader::new(bytes, columns(alloc)?)?;
    Ok(is_row(alloc, &mut reader)? && reader.next_row()?.is_none())
}

/// Whether its row comes next.
fn is_row(alloc: Global, reader: &mut PgCopyReader<'_>) -> Result<bool, CodecError> {
    match reader.next_row()? {
        Some(row) => Ok(row.len() == 1_700 && are_seven(alloc, row)?),
        None => Ok(false),
    }
}
