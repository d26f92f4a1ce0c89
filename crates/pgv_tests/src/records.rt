//! Records of a PostgreSQL server, read in both formats and written again.

mod server;

use pgv::{
    CodecError, Decode, Encode, PgArgumentBuffer, PgRecord, PgRecordDecoder, PgType, PgTypeInfo,
    PgValueFormat, PgValueRef, Type,
};
use pgv_fixtures::type_of;
use server::RECORDS;
use std::alloc::Global;
use std::test::Fail;
use uuid::Uuid;

/// The frame of a value, in hex.
fn frame_of<T: Encode>(alloc: Global, value: &T) -> Result<String, CodecError> {
    let mut out = PgArgumentBuffer::new(alloc);
    out.encode(value)?;
    Ok(hex::encode(alloc, out.as_slice())?)
}

/// The frame of the next field, which is read and written again, in hex.
fn written_again<T: Type + Decode + Encode>(
    alloc: Global,
    fields: &mut PgRecordDecoder<'_>,
) -> Result<String, CodecError> {
    let value = fields.try_decode::<Option<T>>()?;
    frame_of(alloc, &value)
}

/// The frame of the next field, at the Rust type for the type that is named.
fn field_again(
    alloc: Global,
    fields: &mut PgRecordDecoder<'_>,
    name: &str,
) -> Result<String, CodecError> {
    match name {
        "bool" => written_again::<bool>(alloc, fields),
        "int4" => written_again::<i32>(alloc, fields),
        "int8" => written_again::<i64>(alloc, fields),
        "text" => written_again::<String>(alloc, fields),
        "uuid" => written_again::<Uuid>(alloc, fields),
        "int4[]" => written_again::<Vec<Option<i32>>>(alloc, fields),
        "text[]" => written_again::<Vec<Option<String>>>(alloc, fields),
        "(int4,text)" => {
            written_again::<PgRecord<(Option<i32>, (Option<String>,))>>(alloc, fields)
        }
        _ => Err(CodecError::MismatchedTypes),
    }
}

/// Whether the next field is read alike in both formats, and written as the server's frame.
fn field_agrees(
    alloc: Global,
    from_binary: &mut PgRecordDecoder<'_>,
    from_text: &mut PgRecordDecoder<'_>,
    field: &str,
) -> Result<bool, Fail> {
    let (name, frame) = field.split_once('=').ok_or("no frame")?;
    let written = field_again(alloc, from_binary, name)?;
    let same = field_again(alloc, from_text, name)?;
    Ok(same.as_str() == written.as_str() && (frame == "?" || written.as_str() == frame))
}

/// Whether the fields that are left are read alike in both formats, and written as the server's frames.
fn fields_agree(
    alloc: Global,
    from_binary: &mut PgRecordDecoder<'_>,
    from_text: &mut PgRecordDecoder<'_>,
    wanted: &str,
) -> Result<bool, Fail> {
    for field in wanted.split(' ') {
        if !field_agrees(alloc, from_binary, from_text, field)? {
            return Ok(false);
        }
    }
    Ok(true)
}

/// The fields of a record in these bytes, under the type that the line names.
fn record<'a>(
    alloc: Global,
    name: &str,
    bytes: &'a [u8],
    format: PgValueFormat,
) -> Result<PgRecordDecoder<'a>, CodecError> {
    let type_name = if name == "pair" { "(int4,text)" } else { name };
    let value = PgValueRef::new(Some(bytes), type_of(alloc, type_name)?, format);
    PgRecordDecoder::new(alloc, value)
}

/// Whether the fields of a record of these bytes are read and written so.
fn record_agrees(
    alloc: Global,
    name: &str,
    binary: &[u8],
    text: &[u8],
    wanted: &str,
) -> Result<bool, Fail> {
    let mut in_binary = record(alloc, name, binary, PgValueFormat::Binary)?;
    let mut in_text = record(alloc, name, text, PgValueFormat::Text)?;
    fields_agree(alloc, &mut in_binary, &mut in_text, wanted)
}

/// Whether one line is read so.
fn line_agrees(alloc: Global, line: &str) -> Result<bool, Fail> {
    let (name, rest) = line.split_once(' ').ok_or("no binary form")?;
    let (binary, rest) = rest.split_once(' ').ok_or("no text")?;
    let (text, wanted) = rest.split_once(' ').ok_or("no fields")?;
    let binary = hex::decode(alloc, binary)?;
    let text = hex::decode(alloc, text)?;
    record_agrees(alloc, name, binary.as_slice(), text.as_slice(), wanted)
}

#[test]
fn records_of_a_server(rt: HostRuntime) -> Result<(), Fail> {
    for line in RECORDS.lines() {
        assert!(rt; line_agrees(rt.alloc(), line)?, "{line}");
    }
    Ok(())
}

#[test]
fn no_field_as_often_as_it_is_asked(rt: HostRuntime) -> Result<(), Fail> {
    let record = PgTypeInfo(PgType::Record);
    let value = PgValueRef::new(Some(&[255; 4]), record, PgValueFormat::Binary);
    let mut fields = PgRecordDecoder::new(rt.alloc(), value)?;
    for _ in 0..3 {
        let field = fields.try_decode::<i32>();
        assert!(rt; matches!(field, Err(CodecError::NoField(0))));
    }
    Ok(())
}
