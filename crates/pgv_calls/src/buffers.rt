//! Rows of calls on a buffer, with the pieces that callers' own encoders write.

use crate::arguments::names;
use pgv::types::PgRange;
use pgv::{
    CodecError, Oid, PgArgumentBuffer, PgEnum, PgRecordEncoder, PgTypeInfo, encode_array,
    encode_text,
};
use pgv_examples::mood::Mood;
use pgv_examples::slot::push_version;
use pgv_fixtures::{Again, Called, Huge, Size, refused, same, sizes};
use std::alloc::Global;
use uuid::Uuid;

/// An array of two texts, an empty one and null.
fn encode_texts(alloc: Global, buffer: &mut PgArgumentBuffer) -> Result<(), CodecError> {
    let texts = [Some(String::new(alloc)), None];
    buffer.encode(&texts)
}

/// A record of two fields, and the answer for a third.
fn encode_record(alloc: Global, buffer: &mut PgArgumentBuffer) -> Result<(), CodecError> {
    let mut record = PgRecordEncoder::new(buffer)?;
    record.encode(1)?;
    record.encode(PgEnum(Mood::Fine))?;
    let refused = record.encode(Size { alloc, number: 0 });
    record.finish();
    match refused {
        Ok(_) => Ok(()),
        Err(error) => Err(error),
    }
}

/// A range up to the size 0, which is taken off again where it is refused.
fn encode_range(alloc: Global, buffer: &mut PgArgumentBuffer) -> Result<(), CodecError> {
    let range = PgRange::from(sizes(alloc, 1)?..sizes(alloc, 0)?);
    let mark = buffer.mark();
    let answer = buffer.encode(&range);
    if answer.is_err() {
        buffer.back(mark);
    }
    answer
}

/// A call that writes what a caller's own encoder writes.
fn write_piece(alloc: Global, buffer: &mut PgArgumentBuffer, call: &str) -> Result<(), CodecError> {
    match call {
        "text a" => match encode_text("a", buffer) {
            Ok(_) => Ok(()),
            Err(error) => Err(error),
        },
        "array of false" => match encode_array(&[false], buffer) {
            Ok(_) => Ok(()),
            Err(error) => Err(error),
        },
        "version" => push_version(alloc, buffer),
        "slice {" => buffer.extend_from_slice(b"{"),
        "byte }" => buffer.push(b'}'),
        "hole" => buffer.push_hole(PgTypeInfo::with_name("mood")),
        "record" => encode_record(alloc, buffer),
        "range to 0" => encode_range(alloc, buffer),
        _ => Err(CodecError::Caller(0)),
    }
}

/// A call that writes a frame, or a piece.
fn write(alloc: Global, buffer: &mut PgArgumentBuffer, call: &str) -> Result<(), CodecError> {
    match call {
        "[1, 2]" => buffer.encode(&[1, 2]),
        "'' and null" => encode_texts(alloc, buffer),
        "true" => buffer.encode(&true),
        "-1 of i8" => buffer.encode(&-1i8),
        "258 of i16" => buffer.encode(&258i16),
        "-2 of i64" => buffer.encode(&-2i64),
        "16600 of Oid" => buffer.encode(&Oid(16600)),
        "uuid" => buffer.encode(&Uuid::from_bytes([9; 16])),
        "none" => buffer.encode(&&None::<i32>),
        "huge" => buffer.encode(&Huge),
        "sizes 7" => buffer.encode(&sizes(alloc, 7)?),
        _ => write_piece(alloc, buffer, call),
    }
}

/// What is asked of a buffer.
fn asked(alloc: Global, buffer: &PgArgumentBuffer, call: &str) -> Result<String, CodecError> {
    match call {
        "bytes" => Ok(hex::encode(alloc, buffer.as_slice())?),
        "holes" => Ok(names(alloc, buffer.hole_types())?),
        _ => Ok(format!(in alloc; "{}", buffer.len())?),
    }
}

/// Whether a call that was refused memory has left in a buffer what was there. An encoder may have appended; a call
/// that appends one thing has not.
fn is_kept(now: &PgArgumentBuffer, before: &PgArgumentBuffer, call: &str) -> bool {
    match call {
        "slice {" | "byte }" | "hole" => {
            now.as_slice() == before.as_slice()
                && now.hole_types().len() == before.hole_types().len()
        }
        _ => now.as_slice().starts_with(before.as_slice()),
    }
}

/// Whether a call that writes is answered so. Where memory was refused, the buffer is put back.
fn written(
    alloc: Global,
    buffer: &mut PgArgumentBuffer,
    call: &str,
    wanted: &str,
) -> Result<bool, Again> {
    let before = buffer.clone()?;
    match write(alloc, buffer, call) {
        Ok(()) => Ok(wanted == "ok"),
        Err(CodecError::Memory) if is_kept(buffer, &before, call) => {
            *buffer = before;
            Err(Again)
        }
        Err(error) => refused(&error, wanted),
    }
}

/// A buffer that rows change.
#[derive(Drop)]
pub struct Buffer(pub PgArgumentBuffer);

impl Called for Buffer {
    fn holds(&mut self, alloc: Global, call: &str, wanted: &str) -> Result<bool, Again> {
        let buffer = &mut self.0;
        match call {
            "bytes" | "holes" | "len" => same(asked(alloc, buffer, call), wanted),
            "copy" => {
                *buffer = buffer.clone()?;
                Ok(wanted == "ok")
            }
            "clear" => {
                buffer.clear();
                Ok(wanted == "ok")
            }
            _ => written(alloc, buffer, call, wanted),
        }
    }
}
