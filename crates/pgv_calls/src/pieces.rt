//! Rows of calls on a reader of COPY in pieces, of the columns int4 and text: `feed HEX => ok`; `advance => row`,
//! `more`, `end` or a refusal; `row => BYTES,..` of the row that was read last, or `none`; and
//! `cuts HEX => BYTES,..;..`, the rows of a stream, which have to be the same in whatever two pieces it comes.

use pgv::{CodecError, PgCopyNext, PgCopyPieces, PgType, PgTypeInfo, PgValueRef};
use pgv_fixtures::{Again, Called, bytes_of, same, told};
use std::alloc::{AllocError, Global};

/// A reader of a stream with the two columns.
fn reader(alloc: Global) -> Result<PgCopyPieces, AllocError> {
    let mut types = Vec::new(alloc);
    types.push(PgTypeInfo(PgType::Int4))?;
    types.push(PgTypeInfo(PgType::Text))?;
    Ok(PgCopyPieces::new(types))
}

/// The same, asked for once more where its memory was refused.
pub fn reader_again(alloc: Global) -> Option<PgCopyPieces> {
    match reader(alloc) {
        Ok(made) => Some(made),
        Err(_) => match reader(alloc) {
            Ok(made) => Some(made),
            Err(_) => None,
        },
    }
}

/// Appends the bytes of a value, or `null`, and a comma.
fn push_value(alloc: Global, text: &mut String, value: &PgValueRef<'_>) -> Result<(), CodecError> {
    match value.as_bytes() {
        Ok(bytes) => text.push_str(hex::encode(alloc, bytes)?.as_str())?,
        Err(_) => text.push_str("null")?,
    }
    text.push(',')?;
    Ok(())
}

/// The row that was read last.
fn row_text(alloc: Global, reader: &PgCopyPieces) -> Result<String, CodecError> {
    let Some(row) = reader.row()? else {
        return Ok(String::from_str(alloc, "none")?);
    };
    let mut text = String::new(alloc);
    for value in row.as_slice() {
        push_value(alloc, &mut text, value)?;
    }
    Ok(text)
}

/// Appends the rows that are there, each with a semicolon after it.
fn read_rows(
    alloc: Global,
    reader: &mut PgCopyPieces,
    text: &mut String,
) -> Result<(), CodecError> {
    while reader.advance()? == PgCopyNext::Row {
        text.push_str(row_text(alloc, reader)?.as_str())?;
        text.push(';')?;
    }
    Ok(())
}

/// The rows of a stream that comes in two pieces.
fn rows_of(alloc: Global, front: &[u8], back: &[u8]) -> Result<String, CodecError> {
    let mut reader = reader(alloc)?;
    let mut text = String::new(alloc);
    reader.feed(front)?;
    read_rows(alloc, &mut reader, &mut text)?;
    reader.feed(back)?;
    read_rows(alloc, &mut reader, &mut text)?;
    Ok(text)
}

/// The rows of a stream, if they are the same in whatever two pieces it comes.
fn rows_however_cut(alloc: Global, bytes: &[u8]) -> Result<String, CodecError> {
    let whole = rows_of(alloc, bytes, &[])?;
    for at in 0..bytes.len() {
        let (front, back) = bytes.split_at(at);
        if rows_of(alloc, front, back)?.as_str() != whole.as_str() {
            return Ok(String::from_str(alloc, "another")?);
        }
    }
    Ok(whole)
}

/// The name of what was found.
fn found(next: PgCopyNext) -> &'static str {
    match next {
        PgCopyNext::Row => "row",
        PgCopyNext::More => "more",
        PgCopyNext::End => "end",
    }
}

/// A reader that rows of calls use.
#[derive(Drop)]
pub struct Pieces(pub PgCopyPieces);

impl Called for Pieces {
    fn holds(&mut self, alloc: Global, call: &str, wanted: &str) -> Result<bool, Again> {
        let (form, hex) = call.split_once(' ').unwrap_or((call, ""));
        match form {
            "feed" => {
                let bytes = bytes_of(alloc, hex)?;
                told(self.0.feed(bytes.as_slice()), true, wanted)
            }
            "advance" => match self.0.advance() {
                Ok(next) => Ok(found(next) == wanted),
                Err(error) => pgv_fixtures::refused(&error, wanted),
            },
            "row" => same(row_text(alloc, &self.0), wanted),
            _ => {
                let bytes = bytes_of(alloc, hex)?;
                same(rows_however_cut(alloc, bytes.as_slice()), wanted)
            }
        }
    }
}
