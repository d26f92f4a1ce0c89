//! COPY in binary.

ghost use Rattle.std.specs.Prelude.{◌≡◌, ◌++◌, List, OnOk, IfOk, replicate};
ghost use Rattle.std.specs.List.{slice_get};
ghost use Rattle.pgv.specs.Words.{Given};
ghost use Rattle.pgv_types.specs.Ty.{by_oid};
ghost use Rattle.pgv_copy.specs.CopyPieces.{nothing_came};
ghost use Rattle.pgquery.specs.Copying.{CopiesAnswer, Grows, OpensCopy, RunsCopy, ShowsCopy, ShowsPiece, copied_line, field_in_hex};
ghost use Rattle.pgquery.specs.RowLines.{Writes};

use crate::connection::Connection;
use crate::fault::Fault;
use pgv::message::{PgMessage, copy_formats_of, write_query};
use pgv::{Oid, PgCopyNext, PgCopyPieces, PgTypeInfo, PgValueFormat, PgValueRef};
use std::alloc::{AllocError, Global};
use std::io::{Read, Write};

/// A reader of rows of as many columns, of whose types nothing is known.
fn reader_of(alloc: Global, width: usize) -> Result<PgCopyPieces, AllocError>
    ensures { IfOk result (λ reader. reader ≡ nothing_came (replicate width (by_oid 0))) }
{
    let mut types = Vec::new(alloc);
    for _ in 0..width {
        types.push(PgTypeInfo::with_oid(Oid(0)))?;
    }
    Ok(PgCopyPieces::new(types))
}

/// The reader of the rows of a COPY, by the body of its CopyOutResponse.
fn reader_for(alloc: Global, body: &[u8]) -> Result<PgCopyPieces, Fault>
    ensures { IfOk result (OpensCopy body.now) }
{
    let formats = copy_formats_of(alloc, body)?;
    if formats.format != PgValueFormat::Binary {
        return Err(Fault::Unexpected(b'H'));
    }
    Ok(reader_of(alloc, formats.columns.len())?)
}

/// Appends the bytes of a field in hex, null as `\N`.
fn push_field(
    alloc: Global,
    row: &[PgValueRef<'_>],
    place: usize,
    line: &mut Vec<u8>,
) -> Result<(), Fault>
    ensures { OnOk result (line.new.items
        ≡ line.old.items ++ field_in_hex (slice_get row.now place)) }
{
    let Some(value) = row.get(place) else {
        return Ok(());
    };
    if value.is_null() {
        return Ok(line.extend_from_slice(b"\\N")?);
    }
    let digits = hex::encode(alloc, value.as_bytes()?)?;
    Ok(line.extend_from_slice(digits.as_bytes())?)
}

/// Appends the fields of a row with a tab between two, and a line feed.
fn push_fields(alloc: Global, row: &[PgValueRef<'_>], line: &mut Vec<u8>) -> Result<(), Fault>
    ensures { OnOk result (line.new.items ≡ line.old.items ++ copied_line row.now) }
{
    for place in 0..row.len() {
        if place > 0 {
            line.push(b'\t')?;
        }
        push_field(alloc, row, place, line)?;
    }
    Ok(line.push(b'\n')?)
}

/// Appends the line of the row that was read last.
fn push_row(alloc: Global, reader: &PgCopyPieces, line: &mut Vec<u8>) -> Result<(), Fault>
    ensures { OnOk result ((row : List Given) → reader.now.row ≡ Some row
        → line.new.items ≡ line.old.items ++ copied_line row) }
{
    match reader.row()? {
        Some(row) => push_fields(alloc, row.as_slice(), line),
        None => Ok(()),
    }
}

/// Appends a line for each row that is whole, once more bytes have come.
fn push_rows(
    alloc: Global,
    reader: &mut PgCopyPieces,
    piece: &[u8],
    line: &mut Vec<u8>,
) -> Result<(), Fault>
    ensures { OnOk result (Grows line.old.items line.new.items
        (ShowsPiece piece.now reader.old reader.new)) }
{
    reader.feed(piece)?;
    for _ in 0..u64::MAX {
        if reader.advance()? != PgCopyNext::Row {
            return Ok(());
        }
        push_row(alloc, reader, line)?;
    }
    Err(Fault::End)
}

/// Appends what an answer of the server shows.
fn push_answer(
    alloc: Global,
    answer: &PgMessage<'_>,
    reader: &mut PgCopyPieces,
    line: &mut Vec<u8>,
) -> Result<(), Fault>
    ensures { OnOk result (Grows line.old.items line.new.items
        (CopiesAnswer answer.now.tag answer.now.body.now reader.old reader.new)) }
{
    match answer.tag {
        b'H' => *reader = reader_for(alloc, answer.body)?,
        b'd' => push_rows(alloc, reader, answer.body, line)?,
        _ => {}
    }
    Ok(())
}

/// Runs a COPY, and writes a line for each row.
pub fn run<R: Read, W: Write, S: Write>(
    alloc: Global,
    connection: &mut Connection<R, W>,
    sql: &str,
    lines: &mut S,
) -> Result<(), Fault>
    ensures { OnOk result (Writes (S.contents lines.old) (S.contents lines.new)
        (RunsCopy R.remaining W.contents sql.now connection.old connection.new)) }
{
    let mut out = Vec::new(alloc);
    write_query(&mut out, sql)?;
    connection.send(out.as_slice(), &[])?;
    show_answers(alloc, connection, lines)
}

/// Writes a line for each row that comes.
fn show_answers<R: Read, W: Write, S: Write>(
    alloc: Global,
    connection: &mut Connection<R, W>,
    lines: &mut S,
) -> Result<(), Fault>
    ensures { OnOk result (Writes (S.contents lines.old) (S.contents lines.new)
        (ShowsCopy R.remaining W.contents connection.old connection.new)) }
{
    let mut reader = reader_of(alloc, 0)?;
    let mut line = Vec::new(alloc);
    for _ in 0..u64::MAX {
        let tag = connection.next(alloc)?;
        if tag == b'Z' {
            return Ok(());
        }
        line.clear();
        push_answer(alloc, &connection.last()?, &mut reader, &mut line)?;
        lines.write_all(line.as_slice()).or(Err(Fault::Write))?;
    }
    Err(Fault::End)
}
