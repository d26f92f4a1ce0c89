//! A statement is described, its arguments are bound, and its rows are read by their columns.

ghost use Rattle.std.specs.Prelude.{◌≡◌, ◌≢◌, ◌≤◌, ◌<◌, length, Ok, IfOk, IfErr, OnOk};
ghost use Rattle.pgv.specs.Words.{capacity};

use pgv::message::{self, MessageError, Prepared};
use pgv::row::{FromRow, PgColumns, PgPlaces, PgRow};
use pgv::{CodecError, PgArguments, PgTypeInfo, PgValueFormat};
use std::alloc::Global;

/// Appends what asks for the description of a statement.
pub fn ask(out: &mut Vec<u8>, sql: &str) -> Result<(), MessageError> {
    message::write_parse(out, "", sql, &[])?;
    message::write_describe(out, Prepared::Statement, "")?;
    message::write_sync(out)
}

/// Appends what runs it with these arguments, for all rows in binary.
pub fn run(out: &mut Vec<u8>, arguments: &PgArguments) -> Result<(), MessageError> {
    message::write_bind(out, "", "", arguments, &[PgValueFormat::Binary])?;
    message::write_execute(out, "", 0)?;
    message::write_sync(out)
}

/// The columns of a RowDescription, which comes before Bind and so says text.
pub fn columns_of(alloc: Global, body: &[u8]) -> Result<PgColumns<'_>, CodecError> {
    let known: &[PgTypeInfo] = &[];
    let mut columns = PgColumns::read(alloc, body, &known)?;
    columns.set_format(PgValueFormat::Binary);
    Ok(columns)
}

/// The first two columns of a row: an `int4`, and a `text` that may be null.
pub fn person(alloc: Global, row: &PgRow<'_>) -> Result<(i32, Option<String>), CodecError>
    ensures { let read = ⟦<(i32, Option<String>) as FromRow>⟧.parse row.now in
        IfOk result (λ p. read.answer ≡ Ok (⟦<(i32, Option<String>) as FromRow>⟧.view p)) }
{
    Ok(row.as_tuple::<(i32, Option<String>)>(alloc)?)
}

/// Those of all rows that came, up to a message that is cut off or has no such length.
pub fn people(
    alloc: Global,
    columns: &PgColumns<'_>,
    came: &[u8],
) -> Result<Vec<(i32, Option<String>)>, CodecError> {
    let mut room = PgPlaces::with_columns(alloc, columns)?;
    let mut people = Vec::new(alloc);
    let mut rest = came;
    for _ in 0..came.len() {
        let Ok(Some(found)) = message::message_in_front(rest) else {
            return Ok(people);
        };
        if found.tag == b'D' {
            let row = PgRow::read(columns, &mut room, found.body)?;
            people.push(person(alloc, &row)?)?;
        }
        rest = found.rest;
    }
    Ok(people)
}

/// Tests that a body is a row of the columns, in room for rows.
fn check_row(columns: &PgColumns<'_>, room: &mut PgPlaces, body: &[u8]) -> Result<(), CodecError>
    ensures memory { length columns.now ≤ capacity room.old
        → IfErr result (λ e. e ≢ CodecError.Memory) }
    ensures kept { capacity room.old ≤ capacity room.new }
    ensures enough { OnOk result (length columns.now ≤ capacity room.new) }
{
    match room.find(&*columns, &*body) {
        Ok(_row) => Ok(()),
        Err(error) => Err(error),
    }
}

/// Tests that all these bodies are rows of the columns, each in the same room. Only the first may ask for memory, and
/// none where the room has a place for each column.
pub fn check_rows(
    columns: &PgColumns<'_>,
    room: &mut PgPlaces,
    bodies: &[&[u8]],
) -> Result<(), CodecError>
    ensures memory { length columns.now ≤ capacity room.old
        → IfErr result (λ e. e ≢ CodecError.Memory) }
    ensures kept { capacity room.old ≤ capacity room.new }
    ensures enough { OnOk result (0 < length bodies.now → length columns.now ≤ capacity room.new) }
{
    for body in bodies {
        check_row(columns, room, *body)?;
    }
    Ok(())
}
