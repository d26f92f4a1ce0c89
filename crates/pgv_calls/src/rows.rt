//! Rows of calls that read a row. `describe HEX` and `body HEX` keep the bodies of a RowDescription and of a DataRow;
//! any other row is `WAY CALL => ANSWER`, where WAY says how the row is read: in `new` room, in `room` for all columns,
//! from `shared` bytes, `found` in new room or so `found-shared`, `kept`, in one `pass` as a tuple of so many fields as
//! CALL says, or as the first two rows of a COPY stream, which the body is then, under the description (`copy`) or
//! under two types (`typed`).

use crate::reading::{asked, copied, in_one_pass};
use bytes::Bytes;
use pgv::row::{PgColumns, PgOwnedRow, PgPlaces, PgRow};
use pgv::{CodecError, Oid, PgType, PgTypeInfo, PgTypeKind};
use pgv_fixtures::{Again, Called, bytes_of, same};
use std::alloc::{AllocError, Global};

/// The types that are not built in.
fn known_types(alloc: Global) -> Result<Vec<PgTypeInfo>, AllocError> {
    let mut types = Vec::new(alloc);
    types.push(PgTypeInfo::custom(alloc, Oid(16600), "mood", PgTypeKind::Simple)?)?;
    Ok(types)
}

/// The names of columns, each with a comma after it.
fn names(alloc: Global, columns: &PgColumns<'_>) -> Result<String, CodecError> {
    let mut text = String::new(alloc);
    for column in columns.as_slice() {
        text.push_str(column.name())?;
        text.push(',')?;
    }
    Ok(text)
}

/// What is asked of a row that borrows its bytes, and is read or found in the room.
fn borrowed(
    alloc: Global,
    columns: &PgColumns<'_>,
    room: &mut PgPlaces,
    body: &[u8],
    is_found: bool,
    call: &str,
) -> Result<String, CodecError> {
    if is_found {
        let row = room.find(columns, body)?.row();
        return asked(alloc, &row, call);
    }
    let row = PgRow::read(columns, room, body)?;
    asked(alloc, &row, call)
}

/// The same of a row that shares its bytes.
fn shared(
    alloc: Global,
    columns: &PgColumns<'_>,
    room: &mut PgPlaces,
    body: &Bytes,
    is_found: bool,
    call: &str,
) -> Result<String, CodecError> {
    if is_found {
        let row = room.find_shared(columns, body)?.row();
        return asked(alloc, &row, call);
    }
    let row = PgRow::read_shared(columns, room, body)?;
    asked(alloc, &row, call)
}

/// A row that is kept.
fn keep(
    alloc: Global,
    columns: &PgColumns<'_>,
    room: &mut PgPlaces,
    body: &[u8],
) -> Result<PgOwnedRow, CodecError> {
    let row = PgRow::read(columns, room, body)?;
    row.to_owned(alloc)
}

/// What is asked of a row that is kept.
fn kept(
    alloc: Global,
    columns: &PgColumns<'_>,
    room: &mut PgPlaces,
    body: &[u8],
    call: &str,
) -> Result<String, CodecError> {
    let owned = keep(alloc, columns, room, body)?;
    let row = owned.as_row(columns)?;
    asked(alloc, &row, call)
}

/// The first two rows of a COPY stream of numbers and texts.
fn typed(alloc: Global, stream: &[u8]) -> Result<String, CodecError> {
    let columns = PgColumns::new(alloc)
        .with_type(PgTypeInfo(PgType::Int4))?
        .with_type(PgTypeInfo(PgType::Text))?;
    copied(alloc, &columns, stream)
}

/// What is asked of a row under its columns, which is read in a way.
fn read_in(
    alloc: Global,
    columns: &PgColumns<'_>,
    body: &[u8],
    way: &str,
    call: &str,
) -> Result<String, CodecError> {
    if matches!(way, "new" | "found") {
        let mut room = PgPlaces::new(alloc);
        return borrowed(alloc, columns, &mut room, body, way == "found", call);
    }
    if way == "pass" {
        return in_one_pass(alloc, columns, body, call);
    }
    if way == "copy" {
        return copied(alloc, columns, body);
    }
    if way == "typed" {
        return typed(alloc, body);
    }
    if way == "found-shared" {
        let mut room = PgPlaces::new(alloc);
        let body = Bytes::copy_from_slice(alloc, body)?;
        return shared(alloc, columns, &mut room, &body, true, call);
    }
    let mut room = PgPlaces::with_columns(alloc, columns)?;
    match way {
        "room" => borrowed(alloc, columns, &mut room, body, false, call),
        "kept" => kept(alloc, columns, &mut room, body, call),
        "shared" => {
            let body = Bytes::copy_from_slice(alloc, body)?;
            shared(alloc, columns, &mut room, &body, false, call)
        }
        _ => names(alloc, columns),
    }
}

/// A description and the body of a row.
#[derive(Drop)]
pub struct Rows {
    description: Vec<u8>,
    body: Vec<u8>,
}

impl Rows {
    /// None yet.
    pub fn new(alloc: Global) -> Rows {
        Rows {
            description: Vec::new(alloc),
            body: Vec::new(alloc),
        }
    }

    /// What is asked of them.
    fn read(&self, alloc: Global, way: &str, call: &str) -> Result<String, CodecError> {
        let known = known_types(alloc)?;
        let types = known.as_slice();
        let columns = PgColumns::read(alloc, self.description.as_slice(), &types)?;
        read_in(alloc, &columns, self.body.as_slice(), way, call)
    }
}

impl Called for Rows {
    fn holds(&mut self, alloc: Global, call: &str, wanted: &str) -> Result<bool, Again> {
        let (way, rest) = call.split_once(' ').unwrap_or((call, ""));
        match way {
            "describe" => {
                self.description = bytes_of(alloc, rest)?;
                Ok(wanted == "ok")
            }
            "body" => {
                self.body = bytes_of(alloc, rest)?;
                Ok(wanted == "ok")
            }
            _ => same(self.read(alloc, way, rest), wanted),
        }
    }
}
