//! Reads what `COPY items TO STDOUT (FORMAT binary)` sends of a table of an `int4`, a `text` that may be null and an
//! `int4[]`: a struct for each row. One list is kept for the values of a row, which are read where they lie.

use pgv::{CodecError, Decode, PgCopyReader, PgType, PgTypeInfo, PgValueRef};
use std::alloc::{AllocError, Global};

/// A row of the table.
#[derive(Drop)]
pub struct Item {
    /// The first column, an `int4`.
    pub id: i32,
    /// The second column, a `text` that may be null.
    pub name: Option<String>,
    /// The third column, an `int4[]`.
    pub sizes: Vec<i32>,
}

/// The types of the columns, in order.
pub fn columns(alloc: Global) -> Result<Vec<PgTypeInfo>, AllocError> {
    let mut types = Vec::with_capacity(alloc, 3)?;
    types.push(PgTypeInfo(PgType::Int4))?;
    types.push(PgTypeInfo(PgType::Text))?;
    types.push(PgTypeInfo(PgType::Int4Array))?;
    Ok(types)
}

/// All rows of a stream. Bytes that end before the stream does are refused with [`Short`](CodecError::Short) (C15).
pub fn read_items(alloc: Global, bytes: &[u8]) -> Result<Vec<Item>, CodecError> {
    let mut reader = PgCopyReader::new(bytes, columns(alloc)?)?;
    let mut row = Vec::new(alloc);
    let mut items = Vec::new(alloc);
    while reader.next_row_into(&mut row)? {
        items.push(read_item(alloc, row.as_slice())?)?;
    }
    Ok(items)
}

/// The values of a row, which are three.
pub fn read_item(alloc: Global, row: &[PgValueRef<'_>]) -> Result<Item, CodecError> {
    let [id, name, sizes] = row else {
        return Err(CodecError::FieldCount);
    };
    Ok(Item {
        id: i32::decode_by_ref(alloc, id)?,
        name: Option::decode_by_ref(alloc, name)?,
        sizes: Vec::decode_by_ref(alloc, sizes)?,
    })
}
