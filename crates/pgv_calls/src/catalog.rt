//! Rows of calls on a catalogue: `find NAME => OID`, and `fill => HEX`, the frame of a list of one mood.

use pgv::catalog::{
    CatalogError, PgCatalogRows, PgFieldRow, PgLabelRow, PgServerTypes, PgTypeClass, PgTypeRow,
    fill,
};
use pgv::{CodecError, Oid, PgArguments, PgEnum, PgTypeInfo};
use pgv_examples::mood::Mood;
use pgv_fixtures::{Again, Called, same};
use std::alloc::{AllocError, Global};

/// A type of the schema `app`.
fn type_row(
    alloc: Global,
    oid: u32,
    name: &str,
    class: PgTypeClass,
    part: u32,
) -> Result<PgTypeRow, AllocError> {
    Ok(PgTypeRow {
        oid: Oid(oid),
        schema: String::from_str(alloc, "app")?,
        name: String::from_str(alloc, name)?,
        is_visible: true,
        class,
        part: Oid(part),
    })
}

/// A type of each class with parts: its OID, its name, and the OID of its part. Wholes come before their parts.
const TYPES: [(u32, &str, PgTypeClass, u32); 5] = [
    (16601, "_mood", PgTypeClass::Array, 16600),
    (16600, "mood", PgTypeClass::Enum, 0),
    (16602, "item", PgTypeClass::Composite, 0),
    (16604, "span", PgTypeClass::Range, 16603),
    (16603, "positive", PgTypeClass::Domain, 23),
];

/// The rows of these types.
fn type_rows(alloc: Global) -> Result<Vec<PgTypeRow>, AllocError> {
    let mut rows = Vec::new(alloc);
    for (oid, name, class, part) in TYPES {
        rows.push(type_row(alloc, oid, name, class, part)?)?;
    }
    Ok(rows)
}

/// The row of the field of `item`.
fn field_row(alloc: Global) -> Result<PgFieldRow, AllocError> {
    Ok(PgFieldRow {
        of: Oid(16602),
        name: String::from_str(alloc, "moods")?,
        field_type: Oid(16601),
    })
}

/// The row of the label of `mood`.
fn label_row(alloc: Global) -> Result<PgLabelRow, AllocError> {
    Ok(PgLabelRow {
        of: Oid(16600),
        label: String::from_str(alloc, "ok")?,
    })
}

/// The rows of a catalogue.
fn rows(alloc: Global) -> Result<PgCatalogRows, AllocError> {
    Ok(PgCatalogRows {
        types: type_rows(alloc)?,
        fields: Vec::from_array(alloc, [field_row(alloc)?])?,
        labels: Vec::from_array(alloc, [label_row(alloc)?])?,
    })
}

/// A refusal by its number, where it has one.
fn codec_error(error: CatalogError) -> CodecError {
    match error {
        CatalogError::Memory => CodecError::Memory,
        CatalogError::Codec(error) => error,
        _ => CodecError::Caller(1),
    }
}

/// The types of these rows.
fn resolved(alloc: Global) -> Result<PgServerTypes, CodecError> {
    let rows = rows(alloc)?;
    match PgServerTypes::resolve(alloc, &rows) {
        Ok(types) => Ok(types),
        Err(error) => Err(codec_error(error)),
    }
}

/// The OID of the type of a name.
fn find(alloc: Global, name: &str) -> Result<String, CodecError> {
    let types = resolved(alloc)?;
    match types.find(name) {
        Some(found) => Ok(format!(in alloc; "{:?}", found.oid())?),
        None => Ok(String::from_str(alloc, "none")?),
    }
}

/// A list of one mood.
fn moods(alloc: Global) -> Result<PgArguments, CodecError> {
    let mut arguments = PgArguments::new(alloc);
    arguments.add([PgEnum(Mood::Fine)].to_vec(alloc)?)?;
    Ok(arguments)
}

/// Fills the arguments. A refusal has to leave them as they were; else it is C38(2).
fn fill_moods(
    alloc: Global,
    arguments: &mut PgArguments,
    types: &PgServerTypes,
) -> Result<(), CodecError> {
    let before = arguments.buffer().as_slice().to_vec(alloc)?;
    let parameters = [PgTypeInfo::array_of("mood")];
    let Err(error) = fill(alloc, arguments, &parameters, types) else {
        return Ok(());
    };
    if arguments.buffer().as_slice() == before.as_slice() {
        Err(codec_error(error))
    } else {
        Err(CodecError::Caller(2))
    }
}

/// The bytes of filled arguments.
fn filled(alloc: Global) -> Result<String, CodecError> {
    let mut arguments = moods(alloc)?;
    fill_moods(alloc, &mut arguments, &resolved(alloc)?)?;
    Ok(hex::encode(alloc, arguments.buffer().as_slice())?)
}

/// What rows of this kind call.
#[derive(Drop)]
pub struct Catalog;

impl Called for Catalog {
    fn holds(&mut self, alloc: Global, call: &str, wanted: &str) -> Result<bool, Again> {
        match call.strip_prefix("find ") {
            Some(name) => same(find(alloc, name), wanted),
            None => same(filled(alloc), wanted),
        }
    }
}
