//! Types of a server: its catalogue as rows, what these make of OIDs, and how they fill holes and describe columns.

ghost use Rattle.std.specs.Prelude.{◌≡◌, [], IfOk, OnErr};
ghost use Rattle.pgv.specs.Words.{AreMade};

use pgv::catalog::{
    CatalogError, FIELDS, LABELS, PgCatalogRows, PgFieldRow, PgLabelRow, PgServerTypes, PgTypeRow,
    TYPES, fill,
};
use pgv::row::{PgColumns, PgRow};
use pgv::{CodecError, PgArguments, PgTypeInfo};
use std::alloc::Global;

/// The statements that ask for the catalogue, in the order in which their rows are kept. Their results are in binary.
pub const STATEMENTS: [&str; 3] = [TYPES, FIELDS, LABELS];

/// Keeps a row of the statement at this place.
pub fn keep(
    alloc: Global,
    statement: usize,
    row: &PgRow<'_>,
    rows: &mut PgCatalogRows,
) -> Result<(), CodecError> {
    match statement {
        0 => Ok(rows.types.push(PgTypeRow::read(alloc, row)?)?),
        1 => Ok(rows.fields.push(PgFieldRow::read(alloc, row)?)?),
        _ => Ok(rows.labels.push(PgLabelRow::read(alloc, row)?)?),
    }
}

/// The types that the rows show, parts before wholes.
pub fn types_of(alloc: Global, rows: &PgCatalogRows) -> Result<PgServerTypes, CatalogError>
    ensures { IfOk result (AreMade rows.now []) }
{
    PgServerTypes::resolve(alloc, rows)
}

/// Fills the holes of arguments, where the server named these types for the parameters. A refusal changes nothing.
pub fn fill_by(
    alloc: Global,
    arguments: &mut PgArguments,
    parameters: &[PgTypeInfo],
    types: &PgServerTypes,
) -> Result<(), CatalogError>
    ensures { OnErr result (arguments.new ≡ arguments.old) }
{
    fill(alloc, arguments, parameters, types)
}

/// The columns of a RowDescription.
pub fn columns_by<'d>(
    alloc: Global,
    body: &'d [u8],
    types: &PgServerTypes,
) -> Result<PgColumns<'d>, CodecError> {
    PgColumns::read(alloc, body, types)
}
