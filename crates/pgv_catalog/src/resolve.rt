//! Types made of the rows of a catalogue, parts before wholes.

ghost use Rattle.std.specs.Prelude.{◌≡◌, ◌<◌, ◌⊎◌, [], true, false, Some, None, IfOk, IfErr, IfSome, OnOk, map, option_map, string_bytes};
ghost use Rattle.std.specs.Rc.{rc_slice_items, rc_str_bytes};
ghost use Rattle.pgv_types.specs.Shown.{kind_of as kind_shown};
ghost use Rattle.pgv_types.specs.declared.oid.Oid.{Oid as OidValue};
ghost use Rattle.pgv_catalog.specs.Rows.{AllAwait, AreAllKnown, AreMade, HasEndlessParts, IsIn, entry_in, entry_of_row, composite_fields, full_name_of, has_row, kind_in, label_rows, named_type, part_type, unmade};
ghost use Rattle.pgv_catalog.specs.Entries.{type_with_oid};
ghost use Rattle.pgv_catalog.specs.declared.error.CatalogError.TheVariants.{Memory, Cycle};
ghost use Rattle.pgv_catalog.specs.declared.rows.PgTypeRow.{PgTypeRow as TypeRow};

use crate::error::CatalogError;
use crate::rows::{PgCatalogRows, PgFieldRow, PgLabelRow, PgTypeClass, PgTypeRow};
use crate::server_types::{PgServerType, PgServerTypes};
use pgv_row::PgCatalog;
use pgv_types::{Oid, PgTypeInfo, PgTypeKind};
use std::alloc::{AllocError, Global};
use std::rc::{RcSlice, RcStr};

/// Whether a row is of the type with this OID.
fn has_type(rows: &[PgTypeRow], oid: Oid) -> bool
    ensures { result ≡ has_row rows.now oid.0 }
{
    rows.iter().any(|row| row.oid == oid)
}

/// The type with this OID as a part of another: the built-in one, or the one that was made of its row. One that has no
/// row is known by its OID alone. None where its row is still to come.
fn part_of(
    rows: &[PgTypeRow],
    oid: Oid,
    known: &PgServerTypes,
) -> Result<Option<PgTypeInfo>, AllocError>
    ensures { IfOk result (λ part. part ≡ part_type rows.now known.now oid.0) }
{
    if let Some(built_in) = PgTypeInfo::try_from_oid(oid) {
        return Ok(Some(built_in));
    }
    if let Some(made) = known.type_of(oid) {
        return Ok(Some(made.clone()?));
    }
    if has_type(rows, oid) {
        return Ok(None);
    }
    Ok(Some(PgTypeInfo::with_oid(oid)))
}

/// The fields of a composite type, or none where the type of one is still to come.
fn fields_of_type(
    alloc: Global,
    rows: &PgCatalogRows,
    oid: Oid,
    known: &PgServerTypes,
) -> Result<Option<Vec<(RcStr, PgTypeInfo)>>, AllocError>
    ensures { IfOk result (λ found. option_map (λ fields. map named_type fields.items) found
        ≡ composite_fields rows.now.types.items known.now oid.0 rows.now.fields.items) }
{
    let mut fields = Vec::new(alloc);
    for row in rows.fields.as_slice() {
        if row.of == oid {
            let Some(field_type) = part_of(rows.types.as_slice(), row.field_type, known)? else {
                return Ok(None);
            };
            fields.push((RcStr::from_str(alloc, row.name.as_str())?, field_type))?;
        }
    }
    Ok(Some(fields))
}

/// The labels of an enumeration.
fn labels_of_type(
    alloc: Global,
    rows: &[PgLabelRow],
    oid: Oid,
) -> Result<RcSlice<RcStr>, AllocError>
    ensures { IfOk result (λ labels. map rc_str_bytes (rc_slice_items labels)
        ≡ label_rows oid.0 rows.now) }
{
    let mut labels = Vec::new(alloc);
    for row in rows {
        if row.of == oid {
            labels.push(RcStr::from_str(alloc, row.label.as_str())?)?;
        }
    }
    RcSlice::from_vec(labels)
}

/// The kind of the type of a row, or none where a part of it is still to come.
fn kind_of(
    alloc: Global,
    rows: &PgCatalogRows,
    row: &PgTypeRow,
    known: &PgServerTypes,
) -> Result<Option<PgTypeKind>, AllocError>
    ensures { IfOk result (λ found. option_map kind_shown found
        ≡ kind_in rows.now known.now row.now) }
{
    let types = rows.types.as_slice();
    match row.class {
        PgTypeClass::Simple => Ok(Some(PgTypeKind::Simple)),
        PgTypeClass::Pseudo => Ok(Some(PgTypeKind::Pseudo)),
        PgTypeClass::Domain => match part_of(types, row.part, known)? {
            Some(base) => Ok(Some(PgTypeKind::Domain(base))),
            None => Ok(None),
        },
        PgTypeClass::Array => match part_of(types, row.part, known)? {
            Some(element) => Ok(Some(PgTypeKind::Array(element))),
            None => Ok(None),
        },
        PgTypeClass::Range => match part_of(types, row.part, known)? {
            Some(subtype) => Ok(Some(PgTypeKind::Range(subtype))),
            None => Ok(None),
        },
        PgTypeClass::Composite => match fields_of_type(alloc, rows, row.oid, known)? {
            Some(fields) => Ok(Some(PgTypeKind::Composite(fields))),
            None => Ok(None),
        },
        PgTypeClass::Enum => {
            let labels = labels_of_type(alloc, rows.labels.as_slice(), row.oid)?;
            Ok(Some(PgTypeKind::Enum(labels)))
        }
    }
}

/// A type's name with its schema and a dot before it.
fn full_name(alloc: Global, row: &PgTypeRow) -> Result<String, AllocError>
    ensures { IfOk result (λ name. string_bytes name ≡ full_name_of row.now) }
{
    let mut name = String::from_str(alloc, row.schema.as_str())?;
    name.push_str(".")?;
    name.push_str(row.name.as_str())?;
    Ok(name)
}

/// The type of a row, of this kind.
fn server_type(alloc: Global, row: &PgTypeRow, kind: PgTypeKind) -> Result<PgServerType, AllocError>
    ensures { IfOk result (λ made. made ≡ entry_of_row row.now (kind_shown kind)) }
{
    let full_name = full_name(alloc, row)?;
    let type_info = PgTypeInfo::custom(alloc, row.oid, row.name.as_str(), kind)?;
    Ok(PgServerType {
        full_name,
        is_visible: row.is_visible,
        type_info,
    })
}

/// The type of a row, or none where a part of it is still to come.
fn ready_type(
    alloc: Global,
    rows: &PgCatalogRows,
    row: &PgTypeRow,
    known: &PgServerTypes,
) -> Result<Option<PgServerType>, AllocError>
    ensures { IfOk result (λ found. found ≡ entry_in rows.now known.now row.now) }
{
    match kind_of(alloc, rows, row, known)? {
        Some(kind) => Ok(Some(server_type(alloc, row, kind)?)),
        None => Ok(None),
    }
}

/// Makes the types of all rows whose parts are known, in the order of the rows. Whether there was one.
fn add_ready(
    alloc: Global,
    rows: &PgCatalogRows,
    known: &mut PgServerTypes,
) -> Result<bool, AllocError>
    requires { AreMade rows.now [] known.old }
    ensures each { OnOk result (AreMade rows.now [] known.new) }
    ensures fewer { IfOk result (λ added. added ≡ true →
        unmade known.new rows.now.types.items < unmade known.old rows.now.types.items) }
    ensures waiting { IfOk result (λ added. added ≡ false
        → AllAwait rows.now known.new rows.now.types.items) }
{
    let mut added = false;
    for row in rows.types.as_slice() {
        if known.type_of(row.oid).is_none() {
            if let Some(made) = ready_type(alloc, rows, row, known)? {
                known.list.push(made)?;
                added = true;
            }
        }
    }
    Ok(added)
}

/// The types of all rows whose parts can be made.
fn make_all(alloc: Global, rows: &PgCatalogRows) -> Result<PgServerTypes, AllocError>
    ensures each { IfOk result (AreMade rows.now []) }
    ensures waiting { IfOk result (λ types. AllAwait rows.now types rows.now.types.items) }
{
    let mut known = PgServerTypes::new(alloc);
    loop {
        if !add_ready(alloc, rows, &mut known)? {
            return Ok(known);
        }
    }
}

/// The first row whose type was not made.
fn missing(rows: &[PgTypeRow], known: &PgServerTypes) -> Option<Oid>
    ensures missing { IfSome result (λ oid. type_with_oid oid.0 known.now ≡ None) }
    ensures there { IfSome result (λ oid. (row : TypeRow) × IsIn row rows.now
        × (row.oid.0 ≡ oid.0)) }
    ensures none { result ≡ None → AreAllKnown rows.now known.now }
{
    for row in rows {
        if known.type_of(row.oid).is_none() {
            return Some(row.oid);
        }
    }
    None
}

impl PgServerTypes {
    /// No types. It takes no memory yet.
    pub fn new(alloc: Global) -> PgServerTypes
        ensures { result ≡ [] }
    {
        PgServerTypes {
            list: Vec::new(alloc),
        }
    }

    /// The types that the rows of a server's catalogue show: each has the OID, the name and the kind that its rows
    /// have, and its parts are the types that come before it.
    ///
    /// [`CatalogError::Cycle`] of a type whose parts can be followed without end, since one of them is a part of
    /// itself. A part that is neither built in nor has a row is known by its OID alone.
    pub fn resolve(alloc: Global, rows: &PgCatalogRows) -> Result<PgServerTypes, CatalogError>
        ensures each { IfOk result (AreMade rows.now []) }
        ensures all { IfOk result (λ types. AreAllKnown rows.now.types.items types) }
        ensures refused { IfErr result (λ e.
            (e ≡ Memory) ⊎ ((oid : OidValue) × (e ≡ Cycle oid) × HasEndlessParts rows.now oid.0)) }
    {
        let known = make_all(alloc, rows)?;
        match missing(rows.types.as_slice(), &known) {
            Some(oid) => Err(CatalogError::Cycle(oid)),
            None => Ok(known),
        }
    }
}
