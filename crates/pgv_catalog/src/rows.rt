//! Rows of the catalogue.

ghost use Rattle.std.specs.Prelude.{◌≡◌, Ok, MatchResult};
ghost use Rattle.pgv_catalog.specs.Classes.{class_of, ReadsField, ReadsLabel, ReadsType};

use pgv_row::{ColumnError, FromRow, PgRow};
use pgv_types::Oid;
use std::alloc::Global;

/// What kind of type a row of `pg_type` has (PostgreSQL, "pg_type", columns `typtype` and `typcategory`).
#[derive(Clone, Copy, Debug, PartialEq, Eq)]
pub enum PgTypeClass {
    /// A base type, a multirange, or one that this catalogue does not know.
    Simple,
    /// A pseudo-type.
    Pseudo,
    /// A domain; the part is its base.
    Domain,
    /// A composite type; its fields are rows of their own.
    Composite,
    /// An array; the part is its element.
    Array,
    /// An enumeration; its labels are rows of their own.
    Enum,
    /// A range; the part is its subtype.
    Range,
}

impl PgTypeClass {
    /// The class of a letter of `typtype`, or `a` (97) for an array: `c` (99) is a composite type, `d` (100) a domain,
    /// `e` (101) an enumeration, `p` (112) a pseudo-type, `r` (114) a range, and any other a type without parts.
    pub fn from_letter(letter: i8) -> PgTypeClass
        ensures { result ≡ class_of letter }
    {
        match letter {
            97 => PgTypeClass::Array,
            99 => PgTypeClass::Composite,
            100 => PgTypeClass::Domain,
            101 => PgTypeClass::Enum,
            112 => PgTypeClass::Pseudo,
            114 => PgTypeClass::Range,
            _ => PgTypeClass::Simple,
        }
    }
}

/// A type: a row of [`TYPES`](crate::TYPES).
#[derive(Drop)]
pub struct PgTypeRow {
    /// Its OID.
    pub oid: Oid,
    /// The schema that it is in.
    pub schema: String,
    /// Its name there.
    pub name: String,
    /// Whether its name alone finds it: its schema is on the server's search path, and no other before it has the name.
    pub is_visible: bool,
    /// What kind of type it is.
    pub class: PgTypeClass,
    /// The OID of the type that it is made of: the base of a domain, the element of an array, the subtype of a range.
    /// Else any number.
    pub part: Oid,
}

impl PgTypeRow {
    /// The type in a row of [`TYPES`](crate::TYPES).
    pub fn read(alloc: Global, row: &PgRow<'_>) -> Result<PgTypeRow, ColumnError<usize>>
        ensures { MatchResult result
            (ReadsType (⟦<(Oid, String, String, bool, i8, Oid) as FromRow>⟧.parse row.now))
            (⟦<(Oid, String, String, bool, i8, Oid) as FromRow>⟧.refused row.now) }
    {
        let (oid, schema, name, is_visible, letter, part) = row.as_tuple::<
            (Oid, String, String, bool, i8, Oid),
        >(alloc)?;
        Ok(PgTypeRow {
            oid,
            schema,
            name,
            is_visible,
            class: PgTypeClass::from_letter(letter),
            part,
        })
    }
}

/// A field of a composite type: a row of [`FIELDS`](crate::FIELDS).
#[derive(Drop)]
pub struct PgFieldRow {
    /// The OID of the composite type.
    pub of: Oid,
    /// The field's name.
    pub name: String,
    /// The OID of its type.
    pub field_type: Oid,
}

impl PgFieldRow {
    /// The field in a row of [`FIELDS`](crate::FIELDS).
    pub fn read(alloc: Global, row: &PgRow<'_>) -> Result<PgFieldRow, ColumnError<usize>>
        ensures { MatchResult result (ReadsField (⟦<(Oid, String, Oid) as FromRow>⟧.parse row.now))
            (⟦<(Oid, String, Oid) as FromRow>⟧.refused row.now) }
    {
        let (of, name, field_type) = row.as_tuple::<(Oid, String, Oid)>(alloc)?;
        Ok(PgFieldRow {
            of,
            name,
            field_type,
        })
    }
}

/// A label of an enumeration: a row of [`LABELS`](crate::LABELS).
#[derive(Drop)]
pub struct PgLabelRow {
    /// The OID of the enumeration.
    pub of: Oid,
    /// The label.
    pub label: String,
}

impl PgLabelRow {
    /// The label in a row of [`LABELS`](crate::LABELS).
    pub fn read(alloc: Global, row: &PgRow<'_>) -> Result<PgLabelRow, ColumnError<usize>>
        ensures { MatchResult result (ReadsLabel (⟦<(Oid, String) as FromRow>⟧.parse row.now))
            (⟦<(Oid, String) as FromRow>⟧.refused row.now) }
    {
        let (of, label) = row.as_tuple::<(Oid, String)>(alloc)?;
        Ok(PgLabelRow { of, label })
    }
}

/// What a server's catalogue shows of its types: the rows of the three statements, each list in the order that they
/// came.
#[derive(Drop)]
pub struct PgCatalogRows {
    /// The types.
    pub types: Vec<PgTypeRow>,
    /// The fields of composite types, those of one type in their order.
    pub fields: Vec<PgFieldRow>,
    /// The labels of enumerations, those of one type in their order.
    pub labels: Vec<PgLabelRow>,
}

impl PgCatalogRows {
    /// No rows. It takes no memory yet.
    pub fn new(alloc: Global) -> PgCatalogRows {
        PgCatalogRows {
            types: Vec::new(alloc),
            fields: Vec::new(alloc),
            labels: Vec::new(alloc),
        }
    }
}
