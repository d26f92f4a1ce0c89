//! Types by the names that rows have for them.

use jiff::Timestamp;
use jiff::civil::DateTime;
use pgv::types::PgRange;
use pgv::{Oid, PgHasArrayType, PgType, PgTypeInfo, PgTypeKind, Type};
use std::alloc::{AllocError, Global};
use std::rc::{RcSlice, RcStr};

/// A composite type of these fields, in order.
fn composite(
    alloc: Global,
    name: &str,
    first: PgTypeInfo,
    second: PgTypeInfo,
) -> Result<PgTypeInfo, AllocError> {
    let mut fields = Vec::new(alloc);
    fields.push((RcStr::from_str(alloc, "a")?, first))?;
    fields.push((RcStr::from_str(alloc, "b")?, second))?;
    PgTypeInfo::custom(alloc, Oid(16700), name, PgTypeKind::Composite(fields))
}

/// A type that a server described, with its OID.
fn told(alloc: Global, oid: u32, name: &str, kind: PgTypeKind) -> Result<PgTypeInfo, AllocError> {
    PgTypeInfo::custom(alloc, Oid(oid), name, kind)
}

/// A simple type of this name, with the OID 16500, and its arrays, with the OID 16501.
fn arrays_of(alloc: Global, name: &str) -> Result<PgTypeInfo, AllocError> {
    let element = told(alloc, 16500, name, PgTypeKind::Simple)?;
    told(alloc, 16501, name, PgTypeKind::Array(element))
}

/// The composite type of an `int4` and a text of this type.
fn pair(alloc: Global, first: PgType) -> Result<PgTypeInfo, AllocError> {
    composite(alloc, "pair", PgTypeInfo(first), PgTypeInfo(PgType::Text))
}

/// The composite type of a page, whose second field is an `ltree` of the OID 16500.
fn page(alloc: Global) -> Result<PgTypeInfo, AllocError> {
    let ltree = told(alloc, 16500, "ltree", PgTypeKind::Simple)?;
    composite(alloc, "page", PgTypeInfo(PgType::Int4), ltree)
}

/// The arrays of ranges of lists of sizes.
fn size_ranges(alloc: Global) -> Result<PgTypeInfo, AllocError> {
    let range = PgTypeKind::Range(arrays_of(alloc, "size")?);
    let range = told(alloc, 16800, "sizerange", range)?;
    told(alloc, 16801, "_sizerange", PgTypeKind::Array(range))
}

/// The type of a row that a server described, by its name.
fn custom(alloc: Global, name: &str) -> Result<PgTypeInfo, AllocError> {
    match name {
        "(int4,text)" => pair(alloc, PgType::Int4),
        "(text,text)" => pair(alloc, PgType::Text),
        "domain over (int4,text)" => {
            let inner = PgTypeKind::Domain(pair(alloc, PgType::Int4)?);
            let inner = told(alloc, 16701, "inner", inner)?;
            told(alloc, 16702, "outer", PgTypeKind::Domain(inner))
        }
        "page" => page(alloc),
        "stay" => {
            let ltree = told(alloc, 16500, "ltree", PgTypeKind::Simple)?;
            composite(alloc, "stay", PgTypeInfo(PgType::DateRangeArray), ltree)
        }
        "page[]" => told(alloc, 16701, "_page", PgTypeKind::Array(page(alloc)?)),
        "mood[]" | "ltree[]" => arrays_of(alloc, name),
        "enum" => {
            let labels = RcSlice::from_vec(Vec::new(alloc))?;
            told(alloc, 16500, "mood", PgTypeKind::Enum(labels))
        }
        "sizerange[]" => size_ranges(alloc),
        "textrange" => {
            let text = PgTypeInfo(PgType::Text);
            told(alloc, 16700, "textrange", PgTypeKind::Range(text))
        }
        _ => Ok(PgTypeInfo::with_oid(Oid(0))),
    }
}

/// The type of a row, by its name.
pub fn type_of(alloc: Global, name: &str) -> Result<PgTypeInfo, AllocError> {
    match name {
        "bool" => Ok(PgTypeInfo(PgType::Bool)),
        "int4" => Ok(PgTypeInfo(PgType::Int4)),
        "int4[]" => Ok(PgTypeInfo(PgType::Int4Array)),
        "text" => Ok(PgTypeInfo(PgType::Text)),
        "text[]" => Ok(PgTypeInfo(PgType::TextArray)),
        "json" => Ok(PgTypeInfo(PgType::Json)),
        "jsonb" => Ok(PgTypeInfo(PgType::Jsonb)),
        "int8" => Ok(PgTypeInfo(PgType::Int8)),
        "uuid[]" => Ok(PgTypeInfo(PgType::UuidArray)),
        "varbit[]" => Ok(PgTypeInfo(PgType::VarbitArray)),
        "record" => Ok(PgTypeInfo(PgType::Record)),
        "record[]" => Ok(PgTypeInfo(PgType::RecordArray)),
        "int4range" => Ok(PgTypeInfo(PgType::Int4Range)),
        "int4range[]" => Ok(PgRange::<i32>::array_type_info()),
        "tsrange" => Ok(PgRange::<DateTime>::type_info()),
        "tstzrange" => Ok(PgRange::<Timestamp>::type_info()),
        "named mood[]" => Ok(PgTypeInfo::array_of("mood")),
        "named pair" => Ok(PgTypeInfo::with_name("pair")),
        "named int4range" => Ok(PgTypeInfo::with_name("int4range")),
        _ => custom(alloc, name),
    }
}
