//! Rows of calls that make, copy or write a value.

use bytes::Bytes;
use jiff::SignedDuration;
use pgv::types::{PgBytea, PgByteaArray, PgNumeric, PgNumericSign, PgRange};
use pgv::{
    CodecError, Oid, PgCopyReader, PgCustomType, PgType, PgTypeInfo, PgTypeKind, PgValue,
    PgValueFormat, PgValueRef,
};
use pgv_fixtures::{Again, Called, Tries, bytes_of, same, sizes, written};
use std::alloc::{AllocError, Global};
use std::rc::{RcSlice, RcStr};
use std::time::Duration;

/// The bytes 2 to 6 of a row that is gone when they are answered.
fn of_row(alloc: Global) -> Result<PgValue, CodecError> {
    let row = Bytes::copy_from_slice(alloc, &[0, 1, 2, 3, 4, 5, 6, 7])?;
    let bytea = PgTypeInfo(PgType::Bytea);
    let value = PgValueRef::from_row(&row, 2, 6, bytea, PgValueFormat::Binary);
    let copy = value.clone()?;
    copy.to_owned(alloc)
}

/// A text without a row.
fn of_text(alloc: Global) -> Result<PgValue, CodecError> {
    let text = PgTypeInfo(PgType::Text);
    PgValueRef::new(Some("π".as_bytes()), text, PgValueFormat::Text).to_owned(alloc)
}

/// The bytes of a value in hex, and whether it is a text.
fn lent(alloc: Global, value: &PgValueRef<'_>) -> Result<String, CodecError> {
    let bytes = hex::encode(alloc, value.as_bytes()?)?;
    let is_text = value.format() == PgValueFormat::Text;
    Ok(format!(in alloc; "{bytes} {is_text}")?)
}

/// The name of the type of a value, its bytes in hex, and whether it is a text.
fn named(alloc: Global, value: &PgValue) -> Result<String, CodecError> {
    let lent = lent(alloc, &value.as_ref()?)?;
    Ok(format!(in alloc; "{} {lent}", value.type_info())?)
}

/// The same of a copy of a value, or why there is none.
fn owned(alloc: Global, value: Result<PgValue, CodecError>) -> Result<String, CodecError> {
    let copy = value?.clone()?;
    named(alloc, &copy)
}

/// One field, `x` of the type `int4`.
fn fields(alloc: Global) -> Result<PgTypeKind, AllocError> {
    let mut fields = Vec::new(alloc);
    fields.push((RcStr::from_str(alloc, "x")?, PgTypeInfo(PgType::Int4)))?;
    Ok(PgTypeKind::Composite(fields))
}

/// One label, `sad`.
fn labels(alloc: Global) -> Result<PgTypeKind, AllocError> {
    let mut labels = Vec::new(alloc);
    labels.push(RcStr::from_str(alloc, "sad")?)?;
    Ok(PgTypeKind::Enum(RcSlice::from_vec(labels)?))
}

/// A kind of each form.
fn kind(alloc: Global, name: &str) -> Result<PgTypeKind, AllocError> {
    match name {
        "simple" => Ok(PgTypeKind::Simple),
        "pseudo" => Ok(PgTypeKind::Pseudo),
        "domain" => Ok(PgTypeKind::Domain(PgTypeInfo(PgType::Int4))),
        "composite" => fields(alloc),
        "array" => Ok(PgTypeKind::Array(PgTypeInfo::with_name("y"))),
        "enum" => labels(alloc),
        _ => Ok(PgTypeKind::Range(PgTypeInfo::array_of("z"))),
    }
}

/// The name of the copy of a custom type of a copy of this kind, where it is the same type.
fn copied(alloc: Global, name: &str) -> Result<String, AllocError> {
    let kind = kind(alloc, name)?.clone()?;
    let custom = PgTypeInfo::custom(alloc, Oid(16500), "mood", kind)?;
    name_of_copy(alloc, &custom)
}

/// The name of the copy of a type, where it is the same type.
fn name_of_copy(alloc: Global, custom: &PgTypeInfo) -> Result<String, AllocError> {
    let copy = custom.clone()?;
    if copy.type_eq(custom) {
        format!(in alloc; "{copy}")
    } else {
        String::from_str(alloc, "another")
    }
}

/// The name of a copy of a custom type itself.
fn copied_custom(alloc: Global) -> Result<String, AllocError> {
    let custom = PgTypeInfo::custom(alloc, Oid(16500), "mood", PgTypeKind::Simple)?;
    match &custom.0 {
        PgType::Custom(inner) => {
            let copy = PgCustomType::clone(inner)?;
            String::from_str(alloc, copy.name())
        }
        _ => String::from_str(alloc, "no custom type"),
    }
}

/// The types of the columns of a stream.
fn columns(alloc: Global) -> Result<Vec<PgTypeInfo>, AllocError> {
    let mut types = Vec::new(alloc);
    types.push(PgTypeInfo(PgType::Int4))?;
    types.push(PgTypeInfo(PgType::Text))?;
    Ok(types)
}

/// The next row of a stream. Out of memory it leaves the reader as it was, so it is read once more.
fn next_row<'r>(
    tries: &Tries,
    reader: &mut PgCopyReader<'r>,
) -> Result<Option<Vec<PgValueRef<'r>>>, CodecError> {
    match reader.next_row() {
        Err(CodecError::Memory) => {
            tries.count();
            reader.next_row()
        }
        answer => answer,
    }
}

/// The same into a list that is kept.
fn next_row_into<'r>(
    tries: &Tries,
    reader: &mut PgCopyReader<'r>,
    row: &mut Vec<PgValueRef<'r>>,
) -> Result<bool, CodecError> {
    match reader.next_row_into(row) {
        Err(CodecError::Memory) => {
            tries.count();
            reader.next_row_into(row)
        }
        answer => answer,
    }
}

/// How many rows there are in such a stream, all read into one list, and how many values they have.
fn rows_in_list(alloc: Global, tries: &Tries, digits: &str) -> Result<String, CodecError> {
    let Ok(bytes) = bytes_of(alloc, digits) else {
        return Err(CodecError::Memory);
    };
    let mut reader = PgCopyReader::new(bytes.as_slice(), columns(alloc)?)?;
    let mut row = Vec::new(alloc);
    let mut rows = 0u32;
    let mut values = 0usize;
    for _ in 0..bytes.len() {
        if !next_row_into(tries, &mut reader, &mut row)? {
            break;
        }
        rows = rows.saturating_add(1);
        values = values.saturating_add(row.len());
    }
    Ok(format!(in alloc; "{rows} {values}")?)
}

/// How many rows there are in a stream of an `int4` and a text.
fn rows(alloc: Global, tries: &Tries, digits: &str) -> Result<String, CodecError> {
    let Ok(bytes) = bytes_of(alloc, digits) else {
        return Err(CodecError::Memory);
    };
    let mut reader = PgCopyReader::new(bytes.as_slice(), columns(alloc)?)?;
    let mut rows = 0u32;
    for _ in 0..bytes.len() {
        if next_row(tries, &mut reader)?.is_none() {
            break;
        }
        rows = rows.saturating_add(1);
    }
    Ok(format!(in alloc; "{rows}")?)
}

/// The number 123.45, by its digits.
fn number(alloc: Global) -> Result<PgNumeric, AllocError> {
    Ok(PgNumeric::Number {
        sign: PgNumericSign::Positive,
        digits: [123i16, 4500].to_vec(alloc)?,
        weight: 0,
        scale: 2,
    })
}

/// What is written of a value that is made of others, in hex.
fn written_list(alloc: Global, name: &str) -> Result<String, Again> {
    match name {
        "[i32; 2]" => written(alloc, &[1, 2]),
        "reference" => written(alloc, &&7i32),
        "some" => written(alloc, &Some(7i32)),
        "list of a range" => {
            let mut ranges = Vec::new(alloc);
            ranges.push(PgRange::from(1..10)).or(Err(Again))?;
            written(alloc, &ranges)
        }
        "range of a list" => match sizes(alloc, 7) {
            Ok(sizes) => written(alloc, &PgRange::from(sizes..)),
            Err(_) => Err(Again),
        },
        _ => Ok(String::from_str(alloc, "no such value")?),
    }
}

/// What is written of a value, in hex.
fn written_value(alloc: Global, name: &str) -> Result<String, Again> {
    match name {
        "duration" => written(alloc, &Duration::from_secs(3600)),
        "signed duration" => written(alloc, &SignedDuration::from_secs(3600)),
        "numeric" => written(alloc, &number(alloc)?),
        "zero" => written(alloc, &PgNumeric::zero(alloc)),
        "bytea" => written(alloc, &PgBytea([0u8, 255].to_vec(alloc)?)),
        "bytea of two" => written(alloc, &PgByteaArray([1, 2])),
        _ => written_list(alloc, name),
    }
}

/// Whether what is written for a value is what is expected.
fn is_written(alloc: Global, name: &str, wanted: &str) -> Result<bool, Again> {
    Ok(written_value(alloc, name)?.as_str() == wanted)
}

/// Whether a name is the expected one.
fn is_name(name: Result<String, AllocError>, wanted: &str) -> Result<bool, Again> {
    Ok(name?.as_str() == wanted)
}

/// What rows of this kind call.
#[derive(Drop)]
pub struct Values<'a>(pub &'a Tries);

impl Called for Values<'_> {
    fn holds(&mut self, alloc: Global, call: &str, wanted: &str) -> Result<bool, Again> {
        let (form, name) = call.split_once(' ').unwrap_or((call, ""));
        match form {
            "written" => is_written(alloc, name, wanted),
            "kind" => is_name(copied(alloc, name), wanted),
            "custom" => is_name(copied_custom(alloc), wanted),
            "rows" => same(rows(alloc, self.0, name), wanted),
            "rows-in-list" => same(rows_in_list(alloc, self.0, name), wanted),
            "row" => same(owned(alloc, of_row(alloc)), wanted),
            _ => same(owned(alloc, of_text(alloc)), wanted),
        }
    }
}
