//! Types and values that are nested deep.

use crate::shown::debug;
use pgv::{Oid, PgType, PgTypeInfo, PgTypeKind, PgValueFormat, PgValueRef};
use pgv_fixtures::type_of;
use std::alloc::{AllocError, Global};
use std::test::Fail;

/// Domains one over the other, as many as this, over the composite type of an `int4` and a text.
fn domains(alloc: Global, depth: u32) -> Result<PgTypeInfo, AllocError> {
    let mut info = type_of(alloc, "(int4,text)")?;
    for _ in 0..depth {
        info = PgTypeInfo::custom(alloc, Oid(16800), "over", PgTypeKind::Domain(info))?;
    }
    Ok(info)
}

/// The record of 7 and `hi`.
const PAIR: &[u8] = b"\0\0\0\x02\0\0\0\x17\0\0\0\x04\0\0\0\x07\0\0\0\x19\0\0\0\x02hi";

#[test]
fn record_under_a_thousand_domains(rt: HostRuntime) -> Result<(), Fail> {
    let copy = domains(rt.alloc(), 1000)?.clone()?;
    let value = PgValueRef::new(Some(PAIR), copy, PgValueFormat::Binary);
    let found = debug::<(i32, String)>(rt.alloc(), value)?;
    assert_eq!(rt; found.as_str(), "(7, \"hi\")");
    Ok(())
}

type One = Vec<(i32, Vec<i32>)>;

type Two = Vec<(i32, One)>;

type Three = Vec<(i32, Two)>;

type Four = Vec<(i32, Three)>;

/// Four lists, one in the other, around a list of no numbers: each of one record, of 7 and the list inside.
const LISTS: &[u8] = b"\0\0\0\x01\0\0\0\0\0\0\x08\xc9\0\0\0\x01\0\0\0\x01\
    \0\0\0\xb4\0\0\0\x02\0\0\0\x17\0\0\0\x04\0\0\0\x07\0\0\x08\xef\0\0\0\x9c\
    \0\0\0\x01\0\0\0\0\0\0\x08\xc9\0\0\0\x01\0\0\0\x01\
    \0\0\0\x84\0\0\0\x02\0\0\0\x17\0\0\0\x04\0\0\0\x07\0\0\x08\xef\0\0\0\x6c\
    \0\0\0\x01\0\0\0\0\0\0\x08\xc9\0\0\0\x01\0\0\0\x01\
    \0\0\0\x54\0\0\0\x02\0\0\0\x17\0\0\0\x04\0\0\0\x07\0\0\x08\xef\0\0\0\x3c\
    \0\0\0\x01\0\0\0\0\0\0\x08\xc9\0\0\0\x01\0\0\0\x01\
    \0\0\0\x24\0\0\0\x02\0\0\0\x17\0\0\0\x04\0\0\0\x07\0\0\x03\xef\0\0\0\x0c\
    \0\0\0\0\0\0\0\0\0\0\0\0";

#[test]
fn lists_in_records_nine_deep(rt: HostRuntime) -> Result<(), Fail> {
    let records = PgTypeInfo(PgType::RecordArray);
    let value = PgValueRef::new(Some(LISTS), records, PgValueFormat::Binary);
    let found = debug::<Four>(rt.alloc(), value)?;
    assert_eq!(rt; found.as_str(), "[(7, [(7, [(7, [(7, [])])])])]");
    Ok(())
}
