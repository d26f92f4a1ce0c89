//! Values in rows.

use pgv::types::BitVec;
use pgv::{CodecError, PgArgumentBuffer, PgType, PgTypeInfo, PgValueFormat, PgValueRef};
use std::alloc::Global;
use std::test::Fail;

/// What is found in front of bytes: the part in hex, or the refusal; and how many bytes are left.
fn in_front(alloc: Global, bytes: &mut &[u8]) -> Result<String, CodecError> {
    let found = match PgValueRef::get(bytes, PgValueFormat::Binary, PgTypeInfo(PgType::Int2)) {
        Ok(value) if value.is_null() => String::from_str(alloc, "null")?,
        Ok(value) => hex::encode(alloc, value.as_bytes()?)?,
        Err(error) => format!(in alloc; "{error:?}")?,
    };
    Ok(format!(in alloc; "{found} {}", bytes.len())?)
}

#[test]
fn frames_in_front(rt: HostRuntime) -> Result<(), Fail> {
    let mut rest = b"\0\0\0\x02\x08\x09\xff\xff\xff\xff\xff\xff\xff\xfe".as_slice();
    for wanted in [
        "0809 8",
        "null 4",
        "NegativeLength(-2) 4",
        "NegativeLength(-2) 4",
    ] {
        let found = in_front(rt.alloc(), &mut rest)?;
        assert_eq!(rt; found.as_str(), wanted);
    }
    Ok(())
}

#[test]
fn seventy_thousand_bits(rt: HostRuntime) -> Result<(), CodecError> {
    let mut bits = BitVec::new(rt.alloc());
    for place in 0..70_000 {
        bits.push(place % 2 == 0)?;
    }
    let mut buffer = PgArgumentBuffer::new(rt.alloc());
    buffer.encode(&bits)?;
    assert_eq!(rt; (bits.len(), buffer.len()), (70_000, 8_758));
    Ok(())
}
