//! Values that are written, and read again.

use pgv::{
    CodecError, Decode, Encode, PgArgumentBuffer, PgTypeInfo, PgValueFormat, PgValueRef, Type,
};
use std::alloc::Global;

/// Whether what is written of a value is read as an equal one, under the type of its Rust type.
pub fn comes_back<T: Encode + Decode + Type + PartialEq>(
    alloc: Global,
    value: &T,
) -> Result<bool, CodecError> {
    let mut out = PgArgumentBuffer::new(alloc);
    value.encode_by_ref(&mut out)?;
    let written = PgValueRef::new(Some(out.as_slice()), T::type_info(), PgValueFormat::Binary);
    let read = T::decode(alloc, written)?;
    Ok(read == *value)
}

/// The value of a text.
pub fn read_text<T: Decode + Type>(alloc: Global, text: &str) -> Result<T, CodecError> {
    let text = PgValueRef::new(Some(text.as_bytes()), T::type_info(), PgValueFormat::Text);
    T::decode(alloc, text)
}

/// A text, repeated.
pub fn repeated(alloc: Global, text: &str, count: u32) -> Result<String, CodecError> {
    let mut whole = String::new(alloc);
    for _ in 0..count {
        whole.push_str(text)?;
    }
    Ok(whole)
}
