//! What is written for a value and read from it, in words.

use crate::again::Again;
use pgv::{CodecError, Decode, Encode, PgArgumentBuffer, PgValueRef};
use std::alloc::Global;
use std::fmt::Debug;

/// The number of a refusal, as in `C15`.
fn number(alloc: Global, error: &CodecError) -> Result<String, Again> {
    match error.code() {
        1 => Err(Again),
        number => Ok(format!(in alloc; "C{number}")?),
    }
}

/// What is written of a value, in hex, or the number of the refusal.
pub fn written<T: Encode>(alloc: Global, value: &T) -> Result<String, Again> {
    let mut out = PgArgumentBuffer::new(alloc);
    match value.encode_by_ref(&mut out) {
        Ok(_) => Ok(hex::encode(alloc, out.as_slice())?),
        Err(error) => number(alloc, &error),
    }
}

/// What is written of the value that is read, or the number of the refusal.
pub fn read_again<T: Decode + Encode>(
    alloc: Global,
    value: PgValueRef<'_>,
) -> Result<String, Again> {
    match T::decode(alloc, value) {
        Ok(value) => written(alloc, &value),
        Err(error) => number(alloc, &error),
    }
}

/// The value that is read as `Debug` shows it, or the refusal by its number and as `Debug` shows it.
pub fn read_shown<T: Decode + Debug>(
    alloc: Global,
    value: PgValueRef<'_>,
) -> Result<String, Again> {
    match T::decode(alloc, value) {
        Ok(value) => Ok(format!(in alloc; "{value:?}")?),
        Err(CodecError::Memory) => Err(Again),
        Err(error) => {
            let number = error.code();
            Ok(format!(in alloc; "C{number} {error:?}")?)
        }
    }
}

/// The bytes of hex digits.
pub fn bytes_of(alloc: Global, digits: &str) -> Result<Vec<u8>, Again> {
    hex::decode(alloc, digits.as_bytes()).or(Err(Again))
}
