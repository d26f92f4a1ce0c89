//! Frames that are read.

use crate::seen::Seen;
use pgv_codec::{Decode, Type};
use pgv_value::{CodecError, PgValueFormat, PgValueRef};
use std::alloc::Global;

fn read_once<T: Decode + Type + Seen>(
    alloc: Global,
    bytes: &[u8],
    format: PgValueFormat,
) -> Result<usize, CodecError> {
    let mut sum = 0usize;
    let mut rest = bytes;
    for _ in 0..bytes.len() {
        if rest.is_empty() {
            return Ok(sum);
        }
        let part = PgValueRef::get(&mut rest, format, T::type_info())?;
        sum = sum.wrapping_add(T::decode(alloc, part)?.seen());
    }
    Ok(sum)
}

/// Reads the frames from the front `rounds` times, and answers the sum of what is seen of the values. `text` is 0 for
/// frames in binary.
pub fn read_all<T: Decode + Type + Seen>(
    alloc: Global,
    bytes: &[u8],
    rounds: u32,
    text: u32,
) -> Result<usize, CodecError> {
    let format = if text == 0 {
        PgValueFormat::Binary
    } else {
        PgValueFormat::Text
    };
    let mut sum = 0usize;
    for _ in 0..rounds {
        sum = sum.wrapping_add(read_once::<T>(alloc, bytes, format)?);
    }
    Ok(sum)
}

/// The values of frames in binary.
pub fn values_of<T: Decode + Type>(alloc: Global, bytes: &[u8]) -> Result<Vec<T>, CodecError> {
    let mut values = Vec::new(alloc);
    let mut rest = bytes;
    for _ in 0..bytes.len() {
        if rest.is_empty() {
            return Ok(values);
        }
        let part = PgValueRef::get(&mut rest, PgValueFormat::Binary, T::type_info())?;
        values.push(T::decode(alloc, part)?)?;
    }
    Ok(values)
}
