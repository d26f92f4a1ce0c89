//! Values of any type, made of frames.

use crate::reading::{read_all, values_of};
use crate::seen::Seen;
use crate::writing::write_all;
use pgv_codec::{Decode, Encode, Type};
use pgv_value::CodecError;
use std::alloc::Global;

/// Writes or reads the values of frames `rounds` times. `how` is 0 to add them to arguments and 1 to encode them, of
/// frames in binary that are decoded once before; 2 to read frames in binary, and 3 in text.
pub fn work<T: Decode + Encode + Type + Seen>(
    alloc: Global,
    bytes: &[u8],
    rounds: u32,
    how: u32,
) -> Result<usize, CodecError> {
    if how > 1 {
        return read_all::<T>(alloc, bytes, rounds, how - 2);
    }
    let values = values_of::<T>(alloc, bytes)?;
    write_all(alloc, values.as_slice(), rounds, how)
}
