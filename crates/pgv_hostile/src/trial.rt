//! What comes of bytes that are read at a Rust type.

use crate::tally::Outcome;
use pgv::{
    CodecError, Decode, Encode, Oid, PgArgumentBuffer, PgArguments, PgTypeInfo, PgValueFormat,
    PgValueRef, Type,
};
use std::alloc::{AllocError, Global};

/// The OID that the types of rows have for a type that is known by name.
fn oid_of(info: &PgTypeInfo) -> Oid {
    match info.name().text() {
        "page" | "pair" => Oid(16700),
        "sizerange" => Oid(16800),
        _ => Oid(16500),
    }
}

/// The OIDs of the types of holes, in order.
fn oids(alloc: Global, holes: &[PgTypeInfo]) -> Result<Vec<Oid>, AllocError> {
    let mut oids = Vec::new(alloc);
    for hole in holes {
        oids.push(oid_of(hole))?;
    }
    Ok(oids)
}

/// Fills the holes of one argument for a parameter of this type.
fn fill(alloc: Global, arguments: &mut PgArguments, info: &PgTypeInfo) -> Result<(), CodecError> {
    let oids = oids(alloc, arguments.hole_types())?;
    arguments.apply_patches(&[info.clone()?], oids.as_slice())
}

/// The frame of a value as a parameter of this type.
fn frame<T: Encode + Type>(
    alloc: Global,
    value: &T,
    info: &PgTypeInfo,
) -> Result<Vec<u8>, CodecError> {
    let mut arguments = PgArguments::new(alloc);
    arguments.add_by_ref(value)?;
    fill(alloc, &mut arguments, info)?;
    Ok(arguments.buffer().as_slice().to_vec(alloc)?)
}

/// The frame of the value in a frame.
fn frame_again<T: Decode + Encode + Type>(
    alloc: Global,
    frame_bytes: &[u8],
    info: &PgTypeInfo,
) -> Result<Vec<u8>, CodecError> {
    let mut rest = frame_bytes;
    let value = PgValueRef::get(&mut rest, PgValueFormat::Binary, info.clone()?)?;
    let value = T::decode(alloc, value)?;
    frame(alloc, &value, info)
}

/// What comes of a value that is only read.
pub fn read_only<T: Decode>(alloc: Global, value: PgValueRef<'_>) -> Outcome {
    match T::decode(alloc, value) {
        Ok(_) => Outcome::Read,
        Err(error) => Outcome::Refused(error.code()),
    }
}

/// The frame of a value that is read.
fn frame_of<T: Decode + Encode + Type>(
    alloc: Global,
    value: PgValueRef<'_>,
    info: &PgTypeInfo,
) -> Result<Vec<u8>, CodecError> {
    let value = T::decode(alloc, value)?;
    frame(alloc, &value, info)
}

/// What comes of a value that is read, written and read again.
pub fn read_again<T: Decode + Encode + Type>(
    alloc: Global,
    value: PgValueRef<'_>,
    info: &PgTypeInfo,
) -> Outcome {
    match frame_of::<T>(alloc, value, info) {
        Ok(frame) => compared(&frame, frame_again::<T>(alloc, frame.as_slice(), info)),
        Err(error) => Outcome::Refused(error.code()),
    }
}

/// Whether the frame of what was read from a frame is the same.
fn compared(frame: &Vec<u8>, again: Result<Vec<u8>, CodecError>) -> Outcome {
    if matches!(&again, Ok(again) if again.as_slice() == frame.as_slice()) {
        Outcome::Read
    } else {
        Outcome::Differs
    }
}

/// The frame of what is read from a value of a Rust type without a type of its own.
fn part_frame<T: Decode + Encode>(
    alloc: Global,
    value: PgValueRef<'_>,
) -> Result<Vec<u8>, CodecError> {
    let value = T::decode(alloc, value)?;
    let mut out = PgArgumentBuffer::new(alloc);
    out.encode(&value)?;
    Ok(out.as_slice().to_vec(alloc)?)
}

/// The same of the value in a frame.
fn part_frame_again<T: Decode + Encode>(
    alloc: Global,
    frame_bytes: &[u8],
    info: &PgTypeInfo,
) -> Result<Vec<u8>, CodecError> {
    let mut rest = frame_bytes;
    let value = PgValueRef::get(&mut rest, PgValueFormat::Binary, info.clone()?)?;
    part_frame::<T>(alloc, value)
}

/// What comes of a value of a Rust type without a type of its own, which is a part of others, that is read, written and
/// read again.
pub fn read_framed<T: Decode + Encode>(
    alloc: Global,
    value: PgValueRef<'_>,
    info: &PgTypeInfo,
) -> Outcome {
    match part_frame::<T>(alloc, value) {
        Ok(frame) => compared(&frame, part_frame_again::<T>(alloc, frame.as_slice(), info)),
        Err(error) => Outcome::Refused(error.code()),
    }
}
