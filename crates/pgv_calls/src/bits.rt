//! Rows of calls on bits.

use pgv::CodecError;
use pgv::types::BitVec;
use pgv_fixtures::{Again, Called, bytes_of, told, written};
use std::alloc::{AllocError, Global};

/// Appends a bit.
fn push(bits: &mut BitVec, bit: bool) -> Result<(), CodecError> {
    Ok(bits.push(bit)?)
}

/// The bits of these digits, made of a list.
fn bits_of(alloc: Global, digits: &str) -> Result<BitVec, AllocError> {
    let mut bits = Vec::new(alloc);
    for digit in digits.chars() {
        bits.push(digit == '1')?;
    }
    BitVec::from_bits(alloc, bits)
}

/// The bytes of the bits, in hex.
fn bytes(alloc: Global, bits: &BitVec) -> Result<String, AllocError> {
    hex::encode(alloc, bits.to_bytes()?.as_slice())
}

/// Whether a bit is appended so.
fn pushed(bits: &mut BitVec, bit: bool, wanted: &str) -> Result<bool, Again> {
    let count = bits.len();
    let before = bits.to_bytes()?;
    let answer = push(bits, bit);
    let unmoved = answer.is_ok()
        || bits.len() == count && bits.to_bytes()?.as_slice() == before.as_slice();
    told(answer, unmoved, wanted)
}

/// The bits of a call that makes some.
fn made(alloc: Global, call: &str) -> Result<Option<BitVec>, Again> {
    if let Some(digits) = call.strip_prefix("of bytes ") {
        let bytes = bytes_of(alloc, digits)?;
        return Ok(Some(BitVec::from_bytes(alloc, bytes.as_slice())?));
    }
    match call.strip_prefix("of ") {
        Some(digits) => Ok(Some(bits_of(alloc, digits)?)),
        None => Ok(None),
    }
}

/// Bits that rows change.
#[derive(Drop)]
pub struct Bits(pub BitVec);

impl Called for Bits {
    fn holds(&mut self, alloc: Global, call: &str, wanted: &str) -> Result<bool, Again> {
        let bits = &mut self.0;
        if let Some(bit) = call.strip_prefix("push ") {
            return pushed(bits, bit == "1", wanted);
        }
        if let Some(made) = made(alloc, call)? {
            *bits = made;
            return Ok(wanted == "ok");
        }
        match call {
            "pop" => Ok(bits.pop() == Some(wanted == "1")),
            "bytes" => Ok(bytes(alloc, bits)?.as_str() == wanted),
            _ => Ok(written(alloc, bits)?.as_str() == wanted),
        }
    }
}
