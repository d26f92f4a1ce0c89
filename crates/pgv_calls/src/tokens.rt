//! Calls of a list of tokens that take no memory where it has room.

use pgv::{Oid, PgTypeInfo, Tokens};
use std::alloc::{AllocError, Global};

/// A list with room for some bytes and a hole.
pub fn roomy(alloc: Global) -> Result<Tokens, AllocError> {
    let mut tokens = Tokens::new(alloc);
    tokens.push_hole(PgTypeInfo::with_name("mood"))?;
    tokens.reserve(64)?;
    Ok(tokens)
}

/// Puts a number in place of four bytes.
fn is_put(tokens: &mut Tokens) -> Result<bool, AllocError> {
    tokens.clear();
    let start = tokens.mark();
    tokens.extend_from_slice(&[0; 4])?;
    tokens.put_u32(start, 7);
    Ok(tokens.as_slice() == b"\0\0\0\x07".as_slice())
}

/// Puts an OID in its hole.
fn is_filled(tokens: &mut Tokens) -> Result<bool, AllocError> {
    tokens.clear();
    tokens.push_hole(PgTypeInfo::with_name("mood"))?;
    tokens.fill(&[], &[], &[Oid(9)]);
    Ok(tokens.as_slice() == b"\0\0\0\x09".as_slice() && tokens.hole_types().len() == 1)
}

/// Takes a hole off again.
fn is_back(tokens: &mut Tokens) -> Result<bool, AllocError> {
    let start = tokens.mark();
    let length = tokens.len();
    tokens.push_hole(PgTypeInfo::with_name("mood"))?;
    tokens.back(start);
    Ok(tokens.len() == length && start.slots() == 0)
}

/// Whether a list with room is changed so.
pub fn used(tokens: &mut Tokens) -> Result<bool, AllocError> {
    let changed = is_put(tokens)? && is_filled(tokens)?;
    tokens.clear();
    Ok(changed && tokens.is_empty() && is_back(tokens)?)
}
