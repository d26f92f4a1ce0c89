//! Changed bytes.

use std::alloc::{AllocError, Global};

/// What a byte is changed to, and four bytes.
const CHANGES: [&[u8]; 7] = [
    &[0],
    &[0x7f],
    &[0x80],
    &[0xff],
    &[0x7f, 0xff, 0xff, 0xff],
    &[0x80, 0, 0, 0],
    &[0xff, 0xff, 0xff, 0xff],
];

/// What two bytes are changed to at once.
const PAIRS: [&[u8]; 8] = [
    &[0, 0xff],
    &[0, 0x7f],
    &[0x7f, 0],
    &[0x7f, 0xff],
    &[0x80, 0],
    &[0x80, 0xff],
    &[0xff, 0],
    &[0xff, 0xff],
];

/// How far counts, dimensions, flags and lengths reach from the front.
const HEAD: usize = 20;

/// Each proper front of the bytes.
pub fn fronts(alloc: Global, bytes: &[u8]) -> Result<Vec<Vec<u8>>, AllocError> {
    let mut fronts = Vec::new(alloc);
    for end in 0..bytes.len() {
        fronts.push(bytes[..end].to_vec(alloc)?)?;
    }
    Ok(fronts)
}

/// The bytes with others in their place, or none where they end before.
fn changed(
    alloc: Global,
    front: &[u8],
    behind: &[u8],
    others: &[u8],
) -> Result<Option<Vec<u8>>, AllocError> {
    let Some(rest) = behind.get(others.len()..) else {
        return Ok(None);
    };
    let mut bytes = front.to_vec(alloc)?;
    bytes.extend_from_slice(others)?;
    bytes.extend_from_slice(rest)?;
    Ok(Some(bytes))
}

/// The bytes with each of these changes after the front.
fn push_changed(
    alloc: Global,
    front: &[u8],
    behind: &[u8],
    changes: &[&[u8]],
    mutants: &mut Vec<Vec<u8>>,
) -> Result<(), AllocError> {
    for others in changes {
        if let Some(mutant) = changed(alloc, front, behind, others)? {
            mutants.push(mutant)?;
        }
    }
    Ok(())
}

/// The bytes with a byte after them.
fn longer(alloc: Global, bytes: &[u8]) -> Result<Vec<u8>, AllocError> {
    let mut longer = bytes.to_vec(alloc)?;
    longer.push(0)?;
    Ok(longer)
}

/// Each proper front of the bytes, the bytes with one, two or four of them changed, and with a byte after them.
pub fn mutants(alloc: Global, bytes: &[u8]) -> Result<Vec<Vec<u8>>, AllocError> {
    let mut mutants = fronts(alloc, bytes)?;
    for place in 0..bytes.len() {
        let (front, behind) = bytes.split_at(place);
        push_changed(alloc, front, behind, &CHANGES, &mut mutants)?;
        if place < HEAD {
            push_changed(alloc, front, behind, &PAIRS, &mut mutants)?;
        }
    }
    mutants.push(longer(alloc, bytes)?)?;
    Ok(mutants)
}
