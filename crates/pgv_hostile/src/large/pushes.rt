//! Labels, levels and bits that are pushed one by one.

use pgv::CodecError;
use pgv::types::{BitVec, PgLQuery, PgLQueryLevel, PgLTree, PgLTreeLabel};
use std::alloc::Global;

/// A tree of labels.
pub fn labels(alloc: Global) -> Result<bool, CodecError> {
    let mut tree = PgLTree::new(alloc);
    for _ in 0..100_000 {
        tree.push(PgLTreeLabel::from_str(alloc, "a")?)?;
    }
    Ok(tree.as_slice().len() == 100_000)
}

/// A query of levels.
pub fn levels(alloc: Global) -> Result<bool, CodecError> {
    let mut query = PgLQuery::new(alloc);
    for _ in 0..100_000 {
        query.push(PgLQueryLevel::from_str(alloc, "a")?)?;
    }
    Ok(query.as_slice().len() == 100_000)
}

/// Bits.
pub fn bits(alloc: Global) -> Result<bool, CodecError> {
    let mut bits = BitVec::new(alloc);
    for number in 0..1_200_000 {
        bits.push(number % 3 == 0)?;
    }
    Ok(bits.len() == 1_200_000 && bits.get(1_199_997) == Some(true))
}
