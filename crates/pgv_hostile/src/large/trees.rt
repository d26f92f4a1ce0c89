//! Numbers of many digits, trees, queries and maps.

use super::back::{comes_back, read_text, repeated};
use pgv::CodecError;
use pgv::types::{PgHstore, PgLQuery, PgLTree, PgNumeric, PgNumericSign};
use std::alloc::{AllocError, Global};

/// As many digits as the form of a number can have.
fn nines(alloc: Global) -> Result<Vec<i16>, CodecError> {
    let mut digits = Vec::new(alloc);
    for _ in 0..32_767 {
        digits.push(9_999i16)?;
    }
    Ok(digits)
}

/// A number of as many digits as its form can have.
pub fn digits(alloc: Global) -> Result<bool, CodecError> {
    let number = PgNumeric::Number {
        sign: PgNumericSign::Negative,
        digits: nines(alloc)?,
        weight: 32_766,
        scale: 0,
    };
    comes_back(alloc, &number)
}

/// As many labels as a server's tree can have, of one letter.
fn labels(alloc: Global) -> Result<String, CodecError> {
    let mut text = repeated(alloc, "a.", 65_534)?;
    text.push_str("a")?;
    Ok(text)
}

/// A tree of its text.
pub fn tree(alloc: Global) -> Result<bool, CodecError> {
    let labels = labels(alloc)?;
    let tree = read_text::<PgLTree>(alloc, labels.as_str())?;
    Ok(tree.as_slice().len() == 65_535 && comes_back(alloc, &tree)?)
}

/// A query of its text.
pub fn query(alloc: Global) -> Result<bool, CodecError> {
    let levels = labels(alloc)?;
    let query = read_text::<PgLQuery>(alloc, levels.as_str())?;
    Ok(query.as_slice().len() == 65_535 && comes_back(alloc, &query)?)
}

/// The text of a number.
fn key(alloc: Global, number: u32) -> Result<String, AllocError> {
    format!(in alloc; "{number}")
}

/// Numbers with null.
fn pairs(alloc: Global) -> Result<Vec<(String, Option<String>)>, AllocError> {
    let mut pairs = Vec::new(alloc);
    for number in 0..100_000 {
        pairs.push((key(alloc, number)?, None))?;
    }
    Ok(pairs)
}

/// A map of numbers to null.
pub fn map(alloc: Global) -> Result<bool, CodecError> {
    let map = PgHstore::try_from_iter(alloc, pairs(alloc)?)?;
    comes_back(alloc, &map)
}
