//! Lists of numbers.

use super::back::{comes_back, read_text, repeated};
use pgv::CodecError;
use std::alloc::Global;

/// The numbers from 0 on.
fn numbers(alloc: Global) -> Result<Vec<i32>, CodecError> {
    let mut numbers = Vec::new(alloc);
    for number in 0..2_000_000 {
        numbers.push(number)?;
    }
    Ok(numbers)
}

/// Numbers that are written and read.
pub fn in_binary(alloc: Global) -> Result<bool, CodecError> {
    comes_back::<Vec<i32>>(alloc, &numbers(alloc)?)
}

/// Whether each is 7.
fn are_seven(numbers: &[i32]) -> bool {
    for number in numbers {
        if *number != 7 {
            return false;
        }
    }
    true
}

/// The text of a list of the number 7.
fn text_of_list(alloc: Global) -> Result<String, CodecError> {
    let mut text = String::from_str(alloc, "{")?;
    text.push_str(repeated(alloc, "7,", 1_999_999)?.as_str())?;
    text.push_str("7}")?;
    Ok(text)
}

/// The same number again and again.
pub fn in_text(alloc: Global) -> Result<bool, CodecError> {
    let text = text_of_list(alloc)?;
    let numbers = read_text::<Vec<i32>>(alloc, text.as_str())?;
    Ok(numbers.len() == 2_000_000 && are_seven(numbers.as_slice()))
}
