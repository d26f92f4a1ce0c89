//! Strings of bytes (PostgreSQL, "Binary Data Types", bytea).

ghost use Rattle.std.specs.Prelude.{◌≡◌, ◌≢◌, ◌%◌, ◌==◌, ◌&&◌, [], MatchResult, length, ok_or};
ghost use Rattle.pgv_value.specs.Outcome.{Gives, copied};
ghost use Rattle.pgv_value.specs.declared.error.CodecError.TheVariants.{Syntax};
ghost use Rattle.pgv_more.specs.ByteaText.{all_digits, bytea_in_text, after_prefix};
ghost use Rattle.std.specs.Option.{option_copied};

mod array;
mod codec;

pub use array::PgByteaArray;
use pgv_value::CodecError;
use std::alloc::{AllocError, Global};

/// A string of bytes, such as an image or a hash.
#[derive(Debug, Drop, PartialEq)]
pub struct PgBytea(pub Vec<u8>);

/// A copy of bytes. For no bytes no memory is asked for.
#[inline(always)]
pub(crate) fn copy_of(alloc: Global, bytes: &[u8]) -> Result<Vec<u8>, AllocError>
    ensures { MatchResult result (λ copy. copy.items ≡ bytes.now) (λ _. bytes.now ≢ []) }
{
    let mut copy = Vec::with_capacity(alloc, bytes.len())?;
    copy.extend_from_slice(bytes)?;
    Ok(copy)
}

/// The digits of a text `\x00ff`.
fn digits_of(text: &[u8]) -> Option<&[u8]>
    ensures { option_copied result ≡ after_prefix text.now }
{
    match text {
        [b'\\', b'x', digits @ ..] => Some(digits),
        _ => None,
    }
}

/// Whether each is a hex digit, of either case.
fn are_digits(digits: &[u8]) -> bool
    ensures { result ≡ all_digits digits.now }
{
    digits.iter().all(|digit| digit.is_ascii_hexdigit())
}

/// Whether they are pairs of hex digits.
fn are_pairs(digits: &[u8]) -> bool
    ensures { result ≡ (length digits.now % 2 == 0 && all_digits digits.now) }
{
    digits.len() % 2 == 0 && are_digits(digits)
}

/// The bytes of a text `\x00ff`. Pairs of digits are refused only where there is no memory for their bytes, and `\x`
/// needs none.
fn of_text(alloc: Global, text: &[u8]) -> Result<PgBytea, CodecError>
    ensures { Gives (λ b. b.0.items) (copied (ok_or (bytea_in_text text.now) Syntax)) result }
{
    let Some(digits) = digits_of(text) else {
        return Err(CodecError::Syntax);
    };
    if digits.is_empty() {
        return Ok(PgBytea(Vec::new(alloc)));
    }
    match hex::decode(alloc, digits) {
        Ok(bytes) => Ok(PgBytea(bytes)),
        Err(_) if are_pairs(digits) => Err(CodecError::Memory),
        Err(_) => Err(CodecError::Syntax),
    }
}
