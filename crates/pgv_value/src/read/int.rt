//! Whole numbers of 8, 16, 32 and 64 bits.

ghost use Rattle.std.specs.Prelude.{◌≡◌, MatchResult};
ghost use Rattle.std.specs.Int.{w16, w32, w64};
ghost use Rattle.pgv_value.specs.IntBinary.{whole_number};
ghost use Rattle.pgv_value.specs.ScalarGrammar.{int_in_binary, parse_char, parse_int};
ghost use Rattle.pgv_value.specs.Parsed.{GivesExactly};
ghost use Rattle.pgv_value.specs.declared.error.CodecError.TheVariants.{OutOfRange};

use crate::error::CodecError;
use crate::value::{PgValueFormat, PgValueRef};
use byteorder::{BigEndian, ByteOrder};
use pgv_scalar_text::{char_of, number_of};
use std::num::TryFromIntError;

/// A number that was made one of another type: [`OutOfRange`](CodecError::OutOfRange) (C30) where that type doesn't
/// have it.
#[inline(always)]
pub(crate) fn in_type<T: Drop>(number: Result<T, TryFromIntError>) -> Result<T, CodecError>
    ensures { MatchResult number (λ n. result ≡ Ok n) (λ _. result ≡ Err OutOfRange) }
{
    match number {
        Ok(number) => Ok(number),
        Err(_) => Err(CodecError::OutOfRange),
    }
}

/// The number in one to eight bytes of two's complement, the highest first: of eight bytes, as most are, in one read.
/// Another length is refused with [`WrongLength`](CodecError::WrongLength) (C17).
#[inline(always)]
pub(crate) fn whole_number_of(bytes: &[u8]) -> Result<i64, CodecError>
    ensures { GivesExactly (λ number. number) (whole_number bytes.now) result }
{
    if bytes.len() == 8 {
        return Ok(BigEndian::read_i64(bytes));
    }
    if bytes.is_empty() || bytes.len() > 8 {
        return Err(CodecError::WrongLength(bytes.len()));
    }
    Ok(match bytes.len() {
        2 => i64::from(BigEndian::read_i16(bytes)),
        4 => i64::from(BigEndian::read_i32(bytes)),
        len => BigEndian::read_int(bytes, len),
    })
}

/// The number in one to eight bytes, if 32 bits have it: of four bytes, as nearly all are, in one read.
#[inline(always)]
pub(crate) fn number_of_32(bytes: &[u8]) -> Result<i32, CodecError>
    ensures { GivesExactly (λ number. number) (int_in_binary w32 bytes.now) result }
{
    if bytes.len() == 4 {
        return Ok(BigEndian::read_i32(bytes));
    }
    in_type(i32::try_from(whole_number_of(bytes)?))
}

/// Reads a `"char"` as a signed number: in binary one to eight bytes of two's complement, in text nothing for 0, `\`
/// for 92, `\` and three octal digits up to 377 for their byte, and else the first byte, where a text that begins with
/// `\` otherwise is refused with [`Syntax`](CodecError::Syntax) (C29). Another number of bytes is refused with
/// [`WrongLength`](CodecError::WrongLength) (C17), and a number that is outside 8 bits with
/// [`OutOfRange`](CodecError::OutOfRange) (C30). `ff` and `\\377` are -1.
#[inline(always)]
pub fn read_i8(value: &PgValueRef<'_>) -> Result<i8, CodecError>
    ensures { GivesExactly (λ number. number) (parse_char value.now) result }
{
    match value.format() {
        PgValueFormat::Binary => in_type(i8::try_from(whole_number_of(value.as_bytes()?)?)),
        PgValueFormat::Text => char_of(value.as_str()?).ok_or(CodecError::Syntax),
    }
}

/// Reads an `int2`: in binary one to eight bytes of two's complement, in text perhaps `+` or `-` and one or more
/// digits. Another number of bytes is refused with [`WrongLength`](CodecError::WrongLength) (C17), another text with
/// [`Syntax`](CodecError::Syntax) (C29), and a number outside 16 bits with [`OutOfRange`](CodecError::OutOfRange)
/// (C30). `0007`, `07` and `+7` are 7.
#[inline(always)]
pub fn read_i16(value: &PgValueRef<'_>) -> Result<i16, CodecError>
    ensures { GivesExactly (λ number. number) (parse_int w16 value.now) result }
{
    match value.format() {
        PgValueFormat::Binary => in_type(i16::try_from(whole_number_of(value.as_bytes()?)?)),
        PgValueFormat::Text => in_type(i16::try_from(number_of(value.as_str()?)?)),
    }
}

/// Reads an `int4`, as [`read_i16`] reads an `int2`; a number outside 32 bits is refused with
/// [`OutOfRange`](CodecError::OutOfRange) (C30). `00000007` is 7.
#[inline(always)]
pub fn read_i32(value: &PgValueRef<'_>) -> Result<i32, CodecError>
    ensures { GivesExactly (λ number. number) (parse_int w32 value.now) result }
{
    match value.format() {
        PgValueFormat::Binary => number_of_32(value.as_bytes()?),
        PgValueFormat::Text => in_type(i32::try_from(number_of(value.as_str()?)?)),
    }
}

/// Reads an `int8`, as [`read_i16`] reads an `int2`; a number outside 64 bits is refused with
/// [`OutOfRange`](CodecError::OutOfRange) (C30). `fffffffffffffff9` is -7.
#[inline(always)]
pub fn read_i64(value: &PgValueRef<'_>) -> Result<i64, CodecError>
    ensures { GivesExactly (λ number. number) (parse_int w64 value.now) result }
{
    match value.format() {
        PgValueFormat::Binary => whole_number_of(value.as_bytes()?),
        PgValueFormat::Text => Ok(number_of(value.as_str()?)?),
    }
}
