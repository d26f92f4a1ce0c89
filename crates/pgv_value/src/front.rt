//! What is in front of bytes.

ghost use Rattle.std.specs.Prelude.{◌≡◌, ◌+◌, ◌<◌, ◌≤◌, length};
ghost use Rattle.pgv_value.specs.Fronts.{first_zero, u16_front, ended_front, name_front};
ghost use Rattle.pgv_value.specs.Interval.{eight_bytes, signed_four_bytes};
ghost use Rattle.pgv_value.specs.Parsed.{GivesExactly, GivesFront, GivesOr};
ghost use Rattle.pgv_value.specs.ReadingSteps.{number, signed_two};
ghost use Rattle.pgv_value.specs.declared.error.CodecError.TheVariants.{Short};

use crate::error::CodecError;
use byteorder::{BigEndian, ByteOrder};

/// The unsigned number of 16 bits in front, the highest byte first, and the rest: of `ffff00` it is 65535, and the rest
/// is `00`. Fewer than two bytes are refused with [`Short`](CodecError::Short) (C15).
#[inline(always)]
#[tactic(auto, unfolding(crate::specs::Fronts::u16_front))]
pub fn u16_in_front(bytes: &[u8]) -> Result<(u16, &[u8]), CodecError>
    ensures { GivesFront (GivesExactly (λ x. (x.0, x.1.now)) (u16_front bytes.now))
        (λ x. length x.1.now + 2 ≡ length bytes.now) result }
{
    if bytes.len() < 2 {
        return Err(CodecError::Short);
    }
    let (front, rest) = bytes.split_at(2);
    Ok((u16::from_be_bytes([front[0], front[1]]), rest))
}

/// The number of 32 bits in front, the highest byte first, and the rest: of `00000007ff` it is 7, and the rest is `ff`.
/// Fewer than four bytes are refused with [`Short`](CodecError::Short) (C15).
#[inline(always)]
#[tactic(auto, unfolding(crate::specs::ReadingSteps::number))]
pub fn u32_in_front(bytes: &[u8]) -> Result<(u32, &[u8]), CodecError>
    ensures { GivesFront (GivesOr (λ x. (x.0, x.1.now)) (number bytes.now) Short)
        (λ x. length x.1.now + 4 ≡ length bytes.now) result }
{
    if bytes.len() < 4 {
        return Err(CodecError::Short);
    }
    let (front, rest) = bytes.split_at(4);
    Ok((
        u32::from_be_bytes([front[0], front[1], front[2], front[3]]),
        rest,
    ))
}

/// The signed number of 16 bits in front, the highest byte first, and the rest: of `ffff00` it is -1, and the rest is
/// `00`. Fewer than two bytes are refused with [`Short`](CodecError::Short) (C15).
#[inline(always)]
#[tactic(auto, unfolding(crate::specs::ReadingSteps::signed_two))]
pub fn i16_in_front(bytes: &[u8]) -> Result<(i16, &[u8]), CodecError>
    ensures { GivesFront (GivesOr (λ x. (x.0, x.1.now)) (signed_two bytes.now) Short)
        (λ x. length x.1.now + 2 ≡ length bytes.now) result }
{
    if bytes.len() < 2 {
        return Err(CodecError::Short);
    }
    let (front, rest) = bytes.split_at(2);
    Ok((i16::from_be_bytes([front[0], front[1]]), rest))
}

/// The signed number of the eight bytes in front, the highest first, whatever comes after them. There have to be eight.
pub fn number_of_eight(bytes: &[u8]) -> i64
    requires { 8 ≤ length bytes.now }
    ensures { result ≡ eight_bytes bytes.now }
{
    BigEndian::read_i64(bytes)
}

/// The signed number of the four bytes in front, the highest first, whatever comes after them. There have to be four.
pub fn number_of_four(bytes: &[u8]) -> i32
    requires { 4 ≤ length bytes.now }
    ensures { result ≡ signed_four_bytes bytes.now }
{
    BigEndian::read_i32(bytes)
}

/// Where the first zero byte is.
fn first_zero(bytes: &[u8]) -> Option<usize>
    ensures { result ≡ first_zero bytes.now }
{
    bytes.iter().position(|byte| *byte == 0)
}

/// The bytes before the first zero byte, and those after it. Without a zero byte it is [`Short`](CodecError::Short)
/// (C15).
#[tactic(auto, unfolding(crate::specs::Fronts::ended_front), using(crate::proofs::Fronts::zero_within))]
fn ended_in_front(bytes: &[u8]) -> Result<(&[u8], &[u8]), CodecError>
    ensures { GivesFront (GivesExactly (λ x. (x.0.now, x.1.now)) (ended_front bytes.now))
        (λ x. length x.1.now < length bytes.now) result }
{
    let Some(end) = first_zero(bytes) else {
        return Err(CodecError::Short);
    };
    let (name, _zero) = bytes.split_at(end);
    let (_ended, rest) = bytes.split_at(end + 1);
    Ok((name, rest))
}

/// The text that a zero byte ends, and the rest: of `696400ff` it is `id`, and the rest is `ff` (PostgreSQL, "Message
/// Data Types", String). Without a zero byte it is refused with [`Short`](CodecError::Short) (C15), and where it isn't
/// UTF-8 with [`Utf8`](CodecError::Utf8) (C14).
#[tactic(auto, unfolding(crate::specs::Fronts::name_front), using(crate::proofs::Fronts::whole_text))]
pub fn name_in_front(bytes: &[u8]) -> Result<(&str, &[u8]), CodecError>
    ensures { GivesFront (GivesExactly (λ x. (x.0.now, x.1.now)) (name_front bytes.now))
        (λ x. length x.1.now < length bytes.now) result }
{
    let (name, rest) = ended_in_front(bytes)?;
    match str::from_utf8(name) {
        Ok(name) => Ok((name, rest)),
        Err(_) => Err(CodecError::Utf8),
    }
}
